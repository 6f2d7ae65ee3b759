ghost use Rattle.std.specs.Prelude.{◌≡◌, ◌<◌, [], ◌∷◌, ◌++◌, None, IsTrue, IsSome, OnOk, OnErr, IfOk};
ghost use Rattle.std.specs.List.{All};
ghost use Rattle.case_tables.specs.Compatibility.{is_given, verdict, quarantine};
ghost use Rattle.rows_model.specs.Placement.{shard_of};
ghost use Rattle.lease_table.specs.Leases.{holding, quars, way_of, Leaves};
ghost use Rattle.key_shard.specs.Answers.{Answers, FitsShift, quarantine_step, refused_step};
ghost use Rattle.key_shard.specs.Kept.{IsKept, shown, steps_of, terms_of};
ghost use Rattle.key_shard.specs.Outs.{out_as};
ghost use Rattle.key_shard.specs.Past.{deadline_at, entry, holder_of, next_token, seen_by};
ghost use Rattle.key_shard.specs.Replies.{ShowsQuarantine, old_value};
ghost use Rattle.key_shard.specs.Shards.{Refuses, refusal, spent_at, stepped};

use crate::bodies::Body;
use crate::grants::Grant;
use crate::outs::{Out, Outs};
use crate::replies::{QAnswer, ShardFault};
use crate::steps::Step;
use case_tables::Verdict;
use lease_table::{Leases, Mode, Quar};
use rows_model::{Memory, QKey, Sid, Value};

impl Body {
    /// Asks for a quarantine, as a shard does.
    pub fn quarantine(
        &mut self,
        key: QKey,
        sid: Sid,
        mode: Mode,
        shift: i32,
        now: u64,
    ) -> Result<QAnswer, ShardFault>
        requires kept { IsKept self.old }
        requires fits { FitsShift mode shift }
        ensures kept { IsKept self.new }
        ensures refusal { let step = quarantine_step (terms_of self.old)
            (steps_of self.old) key sid mode shift now in
            Refuses (refusal (shown self.old) key step) result }
        ensures step { let step = quarantine_step (terms_of self.old)
            (steps_of self.old) key sid mode shift now in
            OnOk result (shown self.new ≡ stepped (shown self.old) step) }
        ensures shows { let step = quarantine_step (terms_of self.old)
            (steps_of self.old) key sid mode shift now in
            IfOk result (ShowsQuarantine (terms_of self.old) (steps_of self.old) step) }
        ensures err { OnErr result (shown self.new ≡ shown self.old) }
    {
        self.check_home(&key)?;
        match self.leases.judge_q(&key, sid, mode, now) {
            Verdict::Give | Verdict::Void | Verdict::Join => {
                self.grant(key, sid, mode, shift, now)
            }
            Verdict::Same => Ok(self.held(key, sid, mode)?),
            Verdict::Refuse => Ok(self.refuse(key, sid, mode)?),
            Verdict::Wait | Verdict::Own | Verdict::Raise | Verdict::Gone => unreachable!(),
        }
    }

    /// Answers that the session has this quarantine already.
    fn held(&mut self, key: QKey, sid: Sid, mode: Mode) -> Result<QAnswer, Memory>
        requires kept { IsKept self.old }
        requires answers { Answers (terms_of self.old) (steps_of self.old)
            (Step.Held key sid mode) }
        ensures kept { IsKept self.new }
        ensures step { OnOk result (shown self.new ≡ stepped (shown self.old)
            (Step.Held key sid mode)) }
        ensures shows { IfOk result (λ answer. answer ≡ QAnswer.Held) }
        ensures err { OnErr result (shown self.new ≡ shown self.old) }
    {
        self.note(Step::Held { key, sid, mode })?;
        Ok(QAnswer::Held)
    }

    /// Answers who holds the key.
    fn refuse(&mut self, key: QKey, sid: Sid, mode: Mode) -> Result<QAnswer, Memory>
        requires kept { IsKept self.old }
        requires holder { IsSome (holder_of key sid (steps_of self.old)) }
        requires answers { Answers (terms_of self.old) (steps_of self.old)
            (refused_step key sid mode (holder_of key sid (steps_of self.old))) }
        ensures kept { IsKept self.new }
        ensures step { OnOk result (shown self.new ≡ stepped (shown self.old)
            (refused_step key sid mode (holder_of key sid (steps_of self.old)))) }
        ensures shows { IfOk result (ShowsQuarantine (terms_of self.old) (steps_of self.old)
            (refused_step key sid mode (holder_of key sid (steps_of self.old)))) }
        ensures err { OnErr result (shown self.new ≡ shown self.old) }
    {
        let quar = self.leases.holder(&key, sid).unwrap();
        let (holder, held) = (quar.sid, quar.mode);
        self.note(Step::Refused {
            key,
            sid,
            mode,
            holder,
            held,
        })?;
        Ok(QAnswer::Refused { holder, mode: held })
    }

    /// In mode Refresh the entry of the key.
    pub fn old_value(&self, key: &QKey, mode: Mode) -> Result<Option<(Value, u64)>, Memory>
        requires { IsKept self.now }
        ensures { IfOk result (λ old. old ≡ old_value mode (entry key.now (steps_of self.now))) }
    {
        if mode.place() != Mode::Refresh.place() {
            return Ok(None);
        }
        match self.entries.peek(key) {
            Some((value, stamp)) => Ok(Some((value.copy()?, stamp))),
            None => Ok(None),
        }
    }

    /// Grants a quarantine, which ends the lease to read the key, and reserves two places of the history
    /// for it.
    fn grant(
        &mut self,
        key: QKey,
        sid: Sid,
        mode: Mode,
        shift: i32,
        now: u64,
    ) -> Result<QAnswer, ShardFault>
        requires kept { IsKept self.old }
        requires home { shard_of key self.old.count ≡ self.old.no }
        requires given { IsTrue (is_given (verdict (seen_by key sid now (steps_of self.old))
            (quarantine (way_of mode)))) }
        requires answers { Answers (terms_of self.old) (steps_of self.old)
            (Step.Granted key sid mode shift now (next_token (terms_of self.old)
            (steps_of self.old)) (deadline_at (terms_of self.old) now)) }
        ensures kept { IsKept self.new }
        ensures refusal { Refuses (spent_at (next_token (terms_of self.old) (steps_of self.old))
            (Step.Granted key sid mode shift now (next_token (terms_of self.old)
            (steps_of self.old)) (deadline_at (terms_of self.old) now))) result }
        ensures step { OnOk result (shown self.new ≡ stepped (shown self.old)
            (Step.Granted key sid mode shift now (next_token (terms_of self.old)
            (steps_of self.old)) (deadline_at (terms_of self.old) now))) }
        ensures shows { IfOk result (ShowsQuarantine (terms_of self.old) (steps_of self.old)
            (Step.Granted key sid mode shift now (next_token (terms_of self.old)
            (steps_of self.old)) (deadline_at (terms_of self.old) now))) }
        ensures err { OnErr result (shown self.new ≡ shown self.old) }
    {
        let token = self.next;
        if token == u64::MAX {
            return Err(ShardFault::Spent { next: token });
        }
        let old = self.old_value(&key, mode)?;
        self.history.make_room(self.promised, 3)?;
        let deadline = self.deadline(now);
        let quar = Quar {
            sid,
            mode,
            token,
            deadline,
            shift,
        };
        let grant = Grant::of(self.history.allocator(), self.no, key, sid, mode, token)?;
        let Ok(()) = stand(&mut self.leases, &mut self.out, key, quar, now) else {
            let _ = grant.spend();
            return Err(ShardFault::Memory);
        };
        self.next = token + 1;
        self.promised += 2;
        self.history.push(Step::Granted {
            key,
            sid,
            mode,
            shift,
            now,
            token,
            deadline,
        });
        Ok(QAnswer::Granted { grant, old })
    }
}

/// Puts a quarantine on its key and its grant among those that are out, or neither.
fn stand(
    leases: &mut Leases,
    outs: &mut Outs,
    key: QKey,
    quar: Quar,
    now: u64,
) -> Result<(), Memory>
    requires last_there { All (λ other. other.token < quar.token) (quars key leases.old) }
    requires last_out { All (λ other. other.token < quar.token) outs.old }
    requires given { IsTrue (is_given (verdict (holding key quar.sid now leases.old)
        (quarantine (way_of quar.mode)))) }
    ensures stands { OnOk result
        (Leaves key None (quars key leases.old ++ quar ∷ []) leases.old leases.new) }
    ensures out { OnOk result (outs.new ≡ outs.old ++ out_as key quar ∷ []) }
    ensures leases_left { OnErr result (leases.new ≡ leases.old) }
    ensures outs_left { OnErr result (outs.new ≡ outs.old) }
{
    outs.add(Out {
        key,
        sid: quar.sid,
        mode: quar.mode,
        token: quar.token,
    })?;
    let Ok(_) = leases.ask_q(key, quar, now) else {
        outs.drop_last();
        return Err(Memory);
    };
    Ok(())
}
