ghost use Rattle.std.specs.Prelude.{◌≡◌, ℕ, Some, OnOk, OnErr, IfOk, IfSome, IfNone};
ghost use Rattle.case_tables.specs.Compatibility.{verdict, read};
ghost use Rattle.key_shard.specs.Answers.{Answers, IsAtHome, get_step};
ghost use Rattle.key_shard.specs.Kept.{IsKept, shown, steps_of, terms_of};
ghost use Rattle.key_shard.specs.Past.{deadline_at, entry, next_token, seen_by};
ghost use Rattle.key_shard.specs.Replies.{ShowsGot};
ghost use Rattle.key_shard.specs.Shards.{Refuses, refusal, spent_at, stepped};
ghost use Rattle.case_tables.specs.declared.grids.Verdict.TheVariants as verdicts;

use crate::bodies::Body;
use crate::lookups::Look;
use crate::replies::{Got, ShardFault};
use crate::steps::{Blocker, Step};
use rows_model::{Memory, QKey, Sid, Value};

impl Body {
    /// Gets a key of the shard, as it does.
    pub fn get(&mut self, key: QKey, who: Sid, floor: u64, now: u64) -> Result<Got, ShardFault>
        requires kept { IsKept self.old }
        requires home { IsAtHome (terms_of self.old) key }
        ensures kept { IsKept self.new }
        ensures refusal { let step = get_step (terms_of self.old)
            (steps_of self.old) key who floor now in
            Refuses (refusal (shown self.old) key step) result }
        ensures step { let step = get_step (terms_of self.old)
            (steps_of self.old) key who floor now in
            OnOk result (shown self.new ≡ stepped (shown self.old) step) }
        ensures shows { let step = get_step (terms_of self.old)
            (steps_of self.old) key who floor now in IfOk result (ShowsGot step) }
        ensures err { OnErr result (shown self.new ≡ shown self.old) }
    {
        let found = self.entries.peek(&key);
        match self.look(&key, who, floor, now, found) {
            Look::Own => Ok(self.own(key, who)?),
            Look::Found => {
                let (value, stamp) = found.unwrap();
                let value = value.copy()?;
                Ok(self.hit(key, who, floor, value, stamp)?)
            }
            Look::Waits(standing) => Ok(self.again(key, who, floor, now, standing)?),
            Look::Free => self.lease(key, who, floor, now),
        }
    }

    /// Gets a key of the shard where that is a hit, as it does; else nothing changes. No time is of any
    /// account to it.
    pub fn get_hit(&mut self, key: QKey, who: Sid, floor: u64) -> Result<Option<Got>, Memory>
        requires kept { IsKept self.old }
        requires home { IsAtHome (terms_of self.old) key }
        ensures kept { IsKept self.new }
        ensures step { (now : ℕ) → let step = get_step (terms_of self.old)
            (steps_of self.old) key who floor now in IfOk result (λ hit. IfSome hit
            (λ got. shown self.new ≡ stepped (shown self.old) step)) }
        ensures shows { (now : ℕ) → let step = get_step (terms_of self.old)
            (steps_of self.old) key who floor now in
            IfOk result (λ hit. IfSome hit (ShowsGot step)) }
        ensures none { IfOk result (λ hit. IfNone hit (shown self.new ≡ shown self.old)) }
        ensures err { OnErr result (shown self.new ≡ shown self.old) }
    {
        let found = self.entries.peek(&key);
        match self.look(&key, who, floor, 0, found) {
            Look::Found => {
                let (value, stamp) = found.unwrap();
                let value = value.copy()?;
                Ok(Some(self.hit(key, who, floor, value, stamp)?))
            }
            Look::Own | Look::Waits(_) | Look::Free => Ok(None),
        }
    }

    /// Answers that the session has quarantined the key itself.
    fn own(&mut self, key: QKey, who: Sid) -> Result<Got, Memory>
        requires kept { IsKept self.old }
        requires answers { Answers (terms_of self.old) (steps_of self.old) (Step.Own key who) }
        ensures kept { IsKept self.new }
        ensures step { OnOk result (shown self.new ≡ stepped (shown self.old) (Step.Own key who)) }
        ensures shows { IfOk result (λ got. got ≡ Got.Own) }
        ensures err { OnErr result (shown self.new ≡ shown self.old) }
    {
        self.note(Step::Own { key, sid: who })?;
        Ok(Got::Own)
    }

    /// Answers the entry of the key, which comes to the front.
    fn hit(
        &mut self,
        key: QKey,
        who: Sid,
        floor: u64,
        value: Value,
        stamp: u64,
    ) -> Result<Got, Memory>
        requires kept { IsKept self.old }
        requires found { entry key (steps_of self.old) ≡ Some (value, stamp) }
        requires answers { Answers (terms_of self.old) (steps_of self.old)
            (Step.Hit key who floor value stamp) }
        ensures kept { IsKept self.new }
        ensures step { OnOk result (shown self.new ≡ stepped (shown self.old)
            (Step.Hit key who floor value stamp)) }
        ensures shows { IfOk result (λ got. got ≡ Got.Hit value stamp) }
        ensures err { OnErr result (shown self.new ≡ shown self.old) }
    {
        self.history.make_room(self.promised, 1)?;
        let value = self.history.push_hit(key, who, floor, value, stamp)?;
        self.entries.promote(&key);
        Ok(Got::Hit { value, stamp })
    }

    /// Answers that a lease stands in the way, and drops the entry of the key.
    fn again(
        &mut self,
        key: QKey,
        who: Sid,
        floor: u64,
        now: u64,
        standing: Blocker,
    ) -> Result<Got, Memory>
        requires kept { IsKept self.old }
        requires answers { Answers (terms_of self.old) (steps_of self.old)
            (Step.Again key who floor now standing) }
        ensures kept { IsKept self.new }
        ensures step { OnOk result (shown self.new ≡ stepped (shown self.old)
            (Step.Again key who floor now standing)) }
        ensures shows { IfOk result (λ got. got ≡ Got.Again standing) }
        ensures err { OnErr result (shown self.new ≡ shown self.old) }
    {
        self.history.make_room(self.promised, 1)?;
        let _ = self.entries.drop_key(&key);
        self.history.push(Step::Again {
            key,
            sid: who,
            floor,
            now,
            standing,
        });
        Ok(Got::Again { standing })
    }

    /// Gives a lease to read the key, and drops its entry.
    fn lease(&mut self, key: QKey, who: Sid, floor: u64, now: u64) -> Result<Got, ShardFault>
        requires kept { IsKept self.old }
        requires free { verdict (seen_by key who now (steps_of self.old)) read ≡ verdicts.Give }
        requires answers { Answers (terms_of self.old) (steps_of self.old)
            (Step.Lease key who floor now (next_token (terms_of self.old) (steps_of self.old))
            (deadline_at (terms_of self.old) now)) }
        ensures kept { IsKept self.new }
        ensures refusal { Refuses (spent_at (next_token (terms_of self.old) (steps_of self.old))
            (Step.Lease key who floor now (next_token (terms_of self.old) (steps_of self.old))
            (deadline_at (terms_of self.old) now))) result }
        ensures step { OnOk result (shown self.new ≡ stepped (shown self.old)
            (Step.Lease key who floor now (next_token (terms_of self.old) (steps_of self.old))
            (deadline_at (terms_of self.old) now))) }
        ensures shows { IfOk result (λ got. got ≡ Got.Lease
            (next_token (terms_of self.old) (steps_of self.old))) }
        ensures err { OnErr result (shown self.new ≡ shown self.old) }
    {
        let token = self.next;
        if token == u64::MAX {
            return Err(ShardFault::Spent { next: token });
        }
        let deadline = self.deadline(now);
        self.history.make_room(self.promised, 1)?;
        let _ = self.leases.ask_i(key, who, token, deadline, now)?;
        let _ = self.entries.drop_key(&key);
        self.next = token + 1;
        self.history.push(Step::Lease {
            key,
            sid: who,
            floor,
            now,
            token,
            deadline,
        });
        Ok(Got::Lease { token })
    }
}
