ghost use Rattle.std.specs.Prelude.{◌≡◌, is_some, IsTrue, IsSome, OnOk, OnErr, IfOk, IfErr, Ok};
ghost use Rattle.std.specs.Bool.{IsFalse};
ghost use Rattle.lease_table.specs.Leases.{first, others_in, raise_in};
ghost use Rattle.key_shard.specs.Answers.{Answers, raise_step, renew_step, shared_step};
ghost use Rattle.key_shard.specs.Kept.{IsKept, IsQuiet, shown, steps_of, terms_of};
ghost use Rattle.key_shard.specs.Past.{deadline_at, quar_of, standing};
ghost use Rattle.key_shard.specs.Replies.{ShowsRaise, ShowsRenewal};
ghost use Rattle.key_shard.specs.Shards.{after_raise, is_out, stepped};
ghost use Rattle.case_tables.specs.declared.grids.Verdict.TheVariants as verdicts;

use crate::bodies::Body;
use crate::grants::Grant;
use crate::replies::{Raising, Renewal};
use crate::steps::Step;
use case_tables::Verdict;
use lease_table::Mode;
use rows_model::Memory;

impl Body {
    /// Raises the quarantine of a grant, as a shard does.
    pub fn raise(&mut self, grant: Grant) -> Result<Raising, Grant>
        requires kept { IsKept self.old }
        requires invalidate { grant.mode ≡ Mode.Invalidate }
        ensures kept { IsKept self.new }
        ensures out { IsTrue (is_out (shown self.old) grant) →
            OnOk result (shown self.new ≡ after_raise (shown self.old) grant
            (raise_step (steps_of self.old) grant)) }
        ensures shows { IsTrue (is_out (shown self.old) grant) →
            IfOk result (ShowsRaise (steps_of self.old) grant
            (raise_step (steps_of self.old) grant)) }
        ensures unknown { IsFalse (is_out (shown self.old) grant) →
            (shown self.new ≡ shown self.old) × (result ≡ Ok Raising.Gone) }
        ensures returned { IfErr result (λ back. back ≡ grant) }
        ensures err { OnErr result (shown self.new ≡ shown self.old) }
    {
        if !self.is_out(&grant) {
            let _ = grant.spend();
            return Ok(Raising::Gone);
        }
        match self
            .leases
            .judge_raise(&grant.key(), grant.sid(), grant.token())
        {
            Verdict::Raise => self.lift(grant),
            Verdict::Refuse => self.share(grant),
            _ => {
                let _ = self.gone(grant);
                Ok(Raising::Gone)
            }
        }
    }

    /// Raises the quarantine of a grant that may be raised.
    fn lift(&mut self, grant: Grant) -> Result<Raising, Grant>
        requires kept { IsKept self.old }
        requires out { IsTrue (is_out (shown self.old) grant) }
        requires alone { raise_in grant.sid grant.token (standing grant.key (steps_of self.old))
            ≡ verdicts.Raise }
        requires answers { Answers (terms_of self.old) (steps_of self.old)
            (Step.Raised grant.key grant.sid grant.token) }
        ensures kept { IsKept self.new }
        ensures step { OnOk result (shown self.new ≡ stepped (shown self.old)
            (Step.Raised grant.key grant.sid grant.token)) }
        ensures shows { IfOk result (ShowsRaise (steps_of self.old) grant
            (Step.Raised grant.key grant.sid grant.token)) }
        ensures returned { IfErr result (λ back. back ≡ grant) }
        ensures err { OnErr result (shown self.new ≡ shown self.old) }
    {
        let (key, sid, token) = (grant.key(), grant.sid(), grant.token());
        let Ok(old) = self.old_value(&key, Mode::Refresh) else {
            return Err(grant);
        };
        let Ok(()) = self.history.make_room(self.promised, 1) else {
            return Err(grant);
        };
        let _ = self.leases.raise(&key, sid, token);
        self.out.raise(self.no, &grant);
        self.history.push(Step::Raised { key, sid, token });
        let grant = grant.raised();
        Ok(Raising::Raised { grant, old })
    }

    /// Answers that the quarantine of another session stands beside that of a grant.
    fn share(&mut self, grant: Grant) -> Result<Raising, Grant>
        requires kept { IsKept self.old }
        requires beside { IsSome (first (others_in grant.sid
            (standing grant.key (steps_of self.old)))) }
        requires answers { Answers (terms_of self.old) (steps_of self.old)
            (shared_step grant (first (others_in grant.sid
            (standing grant.key (steps_of self.old))))) }
        ensures kept { IsKept self.new }
        ensures step { OnOk result (shown self.new ≡ stepped (shown self.old)
            (shared_step grant (first (others_in grant.sid
            (standing grant.key (steps_of self.old)))))) }
        ensures shows { IfOk result (ShowsRaise (steps_of self.old) grant
            (shared_step grant (first (others_in grant.sid
            (standing grant.key (steps_of self.old)))))) }
        ensures returned { IfErr result (λ back. back ≡ grant) }
        ensures err { OnErr result (shown self.new ≡ shown self.old) }
    {
        let (key, sid, token) = (grant.key(), grant.sid(), grant.token());
        let holder = self.leases.other(&key, sid).unwrap().sid;
        let step = Step::Shared {
            key,
            sid,
            token,
            holder,
        };
        match self.note(step) {
            Ok(()) => Ok(Raising::Shared { grant, holder }),
            Err(_) => Err(grant),
        }
    }

    /// Renews the quarantine of a grant, as a shard does.
    pub fn renew(&mut self, grant: &Grant, now: u64) -> Result<Renewal, Memory>
        requires { IsKept self.old }
        ensures kept { IsKept self.new }
        ensures out { IsTrue (is_out (shown self.old) grant.now) →
            OnOk result (shown self.new ≡ stepped (shown self.old)
            (renew_step (terms_of self.old) (steps_of self.old) grant.now now)) }
        ensures shows { IsTrue (is_out (shown self.old) grant.now) →
            IfOk result (ShowsRenewal
            (renew_step (terms_of self.old) (steps_of self.old) grant.now now)) }
        ensures unknown { IsFalse (is_out (shown self.old) grant.now) →
            (shown self.new ≡ shown self.old) × (result ≡ Ok Renewal.Gone) }
        ensures err { OnErr result (shown self.new ≡ shown self.old) }
    {
        if !self.is_out(grant) {
            return Ok(Renewal::Gone);
        }
        match self.leases.quar(&grant.key(), grant.token()) {
            Some(_) => self.prolong(grant, now),
            None => self.note_gone(grant),
        }
    }

    /// Writes down that a quarantine that was to be renewed stood no longer. Its grant stays out.
    fn note_gone(&mut self, grant: &Grant) -> Result<Renewal, Memory>
        requires kept { IsKept self.old }
        requires answers { Answers (terms_of self.old) (steps_of self.old)
            (Step.Gone grant.now.key grant.now.sid grant.now.token) }
        ensures kept { IsKept self.new }
        ensures step { OnOk result (shown self.new ≡ stepped (shown self.old)
            (Step.Gone grant.now.key grant.now.sid grant.now.token)) }
        ensures gone { IfOk result (λ known. known ≡ Renewal.Gone) }
        ensures err { OnErr result (shown self.new ≡ shown self.old) }
    {
        self.note(Step::Gone {
            key: grant.key(),
            sid: grant.sid(),
            token: grant.token(),
        })?;
        Ok(Renewal::Gone)
    }

    /// Renews the quarantine of a grant, which stands.
    fn prolong(&mut self, grant: &Grant, now: u64) -> Result<Renewal, Memory>
        requires kept { IsKept self.old }
        requires stands { IsTrue (is_some
            (quar_of grant.now.key grant.now.token (steps_of self.old))) }
        requires answers { Answers (terms_of self.old) (steps_of self.old)
            (Step.Renewed grant.now.key grant.now.sid grant.now.token now
            (deadline_at (terms_of self.old) now)) }
        ensures kept { IsKept self.new }
        ensures step { OnOk result (shown self.new ≡ stepped (shown self.old)
            (Step.Renewed grant.now.key grant.now.sid grant.now.token now
            (deadline_at (terms_of self.old) now))) }
        ensures renewed { IfOk result (λ answer. answer
            ≡ Renewal.Renewed (deadline_at (terms_of self.old) now)) }
        ensures err { OnErr result (shown self.new ≡ shown self.old) }
    {
        self.history.make_room(self.promised, 1)?;
        let (key, sid, token) = (grant.key(), grant.sid(), grant.token());
        let deadline = self.deadline(now);
        let _ = self.leases.renew(&key, token, deadline);
        self.history.push(Step::Renewed {
            key,
            sid,
            token,
            now,
            deadline,
        });
        Ok(Renewal::Renewed { deadline })
    }
}
