//! Leases to read whose deadline has come.
ghost use Rattle.std.specs.Prelude.{◌≡◌, ◌<◌, IfSome, IfNone, OnOk, OnErr, ℕ};
ghost use Rattle.lease_table.specs.Lapses.{HasLapsed, NoneLapsed, NoneLapsedBefore};
ghost use Rattle.key_shard.specs.Answers.{Answers};
ghost use Rattle.key_shard.specs.Kept.{IsKept, shown, steps_of, terms_of};
ghost use Rattle.key_shard.specs.Past.{recorded};
ghost use Rattle.key_shard.specs.Shards.{stepped};

use crate::bodies::Body;
use crate::steps::Step;
use lease_table::Lapse;
use rows_model::{Memory, QKey};

impl Body {
    /// A time before which no lease to read is past its deadline.
    pub fn next_lapse(&self) -> u64
        requires { IsKept self.now }
        ensures { (now : ℕ) → now < result
            → NoneLapsed now (λ key. recorded key (steps_of self.now)) }
    {
        self.leases.next_lapse()
    }

    /// The lease to read that has the earliest deadline, if that has come.
    pub fn first_lapsed(&self, now: u64) -> Option<Lapse>
        requires { IsKept self.now }
        ensures lapsed { IfSome result (HasLapsed now (λ key. recorded key (steps_of self.now))) }
        ensures least { IfSome result
            (NoneLapsedBefore (λ key. recorded key (steps_of self.now))) }
        ensures none { IfNone result (NoneLapsed now (λ key. recorded key (steps_of self.now))) }
    {
        self.leases.first_lapsed(now)
    }

    /// Drops a lease to read whose deadline has come. Its step is a set under its token, which is void.
    pub fn end_lapsed(&mut self, lapse: Lapse, now: u64) -> Result<(), Memory>
        requires kept { IsKept self.old }
        requires lapsed { HasLapsed now (λ key. recorded key (steps_of self.old)) lapse }
        ensures kept { IsKept self.new }
        ensures ok { OnOk result (shown self.new
            ≡ stepped (shown self.old) (Step.Void lapse.key lapse.token now)) }
        ensures err { OnErr result (shown self.new ≡ shown self.old) }
    {
        self.void(lapse.key, lapse.token, now)
    }

    /// Writes down a set under a token that is void, and drops the lease to read of this token if its
    /// deadline has come.
    pub fn void(&mut self, key: QKey, token: u64, now: u64) -> Result<(), Memory>
        requires kept { IsKept self.old }
        requires answers { Answers (terms_of self.old) (steps_of self.old)
            (Step.Void key token now) }
        ensures kept { IsKept self.new }
        ensures ok { OnOk result (shown self.new
            ≡ stepped (shown self.old) (Step.Void key token now)) }
        ensures err { OnErr result (shown self.new ≡ shown self.old) }
    {
        self.history.make_room(self.promised, 1)?;
        let _ = self.leases.end_lapsed(&key, token, now);
        self.history.push(Step::Void { key, token, now });
        Ok(())
    }
}
