ghost use Rattle.std.specs.Prelude.{◌≡◌, ◌↔◌, IfSome, IfNone, IsTrue, ◌<◌, ℕ};
ghost use Rattle.lease_table.specs.Expiry.{NoneDue, NoneDueBefore, StandsDue};
ghost use Rattle.key_shard.specs.Answers.{IsAtHome, sweep_step};
ghost use Rattle.key_shard.specs.Dues.{first_due};
ghost use Rattle.key_shard.specs.Kept.{IsKept, shown, steps_of, terms_of};
ghost use Rattle.key_shard.specs.Past.{standing};
ghost use Rattle.key_shard.specs.Replies.{sweep_answer};
ghost use Rattle.key_shard.specs.Shards.{swept};

use crate::bodies::Body;
use crate::replies::Rel;
use crate::steps::{Ended, Step};
use lease_table::Due;
use rows_model::{QKey, shard_number};

impl Body {
    /// Whether the key is this shard's.
    pub fn is_home(&self, key: &QKey) -> bool
        requires { IsKept self.now }
        ensures { IsTrue result ↔ IsAtHome (terms_of self.now) key.now }
    {
        shard_number(key, self.count) == self.no
    }

    /// A time before which no quarantine's deadline comes.
    pub fn next_due(&self) -> u64
        requires { IsKept self.now }
        ensures { (now : ℕ) → now < result → NoneDue now (λ key. standing key (steps_of self.now)) }
    {
        self.leases.next_due()
    }

    /// The first quarantine whose deadline has come, by key and then by token.
    pub fn expired(&mut self, now: u64) -> Option<Due>
        requires { IsKept self.old }
        ensures kept { IsKept self.new }
        ensures left { shown self.new ≡ shown self.old }
        ensures due { IfSome result (StandsDue now (λ key. standing key (steps_of self.old))) }
        ensures least { IfSome result (NoneDueBefore now
            (λ key. standing key (steps_of self.old))) }
        ensures none { IfNone result (NoneDue now (λ key. standing key (steps_of self.old))) }
        ensures first { result ≡ first_due now (steps_of self.old) }
    {
        self.leases.expired(now)
    }

    /// Ends the quarantine of a token on a key with Drop, as a shard does. The step takes a place of the
    /// history that is kept for the quarantine's grant.
    pub fn sweep_drop(&mut self, key: QKey, token: u64) -> Rel
        requires kept { IsKept self.old }
        requires home { IsAtHome (terms_of self.old) key }
        ensures kept { IsKept self.new }
        ensures step { shown self.new
            ≡ swept (shown self.old) (sweep_step (steps_of self.old) key token) }
        ensures told { result ≡ sweep_answer (sweep_step (steps_of self.old) key token) }
    {
        let Some(quar) = self.leases.end_q(&key, token) else {
            return Rel::Gone;
        };
        let _ = self.entries.drop_key(&key);
        self.promised -= 1;
        self.history.push(Step::Released {
            key,
            sid: quar.sid,
            token,
            how: Ended::Drop,
        });
        Rel::Released { evicted: None }
    }
}
