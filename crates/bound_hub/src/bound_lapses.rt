//! Leases to read that have lapsed, dropped from a shard under its lock.
ghost use Rattle.std.specs.Prelude.{◌≡◌, ◌<◌, true, IfOk, OnErr, IfSome, IfNone, ℕ};
ghost use Rattle.lease_table.specs.Lapses.{HasLapsed, NoneLapsed, NoneLapsedBefore};
ghost use Rattle.lease_table.specs.Expiry.{NoneDue};
ghost use Rattle.key_shard.specs.Past.{recorded, standing};
ghost use Rattle.key_shard.specs.Shards.{past_of, stepped};
ghost use Rattle.log_word.specs.Steps.{IsBeginning};

use crate::bound_shards::BoundShard;
use crate::names::BoundName;
use crate::step_shorts::set_short;
use key_shard::{SetAnswer, Step};
use lease_table::Lapse;
use log_word::LogWord;
use rows_model::Memory;

impl<H: BoundName> BoundShard<H> {
    /// A time before which nothing is to be swept on the shard: no quarantine's deadline comes, and no lease to
    /// read lapses on a shard that rolls. It takes no memory.
    pub fn next_look(&self) -> u64
        ensures quarantines { (now : ℕ) → now < result
            → NoneDue now (λ key. standing key (past_of self.now.shard)) }
        ensures leases { self.now.shard.terms.rolls ≡ true → (now : ℕ) → now < result
            → NoneLapsed now (λ key. recorded key (past_of self.now.shard)) }
    {
        if self.shard.rolls() {
            self.shard.next_due().min(self.shard.next_lapse())
        } else {
            self.shard.next_due()
        }
    }

    /// Drops the lease to read that has the earliest deadline, if that has come, as the shard does, and
    /// answers it. On a shard that rolls it is none exactly where no deadline has come. A whole shard drops
    /// none: it has each step in memory anyhow. For want of memory the shard is as before. It is one load of
    /// the word.
    pub fn lapse(&mut self, word: &LogWord, now: u64) -> Result<Option<Lapse>, Memory>
        requires word { word.now ≡ H.word }
        ensures step { IfOk result (λ found. IfSome found (λ lapse. self.new.shard
            ≡ stepped self.old.shard (Step.Void lapse.key lapse.token now))) }
        ensures lapsed { IfOk result (λ found. IfSome found
            (HasLapsed now (λ key. recorded key (past_of self.old.shard)))) }
        ensures least { IfOk result (λ found. IfSome found
            (NoneLapsedBefore (λ key. recorded key (past_of self.old.shard)))) }
        ensures none { IfOk result (λ found. IfNone found (self.old.shard.terms.rolls ≡ true
            → NoneLapsed now (λ key. recorded key (past_of self.old.shard)))) }
        ensures left { IfOk result (λ found. IfNone found (self.new.shard ≡ self.old.shard)) }
        ensures err { OnErr result (self.new.shard ≡ self.old.shard) }
        ensures here { IsBeginning self.old.seen self.new.seen }
    {
        if !self.shard.rolls() {
            return Ok(None);
        }
        self.pass.sound();
        let Some(lapse) = self.shard.lapse(now)? else {
            return Ok(None);
        };
        let has = self.shard.peek(&lapse.key).is_some();
        let short = set_short(&lapse.key, lapse.token, 0, &SetAnswer::Void, has);
        self.pass.add(word, &short);
        Ok(Some(lapse))
    }
}
