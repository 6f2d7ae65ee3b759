//! The sweep of a desk: what it found, and the pass that has seen that.
ghost use Rattle.std.specs.Prelude.{◌≡◌, ◌≢◌, ◌≤◌, ◌<◌, true, None, IfOk, IfNone, IfSome};
ghost use Rattle.lease_table.specs.Lapses.{NoneLapsed};
ghost use Rattle.lease_table.specs.Expiry.{NoneDue, StandsDue};
ghost use Rattle.key_shard.specs.Answers.{IsAtHome};
ghost use Rattle.key_shard.specs.Past.{entry, recorded, standing};
ghost use Rattle.key_shard.specs.Shards.{past_of};
ghost use Rattle.log_word.specs.Steps.{IsBeginning};
ghost use Rattle.bound_hub.specs.Stores.{ShowsEnd};
ghost use Rattle.bound_desk.specs.Swept.{StaysButLeases};

use bound_hub::{BoundName, BoundShard, BoundStore};
use key_shard::Rel;
use lease_table::Due;
use log_word::{LogWord, Pass};
use rows_model::{Memory, QKey, Sid};
use sql_keeper::{Closed, Keeper};
use std::marker::{Model, PhantomData};

/// How many leases to read one step of a sweep drops at most.
const LAPSES: usize = 64;

/// Drops leases to read on the shard that is lent that have lapsed, the earliest first, and answers how many
/// they were: as many as one step of a sweep may, or all that there are on a shard that rolls. Its entries
/// and quarantines stay. Want of memory ends it early.
pub fn drop_lapsed<H: BoundName>(
    word: &LogWord,
    shard: &mut BoundShard<H>,
    now: u64,
) -> Result<usize, Memory>
    requires { word.now ≡ H.word }
    ensures most { IfOk result (λ count. count ≤ 64) }
    ensures all { IfOk result (λ count. count < 64 → shard.new.shard.terms.rolls ≡ true
        → NoneLapsed now (λ key. recorded key (past_of shard.new.shard))) }
    ensures stays { StaysButLeases shard.old shard.new }
{
    for count in 0..LAPSES {
        if shard.lapse(word, now)?.is_none() {
            return Ok(count);
        }
    }
    Ok(LAPSES)
}

/// A quarantine that was past its deadline, the number of the shard on which it was found, and whether its
/// session was ended since.
#[derive(Clone, Copy)]
pub struct Found {
    pub place: u32,
    pub due: Due,
    pub ended: bool,
}

/// What a sweep found last, and the sweep's pass, which has seen its grant, and once the session was ended,
/// that it is over. Contracts see what the pass has seen.
#[derive(Drop)]
pub struct BoundSweep<H: BoundName> {
    pass: Pass,
    found: Option<Found>,
    of: PhantomData<H>,
}

impl<H: BoundName> Model for BoundSweep<H> {
    ghost use Rattle.std.specs.Prelude.{◌≡◌};
    ghost use Rattle.log_word.specs.declared.seen.Seen.{Seen};
    ghost use Rattle.bound_desk.specs.Swept.{AreSeen};

    ghost Value = { Seen };

    ghost view = { λ sweep. sweep.pass.seen };

    ghost invariant = { λ sweep. (sweep.pass.word ≡ H.word) × AreSeen sweep.pass.seen sweep.found };
}

impl<H: BoundName> BoundSweep<H> {
    /// A sweep that has found nothing yet, with this pass. It takes no memory.
    pub fn new(pass: Pass) -> BoundSweep<H>
        requires { pass.word ≡ H.word }
        ensures { result ≡ pass.seen }
    {
        BoundSweep {
            pass,
            found: None,
            of: PhantomData,
        }
    }

    /// Looks for the first quarantine on the shard that is lent that is past its deadline.
    pub fn scan(&mut self, word: &LogWord, shard: &mut BoundShard<H>, now: u64) -> Option<Due>
        requires { word.now ≡ H.word }
        ensures left { shard.new.shard ≡ shard.old.shard }
        ensures seen { IsBeginning self.old self.new }
        ensures due { IfSome result (StandsDue now (λ key. standing key (past_of shard.old.shard))) }
        ensures none { IfNone result (NoneDue now (λ key. standing key (past_of shard.old.shard))) }
    {
        self.found = None;
        let place = shard.no();
        let due = shard.expired(word, &mut self.pass, now)?;
        self.found = Some(Found {
            place,
            due,
            ended: false,
        });
        Some(due)
    }

    /// Ends a session at the store that is lent. Where it is that of what was found, the sweep has seen
    /// then that it is over.
    pub fn end<K: Keeper>(
        &mut self,
        word: &LogWord,
        store: &mut BoundStore<K, H>,
        who: Sid,
    ) -> Closed
        requires { word.now ≡ H.word }
        ensures sid { result.sid ≡ who }
        ensures seen { IsBeginning self.old self.new }
        ensures shows { ShowsEnd who self.new result.was }
    {
        let closed = store.end(word, &mut self.pass, who);
        self.pass.sound();
        if let Some(found) = self.found
            && found.due.sid == who
        {
            self.found = Some(Found {
                ended: true,
                ..found
            });
        }
        closed
    }

    /// Ends the quarantine of this token on this key, whose shard is lent, and drops the key's entry, where
    /// it is what was found and its session was ended since. Else it is Gone, and the shard stays.
    pub fn drop_value(
        &mut self,
        word: &LogWord,
        shard: &mut BoundShard<H>,
        key: QKey,
        token: u64,
    ) -> Rel
        requires word { word.now ≡ H.word }
        requires home { IsAtHome shard.old.shard.terms key }
        ensures seen { IsBeginning self.old self.new }
        ensures dropped { result ≢ Rel.Gone → entry key (past_of shard.new.shard) ≡ None }
    {
        let Some(found) = self.found else {
            return Rel::Gone;
        };
        if !found.ended
            || found.place != shard.no()
            || found.due.key != key
            || found.due.token != token
        {
            return Rel::Gone;
        }
        shard.sweep(word, &mut self.pass, key, found.due.sid, token)
    }

    /// The pass alone.
    pub fn into_pass(self) -> Pass
        ensures word { result.word ≡ H.word }
        ensures seen { result.seen ≡ self }
    {
        let BoundSweep {
            pass,
            found: _,
            of: _,
        } = self;
        pass
    }
}
