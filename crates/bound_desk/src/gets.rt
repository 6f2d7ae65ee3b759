//! A get for a desk: the book notes a lease.
ghost use Rattle.std.specs.Prelude.{◌≡◌, ◌≢◌, ℕ, Bool, Err, IfErr, IfNone, IfOk, IfSome, OnErr};
ghost use Rattle.rows_model.specs.Placement.{shard_of};
ghost use Rattle.key_shard.specs.Answers.{IsAtHome};
ghost use Rattle.key_shard.specs.declared.replies.ShardFault.{ShardFault};
ghost use Rattle.key_shard.specs.declared.replies.ShardFault.TheVariants as faults;
ghost use Rattle.session_client.specs.Belongs.{IsGotOf};
ghost use Rattle.log_word.specs.Steps.{IsBeginning};
ghost use Rattle.desk_book.specs.Books.{noted_for};
ghost use Rattle.bound_hub.specs.Gets.{got_short, IsGotFresh, IsGotHeld, IsLastStep};
ghost use Rattle.bound_hub.specs.Spent.{HasNoToken, SeesSpent};
ghost use Rattle.bound_desk.specs.Bound.{with_got};

use crate::bound_books::BoundBook;
use bound_hub::{BoundName, BoundShard};
use key_shard::{Got, ShardFault};
use log_word::LogWord;
use rows_model::{QKey, Sid};

impl<H: BoundName> BoundBook<H> {
    /// Gets a key for a session on its shard, which is lent. The get's own step is the last of that shard
    /// that the desk has seen then. A hit is fresh against what the desk has seen then, unless that tells
    /// that the store has stopped telling its rows, and its stamp is at least the floor. A lease is
    /// noted. Refused, for want of memory or of tokens alone, the book stays; that no token is left is seen
    /// then.
    pub fn get(
        &mut self,
        word: &LogWord,
        shard: &mut BoundShard<H>,
        key: QKey,
        who: Sid,
        floor: u64,
        now: u64,
    ) -> Result<Got, ShardFault>
        requires word { word.now ≡ H.word }
        requires place { shard.old.shard.terms.no ≡ shard_of key H.word.shards }
        requires home { IsAtHome shard.old.shard.terms key }
        ensures seen { IsBeginning self.old.seen self.new.seen }
        ensures last { IfOk result (λ got. (has : Bool)
            × IsLastStep (shard_of key H.word.shards) (got_short key who got has) self.new.seen) }
        ensures held { IfOk result (λ got. let no = shard_of key H.word.shards in
            IsGotHeld H.opening (H.before no) no self.new.seen key got) }
        ensures fresh { IfOk result (λ got. let no = shard_of key H.word.shards in
            IsGotFresh H.opening (H.before no) no self.new.seen key got) }
        ensures floor { IfOk result (IsGotOf floor) }
        ensures book { IfOk result (λ got.
            self.new.book.book ≡ noted_for who (with_got key got) self.old.book.book) }
        ensures err { OnErr result (self.new.book ≡ self.old.book) }
        ensures spent { IfErr result (SeesSpent H.terms H.before (shard_of key H.word.shards)
            self.new.seen) }
        ensures no_stranger { (place : ℕ) → result ≢ Err (faults.Stranger place) }
    {
        match self.make_get(word, shard, key, who, floor, now) {
            Ok(got) => {
                self.note_got(who, key, &got);
                Ok(got)
            }
            Err(fault) => {
                self.see(word, shard);
                Err(fault)
            }
        }
    }

    /// Gets a key for a session on its shard, which is lent, where that is a hit, as `get`: the time is of
    /// no account to one. The book stays, since no lease is given. After `None` the shard is as before.
    pub fn get_hit(
        &mut self,
        word: &LogWord,
        shard: &mut BoundShard<H>,
        key: QKey,
        who: Sid,
        floor: u64,
    ) -> Option<Got>
        requires word { word.now ≡ H.word }
        requires place { shard.old.shard.terms.no ≡ shard_of key H.word.shards }
        requires home { IsAtHome shard.old.shard.terms key }
        ensures seen { IsBeginning self.old.seen self.new.seen }
        ensures last { IfSome result (λ got. (has : Bool)
            × IsLastStep (shard_of key H.word.shards) (got_short key who got has) self.new.seen) }
        ensures held { IfSome result (λ got. let no = shard_of key H.word.shards in
            IsGotHeld H.opening (H.before no) no self.new.seen key got) }
        ensures fresh { IfSome result (λ got. let no = shard_of key H.word.shards in
            IsGotFresh H.opening (H.before no) no self.new.seen key got) }
        ensures floor { IfSome result (IsGotOf floor) }
        ensures book { self.new.book ≡ self.old.book }
        ensures same { IfNone result (shard.new.shard ≡ shard.old.shard) }
    {
        shard.get_hit(word, &mut self.pass, key, who, floor)
    }

    // The get alone: the book stays.
    fn make_get(
        &mut self,
        word: &LogWord,
        shard: &mut BoundShard<H>,
        key: QKey,
        who: Sid,
        floor: u64,
        now: u64,
    ) -> Result<Got, ShardFault>
        requires word { word.now ≡ H.word }
        requires place { shard.old.shard.terms.no ≡ shard_of key H.word.shards }
        requires home { IsAtHome shard.old.shard.terms key }
        ensures seen { IsBeginning self.old.seen self.new.seen }
        ensures last { IfOk result (λ got. (has : Bool)
            × IsLastStep (shard_of key H.word.shards) (got_short key who got has) self.new.seen) }
        ensures held { IfOk result (λ got. let no = shard_of key H.word.shards in
            IsGotHeld H.opening (H.before no) no self.new.seen key got) }
        ensures fresh { IfOk result (λ got. let no = shard_of key H.word.shards in
            IsGotFresh H.opening (H.before no) no self.new.seen key got) }
        ensures floor { IfOk result (IsGotOf floor) }
        ensures book { self.new.book ≡ self.old.book }
        ensures same { OnErr result (shard.new.shard ≡ shard.old.shard) }
        ensures none_left { IfErr result (HasNoToken shard.old.shard) }
        ensures no_stranger { (place : ℕ) → result ≢ Err (faults.Stranger place) }
    {
        shard.get(word, &mut self.pass, key, who, floor, now)
    }

    /// The pass sees each step of a shard that refused, and so that it has no token left, where it has none.
    /// The book stays, and so does the shard.
    pub(crate) fn see(&mut self, word: &LogWord, shard: &mut BoundShard<H>)
        requires { word.now ≡ H.word }
        ensures book { self.new.book ≡ self.old.book }
        ensures seen { IsBeginning self.old.seen self.new.seen }
        ensures shard { shard.new.shard ≡ shard.old.shard }
        ensures spent { (fault : ShardFault) → HasNoToken shard.old.shard fault
            → SeesSpent H.terms H.before shard.old.shard.terms.no self.new.seen fault }
    {
        shard.tell(word, &mut self.pass);
    }

    /// Notes what a get was answered, where its step is the last that was seen of the key's shard.
    pub(crate) fn note_got(&mut self, who: Sid, key: QKey, got: &Got)
        requires { (has : Bool) × IsLastStep (shard_of key H.word.shards)
            (got_short key who got.now has) self.old.seen }
        ensures seen { self.new.seen ≡ self.old.seen }
        ensures book { self.new.book.book ≡ noted_for who (with_got key got.now) self.old.book.book }
    {
        if let Got::Lease { token } = got {
            self.pass.sound();
            self.book.note_lease(who, key, *token);
        }
    }
}
