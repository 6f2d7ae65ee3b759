//! A quarantine for a desk: the book notes the grant.
ghost use Rattle.std.specs.Prelude.{◌≡◌, ◌≢◌, ◌<◌, ℕ, Bool, Err, IfErr, IfOk, None, OnErr, length, true};
ghost use Rattle.rows_model.specs.Placement.{shard_of};
ghost use Rattle.key_shard.specs.Answers.{FitsShift, IsAtHome};
ghost use Rattle.key_shard.specs.Past.{entry};
ghost use Rattle.key_shard.specs.Replies.{old_value};
ghost use Rattle.key_shard.specs.Shards.{past_of};
ghost use Rattle.key_shard.specs.declared.replies.ShardFault.TheVariants as faults;
ghost use Rattle.session_client.specs.Belongs.{IsQuarantineOf};
ghost use Rattle.log_word.specs.Steps.{IsBeginning};
ghost use Rattle.desk_book.specs.Books.{noted_for, with_grant};
ghost use Rattle.desk_book.specs.Borne.{MayQuarantine};
ghost use Rattle.bound_hub.specs.Gets.{IsLastStep};
ghost use Rattle.bound_hub.specs.Olds.{IsGrantHeld};
ghost use Rattle.bound_hub.specs.Spent.{HasNoToken, SeesSpent};
ghost use Rattle.bound_hub.specs.Stores.{IsGrantSeen};
ghost use Rattle.bound_hub.specs.StepShorts.{quarantine_short};
ghost use Rattle.bound_hub.specs.Shorts.{is_alone};
ghost use Rattle.bound_desk.specs.Grants.{IsGrantFor, IsOldTold, with_granted};
ghost use Rattle.bound_desk.specs.Writing.{IsGrantAlone, StoodAlone};

use crate::bound_books::BoundBook;
use crate::copies::old_copy;
use bound_hub::{BoundName, BoundShard};
use desk_book::Ticket;
use key_shard::{QAnswer, ShardFault};
use lease_table::Mode;
use log_word::LogWord;
use rows_model::{QKey, Sid, Value};

impl<H: BoundName> BoundBook<H> {
    /// Asks for a quarantine of a key for a session, on the key's shard, which is lent. The book bears it
    /// out: the session is the present one, was begun for writing, and hasn't committed. The quarantine's
    /// own step is the last of that shard that the desk has seen then. An old value that comes along is
    /// held by what the desk has seen then, and right, unless that tells that the store has stopped
    /// telling its rows. A grant is noted, with its old value. Room for it and a copy of the old value
    /// are taken first. Refused by the shard or for want of memory, the book says what it said; that no token
    /// is left is seen then.
    pub fn quarantine(
        &mut self,
        word: &LogWord,
        shard: &mut BoundShard<H>,
        who: Sid,
        key: QKey,
        mode: Mode,
        by: i32,
        now: u64,
    ) -> Result<QAnswer, ShardFault>
        requires word { word.now ≡ H.word }
        requires place { shard.old.shard.terms.no ≡ shard_of key H.word.shards }
        requires home { IsAtHome shard.old.shard.terms key }
        requires fits { FitsShift mode by }
        requires borne { MayQuarantine self.old.book.book who }
        ensures seen { IsBeginning self.old.seen self.new.seen }
        ensures last { IfOk result (λ answer. (has : Bool)
            × IsLastStep (shard_of key H.word.shards) (quarantine_short key who mode by answer has)
            self.new.seen) }
        ensures old { IfOk result (λ answer. let no = shard_of key H.word.shards in
            IsGrantHeld H.opening (H.before no) no self.new.seen key answer) }
        ensures told { IfOk result (IsOldTold H.word.shards key who by mode self.new.seen) }
        ensures book { IfOk result (λ answer.
            self.new.book.book ≡ noted_for who (with_granted by answer) self.old.book.book) }
        ensures belongs { IfOk result (IsQuarantineOf who key mode) }
        ensures err { OnErr result (self.new.book.book ≡ self.old.book.book) }
        ensures spent { IfErr result (SeesSpent H.terms H.before (shard_of key H.word.shards)
            self.new.seen) }
        ensures no_stranger { (place : ℕ) → result ≢ Err (faults.Stranger place) }
    {
        self.book.room_for_grant()?;
        let old = old_copy(shard, &key, mode)?;
        match self.make_quarantine(word, shard, who, key, mode, by, now) {
            Ok(answer) => {
                if let QAnswer::Granted { grant, old: _ } = &answer {
                    self.note_grant(who, Ticket::of(grant), old, by);
                }
                Ok(answer)
            }
            Err(fault) => {
                self.see(word, shard);
                Err(fault)
            }
        }
    }

    // The quarantine alone: the book stays.
    fn make_quarantine(
        &mut self,
        word: &LogWord,
        shard: &mut BoundShard<H>,
        who: Sid,
        key: QKey,
        mode: Mode,
        by: i32,
        now: u64,
    ) -> Result<QAnswer, ShardFault>
        requires word { word.now ≡ H.word }
        requires place { shard.old.shard.terms.no ≡ shard_of key H.word.shards }
        requires home { IsAtHome shard.old.shard.terms key }
        requires fits { FitsShift mode by }
        requires borne { MayQuarantine self.old.book.book who }
        ensures seen { IsBeginning self.old.seen self.new.seen }
        ensures last { IfOk result (λ answer. (has : Bool)
            × IsLastStep (shard_of key H.word.shards) (quarantine_short key who mode by answer has)
            self.new.seen) }
        ensures old { IfOk result (λ answer. let no = shard_of key H.word.shards in
            IsGrantHeld H.opening (H.before no) no self.new.seen key answer) }
        ensures told { IfOk result (IsOldTold H.word.shards key who by mode self.new.seen) }
        ensures grant { IfOk result (IsGrantFor H.word.shards self.new.seen
            (old_value mode (entry key (past_of shard.old.shard)))) }
        ensures alone { IfOk result
            (IsGrantAlone H.opening H.before H.word.shards by self.new.seen) }
        ensures belongs { IfOk result (IsQuarantineOf who key mode) }
        ensures book { self.new.book ≡ self.old.book }
        ensures same { OnErr result (shard.new.shard ≡ shard.old.shard) }
        ensures none_left { IfErr result (HasNoToken shard.old.shard) }
        ensures no_stranger { (place : ℕ) → result ≢ Err (faults.Stranger place) }
    {
        shard.quarantine(word, &mut self.pass, key, who, mode, by, now)
    }

    // Notes a grant whose step was seen: as the last one, where its quarantine stands alone. The session
    // hasn't committed.
    fn note_grant(&mut self, who: Sid, ticket: Ticket, old: Option<(Value, u64)>, by: i32)
        requires room { length self.old.book.book.held < self.old.book.grant_room }
        requires granted { IsGrantSeen H.word.shards self.old.seen ticket }
        requires alone { is_alone ticket.mode ≡ true → StoodAlone H.opening H.before H.word.shards
            self.old.seen (record { permit = ticket; old = old; by = by }) }
        requires none { self.old.book.book.commit ≡ None }
        ensures seen { self.new.seen ≡ self.old.seen }
        ensures book { self.new.book.book
            ≡ noted_for who (with_grant ticket old by) self.old.book.book }
    {
        self.pass.sound();
        self.book.note_grant(who, ticket, old, by);
    }
}
