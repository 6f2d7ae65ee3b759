//! The requests on a shard that is lent, each by one method of the book.
ghost use Rattle.std.specs.Prelude.{◌≡◌, ◌≢◌, ℕ, Bool, IfNone, IfSome};
ghost use Rattle.rows_model.specs.Placement.{shard_of};
ghost use Rattle.key_shard.specs.Answers.{IsAtHome};
ghost use Rattle.session_client.specs.Belongs.{Belongs, get_reply};
ghost use Rattle.session_client.specs.Desks.{IsFirst};
ghost use Rattle.session_client.specs.declared.replies.Reply.TheVariants as Reply;
ghost use Rattle.session_client.specs.declared.replies.Wanted.TheVariants as wanted;
ghost use Rattle.executor.specs.OnShard.{IsFor, fault_of};
ghost use Rattle.executor.specs.Requests.{key_of};
ghost use Rattle.log_word.specs.Steps.{IsBeginning};
ghost use Rattle.desk_book.specs.Borne.{MayQuarantine};
ghost use Rattle.bound_desk.specs.Safe.{IsSafe};
ghost use Rattle.bound_desk.specs.Made.{IsMade};
ghost use Rattle.bound_desk.specs.Records.{ShowsFirst};
ghost use Rattle.bound_desk.specs.Faults.{ShowsFault};
ghost use Rattle.bound_desk.specs.Shown.{ShowsReply};
ghost use Rattle.bound_desk.specs.Told.{book_after};

use crate::bound_books::BoundBook;
use bound_hub::{BoundName, BoundShard};
use key_shard::{Got, ShardFault};
use lease_table::Mode;
use log_word::LogWord;
use rows_model::{QKey, Sid, Value};
use session_client::{Fault, Reply, Wanted};

impl<H: BoundName> BoundBook<H> {
    /// A get, as `BoundBook::get`, with what its reply is told by.
    pub(crate) fn reply_to_get(
        &mut self,
        word: &LogWord,
        shard: &mut BoundShard<H>,
        who: Sid,
        key: QKey,
        floor: u64,
        now: u64,
    ) -> Result<Got, Fault>
        requires word { word.now ≡ H.word }
        requires place { shard.old.shard.terms.no ≡ shard_of key H.word.shards }
        requires home { IsAtHome shard.old.shard.terms key }
        ensures belongs { Belongs who (wanted.Get key floor) (get_reply result) }
        ensures seen { IsBeginning self.old.seen self.new.seen }
        ensures shows { ShowsReply H.opening H.before H.word.shards who (wanted.Get key floor)
            (get_reply result) self.new.seen }
        ensures fault { ShowsFault H.terms H.before H.word.shards (wanted.Get key floor)
            (get_reply result) self.new.seen }
        ensures book { self.new.book.book
            ≡ book_after who (wanted.Get key floor) (get_reply result) self.old.book.book }
        ensures first { ShowsFirst H.terms H.before H.word.shards who (get_reply result)
            self.new.seen }
    {
        match self.get(word, shard, key, who, floor, now) {
            Ok(got) => Ok(got),
            Err(fault) => Err(told_of(fault)),
        }
    }

    /// A get that is a hit, as `BoundBook::get_hit`. What it is answered is noted as that of a get.
    pub(crate) fn reply_to_hit(
        &mut self,
        word: &LogWord,
        shard: &mut BoundShard<H>,
        who: Sid,
        key: QKey,
        floor: u64,
    ) -> Option<Got>
        requires word { word.now ≡ H.word }
        requires place { shard.old.shard.terms.no ≡ shard_of key H.word.shards }
        requires home { IsAtHome shard.old.shard.terms key }
        ensures belongs { IfSome result (λ got.
            Belongs who (wanted.Get key floor) (Reply.Got got)) }
        ensures seen { IsBeginning self.old.seen self.new.seen }
        ensures shows { IfSome result (λ got. ShowsReply H.opening H.before H.word.shards who
            (wanted.Get key floor) (Reply.Got got) self.new.seen) }
        ensures book { IfSome result (λ got. self.new.book.book
            ≡ book_after who (wanted.Get key floor) (Reply.Got got) self.old.book.book) }
        ensures none { IfNone result (self.new.book ≡ self.old.book) }
        ensures first { IfSome result (λ got.
            ShowsFirst H.terms H.before H.word.shards who (Reply.Got got) self.new.seen) }
        ensures same { IfNone result (shard.new.shard ≡ shard.old.shard) }
    {
        match self.get_hit(word, shard, key, who, floor) {
            Some(got) => {
                self.note_got(who, key, &got);
                Some(got)
            }
            None => None,
        }
    }

    /// A quarantine to invalidate, as `BoundBook::quarantine`, with its reply.
    pub(crate) fn reply_to_register(
        &mut self,
        word: &LogWord,
        shard: &mut BoundShard<H>,
        who: Sid,
        key: QKey,
        now: u64,
    ) -> Reply
        requires word { word.now ≡ H.word }
        requires place { shard.old.shard.terms.no ≡ shard_of key H.word.shards }
        requires home { IsAtHome shard.old.shard.terms key }
        requires borne { MayQuarantine self.old.book.book who }
        ensures belongs { Belongs who (wanted.QaReg key) result }
        ensures seen { IsBeginning self.old.seen self.new.seen }
        ensures shows { ShowsReply H.opening H.before H.word.shards who (wanted.QaReg key)
            result self.new.seen }
        ensures fault { ShowsFault H.terms H.before H.word.shards (wanted.QaReg key) result self.new.seen }
        ensures book { self.new.book.book ≡ book_after who (wanted.QaReg key) result self.old.book.book }
        ensures first { ShowsFirst H.terms H.before H.word.shards who result self.new.seen }
    {
        match self.quarantine(word, shard, who, key, Mode::Invalidate, 0, now) {
            Ok(answer) => Reply::Quar { answer },
            Err(fault) => refused(fault),
        }
    }

    /// A quarantine to refresh, as `BoundBook::quarantine`, with its reply.
    pub(crate) fn reply_to_read(
        &mut self,
        word: &LogWord,
        shard: &mut BoundShard<H>,
        who: Sid,
        key: QKey,
        now: u64,
    ) -> Reply
        requires word { word.now ≡ H.word }
        requires place { shard.old.shard.terms.no ≡ shard_of key H.word.shards }
        requires home { IsAtHome shard.old.shard.terms key }
        requires borne { MayQuarantine self.old.book.book who }
        ensures belongs { Belongs who (wanted.QaRead key) result }
        ensures seen { IsBeginning self.old.seen self.new.seen }
        ensures shows { ShowsReply H.opening H.before H.word.shards who (wanted.QaRead key)
            result self.new.seen }
        ensures fault { ShowsFault H.terms H.before H.word.shards (wanted.QaRead key) result self.new.seen }
        ensures book { self.new.book.book ≡ book_after who (wanted.QaRead key) result self.old.book.book }
        ensures first { ShowsFirst H.terms H.before H.word.shards who result self.new.seen }
    {
        match self.quarantine(word, shard, who, key, Mode::Refresh, 0, now) {
            Ok(answer) => Reply::Quar { answer },
            Err(fault) => refused(fault),
        }
    }

    /// A quarantine to shift, as `BoundBook::quarantine`, with its reply.
    pub(crate) fn reply_to_delta(
        &mut self,
        word: &LogWord,
        shard: &mut BoundShard<H>,
        who: Sid,
        key: QKey,
        by: i32,
        now: u64,
    ) -> Reply
        requires word { word.now ≡ H.word }
        requires place { shard.old.shard.terms.no ≡ shard_of key H.word.shards }
        requires home { IsAtHome shard.old.shard.terms key }
        requires borne { MayQuarantine self.old.book.book who }
        ensures belongs { Belongs who (wanted.Delta key by) result }
        ensures seen { IsBeginning self.old.seen self.new.seen }
        ensures shows { ShowsReply H.opening H.before H.word.shards who (wanted.Delta key by)
            result self.new.seen }
        ensures fault { ShowsFault H.terms H.before H.word.shards (wanted.Delta key by) result self.new.seen }
        ensures book { self.new.book.book ≡ book_after who (wanted.Delta key by) result self.old.book.book }
        ensures first { ShowsFirst H.terms H.before H.word.shards who result self.new.seen }
    {
        match self.quarantine(word, shard, who, key, Mode::Delta, by, now) {
            Ok(answer) => Reply::Quar { answer },
            Err(fault) => refused(fault),
        }
    }

    /// A set, as `BoundBook::set`, with its reply.
    pub(crate) fn reply_to_set(
        &mut self,
        word: &LogWord,
        shard: &mut BoundShard<H>,
        who: Sid,
        key: QKey,
        token: u64,
        value: Value,
        stamp: u64,
        now: u64,
    ) -> Reply
        requires word { word.now ≡ H.word }
        requires place { shard.old.shard.terms.no ≡ shard_of key H.word.shards }
        requires safe { IsSafe self.old.book.book who (wanted.Set key token value stamp) }
        ensures belongs { Belongs who (wanted.Set key token value stamp) result }
        ensures seen { IsBeginning self.old.seen self.new.seen }
        ensures shows { ShowsReply H.opening H.before H.word.shards who
            (wanted.Set key token value stamp) result self.new.seen }
        ensures book { self.new.book ≡ self.old.book }
    {
        match self.set(word, shard, who, key, token, value, stamp, now) {
            Ok(answer) => Reply::Set { answer },
            Err(_) => Reply::Fault {
                fault: Fault::Memory,
            },
        }
    }

    /// Makes a session's request, which is safe by the book, on the shard of its key, which is lent. What the
    /// reply tells is shown by what the desk has seen then. A get and a quarantine leave a step that names the
    /// session, unless memory ran out or no token is left. A release puts or shifts the value as asked for,
    /// where the grant's mode, and of a shift the key, are fit for that, and else drops it. One that keeps the
    /// value is Gone where the desk hasn't seen that the grant's session was ended without a commit. A raise
    /// of a grant that isn't to invalidate is Shared. Else what is made of a grant that is out there is the
    /// shard's own step.
    pub fn on_shard(
        &mut self,
        word: &LogWord,
        shard: &mut BoundShard<H>,
        who: Sid,
        request: Wanted,
        now: u64,
    ) -> Reply
        requires word { word.now ≡ H.word }
        requires place { IfSome (key_of request) (λ key.
            shard.old.shard.terms.no ≡ shard_of key H.word.shards) }
        requires home { IsFor shard.old.shard.terms request }
        requires safe { IsSafe self.old.book.book who request }
        ensures belongs { Belongs who request result }
        ensures seen { IsBeginning self.old.seen self.new.seen }
        ensures shows { ShowsReply H.opening H.before H.word.shards who request result
            self.new.seen }
        ensures fault { ShowsFault H.terms H.before H.word.shards request result self.new.seen }
        ensures book { self.new.book.book ≡ book_after who request result self.old.book.book }
        ensures first { (writes : Bool) → IsFirst writes request
            → ShowsFirst H.terms H.before H.word.shards who result self.new.seen }
        ensures made { IsMade self.old.quit shard.old.shard request result }
    {
        match request {
            Wanted::Get { key, floor } => {
                match self.reply_to_get(word, shard, who, key, floor, now) {
                    Ok(got) => Reply::Got { got },
                    Err(fault) => Reply::Fault { fault },
                }
            }
            Wanted::Set {
                key,
                token,
                value,
                stamp,
            } => self.reply_to_set(word, shard, who, key, token, value, stamp, now),
            Wanted::QaReg { key } => self.reply_to_register(word, shard, who, key, now),
            Wanted::QaRead { key } => self.reply_to_read(word, shard, who, key, now),
            Wanted::Delta { key, by } => self.reply_to_delta(word, shard, who, key, by, now),
            Wanted::Dar { grant } => Reply::Rel {
                answer: self.drop_value(word, shard, who, grant),
            },
            Wanted::Sar {
                grant,
                value,
                stamp,
            } => self.reply_to_replace(word, shard, who, grant, value, stamp),
            Wanted::Apply { grant, stamp } => self.reply_to_shift(word, shard, who, grant, stamp),
            Wanted::Abort { grant } => self.reply_to_abort(word, shard, who, grant),
            Wanted::Raise { grant } => self.reply_to_raise(word, shard, who, grant),
            Wanted::Renew { grant } => {
                let answer = self.renew(word, shard, &grant, now).ok();
                Reply::Renew { grant, answer }
            }
            Wanted::Ask { .. }
            | Wanted::Staged { .. }
            | Wanted::Commit { .. }
            | Wanted::End
            | Wanted::Nothing => unreachable!(),
        }
    }
}

/// The reply to a request that the shard refused.
fn refused(fault: ShardFault) -> Reply
    requires { (place : ℕ) → fault ≢ ShardFault.Stranger place }
    ensures { result ≡ Reply.Fault (fault_of fault) }
{
    Reply::Fault {
        fault: told_of(fault),
    }
}

/// What a session is told of a request that the shard refused.
fn told_of(fault: ShardFault) -> Fault
    requires { (place : ℕ) → fault ≢ ShardFault.Stranger place }
    ensures { result ≡ fault_of fault }
{
    match fault {
        ShardFault::Spent { next: _ } => Fault::Spent,
        ShardFault::Memory => Fault::Memory,
        ShardFault::Stranger { shard: _ } => unreachable!(),
    }
}
