//! The releases that write a value, with their replies.
ghost use Rattle.std.specs.Prelude.{◌≡◌, Some};
ghost use Rattle.rows_model.specs.Placement.{shard_of};
ghost use Rattle.session_client.specs.Belongs.{Belongs};
ghost use Rattle.session_client.specs.declared.replies.Wanted.TheVariants as wanted;
ghost use Rattle.log_word.specs.Steps.{IsBeginning};
ghost use Rattle.desk_book.specs.Borne.{IsBorne};
ghost use Rattle.bound_desk.specs.Safe.{IsSafe};
ghost use Rattle.bound_desk.specs.Made.{IsMade};
ghost use Rattle.bound_desk.specs.Shown.{ShowsReply};
ghost use Rattle.bound_desk.specs.Told.{book_after};

use crate::bound_books::BoundBook;
use bound_hub::{BoundName, BoundShard};
use key_shard::{Back, Grant};
use lease_table::Mode;
use log_word::LogWord;
use rows_model::{Sid, Value};
use session_client::Reply;

impl<H: BoundName> BoundBook<H> {
    /// A release in whose place the key's value is another one, or none, with its reply.
    pub(crate) fn reply_to_replace(
        &mut self,
        word: &LogWord,
        shard: &mut BoundShard<H>,
        who: Sid,
        grant: Grant,
        value: Option<Value>,
        stamp: u64,
    ) -> Reply
        requires word { word.now ≡ H.word }
        requires place { shard.old.shard.terms.no ≡ shard_of grant.key H.word.shards }
        requires safe { IsSafe self.old.book.book who (wanted.Sar grant value stamp) }
        ensures belongs { Belongs who (wanted.Sar grant value stamp) result }
        ensures seen { IsBeginning self.old.seen self.new.seen }
        ensures shows { ShowsReply H.opening H.before H.word.shards who
            (wanted.Sar grant value stamp) result self.new.seen }
        ensures book { self.new.book.book
            ≡ book_after who (wanted.Sar grant value stamp) result self.old.book.book }
        ensures made { IsMade self.old.quit shard.old.shard (wanted.Sar grant value stamp) result }
    {
        match value {
            Some(value) => self.reply_to_put(word, shard, who, grant, value, stamp),
            None => Reply::Rel {
                answer: self.drop_value(word, shard, who, grant),
            },
        }
    }

    /// A release with a new value, as `BoundBook::put_value`, with its reply. For want of memory the grant
    /// comes back. By a grant that isn't to refresh the key's value is dropped.
    pub(crate) fn reply_to_put(
        &mut self,
        word: &LogWord,
        shard: &mut BoundShard<H>,
        who: Sid,
        grant: Grant,
        value: Value,
        stamp: u64,
    ) -> Reply
        requires word { word.now ≡ H.word }
        requires place { shard.old.shard.terms.no ≡ shard_of grant.key H.word.shards }
        requires borne { IsBorne self.old.book.book who (wanted.Sar grant (Some value) stamp) }
        ensures belongs { Belongs who (wanted.Sar grant (Some value) stamp) result }
        ensures seen { IsBeginning self.old.seen self.new.seen }
        ensures shows { ShowsReply H.opening H.before H.word.shards who
            (wanted.Sar grant (Some value) stamp) result self.new.seen }
        ensures book { self.new.book.book
            ≡ book_after who (wanted.Sar grant (Some value) stamp) result self.old.book.book }
        ensures made { IsMade self.old.quit shard.old.shard (wanted.Sar grant (Some value) stamp) result }
    {
        match grant.mode() {
            Mode::Refresh => match self.put_value(word, shard, who, grant, value, stamp) {
                Ok(answer) => Reply::Rel { answer },
                Err(Back { grant, value: _ }) => Reply::SarBack { grant },
            },
            Mode::Invalidate | Mode::Delta => Reply::Rel {
                answer: self.drop_value(word, shard, who, grant),
            },
        }
    }

    /// A release that shifts, as `BoundBook::shift_value`, with its reply. By a grant that isn't of a delta,
    /// or is of a key that is no count, the key's value is dropped.
    pub(crate) fn reply_to_shift(
        &mut self,
        word: &LogWord,
        shard: &mut BoundShard<H>,
        who: Sid,
        grant: Grant,
        stamp: u64,
    ) -> Reply
        requires word { word.now ≡ H.word }
        requires place { shard.old.shard.terms.no ≡ shard_of grant.key H.word.shards }
        requires borne { IsBorne self.old.book.book who (wanted.Apply grant stamp) }
        ensures belongs { Belongs who (wanted.Apply grant stamp) result }
        ensures seen { IsBeginning self.old.seen self.new.seen }
        ensures shows { ShowsReply H.opening H.before H.word.shards who
            (wanted.Apply grant stamp) result self.new.seen }
        ensures book { self.new.book.book
            ≡ book_after who (wanted.Apply grant stamp) result self.old.book.book }
        ensures made { IsMade self.old.quit shard.old.shard (wanted.Apply grant stamp) result }
    {
        match grant.mode() {
            Mode::Delta if grant.key().is_count() => Reply::Rel {
                answer: self.shift_value(word, shard, who, grant, stamp),
            },
            Mode::Invalidate | Mode::Refresh | Mode::Delta => Reply::Rel {
                answer: self.drop_value(word, shard, who, grant),
            },
        }
    }
}
