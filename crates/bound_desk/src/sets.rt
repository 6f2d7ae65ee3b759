//! A set for a desk: of what its book bears out.
ghost use Rattle.std.specs.Prelude.{◌≡◌, ◌⊎◌, Bool, IfOk};
ghost use Rattle.rows_model.specs.Placement.{shard_of};
ghost use Rattle.session_client.specs.declared.replies.Wanted.TheVariants as wanted;
ghost use Rattle.log_word.specs.Steps.{IsBeginning};
ghost use Rattle.desk_book.specs.Borne.{IsBorne};
ghost use Rattle.bound_hub.specs.Gets.{IsLastStep};
ghost use Rattle.bound_hub.specs.StepShorts.{set_short};

use crate::bound_books::BoundBook;
use bound_hub::{BoundName, BoundShard};
use key_shard::{SetAnswer, ShardFault};
use log_word::LogWord;
use rows_model::{QKey, Sid, Value};

impl<H: BoundName> BoundBook<H> {
    /// Sets a value on a key for a session, on the key's shard, which is lent. The book bears it out: it
    /// holds the lease of this token, and an answer since of this value and stamp. Or the token is 0, and
    /// then the set is void. The set's own step is the last of that shard that the desk has seen then. The
    /// book stays.
    pub fn set(
        &mut self,
        word: &LogWord,
        shard: &mut BoundShard<H>,
        who: Sid,
        key: QKey,
        token: u64,
        value: Value,
        stamp: u64,
        now: u64,
    ) -> Result<SetAnswer, ShardFault>
        requires word { word.now ≡ H.word }
        requires place { shard.old.shard.terms.no ≡ shard_of key H.word.shards }
        requires borne { (token ≡ 0)
            ⊎ IsBorne self.old.book.book who (wanted.Set key token value stamp) }
        ensures seen { IsBeginning self.old.seen self.new.seen }
        ensures last { IfOk result (λ answer. (has : Bool)
            × IsLastStep (shard_of key H.word.shards) (set_short key token stamp answer has)
            self.new.seen) }
        ensures book { self.new.book ≡ self.old.book }
    {
        shard.set(word, &mut self.pass, key, token, value, stamp, now)
    }
}
