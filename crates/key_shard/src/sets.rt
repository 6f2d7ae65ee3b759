ghost use Rattle.std.specs.Prelude.{◌≡◌, IsTrue, OnOk, OnErr, IfOk, IfErr};
ghost use Rattle.entry_table.specs.Entries.{IsSound};
ghost use Rattle.lease_table.specs.Leases.{is_current};
ghost use Rattle.key_shard.specs.Answers.{Answers, set_step};
ghost use Rattle.key_shard.specs.Kept.{IsKept, Puts, shown, steps_of, terms_of};
ghost use Rattle.key_shard.specs.Past.{evicts, recorded};
ghost use Rattle.key_shard.specs.Replies.{ShowsSet};
ghost use Rattle.key_shard.specs.Shards.{Refuses, refusal, stepped};

use crate::bodies::Body;
use crate::replies::{SetAnswer, ShardFault};
use crate::steps::Step;
use entry_table::Entries;
use rows_model::{Memory, QKey, Value};

/// Puts a value in front, and answers the key that made room.
pub fn put_in_front(
    entries: &mut Entries,
    key: QKey,
    value: Value,
    stamp: u64,
) -> Result<Option<QKey>, Value>
    requires { IsSound entries.old }
    ensures puts { IfOk result (λ evicted. Puts key value stamp evicted entries.old entries.new) }
    ensures returned { IfErr result (λ back. back ≡ value) }
    ensures err { OnErr result (entries.new ≡ entries.old) }
{
    let dropped = entries.put(key, value, stamp)?;
    match dropped {
        Some((last, _, _)) => Ok(Some(last)),
        None => Ok(None),
    }
}

impl Body {
    /// Sets a key, as a shard does.
    pub fn set(
        &mut self,
        key: QKey,
        token: u64,
        value: Value,
        stamp: u64,
        now: u64,
    ) -> Result<SetAnswer, ShardFault>
        requires { IsKept self.old }
        ensures kept { IsKept self.new }
        ensures refusal { let step = set_step (terms_of self.old)
            (steps_of self.old) key token value stamp now in
            Refuses (refusal (shown self.old) key step) result }
        ensures step { let step = set_step (terms_of self.old)
            (steps_of self.old) key token value stamp now in
            OnOk result (shown self.new ≡ stepped (shown self.old) step) }
        ensures shows { let step = set_step (terms_of self.old)
            (steps_of self.old) key token value stamp now in IfOk result (ShowsSet step) }
        ensures err { OnErr result (shown self.new ≡ shown self.old) }
    {
        self.check_home(&key)?;
        if self.leases.can_take_i(&key, token, now) {
            Ok(self.store(key, token, value, stamp, now)?)
        } else {
            self.void(key, token, now)?;
            Ok(SetAnswer::Void)
        }
    }

    /// Stores a value under a lease to read, and ends the lease.
    fn store(
        &mut self,
        key: QKey,
        token: u64,
        value: Value,
        stamp: u64,
        now: u64,
    ) -> Result<SetAnswer, Memory>
        requires kept { IsKept self.old }
        requires current { IsTrue (is_current token now (recorded key (steps_of self.old))) }
        requires answers { Answers (terms_of self.old) (steps_of self.old)
            (Step.Stored key token now value stamp (evicts (terms_of self.old) key
            (steps_of self.old))) }
        ensures kept { IsKept self.new }
        ensures step { OnOk result (shown self.new ≡ stepped (shown self.old)
            (Step.Stored key token now value stamp (evicts (terms_of self.old) key
            (steps_of self.old)))) }
        ensures shows { IfOk result (λ answer. answer ≡ SetAnswer.Stored
            (evicts (terms_of self.old) key (steps_of self.old))) }
        ensures err { OnErr result (shown self.new ≡ shown self.old) }
    {
        let copy = value.copy()?;
        self.history.make_room(self.promised, 1)?;
        let Ok(evicted) = put_in_front(&mut self.entries, key, copy, stamp) else {
            return Err(Memory);
        };
        let _ = self.leases.take_i(&key, token, now);
        self.history.push(Step::Stored {
            key,
            token,
            now,
            value,
            stamp,
            evicted,
        });
        Ok(SetAnswer::Stored { evicted })
    }
}
