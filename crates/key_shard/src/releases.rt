ghost use Rattle.std.specs.Prelude.{◌≡◌, ◌≤◌, [], IsTrue, OnOk, OnErr, IfOk, IfErr, Some, Ok, decimal, vec_capacity};
ghost use Rattle.std.specs.Bool.{IsFalse};
ghost use Rattle.entry_table.specs.Entries.{IsSound};
ghost use Rattle.key_shard.specs.Answers.{Answers, FitsMode, ended_as, release_step, replace_step};
ghost use Rattle.key_shard.specs.Kept.{Ends, HasRoom, IsKept, shown, steps_of, terms_of};
ghost use Rattle.key_shard.specs.Past.{evicts, quar_of};
ghost use Rattle.key_shard.specs.Replies.{ShowsRelease};
ghost use Rattle.key_shard.specs.Shards.{is_out, returned};

use crate::bodies::Body;
use crate::grants::Grant;
use crate::replies::{Back, How, Rel};
use crate::sets::put_in_front;
use crate::steps::{Ended, Step};
use entry_table::Entries;
use itoa::Buffer;
use lease_table::{Mode, Quar};
use rows_model::{QKey, Value, shift};

/// The value of a number, written into digits that have room for it.
fn value_in(mut digits: Vec<u8>, number: u64) -> Value
    requires empty { digits.items ≡ [] }
    requires room { 20 ≤ vec_capacity digits }
    ensures { result ≡ decimal number }
{
    let mut buffer = Buffer::new();
    let text = buffer.format(number).as_bytes();
    digits.extend_from_slice(text).unwrap();
    Value::from(digits)
}

/// Moves the number of a key's entry, in its place, and drops an entry that is no number.
fn shift_entry(entries: &mut Entries, key: &QKey, by: i32, stamp: u64, digits: Vec<u8>)
    requires sound { IsSound entries.old }
    requires empty { digits.items ≡ [] }
    requires room { 20 ≤ vec_capacity digits }
    ensures { Ends key.now (Ended.Shift by stamp) entries.old entries.new }
{
    let Some((old, _)) = entries.peek(key) else {
        return;
    };
    match shift(old.bytes(), by) {
        Some(number) => {
            let _ = entries.reput(key, value_in(digits, number), stamp);
        }
        None => {
            let _ = entries.drop_key(key);
        }
    }
}

/// Ends the entry of a key as its quarantine is released, and says how.
fn end_entry(entries: &mut Entries, key: &QKey, how: How, quar: Quar, digits: Vec<u8>) -> Ended
    requires sound { IsSound entries.old }
    requires room { HasRoom how digits.items (vec_capacity digits) }
    ensures ends { Ends key.now (ended_as quar how) entries.old entries.new }
    ensures how { result ≡ ended_as quar how }
{
    match how {
        How::Keep => Ended::Keep,
        How::Drop => {
            let _ = entries.drop_key(key);
            Ended::Drop
        }
        How::Shift { stamp } => {
            shift_entry(entries, key, quar.shift, stamp, digits);
            Ended::Shift {
                by: quar.shift,
                stamp,
            }
        }
    }
}

impl Body {
    /// Whether a grant is out.
    pub fn is_out(&self, grant: &Grant) -> bool
        ensures { result ≡ is_out (shown self.now) grant.now }
    {
        self.out.has(self.no, grant)
    }

    /// Writes down that the quarantine of a grant stood no longer.
    pub fn gone(&mut self, grant: Grant) -> Rel
        requires kept { IsKept self.old }
        requires out { IsTrue (is_out (shown self.old) grant) }
        requires none { quar_of grant.key grant.token (steps_of self.old) ≡ None }
        requires answers { Answers (terms_of self.old) (steps_of self.old)
            (Step.Gone grant.key grant.sid grant.token) }
        ensures kept { IsKept self.new }
        ensures step { shown self.new ≡ returned (shown self.old) grant
            (Step.Gone grant.key grant.sid grant.token) }
        ensures gone { result ≡ Rel.Gone }
    {
        self.out.take(self.no, &grant);
        self.promised -= 1;
        self.history.push(Step::Gone {
            key: grant.key(),
            sid: grant.sid(),
            token: grant.token(),
        });
        let _ = grant.spend();
        Rel::Gone
    }

    /// Ends the quarantine of a grant.
    fn end(&mut self, grant: Grant, how: How, quar: Quar) -> Rel
        requires kept { IsKept self.old }
        requires out { IsTrue (is_out (shown self.old) grant) }
        requires fits { FitsMode grant.mode how }
        requires stands { quar_of grant.key grant.token (steps_of self.old) ≡ Some quar }
        requires answers { Answers (terms_of self.old) (steps_of self.old)
            (Step.Released grant.key quar.sid grant.token (ended_as quar how)) }
        ensures kept { IsKept self.new }
        ensures step { shown self.new ≡ returned (shown self.old) grant
            (Step.Released grant.key quar.sid grant.token (ended_as quar how)) }
        ensures shows { ShowsRelease (Step.Released grant.key quar.sid grant.token
            (ended_as quar how)) result }
    {
        let (key, token) = (grant.key(), grant.token());
        self.out.take(self.no, &grant);
        self.promised -= 2;
        let _ = self.leases.end_q(&key, token);
        let how = end_entry(&mut self.entries, &key, how, quar, grant.spend());
        self.history.push(Step::Released {
            key,
            sid: quar.sid,
            token,
            how,
        });
        Rel::Released { evicted: None }
    }

    /// Releases a grant, as a shard does.
    pub fn release(&mut self, grant: Grant, how: How) -> Rel
        requires kept { IsKept self.old }
        requires fits { FitsMode grant.mode how }
        ensures kept { IsKept self.new }
        ensures out { IsTrue (is_out (shown self.old) grant) →
            shown self.new ≡ returned (shown self.old) grant
            (release_step (steps_of self.old) grant how) }
        ensures shows { IsTrue (is_out (shown self.old) grant) →
            ShowsRelease (release_step (steps_of self.old) grant how) result }
        ensures unknown { IsFalse (is_out (shown self.old) grant) →
            (shown self.new ≡ shown self.old) × (result ≡ Rel.Gone) }
    {
        if !self.is_out(&grant) {
            let _ = grant.spend();
            return Rel::Gone;
        }
        match self.leases.quar(&grant.key(), grant.token()) {
            Some(quar) => self.end(grant, how, quar),
            None => self.gone(grant),
        }
    }

    /// Ends the quarantine of a grant with a new value in front.
    fn put(&mut self, grant: Grant, value: Value, stamp: u64, quar: Quar) -> Result<Rel, Back>
        requires kept { IsKept self.old }
        requires out { IsTrue (is_out (shown self.old) grant) }
        requires stands { quar_of grant.key grant.token (steps_of self.old) ≡ Some quar }
        requires answers { Answers (terms_of self.old) (steps_of self.old)
            (Step.Released grant.key quar.sid grant.token
            (Ended.Put value stamp (evicts (terms_of self.old) grant.key (steps_of self.old)))) }
        ensures kept { IsKept self.new }
        ensures step { OnOk result (shown self.new ≡ returned (shown self.old) grant
            (Step.Released grant.key quar.sid grant.token
            (Ended.Put value stamp (evicts (terms_of self.old) grant.key (steps_of self.old))))) }
        ensures shows { IfOk result (λ rel. rel ≡ Rel.Released
            (evicts (terms_of self.old) grant.key (steps_of self.old))) }
        ensures returned { IfErr result (λ back. (back.grant ≡ grant) × (back.value ≡ value)) }
        ensures err { OnErr result (shown self.new ≡ shown self.old) }
    {
        let (key, token) = (grant.key(), grant.token());
        let Ok(copy) = value.copy() else {
            return Err(Back { grant, value });
        };
        let evicted = match put_in_front(&mut self.entries, key, value, stamp) {
            Ok(evicted) => evicted,
            Err(value) => return Err(Back { grant, value }),
        };
        self.out.take(self.no, &grant);
        self.promised -= 2;
        let _ = self.leases.end_q(&key, token);
        let _ = grant.spend();
        self.history.push(Step::Released {
            key,
            sid: quar.sid,
            token,
            how: Ended::Put {
                value: copy,
                stamp,
                evicted,
            },
        });
        Ok(Rel::Released { evicted })
    }

    /// Releases a grant with a new value, as a shard does.
    pub fn replace(&mut self, grant: Grant, value: Value, stamp: u64) -> Result<Rel, Back>
        requires kept { IsKept self.old }
        requires refresh { grant.mode ≡ Mode.Refresh }
        ensures kept { IsKept self.new }
        ensures out { IsTrue (is_out (shown self.old) grant) →
            OnOk result (shown self.new ≡ returned (shown self.old) grant
            (replace_step (terms_of self.old) (steps_of self.old) grant value stamp)) }
        ensures shows { IsTrue (is_out (shown self.old) grant) →
            IfOk result (ShowsRelease (replace_step (terms_of self.old)
            (steps_of self.old) grant value stamp)) }
        ensures unknown { IsFalse (is_out (shown self.old) grant) →
            (shown self.new ≡ shown self.old) × (result ≡ Ok Rel.Gone) }
        ensures returned { IfErr result (λ back. (back.grant ≡ grant) × (back.value ≡ value)) }
        ensures err { OnErr result (shown self.new ≡ shown self.old) }
    {
        if !self.is_out(&grant) {
            let _ = grant.spend();
            return Ok(Rel::Gone);
        }
        match self.leases.quar(&grant.key(), grant.token()) {
            Some(quar) => self.put(grant, value, stamp, quar),
            None => Ok(self.gone(grant)),
        }
    }
}
