ghost use Rattle.std.specs.Prelude.{◌≡◌, ◌≢◌, true, false, ◌↔◌, ◌≤◌, ◌<◌, ◌∷◌, ◌++◌, [], IfOk, OnOk, OnErr, IfErr, IfSome, IfNone, IsTrue, Some, None, option_map, min, length, ◌^◌, ◌-◌, ℕ};
ghost use Rattle.std.specs.Bool.{IsFalse};
ghost use Rattle.lease_table.specs.Lapses.{HasLapsed, NoneLapsed, NoneLapsedBefore};
ghost use Rattle.lease_table.specs.Expiry.{NoneDue, NoneDueBefore, StandsDue};
ghost use Rattle.key_shard.specs.Dues.{first_due};
ghost use Rattle.key_shard.specs.Answers.{get_step, set_step, quarantine_step, release_step, replace_step, sweep_step, raise_step, renew_step, FitsMode, FitsShift, IsAtHome, Legal};
ghost use Rattle.entry_table.specs.Entries.{keys, lookup};
ghost use Rattle.key_shard.specs.Past.{entry, order, quar_of, recorded, standing};
ghost use Rattle.key_shard.specs.Replies.{ShowsGot, ShowsSet, ShowsQuarantine, ShowsRaise, ShowsRelease, ShowsRenewal, sweep_answer};
ghost use Rattle.key_shard.specs.Shards.{kept_of, past_of, is_out, after_raise, stepped, returned, swept, refusal, Refuses};

use crate::bodies::Body;
use crate::grants::Grant;
use crate::histories::History;
use crate::outs::Outs;
use crate::replies::{Back, Got, How, QAnswer, Raising, Rel, Renewal, SetAnswer, ShardFault};
use crate::steps::Step;
use entry_table::Entries;
use lease_table::{Due, Lapse, Leases, Mode};
use rows_model::{Memory, QKey, Sid, Value};
use std::alloc::Global;
use std::marker::Model;

/// One shard of the cache. Contracts see what it is made with, its history, and its grants that are
/// out.
///
/// A whole shard has all steps of its history in memory. One that rolls gives up each step as it comes,
/// and contracts see them all the same: what it answers rests on its whole history, as if all of it was
/// there.
#[derive(Drop)]
pub struct Shard {
    body: Body,
}

impl Model for Shard {
    ghost use Rattle.key_shard.specs.Shards.{ShardView};

    ghost Value = { ShardView };

    ghost use Rattle.key_shard.specs.Kept.{IsKept, shown};

    ghost view = { λ shard. shown shard.body };

    ghost invariant = { λ shard. IsKept shard.body };
}

impl Shard {
    /// A whole shard, `no` of `count`, with room for so many entries, leases that live so long, and this
    /// first token. Its history is empty.
    pub fn new(
        alloc: Global,
        no: u32,
        count: u32,
        room: u32,
        life: u64,
        first: u64,
    ) -> Result<Shard, Memory>
        requires one_of { no < count }
        requires roomy { 1 ≤ room }
        requires lively { 1 ≤ life }
        requires tokens { 1 ≤ first }
        ensures { IfOk result (λ shard. shard ≡ record {
          terms = record {
            no = no;
            count = count;
            room = room;
            life = life;
            first = first;
            rolls = false;
          };
          history = [];
          out = [];
        }) }
    {
        Shard::with(alloc, no, count, room, life, first, false)
    }

    /// A shard that rolls: as `new`, but each step is given up as it comes, and takes no memory.
    pub fn rolling(
        alloc: Global,
        no: u32,
        count: u32,
        room: u32,
        life: u64,
        first: u64,
    ) -> Result<Shard, Memory>
        requires one_of { no < count }
        requires roomy { 1 ≤ room }
        requires lively { 1 ≤ life }
        requires tokens { 1 ≤ first }
        ensures { IfOk result (λ shard. shard ≡ record {
          terms = record {
            no = no;
            count = count;
            room = room;
            life = life;
            first = first;
            rolls = true;
          };
          history = [];
          out = [];
        }) }
    {
        Shard::with(alloc, no, count, room, life, first, true)
    }

    /// An empty shard.
    fn with(
        alloc: Global,
        no: u32,
        count: u32,
        room: u32,
        life: u64,
        first: u64,
        rolls: bool,
    ) -> Result<Shard, Memory>
        requires one_of { no < count }
        requires roomy { 1 ≤ room }
        ensures { IfOk result (λ shard. shard ≡ record {
          terms = record {
            no = no;
            count = count;
            room = room;
            life = life;
            first = first;
            rolls = rolls;
          };
          history = [];
          out = [];
        }) }
    {
        let (entries, leases) = (Entries::new(alloc, room)?, Leases::new(alloc));
        Ok(Shard {
            body: Body {
                no,
                count,
                life,
                first,
                next: first,
                entries,
                leases,
                out: Outs::new(alloc),
                promised: 0,
                history: History::new(alloc, rolls),
            },
        })
    }

    /// Gets a key for a session. The answer is Own exactly where the session has quarantined the key.
    /// Else it is a hit exactly where an entry stands with a stamp of at least the floor, which comes
    /// to the front. Else an entry with a smaller stamp is dropped, and the answer is Again exactly
    /// where a lease stands that is not past its deadline, or a quarantine, and a lease where none
    /// does.
    ///
    /// A key of another shard is a `Stranger`. Where a lease would take the last number there is as
    /// its token, the shard is `Spent`. After a refusal everything is as before.
    pub fn get(&mut self, key: QKey, who: Sid, floor: u64, now: u64) -> Result<Got, ShardFault>
        ensures refusal { let step = get_step self.old.terms (past_of self.old) key who floor now in
            Refuses (refusal self.old key step) result }
        ensures step { let step = get_step self.old.terms (past_of self.old) key who floor now in
            OnOk result (self.new ≡ stepped self.old step) }
        ensures shows { let step = get_step self.old.terms (past_of self.old) key who floor now in
            IfOk result (ShowsGot step) }
        ensures err { OnErr result (self.new ≡ self.old) }
    {
        self.body.check_home(&key)?;
        self.get_at_home(key, who, floor, now)
    }

    /// Gets a key of this shard for a session, as `get`, which refuses any other key: for a caller who knows
    /// that it is the shard's.
    pub fn get_at_home(
        &mut self,
        key: QKey,
        who: Sid,
        floor: u64,
        now: u64,
    ) -> Result<Got, ShardFault>
        requires { IsAtHome self.old.terms key }
        ensures refusal { let step = get_step self.old.terms (past_of self.old) key who floor now in
            Refuses (refusal self.old key step) result }
        ensures step { let step = get_step self.old.terms (past_of self.old) key who floor now in
            OnOk result (self.new ≡ stepped self.old step) }
        ensures shows { let step = get_step self.old.terms (past_of self.old) key who floor now in
            IfOk result (ShowsGot step) }
        ensures err { OnErr result (self.new ≡ self.old) }
    {
        self.body.get(key, who, floor, now)
    }

    /// Gets a key of this shard for a session, as `get`, where that is a hit. The time is of no account to one.
    /// Where it would be no hit, and after a refusal, everything is as before.
    pub fn get_hit(&mut self, key: QKey, who: Sid, floor: u64) -> Result<Option<Got>, Memory>
        requires { IsAtHome self.old.terms key }
        ensures step { (now : ℕ) → let step = get_step self.old.terms
            (past_of self.old) key who floor now in IfOk result (λ hit. IfSome hit
            (λ got. self.new ≡ stepped self.old step)) }
        ensures shows { (now : ℕ) → let step = get_step self.old.terms
            (past_of self.old) key who floor now in
            IfOk result (λ hit. IfSome hit (ShowsGot step)) }
        ensures none { IfOk result (λ hit. IfNone hit (self.new ≡ self.old)) }
        ensures err { OnErr result (self.new ≡ self.old) }
    {
        self.body.get_hit(key, who, floor)
    }

    /// Stores a value under an I lease, and ends the lease: the entry stands in front, and in a full
    /// shard the last one makes room. Where the token's lease is not recorded, or is past its
    /// deadline, the answer is Void, and no entry or order changes. A lease past its deadline is dropped
    /// then, which no request of that time or a later one can tell.
    pub fn set(
        &mut self,
        key: QKey,
        token: u64,
        value: Value,
        stamp: u64,
        now: u64,
    ) -> Result<SetAnswer, ShardFault>
        ensures refusal { let step = set_step self.old.terms
            (past_of self.old) key token value stamp now in
            Refuses (refusal self.old key step) result }
        ensures step { let step = set_step self.old.terms
            (past_of self.old) key token value stamp now in
            OnOk result (self.new ≡ stepped self.old step) }
        ensures shows { let step = set_step self.old.terms
            (past_of self.old) key token value stamp now in IfOk result (ShowsSet step) }
        ensures err { OnErr result (self.new ≡ self.old) }
    {
        self.body.set(key, token, value, stamp, now)
    }

    /// Asks for a quarantine of the key, by the rules of compatibility. One that is granted ends the
    /// key's I lease, and reserves what its end and its release will take, so that these can't fail.
    /// A session that has this quarantine already is answered Held, and gets no second grant.
    pub fn quarantine(
        &mut self,
        key: QKey,
        sid: Sid,
        mode: Mode,
        shift: i32,
        now: u64,
    ) -> Result<QAnswer, ShardFault>
        requires { FitsShift mode shift }
        ensures refusal { let step = quarantine_step self.old.terms
            (past_of self.old) key sid mode shift now in
            Refuses (refusal self.old key step) result }
        ensures step { let step = quarantine_step self.old.terms
            (past_of self.old) key sid mode shift now in
            OnOk result (self.new ≡ stepped self.old step) }
        ensures shows { let step = quarantine_step self.old.terms
            (past_of self.old) key sid mode shift now in
            IfOk result (ShowsQuarantine self.old.terms (past_of self.old) step) }
        ensures err { OnErr result (self.new ≡ self.old) }
    {
        self.body.quarantine(key, sid, mode, shift, now)
    }

    /// Releases a grant. Where its quarantine stands, it ends: with Keep the entry stays, with Drop it
    /// is dropped, and with Shift its number is moved by the quarantine's shift, in its place; an entry
    /// that is no number is dropped. Where it stands no longer the answer is Gone, and so it is for a
    /// grant that isn't out at this shard, which leaves the history too. It takes no memory.
    pub fn release(&mut self, grant: Grant, how: How) -> Rel
        requires { FitsMode grant.mode how }
        ensures out { IsTrue (is_out self.old grant) →
            self.new ≡ returned self.old grant (release_step (past_of self.old) grant how) }
        ensures shows { IsTrue (is_out self.old grant) →
            ShowsRelease (release_step (past_of self.old) grant how) result }
        ensures unknown { IsFalse (is_out self.old grant) → (self.new ≡ self.old) ×
            (result ≡ Rel.Gone) }
    {
        self.body.release(grant, how)
    }

    /// Releases a grant of mode Refresh with a new value, which stands in front with this stamp; in a
    /// full shard the last entry makes room. Gone as for `release`. For want of memory grant and value
    /// come back, and everything is as before.
    pub fn replace(&mut self, grant: Grant, value: Value, stamp: u64) -> Result<Rel, Back>
        requires { grant.mode ≡ Mode.Refresh }
        ensures out { IsTrue (is_out self.old grant) →
            OnOk result (self.new ≡ returned self.old grant
            (replace_step self.old.terms (past_of self.old) grant value stamp)) }
        ensures shows { IsTrue (is_out self.old grant) →
            IfOk result (ShowsRelease (replace_step self.old.terms
            (past_of self.old) grant value stamp)) }
        ensures unknown { IsFalse (is_out self.old grant) → (self.new ≡ self.old) ×
            (result ≡ Ok Rel.Gone) }
        ensures returned { IfErr result (λ back. (back.grant ≡ grant) × (back.value ≡ value)) }
        ensures err { OnErr result (self.new ≡ self.old) }
    {
        self.body.replace(grant, value, stamp)
    }

    /// Raises the quarantine of a grant of mode Invalidate to one of mode Refresh, where it stands alone on
    /// its key: the grant comes back in that mode, with the key's entry. Where another session's stands
    /// beside it, the grant comes back as it was. Gone as for `release`: the grant is spent. For want of
    /// memory the grant comes back, and everything is as before.
    pub fn raise(&mut self, grant: Grant) -> Result<Raising, Grant>
        requires { grant.mode ≡ Mode.Invalidate }
        ensures out { IsTrue (is_out self.old grant) →
            OnOk result (self.new ≡ after_raise self.old grant
            (raise_step (past_of self.old) grant)) }
        ensures shows { IsTrue (is_out self.old grant) →
            IfOk result (ShowsRaise (past_of self.old) grant
            (raise_step (past_of self.old) grant)) }
        ensures unknown { IsFalse (is_out self.old grant) → (self.new ≡ self.old) ×
            (result ≡ Ok Raising.Gone) }
        ensures returned { IfErr result (λ back. back ≡ grant) }
        ensures err { OnErr result (self.new ≡ self.old) }
    {
        self.body.raise(grant)
    }

    /// Gives the quarantine of a grant a new deadline, as if it was granted now. Gone comes where the
    /// grant isn't out at this shard, which leaves the history, and where its quarantine stands no longer;
    /// the grant stays as it is. After a refusal everything is as before.
    pub fn renew(&mut self, grant: &Grant, now: u64) -> Result<Renewal, Memory>
        ensures out { IsTrue (is_out self.old grant.now) →
            OnOk result (self.new ≡ stepped self.old
            (renew_step self.old.terms (past_of self.old) grant.now now)) }
        ensures shows { IsTrue (is_out self.old grant.now) →
            IfOk result (ShowsRenewal
            (renew_step self.old.terms (past_of self.old) grant.now now)) }
        ensures unknown { IsFalse (is_out self.old grant.now) → (self.new ≡ self.old) ×
            (result ≡ Ok Renewal.Gone) }
        ensures err { OnErr result (self.new ≡ self.old) }
    {
        self.body.renew(grant, now)
    }

    /// Its number, from 0. It takes no memory.
    pub fn no(&self) -> u32
        ensures { result ≡ self.now.terms.no }
    {
        self.body.no
    }

    /// Whether the key is this shard's, by its hash. It takes no memory.
    pub fn is_home(&self, key: &QKey) -> bool
        ensures { IsTrue result ↔ IsAtHome self.now.terms key.now }
    {
        self.body.is_home(key)
    }

    /// Whether the grant is out at this shard: it was granted here, and wasn't handed back. It takes no memory.
    pub fn is_out(&self, grant: &Grant) -> bool
        ensures { result ≡ is_out self.now grant.now }
    {
        self.body.is_out(grant)
    }

    /// A time before which no quarantine's deadline comes, so that `expired` finds none until then. It may
    /// be earlier than the first deadline. It takes no memory.
    pub fn next_due(&self) -> u64
        ensures { (now : ℕ) → now < result → NoneDue now (λ key. standing key (past_of self.now)) }
    {
        self.body.next_due()
    }

    /// The quarantine whose deadline has come that is first by key, and then by token; none exactly where
    /// no deadline of a quarantine has come. Nothing that contracts see changes; what was found due is kept
    /// apart, so that the next call finds it at once. It takes no memory.
    pub fn expired(&mut self, now: u64) -> Option<Due>
        ensures left { self.new ≡ self.old }
        ensures due { IfSome result (StandsDue now (λ key. standing key (past_of self.old))) }
        ensures least { IfSome result (NoneDueBefore now (λ key. standing key (past_of self.old))) }
        ensures none { IfNone result (NoneDue now (λ key. standing key (past_of self.old))) }
        ensures first { result ≡ first_due now (past_of self.old) }
    {
        self.body.expired(now)
    }

    /// Ends the quarantine of this token on this key, whose session won't commit any more, and drops the
    /// key's entry. Where no such quarantine stands the answer is Gone, and nothing changes. The
    /// quarantine's grant stays out: its release will be answered Gone. It takes no memory.
    pub fn sweep_drop(&mut self, key: QKey, token: u64) -> Rel
        requires { IsAtHome self.old.terms key }
        ensures step { self.new ≡ swept self.old (sweep_step (past_of self.old) key token) }
        ensures told { result ≡ sweep_answer (sweep_step (past_of self.old) key token) }
        ensures ended { quar_of key token (past_of self.new) ≡ None }
        ensures dropped { result ≢ Rel.Gone → entry key (past_of self.new) ≡ None }
    {
        self.body.sweep_drop(key, token)
    }

    /// The steps in memory, the earliest first: of a whole shard all steps so far, of one that rolls none.
    pub fn history(&self) -> &[Step]
        ensures steps { result.now ≡ kept_of self.now }
        ensures whole { self.now.terms.rolls ≡ false → result.now ≡ self.now.history }
        ensures legal { Legal self.now.terms self.now.history }
    {
        self.body.history.as_slice()
    }

    /// The steps in memory, the earliest first: of a whole shard all its steps, of one that rolls none.
    pub fn take_history(self) -> Vec<Step>
        ensures steps { result.items ≡ kept_of self }
        ensures whole { self.terms.rolls ≡ false → result.items ≡ self.history }
        ensures legal { Legal self.terms self.history }
    {
        self.body.history.into_steps()
    }

    /// How many shards there are beside it and itself. It takes no memory.
    pub fn count(&self) -> u32
        ensures { result ≡ self.now.terms.count }
    {
        self.body.count
    }

    /// A copy of its entries, each as key, value and stamp, the most recent first. It takes memory for
    /// that copy alone. No step of the history comes of it, and nothing changes.
    pub fn entries(&self) -> Result<Vec<(QKey, Value, u64)>, Memory>
        ensures entries { IfOk result (λ copy. (key : QKey) →
            lookup key copy.items ≡ entry key (past_of self.now)) }
        ensures order { IfOk result (λ copy. keys copy.items ≡ order (past_of self.now)) }
    {
        self.body.entries.list()
    }

    /// The value and the stamp of the key's entry, if it has one. It leaves the order, and no step of the
    /// history comes of it. It takes no memory.
    pub fn peek(&self, key: &QKey) -> Option<(&Value, u64)>
        ensures { option_map (λ found. (found.0.now, found.1)) result
            ≡ entry key.now (past_of self.now) }
    {
        self.body.entries.peek(key)
    }

    /// Whether it rolls. A whole shard doesn't. It takes no memory.
    pub fn rolls(&self) -> bool
        ensures { result ≡ self.now.terms.rolls }
    {
        self.body.history.rolls()
    }

    /// A time before which no lease to read is past its deadline, so that `lapse` finds none until then. It
    /// takes no memory.
    pub fn next_lapse(&self) -> u64
        ensures { (now : ℕ) → now < result
            → NoneLapsed now (λ key. recorded key (past_of self.now)) }
    {
        self.body.next_lapse()
    }

    /// Drops the lease to read that has the earliest deadline, if that has come, and answers it; none exactly
    /// where no deadline of a lease to read has come. Its step is a set under the lease's token that is void,
    /// which no later request can tell. For want of memory everything is as before.
    pub fn lapse(&mut self, now: u64) -> Result<Option<Lapse>, Memory>
        ensures step { IfOk result (λ found. IfSome found (λ lapse. self.new
            ≡ stepped self.old (Step.Void lapse.key lapse.token now))) }
        ensures lapsed { IfOk result (λ found. IfSome found
            (HasLapsed now (λ key. recorded key (past_of self.old)))) }
        ensures least { IfOk result (λ found. IfSome found
            (NoneLapsedBefore (λ key. recorded key (past_of self.old)))) }
        ensures none { IfOk result (λ found. IfNone found
            (NoneLapsed now (λ key. recorded key (past_of self.old)))) }
        ensures left { IfOk result (λ found. IfNone found (self.new ≡ self.old)) }
        ensures err { OnErr result (self.new ≡ self.old) }
    {
        let Some(lapse) = self.body.first_lapsed(now) else {
            return Ok(None);
        };
        self.body.end_lapsed(lapse, now)?;
        Ok(Some(lapse))
    }
}
