ghost use Rattle.std.specs.Prelude.{◌≡◌, ◌<◌, ◌≤◌, [], ◌∷◌, ◌++◌, Some, None, not, is_some, filter, find, map, MatchBool, IfOk, IfSome, IfNone, IsTrue, OnSome, OnErr, nat_lt, ℕ};
ghost use Rattle.std.specs.List.{All, AllPairs, list_all};
ghost use Rattle.case_tables.specs.Compatibility.{verdict, is_given, is_raised, row_of, read, quarantine};
ghost use Rattle.lease_table.specs.Expiry.{NoneDue, NoneDueBefore, quars_in, StandsDue};
ghost use Rattle.lease_table.specs.Lapses.{is_lapsed, reader_in, HasLapsed, NoneLapsed, NoneLapsedBefore};
ghost use Rattle.lease_table.specs.Leases.{quars, recorded, own_quar, holder_in, has_token, is_current, way_of, holding, first, others_in, raise_in, raised, renewed, IsTable, Leaves, StandBeside};

use crate::dues::first_due;
use crate::edits::{Change, change_quar, drop_quar};
use crate::index::Index;
use crate::lapses::Lapses;
use crate::lookups::{
    OnKey, holder_of, is_current_at, is_lapsed_at, on_key, other_quar, quar_with,
};
use crate::readers::{end_read, record_quar, record_read};
use crate::records::{Due, Lapse, LeaseMap, Mode, Quar, ReadLease};
use case_tables::Verdict;
use rows_model::{Memory, QKey, Sid};
use std::alloc::Global;
use std::collections::BTreeMap;
use std::marker::Model;

/// The leases of each key: at most one lease to read, or quarantines in order of token. Contracts see
/// the list of their records.
#[derive(Drop)]
pub struct Leases {
    leases: LeaseMap,
    /// The quarantines by their deadlines.
    index: Index,
    /// The leases to read by their deadlines.
    lapses: Lapses,
    alloc: Global,
}

impl Model for Leases {
    ghost use Rattle.std.specs.Prelude.{List};
    ghost use Rattle.lease_table.specs.declared.records.Lease.{Lease};
    ghost use Rattle.lease_table.specs.Standing.{records, IsKept};
    ghost use Rattle.lease_table.specs.Lapses.{AreListed};

    ghost Value = { List Lease };

    ghost view = { λ table. records table.leases.entries };

    ghost invariant = { λ table.
        IsKept table.leases table.index × AreListed table.leases table.lapses };
}

impl Leases {
    /// A table with no lease.
    pub fn new(alloc: Global) -> Leases
        ensures { result ≡ [] }
    {
        Leases {
            leases: BTreeMap::new(alloc),
            index: Index::new(alloc),
            lapses: Lapses::new(alloc),
            alloc,
        }
    }

    /// Another table with the same leases, in memory of its own. Where that is refused, `Memory`
    /// comes. This table stays as it is.
    pub fn copy(&self) -> Result<Leases, Memory>
        ensures { IfOk result (λ copy. copy ≡ self.now) }
    {
        let leases = self.leases.clone()?;
        let index = self.index.copy()?;
        let lapses = self.lapses.copy()?;
        Ok(Leases {
            leases,
            index,
            lapses,
            alloc: self.alloc,
        })
    }

    // What stands on the key.
    fn on_key(&self, key: &QKey) -> OnKey<'_>
        ensures reader { result.reader ≡ recorded key.now self.now }
        ensures quars { result.quars.now ≡ quars key.now self.now }
        ensures beside { AllPairs StandBeside result.quars.now }
        ensures table { IsTable self.now }
    {
        on_key(&self.leases, key)
    }

    /// The row of the grid for the key, as the session sees it. Its own quarantine comes before those of
    /// others, and a lease to read that is past its deadline counts as none.
    pub fn standing(&self, key: &QKey, who: Sid, now: u64) -> usize
        ensures row { result ≡ row_of (holding key.now who now self.now) }
        ensures within { result < 9 }
        ensures table { IsTable self.now }
    {
        self.on_key(key).row(who, now)
    }

    /// Asks for a lease to read the key, and answers the grid's verdict. `Give` puts it in the place of
    /// any that is recorded; any other verdict leaves the table. `Memory` comes only where the lease
    /// would be given, and leaves the table too.
    pub fn ask_i(
        &mut self,
        key: QKey,
        sid: Sid,
        token: u64,
        deadline: u64,
        now: u64,
    ) -> Result<Verdict, Memory>
        ensures verdict { IfOk result (λ v. v ≡ verdict (holding key sid now self.old) read) }
        ensures after { IfOk result (λ v. MatchBool (is_given v)
            (Leaves key (Some (record { sid = sid; token = token; deadline = deadline }))
            (quars key self.old) self.old self.new)
            (self.new ≡ self.old)) }
        ensures memory { OnErr result (IsTrue (is_given
            (verdict (holding key sid now self.old) read))) }
        ensures err { OnErr result (self.new ≡ self.old) }
    {
        let there = self.on_key(&key);
        let reader = there.reader;
        let verdict = there.read_verdict(sid, now);
        match verdict {
            Verdict::Wait
            | Verdict::Same
            | Verdict::Own
            | Verdict::Refuse
            | Verdict::Raise
            | Verdict::Gone => {}
            Verdict::Give | Verdict::Void | Verdict::Join => {
                let read = ReadLease {
                    sid,
                    token,
                    deadline,
                };
                record_read(&mut self.leases, &mut self.lapses, key, reader, read)?;
            }
        }
        Ok(verdict)
    }

    /// Whether the token is above that of each quarantine on the key, as `ask_q` requires it of its own.
    pub fn is_above(&self, key: &QKey, token: u64) -> bool
        ensures { result ≡ list_all (λ other. nat_lt other.token token) (quars key.now self.now) }
    {
        self.on_key(key)
            .quars
            .iter()
            .all(|other| other.token < token)
    }

    /// Asks for a quarantine of the key, and answers the grid's verdict. `Give`, `Void` and `Join` add it
    /// and end any lease to read that is recorded; any other verdict leaves the table. `Memory` comes only
    /// where the quarantine would be given, and leaves the table too.
    pub fn ask_q(&mut self, key: QKey, q: Quar, now: u64) -> Result<Verdict, Memory>
        requires { All (λ other. other.token < q.token) (quars key self.old) }
        ensures verdict { IfOk result (λ v. v
            ≡ verdict (holding key q.sid now self.old) (quarantine (way_of q.mode))) }
        ensures after { IfOk result (λ v. MatchBool (is_given v)
            (Leaves key None (quars key self.old ++ q ∷ []) self.old self.new)
            (self.new ≡ self.old)) }
        ensures memory { OnErr result (IsTrue (is_given
            (verdict (holding key q.sid now self.old) (quarantine (way_of q.mode))))) }
        ensures err { OnErr result (self.new ≡ self.old) }
    {
        let there = self.on_key(&key);
        let reader = there.reader;
        let verdict = there.quar_verdict(q.sid, q.mode, now);
        match verdict {
            Verdict::Wait
            | Verdict::Same
            | Verdict::Own
            | Verdict::Refuse
            | Verdict::Raise
            | Verdict::Gone => {}
            Verdict::Give | Verdict::Void | Verdict::Join => {
                self.index.list(&self.leases, key, &q)?;
                record_quar(
                    &mut self.leases,
                    &mut self.lapses,
                    self.alloc,
                    key,
                    reader,
                    q,
                )?;
            }
        }
        Ok(verdict)
    }

    /// The grid's verdict on a request for a quarantine of the key, as `ask_q` would answer it.
    pub fn judge_q(&self, key: &QKey, who: Sid, mode: Mode, now: u64) -> Verdict
        ensures { result ≡ verdict (holding key.now who now self.now) (quarantine (way_of mode)) }
    {
        self.on_key(key).quar_verdict(who, mode, now)
    }

    /// The grid's verdict on raising the session's quarantine of this token on the key, as `raise` would
    /// answer it.
    pub fn judge_raise(&self, key: &QKey, who: Sid, token: u64) -> Verdict
        ensures { result ≡ raise_in who token (quars key.now self.now) }
    {
        self.on_key(key).raise_verdict(who, token)
    }

    /// The quarantine of least token that another session has on the key, if there is one.
    pub fn other(&self, key: &QKey, who: Sid) -> Option<Quar>
        ensures { result ≡ first (others_in who (quars key.now self.now)) }
    {
        other_quar(self.on_key(key).quars, who)
    }

    /// The quarantine on the key that has this token.
    pub fn quar(&self, key: &QKey, token: u64) -> Option<Quar>
        ensures { result ≡ find (has_token token) (quars key.now self.now) }
    {
        quar_with(self.on_key(key).quars, token)
    }

    /// The session's own quarantine on the key, else the one of least token, else none.
    pub fn holder(&self, key: &QKey, who: Sid) -> Option<Quar>
        ensures holder { result ≡ holder_in who (quars key.now self.now) }
        ensures least { own_quar key.now who self.now ≡ None
            → IfSome result (λ q. All (λ other. q.token ≤ other.token) (quars key.now self.now)) }
    {
        holder_of(self.on_key(key).quars, who)
    }

    /// Whether the lease to read the key that has this token is recorded and its deadline lies ahead, so
    /// that `take_i` would use it up.
    pub fn can_take_i(&self, key: &QKey, token: u64, now: u64) -> bool
        ensures { result ≡ is_current token now (recorded key.now self.now) }
    {
        is_current_at(self.on_key(key).reader, token, now)
    }

    /// Uses up the lease to read the key that has this token, and says whether it did: exactly where that
    /// lease is recorded and its deadline lies ahead. Else the table stays.
    pub fn take_i(&mut self, key: &QKey, token: u64, now: u64) -> bool
        ensures taken { result ≡ is_current token now (recorded key.now self.old) }
        ensures after { MatchBool result
            (Leaves key.now None (quars key.now self.old) self.old self.new)
            (self.new ≡ self.old) }
    {
        let reader = self.on_key(key).reader;
        if !is_current_at(reader, token, now) {
            return false;
        }
        end_read(&mut self.leases, &mut self.lapses, key, reader);
        true
    }

    /// Ends the lease to read the key that has this token, and says whether it did: exactly where that
    /// lease is recorded and its deadline has come. Else the table stays. It takes no memory.
    pub fn end_lapsed(&mut self, key: &QKey, token: u64, now: u64) -> bool
        ensures lapsed { result ≡ is_lapsed token now (recorded key.now self.old) }
        ensures after { MatchBool result
            (Leaves key.now None (quars key.now self.old) self.old self.new)
            (self.new ≡ self.old) }
    {
        let reader = self.on_key(key).reader;
        if !is_lapsed_at(reader, token, now) {
            return false;
        }
        end_read(&mut self.leases, &mut self.lapses, key, reader);
        true
    }

    /// The lease to read that is recorded with the earliest deadline, if that has come; none exactly where
    /// none has come. It takes no memory.
    pub fn first_lapsed(&self, now: u64) -> Option<Lapse>
        ensures lapsed { IfSome result (HasLapsed now (reader_in self.now)) }
        ensures least { IfSome result (NoneLapsedBefore (reader_in self.now)) }
        ensures none { IfNone result (NoneLapsed now (reader_in self.now)) }
    {
        match self.lapses.first() {
            Some(first) if first.deadline <= now => Some(first),
            _ => None,
        }
    }

    /// A time before which no lease to read lapses: the earliest deadline of one, or the last time that
    /// there is. It takes no memory.
    pub fn next_lapse(&self) -> u64
        ensures { (now : ℕ) → now < result → NoneLapsed now (reader_in self.now) }
    {
        match self.lapses.first() {
            Some(first) => first.deadline,
            None => u64::MAX,
        }
    }

    /// Ends the quarantine on the key that has this token, and answers it. Where none has, the table stays.
    pub fn end_q(&mut self, key: &QKey, token: u64) -> Option<Quar>
        ensures ended { result ≡ find (has_token token) (quars key.now self.old) }
        ensures after { OnSome result (Leaves key.now (recorded key.now self.old)
            (filter (λ q. not (has_token token q)) (quars key.now self.old)) self.old self.new) }
        ensures none { IfNone result (self.new ≡ self.old) }
    {
        let quar = quar_with(self.on_key(key).quars, token)?;
        drop_quar(&mut self.leases, key, token);
        Some(quar)
    }

    /// Raises the session's quarantine to invalidate that has the token to one to refresh, and answers the
    /// grid's verdict. `Raise` makes it one to refresh, with its token, deadline and shift as they were,
    /// which only comes where no other session quarantines the key. `Gone` comes exactly where no
    /// quarantine to invalidate of the session with the token stands there. Any verdict but `Raise`
    /// leaves the table. It takes no memory.
    pub fn raise(&mut self, key: &QKey, sid: Sid, token: u64) -> Verdict
        ensures verdict { result ≡ raise_in sid token (quars key.now self.old) }
        ensures after { MatchBool (is_raised result)
            (Leaves key.now (recorded key.now self.old) (map (raised token)
            (quars key.now self.old)) self.old self.new)
            (self.new ≡ self.old) }
    {
        let verdict = self.on_key(key).raise_verdict(sid, token);
        match verdict {
            Verdict::Raise => change_quar(&mut self.leases, key, token, Change::ToRefresh),
            Verdict::Give
            | Verdict::Wait
            | Verdict::Void
            | Verdict::Join
            | Verdict::Same
            | Verdict::Own
            | Verdict::Refuse
            | Verdict::Gone => {}
        }
        verdict
    }

    /// Gives the quarantine on the key that has the token another deadline, whatever its mode, and says
    /// whether it did: exactly where such a quarantine stands there. The deadline may lie before the one
    /// that it had. Else the table stays. It takes no memory.
    pub fn renew(&mut self, key: &QKey, token: u64, deadline: u64) -> bool
        ensures told { result ≡ is_some (find (has_token token) (quars key.now self.old)) }
        ensures after { MatchBool result
            (Leaves key.now (recorded key.now self.old) (map (renewed token deadline)
            (quars key.now self.old)) self.old self.new)
            (self.new ≡ self.old) }
    {
        let Some(quar) = quar_with(self.on_key(key).quars, token) else {
            return false;
        };
        change_quar(&mut self.leases, key, token, Change::ToDeadline(deadline));
        self.index.renew(key, token, quar.deadline, deadline);
        true
    }

    /// A time before which no quarantine's deadline comes. It may be earlier than the first that does. It
    /// looks at no quarantine, and takes no memory.
    pub fn next_due(&self) -> u64
        ensures { (now : ℕ) → now < result → NoneDue now (quars_in self.now) }
    {
        self.index.next_due()
    }

    /// The quarantine whose deadline has come that is first by key, and then by token; none exactly where
    /// no deadline has come. The table stays as it is, and so does what it tells.
    pub fn expired(&mut self, now: u64) -> Option<Due>
        ensures due { IfSome result (StandsDue now (quars_in self.old)) }
        ensures least { IfSome result (NoneDueBefore now (quars_in self.old)) }
        ensures none { IfNone result (NoneDue now (quars_in self.old)) }
        ensures left { self.new ≡ self.old }
    {
        self.index.settle(now);
        first_due(&self.leases, &mut self.index, now)
    }
}
