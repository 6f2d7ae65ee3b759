//! The table as a list of all records, each request a walk over all of them: what the map is tried against.
ghost use Rattle.std.specs.Prelude.{◌<◌};

use case_tables::{Verdict, lease_grid};
use lease_table::{Due, Held, Lease, Mode, Quar, ReadLease};
use rows_model::{Memory, QKey, Sid};
use std::alloc::Global;

#[derive(Drop)]
pub struct ListTable {
    leases: Vec<Lease>,
}

impl ListTable {
    pub fn new(alloc: Global) -> ListTable {
        ListTable {
            leases: Vec::new(alloc),
        }
    }

    pub fn standing(&self, key: &QKey, who: Sid, now: u64) -> usize
        ensures { result < 9 }
    {
        match (self.own(key, who), self.other(key, who)) {
            (Some(own), Some(_)) if matches!(own.mode, Mode::Invalidate) => 8,
            (Some(own), None) | (Some(own), Some(_)) => 5 + own.mode.place(),
            (None, Some(other)) => 2 + other.mode.place(),
            (None, None) => usize::from(self.recorded(key).is_some_and(|read| now < read.deadline)),
        }
    }

    pub fn judge_i(&self, key: &QKey, who: Sid, now: u64) -> Verdict {
        lease_grid().at(self.standing(key, who, now), 0)
    }

    pub fn judge_q(&self, key: &QKey, who: Sid, mode: Mode, now: u64) -> Verdict {
        lease_grid().at(self.standing(key, who, now), 1 + mode.place())
    }

    /// Gone where the session has no quarantine to invalidate with this token, else Refuse beside another's,
    /// else Raise.
    pub fn judge_raise(&self, key: &QKey, who: Sid, token: u64) -> Verdict {
        match self.quar(key, token) {
            Some(quar) if quar.sid.number == who.number && matches!(quar.mode, Mode::Invalidate) =>
                {
                    if self.other(key, who).is_some() {
                        Verdict::Refuse
                    } else {
                        Verdict::Raise
                    }
                }
            _ => Verdict::Gone,
        }
    }

    pub fn ask_i(&mut self, key: QKey, read: ReadLease, now: u64) -> Result<Verdict, Memory> {
        let verdict = self.judge_i(&key, read.sid, now);
        if verdict.is_given() {
            self.record(Lease {
                key,
                held: Held::Read(read),
            })?;
        }
        Ok(verdict)
    }

    pub fn ask_q(&mut self, key: QKey, q: Quar, now: u64) -> Result<Verdict, Memory> {
        let verdict = self.judge_q(&key, q.sid, q.mode, now);
        if verdict.is_given() {
            self.record(Lease {
                key,
                held: Held::Quarantine(q),
            })?;
        }
        Ok(verdict)
    }

    pub fn quar(&self, key: &QKey, token: u64) -> Option<Quar> {
        self.leases
            .iter()
            .filter_map(|lease| quar_at(lease, key))
            .find(|quar| quar.token == token)
    }

    pub fn holder(&self, key: &QKey, who: Sid) -> Option<Quar> {
        self.own(key, who).or(self.other(key, who))
    }

    /// The lease to read that is recorded on the key.
    pub fn recorded(&self, key: &QKey) -> Option<ReadLease> {
        for lease in &self.leases {
            if let Some(read) = read_at(lease, key) {
                return Some(read);
            }
        }
        None
    }

    pub fn can_take_i(&self, key: &QKey, token: u64, now: u64) -> bool {
        self.recorded(key)
            .is_some_and(|read| read.token == token && now < read.deadline)
    }

    pub fn take_i(&mut self, key: &QKey, token: u64, now: u64) -> bool {
        let taken = self.can_take_i(key, token, now);
        if taken {
            self.drop_read(key);
        }
        taken
    }

    pub fn end_q(&mut self, key: &QKey, token: u64) -> Option<Quar> {
        let quar = self.quar(key, token)?;
        self.leases.retain(|lease| !quar_at(lease, key).is_some_and(|quar| quar.token == token));
        Some(quar)
    }

    pub fn raise(&mut self, key: &QKey, who: Sid, token: u64) -> Verdict {
        let verdict = self.judge_raise(key, who, token);
        if matches!(verdict, Verdict::Raise)
            && let Some(quar) = self.quar(key, token)
        {
            self.put_again(
                key,
                Quar {
                    mode: Mode::Refresh,
                    ..quar
                },
            );
        }
        verdict
    }

    pub fn renew(&mut self, key: &QKey, token: u64, deadline: u64) -> bool {
        match self.quar(key, token) {
            Some(quar) => {
                self.put_again(key, Quar { deadline, ..quar });
                true
            }
            None => false,
        }
    }

    pub fn expired(&self, now: u64) -> Option<Due> {
        let mut least = None;
        for lease in &self.leases {
            least = earlier_of(least, due_at(lease, now));
        }
        least
    }

    fn own(&self, key: &QKey, who: Sid) -> Option<Quar> {
        self.leases
            .iter()
            .filter_map(|lease| quar_at(lease, key))
            .find(|quar| quar.sid.number == who.number)
    }

    pub fn other(&self, key: &QKey, who: Sid) -> Option<Quar> {
        self.leases
            .iter()
            .filter_map(|lease| quar_at(lease, key))
            .find(|quar| quar.sid.number != who.number)
    }

    /// Puts the quarantine in the place of the one on the key that has its token.
    fn put_again(&mut self, key: &QKey, new: Quar) {
        for lease in self.leases.iter_mut() {
            if quar_at(lease, key).is_some_and(|quar| quar.token == new.token) {
                lease.held = Held::Quarantine(new);
            }
        }
    }

    fn record(&mut self, lease: Lease) -> Result<(), Memory> {
        self.leases.reserve(1)?;
        self.drop_read(&lease.key);
        self.leases.push(lease)?;
        Ok(())
    }

    fn drop_read(&mut self, key: &QKey) {
        self.leases.retain(|lease| read_at(lease, key).is_none());
    }
}

/// The quarantine on the key, if the record is one.
fn quar_at(lease: &Lease, key: &QKey) -> Option<Quar> {
    match lease.held {
        Held::Quarantine(quar) if lease.key == *key => Some(quar),
        _ => None,
    }
}

/// The lease to read the key, if the record is one.
fn read_at(lease: &Lease, key: &QKey) -> Option<ReadLease> {
    match lease.held {
        Held::Read(read) if lease.key == *key => Some(read),
        _ => None,
    }
}

/// How the record is told, if it is a quarantine whose deadline has come.
fn due_at(lease: &Lease, now: u64) -> Option<Due> {
    match lease.held {
        Held::Quarantine(quar) if quar.deadline <= now => Some(Due {
            key: lease.key,
            sid: quar.sid,
            token: quar.token,
        }),
        _ => None,
    }
}

/// The one that comes first by key and then by token, of those that there are.
fn earlier_of(least: Option<Due>, next: Option<Due>) -> Option<Due> {
    match (least, next) {
        (Some(a), Some(b)) => {
            if b.key < a.key || b.key == a.key && b.token < a.token {
                Some(b)
            } else {
                Some(a)
            }
        }
        (None, next) => next,
        (least, None) => least,
    }
}
