ghost use Rattle.std.specs.Prelude.{◌≡◌, ◌+◌, ◌<◌, [], not, find, is_some, if◌then◌else◌, AllPairs};
ghost use Rattle.std.specs.List.{list_any};
ghost use Rattle.case_tables.specs.Compatibility.{verdict, row_of, others_row, way_number, is_invalidate, read, quarantine};
ghost use Rattle.lease_table.specs.Leases.{first, own_in, holder_in, is_of, has_token, is_unexpired, is_current, way_of, holding_of, is_raisable, raise_in, StandBeside};
ghost use Rattle.lease_table.specs.Lapses.{is_lapsed};
ghost use Rattle.lease_table.specs.Standing.{leases_on, quars_of, reads_of, stands_in};

use crate::records::{KeyLeases, LeaseMap, Mode, Quar, ReadLease};
use case_tables::{Verdict, lease_grid};
use rows_model::{QKey, Sid};

/// The rows of the grid where the asker holds no quarantine: nothing stands, an unexpired lease to read
/// does, and from here on other sessions' quarantines, by their mode.
const NOTHING_ROW: usize = 0;

const READ_ROW: usize = 1;

const OTHERS_ROWS: usize = 2;
/// The first of the rows where the asker holds a quarantine, by its mode.
const OWN_ROWS: usize = 5;
/// The row where the asker holds a quarantine to invalidate, and others stand beside it.
const BESIDE_ROW: usize = 8;
/// The columns of the grid: a lease to read, from here on a quarantine, by its mode, and to raise one.
const READ_COLUMN: usize = 0;

const QUAR_COLUMNS: usize = 1;

const RAISE_COLUMN: usize = 4;

/// What stands on a key: the lease to read that is recorded, and the quarantines in order of token.
#[derive(Clone, Copy)]
pub struct OnKey<'a> {
    pub reader: Option<ReadLease>,
    pub quars: &'a [Quar],
}

/// What stands on the key.
pub fn on_key<'a>(leases: &'a LeaseMap, key: &QKey) -> OnKey<'a>
    ensures reader { result.reader ≡ first (reads_of (leases_on key.now leases.now)) }
    ensures quars { result.quars.now ≡ quars_of (leases_on key.now leases.now) }
{
    match leases.get(key) {
        Some(KeyLeases::Read(read)) => OnKey {
            reader: Some(*read),
            quars: &[],
        },
        Some(KeyLeases::Quarantines(quars)) => OnKey {
            reader: None,
            quars: quars.as_slice(),
        },
        None => OnKey {
            reader: None,
            quars: &[],
        },
    }
}

/// The session's own quarantine.
pub fn own_quar(quars: &[Quar], who: Sid) -> Option<Quar>
    ensures { result ≡ own_in who quars.now }
{
    quars
        .iter()
        .copied()
        .find(|quar| quar.sid.number == who.number)
}

/// The first quarantine of another session.
pub fn other_quar(quars: &[Quar], who: Sid) -> Option<Quar>
    ensures { result ≡ find (λ quar. not (is_of who quar)) quars.now }
{
    quars
        .iter()
        .copied()
        .find(|quar| quar.sid.number != who.number)
}

/// The session's own quarantine, else the first of another session.
pub fn holder_of(quars: &[Quar], who: Sid) -> Option<Quar>
    ensures { result ≡ holder_in who quars.now }
{
    own_quar(quars, who).or(other_quar(quars, who))
}

/// The quarantine that has the token.
pub fn quar_with(quars: &[Quar], token: u64) -> Option<Quar>
    ensures { result ≡ find (has_token token) quars.now }
{
    quars.iter().copied().find(|quar| quar.token == token)
}

/// The quarantine on the key that has the token.
pub fn quar_at(leases: &LeaseMap, key: &QKey, token: u64) -> Option<Quar>
    ensures { result ≡ find (has_token token) (stands_in leases.now key.now) }
{
    quar_with(on_key(leases, key).quars, token)
}

/// Whether a quarantine with the token stands on the key.
pub fn stands(leases: &LeaseMap, key: &QKey, token: u64) -> bool
    ensures { result ≡ is_some (find (has_token token) (stands_in leases.now key.now)) }
{
    quar_at(leases, key, token).is_some()
}

/// Whether there is a lease to read and its deadline lies ahead.
pub fn is_unexpired_at(lease: Option<ReadLease>, now: u64) -> bool
    ensures { result ≡ is_unexpired now lease }
{
    lease.is_some_and(|lease| now < lease.deadline)
}

/// Whether there is a lease to read, it has this token, and its deadline lies ahead.
pub fn is_current_at(lease: Option<ReadLease>, token: u64, now: u64) -> bool
    ensures { result ≡ is_current token now lease }
{
    lease.is_some_and(|lease| lease.token == token && now < lease.deadline)
}

/// Whether there is a lease to read, it has this token, and its deadline has come.
pub fn is_lapsed_at(lease: Option<ReadLease>, token: u64, now: u64) -> bool
    ensures { result ≡ is_lapsed token now lease }
{
    lease.is_some_and(|lease| lease.token == token && lease.deadline <= now)
}

/// Whether the quarantine is the session's, has the token and is to invalidate.
fn is_raisable_at(quar: &Quar, who: Sid, token: u64) -> bool
    ensures { result ≡ is_raisable who token quar.now }
{
    quar.sid.number == who.number && quar.token == token && quar.mode.place() == 0
}

/// Whether one of the quarantines is the session's, has the token and is to invalidate.
fn can_raise(quars: &[Quar], who: Sid, token: u64) -> bool
    ensures { result ≡ list_any (is_raisable who token) quars.now }
{
    quars.iter().any(|quar| is_raisable_at(quar, who, token))
}

/// The row of the grid where the asker holds a quarantine and others stand beside it.
fn beside_row(mode: Mode) -> usize
    ensures row { result
        ≡ (if is_invalidate (way_of mode) then 8 else 5 + way_number (way_of mode)) }
    ensures within { result < 9 }
{
    match mode {
        Mode::Invalidate => BESIDE_ROW,
        Mode::Refresh | Mode::Delta => OWN_ROWS + mode.place(),
    }
}

impl OnKey<'_> {
    /// The row of the grid, as the session sees it.
    pub fn row(&self, who: Sid, now: u64) -> usize
        requires { AllPairs StandBeside self.now.quars.now }
        ensures row { result ≡ row_of (holding_of who now self.now.reader self.now.quars.now) }
        ensures within { result < 9 }
    {
        match (own_quar(self.quars, who), other_quar(self.quars, who)) {
            (Some(own), None) => OWN_ROWS + own.mode.place(),
            (Some(own), Some(_)) => beside_row(own.mode),
            (None, Some(other)) => OTHERS_ROWS + other.mode.place(),
            (None, None) => free_row(self.reader, now),
        }
    }

    /// The grid's verdict on a request for a lease to read.
    pub fn read_verdict(&self, who: Sid, now: u64) -> Verdict
        requires { AllPairs StandBeside self.now.quars.now }
        ensures { result ≡ verdict (holding_of who now self.now.reader self.now.quars.now) read }
    {
        lease_grid().at(self.row(who, now), READ_COLUMN)
    }

    /// The grid's verdict on a request for a quarantine in a mode.
    pub fn quar_verdict(&self, who: Sid, mode: Mode, now: u64) -> Verdict
        requires { AllPairs StandBeside self.now.quars.now }
        ensures { result ≡ verdict (holding_of who now self.now.reader self.now.quars.now)
            (quarantine (way_of mode)) }
    {
        lease_grid().at(self.row(who, now), QUAR_COLUMNS + mode.place())
    }

    /// The grid's verdict on raising the session's quarantine to invalidate that has the token, and Gone
    /// where there is none.
    pub fn raise_verdict(&self, who: Sid, token: u64) -> Verdict
        requires { AllPairs StandBeside self.now.quars.now }
        ensures { result ≡ raise_in who token self.now.quars.now }
    {
        if !can_raise(self.quars, who, token) {
            return Verdict::Gone;
        }
        lease_grid().at(self.row(who, 0), RAISE_COLUMN)
    }
}

/// The row of the grid for a key on which nobody holds a quarantine.
fn free_row(reader: Option<ReadLease>, now: u64) -> usize
    ensures row { result ≡ others_row [] (is_unexpired now reader) }
    ensures within { result < 2 }
{
    if is_unexpired_at(reader, now) {
        READ_ROW
    } else {
        NOTHING_ROW
    }
}
