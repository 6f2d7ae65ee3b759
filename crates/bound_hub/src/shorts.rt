//! The steps of a shard, in short.
ghost use Rattle.std.specs.Prelude.{◌≡◌};
ghost use Rattle.bound_hub.specs.Shorts.{short, short_of, granted_short, raised_short, is_alone, kind_of_end, stamp_of_end};
ghost use Rattle.bound_hub.specs.Gets.{got_short};

use key_shard::{Ended, Got, Step};
use lease_table::Mode;
use log_word::{Short, ShortKind};
use rows_model::{QKey, Sid};

/// No session.
pub(crate) const NOBODY: Sid = Sid { number: 0 };

/// A step in short, after which its key has an entry or has none. It takes no memory.
pub fn short_of(step: &Step, has: bool) -> Short
    ensures { result ≡ short_of step.now has }
{
    match step {
        Step::Hit {
            key,
            sid,
            stamp,
            ..
        } => made(ShortKind::Hit, key, sid, 0, *stamp, has),
        Step::Lease {
            key,
            sid,
            token,
            ..
        } => made(ShortKind::Lease, key, sid, *token, 0, has),
        Step::Again { key, sid, .. } => made(ShortKind::Again, key, sid, 0, 0, has),
        Step::Own { key, sid } => made(ShortKind::Own, key, sid, 0, 0, has),
        Step::Stored {
            key,
            token,
            stamp,
            ..
        } => made(ShortKind::Stored, key, &NOBODY, *token, *stamp, has),
        Step::Void { key, token, .. } => made(ShortKind::Void, key, &NOBODY, *token, 0, has),
        Step::Granted {
            key,
            sid,
            mode,
            shift,
            token,
            ..
        } => granted(key, sid, *mode, *shift, *token, has),
        Step::Held { key, sid, .. } => made(ShortKind::Held, key, sid, 0, 0, has),
        Step::Refused { key, sid, .. } => made(ShortKind::Refused, key, sid, 0, 0, has),
        Step::Released {
            key,
            sid,
            token,
            how,
        } => made(kind_of(how), key, sid, *token, stamp_of(how), has),
        Step::Gone { key, sid, token } => made(ShortKind::Gone, key, sid, *token, 0, has),
        Step::Raised { key, sid, token } => raised(key, sid, *token, has),
        Step::Shared {
            key,
            sid,
            token,
            ..
        } => made(ShortKind::Shared, key, sid, *token, 0, has),
        Step::Renewed {
            key,
            sid,
            token,
            ..
        } => made(ShortKind::Renewed, key, sid, *token, 0, has),
    }
}

/// The step of a get in short, told by its answer.
pub fn got_short(key: &QKey, who: Sid, got: &Got, has: bool) -> Short
    ensures { result ≡ got_short key.now who got.now has }
{
    match got {
        Got::Hit { stamp, .. } => made(ShortKind::Hit, key, &who, 0, *stamp, has),
        Got::Lease { token } => made(ShortKind::Lease, key, &who, *token, 0, has),
        Got::Again { .. } => made(ShortKind::Again, key, &who, 0, 0, has),
        Got::Own => made(ShortKind::Own, key, &who, 0, 0, has),
    }
}

/// A step in short, of these parts.
pub(crate) fn made(
    kind: ShortKind,
    key: &QKey,
    sid: &Sid,
    token: u64,
    stamp: u64,
    entry: bool,
) -> Short
    ensures { result ≡ short kind key.now sid.now token stamp entry }
{
    Short {
        kind,
        key: *key,
        sid: *sid,
        token,
        stamp,
        alone: false,
        by: 0,
        entry,
    }
}

/// A grant in short, in this mode and with this shift.
pub(crate) fn granted(
    key: &QKey,
    sid: &Sid,
    mode: Mode,
    shift: i32,
    token: u64,
    entry: bool,
) -> Short
    ensures { result ≡ granted_short key.now sid.now mode shift token entry }
{
    Short {
        alone: is_alone(mode),
        by: shift,
        ..made(ShortKind::Granted, key, sid, token, 0, entry)
    }
}

/// A raise in short.
pub(crate) fn raised(key: &QKey, sid: &Sid, token: u64, entry: bool) -> Short
    ensures { result ≡ raised_short key.now sid.now token entry }
{
    Short {
        alone: true,
        ..made(ShortKind::Raised, key, sid, token, 0, entry)
    }
}

/// Whether a quarantine that stands in this mode stands alone on its key.
fn is_alone(mode: Mode) -> bool
    ensures { result ≡ is_alone mode }
{
    match mode {
        Mode::Invalidate => false,
        Mode::Refresh | Mode::Delta => true,
    }
}

/// The kind of a release, by how the quarantine ended.
fn kind_of(how: &Ended) -> ShortKind
    ensures { result ≡ kind_of_end how.now }
{
    match how {
        Ended::Keep => ShortKind::Kept,
        Ended::Drop => ShortKind::Dropped,
        Ended::Put { .. } => ShortKind::Put,
        Ended::Shift { .. } => ShortKind::Shifted,
    }
}

/// The stamp that a release writes, 0 where it writes none.
fn stamp_of(how: &Ended) -> u64
    ensures { result ≡ stamp_of_end how.now }
{
    match how {
        Ended::Keep | Ended::Drop => 0,
        Ended::Put { stamp, .. } => *stamp,
        Ended::Shift { stamp, .. } => *stamp,
    }
}
