//! Steps in short, told by the answers to their requests.
ghost use Rattle.std.specs.Prelude.{◌≡◌};
ghost use Rattle.bound_hub.specs.StepShorts.{set_short, quarantine_short, kind_of_how, stamp_of_how, release_short, replace_short, raise_short, renew_short};

use crate::shorts::{NOBODY, granted, made, raised};
use key_shard::{How, QAnswer, Raising, Rel, Renewal, SetAnswer};
use lease_table::Mode;
use log_word::{Short, ShortKind};
use rows_model::{QKey, Sid};

/// The step of a set in short.
pub fn set_short(key: &QKey, token: u64, stamp: u64, answer: &SetAnswer, has: bool) -> Short
    ensures { result ≡ set_short key.now token stamp answer.now has }
{
    match answer {
        SetAnswer::Stored { .. } => made(ShortKind::Stored, key, &NOBODY, token, stamp, has),
        SetAnswer::Void => made(ShortKind::Void, key, &NOBODY, token, 0, has),
    }
}

/// The step of a quarantine in short, in this mode and with this shift.
pub fn quarantine_short(
    key: &QKey,
    who: Sid,
    mode: Mode,
    shift: i32,
    answer: &QAnswer,
    has: bool,
) -> Short
    ensures { result ≡ quarantine_short key.now who mode shift answer.now has }
{
    match answer {
        QAnswer::Granted { grant, .. } => granted(key, &who, mode, shift, grant.token(), has),
        QAnswer::Held => made(ShortKind::Held, key, &who, 0, 0, has),
        QAnswer::Refused { .. } => made(ShortKind::Refused, key, &who, 0, 0, has),
    }
}

/// The step of a release in short: of the key, the session and the token of its grant.
pub fn release_short(key: &QKey, sid: Sid, token: u64, how: &How, answer: &Rel, has: bool) -> Short
    ensures { result ≡ release_short key.now sid token how.now answer.now has }
{
    match answer {
        Rel::Released { .. } => made(kind_of_how(how), key, &sid, token, stamp_of_how(how), has),
        Rel::Gone => made(ShortKind::Gone, key, &sid, token, 0, has),
    }
}

/// The step of a release with a new value in short.
pub fn replace_short(key: &QKey, sid: Sid, token: u64, stamp: u64, answer: &Rel, has: bool) -> Short
    ensures { result ≡ replace_short key.now sid token stamp answer.now has }
{
    match answer {
        Rel::Released { .. } => made(ShortKind::Put, key, &sid, token, stamp, has),
        Rel::Gone => made(ShortKind::Gone, key, &sid, token, 0, has),
    }
}

/// The step of a raise in short.
pub fn raise_short(key: &QKey, sid: Sid, token: u64, answer: &Raising, has: bool) -> Short
    ensures { result ≡ raise_short key.now sid token answer.now has }
{
    match answer {
        Raising::Raised { .. } => raised(key, &sid, token, has),
        Raising::Shared { .. } => made(ShortKind::Shared, key, &sid, token, 0, has),
        Raising::Gone => made(ShortKind::Gone, key, &sid, token, 0, has),
    }
}

/// The step of a renewal in short.
pub fn renew_short(key: &QKey, sid: Sid, token: u64, answer: &Renewal, has: bool) -> Short
    ensures { result ≡ renew_short key.now sid token answer.now has }
{
    match answer {
        Renewal::Renewed { .. } => made(ShortKind::Renewed, key, &sid, token, 0, has),
        Renewal::Gone => made(ShortKind::Gone, key, &sid, token, 0, has),
    }
}

/// The kind of a release that is made, by how the quarantine is to end.
fn kind_of_how(how: &How) -> ShortKind
    ensures { result ≡ kind_of_how how.now }
{
    match how {
        How::Keep => ShortKind::Kept,
        How::Drop => ShortKind::Dropped,
        How::Shift { .. } => ShortKind::Shifted,
    }
}

/// The stamp that it writes, 0 where it writes none.
fn stamp_of_how(how: &How) -> u64
    ensures { result ≡ stamp_of_how how.now }
{
    match how {
        How::Keep | How::Drop => 0,
        How::Shift { stamp } => *stamp,
    }
}
