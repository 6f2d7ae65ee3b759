ghost use Rattle.std.specs.Prelude.{◌≡◌, Some};
ghost use Rattle.std.specs.Option.{option_map};
ghost use Rattle.key_shard.specs.Permit.{Permit};
ghost use Rattle.conn_server.specs.Refusals.{key_word, named_sid, is_unknown, begins, quarantines, releases, writes, is_no_key, flags_of, exptime_of, is_of_another, shifts_no_count, grant_for, is_other_mode, refused, release_refused};

use crate::clients::Client;
use lease_table::Mode;
use mc_text::{Command, LineReply};
use rows_model::{QKey, Sid};

/// The word that a command has for a key, which may be no key of the cache.
fn key_word(said: &Command) -> Option<Option<QKey>>
    ensures { result ≡ key_word said.now }
{
    match said {
        Command::IqGet { key, .. }
        | Command::Ask { key, .. }
        | Command::Stage { key, .. }
        | Command::IqSet { key, .. }
        | Command::QaReg { key, .. }
        | Command::QaRead { key, .. }
        | Command::IqDelta { key, .. }
        | Command::Dar { key, .. }
        | Command::Sar { key, .. }
        | Command::IqCommit { key, .. } => Some(*key),
        Command::Begin { .. }
        | Command::Sql { .. }
        | Command::IqAbort { .. }
        | Command::Quit
        | Command::Unknown => None,
    }
}

/// The session that a command names.
fn named_sid(said: &Command) -> Option<Sid>
    ensures { result ≡ named_sid said.now }
{
    match said {
        Command::IqGet { sid, .. }
        | Command::Ask { sid, .. }
        | Command::Stage { sid, .. }
        | Command::QaReg { sid, .. }
        | Command::QaRead { sid, .. }
        | Command::IqDelta { sid, .. }
        | Command::Sql { sid, .. }
        | Command::Dar { sid, .. }
        | Command::Sar { sid, .. }
        | Command::IqCommit { sid, .. }
        | Command::IqAbort { sid } => Some(*sid),
        Command::Begin { .. } | Command::IqSet { .. } | Command::Quit | Command::Unknown => None,
    }
}

/// Whether a command is of no verb.
fn is_unknown(said: &Command) -> bool
    ensures { result ≡ is_unknown said.now }
{
    matches!(said, Command::Unknown)
}

/// Whether a command begins a session.
fn begins(said: &Command) -> bool
    ensures { result ≡ begins said.now }
{
    matches!(said, Command::Begin { .. })
}

/// Whether a command quarantines a key.
fn quarantines(said: &Command) -> bool
    ensures { result ≡ quarantines said.now }
{
    matches!(
        said,
        Command::QaReg { .. } | Command::QaRead { .. } | Command::IqDelta { .. }
    )
}

/// Whether a command releases the quarantine of a key.
fn releases(said: &Command) -> bool
    ensures { result ≡ releases said.now }
{
    matches!(
        said,
        Command::Dar { .. } | Command::Sar { .. } | Command::IqCommit { .. }
    )
}

/// Whether a session that only reads may not say this command.
fn writes(said: &Command) -> bool
    ensures { result ≡ writes said.now }
{
    matches!(
        said,
        Command::Stage { .. }
            | Command::Sql { .. }
            | Command::IqAbort { .. }
            | Command::QaReg { .. }
            | Command::QaRead { .. }
            | Command::IqDelta { .. }
            | Command::Dar { .. }
            | Command::Sar { .. }
            | Command::IqCommit { .. }
    )
}

/// Whether the word that a command has for a key is no key of the cache.
fn has_no_key(said: &Command) -> bool
    ensures { result ≡ is_no_key (key_word said.now) }
{
    matches!(key_word(said), Some(None))
}

/// The flags of the block of a command.
fn flags_of(said: &Command) -> u32
    ensures { result ≡ flags_of said.now }
{
    match said {
        Command::IqSet { flags, .. } | Command::Sar { flags, .. } => *flags,
        _ => 0,
    }
}

/// The time of expiry of the block of a command.
fn exptime_of(said: &Command) -> u64
    ensures { result ≡ exptime_of said.now }
{
    match said {
        Command::IqSet { exptime, .. } | Command::Sar { exptime, .. } => *exptime,
        _ => 0,
    }
}

/// Whether a command would add to what is no count.
fn shifts_no_count(said: &Command) -> bool
    ensures { result ≡ shifts_no_count said.now }
{
    match said {
        Command::IqDelta { key: Some(key), .. } => !key.is_count(),
        _ => false,
    }
}

/// Whether a command would put a value, or add to one, and a grant of this mode isn't for that.
fn is_other_mode(said: &Command, mode: Mode) -> bool
    ensures { (grant : Permit) → grant.mode ≡ mode → result ≡ is_other_mode said.now (Some grant) }
{
    match said {
        Command::Sar { .. } => mode != Mode::Refresh,
        Command::IqCommit { .. } => mode != Mode::Delta,
        _ => false,
    }
}

impl Client {
    /// The error that a command is told without the desk, if it is told one. The causes are tried in
    /// this order.
    #[tactic(auto, unfolding(crate::specs::Refusals::refused))]
    #[inline(always)]
    pub(crate) fn refusal(&self, said: &Command) -> Option<LineReply>
        ensures { result ≡ refused self.now said.now }
    {
        if is_unknown(said) {
            Some(LineReply::Error)
        } else if begins(said) && self.is_busy() {
            Some(LineReply::SessionBusy)
        } else if has_no_key(said) {
            Some(LineReply::NotQueryKey)
        } else if flags_of(said) != 0 {
            Some(LineReply::Flags)
        } else if exptime_of(said) != 0 {
            Some(LineReply::Exptime)
        } else if self.is_of_another(said) {
            Some(LineReply::NotYours)
        } else if writes(said) && self.is_reading() {
            Some(LineReply::ReadSession)
        } else if quarantines(said) && self.has_committed() {
            Some(LineReply::AlreadyCommitted)
        } else if quarantines(said) && self.is_full() {
            Some(LineReply::TooMany)
        } else if shifts_no_count(said) {
            Some(LineReply::NotCount)
        } else if releases(said) {
            self.release_refusal(said)
        } else {
            None
        }
    }

    /// Whether a command names a session, and not the present one.
    fn is_of_another(&self, said: &Command) -> bool
        ensures { result ≡ is_of_another self.now.present (named_sid said.now) }
    {
        match named_sid(said) {
            Some(sid) => !self.is_present(sid),
            None => false,
        }
    }

    /// The mode of the grant that a command is about: the one that was given first on its key.
    fn mode_for(&self, said: &Command) -> Option<Mode>
        ensures { result ≡ option_map (λ (grant : Permit). grant.mode)
            (grant_for self.now.grants.items (key_word said.now)) }
    {
        let key = key_word(said)??;
        let place = self.place_on(&key)?;
        Some(self.grants.items()[place].mode())
    }

    /// Why a command doesn't release the quarantine that it is about, if it doesn't.
    fn release_refusal(&self, said: &Command) -> Option<LineReply>
        ensures { result ≡ release_refused self.now said.now }
    {
        if !self.has_committed() {
            return Some(LineReply::NotCommitted);
        }
        match self.mode_for(said) {
            None => Some(LineReply::NoGrant),
            Some(mode) if is_other_mode(said, mode) => Some(LineReply::WrongMode),
            Some(_) => None,
        }
    }
}
