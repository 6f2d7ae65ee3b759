ghost use Rattle.std.specs.Prelude.{◌≡◌, [], ◌++◌, decimal, codes, OnOk, OnErr, IfOk};
ghost use Rattle.rows_model.specs.Key.{word_of, key_text};
ghost use Rattle.mc_text.specs.ReplyParts.{lines_text};
ghost use Rattle.mc_text.specs.Replies.{text_of, line, value_text, stamped_text, value_head, block_text, mode_word, BeginsWith};

use crate::number_lines::push_numbers;
use itoa::Buffer;
use lease_table::Mode;
use rows_model::{Kind, Memory, QKey, Sid, Value};
use std::alloc::{AllocError, Global};

/// A reply, with its parts in their order.
#[derive(Debug, Drop)]
pub enum LineReply {
    /// The session that was begun.
    Session {
        sid: Sid,
    },
    /// A value with its stamp.
    Stamped {
        key: QKey,
        stamp: u64,
        value: Value,
    },
    /// A value without a stamp.
    Unstamped {
        key: QKey,
        value: Value,
    },
    /// A lease to read.
    Lease {
        token: u64,
    },
    /// An unexpired lease to read stands.
    AgainI,
    /// A quarantine stands.
    AgainQ,
    /// The session holds a quarantine on the key.
    Own,
    /// The change at this place, from 0, doesn't apply.
    Rejected {
        index: u32,
    },
    /// The value is stored.
    Stored,
    /// The lease was voided.
    NotStored,
    /// A quarantine.
    Granted {
        token: u64,
    },
    /// A quarantine, and the value that the key has.
    GrantedStamped {
        token: u64,
        key: QKey,
        stamp: u64,
        value: Value,
    },
    /// A quarantine of a key that has no value.
    GrantedNone {
        token: u64,
    },
    /// The session holds this quarantine already.
    Held,
    /// The quarantine isn't given: this session holds one of this mode.
    Refused {
        holder: Sid,
        mode: Mode,
    },
    /// The number of the commit, from 1.
    Committed {
        commit: u64,
    },
    /// The session isn't open.
    Ended,
    /// The session holds no quarantine on this key.
    Uncovered {
        key: QKey,
    },
    /// The quarantine is released and the value dropped.
    Deleted,
    /// The quarantine stood no longer.
    NotFound,
    /// So many quarantines were released.
    Released {
        count: u64,
    },
    /// The line has no verb.
    Error,
    /// The line isn't of its verb's form.
    BadLine,
    /// The line is too long.
    LongLine,
    /// The block doesn't end where it should.
    BadBlock,
    /// The block is too big.
    BigBlock,
    /// The session is in the midst of a write.
    SessionBusy,
    /// The key is no key of the cache.
    NotQueryKey,
    /// The flags aren't 0.
    Flags,
    /// The time of expiry isn't 0.
    Exptime,
    /// The session isn't the connection's.
    NotYours,
    /// The session only reads.
    ReadSession,
    /// The session has committed.
    AlreadyCommitted,
    /// The session holds as many quarantines as it may.
    TooMany,
    /// The key is no count.
    NotCount,
    /// The session hasn't committed.
    NotCommitted,
    /// The session holds no quarantine on the key.
    NoGrant,
    /// The quarantine is of another mode.
    WrongMode,
    /// The tokens of the key's shard are spent.
    Spent,
    /// The log is full.
    Full,
    /// The store failed.
    Store,
    /// Memory ran out.
    Memory,
}

/// The text of the reply.
pub fn reply_text(alloc: Global, reply: &LineReply) -> Result<Value, Memory>
    ensures { IfOk result (λ value. value ≡ text_of reply.now) }
{
    let mut out = Vec::new(alloc);
    write_reply(&mut out, reply)?;
    Ok(Value::from(out))
}

/// Writes the text of the reply behind what is to go out. After want of memory that is as before.
pub fn write_reply(out: &mut Vec<u8>, reply: &LineReply) -> Result<(), Memory>
    ensures ok { OnOk result (out.new.items ≡ out.old.items ++ text_of reply.now) }
    ensures err { OnErr result (out.new.items ≡ out.old.items) }
{
    let before = out.len();
    if push_reply(out, reply).is_err() {
        out.truncate(before);
        return Err(Memory);
    }
    Ok(())
}

// Writes the text of the reply; for want of memory a part of it may have been written.
#[tactic(auto, unfolding(crate::specs::Replies::text_of))]
fn push_reply(out: &mut Vec<u8>, reply: &LineReply) -> Result<(), AllocError>
    ensures ok { OnOk result (out.new.items ≡ out.old.items ++ text_of reply.now) }
    ensures err { OnErr result (BeginsWith out.old.items out.new.items) }
{
    match reply {
        LineReply::Session { sid } => push_numbered(out, b"SESSION ", sid.number),
        LineReply::Stamped { key, stamp, value } => push_stamped(out, *key, *stamp, value),
        LineReply::Unstamped { key, value } => push_unstamped(out, *key, value),
        LineReply::Lease { token } => push_numbered(out, b"LEASE ", *token),
        LineReply::AgainI => out.extend_from_slice(b"AGAIN I\r\n"),
        LineReply::AgainQ => out.extend_from_slice(b"AGAIN Q\r\n"),
        LineReply::Own => out.extend_from_slice(b"OWN\r\n"),
        LineReply::Rejected { index } => push_numbered(out, b"REJECTED ", u64::from(*index)),
        LineReply::Stored => out.extend_from_slice(b"STORED\r\n"),
        LineReply::NotStored => out.extend_from_slice(b"NOT_STORED\r\n"),
        LineReply::Granted { token } => push_numbered(out, b"GRANTED ", *token),
        LineReply::GrantedStamped {
            token,
            key,
            stamp,
            value,
        } => push_granted(out, *token, *key, *stamp, value),
        LineReply::GrantedNone { token } => push_granted_none(out, *token),
        LineReply::Held => out.extend_from_slice(b"HELD\r\n"),
        LineReply::Refused { holder, mode } => push_refused(out, *holder, *mode),
        LineReply::Committed { commit } => push_numbered(out, b"COMMITTED ", *commit),
        LineReply::Ended => out.extend_from_slice(b"ENDED\r\n"),
        LineReply::Uncovered { key } => push_uncovered(out, *key),
        LineReply::Deleted => out.extend_from_slice(b"DELETED\r\n"),
        LineReply::NotFound => out.extend_from_slice(b"NOT_FOUND\r\n"),
        LineReply::Released { count } => push_numbered(out, b"RELEASED ", *count),
        LineReply::Error => out.extend_from_slice(b"ERROR\r\n"),
        LineReply::BadLine => out.extend_from_slice(b"CLIENT_ERROR bad line\r\n"),
        LineReply::LongLine => out.extend_from_slice(b"CLIENT_ERROR long line\r\n"),
        LineReply::BadBlock => out.extend_from_slice(b"CLIENT_ERROR bad block\r\n"),
        LineReply::BigBlock => out.extend_from_slice(b"CLIENT_ERROR big block\r\n"),
        LineReply::SessionBusy => out.extend_from_slice(b"CLIENT_ERROR session busy\r\n"),
        LineReply::NotQueryKey => out.extend_from_slice(b"CLIENT_ERROR not a query key\r\n"),
        LineReply::Flags => out.extend_from_slice(b"CLIENT_ERROR flags\r\n"),
        LineReply::Exptime => out.extend_from_slice(b"CLIENT_ERROR exptime\r\n"),
        LineReply::NotYours => out.extend_from_slice(b"CLIENT_ERROR not yours\r\n"),
        LineReply::ReadSession => out.extend_from_slice(b"CLIENT_ERROR read session\r\n"),
        LineReply::AlreadyCommitted => out.extend_from_slice(b"CLIENT_ERROR committed\r\n"),
        LineReply::TooMany => out.extend_from_slice(b"CLIENT_ERROR too many\r\n"),
        LineReply::NotCount => out.extend_from_slice(b"CLIENT_ERROR not count\r\n"),
        LineReply::NotCommitted => out.extend_from_slice(b"CLIENT_ERROR not committed\r\n"),
        LineReply::NoGrant => out.extend_from_slice(b"CLIENT_ERROR no grant\r\n"),
        LineReply::WrongMode => out.extend_from_slice(b"CLIENT_ERROR mode\r\n"),
        LineReply::Spent => out.extend_from_slice(b"SERVER_ERROR spent\r\n"),
        LineReply::Full => out.extend_from_slice(b"SERVER_ERROR full\r\n"),
        LineReply::Store => out.extend_from_slice(b"SERVER_ERROR store\r\n"),
        LineReply::Memory => out.extend_from_slice(b"SERVER_ERROR memory\r\n"),
    }
}

// A line of some words and a number.
fn push_numbered(out: &mut Vec<u8>, words: &[u8], number: u64) -> Result<(), AllocError>
    ensures ok { OnOk result (out.new.items ≡ out.old.items ++ line (words.now ++ decimal number)) }
    ensures err { OnErr result (BeginsWith out.old.items out.new.items) }
{
    out.extend_from_slice(words)?;
    push_decimal(out, number)?;
    out.extend_from_slice(b"\r\n")
}

// A value with its stamp.
fn push_stamped(out: &mut Vec<u8>, key: QKey, stamp: u64, value: &Value) -> Result<(), AllocError>
    ensures ok { OnOk result (out.new.items ≡ out.old.items ++ stamped_text key stamp value.now) }
    ensures err { OnErr result (BeginsWith out.old.items out.new.items) }
{
    push_value_kind(out, key.kind)?;
    push_numbers(out, key.id, value.bytes().len(), stamp)?;
    push_lines(out, value.bytes())
}

// A value without a stamp.
fn push_unstamped(out: &mut Vec<u8>, key: QKey, value: &Value) -> Result<(), AllocError>
    ensures ok { OnOk result (out.new.items ≡ out.old.items ++ value_text key value.now []) }
    ensures err { OnErr result (BeginsWith out.old.items out.new.items) }
{
    push_value_head(out, key, value.bytes().len())?;
    push_block(out, value.bytes())
}

// The front of the first line of a value, up to its length.
fn push_value_head(out: &mut Vec<u8>, key: QKey, len: usize) -> Result<(), AllocError>
    ensures ok { OnOk result (out.new.items ≡ out.old.items ++ value_head key len) }
    ensures err { OnErr result (BeginsWith out.old.items out.new.items) }
{
    push_value_key(out, key)?;
    out.extend_from_slice(b" 0 ")?;
    push_decimal(out, len as u64)
}

// The front of that line, up to its key.
fn push_value_key(out: &mut Vec<u8>, key: QKey) -> Result<(), AllocError>
    ensures ok { OnOk result (out.new.items ≡ out.old.items ++ (codes "VALUE " ++ key_text key)) }
    ensures err { OnErr result (BeginsWith out.old.items out.new.items) }
{
    push_value_kind(out, key.kind)?;
    push_decimal(out, u64::from(key.id))
}

// The front of that line, up to the id of the key: one text for each kind, so that it is one copy.
fn push_value_kind(out: &mut Vec<u8>, kind: Kind) -> Result<(), AllocError>
    ensures ok { OnOk result
        (out.new.items ≡ out.old.items ++ (codes "VALUE " ++ word_of kind ++ codes ":")) }
    ensures err { OnErr result (out.new.items ≡ out.old.items) }
{
    match kind {
        Kind::Profile => out.extend_from_slice(b"VALUE profile:"),
        Kind::Friends => out.extend_from_slice(b"VALUE friends:"),
        Kind::Pending => out.extend_from_slice(b"VALUE pending:"),
        Kind::NFriends => out.extend_from_slice(b"VALUE nfriends:"),
        Kind::NPending => out.extend_from_slice(b"VALUE npending:"),
        Kind::Blocked => out.extend_from_slice(b"VALUE blocked:"),
    }
}

// The end of the first line of a value, and the lines behind it.
fn push_block(out: &mut Vec<u8>, block: &[u8]) -> Result<(), AllocError>
    ensures ok { OnOk result (out.new.items ≡ out.old.items ++ block_text block.now) }
    ensures err { OnErr result (BeginsWith out.old.items out.new.items) }
{
    out.extend_from_slice(b"\r\n")?;
    push_lines(out, block)
}

// The lines behind the first one of a value.
#[inline(always)]
fn push_lines(out: &mut Vec<u8>, block: &[u8]) -> Result<(), AllocError>
    ensures ok { OnOk result (out.new.items ≡ out.old.items ++ lines_text block.now) }
    ensures err { OnErr result (BeginsWith out.old.items out.new.items) }
{
    out.extend_from_slice(block)?;
    out.extend_from_slice(b"\r\nEND\r\n")
}

// A quarantine, and the value that the key has.
fn push_granted(
    out: &mut Vec<u8>,
    token: u64,
    key: QKey,
    stamp: u64,
    value: &Value,
) -> Result<(), AllocError>
    ensures ok { OnOk result (out.new.items ≡ out.old.items
        ++ (line (codes "GRANTED " ++ decimal token) ++ stamped_text key stamp value.now)) }
    ensures err { OnErr result (BeginsWith out.old.items out.new.items) }
{
    push_numbered(out, b"GRANTED ", token)?;
    push_stamped(out, key, stamp, value)
}

// A quarantine of a key that has no value.
fn push_granted_none(out: &mut Vec<u8>, token: u64) -> Result<(), AllocError>
    ensures ok { OnOk result (out.new.items ≡ out.old.items
        ++ (line (codes "GRANTED " ++ decimal token) ++ line (codes "END"))) }
    ensures err { OnErr result (BeginsWith out.old.items out.new.items) }
{
    push_numbered(out, b"GRANTED ", token)?;
    out.extend_from_slice(b"END\r\n")
}

// Who holds a quarantine in which mode.
fn push_refused(out: &mut Vec<u8>, holder: Sid, mode: Mode) -> Result<(), AllocError>
    ensures ok { OnOk result (out.new.items ≡ out.old.items
        ++ line (codes "REFUSED " ++ decimal holder.number ++ codes " " ++ mode_word mode)) }
    ensures err { OnErr result (BeginsWith out.old.items out.new.items) }
{
    out.extend_from_slice(b"REFUSED ")?;
    push_decimal(out, holder.number)?;
    out.push(b' ')?;
    out.extend_from_slice(mode_word(mode))?;
    out.extend_from_slice(b"\r\n")
}

// The key that isn't covered.
fn push_uncovered(out: &mut Vec<u8>, key: QKey) -> Result<(), AllocError>
    ensures ok { OnOk result (out.new.items ≡ out.old.items
        ++ line (codes "UNCOVERED " ++ key_text key)) }
    ensures err { OnErr result (BeginsWith out.old.items out.new.items) }
{
    out.extend_from_slice(b"UNCOVERED ")?;
    push_key(out, key)?;
    out.extend_from_slice(b"\r\n")
}

// The word of a mode.
fn mode_word(mode: Mode) -> &'static [u8]
    ensures { result.now ≡ mode_word mode }
{
    match mode {
        Mode::Invalidate => b"invalidate",
        Mode::Refresh => b"refresh",
        Mode::Delta => b"delta",
    }
}

// The text of a key.
fn push_key(out: &mut Vec<u8>, key: QKey) -> Result<(), AllocError>
    ensures ok { OnOk result (out.new.items ≡ out.old.items ++ key_text key) }
    ensures err { OnErr result (BeginsWith out.old.items out.new.items) }
{
    out.extend_from_slice(key.kind.word())?;
    out.push(b':')?;
    push_decimal(out, u64::from(key.id))
}

// A number in decimal.
#[tactic(auto, using(crate::proofs::DecimalLemmas::one_digit, crate::proofs::DecimalLemmas::two_digits))]
pub(crate) fn push_decimal(out: &mut Vec<u8>, number: u64) -> Result<(), AllocError>
    ensures ok { OnOk result (out.new.items ≡ out.old.items ++ decimal number) }
    ensures err { OnErr result (out.new.items ≡ out.old.items) }
{
    if number < 10 {
        out.push(b'0' + number as u8)?;
        return Ok(());
    }
    if number < 100 {
        let tens = b'0' + (number / 10) as u8;
        let ones = b'0' + (number % 10) as u8;
        return out.extend_from_slice(&[tens, ones]);
    }
    push_long_decimal(out, number)
}

// The same. It is a function of its own, since its buffer costs the short ones time.
#[inline(never)]
fn push_long_decimal(out: &mut Vec<u8>, number: u64) -> Result<(), AllocError>
    ensures ok { OnOk result (out.new.items ≡ out.old.items ++ decimal number) }
    ensures err { OnErr result (out.new.items ≡ out.old.items) }
{
    let mut buffer = Buffer::new();
    out.extend_from_slice(buffer.format(number).as_bytes())
}
