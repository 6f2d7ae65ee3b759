// The lines of sessions' turns.
ghost use Rattle.std.specs.Prelude.{◌≡◌, ◌∷◌, ◌++◌, [], IfOk, OnOk, codes, decimal};
ghost use Rattle.std.specs.Fmt.{signed_decimal};
ghost use Rattle.rows_model.specs.Key.{key_text};
ghost use Rattle.core_history.specs.Lines.{line, printed_value, request_words, reply_words, stands_word, mode_word, evicts_words, got_words, set_words, old_words, brought_words, quarantine_words, commit_fault_words, staged_fault_words, open_words, release_words, raising_words, renewal_words, tells_fault};
ghost use Rattle.core_history.specs.Words.{spaced};

use executor::Request;
use itoa::Buffer;
use key_shard::{Blocker, Got, QAnswer, Raising, Rel, Renewal, SetAnswer};
use lease_table::Mode;
use rows_model::{Memory, QKey, Sid, Value};
use session_client::{Fault, Reply};
use sql_keeper::{AfterFault, CommitFault};
use std::alloc::Global;

/// The line of a turn: who took it, what was asked for, and the reply.
pub(crate) fn line_of(
    alloc: Global,
    who: Sid,
    asked: Request,
    reply: &Reply,
) -> Result<Vec<u8>, Memory>
    ensures { IfOk result (λ text.
        text.items ≡ line (decimal who.number ∷ request_words asked ++ reply_words reply.now)) }
{
    let mut text = begun(alloc, who)?;
    push_request(alloc, &mut text, asked)?;
    push_reply(alloc, &mut text, reply)?;
    text.push(b'\n')?;
    Ok(text)
}

/// Whether a reply tells that the store's keeper failed.
pub(crate) fn tells_fault(reply: &Reply) -> bool
    ensures { result ≡ tells_fault reply.now }
{
    matches!(
        reply,
        Reply::Fault { fault: Fault::Keep }
            | Reply::NotStaged {
                fault: AfterFault::Failed,
                ..
            }
            | Reply::NotCommitted {
                fault: CommitFault::KeepFault,
                ..
            }
    )
}

/// A line that begins with the number of its session.
fn begun(alloc: Global, who: Sid) -> Result<Vec<u8>, Memory>
    ensures { IfOk result (λ text. text.items ≡ decimal who.number) }
{
    let mut buffer = Buffer::new();
    Ok(Vec::from_slice(alloc, buffer.format(who.number).as_bytes())?)
}

fn push_request(alloc: Global, text: &mut Vec<u8>, asked: Request) -> Result<(), Memory>
    ensures { OnOk result (text.new.items ≡ text.old.items ++ spaced (request_words asked)) }
{
    match asked {
        Request::Get { key, .. } => push_verb(alloc, text, b"get", &key),
        Request::Ask { key } => push_verb(alloc, text, b"ask", &key),
        Request::Staged { key } => push_verb(alloc, text, b"staged", &key),
        Request::Set { key, .. } => push_verb(alloc, text, b"set", &key),
        Request::QaReg { key } => push_verb(alloc, text, b"qareg", &key),
        Request::QaRead { key } => push_verb(alloc, text, b"qaread", &key),
        Request::Delta { key, by } => push_delta(alloc, text, &key, by),
        Request::Commit => push_word(text, b"commit"),
        Request::End => push_word(text, b"end"),
        Request::Dar { key, .. } => push_verb(alloc, text, b"dar", &key),
        Request::Sar { key, .. } => push_verb(alloc, text, b"sar", &key),
        Request::Apply { key, .. } => push_verb(alloc, text, b"apply", &key),
        Request::Abort { key, .. } => push_verb(alloc, text, b"abort", &key),
        Request::Raise { key, .. } => push_verb(alloc, text, b"raise", &key),
        Request::Renew { key, .. } => push_verb(alloc, text, b"renew", &key),
        Request::Nothing => push_word(text, b"done"),
    }
}

fn push_delta(alloc: Global, text: &mut Vec<u8>, key: &QKey, by: i32) -> Result<(), Memory>
    ensures { OnOk result (text.new.items ≡ text.old.items ++
        spaced (codes "delta" ∷ key_text key.now ∷ signed_decimal by ∷ [])) }
{
    push_verb(alloc, text, b"delta", key)?;
    let mut buffer = Buffer::new();
    push_word(text, buffer.format(by).as_bytes())
}

fn push_reply(alloc: Global, text: &mut Vec<u8>, reply: &Reply) -> Result<(), Memory>
    ensures { OnOk result (text.new.items ≡ text.old.items ++ spaced (reply_words reply.now)) }
{
    match reply {
        Reply::Got { got } => push_got(text, got),
        Reply::Answer { answer } => push_answer(text, answer.stamp, answer.value.bytes()),
        Reply::Staged { value, .. } => push_value(text, value.bytes()),
        Reply::NotStaged { fault, .. } => push_staged_fault(text, *fault),
        Reply::Set { answer } => push_set(alloc, text, *answer),
        Reply::Quar { answer } => push_quarantine(text, answer),
        Reply::Committed { number, .. } => push_counted(text, b"COMMITTED", *number),
        Reply::NotCommitted { fault, .. } => push_commit_fault(alloc, text, *fault),
        Reply::End { was } => push_open(text, *was),
        Reply::Rel { answer } => push_release(alloc, text, *answer),
        Reply::Raise { answer } => push_raising(text, answer),
        Reply::Renew { answer, .. } => push_renewal(text, *answer),
        Reply::Fault { fault: Fault::Keep } => push_word(text, b"FAULT"),
        Reply::SarBack { .. } | Reply::RaiseBack { .. } | Reply::Fault { .. } | Reply::Nothing => {
            Ok(())
        }
    }
}

fn push_got(text: &mut Vec<u8>, got: &Got) -> Result<(), Memory>
    ensures { OnOk result (text.new.items ≡ text.old.items ++ spaced (got_words got.now)) }
{
    match got {
        Got::Hit { value, stamp } => {
            push_word(text, b"HIT")?;
            push_answer(text, *stamp, value.bytes())
        }
        Got::Lease { token } => push_counted(text, b"LEASE", *token),
        Got::Again { standing } => {
            push_word(text, b"AGAIN")?;
            push_word(text, standing_word(*standing))
        }
        Got::Own => push_word(text, b"OWN"),
    }
}

fn push_answer(text: &mut Vec<u8>, stamp: u64, value: &[u8]) -> Result<(), Memory>
    ensures { OnOk result (text.new.items ≡ text.old.items ++
        spaced (decimal stamp ∷ printed_value value.now ∷ [])) }
{
    push_number(text, stamp)?;
    push_value(text, value)
}

fn push_set(alloc: Global, text: &mut Vec<u8>, answer: SetAnswer) -> Result<(), Memory>
    ensures { OnOk result (text.new.items ≡ text.old.items ++ spaced (set_words answer)) }
{
    match answer {
        SetAnswer::Stored { evicted } => push_evicting(alloc, text, b"STORED", evicted),
        SetAnswer::Void => push_word(text, b"VOID"),
    }
}

fn push_quarantine(text: &mut Vec<u8>, answer: &QAnswer) -> Result<(), Memory>
    ensures { OnOk result (text.new.items ≡ text.old.items ++ spaced (quarantine_words answer.now)) }
{
    match answer {
        QAnswer::Granted { grant, old } => {
            push_counted(text, b"GRANTED", grant.token())?;
            push_brought(text, grant.mode(), old)
        }
        QAnswer::Held => push_word(text, b"HELD"),
        QAnswer::Refused { holder, mode } => {
            push_counted(text, b"REFUSED", holder.number)?;
            push_word(text, word_of_mode(*mode))
        }
    }
}

fn push_brought(text: &mut Vec<u8>, mode: Mode, old: &Option<(Value, u64)>) -> Result<(), Memory>
    ensures { OnOk result (text.new.items ≡ text.old.items ++ spaced (brought_words mode old.now)) }
{
    match mode {
        Mode::Refresh => push_old(text, old),
        Mode::Invalidate | Mode::Delta => Ok(()),
    }
}

fn push_old(text: &mut Vec<u8>, old: &Option<(Value, u64)>) -> Result<(), Memory>
    ensures { OnOk result (text.new.items ≡ text.old.items ++ spaced (old_words old.now)) }
{
    match old {
        Some((value, stamp)) => push_answer(text, *stamp, value.bytes()),
        None => push_word(text, b"NONE"),
    }
}

fn push_staged_fault(text: &mut Vec<u8>, fault: AfterFault) -> Result<(), Memory>
    ensures { OnOk result (text.new.items ≡ text.old.items ++ spaced (staged_fault_words fault)) }
{
    match fault {
        AfterFault::Rejected { index } => push_counted(text, b"REJECTED", index as u64),
        AfterFault::Failed => push_word(text, b"FAULT"),
        AfterFault::Memory => Ok(()),
    }
}

fn push_commit_fault(alloc: Global, text: &mut Vec<u8>, fault: CommitFault) -> Result<(), Memory>
    ensures { OnOk result (text.new.items ≡ text.old.items ++ spaced (commit_fault_words fault)) }
{
    match fault {
        CommitFault::Ended => push_word(text, b"ENDED"),
        CommitFault::Uncovered { key } => push_verb(alloc, text, b"UNCOVERED", &key),
        CommitFault::LogFull { count } => push_counted(text, b"FULL", count),
        CommitFault::Memory => Ok(()),
        CommitFault::Rejected { index } => push_counted(text, b"REJECTED", index as u64),
        CommitFault::KeepFault => push_word(text, b"FAULT"),
    }
}

pub(crate) fn push_open(text: &mut Vec<u8>, was: bool) -> Result<(), Memory>
    ensures { OnOk result (text.new.items ≡ text.old.items ++ spaced (open_words was)) }
{
    push_word(text, if was { b"YES" } else { b"NO" })
}

pub(crate) fn push_release(alloc: Global, text: &mut Vec<u8>, answer: Rel) -> Result<(), Memory>
    ensures { OnOk result (text.new.items ≡ text.old.items ++ spaced (release_words answer)) }
{
    match answer {
        Rel::Released { evicted } => push_evicting(alloc, text, b"RELEASED", evicted),
        Rel::Gone => push_word(text, b"GONE"),
    }
}

fn push_raising(text: &mut Vec<u8>, answer: &Raising) -> Result<(), Memory>
    ensures { OnOk result (text.new.items ≡ text.old.items ++ spaced (raising_words answer.now)) }
{
    match answer {
        Raising::Raised { old, .. } => {
            push_word(text, b"RAISED")?;
            push_old(text, old)
        }
        Raising::Shared { holder, .. } => push_counted(text, b"SHARED", holder.number),
        Raising::Gone => push_word(text, b"GONE"),
    }
}

fn push_renewal(text: &mut Vec<u8>, answer: Option<Renewal>) -> Result<(), Memory>
    ensures { OnOk result (text.new.items ≡ text.old.items ++ spaced (renewal_words answer)) }
{
    match answer {
        Some(Renewal::Renewed { deadline }) => push_counted(text, b"RENEWED", deadline),
        Some(Renewal::Gone) => push_word(text, b"GONE"),
        None => Ok(()),
    }
}

fn push_evicting(
    alloc: Global,
    text: &mut Vec<u8>,
    word: &[u8],
    evicted: Option<QKey>,
) -> Result<(), Memory>
    ensures { OnOk result (text.new.items ≡ text.old.items ++
        spaced (word.now ∷ evicts_words evicted)) }
{
    push_word(text, word)?;
    match evicted {
        Some(key) => push_verb(alloc, text, b"EVICTS", &key),
        None => Ok(()),
    }
}

pub(crate) fn push_verb(
    alloc: Global,
    text: &mut Vec<u8>,
    verb: &[u8],
    key: &QKey,
) -> Result<(), Memory>
    ensures { OnOk result (text.new.items ≡ text.old.items ++
        spaced (verb.now ∷ key_text key.now ∷ [])) }
{
    push_word(text, verb)?;
    let word = key.text(alloc)?;
    push_word(text, word.bytes())
}

pub(crate) fn push_counted(text: &mut Vec<u8>, word: &[u8], number: u64) -> Result<(), Memory>
    ensures { OnOk result (text.new.items ≡ text.old.items ++
        spaced (word.now ∷ decimal number ∷ [])) }
{
    push_word(text, word)?;
    push_number(text, number)
}

pub(crate) fn push_word(text: &mut Vec<u8>, word: &[u8]) -> Result<(), Memory>
    ensures { OnOk result (text.new.items ≡ text.old.items ++ spaced (word.now ∷ [])) }
{
    text.push(b' ')?;
    text.extend_from_slice(word)?;
    Ok(())
}

pub(crate) fn push_number(text: &mut Vec<u8>, number: u64) -> Result<(), Memory>
    ensures { OnOk result (text.new.items ≡ text.old.items ++ spaced (decimal number ∷ [])) }
{
    let mut buffer = Buffer::new();
    push_word(text, buffer.format(number).as_bytes())
}

fn push_value(text: &mut Vec<u8>, value: &[u8]) -> Result<(), Memory>
    ensures { OnOk result (text.new.items ≡ text.old.items ++ spaced (printed_value value.now ∷ [])) }
{
    if value.is_empty() {
        push_word(text, b".")
    } else {
        push_word(text, value)
    }
}

fn standing_word(standing: Blocker) -> &'static [u8]
    ensures { result.now ≡ stands_word standing }
{
    match standing {
        Blocker::I => b"I",
        Blocker::Q => b"Q",
    }
}

fn word_of_mode(mode: Mode) -> &'static [u8]
    ensures { result.now ≡ mode_word mode }
{
    match mode {
        Mode::Invalidate => b"invalidate",
        Mode::Refresh => b"refresh",
        Mode::Delta => b"delta",
    }
}
