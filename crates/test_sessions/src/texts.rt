// What a test tells of keys, transactions, plans and requests, as text.
use rows_model::{Change, Memory, QKey, Txn};
use session_client::{Grants, Plan, Wanted};
use std::alloc::{AllocError, Global};

fn change_text(alloc: Global, change: &Change) -> Result<String, AllocError> {
    match *change {
        Change::Invite { a, b } => format!(in alloc; "invite {a} {b}"),
        Change::Accept { a, b } => format!(in alloc; "accept {a} {b}"),
        Change::Reject { a, b } => format!(in alloc; "reject {a} {b}"),
        Change::Thaw { a, b } => format!(in alloc; "thaw {a} {b}"),
        Change::Rename { a, name } => {
            format!(in alloc;
                "rename {a} {}",
                String::from_utf8_lossy(alloc, name.bytes())?
            )
        }
        Change::Block { a, b } => format!(in alloc; "block {a} {b}"),
    }
}

fn txn_text(alloc: Global, txn: &Txn) -> Result<String, AllocError> {
    let mut text = String::new(alloc);
    for change in txn.changes() {
        text.push_str(" + ")?;
        text.push_str(change_text(alloc, change)?.as_str())?;
    }
    Ok(text)
}

fn text_of_key(alloc: Global, key: &QKey) -> Result<String, AllocError> {
    format!(in alloc; "{:?}:{}", key.kind, key.id)
}

pub fn plan_text(alloc: Global, plan: &Plan) -> Result<String, AllocError> {
    match plan {
        Plan::Read { key, floor } => {
            format!(in alloc; "read {} floor {floor}", text_of_key(alloc, key)?)
        }
        Plan::Write { mode, txn } => format!(in alloc; "write {mode:?}{}", txn_text(alloc, txn)?),
        Plan::Look { mode, key, txn } => {
            format!(in alloc;
                "look {mode:?} {}{}",
                text_of_key(alloc, key)?,
                txn_text(alloc, txn)?
            )
        }
        Plan::Quit { mode, txn } => format!(in alloc; "quit {mode:?}{}", txn_text(alloc, txn)?),
        Plan::Skip { key, txn } => {
            format!(in alloc;
                "skip {}{}",
                text_of_key(alloc, key)?,
                txn_text(alloc, txn)?
            )
        }
        Plan::Raise { txn } => format!(in alloc; "raise{}", txn_text(alloc, txn)?),
        Plan::Renew { mode, txn } => format!(in alloc; "renew {mode:?}{}", txn_text(alloc, txn)?),
    }
}

/// The word of a request.
fn verb_of(wanted: &Wanted) -> &'static str {
    match wanted {
        Wanted::Get { .. } => "get",
        Wanted::Ask { .. } => "ask",
        Wanted::Staged { .. } => "stage",
        Wanted::Set { .. } => "set",
        Wanted::QaReg { .. } => "qareg",
        Wanted::QaRead { .. } => "qaread",
        Wanted::Delta { .. } => "delta",
        Wanted::Commit { .. } => "commit",
        Wanted::End => "end",
        Wanted::Dar { .. } => "dar",
        Wanted::Sar { .. } => "sar",
        Wanted::Apply { .. } => "apply",
        Wanted::Abort { .. } => "abort",
        Wanted::Raise { .. } => "raise",
        Wanted::Renew { .. } => "renew",
        Wanted::Nothing => "nothing",
    }
}

/// The key of a request, if it is about one.
fn key_of(wanted: &Wanted) -> Option<QKey> {
    match wanted {
        Wanted::Get { key, .. }
        | Wanted::Ask { key }
        | Wanted::Staged { key, .. }
        | Wanted::Set { key, .. }
        | Wanted::QaReg { key }
        | Wanted::QaRead { key }
        | Wanted::Delta { key, .. } => Some(*key),
        Wanted::Dar { grant }
        | Wanted::Sar { grant, .. }
        | Wanted::Apply { grant, .. }
        | Wanted::Abort { grant }
        | Wanted::Raise { grant }
        | Wanted::Renew { grant } => Some(grant.key()),
        Wanted::Commit { .. } | Wanted::End | Wanted::Nothing => None,
    }
}

/// The floor, token, stamp or shift of a request.
fn number_of(wanted: &Wanted) -> Option<i128> {
    match wanted {
        Wanted::Get { floor, .. } => Some(i128::from(*floor)),
        Wanted::Set { token, .. } => Some(i128::from(*token)),
        Wanted::Sar { stamp, .. } | Wanted::Apply { stamp, .. } => Some(i128::from(*stamp)),
        Wanted::Delta { by, .. } => Some(i128::from(*by)),
        _ => None,
    }
}

/// The tokens of grants.
fn tokens_text(alloc: Global, grants: &Grants) -> Result<String, AllocError> {
    let mut text = String::new(alloc);
    for grant in grants.items() {
        text.push_str(format!(in alloc; " {}", grant.token())?.as_str())?;
    }
    Ok(text)
}

/// What stands behind the key and the number of a request.
fn rest_text(alloc: Global, wanted: &Wanted) -> Result<String, AllocError> {
    match wanted {
        Wanted::Set { value, stamp, .. } => {
            format!(in alloc;
                " {stamp} [{}]",
                String::from_utf8_lossy(alloc, value.bytes())?
            )
        }
        Wanted::Sar {
            value: Some(value),
            ..
        } => format!(in alloc; " [{}]", String::from_utf8_lossy(alloc, value.bytes())?),
        Wanted::Sar { value: None, .. } => String::from_str(alloc, " none"),
        Wanted::Commit { grants, .. } => tokens_text(alloc, grants),
        _ => Ok(String::new(alloc)),
    }
}

/// A request: its word, its key and its numbers, and its value in brackets or the tokens of its grants.
pub fn wanted_text(alloc: Global, wanted: &Wanted) -> Result<String, Memory> {
    let mut text = String::from_str(alloc, verb_of(wanted))?;
    if let Some(key) = key_of(wanted) {
        text.push_str(" ")?;
        text.push_str(String::from_utf8_lossy(alloc, key.text(alloc)?.bytes())?.as_str())?;
    }
    if let Some(number) = number_of(wanted) {
        text.push_str(format!(in alloc; " {number}")?.as_str())?;
    }
    text.push_str(rest_text(alloc, wanted)?.as_str())?;
    Ok(text)
}
