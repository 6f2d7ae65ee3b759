// The texts of replies to plain commands.
ghost use Rattle.std.specs.Prelude.{◌≡◌, ◌++◌, decimal, OnOk, OnErr};
ghost use Rattle.mc_text.specs.Replies.{line, BeginsWith};
ghost use Rattle.mc_text.specs.PlainReplies.{item_head, item_end, item_text, items_text, plain_text};

use crate::plain_replies::{Found, PlainReply};
use crate::replies::push_decimal;
use rows_model::Memory;
use std::alloc::AllocError;

/// Writes the text of the reply behind what is to go out. After want of memory that is as before.
pub fn write_plain_reply(out: &mut Vec<u8>, reply: &PlainReply) -> Result<(), Memory>
    ensures ok { OnOk result (out.new.items ≡ out.old.items ++ plain_text reply.now) }
    ensures err { OnErr result (out.new.items ≡ out.old.items) }
{
    let before = out.len();
    if push_reply(out, reply).is_err() {
        out.truncate(before);
        return Err(Memory);
    }
    Ok(())
}

/// Writes the text of one of the items that a reply tells, with its unique or without, behind what
/// is to go out. After want of memory that is as before.
pub fn write_found(out: &mut Vec<u8>, found: &Found, is_told: bool) -> Result<(), Memory>
    ensures ok { OnOk result (out.new.items ≡ out.old.items ++ item_text is_told found.now) }
    ensures err { OnErr result (out.new.items ≡ out.old.items) }
{
    let before = out.len();
    if push_item(out, found, is_told).is_err() {
        out.truncate(before);
        return Err(Memory);
    }
    Ok(())
}

// Writes the text of the reply; for want of memory a part of it may have been written.
#[tactic(auto, unfolding(crate::specs::PlainReplies::plain_text))]
fn push_reply(out: &mut Vec<u8>, reply: &PlainReply) -> Result<(), AllocError>
    ensures ok { OnOk result (out.new.items ≡ out.old.items ++ plain_text reply.now) }
    ensures err { OnErr result (BeginsWith out.old.items out.new.items) }
{
    match reply {
        PlainReply::Values { found } => push_items(out, found.items(), false),
        PlainReply::Uniques { found } => push_items(out, found.items(), true),
        PlainReply::Stored => out.extend_from_slice(b"STORED\r\n"),
        PlainReply::NotStored => out.extend_from_slice(b"NOT_STORED\r\n"),
        PlainReply::Exists => out.extend_from_slice(b"EXISTS\r\n"),
        PlainReply::NotFound => out.extend_from_slice(b"NOT_FOUND\r\n"),
        PlainReply::Deleted => out.extend_from_slice(b"DELETED\r\n"),
        PlainReply::Number { number } => push_number(out, *number),
        PlainReply::QueryKey => out.extend_from_slice(b"CLIENT_ERROR query key\r\n"),
        PlainReply::Exptime => out.extend_from_slice(b"CLIENT_ERROR exptime\r\n"),
        PlainReply::NotNumber => out.extend_from_slice(b"CLIENT_ERROR not a number\r\n"),
        PlainReply::Spent => out.extend_from_slice(b"SERVER_ERROR spent\r\n"),
        PlainReply::Full => out.extend_from_slice(b"SERVER_ERROR full\r\n"),
        PlainReply::Memory => out.extend_from_slice(b"SERVER_ERROR memory\r\n"),
    }
}

// Items behind one another, and the line behind the last.
fn push_items(out: &mut Vec<u8>, found: &[Found], is_told: bool) -> Result<(), AllocError>
    ensures ok { OnOk result (out.new.items ≡ out.old.items ++ items_text is_told found.now) }
    ensures err { OnErr result (BeginsWith out.old.items out.new.items) }
{
    for item in found {
        push_item(out, item, is_told)?;
    }
    out.extend_from_slice(b"END\r\n")
}

// An item: the line that tells of it, and its bytes.
fn push_item(out: &mut Vec<u8>, found: &Found, is_told: bool) -> Result<(), AllocError>
    ensures ok { OnOk result (out.new.items ≡ out.old.items ++ item_text is_told found.now) }
    ensures err { OnErr result (BeginsWith out.old.items out.new.items) }
{
    push_item_head(out, found)?;
    push_item_end(out, is_told, found.unique)?;
    out.extend_from_slice(b"\r\n")?;
    out.extend_from_slice(found.value.bytes())?;
    out.extend_from_slice(b"\r\n")
}

// The front of the line that tells of an item, up to the length of its value.
fn push_item_head(out: &mut Vec<u8>, found: &Found) -> Result<(), AllocError>
    ensures ok { OnOk result (out.new.items ≡ out.old.items ++ item_head found.now) }
    ensures err { OnErr result (BeginsWith out.old.items out.new.items) }
{
    out.extend_from_slice(b"VALUE ")?;
    out.extend_from_slice(found.key.bytes())?;
    out.push(b' ')?;
    push_decimal(out, u64::from(found.flags))?;
    out.push(b' ')?;
    push_decimal(out, found.value.bytes().len() as u64)
}

// The end of that line: the unique, where it is told.
fn push_item_end(out: &mut Vec<u8>, is_told: bool, unique: u64) -> Result<(), AllocError>
    ensures ok { OnOk result (out.new.items ≡ out.old.items ++ item_end is_told unique) }
    ensures err { OnErr result (BeginsWith out.old.items out.new.items) }
{
    if !is_told {
        return Ok(());
    }
    out.push(b' ')?;
    push_decimal(out, unique)
}

// A number in a line of its own.
fn push_number(out: &mut Vec<u8>, number: u64) -> Result<(), AllocError>
    ensures ok { OnOk result (out.new.items ≡ out.old.items ++ line (decimal number)) }
    ensures err { OnErr result (BeginsWith out.old.items out.new.items) }
{
    push_decimal(out, number)?;
    out.extend_from_slice(b"\r\n")
}
