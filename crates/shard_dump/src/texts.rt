// The text of a dump, written.
ghost use Rattle.std.specs.Prelude.{◌≡◌, ◌∷◌, ◌++◌, [], decimal, OnOk, IfOk};
ghost use Rattle.shard_dump.specs.declared.rows.DumpRow.{DumpRow};
ghost use Rattle.shard_dump.specs.Texts.{head_text, row_text, rows_text, end_text};

use crate::heads::Head;
use crate::rows::DumpRow;
use itoa::Buffer;
use rows_model::Memory;
use std::alloc::{AllocError, Global};

/// The head, the rows and the end.
pub(crate) fn text_of(alloc: Global, head: Head, rows: &[DumpRow]) -> Result<Vec<u8>, Memory>
    ensures { IfOk result (λ text. text.items
        ≡ head_text head ++ rows_text rows.now ++ end_text) }
{
    let mut text = Vec::from_slice(alloc, b"iqdump 1 ")?;
    push_number(&mut text, u64::from(head.shard), b' ')?;
    push_number(&mut text, u64::from(head.count), b' ')?;
    push_number(&mut text, u64::from(head.rows), b'\n')?;
    for row in rows {
        push_row(&mut text, row)?;
    }
    text.extend_from_slice(b"end\n")?;
    Ok(text)
}

// Puts a row behind the text.
fn push_row(text: &mut Vec<u8>, row: &DumpRow) -> Result<(), AllocError>
    ensures { OnOk result (text.new.items ≡ text.old.items ++ row_text row.now) }
{
    let value = row.value.bytes();
    text.extend_from_slice(row.key.kind.word())?;
    text.push(b':')?;
    push_number(text, u64::from(row.key.id), b' ')?;
    push_number(text, value.len() as u64, b'\n')?;
    text.extend_from_slice(value)?;
    text.push(b'\n')?;
    Ok(())
}

// Puts a number in decimal and a byte behind the text.
fn push_number(text: &mut Vec<u8>, number: u64, byte: u8) -> Result<(), AllocError>
    ensures { OnOk result (text.new.items ≡ text.old.items ++ decimal number ++ byte ∷ []) }
{
    let mut buffer = Buffer::new();
    text.extend_from_slice(buffer.format(number).as_bytes())?;
    text.push(byte)?;
    Ok(())
}
