ghost use Rattle.std.specs.Prelude.{◌≡◌, ◌≤◌, ◌+◌, ◌++◌, List, length, IfOk, IfErr, IfSome, IfNone, OnOk};
ghost use Rattle.shard_dump.specs.declared.heads.Head.{Head};
ghost use Rattle.shard_dump.specs.declared.rows.Dump.{Dump};
ghost use Rattle.shard_dump.specs.declared.rows.DumpRow.{DumpRow};
ghost use Rattle.shard_dump.specs.Texts.{head_text, row_text, end_text, IsHead, IsDumpText};
ghost use Rattle.shard_dump.specs.Faults.{BeginsWith, IsNext, HasNoNext, IsDumpFault, Gives};

use crate::faults::DumpFault;
use crate::heads::Head;
use crate::listed::Listed;
use crate::parts::{behind, head_of, row_of};
use crate::rows::{Dump, DumpRow};
use rows_model::{QKey, Value};
use std::alloc::Global;

/// The dump of which this is the text. `Bad` comes exactly where it is the text of none, and tells the
/// place of the first part that is wrong.
pub fn read_dump(alloc: Global, text: &[u8]) -> Result<Dump, DumpFault>
    ensures found { IfOk result (λ dump. IsDumpText text.now dump) }
    ensures only { (dump : Dump) → IsDumpText text.now dump → Gives result dump }
    ensures bad { IfErr result (IsDumpFault text.now) }
{
    parts_of(alloc, text)
}

// The head and the rows that the text has, one behind the other, and then the end.
fn parts_of(alloc: Global, text: &[u8]) -> Result<Dump, DumpFault>
    ensures found { IfOk result (λ dump. IsDumpText text.now dump) }
    ensures bad { IfErr result (IsDumpFault text.now) }
{
    let Some((head, rest)) = head_of(text) else {
        return Err(DumpFault::Bad { place: 0 });
    };
    let (rows, rest) = rows_behind(alloc, head, text, rest)?;
    check_end(text, rest)?;
    Ok(Dump {
        shard: head.shard,
        count: head.count,
        rows: rows.into_rows(),
    })
}

// The rows behind the head, and what stands behind them.
fn rows_behind<'a>(
    alloc: Global,
    head: Head,
    text: &[u8],
    behind: &'a [u8],
) -> Result<(Listed, &'a [u8]), DumpFault>
    requires right { IsHead head }
    requires written { text.now ≡ head_text head ++ behind.now }
    ensures found { IfOk result (λ read. BeginsWith text.now head read.0 read.1.now) }
    ensures all { IfOk result (λ read. length read.0 ≡ head.rows) }
    ensures bad { IfErr result (IsDumpFault text.now) }
{
    let mut rows = Listed::new(alloc);
    let mut rest = behind;
    while rows.len() < head.rows as usize {
        let Some((key, value, more)) = next_row(head, &rows, rest) else {
            return Err(DumpFault::Bad {
                place: place_of(text, rest),
            });
        };
        let value = Value::of(alloc, value)?;
        rows.push(DumpRow { key, value })?;
        rest = more;
    }
    Ok((rows, rest))
}

// The row that may stand behind these, in front of the text.
fn next_row<'a>(head: Head, rows: &Listed, text: &'a [u8]) -> Option<(QKey, &'a [u8], &'a [u8])>
    requires { IsHead head }
    ensures found { IfSome result (λ read. text.now
        ≡ row_text (record { key = read.0; value = read.1.now }) ++ read.2.now) }
    ensures next { IfSome result
        (λ read. IsNext head rows.now (record { key = read.0; value = read.1.now })) }
    ensures none { IfNone result (HasNoNext head rows.now text.now) }
{
    let (key, value, rest) = row_of(head, text)?;
    if rows.has(&key) {
        return None;
    }
    Some((key, value, rest))
}

// Tests that the end stands there, and nothing behind it.
fn check_end(text: &[u8], rest: &[u8]) -> Result<(), DumpFault>
    requires { length rest.now ≤ length text.now }
    ensures ok { OnOk result (rest.now ≡ end_text) }
    ensures bad { IfErr result (λ fault. (head : Head) (rows : List DumpRow)
        → BeginsWith text.now head rows rest.now → length rows ≡ head.rows
        → IsDumpFault text.now fault) }
{
    let Some(more) = behind(rest, b"end\n") else {
        return Err(DumpFault::Bad {
            place: place_of(text, rest),
        });
    };
    if more.is_empty() {
        return Ok(());
    }
    Err(DumpFault::Bad {
        place: place_of(text, more),
    })
}

// Where the last part of a text begins.
fn place_of(text: &[u8], rest: &[u8]) -> u64
    requires { length rest.now ≤ length text.now }
    ensures { result + length rest.now ≡ length text.now }
{
    (text.len() - rest.len()) as u64
}
