ghost use Rattle.std.specs.Prelude.{◌≡◌, ◌<◌, ◌≤◌, ◌^◌, List, length, IfOk, OnOk, All};
ghost use Rattle.key_shard.specs.Past.{order};
ghost use Rattle.key_shard.specs.Answers.{Legal};
ghost use Rattle.key_shard.specs.Shards.{past_of};
ghost use Rattle.sql_keeper.specs.declared.stores.Commit.{Commit};
ghost use Rattle.shard_dump.specs.Texts.{IsDumpText};
ghost use Rattle.shard_dump.specs.Dumps.{is_dumped, rows_of, dump_of};
ghost use Rattle.shard_dump.specs.Touches.{TellsTouches};

use crate::heads::{Head, MOST_BYTES};
use crate::rows::DumpRow;
use crate::texts::text_of;
use crate::touches::LastTouches;
use key_shard::Shard;
use rows_model::{Memory, QKey, Value};
use sql_keeper::Commit;
use std::alloc::Global;

/// The text of the shard's entries, the least recent first. An entry is in it exactly where its key has
/// an id from 1, its value has at most 1,048,576 bytes, and no commit of the log above its stamp touches
/// the key. The shard stays as it is. It walks the whole log. By `dump_beside` shards share that walk.
pub fn dump(alloc: Global, shard: &Shard, log: &[Commit]) -> Result<Vec<u8>, Memory>
    requires one_of { shard.now.terms.no < shard.now.terms.count }
    requires few { shard.now.terms.count ≤ 64 }
    requires roomy { shard.now.terms.room ≤ 65536 }
    ensures text { IfOk result (λ text. IsDumpText text.items (dump_of log.now shard.now)) }
{
    let touches = LastTouches::of(alloc, log)?;
    dump_beside(alloc, shard, &touches)
}

/// The text that `dump` gives of the shard and a log, by the numbers of the last commits that touch
/// its keys. The shard stays as it is. It doesn't look at the log.
pub fn dump_beside(alloc: Global, shard: &Shard, touches: &LastTouches) -> Result<Vec<u8>, Memory>
    requires one_of { shard.now.terms.no < shard.now.terms.count }
    requires few { shard.now.terms.count ≤ 64 }
    requires roomy { shard.now.terms.room ≤ 65536 }
    ensures text { (log : List Commit) → TellsTouches log touches.now
        → IfOk result (λ text. IsDumpText text.items (dump_of log shard.now)) }
{
    let rows = rows_to_dump(alloc, shard, touches)?;
    let head = Head {
        shard: shard.no(),
        count: shard.count(),
        rows: rows.len() as u32,
    };
    text_of(alloc, head, rows.as_slice())
}

// The rows of the entries that are dumped.
fn rows_to_dump(alloc: Global, shard: &Shard, touches: &LastTouches) -> Result<Vec<DumpRow>, Memory>
    ensures rows { (log : List Commit) → TellsTouches log touches.now
        → IfOk result (λ rows. rows.items ≡ rows_of log (past_of shard.now)) }
    ensures few { IfOk result (λ rows. length rows.items ≤ length (order (past_of shard.now))) }
    ensures ids { IfOk result (λ rows. All (λ row. row.key.id < 2 ^ 32) rows.items) }
    ensures legal { OnOk result (Legal shard.now.terms shard.now.history) }
{
    // That the history is legal is a clause of its reader.
    let _history = shard.history();
    let mut entries = shard.entries()?;
    let mut rows = Vec::new(alloc);
    while let Some((key, value, stamp)) = entries.pop() {
        if is_dumped(&key, &value, stamp, touches) {
            rows.push(DumpRow { key, value })?;
        }
    }
    Ok(rows)
}

// Whether the entry is dumped.
fn is_dumped(key: &QKey, value: &Value, stamp: u64, touches: &LastTouches) -> bool
    ensures { (log : List Commit) → TellsTouches log touches.now
        → result ≡ is_dumped log key.now (value.now, stamp) }
{
    key.id >= 1 && value.bytes().len() as u64 <= MOST_BYTES && touches.number(key) <= stamp
}
