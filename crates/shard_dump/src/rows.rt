ghost use Rattle.std.specs.Prelude.{◌≡◌};

use rows_model::{QKey, Value};
use std::marker::Model;

/// A row of a dump: a key, and the value that is its entry.
#[derive(Drop)]
pub struct DumpRow {
    pub key: QKey,
    pub value: Value,
}

/// The rows of a dump, the least recent first. Contracts see their list.
#[derive(Drop)]
pub struct DumpRows {
    rows: Vec<DumpRow>,
}

impl Model for DumpRows {
    ghost use Rattle.std.specs.Prelude.{List};
    ghost use Rattle.shard_dump.specs.declared.rows.DumpRow.{DumpRow};

    ghost Value = { List DumpRow };

    ghost view = { λ d. d.rows.items };
}

impl DumpRows {
    /// The rows in this order. It takes no memory.
    pub fn of(rows: Vec<DumpRow>) -> DumpRows
        ensures { result ≡ rows.items }
    {
        DumpRows { rows }
    }

    /// The rows.
    pub fn as_slice(&self) -> &[DumpRow]
        ensures { result.now ≡ self.now }
    {
        self.rows.as_slice()
    }

    /// The rows, taken out. It takes no memory.
    pub fn into_rows(self) -> Vec<DumpRow>
        ensures { result.items ≡ self }
    {
        self.rows
    }
}

/// What the text of a dump says: the number of the shard, from 0, how many shards there are, and the
/// rows.
#[derive(Drop)]
pub struct Dump {
    pub shard: u32,
    pub count: u32,
    pub rows: DumpRows,
}
