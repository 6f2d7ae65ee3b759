// Rows that were read, and which keys they have.
ghost use Rattle.std.specs.Prelude.{◌≡◌, ◌∷◌, ◌++◌, [], length, OnOk, OnErr};
ghost use Rattle.shard_dump.specs.Listed.{has_row};

use crate::rows::{DumpRow, DumpRows};
use rows_model::{Memory, QKey};
use std::alloc::Global;
use std::collections::BTreeSet;
use std::marker::Model;

/// Rows, and the set of their keys. Contracts see the list of the rows.
#[derive(Drop)]
pub struct Listed {
    rows: Vec<DumpRow>,
    keys: BTreeSet<QKey>,
}

impl Model for Listed {
    ghost use Rattle.std.specs.Prelude.{List};
    ghost use Rattle.shard_dump.specs.declared.rows.DumpRow.{DumpRow};
    ghost use Rattle.shard_dump.specs.Listed.{AreKeysOf};

    ghost Value = { List DumpRow };

    ghost view = { λ l. l.rows.items };

    ghost invariant = { λ l. AreKeysOf l.rows.items l.keys };
}

impl Listed {
    /// No rows.
    pub(crate) fn new(alloc: Global) -> Listed
        ensures { result ≡ [] }
    {
        Listed {
            rows: Vec::new(alloc),
            keys: BTreeSet::new(alloc),
        }
    }

    /// How many rows there are.
    pub(crate) fn len(&self) -> usize
        ensures { result ≡ length self.now }
    {
        self.rows.len()
    }

    /// Whether one of them has this key.
    pub(crate) fn has(&self, key: &QKey) -> bool
        ensures { result ≡ has_row key.now self.now }
    {
        self.keys.contains(key)
    }

    /// Puts a row behind the others.
    pub(crate) fn push(&mut self, row: DumpRow) -> Result<(), Memory>
        ensures ok { OnOk result (self.new ≡ self.old ++ row ∷ []) }
        ensures err { OnErr result (self.new ≡ self.old) }
    {
        self.rows.reserve(1)?;
        self.keys.insert(row.key)?;
        self.rows.push_reserved(row);
        Ok(())
    }

    /// The rows.
    pub(crate) fn into_rows(self) -> DumpRows
        ensures { result ≡ self }
    {
        DumpRows::of(self.rows)
    }
}
