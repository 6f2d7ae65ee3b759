// Where in a log each key is touched last.
ghost use Rattle.std.specs.Prelude.{◌≡◌, IfOk, OnOk, if◌then◌else◌};
ghost use Rattle.rows_model.specs.declared.keys.QKey.{QKey};
ghost use Rattle.rows_model.specs.Key.{same_key};
ghost use Rattle.rows_model.specs.Changes.{has_key};
ghost use Rattle.shard_dump.specs.Touches.{number_of, TellsTouches};

use rows_model::{Memory, QKey, footprint};
use sql_keeper::Commit;
use std::alloc::Global;
use std::collections::BTreeMap;
use std::marker::Model;

/// For each key that a log's commits touch, the number of the last that does, counted from 1.
/// Contracts see the list of these keys, each with its number.
#[derive(Drop)]
pub struct LastTouches {
    numbers: BTreeMap<QKey, u64>,
}

impl Model for LastTouches {
    ghost use Rattle.std.specs.Prelude.{ℕ, List};
    ghost use Rattle.rows_model.specs.declared.keys.QKey.{QKey};

    ghost Value = { List (QKey × ℕ) };

    ghost view = { λ touches. touches.numbers.entries };
}

impl LastTouches {
    /// The numbers of a log. It walks the log once, and the dumps of all shards can share them.
    pub fn of(alloc: Global, log: &[Commit]) -> Result<LastTouches, Memory>
        ensures { IfOk result (TellsTouches log.now) }
    {
        let mut touches = LastTouches {
            numbers: BTreeMap::new(alloc),
        };
        for (place, commit) in log.iter().enumerate() {
            let keys = footprint(alloc, &commit.txn)?;
            touches.note(keys.as_slice(), place as u64 + 1)?;
        }
        Ok(touches)
    }

    // Notes that the commit of this number touches these keys.
    fn note(&mut self, keys: &[QKey], number: u64) -> Result<(), Memory>
        ensures { OnOk result ((key : QKey) → number_of key self.new
            ≡ (if has_key key keys.now then number else number_of key self.old)) }
    {
        for key in keys {
            self.put(key, number)?;
        }
        Ok(())
    }

    // Gives the key this number.
    fn put(&mut self, key: &QKey, number: u64) -> Result<(), Memory>
        ensures { OnOk result ((other : QKey) → number_of other self.new
            ≡ (if same_key other key.now then number else number_of other self.old)) }
    {
        self.numbers.insert(*key, number)?;
        Ok(())
    }

    // The number of the key, or 0.
    pub(crate) fn number(&self, key: &QKey) -> u64
        ensures { result ≡ number_of key.now self.now }
    {
        self.numbers.get(key).copied().unwrap_or(0)
    }
}
