ghost use Rattle.std.specs.Prelude.{◌≡◌, ◌∷◌, ◌++◌, [], ◌<◌, ◌==◌, ◌-◌, ◌^◌, length, IfOk, OnOk, IsTrue};
ghost use Rattle.std.specs.Bool.{IsFalse};
ghost use Rattle.sql_keeper.specs.Log.{rows_after, HasPlace};

use crate::stores::Commit;
use http_server::Log;
use rows_model::{ApplyFault, Memory, Rows, Sid, Txn};
use std::alloc::Global;
use std::marker::Model;

/// The commits of a store, the earliest first. Contracts see all of them. A log that isn't kept has none
/// in memory.
#[derive(Drop)]
pub struct CommitLog {
    keeps: bool,
    count: u64,
    kept: Vec<Commit>,
    /// All commits. A `Log` has no bytes: contracts alone see what is in it.
    all: Log<Sid, Txn>,
}

impl Model for CommitLog {
    ghost use Rattle.std.specs.Prelude.{◌≡◌, map, length, vec_len, vec_capacity};
    ghost use Rattle.sql_keeper.specs.Log.{LogView, commit_of, in_memory};

    ghost Value = { LogView };

    ghost view = { λ l. record {
      items = map commit_of l.all.items;
      keeps = l.keeps;
      used = vec_len l.kept;
      room = vec_capacity l.kept;
    } };

    ghost invariant = { λ l. (l.count ≡ length (map commit_of l.all.items))
        × (l.kept.items ≡ in_memory l.keeps (map commit_of l.all.items)) };
}

impl CommitLog {
    /// A log without commits, which is kept in memory or isn't.
    pub fn new(alloc: Global, keeps: bool) -> CommitLog
        ensures items { result.items ≡ [] }
        ensures keeps { result.keeps ≡ keeps }
    {
        CommitLog {
            keeps,
            count: 0,
            kept: Vec::new(alloc),
            all: Log::new(),
        }
    }

    /// What its memory is from.
    pub(crate) fn allocator(&self) -> Global {
        *self.kept.allocator()
    }

    /// How many commits there are.
    pub fn len(&self) -> u64
        ensures { result ≡ length self.now.items }
    {
        self.count
    }

    /// Whether there are none.
    pub fn is_empty(&self) -> bool
        ensures { result ≡ (length self.now.items == 0) }
    {
        self.count == 0
    }

    /// Keeps a place free for a commit, where the log is kept.
    pub(crate) fn make_room(&mut self) -> Result<(), Memory>
        ensures items { self.new.items ≡ self.old.items }
        ensures keeps { self.new.keeps ≡ self.old.keeps }
        ensures place { OnOk result (HasPlace self.new) }
    {
        if self.keeps {
            self.kept.reserve(1)?;
        }
        Ok(())
    }

    /// Adds a commit in its place. It takes no memory.
    pub(crate) fn push(&mut self, sid: Sid, txn: Txn)
        requires place { HasPlace self.old }
        requires counted { length self.old.items < 2 ^ 64 - 1 }
        ensures items { self.new.items ≡ self.old.items ++ record { sid = sid; txn = txn } ∷ [] }
        ensures keeps { self.new.keeps ≡ self.old.keeps }
    {
        self.all = self.all.and(&sid, &txn);
        self.count += 1;
        if self.keeps {
            self.kept.push_reserved(Commit { sid, txn });
        }
    }

    /// The commits that are in memory: all, where the log is kept, and else none.
    pub fn as_slice(&self) -> &[Commit]
        ensures kept { IsTrue self.now.keeps → result.now ≡ self.now.items }
        ensures none { IsFalse self.now.keeps → result.now ≡ [] }
    {
        self.kept.as_slice()
    }
}

/// The rows after these commits. One that doesn't apply leaves the rows as they were.
pub fn rows_after(opening: &Rows, log: &[Commit]) -> Result<Rows, Memory>
    ensures { IfOk result (λ rows. rows ≡ rows_after opening.now log.now) }
{
    let mut rows = opening.copy()?;
    for commit in log {
        if let Err(ApplyFault::Memory) = rows.apply(&commit.txn) {
            return Err(Memory);
        }
    }
    Ok(rows)
}
