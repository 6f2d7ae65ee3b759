ghost use Rattle.std.specs.Prelude.{◌≡◌, ◌≤◌, length, All, IfOk, IfErr};
ghost use Rattle.rows_model.specs.Changes.{HasIds};
ghost use Rattle.rows_model.specs.TxnFaults.{ComesFrom};

use crate::names::Name;
use crate::refusals::{Memory, TxnFault};
use std::alloc::Global;
use std::marker::Model;

/// A change of the rows.
#[derive(Clone, Copy, PartialEq, Eq)]
pub enum Change {
    /// `a` invites `b`.
    Invite { a: u32, b: u32 },
    /// `b` accepts the invitation by `a`, and they are friends.
    Accept { a: u32, b: u32 },
    /// `b` rejects the invitation by `a`.
    Reject { a: u32, b: u32 },
    /// `a` and `b` are friends no more.
    Thaw { a: u32, b: u32 },
    /// `a` takes another name.
    Rename { a: u32, name: Name },
    /// `a` blocks `b`, and no invitation passes between the two any more.
    Block { a: u32, b: u32 },
}

/// A transaction: 1 to 8 changes, which are made all or not at all. Contracts see the list.
#[derive(Drop)]
pub struct Txn {
    changes: Vec<Change>,
}

impl Model for Txn {
    ghost use Rattle.std.specs.Prelude.{List};
    ghost use Rattle.rows_model.specs.declared.changes.Change.{Change};
    ghost use Rattle.rows_model.specs.Changes.{IsTxn};

    ghost Value = { List Change };

    ghost view = { λ t. t.changes.items };

    ghost invariant = { λ t. IsTxn t.changes.items };
}

impl Txn {
    /// The transaction of these changes, none of which has an id 0 or a new name that is none.
    /// `Length` comes exactly where there are none or more than 8.
    pub fn of(alloc: Global, changes: &[Change]) -> Result<Txn, TxnFault>
        requires { All HasIds changes.now }
        ensures found { IfOk result (λ txn. txn ≡ changes.now) }
        ensures fault { IfErr result (λ fault. ComesFrom changes.now fault) }
    {
        let count = changes.len();
        if count == 0 || count > 8 {
            return Err(TxnFault::Length { count });
        }
        Ok(Txn {
            changes: Vec::from_slice(alloc, changes)?,
        })
    }

    /// The same transaction once more.
    pub fn copy(&self) -> Result<Txn, Memory>
        ensures { IfOk result (λ txn. txn ≡ self.now) }
    {
        Ok(Txn {
            changes: self.changes.clone()?,
        })
    }

    /// The changes, in the order in which they are made.
    pub fn changes(&self) -> &[Change]
        ensures items { result.now ≡ self.now }
        ensures some { 1 ≤ length result.now }
        ensures few { length result.now ≤ 8 }
        ensures ids { All HasIds result.now }
    {
        self.changes.as_slice()
    }
}
