// The rows of a store, out of the lists that a database holds.
ghost use Rattle.std.specs.Prelude.{◌≡◌, ◌≤◌, ◌<◌, ◌∷◌, [], All, AllPairs, Ok, IfOk, OnOk};
ghost use Rattle.rows_model.specs.Changes.{HasIds, apply_all};
ghost use Rattle.rows_model.specs.declared.changes.Change.TheVariants.{Invite, Accept};
ghost use Rattle.sqlite_tables.specs.Lists.{Lists, IsPairBefore, tables_of, with_pair};

use rows_model::{ApplyFault, Change, Member, Rows, Txn, TxnFault};
use sql_keeper::KeepFault;
use sqlite_tables::{Pair, PairState};
use std::alloc::Global;

// The rows of these lists. `Failed` where they aren't fit.
pub(crate) fn rows_of(
    alloc: Global,
    members: Vec<Member>,
    pairs: &[Pair],
) -> Result<Rows, KeepFault>
    ensures { AllPairs IsPairBefore pairs.now → IfOk result (λ rows.
        rows ≡ tables_of (record { members = members.items; pairs = pairs.now })) }
{
    let mut rows = of_members(alloc, members)?;
    for pair in pairs {
        put(alloc, &mut rows, pair)?;
    }
    Ok(rows)
}

// The rows of these members.
fn of_members(alloc: Global, members: Vec<Member>) -> Result<Rows, KeepFault>
    ensures { IfOk result (λ rows.
        rows ≡ tables_of (record { members = members.items; pairs = [] })) }
{
    match Rows::of_members(alloc, members)? {
        Some(rows) => Ok(rows),
        None => Err(KeepFault::Failed),
    }
}

// Puts a link or a block, unless the rows wouldn't be fit then.
fn put(alloc: Global, rows: &mut Rows, pair: &Pair) -> Result<(), KeepFault>
    ensures { (lists : Lists) → rows.old ≡ tables_of lists → AllPairs IsPairBefore lists.pairs
        → OnOk result (rows.new ≡ tables_of (with_pair pair.now lists)) }
{
    let _links = rows.link_count();
    let (a, b) = (pair.a, pair.b);
    if a == 0 || b == 0 {
        return Err(KeepFault::Failed);
    }
    match pair.state {
        PairState::Pending => make(alloc, rows, &[Change::Invite { a, b }]),
        PairState::Friend => befriend(alloc, rows, a, b),
        PairState::Block => make(alloc, rows, &[Change::Block { a, b }]),
    }
}

// Makes two friends, the first of whom has the smaller id.
fn befriend(alloc: Global, rows: &mut Rows, a: u32, b: u32) -> Result<(), KeepFault>
    requires { (1 ≤ a) × (1 ≤ b) }
    ensures { OnOk result ((a < b)
        × (apply_all (Invite a b ∷ Accept a b ∷ []) rows.old ≡ Ok rows.new)) }
{
    if a >= b {
        return Err(KeepFault::Failed);
    }
    make(
        alloc,
        rows,
        &[Change::Invite { a, b }, Change::Accept { a, b }],
    )
}

// Makes the changes, if all apply.
fn make(alloc: Global, rows: &mut Rows, changes: &[Change]) -> Result<(), KeepFault>
    requires { All HasIds changes.now }
    ensures { OnOk result (apply_all changes.now rows.old ≡ Ok rows.new) }
{
    let txn = match Txn::of(alloc, changes) {
        Ok(txn) => txn,
        Err(TxnFault::Memory) => return Err(KeepFault::Memory),
        Err(TxnFault::Length { .. }) => return Err(KeepFault::Failed),
    };
    match rows.apply(&txn) {
        Ok(()) => Ok(()),
        Err(ApplyFault::Rejected { .. }) => Err(KeepFault::Failed),
        Err(ApplyFault::Memory) => Err(KeepFault::Memory),
    }
}
