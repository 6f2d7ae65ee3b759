// The changes of a transaction, each judged on the rows that those before it left, and then made.
ghost use Rattle.std.specs.Prelude.{◌≡◌, ◌+◌, ◌<◌, ◌^◌, cond, length, All, OnOk};
ghost use Rattle.rows_model.specs.declared.changes.Change.TheVariants.{Accept};
ghost use Rattle.rows_model.specs.Changes.{HasIds};
ghost use Rattle.rows_model.specs.Judge.{adds, ends, adds_block};
ghost use Rattle.sqlite.specs.State.{HasCleanDisk};
ghost use Rattle.sqlite.specs.Held.{state};
ghost use Rattle.sqlite_tables.specs.Lists.{AreLists};
ghost use Rattle.sqlite_tables.specs.Changes.{paired, lists_after, IsFree};
ghost use Rattle.sqlite_tables.specs.Calls.{OnLists, Leaves};
ghost use Rattle.sqlite_keeper.specs.Bases.{rows_in, IsCounted, Stays};
ghost use Rattle.sqlite_keeper.specs.Makes.{tally_after, MakesOne, MakesFrom};

use crate::bonds::{Tally, applies};
use crate::faults::staged;
use rows_model::Change;
use sql_keeper::{AfterFault, KeepFault};
use sqlite::{Alter, Transaction};
use sqlite_tables::{Pair, PairState, put_link, set_name, take_link};
use std::alloc::Global;

// Makes the changes in turn, the first of which has this place, and answers how many links and blocks
// there are afterwards. After a refusal some of them may have been made: the transaction is to be
// rolled back.
pub(crate) fn make_from<S: Alter>(
    alloc: Global,
    tx: &mut Transaction<'_, S>,
    tally: Tally,
    place: u32,
    changes: &[Change],
) -> Result<Tally, AfterFault>
    requires places { place + length changes.now < 2 ^ 32 }
    requires ids { All HasIds changes.now }
    ensures same_reference { tx.new.conn.ghost_name ≡ tx.old.conn.ghost_name }
    ensures made { HasCleanDisk (state S.Store tx.new.conn.now)
        → IsCounted tally (state S.Store tx.old.conn.now).now
        → MakesFrom place changes.now (rows_in (state S.Store tx.old.conn.now).now)
        (state S.Store tx.new.conn.now).now result }
    ensures stays { Stays S.Store tally tx.old.conn.now tx.new.conn.now }
{
    let Some((change, rest)) = changes.split_first() else {
        return Ok(tally);
    };
    match make_one(alloc, tx, tally, change) {
        Ok(Some(after)) => make_from(alloc, tx, after, place + 1, rest),
        Ok(None) => Err(AfterFault::Rejected { index: place }),
        Err(fault) => Err(staged(fault)),
    }
}

// Makes the change where it applies, and answers how many links and blocks there are afterwards.
fn make_one<S: Alter>(
    alloc: Global,
    tx: &mut Transaction<'_, S>,
    tally: Tally,
    change: &Change,
) -> Result<Option<Tally>, KeepFault>
    requires { HasIds change.now }
    ensures same_reference { tx.new.conn.ghost_name ≡ tx.old.conn.ghost_name }
    ensures made { HasCleanDisk (state S.Store tx.new.conn.now)
        → IsCounted tally (state S.Store tx.old.conn.now).now
        → MakesOne change.now (rows_in (state S.Store tx.old.conn.now).now)
        (state S.Store tx.new.conn.now).now result }
    ensures leaves { Leaves S.Store tx.old.conn.now tx.new.conn.now }
{
    if !applies(alloc, tx, tally, change)? {
        return Ok(None);
    }
    make(tx, change)?;
    Ok(Some(tally.after(change)))
}

// Makes a change that applies.
fn make<S: Alter>(tx: &mut Transaction<'_, S>, change: &Change) -> Result<(), KeepFault>
    ensures same_reference { tx.new.conn.ghost_name ≡ tx.old.conn.ghost_name }
    ensures made { OnLists S.Store tx.old.conn.now tx.new.conn.now (λ lists. IsFree change.now lists
        → OnOk result (AreLists (state S.Store tx.new.conn.now).now
        (lists_after change.now lists))) }
    ensures leaves { Leaves S.Store tx.old.conn.now tx.new.conn.now }
{
    match *change {
        Change::Invite { a, b } => put_link(tx, paired(a, b, PairState::Pending)),
        Change::Accept { a, b } => accept(tx, a, b),
        Change::Reject { a, b } => take_link(tx, a, b),
        Change::Thaw { a, b } => take_link(tx, a.min(b), a.max(b)),
        Change::Rename { a, name } => set_name(tx, a, &name),
        Change::Block { a, b } => put_link(tx, paired(a, b, PairState::Block)),
    }
}

// The invitation goes, and the friendship comes, which names the smaller id first.
fn accept<S: Alter>(tx: &mut Transaction<'_, S>, a: u32, b: u32) -> Result<(), KeepFault>
    ensures same_reference { tx.new.conn.ghost_name ≡ tx.old.conn.ghost_name }
    ensures made { OnLists S.Store tx.old.conn.now tx.new.conn.now (λ lists.
        IsFree (Accept a b) lists → OnOk result (AreLists (state S.Store tx.new.conn.now).now
        (lists_after (Accept a b) lists))) }
    ensures leaves { Leaves S.Store tx.old.conn.now tx.new.conn.now }
{
    take_link(tx, a, b)?;
    put_link(tx, paired(a.min(b), a.max(b), PairState::Friend))
}

fn paired(a: u32, b: u32, state: PairState) -> Pair
    ensures { result ≡ paired a b state }
{
    Pair { a, b, state }
}

impl Tally {
    // The counts after a change that applies. They stand still at the end of their type.
    fn after(self, change: &Change) -> Tally
        ensures { result ≡ tally_after change.now self }
    {
        Tally {
            links: self
                .links
                .saturating_add(links_more(change))
                .saturating_sub(links_less(change)),
            blocks: self.blocks.saturating_add(blocks_more(change)),
        }
    }
}

fn links_more(change: &Change) -> usize
    ensures { result ≡ cond (adds change.now) 1 0 }
{
    match *change {
        Change::Invite { .. } => 1,
        _ => 0,
    }
}

fn links_less(change: &Change) -> usize
    ensures { result ≡ cond (ends change.now) 1 0 }
{
    match *change {
        Change::Reject { .. } | Change::Thaw { .. } => 1,
        _ => 0,
    }
}

fn blocks_more(change: &Change) -> usize
    ensures { result ≡ cond (adds_block change.now) 1 0 }
{
    match *change {
        Change::Block { .. } => 1,
        _ => 0,
    }
}
