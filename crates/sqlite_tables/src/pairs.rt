ghost use Rattle.std.specs.Prelude.{◌≡◌, ◌++◌, [], ◌∷◌, pos, map, IfOk, IfSome, OnOk};
ghost use Rattle.sqlite.specs.declared.types.Value.TheVariants.{Int};
ghost use Rattle.sqlite.specs.Order.{column};
ghost use Rattle.sqlite_tables.specs.Lists.{state_number, pair_values};

use crate::faults::fault_of;
use rows_model::Memory;
use sql_keeper::KeepFault;
use sqlite::Row;
use std::alloc::Global;

/// How two ids are paired.
#[derive(Clone, Copy)]
pub enum PairState {
    /// The first has invited the second, who hasn't answered.
    Pending,
    /// The two are friends, and the first is the smaller id.
    Friend,
    /// The first has blocked the second.
    Block,
}

/// A row of the links: two ids, and how they are paired.
#[derive(Clone, Copy)]
pub struct Pair {
    pub a: u32,
    pub b: u32,
    pub state: PairState,
}

impl PairState {
    /// The number that stands for the state in the table.
    pub fn number(self) -> u32
        ensures { result ≡ state_number self }
    {
        match self {
            PairState::Pending => 0,
            PairState::Friend => 1,
            PairState::Block => 2,
        }
    }

    // The state that a number stands for.
    pub(crate) fn of(number: u32) -> Option<PairState>
        ensures { IfSome result (λ state. number ≡ state_number state) }
    {
        match number {
            0 => Some(PairState::Pending),
            1 => Some(PairState::Friend),
            2 => Some(PairState::Block),
            _ => None,
        }
    }
}

// The number in a column.
pub(crate) fn number_at(row: &Row, at: usize) -> Result<u32, KeepFault>
    ensures { IfOk result (λ number. column row.now at ≡ Int (pos number)) }
{
    match row.get(at) {
        Ok(number) => Ok(number),
        Err(error) => Err(fault_of(error)),
    }
}

// The pair whose values these are.
fn pair_in(row: &Row) -> Result<Pair, KeepFault>
    ensures { (pair : _) → row.now ≡ pair_values pair → IfOk result (λ found. found ≡ pair) }
{
    let a = number_at(row, 0)?;
    let b = number_at(row, 1)?;
    match PairState::of(number_at(row, 2)?) {
        Some(state) => Ok(Pair { a, b, state }),
        None => Err(KeepFault::Failed),
    }
}

pub(crate) fn push(pairs: &mut Vec<Pair>, pair: Pair) -> Result<(), Memory>
    ensures { OnOk result (pairs.new.items ≡ pairs.old.items ++ pair ∷ []) }
{
    pairs.push(pair)?;
    Ok(())
}

// The pairs whose values these are.
pub(crate) fn pairs_in(alloc: Global, rows: &[Row]) -> Result<Vec<Pair>, KeepFault>
    ensures { (pairs : _) → rows.now ≡ map pair_values pairs
        → IfOk result (λ found. found.items ≡ pairs) }
{
    let mut pairs = Vec::new(alloc);
    for row in rows {
        push(&mut pairs, pair_in(row)?)?;
    }
    Ok(pairs)
}
