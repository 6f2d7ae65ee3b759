ghost use Rattle.std.specs.Prelude.{◌≡◌, ◌<◌, Some};
ghost use Rattle.case_tables.specs.Compatibility.{Holding, Request, verdict, is_given, row_of, column_of, cell};

use std::marker::Model;

/// The answer to a request for a lease.
#[derive(Clone, Copy)]
pub enum Verdict {
    /// The lease is given, and nothing stood in its way.
    Give,
    /// A lease to read isn't given now: another lease stands on the key.
    Wait,
    /// The quarantine is given, and the unexpired lease to read ends.
    Void,
    /// The quarantine is given beside those of other sessions.
    Join,
    /// The asker holds this quarantine already.
    Same,
    /// The asker of a lease to read holds a quarantine on the key.
    Own,
    /// The quarantine isn't given, or isn't raised: others stand in the way.
    Refuse,
    /// The quarantine to invalidate becomes one to refresh.
    Raise,
    /// The asker holds no quarantine that it could raise.
    Gone,
}

impl Verdict {
    /// Whether the lease that was asked for is given.
    pub fn is_given(self) -> bool
        ensures { result ≡ is_given self }
    {
        match self {
            Verdict::Give | Verdict::Void | Verdict::Join => true,
            Verdict::Wait
            | Verdict::Same
            | Verdict::Own
            | Verdict::Refuse
            | Verdict::Raise
            | Verdict::Gone => false,
        }
    }
}

/// A table of verdicts with `R` rows and `C` columns. Contracts see its rows, each the list of its
/// cells.
#[derive(Drop)]
pub struct Grid<const R: usize, const C: usize> {
    cells: [[Verdict; C]; R],
}

impl<const R: usize, const C: usize> Model for Grid<R, C> {
    ghost use Rattle.std.specs.Prelude.{List, IsTrue, length, ◌==◌};
    ghost use Rattle.std.specs.List.{list_all};
    ghost use Rattle.case_tables.specs.declared.grids.Verdict.{Verdict};

    ghost Value = { List (List Verdict) };

    ghost view = { λ grid. grid.cells };

    ghost invariant = { λ grid. IsTrue (list_all (λ row. length row == C) grid.cells) };
}

impl<const R: usize, const C: usize> Grid<R, C> {
    /// The verdict in row `r` and column `c`, both counted from 0.
    pub fn at(&self, r: usize, c: usize) -> Verdict
        requires row { r < R }
        requires column { c < C }
        ensures { cell self.now r c ≡ Some result }
    {
        self.cells[r][c]
    }
}

/// Writes out the cells, a row in each pair of brackets.
macro_rules! cells {
    ($([$($verdict:ident)*])*) => { [$([$(Verdict::$verdict),*]),*] };
}

/// The verdict on each request, whatever stands on the key. The columns are a lease to read, a
/// quarantine to invalidate, to refresh and to shift by a delta, and to raise a quarantine.
pub fn lease_grid() -> Grid<9, 5>
    ensures { (holding : Holding) (request : Request)
        → cell result (row_of holding) (column_of request) ≡ Some (verdict holding request) }
{
    Grid {
        cells: cells! {
            [Give Give Give Give Gone] // nothing
            [Wait Void Void Void Gone] // an unexpired lease to read
            [Wait Join Refuse Refuse Gone] // others' quarantines to invalidate, alone
            [Wait Refuse Refuse Refuse Gone] // another's quarantine to refresh
            [Wait Refuse Refuse Refuse Gone] // another's quarantine to shift
            [Own Same Refuse Refuse Raise] // an own quarantine to invalidate, alone
            [Own Refuse Same Refuse Gone] // an own quarantine to refresh
            [Own Refuse Refuse Same Gone] // an own quarantine to shift
            [Own Same Refuse Refuse Refuse] // an own quarantine to invalidate, beside others'
        },
    }
}
