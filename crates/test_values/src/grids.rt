//! Rows of the grid of verdicts.
ghost use Rattle.std.specs.Prelude.{◌<◌};

use case_tables::{Verdict, lease_grid};

/// The letters that a row is written with.
fn letter(verdict: Verdict) -> u8 {
    match verdict {
        Verdict::Give => b'g',
        Verdict::Wait => b'w',
        Verdict::Void => b'v',
        Verdict::Join => b'j',
        Verdict::Same => b's',
        Verdict::Own => b'o',
        Verdict::Refuse => b'r',
        Verdict::Raise => b'^',
        Verdict::Gone => b'-',
    }
}

fn row(number: usize) -> [u8; 5]
    requires { number < 9 }
{
    let grid = lease_grid();
    let at = |column: usize| letter(grid.at(number, column));
    [at(0), at(1), at(2), at(3), at(4)]
}

#[test]
fn answers_each_column_of_some_rows(rt: HostRuntime) {
    assert!(rt; row(0) == *b"gggg-", "nothing stands");
    assert!(rt; row(1) == *b"wvvv-", "a lease");
    assert!(rt; row(2) == *b"wjrr-", "others' invalidates");
    assert!(rt; row(5) == *b"osrr^", "an own invalidate");
    assert!(rt; row(6) == *b"orsr-", "an own refresh");
    assert!(rt; row(8) == *b"osrrr", "an own invalidate beside others'");
}
