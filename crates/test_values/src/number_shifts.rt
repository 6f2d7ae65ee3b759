//! A number in decimal, moved by another.
use rows_model::shift;

/// A text, by how much it is moved, and the number that it becomes.
const SHIFTS: [(&str, i32, Option<u64>); 20] = [
    ("0", 0, Some(0)),
    ("0", -1, Some(0)),
    ("3", -4, Some(0)),
    ("10", -4, Some(6)),
    ("99", 1, Some(100)),
    ("18446744073709551615", 0, Some(18_446_744_073_709_551_615)),
    ("18446744073709551615", 1, Some(0)),
    ("18446744073709551615", 8, Some(7)),
    ("18446744073709551616", 0, None),
    ("99999999999999999999", 0, None),
    ("", 0, None),
    ("00", 0, None),
    ("01", 0, None),
    ("-1", 0, None),
    ("+1", 0, None),
    ("a", 0, None),
    (" 1", 0, None),
    ("1 ", 0, None),
    ("1a", 0, None),
    ("1\u{e9}", 0, None),
];

#[test]
fn shifts_numbers_alone(rt: HostRuntime) {
    for (text, by, want) in SHIFTS.iter() {
        assert!(rt; shift(text.as_bytes(), *by) == *want, "at {text:?} by {by}");
    }
}
