//! Counts that writers shift.
use crate::writers::{Call, check};
use rows_model::{Kind, QKey};

const KEY: QKey = QKey {
    kind: Kind::NFriends,
    id: 7,
};

/// A count, by how much it is shifted, and the answer to a get after it.
const SHIFTS: [(&str, i32, &str); 12] = [
    ("3", 0, "hit 3 6"),
    ("3", -2, "hit 1 6"),
    ("3", -4, "hit 0 6"),
    ("99", 1, "hit 100 6"),
    ("9999999999999999999", 1, "hit 10000000000000000000 6"),
    ("18446744073709551615", 1, "hit 0 6"),
    ("18446744073709551610", 10, "hit 4 6"),
    ("18446744073709551616", 1, "lease 3"),
    ("99999999999999999999", 1, "lease 3"),
    ("", 1, "lease 3"),
    ("03", 1, "lease 3"),
    ("x", 1, "lease 3"),
];

#[test]
fn shifts_the_numbers_of_counts_alone(rt: HostRuntime) {
    for (text, by, want) in SHIFTS.iter() {
        let calls = [
            (Call::IqDelta(*by), "granted 2"),
            (Call::CommitDelta(6), "released"),
            (Call::Get(6), *want),
        ];
        check(&rt, rt.alloc(), KEY, text, &calls);
    }
}
