//! What transactions make of old values.
use crate::txns::{txn_of, value_of};
use rows_model::{Kind, QKey, Value, refresh};
use std::alloc::Global;
use std::process::Abort;

/// Whether the value has this text, or the text is `none` and there is no value.
fn is_text(value: &Option<Value>, want: &str) -> bool {
    match value {
        Some(value) => value.bytes() == want.as_bytes(),
        None => want == "none",
    }
}

/// Compares what the changes make of the old value of member 7's key: a text, or none.
fn refreshes(rt: &impl Abort, alloc: Global, kind: Kind, changes: &str, old: &str, want: &str) {
    let txn = txn_of(rt, alloc, changes);
    let value = value_of(rt, alloc, old);
    match refresh(alloc, &QKey { kind, id: 7 }, &value, &txn) {
        Ok(new) => assert!(rt; is_text(&new, want), "{changes} at {old:?}"),
        Err(_) => panic!(rt; "no memory"),
    }
}

/// The changes, the old profile and the new one.
const PROFILES: [(&str, &str, &str); 11] = [
    ("invite 3 7", "m7 0 0", "m7 0 1"),
    ("invite 3 7", "m7 4294967295 0", "m7 4294967295 1"),
    ("invite 3 7", "-", "none"),
    ("accept 3 7", "m7 9 10", "m7 10 9"),
    ("accept 3 7", "m7 1 0", "none"),
    ("accept 3 7", "m7 4294967295 1", "none"),
    ("reject 3 7", "m7 2 1", "m7 2 0"),
    ("thaw 3 7,invite 3 7", "m7 1 5", "m7 0 6"),
    ("accept 7 7", "m7 1 1", "m7 2 0"),
    ("rename 7 ann", "m7 3 4", "ann 3 4"),
    ("rename 7 ann", "-", "none"),
];

#[test]
fn refreshes_profiles(rt: HostRuntime) {
    for (changes, old, want) in PROFILES.iter() {
        refreshes(&rt, rt.alloc(), Kind::Profile, changes, old, want);
    }
}

/// The kind, the changes, the old list and the new one.
const LISTS: [(Kind, &str, &str, &str); 17] = [
    (Kind::Friends, "accept 3 7", "", "3"),
    (Kind::Friends, "accept 3 7", "0", "0,3"),
    (Kind::Friends, "accept 3 7", "2,10", "2,3,10"),
    (Kind::Friends, "accept 3 7", "3", "none"),
    (Kind::Friends, "accept 7 7", "1", "1,7"),
    (Kind::Friends, "thaw 3 7", "2,3,10", "2,10"),
    (Kind::Friends, "thaw 3 7", "2,10", "none"),
    (Kind::Pending, "invite 3 7", "4294967295", "3,4294967295"),
    (Kind::Pending, "invite 3 7", "3", "none"),
    (Kind::Pending, "reject 3 7", "3", ""),
    (Kind::Pending, "reject 3 7", "", "none"),
    (Kind::Pending, "accept 3 7,invite 3 7", "3", "3"),
    (Kind::Pending, "block 7 3,block 3 7", "2", "2"),
    (Kind::Blocked, "block 7 3", "2,10", "2,3,10"),
    (Kind::Blocked, "block 7 3", "3", "none"),
    (Kind::Blocked, "block 3 7", "3", "3"),
    (Kind::Blocked, "block 7 3,invite 7 9,block 7 1", "", "1,3"),
];

#[test]
fn refreshes_lists(rt: HostRuntime) {
    for (kind, changes, old, want) in LISTS.iter() {
        refreshes(&rt, rt.alloc(), *kind, changes, old, want);
    }
}

/// The kind, the changes, the old count and the new one.
const COUNTS: [(Kind, &str, &str, &str); 11] = [
    (Kind::NFriends, "accept 3 7", "9", "10"),
    (Kind::NFriends, "accept 3 7", "4294967295", "none"),
    (Kind::NFriends, "accept 7 7,invite 3 7", "1", "2"),
    (Kind::NFriends, "thaw 3 7,accept 3 7", "1", "1"),
    (Kind::NFriends, "thaw 3 7,accept 3 7", "0", "none"),
    (Kind::NFriends, "thaw 3 7", "10", "9"),
    (Kind::NFriends, "thaw 3 7", "0", "none"),
    (Kind::NPending, "invite 3 7", "4294967294", "4294967295"),
    (Kind::NPending, "invite 3 7", "4294967295", "none"),
    (Kind::NPending, "reject 3 7", "1", "0"),
    (Kind::NPending, "reject 3 7", "0", "none"),
];

#[test]
fn refreshes_counts(rt: HostRuntime) {
    for (kind, changes, old, want) in COUNTS.iter() {
        refreshes(&rt, rt.alloc(), *kind, changes, old, want);
    }
}

/// Old values of the key of a kind, and whether they are of its form, so that they stay.
const FORMS: [(Kind, &str, bool); 37] = [
    (Kind::Profile, "-", true),
    (Kind::Profile, "- 1 1", true),
    (Kind::Profile, "m7 1", false),
    (Kind::Profile, "m7 1 1 ", false),
    (Kind::Profile, "m7 01 1", false),
    (Kind::Profile, "m7 4294967296 1", false),
    (Kind::Profile, " 1 1", false),
    (Kind::Profile, "\u{e9} 1 1", false),
    (Kind::Profile, "", false),
    (Kind::Profile, "--", false),
    (Kind::Friends, "", true),
    (Kind::Friends, "0,1,20", true),
    (Kind::Friends, "2,1", false),
    (Kind::Friends, "1,1", false),
    (Kind::Friends, "1,", false),
    (Kind::Friends, ",", false),
    (Kind::Friends, "1, 2", false),
    (Kind::Friends, "4294967296", false),
    (Kind::Pending, "", true),
    (Kind::Pending, "0,1,20", true),
    (Kind::Pending, "2,1", false),
    (Kind::Pending, "1,1", false),
    (Kind::Pending, "1,", false),
    (Kind::Pending, ",", false),
    (Kind::Pending, "1, 2", false),
    (Kind::Pending, "4294967296", false),
    (Kind::NFriends, "0", true),
    (Kind::NFriends, "", false),
    (Kind::NFriends, "00", false),
    (Kind::NFriends, "4294967296", false),
    (Kind::NPending, "0", true),
    (Kind::NPending, "", false),
    (Kind::NPending, "00", false),
    (Kind::NPending, "4294967296", false),
    (Kind::Blocked, "0,1,20", true),
    (Kind::Blocked, "2,1", false),
    (Kind::Blocked, "4294967296", false),
];

/// The value of member 7's key stays as it is after changes of others, where it is of its form.
#[test]
fn refreshes_only_values_of_the_form(rt: HostRuntime) {
    for (kind, old, stays) in FORMS.iter() {
        let want = if *stays { *old } else { "none" };
        refreshes(&rt, rt.alloc(), *kind, "thaw 8 9", old, want);
    }
}
