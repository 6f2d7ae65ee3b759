//! The texts of keys, and names.
use rows_model::{Kind, Name, QKey};
use std::alloc::Global;
use std::process::Abort;

/// Compares the key's text.
fn is_written(rt: &impl Abort, alloc: Global, key: QKey, want: &str) {
    match key.text(alloc) {
        Ok(text) => assert!(rt; text.bytes() == want.as_bytes(), "at {want}"),
        Err(_) => panic!(rt; "no memory"),
    }
}

/// The texts of keys, and the kind and the id that each says.
const KEYS: [(&str, Kind, u32); 6] = [
    ("profile:1", Kind::Profile, 1),
    ("friends:2", Kind::Friends, 2),
    ("pending:30", Kind::Pending, 30),
    ("nfriends:100000", Kind::NFriends, 100_000),
    ("npending:4294967295", Kind::NPending, 4_294_967_295),
    ("blocked:7", Kind::Blocked, 7),
];

/// Texts that are no key's.
const NO_KEYS: [&str; 20] = [
    "npending:4294967296",
    "profile:99999999999999999999",
    "profile:0",
    "profile:01",
    "profile:+1",
    "profile:-1",
    "profile: 1",
    "profile:1 ",
    "profile:1:",
    "profile:",
    "profile",
    "",
    ":",
    ":1",
    "Profile:1",
    "profiles:1",
    "friend:1",
    "nprofile:1",
    "nblocked:1",
    "block:1",
];

#[test]
fn reads_the_texts_of_keys_alone(rt: HostRuntime) {
    for (text, kind, id) in KEYS.iter() {
        let key = QKey {
            kind: *kind,
            id: *id,
        };
        assert!(rt; QKey::parse(text.as_bytes()) == Some(key), "at {text}");
        is_written(&rt, rt.alloc(), key, text);
    }
    for text in NO_KEYS.iter() {
        assert!(rt; QKey::parse(text.as_bytes()) == None, "at {text}");
    }
}

#[test]
fn writes_the_id_0_and_reads_none(rt: HostRuntime) {
    let key = QKey {
        kind: Kind::Friends,
        id: 0,
    };
    is_written(&rt, rt.alloc(), key, "friends:0");
    assert!(rt; QKey::parse(b"friends:0") == None);
}

const NAMES: [(&str, bool); 10] = [
    ("", false),
    ("a", true),
    ("!~", true),
    ("0123456789012345678901234567890123456789", true),
    ("01234567890123456789012345678901234567890", false),
    ("a b", false),
    (" ", false),
    ("a\x7f", false),
    ("a\n", false),
    ("\u{e9}", false),
];

/// Compares whether the text is a name, which then has the bytes of the text.
fn is_name(rt: &impl Abort, text: &str, want: bool) {
    match Name::of(text.as_bytes()) {
        Some(name) => assert!(rt; want && name.bytes() == text.as_bytes(), "at {text:?}"),
        None => assert!(rt; !want, "at {text:?}"),
    }
}

#[test]
fn names_are_printable_and_short(rt: HostRuntime) {
    for (text, want) in NAMES.iter() {
        is_name(&rt, text, *want);
    }
}
