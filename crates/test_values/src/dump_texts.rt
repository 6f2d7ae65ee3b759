//! Which texts are dumps, and where the others are wrong.
use crate::dump_helps::{new_shard, profile, read, says, store};
use rows_model::QKey;
use shard_dump::{DumpFault, dump, read_dump};
use std::alloc::Global;
use std::process::Abort;

/// Compares the place at which a text is wrong first.
fn is_bad_at(rt: &impl Abort, alloc: Global, text: &[u8], want: u64) {
    match read_dump(alloc, text) {
        Err(DumpFault::Bad { place }) => assert!(rt; place == want, "{place}, not {want}"),
        _ => panic!(rt; "not bad at {want}"),
    }
}

const TEXT: &[u8] = b"iqdump 1 0 1 1\nprofile:3 6\nm3 0 0\nend\n";

#[test]
fn reads_a_text_and_none_of_its_fronts(rt: HostRuntime) {
    says(&rt, &read(&rt, rt.alloc(), TEXT), 0, 1, &[(3, "m3 0 0")]);
    for long in 0..TEXT.len() {
        let place = if long < 15 {
            0
        } else if long < 34 {
            15
        } else {
            34
        };
        is_bad_at(&rt, rt.alloc(), &TEXT[..long], place);
    }
}

/// Texts that are no dump, and where each is wrong first.
const BAD: [(&[u8], u64); 33] = [
    (b"iqdump 1 0 1 1\nprofile:3 9\nm3 0 0\nend\n", 15),
    (b"iqdump 1 0 1 1\nprofile:3 5\nm3 0 0\nend\n", 15),
    (b"iqdump 1 0 1 1\nprofile:3 06\nm3 0 0\nend\n", 15),
    (b"iqdump 1 0 1 1\nprofile:3  6\nm3 0 0\nend\n", 15),
    (b"iqdump 1 0 1 1\nprofile:3 6 \nm3 0 0\nend\n", 15),
    (b"iqdump 1 0 1 1\nprofile:3 6\r\nm3 0 0\r\nend\n", 15),
    (b"iqdump 1 0 1 1\nprofile:3 +6\nm3 0 0\nend\n", 15),
    (b"iqdump 1 0 1 1\nprofile:0 6\nm0 0 0\nend\n", 15),
    (b"iqdump 1 0 1 1\nprofile:03 6\nm3 0 0\nend\n", 15),
    (b"iqdump 1 0 1 1\nprofile:4294967296 1\nx\nend\n", 15),
    (b"iqdump 1 0 1 1\nProfile:3 6\nm3 0 0\nend\n", 15),
    (b"iqdump 1 0 1 1\n profile:3 6\nm3 0 0\nend\n", 15),
    (b"iqdump 1 0 1 1\nend\n", 15),
    (b"iqdump 1 0 1 1\nprofile:3 6\nm3 0 0\nEnd\n", 34),
    (b"iqdump 1 0 1 1\nprofile:3 6\nm3 0 0\nend", 34),
    (
        b"iqdump 1 0 1 1\nprofile:3 6\nm3 0 0\nprofile:4 6\nm4 0 0\nend\n",
        34,
    ),
    (b"iqdump 1 0 1 1\nprofile:3 6\nm3 0 0\nend\n\n", 38),
    (b"iqdump 1 0 1 1\nprofile:3 6\nm3 0 0\nend\nx", 38),
    (b"iqdump 1 0 1 2\nprofile:3 6\nm3 0 0\nend\n", 34),
    (
        b"iqdump 1 0 1 2\nprofile:3 6\nm3 0 0\nprofile:3 6\nm3 0 0\nend\n",
        34,
    ),
    (b"iqdump 1 0 2 1\nprofile:3 6\nm3 0 0\nend\n", 15),
    (
        b"iqdump 1 1 2 2\nprofile:3 6\nm3 0 0\nprofile:2 6\nm2 0 0\nend\n",
        34,
    ),
    (b"iqdump 1 0 1 0\nprofile:3 6\nm3 0 0\nend\n", 15),
    (b"iqdump 1 1 1 0\nend\n", 0),
    (b"iqdump 1 0 0 0\nend\n", 0),
    (b"iqdump 1 0 65 0\nend\n", 0),
    (b"iqdump 1 0 1 65537\nend\n", 0),
    (b"iqdump 1 00 1 0\nend\n", 0),
    (b"iqdump 1  0 1 0\nend\n", 0),
    (b"iqdump 1 0 1 0 \nend\n", 0),
    (b"iqdump 2 0 1 0\nend\n", 0),
    (b" iqdump 1 0 1 0\nend\n", 0),
    (b"", 0),
];

#[test]
fn tells_where_a_text_is_wrong_first(rt: HostRuntime) {
    for (text, place) in BAD.iter() {
        is_bad_at(&rt, rt.alloc(), text, *place);
    }
}

#[test]
fn reads_texts_with_few_and_many_shards(rt: HostRuntime) {
    says(
        &rt,
        &read(&rt, rt.alloc(), b"iqdump 1 63 64 0\nend\n"),
        63,
        64,
        &[],
    );
    let two = b"iqdump 1 1 2 2\nprofile:3 0\n\nprofile:1 4\na\nb \nend\n";
    says(
        &rt,
        &read(&rt, rt.alloc(), two),
        1,
        2,
        &[(3, ""), (1, "a\nb ")],
    );
}

/// The text of one row whose value has so many bytes.
fn long_text(alloc: Global, head: &[u8], bytes: usize) -> Option<Vec<u8>> {
    let mut text = Vec::from_slice(alloc, head).ok()?;
    for _ in 0..bytes {
        text.push(b'x').ok()?;
    }
    text.extend_from_slice(b"\nend\n").ok()?;
    Some(text)
}

#[test]
fn reads_no_value_that_is_too_long(rt: HostRuntime) {
    match long_text(
        rt.alloc(),
        b"iqdump 1 0 1 1\nprofile:1 1048576\n",
        1_048_576,
    ) {
        Some(text) => {
            let said = read(&rt, rt.alloc(), &text);
            assert!(rt; said.rows.as_slice().len() == 1);
        }
        None => panic!(rt; "no memory"),
    }
    match long_text(
        rt.alloc(),
        b"iqdump 1 0 1 1\nprofile:1 1048577\n",
        1_048_577,
    ) {
        Some(text) => is_bad_at(&rt, rt.alloc(), &text, 15),
        None => panic!(rt; "no memory"),
    }
}

#[test]
fn writes_the_least_recent_entry_first(rt: HostRuntime) {
    let mut shard = new_shard(&rt, rt.alloc(), 0, 1, 1);
    let nobody = QKey {
        id: 0,
        ..profile(1)
    };
    store(&rt, rt.alloc(), &mut shard, profile(1), "a", 5);
    store(&rt, rt.alloc(), &mut shard, profile(3), "b b", 5);
    store(&rt, rt.alloc(), &mut shard, nobody, "c", 5);
    match dump(rt.alloc(), &shard, &[]) {
        Ok(text) => {
            let want = b"iqdump 1 0 1 2\nprofile:1 1\na\nprofile:3 3\nb b\nend\n";
            assert!(rt; text.as_slice() == want.as_slice());
        }
        Err(_) => panic!(rt; "no memory"),
    }
}
