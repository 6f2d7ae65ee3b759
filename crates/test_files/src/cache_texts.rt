//! Which texts are caches.
use cache_file::{CacheFault, cache_text, read_cache};
use rows_model::{Kind, QKey};
use shard_dump::Dump;
use std::alloc::Global;
use std::process::Abort;

const FIRST: &[u8] = b"iqdump 1 0 2 1\nprofile:2 6\nm2 0 0\nend\n";

const SECOND: &[u8] = b"iqdump 1 1 2 1\nprofile:3 6\nm3 0 0\nend\n";

const TEXT: &[u8] =
    b"iqcache 1 2 ece7d675c6eb6fc1cbd9622b5f788d86510b5fa72359d13b223e951b7c48338e\n38\niqdump 1 0 2 1\nprofile:2 6\nm2 0 0\nend\n38\niqdump 1 1 2 1\nprofile:3 6\nm3 0 0\nend\n";

/// Whether a dump has one row, of the profile with this id.
fn has_one(dump: &Dump, shard: u32, id: u32, value: &[u8]) -> bool {
    let key = QKey {
        kind: Kind::Profile,
        id,
    };
    match dump.rows.as_slice() {
        [row] => dump.shard == shard && row.key == key && row.value.bytes() == value,
        _ => false,
    }
}

/// Tests that this is the text of the two dumps.
fn says_both(rt: &impl Abort, alloc: Global, text: &[u8]) {
    match read_cache(alloc, text, 2) {
        Ok(dumps) => match dumps.as_slice() {
            [first, second] => {
                assert!(rt; has_one(first, 0, 2, b"m2 0 0"));
                assert!(rt; has_one(second, 1, 3, b"m3 0 0"));
            }
            _ => panic!(rt; "{} dumps", dumps.len()),
        },
        Err(_) => panic!(rt; "not read"),
    }
}

/// Tests that this is the text of no cache of so many shards.
fn is_bad(rt: &impl Abort, alloc: Global, text: &[u8], count: u32) {
    match read_cache(alloc, text, count) {
        Err(CacheFault::Bad) => {}
        Err(CacheFault::Memory) => panic!(rt; "no memory"),
        Ok(_) => panic!(rt; "read"),
    }
}

#[test]
fn reads_a_text_and_none_of_its_fronts(rt: HostRuntime) {
    says_both(&rt, rt.alloc(), TEXT);
    for long in 0..TEXT.len() {
        is_bad(&rt, rt.alloc(), &TEXT[..long], 2);
    }
}

#[test]
fn reads_no_text_of_another_number_of_shards(rt: HostRuntime) {
    is_bad(&rt, rt.alloc(), TEXT, 0);
    is_bad(&rt, rt.alloc(), TEXT, 1);
    is_bad(&rt, rt.alloc(), TEXT, 3);
}

/// The text with the byte at this place changed.
fn changed(alloc: Global, place: usize) -> Option<Vec<u8>> {
    let mut text = Vec::from_slice(alloc, TEXT).ok()?;
    *text.get_mut(place)? ^= 1;
    Some(text)
}

#[test]
fn reads_no_text_with_a_byte_changed(rt: HostRuntime) {
    for place in 0..TEXT.len() {
        match changed(rt.alloc(), place) {
            Some(text) => is_bad(&rt, rt.alloc(), text.as_slice(), 2),
            None => panic!(rt; "no memory"),
        }
    }
}

/// Texts whose digest is right, and which are none of two shards all the same: a byte behind the end, the
/// dumps in the other order, one of them alone, a length with a zero in front, and one too small.
const BAD: [&[u8]; 5] = [
    b"iqcache 1 2 78373a70d6dc4fbc699ed8474790c3ae55dba2c7916f22a64e24107c1080895a\n38\niqdump 1 0 2 1\nprofile:2 6\nm2 0 0\nend\n38\niqdump 1 1 2 1\nprofile:3 6\nm3 0 0\nend\n\n",
    b"iqcache 1 2 86a3a3ed424c231e30ba7786e3384f1e2283d663246f0f855dc5bbb369e0962a\n38\niqdump 1 1 2 1\nprofile:3 6\nm3 0 0\nend\n38\niqdump 1 0 2 1\nprofile:2 6\nm2 0 0\nend\n",
    b"iqcache 1 2 fac9a0db6de36f450afb8d7b78e2e4383907e3eaefaf52a0cfcd85b9e50ef235\n38\niqdump 1 0 2 1\nprofile:2 6\nm2 0 0\nend\n",
    b"iqcache 1 2 44aa29c93f16e7a89333d694146a044d2d35ae50a4c93cb48d1aea1ccfa4a5f7\n38\niqdump 1 0 2 1\nprofile:2 6\nm2 0 0\nend\n038\niqdump 1 1 2 1\nprofile:3 6\nm3 0 0\nend\n",
    b"iqcache 1 2 9cbe3e631466f47f16406cb079118b29bd490a138b80554e352125976dd3620e\n37\niqdump 1 0 2 1\nprofile:2 6\nm2 0 0\nend\n38\niqdump 1 1 2 1\nprofile:3 6\nm3 0 0\nend\n",
];

#[test]
fn reads_no_other_body_under_its_digest(rt: HostRuntime) {
    for text in BAD.iter() {
        is_bad(&rt, rt.alloc(), text, 2);
    }
}

/// The two dumps' texts.
fn both(alloc: Global) -> Option<Vec<Vec<u8>>> {
    let mut texts = Vec::new(alloc);
    texts.push(Vec::from_slice(alloc, FIRST).ok()?).ok()?;
    texts.push(Vec::from_slice(alloc, SECOND).ok()?).ok()?;
    Some(texts)
}

#[test]
fn writes_the_text(rt: HostRuntime) {
    match both(rt.alloc()) {
        Some(texts) => match cache_text(rt.alloc(), texts.as_slice()) {
            Ok(text) => assert!(rt; text.as_slice() == TEXT),
            Err(_) => panic!(rt; "no memory"),
        },
        None => panic!(rt; "no memory"),
    }
}
