//! The file in memory, with ample memory.
use cache_file::{CacheFile, MemFile};
use iq_outside::ReadStop;
use std::alloc::Global;
use std::process::Abort;

/// A copy of these bytes.
fn copy(rt: &impl Abort, alloc: Global, bytes: &[u8]) -> Vec<u8> {
    match Vec::from_slice(alloc, bytes) {
        Ok(copy) => copy,
        Err(_) => panic!(rt; "no memory"),
    }
}

/// Tests what the file at a path has.
fn has(rt: &impl Abort, alloc: Global, file: &mut MemFile, path: &[u8], want: Option<&[u8]>) {
    match file.read(alloc, path) {
        Ok(Some(text)) => assert!(rt; want == Some(text.as_slice())),
        Ok(None) => assert!(rt; want.is_none()),
        Err(_) => panic!(rt; "not read"),
    }
}

#[test]
fn gives_back_what_was_written(rt: HostRuntime) {
    let alloc = rt.alloc();
    let mut file = MemFile::new(copy(&rt, alloc, b"a"), None, Vec::new(alloc));
    has(&rt, alloc, &mut file, b"a", None);
    assert!(rt; file.write(alloc, b"a", b"one").is_ok());
    has(&rt, alloc, &mut file, b"a", Some(b"one"));
    has(&rt, alloc, &mut file, b"b", None);
    assert!(rt; file.text() == Some(b"one") && file.faults() == 0);
}

#[test]
fn fails_at_the_calls_that_it_was_told(rt: HostRuntime) {
    let alloc = rt.alloc();
    let mut fails = Vec::new(alloc);
    if fails.push(1).is_err() || fails.push(2).is_err() {
        panic!(rt; "no memory");
    }
    let text = copy(&rt, alloc, b"one");
    let mut file = MemFile::new(copy(&rt, alloc, b"a"), Some(text), fails);
    assert!(rt; matches!(file.read(alloc, b"a"), Err(ReadStop::Failed)));
    assert!(rt; file.write(alloc, b"a", b"two").is_err());
    assert!(rt; file.write(alloc, b"b", b"two").is_err());
    assert!(rt; file.text() == Some(b"one") && file.faults() == 3);
}
