use crate::lines::{Patient, failing_line};
use crate::test_desk::TestDesk;
use conn_server::{LineEnd, serve_line};
use plain_ops::Plain;
use std::alloc::{AllocError, Global};
use std::test::Fail;

/// Each of these is a key, and its item is this letter, 5,000 times.
const KEYS: &[u8] = b"abcdefghijklmnopqrst";

/// All of them, one that has no item, and one once more.
const GET: &[u8] = b"get a b c d e f g h i j z k l m n o p q r s t a\r\n";

/// A block of an item's bytes, with these words before and behind the key.
fn push_block(
    all: &mut Vec<u8>,
    alloc: Global,
    front: &[u8],
    key: u8,
    behind: &[u8],
) -> Result<(), AllocError> {
    all.extend_from_slice(front)?;
    all.push(key)?;
    all.extend_from_slice(behind)?;
    let block = vec![in alloc; key; 5000]?;
    all.extend_from_slice(&block)?;
    all.extend_from_slice(b"\r\n")
}

/// Each key's item is stored.
fn sets(alloc: Global) -> Result<Vec<u8>, AllocError> {
    let mut all = Vec::new(alloc);
    for key in KEYS {
        push_block(&mut all, alloc, b"set ", *key, b" 0 0 5000 noreply\r\n")?;
    }
    Ok(all)
}

/// What is told of `GET`: 21 items of 5,018 bytes each, and the line behind them.
fn items(alloc: Global) -> Result<Vec<u8>, AllocError> {
    let mut all = Vec::new(alloc);
    for key in KEYS {
        push_block(&mut all, alloc, b"VALUE ", *key, b" 0 5000\r\n")?;
    }
    push_block(&mut all, alloc, b"VALUE ", b'a', b" 0 5000\r\n")?;
    all.extend_from_slice(b"END\r\n")?;
    Ok(all)
}

/// A map in which each key has its item.
fn full_map(alloc: Global) -> Result<Plain, Fail> {
    let mut plain = Plain::new(alloc, 1);
    let mut desk = TestDesk::new(alloc, &[])?;
    let said = sets(alloc)?;
    let mut line = failing_line(alloc, &said, (65536, 65536), &[], &[])?;
    let _ = serve_line(alloc, &mut line, &mut desk, &mut plain);
    Ok(plain)
}

/// How many bytes a write takes at most.
const PIECES: [usize; 4] = [65536, 40000, 5018, 77];

#[test]
fn a_long_reply_is_written_item_by_item(rt: HostRuntime) -> Result<(), Fail> {
    let mut plain = full_map(rt.alloc())?;
    let want = items(rt.alloc())?;
    for piece in PIECES.iter() {
        assert!(&rt; 1 <= *piece);
        let mut desk = TestDesk::new(rt.alloc(), &[])?;
        let mut line = Patient::new(failing_line(rt.alloc(), GET, (4096, *piece), &[], &[])?, 1);
        let end = serve_line(rt.alloc(), &mut line, &mut desk, &mut plain);
        assert!(&rt; end == LineEnd::Closed { left: 0 });
        assert!(&rt; line.taken() == want.as_slice());
        // 14 items are more than 64 KiB, and 13 aren't.
        assert!(&rt; line.most() == 70252);
    }
    Ok(())
}

/// A write that fails, of those that take 40,000 bytes at most, and how many bytes were taken before it.
const FAILS: [(u64, usize); 4] = [(1, 0), (2, 40000), (3, 70252), (4, 105383)];

#[test]
fn a_write_that_fails_leaves_the_first_part(rt: HostRuntime) -> Result<(), Fail> {
    let mut plain = full_map(rt.alloc())?;
    let want = items(rt.alloc())?;
    for (write, taken) in FAILS.iter() {
        let mut desk = TestDesk::new(rt.alloc(), &[])?;
        let mut line = failing_line(rt.alloc(), GET, (4096, 40000), &[], &[*write])?;
        let end = serve_line(rt.alloc(), &mut line, &mut desk, &mut plain);
        assert!(&rt; line.taken().len() == *taken);
        assert!(&rt; want.starts_with(line.taken()));
        assert!(&rt; (end == LineEnd::WriteFault) == (*taken < want.len()));
    }
    Ok(())
}
