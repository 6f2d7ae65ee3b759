// Servers whose cache lies in a file while they don't run.
use crate::outsides::{keeper, no_file, still_clock, unread_outside, words_of};
use cache_file::MemFile;
use callers::runs;
use iq_outside::{ListDoor, MemLine, MemSink, MemSource, OpenGate};
use sql_keeper::MapKeeper;
use std::alloc::Global;
use std::sync::Wait;
use std::test::Fail;
use std::thread::Threads;
use top_run::Status;

/// What a reader says who stores what the store answers.
const STORES: &[u8] =
    b"begin read\r\niqget profile:2 1 0\r\nask profile:2 1\r\niqset profile:2 0 0 6 1 0\r\nm2 0 0\r\nquit\r\n";

/// What it is told.
const STORED: &[u8] =
    b"SESSION 1\r\nLEASE 1\r\nVALUE profile:2 0 6 0\r\nm2 0 0\r\nEND\r\nSTORED\r\n";

/// What a reader says who only gets.
const GETS: &[u8] = b"begin read\r\niqget profile:2 1 0\r\nquit\r\n";

/// What it is told where there is no entry.
const LEASED: &[u8] = b"SESSION 1\r\nLEASE 1\r\n";

/// What a reader says who gets behind the session that loaded the entries of the one shard.
const GETS_WARM: &[u8] = b"begin read\r\niqget profile:2 2 0\r\nquit\r\n";

/// What it is told of an entry.
const HIT: &[u8] = b"SESSION 2\r\nVALUE profile:2 0 6 0\r\nm2 0 0\r\nEND\r\n";

/// The text of a cache of one shard that has this entry, and no other.
const SAVED: &[u8] =
    b"iqcache 1 1 bc01f71f4f2770ec77bd2b070d5c82ea220515b666ea9a17db9f2f13928dcb86\n38\niqdump 1 0 1 1\nprofile:2 6\nm2 0 0\nend\n";

/// A text from which a server of one shard over three new members takes nothing over, and what it prints.
struct Refused {
    text: &'static [u8],
    printed: &'static [u8],
}

/// What is printed beside the text of no cache of one shard.
const NO_CACHE: &[u8] = b"cold no cache\nready\nserved 1\n";

/// The text of no cache; the one above with a byte less, and with another byte; of a cache with a value that is
/// wrong, and of one with two shards.
const REFUSED: [Refused; 5] = [
    Refused {
        text: b"",
        printed: NO_CACHE,
    },
    Refused {
        text: b"iqcache 1 1 bc01f71f4f2770ec77bd2b070d5c82ea220515b666ea9a17db9f2f13928dcb86\n38\niqdump 1 0 1 1\nprofile:2 6\nm2 0 0\nend",
        printed: NO_CACHE,
    },
    Refused {
        text: b"iqcache 1 1 bc01f71f4f2770ec77bd2b070d5c82ea220515b666ea9a17db9f2f13928dcb86\n38\niqdump 1 0 1 1\nprofile:2 6\nm3 0 0\nend\n",
        printed: NO_CACHE,
    },
    Refused {
        text: b"iqcache 1 1 d2ae76ecf9e00ad476d863a8a38271a56e14091fdba35f5fb685b109b9bb3377\n38\niqdump 1 0 1 1\nprofile:2 6\nm9 0 0\nend\n",
        printed: b"cold other rows\nready\nserved 1\n",
    },
    Refused {
        text: b"iqcache 1 2 aee15946f846c4cf36f11ff29dd325a5c1dd72fe2affcbf27126c745e34d5802\n38\niqdump 1 0 2 1\nprofile:2 6\nm2 0 0\nend\n19\niqdump 1 1 2 0\nend\n",
        printed: NO_CACHE,
    },
];

/// A client: what it says, and what it must be told.
#[derive(Clone, Copy)]
struct Client<'a> {
    says: &'a [u8],
    told: &'a [u8],
}

/// A file at the path `cache` that has this text, and fails at these calls. A server's read is the first one, and
/// its write the second.
fn file_with(alloc: Global, text: &[u8], fails: Vec<u64>) -> Result<MemFile, Fail> {
    let path = Vec::from_slice(alloc, b"cache")?;
    let text = Vec::from_slice(alloc, text)?;
    Ok(MemFile::new(path, Some(text), fails))
}

/// A door of one connection that sends this.
fn door_of(alloc: Global, says: &[u8]) -> Result<ListDoor, Fail> {
    let source = MemSource::new(Vec::from_slice(alloc, says)?, 64, Vec::new(alloc));
    let sink = MemSink::new(alloc, 256, 64, Vec::new(alloc))?;
    let mut lines = Vec::new(alloc);
    lines.push(MemLine::new(source, sink))?;
    Ok(ListDoor::new(alloc, lines, Vec::new(alloc))?)
}

/// How a server over this file ends that serves this client, if it prints this and the client is told what it must
/// be. Its keeper fails at no call.
fn ended(
    rt: &(impl Threads + Wait + Sync),
    alloc: Global,
    file: &mut MemFile,
    client: Client<'_>,
    printed: &[u8],
) -> Result<Option<Status>, Fail> {
    ended_over(rt, alloc, keeper(alloc), file, client, printed)
}

/// The same over this keeper.
fn ended_over(
    rt: &(impl Threads + Wait + Sync),
    alloc: Global,
    keeper: MapKeeper,
    file: &mut MemFile,
    client: Client<'_>,
    printed: &[u8],
) -> Result<Option<Status>, Fail> {
    let words = words_of(alloc, "serve --warm cache x 1 1 1 3")?;
    let mut door = door_of(alloc, client.says)?;
    let mut outside = unread_outside(alloc)?;
    let clock = still_clock(alloc)?;
    let end = runs::run_saving_server(
        rt,
        alloc,
        words.as_slice(),
        &mut outside.source,
        &mut outside.sink,
        keeper,
        file,
        &mut door,
        &clock,
        &OpenGate,
    );
    let is_told = door.closed().iter().all(|line| line.taken() == client.told);
    if is_told && outside.sink.taken() == printed {
        return Ok(Some(end.status));
    }
    Ok(None)
}

#[test]
fn a_server_takes_over_what_the_one_before_it_saved(rt: HostRuntime) -> Result<(), Fail> {
    let first = Client {
        says: STORES,
        told: STORED,
    };
    let second = Client {
        says: GETS_WARM,
        told: HIT,
    };
    let mut file = no_file(rt.alloc())?;
    let end = ended(
        &rt,
        rt.alloc(),
        &mut file,
        first,
        b"cold no file\nready\nserved 1\n",
    )?;
    assert!(rt; end == Some(Status::Done));
    assert!(rt; file.text() == Some(SAVED));
    let end = ended(
        &rt,
        rt.alloc(),
        &mut file,
        second,
        b"warm 1\nready\nserved 1\n",
    )?;
    assert!(rt; end == Some(Status::Done));
    Ok(())
}

/// Whether a server takes nothing over from a file with this text, and says why.
fn is_cold(
    rt: &(impl Threads + Wait + Sync),
    alloc: Global,
    refused: &Refused,
) -> Result<bool, Fail> {
    let mut file = file_with(alloc, refused.text, Vec::new(alloc))?;
    let client = Client {
        says: GETS,
        told: LEASED,
    };
    let end = ended(rt, alloc, &mut file, client, refused.printed)?;
    Ok(end == Some(Status::Done))
}

#[test]
fn a_server_takes_nothing_over_from_a_text_that_is_not_right(rt: HostRuntime) -> Result<(), Fail> {
    for refused in REFUSED.iter() {
        assert!(rt; is_cold(&rt, rt.alloc(), refused)?);
    }
    Ok(())
}

#[test]
fn a_file_that_cannot_be_written_is_told_and_stays_as_it_was(rt: HostRuntime) -> Result<(), Fail> {
    let alloc = rt.alloc();
    let mut fails = Vec::new(alloc);
    fails.push(2)?;
    let mut file = file_with(alloc, b"old", fails)?;
    let client = Client {
        says: STORES,
        told: STORED,
    };
    let end = ended(&rt, alloc, &mut file, client, NO_CACHE)?;
    assert!(rt; end == Some(Status::FileFault));
    assert!(rt; file.text() == Some(b"old".as_slice()));
    Ok(())
}

#[test]
fn a_store_that_fails_at_the_end_is_told_and_the_file_stays(rt: HostRuntime) -> Result<(), Fail> {
    let alloc = rt.alloc();
    // The start is the first call of the keeper, the client's the second.
    let mut fails = Vec::new(alloc);
    fails.push(3)?;
    let mut file = file_with(alloc, b"old", Vec::new(alloc))?;
    let client = Client {
        says: STORES,
        told: STORED,
    };
    let keeper = MapKeeper::new(fails);
    let end = ended_over(&rt, alloc, keeper, &mut file, client, NO_CACHE)?;
    assert!(rt; end == Some(Status::KeepFault));
    assert!(rt; file.text() == Some(b"old".as_slice()));
    Ok(())
}
