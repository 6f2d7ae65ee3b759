use run_inputs::WorkSpec;
use run_words::{Conns, Words, WordsFault, read_words};
use sql_keeper::Place;
use std::alloc::{AllocError, Global};
use std::process::Abort;
use std::test::Fail;

/// The words of a line, between single spaces.
pub fn words_of(alloc: Global, line: &str) -> Result<Vec<Vec<u8>>, AllocError> {
    let mut words = Vec::new(alloc);
    for word in line.split(' ') {
        words.push(Vec::from_slice(alloc, word.as_bytes())?)?;
    }
    Ok(words)
}

// The words that name a place, behind a space.
fn place_text(alloc: Global, place: &Place) -> Result<String, AllocError> {
    match place {
        Place::Fresh => Ok(String::new(alloc)),
        Place::File { path } => format!(in alloc;
            " --db {}",
            String::from_utf8_lossy(alloc, path.bytes())?
        ),
    }
}

// The words that name the file of a cache, behind a space.
fn warm_text(alloc: Global, warm: &Option<Vec<u8>>) -> Result<String, AllocError> {
    match warm {
        None => Ok(String::new(alloc)),
        Some(path) => format!(in alloc;
            " --warm {}",
            String::from_utf8_lossy(alloc, path.as_slice())?
        ),
    }
}

// The word for how many connections are served.
fn conns_text(alloc: Global, conns: Conns) -> Result<String, AllocError> {
    match conns {
        Conns::Number(count) => format!(in alloc; "{count}"),
        Conns::Forever => format!(in alloc; "forever"),
    }
}

// The words of a load, behind the command's name.
fn load_text(
    alloc: Global,
    name: &str,
    place: &Place,
    spec: &WorkSpec,
) -> Result<String, AllocError> {
    format!(in alloc;
        "{name}{} {} {} {} {} {}",
        place_text(alloc, place)?,
        spec.members,
        spec.sessions,
        spec.workers,
        spec.shards,
        spec.seed
    )
}

// What is read of words, as one line: the command with its place, the file of its cache and its
// numbers, the text, or the fault.
fn words_text(alloc: Global, words: &[Vec<u8>]) -> Result<String, AllocError> {
    match read_words(alloc, words) {
        Ok(Words::Replay { place }) => format!(in alloc; "replay{}", place_text(alloc, &place)?),
        Ok(Words::Work { place, spec }) => load_text(alloc, "work", &place, &spec),
        Ok(Words::Warm { place, spec }) => load_text(alloc, "warm", &place, &spec),
        Ok(Words::Serve { place, spec }) => format!(in alloc;
            "serve{}{} {} {} {} {} {}",
            place_text(alloc, &place)?,
            warm_text(alloc, &spec.warm)?,
            String::from_utf8_lossy(alloc, spec.addr.as_slice())?,
            conns_text(alloc, spec.conns)?,
            spec.workers,
            spec.shards,
            spec.members
        ),
        Ok(Words::Page { text }) => format!(in alloc;
            "told {}",
            String::from_utf8_lossy(alloc, text.as_slice())?
        ),
        Err(WordsFault::Usage) => format!(in alloc; "usage"),
        Err(WordsFault::Memory) => format!(in alloc; "memory"),
    }
}

/// What is read of the words of a line.
fn line_text(rt: &impl Abort, alloc: Global, line: &str) -> String {
    let words = words_of(alloc, line).expect(rt, "memory");
    words_text(alloc, &words).expect(rt, "memory")
}

/// This is read of the words of a line.
fn reads(rt: &impl Abort, alloc: Global, line: &str, want: &str) {
    let text = line_text(rt, alloc, line);
    assert!(rt; text.as_str() == want, "at {line:?}");
}

/// Lines that are read as they stand.
const COMMANDS: [&str; 19] = [
    "replay",
    "work 1 0 1 1 0",
    "work 100000 500000 1024 64 18446744073709551615",
    "work 1000 20000 4 8 1",
    "warm 1000 20000 4 8 1",
    "serve 127.0.0.1:0 1 1 1 1",
    "serve localhost:11211 1000000 1024 64 100000",
    "serve é 7 6 5 4",
    "serve help 1 2 3 4",
    "serve 127.0.0.1:7000 forever 4 8 1000",
    "serve --db /a.db forever forever 1 1 1",
    "replay --db a.db",
    "replay --db data/é.db",
    "work --db a.db 3 10 2 1 7",
    "warm --db a.db 3 10 2 1 7",
    "serve --db /a.db a:1 1 2 3 4",
    "serve --db serve serve 1 2 3 4",
    "serve --warm c.iq a:1 1 2 3 4",
    "serve --db a.db --warm data/é.iq a:1 1 2 3 4",
];

#[test]
fn commands_are_read_as_they_stand(rt: HostRuntime) {
    for line in COMMANDS.iter() {
        reads(&rt, rt.alloc(), line, line);
    }
}

/// Lines that are no command's.
const NONE: [&str; 69] = [
    "",
    "play",
    "Replay",
    "replay x",
    "replay --fast",
    "work",
    "work 3 10 2 1",
    "work 3 10 2 1 7 1",
    "work 0 10 2 1 7",
    "work 100001 10 2 1 7",
    "work 3 500001 2 1 7",
    "work 3 10 0 1 7",
    "work 3 10 1025 1 7",
    "work 3 10 2 0 7",
    "work 3 10 2 65 7",
    "work 3 10 2 1 18446744073709551616",
    "work 03 10 2 1 7",
    "work +3 10 2 1 7",
    "work 3 10 2 1 -7",
    "work a:1 3 10 2 1",
    "warm",
    "warm 3 10 2 1 7 1",
    "warm work 3 10 2 1 7",
    "serve",
    "serve a:1 1 1 1",
    "serve a:1 1 1 1 1 1",
    "serve  1 1 1 1",
    "serve -a 1 1 1 1",
    "serve -- -a 1 1 1 1",
    "serve a:1 0 1 1 1",
    "serve a:1 1000001 1 1 1",
    "serve a:1 1 0 1 1",
    "serve a:1 1 1025 1 1",
    "serve a:1 1 1 0 1",
    "serve a:1 1 1 65 1",
    "serve a:1 1 1 1 0",
    "serve a:1 1 1 1 100001",
    "serve a:1 01 1 1 1",
    "serve a:1 Forever 1 1 1",
    "serve a:1 forever1 1 1 1",
    "serve a:1 1 forever 1 1",
    "serve a:1 forever",
    "serve a:1 +1 1 1 1",
    "serve a:1 1 1 1 4294967297",
    "-- replay",
    "work --version",
    "help me",
    "--db a.db",
    "--db a.db replay",
    "replay --db",
    "replay --db ",
    "replay --db=",
    "replay --db -a",
    "replay --db --",
    "replay --db a.db x",
    "replay --db a.db --db a.db",
    "work --db 3 10 2 1 7",
    "work 3 10 --db a.db 2 1 7",
    "serve a:1 1 2 3 4 --db",
    "serve --warm c.iq a:1 forever 2 3 4",
    "serve --warm  a:1 1 2 3 4",
    "serve --warm= a:1 1 2 3 4",
    "serve --warm -c a:1 1 2 3 4",
    "serve --warm=-c a:1 1 2 3 4",
    "serve --warm c.iq --warm c.iq a:1 1 2 3 4",
    "serve a:1 1 2 3 4 --warm",
    "work --warm c.iq 3 10 2 1 7",
    "warm --warm c.iq 3 10 2 1 7",
    "replay --warm c.iq",
];

#[test]
fn other_lines_are_no_commands(rt: HostRuntime) {
    for line in NONE.iter() {
        reads(&rt, rt.alloc(), line, "usage");
    }
}

/// Words of which one isn't UTF-8.
const BYTES: [&[u8]; 6] = [b"serve", b"\xff", b"1", b"1", b"1", b"1"];

/// Words that name such a file.
const FILE: [&[u8]; 3] = [b"replay", b"--db", b"\xff"];

#[test]
fn other_words_are_no_commands(rt: HostRuntime) -> Result<(), Fail> {
    let mut words = Vec::new(rt.alloc());
    assert!(rt; words_text(rt.alloc(), &words)?.as_str() == "usage");
    for word in BYTES.iter() {
        words.push(Vec::from_slice(rt.alloc(), word)?)?;
    }
    assert!(rt; words_text(rt.alloc(), &words)?.as_str() == "usage");
    words.clear();
    for word in FILE.iter() {
        words.push(Vec::from_slice(rt.alloc(), word)?)?;
    }
    assert!(rt; words_text(rt.alloc(), &words)?.as_str() == "usage");
    Ok(())
}

/// Lines with two hyphens, or with options that stand elsewhere, and what is read of them.
const HYPHENS: [(&str, &str); 12] = [
    ("replay --", "replay"),
    ("work -- 3 10 2 1 7", "work 3 10 2 1 7"),
    ("work 3 10 -- 2 1 7", "work 3 10 2 1 7"),
    ("serve a:1 1 2 3 4 --", "serve a:1 1 2 3 4"),
    ("replay --db=a.db", "replay --db a.db"),
    ("replay --db a.db --", "replay --db a.db"),
    ("work --db a=b -- 3 10 2 1 7", "work --db a=b 3 10 2 1 7"),
    ("work 3 10 2 1 7 --db a.db", "work --db a.db 3 10 2 1 7"),
    ("serve a:1 1 2 3 4 --db=a.db", "serve --db a.db a:1 1 2 3 4"),
    (
        "serve --warm c.iq --db a.db a:1 1 2 3 4",
        "serve --db a.db --warm c.iq a:1 1 2 3 4",
    ),
    (
        "serve --db a.db a:1 1 2 3 4 --warm c.iq",
        "serve --db a.db --warm c.iq a:1 1 2 3 4",
    ),
    (
        "serve --warm=c.iq a:1 1 2 3 4",
        "serve --warm c.iq a:1 1 2 3 4",
    ),
];

#[test]
fn two_hyphens_are_passed_over_and_options_stand_anywhere(rt: HostRuntime) {
    for (line, want) in HYPHENS.iter() {
        reads(&rt, rt.alloc(), line, want);
    }
}

/// Lines that ask for a text, and what stands in it.
const TEXTS: [(&str, &str); 7] = [
    ("--help", "Usage: iq <COMMAND>"),
    ("-h", "Usage: iq <COMMAND>"),
    ("help", "Usage: iq <COMMAND>"),
    (
        "work --help",
        "<members> <sessions> <workers> <shards> <seed>",
    ),
    ("replay --help", "--db <path>"),
    ("help serve", "<addr> <conns> <workers> <shards> <members>"),
    (
        "serve --help",
        "      --db <path>    Keeps the rows in this SQLite file\n      --warm <path>  Takes the cache over from this file, and writes it there at the end\n",
    ),
];

/// A text is told, and this stands in it.
fn tells(rt: &impl Abort, alloc: Global, line: &str, want: &str) {
    let text = line_text(rt, alloc, line);
    assert!(rt; text.as_str().starts_with("told "), "at {line:?}");
    assert!(rt; text.as_str().contains(want), "at {line:?}: {text}");
}

#[test]
fn texts_are_told(rt: HostRuntime) {
    for line in ["--version", "-V"].iter() {
        reads(&rt, rt.alloc(), line, "told iq 0.1.0\n");
    }
    for (line, want) in TEXTS.iter() {
        tells(&rt, rt.alloc(), line, want);
    }
}
