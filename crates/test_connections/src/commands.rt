use lease_table::Mode;
use mc_text::{Command, FrameFault, Framer, LineReply, reply_text, write_reply};
use rows_model::{Kind, Memory, QKey, Sid, Value};
use std::alloc::{AllocError, Global};
use std::process::Abort;
use std::test::Fail;

/// The word of a command.
fn verb_of(command: &Command) -> &'static str {
    match command {
        Command::Begin { .. } => "begin",
        Command::IqGet { .. } => "iqget",
        Command::Ask { .. } => "ask",
        Command::Stage { .. } => "stage",
        Command::IqSet { .. } => "iqset",
        Command::QaReg { .. } => "qareg",
        Command::QaRead { .. } => "qaread",
        Command::IqDelta { .. } => "iqdelta",
        Command::Sql { .. } => "sql",
        Command::Dar { .. } => "dar",
        Command::Sar { .. } => "sar",
        Command::IqCommit { .. } => "iqcommit",
        Command::IqAbort { .. } => "iqabort",
        Command::Quit => "quit",
        Command::Unknown => "unknown",
    }
}

/// The word that a command has for a key, which may be no key of the cache.
fn key_of(command: &Command) -> Option<Option<QKey>> {
    match command {
        Command::IqGet { key, .. }
        | Command::Ask { key, .. }
        | Command::Stage { key, .. }
        | Command::IqSet { key, .. }
        | Command::QaReg { key, .. }
        | Command::QaRead { key, .. }
        | Command::IqDelta { key, .. }
        | Command::Dar { key, .. }
        | Command::Sar { key, .. }
        | Command::IqCommit { key, .. } => Some(*key),
        Command::Begin { .. }
        | Command::Sql { .. }
        | Command::IqAbort { .. }
        | Command::Quit
        | Command::Unknown => None,
    }
}

/// The flags and the time of expiry of a block.
fn flags_of(command: &Command) -> Option<(u32, u64)> {
    match command {
        Command::IqSet { flags, exptime, .. } | Command::Sar { flags, exptime, .. } => {
            Some((*flags, *exptime))
        }
        _ => None,
    }
}

/// The session that a command names.
fn sid_of(command: &Command) -> Option<u64> {
    match command {
        Command::IqGet { sid, .. }
        | Command::Ask { sid, .. }
        | Command::Stage { sid, .. }
        | Command::QaReg { sid, .. }
        | Command::QaRead { sid, .. }
        | Command::IqDelta { sid, .. }
        | Command::Sql { sid, .. }
        | Command::Dar { sid, .. }
        | Command::Sar { sid, .. }
        | Command::IqCommit { sid, .. }
        | Command::IqAbort { sid } => Some(sid.number),
        Command::Begin { .. } | Command::IqSet { .. } | Command::Quit | Command::Unknown => None,
    }
}

/// What stands behind the key and the session of a command.
fn rest_text(alloc: Global, command: &Command) -> Result<String, AllocError> {
    match command {
        Command::Begin { role } => format!(in alloc; " {role:?}"),
        Command::IqGet { floor, .. } => format!(in alloc; " {floor}"),
        Command::IqDelta { by, .. } => format!(in alloc; " {by}"),
        Command::Stage { txn, .. } | Command::Sql { txn, .. } => {
            format!(in alloc; " changes {}", txn.changes().len())
        }
        Command::IqSet {
            token,
            stamp,
            bytes,
            ..
        } => format!(in alloc; " {token} {stamp} {bytes}"),
        Command::Sar { bytes, .. } => format!(in alloc; " {bytes}"),
        _ => Ok(String::new(alloc)),
    }
}

/// The block of a command.
fn block_of(command: &Command) -> Option<&Value> {
    match command {
        Command::IqSet { block, .. } | Command::Sar { block, .. } => Some(block),
        _ => None,
    }
}

/// A command in words: its verb, its key, its numbers, and its block in brackets.
fn command_text(alloc: Global, command: &Command) -> Result<String, Memory> {
    let mut text = String::from_str(alloc, verb_of(command))?;
    match key_of(command) {
        Some(Some(key)) => {
            text.push_str(" ")?;
            text.push_str(String::from_utf8_lossy(alloc, key.text(alloc)?.bytes())?.as_str())?;
        }
        Some(None) => text.push_str(" none")?,
        None => {}
    }
    if let Some((flags, exptime)) = flags_of(command) {
        text.push_str(format!(in alloc; " {flags} {exptime}")?.as_str())?;
    }
    if let Some(sid) = sid_of(command) {
        text.push_str(format!(in alloc; " {sid}")?.as_str())?;
    }
    text.push_str(rest_text(alloc, command)?.as_str())?;
    if let Some(block) = block_of(command) {
        text.push_str(" [")?;
        text.push_str(String::from_utf8_lossy(alloc, block.bytes())?.as_str())?;
        text.push_str("]")?;
    }
    Ok(text)
}

// Tells what a framer answers, each with a semicolon behind it, until it needs more bytes or tells a
// fault that lasts, which is told once.
fn tell_answers(alloc: Global, framer: &mut Framer, its_text: &mut String) -> Result<(), Memory> {
    for _ in 0..100 {
        match framer.next_command() {
            Ok(Some(command)) => its_text.push_str(command_text(alloc, &command)?.as_str())?,
            Ok(None) => return Ok(()),
            Err(FrameFault::BadLine { place }) => {
                its_text.push_str(format!(in alloc; "bad line {place}")?.as_str())?;
            }
            Err(fault) => {
                let text = format!(in alloc; "{fault:?};")?;
                if !its_text.as_str().ends_with(text.as_str()) {
                    its_text.push_str(text.as_str())?;
                }
                return Ok(());
            }
        }
        its_text.push_str(";")?;
    }
    Ok(())
}

// What a framer answers to a stream that comes in pieces of so many bytes, and how many bytes are
// left; each piece is told of before the next is fed.
fn stream_text(alloc: Global, stream: &[u8], piece: usize) -> Result<String, Memory> {
    let mut framer = Framer::new(alloc);
    let mut text = String::new(alloc);
    for part in stream.chunks(piece.max(1)) {
        framer.feed(part)?;
        tell_answers(alloc, &mut framer, &mut text)?;
    }
    text.push_str(format!(in alloc; "left {}", framer.left())?.as_str())?;
    Ok(text)
}

/// A framer answers this to a stream in pieces of so many bytes.
fn answers(rt: &impl Abort, alloc: Global, stream: &[u8], piece: usize, want: &str) {
    let text = stream_text(alloc, stream, piece).expect(rt, "memory");
    assert!(rt;
        text.as_str() == want,
        "{text} in pieces of {piece}, and not {want}"
    );
}

/// The same in pieces of any size.
fn answers_in_pieces(rt: &impl Abort, alloc: Global, stream: &[u8], want: &str) {
    for piece in 1..stream.len() + 2 {
        answers(rt, alloc, stream, piece, want);
    }
}

/// A framer answers what stands beside each stream, whatever the pieces.
fn answers_all(rt: &impl Abort, alloc: Global, table: &[(&str, &str)]) {
    for (text, want) in table.iter() {
        answers_in_pieces(rt, alloc, text.as_bytes(), want);
    }
}

/// Streams of commands, and what a framer answers.
const COMMANDS: &[(&str, &str)] = &[
    // A conversation, and a block that doesn't end where it should.
    (
        "begin read\r\niqget profile:2 1 0\r\nask profile:2 1\r\niqset profile:2 0 0 6 1 0\r\nm2 0 0\r\niqget profile:2 1 0\r\nquit\r\n",
        "begin Read;iqget profile:2 1 0;ask profile:2 1;iqset profile:2 0 0 1 0 6 [m2 0 0];iqget profile:2 1 0;quit;left 0",
    ),
    (
        "begin read\r\niqget profile:2 1 0\r\nask profile:2 1\r\niqset profile:2 0 0 6 1 0\r\nm2 0 0XXiqget profile:2 1 0\r\nquit\r\n",
        "begin Read;iqget profile:2 1 0;ask profile:2 1;BadBlock { place: 50 };left 62",
    ),
    // Each command.
    ("begin write\r\n", "begin Write;left 0"),
    (
        "iqget friends:7 2 18446744073709551615\r\n",
        "iqget friends:7 2 18446744073709551615;left 0",
    ),
    (
        "stage pending:2 3 invite 1 2 + rename 4294967295 x\r\n",
        "stage pending:2 3 changes 2;left 0",
    ),
    (
        "iqset nfriends:1 4294967295 5 0 18446744073709551615 9\r\n\r\n",
        "iqset nfriends:1 4294967295 5 18446744073709551615 9 0 [];left 0",
    ),
    ("qareg npending:2 4\r\n", "qareg npending:2 4;left 0"),
    ("qaread profile:2 4\r\n", "qaread profile:2 4;left 0"),
    (
        "iqdelta npending:2 4 -1\r\n",
        "iqdelta npending:2 4 -1;left 0",
    ),
    (
        "sql 4 accept 1 2 + reject 3 4 + thaw 5 6\r\n",
        "sql 4 changes 3;left 0",
    ),
    ("dar profile:2 4\r\n", "dar profile:2 4;left 0"),
    (
        "sar profile:2 1 2 3 4\r\na\r\n\r\n",
        "sar profile:2 1 2 4 3 [a\r\n];left 0",
    ),
    ("iqcommit npending:2 4\r\n", "iqcommit npending:2 4;left 0"),
    ("iqabort 4\r\n", "iqabort 4;left 0"),
    // Spaces in front, between and behind.
    (
        "  iqget   profile:2  1 0  \r\n",
        "iqget profile:2 1 0;left 0",
    ),
    (
        " sql 1   rename  1  +   +  thaw 1 2 \r\n",
        "sql 1 changes 2;left 0",
    ),
    (" quit \r\n", "quit;left 0"),
];

#[test]
fn each_command_is_framed(rt: HostRuntime) {
    answers_all(&rt, rt.alloc(), COMMANDS);
}

/// Unknown lines, and numbers up to their ends.
const NUMBERS: &[(&str, &str)] = &[
    // Lines that are unknown.
    ("\r\n", "unknown;left 0"),
    ("   \r\n", "unknown;left 0"),
    (
        "get a\r\nIQGET profile:2 1 0\r\nquit\t\r\nquitx\r\n",
        "unknown;unknown;unknown;unknown;left 0",
    ),
    ("\nquit\r\n\0\r\n", "unknown;unknown;left 0"),
    // Numbers: 1 to 20 digits, and their ends.
    (
        "iqabort 00000000000000000001\r\niqabort 0\r\n",
        "iqabort 1;iqabort 0;left 0",
    ),
    ("iqabort 000000000000000000001\r\n", "bad line 0;left 0"),
    (
        "iqabort 18446744073709551615\r\niqabort 18446744073709551616\r\n",
        "iqabort 18446744073709551615;bad line 30;left 0",
    ),
    (
        "iqabort 99999999999999999999\r\niqabort +1\r\niqabort -1\r\niqabort 1x\r\n",
        "bad line 0;bad line 30;bad line 42;bad line 54;left 0",
    ),
    (
        "iqset profile:2 4294967296 0 1 1 1\r\n",
        "bad line 0;left 0",
    ),
    (
        "iqdelta nfriends:1 1 2147483647\r\niqdelta nfriends:1 1 -2147483648\r\n",
        "iqdelta nfriends:1 1 2147483647;iqdelta nfriends:1 1 -2147483648;left 0",
    ),
    (
        "iqdelta nfriends:1 1 2147483648\r\niqdelta nfriends:1 1 -2147483649\r\n",
        "bad line 0;bad line 33;left 0",
    ),
    (
        "iqdelta nfriends:1 1 -0\r\niqdelta nfriends:1 1 007\r\niqdelta nfriends:1 1 -00000000000000000007\r\n",
        "iqdelta nfriends:1 1 0;iqdelta nfriends:1 1 7;iqdelta nfriends:1 1 -7;left 0",
    ),
    (
        "iqdelta nfriends:1 1 -\r\niqdelta nfriends:1 1 --1\r\niqdelta nfriends:1 1 +1\r\n",
        "bad line 0;bad line 24;bad line 50;left 0",
    ),
];

#[test]
fn numbers_are_read_to_their_ends(rt: HostRuntime) {
    answers_all(&rt, rt.alloc(), NUMBERS);
}

/// Keys, and lines with too few or too many words.
const LINES: &[(&str, &str)] = &[
    // Keys: of the cache, others, and words that are none.
    (
        "ask a 1\r\nask profile:0 1\r\nask profile:01 1\r\nask \u{e9} 1\r\n",
        "ask none 1;ask none 1;ask none 1;ask none 1;left 0",
    ),
    (
        "ask a\u{7f} 1\r\nask \u{1} 1\r\nask a\tb 1\r\nask a\nb 1\r\n",
        "bad line 0;bad line 10;bad line 19;bad line 30;left 0",
    ),
    // Lines with too few or too many words, or another word.
    (
        "begin\r\nbegin reads\r\nbegin read write\r\nbegin READ\r\n",
        "bad line 0;bad line 7;bad line 20;bad line 38;left 0",
    ),
    (
        "iqget profile:2 1\r\niqget profile:2 1 0 0\r\niqget\r\n",
        "bad line 0;bad line 19;bad line 42;left 0",
    ),
    (
        "ask profile:2\r\nask profile:2 1 1\r\nask 1 profile:2\r\n",
        "bad line 0;bad line 15;bad line 34;left 0",
    ),
    (
        "stage profile:2 1\r\nstage profile:2 invite 1 2\r\nstage 1 invite 1 2\r\n",
        "bad line 0;bad line 19;bad line 47;left 0",
    ),
    (
        "iqset profile:2 0 0 1 1\r\niqset profile:2 0 0 1 1 1 noreply\r\n",
        "bad line 0;bad line 25;left 0",
    ),
    (
        "qareg profile:2\r\nqareg profile:2 1 1\r\nqaread profile:2\r\nqaread profile:2 x\r\n",
        "bad line 0;bad line 17;bad line 38;bad line 56;left 0",
    ),
    (
        "iqdelta nfriends:1 1\r\niqdelta nfriends:1 1 1 1\r\n",
        "bad line 0;bad line 22;left 0",
    ),
    (
        "dar profile:2\r\ndar profile:2 1 noreply\r\n",
        "bad line 0;bad line 15;left 0",
    ),
    (
        "sar profile:2 0 0 1\r\nsar profile:2 0 0 1 1 1\r\n",
        "bad line 0;bad line 21;left 0",
    ),
    (
        "iqcommit profile:2\r\niqcommit profile:2 1 1\r\n",
        "bad line 0;bad line 20;left 0",
    ),
    (
        "iqabort\r\niqabort 1 1\r\nquit 1\r\n",
        "bad line 0;bad line 9;bad line 22;left 0",
    ),
];

#[test]
fn lines_of_another_form_are_told(rt: HostRuntime) {
    answers_all(&rt, rt.alloc(), LINES);
}

/// Transactions, ends of lines and blocks.
const BLOCKS: &[(&str, &str)] = &[
    // Transactions.
    (
        "sql 1\r\nsql 1 +\r\nsql 1 invite 1 2 +\r\nsql 1 invite 1\r\n",
        "bad line 0;bad line 7;bad line 16;bad line 36;left 0",
    ),
    (
        "sql 1 rename 01 x\r\nsql 1 invite 0 1\r\nsql 1 invite 1 4294967296\r\n",
        "bad line 0;bad line 19;bad line 37;left 0",
    ),
    (
        "sql 1 invite 1 2 thaw 1 2\r\nsql 1 befriend 1 2\r\nsql 1 Invite 1 2\r\n",
        "bad line 0;bad line 27;bad line 47;left 0",
    ),
    (
        "sql 1 thaw 1 2 + thaw 1 2 + thaw 1 2 + thaw 1 2 + thaw 1 2 + thaw 1 2 + thaw 1 2 + thaw 1 2\r\n",
        "sql 1 changes 8;left 0",
    ),
    (
        "sql 1 thaw 1 2 + thaw 1 2 + thaw 1 2 + thaw 1 2 + thaw 1 2 + thaw 1 2 + thaw 1 2 + thaw 1 2 + thaw 1 2\r\n",
        "bad line 0;left 0",
    ),
    (
        "sql 1 rename 1 0123456789012345678901234567890123456789\r\nsql 1 rename 1 01234567890123456789012345678901234567890\r\n",
        "sql 1 changes 1;bad line 57;left 0",
    ),
    // Line ends: only the first CR LF is one.
    ("quit\r", "left 5"),
    ("quit\n", "left 5"),
    (
        "quit\r\r\nquit\n\r\nquit\r\n",
        "unknown;unknown;quit;left 0",
    ),
    ("", "left 0"),
    ("iqget profile:2 1 0", "left 19"),
    // Blocks: all there, and then CR LF; the line of a bad line is taken alone.
    ("sar profile:2 0 0 2 1\r\nab", "left 25"),
    ("sar profile:2 0 0 2 1\r\nab\r", "left 26"),
    ("sar profile:2 0 0 2 1\r\nabX", "left 26"),
    (
        "quit\r\nsar profile:2 0 0 2 1\r\nabc\r\nquit\r\n",
        "quit;BadBlock { place: 6 };left 34",
    ),
    (
        "sar profile:2 0 0 1048577 1\r\nab\r\nquit\r\n",
        "BigBlock { place: 0 };left 39",
    ),
    (
        "sar profile:2 0 0 1048577 x\r\nab\r\nquit\r\n",
        "bad line 0;unknown;quit;left 0",
    ),
];

#[test]
fn transactions_and_blocks_are_framed(rt: HostRuntime) {
    answers_all(&rt, rt.alloc(), BLOCKS);
}

// A text, so many bytes of this value, and a text behind them.
fn padded(
    alloc: Global,
    head: &str,
    byte: u8,
    count: usize,
    behind: &str,
) -> Result<Vec<u8>, AllocError> {
    let fill = vec![in alloc; byte; count]?;
    let mut text = Vec::from_slice(alloc, head.as_bytes())?;
    text.extend_from_slice(fill.as_slice())?;
    text.extend_from_slice(behind.as_bytes())?;
    Ok(text)
}

/// Long streams: a text, so many bytes of a value, a text behind them, and what a framer answers.
const LONG: &[(&str, u8, usize, &str, &str)] = &[
    ("", b'a', 2048, "\r\n", "unknown;left 0"),
    ("", b'a', 2049, "", "left 2049"),
    ("", b'a', 2048, "\r", "left 2049"),
    ("", b'a', 2049, "\r", "LongLine { place: 0 };left 2050"),
    ("", b'a', 2049, "\r\n", "LongLine { place: 0 };left 2051"),
    ("", b'a', 2050, "", "LongLine { place: 0 };left 2050"),
    (
        "quit\r\n",
        b'a',
        2048,
        "\r\nquit\r\n",
        "quit;unknown;quit;left 0",
    ),
    (
        "quit\r\n",
        b'a',
        2050,
        "\r\nquit\r\n",
        "quit;LongLine { place: 6 };left 2058",
    ),
    ("quit", b' ', 2044, "\r\n", "quit;left 0"),
    (
        "quit",
        b' ',
        2045,
        "\r\n",
        "LongLine { place: 0 };left 2051",
    ),
    ("ask ", b'a', 250, " 1\r\n", "ask none 1;left 0"),
    ("ask ", b'a', 251, " 1\r\n", "bad line 0;left 0"),
    (
        "iqset profile:2 0 0 1048576 1 0\r\n",
        b'a',
        3,
        "",
        "left 36",
    ),
    (
        "iqset profile:2 0 0 1048577 1 0\r\n",
        b'a',
        3,
        "",
        "BigBlock { place: 0 };left 36",
    ),
];

#[test]
fn lines_and_keys_and_blocks_are_bounded(rt: HostRuntime) -> Result<(), Fail> {
    for (head, byte, count, behind, want) in LONG.iter() {
        let stream = padded(rt.alloc(), head, *byte, *count, behind)?;
        for piece in [65_536, 2049, 2048].iter() {
            answers(&rt, rt.alloc(), stream.as_slice(), *piece, want);
        }
    }
    Ok(())
}

// How long the block of a command is.
fn block_length(command: &Command) -> usize {
    match command {
        Command::IqSet { block, .. } | Command::Sar { block, .. } => block.bytes().len(),
        _ => 0,
    }
}

#[test]
fn a_block_may_be_a_mebibyte(rt: HostRuntime) -> Result<(), Fail> {
    let stream = padded(
        rt.alloc(),
        "iqset profile:2 0 0 1048576 1 0\r\n",
        b'a',
        1_048_576,
        "\r\nquit\r\n",
    )?;
    let mut framer = Framer::new(rt.alloc());
    for part in stream.chunks(65_536) {
        framer.feed(part)?;
        if framer.left() < 1_048_576 {
            assert!(rt;
                matches!(framer.next_command(), Ok(None)),
                "at {}",
                framer.left()
            );
        }
    }
    let long = match framer.next_command() {
        Ok(Some(command)) => block_length(&command),
        _ => 0,
    };
    assert!(rt; long == 1_048_576);
    assert!(rt;
        matches!(framer.next_command(), Ok(Some(Command::Quit))),
        "behind the block"
    );
    Ok(())
}

/// The reply is written behind what stands, as this text, and is this text alone.
fn writes(rt: &impl Abort, alloc: Global, reply: &LineReply, want: &str) -> Result<(), Fail> {
    let mut out = Vec::from_slice(alloc, b"OWN\r\n")?;
    write_reply(&mut out, reply)?;
    let text = reply_text(alloc, reply)?;
    assert!(rt;
        out.as_slice().strip_prefix(b"OWN\r\n") == Some(want.as_bytes()),
        "at {reply:?}"
    );
    assert!(rt; text.bytes() == want.as_bytes(), "at {reply:?}");
    Ok(())
}

const PROFILE: QKey = QKey {
    kind: Kind::Profile,
    id: 2,
};

const COUNT: QKey = QKey {
    kind: Kind::NPending,
    id: u32::MAX,
};

/// A value with a stamp is written so.
fn writes_stamped(
    rt: &impl Abort,
    alloc: Global,
    of: (QKey, u64, &str),
    want: &str,
) -> Result<(), Fail> {
    let (key, stamp, text) = of;
    let value = Value::of(alloc, text.as_bytes())?;
    writes(rt, alloc, &LineReply::Stamped { key, stamp, value }, want)
}

#[test]
fn writes_each_value_with_a_stamp(rt: HostRuntime) -> Result<(), Fail> {
    let want = "VALUE profile:2 0 6 0\r\nm2 0 0\r\nEND\r\n";
    writes_stamped(&rt, rt.alloc(), (PROFILE, 0, "m2 0 0"), want)?;
    let want = "VALUE npending:4294967295 0 0 18446744073709551615\r\n\r\nEND\r\n";
    writes_stamped(&rt, rt.alloc(), (COUNT, u64::MAX, ""), want)
}

#[test]
fn writes_each_value_without_a_stamp(rt: HostRuntime) -> Result<(), Fail> {
    let unstamped = LineReply::Unstamped {
        key: PROFILE,
        value: Value::of(rt.alloc(), b"a\r\nb c")?,
    };
    writes(
        &rt,
        rt.alloc(),
        &unstamped,
        "VALUE profile:2 0 6\r\na\r\nb c\r\nEND\r\n",
    )
}

#[test]
fn writes_each_value_with_a_grant(rt: HostRuntime) -> Result<(), Fail> {
    let granted = LineReply::GrantedStamped {
        token: 7,
        key: PROFILE,
        stamp: 3,
        value: Value::of(rt.alloc(), b"-")?,
    };
    writes(
        &rt,
        rt.alloc(),
        &granted,
        "GRANTED 7\r\nVALUE profile:2 0 1 3\r\n-\r\nEND\r\n",
    )
}

const FIRST: Sid = Sid { number: 1 };

/// Replies that are answers, and how each is written.
fn answer_at(place: u32) -> (LineReply, &'static str) {
    match place {
        0 => (LineReply::Session { sid: FIRST }, "SESSION 1\r\n"),
        1 => (LineReply::Lease { token: 10 }, "LEASE 10\r\n"),
        2 => (LineReply::AgainI, "AGAIN I\r\n"),
        3 => (LineReply::AgainQ, "AGAIN Q\r\n"),
        4 => (LineReply::Own, "OWN\r\n"),
        5 => (LineReply::Rejected { index: 0 }, "REJECTED 0\r\n"),
        6 => (LineReply::Stored, "STORED\r\n"),
        7 => (LineReply::NotStored, "NOT_STORED\r\n"),
        8 => (LineReply::Granted { token: 5 }, "GRANTED 5\r\n"),
        9 => (LineReply::GrantedNone { token: 8 }, "GRANTED 8\r\nEND\r\n"),
        10 => (LineReply::Held, "HELD\r\n"),
        11 => (
            LineReply::Refused {
                holder: Sid { number: 12 },
                mode: Mode::Invalidate,
            },
            "REFUSED 12 invalidate\r\n",
        ),
        12 => (
            LineReply::Refused {
                holder: FIRST,
                mode: Mode::Refresh,
            },
            "REFUSED 1 refresh\r\n",
        ),
        13 => (
            LineReply::Refused {
                holder: FIRST,
                mode: Mode::Delta,
            },
            "REFUSED 1 delta\r\n",
        ),
        14 => (LineReply::Committed { commit: 1 }, "COMMITTED 1\r\n"),
        15 => (LineReply::Ended, "ENDED\r\n"),
        16 => (
            LineReply::Uncovered { key: PROFILE },
            "UNCOVERED profile:2\r\n",
        ),
        17 => (LineReply::Deleted, "DELETED\r\n"),
        18 => (LineReply::NotFound, "NOT_FOUND\r\n"),
        _ => (LineReply::Released { count: 64 }, "RELEASED 64\r\n"),
    }
}

#[test]
fn writes_each_answer(rt: HostRuntime) -> Result<(), Fail> {
    for place in 0..20 {
        let (reply, want) = answer_at(place);
        writes(&rt, rt.alloc(), &reply, want)?;
    }
    Ok(())
}

/// Replies that are errors, and how each is written.
fn error_at(place: u32) -> (LineReply, &'static str) {
    match place {
        0 => (LineReply::Error, "ERROR\r\n"),
        1 => (LineReply::BadLine, "CLIENT_ERROR bad line\r\n"),
        2 => (LineReply::LongLine, "CLIENT_ERROR long line\r\n"),
        3 => (LineReply::BadBlock, "CLIENT_ERROR bad block\r\n"),
        4 => (LineReply::BigBlock, "CLIENT_ERROR big block\r\n"),
        5 => (LineReply::SessionBusy, "CLIENT_ERROR session busy\r\n"),
        6 => (LineReply::NotQueryKey, "CLIENT_ERROR not a query key\r\n"),
        7 => (LineReply::Flags, "CLIENT_ERROR flags\r\n"),
        8 => (LineReply::Exptime, "CLIENT_ERROR exptime\r\n"),
        9 => (LineReply::NotYours, "CLIENT_ERROR not yours\r\n"),
        10 => (LineReply::ReadSession, "CLIENT_ERROR read session\r\n"),
        11 => (LineReply::AlreadyCommitted, "CLIENT_ERROR committed\r\n"),
        12 => (LineReply::TooMany, "CLIENT_ERROR too many\r\n"),
        13 => (LineReply::NotCount, "CLIENT_ERROR not count\r\n"),
        14 => (LineReply::NotCommitted, "CLIENT_ERROR not committed\r\n"),
        15 => (LineReply::NoGrant, "CLIENT_ERROR no grant\r\n"),
        16 => (LineReply::WrongMode, "CLIENT_ERROR mode\r\n"),
        17 => (LineReply::Spent, "SERVER_ERROR spent\r\n"),
        18 => (LineReply::Full, "SERVER_ERROR full\r\n"),
        19 => (LineReply::Store, "SERVER_ERROR store\r\n"),
        _ => (LineReply::Memory, "SERVER_ERROR memory\r\n"),
    }
}

#[test]
fn writes_each_error(rt: HostRuntime) -> Result<(), Fail> {
    for place in 0..21 {
        let (reply, want) = error_at(place);
        writes(&rt, rt.alloc(), &reply, want)?;
    }
    Ok(())
}
