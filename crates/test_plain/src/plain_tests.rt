use mc_text::{PlainLine, PlainReply, PlainSaid, plain_line, plain_verb, write_plain_reply};
use plain_ops::Plain;
use rows_model::Memory;
use std::alloc::Global;
use std::test::Fail;

/// Lines in their order, each with its block and with what its client is told.
const TALK: [(&str, &str, &str); 31] = [
    ("set a 5 0 2", "hi", "STORED\r\n"),
    ("get a", "", "VALUE a 5 2\r\nhi\r\nEND\r\n"),
    ("gets a", "", "VALUE a 5 2 1\r\nhi\r\nEND\r\n"),
    ("incr a 1", "", "CLIENT_ERROR not a number\r\n"),
    ("delete a", "", "DELETED\r\n"),
    ("get a", "", "END\r\n"),
    ("delete a", "", "NOT_FOUND\r\n"),
    ("set n 7 -0 20", "18446744073709551615", "STORED\r\n"),
    ("incr n 2", "", "1\r\n"),
    ("gets n", "", "VALUE n 7 1 3\r\n1\r\nEND\r\n"),
    ("decr n 5", "", "0\r\n"),
    ("add n 0 0 1", "x", "NOT_STORED\r\n"),
    ("add m 1 0 0", "", "STORED\r\n"),
    ("replace m 2 0 1", "y", "STORED\r\n"),
    ("replace q 0 0 1", "y", "NOT_STORED\r\n"),
    ("cas n 0 0 1 9", "y", "EXISTS\r\n"),
    ("cas q 0 0 1 9", "y", "NOT_FOUND\r\n"),
    ("cas n 8 0 1 4", "y", "STORED\r\n"),
    (
        "gets m n q",
        "",
        "VALUE m 2 1 6\r\ny\r\nVALUE n 8 1 7\r\ny\r\nEND\r\n",
    ),
    ("incr q 1", "", "NOT_FOUND\r\n"),
    ("set profile:2 0 0 1", "z", "CLIENT_ERROR query key\r\n"),
    ("set profile:2 0 1 1", "z", "CLIENT_ERROR query key\r\n"),
    ("get n profile:2", "", "CLIENT_ERROR query key\r\n"),
    ("set q 0 -1 1", "z", "CLIENT_ERROR exptime\r\n"),
    ("set q 0 60 1", "z", "CLIENT_ERROR exptime\r\n"),
    ("set q 0 0 1 noreply", "k", ""),
    (
        "get n q",
        "",
        "VALUE n 8 1\r\ny\r\nVALUE q 0 1\r\nk\r\nEND\r\n",
    ),
    ("get", "", "no line"),
    ("delete q 0", "", "no line"),
    ("incr q -1", "", "no line"),
    ("set q 0 0 1 noreply noreply", "k", "no line"),
];

/// What the line and its block say, and whether no reply is wanted.
fn said_of(alloc: Global, line: &str, block: &str) -> Result<Option<(PlainSaid, bool)>, Memory> {
    let (word, args) = line.split_once(' ').unwrap_or((line, ""));
    let Some(verb) = plain_verb(word.as_bytes()) else {
        return Ok(None);
    };
    match plain_line(alloc, verb, args.as_bytes())? {
        PlainLine::Whole { said, noreply } => Ok(Some((said, noreply))),
        PlainLine::Headed { head } => {
            let said = head.with_block(alloc, block.as_bytes())?;
            Ok(Some((said, head.noreply)))
        }
        PlainLine::Bad => Ok(None),
    }
}

/// What the client of such a line is told.
fn reply_text(
    alloc: Global,
    plain: &mut Plain,
    line: &str,
    block: &str,
) -> Result<Vec<u8>, Memory> {
    let mut out = Vec::new(alloc);
    let Some((said, noreply)) = said_of(alloc, line, block)? else {
        out.extend_from_slice(b"no line")?;
        return Ok(out);
    };
    let reply = match said {
        PlainSaid::Asks { command } => plain.run(&command),
        PlainSaid::QueryKey => PlainReply::QueryKey,
        PlainSaid::Exptime => PlainReply::Exptime,
    };
    if !noreply {
        write_plain_reply(&mut out, &reply)?;
    }
    Ok(out)
}

#[test]
fn plain_commands_are_answered(rt: HostRuntime) -> Result<(), Fail> {
    let mut plain = Plain::new(rt.alloc(), 1);
    for (line, block, wanted) in TALK.iter() {
        let out = reply_text(rt.alloc(), &mut plain, line, block)?;
        assert!(rt; out.as_slice() == wanted.as_bytes(), "{line:?}");
    }
    Ok(())
}
