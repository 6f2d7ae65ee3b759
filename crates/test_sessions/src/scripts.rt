use crate::texts::plan_text;
use run_inputs::ScriptKind::*;
use run_inputs::{Act, Script, ScriptFault, ScriptKind};
use session_client::Turn;
use std::alloc::{AllocError, Global};
use std::process::Abort;
use std::test::Fail;

/// The text is no script, by this fault, or is one.
fn tells(rt: &impl Abort, alloc: Global, text: &[u8], want: Option<(u64, ScriptKind)>) {
    let fault = match Script::parse(alloc, text) {
        Ok(_) => None,
        Err(ScriptFault::Bad { line, kind }) => Some((line, kind)),
        Err(ScriptFault::Memory) => panic!(rt; "memory"),
    };
    assert!(rt; fault == want, "of {} bytes", text.len());
}

/// Faulty texts, and the line and kind of the first fault of each.
const FAULTY: [(&str, u64, ScriptKind); 96] = [
    ("members 3\nturn 1\nend", 2, Number),
    ("members 3", 2, NoEnd),
    ("members 0\nend", 1, Form),
    ("members 3\nskip 1 profile:1 rename 2 bob\nend", 2, Key),
    ("members 3\nend\nend", 3, AfterEnd),
    // Whole texts.
    ("", 1, NoEnd),
    ("members 3\n", 2, NoEnd),
    ("members 3\nread 1 profile:1\nturn 1", 4, NoEnd),
    ("\n", 1, Form),
    ("members 3\n\nend", 2, Form),
    ("members 3\r\nend", 1, Form),
    ("members 3\nend \nend", 2, Form),
    ("members 3\nend\n\n", 3, AfterEnd),
    // The head.
    ("end", 1, Form),
    ("read 1 profile:1\nmembers 3\nend", 1, Form),
    ("shards 2\nmembers 3\nend", 1, Form),
    ("members 3\nmembers 3\nend", 2, Form),
    ("members 3\nroom 1\nshards 2\nend", 3, Form),
    ("members 3\nread 1 profile:1\nlife 5\nend", 3, Form),
    ("members\nend", 1, Form),
    ("members 3 3\nend", 1, Form),
    ("members 03\nend", 1, Form),
    ("members +3\nend", 1, Form),
    ("members  3\nend", 1, Form),
    ("members 3 \nend", 1, Form),
    (" members 3\nend", 1, Form),
    ("Members 3\nend", 1, Form),
    ("members 100001\nend", 1, Form),
    ("members 3\nshards 65\nend", 2, Form),
    ("members 3\nroom 65537\nend", 2, Form),
    ("members 3\nlife 0\nend", 2, Form),
    ("members 3\nlife 18446744073709551616\nend", 2, Form),
    // Sessions.
    ("members 3\nread 0 profile:1\nend", 2, Number),
    ("members 3\nread 2 profile:1\nend", 2, Number),
    (
        "members 3\nread 1 profile:1\nread 1 profile:1\nend",
        3,
        Number,
    ),
    ("members 3\nread 01 profile:1\nend", 2, Form),
    ("members 3\nread 1 profile:0\nend", 2, Form),
    ("members 3\nread 1 profile:4294967296\nend", 2, Form),
    ("members 3\nread 1 profile:1 floor\nend", 2, Form),
    ("members 3\nread 1 profile:1 floor 01\nend", 2, Form),
    (
        "members 3\nread 1 profile:1 floor 18446744073709551616\nend",
        2,
        Form,
    ),
    ("members 3\nread 1 profile:1 above 1\nend", 2, Form),
    ("members 3\nwrite 1 invalidate\nend", 2, Form),
    ("members 3\nwrite 1 drop thaw 1 2\nend", 2, Form),
    ("members 3\nwrite 1 invalidate thaw 1 2 +\nend", 2, Form),
    (
        "members 3\nwrite 1 invalidate thaw 1 2 thaw 1 2\nend",
        2,
        Form,
    ),
    (
        "members 3\nwrite 1 invalidate thaw 1 2  + thaw 1 2\nend",
        2,
        Form,
    ),
    ("members 3\nwrite 1 invalidate thaw 1\nend", 2, Form),
    ("members 3\nwrite 1 invalidate invite 0 1\nend", 2, Form),
    (
        "members 3\nwrite 1 invalidate accept 1 4294967296\nend",
        2,
        Form,
    ),
    ("members 3\nwrite 1 invalidate rename 1 \nend", 2, Form),
    (
        "members 3\nwrite 1 invalidate rename 1 01234567890123456789012345678901234567890\nend",
        2,
        Form,
    ),
    (
        "members 3\nwrite 1 invalidate thaw 1 2 + thaw 1 2 + thaw 1 2 + thaw 1 2 + thaw 1 2 + thaw 1 2 + thaw 1 2 + thaw 1 2 + thaw 1 2\nend",
        2,
        Form,
    ),
    ("members 3\nskip 1 friends:2 rename 2 bob\nend", 2, Key),
    ("members 3\nskip 1 pending:1 accept 1 2\nend", 2, Key),
    // Looks and quits.
    (
        "members 3\nlook 1 drop profile:2 rename 2 bob\nend",
        2,
        Form,
    ),
    ("members 3\nlook 1 profile:2 rename 2 bob\nend", 2, Form),
    ("members 3\nlook 1 refresh rename 2 bob\nend", 2, Form),
    ("members 3\nlook 1 refresh profile:2\nend", 2, Form),
    (
        "members 3\nlook 1 refresh pending:1 accept 1 2\nend",
        2,
        Key,
    ),
    ("members 3\nlook 1 delta nfriends:2 invite 1 2\nend", 2, Key),
    ("members 3\nquit 1 drop rename 2 bob\nend", 2, Form),
    ("members 3\nquit 1 rename 2 bob\nend", 2, Form),
    ("members 3\nquit 1 Delta rename 2 bob\nend", 2, Form),
    ("members 3\nquit 1 delta\nend", 2, Form),
    // Raises and renewals.
    ("members 3\nraise 1 invalidate rename 2 bob\nend", 2, Form),
    ("members 3\nraise 1\nend", 2, Form),
    ("members 3\nraise 2 rename 2 bob\nend", 2, Number),
    ("members 3\nrenew 1 rename 2 bob\nend", 2, Form),
    ("members 3\nrenew 1 raise rename 2 bob\nend", 2, Form),
    ("members 3\nrenew 1 delta\nend", 2, Form),
    // Turns.
    ("members 3\nturn 0\nend", 2, Number),
    ("members 3\nturn 18446744073709551616\nend", 2, Number),
    (
        "members 3\nturn 123456789012345678901234567890\nend",
        2,
        Number,
    ),
    ("members 3\nread 1 profile:1\nturn 1 0\nend", 3, Form),
    ("members 3\nread 1 profile:1\nturn 1 1001\nend", 3, Form),
    ("members 3\nread 1 profile:1\nturn 1 1 1\nend", 3, Form),
    // Ticks and sweeps.
    ("members 3\ntick\nend", 2, Form),
    ("members 3\ntick 01\nend", 2, Form),
    ("members 3\ntick 1 1\nend", 2, Form),
    ("members 3\ntick 18446744073709551616\nend", 2, Form),
    ("members 3\nsweep 0\nend", 2, Form),
    ("members 3\nsweep 1001\nend", 2, Form),
    ("members 3\nsweep 1 1\nend", 2, Form),
    ("members 3\nsweep \nend", 2, Form),
    ("tick 1\nmembers 3\nend", 1, Form),
    ("members 3\nsweep\nshards 2\nend", 3, Form),
    // Two faults in a line.
    ("members 3\nread 2 profile:0\nend", 2, Form),
    ("members 3\nread 1 profile:1\nturn 2 1001\nend", 3, Form),
    ("members 3\nskip 2 profile:1 rename 2 bob\nend", 2, Number),
    ("members 3\nquit 2 delta rename 2 bob\nend", 2, Number),
    (
        "members 3\nlook 1 invalidate profile:1 rename 2 bob\nend",
        2,
        Key,
    ),
    ("members 3\nend\nturn 1 ", 3, AfterEnd),
    // Faults in two lines.
    ("members 3\nturn 1\nmembers 0\nend", 2, Number),
    ("members 3\ntick 1\nturn 1\nend", 3, Number),
    (
        "members 3\nread 1 profile\nread 3 profile:1\nend\nend",
        2,
        Form,
    ),
];

#[test]
fn tells_the_first_fault(rt: HostRuntime) {
    for (text, line, kind) in FAULTY.iter() {
        tells(&rt, rt.alloc(), text.as_bytes(), Some((*line, *kind)));
    }
}

// A head, a line of so many bytes, and these bytes behind it.
fn with_long_line(
    alloc: Global,
    head: &str,
    length: usize,
    behind: &str,
) -> Result<Vec<u8>, AllocError> {
    let line = vec![in alloc; b'a'; length]?;
    let mut text = Vec::from_slice(alloc, head.as_bytes())?;
    text.extend_from_slice(line.as_slice())?;
    text.extend_from_slice(behind.as_bytes())?;
    Ok(text)
}

/// Long lines: what stands before and behind, and the line and kind of the fault.
const LONG: [(&str, usize, &str, u64, ScriptKind); 10] = [
    ("members 3\n", 2048, "\nend", 2, Form),
    ("members 3\n", 2049, "\nend", 2, LongLine),
    ("members 3\n", 2049, "", 2, LongLine),
    ("", 2049, "", 1, LongLine),
    ("members 3\nend\n", 2048, "", 3, AfterEnd),
    ("members 3\nend\n", 2049, "", 3, LongLine),
    ("members 0\n", 2049, "\nend", 1, Form),
    ("", 16_777_216, "", 1, LongLine),
    ("members 3\nend\n", 16_777_203, "", 0, LongText),
    ("members 0\n", 16_777_216, "\n", 0, LongText),
];

#[test]
fn lines_and_texts_are_bounded(rt: HostRuntime) -> Result<(), Fail> {
    for (head, length, behind, line, kind) in LONG.iter() {
        let text = with_long_line(rt.alloc(), head, *length, behind)?;
        tells(&rt, rt.alloc(), text.as_slice(), Some((*line, *kind)));
    }
    Ok(())
}

// A script of 999,000 turns, and these lines behind it.
fn with_turns(alloc: Global, last: &str) -> Result<Vec<u8>, AllocError> {
    let mut text = Vec::from_slice(alloc, b"members 3\nread 1 profile:1\n")?;
    for _ in 0..999 {
        text.extend_from_slice(b"turn 1 1000\n")?;
    }
    text.extend_from_slice(last.as_bytes())?;
    Ok(text)
}

/// Last lines behind 999,000 turns, and the line and kind of the fault, if there is one.
const LAST_TURNS: [(&str, Option<(u64, ScriptKind)>); 9] = [
    ("turn 1 1000\nend", None),
    ("turn 1 1000\nread 2 profile:1\nend", None),
    ("turn 1 900\nsweep 99\ntick 18446744073709551615\nend", None),
    ("turn 1 1000\nturn 1\nend", Some((1003, Turns))),
    ("turn 1 1000\ntick 0\nend", Some((1003, Turns))),
    ("turn 1 1000\nsweep\nend", Some((1003, Turns))),
    ("turn 1\nsweep 1000\nturn 1", Some((1003, Turns))),
    (
        "turn 1 900\nsweep 99\ntick 1\nsweep\nend",
        Some((1005, Turns)),
    ),
    ("turn 1 1000\nturn 2\nend", Some((1003, Number))),
];

#[test]
fn turns_are_bounded(rt: HostRuntime) -> Result<(), Fail> {
    for (last, want) in LAST_TURNS.iter() {
        let text = with_turns(rt.alloc(), last)?;
        tells(&rt, rt.alloc(), text.as_slice(), *want);
    }
    Ok(())
}

fn act_text(alloc: Global, act: &Act) -> Result<String, AllocError> {
    match act {
        Act::Add { plan } => plan_text(alloc, plan),
        Act::Run {
            turn: Turn::Session { sid },
            count,
        } => format!(in alloc; "run {} {count}", sid.number),
        Act::Run {
            turn: Turn::Tick { by },
            count,
        } => format!(in alloc; "tick {by} {count}"),
        Act::Run {
            turn: Turn::Sweep,
            count,
        } => format!(in alloc; "sweep {count}"),
    }
}

/// Scripts, and for each its members, shards, room and life, and its acts.
const SCRIPTS: [(&str, &str); 11] = [
    ("members 1\nend", "1 1 16 100; "),
    (
        "members 100000\nshards 64\nroom 65536\nlife 18446744073709551615\nend\n",
        "100000 64 65536 18446744073709551615; ",
    ),
    ("members 3\nroom 1\nend", "3 1 1 100; "),
    ("members 3\nshards 2\nlife 1\nend", "3 2 16 1; "),
    (
        "members 7\nread 1 nfriends:7 floor 18446744073709551615\nread 2 profile:4294967295\nturn 1\nturn 2 1000\nend\n",
        "7 1 16 100; read NFriends:7 floor 18446744073709551615; read Profile:4294967295 floor 0; run 1 1; run 2 1000; ",
    ),
    (
        "members 7\nwrite 1 invalidate invite 1 2 + rename 3 + + accept 3 3\nskip 2 npending:2 accept 1 2\nturn 2\nend",
        "7 1 16 100; write Invalidate + invite 1 2 + rename 3 + + accept 3 3; skip NPending:2 + accept 1 2; run 2 1; ",
    ),
    (
        "members 7\nwrite 1 invalidate reject 1 2 + thaw 1 2 + thaw 1 2 + thaw 1 2 + thaw 1 2 + thaw 1 2 + thaw 1 2 + thaw 9 8\nend",
        "7 1 16 100; write Invalidate + reject 1 2 + thaw 1 2 + thaw 1 2 + thaw 1 2 + thaw 1 2 + thaw 1 2 + thaw 1 2 + thaw 9 8; ",
    ),
    (
        "members 7\nwrite 1 refresh accept 1 2\nwrite 2 delta invite 1 2 + thaw 3 4\nquit 3 invalidate reject 1 2\nquit 4 refresh rename 2 bob\nquit 5 delta thaw 6 7\nturn 5 9\nend",
        "7 1 16 100; write Refresh + accept 1 2; write Delta + invite 1 2 + thaw 3 4; quit Invalidate + reject 1 2; quit Refresh + rename 2 bob; quit Delta + thaw 6 7; run 5 9; ",
    ),
    (
        "members 7\nlook 1 invalidate pending:2 reject 1 2\nlook 2 refresh profile:3 thaw 5 6 + rename 3 refresh\nlook 3 delta nfriends:1 accept 1 2\nturn 3\nend",
        "7 1 16 100; look Invalidate Pending:2 + reject 1 2; look Refresh Profile:3 + thaw 5 6 + rename 3 refresh; look Delta NFriends:1 + accept 1 2; run 3 1; ",
    ),
    (
        "members 7\nraise 1 rename 2 bob + thaw 6 7\nrenew 2 invalidate reject 1 2\nrenew 3 refresh rename 2 bob\nrenew 4 delta thaw 6 7\nturn 4 2\nend",
        "7 1 16 100; raise + rename 2 bob + thaw 6 7; renew Invalidate + reject 1 2; renew Refresh + rename 2 bob; renew Delta + thaw 6 7; run 4 2; ",
    ),
    (
        "members 7\ntick 0\nread 1 profile:7\nsweep\ntick 18446744073709551615\nturn 1 2\nsweep 1000\nend",
        "7 1 16 100; tick 0 1; read Profile:7 floor 0; sweep 1; tick 18446744073709551615 1; run 1 2; sweep 1000; ",
    ),
];

// What a text says: members, shards, room and life, and its acts.
fn script_text(alloc: Global, script: &Script) -> Result<String, AllocError> {
    let shape = script.shape();
    let mut text = format!(in alloc;
        "{} {} {} {}; ",
        shape.members, shape.shards, shape.room, shape.life
    )?;
    for act in script.acts().iter() {
        text.push_str(act_text(alloc, act)?.as_str())?;
        text.push_str("; ")?;
    }
    Ok(text)
}

/// The text is a script that says this, and its acts are as many when they are taken out.
fn says(rt: &impl Abort, alloc: Global, text: &str, want: &str) {
    match Script::parse(alloc, text.as_bytes()) {
        Ok(script) => {
            let its_text = script_text(alloc, &script).expect(rt, "memory");
            assert!(rt; its_text.as_str() == want, "at {text}");
            let count = script.acts().len();
            assert!(rt; script.into_acts().len() == count, "at {text}");
        }
        Err(_) => panic!(rt; "no script: {text}"),
    }
}

#[test]
fn reads_scripts(rt: HostRuntime) {
    for (text, want) in SCRIPTS.iter() {
        says(&rt, rt.alloc(), text, want);
    }
}

/// The kinds of faults, and the word of each.
const KINDS: [(ScriptKind, &str); 8] = [
    (LongText, "longtext"),
    (LongLine, "longline"),
    (Form, "form"),
    (Number, "number"),
    (Key, "key"),
    (Turns, "turns"),
    (NoEnd, "noend"),
    (AfterEnd, "afterend"),
];

#[test]
fn kinds_have_words(rt: HostRuntime) {
    for (kind, word) in KINDS.iter() {
        assert!(rt; kind.word() == *word, "at {word}");
    }
}
