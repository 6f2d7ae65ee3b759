use crate::lines::{line_of, served};
use crate::test_desk::{TestDesk, Turn};
use conn_server::LineEnd;
use rows_model::{Kind, QKey};
use sql_keeper::CommitFault;
use std::alloc::{AllocError, Global};
use std::process::Abort;
use std::test::Fail;

/// What is told must go on with this reply to what was said. The text behind it is handed back.
fn behind<'a>(rt: &impl Abort, text: &'a str, said: &str, want: &str) -> &'a str {
    match text.strip_prefix(want) {
        Some(rest) => match rest.strip_prefix("\r\n") {
            Some(rest) => rest,
            None => panic!(rt; "to {said}: {text}"),
        },
        None => panic!(rt; "to {said}: {text}"),
    }
}

/// What is told goes on with the reply of each pair. The text behind them is handed back.
fn behind_all<'a>(rt: &impl Abort, text: &'a str, pairs: &[(&str, &str)]) -> &'a str {
    let mut rest = text;
    for (said, want) in pairs.iter() {
        rest = behind(rt, rest, said, want);
    }
    rest
}

/// Says what stands in each pair.
fn say(all: &mut String, pairs: &[(&str, &str)]) -> Result<(), AllocError> {
    for (said, _) in pairs.iter() {
        all.push_str(said)?;
        all.push_str("\r\n")?;
    }
    Ok(())
}

/// What is told of all that is said, at a desk that this befalls.
fn told_of(
    rt: &impl Abort,
    alloc: Global,
    turns: &'static [(u64, Turn)],
    said: &str,
) -> Result<String, Fail> {
    let line = line_of(alloc, said.as_bytes(), (4096, 4096))?;
    let mut desk = TestDesk::new(alloc, turns)?;
    let (text, end) = served(rt, alloc, line, &mut desk);
    assert!(rt; end == LineEnd::Closed { left: 0 });
    Ok(text)
}

/// A client says what stands in each pair, and is told what stands beside it.
pub fn talks(
    rt: &impl Abort,
    alloc: Global,
    turns: &'static [(u64, Turn)],
    pairs: &[(&str, &str)],
) -> Result<(), Fail> {
    let mut said = String::new(alloc);
    say(&mut said, pairs)?;
    let text = told_of(rt, alloc, turns, said.as_str())?;
    let rest = behind_all(rt, text.as_str(), pairs);
    assert!(rt; rest.is_empty(), "behind all: {rest}");
    Ok(())
}

const FIVE: &str = "VALUE npending:2 0 1 7\r\n5\r\nEND";

const READER: &[(&str, &str)] = &[
    ("begin read", "SESSION 1"),
    ("iqget npending:2 1 0", "LEASE 1"),
    ("iqget npending:2 1 0", "AGAIN I"),
    ("ask npending:2 1", FIVE),
    ("iqset npending:2 0 0 1 1 7\r\n5", "STORED"),
    ("iqset npending:2 0 0 1 1 7\r\n5", "NOT_STORED"),
    ("iqget npending:2 1 0", FIVE),
    ("iqget npending:2 1 8", "LEASE 2"),
    ("stage npending:2 1 invite 1 2", "CLIENT_ERROR read session"),
    ("qareg npending:2 1", "CLIENT_ERROR read session"),
    ("qaread npending:2 1", "CLIENT_ERROR read session"),
    ("iqdelta npending:2 1 1", "CLIENT_ERROR read session"),
    ("sql 1 invite 1 2", "CLIENT_ERROR read session"),
    ("dar npending:2 1", "CLIENT_ERROR read session"),
    ("sar npending:2 0 0 1 1\r\n5", "CLIENT_ERROR read session"),
    ("iqcommit npending:2 1", "CLIENT_ERROR read session"),
    ("iqabort 1", "CLIENT_ERROR read session"),
    ("begin write", "SESSION 2"),
];

#[test]
fn a_reader_is_answered(rt: HostRuntime) -> Result<(), Fail> {
    talks(&rt, rt.alloc(), &[], READER)
}

const WRITER: &[(&str, &str)] = &[
    ("begin write", "SESSION 1"),
    ("begin read", "CLIENT_ERROR session busy"),
    ("iqget npending:2 1 0", "LEASE 1"),
    ("iqset npending:2 0 0 1 1 7\r\n5", "STORED"),
    ("qareg profile:2 1", "GRANTED 2"),
    ("qareg profile:2 1", "HELD"),
    ("qaread profile:2 1", "REFUSED 1 invalidate"),
    ("iqget profile:2 1 0", "OWN"),
    ("qaread friends:2 1", "GRANTED 3\r\nEND"),
    ("qaread friends:2 1", "HELD"),
    ("iqdelta npending:2 1 1", "GRANTED 4"),
    ("iqdelta npending:2 1 1", "HELD"),
    ("iqdelta profile:3 1 1", "CLIENT_ERROR not count"),
    (
        "stage npending:2 1 invite 1 2",
        "VALUE npending:2 0 1\r\n5\r\nEND",
    ),
    ("dar profile:2 1", "CLIENT_ERROR not committed"),
    ("sql 1 invite 1 2", "COMMITTED 1"),
    ("qareg profile:3 1", "CLIENT_ERROR committed"),
    ("dar pending:2 1", "CLIENT_ERROR no grant"),
    ("sar profile:2 0 0 1 1\r\n5", "CLIENT_ERROR mode"),
    ("iqcommit friends:2 1", "CLIENT_ERROR mode"),
    ("begin read", "CLIENT_ERROR session busy"),
    ("dar profile:2 1", "DELETED"),
    ("sar friends:2 0 0 1 1\r\n3", "STORED"),
    ("iqcommit npending:2 1", "STORED"),
    ("iqcommit npending:2 1", "CLIENT_ERROR no grant"),
    ("iqget npending:2 1 0", "VALUE npending:2 0 1 1\r\n6\r\nEND"),
    ("iqget friends:2 1 0", "VALUE friends:2 0 1 1\r\n3\r\nEND"),
    ("iqabort 1", "RELEASED 0"),
    ("begin write", "SESSION 2"),
    (
        "qaread friends:2 2",
        "GRANTED 5\r\nVALUE friends:2 0 1 1\r\n3\r\nEND",
    ),
];

#[test]
fn a_writer_is_answered(rt: HostRuntime) -> Result<(), Fail> {
    talks(&rt, rt.alloc(), &[], WRITER)
}

const ERRORS: &[(&str, &str)] = &[
    ("what", "ERROR"),
    ("iqget npending:0 1 0", "CLIENT_ERROR not a query key"),
    ("iqget npending:100001 1 0", "CLIENT_ERROR not a query key"),
    ("iqget npending:100000 1 0", "CLIENT_ERROR not yours"),
    ("iqget npending:2 1 0", "CLIENT_ERROR not yours"),
    ("iqabort 1", "CLIENT_ERROR not yours"),
    (
        "iqset npending:0 1 1 1 1 7\r\n5",
        "CLIENT_ERROR not a query key",
    ),
    ("iqset npending:2 1 1 1 1 7\r\n5", "CLIENT_ERROR flags"),
    ("iqset npending:2 0 1 1 1 7\r\n5", "CLIENT_ERROR exptime"),
    ("iqset npending:2 0 0 1 1 7\r\n5", "NOT_STORED"),
    ("sar npending:2 1 0 1 1\r\n5", "CLIENT_ERROR flags"),
    ("sar npending:2 0 0 1 1\r\n5", "CLIENT_ERROR not yours"),
    ("begin write", "SESSION 1"),
    ("qareg npending:2 2", "CLIENT_ERROR not yours"),
    ("sar npending:2 0 0 1 1\r\n5", "CLIENT_ERROR not committed"),
];

const ERRORS_WHEN_FULL: &[(&str, &str)] = &[
    ("qareg friends:1 1", "CLIENT_ERROR too many"),
    ("iqdelta friends:1 1 1", "CLIENT_ERROR too many"),
    ("sql 1 invite 1 2", "COMMITTED 1"),
    ("qareg friends:1 1", "CLIENT_ERROR committed"),
    ("iqabort 1", "RELEASED 64"),
];

/// Quarantines the friends of so many members.
fn say_quarantines(all: &mut String, alloc: Global, count: u64) -> Result<(), AllocError> {
    for number in 1..=count {
        all.push_str(format!(in alloc; "qareg friends:{number} 1\r\n")?.as_str())?;
    }
    Ok(())
}

/// The grants of so many quarantines, by the tokens from 1 on.
fn grants(alloc: Global, count: u64) -> Result<String, AllocError> {
    let mut all = String::from_str(alloc, "GRANTED 1")?;
    for number in 2..=count {
        all.push_str(format!(in alloc; "\r\nGRANTED {number}")?.as_str())?;
    }
    Ok(all)
}

#[test]
fn errors_come_in_their_order(rt: HostRuntime) -> Result<(), Fail> {
    let mut said = String::new(rt.alloc());
    say(&mut said, ERRORS)?;
    say_quarantines(&mut said, rt.alloc(), 64)?;
    say(&mut said, ERRORS_WHEN_FULL)?;
    let granted = grants(rt.alloc(), 64)?;
    let text = told_of(&rt, rt.alloc(), &[], said.as_str())?;
    let rest = behind_all(&rt, text.as_str(), ERRORS);
    let rest = behind(&rt, rest, "64 quarantines", granted.as_str());
    let rest = behind_all(&rt, rest, ERRORS_WHEN_FULL);
    assert!(&rt; rest.is_empty(), "behind all: {rest}");
    Ok(())
}

const ABORTED: &[(&str, &str)] = &[
    ("begin write", "SESSION 1"),
    ("iqget npending:2 1 0", "LEASE 1"),
    ("iqset npending:2 0 0 1 1 7\r\n5", "STORED"),
    ("qareg npending:2 1", "GRANTED 2"),
    ("iqabort 1", "RELEASED 1"),
    ("iqabort 1", "RELEASED 0"),
    ("iqget npending:2 1 0", FIVE),
    ("ask npending:2 1", FIVE),
    (
        "stage npending:2 1 invite 1 2",
        "VALUE npending:2 0 1\r\n5\r\nEND",
    ),
    ("qareg npending:2 1", "GRANTED 3"),
    ("dar npending:2 1", "CLIENT_ERROR not committed"),
    ("begin write", "CLIENT_ERROR session busy"),
    ("iqabort 1", "RELEASED 1"),
    ("begin write", "SESSION 2"),
    ("qareg npending:2 2", "GRANTED 4"),
    ("sql 2 invite 1 2", "COMMITTED 1"),
    ("iqabort 2", "RELEASED 1"),
    ("iqget npending:2 2 0", "LEASE 5"),
];

#[test]
fn an_aborted_session_goes_on(rt: HostRuntime) -> Result<(), Fail> {
    talks(&rt, rt.alloc(), &[], ABORTED)
}

const FRIENDS_1: QKey = QKey {
    kind: Kind::Friends,
    id: 1,
};

const FRIENDS_2: QKey = QKey {
    kind: Kind::Friends,
    id: 2,
};

const FRIENDS_4: QKey = QKey {
    kind: Kind::Friends,
    id: 4,
};

const COUNTED: QKey = QKey {
    kind: Kind::NPending,
    id: 3,
};

/// The quarantines are swept, and another session takes the count.
const SWEEPS: &[(u64, Turn)] = &[
    (
        6,
        Turn::Swept {
            key: FRIENDS_1,
            token: 1,
        },
    ),
    (
        6,
        Turn::Swept {
            key: FRIENDS_2,
            token: 2,
        },
    ),
    (
        6,
        Turn::Swept {
            key: COUNTED,
            token: 3,
        },
    ),
    (
        6,
        Turn::Swept {
            key: FRIENDS_4,
            token: 4,
        },
    ),
    (6, Turn::Taken { key: COUNTED }),
];

const SWEPT: &[(&str, &str)] = &[
    ("begin write", "SESSION 1"),
    ("qareg friends:1 1", "GRANTED 1"),
    ("qaread friends:2 1", "GRANTED 2\r\nEND"),
    ("iqdelta npending:3 1 1", "GRANTED 3"),
    ("qareg friends:4 1", "GRANTED 4"),
    ("qareg friends:5 1", "GRANTED 5"),
    // Here the desk is swept.
    ("iqget npending:3 1 0", "AGAIN Q"),
    ("qareg npending:3 1", "REFUSED 9 refresh"),
    ("qaread npending:3 1", "REFUSED 9 refresh"),
    ("iqdelta npending:3 1 1", "REFUSED 9 refresh"),
    ("sql 1 invite 1 2", "COMMITTED 1"),
    ("dar friends:1 1", "NOT_FOUND"),
    ("sar friends:2 0 0 1 1\r\n3", "NOT_FOUND"),
    ("iqcommit npending:3 1", "NOT_FOUND"),
    ("iqabort 1", "RELEASED 1"),
];

#[test]
fn quarantines_of_others_are_told(rt: HostRuntime) -> Result<(), Fail> {
    talks(&rt, rt.alloc(), SWEEPS, SWEPT)
}

const UNCOVERED: QKey = QKey {
    kind: Kind::Friends,
    id: 7,
};

/// The desk ails after the third command, and recovers twice.
const AILMENTS: &[(u64, Turn)] = &[
    (
        3,
        Turn::Ails {
            fault: CommitFault::Ended,
        },
    ),
    (
        9,
        Turn::Ails {
            fault: CommitFault::Uncovered { key: UNCOVERED },
        },
    ),
    (
        10,
        Turn::Ails {
            fault: CommitFault::LogFull { count: 3 },
        },
    ),
    (
        11,
        Turn::Ails {
            fault: CommitFault::Rejected { index: 1 },
        },
    ),
    (
        12,
        Turn::Ails {
            fault: CommitFault::KeepFault,
        },
    ),
    (
        13,
        Turn::Ails {
            fault: CommitFault::Memory,
        },
    ),
    (14, Turn::Recovers),
    (
        15,
        Turn::Ails {
            fault: CommitFault::Ended,
        },
    ),
    (16, Turn::Recovers),
    (
        18,
        Turn::Ails {
            fault: CommitFault::Ended,
        },
    ),
];

const AILS: &[(&str, &str)] = &[
    ("begin write", "SESSION 1"),
    ("qaread friends:1 1", "GRANTED 1\r\nEND"),
    ("qaread friends:2 1", "GRANTED 2\r\nEND"),
    // From here on the desk ails, and for another reason at each commit.
    ("qareg friends:3 1", "SERVER_ERROR spent"),
    ("iqget npending:2 1 0", "SERVER_ERROR spent"),
    ("ask npending:2 1", "SERVER_ERROR store"),
    ("stage npending:2 1 invite 1 2", "REJECTED 2"),
    ("iqset npending:2 0 0 1 1 7\r\n5", "SERVER_ERROR memory"),
    ("sql 1 invite 1 2", "ENDED"),
    ("sql 1 invite 1 2", "UNCOVERED friends:7"),
    ("sql 1 invite 1 2", "SERVER_ERROR full"),
    ("sql 1 invite 1 2", "REJECTED 1"),
    ("sql 1 invite 1 2", "SERVER_ERROR store"),
    ("sql 1 invite 1 2", "SERVER_ERROR memory"),
    // It recovers.
    ("sql 1 invite 1 2", "COMMITTED 1"),
    // It ails at this one.
    ("sar friends:1 0 0 1 1\r\n3", "SERVER_ERROR memory"),
    // It recovers.
    ("sar friends:1 0 0 1 1\r\n3", "STORED"),
    ("iqabort 1", "RELEASED 1"),
    // It ails again.
    ("begin read", "SERVER_ERROR memory"),
];

#[test]
fn want_of_the_desk_is_told(rt: HostRuntime) -> Result<(), Fail> {
    talks(&rt, rt.alloc(), AILMENTS, AILS)
}
