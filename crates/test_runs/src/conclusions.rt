// What a user concludes from the contracts alone, of runs, sessions, stores and shards.
use crate::outsides::{Outside, keeper, no_file, outside_of, shut_door, still_clock, words_of};
use callers::{quits, runs, shards, stores};
use iq_outside::{ListDoor, MemLine, MemSink, MemSource, OpenGate};
use key_shard::{Got, SetAnswer, Shard};
use lease_table::Mode;
use rows_model::{Change, Kind, Name, QKey, Sid, Txn, Value};
use session_client::{Plan, Session, Wanted};
use sql_keeper::{CommitFault, MapKeeper, Place, Store};
use std::alloc::Global;
use std::process::Abort;
use std::sync::Wait;
use std::test::Fail;
use std::thread::Threads;
use top_run::{RunEnd, Status};

/// A reader that stores, a writer, and a reader behind it.
const SCRIPT: &[u8] =
    b"members 3\nread 1 profile:2\nwrite 2 invalidate rename 2 bob\nread 3 profile:2\nturn 1 3\nturn 2 3\nturn 3 3\nend\n";

/// A writer that refreshes a list, and a reader behind it.
const REFRESH: &[u8] =
    b"members 3\nwrite 1 invalidate invite 1 2\nread 2 friends:1\nwrite 3 refresh accept 1 2\nread 4 friends:1\nturn 1 7\nturn 2 3\nturn 3 17\nturn 4\nend\n";

/// A writer that commits and is swept, and a reader behind the sweep.
const SWEPT: &[u8] =
    b"members 3\nlife 10\nwrite 1 invalidate rename 2 bob\nread 2 profile:2\nturn 1 2\ntick 10\nsweep 3\nturn 2 3\nend\n";

const PROFILE: QKey = QKey {
    kind: Kind::Profile,
    id: 2,
};

/// Whether the run ended done with so many commits.
fn is_done(end: &RunEnd<MapKeeper>, commits: u64) -> bool {
    end.status == Status::Done && end.log.len() == commits
}

#[test]
fn runs_are_fresh_hold_commits_and_meet_floors(rt: HostRuntime) -> Result<(), Fail> {
    let mut outside = outside_of(rt.alloc(), SCRIPT, 5, 7)?;
    assert!(rt; commits_one_fresh(rt.alloc(), &mut outside));
    // The text is at its end now.
    assert!(rt; never_begins(rt.alloc(), &mut outside));
    assert!(rt; never_begins_at_a_place(rt.alloc(), &mut outside));
    assert!(rt; has_no_history(rt.alloc(), &mut outside));
    assert!(rt; has_no_log(rt.alloc(), &mut outside));
    Ok(())
}

fn commits_one_fresh(alloc: Global, outside: &mut Outside) -> bool {
    let keeper = keeper(alloc);
    let end = runs::run_fresh(alloc, &mut outside.source, &mut outside.sink, keeper);
    is_done(&end, 1)
}

fn never_begins(alloc: Global, outside: &mut Outside) -> bool {
    let keeper = keeper(alloc);
    let end = runs::run_holding_commits(alloc, &mut outside.source, &mut outside.sink, keeper);
    end.opening.is_none()
}

fn never_begins_at_a_place(alloc: Global, outside: &mut Outside) -> bool {
    let (source, sink) = (&mut outside.source, &mut outside.sink);
    let end = runs::run_at(alloc, &Place::Fresh, source, sink, keeper(alloc));
    end.opening.is_none()
}

fn has_no_history(alloc: Global, outside: &mut Outside) -> bool {
    let keeper = keeper(alloc);
    let end = runs::run_above_floors(alloc, &mut outside.source, &mut outside.sink, keeper);
    end.histories.is_empty()
}

fn has_no_log(alloc: Global, outside: &mut Outside) -> bool {
    let keeper = keeper(alloc);
    let end = runs::run_covered(alloc, &mut outside.source, &mut outside.sink, keeper);
    end.log.is_empty()
}

#[test]
fn words_that_are_no_command_do_nothing(rt: HostRuntime) -> Result<(), Fail> {
    let mut outside = outside_of(rt.alloc(), SCRIPT, 5, 7)?;
    assert!(rt; is_refused(&rt, rt.alloc(), &mut outside)?);
    assert!(rt; outside.sink.taken().is_empty());
    Ok(())
}

/// Whether a run without words ends so.
fn is_refused(
    rt: &(impl Threads + Wait + Sync),
    alloc: Global,
    outside: &mut Outside,
) -> Result<bool, Fail> {
    let mut door = shut_door(alloc)?;
    let mut file = no_file(alloc)?;
    let clock = still_clock(alloc)?;
    let end = runs::run_refused(
        rt,
        alloc,
        &[],
        &mut outside.source,
        &mut outside.sink,
        keeper(alloc),
        &mut file,
        &mut door,
        &clock,
        &OpenGate,
    );
    Ok(end.status == Status::Usage)
}

#[test]
fn a_server_without_a_line_tells_that_it_served_none(rt: HostRuntime) -> Result<(), Fail> {
    let mut outside = outside_of(rt.alloc(), b"", 1, 7)?;
    let mut door = shut_door(rt.alloc())?;
    assert!(rt; serves_without_ends(&rt, rt.alloc(), &mut outside, &mut door, "serve x 5 2 2 3")?);
    assert!(rt; outside.sink.taken() == b"ready\nserved 0\n".as_slice());
    Ok(())
}

#[test]
fn a_server_that_stays_serves_all_lines_and_keeps_no_end(rt: HostRuntime) -> Result<(), Fail> {
    let mut outside = outside_of(rt.alloc(), b"", 1, 7)?;
    let mut door = door_of_three(rt.alloc())?;
    let words = "serve x forever 2 2 3";
    assert!(rt; serves_without_ends(&rt, rt.alloc(), &mut outside, &mut door, words)?);
    assert!(rt; outside.sink.taken() == b"ready\nserved 3\n".as_slice());
    assert!(rt; door.closed().len() == 3);
    assert!(rt;
        door.closed()
            .iter()
            .all(|line| line.taken() == b"ERROR\r\n".as_slice())
    );
    Ok(())
}

/// A door of three lines, each with an unknown command.
fn door_of_three(alloc: Global) -> Result<ListDoor, Fail> {
    let mut lines = Vec::new(alloc);
    for _ in 0..3 {
        let text = Vec::from_slice(alloc, b"what\r\nquit\r\n")?;
        let source = MemSource::new(text, 64, Vec::new(alloc));
        let sink = MemSink::new(alloc, 64, 64, Vec::new(alloc))?;
        lines.push(MemLine::new(source, sink))?;
    }
    Ok(ListDoor::new(alloc, lines, Vec::new(alloc))?)
}

/// Whether a server of these words, over two shards, ends done and keeps no end of a line.
fn serves_without_ends(
    rt: &(impl Threads + Wait + Sync),
    alloc: Global,
    outside: &mut Outside,
    door: &mut ListDoor,
    words: &str,
) -> Result<bool, Fail> {
    let words = words_of(alloc, words)?;
    let mut file = no_file(alloc)?;
    let clock = still_clock(alloc)?;
    let end = runs::run_server(
        rt,
        alloc,
        words.as_slice(),
        &mut outside.source,
        &mut outside.sink,
        keeper(alloc),
        &mut file,
        door,
        &clock,
        &OpenGate,
    );
    Ok(end.status == Status::Done && end.ends.is_empty() && end.histories.len() == 2)
}

#[test]
fn a_load_ends_with_a_clean_audit(rt: HostRuntime) -> Result<(), Fail> {
    let mut outside = outside_of(rt.alloc(), b"", 1, 7)?;
    assert!(rt; loads_two_shards(&rt, rt.alloc(), &mut outside)?);
    assert!(rt; outside.sink.taken().ends_with(b"\naudit clean\n"));
    Ok(())
}

/// Whether a load over two shards ends done.
fn loads_two_shards(
    rt: &(impl Threads + Wait + Sync),
    alloc: Global,
    outside: &mut Outside,
) -> Result<bool, Fail> {
    let words = words_of(alloc, "work 3 40 2 2 1")?;
    let mut door = shut_door(alloc)?;
    let mut file = no_file(alloc)?;
    let clock = still_clock(alloc)?;
    let end = runs::run_load(
        rt,
        alloc,
        words.as_slice(),
        &mut outside.source,
        &mut outside.sink,
        keeper(alloc),
        &mut file,
        &mut door,
        &clock,
        &OpenGate,
    );
    Ok(end.status == Status::Done && end.histories.len() == 2)
}

#[test]
fn a_reader_hits_what_a_writer_left(rt: HostRuntime) -> Result<(), Fail> {
    let mut outside = outside_of(rt.alloc(), REFRESH, 64, 64)?;
    let keeper = keeper(rt.alloc());
    let end = runs::run_serving_writes(rt.alloc(), &mut outside.source, &mut outside.sink, keeper);
    assert!(rt; is_done(&end, 2));
    Ok(())
}

#[test]
fn a_swept_writer_has_its_commit(rt: HostRuntime) -> Result<(), Fail> {
    let mut outside = outside_of(rt.alloc(), SWEPT, 64, 64)?;
    let keeper = keeper(rt.alloc());
    let end = runs::run_swept(rt.alloc(), &mut outside.source, &mut outside.sink, keeper);
    assert!(rt; is_done(&end, 1));
    Ok(())
}

#[test]
fn a_session_that_quits_is_ended_behind_its_quarantines(rt: HostRuntime) -> Result<(), Fail> {
    let mut shard = Shard::new(rt.alloc(), 0, 1, 8, 8, 1)?;
    let name = Name::of(b"bob").expect(&rt, "a name");
    let txn = Txn::of(rt.alloc(), &[Change::Rename { a: 2, name }])?;
    let plan = Plan::Quit {
        mode: Mode::Refresh,
        txn,
    };
    let mut session = Session::new(rt.alloc(), Sid { number: 1 }, plan)?;
    // The one key that it touches is quarantined, and it is told so.
    if let Some(request) = quits::quit_on(&mut session, &mut shard, 0) {
        request.let_go();
        session.let_go();
        panic!(rt; "no quarantine");
    }
    assert!(rt; shard.history().len() == 1);
    let request = quits::wants_to_quit(&mut session);
    assert!(rt; matches!(&request, Wanted::End));
    request.let_go();
    session.let_go();
    Ok(())
}

#[test]
fn two_runs_of_one_text_print_the_same(rt: HostRuntime) -> Result<(), Fail> {
    let alloc = rt.alloc();
    let mut source = MemSource::new(Vec::from_slice(alloc, SCRIPT)?, 1, Vec::new(alloc));
    let mut second = MemSource::new(Vec::from_slice(alloc, SCRIPT)?, 4096, Vec::new(alloc));
    let mut sink = MemSink::new(alloc, 4096, 3, Vec::new(alloc))?;
    let mut other = MemSink::new(alloc, 4096, 4096, Vec::new(alloc))?;
    let keepers = (keeper(alloc), keeper(alloc));
    let (first, then) = runs::run_twice(
        alloc,
        &mut source,
        &mut second,
        &mut sink,
        &mut other,
        keepers,
    );
    assert!(rt; first.status == Status::Done && then.status == Status::Done);
    assert!(rt; sink.taken() == other.taken());
    Ok(())
}

#[test]
fn a_run_without_a_fault_is_unharmed_and_one_without_a_script_leaves_no_trace(
    rt: HostRuntime,
) -> Result<(), Fail> {
    let alloc = rt.alloc();
    let mut source = MemSource::new(Vec::new(alloc), 5, Vec::new(alloc));
    let mut sink = MemSink::new(alloc, 4096, 7, Vec::new(alloc))?;
    let keeper = MapKeeper::new(Vec::new(alloc));
    let end = runs::run_unharmed(alloc, &mut source, &mut sink, keeper);
    assert!(rt; end.opening.is_none());
    assert!(rt; writes_nothing(alloc, &mut source, &mut sink));
    assert!(rt; sink.taken().is_empty());
    Ok(())
}

fn writes_nothing(alloc: Global, source: &mut MemSource, sink: &mut MemSink) -> bool {
    runs::run_not_begun(alloc, source, sink, keeper(alloc)).written == 0
}

#[test]
fn an_ended_session_does_not_commit(rt: HostRuntime) -> Result<(), Fail> {
    let alloc = rt.alloc();
    let Ok(mut store) = Store::new(alloc, keeper(alloc), &Place::Fresh, 3, 8) else {
        panic!(rt; "no store");
    };
    let Ok(txn) = Txn::of(alloc, &[Change::Invite { a: 1, b: 2 }]) else {
        panic!(rt; "no transaction");
    };
    let (fault, txn) = ended_commit(&rt, &mut store, txn)?;
    assert!(rt; fault == CommitFault::Ended);
    assert!(rt; uncovered_commit(&rt, &mut store, txn)? == CommitFault::Uncovered { key: PROFILE });
    stores::closed_sessions_never_commit();
    Ok(())
}

/// How the commit of a session that has ended is refused.
fn ended_commit(
    rt: &impl Abort,
    store: &mut Store<MapKeeper>,
    txn: Txn,
) -> Result<(CommitFault, Txn), Fail> {
    let sid = store.begin(true)?;
    match stores::commit_after_end(store, sid, txn, &[]) {
        Err(refused) => Ok(refused),
        Ok(_) => panic!(rt; "committed after its end"),
    }
}

/// How a commit without a grant is refused.
fn uncovered_commit(
    rt: &impl Abort,
    store: &mut Store<MapKeeper>,
    txn: Txn,
) -> Result<CommitFault, Fail> {
    let sid = store.begin(true)?;
    match stores::commit_covered(store, sid, txn, &[]) {
        Err((fault, _)) => Ok(fault),
        Ok(_) => panic!(rt; "committed without a grant"),
    }
}

#[test]
fn a_shard_serves_nothing_too_old_or_too_late(rt: HostRuntime) -> Result<(), Fail> {
    let alloc = rt.alloc();
    let mut shard = Shard::new(alloc, 0, 1, 8, 8, 1)?;
    let value = Value::of(alloc, b"m2 0 0")?;
    let set = shards::set_too_late(&mut shard, PROFILE, 1, value, 0, 0);
    assert!(rt; set == Ok(SetAnswer::Void));
    let got = shards::get_at_least(&mut shard, PROFILE, Sid { number: 1 }, 3, 0);
    assert!(rt; matches!(got, Ok(Got::Lease { token: 1 })));
    shards::hits_meet_their_floors();
    Ok(())
}
