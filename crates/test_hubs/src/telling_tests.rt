// What is left of a desk's record, beside what the workers' rows tell.
use crate::checks::{check_ends, check_numbers};
use crate::plan_texts::lists_of;
use crate::telling_desks::{CallMark, TellingDesk};
use gate_workers::{Mark, Transcript, work_all};
use iq_outside::OpenGate;
use rows_model::Sid;
use session_client::Outcome;
use std::process::Abort;
use std::test::Fail;

/// The call at this place is of this session, and left this.
fn check_mark(rt: &impl Abort, calls: &[CallMark], place: usize, who: Sid, mark: Option<Mark>) {
    let Some(call) = calls.get(place) else {
        panic!(rt; "a call for each mark");
    };
    assert!(rt; call.who == who);
    assert!(rt; call.mark == mark);
}

/// What is left of a desk's calls is what the rows tell: that each session began, and its marks.
fn check_record(rt: &impl Abort, calls: &[CallMark], transcript: &Transcript) {
    let mut place = 0usize;
    for row in transcript.rows() {
        check_mark(rt, calls, place, row.sid(), None);
        place = place.saturating_add(1);
        for mark in row.marks() {
            check_mark(rt, calls, place, row.sid(), Some(*mark));
            place = place.saturating_add(1);
        }
    }
    assert!(rt; place == calls.len());
}

/// The desk at this place and its transcript tell the same, and it tended once for each row.
fn check_desk<R: Abort>(
    rt: &R,
    desk: TellingDesk<'_, R>,
    transcripts: &[Transcript],
    place: usize,
) {
    let Some(transcript) = transcripts.get(place) else {
        panic!(rt; "a transcript for each desk");
    };
    assert!(rt; desk.tended() == transcript.rows().len() as u64);
    let calls = desk.into_marks();
    check_record(rt, calls.as_slice(), transcript);
}

/// Each desk and its transcript tell the same.
fn check_desks<R: Abort>(rt: &R, desks: Vec<TellingDesk<'_, R>>, transcripts: &[Transcript]) {
    let mut desks = desks;
    while let Some(desk) = desks.pop() {
        check_desk(rt, desk, transcripts, desks.len());
    }
    desks.destroy_empty();
}

/// One worker reads and writes, and one writes.
const LISTS: [&str; 2] = [
    "members 3\nread 1 profile:1\nwrite 2 delta invite 1 2\nend",
    "members 3\nwrite 1 refresh invite 1 2\nend",
];

const COMMITTED: Outcome = Outcome::Committed { number: 1 };

/// How the sessions of the two workers end.
const ENDS: [&[Outcome]; 2] = [&[Outcome::Stored, COMMITTED], &[COMMITTED]];

#[test]
fn what_a_desk_records_is_in_the_rows(rt: HostRuntime) -> Result<(), Fail> {
    let alloc = rt.alloc();
    let lists = lists_of(&rt, alloc, &LISTS)?;
    let mut desks = Vec::with_capacity(alloc, 2)?;
    desks.push_reserved(TellingDesk::new(&rt, alloc));
    desks.push_reserved(TellingDesk::new(&rt, alloc));
    assert!(rt; desks.len() == lists.len());
    let transcripts = match work_all(&rt, alloc, &mut desks, lists.as_slice(), &OpenGate) {
        Ok(transcripts) => transcripts,
        Err(_) => panic!(rt; "memory"),
    };
    check_desks(&rt, desks, transcripts.as_slice());
    check_ends(&rt, transcripts.as_slice(), &ENDS);
    check_numbers(&rt, transcripts.as_slice());
    Ok(())
}
