// Compares what a run leaves with what is wanted.
use crate::kept_desks::Call;
use gate_workers::{Mark, Request, Response, Transcript};
use session_client::Outcome;
use std::process::Abort;

/// The sessions of each worker ended so.
pub fn check_ends(rt: &impl Abort, transcripts: &[Transcript], wanted: &[&[Outcome]]) {
    assert!(rt; transcripts.len() == wanted.len());
    for (transcript, outcomes) in transcripts.iter().zip(wanted) {
        check_outcomes(rt, transcript, outcomes);
    }
}

/// The sessions of a transcript ended so.
fn check_outcomes(rt: &impl Abort, transcript: &Transcript, wanted: &[Outcome]) {
    assert!(rt; transcript.rows().len() == wanted.len());
    for (row, outcome) in transcript.rows().iter().zip(wanted) {
        assert!(rt;
            row.outcome() == *outcome,
            "of session {}",
            row.sid().number
        );
    }
}

/// The sessions of each transcript are numbered from 1.
pub fn check_numbers(rt: &impl Abort, transcripts: &[Transcript]) {
    for transcript in transcripts {
        check_rows(rt, transcript);
    }
}

/// The sessions of a transcript are numbered from 1.
fn check_rows(rt: &impl Abort, transcript: &Transcript) {
    let mut number = 0u64;
    for row in transcript.rows() {
        number = number.saturating_add(1);
        assert!(rt; row.sid().number == number);
    }
}

/// These requests were made, and told so.
pub fn check_calls(rt: &impl Abort, calls: &[Call], wanted: &[Mark]) {
    assert!(rt; calls.len() == wanted.len());
    for (call, mark) in calls.iter().zip(wanted) {
        assert!(rt; call.asked == mark.asked);
        assert!(rt; call.response == mark.response);
    }
}

/// These values were handed over and were hit, with these stamps.
pub fn check_values(rt: &impl Abort, calls: &[Call], wanted: &[(&str, u64)]) {
    let mut left = wanted.iter();
    for call in calls {
        if let Some(value) = &call.value {
            let Some((text, stamp)) = left.next() else {
                panic!(rt; "one value too many");
            };
            assert!(rt; value.bytes() == text.as_bytes(), "{text} at {stamp}");
            assert!(rt; stamp_of(call) == Some(*stamp), "{text} at {stamp}");
        }
    }
    assert!(rt; left.next().is_none());
}

/// The stamp of the value that a call hands over, or that it is told.
fn stamp_of(call: &Call) -> Option<u64> {
    match call.response {
        Response::Hit { stamp } => Some(stamp),
        _ => stamp_given(call.asked),
    }
}

/// The stamp of the value that a request hands over.
fn stamp_given(asked: Request) -> Option<u64> {
    match asked {
        Request::Set { stamp, .. } => Some(stamp),
        Request::Sar { stamp, .. } => Some(stamp),
        _ => None,
    }
}
