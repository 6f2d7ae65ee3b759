// Whether a call at a desk tells what a step of a shard's history says.

use crate::kept_desks::Call;
use gate_workers::{Mark, Request, Response};
use key_shard::{Ended, Rel, Renewal, Step};
use lease_table::Mode;
use rows_model::{QKey, Sid, Value};

/// The key of a request on a shard. One at the store has none.
pub fn key_asked(asked: Request) -> Option<QKey> {
    match asked {
        Request::Get { key, floor: _ }
        | Request::Set { key, .. }
        | Request::QaReg { key }
        | Request::QaRead { key }
        | Request::Delta { key, by: _ }
        | Request::Dar { key, .. }
        | Request::Abort { key, .. }
        | Request::Apply { key, .. }
        | Request::Raise { key, .. }
        | Request::Renew { key, .. }
        | Request::Sar { key, .. } => Some(key),
        Request::Ask { key: _ }
        | Request::Staged { key: _ }
        | Request::Commit
        | Request::End
        | Request::Nothing => None,
    }
}

/// The session of a step. A set is that of the session that holds its token, from 1.
pub fn sid_of(step: &Step, holders: &[Sid]) -> Option<Sid> {
    match step {
        Step::Stored { token, .. } | Step::Void { token, .. } => {
            holders.get(token.saturating_sub(1) as usize).copied()
        }
        Step::Hit { sid, .. }
        | Step::Lease { sid, .. }
        | Step::Again { sid, .. }
        | Step::Own { key: _, sid }
        | Step::Granted { sid, .. }
        | Step::Held { sid, .. }
        | Step::Refused { sid, .. }
        | Step::Released { sid, .. }
        | Step::Gone { sid, .. }
        | Step::Raised { sid, .. }
        | Step::Shared { sid, .. }
        | Step::Renewed { sid, .. } => Some(*sid),
    }
}

/// Whether the call tells what the step says, as far as both say it.
pub fn agrees(call: &Call, step: &Step) -> bool {
    let mark = mark_of(step, call.asked);
    call.asked == mark.asked && call.response == mark.response && has_value(call, step)
}

/// Whether the call has the value that the step names. A quarantine that drops its key has none.
fn has_value(call: &Call, step: &Step) -> bool {
    match (value_of(step), &call.value) {
        (Some(value), Some(had)) => had.bytes() == value.bytes(),
        (Some(_), None) => false,
        (None, Some(_)) => !matches!(call.asked, Request::Sar { .. }),
        (None, None) => true,
    }
}

/// The value that a step names.
fn value_of(step: &Step) -> Option<&Value> {
    match step {
        Step::Hit { value, .. } | Step::Stored { value, .. } => Some(value),
        Step::Released {
            how: Ended::Put { value, .. },
            ..
        } => Some(value),
        _ => None,
    }
}

/// The mark that a request has to leave where the step came of it. What the step doesn't say is that of
/// the request.
fn mark_of(step: &Step, asked: Request) -> Mark {
    match step {
        Step::Granted {
            key,
            mode,
            shift,
            token,
            ..
        } => Mark {
            asked: quarantine(*key, *mode, *shift),
            response: Response::Granted { token: *token },
        },
        Step::Held { key, mode, .. } => Mark {
            asked: quarantine(*key, *mode, by_of(asked)),
            response: Response::Held,
        },
        Step::Refused {
            key,
            mode,
            holder,
            held,
            ..
        } => Mark {
            asked: quarantine(*key, *mode, by_of(asked)),
            response: Response::Refused {
                holder: *holder,
                mode: *held,
            },
        },
        Step::Released {
            key,
            token,
            how,
            ..
        } => ended(*key, *token, how, asked),
        Step::Gone { key, token, .. } => gone(*key, *token, asked),
        Step::Raised { key, token, .. } => Mark {
            asked: Request::Raise {
                key: *key,
                token: *token,
            },
            response: Response::Raised { token: *token },
        },
        Step::Shared {
            key,
            token,
            holder,
            ..
        } => Mark {
            asked: Request::Raise {
                key: *key,
                token: *token,
            },
            response: Response::Shared { holder: *holder },
        },
        Step::Renewed {
            key,
            token,
            deadline,
            ..
        } => Mark {
            asked: Request::Renew {
                key: *key,
                token: *token,
            },
            response: Response::Renew {
                answer: Some(Renewal::Renewed {
                    deadline: *deadline,
                }),
            },
        },
        _ => read(step, asked),
    }
}

/// The mark of a request for a quarantine that stood no longer.
fn gone(key: QKey, token: u64, asked: Request) -> Mark {
    match asked {
        Request::Raise { .. } => Mark {
            asked: Request::Raise { key, token },
            response: Response::RaiseGone,
        },
        Request::Renew { .. } => Mark {
            asked: Request::Renew { key, token },
            response: Response::Renew {
                answer: Some(Renewal::Gone),
            },
        },
        _ => Mark {
            asked: release(key, token, asked),
            response: Response::Rel { answer: Rel::Gone },
        },
    }
}

/// The mark of a reader's request.
fn read(step: &Step, asked: Request) -> Mark {
    match step {
        Step::Hit { key, floor, .. }
        | Step::Lease { key, floor, .. }
        | Step::Again { key, floor, .. } => got(*key, *floor, step),
        Step::Own { key, .. } => got(*key, floor_of(asked), step),
        _ => set(step, asked),
    }
}

/// The mark of a get.
fn got(key: QKey, floor: u64, step: &Step) -> Mark {
    let response = match step {
        Step::Hit { stamp, .. } => Response::Hit { stamp: *stamp },
        Step::Lease { token, .. } => Response::Lease { token: *token },
        Step::Again { standing, .. } => Response::Again {
            standing: *standing,
        },
        _ => Response::Own,
    };
    Mark {
        asked: Request::Get { key, floor },
        response,
    }
}

/// The mark of a set.
fn set(step: &Step, asked: Request) -> Mark {
    match step {
        Step::Stored {
            key,
            token,
            stamp,
            evicted,
            ..
        } => Mark {
            asked: Request::Set {
                key: *key,
                token: *token,
                stamp: *stamp,
            },
            response: Response::Stored { evicted: *evicted },
        },
        Step::Void { key, token, .. } => Mark {
            asked: Request::Set {
                key: *key,
                token: *token,
                stamp: stamp_of(asked),
            },
            response: Response::Void,
        },
        _ => Mark {
            asked: Request::Nothing,
            response: Response::Nothing,
        },
    }
}

/// The quarantine in this mode, which shifts by so much in mode Delta.
fn quarantine(key: QKey, mode: Mode, by: i32) -> Request {
    match mode {
        Mode::Invalidate => Request::QaReg { key },
        Mode::Refresh => Request::QaRead { key },
        Mode::Delta => Request::Delta { key, by },
    }
}

/// The mark of a release that ended its quarantine so.
fn ended(key: QKey, token: u64, how: &Ended, asked: Request) -> Mark {
    let (asked, evicted) = match how {
        Ended::Keep => (Request::Abort { key, token }, None),
        Ended::Drop => match asked {
            Request::Sar { stamp, .. } => (Request::Sar { key, token, stamp }, None),
            _ => (Request::Dar { key, token }, None),
        },
        Ended::Put { stamp, evicted, .. } => (
            Request::Sar {
                key,
                token,
                stamp: *stamp,
            },
            *evicted,
        ),
        Ended::Shift { by: _, stamp } => (
            Request::Apply {
                key,
                token,
                stamp: *stamp,
            },
            None,
        ),
    };
    Mark {
        asked,
        response: Response::Rel {
            answer: Rel::Released { evicted },
        },
    }
}

/// The release of this key and token that is of the kind of the request.
fn release(key: QKey, token: u64, asked: Request) -> Request {
    match asked {
        Request::Sar { stamp, .. } => Request::Sar { key, token, stamp },
        Request::Apply { stamp, .. } => Request::Apply { key, token, stamp },
        Request::Abort { .. } => Request::Abort { key, token },
        _ => Request::Dar { key, token },
    }
}

fn floor_of(asked: Request) -> u64 {
    match asked {
        Request::Get { floor, .. } => floor,
        _ => 0,
    }
}

fn stamp_of(asked: Request) -> u64 {
    match asked {
        Request::Set { stamp, .. } => stamp,
        _ => 0,
    }
}

fn by_of(asked: Request) -> i32 {
    match asked {
        Request::Delta { by, .. } => by,
        _ => 0,
    }
}
