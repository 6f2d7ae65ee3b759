// A desk in front of another, which keeps what was asked there and told.
ghost use Rattle.std.specs.Prelude.{◌≡◌, None};

use gate_workers::{Request, Response};
use key_shard::Got;
use rows_model::{Memory, Sid, Txn, Value};
use session_client::{Desk, Reply, Wanted};
use std::alloc::Global;

/// A request that a session made at a desk, and its reply.
#[derive(Drop)]
pub struct Call {
    pub sid: Sid,
    pub asked: Request,
    pub response: Response,
    /// The value that the request hands over, or that a hit gives.
    pub value: Option<Value>,
    /// The transaction that was committed.
    pub txn: Option<Txn>,
}

/// A desk that hands every call on to another, and keeps what was asked and told there. It counts how
/// often it tends.
#[derive(Drop)]
pub struct KeptDesk<D: Desk + Drop> {
    desk: D,
    calls: Vec<Call>,
    /// Whether memory ran out for a call, which isn't kept.
    lost: bool,
    /// How often it tended.
    tended: u64,
}

impl<D: Desk + Drop> KeptDesk<D> {
    /// A desk in front of this one, at which nothing was asked so far.
    pub fn new(alloc: Global, desk: D) -> KeptDesk<D> {
        KeptDesk {
            desk,
            calls: Vec::new(alloc),
            lost: false,
            tended: 0,
        }
    }

    /// How often it tended.
    pub fn tended(&self) -> u64 {
        self.tended
    }

    /// The calls in their order, if none was lost.
    pub fn into_calls(self) -> Result<Vec<Call>, Memory> {
        if self.lost {
            return Err(Memory);
        }
        Ok(self.calls)
    }

    /// Keeps a call, whose request handed over this value.
    fn keep(&mut self, sid: Sid, asked: Request, given: Option<Value>, reply: &Reply) {
        let response = Response::of(reply);
        match call_of(sid, asked, response, given, reply) {
            Ok(call) => self.lost = self.lost || self.calls.push(call).is_err(),
            Err(_) => self.lost = true,
        }
    }
}

impl<D: Desk + Drop> Desk for KeptDesk<D> {
    ghost begun = { λ desk. None };

    fn begin(&mut self, writes: bool) -> Result<Sid, Memory> {
        self.desk.begin(writes)
    }

    fn call(&mut self, sid: Sid, wanted: Wanted) -> Reply {
        let asked = Request::of(&wanted);
        let given = match value_given(&wanted) {
            Ok(given) => given,
            Err(_) => {
                self.lost = true;
                None
            }
        };
        let reply = self.desk.call(sid, wanted);
        self.keep(sid, asked, given, &reply);
        reply
    }

    fn tend(&mut self) {
        self.tended = self.tended.saturating_add(1);
        self.desk.tend();
    }
}

/// What is kept of a request, which handed over this value, and of its reply.
fn call_of(
    sid: Sid,
    asked: Request,
    response: Response,
    given: Option<Value>,
    reply: &Reply,
) -> Result<Call, Memory> {
    Ok(Call {
        sid,
        asked,
        response,
        value: value_told(reply)?.or(given),
        txn: txn_told(reply)?,
    })
}

/// The value that a request hands over.
fn value_given(wanted: &Wanted) -> Result<Option<Value>, Memory> {
    match wanted {
        Wanted::Set { value, .. }
        | Wanted::Sar {
            grant: _,
            value: Some(value),
            stamp: _,
        } => Ok(Some(value.copy()?)),
        _ => Ok(None),
    }
}

/// The value that a hit gives.
fn value_told(reply: &Reply) -> Result<Option<Value>, Memory> {
    match reply {
        Reply::Got {
            got: Got::Hit { value, stamp: _ },
        } => Ok(Some(value.copy()?)),
        _ => Ok(None),
    }
}

/// The transaction that a reply says was committed.
fn txn_told(reply: &Reply) -> Result<Option<Txn>, Memory> {
    match reply {
        Reply::Committed { txn, .. } => Ok(Some(txn.copy()?)),
        _ => Ok(None),
    }
}
