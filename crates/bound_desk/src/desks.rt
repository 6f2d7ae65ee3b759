//! The desk of a worker over a bound hub: each call takes the lock of the key's shard or that of the
//! store, makes one request there with the desk's book, and lets go.
ghost use Rattle.std.specs.Prelude.{◌≡◌, []};
ghost use Rattle.session_client.specs.Belongs.{Belongs, get_reply};
ghost use Rattle.desk_book.specs.Books.{empty_book};
ghost use Rattle.desk_book.specs.Borne.{IsPut};
ghost use Rattle.bound_desk.specs.Records.{IsRecordSeen};
ghost use Rattle.bound_desk.specs.Safe.{drop_reply};
ghost use Rattle.bound_desk.specs.Told.{back_reply, AreShown};

use crate::bound_books::BoundBook;
use crate::records::{Look, Record};
use crate::requests::is_raise;
use crate::sweeps::{BoundSweep, drop_lapsed};
use crate::turns::{is_timed, turn_to_due};
use bound_hub::{BoundHub, BoundName};
use desk_book::Made;
use executor::key_of;
use expiry_sweeper::{SweepReply, SweepWanted, Sweeper};
use http_server::Log;
use iq_outside::{Clock, Gate, Point};
use key_shard::{Got, Raising, Rel};
use log_word::Pass;
use rows_model::{Memory, QKey, Sid};
use session_client::{Desk, Fault, Reply, Wanted};
use sql_keeper::Keeper;
use std::alloc::Global;
use std::marker::Model;
use std::sync::Wait;

/// A worker's desk over a bound hub. It keeps a book of what it told for its present session, and a pass
/// that has seen what the book says. Contracts see the book, what the pass has seen, and the calls that the
/// desk answered.
///
/// The pass has seen the Begin of each session that the desk began. A session's first get or quarantine has
/// left a step that names it, unless memory ran out or no token was left. Each call was made of its request
/// as the book said then, and its reply is shown by what the pass had seen when it was told.
///
/// A request that the book bears out is made as it is asked for, and any other in its safe form. A release
/// that keeps the value is Gone where the desk hasn't seen that the grant's session was ended without a
/// commit. A put by a grant that isn't to refresh drops the value. So does a shift by a grant that isn't to
/// shift, or of a key that is no count. A raise of a grant that isn't to invalidate is answered Shared.
#[derive(Drop)]
pub struct BoundDesk<'a, K: Keeper, H: BoundName, C: Clock, G: Gate, R: Wait> {
    rt: &'a R,
    alloc: Global,
    hub: &'a BoundHub<K, H>,
    worker: u32,
    clock: &'a C,
    gate: &'a G,
    notes: BoundBook<H>,
    calls: Record,
    sweeper: Sweeper,
    sweep: BoundSweep<H>,
}

impl<'a, K: Keeper, H: BoundName, C: Clock, G: Gate, R: Wait> Model
    for BoundDesk<'a, K, H, C, G, R> {
    ghost use Rattle.std.specs.Prelude.{◌≡◌};
    ghost use Rattle.expiry_sweeper.specs.Follows.{shards_of};
    ghost use Rattle.bound_desk.specs.Bound.{BoundDeskView};
    ghost use Rattle.bound_desk.specs.Records.{IsFreshBook, IsRecordSeen};
    ghost use Rattle.bound_desk.specs.Told.{AreShown};

    ghost Value = { BoundDeskView };

    ghost view = { λ desk. record {
      book = desk.notes.book;
      seen = desk.notes.seen;
      worker = desk.worker;
      calls = desk.calls;
    } };

    ghost invariant = { λ desk. (shards_of desk.sweeper ≡ desk.hub.now)
        × IsRecordSeen H.terms H.before H.word.shards desk.worker desk.calls desk.notes.seen
        × IsFreshBook desk.calls desk.notes.book.book
        × AreShown H.opening H.cap H.terms H.before H.word.shards desk.calls desk.notes.book.book
        desk.notes.seen };
}

impl<'a, K: Keeper, H: BoundName, C: Clock, G: Gate, R: Wait> BoundDesk<'a, K, H, C, G, R> {
    /// A desk of the worker of this number over the hub, with this pass of its word. It takes no lock and
    /// no memory.
    pub fn new(
        rt: &'a R,
        alloc: Global,
        hub: &'a BoundHub<K, H>,
        pass: Pass,
        worker: u32,
        clock: &'a C,
        gate: &'a G,
    ) -> BoundDesk<'a, K, H, C, G, R>
        requires { pass.word ≡ H.word }
        ensures book { result.book.book ≡ empty_book }
        ensures seen { result.seen ≡ pass.seen }
        ensures worker { result.worker ≡ worker }
        ensures calls { result.calls ≡ [] }
    {
        let mut pass = pass;
        let other = hub.pass(&mut pass);
        BoundDesk {
            rt,
            alloc,
            hub,
            worker,
            clock,
            gate,
            notes: BoundBook::new(alloc, pass),
            calls: Record::new(),
            sweeper: Sweeper::new(hub.shards()),
            sweep: BoundSweep::new(other),
        }
    }

    /// The pass of the desk's word, which has seen what the desk has: of each session that the desk began its
    /// Begin, and of its first request a step that names it. Each call shows what it answered by what had been
    /// seen then, which grows from call to call. The book goes, and so do the sweeper and what it has seen.
    pub fn into_pass(self) -> Pass
        ensures word { result.word ≡ H.word }
        ensures seen { result.seen ≡ self.entry.seen }
        ensures recorded { IsRecordSeen H.terms H.before H.word.shards self.entry.worker
            self.entry.calls result.seen }
        ensures shown { AreShown H.opening H.cap H.terms H.before H.word.shards
            self.entry.calls self.entry.book.book result.seen }
    {
        let BoundDesk {
            rt: _,
            alloc: _,
            hub: _,
            worker: _,
            clock: _,
            gate: _,
            notes,
            calls: _,
            sweeper: _,
            sweep: _,
        } = self;
        notes.into_pass()
    }
}

impl<'a, K: Keeper, H: BoundName, C: Clock, G: Gate, R: Wait> Desk
    for BoundDesk<'a, K, H, C, G, R> {
    ghost use Rattle.std.specs.Prelude.{None, Some};

    ghost begun = { λ desk. None };

    ghost record_of = { λ desk. Some desk.calls };

    ghost worker = { λ desk. Some desk.worker };

    fn begin(&mut self, writes: bool) -> Result<Sid, Memory> {
        let word = self.hub.word();
        let mut store = self.hub.lock_store(self.rt);
        self.gate.at(self.worker, Point::AtStore);
        let sid = self.notes.begin(word, &mut *store, self.worker, writes)?;
        self.calls = self.calls.began(sid, writes);
        Ok(sid)
    }

    /// Looks a key up for a session: as a hit first, for which no clock is read. Where a reader is told that a
    /// quarantine stands, and one is due on that shard, the worker's sweeper looks there next.
    fn get(&mut self, who: Sid, key: QKey, floor: u64) -> Result<Got, Fault> {
        let word = self.hub.word();
        let mut shard = self.hub.lock_of(self.rt, &key);
        let place = shard.no();
        self.gate.at(self.worker, Point::Inside { shard: place });
        let answer = match self.notes.reply_to_hit(word, &mut *shard, who, key, floor) {
            Some(got) => Ok(got),
            None => {
                let now = self.clock.now();
                let answer = self
                    .notes
                    .reply_to_get(word, &mut *shard, who, key, floor, now);
                turn_to_due(&mut self.sweeper, place, &answer, shard.next_due(), now);
                self.hub.note_due(place, shard.next_look());
                answer
            }
        };
        self.calls = self.calls.looked(&Look { who, key, floor }, &answer);
        answer
    }

    /// Makes a session's request as its book bears it out, and else in its safe form. A get is made by `get`.
    fn call(&mut self, who: Sid, request: Wanted) -> Reply {
        if let Wanted::Get { key, floor } = &request {
            let (key, floor) = (*key, *floor);
            request.let_go();
            return told(self.get(who, key, floor));
        }
        let asked = Log::new().and(&who, &request);
        let word = self.hub.word();
        let raises = is_raise(&request);
        let reply = match self.notes.made(who, request) {
            Ok(Made::One { request }) => match key_of(&request) {
                Some(key) => {
                    let mut shard = self.hub.lock_of(self.rt, &key);
                    let place = shard.no();
                    self.gate.at(self.worker, Point::Inside { shard: place });
                    let now = if is_timed(&request) {
                        self.clock.now()
                    } else {
                        0
                    };
                    let reply = self.notes.on_shard(word, &mut *shard, who, request, now);
                    self.hub.note_due(place, shard.next_look());
                    reply
                }
                None if matches!(&request, Wanted::Nothing) => {
                    request.let_go();
                    Reply::Nothing
                }
                None => {
                    let mut store = self.hub.lock_store(self.rt);
                    self.gate.at(self.worker, Point::AtStore);
                    self.notes
                        .at_store(word, self.alloc, &mut *store, who, request)
                }
            },
            Ok(Made::EndDrop { session, grant }) => {
                let is_over = {
                    let mut store = self.hub.lock_store(self.rt);
                    self.gate.at(self.worker, Point::AtStore);
                    self.notes.close(word, &mut *store, session)
                };
                if is_over {
                    let mut shard = self.hub.lock_of(self.rt, &grant.key());
                    let place = shard.no();
                    self.gate.at(self.worker, Point::Inside { shard: place });
                    let answer = self.notes.drop_value(word, &mut *shard, who, grant);
                    self.hub.note_due(place, shard.next_look());
                    dropped(raises, answer)
                } else {
                    grant.let_go();
                    dropped(raises, Rel::Gone)
                }
            }
            Ok(Made::Answered { reply }) => reply,
            Err(request) => back(request),
        };
        self.calls = self.calls.asked(&asked, &reply);
        reply
    }

    /// One step of the worker's own sweeper, under one lock. A shard on which no quarantine can be due yet,
    /// and no lease to read can have lapsed, is passed without its lock. Leases that have lapsed are dropped
    /// with the scan.
    fn tend(&mut self) {
        let word = self.hub.word();
        let reply = match self.sweeper.wants() {
            SweepWanted::Scan { shard } => {
                let due = self.hub.next_due(shard);
                if due == u64::MAX || self.clock.now() < due {
                    SweepReply::NoneFound { shard }
                } else {
                    let mut bound = self.hub.lock_at(self.rt, shard);
                    self.gate.at(self.worker, Point::Inside { shard });
                    let now = self.clock.now();
                    let found = self.sweep.scan(word, &mut *bound, now);
                    let _ = drop_lapsed(word, &mut *bound, now);
                    self.hub.note_due(shard, bound.next_look());
                    match found {
                        Some(due) => SweepReply::Found { shard, due },
                        None => SweepReply::NoneFound { shard },
                    }
                }
            }
            SweepWanted::End { sid } => {
                let mut store = self.hub.lock_store(self.rt);
                self.gate.at(self.worker, Point::AtStore);
                SweepReply::Ended {
                    closed: self.sweep.end(word, &mut *store, sid),
                }
            }
            SweepWanted::Drop { key, token } => {
                let mut bound = self.hub.lock_of(self.rt, &key);
                let shard = bound.no();
                self.gate.at(self.worker, Point::Inside { shard });
                SweepReply::Dropped {
                    answer: self.sweep.drop_value(word, &mut *bound, key, token),
                }
            }
        };
        self.sweeper.hear(reply);
    }
}

/// The reply to a get that was answered so.
fn told(answer: Result<Got, Fault>) -> Reply
    ensures { result ≡ get_reply answer }
{
    match answer {
        Ok(got) => Reply::Got { got },
        Err(fault) => Reply::Fault { fault },
    }
}

/// The reply to a release with a new value for which there was no memory: the grant comes back.
fn back(request: Wanted) -> Reply
    requires { IsPut request }
    ensures belongs { (who : Sid) → Belongs who request result }
    ensures reply { result ≡ back_reply request }
{
    match request {
        Wanted::Sar {
            grant,
            value: _,
            stamp: _,
        } => Reply::SarBack { grant },
        other => {
            other.let_go();
            unreachable!()
        }
    }
}

/// The reply to a request in whose place a grant was dropped: of a raise it is Gone.
fn dropped(raises: bool, answer: Rel) -> Reply
    ensures { result ≡ drop_reply raises answer }
{
    if raises {
        Reply::Raise {
            answer: Raising::Gone,
        }
    } else {
        Reply::Rel { answer }
    }
}
