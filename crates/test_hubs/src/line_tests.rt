// Lines that are served at the desks of a hub of 64 shards. A writer that is gone has left a quarantine: a reader
// that asks for its key again and again is served by the fourth get behind the deadline. The session of a client
// that goes is given up before its last replies are written. And each call on the keeper fails once.
ghost use Rattle.std.specs.Prelude.{◌≡◌};
ghost use Rattle.session_client.specs.Plans.{IsShape};
ghost use Rattle.test_hubs.specs.Hubs.{IsMadeFor, IsNewHub};

use crate::hubs::{MadeOf, desk_of, failing_store, hub_of, store_of};
use crate::runs::PROFILES;
use crate::watched_lines::{Passed, WatchedLine};
use bound_hub::{BoundHub, BoundName};
use conn_server::{LineEnd, serve_line};
use iq_outside::{Line, ListClock, MemLine, MemSink, MemSource, OpenGate};
use log_word::Pass;
use plain_ops::Plain;
use session_client::{Desk, Shape, Wanted};
use sql_keeper::{MapKeeper, Store};
use std::alloc::Global;
use std::marker::Brand;
use std::process::Abort;
use std::sync::Wait;
use std::sync::atomic::{AtomicU64, Ordering};
use std::test::Fail;

/// 64 shards, and leases that live 100 milliseconds.
const SHAPE: Shape = Shape {
    members: 3,
    shards: 64,
    room: 16,
    life: 100,
};

/// The time goes on, past the deadline of each quarantine that was given at first.
const TIMES: [u64; 2] = [0, 1_000_000];

/// What the reader says, and what it is told.
const ASKS: &[u8] =
    b"begin read\r\niqget profile:2 2 0\r\niqget profile:2 2 0\r\niqget profile:2 2 0\r\n\
    iqget profile:2 2 0\r\nquit\r\n";

const TOLD: &[u8] = b"SESSION 2\r\nAGAIN Q\r\nAGAIN Q\r\nAGAIN Q\r\nLEASE 2\r\n";

/// What a writer says that goes before its commit: by its end it has taken four locks, two of them to give up.
const GOES: &[u8] = b"begin write\r\nqareg profile:2 1\r\nquit\r\n";

/// What a writer says whose change is one call on the keeper, the second. The first call starts the keeper.
const WRITES: &[u8] = b"begin write\r\nqareg profile:2 1\r\nsql 1 rename 2 bob\r\nquit\r\n";

/// What a reader says behind it whose two questions are the next two calls.
const READS: &[u8] = b"begin read\r\niqget profile:2 2 0\r\nask profile:2 2\r\nask profile:2 2\r\n\
    iqset profile:2 0 0 7 2 1\r\nbob 0 0\r\niqget profile:2 2 0\r\nquit\r\n";

/// The same where the change wasn't made.
const READS_OLD: &[u8] =
    b"begin read\r\niqget profile:2 2 0\r\nask profile:2 2\r\nask profile:2 2\r\n\
    iqset profile:2 0 0 6 2 0\r\nm2 0 0\r\niqget profile:2 2 0\r\nquit\r\n";

/// A call on the keeper that fails, and what both clients say and are told then.
#[derive(Clone, Copy)]
struct Failing {
    call: u64,
    writer: &'static [u8],
    asks: &'static [u8],
    reader: &'static [u8],
}

/// None fails, or one of the three: of a failed change the client is told, and its quarantine is lifted when it goes;
/// who asks again is answered.
const FAILING: [Failing; 4] = [
    Failing {
        call: 0,
        writer: b"SESSION 1\r\nGRANTED 1\r\nCOMMITTED 1\r\n",
        asks: READS,
        reader: b"SESSION 2\r\nLEASE 2\r\nVALUE profile:2 0 7 1\r\nbob 0 0\r\nEND\r\n\
            VALUE profile:2 0 7 1\r\nbob 0 0\r\nEND\r\nSTORED\r\n\
            VALUE profile:2 0 7 1\r\nbob 0 0\r\nEND\r\n",
    },
    Failing {
        call: 2,
        writer: b"SESSION 1\r\nGRANTED 1\r\nSERVER_ERROR store\r\n",
        asks: READS_OLD,
        reader: b"SESSION 2\r\nLEASE 2\r\nVALUE profile:2 0 6 0\r\nm2 0 0\r\nEND\r\n\
            VALUE profile:2 0 6 0\r\nm2 0 0\r\nEND\r\nSTORED\r\n\
            VALUE profile:2 0 6 0\r\nm2 0 0\r\nEND\r\n",
    },
    Failing {
        call: 3,
        writer: b"SESSION 1\r\nGRANTED 1\r\nCOMMITTED 1\r\n",
        asks: READS,
        reader: b"SESSION 2\r\nLEASE 2\r\nSERVER_ERROR store\r\n\
            VALUE profile:2 0 7 1\r\nbob 0 0\r\nEND\r\nSTORED\r\n\
            VALUE profile:2 0 7 1\r\nbob 0 0\r\nEND\r\n",
    },
    Failing {
        call: 4,
        writer: b"SESSION 1\r\nGRANTED 1\r\nCOMMITTED 1\r\n",
        asks: READS,
        reader: b"SESSION 2\r\nLEASE 2\r\nVALUE profile:2 0 7 1\r\nbob 0 0\r\nEND\r\n\
            SERVER_ERROR store\r\nSTORED\r\nVALUE profile:2 0 7 1\r\nbob 0 0\r\nEND\r\n",
    },
];

/// What is looked at.
#[derive(Clone, Copy)]
enum Trial {
    Swept,
    GivenUp,
    Fails(Failing),
}

/// A line in memory of which this is said.
fn line_of(alloc: Global, said: &[u8]) -> Result<MemLine, Fail> {
    let source = MemSource::new(Vec::from_slice(alloc, said)?, 4096, Vec::new(alloc));
    let sink = MemSink::new(alloc, 4096, 4096, Vec::new(alloc))?;
    Ok(MemLine::new(source, sink))
}

/// Whether this goes as it must over a new hub.
fn goes_well<H: BoundName + Send + Sync, R: Wait + Abort>(
    rt: &R,
    alloc: Global,
    shape: &Shape,
    store: Store<MapKeeper>,
    made: MadeOf,
    clock: &ListClock,
    trial: Trial,
) -> Result<bool, Fail>
    requires shape { IsShape shape.now }
    requires made { IsMadeFor shape.now.shards made.ledger.parts
        made.word.0 made.word.1 made.word.2.items made.word.3 }
    requires ledger { (made.ledger.name ≡ H.name) × (made.ledger.parts ≡ H.parts) }
    requires named { IsNewHub H.word H.before H.begun H.failed H.terms H.opening H.cap
        H.known_rows H.start shape.now store made.word.0 }
{
    let (hub, mut pass) = hub_of::<H>(rt, alloc, shape, store, made)?;
    let well = match trial {
        Trial::Swept => is_served(rt, alloc, &hub, &mut pass, clock)?,
        Trial::GivenUp => gives_up_first(rt, alloc, &hub, &mut pass, clock)?,
        Trial::Fails(failing) => goes_on(rt, alloc, &hub, &mut pass, clock, &failing)?,
    };
    let (store, _) = hub.into_parts(Vec::new(alloc));
    let _ = store.into_parts();
    Ok(well)
}

/// A writer begins at one desk, quarantines the key and is never heard of again; the reader is served at another.
fn is_served<H: BoundName + Send + Sync, R: Wait + Abort>(
    rt: &R,
    alloc: Global,
    hub: &BoundHub<MapKeeper, H>,
    pass: &mut Pass,
    clock: &ListClock,
) -> Result<bool, Fail>
    requires { pass.old.word ≡ H.word }
{
    let mut gone = desk_of(rt, alloc, hub, pass, 0, clock, &OpenGate);
    let writer = gone.begin(true)?;
    let key = PROFILES[0];
    gone.call(writer, Wanted::QaReg { key }).let_go();
    let mut desk = desk_of(rt, alloc, hub, pass, 1, clock, &OpenGate);
    let mut line = line_of(alloc, ASKS)?;
    let mut plain = Plain::new(alloc, 1);
    let end = serve_line(alloc, &mut line, &mut desk, &mut plain);
    Ok(end == LineEnd::Quit && line.taken() == TOLD)
}

/// A writer goes, and its desk has taken all its locks before the line is written to.
fn gives_up_first<H: BoundName + Send + Sync, R: Wait + Abort>(
    rt: &R,
    alloc: Global,
    hub: &BoundHub<MapKeeper, H>,
    pass: &mut Pass,
    clock: &ListClock,
) -> Result<bool, Fail>
    requires { pass.old.word ≡ H.word }
{
    let gate = Passed {
        times: AtomicU64::new(0),
    };
    let mut desk = desk_of(rt, alloc, hub, pass, 0, clock, &gate);
    let mut line = WatchedLine::new(line_of(alloc, GOES)?, &gate);
    let mut plain = Plain::new(alloc, 1);
    let end = serve_line(alloc, &mut line, &mut desk, &mut plain);
    line.finish();
    let times = gate.times.load(Ordering::SeqCst);
    Ok(end == LineEnd::Quit && line.passed() == Some(4) && times == 4)
}

/// A writer and then a reader are served at one desk, while a call on the keeper fails.
fn goes_on<H: BoundName + Send + Sync, R: Wait + Abort>(
    rt: &R,
    alloc: Global,
    hub: &BoundHub<MapKeeper, H>,
    pass: &mut Pass,
    clock: &ListClock,
    failing: &Failing,
) -> Result<bool, Fail>
    requires { pass.old.word ≡ H.word }
{
    let mut desk = desk_of(rt, alloc, hub, pass, 0, clock, &OpenGate);
    let mut plain = Plain::new(alloc, 1);
    let mut writer = line_of(alloc, WRITES)?;
    let mut reader = line_of(alloc, failing.asks)?;
    let left = serve_line(alloc, &mut writer, &mut desk, &mut plain);
    let end = serve_line(alloc, &mut reader, &mut desk, &mut plain);
    let is_told = writer.taken() == failing.writer && reader.taken() == failing.reader;
    Ok(left == LineEnd::Quit && end == LineEnd::Quit && is_told)
}

#[test]
fn a_server_goes_on_whichever_call_on_its_keeper_fails(rt: HostRuntime) -> Result<(), Fail> {
    for failing in FAILING.iter() {
        let clock = ListClock::new(Vec::from_slice(rt.alloc(), &[0])?);
        let fails = Vec::from_slice(rt.alloc(), &[failing.call])?;
        let store = failing_store(&rt, rt.alloc(), 3, fails);
        let made = MadeOf::new(rt.alloc(), SHAPE.shards)?;
        let trial = Trial::Fails(*failing);
        let well = goes_well::<Brand, _>(&rt, rt.alloc(), &SHAPE, store, made, &clock, trial)?;
        assert!(rt; well);
    }
    Ok(())
}

#[test]
fn the_fourth_get_is_served_and_who_goes_is_given_up_first(rt: HostRuntime) -> Result<(), Fail> {
    for trial in [Trial::Swept, Trial::GivenUp].iter() {
        let clock = ListClock::new(Vec::from_slice(rt.alloc(), &TIMES)?);
        let store = store_of(&rt, rt.alloc(), 3);
        let made = MadeOf::new(rt.alloc(), SHAPE.shards)?;
        let well = goes_well::<Brand, _>(&rt, rt.alloc(), &SHAPE, store, made, &clock, *trial)?;
        assert!(rt; well);
    }
    Ok(())
}
