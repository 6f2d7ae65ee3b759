// A server: connections from a door, each served by a worker on a desk of its own over one hub.
ghost use Rattle.std.specs.Prelude.{◌≡◌, ◌≢◌, ◌≤◌, ◌++◌, ℕ, [], List, Option, Some, None, IfOk, IfSome, IfErr, OnOk, IsSome, is_none, length, vec_capacity};
ghost use Rattle.std.specs.Bool.{IsFalse};
ghost use Rattle.std.specs.Option.{ForSome};
ghost use Rattle.iq_outside.specs.Outside.{Rose};
ghost use Rattle.rows_model.specs.Rows.{Tables};
ghost use Rattle.sql_keeper.specs.Log.{no_cap};
ghost use Rattle.sql_keeper.specs.Stores.{opened};
ghost use Rattle.shard_lock.specs.Names.{AreAll, AreLegal, IsNamedStore};
ghost use Rattle.bound_hub.specs.Ties.{IsNewStore};
ghost use Rattle.top_run.specs.Ready.{IsServeReady, MakeHub, NamesParts};
ghost use Rattle.top_run.specs.Runs.{Held, Input, Prints, moment, seen, held_at, IsOpened, RoseWhere, CountsWhere, left_at, is_read_fault, is_write_fault, is_door_fault, is_file_fault, is_keep_fault};
ghost use Rattle.top_run.specs.Begins.{FilesSeen, HasBegun, beginning_of, files_seen};
ghost use Rattle.top_run.specs.Saves.{SavesAt};
ghost use Rattle.top_run.specs.Serves.{serve_shape, serve_rolls, begun_line, cold_words, ready_text, served_line, BeginsBy, IsServedText, HasServed, course_of, ServeEnded};
ghost use Rattle.top_run.specs.Warming.{AreRight, IsAnew, IsServeReadyAnew, NamesAnew};
ghost use Rattle.run_words.specs.Words.{IsServe, most_served};
ghost use Rattle.door_workers.specs.Attending.{seen_at};
ghost use Rattle.door_workers.specs.Ends.{AreServed};
ghost use Rattle.top_run.specs.Works.{hub_terms};
ghost use Rattle.top_run.specs.declared.runs.Status.{Status};
ghost use Rattle.top_run.specs.declared.serves.Begun.{Begun};
ghost use Rattle.std.specs.List.{join_with_byte};

use crate::endings::{not_started, start_status};
use crate::hubs::{HubParts, LIFE, Parts, desks_over, ended_hub, parts_for};
use crate::printing::print;
use crate::runs::{RunEnd, Status};
use crate::saves::saved;
use crate::summaries::push_field;
use crate::warm_starts::shards_begun;
use bound_hub::{BoundHub, BoundName};
use cache_file::CacheFile;
use conn_server::LineEnd;
use door_workers::{Attended, serve_all};
use iq_outside::{Clock, Door, Gate, Sink};
use itoa::Buffer;
use key_shard::Shard;
use log_word::Pass;
use plain_ops::{Plain, PlainBox};
use rows_model::Memory;
use run_words::ServeSpec;
use session_client::{Desk, Shape};
use shard_lock::StartOf;
use sql_keeper::{Keeper, NO_CAP, NoStore, Place, Start, Store};
use std::alloc::Global;
use std::marker::Brand;
use std::sync::Wait;
use std::thread::Threads;

/// How many entries a shard of a server has room for.
pub(crate) const ROOM: u32 = 4096;

/// How a server's cache begins.
#[derive(Clone, Copy)]
pub enum Begun {
    /// It has no file, and is new.
    New,
    /// It has a file, of which nothing was taken over, and is new.
    Cold { cause: ColdCause },
    /// It has so many entries that were taken over from its file.
    Warm { rows: u64 },
}

/// Why nothing is taken over from the file of a cache.
#[derive(Clone, Copy)]
pub enum ColdCause {
    /// There is no such file.
    NoFile,
    /// The file couldn't be read.
    FileFault,
    /// What the file has is no cache of so many shards, or one of more rows than a shard has room for.
    NoCache,
    /// A value in it isn't what the store answers.
    OtherRows,
    /// A call of the store failed.
    StoreFault,
    /// Memory ran out.
    Memory,
}

/// What all parts of a server share, and none changes.
#[derive(Drop)]
struct Server<'a, C, G, R> {
    /// What threads and waiting are asked of.
    rt: &'a R,
    alloc: Global,
    /// What is served.
    spec: &'a ServeSpec,
    /// The clock of the leases.
    clock: &'a C,
    /// Where a worker may be held up.
    gate: &'a G,
}

/// Serves the lines that the door gives, over a store with this keeper at this place. What needs memory
/// before the store is there before the keeper starts; the hub, its desks and room for the ends of all
/// lines, where a number of them is served, are there before the door is bound, and the first line is
/// written once it is. The shards roll: at the end the steps are handed out that each has in memory, the
/// last of its history.
///
/// Where a file is named for the cache, it begins with what is right in that, and a line tells so. Once all is
/// done the store is asked for each entry, and those that are right are written there. No log is kept in memory.
pub(crate) fn serve<
    W: Sink,
    K: Keeper + Send,
    F: CacheFile,
    D: Door,
    C: Clock,
    G: Gate,
    R: Threads + Wait + Sync,
>(
    rt: &R,
    alloc: Global,
    place: &Place,
    spec: &ServeSpec,
    sink: &mut W,
    keeper: K,
    file: &mut F,
    door: &mut D,
    clock: &C,
    gate: &G,
) -> RunEnd<K>
    requires { IsServe spec.now }
    ensures ended { (unread : Input) →
        let held = held_at place.now (K.holds keeper place.now) in
        let before = seen unread W.Sink K.Keeper sink.old keeper in
        let after = seen unread W.Sink K.Keeper sink.new result.keeper in
        let tells = seen_at D.bound D.lines D.faults D.ended D.closed in
        let files = files_seen F.CacheFile in
        ServeEnded result.status spec.now
        (course_of held before after (tells door.old) (tells door.new)
        (files file.old) (files file.new) result) }
    ensures started { IsSome result.opening → K.is_started result.keeper }
    ensures unstarted { result.opening ≡ None → K.is_started result.keeper → K.is_started keeper }
    ensures writes { CountsWhere W.faults (is_write_fault result.status) sink.old sink.new }
    ensures doors { CountsWhere D.faults (is_door_fault result.status) door.old door.new }
    ensures lines { D.fresh door.old → AreServed (most_served spec.now.conns)
        result.ends.items (D.closed door.old) (D.closed door.new) }
    ensures command { result.status ≢ Status.Usage }
    ensures none_earlier { result.earlier.items ≡ [] }
    ensures no_read_fault { IsFalse (is_read_fault result.status) }
    ensures keeper_never_falls { K.faults keeper ≤ K.faults result.keeper }
    ensures saves { SavesAt spec.now.warm result.status spec.now (K.rows result.keeper)
        (left_at result) (F.text_at file.old) (F.text_at file.new) }
    ensures file_fault { result.status ≡ Status.FileFault →
        Rose (F.faults file.old) (F.faults file.new) }
    ensures file_never_falls { F.faults file.old ≤ F.faults file.new }
{
    let Ok(ready) = ready_for(alloc, spec) else {
        return not_started(alloc, Status::Memory, keeper);
    };
    match Store::new(alloc, keeper, place, spec.members, NO_CAP) {
        Ok(store) => {
            let server = Server {
                rt,
                alloc,
                spec,
                clock,
                gate,
            };
            serve_begun::<Brand, _, _, _, _, _, _, _>(&server, sink, store, ready, file, door)
        }
        Err(NoStore { keeper, cause }) => not_started(alloc, start_status(cause), keeper),
    }
}

/// What a server is run with: the parts of its hub, room for the ends of all lines, where a number of them is
/// served, and how its cache begins.
#[derive(Drop)]
struct Ready {
    parts: Parts,
    ends: Vec<LineEnd>,
    begun: Begun,
}

fn ready_for(alloc: Global, spec: &ServeSpec) -> Result<Ready, Memory>
    requires { IsServe spec.now }
    ensures { IfOk result (IsServeReady spec.now (hub_terms (serve_shape spec.now) serve_rolls)) }
{
    let most = spec.conns.most().unwrap_or(0);
    Ok(Ready {
        parts: parts_for(alloc, &shape_of(spec), true)?,
        ends: Vec::with_capacity(alloc, most as usize)?,
        begun: Begun::New,
    })
}

/// The shape of a server's hub.
fn shape_of(spec: &ServeSpec) -> Shape
    ensures { result ≡ serve_shape spec.now }
{
    Shape {
        members: spec.members,
        shards: spec.shards,
        room: ROOM,
        life: LIFE,
    }
}

/// Names the count of faults of a store that was just started, begins the cache, and serves.
fn serve_begun<
    N: Start,
    W: Sink,
    K: Keeper + Send,
    F: CacheFile,
    D: Door,
    C: Clock,
    G: Gate,
    R: Threads + Wait + Sync,
>(
    server: &Server<'_, C, G, R>,
    sink: &mut W,
    store: Store<K>,
    ready: Ready,
    file: &mut F,
    door: &mut D,
) -> RunEnd<K>
    requires serve { IsServe server.now.spec.now }
    requires start { N.count ≡ Some store.faults }
    requires new { store.ledger ≡ opened store.ledger.opening no_cap }
    requires ready { IsServeReady server.now.spec.now
        (hub_terms (serve_shape server.now.spec.now) serve_rolls) ready }
    ensures ended { (unread : Input) (rows : Option Tables) (held : Held) →
        IsOpened held (serve_shape server.now.spec.now) store.ledger.opening store.known_rows →
        let before = moment unread (W.taken sink.old) (W.faults sink.old) rows store.faults in
        let after = seen unread W.Sink K.Keeper sink.new result.keeper in
        let tells = seen_at D.bound D.lines D.faults D.ended D.closed in
        let files = files_seen F.CacheFile in
        ServeEnded result.status server.now.spec.now
        (course_of held before after (tells door.old) (tells door.new)
        (files file.old) (files file.new) result) }
    ensures started { K.is_started result.keeper }
    ensures began { IsSome result.opening }
    ensures writes { CountsWhere W.faults (is_write_fault result.status) sink.old sink.new }
    ensures doors { CountsWhere D.faults (is_door_fault result.status) door.old door.new }
    ensures lines { D.fresh door.old → AreServed (most_served server.now.spec.now.conns)
        result.ends.items (D.closed door.old) (D.closed door.new) }
    ensures command { result.status ≢ Status.Usage }
    ensures none_earlier { result.earlier.items ≡ [] }
    ensures no_read_fault { IsFalse (is_read_fault result.status) }
    ensures keeper_never_falls { store.faults ≤ K.faults result.keeper }
    ensures saves { SavesAt server.now.spec.now.warm result.status server.now.spec.now
        (K.rows result.keeper) (left_at result) (F.text_at file.old) (F.text_at file.new) }
    ensures file_fault { result.status ≡ Status.FileFault →
        Rose (F.faults file.old) (F.faults file.new) }
    ensures file_never_falls { F.faults file.old ≤ F.faults file.new }
{
    let alloc = server.alloc;
    let now = server.clock.now().min(u64::MAX - 1);
    let mut store = store.named::<N>();
    let Ready { parts, ends, .. } = ready;
    let Parts { hub, histories } = parts;
    let HubParts {
        shards,
        ledger,
        word,
    } = hub;
    let (shards, begun) = shards_begun(alloc, server.spec, file, &mut store, shards, now);
    // A store tells of its log that the keeper's rows are those after it.
    let _ = store.log();
    // Its count of failed calls is one of its type.
    let _ = store.failed();
    let hub = HubParts {
        shards,
        ledger,
        word,
    };
    let ready = Ready {
        parts: Parts { hub, histories },
        ends,
        begun,
    };
    serve_store::<Brand, _, _, _, _, _, _, _, _>(server, sink, store, ready, file, door)
}

/// Serves over a store whose log is empty, saves the cache, and ends.
fn serve_store<
    H: BoundName + Send + Sync,
    N: Start,
    W: Sink,
    K: Keeper + Send,
    F: CacheFile,
    D: Door,
    C: Clock,
    G: Gate,
    R: Threads + Wait + Sync,
>(
    server: &Server<'_, C, G, R>,
    sink: &mut W,
    store: Store<K, N>,
    ready: Ready,
    file: &mut F,
    door: &mut D,
) -> RunEnd<K>
    requires serve { IsServe server.now.spec.now }
    requires anew { IsAnew no_cap store }
    requires ready { IsServeReadyAnew server.now.spec.now
        store.known_rows store.ledger.opening ready }
    requires named { NamesAnew (serve_shape server.now.spec.now) serve_rolls store N.count H.start
        H.terms H.opening H.cap H.known_rows H.name H.parts H.word H.before H.begun H.failed
        ready.parts.hub }
    requires never_fell { ForSome N.count (λ start. start ≤ store.faults) }
    ensures ended { (unread : Input) (rows : Option Tables) (start : ℕ) (held : Held)
        (first : FilesSeen) → N.count ≡ Some start →
        IsOpened held (serve_shape server.now.spec.now) store.ledger.opening store.known_rows →
        HasBegun server.now.spec.now
        (beginning_of first (files_seen F.CacheFile file.old) store) ready.begun →
        let before = moment unread (W.taken sink.old) (W.faults sink.old) rows start in
        let after = seen unread W.Sink K.Keeper sink.new result.keeper in
        let tells = seen_at D.bound D.lines D.faults D.ended D.closed in
        ServeEnded result.status server.now.spec.now
        (course_of held before after (tells door.old) (tells door.new)
        first (files_seen F.CacheFile file.new) result) }
    ensures started { K.is_started result.keeper }
    ensures began { IsSome result.opening }
    ensures writes { CountsWhere W.faults (is_write_fault result.status) sink.old sink.new }
    ensures doors { CountsWhere D.faults (is_door_fault result.status) door.old door.new }
    ensures lines { D.fresh door.old → AreServed (most_served server.now.spec.now.conns)
        result.ends.items (D.closed door.old) (D.closed door.new) }
    ensures command { result.status ≢ Status.Usage }
    ensures none_earlier { result.earlier.items ≡ [] }
    ensures no_read_fault { IsFalse (is_read_fault result.status) }
    ensures keeper_never_falls { ForSome N.count (λ start. start ≤ K.faults result.keeper) }
    ensures saves { SavesAt server.now.spec.now.warm result.status server.now.spec.now
        (K.rows result.keeper) (left_at result) (F.text_at file.old) (F.text_at file.new) }
    ensures file_fault { result.status ≡ Status.FileFault →
        Rose (F.faults file.old) (F.faults file.new) }
    ensures file_never_falls { F.faults file.old ≤ F.faults file.new }
{
    let alloc = server.alloc;
    let Ready { parts, ends, begun } = ready;
    let Parts { hub, histories } = parts;
    let Ran {
        mut store,
        shards,
        served,
    } = serve_over_hub::<H, _, _, _, _, _, _>(
        server,
        sink,
        store.renamed::<StartOf<H>>(),
        hub,
        door,
        ends,
        begun,
    );
    let Served {
        status,
        ends,
        written,
    } = served;
    // Its count of failed calls is one of its type.
    let _ = store.failed();
    let path = &server.spec.warm;
    let status = saved(alloc, file, path, status, &mut store, shards.as_slice());
    ended_hub(
        status,
        store,
        shards,
        histories,
        ends,
        Vec::new(alloc),
        written,
    )
}

/// How the serving ended: with which status, how each line ended, where a number of them was served, and
/// how many bytes were written.
#[derive(Drop)]
struct Served {
    status: Status,
    ends: Vec<LineEnd>,
    written: u64,
}

/// A store and its shards after the threads have ended, and how the serving ended.
#[derive(Drop)]
struct Ran<K: Keeper, H: BoundName> {
    store: Store<K, StartOf<H>>,
    shards: Vec<Shard>,
    served: Served,
}

/// Makes a hub of the store and the shards, serves over it, and takes it apart.
fn serve_over_hub<
    H: BoundName + Send + Sync,
    W: Sink,
    K: Keeper + Send,
    D: Door,
    C: Clock,
    G: Gate,
    R: Threads + Wait + Sync,
>(
    server: &Server<'_, C, G, R>,
    sink: &mut W,
    store: Store<K, StartOf<H>>,
    parts: HubParts,
    door: &mut D,
    ends: Vec<LineEnd>,
    begun: Begun,
) -> Ran<K, H>
    requires serve { IsServe server.now.spec.now }
    requires store { IsNamedStore H.opening H.cap H.known_rows H.start store }
    requires new { IsNewStore H.begun H.failed store }
    requires parts { MakeHub H.terms H.opening H.before (is_none store.known_rows)
        H.name H.parts H.word parts }
    requires legal { AreLegal parts.shards.items }
    requires begins { BeginsBy server.now.spec.now.warm begun }
    requires none { ends.items ≡ [] }
    requires room { IfSome (most_served server.now.spec.now.conns)
        (λ most. most ≤ vec_capacity ends) }
    ensures store { IsNamedStore H.opening H.cap H.known_rows H.start result.store }
    ensures as_many { length result.shards.items ≡ length parts.shards.items }
    ensures all { AreAll H.terms result.shards.items }
    ensures legal { AreLegal result.shards.items }
    ensures right { IsSome result.store.known_rows →
        AreRight H.opening result.store.ledger.log result.shards.items }
    ensures never_fewer { H.failed ≤ result.store.ledger.failed }
    ensures served { let tells = seen_at D.bound D.lines D.faults D.ended D.closed in
        HasServed W.Sink server.now.spec.now begun result.served sink.old sink.new
        (tells door.old) (tells door.new) }
    ensures lines { D.fresh door.old → AreServed (most_served server.now.spec.now.conns)
        result.served.ends.items (D.closed door.old) (D.closed door.new) }
{
    let HubParts {
        shards,
        ledger,
        word,
    } = parts;
    match BoundHub::new(server.alloc, store, shards, ledger, word) {
        Ok((hub, pass)) => {
            let served = serve_on_desks(server, sink, &hub, pass, door, ends, begun);
            let (store, shards) = hub.into_parts(Vec::new(server.alloc));
            Ran {
                store,
                shards,
                served,
            }
        }
        Err((store, shards)) => Ran {
            store,
            shards,
            served: unserved(ends),
        },
    }
}

/// The end of a server for which memory ran out before its door was bound.
fn unserved(ends: Vec<LineEnd>) -> Served
    ensures { result ≡ record { status = Status.Memory; ends = ends; written = 0 } }
{
    Served {
        status: Status::Memory,
        ends,
        written: 0,
    }
}

/// Makes a desk over the hub for each worker, and serves on them. All share a new plain map, which takes
/// no memory until it has an item.
fn serve_on_desks<
    H: BoundName + Send + Sync,
    W: Sink,
    K: Keeper + Send,
    D: Door,
    C: Clock,
    G: Gate,
    R: Threads + Wait + Sync,
>(
    server: &Server<'_, C, G, R>,
    sink: &mut W,
    hub: &BoundHub<K, H>,
    pass: Pass,
    door: &mut D,
    ends: Vec<LineEnd>,
    begun: Begun,
) -> Served
    requires serve { IsServe server.now.spec.now }
    requires begins { BeginsBy server.now.spec.now.warm begun }
    requires word { pass.word ≡ H.word }
    requires none { ends.items ≡ [] }
    requires room { IfSome (most_served server.now.spec.now.conns)
        (λ most. most ≤ vec_capacity ends) }
    ensures served { let tells = seen_at D.bound D.lines D.faults D.ended D.closed in
        HasServed W.Sink server.now.spec.now begun result sink.old sink.new
        (tells door.old) (tells door.new) }
    ensures lines { D.fresh door.old → AreServed (most_served server.now.spec.now.conns)
        result.ends.items (D.closed door.old) (D.closed door.new) }
{
    let Server {
        rt,
        alloc,
        spec,
        clock,
        gate,
    } = *server;
    let mut pass = pass;
    let plain = PlainBox::new(Plain::new(alloc, 1));
    match desks_over(rt, alloc, hub, &mut pass, spec.workers, clock, gate) {
        Ok(mut desks) => {
            serve_lines(
                server,
                sink,
                desks.as_mut_slice(),
                &plain,
                door,
                ends,
                begun,
            )
        }
        Err(Memory) => unserved(ends),
    }
}

/// Opens the door, lets the workers serve its lines, and tells how many were served. There is a worker for
/// each desk.
fn serve_lines<W: Sink, K: Desk + Send, D: Door, C, G, R: Threads + Wait + Sync>(
    server: &Server<'_, C, G, R>,
    sink: &mut W,
    desks: &mut [K],
    plain: &PlainBox,
    door: &mut D,
    ends: Vec<LineEnd>,
    begun: Begun,
) -> Served
    requires some { 1 ≤ server.now.spec.now.workers }
    requires as_many { length desks.old ≡ server.now.spec.now.workers }
    requires none { ends.items ≡ [] }
    requires room { IfSome (most_served server.now.spec.now.conns)
        (λ most. most ≤ vec_capacity ends) }
    ensures served { let tells = seen_at D.bound D.lines D.faults D.ended D.closed in
        HasServed W.Sink server.now.spec.now begun result sink.old sink.new
        (tells door.old) (tells door.new) }
    ensures lines { D.fresh door.old → AreServed (most_served server.now.spec.now.conns)
        result.ends.items (D.closed door.old) (D.closed door.new) }
{
    let Server {
        rt,
        alloc,
        spec,
        ..
    } = *server;
    let Ok(text) = ready_text(alloc, begun) else {
        return unserved(ends);
    };
    let mut written = 0;
    if let Err(status) = open_up(
        spec.addr.as_slice(),
        text.as_slice(),
        sink,
        door,
        &mut written,
    ) {
        return Served {
            status,
            ends,
            written,
        };
    }
    let Attended {
        served,
        ends,
        failed,
    } = serve_all(rt, alloc, desks, plain, door, spec.conns.most(), ends);
    let status = if failed {
        Status::DoorFault
    } else {
        close_up(alloc, sink, &mut written, served)
    };
    Served {
        status,
        ends,
        written,
    }
}

/// Binds the door, and writes this text. Where it can't be bound, nothing is written.
fn open_up<W: Sink, D: Door>(
    addr: &[u8],
    text: &[u8],
    sink: &mut W,
    door: &mut D,
    written: &mut u64,
) -> Result<(), Status>
    requires nothing { written.old ≡ 0 }
    ensures told { OnOk result
        (Prints (W.taken sink.old) (W.taken sink.new) text.now written.new) }
    ensures bound { OnOk result (D.bound door.new ≡ Some addr.now) }
    ensures halted { (begun : Begun) → text.now ≡ ready_text begun →
        IfErr result (λ status. (printed : List ℕ) ×
        (printed ≢ [] → D.bound door.new ≡ Some addr.now) × IsServedText begun status 0 printed ×
        Prints (W.taken sink.old) (W.taken sink.new) printed written.new) }
    ensures unsaved { IfErr result (λ status. IsFalse (is_file_fault status)) }
    ensures unfailed { IfErr result (λ status. IsFalse (is_keep_fault status)) }
    ensures unbound { IfErr result (λ status. status ≡ Status.DoorFault →
        Prints (W.taken sink.old) (W.taken sink.new) [] written.new) }
    ensures no_line { D.lines door.new ≡ D.lines door.old }
    ensures keeps_closed { D.closed door.new ≡ D.closed door.old }
    ensures stays_fresh { D.fresh door.old → D.fresh door.new }
    ensures ok_writes { OnOk result (W.faults sink.new ≡ W.faults sink.old) }
    ensures ok_doors { OnOk result (D.faults door.new ≡ D.faults door.old) }
    ensures writes { IfErr result (λ status.
        RoseWhere W.faults (is_write_fault status) sink.old sink.new) }
    ensures doors { IfErr result (λ status.
        RoseWhere D.faults (is_door_fault status) door.old door.new) }
    ensures unfinished { IfErr result (λ status. status ≢ Status.Done) }
    ensures sink_never_falls { W.faults sink.old ≤ W.faults sink.new }
    ensures door_never_falls { D.faults door.old ≤ D.faults door.new }
{
    if door.bind(addr).is_err() {
        return Err(Status::DoorFault);
    }
    match print(sink, written, text) {
        Ok(()) => Ok(()),
        Err(_) => Err(Status::WriteFault),
    }
}

/// Writes how many lines were served, and answers how the server ends.
fn close_up<W: Sink>(alloc: Global, sink: &mut W, written: &mut u64, lines: u64) -> Status
    ensures text { (taken : Option (List ℕ)) (begun : Begun) →
        Prints taken (W.taken sink.old) (ready_text begun) written.old →
        (printed : List ℕ) × IsServedText begun result lines printed ×
        Prints taken (W.taken sink.new) printed written.new }
    ensures unsaved { IsFalse (is_file_fault result) }
    ensures unfailed { IsFalse (is_keep_fault result) }
    ensures writes { RoseWhere W.faults (is_write_fault result) sink.old sink.new }
    ensures no_door_fault { IsFalse (is_door_fault result) }
    ensures sink_never_falls { W.faults sink.old ≤ W.faults sink.new }
{
    let Ok(line) = served_line(alloc, lines) else {
        return Status::Memory;
    };
    match print(sink, written, line.as_slice()) {
        Ok(()) => Status::Done,
        Err(_) => Status::WriteFault,
    }
}

/// What is written once the door is bound: how the cache began, where it has a file, and that the server is
/// ready.
fn ready_text(alloc: Global, begun: Begun) -> Result<Vec<u8>, Memory>
    ensures { IfOk result (λ text. text.items ≡ ready_text begun) }
{
    let mut text = begun_line(alloc, begun)?;
    text.extend_from_slice(b"ready\n")?;
    Ok(text)
}

/// The line that tells how the cache began, where it has a file.
fn begun_line(alloc: Global, begun: Begun) -> Result<Vec<u8>, Memory>
    ensures { IfOk result (λ text. text.items ≡ begun_line begun) }
{
    let mut text = Vec::new(alloc);
    match begun {
        Begun::New => Ok(text),
        Begun::Cold { cause } => {
            text.extend_from_slice(b"cold ")?;
            text.extend_from_slice(cold_words(cause))?;
            text.push(b'\n')?;
            Ok(text)
        }
        Begun::Warm { rows } => {
            push_field(&mut text, b"warm ", rows as u128)?;
            text.push(b'\n')?;
            Ok(text)
        }
    }
}

/// The words that say why nothing was taken over.
fn cold_words(cause: ColdCause) -> &'static [u8]
    ensures { result.now ≡ join_with_byte 32 (cold_words cause) }
{
    match cause {
        ColdCause::NoFile => b"no file",
        ColdCause::FileFault => b"file fault",
        ColdCause::NoCache => b"no cache",
        ColdCause::OtherRows => b"other rows",
        ColdCause::StoreFault => b"store fault",
        ColdCause::Memory => b"memory",
    }
}

/// The line that tells how many lines were served.
fn served_line(alloc: Global, lines: u64) -> Result<Vec<u8>, Memory>
    ensures { IfOk result (λ text. text.items ≡ served_line lines) }
{
    let mut buffer = Buffer::new();
    let mut text = Vec::from_slice(alloc, b"served ")?;
    text.extend_from_slice(buffer.format(lines).as_bytes())?;
    text.push(b'\n')?;
    Ok(text)
}
