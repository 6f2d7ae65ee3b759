// The run of two loads: the second is run over a new cache, which takes over what is still right in that of the
// first.
ghost use Rattle.std.specs.Prelude.{false, ◌≡◌, ◌≢◌, ◌≤◌, ℕ, [], List, Option, Some, None, IfOk, IfErr, OnErr, IsErr, IsSome, map, vec_capacity};
ghost use Rattle.std.specs.Bool.{IsFalse};
ghost use Rattle.std.specs.Option.{ForSome};
ghost use Rattle.rows_model.specs.Rows.{Tables};
ghost use Rattle.key_shard.specs.declared.steps.Step.{Step};
ghost use Rattle.sql_keeper.specs.declared.stores.Commit.{Commit};
ghost use Rattle.sql_keeper.specs.Stores.{opened};
ghost use Rattle.core_history.specs.Machine.{log_cap};
ghost use Rattle.run_audit.specs.declared.findings.Finding.{Finding};
ghost use Rattle.run_audit.specs.Findings.{histories_in};
ghost use Rattle.run_inputs.specs.declared.loads.WorkSpec.{WorkSpec};
ghost use Rattle.run_inputs.specs.Loads.{IsWork};
ghost use Rattle.door_workers.specs.DoorSeen.{DoorSeen};
ghost use Rattle.top_run.specs.declared.dumps.Dumped.{Dumped};
ghost use Rattle.top_run.specs.declared.runs.Status.{Status};
ghost use Rattle.top_run.specs.Runs.{Held, Input, Prints, moment, seen, held_at, IsOpened, RoseWhere, CountsWhere, is_read_fault, is_write_fault};
ghost use Rattle.top_run.specs.Begins.{FilesSeen};
ghost use Rattle.top_run.specs.Serves.{course_of, phase_left};
ghost use Rattle.top_run.specs.Works.{work_shape, first_spent, at_write_failed, IsNameOf, IsSummary};
ghost use Rattle.top_run.specs.Ready.{IsReady, NamesParts};
ghost use Rattle.top_run.specs.Warms.{next_load, front_of, IsFirst, WarmEnded};
ghost use Rattle.top_run.specs.Warming.{AreToLoad, HasRooms, HasRunLoad, IsAnew, IsHalf, IsHaltedBehind, IsReadyAnew, IsToldBehind, NamesAnew, left_in, rows_left, stop_status};

use crate::dumps::{Dumped, dumps_of, tell_dumps};
use crate::endings::{not_started, start_status};
use crate::hubs::{CAP, Parts, ended_hub};
use crate::loads::loaded;
use crate::phases::{First, Half, ended_first, ended_half, made_anew, stop_status};
use crate::plays::Stop;
use crate::printing::print;
use crate::runs::{Phase, RunEnd, Status};
use crate::works::{
    Made, Ran, Ready, end_status, first_spent, ready_for, run_plans, summed_up, tell,
};
use bound_hub::BoundName;
use iq_outside::{Clock, Gate, Sink};
use key_shard::Step;
use rows_model::Memory;
use run_audit::Finding;
use run_inputs::WorkSpec;
use shard_lock::StartOf;
use sql_keeper::{Commit, Keeper, NoStore, Place, Start, Store};
use std::alloc::Global;
use std::marker::Brand;
use std::sync::Wait;
use std::thread::Threads;

/// Runs a load over a store with this keeper, at this place, and writes its summary. Then it dumps the shards,
/// writes a line for each dump, and runs the next load over new shards into which the dumps are loaded. What
/// needs memory before the store is there before the keeper starts, and room for what the first load leaves.
pub(crate) fn warm<W: Sink, K: Keeper + Send, C: Clock, G: Gate, R: Threads + Wait + Sync>(
    rt: &R,
    alloc: Global,
    place: &Place,
    spec: &WorkSpec,
    sink: &mut W,
    keeper: K,
    clock: &C,
    gate: &G,
) -> RunEnd<K>
    requires { IsWork spec.now }
    ensures ended { (unread : Input) (door : DoorSeen) (files : FilesSeen) →
        let held = held_at place.now (K.holds keeper place.now) in
        let before = seen unread W.Sink K.Keeper sink.old keeper in
        let after = seen unread W.Sink K.Keeper sink.new result.keeper in
        WarmEnded result.status spec.now (course_of held before after door door files files result) }
    ensures started { IsSome result.opening → K.is_started result.keeper }
    ensures unstarted { result.opening ≡ None → result.earlier.items ≡ [] →
        K.is_started result.keeper → K.is_started keeper }
    ensures writes { CountsWhere W.faults (is_write_fault result.status) sink.old sink.new }
    ensures command { result.status ≢ Status.Usage }
    ensures no_ends { result.ends.items ≡ [] }
    ensures no_read_fault { IsFalse (is_read_fault result.status) }
    ensures keeper_never_falls { K.faults keeper ≤ K.faults result.keeper }
{
    let Ok(ready) = ready_for(alloc, spec) else {
        return not_started(alloc, Status::Memory, keeper);
    };
    let Ok(earlier) = Vec::with_capacity(alloc, 1) else {
        return not_started(alloc, Status::Memory, keeper);
    };
    match Store::new(alloc, keeper, place, spec.members, CAP) {
        Ok(store) => {
            let warming = Warming {
                rt,
                alloc,
                spec,
                clock,
                gate,
            };
            run_first::<Brand, _, _, _, _, _>(&warming, sink, store, ready, earlier)
        }
        Err(NoStore { keeper, cause }) => not_started(alloc, start_status(cause), keeper),
    }
}

/// What both loads of a run share, and neither changes.
#[derive(Drop)]
struct Warming<'a, C, G, R> {
    /// What threads and waiting are asked of.
    rt: &'a R,
    alloc: Global,
    /// The first load.
    spec: &'a WorkSpec,
    /// The clock of the leases.
    clock: &'a C,
    /// Where a worker may be held up.
    gate: &'a G,
}

/// Runs the first load over a store that was just started, writes its summary, and goes on.
fn run_first<
    H: BoundName + Send + Sync,
    W: Sink,
    K: Keeper + Send,
    C: Clock,
    G: Gate,
    R: Threads + Wait + Sync,
>(
    warming: &Warming<'_, C, G, R>,
    sink: &mut W,
    store: Store<K>,
    ready: Ready,
    earlier: Vec<Phase>,
) -> RunEnd<K>
    requires work { IsWork warming.now.spec.now }
    requires named { IsNameOf (work_shape warming.now.spec.now) false
        store H.terms H.opening H.cap H.known_rows H.start }
    requires new { store.ledger ≡ opened store.ledger.opening log_cap }
    requires ready { IsReady warming.now.spec.now H.terms ready }
    requires parts { NamesParts H.name H.parts H.word H.before H.begun H.failed ready.parts.hub }
    requires none_earlier { earlier.items ≡ [] }
    requires for_one { 1 ≤ vec_capacity earlier }
    ensures ended { (unread : Input) (door : DoorSeen) (files : FilesSeen)
        (rows : Option Tables) (held : Held) →
        IsOpened held (work_shape warming.now.spec.now) store.ledger.opening store.known_rows →
        let before = moment unread (W.taken sink.old) (W.faults sink.old) rows store.faults in
        let after = seen unread W.Sink K.Keeper sink.new result.keeper in
        WarmEnded result.status warming.now.spec.now
        (course_of held before after door door files files result) }
    ensures started { K.is_started result.keeper }
    ensures some_earlier { result.earlier.items ≢ [] }
    ensures writes { CountsWhere W.faults (is_write_fault result.status) sink.old sink.new }
    ensures command { result.status ≢ Status.Usage }
    ensures no_ends { result.ends.items ≡ [] }
    ensures no_read_fault { IsFalse (is_read_fault result.status) }
    ensures keeper_never_falls { store.faults ≤ K.faults result.keeper }
{
    let Warming {
        rt,
        alloc,
        spec,
        clock,
        gate,
    } = *warming;
    let Ready { plans, parts } = ready;
    let Parts { hub, histories } = parts;
    let Ran {
        store,
        shards,
        transcripts,
    } = run_plans::<H, _, _, _, _>(
        rt,
        alloc,
        store.named::<StartOf<H>>(),
        hub,
        plans.as_slice(),
        clock,
        gate,
    );
    let mut written = 0;
    let made = summed_up(
        alloc,
        spec,
        store.opening(),
        store.log(),
        shards.as_slice(),
        transcripts,
    );
    let printed = tell(sink, &mut written, made);
    let first = First {
        store,
        shards,
        histories,
        earlier,
    };
    match printed {
        Ok(_) => dump_first(warming, sink, first, written),
        Err(stop) => ended_first(alloc, stop_status(stop), first, written),
    }
}

/// Dumps the shards of the first load, writes a line for each dump, and goes on with a store made anew.
fn dump_first<N: Start, W: Sink, K: Keeper + Send, C: Clock, G: Gate, R: Threads + Wait + Sync>(
    warming: &Warming<'_, C, G, R>,
    sink: &mut W,
    first: First<K, N>,
    written: u64,
) -> RunEnd<K>
    requires work { IsWork warming.now.spec.now }
    requires run { HasRunLoad warming.now.spec.now first.store first.shards.items }
    requires never_fell { ForSome N.count (λ start. start ≤ first.store.faults) }
    requires rooms { HasRooms first.shards.items first.histories first.earlier }
    ensures ended { (unread : Input) (door : DoorSeen) (files : FilesSeen)
        (rows : Option Tables) (start : ℕ)
        (held : Held) (taken : Option (List ℕ)) (failed : ℕ) (found : Finding) (text : List ℕ) →
        N.count ≡ Some start →
        IsOpened held (work_shape warming.now.spec.now) first.store.ledger.opening
        first.store.known_rows →
        IsSummary warming.now.spec.now first.store.ledger.opening first.store.ledger.log
        (histories_in first.shards.items) found text →
        Prints taken (W.taken sink.old) text written →
        let before = moment unread taken failed rows start in
        let after = seen unread W.Sink K.Keeper sink.new result.keeper in
        WarmEnded result.status warming.now.spec.now
        (course_of held before after door door files files result) }
    ensures started { K.is_started result.keeper }
    ensures some_earlier { result.earlier.items ≢ [] }
    ensures writes { CountsWhere W.faults (is_write_fault result.status) sink.old sink.new }
    ensures command { result.status ≢ Status.Usage }
    ensures no_ends { result.ends.items ≡ [] }
    ensures no_read_fault { IsFalse (is_read_fault result.status) }
    ensures keeper_never_falls { ForSome N.count (λ start. start ≤ K.faults result.keeper) }
{
    let alloc = warming.alloc;
    let mut written = written;
    let dumps = match dumps_of(alloc, first.shards.as_slice(), first.store.log()) {
        Ok(dumps) => dumps,
        Err(Memory) => return ended_first(alloc, Status::Memory, first, written),
    };
    match tell_dumps(alloc, sink, &mut written, dumps.as_slice()) {
        Ok(()) => {}
        Err(stop) => return ended_first(alloc, stop_status(stop), first, written),
    }
    match made_anew(first) {
        Ok(half) => load_second(warming, sink, half, dumps, written),
        Err(first) => ended_first(alloc, Status::Memory, first, written),
    }
}

/// Loads the dumps into the shards of a new hub, and runs the next load over it.
fn load_second<N: Start, W: Sink, K: Keeper + Send, C: Clock, G: Gate, R: Threads + Wait + Sync>(
    warming: &Warming<'_, C, G, R>,
    sink: &mut W,
    half: Half<K, N>,
    dumps: Vec<Dumped>,
    written: u64,
) -> RunEnd<K>
    requires work { IsWork warming.now.spec.now }
    requires anew { IsAnew log_cap half.store }
    requires never_fell { ForSome N.count (λ start. start ≤ half.store.faults) }
    requires to_load { AreToLoad warming.now.spec.now (left_in half.earlier.items)
        half.store.known_rows half.store.ledger.opening dumps.items }
    ensures ended { (unread : Input) (door : DoorSeen) (files : FilesSeen)
        (rows : Option Tables) (start : ℕ)
        (held : Held) (taken : Option (List ℕ)) (failed : ℕ) (opening : Tables) (text : List ℕ) →
        N.count ≡ Some start →
        IsHalf opening half.store half.earlier.items half.spent →
        IsFirst warming.now.spec.now held half.store.known_rows
        (map phase_left half.earlier.items) (left_in half.earlier.items) opening text →
        Prints taken (W.taken sink.old) (front_of text (left_in half.earlier.items)) written →
        let before = moment unread taken failed rows start in
        let after = seen unread W.Sink K.Keeper sink.new result.keeper in
        WarmEnded result.status warming.now.spec.now
        (course_of held before after door door files files result) }
    ensures started { K.is_started result.keeper }
    ensures some_earlier { result.earlier.items ≡ half.earlier.items }
    ensures writes { CountsWhere W.faults (is_write_fault result.status) sink.old sink.new }
    ensures command { result.status ≢ Status.Usage }
    ensures no_ends { result.ends.items ≡ [] }
    ensures no_read_fault { IsFalse (is_read_fault result.status) }
    ensures keeper_never_falls { ForSome N.count (λ start. start ≤ K.faults result.keeper) }
{
    let alloc = warming.alloc;
    let spec = next_load(warming.spec);
    let now = warming.clock.now().min(u64::MAX - 1);
    let mut half = half;
    let Ok(unloaded) = ready_for(alloc, &spec) else {
        return ended_half(alloc, Status::Memory, half, written);
    };
    match loaded(alloc, &spec, &mut half.store, unloaded, dumps, now) {
        Ok(ready) => {
            let second = Warming {
                rt: warming.rt,
                alloc,
                spec: &spec,
                clock: warming.clock,
                gate: warming.gate,
            };
            // A store's count of failed calls is one of its type.
            let _ = half.store.failed();
            run_second::<Brand, _, _, _, _, _, _>(&second, sink, half, ready, written)
        }
        Err(Memory) => ended_half(alloc, Status::Memory, half, written),
    }
}

/// The load behind this one: that of the next seed, which is 0 behind the last number there is.
fn next_load(spec: &WorkSpec) -> WorkSpec
    ensures { result ≡ next_load spec.now }
{
    WorkSpec {
        members: spec.members,
        sessions: spec.sessions,
        workers: spec.workers,
        shards: spec.shards,
        seed: spec.seed.wrapping_add(1),
    }
}

/// Runs the second load over the store made anew, writes its summary, and ends.
fn run_second<
    H: BoundName + Send + Sync,
    N: Start,
    W: Sink,
    K: Keeper + Send,
    C: Clock,
    G: Gate,
    R: Threads + Wait + Sync,
>(
    warming: &Warming<'_, C, G, R>,
    sink: &mut W,
    half: Half<K, N>,
    ready: Ready,
    written: u64,
) -> RunEnd<K>
    requires work { IsWork warming.now.spec.now }
    requires anew { IsAnew log_cap half.store }
    requires never_fell { ForSome N.count (λ start. start ≤ half.store.faults) }
    requires ready { IsReadyAnew warming.now.spec.now half.store.known_rows
        half.store.ledger.opening (rows_left (left_in half.earlier.items)) ready }
    requires named { NamesAnew (work_shape warming.now.spec.now) false half.store N.count H.start
        H.terms H.opening H.cap H.known_rows H.name H.parts H.word H.before H.begun H.failed
        ready.parts.hub }
    ensures ended { (unread : Input) (door : DoorSeen) (files : FilesSeen)
        (rows : Option Tables) (start : ℕ)
        (held : Held) (taken : Option (List ℕ)) (failed : ℕ) (spec : WorkSpec) (opening : Tables)
        (text : List ℕ) →
        N.count ≡ Some start →
        next_load spec ≡ warming.now.spec.now →
        IsHalf opening half.store half.earlier.items half.spent →
        IsFirst spec held half.store.known_rows
        (map phase_left half.earlier.items) (left_in half.earlier.items) opening text →
        Prints taken (W.taken sink.old) (front_of text (left_in half.earlier.items)) written →
        let before = moment unread taken failed rows start in
        let after = seen unread W.Sink K.Keeper sink.new result.keeper in
        WarmEnded result.status spec (course_of held before after door door files files result) }
    ensures started { K.is_started result.keeper }
    ensures began { IsSome result.opening }
    ensures some_earlier { result.earlier.items ≡ half.earlier.items }
    ensures writes { CountsWhere W.faults (is_write_fault result.status) sink.old sink.new }
    ensures command { result.status ≢ Status.Usage }
    ensures no_ends { result.ends.items ≡ [] }
    ensures no_read_fault { IsFalse (is_read_fault result.status) }
    ensures keeper_never_falls { ForSome N.count (λ start. start ≤ K.faults result.keeper) }
{
    let Warming {
        rt,
        alloc,
        spec,
        clock,
        gate,
    } = *warming;
    let Half {
        store,
        earlier,
        spent,
    } = half;
    let Ready { plans, parts } = ready;
    let Parts { hub, histories } = parts;
    let Ran {
        store,
        shards,
        transcripts,
    } = run_plans::<H, _, _, _, _>(
        rt,
        alloc,
        store.renamed::<StartOf<H>>(),
        hub,
        plans.as_slice(),
        clock,
        gate,
    );
    let mut written = written;
    let made = summed_up(
        alloc,
        spec,
        store.opening(),
        store.log(),
        shards.as_slice(),
        transcripts,
    );
    let printed = tell_behind(sink, &mut written, made);
    let spent = spent.or(first_spent(shards.as_slice()));
    let status = end_status(store.failed() > 0, spent, printed);
    ended_hub(
        status,
        store,
        shards,
        histories,
        Vec::new(alloc),
        earlier,
        written,
    )
}

/// Writes the summary behind what was written before, if there is one. It tells what the audit found.
fn tell_behind<W: Sink>(
    sink: &mut W,
    written: &mut u64,
    made: Result<Made, Memory>,
) -> Result<Finding, Stop>
    ensures told { (spec : WorkSpec) (opening : Tables) (log : List Commit)
        (histories : List (List Step)) (taken : Option (List ℕ)) (front : List ℕ) →
        IfOk made (λ one. IsSummary spec opening log histories one.finding one.text.items) →
        Prints taken (W.taken sink.old) front written.old →
        IfOk result (IsToldBehind spec opening log histories taken (W.taken sink.new)
        front written.new) }
    ensures halted { (spec : WorkSpec) (opening : Tables) (log : List Commit)
        (histories : List (List Step)) (taken : Option (List ℕ)) (front : List ℕ) →
        IfOk made (λ one. IsSummary spec opening log histories one.finding one.text.items) →
        Prints taken (W.taken sink.old) front written.old →
        IfErr result (IsHaltedBehind spec opening log histories taken (W.taken sink.new)
        front written.new) }
    ensures unmade { OnErr made (IsErr result) }
    ensures counts { RoseWhere W.faults (at_write_failed result) sink.old sink.new }
    ensures never_falls { W.faults sink.old ≤ W.faults sink.new }
{
    let Ok(made) = made else {
        return Err(Stop::Memory);
    };
    match print(sink, written, made.text.as_slice()) {
        Ok(()) => Ok(made.finding),
        Err(_) => Err(Stop::WriteFault),
    }
}
