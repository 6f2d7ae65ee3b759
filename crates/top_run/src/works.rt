// The run of a load: its sessions over a hub, each worker in a thread of its own, and then the audit and
// the summary.
ghost use Rattle.std.specs.Prelude.{false, ◌≡◌, ◌≢◌, ◌≤◌, ◌<◌, ℕ, [], List, Option, Some, None, All, IfOk, IfErr, OnErr, IsErr, IsSome, is_none, Ok, Err, map, count_by, length, vec_capacity, nat_lt};
ghost use Rattle.std.specs.Bool.{IsFalse};
ghost use Rattle.std.specs.List.{AllByRecursion};
ghost use Rattle.std.specs.Option.{ForSome};
ghost use Rattle.rows_model.specs.Rows.{Tables};
ghost use Rattle.key_shard.specs.Past.{draws};
ghost use Rattle.key_shard.specs.declared.steps.Step.{Step};
ghost use Rattle.sql_keeper.specs.declared.stores.Commit.{Commit};
ghost use Rattle.run_inputs.specs.declared.loads.WorkSpec.{WorkSpec};
ghost use Rattle.sql_keeper.specs.Faults.{FailedSince};
ghost use Rattle.sql_keeper.specs.Fresh.{Covered, Fresh};
ghost use Rattle.sql_keeper.specs.Stores.{opened, rows_of};
ghost use Rattle.session_client.specs.Plans.{IsPlan};
ghost use Rattle.core_history.specs.Machine.{log_cap};
ghost use Rattle.shard_lock.specs.Names.{AreAll, AreLegal, IsNamedStore};
ghost use Rattle.bound_hub.specs.Ties.{IsNewStore};
ghost use Rattle.run_audit.specs.Findings.{histories_in, AreNumbered, AreWhole};
ghost use Rattle.run_inputs.specs.Loads.{IsWork, load};
ghost use Rattle.top_run.specs.Runs.{Held, Input, moment, seen, held_at, histories_at, left_at, IsOpened, RoseWhere, CountsWhere, is_read_fault, is_write_fault};
ghost use Rattle.top_run.specs.Works.{work_shape, hub_terms, has_spent, first_spent, work_status, end_status, at_write_failed, IsNameOf, HaveRun, IsSummary, IsSummarized, IsHalted, WorkEnded};
ghost use Rattle.top_run.specs.Ready.{AsksFirst, HaveWorked, IsReady, MakeHub, NamesParts};
ghost use Rattle.top_run.specs.Warming.{AreRight, GoesOn, HaveRunSince, KeepsAnswers, LoadsOnly, since_in};

use crate::endings::{not_started, start_status};
use crate::hubs::{CAP, HubParts, LIFE, Parts, desks_over, ended_hub, heard, parts_for};
use crate::plays::Stop;
use crate::printing::print;
use crate::runs::{RunEnd, Status};
use crate::summaries::{others_in, summary};
use bound_hub::{BoundHub, BoundName};
use gate_workers::{Transcript, work_all};
use iq_outside::{Clock, Gate, Sink};
use key_shard::{Shard, Step};
use log_word::Pass;
use rows_model::{Memory, Rows};
use run_audit::{Finding, audit};
use run_inputs::{WorkSpec, make_plans};
use session_client::{Plan, Shape};
use shard_lock::StartOf;
use sql_keeper::{Commit, Keeper, NoStore, Place, Start, Store};
use std::alloc::Global;
use std::marker::Brand;
use std::sync::Wait;
use std::thread::Threads;

/// How many entries a shard of a load has room for.
const ROOM: u32 = 1024;

/// Runs the load over a store with this keeper, at this place, and writes its summary. Its shards are
/// whole, so that all is counted and audited. What needs memory before the store is there before the
/// keeper starts.
pub(crate) fn work<W: Sink, K: Keeper + Send, C: Clock, G: Gate, R: Threads + Wait + Sync>(
    rt: &R,
    alloc: Global,
    place: &Place,
    spec: &WorkSpec,
    sink: &mut W,
    keeper: K,
    clock: &C,
    gate: &G,
) -> RunEnd<K>
    requires { IsWork spec.now }
    ensures ended { (unread : Input) →
        let before = seen unread W.Sink K.Keeper sink.old keeper in
        let after = seen unread W.Sink K.Keeper sink.new result.keeper in
        WorkEnded result.status spec.now (held_at place.now (K.holds keeper place.now))
        before after (left_at result) result.written }
    ensures started { IsSome result.opening → K.is_started result.keeper }
    ensures unstarted { result.opening ≡ None → K.is_started result.keeper → K.is_started keeper }
    ensures writes { CountsWhere W.faults (is_write_fault result.status) sink.old sink.new }
    ensures command { result.status ≢ Status.Usage }
    ensures no_ends { result.ends.items ≡ [] }
    ensures none_earlier { result.earlier.items ≡ [] }
    ensures no_read_fault { IsFalse (is_read_fault result.status) }
    ensures keeper_never_falls { K.faults keeper ≤ K.faults result.keeper }
{
    let Ok(ready) = ready_for(alloc, spec) else {
        return not_started(alloc, Status::Memory, keeper);
    };
    match Store::new(alloc, keeper, place, spec.members, CAP) {
        Ok(store) => work_on::<Brand, _, _, _, _, _>(
            rt, alloc, spec, sink, store, ready, clock, gate,
        ),
        Err(NoStore { keeper, cause }) => not_started(alloc, start_status(cause), keeper),
    }
}

/// What a load is run with: the plans of each worker, and the parts of the hub.
#[derive(Drop)]
pub(crate) struct Ready {
    pub(crate) plans: Vec<Vec<Plan>>,
    pub(crate) parts: Parts,
}

/// What a load of these numbers is run with. Its hub has no step yet.
pub(crate) fn ready_for(alloc: Global, spec: &WorkSpec) -> Result<Ready, Memory>
    requires { IsWork spec.now }
    ensures { IfOk result (IsReady spec.now (hub_terms (work_shape spec.now) false)) }
{
    Ok(Ready {
        plans: make_plans(alloc, spec)?,
        parts: parts_for(alloc, &shape_of(spec), false)?,
    })
}

/// The shape of a load's hub.
fn shape_of(spec: &WorkSpec) -> Shape
    ensures { result ≡ work_shape spec.now }
{
    Shape {
        members: spec.members,
        shards: spec.shards,
        room: ROOM,
        life: LIFE,
    }
}

/// Runs the load over a store that was just started, and ends.
fn work_on<
    H: BoundName + Send + Sync,
    W: Sink,
    K: Keeper + Send,
    C: Clock,
    G: Gate,
    R: Threads + Wait + Sync,
>(
    rt: &R,
    alloc: Global,
    spec: &WorkSpec,
    sink: &mut W,
    store: Store<K>,
    ready: Ready,
    clock: &C,
    gate: &G,
) -> RunEnd<K>
    requires work { IsWork spec.now }
    requires named { IsNameOf (work_shape spec.now) false
        store H.terms H.opening H.cap H.known_rows H.start }
    requires new { store.ledger ≡ opened store.ledger.opening log_cap }
    requires ready { IsReady spec.now H.terms ready }
    requires parts { NamesParts H.name H.parts H.word H.before H.begun H.failed ready.parts.hub }
    ensures ended { (unread : Input) (rows : Option Tables) (held : Held) →
        IsOpened held (work_shape spec.now) store.ledger.opening store.known_rows →
        let before = moment unread (W.taken sink.old) (W.faults sink.old) rows store.faults in
        let after = seen unread W.Sink K.Keeper sink.new result.keeper in
        WorkEnded result.status spec.now held before after (left_at result) result.written }
    ensures started { K.is_started result.keeper }
    ensures began { IsSome result.opening }
    ensures writes { CountsWhere W.faults (is_write_fault result.status) sink.old sink.new }
    ensures command { result.status ≢ Status.Usage }
    ensures no_ends { result.ends.items ≡ [] }
    ensures none_earlier { result.earlier.items ≡ [] }
    ensures no_read_fault { IsFalse (is_read_fault result.status) }
    ensures keeper_never_falls { store.faults ≤ K.faults result.keeper }
{
    let Ready { plans, parts } = ready;
    let Parts { hub, histories } = parts;
    let Ran {
        store,
        shards,
        transcripts,
    } = run_plans::<H, _, _, _, _>(
        rt,
        alloc,
        store.named::<StartOf<H>>(),
        hub,
        plans.as_slice(),
        clock,
        gate,
    );
    let mut written = 0;
    let made = summed_up(
        alloc,
        spec,
        store.opening(),
        store.log(),
        shards.as_slice(),
        transcripts,
    );
    let printed = tell(sink, &mut written, made);
    ended_work(alloc, store, shards, printed, written, histories)
}

/// A store and its shards after the threads have ended, and the transcripts where memory sufficed.
#[derive(Drop)]
pub(crate) struct Ran<K: Keeper, H: BoundName> {
    pub(crate) store: Store<K, StartOf<H>>,
    pub(crate) shards: Vec<Shard>,
    pub(crate) transcripts: Result<Vec<Transcript>, Memory>,
}

/// Runs the plans over a hub of the store and the shards, and takes the hub apart. The shards may have made
/// steps before, by which they were loaded.
pub(crate) fn run_plans<
    H: BoundName + Send + Sync,
    K: Keeper + Send,
    C: Clock,
    G: Gate,
    R: Threads + Wait + Sync,
>(
    rt: &R,
    alloc: Global,
    store: Store<K, StartOf<H>>,
    parts: HubParts,
    plans: &[Vec<Plan>],
    clock: &C,
    gate: &G,
) -> Ran<K, H>
    requires store { IsNamedStore H.opening H.cap H.known_rows H.start store }
    requires new { IsNewStore H.begun H.failed store }
    requires parts { MakeHub H.terms H.opening H.before (is_none store.known_rows)
        H.name H.parts H.word parts }
    requires loads_before { (place : ℕ) → AllByRecursion LoadsOnly (H.before place) }
    requires legal { AreLegal parts.shards.items }
    requires from_one { (place : ℕ) → (H.terms place).first ≡ 1 }
    requires plans { All (λ list. All IsPlan list.items) plans.now }
    requires ask { AllByRecursion (AllByRecursion AsksFirst) (map (λ list. list.items) plans.now) }
    requires few_workers { length plans.now ≤ 1024 }
    ensures ran { IfOk result.transcripts (λ transcripts.
        HaveRunSince (map (λ list. list.items) plans.now) (histories_in result.shards.items)
        (since_in H.before result.shards.items) transcripts.items) }
    ensures goes_on { All (GoesOn H.before) result.shards.items }
    ensures store { IsNamedStore H.opening H.cap H.known_rows H.start result.store }
    ensures as_many { length result.shards.items ≡ length parts.shards.items }
    ensures all { AreAll H.terms result.shards.items }
    ensures legal { AreLegal result.shards.items }
    ensures fresh { IsSome result.store.known_rows →
        Fresh H.opening result.store.ledger.log (histories_in result.shards.items) }
    ensures covered { Covered result.store.ledger.log (histories_in result.shards.items) }
    ensures right { IsSome result.store.known_rows →
        AreRight H.opening result.store.ledger.log result.shards.items }
    ensures keeps { IsSome result.store.known_rows →
        KeepsAnswers H.opening result.store.ledger.log }
{
    let HubParts {
        shards,
        ledger,
        word,
    } = parts;
    match BoundHub::new(alloc, store, shards, ledger, word) {
        Ok((hub, pass)) => {
            let (transcripts, passes) = run_over(rt, alloc, &hub, pass, plans, clock, gate);
            let (store, shards) = hub.into_parts(passes);
            Ran {
                store,
                shards,
                transcripts,
            }
        }
        Err((store, shards)) => Ran {
            store,
            shards,
            transcripts: Err(Memory),
        },
    }
}

/// Runs the plans of each worker on a desk of its own over the hub. The pass that is left has seen what each
/// desk has.
fn run_over<
    H: BoundName + Send + Sync,
    K: Keeper + Send,
    C: Clock,
    G: Gate,
    R: Threads + Wait + Sync,
>(
    rt: &R,
    alloc: Global,
    hub: &BoundHub<K, H>,
    pass: Pass,
    plans: &[Vec<Plan>],
    clock: &C,
    gate: &G,
) -> (Result<Vec<Transcript>, Memory>, Vec<Pass>)
    requires word { pass.word ≡ H.word }
    requires plans { All (λ list. All IsPlan list.items) plans.now }
    requires few { length plans.now ≤ 1024 }
    ensures words { All (λ pass. pass.word ≡ H.word) result.1.items }
    ensures worked { IfOk result.0 (λ transcripts. HaveWorked H.terms H.before H.word.shards
        (map (λ list. list.items) plans.now) transcripts.items result.1.items) }
{
    let Ok(mut passes) = Vec::with_capacity(alloc, 1) else {
        return (Err(Memory), Vec::new(alloc));
    };
    let mut pass = pass;
    let workers = plans.len() as u32;
    let Ok(mut desks) = desks_over(rt, alloc, hub, &mut pass, workers, clock, gate) else {
        return (Err(Memory), passes);
    };
    let transcripts = work_all(rt, alloc, desks.as_mut_slice(), plans, gate);
    passes.push_reserved(heard(hub, pass, desks));
    (transcripts, passes)
}

/// A summary, and what its audit found.
#[derive(Drop)]
pub(crate) struct Made {
    pub(crate) finding: Finding,
    pub(crate) text: Vec<u8>,
}

/// Audits what was kept, and makes the summary. Without transcripts there is none.
pub(crate) fn summed_up(
    alloc: Global,
    spec: &WorkSpec,
    opening: &Rows,
    log: &[Commit],
    shards: &[Shard],
    transcripts: Result<Vec<Transcript>, Memory>,
) -> Result<Made, Memory>
    requires some { 1 ≤ length shards.now }
    requires few { length shards.now ≤ 64 }
    requires numbered { AreNumbered shards.now }
    requires whole { AreWhole shards.now }
    requires ran { IfOk transcripts (λ transcripts.
        HaveRun (load spec.now) (histories_in shards.now) transcripts.items) }
    ensures summary { IfOk result (λ made. IsSummary spec.now opening.now log.now
        (histories_in shards.now) made.finding made.text.items) }
    ensures memory { OnErr transcripts (IsErr result) }
{
    let transcripts = transcripts?;
    let finding = audit(alloc, opening, log, shards)?;
    let others = others_in(transcripts.as_slice());
    let text = summary(alloc, spec, log, shards, others, finding)?;
    Ok(Made { finding, text })
}

/// Writes the summary, if there is one. It tells what the audit found.
#[tactic(auto, using(crate::proofs::PrintLemmas::print_none))]
pub(crate) fn tell<W: Sink>(
    sink: &mut W,
    written: &mut u64,
    made: Result<Made, Memory>,
) -> Result<Finding, Stop>
    requires nothing { written.old ≡ 0 }
    ensures told { (spec : WorkSpec) (opening : Tables) (log : List Commit)
        (histories : List (List Step)) →
        IfOk made (λ one. IsSummary spec opening log histories one.finding one.text.items) →
        IfOk result (IsSummarized spec opening log histories (W.taken sink.old) (W.taken sink.new)
        written.new) }
    ensures halted { (spec : WorkSpec) (opening : Tables) (log : List Commit)
        (histories : List (List Step)) →
        IfOk made (λ one. IsSummary spec opening log histories one.finding one.text.items) →
        IfErr result (IsHalted spec opening log histories (W.taken sink.old) (W.taken sink.new)
        written.new) }
    ensures memory { OnErr made (result ≡ Err Stop.Memory) }
    ensures counts { RoseWhere W.faults (at_write_failed result) sink.old sink.new }
    ensures never_falls { W.faults sink.old ≤ W.faults sink.new }
{
    let Ok(made) = made else {
        return Err(Stop::Memory);
    };
    match print(sink, written, made.text.as_slice()) {
        Ok(()) => Ok(made.finding),
        Err(_) => Err(Stop::WriteFault),
    }
}

/// The end of a load's run that began.
fn ended_work<K: Keeper, N: Start>(
    alloc: Global,
    store: Store<K, N>,
    shards: Vec<Shard>,
    printed: Result<Finding, Stop>,
    written: u64,
    histories: Vec<Vec<Step>>,
) -> RunEnd<K>
    requires few { length shards.items ≤ 64 }
    requires whole { AreWhole shards.items }
    requires none { histories.items ≡ [] }
    requires room { length shards.items ≤ vec_capacity histories }
    ensures status { result.status ≡ end_status (nat_lt 0 store.ledger.failed)
        (first_spent (histories_in shards.items)) printed }
    ensures started { K.is_started result.keeper }
    ensures rows { K.rows result.keeper ≡ store.known_rows }
    ensures faults { K.faults result.keeper ≡ store.faults }
    ensures opening { result.opening ≡ Some store.ledger.opening }
    ensures log { result.log.items ≡ store.ledger.log }
    ensures histories { histories_at result ≡ histories_in shards.items }
    ensures written { result.written ≡ written }
    ensures no_ends { result.ends.items ≡ [] }
    ensures none_earlier { result.earlier.items ≡ [] }
    ensures told { ForSome store.known_rows (λ known. known ≡ rows_of store.ledger) }
    ensures since { FailedSince N.count store.ledger.failed store.faults }
{
    let failed = store.failed() > 0;
    let status = end_status(failed, first_spent(shards.as_slice()), printed);
    ended_hub(
        status,
        store,
        shards,
        histories,
        Vec::new(alloc),
        Vec::new(alloc),
        written,
    )
}

/// The status of a load's run that began: whether a call of its keeper failed, the least shard without
/// a token left, and what stopped it, if something did.
pub(crate) fn end_status(failed: bool, spent: Option<u32>, printed: Result<Finding, Stop>) -> Status
    ensures { result ≡ end_status failed spent printed }
{
    match printed {
        Err(Stop::WriteFault) => Status::WriteFault,
        Err(Stop::Memory) => Status::Memory,
        Ok(_) => work_status(failed, spent),
    }
}

/// The status of a load's run whose summary was written.
fn work_status(failed: bool, spent: Option<u32>) -> Status
    ensures { result ≡ work_status failed spent }
{
    if failed {
        return Status::KeepFault;
    }
    match spent {
        Some(shard) => Status::Spent { shard },
        None => Status::Done,
    }
}

/// The least shard that has drawn each token that it can, if there is one.
pub(crate) fn first_spent(shards: &[Shard]) -> Option<u32>
    requires few { length shards.now ≤ 64 }
    requires whole { AreWhole shards.now }
    ensures { result ≡ first_spent (histories_in shards.now) }
{
    for (place, shard) in shards.iter().enumerate() {
        if has_spent(shard.history()) {
            return Some(place as u32);
        }
    }
    None
}

/// Whether the shard of this history has drawn each token that it can.
fn has_spent(history: &[Step]) -> bool
    ensures { result ≡ has_spent history.now }
{
    drawn_in(history) as u64 == u64::MAX - 1
}

/// How many tokens were drawn in a history.
fn drawn_in(history: &[Step]) -> usize
    ensures { result ≡ count_by draws history.now }
{
    history.iter().filter(|step| draws(step)).count()
}

/// Whether the step drew a token.
fn draws(step: &Step) -> bool
    ensures { result ≡ draws step.now }
{
    matches!(step, Step::Lease { .. } | Step::Granted { .. })
}
