ghost use Rattle.std.specs.Prelude.{◌≡◌, ◌<◌, All, map, length, IfOk};
ghost use Rattle.std.specs.Thread.{IsSync};
ghost use Rattle.session_client.specs.Plans.{IsPlan};
ghost use Rattle.gate_workers.specs.Rows.{desk_view, IsWork, AllWork, HasWorked, AllWorked, AreJoined};

use crate::sessions::run_session;
use crate::transcripts::Transcript;
use iq_outside::Gate;
use rows_model::Memory;
use session_client::{Desk, Plan};
use std::alloc::Global;
use std::sync::Wait;
use std::thread::{Threads, join_mut};

/// Runs the plans of each list in order on the desk at the same place, each list in a thread of its
/// own, and joins them all. It gives a transcript for each worker, and each has one row for each plan.
/// The caller works the last list itself, and each list for which no thread can be started. It may
/// wait.
///
/// The gate is called with `Quarantined` before a commit is asked and with `Answered` after each
/// outcome, and each desk tends once behind each `Answered`, with the number of the worker, from 0.
///
/// For want of memory there are no transcripts. A worker for which it ran out stopped at one of its
/// plans. The sessions of the plans before have run, and so has that of this plan, with its grants
/// released, unless it was ended before it asked for anything, or never began. Where it has run, it
/// failed for want of memory, or made more than 32 requests. The other workers went on.
pub fn work_all<R: Threads + Wait + Sync, D: Desk + Send, G: Gate>(
    rt: &R,
    alloc: Global,
    desks: &mut [D],
    plans: &[Vec<Plan>],
    gate: &G,
) -> Result<Vec<Transcript>, Memory>
    requires as_many { length plans.now ≡ length desks.old }
    requires plans { All (λ list. All IsPlan list.items) plans.now }
    ensures work { IfOk result (λ transcripts. AllWork (map (λ list. list.items) plans.now)
        (map (desk_view D.record_of D.tends D.worker) desks.old)
        (map (desk_view D.record_of D.tends D.worker) desks.new) transcripts.items) }
    ensures worked { AllWorked (map (λ list. list.items) plans.now)
        (map (desk_view D.record_of D.tends D.worker) desks.old)
        (map (desk_view D.record_of D.tends D.worker) desks.new) }
{
    work_from(rt, &alloc, plans, plans, gate, desks)
}

/// Runs the plans that are left of all: those of the first worker in a thread of its own, beside those
/// of the workers behind it. The last one needs no thread.
#[tactic(auto, using(crate::proofs::WorkLemmas::front_plans, crate::proofs::WorkLemmas::back_plans))]
fn work_from<R: Threads + Wait + Sync, D: Desk + Send, G: Gate>(
    rt: &R,
    alloc: &Global,
    all: &[Vec<Plan>],
    left: &[Vec<Plan>],
    gate: &G,
    desks: &mut [D],
) -> Result<Vec<Transcript>, Memory>
    requires as_many { length left.now ≡ length desks.old }
    requires plans { All (λ list. All IsPlan list.items) left.now }
    ensures work { IfOk result (λ transcripts. AllWork (map (λ list. list.items) left.now)
        (map (desk_view D.record_of D.tends D.worker) desks.old)
        (map (desk_view D.record_of D.tends D.worker) desks.new) transcripts.items) }
    ensures worked { AllWorked (map (λ list. list.items) left.now)
        (map (desk_view D.record_of D.tends D.worker) desks.old)
        (map (desk_view D.record_of D.tends D.worker) desks.new) }
{
    if desks.len() < 2 {
        return work_one(rt, alloc, all, left, left, gate, desks);
    }
    let (first, rest) = left.split_at(1);
    let (front, back) = desks.split_at_mut(1);
    let (first, rest) = join_mut(
        rt,
        &mut ||
            requires { (length first.now ≡ length front.now) × (length front.now < 2)
                × All (λ list. All IsPlan list.items) first.now }
            ensures work { IfOk result (λ transcripts. AllWork
                (map (λ list. list.items) first.entry.now)
                (map (desk_view D.record_of D.tends D.worker) front.entry.now)
                (map (desk_view D.record_of D.tends D.worker) front.exit.now) transcripts.items) }
            ensures worked { AllWorked (map (λ list. list.items) first.entry.now)
                (map (desk_view D.record_of D.tends D.worker) front.entry.now)
                (map (desk_view D.record_of D.tends D.worker) front.exit.now) }
        { work_one(rt, alloc, all, left, first, gate, front) },
        &mut ||
            requires { IsSync R.row × (length rest.now ≡ length back.now)
                × All (λ list. All IsPlan list.items) rest.now }
            ensures work { IfOk result (λ transcripts. AllWork
                (map (λ list. list.items) rest.entry.now)
                (map (desk_view D.record_of D.tends D.worker) back.entry.now)
                (map (desk_view D.record_of D.tends D.worker) back.exit.now) transcripts.items) }
            ensures worked { AllWorked (map (λ list. list.items) rest.entry.now)
                (map (desk_view D.record_of D.tends D.worker) back.entry.now)
                (map (desk_view D.record_of D.tends D.worker) back.exit.now) }
        { work_from(rt, alloc, all, rest, gate, back) },
    );
    joined(first, rest)
}

/// The transcripts of the first worker and of those behind it.
fn joined(
    first: Result<Vec<Transcript>, Memory>,
    rest: Result<Vec<Transcript>, Memory>,
) -> Result<Vec<Transcript>, Memory>
    ensures { IfOk result (λ all. AreJoined all.items first rest) }
{
    let mut transcripts = first?;
    let mut others = rest?;
    transcripts.append(&mut others)?;
    Ok(transcripts)
}

/// Runs the plans of a worker, if there is one. Its number is how many lists of all aren't left.
fn work_one<R: Wait, D: Desk, G: Gate>(
    rt: &R,
    alloc: &Global,
    all: &[Vec<Plan>],
    left: &[Vec<Plan>],
    plans: &[Vec<Plan>],
    gate: &G,
    desks: &mut [D],
) -> Result<Vec<Transcript>, Memory>
    requires as_many { length plans.now ≡ length desks.old }
    requires few { length desks.old < 2 }
    requires plans { All (λ list. All IsPlan list.items) plans.now }
    ensures work { IfOk result (λ transcripts. AllWork (map (λ list. list.items) plans.now)
        (map (desk_view D.record_of D.tends D.worker) desks.old)
        (map (desk_view D.record_of D.tends D.worker) desks.new) transcripts.items) }
    ensures worked { AllWorked (map (λ list. list.items) plans.now)
        (map (desk_view D.record_of D.tends D.worker) desks.old)
        (map (desk_view D.record_of D.tends D.worker) desks.new) }
{
    let mut transcripts = Vec::new(*alloc);
    if desks.is_empty() {
        return Ok(transcripts);
    }
    let worker = u32::try_from(all.len().saturating_sub(left.len())).unwrap_or(u32::MAX);
    let list = plans[0].as_slice();
    let desk = &mut desks[0];
    transcripts.push(run_plans(rt, *alloc, worker, desk, list, gate)?)?;
    Ok(transcripts)
}

/// Runs the plans in order on the desk.
fn run_plans<R: Wait, D: Desk, G: Gate>(
    rt: &R,
    alloc: Global,
    worker: u32,
    desk: &mut D,
    plans: &[Plan],
    gate: &G,
) -> Result<Transcript, Memory>
    requires { All IsPlan plans.now }
    ensures work { IfOk result (λ rows.
        IsWork plans.now (desk_view D.record_of D.tends D.worker desk.old)
        (desk_view D.record_of D.tends D.worker desk.new) rows) }
    ensures worked { HasWorked plans.now (desk_view D.record_of D.tends D.worker desk.old)
        (desk_view D.record_of D.tends D.worker desk.new) }
{
    let mut rows = Vec::with_capacity(alloc, plans.len())?;
    for plan in plans {
        let row = run_session(rt, alloc, worker, desk, plan, gate)?;
        rows.push_reserved(row);
    }
    Ok(Transcript::of(rows))
}
