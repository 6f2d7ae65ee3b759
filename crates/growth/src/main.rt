//! Measures how what a request costs grows: with how many came before it, and with what stands beside it.
//! It prints ratios of one run, and no contract speaks of them. `docs/measures.md` tells what each line says.
#![tactic(auto)]

mod asks;
mod measures;
mod shards;
mod times;

use measures::{ALL, FULL, Measure, SMALL, took};
use std::env;
use std::process::ExitCode;
use times::{Ratio, Unmeasured};

/// How many times as many requests are made as at first.
const TIMES: u32 = 10;

/// How often each is tried.
const TRIES: u32 = 3;

/// What is to be done.
enum Task {
    /// To measure, in some minutes.
    Measure,
    /// To make a few requests of each kind, which tells that they are answered as they must be.
    Try,
}

fn main(rt: HostRuntime) -> ExitCode {
    let done = match task_of(&rt) {
        Some(Task::Measure) => measure_all(&rt),
        Some(Task::Try) => try_all(&rt),
        None => {
            let _ = eprintln!(rt; "usage: growth measure, or growth try");
            return ExitCode::from(1);
        }
    };
    if done.is_err() {
        let _ = eprintln!(rt; "not measured");
        return ExitCode::from(2);
    }
    ExitCode::SUCCESS
}

/// What the one word behind the program's name asks for.
fn task_of(rt: &HostRuntime) -> Option<Task> {
    let mut words = env::args(rt).ok()?;
    let _name = words.next()?;
    let word = words.next()?;
    if words.next().is_some() {
        return None;
    }
    match word.as_str() {
        "measure" => Some(Task::Measure),
        "try" => Some(Task::Try),
        _ => None,
    }
}

/// Makes a few requests of each kind, and tells how many.
fn try_all(rt: &HostRuntime) -> Result<(), Unmeasured> {
    for measure in ALL {
        let mut kept = Vec::new(rt.alloc());
        let _nanos = took(rt, rt.alloc(), measure, &SMALL, SMALL.few, &mut kept)?;
        println!(rt; "{}: {} requests", measure.name(), SMALL.few)?;
    }
    Ok(())
}

/// Measures each, and prints its ratios: what ten times the requests cost, and what one costs beside one
/// of a reader's alone.
fn measure_all(rt: &HostRuntime) -> Result<(), Unmeasured> {
    let (alone, _) = few_and_many(rt, Measure::Readers)?;
    for measure in ALL {
        let (few, many) = few_and_many(rt, measure)?;
        let grows = Ratio::of(TIMES, many, few);
        let beside = Ratio::of(measure.share(), few, alone);
        println!(rt;
            "{}: ten times as many {grows}, beside (a) {beside}",
            measure.name()
        )?;
    }
    Ok(())
}

/// The least nanoseconds, of three tries, that the few requests took, made ten times from the start, and
/// that ten times as many took at once.
fn few_and_many(rt: &HostRuntime, measure: Measure) -> Result<(u64, u64), Unmeasured> {
    let (mut few, mut many) = (u64::MAX, u64::MAX);
    let requests = FULL.few / measure.share().max(1);
    for _ in 0..TRIES {
        few = few.min(took_times(rt, measure, TIMES, requests)?);
        many = many.min(took_times(rt, measure, 1, requests.saturating_mul(TIMES))?);
    }
    Ok((few, many))
}

/// The nanoseconds that so many requests took, made so many times from the start.
fn took_times(
    rt: &HostRuntime,
    measure: Measure,
    times: u32,
    requests: u32,
) -> Result<u64, Unmeasured> {
    let mut kept = Vec::new(rt.alloc());
    let mut all = 0u64;
    for _ in 0..times {
        let nanos = took(rt, rt.alloc(), measure, &FULL, requests, &mut kept)?;
        all = all.saturating_add(nanos);
    }
    Ok(all)
}
