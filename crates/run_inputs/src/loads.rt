// The load: plans that are drawn from a seed.
ghost use Rattle.std.specs.Prelude.{◌≡◌, ◌≤◌, [], ◌∷◌, ◌++◌, map, replicate, All, IfOk, codes, decimal};
ghost use Rattle.rows_model.specs.Changes.{HasIds};
ghost use Rattle.session_client.specs.Plans.{IsPlan};
ghost use Rattle.run_inputs.specs.Loads.{IsWork, change_drawn, plan_of_draws, load};

use crate::draws::Draws;
use itoa::Buffer;
use rand_pcg::Lcg64Xsh32;
use rows_model::{Change, Memory, Name, QKey, Txn, TxnFault};
use session_client::Plan;
use std::alloc::Global;

// The stream of the generator.
const STREAM: u64 = 1;

/// What a load is drawn from, and on how many workers and shards it is run.
#[derive(Clone, Copy, PartialEq, Eq)]
pub struct WorkSpec {
    /// How many members there are, from 1 to 100,000.
    pub members: u32,
    /// How many sessions, at most 500,000.
    pub sessions: u32,
    /// How many workers, from 1 to 1,024.
    pub workers: u32,
    /// How many shards, from 1 to 64. The plans don't depend on it.
    pub shards: u32,
    /// The seed of the generator.
    pub seed: u64,
}

/// The plans of each worker, in the order in which it runs them. The seed tells them, four draws a
/// session, and session `i` from 0 goes to worker `i` modulo the number of workers. They are plans
/// that a session takes.
///
/// The one fault is that memory ran out.
pub fn make_plans(alloc: Global, spec: &WorkSpec) -> Result<Vec<Vec<Plan>>, Memory>
    requires { IsWork spec.now }
    ensures load { IfOk result (λ workers.
        map (λ plans. plans.items) workers.items ≡ load spec.now) }
    ensures are_plans { IfOk result (λ workers.
        All (λ plans. All IsPlan plans.items) workers.items) }
{
    let mut workers = empty_lists(alloc, spec.workers)?;
    let mut generator = Lcg64Xsh32::new(spec.seed, STREAM);
    for session in 0..spec.sessions {
        let draws = Draws::next(&mut generator);
        let plan = plan_of(alloc, spec.members, draws)?;
        workers[(session % spec.workers) as usize].push(plan)?;
    }
    Ok(workers)
}

// So many lists without a plan.
fn empty_lists(alloc: Global, count: u32) -> Result<Vec<Vec<Plan>>, Memory>
    ensures { IfOk result (λ lists. map (λ plans. plans.items) lists.items ≡ replicate count []) }
{
    let mut lists = Vec::with_capacity(alloc, count as usize)?;
    for _ in 0..count {
        lists.push(Vec::new(alloc))?;
    }
    Ok(lists)
}

// The plan of a session with these draws, among so many members.
fn plan_of(alloc: Global, members: u32, draws: Draws) -> Result<Plan, Memory>
    requires some { 1 ≤ members }
    requires few { members ≤ 100000 }
    ensures { IfOk result (λ plan. plan ≡ plan_of_draws members draws) }
{
    let a = draws.member(members);
    let share = draws.roll % 100;
    if share < 80 {
        return Ok(Plan::Read {
            key: QKey {
                kind: draws.kind(),
                id: a,
            },
            floor: 0,
        });
    }
    let change = change_of(share, a, draws.other(members));
    Ok(Plan::Write {
        mode: draws.mode(),
        txn: txn_of(alloc, change)?,
    })
}

// The change of a writer with this share of a hundred.
fn change_of(share: u32, a: u32, b: u32) -> Change
    ensures { result ≡ change_drawn share a b }
{
    match share {
        0..=87 => Change::Invite { a, b },
        88..=93 => Change::Accept { a, b },
        94..=96 => Change::Reject { a, b },
        97..=98 => Change::Thaw { a, b },
        _ => Change::Rename {
            a,
            name: name_of(b),
        },
    }
}

// The name of `n` and the number in decimal.
fn name_of(number: u32) -> Name
    ensures { result ≡ codes "n" ++ decimal number }
{
    let mut buffer = Buffer::new();
    let digits = buffer.format(number).as_bytes();
    let mut text = [b'n'; 11];
    text[1..digits.len() + 1].copy_from_slice(digits);
    match Name::of(&text[..digits.len() + 1]) {
        Some(name) => name,
        None => unreachable!(),
    }
}

// The transaction of one change.
fn txn_of(alloc: Global, change: Change) -> Result<Txn, Memory>
    requires { HasIds change }
    ensures { IfOk result (λ txn. txn ≡ change ∷ []) }
{
    match Txn::of(alloc, &[change]) {
        Ok(txn) => Ok(txn),
        Err(TxnFault::Length { .. }) => unreachable!(),
        Err(TxnFault::Memory) => Err(Memory),
    }
}
