// Plans that are read from the text of a script.
ghost use Rattle.std.specs.Prelude.{All, IfOk, IsTrue};
ghost use Rattle.rows_model.specs.Changes.{IsTxn};
ghost use Rattle.session_client.specs.Plans.{IsPlan};

use rows_model::{Txn, touches};
use run_inputs::{Act, Script};
use session_client::Plan;
use std::alloc::Global;
use std::process::Abort;
use std::test::Fail;

/// The plans of each worker: those of the sessions that its text begins.
pub fn lists_of(rt: &impl Abort, alloc: Global, texts: &[&str]) -> Result<Vec<Vec<Plan>>, Fail>
    ensures { IfOk result (λ lists. All (λ list. All IsPlan list.items) lists.items) }
{
    let mut lists = Vec::new(alloc);
    for text in texts.iter() {
        lists.push(plans_of(rt, alloc, text)?)?;
    }
    Ok(lists)
}

/// The plans of the sessions that a text begins.
fn plans_of(rt: &impl Abort, alloc: Global, text: &str) -> Result<Vec<Plan>, Fail>
    ensures { IfOk result (λ list. All IsPlan list.items) }
{
    let Ok(script) = Script::parse(alloc, text.as_bytes()) else {
        panic!(rt; "a script");
    };
    let mut plans = Vec::new(alloc);
    for act in script.into_acts() {
        plans.push(plan_in(rt, act))?;
    }
    Ok(plans)
}

/// The plan of the session that an act begins. There is no other act.
fn plan_in(rt: &impl Abort, act: Act) -> Plan
    ensures { IsPlan result }
{
    let Act::Add { plan } = act else {
        panic!(rt; "a session");
    };
    assert!(rt; is_plan(&plan));
    plan
}

/// Whether a session takes the plan.
fn is_plan(plan: &Plan) -> bool
    ensures { IsTrue result → IsPlan plan.now }
{
    match plan {
        Plan::Read { .. } => true,
        Plan::Write { mode: _, txn }
        | Plan::Quit { mode: _, txn }
        | Plan::Raise { txn }
        | Plan::Renew { mode: _, txn } => has_changes(txn),
        Plan::Look { mode: _, key, txn } | Plan::Skip { key, txn } => {
            has_changes(txn) && touches(txn, key)
        }
    }
}

/// Whether the transaction has changes. It always has.
fn has_changes(txn: &Txn) -> bool
    ensures { IsTxn txn.now }
{
    !txn.changes().is_empty()
}
