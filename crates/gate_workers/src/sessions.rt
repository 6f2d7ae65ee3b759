ghost use Rattle.std.specs.Prelude.{◌≡◌, List, Option, IfOk, OnErr};
ghost use Rattle.rows_model.specs.declared.keys.Sid.{Sid};
ghost use Rattle.session_client.specs.Desks.{Exchange};
ghost use Rattle.session_client.specs.Follows.{IsReady};
ghost use Rattle.session_client.specs.Plans.{IsPlan, writes};
ghost use Rattle.session_client.specs.declared.plans.Plan.{Plan};
ghost use Rattle.gate_workers.specs.Rows.{desk_view};
ghost use Rattle.gate_workers.specs.Notes.{IsGoing, IsWanting, IsUnderWay, HasEnded, AddsRow, AddsStop};

use crate::marks::{Mark, Response};
use crate::notes::Notes;
use crate::transcripts::Row;
use executor::Request;
use iq_outside::{Gate, Point};
use rows_model::{Memory, Sid};
use session_client::{Desk, Outcome, Plan, Session, Wanted};
use std::alloc::Global;
use std::sync::Wait;

/// Runs a session of the plan to its end at the desk, and gives its row. The gate is told when it is
/// about to ask for its commit and when it has its outcome, and the desk then takes a step of its
/// sweep.
///
/// For want of memory there is no row. A session that had begun was ended all the same, and its grants
/// were released. One that ended otherwise than by want of memory has a row, unless it made more than 32
/// requests.
pub(crate) fn run_session<R: Wait, D: Desk, G: Gate>(
    rt: &R,
    alloc: Global,
    worker: u32,
    desk: &mut D,
    plan: &Plan,
    gate: &G,
) -> Result<Row, Memory>
    requires { IsPlan plan.now }
    ensures row { IfOk result (λ row. AddsRow plan.now
        (desk_view D.record_of D.tends D.worker desk.old) (desk_view D.record_of D.tends D.worker desk.new) row) }
    ensures stop { OnErr result (AddsStop plan.now
        (desk_view D.record_of D.tends D.worker desk.old) (desk_view D.record_of D.tends D.worker desk.new)) }
{
    let copy = plan.copy()?;
    let mut notes = Notes::new(alloc)?;
    let sid = desk.begin(plan.writes())?;
    let Ok(mut session) = Session::new(alloc, sid, copy) else {
        desk.call(sid, Wanted::End).let_go();
        return Err(Memory);
    };
    let outcome = drive(rt, worker, desk, &mut session, &mut notes, gate);
    session.let_go();
    gate.at(worker, Point::Answered);
    desk.tend();
    Row::of(sid, outcome, notes)
}

/// Makes the session's requests at the desk until it wants no more, and tells how it ended.
fn drive<R: Wait, D: Desk, G: Gate>(
    rt: &R,
    worker: u32,
    desk: &mut D,
    session: &mut Session,
    notes: &mut Notes,
    gate: &G,
) -> Outcome
    requires ready { IsReady session.old }
    requires going { IsGoing session.old }
    ensures ended { (who : Sid) (plan : Plan) (before : Option (List Exchange)) →
        IsUnderWay who plan session.old before (D.record_of desk.old) notes.old →
        HasEnded who plan result before (D.record_of desk.new) notes.new }
    ensures tends { D.tends desk.new ≡ D.tends desk.old }
    ensures worker { D.worker desk.new ≡ D.worker desk.old }
{
    for _ in rt.forever() {
        if let Some(outcome) = session.done() {
            return outcome;
        }
        step(worker, desk, session, notes, gate);
    }
    unreachable!()
}

/// Makes the session's next request, and tells it the reply.
fn step<D: Desk, G: Gate>(
    worker: u32,
    desk: &mut D,
    session: &mut Session,
    notes: &mut Notes,
    gate: &G,
)
    requires ready { IsReady session.old }
    requires going { IsGoing session.old }
    requires wanting { IsWanting session.old }
    ensures ready { IsReady session.new }
    ensures going { IsGoing session.new }
    ensures goes_on { (who : Sid) (plan : Plan) (before : Option (List Exchange)) →
        IsUnderWay who plan session.old before (D.record_of desk.old) notes.old →
        IsUnderWay who plan session.new before (D.record_of desk.new) notes.new }
    ensures tends { D.tends desk.new ≡ D.tends desk.old }
    ensures worker { D.worker desk.new ≡ D.worker desk.old }
{
    let sid = session.sid();
    let wanted = session.wants();
    let asked = Request::of(&wanted);
    if asked == Request::Commit {
        gate.at(worker, Point::Quarantined);
    }
    let reply = desk.call(sid, wanted);
    notes.note(Mark {
        asked,
        response: Response::of(&reply),
    });
    // Where memory runs out here, the session's outcome says so.
    let _ = session.hear(reply);
}
