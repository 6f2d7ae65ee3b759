// A session's turn: its next request is made, its line written, and the reply told.
ghost use Rattle.std.specs.Prelude.{◌≡◌, ◌≤◌, ◌-◌, ◌∷◌, ◌⊎◌, false, List, Some, length, slice_get, Ok, OnOk, IfOk};
ghost use Rattle.session_client.specs.declared.replies.Reply.{Reply};
ghost use Rattle.session_client.specs.declared.sessions.Session.{Session};
ghost use Rattle.session_client.specs.Follows.{plan_of, sid_of, IsReady, Follows};
ghost use Rattle.session_client.specs.Wants.{wants};
ghost use Rattle.core_history.specs.Cores.{Origin, HasHomes};
ghost use Rattle.core_history.specs.Events.{now_of};
ghost use Rattle.core_history.specs.Machine.{World};
ghost use Rattle.core_history.specs.Requests.{IsWaiting, AreAfter, TakesTurn, TakesOne};

use crate::lines::{line_of, tells_fault};
use crate::requests::make;
use crate::turn_lines::TurnLine;
use executor::Request;
use key_shard::Shard;
use rows_model::{Memory, Sid};
use session_client::Session;
use sql_keeper::{Keeper, Store};
use std::alloc::Global;

/// Takes a turn of the session of this number, at the time that the clock says now.
pub(crate) fn session_turn<K: Keeper>(
    alloc: Global,
    store: &mut Store<K>,
    shards: &mut Vec<Shard>,
    sessions: &mut Vec<Session>,
    who: Sid,
    now: u64,
) -> Result<TurnLine, Memory>
    requires homes { HasHomes shards.old.items }
    requires some { 1 ≤ who.number }
    requires begun { who.number ≤ length sessions.old.items }
    requires waits { (session : Session) →
        slice_get sessions.old.items (who.number - 1) ≡ Some session →
        IsWaiting shards.old.items who session }
    ensures { TakesOne shards.old.items store.old sessions.old.items who now
        shards.new.items store.new sessions.new.items result }
{
    let place = (who.number - 1) as usize;
    take_turn(alloc, store, shards, &mut sessions[place], who, now)
}

/// Takes a turn of this session. Where memory runs out behind the event, its line is lost.
fn take_turn<K: Keeper>(
    alloc: Global,
    store: &mut Store<K>,
    shards: &mut Vec<Shard>,
    session: &mut Session,
    who: Sid,
    now: u64,
) -> Result<TurnLine, Memory>
    requires homes { HasHomes shards.old.items }
    requires some { 1 ≤ who.number }
    requires waits { IsWaiting shards.old.items who session.old }
    ensures plan { plan_of session.new ≡ plan_of session.old }
    ensures sid { sid_of session.new ≡ sid_of session.old }
    ensures ready { OnOk result (IsReady session.new) }
    ensures takes { (origin : Origin) (world : World) (heard : List Reply) →
        AreAfter shards.old.items store.old origin world → now ≡ now_of world.past →
        Follows session.old false heard →
        TakesTurn origin world who (wants (plan_of session.old) false heard) heard
        shards.new.items store.new session.new result }
{
    let request = session.wants();
    let asked = Request::of(&request);
    match make(store, shards, who, request, now) {
        Ok(reply) => {
            let line = line_of(alloc, who, asked, &reply);
            let fault = tells_fault(&reply);
            match session.hear(reply) {
                Ok(()) => told_of(line, fault),
                Err(Memory) => Err(Memory),
            }
        }
        Err(memory) => Err(memory),
    }
}

fn told_of(line: Result<Vec<u8>, Memory>, fault: bool) -> Result<TurnLine, Memory>
    ensures ok { IfOk result (λ printed. (line ≡ Ok printed.line) × (printed.fault ≡ fault)) }
{
    match line {
        Ok(line) => Ok(TurnLine { line, fault }),
        Err(memory) => Err(memory),
    }
}
