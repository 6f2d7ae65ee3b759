// A script's acts, one after the other, and the line of each turn as it comes.
ghost use Rattle.std.specs.Prelude.{◌≡◌, ◌≤◌, ◌<◌, ◌^◌, ◌+◌, ◌∷◌, ◌++◌, ◌||◌, [], ℕ, List, Option, OnOk, OnErr, replicate, length};
ghost use Rattle.session_client.specs.Plans.{IsPlan};
ghost use Rattle.run_inputs.specs.declared.scripts.Act.TheVariants as act;
ghost use Rattle.core_history.specs.Cores.{Origin, IsRunning, HasBegun};
ghost use Rattle.core_history.specs.Determined.{Cue, Turns};
ghost use Rattle.top_run.specs.Runs.{calls_in, calls_of, RoseWhere};
ghost use Rattle.top_run.specs.Plays.{CanPlay, IsPlayed, Stops, at_write};

use crate::printing::print;
use core_history::Core;
use iq_outside::{Short, Sink};
use rows_model::Memory;
use run_inputs::Act;
use session_client::Turn;
use sql_keeper::Keeper;

/// Why a run stopped before its end.
#[derive(Clone, Copy)]
pub(crate) enum Stop {
    /// A write failed.
    WriteFault,
    /// Memory ran out.
    Memory,
}

impl From<Short> for Stop {
    ghost use Rattle.top_run.specs.declared.plays.Stop.TheVariants.{WriteFault};
    ghost use Rattle.std.specs.Prelude.{◌≡◌};

    ghost from_gives = { λ _ stop. stop ≡ WriteFault };

    fn from(_error: Short) -> Stop {
        Stop::WriteFault
    }
}

impl From<Memory> for Stop {
    ghost use Rattle.top_run.specs.declared.plays.Stop.TheVariants.{Memory as memory};
    ghost use Rattle.std.specs.Prelude.{◌≡◌};

    ghost from_gives = { λ _ stop. stop ≡ memory };

    fn from(_error: Memory) -> Stop {
        Stop::Memory
    }
}

/// What was printed so far.
#[derive(Clone, Copy)]
pub(crate) struct Tally {
    /// How many bytes the sink took. It stands still at its type's end.
    pub(crate) written: u64,
    /// Whether some line said FAULT.
    pub(crate) faulted: bool,
}

impl Tally {
    /// Notes whether one line more said FAULT.
    fn note(&mut self, fault: bool)
        ensures { self.new ≡
            record { written = self.old.written; faulted = self.old.faulted || fault } }
    {
        self.faulted = self.faulted || fault;
    }
}

/// Plays the acts in order: sessions begin, and turns are taken, of sessions, the clock or the sweeper.
pub(crate) fn play_acts<W: Sink, K: Keeper>(
    core: &mut Core<K>,
    acts: Vec<Act>,
    sink: &mut W,
    tally: &mut Tally,
) -> Result<(), Stop>
    requires { CanPlay core.old acts.items (W.taken sink.old) tally.old }
    ensures all { (origin : Origin) (calls : List Cue) (taken : Option (List ℕ)) →
        IsPlayed core.old origin calls taken (W.taken sink.old) tally.old →
        OnOk result (IsPlayed core.new origin (calls ++ calls_of acts.items) taken
        (W.taken sink.new) tally.new) }
    ensures some { (origin : Origin) (calls : List Cue) (taken : Option (List ℕ)) →
        IsPlayed core.old origin calls taken (W.taken sink.old) tally.old →
        OnErr result (Stops core.new origin (calls ++ calls_of acts.items) taken
        (W.taken sink.new) tally.new) }
    ensures counts { RoseWhere W.faults (at_write result) sink.old sink.new }
    ensures never_falls { W.faults sink.old ≤ W.faults sink.new }
{
    for act in acts {
        play_act(core, act, sink, tally)?;
    }
    Ok(())
}

/// Begins a session, or takes turns.
fn play_act<W: Sink, K: Keeper>(
    core: &mut Core<K>,
    act: Act,
    sink: &mut W,
    tally: &mut Tally,
) -> Result<(), Stop>
    requires { CanPlay core.old (act ∷ []) (W.taken sink.old) tally.old }
    ensures all { (origin : Origin) (calls : List Cue) (taken : Option (List ℕ)) →
        IsPlayed core.old origin calls taken (W.taken sink.old) tally.old →
        OnOk result (IsPlayed core.new origin (calls ++ calls_in act) taken
        (W.taken sink.new) tally.new) }
    ensures some { (origin : Origin) (calls : List Cue) (taken : Option (List ℕ)) →
        IsPlayed core.old origin calls taken (W.taken sink.old) tally.old →
        OnErr result (Stops core.new origin (calls ++ calls_in act) taken
        (W.taken sink.new) tally.new) }
    ensures counts { RoseWhere W.faults (at_write result) sink.old sink.new }
    ensures never_falls { W.faults sink.old ≤ W.faults sink.new }
{
    match act {
        Act::Add { plan } => {
            core.add(plan)?;
            Ok(())
        }
        Act::Run { turn, count } => play_turns(core, turn, count, sink, tally),
    }
}

/// Takes so many turns: those of a session, ticks of the clock, or steps of the sweeper.
fn play_turns<W: Sink, K: Keeper>(
    core: &mut Core<K>,
    turn: Turn,
    count: u32,
    sink: &mut W,
    tally: &mut Tally,
) -> Result<(), Stop>
    requires { CanPlay core.old (act.Run turn count ∷ []) (W.taken sink.old) tally.old }
    ensures all { (origin : Origin) (calls : List Cue) (taken : Option (List ℕ)) →
        IsPlayed core.old origin calls taken (W.taken sink.old) tally.old →
        OnOk result (IsPlayed core.new origin (calls ++ replicate count (Turns turn)) taken
        (W.taken sink.new) tally.new) }
    ensures some { (origin : Origin) (calls : List Cue) (taken : Option (List ℕ)) →
        IsPlayed core.old origin calls taken (W.taken sink.old) tally.old →
        OnErr result (Stops core.new origin (calls ++ replicate count (Turns turn)) taken
        (W.taken sink.new) tally.new) }
    ensures counts { RoseWhere W.faults (at_write result) sink.old sink.new }
    ensures never_falls { W.faults sink.old ≤ W.faults sink.new }
{
    for _taken in 0..count {
        play_turn(core, turn, sink, tally)?;
    }
    Ok(())
}

/// Takes one turn and prints its line.
fn play_turn<W: Sink, K: Keeper>(
    core: &mut Core<K>,
    turn: Turn,
    sink: &mut W,
    tally: &mut Tally,
) -> Result<(), Stop>
    requires running { IsRunning core.old }
    requires begun { HasBegun core.old turn }
    ensures all { (origin : Origin) (calls : List Cue) (taken : Option (List ℕ)) →
        IsPlayed core.old origin calls taken (W.taken sink.old) tally.old →
        OnOk result (IsPlayed core.new origin (calls ++ Turns turn ∷ []) taken
        (W.taken sink.new) tally.new) }
    ensures some { (origin : Origin) (calls : List Cue) (taken : Option (List ℕ)) →
        IsPlayed core.old origin calls taken (W.taken sink.old) tally.old →
        OnErr result (Stops core.new origin (calls ++ Turns turn ∷ []) taken
        (W.taken sink.new) tally.new) }
    ensures counts { RoseWhere W.faults (at_write result) sink.old sink.new }
    ensures never_falls { W.faults sink.old ≤ W.faults sink.new }
{
    let turn_line = core.step(turn)?;
    tally.note(turn_line.fault());
    print(sink, &mut tally.written, turn_line.line())?;
    Ok(())
}
