ghost use Rattle.std.specs.Prelude.{◌≡◌, ◌≢◌, ◌+◌, ◌<◌, ◌≤◌, ◌^◌, ◌∷◌, ◌⊎◌, [], List, length, slice_get, Some, IfOk, IfErr, OnOk, OnErr, MatchResult, IsSome};
ghost use Rattle.std.specs.Option.{ForSome};
ghost use Rattle.rows_model.specs.Rows.{start_tables};
ghost use Rattle.session_client.specs.declared.plans.Turn.{Turn};
ghost use Rattle.session_client.specs.Plans.{IsPlan, IsShape, writes};
ghost use Rattle.core_history.specs.Cores.{Origin, origin_of, HasShards, HasKept, IsAt, IsSound, IsRunning, HasBegun, shards_in, histories_in};
ghost use Rattle.core_history.specs.Machine.{Said, Move, Begin, Take, world_of, turn_event, log_cap};
ghost use Rattle.sql_keeper.specs.Faults.{Counts, has_failed};
ghost use Rattle.sql_keeper.specs.Stores.{opened};
ghost use Rattle.core_history.specs.TurnLines.{IsLineOf};

use crate::sweep_lines::tick_line;
use crate::sweeps::sweep_turn;
use crate::turn_lines::TurnLine;
use crate::turns::session_turn;
use expiry_sweeper::Sweeper;
use key_shard::{Shard, Step};
use rows_model::{Memory, Rows, Sid};
use session_client::{Plan, Session, Shape, Turn};
use sql_keeper::{Commit, CommitLog, KeepFault, Keeper, NoStore, Place, Store};
use std::alloc::Global;
use std::marker::Model;

/// How many commits the log holds at most.
const LOG_CAP: u64 = 8_000_000;

/// The core of a run: the store, the shards, the sessions on their way, the sweeper, and the clock.
/// Contracts see these.
pub struct Core<K: Keeper> {
    alloc: Global,
    store: Store<K>,
    shards: Vec<Shard>,
    sessions: Vec<Session>,
    sweeper: Sweeper,
    clock: u64,
}

impl<K: Keeper> Model for Core<K> {
    ghost use Rattle.core_history.specs.Cores.{CoreView, KeepAll};

    ghost Value = { CoreView };

    ghost view = { λ core. record {
      store = core.store;
      shards = core.shards.items;
      sessions = core.sessions.items;
      sweeper = core.sweeper;
      clock = core.clock;
    } };

    ghost invariant = { λ core. KeepAll core.shards.items };
}

impl<K: Keeper> Core<K> {
    /// A core of this shape, with no session, whose clock says 0. What needs memory is made before its
    /// keeper is started at this place: so where memory runs out before, the keeper comes back as it
    /// was. Where it doesn't start, it comes back with the cause, as `Store::new` gives it.
    pub fn new(alloc: Global, keeper: K, place: &Place, shape: Shape) -> Result<Core<K>, NoStore<K>>
        requires { IsShape shape }
        ensures begins { IfOk result (λ core. IsAt core (origin_of shape core) []) }
        ensures held { IfOk result (λ core. IsSome core.store.known_rows →
            ForSome (K.holds keeper place.now shape.members)
            (λ held. core.store.ledger.opening ≡ held)) }
        ensures fresh { place.now ≡ Place.Fresh →
            OnOk result (K.holds keeper place.now shape.members ≡
            Some (start_tables shape.members)) }
        ensures counts { MatchResult result (λ core. core.store.faults ≡ K.faults keeper)
            (λ none. Counts (has_failed none.cause) (K.faults keeper) (K.faults none.keeper)) }
        ensures never_falls { IfErr result (λ none. K.faults keeper ≤ K.faults none.keeper) }
        ensures kept { IfErr result (λ none. K.rows none.keeper ≡ K.rows keeper) }
        ensures unstarted { IfErr result (λ none. K.is_started none.keeper → K.is_started keeper) }
    {
        let Ok(shards) = shards_of(alloc, shape) else {
            return Err(NoStore {
                keeper,
                cause: KeepFault::Memory,
            });
        };
        match Store::new(alloc, keeper, place, shape.members, LOG_CAP) {
            Ok(store) => Ok(Core::over(alloc, store, shards, shape)),
            Err(none) => Err(none),
        }
    }

    /// A core over a new store and the shards of this shape.
    fn over(alloc: Global, store: Store<K>, shards: Vec<Shard>, _shape: Shape) -> Core<K>
        requires opened { store.ledger ≡ opened store.ledger.opening log_cap }
        requires shards { HasShards shards.items _shape [] }
        ensures store { result.store ≡ store }
        ensures begins { IsAt result (origin_of _shape result) [] }
    {
        // That the rows are fit is a clause of their reader.
        let _members = store.opening().members();
        Core {
            alloc,
            store,
            shards,
            sessions: Vec::new(alloc),
            sweeper: Sweeper::new(_shape.shards),
            clock: 0,
        }
    }

    /// Begins a session with this plan, here and at the store. Sessions are numbered from 1, in the
    /// order in which they begin. For want of memory nothing changes.
    pub fn add(&mut self, plan: Plan) -> Result<Sid, Memory>
        requires { IsPlan plan }
        ensures begins { (origin : Origin) (moves : List Move) → IsAt self.old origin moves →
            IfOk result (λ sid. (sid.number ≡ length (world_of origin.shape moves).plans + 1) ×
            IsAt self.new origin (Begin plan ∷ moves)) }
        ensures err { OnErr result (self.new ≡ self.old) }
    {
        let writes = plan.writes();
        let sid = Sid {
            number: self.sessions.len() as u64 + 1,
        };
        self.sessions.reserve(1)?;
        let session = Session::new(self.alloc, sid, plan)?;
        match self.store.begin(writes) {
            Ok(_) => {
                self.sessions.push_reserved(session);
                Ok(sid)
            }
            Err(memory) => {
                session.let_go();
                Err(memory)
            }
        }
    }

    /// Takes a turn, of a session, of the clock or of the sweeper: one event, and its line. A keeper
    /// that fails is told as FAULT, and the core goes on. After want of memory the event may have been
    /// made or not, and the core is only to be read and taken apart.
    pub fn step(&mut self, turn: Turn) -> Result<TurnLine, Memory>
        requires running { IsRunning self.old }
        requires begun { HasBegun self.old turn }
        ensures takes { (origin : Origin) (moves : List Move) → IsAt self.old origin moves →
            IfOk result (λ printed. (said : Said) × IsAt self.new origin (Take turn said ∷ moves) ×
            IsLineOf (turn_event origin.shape (world_of origin.shape moves) turn said) printed) }
        ensures err { (origin : Origin) (moves : List Move) → IsAt self.old origin moves →
            OnErr result (HasKept self.new origin moves ⊎
            ((said : Said) × HasKept self.new origin (Take turn said ∷ moves))) }
    {
        match turn {
            Turn::Session { sid } => self.step_of(sid),
            Turn::Tick { by } => self.tick(by),
            Turn::Sweep => self.sweep(),
        }
    }

    /// So many ticks pass on the clock, which stops at its type's end.
    fn tick(&mut self, by: u64) -> Result<TurnLine, Memory>
        ensures takes { (origin : Origin) (moves : List Move) → IsAt self.old origin moves →
            IfOk result (λ printed. (said : Said) ×
            IsAt self.new origin (Take (Turn.Tick by) said ∷ moves) ×
            IsLineOf (turn_event origin.shape (world_of origin.shape moves)
            (Turn.Tick by) said) printed) }
        ensures err { (origin : Origin) (moves : List Move) → IsAt self.old origin moves →
            OnErr result (HasKept self.new origin moves ⊎
            ((said : Said) × HasKept self.new origin (Take (Turn.Tick by) said ∷ moves))) }
    {
        self.clock = self.clock.saturating_add(by);
        tick_line(self.alloc, self.clock)
    }

    /// Takes a step of the sweeper's.
    fn sweep(&mut self) -> Result<TurnLine, Memory>
        requires running { IsRunning self.old }
        ensures takes { (origin : Origin) (moves : List Move) → IsAt self.old origin moves →
            IfOk result (λ printed. (said : Said) ×
            IsAt self.new origin (Take Turn.Sweep said ∷ moves) ×
            IsLineOf (turn_event origin.shape (world_of origin.shape moves)
            Turn.Sweep said) printed) }
        ensures err { (origin : Origin) (moves : List Move) → IsAt self.old origin moves →
            OnErr result (HasKept self.new origin moves ⊎
            ((said : Said) × HasKept self.new origin (Take Turn.Sweep said ∷ moves))) }
    {
        sweep_turn(
            self.alloc,
            &mut self.store,
            &mut self.shards,
            &mut self.sweeper,
            self.clock,
        )
    }

    /// Takes a session's turn.
    fn step_of(&mut self, who: Sid) -> Result<TurnLine, Memory>
        requires running { IsRunning self.old }
        requires begun { HasBegun self.old (Turn.Session who) }
        ensures takes { (origin : Origin) (moves : List Move) → IsAt self.old origin moves →
            IfOk result (λ printed. (said : Said) ×
            IsAt self.new origin (Take (Turn.Session who) said ∷ moves) ×
            IsLineOf (turn_event origin.shape (world_of origin.shape moves)
            (Turn.Session who) said) printed) }
        ensures err { (origin : Origin) (moves : List Move) → IsAt self.old origin moves →
            OnErr result (HasKept self.new origin moves ⊎
            ((said : Said) × HasKept self.new origin (Take (Turn.Session who) said ∷ moves))) }
    {
        session_turn(
            self.alloc,
            &mut self.store,
            &mut self.shards,
            &mut self.sessions,
            who,
            self.clock,
        )
    }

    /// What the clock says: 0 at first, and then what the ticks so far come to.
    pub fn now(&self) -> u64
        ensures { result ≡ self.now.clock }
    {
        self.clock
    }

    /// The transactions that were committed, the earliest first. A core keeps them all in memory.
    pub fn log(&self) -> &[Commit]
        ensures items { (origin : Origin) (moves : List Move) → HasKept self.now origin moves →
            result.now ≡ self.now.store.ledger.log }
    {
        self.store.log()
    }

    /// The rows that the keeper started with.
    pub fn opening(&self) -> &Rows
        ensures { result.now ≡ self.now.store.ledger.opening }
    {
        self.store.opening()
    }

    /// How many shards there are.
    pub fn shards(&self) -> usize
        ensures { result ≡ shards_in self.now }
    {
        self.shards.len()
    }

    /// The history of the shard of this number, from 0.
    pub fn history(&self, shard: u32) -> &[Step]
        requires { shard < shards_in self.now }
        ensures { slice_get (histories_in self.now) shard ≡ Some result.now }
    {
        self.shards[shard as usize].history()
    }

    /// Takes the core apart into its keeper, the rows that the keeper started with, the log and the
    /// shards. It takes no memory.
    pub fn into_parts(self) -> (K, Rows, CommitLog, Vec<Shard>)
        ensures started { K.is_started result.0 }
        ensures rows { K.rows result.0 ≡ self.store.known_rows }
        ensures faults { K.faults result.0 ≡ self.store.faults }
        ensures opening { result.1 ≡ self.store.ledger.opening }
        ensures log { result.2.items ≡ self.store.ledger.log }
        ensures shards { result.3.items ≡ self.shards }
        ensures sound { (origin : Origin) (moves : List Move) →
            HasKept self origin moves → IsSound self origin moves }
    {
        let Core {
            alloc: _,
            store,
            shards,
            sessions,
            sweeper: _,
            clock: _,
        } = self;
        let_go(sessions);
        let (keeper, opening, log) = store.into_parts();
        (keeper, opening, log, shards)
    }
}

/// Puts all sessions away, with the grants that they have.
fn let_go(mut sessions: Vec<Session>) {
    while let Some(session) = sessions.pop() {
        session.let_go();
    }
    sessions.destroy_empty();
}

/// The shards of a shape.
fn shards_of(alloc: Global, shape: Shape) -> Result<Vec<Shard>, Memory>
    requires { IsShape shape }
    ensures { IfOk result (λ shards. HasShards shards.items shape []) }
{
    let mut shards = Vec::new(alloc);
    for no in 0..shape.shards {
        shards.push(Shard::new(alloc, no, shape.shards, shape.room, shape.life, 1)?)?;
    }
    Ok(shards)
}
