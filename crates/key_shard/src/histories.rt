ghost use Rattle.std.specs.Prelude.{◌≡◌, ◌<◌, ◌≤◌, ◌+◌, ◌∷◌, ◌++◌, [], ◌^◌, if◌then◌else◌, IfOk, OnOk, OnErr};
ghost use Rattle.key_shard.specs.declared.steps.Step.TheVariants as step;
ghost use Rattle.key_shard.specs.Histories.{kept_in, value_hit};

use crate::steps::Step;
use http_server::Log;
use rows_model::{Memory, QKey, Sid, Value};
use std::alloc::Global;
use std::marker::Model;

/// The steps of a shard, in memory or not.
#[derive(Drop)]
enum Steps {
    /// All of them are in memory.
    Whole(Vec<Step>),
    /// Each was given up as it came. A log has no bytes: contracts alone see what is in it.
    GivenUp(Log<Step, ()>),
}

/// The steps of a shard. One that rolls gives up each step as it comes: its steps take no memory, and
/// contracts see them all the same.
#[derive(Drop)]
pub struct History {
    alloc: Global,
    steps: Steps,
}

impl Model for History {
    ghost use Rattle.key_shard.specs.Histories.{HistoryView, history_of};

    ghost Value = { HistoryView };

    ghost view = { λ h. history_of h.steps };
}

/// The value that a step hit, if it is a hit.
fn value_hit(step: Step) -> Option<Value>
    ensures { result ≡ value_hit step }
{
    match step {
        Step::Hit { value, .. } => Some(value),
        _other => None,
    }
}

impl History {
    /// No steps.
    pub fn new(alloc: Global, rolls: bool) -> History
        ensures rolls { result.rolls ≡ rolls }
        ensures steps { result.steps ≡ [] }
        ensures used { result.used ≡ 0 }
    {
        let steps = if rolls {
            Steps::GivenUp(Log::new())
        } else {
            Steps::Whole(Vec::new(alloc))
        };
        History { alloc, steps }
    }

    /// Whether each step is given up as it comes.
    pub fn rolls(&self) -> bool
        ensures { result ≡ self.now.rolls }
    {
        match &self.steps {
            Steps::Whole(_) => false,
            Steps::GivenUp(_) => true,
        }
    }

    /// What its memory is from.
    pub fn allocator(&self) -> Global {
        self.alloc
    }

    /// Keeps so many places free, beside those that are promised. One that rolls has a place for each step.
    pub fn make_room(&mut self, promised: usize, places: usize) -> Result<(), Memory>
        requires few { places ≤ 3 }
        requires kept { self.old.used + promised ≤ self.old.room }
        ensures rolls { self.new.rolls ≡ self.old.rolls }
        ensures items { self.new.steps ≡ self.old.steps }
        ensures kept { self.new.used + promised ≤ self.new.room }
        ensures ok { OnOk result (self.new.used + promised + places ≤ self.new.room) }
        ensures fits { self.new.room < 2 ^ 64 }
    {
        match &mut self.steps {
            Steps::Whole(steps) => steps.reserve(promised + places)?,
            Steps::GivenUp(_) => {
                let _ = promised.checked_add(places).ok_or(Memory)?;
            }
        }
        Ok(())
    }

    /// Adds a step in a free place.
    pub fn push(&mut self, step: Step)
        requires { self.old.used < self.old.room }
        ensures rolls { self.new.rolls ≡ self.old.rolls }
        ensures items { self.new.steps ≡ self.old.steps ++ step ∷ [] }
        ensures len { self.new.used ≤ self.old.used + 1 }
        ensures capacity { self.new.room ≡ self.old.room }
    {
        match &mut self.steps {
            Steps::Whole(steps) => steps.push_reserved(step),
            Steps::GivenUp(log) => *log = log.and(&step, &()),
        }
    }

    /// Adds the step of a hit in a free place, and hands its value back. A step in memory has a copy of the
    /// value: where that is refused, nothing changes.
    pub fn push_hit(
        &mut self,
        key: QKey,
        sid: Sid,
        floor: u64,
        value: Value,
        stamp: u64,
    ) -> Result<Value, Memory>
        requires { self.old.used < self.old.room }
        ensures rolls { self.new.rolls ≡ self.old.rolls }
        ensures items { OnOk result
            (self.new.steps ≡ self.old.steps ++ step.Hit key sid floor value stamp ∷ []) }
        ensures value { IfOk result (λ back. back ≡ value) }
        ensures len { OnOk result (self.new.used ≤ self.old.used + 1) }
        ensures capacity { self.new.room ≡ self.old.room }
        ensures err { OnErr result (self.new ≡ self.old) }
    {
        match &mut self.steps {
            Steps::Whole(steps) => {
                let copy = value.copy()?;
                steps.push_reserved(Step::Hit {
                    key,
                    sid,
                    floor,
                    value: copy,
                    stamp,
                });
                Ok(value)
            }
            Steps::GivenUp(log) => {
                let hit = Step::Hit {
                    key,
                    sid,
                    floor,
                    value,
                    stamp,
                };
                *log = log.and(&hit, &());
                Ok(value_hit(hit).unwrap())
            }
        }
    }

    /// The steps in memory, the earliest first.
    pub fn as_slice(&self) -> &[Step]
        ensures { result.now ≡ kept_in self.now }
    {
        match &self.steps {
            Steps::Whole(steps) => steps.as_slice(),
            Steps::GivenUp(_) => &[],
        }
    }

    /// The steps in memory, the earliest first.
    pub fn into_steps(self) -> Vec<Step>
        ensures { result.items ≡ kept_in self }
    {
        match self.steps {
            Steps::Whole(steps) => steps,
            Steps::GivenUp(_) => Vec::new(self.alloc),
        }
    }
}
