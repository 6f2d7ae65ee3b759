ghost use Rattle.std.specs.Prelude.{◌≡◌, ◌≢◌, ◌+◌, ◌≤◌, ◌<◌, ◌^◌, true, [], ◌++◌, Err, OnOk, OnErr, IfOk, IfErr, option_to_list};
ghost use Rattle.run_inputs.specs.Script.{plan_of, acts_in, has_key, has_own_key, IsLong, IsSound, IsScript, ComesFrom};
ghost use Rattle.run_inputs.specs.Parsing.{IsActFault, IsLineFault, IsPlanFault};
ghost use Rattle.run_inputs.specs.declared.faults.ScriptKind.TheVariants.{LongText};
ghost use Rattle.run_inputs.specs.declared.faults.ScriptFault.TheVariants.{Bad};
ghost use Rattle.run_inputs.specs.Fit.{IsPlayable};

use crate::cuts::first_line;
use crate::faults::{ScriptFault, ScriptKind};
use crate::lines::{Job, Line, LineFault};
use crate::stages::Progress;
use rows_model::{Memory, Sid};
use session_client::{Plan, Shape, Turn};
use std::alloc::Global;
use std::marker::Model;

// The longest text, in bytes.
const LONGEST_TEXT: usize = 16_777_216;

/// A step of a script.
#[derive(Drop)]
pub enum Act {
    /// A session of this plan begins.
    Add { plan: Plan },
    /// This turn, so many times, from 1 to 1,000.
    Run { turn: Turn, count: u32 },
}

/// What a text says. Contracts see the shape and the list of acts.
#[derive(Drop)]
pub struct Script {
    shape: Shape,
    acts: Vec<Act>,
}

impl Model for Script {
    ghost use Rattle.run_inputs.specs.Fit.{ScriptView};

    ghost Value = { ScriptView };

    ghost view = { λ s. record { shape = s.shape; acts = s.acts.items } };
}

impl Script {
    /// The script that the text says, or the first fault of its first line that has one. The acts
    /// can be run in a core of the shape: each turn of a session is of one that an act before
    /// began, and the turns, ticks and sweeps are at most 1,000,000.
    ///
    /// Memory is asked for the acts alone. So `Memory` comes only of a text with a line that has an
    /// act, where neither it nor a line before it has a fault.
    /// A text that is too long is told before any memory is asked for.
    pub fn parse(alloc: Global, text: &[u8]) -> Result<Script, ScriptFault>
        ensures script { IfOk result (λ script. IsScript text.now script.shape script.acts) }
        ensures playable { IfOk result (λ script. IsPlayable script.shape script.acts) }
        ensures fault { IfErr result (λ fault. ComesFrom text.now fault) }
        ensures long { IsLong text.now → result ≡ Err (Bad 0 LongText) }
    {
        if text.len() > LONGEST_TEXT {
            return Err(ScriptFault::Bad {
                line: 0,
                kind: ScriptKind::LongText,
            });
        }
        let mut acts = Vec::new(alloc);
        let mut progress = Progress::start();
        let mut number = 0;
        let mut rest = text;
        while !rest.is_empty() {
            let (line, behind) = first_line(rest);
            number += 1;
            let (said, act) = match taken(alloc, &progress, line) {
                Ok(taken) => taken,
                Err(fault) => return Err(fault.at(number)),
            };
            let Ok(()) = push_act(&mut acts, act) else {
                return Err(ScriptFault::Memory);
            };
            progress = progress.after(&said);
            rest = behind;
        }
        if !progress.has_ended() {
            return Err(ScriptFault::Bad {
                line: number + 1,
                kind: ScriptKind::NoEnd,
            });
        }
        Ok(Script {
            shape: progress.shape,
            acts,
        })
    }

    /// What the script is to be run with.
    pub fn shape(&self) -> Shape
        ensures { result ≡ self.now.shape }
    {
        self.shape
    }

    /// The acts, in the order of their lines.
    pub fn acts(&self) -> &[Act]
        ensures { result.now ≡ self.now.acts }
    {
        self.acts.as_slice()
    }

    /// The acts, in the order of their lines.
    pub fn into_acts(self) -> Vec<Act>
        ensures { result.items ≡ self.acts }
    {
        self.acts
    }
}

// What the next line says and its act, or why it isn't taken. No memory is asked for a line that has a
// fault.
fn taken(alloc: Global, progress: &Progress, line: &[u8]) -> Result<(Line, Option<Act>), LineFault>
    requires few { progress.now.begun + 1 < 2 ^ 64 }
    requires short { progress.now.turns ≤ 1000000 }
    ensures said { IfOk result (λ taken. IsSound progress.now line.now taken.0) }
    ensures act { IfOk result (λ taken. option_to_list taken.1 ≡ acts_in taken.0) }
    ensures fault { IfErr result (λ fault. IsLineFault progress.now line.now fault) }
{
    let said = progress.read(line)?;
    let act = act_of(alloc, &said)?;
    if progress.is_full_at(&said) {
        return Err(LineFault::Bad {
            kind: ScriptKind::Turns,
        });
    }
    Ok((said, act))
}

// Puts the act of a line, if it has one, behind the others.
fn push_act(acts: &mut Vec<Act>, act: Option<Act>) -> Result<(), Memory>
    ensures ok { OnOk result (acts.new.items ≡ acts.old.items ++ option_to_list act) }
    ensures memory { OnErr result (option_to_list act ≢ []) }
{
    if let Some(act) = act {
        acts.push(act)?;
    }
    Ok(())
}

// The act of a line, if it has one, or why it isn't taken.
fn act_of(alloc: Global, said: &Line) -> Result<Option<Act>, LineFault>
    ensures act { IfOk result (λ act. option_to_list act ≡ acts_in said.now) }
    ensures key { OnOk result (has_key said.now ≡ true) }
    ensures fault { IfErr result (λ fault. IsActFault said.now fault) }
{
    match said {
        Line::Session { job, .. } => {
            let plan = sound_plan(alloc, job)?;
            Ok(Some(Act::Add { plan }))
        }
        Line::Turn {
            number: Some(number),
            count,
        } => Ok(Some(Act::Run {
            turn: Turn::Session {
                sid: Sid { number: *number },
            },
            count: count.unwrap_or(1),
        })),
        Line::Tick { ticks } => Ok(Some(Act::Run {
            turn: Turn::Tick { by: *ticks },
            count: 1,
        })),
        Line::Sweep { count } => Ok(Some(Act::Run {
            turn: Turn::Sweep,
            count: count.unwrap_or(1),
        })),
        Line::Head { .. } | Line::Turn { number: None, .. } | Line::End => Ok(None),
    }
}

// The plan of a job, if its key is one that its transaction touches.
fn sound_plan(alloc: Global, job: &Job) -> Result<Plan, LineFault>
    ensures plan { IfOk result (λ plan. plan ≡ plan_of job.now) }
    ensures key { OnOk result (has_own_key (plan_of job.now) ≡ true) }
    ensures fault { IfErr result (λ fault. IsPlanFault (plan_of job.now) fault) }
{
    if !has_key(job) {
        return Err(LineFault::Bad {
            kind: ScriptKind::Key,
        });
    }
    Ok(plan_of(alloc, job)?)
}

// The plan of a job.
fn plan_of(alloc: Global, job: &Job) -> Result<Plan, Memory>
    ensures { IfOk result (λ plan. plan ≡ plan_of job.now) }
{
    match job {
        Job::Read { key, floor } => Ok(Plan::Read {
            key: *key,
            floor: floor.unwrap_or(0),
        }),
        Job::Write { mode, txn } => Ok(Plan::Write {
            mode: *mode,
            txn: txn.to_txn(alloc)?,
        }),
        Job::Look { mode, key, txn } => Ok(Plan::Look {
            mode: *mode,
            key: *key,
            txn: txn.to_txn(alloc)?,
        }),
        Job::Quit { mode, txn } => Ok(Plan::Quit {
            mode: *mode,
            txn: txn.to_txn(alloc)?,
        }),
        Job::Skip { key, txn } => Ok(Plan::Skip {
            key: *key,
            txn: txn.to_txn(alloc)?,
        }),
        Job::Raise { txn } => Ok(Plan::Raise {
            txn: txn.to_txn(alloc)?,
        }),
        Job::Renew { mode, txn } => Ok(Plan::Renew {
            mode: *mode,
            txn: txn.to_txn(alloc)?,
        }),
    }
}

// Whether the key of the job, if it has one beside its transaction, is one that this touches. It takes no
// memory.
fn has_key(job: &Job) -> bool
    ensures { result ≡ has_own_key (plan_of job.now) }
{
    match job {
        Job::Look { key, txn, .. } | Job::Skip { key, txn } => txn.touch(key),
        _ => true,
    }
}
