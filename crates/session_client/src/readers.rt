ghost use Rattle.std.specs.Prelude.{◌≡◌, ℕ, false, List, [], ◌∷◌, ◌↔◌, IsTrue, IfSome, Option, None, if◌then◌else◌};
ghost use Rattle.rows_model.specs.declared.keys.QKey.{QKey};
ghost use Rattle.rows_model.specs.declared.keys.Sid.{Sid};
ghost use Rattle.session_client.specs.Belongs.{Belongs};
ghost use Rattle.session_client.specs.Wants.{read_wants, read_outcome, is_nothing};
ghost use Rattle.session_client.specs.declared.replies.Reply.{Reply};

use crate::looks::answers_get;
use crate::replies::{Fault, Outcome, Reply, Wanted};
use key_shard::{Got, SetAnswer};
use rows_model::QKey;
use sql_keeper::Answer;
use std::mem;

/// How often a reader is told to try again before it asks the store and stores nothing.
const PATIENCE: u32 = 16;

/// Where a reader stands.
#[derive(Drop)]
pub enum ReadStage {
    /// It wants its key, and was told so often to try again.
    Getting { agains: u32 },
    /// It wants the store's answer, to store it under its lease or, without one, for itself alone.
    Asking { lease: Option<u64> },
    /// It wants to store the answer that it holds.
    Holding { token: u64, answer: Answer },
    /// It has handed its answer out to be stored.
    Storing,
    /// It has ended so.
    Done { outcome: Outcome },
}

/// A session that reads one key.
#[derive(Drop)]
pub struct Reader {
    key: QKey,
    floor: u64,
    stage: ReadStage,
}

impl Reader {
    ghost use Rattle.session_client.specs.Follows.{ReadAwaits, ReadFollows, ReadIsReady};

    /// A reader that was told nothing so far.
    pub fn new(key: QKey, floor: u64) -> Reader
        ensures key { result.key ≡ key }
        ensures floor { result.floor ≡ floor }
        ensures ready { ReadIsReady result.stage }
        ensures follows { ReadFollows result [] }
    {
        Reader {
            key,
            floor,
            stage: ReadStage::Getting { agains: 0 },
        }
    }

    /// The next request.
    pub fn wants(&mut self) -> Wanted
        requires { ReadIsReady self.old.stage }
        ensures key { self.new.key ≡ self.old.key }
        ensures floor { self.new.floor ≡ self.old.floor }
        ensures wanted { (heard : List Reply) → ReadFollows self.old heard →
            result ≡ read_wants self.old.key self.old.floor heard }
        ensures follows { (heard : List Reply) → ReadFollows self.old heard →
            ReadFollows self.new heard }
        ensures awaits { (who : Sid) (reply : Reply) →
            ReadAwaits self.new.key self.new.floor self.new.stage reply ↔ Belongs who result reply }
    {
        let key = self.key;
        match mem::replace(&mut self.stage, ReadStage::Storing) {
            ReadStage::Getting { agains } => {
                self.stage = ReadStage::Getting { agains };
                Wanted::Get {
                    key,
                    floor: self.floor,
                }
            }
            ReadStage::Asking { lease } => {
                self.stage = ReadStage::Asking { lease };
                Wanted::Ask { key }
            }
            ReadStage::Holding { token, answer } => Wanted::Set {
                key,
                token,
                value: answer.value,
                stamp: answer.stamp,
            },
            ReadStage::Storing => Wanted::Nothing,
            ReadStage::Done { outcome } => {
                self.stage = ReadStage::Done { outcome };
                Wanted::Nothing
            }
        }
    }

    /// Whether the reply belongs to the request that is out.
    pub fn takes(&self, reply: &Reply) -> bool
        ensures { IsTrue result ↔
            ReadAwaits self.now.key self.now.floor self.now.stage reply.now }
    {
        match self.stage {
            ReadStage::Getting { .. } => answers_get(self.floor, reply),
            ReadStage::Asking { .. } => answers_ask(&self.key, reply),
            ReadStage::Storing => answers_set(reply),
            ReadStage::Done { .. } => matches!(reply, Reply::Nothing),
            ReadStage::Holding { .. } => false,
        }
    }

    /// Takes in the reply to the request that is out.
    pub fn hear(&mut self, reply: Reply)
        requires { ReadAwaits self.old.key self.old.floor self.old.stage reply }
        ensures key { self.new.key ≡ self.old.key }
        ensures floor { self.new.floor ≡ self.old.floor }
        ensures ready { ReadIsReady self.new.stage }
        ensures follows { (heard : List Reply) → ReadFollows self.old heard →
            ReadFollows self.new (reply ∷ heard) }
    {
        let stage = mem::replace(&mut self.stage, ReadStage::Storing);
        self.stage = next_stage(self.key, stage, reply);
    }

    /// Whether the reader is at its end.
    pub fn is_over(&self) -> bool
        ensures { result ≡ read_is_over self.now.stage }
    {
        matches!(self.stage, ReadStage::Done { .. })
    }

    /// How the reader ended, if it has.
    pub fn done(&self) -> Option<Outcome>
        ensures done { (heard : List Reply) → ReadIsReady self.now.stage →
            ReadFollows self.now heard →
            result ≡ (if is_nothing (read_wants self.now.key self.now.floor heard)
            then read_outcome heard else None) }
        ensures wanting { (heard : List Reply) → ReadIsReady self.now.stage →
            ReadFollows self.now heard → result ≡ None →
            is_nothing (read_wants self.now.key self.now.floor heard) ≡ false }
        ensures going { IfSome result (λ _. IsTrue (read_is_over self.now.stage)) }
        ensures ready { IfSome result (λ _. ReadIsReady self.now.stage) }
    {
        match self.stage {
            ReadStage::Done { outcome } => Some(outcome),
            _ => None,
        }
    }
}

ghost use Rattle.session_client.specs.Follows.{ReadAwaits, ReadIsReady, StageFollows, read_is_over};

/// Whether the reply is one to an ask for this key.
fn answers_ask(key: &QKey, reply: &Reply) -> bool
    ensures { (floor : ℕ) (lease : Option ℕ) →
        IsTrue result ↔ ReadAwaits key.now floor (ReadStage.Asking lease) reply.now }
{
    match reply {
        Reply::Answer { answer } => answer.key == *key,
        Reply::Fault { fault } => fault.is_of_store(),
        _ => false,
    }
}

/// Whether the reply is one to a set.
fn answers_set(reply: &Reply) -> bool
    ensures { (key : QKey) (floor : ℕ) →
        IsTrue result ↔ ReadAwaits key floor ReadStage.Storing reply.now }
{
    match reply {
        Reply::Set { .. } => true,
        Reply::Fault { fault } => *fault == Fault::Memory,
        _ => false,
    }
}

/// Where a reader of this key stands after a reply.
fn next_stage(key: QKey, stage: ReadStage, reply: Reply) -> ReadStage
    requires { (floor : ℕ) × ReadAwaits key floor stage reply }
    ensures ready { ReadIsReady result }
    ensures follows { (floor : ℕ) (heard : List Reply) → StageFollows key floor stage heard →
        StageFollows key floor result (reply ∷ heard) }
{
    match reply {
        Reply::Got { got } => match stage {
            ReadStage::Getting { agains } => stage_after_get(agains, got),
            other => other,
        },
        Reply::Answer { answer } => match stage {
            ReadStage::Asking { lease } => stage_after_ask(lease, answer),
            other => other,
        },
        Reply::Set { answer } => ReadStage::Done {
            outcome: match answer {
                SetAnswer::Stored { .. } => Outcome::Stored,
                SetAnswer::Void => Outcome::Void,
            },
        },
        Reply::Fault { fault } => ReadStage::Done {
            outcome: Outcome::Failed { fault },
        },
        other => {
            other.let_go();
            stage
        }
    }
}

/// Where a reader stands after the answer to a get.
fn stage_after_get(agains: u32, got: Got) -> ReadStage
    ensures ready { ReadIsReady result }
    ensures follows { (key : QKey) (floor : ℕ) (heard : List Reply) →
        StageFollows key floor (ReadStage.Getting agains) heard →
        StageFollows key floor result (Reply.Got got ∷ heard) }
{
    match got {
        Got::Hit { .. } => ReadStage::Done {
            outcome: Outcome::Hit,
        },
        Got::Lease { token } => ReadStage::Asking { lease: Some(token) },
        Got::Again { .. } if agains < PATIENCE - 1 => ReadStage::Getting { agains: agains + 1 },
        Got::Again { .. } | Got::Own => ReadStage::Asking { lease: None },
    }
}

/// Where a reader stands after the store's answer.
fn stage_after_ask(lease: Option<u64>, answer: Answer) -> ReadStage
    ensures ready { ReadIsReady result }
    ensures follows { (key : QKey) (floor : ℕ) (heard : List Reply) →
        StageFollows key floor (ReadStage.Asking lease) heard →
        StageFollows key floor result (Reply.Answer answer ∷ heard) }
{
    match lease {
        Some(token) => ReadStage::Holding { token, answer },
        None => ReadStage::Done {
            outcome: Outcome::Bypass,
        },
    }
}
