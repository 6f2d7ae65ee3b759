ghost use Rattle.std.specs.Prelude.{◌≡◌, List, ◌∷◌, ◌↔◌, Bool, IsTrue};
ghost use Rattle.rows_model.specs.declared.changes.Change.{Change};
ghost use Rattle.session_client.specs.Belongs.{IsGotOf};
ghost use Rattle.session_client.specs.Follows.{GetAwaits, PartsFollow, StagedAwaits, WriteIsReady};
ghost use Rattle.session_client.specs.Wants.{Writing, granted};
ghost use Rattle.session_client.specs.Writers.{HandView, HasRoom, HoldsAll};
ghost use Rattle.rows_model.specs.declared.keys.QKey.{QKey};
ghost use Rattle.session_client.specs.declared.replies.Reply.{Reply};
ghost use Rattle.session_client.specs.declared.replies.Reply.TheVariants as Reply;
ghost use Rattle.session_client.specs.declared.stages.Next.{Next};
ghost use Rattle.session_client.specs.declared.stages.WriteStage.TheVariants as WriteStage;

use crate::changes::are_same;
use crate::replies::Reply;
use crate::stages::WriteStage;
use key_shard::Got;
use rows_model::{Change, QKey, Txn};

/// Whether this is an answer to a get with this floor.
fn is_got_of(floor: u64, answer: &Got) -> bool
    ensures { IsTrue result ↔ IsGotOf floor answer.now }
{
    match answer {
        Got::Hit { value: _, stamp } => floor <= *stamp,
        Got::Lease { .. } | Got::Again { .. } | Got::Own => true,
    }
}

/// Whether the reply is one to a get with this floor.
pub fn answers_get(floor: u64, reply: &Reply) -> bool
    ensures { IsTrue result ↔ GetAwaits floor reply.now }
{
    match reply {
        Reply::Got { got } => is_got_of(floor, got),
        Reply::Fault { fault } => fault.is_of_shard(),
        _ => false,
    }
}

/// Whether the reply is one to the question what the store would answer after these changes.
pub fn answers_staged(changes: &[Change], reply: &Reply) -> bool
    ensures { IsTrue result ↔ StagedAwaits changes.now reply.now }
{
    match reply {
        Reply::Staged { value: _, txn } | Reply::NotStaged { fault: _, txn } => {
            are_same(txn.changes(), changes)
        }
        _ => false,
    }
}

/// Where a writer stands that got this key, after the answer. A lease that it is given is left to
/// expire.
fn stage_after_got(key: QKey, txn: Txn, got: Got) -> WriteStage
    ensures ready { WriteIsReady result }
    ensures room { (next : Next) (keys : List QKey) (hand : HandView) → HoldsAll hand →
        HasRoom next keys hand result }
    ensures follows { (writing : Writing) (hand : HandView) (short : Bool) (heard : List Reply) →
        PartsFollow writing hand (WriteStage.Getting key txn) short heard →
        PartsFollow writing hand result short (Reply.Got got ∷ heard) }
{
    match got {
        Got::Own => WriteStage::Staging { key, txn },
        Got::Hit { .. } | Got::Lease { .. } | Got::Again { .. } => WriteStage::Ready { txn },
    }
}

/// Where a writer stands that got this key, after the reply.
pub fn stage_after_get(key: QKey, txn: Txn, reply: Reply) -> WriteStage
    requires { GetAwaits 0 reply }
    ensures ready { WriteIsReady result }
    ensures room { (next : Next) (keys : List QKey) (hand : HandView) → HoldsAll hand →
        HasRoom next keys hand result }
    ensures given { (heard : List Reply) → granted (reply ∷ heard) ≡ granted heard }
    ensures follows { (writing : Writing) (hand : HandView) (short : Bool) (heard : List Reply) →
        PartsFollow writing hand (WriteStage.Getting key txn) short heard →
        PartsFollow writing hand result short (reply ∷ heard) }
{
    match reply {
        Reply::Got { got } => stage_after_got(key, txn, got),
        Reply::Fault { fault: _ } => WriteStage::Ready { txn },
        other => {
            other.let_go();
            WriteStage::Getting { key, txn }
        }
    }
}

/// Where a writer stands after the reply to its question what the store would answer.
pub fn stage_after_staged(reply: Reply) -> WriteStage
    requires { (changes : List Change) × StagedAwaits changes reply }
    ensures ready { WriteIsReady result }
    ensures room { (next : Next) (keys : List QKey) (hand : HandView) → HoldsAll hand →
        HasRoom next keys hand result }
    ensures given { (heard : List Reply) → granted (reply ∷ heard) ≡ granted heard }
    ensures follows { (writing : Writing) (hand : HandView) (short : Bool) (heard : List Reply) →
        StagedAwaits writing.txn reply →
        PartsFollow writing hand WriteStage.Asking short heard →
        PartsFollow writing hand result short (reply ∷ heard) }
{
    match reply {
        Reply::Staged { value: _, txn } => WriteStage::Ready { txn },
        Reply::NotStaged { fault: _, txn } => WriteStage::Ready { txn },
        other => {
            other.let_go();
            WriteStage::Asking
        }
    }
}
