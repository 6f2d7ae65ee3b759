ghost use Rattle.std.specs.Prelude.{◌≡◌, ◌↔◌, List, ◌∷◌, Bool, IsTrue, Some, drop, slice_get};
ghost use Rattle.rows_model.specs.declared.keys.QKey.{QKey};
ghost use Rattle.key_shard.specs.Permit.{Permit};
ghost use Rattle.session_client.specs.Belongs.{IsRaiseOf};
ghost use Rattle.session_client.specs.Follows.{PartsFollow, RaiseAwaits, RenewAwaits, WriteIsReady};
ghost use Rattle.session_client.specs.Wants.{Writing, granted};
ghost use Rattle.session_client.specs.Writers.{HasRoom, LacksOne, AreToInvalidate};
ghost use Rattle.session_client.specs.declared.replies.Reply.{Reply};
ghost use Rattle.session_client.specs.declared.replies.Reply.TheVariants as Reply;
ghost use Rattle.session_client.specs.declared.stages.Next.{Next};
ghost use Rattle.session_client.specs.declared.stages.WriteStage.TheVariants as WriteStage;

use crate::hands::Hand;
use crate::notes::Note;
use crate::replies::Reply;
use crate::stages::WriteStage;
use key_shard::Raising;
use rows_model::Txn;

/// Whether this is an answer to a raise of the grant of which there is a note.
fn is_raise_of(note: &Note, answer: &Raising) -> bool
    ensures { IsTrue result ↔ IsRaiseOf note.now answer.now }
{
    match answer {
        Raising::Raised { grant, old: _ } => note.is_raised_to(grant),
        Raising::Shared { grant, holder: _ } => note.is_of(grant),
        Raising::Gone => true,
    }
}

/// Whether the reply is one to a raise of the grant of which there is a note.
pub fn answers_raise(note: &Note, reply: &Reply) -> bool
    ensures { IsTrue result ↔ RaiseAwaits (Some note.now) reply.now }
{
    match reply {
        Reply::Raise { answer } => is_raise_of(note, answer),
        Reply::RaiseBack { grant } => note.is_of(grant),
        _ => false,
    }
}

/// Whether the reply is one to a renewal of the grant of which there is a note.
pub fn answers_renewal(note: &Note, reply: &Reply) -> bool
    ensures { IsTrue result ↔ RenewAwaits (Some note.now) reply.now }
{
    match reply {
        Reply::Renew { grant, answer: _ } => note.is_of(grant),
        _ => false,
    }
}

/// Where a writer stands after the answer to the raise of the grant at this place. A grant that is spent
/// leaves its hands.
fn stage_after_raising(hand: &mut Hand, place: usize, txn: Txn, answer: Raising) -> WriteStage
    requires room { LacksOne hand.old place }
    requires rest { AreToInvalidate (drop place hand.old.grants.items) }
    requires awaits { (lent : Permit) × (slice_get hand.old.given place ≡ Some lent)
        × IsRaiseOf lent answer }
    ensures ready { WriteIsReady result }
    ensures room { (next : Next) (keys : List QKey) → HasRoom next keys hand.new result }
    ensures as_long { hand.new.room ≡ hand.old.room }
    ensures given { (writing : Writing) (short : Bool) (heard : List Reply) →
        hand.old.given ≡ granted heard →
        PartsFollow writing hand.old (WriteStage.Raised place txn) short heard →
        hand.new.given ≡ granted (Reply.Raise answer ∷ heard) }
    ensures follows { (writing : Writing) (short : Bool) (heard : List Reply) →
        hand.old.given ≡ granted heard →
        PartsFollow writing hand.old (WriteStage.Raised place txn) short heard →
        PartsFollow writing hand.new result short (Reply.Raise answer ∷ heard) }
{
    match answer {
        Raising::Raised { grant, old } => {
            let behind = hand.behind(place);
            hand.put_raised(place, grant, old);
            WriteStage::Raising { place: behind, txn }
        }
        Raising::Shared { grant, holder: _ } => {
            let behind = hand.behind(place);
            hand.put_at(place, grant);
            WriteStage::Raising { place: behind, txn }
        }
        Raising::Gone => {
            hand.forget(place);
            WriteStage::Raising { place, txn }
        }
    }
}

/// Where a writer stands after the reply to the raise of the grant at this place.
pub fn stage_after_raise(hand: &mut Hand, place: usize, txn: Txn, reply: Reply) -> WriteStage
    requires room { LacksOne hand.old place }
    requires rest { AreToInvalidate (drop place hand.old.grants.items) }
    requires awaits { (lent : Permit) × (slice_get hand.old.given place ≡ Some lent)
        × RaiseAwaits (Some lent) reply }
    ensures ready { WriteIsReady result }
    ensures room { (next : Next) (keys : List QKey) → HasRoom next keys hand.new result }
    ensures as_long { hand.new.room ≡ hand.old.room }
    ensures given { (writing : Writing) (short : Bool) (heard : List Reply) →
        hand.old.given ≡ granted heard →
        PartsFollow writing hand.old (WriteStage.Raised place txn) short heard →
        hand.new.given ≡ granted (reply ∷ heard) }
    ensures follows { (writing : Writing) (short : Bool) (heard : List Reply) →
        hand.old.given ≡ granted heard →
        PartsFollow writing hand.old (WriteStage.Raised place txn) short heard →
        PartsFollow writing hand.new result short (reply ∷ heard) }
{
    match reply {
        Reply::Raise { answer } => stage_after_raising(hand, place, txn, answer),
        Reply::RaiseBack { grant } => {
            let behind = hand.behind(place);
            hand.put_at(place, grant);
            WriteStage::Raising { place: behind, txn }
        }
        other => {
            other.let_go();
            WriteStage::Raised { place, txn }
        }
    }
}

/// Where a writer stands after the reply to the renewal of the grant at this place.
pub fn stage_after_renewal(hand: &mut Hand, place: usize, txn: Txn, reply: Reply) -> WriteStage
    requires room { LacksOne hand.old place }
    requires awaits { (lent : Permit) × (slice_get hand.old.given place ≡ Some lent)
        × RenewAwaits (Some lent) reply }
    ensures ready { WriteIsReady result }
    ensures room { (next : Next) (keys : List QKey) → HasRoom next keys hand.new result }
    ensures as_long { hand.new.room ≡ hand.old.room }
    ensures given { (heard : List Reply) → granted (reply ∷ heard) ≡ granted heard }
    ensures kept { hand.new.given ≡ hand.old.given }
    ensures follows { (writing : Writing) (short : Bool) (heard : List Reply) →
        hand.old.given ≡ granted heard →
        PartsFollow writing hand.old (WriteStage.Renewed place txn) short heard →
        PartsFollow writing hand.new result short (reply ∷ heard) }
{
    match reply {
        Reply::Renew { grant, answer: _ } => {
            let behind = hand.behind(place);
            hand.put_at(place, grant);
            WriteStage::Renewing { place: behind, txn }
        }
        other => {
            other.let_go();
            WriteStage::Renewed { place, txn }
        }
    }
}
