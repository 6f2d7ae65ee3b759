ghost use Rattle.std.specs.Prelude.{◌≡◌, ◌≤◌, ◌<◌, ◌↔◌, List, [], ◌∷◌, ◌^◌, Bool, true, false, length, IsTrue, IfOk, IfSome, OnErr, MatchResult, None, if◌then◌else◌};
ghost use Rattle.rows_model.specs.declared.changes.Change.{Change};
ghost use Rattle.rows_model.specs.declared.keys.QKey.{QKey};
ghost use Rattle.rows_model.specs.declared.keys.Sid.{Sid};
ghost use Rattle.session_client.specs.Belongs.{Belongs};
ghost use Rattle.session_client.specs.Desks.{IsProper};
ghost use Rattle.session_client.specs.Wants.{write_wants, writing_outcome, is_nothing};
ghost use Rattle.session_client.specs.declared.replies.Reply.{Reply};

use crate::hands::Hand;
use crate::looks::{answers_get, answers_staged, stage_after_get, stage_after_staged};
use crate::quarantines::{answers_quarantine, quarantine_as, stage_after_quarantine, stage_with};
use crate::raises::{answers_raise, answers_renewal, stage_after_raise, stage_after_renewal};
use crate::releases::{
    answers_commit, answers_release, release, stage_after_commit, stage_after_end,
    stage_after_release,
};
use crate::replies::{Outcome, Reply, Wanted};
use crate::stages::{Next, WriteStage};
use lease_table::Mode;
use rows_model::{Change, Memory, QKey, Sid, Txn};
use std::alloc::Global;
use std::marker::Model;
use std::mem;

/// A session that quarantines keys, commits a transaction and releases its grants. Contracts see its
/// mode, the keys, what it does once they are quarantined, what it was given, and where it stands.
pub struct Writer {
    alloc: Global,
    mode: Mode,
    keys: Vec<QKey>,
    next: Next,
    hand: Hand,
    stage: WriteStage,
}

impl Model for Writer {
    ghost use Rattle.std.specs.Prelude.{◌≡◌, length};
    ghost use Rattle.session_client.specs.Writers.{HasRoom, Suits, WriterView};

    ghost Value = { WriterView };

    ghost view = { λ w. record { mode = w.mode; keys = w.keys.items; next = w.next; hand = w.hand; stage = w.stage } };

    ghost invariant = { λ w. (w.hand.room ≡ length w.keys.items) × HasRoom w.next w.keys.items w.hand w.stage × Suits w.next w.mode };
}

impl Writer {
    ghost use Rattle.session_client.specs.Follows.{IsRefreshing, WriteAwaits, WriteFollows, WriteIsReady};
    ghost use Rattle.session_client.specs.Writers.{Suits, then_as, writing_as};

    /// A writer that was told nothing so far. It takes the room for its grants and the values beside
    /// them.
    pub fn new(
        alloc: Global,
        mode: Mode,
        keys: Vec<QKey>,
        next: Next,
        txn: Txn,
    ) -> Result<Writer, Memory>
        requires few { length keys.items < 2 ^ 32 }
        requires suits { Suits next mode }
        ensures mode { IfOk result (λ writer. writer.mode ≡ mode) }
        ensures keys { IfOk result (λ writer. writer.keys ≡ keys.items) }
        ensures next { IfOk result (λ writer. writer.next ≡ next) }
        ensures ready { IfOk result (λ writer. WriteIsReady writer.stage) }
        ensures follows { IfOk result (λ writer. WriteFollows txn writer false []) }
    {
        let room = keys.len() as u32;
        Ok(Writer {
            alloc,
            mode,
            hand: Hand::new(alloc, room)?,
            stage: stage_with(keys.as_slice(), next, 0, txn),
            keys,
            next,
        })
    }

    /// The next request. It hands over what it needs of the grants, and the transaction.
    pub fn wants(&mut self) -> Wanted
        requires { WriteIsReady self.old.stage }
        ensures mode { self.new.mode ≡ self.old.mode }
        ensures keys { self.new.keys ≡ self.old.keys }
        ensures next { self.new.next ≡ self.old.next }
        ensures wanted { (changes : List Change) (short : Bool) (heard : List Reply) →
            WriteFollows changes self.old short heard →
            result ≡ write_wants (writing_as self.old changes) short heard }
        ensures follows { (changes : List Change) (short : Bool) (heard : List Reply) →
            WriteFollows changes self.old short heard → WriteFollows changes self.new short heard }
        ensures awaits { (who : Sid) (changes : List Change) (short : Bool) (heard : List Reply)
            (reply : Reply) → WriteFollows changes self.old short heard →
            WriteAwaits who changes self.new reply ↔ Belongs who result reply }
        ensures proper { IsProper result }
    {
        match mem::replace(&mut self.stage, WriteStage::Committing) {
            WriteStage::Quarantining { count, txn } => {
                let request = quarantine_as(self.mode, self.keys[count], &txn);
                self.stage = WriteStage::Quarantining { count, txn };
                request
            }
            WriteStage::Getting { key, txn } => {
                self.stage = WriteStage::Getting { key, txn };
                Wanted::Get { key, floor: 0 }
            }
            WriteStage::Staging { key, txn } => {
                self.stage = WriteStage::Asking;
                Wanted::Staged { key, txn }
            }
            WriteStage::Raising { place, txn } => {
                if place < self.hand.len() {
                    self.stage = WriteStage::Raised { place, txn };
                    Wanted::Raise {
                        grant: self.hand.take_at(place),
                    }
                } else {
                    commit(self.alloc, &mut self.hand, txn)
                }
            }
            WriteStage::Renewing { place, txn } => {
                if place < self.hand.len() {
                    self.stage = WriteStage::Renewed { place, txn };
                    Wanted::Renew {
                        grant: self.hand.take_at(place),
                    }
                } else {
                    commit(self.alloc, &mut self.hand, txn)
                }
            }
            WriteStage::Ready { txn } => commit(self.alloc, &mut self.hand, txn),
            WriteStage::Ending { outcome } => {
                self.stage = WriteStage::Ending { outcome };
                Wanted::End
            }
            WriteStage::Releasing { outcome, how } => {
                let (grant, value) = self.hand.take();
                let (request, back) = release(how, grant, value);
                self.stage = WriteStage::Returning { outcome, how, back };
                request
            }
            WriteStage::Dropping { outcome, how } => {
                let back = None;
                self.stage = WriteStage::Returning { outcome, how, back };
                Wanted::Dar {
                    grant: self.hand.take_alone(),
                }
            }
            WriteStage::Done { outcome } => {
                self.stage = WriteStage::Done { outcome };
                Wanted::Nothing
            }
            WriteStage::Asking
            | WriteStage::Raised { .. }
            | WriteStage::Renewed { .. }
            | WriteStage::Committing
            | WriteStage::Returning { .. } => Wanted::Nothing,
        }
    }

    /// Whether the reply belongs to the request that is out, for this session and these changes.
    pub fn takes(&self, who: Sid, changes: &[Change], reply: &Reply) -> bool
        ensures { IsTrue result ↔ WriteAwaits who changes.now self.now reply.now }
    {
        match &self.stage {
            WriteStage::Quarantining { count, txn: _ } => {
                answers_quarantine(who, self.mode, &self.keys[*count], reply)
            }
            WriteStage::Getting { .. } => answers_get(0, reply),
            WriteStage::Asking => answers_staged(changes, reply),
            WriteStage::Raised { place, txn: _ } => answers_raise(self.hand.note(*place), reply),
            WriteStage::Renewed { place, txn: _ } => {
                answers_renewal(self.hand.note(*place), reply)
            }
            WriteStage::Committing => answers_commit(&self.hand, changes, reply),
            WriteStage::Ending { .. } => matches!(reply, Reply::End { .. }),
            WriteStage::Returning { back, .. } => answers_release(back, reply),
            WriteStage::Done { .. } => matches!(reply, Reply::Nothing),
            WriteStage::Staging { .. }
            | WriteStage::Raising { .. }
            | WriteStage::Renewing { .. }
            | WriteStage::Ready { .. }
            | WriteStage::Releasing { .. }
            | WriteStage::Dropping { .. } => false,
        }
    }

    /// Takes in the reply to the request that is out. For want of memory for the new values, which a
    /// commit alone brings about, the reply is taken all the same.
    pub fn hear(&mut self, reply: Reply) -> Result<(), Memory>
        requires { (who : Sid) × (changes : List Change) × WriteAwaits who changes self.old reply }
        ensures mode { self.new.mode ≡ self.old.mode }
        ensures keys { self.new.keys ≡ self.old.keys }
        ensures next { self.new.next ≡ self.old.next }
        ensures ready { WriteIsReady self.new.stage }
        ensures follows { (who : Sid) (changes : List Change) (short : Bool) (heard : List Reply) →
            WriteAwaits who changes self.old reply →
            WriteFollows changes self.old short heard →
            MatchResult result (λ _. WriteFollows changes self.new short (reply ∷ heard))
            (λ _. WriteFollows changes self.new true (reply ∷ heard)) }
        ensures memory { OnErr result (IsRefreshing reply) }
    {
        match mem::replace(&mut self.stage, WriteStage::Committing) {
            WriteStage::Committing => {
                let (stage, refreshed) = stage_after_commit(self.alloc, &mut self.hand, reply);
                self.stage = stage;
                refreshed
            }
            stage => {
                self.stage = next_stage(&self.keys, self.next, &mut self.hand, stage, reply);
                Ok(())
            }
        }
    }

    /// Whether the writer is at its end.
    pub fn is_over(&self) -> bool
        ensures { result ≡ write_is_over self.now.stage }
    {
        matches!(self.stage, WriteStage::Done { .. })
    }

    /// How the writer ended, if it has.
    pub fn done(&self) -> Option<Outcome>
        ensures done { (changes : List Change) (short : Bool) (heard : List Reply) →
            WriteIsReady self.now.stage → WriteFollows changes self.now short heard →
            result ≡ (if is_nothing (write_wants (writing_as self.now changes) short heard)
            then writing_outcome (writing_as self.now changes) short heard else None) }
        ensures wanting { (changes : List Change) (short : Bool) (heard : List Reply) →
            WriteIsReady self.now.stage → WriteFollows changes self.now short heard →
            result ≡ None →
            is_nothing (write_wants (writing_as self.now changes) short heard) ≡ false }
        ensures going { IfSome result (λ _. IsTrue (write_is_over self.now.stage)) }
        ensures ready { IfSome result (λ _. WriteIsReady self.now.stage) }
    {
        match self.stage {
            WriteStage::Done { outcome } => Some(outcome),
            _ => None,
        }
    }

    /// Puts the writer away. Quarantines that it has stand until others end them.
    pub fn let_go(self) {
        let Writer {
            alloc: _,
            mode: _,
            keys: _,
            next: _,
            hand,
            stage: _,
        } = self;
        hand.let_go();
    }
}

ghost use Rattle.session_client.specs.declared.replies.Wanted.TheVariants as Wanted;

/// The request to commit the transaction with the grants in hand, which it hands over.
fn commit(alloc: Global, hand: &mut Hand, txn: Txn) -> Wanted
    ensures wanted { result ≡ Wanted.Commit txn hand.old.grants }
    ensures lent { hand.new ≡ record {
      room = hand.old.room;
      given = hand.old.given;
      grants = record { items = []; room = 0 };
      values = hand.old.values;
    } }
{
    Wanted::Commit {
        txn,
        grants: hand.lend(alloc),
    }
}

ghost use Rattle.std.specs.Prelude.{◌≢◌};
ghost use Rattle.session_client.specs.declared.stages.WriteStage.TheVariants as WriteStage;
ghost use Rattle.session_client.specs.Follows.{PartsFollow, StageAwaits, WriteIsReady, write_is_over};
ghost use Rattle.session_client.specs.Wants.{Writing, granted};
ghost use Rattle.session_client.specs.Writers.{HasRoom, Suits, then_as};

/// Where a writer of these keys that stands here stands after the reply to its request, but for the
/// answer to a commit.
fn next_stage(
    keys: &[QKey],
    next: Next,
    hand: &mut Hand,
    stage: WriteStage,
    reply: Reply,
) -> WriteStage
    requires as_long { hand.old.room ≡ length keys.now }
    requires room { HasRoom next keys.now hand.old stage }
    requires apart { stage ≢ WriteStage.Committing }
    requires awaits { (who : Sid) × (writing : Writing) × (writing.keys ≡ keys.now)
        × Suits next writing.mode × StageAwaits who writing hand.old.given stage reply }
    ensures ready { WriteIsReady result }
    ensures as_long { hand.new.room ≡ hand.old.room }
    ensures room { HasRoom next keys.now hand.new result }
    ensures given { (writing : Writing) (short : Bool) (heard : List Reply) →
        hand.old.given ≡ granted heard → PartsFollow writing hand.old stage short heard →
        hand.new.given ≡ granted (reply ∷ heard) }
    ensures follows { (who : Sid) (writing : Writing) (short : Bool) (heard : List Reply) →
        writing.keys ≡ keys.now → writing.next ≡ then_as next →
        StageAwaits who writing hand.old.given stage reply → hand.old.given ≡ granted heard →
        PartsFollow writing hand.old stage short heard →
        PartsFollow writing hand.new result short (reply ∷ heard) }
{
    match stage {
        WriteStage::Quarantining { count, txn } => {
            stage_after_quarantine(keys, next, hand, count, txn, reply)
        }
        WriteStage::Getting { key, txn } => stage_after_get(key, txn, reply),
        WriteStage::Asking => stage_after_staged(reply),
        WriteStage::Raised { place, txn } => stage_after_raise(hand, place, txn, reply),
        WriteStage::Renewed { place, txn } => stage_after_renewal(hand, place, txn, reply),
        WriteStage::Ending { outcome } => stage_after_end(hand, outcome, reply),
        WriteStage::Returning {
            outcome,
            how,
            back: _,
        } => stage_after_release(hand, outcome, how, reply),
        other @ (WriteStage::Staging { .. }
        | WriteStage::Raising { .. }
        | WriteStage::Renewing { .. }
        | WriteStage::Ready { .. }
        | WriteStage::Committing
        | WriteStage::Releasing { .. }
        | WriteStage::Dropping { .. }) => {
            reply.let_go();
            other
        }
        WriteStage::Done { outcome } => {
            reply.let_go();
            WriteStage::Done { outcome }
        }
    }
}
