ghost use Rattle.std.specs.Prelude.{◌≡◌, ◌<◌, ◌≤◌, ◌↔◌, List, ◌∷◌, Bool, Some, length, count_by, IsTrue};
ghost use Rattle.session_client.specs.Belongs.{Belongs, IsQuarantineOf};
ghost use Rattle.session_client.specs.Desks.{IsProper};
ghost use Rattle.session_client.specs.Follows.{IsOpen, PartsFollow, QuarantineAwaits, WriteIsReady};
ghost use Rattle.session_client.specs.Plans.{mode_on};
ghost use Rattle.session_client.specs.Wants.{Writing, granted, is_had, turned, quarantine_as, quarantine_next, write_wants};
ghost use Rattle.session_client.specs.Writers.{AreFor, HasRoom, HandView, HoldsAll, Suits, then_as};
ghost use Rattle.session_client.specs.declared.replies.Reply.{Reply};
ghost use Rattle.session_client.specs.declared.replies.Reply.TheVariants as Reply;
ghost use Rattle.session_client.specs.declared.stages.WriteStage.TheVariants as WriteStage;

use crate::hands::Hand;
use crate::replies::{Outcome, Reply, Wanted};
use crate::stages::{Next, WriteStage};
use key_shard::QAnswer;
use lease_table::Mode;
use rows_model::{QKey, Sid, Txn, delta_of};

/// The mode in which a writer of this mode quarantines a key.
fn mode_on(mode: Mode, key: &QKey) -> Mode
    ensures { result ≡ mode_on mode key.now }
{
    match mode {
        Mode::Delta if !key.is_count() => Mode::Invalidate,
        Mode::Invalidate | Mode::Refresh | Mode::Delta => mode,
    }
}

/// The quarantine of a key by a writer of this mode and transaction.
pub fn quarantine_as(mode: Mode, key: QKey, txn: &Txn) -> Wanted
    ensures wanted { result ≡ quarantine_as (mode_on mode key) key txn.now }
    ensures awaits { (who : Sid) (reply : Reply) →
        QuarantineAwaits who mode (Some key) reply ↔ Belongs who result reply }
    ensures proper { IsProper result }
{
    match mode_on(mode, &key) {
        Mode::Invalidate => Wanted::QaReg { key },
        Mode::Refresh => Wanted::QaRead { key },
        Mode::Delta => Wanted::Delta {
            key,
            by: delta_of(&key, txn),
        },
    }
}

/// Whether the reply is one to the quarantine of this key by this session in this mode.
pub fn answers_quarantine(who: Sid, mode: Mode, key: &QKey, reply: &Reply) -> bool
    ensures { IsTrue result ↔ QuarantineAwaits who mode (Some key.now) reply.now }
{
    match reply {
        Reply::Quar {
            answer: QAnswer::Granted { grant, old },
        } => {
            let mode = mode_on(mode, key);
            grant.key() == *key
                && grant.sid() == who
                && grant.mode() == mode
                && (mode == Mode::Refresh || old.is_none())
        }
        Reply::Quar { .. } => true,
        Reply::Fault { fault } => fault.is_of_shard(),
        _ => false,
    }
}

/// Where a writer of these keys stands that has so many of them quarantined.
pub fn stage_with(keys: &[QKey], next: Next, count: usize, txn: Txn) -> WriteStage
    ensures ready { WriteIsReady result }
    ensures room { (hand : HandView) → HoldsAll hand → length hand.given ≤ count →
        hand.grants.room ≡ length keys.now → AreFor next hand.grants.items →
        HasRoom next keys.now hand result }
    ensures follows { (writing : Writing) (hand : HandView) (short : Bool) (heard : List Reply) →
        writing.keys ≡ keys.now → writing.next ≡ then_as next →
        write_wants writing short heard ≡ quarantine_next writing heard →
        count_by is_had heard ≡ count → turned heard ≡ 0 → txn ≡ writing.txn →
        IsOpen writing hand short heard →
        PartsFollow writing hand result short heard }
{
    if count < keys.len() {
        return WriteStage::Quarantining { count, txn };
    }
    match next {
        Next::Commit => WriteStage::Ready { txn },
        Next::Look { key } => WriteStage::Getting { key, txn },
        Next::Quit => WriteStage::Ending {
            outcome: Outcome::Quit,
        },
        Next::Raise => WriteStage::Raising { place: 0, txn },
        Next::Renew => WriteStage::Renewing { place: 0, txn },
    }
}

/// Where a writer stands that has so many of its keys quarantined, after the answer to the next
/// quarantine. A new grant is put last.
fn stage_after_answer(
    keys: &[QKey],
    next: Next,
    hand: &mut Hand,
    count: usize,
    txn: Txn,
    answer: QAnswer,
) -> WriteStage
    requires room { HasRoom next keys.now hand.old (WriteStage.Quarantining count txn) }
    requires as_long { hand.old.room ≡ length keys.now }
    requires quarantine { (who : Sid) × (mode : Mode) × (key : QKey) × Suits next mode
        × IsQuarantineOf who key (mode_on mode key) answer }
    ensures ready { WriteIsReady result }
    ensures room { HasRoom next keys.now hand.new result }
    ensures as_long { hand.new.room ≡ hand.old.room }
    ensures given { (heard : List Reply) → hand.old.given ≡ granted heard →
        hand.new.given ≡ granted (Reply.Quar answer ∷ heard) }
    ensures follows { (writing : Writing) (short : Bool) (heard : List Reply) →
        writing.keys ≡ keys.now → writing.next ≡ then_as next →
        PartsFollow writing hand.old (WriteStage.Quarantining count txn) short heard →
        PartsFollow writing hand.new result short (Reply.Quar answer ∷ heard) }
{
    match answer {
        QAnswer::Granted { grant, old } => {
            hand.add(grant, old);
            stage_with(keys, next, count + 1, txn)
        }
        QAnswer::Held => stage_with(keys, next, count + 1, txn),
        QAnswer::Refused { holder, mode } => WriteStage::Ending {
            outcome: Outcome::Refused { holder, mode },
        },
    }
}

/// Where a writer stands that has so many of its keys quarantined, after the reply to the next
/// quarantine.
pub fn stage_after_quarantine(
    keys: &[QKey],
    next: Next,
    hand: &mut Hand,
    count: usize,
    txn: Txn,
    reply: Reply,
) -> WriteStage
    requires room { HasRoom next keys.now hand.old (WriteStage.Quarantining count txn) }
    requires as_long { hand.old.room ≡ length keys.now }
    requires quarantine { (who : Sid) × (mode : Mode) × (key : QKey) × Suits next mode
        × QuarantineAwaits who mode (Some key) reply }
    ensures ready { WriteIsReady result }
    ensures room { HasRoom next keys.now hand.new result }
    ensures as_long { hand.new.room ≡ hand.old.room }
    ensures given { (heard : List Reply) → hand.old.given ≡ granted heard →
        hand.new.given ≡ granted (reply ∷ heard) }
    ensures follows { (writing : Writing) (short : Bool) (heard : List Reply) →
        writing.keys ≡ keys.now → writing.next ≡ then_as next →
        PartsFollow writing hand.old (WriteStage.Quarantining count txn) short heard →
        PartsFollow writing hand.new result short (reply ∷ heard) }
{
    match reply {
        Reply::Quar { answer } => stage_after_answer(keys, next, hand, count, txn, answer),
        Reply::Fault { fault } => WriteStage::Ending {
            outcome: Outcome::Failed { fault },
        },
        other => {
            other.let_go();
            WriteStage::Quarantining { count, txn }
        }
    }
}
