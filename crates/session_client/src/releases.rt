ghost use Rattle.std.specs.Prelude.{◌≡◌, ◌↔◌, ◌<◌, ◌≤◌, List, [], ◌∷◌, Bool, true, false, IsTrue, Option, Some, IfSome, length, slice_get, OnErr, MatchResult};
ghost use Rattle.rows_model.specs.declared.changes.Change.{Change};
ghost use Rattle.rows_model.specs.declared.keys.QKey.{QKey};
ghost use Rattle.rows_model.specs.declared.keys.Sid.{Sid};
ghost use Rattle.key_shard.specs.Permit.{Permit};
ghost use Rattle.session_client.specs.Belongs.{Belongs};
ghost use Rattle.session_client.specs.Desks.{IsProper};
ghost use Rattle.session_client.specs.Grants.{GrantsView};
ghost use Rattle.session_client.specs.Follows.{CommitAwaits, IsEnding, IsRefreshing, PartsFollow, ReleaseAwaits, StageAwaits, WriteIsReady};
ghost use Rattle.session_client.specs.Wants.{Given, Writing, given, granted, released, release_of, finish, write_wants};
ghost use Rattle.session_client.specs.Writers.{HasRoom, IsNewBeside, IsPaired, release_as};
ghost use Rattle.session_client.specs.declared.replies.Reply.{Reply};
ghost use Rattle.session_client.specs.declared.stages.Next.{Next};
ghost use Rattle.session_client.specs.declared.stages.Release.TheVariants as Release;
ghost use Rattle.session_client.specs.declared.stages.WriteStage.TheVariants as WriteStage;

use crate::changes::are_same;
use crate::hands::Hand;
use crate::notes::Note;
use crate::replies::{Fault, Outcome, Reply, Wanted};
use crate::stages::{Release, WriteStage};
use key_shard::Grant;
use lease_table::Mode;
use rows_model::{Change, Memory, Value};
use std::alloc::Global;

/// Whether the reply is one to a commit of these changes with the grants that were given.
pub fn answers_commit(hand: &Hand, changes: &[Change], reply: &Reply) -> bool
    ensures { let lent : GrantsView = record { items = hand.now.given; room = hand.now.room } in
        IsTrue result ↔ CommitAwaits changes.now lent reply.now }
{
    match reply {
        Reply::Committed {
            number: _,
            txn,
            grants,
        }
        | Reply::NotCommitted {
            fault: _,
            txn,
            grants,
        } => are_same(txn.changes(), changes) && hand.are_back(grants),
        _ => false,
    }
}

/// Whether the reply is one to the release of a grant, which may come back where there is a note of it.
pub fn answers_release(back: &Option<Note>, reply: &Reply) -> bool
    ensures { IsTrue result ↔ ReleaseAwaits back.now reply.now }
{
    match reply {
        Reply::Rel { .. } => true,
        Reply::SarBack { grant } => match back {
            Some(note) => note.is_of(grant),
            None => false,
        },
        _ => false,
    }
}

/// The release of a grant after the commit of this number, with the value beside it, and a note of the
/// grant where it may come back.
fn finish(number: u64, grant: Grant, value: Option<Value>) -> (Wanted, Option<Note>)
    ensures wanted { (one : Given) (txn : List Change) → one.permit ≡ grant →
        IsNewBeside (Release.Finish number) txn one value →
        result.0 ≡ finish grant.mode txn number one }
    ensures awaits { (who : Sid) (reply : Reply) →
        ReleaseAwaits result.1 reply ↔ Belongs who result.0 reply }
    ensures back { IfSome result.1 (λ note. note ≡ grant) }
    ensures proper { IsProper result.0 }
{
    match grant.mode() {
        Mode::Invalidate => (Wanted::Dar { grant }, None),
        Mode::Refresh => {
            let back = value.as_ref().map(|_| Note::of(&grant));
            let request = Wanted::Sar {
                grant,
                value,
                stamp: number,
            };
            (request, back)
        }
        Mode::Delta => (
            Wanted::Apply {
                grant,
                stamp: number,
            },
            None,
        ),
    }
}

/// The release of a grant in this way, with the value beside it, and a note of the grant where it may
/// come back.
pub fn release(how: Release, grant: Grant, value: Option<Value>) -> (Wanted, Option<Note>)
    ensures wanted { (one : Given) (txn : List Change) → one.permit ≡ grant →
        IsNewBeside how txn one value → result.0 ≡ release_of txn (release_as how) (Some one) }
    ensures awaits { (who : Sid) (reply : Reply) →
        ReleaseAwaits result.1 reply ↔ Belongs who result.0 reply }
    ensures back { IfSome result.1 (λ note. note ≡ grant) }
    ensures proper { IsProper result.0 }
{
    match how {
        Release::Keep => (Wanted::Abort { grant }, None),
        Release::Drop => (Wanted::Dar { grant }, None),
        Release::Finish { number } => finish(number, grant, value),
    }
}

/// Where a writer stands that releases what it has in hand in this way.
#[tactic(auto, using(crate::proofs::HandLemmas::none_given))]
fn releasing(hand: &Hand, outcome: Outcome, how: Release) -> WriteStage
    requires { IsPaired hand.now }
    ensures ready { WriteIsReady result }
    ensures room { (next : Next) (keys : List QKey) → HasRoom next keys hand.now result }
    ensures follows { (writing : Writing) (short : Bool) (heard : List Reply) →
        write_wants writing short heard
        ≡ release_of writing.txn (release_as how) (slice_get (given heard) (released heard)) →
        IsEnding writing hand.now outcome how (released heard) (released heard) short heard →
        PartsFollow writing hand.now result short heard }
{
    if hand.grants().is_empty() {
        WriteStage::Done { outcome }
    } else {
        WriteStage::Releasing { outcome, how }
    }
}

/// Where a writer stands after the answer to its commit, which brings its grants back, and whether
/// there was memory for the new values.
pub fn stage_after_commit(
    alloc: Global,
    hand: &mut Hand,
    reply: Reply,
) -> (WriteStage, Result<(), Memory>)
    requires values { length hand.old.values ≡ length hand.old.given }
    requires room { length hand.old.given ≤ hand.old.room }
    requires awaits { (changes : List Change)
        × CommitAwaits changes (record { items = hand.old.given; room = hand.old.room }) reply }
    ensures ready { WriteIsReady result.0 }
    ensures room { (next : Next) (keys : List QKey) → HasRoom next keys hand.new result.0 }
    ensures as_long { hand.new.room ≡ hand.old.room }
    ensures given { hand.new.given ≡ hand.old.given }
    ensures granted { (heard : List Reply) → granted (reply ∷ heard) ≡ granted heard }
    ensures follows { (writing : Writing) (short : Bool) (heard : List Reply) →
        CommitAwaits writing.txn (record { items = hand.old.given; room = hand.old.room }) reply →
        hand.old.given ≡ granted heard →
        PartsFollow writing hand.old WriteStage.Committing short heard →
        MatchResult result.1 (λ _. PartsFollow writing hand.new result.0 short (reply ∷ heard))
        (λ _. PartsFollow writing hand.new result.0 true (reply ∷ heard)) }
    ensures memory { OnErr result.1 (IsRefreshing reply) }
{
    match reply {
        Reply::Committed {
            number,
            txn,
            grants,
        } => {
            hand.take_back(grants);
            match hand.refresh(alloc, &txn) {
                Ok(()) => {
                    let outcome = Outcome::Committed { number };
                    let stage = releasing(hand, outcome, Release::Finish { number });
                    (stage, Ok(()))
                }
                Err(memory) => {
                    let outcome = Outcome::Failed {
                        fault: Fault::Memory,
                    };
                    (releasing(hand, outcome, Release::Drop), Err(memory))
                }
            }
        }
        Reply::NotCommitted {
            fault,
            txn: _,
            grants,
        } => {
            hand.take_back(grants);
            let stage = WriteStage::Ending {
                outcome: Outcome::NotCommitted { fault },
            };
            (stage, Ok(()))
        }
        other => {
            other.let_go();
            (WriteStage::Committing, Ok(()))
        }
    }
}

/// Where a writer that was to be ended at the store stands after that: it keeps every value.
pub fn stage_after_end(hand: &Hand, outcome: Outcome, reply: Reply) -> WriteStage
    requires room { IsPaired hand.now }
    requires awaits { (who : Sid) × (writing : Writing) × (given : List Permit)
        × StageAwaits who writing given (WriteStage.Ending outcome) reply }
    ensures ready { WriteIsReady result }
    ensures room { (next : Next) (keys : List QKey) → HasRoom next keys hand.now result }
    ensures granted { (heard : List Reply) → granted (reply ∷ heard) ≡ granted heard }
    ensures follows { (writing : Writing) (short : Bool) (heard : List Reply) →
        PartsFollow writing hand.now (WriteStage.Ending outcome) short heard →
        PartsFollow writing hand.now result short (reply ∷ heard) }
{
    match reply {
        Reply::End { was: _ } => releasing(hand, outcome, Release::Keep),
        other => {
            other.let_go();
            WriteStage::Ending { outcome }
        }
    }
}

/// Where a writer stands after the reply to the release of a grant. One that came back is put in front
/// again.
pub fn stage_after_release(
    hand: &mut Hand,
    outcome: Outcome,
    how: Release,
    reply: Reply,
) -> WriteStage
    requires values { length hand.old.values ≡ length hand.old.grants.items }
    requires room { length hand.old.grants.items < hand.old.grants.room }
    requires awaits { (back : Option Permit) × ReleaseAwaits back reply }
    ensures ready { WriteIsReady result }
    ensures room { (next : Next) (keys : List QKey) → HasRoom next keys hand.new result }
    ensures as_long { hand.new.room ≡ hand.old.room }
    ensures given { hand.new.given ≡ hand.old.given }
    ensures granted { (heard : List Reply) → granted (reply ∷ heard) ≡ granted heard }
    ensures follows { (writing : Writing) (back : Option Permit) (short : Bool) (heard : List Reply) →
        ReleaseAwaits back reply →
        PartsFollow writing hand.old (WriteStage.Returning outcome how back) short heard →
        PartsFollow writing hand.new result short (reply ∷ heard) }
{
    match reply {
        Reply::Rel { answer: _ } => releasing(hand, outcome, how),
        Reply::SarBack { grant } => {
            hand.put_back(grant);
            WriteStage::Dropping { outcome, how }
        }
        other => {
            other.let_go();
            WriteStage::Done { outcome }
        }
    }
}
