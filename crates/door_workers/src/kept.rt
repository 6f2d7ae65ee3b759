ghost use Rattle.std.specs.Prelude.{◌≡◌, ◌+◌, ◌≤◌, true, IfSome, IfNone};
ghost use Rattle.iq_outside.specs.Outside.{IsFresh};
ghost use Rattle.door_workers.specs.Attending.{HaveComeWith, seen_at};
ghost use Rattle.door_workers.specs.Ends.{IsEnded, AreServed};

use crate::attending::Attending;
use crate::names::DoorName;
use conn_server::LineEnd;
use iq_outside::Door;
use std::marker::Model;
use std::sync::ledger::{Book, Share};

/// What lies under the lock of a door: the door and how far its workers have come, and the book of a
/// ledger, which takes no bytes. Its total is how many lines were accepted and not yet handed back.
pub(crate) struct Kept<'a, D: Door, N: DoorName> {
    pub at: Attending<'a, D>,
    pub out: Book<N>,
}

impl<'a, D: Door, N: DoorName> Model for Kept<'a, D, N> {
    ghost use Rattle.std.specs.Prelude.{◌≡◌};
    ghost use Rattle.door_workers.specs.Attending.{HaveComeWith, seen_at};
    ghost use Rattle.door_workers.specs.Ends.{AreServed};

    ghost Value = { Unit {0} };

    ghost view = { λ kept. tt };

    ghost invariant = { λ kept. (kept.at.lent.door.ghost_name ≡ N.door)
        × HaveComeWith N.first N.most (seen_at D.bound D.lines D.faults D.ended D.closed kept.at.lent.door.now)
        kept.at.so_far kept.out.total
        × (N.fresh → D.fresh kept.at.lent.door.now)
        × (N.fresh → AreServed N.most kept.at.so_far.ends.items N.closed
        (D.closed kept.at.lent.door.now)) };
}

impl<'a, D: Door, N: DoorName> Kept<'a, D, N> {
    /// Accepts the next line for the worker with this share, unless none is to be accepted. It may
    /// wait.
    pub fn accept(&mut self, mine: &mut Share<N>) -> Option<D::Line>
        requires { 1 ≤ mine.old.parts }
        ensures part { mine.new.parts ≡ mine.old.parts }
        ensures one_more { IfSome result (λ line. mine.new.amount ≡ mine.old.amount + 1) }
        ensures none { IfNone result (mine.new.amount ≡ mine.old.amount) }
        ensures unused { N.fresh → IfSome result
            (λ line. IsFresh (D.Line.given line) (D.Line.taken line)) }
    {
        let Kept { at, out } = self;
        let line = at.accept()?;
        out.add(mine, 1);
        Some(line)
    }

    /// Hands a line back that the worker with this share served and finished, and notes how it ended,
    /// where ends are kept.
    pub fn hand_back(&mut self, line: D::Line, end: LineEnd, mine: &mut Share<N>)
        requires out { 1 ≤ mine.old.amount }
        requires finished { D.Line.finished line ≡ true }
        requires ended { N.fresh → IsEnded
            (record { reads = D.Line.read_side line; writes = D.Line.write_side line }) end }
        ensures part { mine.new.parts ≡ mine.old.parts }
        ensures one_less { mine.new.amount + 1 ≡ mine.old.amount }
    {
        let Kept { at, out } = self;
        out.sub(mine, 1);
        at.hand_back(line, end);
    }

    /// The door and how far the workers have come, after the threads have ended. By all their shares
    /// each line that was accepted was handed back.
    pub fn into_attending(self, all: Share<N>) -> Attending<'a, D>
        requires all { all.parts ≡ N.parts }
        requires none { all.amount ≡ 0 }
        ensures door { result.lent.door.ghost_name ≡ N.door }
        ensures stands { HaveComeWith N.first N.most
            (seen_at D.bound D.lines D.faults D.ended D.closed result.lent.door.now) result.so_far 0 }
        ensures stays_fresh { N.fresh → D.fresh result.lent.door.now }
        ensures handed_back { N.fresh → AreServed N.most result.so_far.ends.items N.closed
            (D.closed result.lent.door.now) }
    {
        let mut all = all;
        let Kept { at, mut out } = self;
        out.audit(&mut all);
        at
    }
}
