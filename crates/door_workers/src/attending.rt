ghost use Rattle.std.specs.Prelude.{◌≡◌, ℕ, ◌+◌, ◌<◌, ◌≤◌, ◌||◌, Option, true, is_none, IfSome, IfNone, IfOk, OnOk, OnErr, length, vec_capacity};
ghost use Rattle.iq_outside.specs.Outside.{Rose, IsFresh, HandedBack, lines_with, count_up};
ghost use Rattle.door_workers.specs.Attending.{HaveCome, is_over, one_more, seen_at};
ghost use Rattle.door_workers.specs.DoorSeen.{DoorSeen};

use crate::progress::Progress;
use conn_server::LineEnd;
use iq_outside::{Door, Failed};

/// A door that is lent to workers.
pub(crate) struct Lent<'a, D: Door> {
    pub door: &'a mut D,
}

/// A door that workers attend, and how far they have come there.
pub(crate) struct Attending<'a, D: Door> {
    pub lent: Lent<'a, D>,
    pub so_far: Progress,
}

impl<'a, D: Door> Lent<'a, D> {
    /// Asks the door for the next line. What is said of the door is what it says itself.
    fn ask(&mut self) -> Result<Option<D::Line>, Failed>
        ensures same_door { self.new.door.ghost_name ≡ self.old.door.ghost_name }
        ensures stays_bound { D.bound self.new.door.now ≡ D.bound self.old.door.now }
        ensures failed_rose { OnErr result
            (Rose (D.faults self.old.door.now) (D.faults self.new.door.now)) }
        ensures no_fault { OnOk result
            (D.faults self.new.door.now ≡ D.faults self.old.door.now) }
        ensures never_falls { D.faults self.old.door.now ≤ D.faults self.new.door.now }
        ensures counts { IfOk result (λ answer.
            D.lines self.new.door.now ≡ lines_with answer (D.lines self.old.door.now)) }
        ensures ends { IfOk result (λ answer.
            D.ended self.new.door.now ≡ (is_none answer || D.ended self.old.door.now)) }
        ensures no_line { OnErr result (D.lines self.new.door.now ≡ D.lines self.old.door.now) }
        ensures no_end { OnErr result (D.ended self.new.door.now ≡ D.ended self.old.door.now) }
        ensures unused { D.fresh self.old.door.now → IfOk result (λ answer. IfSome answer
            (λ line. IsFresh (D.Line.given line) (D.Line.taken line))) }
        ensures stays_fresh { D.fresh self.old.door.now → D.fresh self.new.door.now }
        ensures keeps_closed { D.closed self.new.door.now ≡ D.closed self.old.door.now }
    {
        self.door.accept()
    }
}

impl<'a, D: Door> Attending<'a, D> {
    /// Accepts the next line, unless as many were accepted as may be, or no more come, or the door
    /// failed. It may wait.
    pub fn accept(&mut self) -> Option<D::Line>
        ensures same_door { self.new.lent.door.ghost_name ≡ self.old.lent.door.ghost_name }
        ensures line { IfSome result (λ line.
            (first : DoorSeen) (most : Option ℕ) (back out : ℕ) →
            HaveCome first most (seen_at D.bound D.lines D.faults D.ended D.closed self.old.lent.door.now)
            self.old.so_far back out →
            HaveCome first most (seen_at D.bound D.lines D.faults D.ended D.closed self.new.lent.door.now)
            self.new.so_far back (out + 1)) }
        ensures none { IfNone result ((first : DoorSeen) (most : Option ℕ) (back out : ℕ) →
            HaveCome first most (seen_at D.bound D.lines D.faults D.ended D.closed self.old.lent.door.now)
            self.old.so_far back out →
            HaveCome first most (seen_at D.bound D.lines D.faults D.ended D.closed self.new.lent.door.now)
            self.new.so_far back out) }
        ensures over { IfNone result (is_over self.new.so_far ≡ true) }
        ensures counted { IfSome result (λ line.
            self.new.so_far.accepted ≡ count_up self.old.so_far.accepted) }
        ensures most { self.new.so_far.most ≡ self.old.so_far.most }
        ensures stands_still { is_over self.old.so_far ≡ true →
            self.new.lent.door.now ≡ self.old.lent.door.now }
        ensures unused { D.fresh self.old.lent.door.now → IfSome result
            (λ line. IsFresh (D.Line.given line) (D.Line.taken line)) }
        ensures keeps_closed { D.closed self.new.lent.door.now ≡ D.closed self.old.lent.door.now }
        ensures keeps_ends { self.new.so_far.ends.items ≡ self.old.so_far.ends.items }
        ensures stays_fresh { D.fresh self.old.lent.door.now → D.fresh self.new.lent.door.now }
    {
        let so_far = &mut self.so_far;
        if so_far.is_over() {
            return None;
        }
        match self.lent.ask() {
            Ok(Some(line)) => {
                so_far.accepted = so_far.accepted.saturating_add(1);
                Some(line)
            }
            Ok(None) => {
                so_far.ended = true;
                None
            }
            Err(_) => {
                so_far.failed = true;
                None
            }
        }
    }

    /// Hands a line back that was served and finished, and notes how it ended, where ends are kept. It
    /// takes no memory.
    pub fn hand_back(&mut self, line: D::Line, end: LineEnd)
        requires room { IfSome self.old.so_far.most (λ most.
            length self.old.so_far.ends.items < vec_capacity self.old.so_far.ends) }
        requires finished { D.Line.finished line ≡ true }
        ensures same_door { self.new.lent.door.ghost_name ≡ self.old.lent.door.ghost_name }
        ensures stands { (first : DoorSeen) (most : Option ℕ) (back out : ℕ) →
            HaveCome first most (seen_at D.bound D.lines D.faults D.ended D.closed self.old.lent.door.now)
            self.old.so_far back (out + 1) →
            HaveCome first most (seen_at D.bound D.lines D.faults D.ended D.closed self.new.lent.door.now)
            self.new.so_far (back + 1) out }
        ensures handed_back { HandedBack (D.closed self.old.lent.door.now)
            (D.closed self.new.lent.door.now)
            (record { reads = D.Line.read_side line; writes = D.Line.write_side line }) }
        ensures noted { self.new.so_far.ends.items
            ≡ one_more self.old.so_far.most self.old.so_far.ends.items end }
        ensures accepted { self.new.so_far.accepted ≡ self.old.so_far.accepted }
        ensures most { self.new.so_far.most ≡ self.old.so_far.most }
        ensures stays_fresh { D.fresh self.old.lent.door.now → D.fresh self.new.lent.door.now }
    {
        if self.so_far.most.is_some() {
            self.so_far.ends.push_reserved(end);
        }
        self.lent.door.close(line);
    }
}
