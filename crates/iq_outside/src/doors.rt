ghost use Rattle.std.specs.Prelude.{◌≡◌, ℕ, ◌≤◌, ◌||◌, Bool, true, List, Option, Some, is_none, IfSome, IfOk, OnOk, OnErr};
ghost use Rattle.iq_outside.specs.Outside.{Rose, IsFresh, LineRecord, HandedBack, lines_with};

use crate::failures::Failed;
use crate::lines::Line;

/// Where connections come in.
///
/// Contracts see six things of a door. `bound` is the address that it is open at, `None` before it is
/// open. `faults` is how often it failed: the count rises at each
/// call that fails, until the end of its type, and at no other. `lines` is how many lines it gave, up
/// to 2^64 - 1, and `ended` whether an `accept` has answered None. A door of which `fresh` holds
/// gives only lines that have given and taken nothing, where they tell that; no call ends this.
/// `closed` is what the lines handed back told then, in order, or `None` where it isn't told.
pub trait Door: Send {
    type Line: Line + Send;

    ghost bound: { Self → Option (List ℕ) };

    ghost faults: { Self → ℕ };

    ghost lines: { Self → ℕ };

    ghost ended: { Self → Bool };

    ghost fresh: { Self → Type 0 };

    ghost closed: { Self → Option (List LineRecord) };

    /// Opens the door at this address. A door that can't be opened there is open where it was. It may
    /// wait.
    fn bind(&mut self, addr: &[u8]) -> Result<(), Failed>
        ensures bound { OnOk result (bound self.new ≡ Some addr.now) }
        ensures not_bound { OnErr result (bound self.new ≡ bound self.old) }
        ensures failed_rose { OnErr result (Rose (faults self.old) (faults self.new)) }
        ensures no_fault { OnOk result (faults self.new ≡ faults self.old) }
        ensures never_falls { faults self.old ≤ faults self.new }
        ensures no_line { lines self.new ≡ lines self.old }
        ensures no_end { ended self.new ≡ ended self.old }
        ensures stays_fresh { fresh self.old → fresh self.new }
        ensures keeps_closed { closed self.new ≡ closed self.old };

    /// Waits for the next connection, and answers None where no more come.
    fn accept(&mut self) -> Result<Option<Self::Line>, Failed>
        ensures stays_bound { bound self.new ≡ bound self.old }
        ensures failed_rose { OnErr result (Rose (faults self.old) (faults self.new)) }
        ensures no_fault { OnOk result (faults self.new ≡ faults self.old) }
        ensures never_falls { faults self.old ≤ faults self.new }
        ensures counts { IfOk result
            (λ answer. lines self.new ≡ lines_with answer (lines self.old)) }
        ensures ends { IfOk result
            (λ answer. ended self.new ≡ (is_none answer || ended self.old)) }
        ensures no_line { OnErr result (lines self.new ≡ lines self.old) }
        ensures no_end { OnErr result (ended self.new ≡ ended self.old) }
        ensures unused { fresh self.old → IfOk result (λ answer. IfSome answer
            (λ line. IsFresh (Self.Line.given line) (Self.Line.taken line))) }
        ensures stays_fresh { fresh self.old → fresh self.new }
        ensures keeps_closed { closed self.new ≡ closed self.old };

    /// Takes back a line that is finished. It can't fail, isn't counted, and takes no memory. Where
    /// the door tells what the lines handed back told, what this one tells is the last of it.
    fn close(&mut self, line: Self::Line)
        requires finished { Self.Line.finished line ≡ true }
        ensures stays_bound { bound self.new ≡ bound self.old }
        ensures no_fault { faults self.new ≡ faults self.old }
        ensures no_line { lines self.new ≡ lines self.old }
        ensures no_end { ended self.new ≡ ended self.old }
        ensures stays_fresh { fresh self.old → fresh self.new }
        ensures handed_back { HandedBack (closed self.old) (closed self.new) (record {
          reads = Self.Line.read_side line;
          writes = Self.Line.write_side line;
        }) };
}
