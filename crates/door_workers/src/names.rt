ghost use Rattle.std.specs.Prelude.{ℕ, List, Option};
ghost use Rattle.std.specs.Borrow.{GName};
ghost use Rattle.iq_outside.specs.Outside.{LineRecord};
ghost use Rattle.door_workers.specs.DoorSeen.{DoorSeen};

use std::marker::Brand;
use std::sync::ledger::Ledger;

/// Names what the lock of a door keeps: which door it is, what that told when its workers began, which
/// lines were handed back by then, whether it was to give only fresh lines, and how many lines they may
/// accept, if a number of them is enough. It names a ledger too, whose total is the number of lines that are being served.
///
/// The name is picked where a caller that is generic in it is called, at the type `Brand`.
pub(crate) trait DoorName: Ledger {
    ghost door: { GName };

    ghost first: { DoorSeen };

    ghost closed: { Option (List LineRecord) };

    ghost fresh: { Type 0 };

    ghost most: { Option ℕ };
}

impl DoorName for Brand {
    ghost use Rattle.std.specs.Prelude.{None, false};

    ghost door = { 0 };

    ghost first = { record { bound = None; lines = 0; faults = 0; ended = false; closed = None } };

    ghost closed = { None };

    ghost fresh = { Unit {0} };

    ghost most = { None };
}
