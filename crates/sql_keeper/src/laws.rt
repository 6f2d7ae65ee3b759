// Laws of the log, each the clause of a function that does nothing.
ghost use Rattle.sql_keeper.specs.Moves.{ClosedStaysClosed};

/// A session that has begun and isn't open is never open again, whatever the store is asked. So one
/// that was ended before it committed never commits, and none commits twice.
pub fn closed_stays_closed()
    ensures { ClosedStaysClosed }
{}
