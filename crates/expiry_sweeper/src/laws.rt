// Laws of sweeping, each the clause of a function that does nothing.
ghost use Rattle.expiry_sweeper.specs.EndsFirst.{EndsBeforeDrops};

/// Between the scan that finds a quarantine and its drop stands the end of its session, whatever the
/// replies are.
pub fn ends_before_drops()
    ensures { EndsBeforeDrops }
{}
