//! The kinds of steps, as numbers.
ghost use Rattle.std.specs.Prelude.{◌<◌};

use key_shard::Step;

/// How many kinds of steps there are.
pub const KINDS: usize = 14;

/// The number of the step's kind. The last five end, raise or renew a quarantine.
pub fn kind_of(step: &Step) -> usize
    ensures { result < 14 }
{
    match step {
        Step::Hit { .. } => 0,
        Step::Lease { .. } => 1,
        Step::Again { .. } => 2,
        Step::Own { .. } => 3,
        Step::Stored { .. } => 4,
        Step::Void { .. } => 5,
        Step::Granted { .. } => 6,
        Step::Held { .. } => 7,
        Step::Refused { .. } => 8,
        Step::Released { .. } => 9,
        Step::Gone { .. } => 10,
        Step::Raised { .. } => 11,
        Step::Shared { .. } => 12,
        Step::Renewed { .. } => 13,
    }
}
