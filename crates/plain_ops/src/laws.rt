ghost use Rattle.plain_ops.specs.Laws.{StayWhole};

/// A plain map in which no two keys are the same, with no more keys and bytes than there may be, is
/// so after any command, whatever is answered. A new map is.
pub fn plain_maps_stay_whole()
    ensures { StayWhole }
{}
