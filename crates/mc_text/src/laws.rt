ghost use Rattle.mc_text.specs.Laws.{StreamsTellItems};

/// The items of a stream, its commands and faults, are told by its bytes alone: one stands first at
/// most, it stays first whatever comes behind, and the items of the pieces of a stream are those of
/// the whole.
pub fn streams_tell_items()
    ensures { StreamsTellItems }
{}
