ghost use Rattle.mixed_lines.specs.Laws.{StreamsTellItems};

/// What stands in a stream, lease commands and plain ones, is told by its bytes alone. One command or
/// fault at most stands first, it stays so whatever comes behind, and it doesn't depend on the pieces.
pub fn mixed_streams_tell_items()
    ensures { StreamsTellItems }
{}
