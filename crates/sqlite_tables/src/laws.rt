// The laws, each the clause of a function that does nothing.
ghost use Rattle.sqlite_tables.specs.Laws.{ListsAreOne};
ghost use Rattle.sqlite_tables.specs.Changes.{ChangesAreMade};

/// A database holds one pair of lists, if any.
pub fn lists_are_one()
    ensures { ListsAreOne }
{}

/// A change that applies to fit rows makes of their lists those of the rows after it, and a pair
/// that it puts isn't there before.
pub fn changes_are_made()
    ensures { ChangesAreMade }
{}
