// Laws of the texts of dumps, each the clause of a function that does nothing.
ghost use Rattle.shard_dump.specs.Faults.{TextsTellDumps};

/// A text says one dump at most and is wrong at one place at most, and never both.
pub fn texts_tell_dumps()
    ensures { TextsTellDumps }
{}
