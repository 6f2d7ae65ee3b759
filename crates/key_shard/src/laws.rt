// Laws of histories, each the clause of a function that does nothing.
ghost use Rattle.key_shard.specs.Modes.{AnswersEndByMode, LegalEndsByMode};

/// A quarantine ends as its mode has it: each one that ended stood then, and was its session's; where it
/// ended with a new value it was to refresh, and where it ended with a shift it was to shift, by that
/// number. A history in which one ended otherwise is not legal.
pub fn quarantines_end_by_mode()
    ensures answers { AnswersEndByMode }
    ensures legal { LegalEndsByMode }
{}
