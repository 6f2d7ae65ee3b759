// Laws of a shard's past, each the clause of a function that does nothing.
ghost use Rattle.key_shard.specs.LegalStands.{LegalStandsWell};
ghost use Rattle.key_shard.specs.OneStep.{ReadersByOneStep};
ghost use Rattle.key_shard.specs.Sights.{StepBySight};

/// On each key of a legal past stand quarantines beside one another, of tokens that were drawn, or a
/// lease to read is recorded, and never both.
pub fn legal_pasts_stand_well()
    ensures { LegalStandsWell }
{}

/// What a past with one step more shows of quarantines, leases to read, entries, their order and the
/// next token is what that step makes of what the past showed.
pub fn readers_by_one_step()
    ensures { ReadersByOneStep }
{}

/// The step of a request rests on what the past shows of the request's key, on the order of the entries
/// and on the next token, and on nothing else of the past.
pub fn steps_rest_on_one_key()
    ensures { StepBySight }
{}
