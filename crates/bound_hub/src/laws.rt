//! What the lists that a pass has seen say in the words of one key's freshness.
ghost use Rattle.bound_hub.specs.Laws.{ClosedAreOver, GrantsAreSeen, KeysAreRuled, MoreIsKnown};

/// What the pass of a key's shard has seen keeps the rule of the key: each quarantine that ended is of a
/// session that is over, each commit on the key was quarantined, and no stamp is above the log.
pub fn keys_are_ruled()
    ensures { KeysAreRuled }
{}

/// Who has seen more of the store's events knows more of the store.
pub fn more_is_known()
    ensures { MoreIsKnown }
{}

/// A session that is seen to have begun for writing, and that isn't open by what is seen, has committed or
/// was ended by that.
pub fn closed_are_over()
    ensures { ClosedAreOver }
{}

/// A grant whose step was the last that was seen of its key's shard may be handed in with a commit from
/// then on.
pub fn grants_are_seen()
    ensures { GrantsAreSeen }
{}
