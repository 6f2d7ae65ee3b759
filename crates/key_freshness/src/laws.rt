// The laws, each the clause of a function that does nothing.
ghost use Rattle.key_freshness.specs.Laws.{MoreIsHeld, MoreIsRight, KnownThen, StoredIsHeld, StoredIsLatest, StoredIsRight, PutIsHeld, PutIsRight, ShiftIsRight, WrittenBefore, HitIsFresh, LackingStands, StepsKeep, StepsTie, CommitsKeep, EndsKeep, RunningHitIsFresh};

/// An entry that is held, and a value that is right, stay so where more is known of the store.
pub fn more_is_held()
    ensures held { MoreIsHeld }
    ensures right { MoreIsRight }
{}

/// Since a moment each commit on the key is of the moment's session, or was known then.
pub fn known_then()
    ensures { KnownThen }
{}

/// What a reader stores under a lease that stands is held, lacks no known commit on the key, and is
/// right where it was the answer when it was asked.
pub fn stored_is_held()
    ensures held { StoredIsHeld }
    ensures latest { StoredIsLatest }
    ensures right { StoredIsRight }
{}

/// What a writer puts or shifts after its commit, under a quarantine that stood alone, is held, and
/// right where its own changes make it from the value before.
pub fn writes_are_held()
    ensures held { PutIsHeld }
    ensures put { PutIsRight }
    ensures shift { ShiftIsRight }
    ensures before { WrittenBefore }
{}

/// A hit on a held entry is fresh, and each commit that the entry lacks has its quarantine standing.
pub fn hits_are_fresh()
    ensures fresh { HitIsFresh }
    ensures lacking { LackingStands }
{}

/// Honest steps keep the rule, the tie and each entry held.
pub fn steps_keep()
    ensures held { StepsKeep }
    ensures tied { StepsTie }
{}

/// Commits that were quarantined, and ends without a commit, keep the rule.
pub fn store_events_keep()
    ensures commits { CommitsKeep }
    ensures ends { EndsKeep }
{}

/// Two knowledges of one store, the shorter at the lease and the longer at the set, with commits of
/// others between them: each hit on what was set is fresh against whatever more is known by then, also
/// while quarantines stand on the key.
pub fn running_hits_are_fresh()
    ensures { RunningHitIsFresh }
{}
