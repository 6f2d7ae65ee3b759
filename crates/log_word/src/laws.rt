//! What follows from what a pass or a note has seen: each the clause of a function that does nothing.
ghost use Rattle.log_word.specs.Laws.{SessionsBeginOnce, SessionsCloseOnce, GrantsHaveBegun, ReleasesAreOver, StampsAreCommitted, CommitsWereGranted, BeginningsGoOn};

/// A session begins once, and then commits or ends at most once, if it began for writing.
pub fn sessions_take_their_course()
    ensures begin { SessionsBeginOnce }
    ensures close { SessionsCloseOnce }
{}

/// Each step is borne out by the store's events that are seen beside it.
pub fn steps_are_borne_out()
    ensures grants { GrantsHaveBegun }
    ensures releases { ReleasesAreOver }
    ensures stamps { StampsAreCommitted }
{}

/// Of each key that a commit touches, a grant to its session is seen beside it.
pub fn commits_were_granted()
    ensures { CommitsWereGranted }
{}

/// What was seen before is a beginning of what is seen in the end, over any number of joins.
pub fn beginnings_go_on()
    ensures { BeginningsGoOn }
{}
