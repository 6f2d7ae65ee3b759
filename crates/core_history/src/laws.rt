// Laws of the machine, each the clause of a function that does nothing.
ghost use Rattle.core_history.specs.Freshness.{RunsAreLawful, RunsAreFresh};
ghost use Rattle.core_history.specs.Determined.{RunsAreDetermined, RunsGoOn};
ghost use Rattle.core_history.specs.Sweeps.{SweepsAreFinal};
ghost use Rattle.core_history.specs.Voids.{VoidsAreInert};

/// Every run is lawful, whichever sessions it begins, in whatever order it takes their turns, and
/// whatever the keeper says: each history is legal, no transaction is committed that touches a key
/// which its session hasn't quarantined, and each value that is put or shifted has the number of its
/// session's commit as its stamp. Each raise of a quarantine comes before its session's commit.
pub fn runs_are_lawful()
    ensures { RunsAreLawful }
{}

/// No run goes stale where the keeper's word is true: each hit is its key's answer on the rows after
/// as many commits as its stamp says, and among these is each commit on that key whose quarantine
/// there had ended before.
pub fn runs_are_fresh()
    ensures { RunsAreFresh }
{}

/// A set that came too late changes nothing: each entry, their order, the quarantines and the next token
/// are as they were before it, and from its own time on the leases to read are seen as before.
pub fn voids_are_inert()
    ensures { VoidsAreInert }
{}

/// Where the keeper's word is true, a run is told by its script and by which of its turns were answered
/// FAULT: two runs of one script in which the same turns were answered so have the same events, and so
/// the same log, the same histories and the same lines.
pub fn runs_are_determined()
    ensures { RunsAreDetermined }
{}

/// The first moves of a run, with a keeper whose word was true so far, are the first of some whole run:
/// whatever the script says next, there are moves that do it, in which the keeper's word stays true and
/// no turn is answered FAULT.
pub fn runs_go_on()
    ensures { RunsGoOn }
{}

/// What the sweeper drops is final, whatever the keeper says. After the drop no quarantine of that token
/// stands on the key, and each later hit on the key has a stamp of at least as many commits as the log
/// had at the drop. So each of them holds all that was committed before the sweeper ended the session,
/// and the session's own commit, if it has one.
pub fn sweeps_are_final()
    ensures { SweepsAreFinal }
{}
