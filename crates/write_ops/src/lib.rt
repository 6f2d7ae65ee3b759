//! The verbs of writers: how a session quarantines a key and ends the quarantine again, by its mode.
#![tactic(auto)]

pub use delta::{DeltaFault, commit_delta, iq_delta};
pub use invalidate::{abort, dar, qa_reg};
pub use refresh::{qa_read, sar};

pub mod delta;
pub mod invalidate;
pub mod refresh;
