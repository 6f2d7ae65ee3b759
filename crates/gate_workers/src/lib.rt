//! Workers: each runs its plans in order over a desk of its own, all at the same time, and keeps a
//! transcript of what its sessions asked and were told.
#![tactic(auto)]

pub use executor::Request;
pub use marks::{Mark, Response};
pub use tallies::Tally;
pub use transcripts::{Row, Transcript};
pub use workers::work_all;

pub mod marks;
mod notes;
mod sessions;
pub mod tallies;
pub mod transcripts;
pub mod workers;
