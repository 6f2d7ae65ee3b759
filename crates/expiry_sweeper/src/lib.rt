//! The sweeper: which quarantines that are past their deadline are ended, and in which order.
#![tactic(auto)]

pub use replies::{SweepReply, SweepWanted};
pub use sweepers::Sweeper;

pub mod laws;
pub mod replies;
pub mod sweepers;
