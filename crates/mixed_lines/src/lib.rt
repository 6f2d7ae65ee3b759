//! Lease commands and plain ones on one line: what stands next in a stream in which both come.
#![tactic(auto)]

pub use laws::mixed_streams_tell_items;
pub use lookups::next_lookup;
pub use streams::{Said, next_said};

mod fronts;
pub mod laws;
mod lookups;
pub mod streams;
