//! The top calls: a script from a source, replayed on the core over a keeper, and its lines to a sink; and
//! a command by its words: such a script, a load that workers run in threads, such a load and then the next
//! one over a cache that takes over what is still right, or a server of which workers serve the connections.
#![tactic(auto)]

pub use runs::{Phase, RunEnd, Status, replay, run};

mod dumps;
mod endings;
mod exits;
mod hubs;
mod loads;
mod phases;
mod plays;
mod printing;
pub mod runs;
mod saves;
pub mod serves;
mod summaries;
mod texts;
mod warm_starts;
mod warms;
mod works;
