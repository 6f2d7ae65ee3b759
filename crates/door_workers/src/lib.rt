//! Workers: each accepts connections from one door and serves them on a desk of its own, all at the
//! same time.
#![tactic(auto)]

pub use workers::{Attended, serve_all};

mod attending;
mod kept;
mod names;
mod progress;
mod workers;
