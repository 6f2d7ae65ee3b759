//! The core: sessions, shards and the store, moved on one turn at a time. Each turn is one event.
#![tactic(auto)]

pub use cores::Core;
pub use turn_lines::TurnLine;

pub mod cores;
mod homes;
pub mod laws;
pub mod lines;
mod requests;
mod sweep_lines;
mod sweeps;
pub mod turn_lines;
mod turns;
