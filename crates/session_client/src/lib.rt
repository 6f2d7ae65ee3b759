//! Sessions: what a client of the cache wants next, by its plan and by what it was told.
#![tactic(auto)]

pub use desks::Desk;
pub use grant_lists::Grants;
pub use plans::{Plan, Shape, Turn};
pub use replies::{Fault, Outcome, Reply, Wanted};
pub use sessions::Session;

mod changes;
pub mod desks;
pub mod grant_lists;
mod hands;
mod looks;
mod notes;
pub mod plans;
mod quarantines;
mod raises;
mod readers;
mod releases;
pub mod replies;
pub mod sessions;
mod stages;
mod writers;
