//! The store: rows that a keeper keeps, the log of what was committed, and the sessions that may commit.
#![tactic(auto)]

pub use faults::{AfterFault, CommitFault, KeepFault};
pub use keepers::{Keeper, Place, Telling};
pub use logs::CommitLog;
pub use map_keeper::MapKeeper;
pub use store::{NO_CAP, NoStore, Start, Store, Unnamed};
pub use stores::{Answer, Closed, Commit, Phase};

pub mod faults;
pub mod keepers;
pub mod laws;
pub mod logs;
pub mod map_keeper;
mod requests;
mod sessions;
pub mod store;
pub mod stores;
