//! A keeper of the store's rows in an SQL database, in memory or in a file.
#![tactic(auto)]

pub use keeper::SqliteKeeper;

mod answers;
mod base;
mod bonds;
mod changes;
mod checks;
mod faults;
mod files;
pub mod keeper;
mod loading;
mod opening;
mod schemas;
mod texts;
