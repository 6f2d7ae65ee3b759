//! The desk over a hub whose locks know what happened: it keeps a book of what it told, and makes a
//! request that the book doesn't bear out in its safe form.
#![tactic(auto)]

pub use bound_books::BoundBook;
pub use desks::BoundDesk;
pub use sweeps::BoundSweep;

pub mod asks;
pub mod at_store;
pub mod bound_books;
pub mod commits;
mod copies;
pub mod desks;
pub mod drops;
pub mod ends;
pub mod gets;
pub mod keeps;
pub mod puts;
pub mod quarantines;
pub mod raises;
mod records;
pub mod requests;
pub mod sets;
pub mod shards;
pub mod shifts;
pub mod stages;
pub mod sweeps;
mod turns;
pub mod writes;
