//! The leases of each key: who may read it, who quarantines it, and until when.
#![tactic(auto)]

pub use records::{Due, Held, Lapse, Lease, Mode, Quar, ReadLease};
pub use table::Leases;

mod dues;
mod edits;
mod index;
mod lapses;
mod lookups;
mod readers;
pub mod records;
pub mod table;
