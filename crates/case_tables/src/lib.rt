//! The table of leases: which may be held beside which on one key.
#![tactic(auto)]

pub use grids::{Grid, Verdict, lease_grid};

pub mod grids;
