//! What a user of the cache may conclude from its public contracts: each function calls public
//! functions of the other crates, and promises what follows from their clauses alone. There is no code
//! here of its own.
#![tactic(auto)]

pub mod desks;
pub mod quits;
pub mod runs;
pub mod shards;
pub mod stores;
