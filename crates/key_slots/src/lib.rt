//! Which key has which slot of a shard: each key at most one, and each slot at most one key.
#![tactic(auto)]

pub use laws::{each_slot_is_one_keys, freed_slots_are_nobodys, given_slots_are_one_keys};
pub use slots::KeySlots;

pub mod laws;
mod names;
pub mod slots;
