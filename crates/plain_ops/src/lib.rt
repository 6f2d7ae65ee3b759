//! The plain map: what plain commands store, and what they are told.
#![tactic(auto)]

pub use boxes::{PlainBox, PlainSeat};
pub use desks::PlainDesk;
pub use items::Item;
pub use kept::Kept;
pub use laws::plain_maps_stay_whole;
pub use maps::Plain;

pub mod boxes;
pub mod desks;
pub mod items;
pub mod kept;
pub mod laws;
pub mod maps;
mod tables;
