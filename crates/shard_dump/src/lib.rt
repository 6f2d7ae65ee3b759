//! The entries of a shard as text, the rows that such a text says, and how they are loaded again.
#![tactic(auto)]

pub use answered::dump_answered;
pub use asked::are_answers;
pub use dumps::{dump, dump_beside};
pub use faults::{DumpFault, LoadFault};
pub use laws::texts_tell_dumps;
pub use loads::load;
pub use reading::read_dump;
pub use rows::{Dump, DumpRow, DumpRows};
pub use touches::LastTouches;

pub mod answered;
pub mod asked;
pub mod dumps;
pub mod faults;
mod heads;
pub mod laws;
mod listed;
pub mod loads;
mod parts;
pub mod reading;
pub mod rows;
mod texts;
pub mod touches;
