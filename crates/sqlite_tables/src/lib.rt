//! The statements on the two tables of the store, each one function, whose contract says on the
//! lists of members and pairs what it read or changed.
#![tactic(auto)]

pub use ends::{drop_changes, keep_changes};
pub use faults::fault_of;
pub use laws::{changes_are_made, lists_are_one};
pub use loading::{Found, found_lists};
pub use opening::{add_index, make_tables, put_member};
pub use pairs::{Pair, PairState};
pub use reads::{links_between, links_from, links_to, name_of};
pub use writes::{put_link, set_name, take_link};

pub mod ends;
pub mod faults;
pub mod laws;
pub mod loading;
pub mod opening;
pub mod pairs;
pub mod reads;
pub mod writes;
