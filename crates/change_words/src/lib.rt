//! The words of a transaction: which words say which changes.
#![tactic(auto)]

pub use changes::{MOST_CHANGES, change_of, is_plus, whole_txn};
pub use laws::words_tell_txns;
pub use numbers::id_of;

pub mod changes;
pub mod laws;
pub mod numbers;
