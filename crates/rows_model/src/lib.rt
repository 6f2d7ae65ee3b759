//! Keys, values and the rows of the social store: what a key asks, and the answer to it.
#![tactic(auto)]

pub use changes::{Change, Txn};
pub use deltas::{delta_is_answer, delta_of};
pub use footprints::{
    any_touches, footprint, footprints_are_exact, rows_stay_fit, touches,
    untouched_keeps_its_answer,
};
pub use keys::{Kind, QKey, Sid, texts_tell_keys};
pub use names::Name;
pub use numbers::number_of;
pub use placement::shard_number;
pub use queries::{answers_ascend, ask, id_list, number, profile_of};
pub use refreshing::{refresh, refresh_is_answer};
pub use refusals::{ApplyFault, Memory, TxnFault};
pub use rows::{Link, LinkState, Member, Rows};
pub use shifts::{numbers_are_decimal, shift};
pub use values::Value;

pub mod changes;
pub mod deltas;
pub mod footprints;
mod judging;
pub mod keys;
pub mod names;
mod near;
pub mod numbers;
pub mod placement;
pub mod queries;
pub mod refreshing;
pub mod refusals;
pub mod rows;
pub mod shifts;
pub mod values;
