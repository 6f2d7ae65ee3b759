//! What the locks of a hub have in common: the names of what they keep, new shards, and tokens that tell which
//! shard lies where.
#![tactic(auto)]

pub use locks::{token_of, wait_for_ever};
pub use making::new_shards;
pub use names::{HubName, StartOf};
pub use rooms::KeptRoom;

pub mod locks;
pub mod making;
pub mod names;
pub mod rooms;
