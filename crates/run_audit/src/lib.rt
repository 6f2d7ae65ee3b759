//! The audit of a run: from its opening rows, its log and its shards it tells whether some commit
//! touched a key that its session hadn't quarantined, or some hit was stale, and if so the first.
#![tactic(auto)]

pub use audits::audit;
pub use findings::Finding;

mod answers;
pub mod audits;
mod covers;
pub mod findings;
mod floors;
mod grants;
mod holds;
mod notes;
mod numbers;
mod stales;
