//! What a run is made from: the script that a text says, and the load that a seed gives.
#![tactic(auto)]

pub use commands::{number_within, work_words};
pub use faults::{ScriptFault, ScriptKind};
pub use laws::texts_tell_scripts;
pub use loads::{WorkSpec, make_plans};
pub use scripts::{Act, Script};

pub mod commands;
mod cuts;
mod draws;
pub mod faults;
mod jobs;
pub mod laws;
mod lines;
pub mod loads;
pub mod scripts;
mod stages;
mod txns;
