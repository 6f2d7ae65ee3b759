//! The words behind the program's name, which `clap` reads: the command that they ask for.
#![tactic(auto)]

pub use reading::read_words;
pub use words::{Conns, ServeSpec, Words, WordsFault};

mod program;
pub mod reading;
pub mod words;
