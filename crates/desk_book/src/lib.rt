//! The book: what a desk was told for its present session, which requests that bears out, and the safe
//! form in which a request is made that it doesn't.
#![tactic(auto)]

pub use apart::{Apart, Other};
pub use books::Book;
pub use facts::{Committed, Leased, Present};
pub use forms::Form;
pub use held::Ticket;
pub use made::Made;

pub mod apart;
pub mod books;
pub mod facts;
pub mod forms;
pub mod held;
pub mod laws;
mod looks;
pub mod made;
