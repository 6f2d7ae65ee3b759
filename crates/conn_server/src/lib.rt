//! One connection: its bytes are read as commands, each is answered by its desk or by a refusal, and
//! the replies go out in their order. Lease commands and plain ones come on one line, each with a desk.
#![tactic(auto)]

pub use ends::LineEnd;
pub use serving::serve_line;

mod answers;
pub mod clients;
mod closing;
pub mod ends;
pub mod outbox;
pub mod outgoing;
mod refusals;
pub mod serving;
mod tellings;
