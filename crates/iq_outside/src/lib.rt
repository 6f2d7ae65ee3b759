//! The outside of the program: where its bytes come from and where they go, where connections come
//! in, what tells it the time, and what its threads wait at.
//!
//! A contract sees a source or a sink as the bytes that it tells, if it tells them, and as a count of
//! faults. A call that fails raises that count, unless it stands at the end of its type, and no other
//! call changes it.
#![tactic(auto)]

pub use adapters::{ReaderSource, WriterSink};
pub use clocks::{Clock, ListClock, RuntimeClock};
pub use copying::{TextRead, read_up_to, write_all};
pub use doors::Door;
pub use failures::{Failed, ReadStop, Short};
pub use gates::{Gate, OpenGate, Point};
pub use lines::Line;
pub use memory_doors::ListDoor;
pub use memory_forms::{MemSink, MemSource};
pub use memory_lines::MemLine;
pub use sinks::Sink;
pub use sources::Source;
pub use tcp::{TcpDoor, TcpLine};

pub mod adapters;
mod addresses;
pub mod clocks;
pub mod copying;
pub mod doors;
pub mod failures;
pub mod gates;
pub mod lines;
pub mod memory_doors;
pub mod memory_forms;
pub mod memory_lines;
pub mod sinks;
pub mod sources;
pub mod tcp;
