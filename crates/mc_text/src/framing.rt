ghost use Rattle.std.specs.Prelude.{◌≡◌, ◌≤◌, length, OnOk, OnErr};
ghost use Rattle.mc_text.specs.Framing.{unfed, fed, past, Answers};

use crate::commands::Command;
use crate::faults::FrameFault;
use crate::items::{Front, front_of};
use bytes::BytesMut;
use rows_model::Memory;
use std::alloc::Global;
use std::marker::Model;

// The most bytes for which room is kept once all that was fed is taken.
const KEPT: usize = 262_144;

/// The commands of a stream of bytes that comes in pieces. Contracts see the place in the stream at
/// which the next command begins, and the bytes that were fed from there on. What is answered depends
/// on these bytes, and not on the pieces in which they came.
#[derive(Drop)]
pub struct Framer {
    alloc: Global,
    // What was fed and not taken.
    bytes: BytesMut,
    place: u64,
}

impl Model for Framer {
    ghost use Rattle.std.specs.Prelude.{◌<◌, ◌^◌};
    ghost use Rattle.mc_text.specs.Framing.{Frames};

    ghost Value = { Frames };

    ghost view = { λ f. record { place = f.place; rest = f.bytes.items } };

    ghost invariant = { λ f. f.place < 2 ^ 64 };
}

impl Framer {
    /// A framer that was fed nothing. It takes no memory.
    pub fn new(alloc: Global) -> Framer
        ensures { result ≡ unfed }
    {
        Framer {
            alloc,
            bytes: BytesMut::new(alloc),
            place: 0,
        }
    }

    /// Takes the next piece of the stream. After want of memory all is as before.
    pub fn feed(&mut self, piece: &[u8]) -> Result<(), Memory>
        ensures ok { OnOk result (self.new ≡ fed self.old piece.now) }
        ensures err { OnErr result (self.new ≡ self.old) }
    {
        self.bytes.extend_from_slice(piece)?;
        Ok(())
    }

    /// The command that stands next in the bytes, which is taken; `None` exactly where no whole
    /// command and no fault stands there, and then all is as before. A line that isn't of its verb's
    /// form is a fault and is taken. The other faults of the bytes last: nothing is taken, and the
    /// same is told again. Memory is asked for only where a whole command with a transaction or a
    /// block stands next, and after want of it all is as before.
    pub fn next_command(&mut self) -> Result<Option<Command>, FrameFault>
        ensures { Answers self.old result self.new }
    {
        let place = self.place;
        match front_of(self.alloc, self.bytes.as_slice()) {
            Ok(Front::Command { command, taken }) => {
                self.take(taken);
                Ok(Some(command))
            }
            Ok(Front::BadLine { taken }) => {
                self.take(taken);
                Err(FrameFault::BadLine { place })
            }
            Ok(Front::LongLine) => Err(FrameFault::LongLine { place }),
            Ok(Front::BadBlock) => Err(FrameFault::BadBlock { place }),
            Ok(Front::BigBlock) => Err(FrameFault::BigBlock { place }),
            Ok(Front::Open) => Ok(None),
            Err(Memory) => Err(FrameFault::Memory),
        }
    }

    /// How many bytes were fed and not taken. It takes no memory.
    pub fn left(&self) -> u64
        ensures { result ≡ length self.now.rest }
    {
        self.bytes.len() as u64
    }

    /// The allocator that it was made with.
    pub fn alloc(&self) -> Global {
        self.alloc
    }

    /// The bytes that were fed and not taken. It takes no memory.
    pub fn rest(&self) -> &[u8]
        ensures { result.now ≡ self.now.rest }
    {
        self.bytes.as_slice()
    }

    /// Where in the stream they begin, stopping at 2^64-1. It takes no memory.
    pub fn place(&self) -> u64
        ensures { result ≡ self.now.place }
    {
        self.place
    }

    /// Takes so many of them off the front. It takes no memory. A buffer of more than 256 KiB is given back
    /// once all its bytes are taken.
    pub fn take(&mut self, taken: usize)
        requires { taken ≤ length self.old.rest }
        ensures { self.new ≡ past self.old taken }
    {
        self.bytes.advance(taken);
        self.place = self.place.saturating_add(taken as u64);
        self.give_up();
    }

    // Gives a large buffer back where all its bytes are taken.
    fn give_up(&mut self)
        ensures { self.new ≡ self.old }
    {
        if self.bytes.is_empty() && self.bytes.capacity() > KEPT {
            self.bytes = BytesMut::new(self.alloc);
        }
    }
}
