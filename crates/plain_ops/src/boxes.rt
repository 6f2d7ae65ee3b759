use crate::desks::PlainDesk;
use crate::maps::Plain;
use brief_lock::locked_soon;
use mc_text::{PlainCommand, PlainReply};
use std::sync::{Mutex, Wait};

/// How often a worker looks again for the lock that another has, before it sleeps.
const LOOKS: u32 = 256;

/// A plain map under one lock, for several workers.
#[derive(Drop)]
pub struct PlainBox {
    lock: Mutex<Plain>,
}

impl PlainBox {
    /// Puts the map under a lock. It takes no memory.
    pub fn new(plain: Plain) -> PlainBox {
        PlainBox {
            lock: Mutex::new(plain),
        }
    }

    /// A worker's own desk over the map. It takes no memory, and doesn't wait.
    pub fn desk<'a, R: Wait>(&'a self, rt: &'a R) -> PlainSeat<'a, R> {
        PlainSeat { rt, plain: self }
    }
}

/// A worker's desk over a plain map under a lock: each command takes the lock, is carried out and lets
/// go. It may wait. It doesn't tell a record.
#[derive(Drop)]
pub struct PlainSeat<'a, R: Wait> {
    rt: &'a R,
    plain: &'a PlainBox,
}

impl<'a, R: Wait> PlainDesk for PlainSeat<'a, R> {
    ghost use Rattle.std.specs.Prelude.{None};

    ghost record_of = { λ desk. None };

    fn plain(&mut self, command: &PlainCommand) -> PlainReply {
        locked_soon(self.rt, &self.plain.lock, LOOKS).plain(command)
    }
}
