ghost use Rattle.std.specs.Prelude.{◌≡◌, ◌++◌, ◌<◌, [], length, OnOk};
ghost use Rattle.mc_text.specs.PlainReplies.{item_text, items_text};
ghost use Rattle.mixed_lines.specs.Items.{IsOpen};
ghost use Rattle.conn_server.specs.Closing.{HoldsNothing};
ghost use Rattle.conn_server.specs.Outgoing.{response_text, end_text, HasNoItem};
ghost use Rattle.conn_server.specs.Outbox.{Puts, Flushes, Finishes};

use crate::closing::Gone;
use crate::ends::LineEnd;
use crate::outgoing::{Response, write_end, write_response};
use iq_outside::{Line, write_all};
use mc_text::{Found, Framer, PlainReply, write_found};
use rows_model::Memory;
use std::alloc::Global;
use std::marker::Model;

/// What waits is sent before more is put behind it, once it has so many bytes.
const FULL: usize = 65536;

/// The most bytes for which room is kept once what waited is sent.
const KEPT: usize = 262_144;

/// What waits to be written to a line. Contracts see the bytes.
///
/// What is told goes into it piece by piece: each item that was found is one, and what is told of no item
/// is one. Before each piece what waits is sent where it has 64 KiB. So fewer bytes than that wait, and
/// then one piece at most, however long a reply is.
#[derive(Drop)]
pub struct Outbox {
    bytes: Vec<u8>,
}

impl Model for Outbox {
    ghost use Rattle.std.specs.Prelude.{List, ℕ};
    ghost use Rattle.conn_server.specs.Outbox.{WaitsFew};

    ghost Value = { List ℕ };

    ghost view = { λ o. o.bytes.items };

    ghost invariant = { λ o. WaitsFew o.bytes.items };
}

impl Outbox {
    /// One in which nothing waits. It takes no memory.
    pub(crate) fn new(alloc: Global) -> Outbox
        ensures { result ≡ [] }
    {
        Outbox {
            bytes: Vec::new(alloc),
        }
    }

    /// Puts what is told behind what waits. After an error a first part of both was sent or waits.
    #[inline(always)]
    pub(crate) fn tell<L: Line>(&mut self, line: &mut L, response: &Response) -> Result<(), LineEnd>
        ensures puts { Puts result (L.write_side line.old) (L.write_side line.new)
            (self.old ++ response_text response.now) self.new }
        ensures keeps_reading { L.read_side line.new ≡ L.read_side line.old }
    {
        match response {
            Response::Plain {
                reply,
                noreply: false,
            } => match reply {
                PlainReply::Values { found } => self.tell_items(line, found.items(), false),
                PlainReply::Uniques { found } => self.tell_items(line, found.items(), true),
                _ => self.tell_whole(line, response),
            },
            _ => self.tell_whole(line, response),
        }
    }

    /// Tells items that were found, with their uniques or without, and the line behind the last.
    fn tell_items<L: Line>(
        &mut self,
        line: &mut L,
        found: &[Found],
        is_told: bool,
    ) -> Result<(), LineEnd>
        ensures puts { Puts result (L.write_side line.old) (L.write_side line.new)
            (self.old ++ items_text is_told found.now) self.new }
        ensures keeps_reading { L.read_side line.new ≡ L.read_side line.old }
    {
        for item in found {
            self.tell_item(line, item, is_told)?;
        }
        self.tell_end(line)
    }

    /// Tells one of them.
    fn tell_item<L: Line>(
        &mut self,
        line: &mut L,
        item: &Found,
        is_told: bool,
    ) -> Result<(), LineEnd>
        ensures puts { Puts result (L.write_side line.old) (L.write_side line.new)
            (self.old ++ item_text is_told item.now) self.new }
        ensures keeps_reading { L.read_side line.new ≡ L.read_side line.old }
    {
        self.make_room(line)?;
        match write_found(&mut self.bytes, item, is_told) {
            Ok(()) => Ok(()),
            Err(Memory) => Err(LineEnd::Memory),
        }
    }

    /// Tells that no more items come.
    fn tell_end<L: Line>(&mut self, line: &mut L) -> Result<(), LineEnd>
        ensures puts { Puts result (L.write_side line.old) (L.write_side line.new)
            (self.old ++ end_text) self.new }
        ensures keeps_reading { L.read_side line.new ≡ L.read_side line.old }
    {
        self.make_room(line)?;
        match write_end(&mut self.bytes) {
            Ok(()) => Ok(()),
            Err(Memory) => Err(LineEnd::Memory),
        }
    }

    /// Tells what is told of no item.
    fn tell_whole<L: Line>(&mut self, line: &mut L, response: &Response) -> Result<(), LineEnd>
        requires no_item { HasNoItem response.now }
        ensures puts { Puts result (L.write_side line.old) (L.write_side line.new)
            (self.old ++ response_text response.now) self.new }
        ensures keeps_reading { L.read_side line.new ≡ L.read_side line.old }
    {
        self.make_room(line)?;
        match write_response(&mut self.bytes, response) {
            Ok(()) => Ok(()),
            Err(Memory) => Err(LineEnd::Memory),
        }
    }

    /// Sends what waits where it has 64 KiB.
    fn make_room<L: Line>(&mut self, line: &mut L) -> Result<(), LineEnd>
        ensures puts { Puts result (L.write_side line.old) (L.write_side line.new) self.old self.new }
        ensures room { OnOk result (length self.new < 65536) }
        ensures keeps_reading { L.read_side line.new ≡ L.read_side line.old }
    {
        if self.bytes.len() < FULL {
            return Ok(());
        }
        self.send(line)
    }

    /// Sends what waits before more is read. No whole command and no fault stands in what was read: the
    /// connection goes on. At its end what waits is sent by `flush_last` alone.
    pub(crate) fn flush<L: Line>(&mut self, line: &mut L, framer: &Framer) -> Result<(), LineEnd>
        requires goes_on { IsOpen framer.now.rest }
        ensures flushes { Flushes result (L.write_side line.old) (L.write_side line.new) self.old }
        ensures keeps_reading { L.read_side line.new ≡ L.read_side line.old }
        ensures none { self.new ≡ [] }
    {
        let _ = framer;
        self.send(line)
    }

    /// Sends what waits. After a write that failed, nothing waits either. Room for more than 256 KiB is given
    /// back.
    fn send<L: Line>(&mut self, line: &mut L) -> Result<(), LineEnd>
        ensures flushes { Flushes result (L.write_side line.old) (L.write_side line.new) self.old }
        ensures keeps_reading { L.read_side line.new ≡ L.read_side line.old }
        ensures none { self.new ≡ [] }
    {
        let written = write_all(line, &self.bytes);
        self.bytes.clear();
        self.bytes.shrink_to(KEPT);
        match written {
            Ok(()) => Ok(()),
            Err(_) => Err(LineEnd::WriteFault),
        }
    }

    /// Sends what waits at the end of a connection, whose client holds nothing any more. The end is the one
    /// that was due, or the fault of that write where it failed.
    pub(crate) fn flush_last<L: Line>(self, line: &mut L, gone: Gone, end: LineEnd) -> LineEnd
        requires holds_nothing { HoldsNothing gone.client }
        ensures finishes { Finishes end result (L.write_side line.old) (L.write_side line.new) self }
        ensures keeps_reading { L.read_side line.new ≡ L.read_side line.old }
    {
        gone.let_go();
        match write_all(line, &self.bytes) {
            Ok(()) => end,
            Err(_) => LineEnd::WriteFault,
        }
    }
}
