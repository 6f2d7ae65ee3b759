ghost use Rattle.std.specs.Prelude.{◌≡◌, ◌+◌, ◌<◌, ◌≤◌, ℕ, true, false, [], length, IfOk, IfErr, OnOk};
ghost use Rattle.mixed_lines.specs.Items.{IsOpen};
ghost use Rattle.session_client.specs.Desks.{one_more};
ghost use Rattle.conn_server.specs.Answers.{GivenUp};
ghost use Rattle.conn_server.specs.Course.{Start, Course, Ending, DeskSide, desk_side, moment, GoesOn, ReadsOn, EndsFrom, IsUnserved, Tells, TellsPlain, Shuts};
ghost use Rattle.conn_server.specs.Outbox.{Finishes};
ghost use Rattle.conn_server.specs.Outgoing.{bad_line_response, frame_response};
ghost use Rattle.conn_server.specs.Service.{IsServed, CountsReads, CountsWrites};
ghost use Rattle.conn_server.specs.declared.ends.LineEnd.TheVariants as ends;

use crate::clients::Client;
use crate::ends::LineEnd;
use crate::outbox::Outbox;
use crate::outgoing::{Response, reply_to, told_of};
use iq_outside::{Failed, Line};
use mc_text::{Command, FrameFault, Framer, LineReply, PlainSaid};
use mixed_lines::{Said, next_lookup, next_said};
use plain_ops::PlainDesk;
use rows_model::Memory;
use session_client::Desk;
use std::alloc::Global;

/// How many commands one connection is answered at most.
const BUDGET: u32 = 1_000_000;

/// The most bytes that one read is asked for.
const PIECE: usize = 65536;

/// More reads than one connection has: each gives a byte, and a command has at most 1,050,628, with its
/// line, its block and the ends of both.
const MORE_READS: u64 = 1_050_628_000_001;

/// A connection that is served.
struct Serving {
    framer: Framer,
    /// What waits to be written.
    out: Outbox,
    client: Client,
    /// How many commands were answered.
    count: u32,
}

/// Serves one connection to its end. Its bytes are read as commands. Each lease command is answered by
/// the desk, each plain one by the plain desk, or by an error. The desk takes a step of its sweep behind
/// each, and the replies are written in their order. A plain command that ends with `noreply` and is of
/// its verb's form is carried out, and nothing is written of it. What is due is written before each read,
/// so no reply waits for further input. Never more than 64 KiB and one item or one other reply wait to be
/// written.
///
/// At every end the client's session is given up: one that writes and hasn't committed is ended at the
/// store, and then its grants are released, which takes no memory. Only then are the last replies
/// written, so a client that doesn't read them holds nothing. The line isn't closed by that.
///
/// A read or a write that fails ends the connection, and so does a lack of memory, of which it is
/// told nothing. A lasting fault of the input is told the client.
pub fn serve_line<L: Line, D: Desk, P: PlainDesk>(
    alloc: Global,
    line: &mut L,
    desk: &mut D,
    plain: &mut P,
) -> LineEnd
    ensures served { IsServed (L.read_side line.old) (L.read_side line.new) (L.write_side line.old)
        (L.write_side line.new) (D.record_of desk.old) (D.record_of desk.new)
        (P.record_of plain.old) (P.record_of plain.new) (D.tends desk.old) (D.tends desk.new)
        result }
    ensures reads { CountsReads result (L.Source.faults line.old) (L.Source.faults line.new) }
    ensures writes { CountsWrites result (L.Sink.faults line.old) (L.Sink.faults line.new) }
    ensures reads_never_fall { L.Source.faults line.old ≤ L.Source.faults line.new }
    ensures writes_never_fall { L.Sink.faults line.old ≤ L.Sink.faults line.new }
{
    match Serving::new(alloc) {
        Ok(mut serving) => {
            let end = serving.serve(line, desk, plain);
            serving.finish(line, desk, end)
        }
        Err(Memory) => LineEnd::Memory,
    }
}

impl Serving {
    /// A connection on which nothing was done yet.
    fn new(alloc: Global) -> Result<Serving, Memory>
        ensures { IfOk result (λ serving. IsUnserved serving) }
    {
        Ok(Serving {
            framer: Framer::new(alloc),
            out: Outbox::new(alloc),
            client: Client::new(alloc)?,
            count: 0,
        })
    }

    /// Reads and answers until the connection ends, and tells how. Some replies may still wait.
    fn serve<L: Line, D: Desk, P: PlainDesk>(
        &mut self,
        line: &mut L,
        desk: &mut D,
        plain: &mut P,
    ) -> LineEnd
        requires { IsUnserved self.old }
        ensures ends { Ending result (record {
          reads = L.read_side line.old;
          writes = L.write_side line.old;
          desk = desk_side D.record_of D.tends P.record_of desk.old plain.old;
        }) (L.read_side line.new) (L.write_side line.new)
            (desk_side D.record_of D.tends P.record_of desk.new plain.new) self.new }
    {
        let mut room = [0u8; PIECE];
        for _ in 0..MORE_READS {
            match self.go_on(line, desk, plain, &mut room) {
                Ok(()) => {}
                Err(end) => return end,
            }
        }
        unreachable!()
    }

    /// Answers what stands to be answered, writes what is due, and reads once.
    fn go_on<L: Line, D: Desk, P: PlainDesk>(
        &mut self,
        line: &mut L,
        desk: &mut D,
        plain: &mut P,
        room: &mut [u8],
    ) -> Result<(), LineEnd>
        requires within { self.old.count < 1000000 }
        requires room { 0 < length room.old }
        ensures within { OnOk result (self.new.count < 1000000) }
        ensures goes_on { OnOk result (ReadsOn
            (moment L.read_side L.write_side D.record_of D.tends P.record_of
            line.old desk.old plain.old self.old)
            (moment L.read_side L.write_side D.record_of D.tends P.record_of
            line.new desk.new plain.new self.new)) }
        ensures ends { IfErr result (EndsFrom
            (moment L.read_side L.write_side D.record_of D.tends P.record_of
            line.old desk.old plain.old self.old)
            (moment L.read_side L.write_side D.record_of D.tends P.record_of
            line.new desk.new plain.new self.new)) }
    {
        self.answer_all(line, desk, plain)?;
        self.out.flush(line, &self.framer)?;
        self.read_more(line, room)
    }

    /// Answers the whole commands that were read, as far as the budget lasts.
    fn answer_all<L: Line, D: Desk, P: PlainDesk>(
        &mut self,
        line: &mut L,
        desk: &mut D,
        plain: &mut P,
    ) -> Result<(), LineEnd>
        requires within { self.old.count < 1000000 }
        ensures within { OnOk result (self.new.count < 1000000) }
        ensures stops { OnOk result (IsOpen self.new.framer.rest) }
        ensures goes_on { OnOk result (GoesOn
            (moment L.read_side L.write_side D.record_of D.tends P.record_of
            line.old desk.old plain.old self.old)
            (moment L.read_side L.write_side D.record_of D.tends P.record_of
            line.new desk.new plain.new self.new)) }
        ensures ends { IfErr result (EndsFrom
            (moment L.read_side L.write_side D.record_of D.tends P.record_of
            line.old desk.old plain.old self.old)
            (moment L.read_side L.write_side D.record_of D.tends P.record_of
            line.new desk.new plain.new self.new)) }
    {
        loop {
            if !self.answer_next(line, desk, plain)? {
                return Ok(());
            }
        }
    }

    /// Answers the command that stands next, and tells whether a whole one did. A lookup is looked for by
    /// itself, since most commands are lookups.
    fn answer_next<L: Line, D: Desk, P: PlainDesk>(
        &mut self,
        line: &mut L,
        desk: &mut D,
        plain: &mut P,
    ) -> Result<bool, LineEnd>
        requires within { self.old.count < 1000000 }
        ensures within { OnOk result (self.new.count < 1000000) }
        ensures counts { result ≡ Ok true → self.new.count ≡ self.old.count + 1 }
        ensures stops { result ≡ Ok false → IsOpen self.new.framer.rest }
        ensures goes_on { OnOk result (GoesOn
            (moment L.read_side L.write_side D.record_of D.tends P.record_of
            line.old desk.old plain.old self.old)
            (moment L.read_side L.write_side D.record_of D.tends P.record_of
            line.new desk.new plain.new self.new)) }
        ensures ends { IfErr result (EndsFrom
            (moment L.read_side L.write_side D.record_of D.tends P.record_of
            line.old desk.old plain.old self.old)
            (moment L.read_side L.write_side D.record_of D.tends P.record_of
            line.new desk.new plain.new self.new)) }
    {
        match next_lookup(&mut self.framer) {
            Some(command) => {
                let reply = self.client.answer(desk, command);
                self.tell(line, desk, Response::Lease { reply })
            }
            None => self.answer_any(line, desk, plain),
        }
    }

    /// Answers the command that stands next, whichever it is, and tells whether a whole one did. It is a
    /// function of its own, since what it keeps for the rare commands costs the lookups time.
    #[inline(never)]
    fn answer_any<L: Line, D: Desk, P: PlainDesk>(
        &mut self,
        line: &mut L,
        desk: &mut D,
        plain: &mut P,
    ) -> Result<bool, LineEnd>
        requires within { self.old.count < 1000000 }
        ensures within { OnOk result (self.new.count < 1000000) }
        ensures counts { result ≡ Ok true → self.new.count ≡ self.old.count + 1 }
        ensures stops { result ≡ Ok false → IsOpen self.new.framer.rest }
        ensures goes_on { OnOk result (GoesOn
            (moment L.read_side L.write_side D.record_of D.tends P.record_of
            line.old desk.old plain.old self.old)
            (moment L.read_side L.write_side D.record_of D.tends P.record_of
            line.new desk.new plain.new self.new)) }
        ensures ends { IfErr result (EndsFrom
            (moment L.read_side L.write_side D.record_of D.tends P.record_of
            line.old desk.old plain.old self.old)
            (moment L.read_side L.write_side D.record_of D.tends P.record_of
            line.new desk.new plain.new self.new)) }
    {
        let next = next_said(&mut self.framer);
        match next {
            Ok(
                Some(
                    Said::Lease {
                        command: Command::Quit,
                    },
                ),
            ) => Err(LineEnd::Quit),
            Ok(Some(Said::Lease { command })) => {
                let reply = self.client.answer(desk, command);
                self.tell(line, desk, Response::Lease { reply })
            }
            Ok(Some(Said::Plain { said, noreply })) => {
                self.answer_plain(line, desk, plain, &said, noreply)
            }
            Ok(None) => Ok(false),
            Err(fault) => match fault {
                FrameFault::BadLine { place: _ } => self.answer_bad_line(line, desk),
                FrameFault::LongLine { place: _ }
                | FrameFault::BadBlock { place: _ }
                | FrameFault::BigBlock { place: _ } => Err(self.shut(line, fault)),
                FrameFault::Memory => Err(LineEnd::Memory),
            },
        }
    }

    /// Answers a plain command.
    fn answer_plain<L: Line, D: Desk, P: PlainDesk>(
        &mut self,
        line: &mut L,
        desk: &mut D,
        plain: &mut P,
        said: &PlainSaid,
        noreply: bool,
    ) -> Result<bool, LineEnd>
        requires { self.old.count < 1000000 }
        ensures tells { TellsPlain result said.now noreply (P.record_of plain.old)
            (P.record_of plain.new) (L.write_side line.old) (L.write_side line.new) self.old.out self.new }
        ensures keeps_reading { L.read_side line.new ≡ L.read_side line.old }
        ensures framer { self.new.framer ≡ self.old.framer }
        ensures client { self.new.client ≡ self.old.client }
        ensures counts { self.new.count ≡ self.old.count + 1 }
        ensures asks_nothing { D.record_of desk.new ≡ D.record_of desk.old }
        ensures tended { D.tends desk.new ≡ one_more (D.tends desk.old) }
    {
        let reply = reply_to(plain, said);
        self.tell(line, desk, Response::Plain { reply, noreply })
    }

    /// Answers a line that isn't of its verb's form.
    fn answer_bad_line<L: Line, D: Desk>(
        &mut self,
        line: &mut L,
        desk: &mut D,
    ) -> Result<bool, LineEnd>
        requires { self.old.count < 1000000 }
        ensures tells { Tells result bad_line_response (L.write_side line.old) (L.write_side line.new)
            self.old.out self.new }
        ensures keeps_reading { L.read_side line.new ≡ L.read_side line.old }
        ensures framer { self.new.framer ≡ self.old.framer }
        ensures client { self.new.client ≡ self.old.client }
        ensures counts { self.new.count ≡ self.old.count + 1 }
        ensures asks_nothing { D.record_of desk.new ≡ D.record_of desk.old }
        ensures tended { D.tends desk.new ≡ one_more (D.tends desk.old) }
    {
        let reply = LineReply::BadLine;
        self.tell(line, desk, Response::Lease { reply })
    }

    /// Counts a command that was answered, lets the desk take a step of its sweep, and puts what is told
    /// behind what waits.
    #[inline(always)]
    fn tell<L: Line, D: Desk>(
        &mut self,
        line: &mut L,
        desk: &mut D,
        response: Response,
    ) -> Result<bool, LineEnd>
        requires { self.old.count < 1000000 }
        ensures tells { Tells result response (L.write_side line.old) (L.write_side line.new)
            self.old.out self.new }
        ensures keeps_reading { L.read_side line.new ≡ L.read_side line.old }
        ensures framer { self.new.framer ≡ self.old.framer }
        ensures client { self.new.client ≡ self.old.client }
        ensures counts { self.new.count ≡ self.old.count + 1 }
        ensures asks_nothing { D.record_of desk.new ≡ D.record_of desk.old }
        ensures tended { D.tends desk.new ≡ one_more (D.tends desk.old) }
    {
        desk.tend();
        self.count += 1;
        self.out.tell(line, &response)?;
        if self.count == BUDGET {
            return Err(LineEnd::Budget);
        }
        Ok(true)
    }

    /// Puts what is told of a fault that lasts behind what waits, and tells the end.
    fn shut<L: Line>(&mut self, line: &mut L, fault: FrameFault) -> LineEnd
        ensures shuts { Shuts result fault (frame_response fault) (L.write_side line.old)
            (L.write_side line.new) self.old.out self.new.out }
        ensures keeps_reading { L.read_side line.new ≡ L.read_side line.old }
        ensures framer { self.new.framer ≡ self.old.framer }
        ensures client { self.new.client ≡ self.old.client }
    {
        match self.out.tell(line, &told_of(fault)) {
            Ok(()) => LineEnd::Shut { fault },
            Err(end) => end,
        }
    }

    /// Reads once. Nothing whole stands in what was read before, and nothing to be written.
    fn read_more<L: Line>(&mut self, line: &mut L, room: &mut [u8]) -> Result<(), LineEnd>
        requires room { 0 < length room.old }
        requires stops { IsOpen self.old.framer.rest }
        requires written { self.old.out ≡ [] }
        ensures count { OnOk result (self.new.count ≡ self.old.count) }
        ensures goes_on { OnOk result ((start : Start) (rounds : ℕ) (desk : DeskSide) →
            Course start rounds (L.read_side line.old) (L.write_side line.old) desk self.old →
            Course start (rounds + 1) (L.read_side line.new) (L.write_side line.new) desk
            self.new) }
        ensures ends { IfErr result (λ end. (start : Start) (rounds : ℕ) (desk : DeskSide) →
            Course start rounds (L.read_side line.old) (L.write_side line.old) desk self.old →
            Ending end start (L.read_side line.new) (L.write_side line.new) desk self.new) }
    {
        match line.read(room) {
            Ok(0) => Err(LineEnd::Closed {
                left: self.framer.left(),
            }),
            Ok(given) => match self.framer.feed(&room[..given]) {
                Ok(()) => Ok(()),
                Err(Memory) => Err(LineEnd::Memory),
            },
            Err(Failed) => Err(LineEnd::ReadFault),
        }
    }

    /// Gives the client's session up, writes what stands to be written, and tells the end: a fault of
    /// that write where it failed. So a client that doesn't read holds nothing meanwhile.
    fn finish<L: Line, D: Desk>(self, line: &mut L, desk: &mut D, end: LineEnd) -> LineEnd
        ensures keeps_reading { L.read_side line.new ≡ L.read_side line.old }
        ensures finishes { Finishes end result (L.write_side line.old) (L.write_side line.new)
            self.out }
        ensures given_up { GivenUp (D.record_of desk.old) (D.record_of desk.new) self.client }
        ensures untended { D.tends desk.new ≡ D.tends desk.old }
    {
        let Serving {
            framer: _,
            out,
            client,
            count: _,
        } = self;
        let gone = client.leave(desk);
        out.flush_last(line, gone, end)
    }
}
