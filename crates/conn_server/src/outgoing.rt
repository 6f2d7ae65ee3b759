// What a client is told, and what is written of it.
ghost use Rattle.std.specs.Prelude.{◌≡◌, ◌++◌, OnOk, OnErr};
ghost use Rattle.plain_ops.specs.Desks.{with_plain_calls};
ghost use Rattle.conn_server.specs.Outgoing.{response_text, end_text, IsPlainReply, plain_call, frame_response};

use mc_text::{FrameFault, LineReply, PlainReply, PlainSaid, write_plain_reply, write_reply};
use plain_ops::PlainDesk;
use rows_model::Memory;

/// What a client is told of a command.
#[derive(Drop)]
pub enum Response {
    /// A reply to a lease command or to what is none, or what is told of a fault.
    Lease { reply: LineReply },
    /// A reply to a plain command. It isn't written where none is wanted.
    Plain { reply: PlainReply, noreply: bool },
}

/// What a plain command is told: by the desk, or by an error.
pub(crate) fn reply_to<P: PlainDesk>(plain: &mut P, said: &PlainSaid) -> PlainReply
    ensures belongs { IsPlainReply said.now result }
    ensures recorded { P.record_of plain.new
        ≡ with_plain_calls (plain_call said.now result) (P.record_of plain.old) }
{
    match said {
        PlainSaid::Asks { command } => plain.plain(command),
        PlainSaid::QueryKey => PlainReply::QueryKey,
        PlainSaid::Exptime => PlainReply::Exptime,
    }
}

/// What a client is told of a fault of the input.
pub(crate) fn told_of(fault: FrameFault) -> Response
    ensures { result ≡ frame_response fault }
{
    let reply = match fault {
        FrameFault::BadLine { place: _ } => LineReply::BadLine,
        FrameFault::LongLine { place: _ } => LineReply::LongLine,
        FrameFault::BadBlock { place: _ } => LineReply::BadBlock,
        FrameFault::BigBlock { place: _ } => LineReply::BigBlock,
        FrameFault::Memory => LineReply::Memory,
    };
    Response::Lease { reply }
}

/// Writes that no more items come. After want of memory all is as before.
pub(crate) fn write_end(out: &mut Vec<u8>) -> Result<(), Memory>
    ensures ok { OnOk result (out.new.items ≡ out.old.items ++ end_text) }
    ensures err { OnErr result (out.new.items ≡ out.old.items) }
{
    out.extend_from_slice(b"END\r\n")?;
    Ok(())
}

/// Writes what is told behind what is to go out. After want of memory that is as before.
pub(crate) fn write_response(out: &mut Vec<u8>, response: &Response) -> Result<(), Memory>
    ensures ok { OnOk result (out.new.items ≡ out.old.items ++ response_text response.now) }
    ensures err { OnErr result (out.new.items ≡ out.old.items) }
{
    match response {
        Response::Lease { reply } => write_reply(out, reply),
        Response::Plain {
            reply: _,
            noreply: true,
        } => Ok(()),
        Response::Plain {
            reply,
            noreply: false,
        } => write_plain_reply(out, reply),
    }
}
