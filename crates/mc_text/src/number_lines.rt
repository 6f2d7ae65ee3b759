// The numbers in the first line of a value. Room is asked for once for all of them, and they are written
// within it.
ghost use Rattle.std.specs.Prelude.{◌≡◌, ◌+◌, ◌≤◌, ◌<◌, ◌++◌, ◌∷◌, [], length, take, decimal, codes, OnOk, OnErr};
ghost use Rattle.mc_text.specs.Replies.{line};
ghost use Rattle.mc_text.specs.ReplyParts.{numbers_text, Writes};

use itoa::Buffer;
use std::alloc::AllocError;

/// The most bytes of three numbers below 2^64 with what stands between and behind them, and some more.
const ROOM: usize = 72;

/// Writes the id of a key, the flags of its value, which are 0, the length and the stamp of the value, and
/// the end of the line.
#[inline(always)]
pub(crate) fn push_numbers(
    out: &mut Vec<u8>,
    id: u32,
    len: usize,
    stamp: u64,
) -> Result<(), AllocError>
    ensures ok { OnOk result (out.new.items ≡ out.old.items ++ numbers_text id len stamp) }
    ensures err { OnErr result (out.new.items ≡ out.old.items) }
{
    let before = out.len();
    out.extend_from_slice(&[0u8; ROOM])?;
    let end = write_numbers(out.as_mut_slice(), before, id, len, stamp);
    out.truncate(end);
    Ok(())
}

// Writes them from this place on, and tells where they end.
#[inline(always)]
fn write_numbers(room: &mut [u8], from: usize, id: u32, len: usize, stamp: u64) -> usize
    requires { from + 72 ≤ length room.old }
    ensures { Writes room.old from (numbers_text id len stamp) room.new result }
{
    let to = write_decimal(room, from, u64::from(id));
    let to = write_byte(room, to, b' ');
    let to = write_byte(room, to, b'0');
    let to = write_byte(room, to, b' ');
    let to = write_decimal(room, to, len as u64);
    let to = write_byte(room, to, b' ');
    let to = write_decimal(room, to, stamp);
    let to = write_byte(room, to, b'\r');
    write_byte(room, to, b'\n')
}

#[inline(always)]
fn write_byte(room: &mut [u8], at: usize, byte: u8) -> usize
    requires { at < length room.old }
    ensures { Writes room.old at (byte ∷ []) room.new result }
{
    room[at] = byte;
    at + 1
}

// A number in decimal.
#[inline(always)]
fn write_decimal(room: &mut [u8], at: usize, number: u64) -> usize
    requires { at + 20 ≤ length room.old }
    ensures writes { Writes room.old at (decimal number) room.new result }
    ensures short { result ≤ at + 20 }
{
    if number < 10 {
        return write_byte(room, at, b'0' + number as u8);
    }
    if number < 100 {
        let to = write_byte(room, at, b'0' + (number / 10) as u8);
        return write_byte(room, to, b'0' + (number % 10) as u8);
    }
    write_long_decimal(room, at, number)
}

// The same. It is a function of its own, since its buffer costs the short ones time.
#[inline(never)]
fn write_long_decimal(room: &mut [u8], at: usize, number: u64) -> usize
    requires { at + 20 ≤ length room.old }
    ensures writes { Writes room.old at (decimal number) room.new result }
    ensures short { result ≤ at + 20 }
{
    let mut buffer = Buffer::new();
    let text = buffer.format(number).as_bytes();
    let to = at + text.len();
    room[at..to].copy_from_slice(text);
    to
}
