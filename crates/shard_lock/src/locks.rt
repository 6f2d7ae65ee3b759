//! Threads that wait for ever, and the tokens that tell which shard lies under which lock.
ghost use Rattle.std.specs.Prelude.{◌≡◌, ◌+◌, ◌^◌, ◌<◌, ◌≤◌};
ghost use Rattle.shard_lock.specs.Names.{IsTokenOf};

use std::sync::Wait;
use std::sync::ledger::{Book, Ledger, Share};

/// Never returns.
pub fn wait_for_ever<R: Wait>(rt: &R)
    ensures { ⊥ }
{
    for _ in rt.forever() {}
    unreachable!()
}

/// A token for the shard of this number. It is one of the parts that are left.
pub fn token_of<H: Ledger>(book: &mut Book<H>, rest: &mut Share<H>, no: u32) -> Share<H>
    requires few { no < 64 }
    requires some { 1 ≤ rest.old.parts }
    requires bare { rest.old.amount ≡ 0 }
    ensures token { IsTokenOf no result.parts result.amount }
    ensures parts { rest.new.parts + 1 ≡ rest.old.parts }
    ensures bare { rest.new.amount ≡ 0 }
    ensures total { book.new.total ≡ book.old.total + 2 ^ no }
{
    let mut token = rest.split_off(1, 0);
    book.add(&mut token, 2u64.pow(no));
    token
}
