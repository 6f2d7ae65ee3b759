// The commands of a stream, lease commands and plain ones.
ghost use Rattle.std.specs.Prelude.{◌≡◌, true};
ghost use Rattle.mixed_lines.specs.Items.{IsOpen};
ghost use Rattle.mixed_lines.specs.Fronts.{Reads};

use crate::fronts::{MixedFront, mixed_front};
use mc_text::{Command, FrameFault, Framer, PlainSaid};
use rows_model::Memory;

/// What stands next in a stream.
#[derive(Drop)]
pub enum Said {
    /// A lease command, `quit`, or what is no command.
    Lease { command: Command },
    /// A plain command, and whether no reply is wanted.
    Plain { said: PlainSaid, noreply: bool },
}

/// What stands next in the bytes that a framer was fed, which is taken; `None` exactly where no whole
/// command and no fault stands there, and then all is as before. A line that isn't of its verb's form is
/// a fault and is taken. The other faults of the bytes last. After want of memory all is as before.
pub fn next_said(framer: &mut Framer) -> Result<Option<Said>, FrameFault>
    ensures { Reads framer.old result framer.new }
{
    if is_spent(framer) {
        return Ok(None);
    }
    let place = framer.place();
    match mixed_front(framer.alloc(), framer.rest()) {
        Ok(MixedFront::Command { said, taken }) => {
            framer.take(taken);
            Ok(Some(said))
        }
        Ok(MixedFront::BadLine { taken }) => {
            framer.take(taken);
            Err(FrameFault::BadLine { place })
        }
        Ok(MixedFront::LongLine) => Err(FrameFault::LongLine { place }),
        Ok(MixedFront::BadBlock) => Err(FrameFault::BadBlock { place }),
        Ok(MixedFront::BigBlock) => Err(FrameFault::BigBlock { place }),
        Ok(MixedFront::Open) => Ok(None),
        Err(Memory) => Err(FrameFault::Memory),
    }
}

/// Whether all that a framer was fed is taken: nothing stands next then.
#[inline(always)]
fn is_spent(framer: &Framer) -> bool
    ensures { result ≡ true → IsOpen framer.now.rest }
{
    framer.rest().is_empty()
}
