// A lookup that stands first in a stream. Most commands are lookups, so they are looked for by themselves.
ghost use Rattle.std.specs.Prelude.{◌≡◌, Some, IfSome, IfNone};
ghost use Rattle.mc_text.specs.Commands.{verb_of};
ghost use Rattle.mc_text.specs.declared.verb_words.LeaseVerb.TheVariants.{IqGet};
ghost use Rattle.mixed_lines.specs.Items.{command, IsFirst};
ghost use Rattle.mixed_lines.specs.Fronts.{Takes};

use mc_text::{Command, Framer, lookup_front};

/// The lookup that stands next in the bytes that a framer was fed, which is taken: the same that
/// `next_said` reads there. Where it tells `None`, all is as before, and `next_said` tells what stands
/// there. It takes no memory.
#[inline(always)]
pub fn next_lookup(framer: &mut Framer) -> Option<Command>
    ensures takes { IfSome result (λ said. Takes framer.old (command said) framer.new) }
    ensures looks_up { IfSome result (λ said. verb_of said ≡ Some IqGet) }
    ensures none { IfNone result (framer.new ≡ framer.old) }
{
    let (said, taken) = lookup_first(framer.rest())?;
    framer.take(taken);
    Some(said)
}

/// The lookup that stands first in a stream, and how many bytes it takes.
#[inline(always)]
fn lookup_first(stream: &[u8]) -> Option<(Command, usize)>
    ensures stands { IfSome result (λ read. IsFirst stream.now (command read.0) read.1) }
    ensures looks_up { IfSome result (λ read. verb_of read.0 ≡ Some IqGet) }
{
    let (said, taken) = lookup_front(stream)?;
    Some((said, taken))
}
