ghost use Rattle.std.specs.Prelude.{◌≡◌, ◌++◌, List, IfOk, IfErr, IsTrue, IsFalse};
ghost use Rattle.shard_dump.specs.declared.rows.Dump.{Dump};
ghost use Rattle.shard_dump.specs.Texts.{dump_text, IsDumpText};
ghost use Rattle.cache_file.specs.Texts.{part_text, IsDumpOf, IsCacheText, IsNoCache, IsFaultOf};
ghost use Rattle.cache_file.specs.Reading.{IsBody, IsNoBody, HasNoDump, HasNoPart};

use crate::faults::CacheFault;
use crate::parts::{cut, part_of};
use crate::texts::head_of;
use shard_dump::{Dump, DumpFault, read_dump};
use std::alloc::Global;

/// The dumps of the cache of which this is the text, in the order of their shards' numbers. `Bad` comes
/// exactly where it is the text of no cache of so many shards.
pub fn read_cache(alloc: Global, text: &[u8], count: u32) -> Result<Vec<Dump>, CacheFault>
    ensures found { IfOk result (λ dumps. IsCacheText count text.now dumps.items) }
    ensures only { (dumps : List Dump) → IsCacheText count text.now dumps
        → IfOk result (λ read. read.items ≡ dumps) }
    ensures bad { IfErr result (IsFaultOf (IsNoCache count text.now)) }
{
    let Some((line, body)) = cut(text, b'\n') else {
        return Err(CacheFault::Bad);
    };
    let right = head_of(alloc, u64::from(count), body)?;
    if line != right.as_slice() {
        return Err(CacheFault::Bad);
    }
    dumps_in(alloc, body, count)
}

// The dumps in a body.
fn dumps_in(alloc: Global, body: &[u8], count: u32) -> Result<Vec<Dump>, CacheFault>
    ensures found { IfOk result (λ dumps. IsBody count body.now dumps.items) }
    ensures none { IfErr result (IsFaultOf (IsNoBody count body.now)) }
{
    let mut dumps = Vec::new(alloc);
    let mut rest = body;
    while dumps.len() < count as usize {
        match next_dump(alloc, rest, count, dumps.len() as u32) {
            Ok((dump, more)) => {
                dumps.reserve(1)?;
                dumps.push_reserved(dump);
                rest = more;
            }
            Err(fault) => return Err(fault),
        }
    }
    if !rest.is_empty() {
        return Err(CacheFault::Bad);
    }
    Ok(dumps)
}

// The dump of this shard whose part stands in front, and what stands behind it.
fn next_dump(
    alloc: Global,
    text: &[u8],
    count: u32,
    shard: u32,
) -> Result<(Dump, &[u8]), CacheFault>
    ensures found { IfOk result
        (λ read. text.now ≡ part_text (dump_text read.0) ++ read.1.now) }
    ensures right { IfOk result (λ read. IsDumpOf count shard read.0) }
    ensures none { IfErr result (IsFaultOf (HasNoPart count shard text.now)) }
{
    let Some((part, rest)) = part_of(text) else {
        return Err(CacheFault::Bad);
    };
    let dump = dump_in(alloc, part)?;
    if !is_of(&dump, count, shard) {
        return Err(CacheFault::Bad);
    }
    Ok((dump, rest))
}

// The dump of which this is the text.
fn dump_in(alloc: Global, text: &[u8]) -> Result<Dump, CacheFault>
    ensures found { IfOk result (λ dump. IsDumpText text.now dump) }
    ensures none { IfErr result (IsFaultOf (HasNoDump text.now)) }
{
    match read_dump(alloc, text) {
        Ok(dump) => Ok(dump),
        Err(DumpFault::Bad { place: _ }) => Err(CacheFault::Bad),
        Err(DumpFault::Memory) => Err(CacheFault::Memory),
    }
}

// Whether the dump says that it is one of this shard, out of so many.
fn is_of(dump: &Dump, count: u32, shard: u32) -> bool
    ensures yes { IsTrue result → (dump.now.shard ≡ shard) × (dump.now.count ≡ count) }
    ensures no { IsFalse result → dump.now.shard ≡ shard → dump.now.count ≡ count → ⊥ }
{
    dump.shard == shard && dump.count == count
}
