// The text of a cache, written.
ghost use Rattle.std.specs.Prelude.{◌≡◌, ◌∷◌, ◌++◌, [], length, map, decimal, IfOk, OnOk};
ghost use Rattle.std.specs.List.{flat_map};
ghost use Rattle.cache_file.specs.Texts.{part_text, head_text, cache_text};

use hex::encode;
use itoa::Buffer;
use rows_model::Memory;
use sha2::{Digest, Sha256};
use std::alloc::{AllocError, Global};

/// The text of the cache whose shards have these dumps, each as text, in the order of their numbers.
pub fn cache_text(alloc: Global, texts: &[Vec<u8>]) -> Result<Vec<u8>, Memory>
    ensures { IfOk result
        (λ text. text.items ≡ cache_text (map (λ dump. dump.items) texts.now)) }
{
    let body = body_of(alloc, texts)?;
    let mut text = head_of(alloc, texts.len() as u64, body.as_slice())?;
    text.push(b'\n')?;
    text.extend_from_slice(body.as_slice())?;
    Ok(text)
}

/// The first line over a body of so many shards, without its LF.
pub(crate) fn head_of(alloc: Global, shards: u64, body: &[u8]) -> Result<Vec<u8>, Memory>
    ensures { IfOk result (λ line. line.items ≡ head_text shards body.now) }
{
    let mut line = Vec::from_slice(alloc, b"iqcache 1 ")?;
    push_number(&mut line, shards, b' ')?;
    let digest = encode(alloc, Sha256::digest(body))?;
    line.extend_from_slice(digest.as_bytes())?;
    Ok(line)
}

// The dumps, each with its length in front.
fn body_of(alloc: Global, texts: &[Vec<u8>]) -> Result<Vec<u8>, Memory>
    ensures { IfOk result
        (λ body. body.items ≡ flat_map (λ dump. part_text dump.items) texts.now) }
{
    let mut body = Vec::new(alloc);
    for dump in texts {
        push_part(&mut body, dump.as_slice())?;
    }
    Ok(body)
}

// Puts a dump behind the text, with its length in front.
fn push_part(text: &mut Vec<u8>, dump: &[u8]) -> Result<(), AllocError>
    ensures { OnOk result (text.new.items ≡ text.old.items ++ part_text dump.now) }
{
    push_number(text, dump.len() as u64, b'\n')?;
    text.extend_from_slice(dump)?;
    Ok(())
}

// Puts a number in decimal and a byte behind the text.
fn push_number(text: &mut Vec<u8>, number: u64, byte: u8) -> Result<(), AllocError>
    ensures { OnOk result (text.new.items ≡ text.old.items ++ decimal number ++ byte ∷ []) }
{
    let mut buffer = Buffer::new();
    text.extend_from_slice(buffer.format(number).as_bytes())?;
    text.push(byte)?;
    Ok(())
}
