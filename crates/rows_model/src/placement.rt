ghost use Rattle.std.specs.Prelude.{◌≡◌, ◌≤◌};
ghost use Rattle.rows_model.specs.Placement.{hash_from, shard_of, start_of};

use crate::keys::{Kind, QKey};
use itoa::Buffer;

const PRIME: u64 = 1_099_511_628_211;

/// The number, from 0, of the shard that holds the key, of `count` shards: the hash FNV-1a of 64 bits of
/// the key's text, divided by `count`, leaves it. It takes no memory.
pub fn shard_number(key: &QKey, count: u32) -> u32
    requires { 1 ≤ count }
    ensures { result ≡ shard_of key.now count }
{
    let mut buffer = Buffer::new();
    let digits = buffer.format(key.id).as_bytes();
    (hashed(start(key.kind), digits) % u64::from(count)) as u32
}

/// The hash of what stands before the id in the text of each key of this kind: its word and a colon.
fn start(kind: Kind) -> u64
    ensures { result ≡ start_of kind }
{
    match kind {
        Kind::Profile => 9_331_912_662_583_536_476,
        Kind::Friends => 12_945_487_164_160_301_856,
        Kind::Pending => 9_607_113_928_443_994_674,
        Kind::NFriends => 11_995_501_937_037_708_780,
        Kind::NPending => 5_345_896_264_207_999_222,
        Kind::Blocked => 2_810_848_433_054_192_715,
    }
}

/// A hash after these bytes.
fn hashed(hash: u64, bytes: &[u8]) -> u64
    ensures { result ≡ hash_from hash bytes.now }
{
    let mut hash = hash;
    for byte in bytes {
        hash = (hash ^ u64::from(*byte)).wrapping_mul(PRIME);
    }
    hash
}
