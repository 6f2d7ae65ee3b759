ghost use Rattle.std.specs.Prelude.{◌≡◌};
ghost use Rattle.mc_text.specs.PlainNumbers.{plain_number};

use crate::numbers::number_of;

/// The number below 2^64 that the bytes are: 1 to 20 digits, with zeros in front or without.
pub fn plain_number(bytes: &[u8]) -> Option<u64>
    ensures { result ≡ plain_number bytes.now }
{
    number_of(bytes)
}
