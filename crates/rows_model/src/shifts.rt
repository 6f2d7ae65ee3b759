ghost use Rattle.std.specs.Prelude.{◌≡◌};
ghost use Rattle.rows_model.specs.Shift.{moved_by, shifted, NumbersAreDecimal};

use crate::numbers::number_of;

/// The number that `old` is, plus `by`: it wraps at 2^64 upwards and stops at 0 downwards. It is
/// `None` exactly where `old` is no number below 2^64 in decimal, without sign or leading zero. It
/// takes no memory.
pub fn shift(old: &[u8], by: i32) -> Option<u64>
    ensures { result ≡ shifted old.now by }
{
    Some(moved(number_of(old)?, by))
}

/// What `shift` takes for a number is just what `decimal` writes of one below 2^64.
pub fn numbers_are_decimal()
    ensures { NumbersAreDecimal }
{}

// A number plus `by`.
fn moved(number: u64, by: i32) -> u64
    ensures { result ≡ moved_by by number }
{
    let step = u64::from(by.unsigned_abs());
    if by < 0 {
        number.saturating_sub(step)
    } else {
        number.wrapping_add(step)
    }
}
