// Numbers in decimal, as keys and answers write them.
ghost use Rattle.std.specs.Prelude.{◌≡◌, ◌++◌, decimal, OnOk, IfSome, IfNone};
ghost use Rattle.rows_model.specs.Number.{IsIdText, IsNoIdText};
ghost use Rattle.rows_model.specs.Shift.{number_in};

use itoa::Buffer;
use std::alloc::AllocError;
use std::str;

/// Puts the number in decimal behind the text.
pub(crate) fn push_decimal(text: &mut Vec<u8>, number: u64) -> Result<(), AllocError>
    ensures { OnOk result (text.new.items ≡ text.old.items ++ decimal number) }
{
    let mut buffer = Buffer::new();
    text.extend_from_slice(buffer.format(number).as_bytes())
}

/// The id of which these are the digits, with no sign and no leading zero.
pub(crate) fn id_of(digits: &[u8]) -> Option<u32>
    ensures found { IfSome result (λ id. IsIdText digits.now id) }
    ensures none { IfNone result (IsNoIdText digits.now) }
{
    let [b'1'..=b'9', ..] = digits else {
        return None;
    };
    let Ok(text) = str::from_utf8(digits) else {
        return None;
    };
    text.parse().ok()
}

/// The number below 2^64 that the text is, with no sign and no leading zero; `None` where it is none.
pub fn number_of(text: &[u8]) -> Option<u64>
    ensures { result ≡ number_in text.now }
{
    let [first, ..] = text else {
        return None;
    };
    if *first == b'0' {
        return if text.len() == 1 { Some(0) } else { None };
    }
    if !(b'1'..=b'9').contains(first) {
        return None;
    }
    let Ok(digits) = str::from_utf8(text) else {
        return None;
    };
    digits.parse().ok()
}
