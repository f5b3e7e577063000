// A number in the digits of a base.
ghost use Rattle.std.specs.Prelude.{◌≡◌};
ghost use Rattle.std.specs.Char.{digit_value};
ghost use Rattle.std.specs.Option.{option_map};
ghost use Rattle.console.specs.Digits.{first_stranger, value64, parsed, after_mark};

#[derive(Clone, Copy)]
pub enum DigitsFault {
    NoDigits,
    // the first byte that is no digit
    NotADigit(u8),
    // more than 64 bits hold
    TooLarge,
}

// 36 for a byte that is no digit of any base. `to_digit(radix)` would ask for a base from 2 to 36.
fn digit_value(byte: u8) -> u32
    ensures { result ≡ digit_value byte }
{
    char::from(byte).to_digit(36).unwrap_or(36)
}

pub(crate) fn first_stranger(radix: u32, digits: &[u8]) -> Option<u8>
    ensures { result ≡ first_stranger radix digits.now }
{
    digits
        .iter()
        .copied()
        .find(|byte| digit_value(*byte) >= radix)
}

// None where 64 bits do not hold the value. `u64::from_str_radix` takes a str, and these are bytes.
fn value(radix: u32, digits: &[u8]) -> Option<u64>
    ensures { result ≡ value64 radix digits.now }
{
    let mut total = 0u64;
    for byte in digits {
        let shifted = total.checked_mul(u64::from(radix))?;
        total = shifted.checked_add(u64::from(digit_value(*byte)))?;
    }
    Some(total)
}

// One digit or more, and nothing else.
pub(crate) fn parse(radix: u32, text: &[u8]) -> Result<u64, DigitsFault>
    ensures { result ≡ parsed radix text.now }
{
    if text.is_empty() {
        return Err(DigitsFault::NoDigits);
    }
    if let Some(byte) = first_stranger(radix, text) {
        return Err(DigitsFault::NotADigit(byte));
    }
    value(radix, text).ok_or(DigitsFault::TooLarge)
}

// What stands after `0x`, or None for a text without it.
pub(crate) fn after_hex_mark(text: &[u8]) -> Option<&[u8]>
    ensures { option_map (λ x. x.now) result ≡ after_mark text.now }
{
    text.strip_prefix(b"0x".as_slice())
}
