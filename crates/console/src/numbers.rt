// A number argument: decimal digits, or hex digits after `0x`.
ghost use Rattle.std.specs.Prelude.{◌≡◌};
ghost use Rattle.console.specs.Numbers.{number_fault, number_of};

use crate::digits;
use crate::digits::DigitsFault;

#[derive(Clone, Copy)]
pub enum NumberFault {
    NotANumber,
    TooLarge,
}

impl From<DigitsFault> for NumberFault {
    ghost from_gives = { λ fault r. r ≡ number_fault fault };

    fn from(fault: DigitsFault) -> NumberFault {
        match fault {
            DigitsFault::NoDigits | DigitsFault::NotADigit(_) => NumberFault::NotANumber,
            DigitsFault::TooLarge => NumberFault::TooLarge,
        }
    }
}

pub fn parse_number(text: &[u8]) -> Result<u64, NumberFault>
    ensures { result ≡ number_of text.now }
{
    let number = match digits::after_hex_mark(text) {
        Some(hex) => digits::parse(16, hex),
        None => digits::parse(10, text),
    };
    Ok(number?)
}
