// An address argument: a number that 32 bits hold.
ghost use Rattle.std.specs.Prelude.{◌≡◌};
ghost use Rattle.options.specs.Addresses.{address_of};

use console::numbers::{NumberFault, parse_number};

pub fn parse_address(text: &[u8]) -> Result<u32, NumberFault>
    ensures { result ≡ address_of text.now }
{
    let number = parse_number(text)?;
    u32::try_from(number).map_err(|_| NumberFault::TooLarge)
}
