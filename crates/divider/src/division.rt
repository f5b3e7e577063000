// The four divisions: how they read their operands, and how they sign their results.
ghost use Rattle.std.specs.Prelude.{◌≡◌};
ghost use Rattle.divider.specs.Signs.{negative, magnitude, negated, signed};
ghost use Rattle.divider.specs.Divisions.{division_of, division_in};

use isa::operation::Operation;

#[derive(Clone, Copy)]
pub struct Division {
    pub signed: bool,
    // whether it gives the remainder or the quotient
    pub remainder: bool,
}

fn of_operation(operation: Operation) -> Option<Division>
    ensures { result ≡ division_of operation }
{
    match operation {
        Operation::Div => Some(Division {
            signed: true,
            remainder: false,
        }),
        Operation::Divu => Some(Division {
            signed: false,
            remainder: false,
        }),
        Operation::Rem => Some(Division {
            signed: true,
            remainder: true,
        }),
        Operation::Remu => Some(Division {
            signed: false,
            remainder: true,
        }),
        _ => None,
    }
}

// None for a word that asks for no division.
pub(crate) fn of_word(word: u32) -> Option<Division>
    ensures { result ≡ division_in word }
{
    let instruction = words::read(word).ok()?;
    of_operation(instruction.operation)
}

fn negate_if(negative: bool, x: u32) -> u32
    ensures { result ≡ negated negative x }
{
    if negative { x.wrapping_neg() } else { x }
}

impl Division {
    fn is_negative(self, x: u32) -> bool
        ensures { result ≡ negative self.signed x }
    {
        self.signed && x.cast_signed() < 0
    }

    pub(crate) fn magnitude(self, x: u32) -> u32
        ensures { result ≡ magnitude self.signed x }
    {
        negate_if(self.is_negative(x), x)
    }

    // The signed result, by the quotient and the remainder of the magnitudes of a and b.
    pub(crate) fn sign(self, a: u32, b: u32, quotient: u32, remainder: u32) -> u32
        ensures { result ≡ signed self a b quotient remainder }
    {
        if self.remainder {
            negate_if(self.is_negative(a), remainder)
        } else {
            // all ones, the quotient by 0, stay as they are
            let differ = self.is_negative(a) != self.is_negative(b);
            negate_if(b != 0 && differ, quotient)
        }
    }
}
