// A word as eight lower-case hex digits.
ghost use Rattle.std.specs.Prelude.{Some};
ghost use Rattle.report.specs.Hex.{hex8};

use std::fmt;

#[derive(Clone, Copy)]
pub struct Hex8(pub u32);

impl fmt::Display for Hex8 {
    ghost output = { λ h. Some (hex8 h.0) };

    fn fmt<W: fmt::Write>(&self, f: &mut fmt::Formatter<W>) -> fmt::Result {
        let word = self.0;
        write!(f, "{word:08x}")
    }
}
