// Why an instruction traps, by the names of the privileged manual.
ghost use Rattle.std.specs.Prelude.{◌≡◌, Some};
ghost use Rattle.machine.specs.Causes.{cause_number, cause_numbered, cause_name, no_cause_text};

use std::error::Error;
use std::fmt;

#[derive(Clone, Copy, Debug, PartialEq, Eq)]
pub enum Cause {
    MisalignedTarget,
    AccessFault,
    IllegalInstruction,
    Breakpoint,
    EnvironmentCall = 11,
}

impl Cause {
    pub fn number(self) -> u32
        ensures { result ≡ cause_number self }
    {
        self as u32
    }

    fn name(self) -> &'static str
        ensures { result.now ≡ cause_name self }
    {
        match self {
            Cause::MisalignedTarget => "misaligned target",
            Cause::AccessFault => "access fault",
            Cause::IllegalInstruction => "illegal instruction",
            Cause::Breakpoint => "breakpoint",
            Cause::EnvironmentCall => "environment call",
        }
    }
}

impl fmt::Display for Cause {
    ghost output = { λ c. Some (cause_name c) };

    fn fmt<W: fmt::Write>(&self, f: &mut fmt::Formatter<W>) -> fmt::Result {
        f.write_str(self.name())
    }
}

// A number that stands for no cause.
#[derive(Clone, Copy, Debug, PartialEq, Eq)]
pub struct NoCause {
    pub number: u32,
}

impl fmt::Display for NoCause {
    ghost output = { λ e. Some (no_cause_text e) };

    fn fmt<W: fmt::Write>(&self, f: &mut fmt::Formatter<W>) -> fmt::Result {
        f.write_str("unknown cause")
    }
}

impl Error for NoCause {}

impl TryFrom<u32> for Cause {
    type Error = NoCause;

    ghost try_from_gives = { λ number r. r ≡ cause_numbered number };

    fn try_from(number: u32) -> Result<Cause, NoCause> {
        match number {
            0 => Ok(Cause::MisalignedTarget),
            1 => Ok(Cause::AccessFault),
            2 => Ok(Cause::IllegalInstruction),
            3 => Ok(Cause::Breakpoint),
            11 => Ok(Cause::EnvironmentCall),
            _ => Err(NoCause { number }),
        }
    }
}
