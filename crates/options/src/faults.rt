// Faults of an argument list in a line for people.
ghost use Rattle.std.specs.Prelude.{Some};
ghost use Rattle.options.specs.FaultLines.{option_fault_line};

use crate::arguments::OptionFault;
use std::fmt;

impl fmt::Display for OptionFault {
    ghost output = { λ e. Some (option_fault_line e) };

    fn fmt<W: fmt::Write>(&self, f: &mut fmt::Formatter<W>) -> fmt::Result {
        match *self {
            OptionFault::Unknown => f.write_str("unknown argument"),
            OptionFault::NoValue => f.write_str("a number is missing after it"),
            OptionFault::BadNumber(fault) => write!(f, "{fault}"),
            OptionFault::NoMemory => f.write_str("no memory for the options"),
        }
    }
}
