// Faults in a line for people.
ghost use Rattle.std.specs.Prelude.{Some};
ghost use Rattle.past.specs.FaultLines.{call_fault_line, line_fault_line};

use crate::calls::{CallFault, LineFault};
use std::fmt;

impl fmt::Display for CallFault {
    ghost output = { λ e. Some (call_fault_line e) };

    fn fmt<W: fmt::Write>(&self, f: &mut fmt::Formatter<W>) -> fmt::Result {
        match *self {
            CallFault::Unknown => f.write_str("no such call"),
            CallFault::NoNumber => f.write_str("a number is missing"),
            CallFault::BadNumber(fault) => write!(f, "{fault}"),
            CallFault::Excess => f.write_str("more than the call takes"),
        }
    }
}

impl fmt::Display for LineFault {
    ghost output = { λ e. Some (line_fault_line e) };

    fn fmt<W: fmt::Write>(&self, f: &mut fmt::Formatter<W>) -> fmt::Result {
        match *self {
            LineFault::BadWord(fault) => write!(f, "{fault}"),
            LineFault::BadCall(fault) => write!(f, "{fault}"),
        }
    }
}
