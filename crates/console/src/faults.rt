// Faults in a line for people.
ghost use Rattle.std.specs.Prelude.{Some};
ghost use Rattle.console.specs.FaultLines.{word_fault_line, program_fault_line, number_fault_line};

use crate::lines::WordFault;
use crate::numbers::NumberFault;
use crate::program::ProgramFault;
use std::fmt;

impl fmt::Display for WordFault {
    ghost output = { λ e. Some (word_fault_line e) };

    fn fmt<W: fmt::Write>(&self, f: &mut fmt::Formatter<W>) -> fmt::Result {
        match *self {
            WordFault::NotHex(byte) => {
                if byte.is_ascii_graphic() {
                    write!(f, "`{}` is no hex digit", char::from(byte))
                } else {
                    write!(f, "byte {byte} is no hex digit")
                }
            }
            WordFault::TooWide => f.write_str("more than eight hex digits"),
            WordFault::NoDigits => f.write_str("no digits after 0x"),
        }
    }
}

impl fmt::Display for ProgramFault {
    ghost output = { λ e. Some (program_fault_line e) };

    fn fmt<W: fmt::Write>(&self, f: &mut fmt::Formatter<W>) -> fmt::Result {
        match *self {
            ProgramFault::BadLine(line, fault) => write!(f, "line {line}: {fault}"),
            ProgramFault::NoMemory => f.write_str("no memory for the program"),
        }
    }
}

impl fmt::Display for NumberFault {
    ghost output = { λ e. Some (number_fault_line e) };

    fn fmt<W: fmt::Write>(&self, f: &mut fmt::Formatter<W>) -> fmt::Result {
        match self {
            NumberFault::NotANumber => f.write_str("not a number"),
            NumberFault::TooLarge => f.write_str("too large a number"),
        }
    }
}
