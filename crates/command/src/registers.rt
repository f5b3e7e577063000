// The registers that are not 0, a line each.
use machine::state::Machine;
use report::hex::Hex8;
use std::fmt;

// Each number is filled up to the width.
#[derive(Clone, Copy)]
pub struct RegisterLines<'a> {
    pub machine: &'a Machine,
    pub width: usize,
}

impl<'a> fmt::Display for RegisterLines<'a> {
    fn fmt<W: fmt::Write>(&self, f: &mut fmt::Formatter<W>) -> fmt::Result {
        let width = self.width;
        for (number, value) in self.machine.registers().iter().enumerate().skip(1) {
            if *value != 0 {
                writeln!(f, "x{number:<width$} {}", Hex8(*value))?;
            }
        }
        Ok(())
    }
}
