// A load that the machine refused, in a line for people.
ghost use Rattle.std.specs.Prelude.{Some};
ghost use Rattle.report.specs.LoadLines.{refused_load_line};

use refusal::LoadFault;
use std::fmt;

// What was refused, and what load was given; shown with the option at fault.
#[derive(Clone, Copy)]
pub struct RefusedLoad {
    pub fault: LoadFault,
    pub words: usize,
    pub pc: u32,
    pub vector: u32,
}

impl fmt::Display for RefusedLoad {
    ghost output = { λ l. Some (refused_load_line l) };

    fn fmt<W: fmt::Write>(&self, f: &mut fmt::Formatter<W>) -> fmt::Result {
        let fault = self.fault;
        match fault {
            LoadFault::Overlong => write!(f, "{} words: {fault}", self.words),
            LoadFault::Skew => {
                if self.pc % 4 != 0 {
                    write!(f, "--pc {}: {fault}", self.pc)
                } else {
                    write!(f, "--vector {}: {fault}", self.vector)
                }
            }
        }
    }
}
