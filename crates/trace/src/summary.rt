// What a run came to, for people.
use crate::session::Session;
use command::registers::RegisterLines;
use engines::Engine;
use report::hex::Hex8;
use std::fmt;

impl<E: Engine> Session<E> {
    fn write_counts<W: fmt::Write>(&self, f: &mut fmt::Formatter<W>) -> fmt::Result {
        for (name, count) in [
            ("retired", self.retired),
            ("  plain", self.counts.plain),
            ("  trapped", self.counts.trapped),
            ("  interrupted", self.counts.interrupted),
            ("cycles", self.cycles),
        ] {
            writeln!(f, "{name:<20}{count}")?;
        }
        Ok(())
    }

    fn write_words<W: fmt::Write>(&self, f: &mut fmt::Formatter<W>) -> fmt::Result {
        let machine = self.engine.machine();
        let trap = machine.trap_state();
        for (name, word) in [
            ("pc", machine.pc()),
            ("mepc", trap.mepc),
            ("mcause", trap.mcause),
            ("mie", u32::from(trap.mie)),
            ("mpie", u32::from(trap.mpie)),
            ("vector", trap.vector),
        ] {
            writeln!(f, "{name:<20}{}", Hex8(word))?;
        }
        Ok(())
    }
}

impl<E: Engine> fmt::Display for Session<E> {
    fn fmt<W: fmt::Write>(&self, f: &mut fmt::Formatter<W>) -> fmt::Result {
        self.write_counts(f)?;
        let divisor = self.retired.max(1);
        let whole = self.cycles / divisor;
        let hundredths = (self.cycles % divisor).saturating_mul(100) / divisor;
        writeln!(f, "cycles/instruction  {whole}.{hundredths:02}")?;
        self.write_words(f)?;
        let registers = RegisterLines {
            machine: self.engine.machine(),
            width: 18,
        };
        write!(f, "{registers}")
    }
}
