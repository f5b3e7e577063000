// A record as a line for other programs.
ghost use Rattle.std.specs.Prelude.{Some};
ghost use Rattle.report.specs.RecordLines.{record_line};

use crate::hex::Hex8;
use machine::record::Record;
use std::fmt;

// Shown as `pc word outcome destination value next`.
#[derive(Clone, Copy)]
pub struct RecordLine(pub Record);

impl fmt::Display for RecordLine {
    ghost output = { λ l. Some (record_line l.0) };

    fn fmt<W: fmt::Write>(&self, f: &mut fmt::Formatter<W>) -> fmt::Result {
        let record = self.0;
        write!(
            f,
            "{} {} {} {} {} {}",
            Hex8(record.pc),
            Hex8(record.word),
            record.outcome.number(),
            record.destination,
            Hex8(record.value),
            Hex8(record.next)
        )
    }
}
