// What another simulator did with a program, from text: one keyword a line, and the records as they stand.
ghost use Rattle.std.specs.Prelude.{◌≡◌};
ghost use Rattle.compare.specs.declared.recording.LineFault.TheVariants.{BadNumber, NoMemory};

use console::numbers::NumberFault;
use options::addresses::parse_address;
use options::schedule::LineEvent;
use std::alloc::{AllocFailed, Global};
use std::{fmt, mem};

// The lines that say what a run has to come to are kept as text: what is made of ours is compared with them.
#[derive(Drop)]
pub struct Recording<'a> {
    pub name: &'a str,
    pub pc: u32,
    pub vector: u32,
    pub words: Vec<u32>,
    pub events: Vec<LineEvent>,
    pub records: Vec<&'a str>,
    // pc and trap state after the last record, then the registers
    pub end: &'a str,
}

#[derive(Clone, Copy)]
pub enum LineFault {
    NoKeyword,
    Unknown,
    BadNumber(NumberFault),
    NoMemory,
}

impl From<NumberFault> for LineFault {
    ghost from_gives = { λ number fault. fault ≡ BadNumber number };

    fn from(fault: NumberFault) -> LineFault {
        LineFault::BadNumber(fault)
    }
}

impl<T: Drop> From<AllocFailed<T>> for LineFault {
    ghost from_gives = { λ _ fault. fault ≡ NoMemory };

    fn from(_failed: AllocFailed<T>) -> LineFault {
        LineFault::NoMemory
    }
}

// The line that is none of a recording, counted from 1, or for which memory ran out. Only its number is shown; the
// fault is there for `?`.
#[derive(Clone, Copy)]
pub struct BadLine {
    pub number: usize,
    pub fault: LineFault,
}

impl fmt::Display for BadLine {
    fn fmt<W: fmt::Write>(&self, f: &mut fmt::Formatter<W>) -> fmt::Result {
        write!(f, "line {} cannot be taken", self.number)
    }
}

impl<'a> Recording<'a> {
    fn new(heap: Global) -> Recording<'a> {
        Recording {
            name: "",
            pc: 0,
            vector: 0,
            words: Vec::new(heap),
            events: Vec::new(heap),
            records: Vec::new(heap),
            end: "",
        }
    }

    fn take_number(&mut self, keyword: &str, number: u32) -> Result<(), LineFault> {
        let after = u64::from(number);
        match keyword {
            "pc" => self.pc = number,
            "vector" => self.vector = number,
            "word" => self.words.push(number)?,
            "raise" => self.events.push(LineEvent { after, up: true })?,
            "drop" => self.events.push(LineEvent { after, up: false })?,
            _ => return Err(LineFault::Unknown),
        }
        Ok(())
    }

    fn take(&mut self, line: &'a str) -> Result<(), LineFault> {
        let (keyword, rest) = line.split_once(' ').ok_or(LineFault::NoKeyword)?;
        match keyword {
            "#" => {}
            "program" => self.name = rest,
            "end" => self.end = rest,
            // a record begins with its pc
            _ if keyword.len() == 8 => self.records.push(line)?,
            _ => self.take_number(keyword, parse_address(rest.as_bytes())?)?,
        }
        Ok(())
    }
}

// Adds the line, and the recording once that is its last.
fn take_line<'a>(
    heap: Global,
    recordings: &mut Vec<Recording<'a>>,
    current: &mut Recording<'a>,
    line: &'a str,
) -> Result<(), LineFault> {
    current.take(line)?;
    if !current.end.is_empty() {
        recordings.push(mem::replace(current, Recording::new(heap)))?;
    }
    Ok(())
}

pub(crate) fn parse<'a>(heap: Global, text: &'a str) -> Result<Vec<Recording<'a>>, BadLine> {
    let mut recordings = Vec::new(heap);
    let mut current = Recording::new(heap);
    for (i, line) in text.lines().enumerate() {
        take_line(heap, &mut recordings, &mut current, line).map_err(|fault| {
            BadLine {
                number: i.saturating_add(1),
                fault,
            }
        })?;
    }
    Ok(recordings)
}
