// A replay: each line that a recording has, against the same line made of ours.
ghost use Rattle.std.specs.Prelude.{◌≡◌, OnOk};
ghost use Rattle.options.specs.Schedule.{line_stands};

use crate::recording::Recording;
use engines::{Engine, next_retirement};
use machine::record::Record;
use machine::state::Machine;
use options::schedule::{LineEvent, line_stands};
use report::hex::Hex8;
use report::records::RecordLine;
use report::stops::Stop;
use std::alloc::{AllocError, Global};
use std::{fmt, io};

// A fixed line, of at most 80 bytes: the error itself holds it, so it is told even where memory ran out.
fn fixed(line: &str) -> Stop {
    Stop::Failed(io::Error::other(line))
}

// The line that is expected, and the one that came instead, shown for people.
#[derive(Clone, Copy)]
struct Comparison<'a> {
    program: &'a str,
    retirement: usize,
    expected: &'a str,
    got: &'a str,
}

impl<'a> fmt::Display for Comparison<'a> {
    fn fmt<W: fmt::Write>(&self, f: &mut fmt::Formatter<W>) -> fmt::Result {
        writeln!(
            f,
            "program `{}`, retirement {}:",
            self.program, self.retirement
        )?;
        write!(f, "expected {}\ngot      {}", self.expected, self.got)
    }
}

impl<'a> Comparison<'a> {
    fn check(&self, rt: &HostRuntime) -> Result<(), Stop>
        ensures { OnOk result (self.now.expected.now ≡ self.now.got.now) }
    {
        if self.expected == self.got {
            return Ok(());
        }
        eprintln!(rt; "{self}")?;
        Err(fixed("a run differs"))
    }
}

// The next retirement, with the line as the events have set it by then; None if there is none in the longest wait over
// the deepest of the piles.
fn next_record<E: Engine>(engine: &mut E, events: &[LineEvent], retired: u64) -> Option<Record>
    ensures { E.Retires 265 (line_stands events.now retired) engine.old result engine.new }
{
    let line = line_stands(events, retired);
    next_retirement(engine, line, piles::DEEP_LONGEST_WAIT)
}

fn record_line(heap: Global, record: Option<Record>) -> Result<String, AllocError> {
    match record {
        Some(record) => RecordLine(record).to_string(heap),
        None => String::from_str(heap, "no retirement in the longest wait"),
    }
}

// pc, mepc, mcause, MIE, MPIE, then x1 to x31.
fn end_line(heap: Global, machine: &Machine) -> Result<String, AllocError> {
    let trap = machine.trap_state();
    let mut text = String::new(heap);
    write!(
        text,
        "{} {} {}",
        Hex8(machine.pc()),
        Hex8(trap.mepc),
        Hex8(trap.mcause)
    )?;
    write!(text, " {} {}", u8::from(trap.mie), u8::from(trap.mpie))?;
    for value in machine.registers().iter().skip(1) {
        write!(text, " {}", Hex8(*value))?;
    }
    Ok(text)
}

fn follow<E: Engine>(rt: &HostRuntime, engine: &mut E, recording: &Recording) -> Result<(), Stop> {
    let events = recording.events.as_slice();
    for (retirement, expected) in recording.records.iter().enumerate() {
        let record = next_record(engine, events, retirement as u64);
        let got = record_line(rt.alloc(), record)?;
        let comparison = Comparison {
            program: recording.name,
            retirement,
            expected,
            got: got.as_str(),
        };
        comparison.check(rt)?;
    }
    let end = end_line(rt.alloc(), engine.machine())?;
    let comparison = Comparison {
        program: recording.name,
        retirement: recording.records.len(),
        expected: recording.end,
        got: end.as_str(),
    };
    comparison.check(rt)
}

// One engine takes all the programs.
pub(crate) fn replay<E: Engine + Drop>(
    rt: &HostRuntime,
    name: &str,
    mut engine: E,
    recordings: &[Recording],
) -> Result<(), Stop> {
    for recording in recordings {
        let words = recording.words.as_slice();
        engine = engine
            .restart(words, recording.pc, recording.vector)
            .map_err(|_fault| fixed("a program is not loaded"))?;
        follow(rt, &mut engine, recording)?;
    }
    let records = recordings.iter().fold(0usize, |sum, recording| {
        sum.saturating_add(recording.records.len())
    });
    println!(rt;
        "{name}: {} programs, {records} records agree",
        recordings.len()
    )?;
    Ok(())
}
