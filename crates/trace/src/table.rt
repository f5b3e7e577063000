// Records as a table for people: one row a retirement.
use machine::cause::Cause;
use machine::record::{Record, Retirement};
use options::arguments::Report;
use report::hex::Hex8;
use std::alloc::{AllocError, Global};
use words::read;

// What stands above the rows. By a match, as in `write_record`: it is one of two texts.
pub(crate) fn heading(report: Report) -> &'static str {
    match report {
        Report::Table =>
            "      #  pc        word      instruction             effect                       next\n",
        Report::Records | Report::Summary => "",
    }
}

fn instruction_text(heap: Global, record: Record) -> Result<String, AllocError> {
    // a trap for an access fault had no word to read
    if record.outcome == Retirement::Trapped && record.value == Cause::AccessFault.number() {
        return String::from_str(heap, "no word");
    }
    match read(record.word) {
        Ok(instruction) => instruction.to_string(heap),
        Err(_) => String::from_str(heap, "illegal word"),
    }
}

fn trap_text(heap: Global, number: u32) -> Result<String, AllocError> {
    match Cause::try_from(number) {
        Ok(cause) => format!(in heap; "trap {number}, {cause}"),
        Err(fault) => format!(in heap; "trap {number}, {fault}"),
    }
}

fn effect_text(heap: Global, record: Record) -> Result<String, AllocError> {
    let register = record.destination;
    let mark = match record.outcome {
        Retirement::Plain => "",
        Retirement::Interrupted => "interrupt",
        Retirement::Trapped => return trap_text(heap, record.value),
    };
    if register == 0 {
        String::from_str(heap, mark)
    } else {
        format!(in heap; "x{register} = {} {mark}", Hex8(record.value))
    }
}

pub(crate) fn row(heap: Global, number: u64, record: Record) -> Result<String, AllocError> {
    let instruction = instruction_text(heap, record)?;
    let effect = effect_text(heap, record)?;
    let pc = Hex8(record.pc);
    let word = Hex8(record.word);
    let next = Hex8(record.next);
    format!(in heap; "{number:>7}  {pc}  {word}  {instruction:<22}  {effect:<27}  {next}")
}
