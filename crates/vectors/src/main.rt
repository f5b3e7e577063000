// Reads words and writes what each is in assembler syntax, or that it is illegal.
#![tactic(auto)]

use command::exit::exit_code;
use command::input::read_program;
use command::page::Page;
use report::hex::Hex8;
use report::stops::Stop;
use std::fmt;
use std::process::ExitCode;
use words::{read, write};

// A word in assembler syntax. One that is not written as it was read is shown beside what came of it.
#[derive(Clone, Copy)]
struct WordLine(u32);

impl fmt::Display for WordLine {
    fn fmt<W: fmt::Write>(&self, f: &mut fmt::Formatter<W>) -> fmt::Result {
        let word = self.0;
        let shown = Hex8(word);
        match read(word) {
            Ok(instruction) => match write(instruction) {
                Ok(again) if again == word => writeln!(f, "{shown} {instruction}"),
                Ok(again) => writeln!(f, "{shown} {instruction} MISMATCH {}", Hex8(again)),
                Err(_) => writeln!(f, "{shown} {instruction} MISMATCH not written"),
            },
            Err(fault) => writeln!(f, "{shown} {fault}"),
        }
    }
}

fn run(rt: &HostRuntime) -> Result<(), Stop> {
    let words = read_program(rt)?;
    let mut page = Page::new(rt);
    for word in &words {
        page.write(WordLine(*word))?;
    }
    page.flush()?;
    Ok(())
}

fn main(rt: HostRuntime) -> ExitCode {
    exit_code(&rt, "vectors", run(&rt))
}
