// Standard input, line by line: the program's words, and then the calls.
use command::exit::said;
use past::calls::{Call, Line, parse_call, parse_first};
use report::stops::Stop;
use std::io::{BufRead, BufReader, Split, Stdin};
use std::{fmt, io};

#[derive(Drop)]
pub struct Input {
    pub(crate) lines: Split<BufReader<Stdin>>,
    // of the line that was read last; the library's `enumerate` over these lines was not proved to end
    pub(crate) number: u64,
}

impl Input {
    pub(crate) fn new(rt: &HostRuntime) -> io::Result<Input> {
        Ok(Input {
            lines: BufReader::new(rt.alloc(), rt.stdin())?.split(rt.alloc(), b'\n'),
            number: 0,
        })
    }

    // The words, and the call that ends them, if one does.
    pub(crate) fn words(&mut self, rt: &HostRuntime) -> Result<(Vec<u32>, Option<Call>), Stop> {
        let mut words = Vec::new(rt.alloc());
        for line in &mut self.lines {
            self.number = self.number.saturating_add(1);
            let line = line?;
            match parse_first(line.as_slice()).map_err(|fault| refused(rt, self.number, fault))? {
                None => {}
                Some(Line::Word(word)) => words.push(word)?,
                Some(Line::Call(call)) => return Ok((words, Some(call))),
            }
        }
        Ok((words, None))
    }
}

fn refused<F: fmt::Display + Drop>(rt: &HostRuntime, number: u64, fault: F) -> Stop {
    said(rt.alloc(), format_args!("line {number}: {fault}"))
}

// None for a line with no call on it.
pub(crate) fn call_on(
    rt: &HostRuntime,
    number: u64,
    line: io::Result<Vec<u8>>,
) -> Result<Option<Call>, Stop> {
    parse_call(line?.as_slice()).map_err(|fault| refused(rt, number, fault))
}
