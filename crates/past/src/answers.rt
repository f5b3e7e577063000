// What a call answered, as a line: the call's name, and what came of it.
ghost use Rattle.std.specs.Prelude.{Some};
ghost use Rattle.past.specs.Answers.{answer_line};

use machine::record::Record;
use refusal::{IssueFault, NoneGoes, RetireFault};
use report::records::RecordLine;
use std::fmt;

#[derive(Clone, Copy)]
pub enum Answer {
    Issue(Result<u8, IssueFault>),
    Dispatch(Result<u8, NoneGoes>),
    Complete(Option<u8>),
    Retire(Result<Record, RetireFault>),
    Cycle(Option<Record>),
    Run { cycles: u64, retirements: u64 },
    Raise,
    Drop,
}

impl fmt::Display for Answer {
    ghost output = { λ a. Some (answer_line a) };

    fn fmt<W: fmt::Write>(&self, f: &mut fmt::Formatter<W>) -> fmt::Result {
        match *self {
            Answer::Issue(Ok(tag)) => write!(f, "issue {tag}"),
            Answer::Issue(Err(fault)) => write!(f, "issue refused {}", fault.number()),
            Answer::Dispatch(Ok(tag)) => write!(f, "dispatch {tag}"),
            Answer::Dispatch(Err(fault)) => write!(f, "dispatch refused {}", fault.number()),
            Answer::Complete(Some(tag)) => write!(f, "complete {tag}"),
            Answer::Complete(None) => f.write_str("complete nothing"),
            Answer::Retire(Ok(record)) => write!(f, "retire {}", RecordLine(record)),
            Answer::Retire(Err(fault)) => write!(f, "retire refused {}", fault.number()),
            Answer::Cycle(Some(record)) => write!(f, "cycle {}", RecordLine(record)),
            Answer::Cycle(None) => f.write_str("cycle nothing"),
            Answer::Run {
                cycles,
                retirements,
            } => write!(f, "run {cycles} {retirements}"),
            Answer::Raise => f.write_str("raise"),
            Answer::Drop => f.write_str("drop"),
        }
    }
}
