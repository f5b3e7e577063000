// Calls by their names, one a line, after the words of the program.
ghost use Rattle.std.specs.Prelude.{◌≡◌, ◌≤◌, length};
ghost use Rattle.std.specs.List.{position_or_len};
ghost use Rattle.past.specs.declared.calls.CallFault.TheVariants.{BadNumber};
ghost use Rattle.past.specs.declared.calls.LineFault.TheVariants.{BadWord, BadCall};
ghost use Rattle.past.specs.Calls.{gap, first_field, after_field, alone, number_field, run_call, call_named, line_call, first_line};

use console::lines::{WordFault, line_text, parse_line};
use console::numbers::{NumberFault, parse_number};

#[derive(Clone, Copy)]
pub enum Call {
    Issue,
    Dispatch,
    Complete,
    Retire,
    Cycle,
    Run { wanted: u64, budget: u64 },
    Raise,
    Drop,
}

#[derive(Clone, Copy)]
pub enum CallFault {
    Unknown,
    NoNumber,
    BadNumber(NumberFault),
    Excess,
}

// What a line says before the first call is answered.
#[derive(Clone, Copy)]
pub enum Line {
    Word(u32),
    Call(Call),
}

#[derive(Clone, Copy)]
pub enum LineFault {
    BadWord(WordFault),
    BadCall(CallFault),
}

impl From<NumberFault> for CallFault {
    ghost from_gives = { λ fault r. r ≡ BadNumber fault };

    fn from(fault: NumberFault) -> CallFault {
        CallFault::BadNumber(fault)
    }
}

impl From<CallFault> for LineFault {
    ghost from_gives = { λ fault r. r ≡ BadCall fault };

    fn from(fault: CallFault) -> LineFault {
        LineFault::BadCall(fault)
    }
}

impl From<WordFault> for LineFault {
    ghost from_gives = { λ fault r. r ≡ BadWord fault };

    fn from(fault: WordFault) -> LineFault {
        LineFault::BadWord(fault)
    }
}

fn is_gap(byte: u8) -> bool
    ensures { result ≡ gap byte }
{
    matches!(byte, b' ' | b'\t')
}

// Where the first gap is, or the length where there is none.
fn gap_index(text: &[u8]) -> usize
    ensures place { result ≡ position_or_len gap text.now }
    ensures within { result ≤ length text.now }
{
    text.iter()
        .position(|byte| is_gap(*byte))
        .unwrap_or(text.len())
}

// What stands before the first gap, and what follows it.
fn split_field(text: &[u8]) -> (&[u8], &[u8])
    ensures first { result.0.now ≡ first_field text.now }
    ensures rest { result.1.now ≡ after_field text.now }
{
    let end = gap_index(text);
    (&text[..end], line_text(&text[end..]))
}

// A call that takes nothing more.
fn alone(call: Call, rest: &[u8]) -> Result<Call, CallFault>
    ensures { result ≡ alone call rest.now }
{
    if rest.is_empty() {
        Ok(call)
    } else {
        Err(CallFault::Excess)
    }
}

fn number_field(text: &[u8]) -> Result<u64, CallFault>
    ensures { result ≡ number_field text.now }
{
    if text.is_empty() {
        return Err(CallFault::NoNumber);
    }
    Ok(parse_number(text)?)
}

// Retirements wanted, and a budget of cycles.
fn run_call(text: &[u8]) -> Result<Call, CallFault>
    ensures { result ≡ run_call text.now }
{
    let (first, rest) = split_field(text);
    let (second, rest) = split_field(rest);
    let wanted = number_field(first)?;
    let budget = number_field(second)?;
    alone(Call::Run { wanted, budget }, rest)
}

fn call_named(name: &[u8], rest: &[u8]) -> Result<Call, CallFault>
    ensures { result ≡ call_named name.now rest.now }
{
    match name {
        b"issue" => alone(Call::Issue, rest),
        b"dispatch" => alone(Call::Dispatch, rest),
        b"complete" => alone(Call::Complete, rest),
        b"retire" => alone(Call::Retire, rest),
        b"cycle" => alone(Call::Cycle, rest),
        b"run" => run_call(rest),
        b"raise" => alone(Call::Raise, rest),
        b"drop" => alone(Call::Drop, rest),
        _ => Err(CallFault::Unknown),
    }
}

// None for a line with no call on it.
pub fn parse_call(line: &[u8]) -> Result<Option<Call>, CallFault>
    ensures { result ≡ line_call line.now }
{
    let text = line_text(line);
    if text.is_empty() {
        return Ok(None);
    }
    let (name, rest) = split_field(text);
    call_named(name, rest).map(Some)
}

// A line that names no call has a word on it, until the first call.
pub fn parse_first(line: &[u8]) -> Result<Option<Line>, LineFault>
    ensures { result ≡ first_line line.now }
{
    match parse_call(line) {
        Err(CallFault::Unknown) => Ok(parse_line(line)?.map(Line::Word)),
        call => Ok(call?.map(Line::Call)),
    }
}
