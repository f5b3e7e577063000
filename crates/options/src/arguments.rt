// The options of a run, from the argument list.
ghost use Rattle.std.specs.Prelude.{◌≡◌, ◌⊎◌, map, Ok, Err, string_bytes, MatchResult};
ghost use Rattle.std.specs.Option.{ok_or};
ghost use Rattle.options.specs.declared.arguments.OptionFault.TheVariants.{Unknown, NoMemory, BadNumber};
ghost use Rattle.options.specs.Settings.{settings_of, defaults, argument_named, begun, with_event, given, taken, settings_in};

use crate::addresses::parse_address;
use crate::schedule::LineEvent;
use console::numbers::{NumberFault, parse_number};
use std::alloc::{AllocFailed, Global};
use std::str::FromStr;

#[derive(Clone, Copy)]
pub enum Argument {
    Pc,
    Vector,
    Retire,
    Budget,
    Raise,
    Drop,
    Sequential,
    Records,
    Summary,
}

// What standard output gets.
#[derive(Clone, Copy)]
pub enum Report {
    Table,
    Records,
    Summary,
}

#[derive(Clone, Copy)]
pub enum OptionFault {
    Unknown,
    NoValue,
    BadNumber(NumberFault),
    NoMemory,
}

// A fault, and the place of the argument that it is about.
#[derive(Clone, Copy)]
pub struct BadArgument {
    pub place: usize,
    pub fault: OptionFault,
}

#[derive(Drop)]
pub struct Options {
    pub pc: u32,
    pub vector: u32,
    pub retire: u64,
    // None: as many cycles as always suffice
    pub budget: Option<u64>,
    pub events: Vec<LineEvent>,
    // the sequential machine in place of the core
    pub sequential: bool,
    pub report: Report,
}

impl FromStr for Argument {
    type Err = OptionFault;

    ghost from_str_gives = { λ text r. r ≡ ok_or (argument_named text) Unknown };

    fn from_str(text: &str) -> Result<Argument, OptionFault> {
        match text {
            "--pc" => Ok(Argument::Pc),
            "--vector" => Ok(Argument::Vector),
            "--retire" => Ok(Argument::Retire),
            "--budget" => Ok(Argument::Budget),
            "--raise" => Ok(Argument::Raise),
            "--drop" => Ok(Argument::Drop),
            "--sequential" => Ok(Argument::Sequential),
            "--records" => Ok(Argument::Records),
            "--summary" => Ok(Argument::Summary),
            _ => Err(OptionFault::Unknown),
        }
    }
}

impl Options {
    fn new(heap: Global) -> Options
        ensures { settings_of result ≡ defaults }
    {
        Options {
            pc: 0,
            vector: 0,
            retire: 1000,
            budget: None,
            events: Vec::new(heap),
            sequential: false,
            report: Report::Table,
        }
    }

    // Gives back an argument that waits for its number.
    fn begin(&mut self, argument: Argument) -> Option<Argument>
        ensures { (settings_of self.new, result) ≡ begun argument (settings_of self.old) }
    {
        match argument {
            Argument::Sequential => {
                self.sequential = true;
                None
            }
            Argument::Records => {
                self.report = Report::Records;
                None
            }
            Argument::Summary => {
                self.report = Report::Summary;
                None
            }
            _ => Some(argument),
        }
    }

    fn push_event(&mut self, up: bool, after: u64) -> Result<(), OptionFault>
        ensures { MatchResult result (λ _. settings_of self.new ≡ with_event up after (settings_of self.old)) (λ e. e ≡ NoMemory) }
    {
        self.events.push(LineEvent { after, up })?;
        Ok(())
    }

    // The text after an argument that takes a number.
    fn set(&mut self, argument: Argument, text: &[u8]) -> Result<(), OptionFault>
        ensures { MatchResult result (λ _. given argument text.now (settings_of self.old) ≡ Ok (settings_of self.new)) (λ e. (e ≡ NoMemory) ⊎ (given argument text.now (settings_of self.old) ≡ Err e)) }
    {
        match argument {
            Argument::Pc => self.pc = parse_address(text)?,
            Argument::Vector => self.vector = parse_address(text)?,
            Argument::Retire => self.retire = parse_number(text)?,
            Argument::Budget => self.budget = Some(parse_number(text)?),
            Argument::Raise => self.push_event(true, parse_number(text)?)?,
            Argument::Drop => self.push_event(false, parse_number(text)?)?,
            Argument::Sequential | Argument::Records | Argument::Summary => {}
        }
        Ok(())
    }

    // One text of the argument list, after an argument that waits for its number, if any does.
    fn take(
        &mut self,
        waiting: Option<Argument>,
        text: &str,
    ) -> Result<Option<Argument>, OptionFault>
        ensures { MatchResult result (λ a. taken waiting text.now (settings_of self.old) ≡ Ok (settings_of self.new, a)) (λ e. (e ≡ NoMemory) ⊎ (taken waiting text.now (settings_of self.old) ≡ Err e)) }
    {
        match waiting {
            Some(argument) => {
                self.set(argument, text.as_bytes())?;
                Ok(None)
            }
            None => Ok(self.begin(text.parse()?)),
        }
    }
}

impl<T: Drop> From<AllocFailed<T>> for OptionFault {
    ghost from_gives = { λ _ r. r ≡ NoMemory };

    fn from(_refused: AllocFailed<T>) -> OptionFault {
        OptionFault::NoMemory
    }
}

impl From<NumberFault> for OptionFault {
    ghost from_gives = { λ e r. r ≡ BadNumber e };

    fn from(fault: NumberFault) -> OptionFault {
        OptionFault::BadNumber(fault)
    }
}

pub fn parse_options(heap: Global, texts: &[String]) -> Result<Options, BadArgument>
    ensures { MatchResult result (λ o. settings_in (map string_bytes texts.now) ≡ Ok (settings_of o)) (λ e. (e.fault ≡ NoMemory) ⊎ (settings_in (map string_bytes texts.now) ≡ Err e)) }
{
    let mut options = Options::new(heap);
    let mut waiting = None;
    for (i, text) in texts.iter().enumerate() {
        let place = i + 1;
        waiting = options
            .take(waiting, text.as_str())
            .map_err(|fault| BadArgument { place, fault })?;
    }
    match waiting {
        None => Ok(options),
        Some(_) => Err(BadArgument {
            place: texts.len(),
            fault: OptionFault::NoValue,
        }),
    }
}
