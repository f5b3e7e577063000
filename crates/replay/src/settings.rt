// The options, from the argument list.
ghost use Rattle.std.specs.Prelude.{◌≡◌};
ghost use Rattle.replay.specs.declared.settings.SettingFault.TheVariants.{BadNumber};

use command::argument::{ArgumentLine, arguments};
use command::exit::said;
use console::numbers::NumberFault;
use options::addresses::parse_address;
use report::stops::Stop;
use std::fmt;
use std::str::FromStr;

// The unit under the core. `watch` takes these names and `single`, and runs the unit where it reads its name.
#[derive(Clone, Copy)]
pub enum Kind {
    Plain,
    Multiplier,
    Divider,
    All,
    Deep,
}

#[derive(Clone, Copy)]
pub struct Settings {
    pub pc: u32,
    pub vector: u32,
    pub kind: Kind,
}

#[derive(Clone, Copy)]
enum Argument {
    Pc,
    Vector,
    Unit,
}

#[derive(Clone, Copy)]
pub enum SettingFault {
    Unknown,
    NoValue,
    NoUnit,
    BadNumber(NumberFault),
}

impl fmt::Display for SettingFault {
    fn fmt<W: fmt::Write>(&self, f: &mut fmt::Formatter<W>) -> fmt::Result {
        match *self {
            SettingFault::Unknown => f.write_str("unknown argument"),
            SettingFault::NoValue => f.write_str("its value is missing"),
            SettingFault::NoUnit => f.write_str("no such unit"),
            SettingFault::BadNumber(fault) => write!(f, "{fault}"),
        }
    }
}

impl From<NumberFault> for SettingFault {
    ghost from_gives = { λ number setting. setting ≡ BadNumber number };

    fn from(fault: NumberFault) -> SettingFault {
        SettingFault::BadNumber(fault)
    }
}

impl FromStr for Argument {
    type Err = SettingFault;

    fn from_str(text: &str) -> Result<Argument, SettingFault> {
        match text {
            "--pc" => Ok(Argument::Pc),
            "--vector" => Ok(Argument::Vector),
            "--unit" => Ok(Argument::Unit),
            _ => Err(SettingFault::Unknown),
        }
    }
}

impl FromStr for Kind {
    type Err = SettingFault;

    fn from_str(text: &str) -> Result<Kind, SettingFault> {
        match text {
            "plain" => Ok(Kind::Plain),
            "multiplier" => Ok(Kind::Multiplier),
            "divider" => Ok(Kind::Divider),
            "all" => Ok(Kind::All),
            "deep" => Ok(Kind::Deep),
            _ => Err(SettingFault::NoUnit),
        }
    }
}

impl Settings {
    fn set(&mut self, argument: Argument, text: &str) -> Result<(), SettingFault> {
        match argument {
            Argument::Pc => self.pc = parse_address(text.as_bytes())?,
            Argument::Vector => self.vector = parse_address(text.as_bytes())?,
            Argument::Unit => self.kind = text.parse()?,
        }
        Ok(())
    }

    // One text of the argument list, after an option that waits for its value, if any does.
    fn take(
        &mut self,
        waiting: Option<Argument>,
        text: &str,
    ) -> Result<Option<Argument>, SettingFault> {
        match waiting {
            Some(argument) => self.set(argument, text).map(|()| None),
            None => text.parse().map(Some),
        }
    }
}

// As `options::arguments` walks its list: a trait over both would name settings, arguments, faults and five definitions
// for these lines.
fn parse_settings(texts: &[String]) -> Result<Settings, ArgumentLine<'_, SettingFault>> {
    let mut settings = Settings {
        pc: 0,
        vector: 0,
        kind: Kind::All,
    };
    let mut waiting = None;
    for (i, text) in texts.iter().enumerate() {
        waiting = settings
            .take(waiting, text.as_str())
            .map_err(|fault| ArgumentLine::new(texts, i + 1, fault))?;
    }
    match waiting {
        None => Ok(settings),
        Some(_) => Err(ArgumentLine::new(texts, texts.len(), SettingFault::NoValue)),
    }
}

pub(crate) fn settings_of(rt: &HostRuntime) -> Result<Settings, Stop> {
    parse_settings(arguments(rt)?.as_slice()).map_err(|refused| said(rt.alloc(), refused))
}
