// Why a program stops, in a line for people.
ghost use Rattle.std.specs.Prelude.{◌≡◌, alloc_error};
ghost use Rattle.report.specs.declared.stops.Stop.TheVariants.{NoMemory, Failed};
ghost use Rattle.report.specs.StopLines.{stop_line};

use std::alloc::{AllocError, AllocFailed};
use std::{fmt, io};

#[derive(Drop)]
pub enum Stop {
    // the line, whole
    Said(String),
    NoMemory(AllocError),
    // a read or a write
    Failed(io::Error),
}

impl fmt::Display for Stop {
    ghost output = { stop_line };

    fn fmt<W: fmt::Write>(&self, f: &mut fmt::Formatter<W>) -> fmt::Result {
        match self {
            Stop::Said(line) => f.write_str(line.as_str()),
            Stop::NoMemory(error) => write!(f, "{error}"),
            Stop::Failed(error) => write!(f, "{error}"),
        }
    }
}

impl From<io::Error> for Stop {
    ghost from_gives = { λ error stop. stop ≡ Failed error };

    fn from(error: io::Error) -> Stop {
        Stop::Failed(error)
    }
}

impl From<AllocError> for Stop {
    ghost from_gives = { λ error stop. stop ≡ NoMemory error };

    fn from(refused: AllocError) -> Stop {
        Stop::NoMemory(refused)
    }
}

impl<T: Drop> From<AllocFailed<T>> for Stop {
    ghost from_gives = { λ _ stop. stop ≡ NoMemory alloc_error };

    fn from(failed: AllocFailed<T>) -> Stop {
        Stop::NoMemory(AllocError::from(failed))
    }
}
