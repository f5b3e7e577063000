// How a program ends: with a line on standard error where it stopped.
ghost use Rattle.std.specs.Prelude.{◌≡◌};
ghost use Rattle.std.specs.Process.{exit_status};
ghost use Rattle.command.specs.Saying.{Says, status_of};

use report::stops::Stop;
use std::alloc::Global;
use std::fmt;
use std::process::ExitCode;

pub fn said<T: fmt::Display + Drop>(heap: Global, fault: T) -> Stop
    ensures { Says (T.output fault) result }
{
    fault
        .to_string(heap)
        .map_or_else(Stop::NoMemory, Stop::Said)
}

pub fn exit_code(rt: &HostRuntime, name: &str, outcome: Result<(), Stop>) -> ExitCode
    ensures { exit_status result ≡ status_of outcome }
{
    match outcome {
        Ok(()) => ExitCode::SUCCESS,
        Err(stop) => {
            let _ = eprintln!(rt; "{name}: {stop}");
            ExitCode::FAILURE
        }
    }
}
