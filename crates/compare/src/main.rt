// Replays what another simulator did, through the sequential machine and through the core over three piles of units.
#![tactic(auto)]

mod recording;
mod replay;

use crate::recording::{Recording, parse};
use crate::replay::replay;
use command::exit::{exit_code, said};
use divider::Divider;
use join::Join;
use machine::state::Machine;
use pipelines::multiplier::Multiplier;
use pipelines::plain::Plain;
use report::stops::Stop;
use scheduler::stopped::Stopped;
use std::io;
use std::process::ExitCode;
use units::unit::Unit;

// Replays on a core over the unit.
fn replay_core<U: Unit + Drop>(
    rt: &HostRuntime,
    name: &str,
    unit: U,
    recordings: &[Recording],
) -> Result<(), Stop> {
    replay(rt, name, Stopped::new(unit).start(), recordings)
}

// The piles, each joined another way; the second has two units for the plain classes.
fn replay_cores(rt: &HostRuntime, recordings: &[Recording]) -> Result<(), Stop> {
    replay_core(
        rt,
        "core over (plain, multiplier), divider",
        piles::all(),
        recordings,
    )?;
    replay_core(
        rt,
        "core over (plain, plain), (multiplier, divider)",
        piles::deep(),
        recordings,
    )?;
    let quick = Join::new(Multiplier::new(), Plain::new());
    replay_core(
        rt,
        "core over divider, (multiplier, plain)",
        Join::new(Divider::new(), quick),
        recordings,
    )
}

fn run(rt: &HostRuntime) -> Result<(), Stop> {
    let text = io::read_to_string(rt.alloc(), rt.stdin())?;
    let recordings = parse(rt.alloc(), text.as_str()).map_err(|fault| said(rt.alloc(), fault))?;
    replay(
        rt,
        "sequential machine",
        Machine::new(),
        recordings.as_slice(),
    )?;
    replay_cores(rt, recordings.as_slice())
}

fn main(rt: HostRuntime) -> ExitCode {
    exit_code(&rt, "compare", run(&rt))
}
