// Replays a past on a running core: reads a program and then calls, and writes what each call answers.
#![tactic(auto)]

ghost use Rattle.replay.specs.Told.{Answered};

mod input;
mod settings;

use crate::input::{Input, call_on};
use crate::settings::{Kind, Settings, settings_of};
use command::exit::exit_code;
use command::page::Page;
use command::registers::RegisterLines;
use divider::Divider;
use engines::begin;
use past::answers::Answer;
use past::calls::Call;
use pipelines::multiplier::Multiplier;
use pipelines::plain::Plain;
use report::hex::Hex8;
use report::stops::Stop;
use scheduler::running::Running;
use scheduler::stopped::Stopped;
use std::process::ExitCode;
use units::unit::Unit;

// The answer is that of the call, and the law holds of the past that it extends.
fn answer<U: Unit>(core: &mut Running<U>, call: Call) -> Answer
    ensures { Answered U.Unit.means core.old.state call result core.new.state }
{
    match call {
        Call::Issue => Answer::Issue(core.issue()),
        Call::Dispatch => Answer::Dispatch(core.dispatch()),
        Call::Complete => Answer::Complete(core.complete()),
        Call::Retire => Answer::Retire(core.retire()),
        Call::Cycle => Answer::Cycle(core.cycle()),
        Call::Run { wanted, budget } => {
            // field by field: `past` reads and writes lines without the scheduler's types
            let ran = core.run(wanted, budget);
            Answer::Run {
                cycles: ran.cycles,
                retirements: ran.retirements,
            }
        }
        Call::Raise => {
            core.raise_line();
            Answer::Raise
        }
        Call::Drop => {
            core.drop_line();
            Answer::Drop
        }
    }
}

// Answers the calls from `first` on. The runtime beside the page: a page lends no allocator.
fn answer_all<U: Unit>(
    rt: &HostRuntime,
    core: &mut Running<U>,
    first: Option<Call>,
    input: &mut Input,
    page: &mut Page,
) -> Result<(), Stop> {
    let Some(first) = first else {
        return Ok(());
    };
    page.write(format_args!("{}\n", answer(core, first)))?;
    for line in &mut input.lines {
        input.number = input.number.saturating_add(1);
        if let Some(call) = call_on(rt, input.number, line)? {
            page.write(format_args!("{}\n", answer(core, call)))?;
        }
    }
    Ok(())
}

fn write_state<U: Unit>(core: &Running<U>, page: &mut Page) -> Result<(), Stop> {
    let machine = core.machine();
    let trap = machine.trap_state();
    page.write(format_args!(
        "pc {}\nmepc {}\nmcause {}\nmie {}\nmpie {}\nline {}\n",
        Hex8(machine.pc()),
        Hex8(trap.mepc),
        Hex8(trap.mcause),
        u8::from(trap.mie),
        u8::from(trap.mpie),
        u8::from(core.line())
    ))?;
    page.write(RegisterLines { machine, width: 0 })
}

fn replay<U: Unit + Drop>(rt: &HostRuntime, settings: Settings, unit: U) -> Result<(), Stop> {
    let mut input = Input::new(rt)?;
    let (words, first) = input.words(rt)?;
    let core = Stopped::new(unit).start();
    let mut core = begin(
        rt.alloc(),
        core,
        words.as_slice(),
        settings.pc,
        settings.vector,
    )?;
    let mut page = Page::new(rt);
    let answered = answer_all(rt, &mut core, first, &mut input, &mut page);
    if answered.is_ok() {
        write_state(&core, &mut page)?;
    }
    // a bad call does not take back the answers before it
    page.flush()?;
    answered
}

fn run(rt: &HostRuntime) -> Result<(), Stop> {
    let settings = settings_of(rt)?;
    // each unit is a type of its own
    match settings.kind {
        Kind::Plain => replay(rt, settings, Plain::new()),
        Kind::Multiplier => replay(rt, settings, Multiplier::new()),
        Kind::Divider => replay(rt, settings, Divider::new()),
        Kind::All => replay(rt, settings, piles::all()),
        Kind::Deep => replay(rt, settings, piles::deep()),
    }
}

fn main(rt: HostRuntime) -> ExitCode {
    exit_code(&rt, "replay", run(&rt))
}
