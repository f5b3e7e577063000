// The calls on a running core, each with its outcome.
ghost use Rattle.std.specs.Prelude.{◌≡◌, ◌≤◌};
ghost use Rattle.machine.specs.Classes.{serves};
ghost use Rattle.law.specs.Steps.{roomy};
ghost use Rattle.law.specs.Calls.{IssueCall, going, DispatchCall, CompleteCall, RetireCall, CycleCall, RunCall, LineCall};
ghost use Rattle.law.specs.Pasts.{cycle};
ghost use Rattle.law.specs.Laws.{reports};

use crate::flight;
use crate::running::Ran;
use isa::operation::Class;
use law::state::Running;
use machine::classes::Classes;
use machine::record::Record;
use refusal::{IssueFault, NoneGoes, RetireFault};
use units::job::Job;
use units::unit::Unit;

// The classes that a unit has room for.
pub(crate) fn rooms<U: Unit>(unit: &U) -> Classes
    ensures set { result ≡ roomy (U.Unit.means.room unit.now) }
    ensures each { serves result ≡ U.Unit.means.room unit.now }
{
    Classes {
        plain: unit.room(Class::Plain),
        multiply: unit.room(Class::Multiply),
        divide: unit.room(Class::Divide),
        transfer: unit.room(Class::Transfer),
    }
}

pub(crate) fn issue<U: Unit>(running: &mut Running<U>) -> Result<u8, IssueFault>
    ensures { IssueCall U.Unit.means running.old result running.new }
{
    flight::issue(&mut running.core)
}

// The oldest job that may go to the unit.
fn next_job<U: Unit>(running: &Running<U>) -> Option<Job>
    ensures { result ≡ going U.Unit.means running.now }
{
    let room = rooms(&running.unit);
    let head = running.core.buffer.head();
    running.core.stations.select(room, head)
}

pub(crate) fn dispatch<U: Unit>(running: &mut Running<U>) -> Result<u8, NoneGoes>
    ensures { DispatchCall U.Unit.means running.old result running.new }
{
    let job = next_job(running).ok_or(NoneGoes {})?;
    // it has room: that is how the job was chosen
    let _ = running.unit.take(job);
    running.core.stations.free(job.tag);
    Ok(job.tag)
}

// The unit steps, accepted, whether it offers or not.
pub(crate) fn complete<U: Unit>(running: &mut Running<U>) -> Option<u8>
    ensures { CompleteCall U.Unit.means running.old result running.new }
{
    let offer = running.unit.offer();
    running.unit.step(true);
    let offer = offer?;
    flight::finish(&mut running.core, offer);
    Some(offer.tag)
}

pub(crate) fn retire<U: Unit>(running: &mut Running<U>) -> Result<Record, RetireFault>
    ensures { RetireCall U.Unit.means running.old result running.new }
{
    let entry = running.core.buffer.oldest().ok_or(RetireFault::Empty)?;
    let judgement = entry.result.ok_or(RetireFault::HeadWaits)?;
    if flight::diverts(&running.core, judgement) {
        running.unit.clear();
        Ok(flight::flush(&mut running.core, entry, judgement))
    } else {
        Ok(flight::retire_on(&mut running.core, entry, judgement))
    }
}

// Inner refusals are no refusal of the cycle.
pub(crate) fn cycle<U: Unit>(running: &mut Running<U>) -> Option<Record>
    ensures { CycleCall U.Unit.means running.old result running.new }
{
    let retirement = retire(running);
    complete(running);
    let _ = dispatch(running);
    let _ = issue(running);
    retirement.ok()
}

pub(crate) fn set_line<U: Unit>(running: &mut Running<U>, up: bool)
    ensures { LineCall U.Unit.means up running.old running.new }
{
    running.core.line = up;
}

fn reported(answer: Option<Record>) -> u64
    ensures count { result ≡ reports (cycle answer) }
    ensures one { result ≤ 1 }
{
    u64::from(answer.is_some())
}

pub(crate) fn run<U: Unit>(running: &mut Running<U>, wanted: u64, budget: u64) -> Ran
    ensures { RunCall U.Unit.means wanted budget result.cycles result.retirements running.old running.new }
{
    let mut cycles = 0;
    let mut retirements = 0;
    // two counts end the loop, and both are the answer: a `for` over one would have two ways out
    while retirements < wanted && cycles < budget {
        retirements += reported(cycle(running));
        cycles += 1;
    }
    Ran {
        cycles,
        retirements,
    }
}
