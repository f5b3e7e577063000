// A running core: its calls, each with its outcome, and with the law of every past that it extends.
ghost use Rattle.std.specs.Prelude.{◌≡◌, true, false};
ghost use Rattle.law.specs.Calls.{IssueCall, DispatchCall, CompleteCall, RetireCall, CycleCall, RunCall, LineCall, StopCall};
ghost use Rattle.law.specs.Pasts.{issue, dispatch, complete, retire, cycle, run, raise, drop, line_set};
ghost use Rattle.law.specs.Laws.{Extends};

use crate::calls;
use crate::stopped::Stopped;
use machine::record::Record;
use machine::state::Machine;
use refusal::{IssueFault, NoneGoes, RetireFault};
use units::unit::Unit;

#[derive(Drop)]
pub struct Running<U> {
    pub(crate) state: law::state::Running<U>,
}

// How many cycles a run made, and how many of them retired an instruction.
#[derive(Clone, Copy)]
pub struct Ran {
    pub cycles: u64,
    pub retirements: u64,
}

impl<U: Unit> Running<U> {
    // Takes the word at the fetch address, and answers its tag.
    pub fn issue(&mut self) -> Result<u8, IssueFault>
        ensures outcome { IssueCall U.Unit.means self.old.state result self.new.state }
        ensures past { Extends U.Unit.means self.old.state (issue result) self.new.state }
    {
        calls::issue(&mut self.state)
    }

    // Sends the oldest instruction that may go to the unit, and answers its tag.
    pub fn dispatch(&mut self) -> Result<u8, NoneGoes>
        ensures outcome { DispatchCall U.Unit.means self.old.state result self.new.state }
        ensures past { Extends U.Unit.means self.old.state (dispatch result) self.new.state }
    {
        calls::dispatch(&mut self.state)
    }

    // Finishes the instruction that the unit offers, if any, and answers its tag.
    pub fn complete(&mut self) -> Option<u8>
        ensures outcome { CompleteCall U.Unit.means self.old.state result self.new.state }
        ensures past { Extends U.Unit.means self.old.state (complete result) self.new.state }
    {
        calls::complete(&mut self.state)
    }

    // Makes one step of the machine with the oldest instruction, and answers its record.
    pub fn retire(&mut self) -> Result<Record, RetireFault>
        ensures outcome { RetireCall U.Unit.means self.old.state result self.new.state }
        ensures past { Extends U.Unit.means self.old.state (retire result) self.new.state }
    {
        calls::retire(&mut self.state)
    }

    // Retire, complete, dispatch, issue, once each.
    pub fn cycle(&mut self) -> Option<Record>
        ensures outcome { CycleCall U.Unit.means self.old.state result self.new.state }
        ensures past { Extends U.Unit.means self.old.state (cycle result) self.new.state }
    {
        calls::cycle(&mut self.state)
    }

    // Makes cycles until it has the retirements wanted or has spent its budget.
    pub fn run(&mut self, wanted: u64, budget: u64) -> Ran
        ensures outcome { RunCall U.Unit.means wanted budget result.cycles result.retirements self.old.state self.new.state }
        ensures past { Extends U.Unit.means self.old.state (run wanted budget result.cycles result.retirements) self.new.state }
    {
        calls::run(&mut self.state, wanted, budget)
    }

    // Sets the interrupt line up or down.
    pub fn set_line(&mut self, up: bool)
        ensures outcome { LineCall U.Unit.means up self.old.state self.new.state }
        ensures past { Extends U.Unit.means self.old.state (line_set up) self.new.state }
    {
        calls::set_line(&mut self.state, up);
    }

    pub fn raise_line(&mut self)
        ensures outcome { LineCall U.Unit.means true self.old.state self.new.state }
        ensures past { Extends U.Unit.means self.old.state raise self.new.state }
    {
        self.set_line(true);
    }

    pub fn drop_line(&mut self)
        ensures outcome { LineCall U.Unit.means false self.old.state self.new.state }
        ensures past { Extends U.Unit.means self.old.state drop self.new.state }
    {
        self.set_line(false);
    }

    // Registers, pc and trap state: pc is that of the next retirement.
    pub fn machine(&self) -> &Machine
        ensures { result.now ≡ self.now.state.core.machine }
    {
        &self.state.core.machine
    }

    // Whether the interrupt line is up.
    pub fn line(&self) -> bool
        ensures { result ≡ self.now.state.core.line }
    {
        self.state.core.line
    }

    // Discards what is in flight; registers, pc, trap state, program and line stay.
    pub fn stop(self) -> Stopped<U>
        ensures { StopCall U.Unit.means self.state result.state }
    {
        let law::state::Running { core, mut unit } = self.state;
        unit.clear();
        Stopped {
            state: law::state::Stopped {
                machine: core.machine,
                line: core.line,
                unit,
            },
        }
    }
}
