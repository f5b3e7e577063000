// A stopped core: made, loaded, written, and started.
ghost use Rattle.std.specs.Prelude.{◌≡◌};
ghost use Rattle.machine.specs.States.{load_answer, write_register_answer, write_pc_answer};
ghost use Rattle.law.specs.Calls.{StartCall};
ghost use Rattle.law.specs.Laws.{Begins};
ghost use Rattle.law.specs.Pasts.{Sized};
ghost use Rattle.scheduler.specs.Stops.{made, loaded, register_written, pc_written};

use crate::calls;
use crate::running::Running;
use law::state::Core;
use machine::state::Machine;
use refusal::{LoadFault, NoRegister, SkewedAddress};
use tables::buffer::Buffer;
use tables::stations::Stations;
use tables::tags::Tags;
use units::unit::Unit;

#[derive(Drop)]
pub struct Stopped<U> {
    pub(crate) state: law::state::Stopped<U>,
}

impl<U: Unit> Stopped<U> {
    pub fn new(unit: U) -> Stopped<U>
        ensures { result.state ≡ made unit }
    {
        Stopped {
            state: law::state::Stopped {
                machine: Machine::new(),
                line: false,
                unit,
            },
        }
    }

    // Copies the words; registers and trap state start afresh, and the line is down. The parameters are those of the published call.
    pub fn load(&mut self, words: &[u32], pc: u32, vector: u32) -> Result<(), LoadFault>
        ensures answer { result ≡ load_answer words.now pc vector }
        ensures state { self.new.state ≡ loaded words.now pc vector self.old.state }
    {
        self.state.machine.load(words, pc, vector)?;
        self.state.line = false;
        Ok(())
    }

    pub fn write_register(&mut self, number: u8, value: u32) -> Result<(), NoRegister>
        ensures answer { result ≡ write_register_answer number }
        ensures state { self.new.state ≡ register_written number value self.old.state }
    {
        self.state.machine.write_register(number, value)
    }

    pub fn write_pc(&mut self, address: u32) -> Result<(), SkewedAddress>
        ensures answer { result ≡ write_pc_answer address }
        ensures state { self.new.state ≡ pc_written address self.old.state }
    {
        self.state.machine.write_pc(address)
    }

    // Registers, pc and trap state.
    pub fn machine(&self) -> &Machine
        ensures { result.now ≡ self.now.state.machine }
    {
        &self.state.machine
    }

    // Whether the interrupt line is up.
    pub fn line(&self) -> bool
        ensures { result ≡ self.now.state.line }
    {
        self.state.line
    }

    // With nothing in flight, fetching from pc.
    fn begin(self) -> Running<U>
        ensures outcome { StartCall U.Unit.means self.state result.state }
        ensures sized { Sized self.state.machine }
    {
        // a past begins with 32 registers: the array's type says so here
        let _ = self.state.machine.registers();
        let law::state::Stopped {
            machine,
            line,
            mut unit,
        } = self.state;
        unit.clear();
        let served = calls::rooms(&unit);
        let fetch = machine.pc();
        Running {
            state: law::state::Running {
                core: Core {
                    machine,
                    line,
                    served,
                    fetch,
                    buffer: Buffer::new(),
                    stations: Stations::new(),
                    tags: Tags::new(),
                },
                unit,
            },
        }
    }

    pub fn start(self) -> Running<U>
        ensures outcome { StartCall U.Unit.means self.state result.state }
        ensures past { Begins U.Unit.means self.state result.state }
    {
        self.begin()
    }

    pub fn into_unit(self) -> U
        ensures { result ≡ self.state.unit }
    {
        self.state.unit
    }
}
