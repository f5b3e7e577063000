// The state of the machine: made, loaded and written.
ghost use Rattle.std.specs.Prelude.{◌≡◌};
ghost use Rattle.machine.specs.States.{fresh, load_answer, load_state, write_register_answer, write_register_state, write_pc_answer, write_pc_state};
ghost use Rattle.machine.specs.Step.{written};

use crate::program::Program;
use refusal::{LoadFault, NoRegister, SkewedAddress};

// The words and bits besides registers, pc and program.
#[derive(Clone, Copy)]
pub struct TrapState {
    pub mepc: u32,
    pub mcause: u32,
    pub mie: bool,
    pub mpie: bool,
    pub vector: u32,
}

#[derive(Clone, Copy)]
pub struct Machine {
    pub(crate) registers: [u32; 32],
    pub(crate) pc: u32,
    pub(crate) trap: TrapState,
    pub(crate) program: Program,
}

impl Machine {
    pub fn new() -> Machine
        ensures { result ≡ fresh }
    {
        Machine {
            registers: [0; 32],
            pc: 0,
            trap: TrapState {
                mepc: 0,
                mcause: 0,
                mie: true,
                mpie: true,
                vector: 0,
            },
            program: Program::empty(),
        }
    }

    // Three parameters, since words, pc and vector are those of the published call.
    pub fn load(&mut self, words: &[u32], pc: u32, vector: u32) -> Result<(), LoadFault>
        ensures answer { result ≡ load_answer words.now pc vector }
        ensures state { self.new ≡ load_state words.now pc vector self.old }
    {
        if words.len() > Program::CAPACITY {
            return Err(LoadFault::Overlong);
        }
        if pc % 4 != 0 || vector % 4 != 0 {
            return Err(LoadFault::Skew);
        }
        *self = Machine::new();
        self.program = Program::of_words(words);
        self.pc = pc;
        self.trap.vector = vector;
        Ok(())
    }

    pub fn write_register(&mut self, number: u8, value: u32) -> Result<(), NoRegister>
        ensures answer { result ≡ write_register_answer number }
        ensures state { self.new ≡ write_register_state number value self.old }
    {
        if number >= 32 {
            return Err(NoRegister { register: number });
        }
        self.set_register(number, value);
        Ok(())
    }

    // Register 0 takes no value, and no word has one above 31.
    pub(crate) fn set_register(&mut self, number: u8, value: u32)
        ensures { self.new ≡ written number value self.old.pc self.old }
    {
        if let 1..32 = number {
            self.registers[usize::from(number)] = value;
        }
    }

    pub fn write_pc(&mut self, address: u32) -> Result<(), SkewedAddress>
        ensures answer { result ≡ write_pc_answer address }
        ensures state { self.new ≡ write_pc_state address self.old }
    {
        if address % 4 != 0 {
            return Err(SkewedAddress { address });
        }
        self.pc = address;
        Ok(())
    }
}
