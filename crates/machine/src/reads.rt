// What can be read of the machine.
ghost use Rattle.std.specs.Prelude.{◌≡◌, length};
ghost use Rattle.machine.specs.Programs.{word_at};
ghost use Rattle.machine.specs.States.{register_of, register_answer};

use crate::state::{Machine, TrapState};
use refusal::NoRegister;

impl Machine {
    // What an instruction reads from a register. No word has one above 31: there is nothing to read there.
    pub fn operand(&self, register: u8) -> u32
        ensures { result ≡ register_of self.now register }
    {
        self.registers
            .get(usize::from(register))
            .copied()
            .unwrap_or(0)
    }

    // None outside the program.
    pub fn word_at(&self, address: u32) -> Option<u32>
        ensures { result ≡ word_at self.now.program address }
    {
        self.program.word_at(address)
    }

    pub fn register(&self, number: u8) -> Result<u32, NoRegister>
        ensures { result ≡ register_answer self.now number }
    {
        self.registers
            .get(usize::from(number))
            .copied()
            .ok_or(NoRegister { register: number })
    }

    // All 32, register 0 first.
    pub fn registers(&self) -> &[u32]
        ensures values { result.now ≡ self.now.registers }
        ensures all { length self.now.registers ≡ 32 }
    {
        &self.registers
    }

    pub fn pc(&self) -> u32
        ensures { result ≡ self.now.pc }
    {
        self.pc
    }

    pub fn trap_state(&self) -> TrapState
        ensures { result ≡ self.now.trap }
    {
        self.trap
    }
}
