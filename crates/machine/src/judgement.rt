// What an instruction does to the state of the machine.
use crate::cause::Cause;

#[derive(Clone, Copy)]
pub enum Judgement {
    Trap(Cause),
    // MRET
    Return,
    Write { rd: u8, value: u32, next: u32 },
}
