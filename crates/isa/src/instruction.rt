// An instruction: an operation with its registers and its immediate. What the operation lacks is 0, as words are written.
use crate::operation::Operation;

#[derive(Clone, Copy)]
pub struct Instruction {
    pub operation: Operation,
    pub rd: u8,
    pub rs1: u8,
    pub rs2: u8,
    pub immediate: i32,
}
