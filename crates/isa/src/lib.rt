// RISC-V instructions: the 37 operations, and how they are written for people.
//
//   operation    the operations by their manual names, and their classes
//   instruction  an operation with its registers and its immediate
//   outcome      the type of what an instruction works out
//   text         instructions in assembler syntax
#![tactic(auto)]

pub mod instruction;
pub mod operation;
pub mod outcome;
pub mod text;
