// The sequential machine: one instruction after another, as programmers see the core.
//
//   cause     why an instruction traps
//   classes   the classes of instructions that the units serve
//   program   the table of program words
//   record    what one step did
//   state     registers, pc, trap state and program: made, loaded and written
//   reads     what can be read of them
//   decode    what the word at pc asks for
//   judgement what an instruction does to the state
//   step      one step: judge the instruction at pc, then apply the judgement to the state
#![tactic(auto)]

pub mod cause;
pub mod classes;
pub mod decode;
pub mod judgement;
pub mod program;
mod reads;
pub mod record;
pub mod state;
pub mod step;
