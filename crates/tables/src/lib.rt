// What a running core keeps of instructions in flight: plain tables, each changed by equality with a definition.
//
//   entry     one instruction in the reorder buffer
//   buffer    the reorder buffer: 16 entries, first in first out
//   reads     what the buffer holds
//   station   one instruction that waits for its operands, and what an operand is
//   stations  the eight reservation stations
//   tags      which entry will write a register
#![tactic(auto)]

pub mod buffer;
pub mod entry;
mod reads;
pub mod station;
pub mod stations;
pub mod tags;
