// A line of a past: a call on a running core, read, and its answer, written.
//
//   calls    calls by their names, and the words of the program before them
//   faults   faults in a line for people
//   answers  what a call answered, as a line
#![tactic(auto)]

pub mod answers;
pub mod calls;
pub mod faults;
