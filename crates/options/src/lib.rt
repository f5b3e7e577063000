// The options of a run.
//
//   addresses  a number argument that 32 bits hold
//   arguments  the options, from the argument list
//   schedule   how the interrupt line stands over a run
//   faults     faults in a line for people
#![tactic(auto)]

pub mod addresses;
pub mod arguments;
pub mod faults;
pub mod schedule;
