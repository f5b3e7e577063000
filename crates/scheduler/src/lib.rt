// The out-of-order core over any unit. A stopped core takes a program and writes of registers; a running one takes calls.
//
//   stopped  a core that is made, loaded and written
//   running  a core that issues, dispatches, completes and retires
//   calls    what each call does to core and unit
//   flight   what it does to the core without its unit
#![tactic(auto)]

mod calls;
mod flight;
pub mod running;
pub mod stopped;
