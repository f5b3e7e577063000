// Functional units: what a unit means, whatever is inside it.
//
//   job   what a unit is given, and what it gives back
//   unit  the meaning of a unit, as a trait
//   runs  what that meaning promises over many calls
#![tactic(auto)]

pub mod job;
pub mod runs;
pub mod unit;
