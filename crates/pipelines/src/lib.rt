// Units over one queue of timed jobs.
//
//   queue       the queue
//   pipeline    a unit over it, by what it serves
//   plain       the unit of the plain and the transfer class: two jobs, no latency
//   multiplier  the unit of the multiply class: four jobs, a latency of three steps
//   supplied    what the two mean as units
#![tactic(auto)]

pub mod multiplier;
pub mod pipeline;
pub mod plain;
mod queue;
pub mod supplied;
