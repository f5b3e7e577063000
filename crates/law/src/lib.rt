// What a core is and does, over any unit, and the law of every past: definitions and proofs, no calls.
//
//   state  the core without its unit, running and stopped
//   past   the law that holds of every past of every core
#![tactic(auto)]

pub mod past;
pub mod state;
