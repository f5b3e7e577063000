// What the command-line programs read.
//
//   digits    the value of digits in a base
//   numbers   a number, decimal or after 0x
//   lines     a line of program text
//   program   program text, line by line
//   faults    faults in a line for people
#![tactic(auto)]

mod digits;
pub mod faults;
pub mod lines;
pub mod numbers;
pub mod program;
