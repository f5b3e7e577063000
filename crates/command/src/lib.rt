// What every command-line program does.
//
//   exit       says why a program stops
//   argument   the arguments, and a refused one in a line for people
//   input      the program's words, from standard input
//   page       standard output, written once a page has come together
//   registers  the registers that are not 0, in lines
#![tactic(auto)]

pub mod argument;
pub mod exit;
pub mod input;
pub mod page;
pub mod registers;
