// Words, records, refused loads and why a program stops, as other programs and people read them.
//
//   hex      a word as eight hex digits
//   records  a record as a line
//   loads    a refused load as a line
//   stops    why a program stops, as a line
#![tactic(auto)]

pub mod hex;
pub mod loads;
pub mod records;
pub mod stops;
