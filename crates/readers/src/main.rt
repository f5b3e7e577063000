// The readers of the model's output, each with a small example of what it calls and what it gets.
//
//   bench       compares retirement records
//   handlers    reads the state around an interrupt
//   designers   puts a unit under a core
//   timing      adds up the longest wait
//   assemblers  writes words
#![tactic(auto)]

mod assemblers;
mod bench;
mod designers;
mod handlers;
mod timing;

use std::io;

fn main(rt: HostRuntime) -> io::Result<()> {
    bench::show(&rt)?;
    handlers::show(&rt)?;
    designers::show(&rt)?;
    timing::show_waits(&rt)?;
    timing::show_run(&rt)?;
    assemblers::show(&rt)
}
