// The program's words, from standard input.
use crate::exit::said;
use console::program::parse_program;
use report::stops::Stop;
use std::io::Read;

pub fn read_program(rt: &HostRuntime) -> Result<Vec<u32>, Stop> {
    let mut text = Vec::new(rt.alloc());
    rt.stdin().read_to_end(&mut text)?;
    parse_program(rt.alloc(), text.as_slice()).map_err(|fault| said(rt.alloc(), fault))
}
