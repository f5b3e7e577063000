// The state of a core over any unit.
use machine::classes::Classes;
use machine::state::Machine;
use tables::buffer::Buffer;
use tables::stations::Stations;
use tables::tags::Tags;

// A running core without its unit.
#[derive(Clone, Copy)]
pub struct Core {
    // as programmers see it
    pub machine: Machine,
    // whether the interrupt line is up
    pub line: bool,
    // the classes that the unit serves
    pub served: Classes,
    // where the next instruction is issued from
    pub fetch: u32,
    pub buffer: Buffer,
    pub stations: Stations,
    pub tags: Tags,
}

#[derive(Drop)]
pub struct Running<U> {
    pub core: Core,
    pub unit: U,
}

#[derive(Drop)]
pub struct Stopped<U> {
    pub machine: Machine,
    pub line: bool,
    pub unit: U,
}
