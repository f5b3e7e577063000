// What a classed instruction works out: a value and the next address, or a target that is no multiple of 4.
// No Option and no Result: a misaligned target is an outcome too, and retires.
#[derive(Clone, Copy)]
pub enum Outcome {
    Done { value: u32, next: u32 },
    Misaligned,
}
