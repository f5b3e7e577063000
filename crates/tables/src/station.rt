// One instruction that waits for its operands, or for room in a unit.
ghost use Rattle.std.specs.Prelude.{◌≡◌};
ghost use Rattle.tables.specs.Waiting.{filled, woken, job_of};

use isa::operation::Class;
use units::job::Job;

// No Result, since to await an operand is no failure.
#[derive(Clone, Copy)]
pub enum Operand {
    Value(u32),
    // the tag of the entry that will bring it
    Awaits(u8),
}

#[derive(Clone, Copy)]
pub struct Station {
    // the entry that its outcome goes to
    pub tag: u8,
    pub class: Class,
    pub word: u32,
    pub pc: u32,
    pub a: Operand,
    pub b: Operand,
}

impl Operand {
    fn fill(&mut self, tag: u8, value: u32)
        ensures { self.new ≡ filled tag value self.old }
    {
        if let Operand::Awaits(awaited) = *self
            && awaited == tag
        {
            *self = Operand::Value(value);
        }
    }
}

impl Station {
    // The value under a tag has come.
    pub(crate) fn wake(&mut self, tag: u8, value: u32)
        ensures { self.new ≡ woken tag value self.old }
    {
        self.a.fill(tag, value);
        self.b.fill(tag, value);
    }

    // None while an operand is awaited.
    pub(crate) fn job(&self) -> Option<Job>
        ensures { result ≡ job_of self.now }
    {
        let (Operand::Value(a), Operand::Value(b)) = (self.a, self.b) else {
            return None;
        };
        Some(Job {
            tag: self.tag,
            word: self.word,
            pc: self.pc,
            a,
            b,
        })
    }
}
