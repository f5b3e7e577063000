// What a unit is given, and what it gives back.
ghost use Rattle.std.specs.Prelude.{◌≡◌};
ghost use Rattle.units.specs.Jobs.{word_class, job_outcome, job_offer};

use isa::operation::Class;
use isa::outcome::Outcome;

#[derive(Clone, Copy, Default)]
pub struct Job {
    // under which the outcome is awaited
    pub tag: u8,
    pub word: u32,
    pub pc: u32,
    // the values of the source registers
    pub a: u32,
    pub b: u32,
}

#[derive(Clone, Copy)]
pub struct Offer {
    pub tag: u8,
    pub outcome: Outcome,
}

// None for a word that no unit works out.
pub fn word_class(word: u32) -> Option<Class>
    ensures { result ≡ word_class word }
{
    let instruction = words::read(word).ok()?;
    instruction.operation.class()
}

impl Job {
    // None for a word that no unit works out.
    pub fn outcome(self) -> Option<Outcome>
        ensures { result ≡ job_outcome self }
    {
        let instruction = words::read(self.word).ok()?;
        execute::outcome(instruction, self.pc, self.a, self.b)
    }

    // The outcome under the job's tag.
    pub fn offer(self) -> Option<Offer>
        ensures { result ≡ job_offer self }
    {
        let outcome = self.outcome()?;
        Some(Offer {
            tag: self.tag,
            outcome,
        })
    }
}
