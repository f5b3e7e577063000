// How many instructions retired in each way.
ghost use Rattle.std.specs.Prelude.{◌≡◌};
ghost use Rattle.trace.specs.Counts.{no_counts, counted};

use machine::record::Retirement;

#[derive(Clone, Copy)]
pub struct Counts {
    pub plain: u64,
    pub trapped: u64,
    pub interrupted: u64,
}

impl Counts {
    pub(crate) fn new() -> Counts
        ensures { result ≡ no_counts }
    {
        Counts {
            plain: 0,
            trapped: 0,
            interrupted: 0,
        }
    }

    pub(crate) fn count(&mut self, outcome: Retirement)
        ensures { self.new ≡ counted outcome self.old }
    {
        match outcome {
            Retirement::Plain => self.plain = self.plain.saturating_add(1),
            Retirement::Trapped => self.trapped = self.trapped.saturating_add(1),
            Retirement::Interrupted => self.interrupted = self.interrupted.saturating_add(1),
        }
    }
}
