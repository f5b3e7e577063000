// A run: what makes its retirements, and how they went.
ghost use Rattle.std.specs.Prelude.{◌≡◌};
ghost use Rattle.trace.specs.Sessions.{session_of, SessionAdvances};

use crate::counts::Counts;
use engines::Engine;
use machine::record::Record;
use options::schedule::{LineEvent, line_stands};

#[derive(Drop)]
pub struct Session<E> {
    pub engine: E,
    pub counts: Counts,
    pub retired: u64,
    pub cycles: u64,
}

impl<E: Engine> Session<E> {
    pub(crate) fn new(engine: E) -> Session<E>
        ensures { result ≡ session_of engine }
    {
        Session {
            engine,
            counts: Counts::new(),
            retired: 0,
            cycles: 0,
        }
    }

    // One cycle, under the line as the events have set it by now.
    pub(crate) fn advance(&mut self, events: &[LineEvent]) -> Option<Record>
        ensures { SessionAdvances E.Advances events.now self.old result self.new }
    {
        let line = line_stands(events, self.retired);
        self.cycles = self.cycles.saturating_add(1);
        let record = self.engine.advance(line)?;
        self.counts.count(record.outcome);
        self.retired = self.retired.saturating_add(1);
        Some(record)
    }
}
