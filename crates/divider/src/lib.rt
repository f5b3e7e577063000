// The divider: a unit for class Divide that holds one job and brings one quotient bit a step.
//
//   division  the four divisions, and how they read their operands and sign their results
//   working   a division on its way
//   state     what the divider holds, and how a division goes on
#![tactic(auto)]

ghost use Rattle.std.specs.Prelude.{◌≡◌};
ghost use Rattle.units.specs.Meaning.{Same, room_for, take_answer, Taken, Stepped, Empty};
ghost use Rattle.divider.specs.States.{idle, took_in, stepped_in};
ghost use Rattle.divider.specs.Model.{model, Sound};
ghost use Rattle.divider.specs.Meets.{keeps};

use isa::operation::Class;
use isa::outcome::Outcome;
use refusal::NoRoom;
use state::State;
use units::job::{Job, Offer};
use units::unit::Unit;
use working::Working;

mod division;
mod state;
mod working;

#[derive(Drop)]
pub struct Divider {
    state: State,
}

impl Divider {
    pub fn new() -> Divider
        ensures empty { Empty model result }
        ensures sound { Sound result }
        ensures state { result ≡ idle }
    {
        Divider { state: State::Idle }
    }
}

impl Unit for Divider {
    ghost means = { model };

    ghost laws = { keeps };

    fn room(&self, class: Class) -> bool {
        matches!((self.state, class), (State::Idle, Class::Divide))
    }

    // The clauses of an impl stand in the trait's place, so Same is said again here and below.
    fn take(&mut self, job: Job) -> Result<(), NoRoom>
        ensures answer { result ≡ take_answer (room_for model self.old job.word) }
        ensures same { Same model self.old self.new }
        ensures taken { Taken model (room_for model self.old job.word) self.old job self.new }
        ensures state { self.new ≡ took_in self.old job }
    {
        let division = self.state.admit(job.word).ok_or(NoRoom)?;
        self.state = State::Working(Working::start(division, job));
        Ok(())
    }

    fn offer(&self) -> Option<Offer> {
        match self.state {
            State::Finished(finished) => Some(Offer {
                tag: finished.job.tag,
                outcome: Outcome::Done {
                    value: finished.value,
                    next: finished.job.pc.wrapping_add(4),
                },
            }),
            _ => None,
        }
    }

    fn step(&mut self, accepted: bool)
        ensures same { Same model self.old self.new }
        ensures stepped { Sound self.old → Stepped model self.old accepted self.new × Sound self.new }
        ensures state { self.new ≡ stepped_in accepted self.old }
    {
        match (self.state, accepted) {
            (State::Working(working), _) => self.state = working.next(),
            (State::Finished(_), true) => self.state = State::Idle,
            _ => {}
        }
    }

    fn clear(&mut self)
        ensures same { Same model self.old self.new }
        ensures empty { Empty model self.new }
        ensures sound { Sound self.new }
        ensures state { self.new ≡ idle }
    {
        self.state = State::Idle;
    }
}
