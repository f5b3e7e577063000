// A unit as an outside designer writes one: the plain class, a single job, offered at once.
#![tactic(auto)]

ghost use Rattle.std.specs.Prelude.{◌≡◌, None};
ghost use Rattle.single.specs.Single.{single, Sound, taken_in};
ghost use Rattle.units.specs.Meaning.{room_for, take_answer};
ghost use Rattle.single.specs.Laws.{keeps};

use isa::operation::Class;
use refusal::NoRoom;
use units::job::{Job, Offer, word_class};
use units::unit::Unit;

#[derive(Drop)]
pub struct Single {
    job: Option<Job>,
}

impl Single {
    pub fn new() -> Single
        ensures { result.job ≡ None }
    {
        Single { job: None }
    }
}

impl Unit for Single {
    ghost means = { single };

    ghost laws = { keeps };

    fn room(&self, class: Class) -> bool {
        matches!(class, Class::Plain) && self.job.is_none()
    }

    // As a pipeline's: what each unit does with a job that has room is its own.
    fn take(&mut self, job: Job) -> Result<(), NoRoom>
        ensures answer { result ≡ take_answer (room_for single self.old job.word) }
        ensures exact { self.new.job ≡ taken_in job self.old.job }
    {
        let class = word_class(job.word).ok_or(NoRoom)?;
        if !self.room(class) {
            return Err(NoRoom);
        }
        self.job = Some(job);
        Ok(())
    }

    fn offer(&self) -> Option<Offer> {
        self.job?.offer()
    }

    fn step(&mut self, accepted: bool) {
        if accepted {
            self.job = None;
        }
    }

    fn clear(&mut self) {
        self.job = None;
    }
}
