// A unit over a queue of timed jobs, whatever its latency, its capacity and its classes.
ghost use Rattle.std.specs.Prelude.{◌≡◌, ℕ, ◌≤◌, Bool, false, []};
ghost use Rattle.isa.specs.declared.operation.Class.{Class};
ghost use Rattle.units.specs.Meaning.{room_for, take_answer};
ghost use Rattle.pipelines.specs.Queues.{jobs_of, stepped};
ghost use Rattle.pipelines.specs.Pipelines.{pipeline, taken, Sound};
ghost use Rattle.pipelines.specs.PipelineUnitLemmas.{jobs};
ghost use Rattle.pipelines.specs.Laws.{keeps};

use crate::queue::Queue;
use isa::operation::Class;
use refusal::NoRoom;
use std::marker::PhantomData;
use units::job::{Job, Offer, word_class};
use units::unit::Unit;

// What a pipeline serves.
pub trait Service {
    ghost LATENCY: { ℕ };

    ghost CAPACITY: { ℕ };

    ghost serves: { Class → Bool };

    // the steps that a job waits before it is offered
    const LATENCY: u8;

    // the most jobs at once
    const CAPACITY: u8;

    fn serves(class: Class) -> bool
        ensures { result ≡ serves class };

    // room for a job, and no more than a queue has
    ghost capacity: { (1 ≤ CAPACITY) × (CAPACITY ≤ 4) };
}

#[derive(Drop)]
pub struct Pipeline<S> {
    queue: Queue,
    service: PhantomData<S>,
}

impl<S: Service> Pipeline<S> {
    pub fn new() -> Pipeline<S>
        ensures { jobs_of result.queue ≡ [] }
    {
        Pipeline {
            queue: Queue::new(),
            service: PhantomData,
        }
    }
}

impl<S: Service> Unit for Pipeline<S> {
    ghost means = { pipeline S.LATENCY S.CAPACITY S.serves jobs };

    ghost laws = { keeps S.LATENCY S.CAPACITY S.serves jobs S.capacity.0 };

    fn room(&self, class: Class) -> bool {
        S::serves(class) && self.queue.has_room(S::CAPACITY)
    }

    fn take(&mut self, job: Job) -> Result<(), NoRoom>
        ensures answer { result ≡ take_answer (room_for (pipeline S.LATENCY S.CAPACITY S.serves jobs) self.old job.word) }
        ensures exact { jobs self.new ≡ taken S.CAPACITY S.serves job (jobs self.old) }
        ensures refused { room_for (pipeline S.LATENCY S.CAPACITY S.serves jobs) self.old job.word ≡ false → self.new ≡ self.old }
    {
        let class = word_class(job.word).ok_or(NoRoom)?;
        if !self.room(class) {
            return Err(NoRoom);
        }
        self.queue.push(job);
        Ok(())
    }

    fn offer(&self) -> Option<Offer> {
        self.queue.offer(S::LATENCY)
    }

    fn step(&mut self, accepted: bool)
        ensures { jobs self.new ≡ stepped S.LATENCY accepted (jobs self.old) }
    {
        self.queue.step(S::LATENCY, accepted);
    }

    fn clear(&mut self)
        ensures { jobs self.new ≡ [] }
    {
        self.queue.clear();
    }
}
