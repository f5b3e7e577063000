// At most four jobs, oldest first, each with the steps since it was taken.
ghost use Rattle.std.specs.Prelude.{◌≡◌, ◌<◌, [], map, length, nat_lt, option_copied};
ghost use Rattle.pipelines.specs.Queues.{jobs_of, oldest, pushed, ticked, waited, ready, stepped};
ghost use Rattle.pipelines.specs.Pipelines.{outcome_offer, offered};

use arrayvec::ArrayVec;
use units::job::{Job, Offer};

#[derive(Clone, Copy, Default)]
pub struct Timed {
    job: Job,
    // the steps since it was taken, counted up to the latency
    passed: u8,
}

#[derive(Drop)]
pub struct Queue {
    jobs: ArrayVec<Timed, 4>,
}

impl Timed {
    fn tick(&mut self, latency: u8)
        ensures { self.new ≡ ticked latency self.old }
    {
        self.passed = self.passed.saturating_add(1).min(latency);
    }

    fn has_waited(self, latency: u8) -> bool
        ensures { result ≡ waited latency self }
    {
        self.passed >= latency
    }

    fn offer(self, latency: u8) -> Option<Offer>
        ensures { result ≡ outcome_offer latency self }
    {
        if !self.has_waited(latency) {
            return None;
        }
        self.job.offer()
    }
}

// One step more for each.
fn tick_all(jobs: &mut [Timed], latency: u8)
    ensures { jobs.new ≡ map (ticked latency) jobs.old }
{
    for timed in jobs.iter_mut() {
        timed.tick(latency);
    }
}

impl Queue {
    pub(crate) fn new() -> Queue
        ensures { jobs_of result ≡ [] }
    {
        Queue {
            jobs: ArrayVec::new(),
        }
    }

    pub(crate) fn has_room(&self, capacity: u8) -> bool
        ensures { result ≡ nat_lt (length (jobs_of self.now)) capacity }
    {
        self.jobs.len() < usize::from(capacity)
    }

    pub(crate) fn push(&mut self, job: Job)
        requires { length (jobs_of self.old) < 4 }
        ensures { jobs_of self.new ≡ pushed job (jobs_of self.old) }
    {
        self.jobs.push(Timed { job, passed: 0 });
    }

    fn oldest(&self) -> Option<&Timed>
        ensures { option_copied result ≡ oldest (jobs_of self.now) }
    {
        self.jobs.first()
    }

    fn is_ready(&self, latency: u8) -> bool
        ensures { result ≡ ready latency (jobs_of self.now) }
    {
        self.oldest().is_some_and(|timed| timed.has_waited(latency))
    }

    pub(crate) fn offer(&self, latency: u8) -> Option<Offer>
        ensures { result ≡ offered latency (jobs_of self.now) }
    {
        self.oldest()?.offer(latency)
    }

    pub(crate) fn step(&mut self, latency: u8, accepted: bool)
        ensures { jobs_of self.new ≡ stepped latency accepted (jobs_of self.old) }
    {
        if accepted && self.is_ready(latency) {
            self.jobs.remove(0);
        }
        tick_all(&mut self.jobs, latency);
    }

    pub(crate) fn clear(&mut self)
        ensures { jobs_of self.new ≡ [] }
    {
        self.jobs.clear();
    }
}
