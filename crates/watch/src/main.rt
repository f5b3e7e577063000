// Pushes jobs through a named unit, step by step, and writes what it holds, what it offers and when that leaves.
#![tactic(auto)]

mod jobs;

use crate::jobs::parse_jobs;
use command::exit::{exit_code, said};
use divider::Divider;
use isa::outcome::Outcome;
use pipelines::multiplier::Multiplier;
use pipelines::plain::Plain;
use refusal::NoRoom;
use report::hex::Hex8;
use report::stops::Stop;
use single::Single;
use std::process::ExitCode;
use std::{env, fmt, io};
use units::job::{Job, Offer};
use units::unit::Unit;

const USAGE: &str = "one argument: plain, multiplier, divider, single, all or deep";

// More steps than any supplied unit needs for a job: none stays longer than 132.
const STEPS_A_JOB: usize = 200;

// What became of the next job.
#[derive(Clone, Copy)]
enum Attempt {
    NoJob,
    // its tag is still held
    Waits(u8),
    Taken(u8),
    Refused(u8),
    Dropped(u8),
}

impl fmt::Display for Attempt {
    fn fmt<W: fmt::Write>(&self, f: &mut fmt::Formatter<W>) -> fmt::Result {
        match *self {
            Attempt::NoJob => f.write_str("-"),
            Attempt::Waits(tag) => write!(f, "{tag} waits: its tag is held"),
            Attempt::Taken(tag) => write!(f, "{tag} taken"),
            Attempt::Refused(tag) => write!(f, "{tag} refused, {}", NoRoom),
            Attempt::Dropped(tag) => write!(f, "{tag} refused, {}, and dropped", NoRoom),
        }
    }
}

// The tags of the jobs that the unit was given and that have not left. A table, since a step must not run out of memory.
#[derive(Clone, Copy)]
struct Held([bool; 256]);

impl Held {
    fn contains(&self, tag: u8) -> bool {
        self.0[usize::from(tag)]
    }

    fn insert(&mut self, tag: u8) {
        self.0[usize::from(tag)] = true;
    }

    fn remove(&mut self, tag: u8) {
        self.0[usize::from(tag)] = false;
    }

    fn is_empty(&self) -> bool {
        !self.0.contains(&true)
    }
}

impl fmt::Display for Held {
    fn fmt<W: fmt::Write>(&self, f: &mut fmt::Formatter<W>) -> fmt::Result {
        for (tag, held) in self.0.iter().enumerate() {
            if *held {
                write!(f, " {tag}")?;
            }
        }
        Ok(())
    }
}

#[derive(Clone, Copy)]
struct Shown(Option<Offer>);

impl fmt::Display for Shown {
    fn fmt<W: fmt::Write>(&self, f: &mut fmt::Formatter<W>) -> fmt::Result {
        let Some(Offer { tag, outcome }) = self.0 else {
            return f.write_str("no offer");
        };
        match outcome {
            Outcome::Done { value, next } => write!(
                f,
                "offers {tag}, value {}, next {}",
                Hex8(value),
                Hex8(next)
            ),
            Outcome::Misaligned => write!(f, "offers {tag}, misaligned target"),
        }
    }
}

#[derive(Drop)]
struct Bench<'a, U> {
    unit: U,
    waiting: &'a [Job],
    held: Held,
}

impl<'a, U: Unit> Bench<'a, U> {
    fn give(&mut self) -> Attempt {
        let [job, rest @ ..] = self.waiting else {
            return Attempt::NoJob;
        };
        let tag = job.tag;
        if self.held.contains(tag) {
            return Attempt::Waits(tag);
        }
        if self.unit.take(*job).is_ok() {
            self.held.insert(tag);
            self.waiting = rest;
            Attempt::Taken(tag)
        } else if self.held.is_empty() {
            // a unit without jobs has room for each of its classes: it will never take this one
            self.waiting = rest;
            Attempt::Dropped(tag)
        } else {
            Attempt::Refused(tag)
        }
    }

    fn step(&mut self, rt: &HostRuntime, number: usize) -> Result<(), Stop> {
        let attempt = self.give();
        let offer = self.unit.offer();
        println!(rt;
            "step {number}: {attempt}; held{}; {}",
            self.held,
            Shown(offer)
        )?;
        self.unit.step(true);
        // the accepted offer leaves
        if let Some(Offer { tag, .. }) = offer {
            self.held.remove(tag);
        }
        Ok(())
    }
}

fn watch<U: Unit + Drop>(rt: &HostRuntime, mut unit: U, jobs: &[Job]) -> Result<(), Stop> {
    unit.clear();
    let mut bench = Bench {
        unit,
        waiting: jobs,
        held: Held([false; 256]),
    };
    let limit = jobs.len().saturating_mul(STEPS_A_JOB);
    for number in 0..limit {
        if bench.waiting.is_empty() && bench.held.is_empty() {
            break;
        }
        bench.step(rt, number)?;
    }
    Ok(())
}

// The unit of that name; each is a type of its own. `replay` takes these names but for `single`.
fn watch_named(rt: &HostRuntime, name: &str, jobs: &[Job]) -> Result<(), Stop> {
    match name {
        "plain" => watch(rt, Plain::new(), jobs),
        "multiplier" => watch(rt, Multiplier::new(), jobs),
        "divider" => watch(rt, Divider::new(), jobs),
        "single" => watch(rt, Single::new(), jobs),
        "all" => watch(rt, piles::all(), jobs),
        "deep" => watch(rt, piles::deep(), jobs),
        _ => Err(said(rt.alloc(), USAGE)),
    }
}

fn run(rt: &HostRuntime) -> Result<(), Stop> {
    let Some(name) = env::args(rt)?.nth(1) else {
        return Err(said(rt.alloc(), USAGE));
    };
    let text = io::read_to_string(rt.alloc(), rt.stdin())?;
    let jobs = parse_jobs(rt.alloc(), text.as_str())?;
    watch_named(rt, name.as_str(), jobs.as_slice())
}

fn main(rt: HostRuntime) -> ExitCode {
    exit_code(&rt, "watch", run(&rt))
}
