// What the divider holds, and how it goes on.
ghost use Rattle.std.specs.Prelude.{◌≡◌, ◌+◌};
ghost use Rattle.divider.specs.Restoring.{quotient_at, remainder_at};
ghost use Rattle.divider.specs.States.{admitted, start_of, next_of};

use crate::division;
use crate::division::Division;
use crate::working::Working;
use units::job::Job;

// One for each bit of the dividend.
const STEPS: u32 = 32;

#[derive(Clone, Copy)]
pub struct Finished {
    pub job: Job,
    pub value: u32,
}

#[derive(Clone, Copy)]
pub enum State {
    Idle,
    Working(Working),
    Finished(Finished),
}

impl State {
    // The division that a word asks for, while no other is held.
    pub(crate) fn admit(self, word: u32) -> Option<Division>
        ensures { result ≡ admitted self word }
    {
        match self {
            State::Idle => division::of_word(word),
            State::Working(_) | State::Finished(_) => None,
        }
    }
}

impl Working {
    pub(crate) fn start(division: Division, job: Job) -> Working
        ensures { result ≡ start_of division job }
    {
        Working {
            job,
            division,
            dividend: division.magnitude(job.a),
            divisor: division.magnitude(job.b),
            steps: 0,
            quotient: 0,
            remainder: 0,
        }
    }

    // The next bit comes down, and the divisor is taken off what it fits into.
    fn restore(self) -> (u32, u32)
        ensures quotient { result.0 ≡ quotient_at self.dividend self.divisor (self.steps + 1) }
        ensures remainder { result.1 ≡ remainder_at self.dividend self.divisor (self.steps + 1) }
    {
        let bit = (self.dividend >> (31 - self.steps)) % 2;
        let remainder = 2 * self.remainder + bit;
        if self.divisor <= remainder {
            (2 * self.quotient + 1, remainder - self.divisor)
        } else {
            (2 * self.quotient, remainder)
        }
    }

    pub(crate) fn next(self) -> State
        ensures { result ≡ next_of self }
    {
        let (quotient, remainder) = self.restore();
        if self.steps + 1 < STEPS {
            // each field by name: a literal of a struct with ghost fields takes no `..self`
            State::Working(Working {
                job: self.job,
                division: self.division,
                dividend: self.dividend,
                divisor: self.divisor,
                steps: self.steps + 1,
                quotient,
                remainder,
            })
        } else {
            State::Finished(Finished {
                job: self.job,
                value: self
                    .division
                    .sign(self.job.a, self.job.b, quotient, remainder),
            })
        }
    }
}
