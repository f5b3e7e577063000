// A division on its way: quotient and remainder of as many bits of the dividend as it has made steps.
ghost use Rattle.std.specs.Prelude.{◌≡◌, ◌<◌};
ghost use Rattle.divider.specs.Restoring.{quotient_at, remainder_at};
ghost use Rattle.divider.specs.Signs.{magnitude};

use crate::division::Division;
use units::job::Job;

#[derive(Clone, Copy)]
pub struct Working {
    pub job: Job,
    pub division: Division,
    // the magnitudes of the operands
    pub dividend: u32,
    pub divisor: u32,
    pub steps: u32,
    pub quotient: u32,
    pub remainder: u32,
    ghost short: { steps < 32 },
    ghost magnitudes: { (dividend ≡ magnitude division.signed job.a) × (divisor ≡ magnitude division.signed job.b) },
    ghost results: { (quotient ≡ quotient_at dividend divisor steps) × (remainder ≡ remainder_at dividend divisor steps) },
}
