// The supplied units, piled up as one.
#![tactic(auto)]

ghost use Rattle.piles.specs.Piles.{AllUnits, DeepUnits};

use divider::Divider;
use join::{Join, pile};
use pipelines::multiplier::Multiplier;
use pipelines::plain::Plain;

pub type All = Join<Join<Plain, Multiplier>, Divider>;

// With two units for the plain classes.
pub type Deep = Join<Join<Plain, Plain>, Join<Multiplier, Divider>>;

// Of a core over all units: a job stays at most 66 steps, and 133 = 2 * 66 + 1 cycles always retire an instruction.
pub const LONGEST_WAIT: u64 = 133;

// Of a core over the deep units: a job stays at most 132 steps, and 265 = 2 * 132 + 1 cycles always retire an instruction.
pub const DEEP_LONGEST_WAIT: u64 = 265;

pub fn all() -> All
    ensures { AllUnits result }
{
    pile(Plain::new(), Multiplier::new(), Divider::new())
}

pub fn deep() -> Deep
    ensures { DeepUnits result }
{
    let plain = Join::new(Plain::new(), Plain::new());
    let slow = Join::new(Multiplier::new(), Divider::new());
    Join::new(plain, slow)
}
