// What the meaning of a unit promises over many calls.
ghost use Rattle.units.specs.Runs.{OfferedWithinStay};

use crate::unit::Unit;

// Any job taken is offered within the longest stay: a law over every run of every unit.
pub fn offered_within_stay<U: Unit>(_unit: &U)
    ensures { OfferedWithinStay U.Unit.means }
{}
