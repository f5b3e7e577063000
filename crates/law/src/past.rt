// The law of every past, proved over every unit that keeps the meaning.
ghost use Rattle.law.specs.Laws.{LawOfEveryPast};

use units::unit::Unit;

// After any calls on a running core: same state and same records as the sequential machine, a retirement within the
// longest wait, and runs that make what is wanted.
pub fn law_of_every_past<U: Unit>(_unit: &U)
    ensures { LawOfEveryPast U.Unit.means }
{}
