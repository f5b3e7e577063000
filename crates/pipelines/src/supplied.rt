// The two pipelines that are supplied, as units.
ghost use Rattle.pipelines.specs.Supplied.{plain, multiplier};
ghost use Rattle.units.specs.Meaning.{SameModel};

use crate::multiplier::Multiplier;
use crate::plain::Plain;
use units::unit::Unit;

// What each of the two means: a law, and no step of a run.
pub fn supplied_mean()
    ensures plain { SameModel ⟦<Plain as Unit>⟧.means plain }
    ensures multiplier { SameModel ⟦<Multiplier as Unit>⟧.means multiplier }
{}
