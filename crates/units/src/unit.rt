// The meaning of a functional unit: what the core above relies on, and all that it relies on.
ghost use Rattle.std.specs.Prelude.{◌≡◌};
ghost use Rattle.units.specs.Calls.{Keeps};
ghost use Rattle.units.specs.Meaning.{UnitModel, Same, room_for, take_answer, Taken, Stepped, Empty};

use crate::job::{Job, Offer};
use isa::operation::Class;
use refusal::NoRoom;

pub trait Unit {
    ghost means: { UnitModel Self };

    fn room(&self, class: Class) -> bool
        ensures { result ≡ means.room self.now class };

    // Here and below each fact is a clause of its own, not one record of the call: so the check finds more of a unit alone.
    fn take(&mut self, job: Job) -> Result<(), NoRoom>
        ensures answer { result ≡ take_answer (room_for means self.old job.word) }
        ensures same { Same means self.old self.new }
        ensures taken { Taken means (room_for means self.old job.word) self.old job self.new };

    fn offer(&self) -> Option<Offer>
        ensures { result ≡ means.offer self.now };

    fn step(&mut self, accepted: bool)
        ensures same { Same means self.old self.new }
        ensures stepped { means.sound self.old → Stepped means self.old accepted self.new × means.sound self.new };

    fn clear(&mut self)
        ensures same { Same means self.old self.new }
        ensures empty { Empty means self.new }
        ensures sound { means.sound self.new };

    // what every unit keeps
    ghost laws: { Keeps means };
}
