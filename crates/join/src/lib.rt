// A unit made of two: it serves what either serves, and the two take turns where both offer.
#![tactic(auto)]

ghost use Rattle.std.specs.Prelude.{◌≡◌, ◌||◌};
ghost use Rattle.units.specs.Meaning.{Same, Empty, room_for, take_answer};
ghost use Rattle.units.specs.Runs.{OfferedWithinStay};
ghost use Rattle.join.specs.Joined.{joined, join_means, Sound, contested};
ghost use Rattle.join.specs.Sides.{JoinTaken, JoinStepped, SidesTake, SidesStep, SidesClear};
ghost use Rattle.join.specs.Keeps.{join_keeps};

use isa::operation::Class;
use refusal::NoRoom;
use units::job::{Job, Offer};
use units::runs::offered_within_stay;
use units::unit::Unit;

#[derive(Drop)]
pub struct Join<A, B> {
    left: A,
    right: B,
    // whose offer goes first where both offer
    right_turn: bool,
}

impl<A: Unit, B: Unit> Join<A, B> {
    pub fn new(left: A, right: B) -> Join<A, B>
        ensures { result ≡ joined left right }
    {
        Join {
            left,
            right,
            right_turn: false,
        }
    }

    fn take_left_first(&mut self, job: Job) -> Result<(), NoRoom>
        ensures answer { result ≡ take_answer (room_for A.Unit.means self.old.left job.word || room_for B.Unit.means self.old.right job.word) }
        ensures sides { SidesTake A.Unit.means B.Unit.means self.old job self.new }
    {
        // not `or_else`: what its closure does to the right side was not proved
        match self.left.take(job) {
            Ok(()) => Ok(()),
            Err(_) => self.right.take(job),
        }
    }

    fn step_in_turn(&mut self, accepted: bool)
        ensures { SidesStep A.Unit.means B.Unit.means self.old accepted self.new }
    {
        if accepted && self.contested() {
            // the refused side keeps its offer, and is next
            self.left.step(!self.right_turn);
            self.right.step(self.right_turn);
            self.right_turn = !self.right_turn;
        } else {
            self.left.step(accepted);
            self.right.step(accepted);
        }
    }

    // Both sides offer.
    fn contested(&self) -> bool
        ensures { result ≡ contested (A.Unit.means.offer self.now.left) (B.Unit.means.offer self.now.right) }
    {
        self.left.offer().is_some() && self.right.offer().is_some()
    }
}

impl<A: Unit, B: Unit> Unit for Join<A, B> {
    ghost means = { join_means A.Unit.means B.Unit.means };

    ghost laws = { join_keeps A.Unit.means B.Unit.means A.Unit.laws B.Unit.laws };

    fn room(&self, class: Class) -> bool {
        self.left.room(class) || self.right.room(class)
    }

    // The clauses of an impl stand in the trait's place, so Same is said again here and below.
    fn take(&mut self, job: Job) -> Result<(), NoRoom>
        ensures answer { result ≡ take_answer (room_for (join_means A.Unit.means B.Unit.means) self.old job.word) }
        ensures same { Same (join_means A.Unit.means B.Unit.means) self.old self.new }
        ensures taken { JoinTaken A.Unit.means B.Unit.means self.old job self.new }
        ensures sides { SidesTake A.Unit.means B.Unit.means self.old job self.new }
    {
        self.take_left_first(job)
    }

    fn offer(&self) -> Option<Offer> {
        let left = self.left.offer();
        let right = self.right.offer();
        if self.right_turn {
            right.or(left)
        } else {
            left.or(right)
        }
    }

    fn step(&mut self, accepted: bool)
        ensures same { Same (join_means A.Unit.means B.Unit.means) self.old self.new }
        ensures stepped { JoinStepped A.Unit.means B.Unit.means self.old accepted self.new }
        ensures sides { SidesStep A.Unit.means B.Unit.means self.old accepted self.new }
    {
        self.step_in_turn(accepted)
    }

    fn clear(&mut self)
        ensures same { Same (join_means A.Unit.means B.Unit.means) self.old self.new }
        ensures empty { Empty (join_means A.Unit.means B.Unit.means) self.new }
        ensures sound { Sound A.Unit.means B.Unit.means self.new }
        ensures sides { SidesClear A.Unit.means B.Unit.means self.old self.new }
    {
        self.left.clear();
        self.right.clear();
        self.right_turn = false;
    }
}

// Three units as one.
pub fn pile<A: Unit, B: Unit, C: Unit>(a: A, b: B, c: C) -> Join<Join<A, B>, C>
    ensures { result ≡ joined (joined a b) c }
{
    Join::new(Join::new(a, b), c)
}

// Five units as one, four joins deep.
pub fn tall_pile<A: Unit, B: Unit, C: Unit, D: Unit, E: Unit>(
    a: A,
    b: B,
    c: C,
    d: D,
    e: E,
) -> Join<Join<Join<Join<A, B>, C>, D>, E>
    ensures { result ≡ joined (joined (joined (joined a b) c) d) e }
{
    pile(pile(a, b, c), d, e)
}

// Whatever its sides are, a job that a join takes is offered within twice the larger of their longest stays.
pub fn offered_within_twice<A: Unit, B: Unit>(join: &Join<A, B>)
    ensures { OfferedWithinStay (join_means A.Unit.means B.Unit.means) }
{
    offered_within_stay(join)
}
