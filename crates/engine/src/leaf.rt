// The leaf rule: what a sync from a source A onto a destination B does at one leaf.
ghost use Rattle.std.specs.Prelude.{◌≡◌};
ghost use Rattle.std.specs.Option.{option_map};
ghost use Rattle.engine.specs.LeafRule.{version, goes_on, both_sides, source_only, destination_only, outcome, kind_number};

use paths::grade::Grade;
use paths::stamp::Stamp;
use paths::vector::Vector;

// What one panel has at a leaf: its grade, which may be an option, and the vector there. An entry has the same fields and is
// another type, since its vector is as stored, with 0 in the own place.
#[derive(Clone, Copy, PartialEq, Eq)]
pub struct Side<G> {
    pub grade: G,
    pub vector: Vector,
}

// Why two sides cannot be joined. A is the source and B the destination.
#[derive(Clone, Copy, PartialEq, Eq)]
pub enum Kind {
    // neither panel knows the other's grade
    Concurrent,
    // a grade is known, and yet no later version of the other
    Tangled,
    // A's grade goes on from one that B removed
    RemovedAtDestination,
    // B's grade goes on from one that A removed
    RemovedAtSource,
}

#[derive(Clone, Copy, PartialEq, Eq)]
pub enum Outcome {
    // B keeps its side
    Kept,
    // B takes A's grade
    Taken,
    // B's grade goes
    Removed,
    Conflict(Kind),
}

// The number by which reports name it.
impl From<Kind> for u8 {
    ghost from_gives = { λ kind number. number ≡ kind_number kind };

    fn from(kind: Kind) -> u8 {
        match kind {
            Kind::Concurrent => 1,
            Kind::Tangled => 2,
            Kind::RemovedAtDestination => 3,
            Kind::RemovedAtSource => 4,
        }
    }
}

// What a sync from a onto b does at a leaf; none where both sides are empty.
pub fn decide(a: Side<Option<Grade>>, b: Side<Option<Grade>>) -> Option<Outcome>
    ensures { result ≡ outcome (option_map version a.grade) a.vector.places (option_map version b.grade) b.vector.places }
{
    match (a.holding(), b.holding()) {
        (Some(theirs), Some(ours)) => Some(both(theirs, ours)),
        (Some(theirs), None) => Some(only_source(theirs.grade, b.vector)),
        (None, Some(ours)) => Some(only_destination(a.vector, ours.grade)),
        (None, None) => None,
    }
}

impl Side<Option<Grade>> {
    // The same of a grade that is there.
    fn holding(self) -> Option<Side<Grade>>
        ensures { result ≡ option_map (λ g. record { grade = g; vector = self.vector }) self.grade }
    {
        let grade = self.grade?;
        Some(Side {
            grade,
            vector: self.vector,
        })
    }
}

impl Side<Grade> {
    // Whether this side goes on from the other: it knows the other's stamp and is not known there, and both come from one
    // birth or its birth is new to the other's panel.
    fn goes_on(self, other: Side<Grade>) -> bool
        ensures { result ≡ goes_on (version self.grade) self.vector.places (version other.grade) other.vector.places }
    {
        self.vector.knows(other.grade.stamp)
            && !other.vector.knows(self.grade.stamp)
            && (self.grade.birth == other.grade.birth || !other.vector.knows(self.grade.birth))
    }
}

fn both(theirs: Side<Grade>, ours: Side<Grade>) -> Outcome
    ensures { result ≡ both_sides (version theirs.grade) theirs.vector.places (version ours.grade) ours.vector.places }
{
    if theirs.grade.stamp == ours.grade.stamp || ours.goes_on(theirs) {
        Outcome::Kept
    } else if theirs.goes_on(ours) {
        Outcome::Taken
    } else if !ours.vector.knows(theirs.grade.stamp) && !theirs.vector.knows(ours.grade.stamp) {
        Outcome::Conflict(Kind::Concurrent)
    } else {
        Outcome::Conflict(Kind::Tangled)
    }
}

// The two rules on a single grade, each as it is defined; one for both would take three outcomes.
fn only_source(theirs: Grade, destination: Vector) -> Outcome
    ensures { result ≡ source_only (version theirs) destination.places }
{
    if destination.knows(theirs.stamp) {
        Outcome::Kept
    } else if destination.knows(theirs.birth) {
        Outcome::Conflict(Kind::RemovedAtDestination)
    } else {
        Outcome::Taken
    }
}

fn only_destination(source: Vector, ours: Grade) -> Outcome
    ensures { result ≡ destination_only source.places (version ours) }
{
    if source.knows(ours.stamp) {
        Outcome::Removed
    } else if source.knows(ours.birth) {
        Outcome::Conflict(Kind::RemovedAtSource)
    } else {
        Outcome::Kept
    }
}
