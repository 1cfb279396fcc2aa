// How many leaves have each outcome.
ghost use Rattle.std.specs.Prelude.{◌≡◌};
ghost use Rattle.engine.specs.Counts.{no_counts, counted, both_counts};

use crate::leaf::Outcome;
use std::ops::AddAssign;

#[derive(Clone, Copy, PartialEq, Eq, Default)]
pub struct Tally {
    pub kept: usize,
    pub taken: usize,
    pub removed: usize,
    pub conflicts: usize,
}

// What one leaf counts; one that is empty on both sides has no outcome and counts nowhere.
impl From<Option<Outcome>> for Tally {
    ghost from_gives = { λ outcome tally. tally ≡ counted outcome no_counts };

    fn from(outcome: Option<Outcome>) -> Tally {
        let mut tally = Tally::default();
        match outcome {
            None => {}
            Some(Outcome::Kept) => tally.kept = 1,
            Some(Outcome::Taken) => tally.taken = 1,
            Some(Outcome::Removed) => tally.removed = 1,
            Some(Outcome::Conflict(_)) => tally.conflicts = 1,
        }
        tally
    }
}

// A count stays at the greatest number that it can hold.
impl AddAssign for Tally {
    ghost add_assign_gives = { λ before more after. after ≡ both_counts before more };

    fn add_assign(&mut self, more: Tally) {
        self.kept = self.kept.saturating_add(more.kept);
        self.taken = self.taken.saturating_add(more.taken);
        self.removed = self.removed.saturating_add(more.removed);
        self.conflicts = self.conflicts.saturating_add(more.conflicts);
    }
}
