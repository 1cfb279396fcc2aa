// The counts of a whole list of lines.
ghost use Rattle.std.specs.Prelude.{◌≡◌, Some};
ghost use Rattle.leaves.specs.Counts.{adds, both, report};

use crate::answer::{Decided, Undecided};
use engine::tally::Tally;
use std::fmt;
use std::ops::AddAssign;

#[derive(Clone, Copy, PartialEq, Eq, Default)]
pub struct Totals {
    // the lines that were decided, empty ones too
    pub leaves: usize,
    pub outcomes: Tally,
    // the lines that were refused or could not be read
    pub refused: usize,
}

// What one answer counts.
impl From<Result<Decided, Undecided>> for Totals {
    ghost from_gives = { λ answer totals. totals ≡ adds answer };

    fn from(answer: Result<Decided, Undecided>) -> Totals {
        match answer {
            Ok(decided) => Totals {
                leaves: 1,
                outcomes: Tally::from(decided.outcome),
                refused: 0,
            },
            Err(_) => Totals {
                refused: 1,
                ..Totals::default()
            },
        }
    }
}

// A count stays at the greatest number that it can hold.
impl AddAssign for Totals {
    ghost add_assign_gives = { λ before more after. after ≡ both before more };

    fn add_assign(&mut self, more: Totals) {
        self.leaves = self.leaves.saturating_add(more.leaves);
        self.outcomes += more.outcomes;
        self.refused = self.refused.saturating_add(more.refused);
    }
}

impl fmt::Display for Totals {
    ghost output = { λ t. Some (report t) };

    fn fmt<W: fmt::Write>(&self, f: &mut fmt::Formatter<W>) -> fmt::Result {
        let Totals {
            leaves,
            outcomes,
            refused,
        } = *self;
        let Tally {
            kept,
            taken,
            removed,
            conflicts,
        } = outcomes;
        write!(
            f,
            "leaves {leaves} kept {kept} taken {taken} removed {removed} conflicts {conflicts} refused {refused}"
        )
    }
}
