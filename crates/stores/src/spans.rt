// What is known at a path and below it, over slots in path order.
ghost use Rattle.std.specs.Prelude.{◌≡◌, true, is_some};
ghost use Rattle.stores.specs.Meaning.{nearest, least_at, greatest_at};
ghost use Rattle.stores.specs.Slots.{lookup};

use crate::sorted::Sorted;
use paths::path::Path;
use paths::vector::{Bounds, Vector};

impl<'a> Sorted<'a> {
    // The vector, as stored, of the nearest entered path at or above the path.
    pub fn nearest_vector(self, path: Path) -> Vector
        requires rooted { is_some (lookup self.slots.now 0) ≡ true }
        ensures { result.places ≡ nearest self.entry.slots.now path.number }
    {
        match self.find(path) {
            Some(entry) => entry.vector,
            None => match path.parent() {
                Some(above) => self.nearest_vector(above),
                None => unreachable(),
            },
        }
    }

    // The least and the greatest over the vectors of the entered paths that the path covers and of the nearest entered
    // one at or above it. The covered ones stand in one run, from the path's place on.
    pub fn bounds(self, path: Path) -> Bounds
        requires rooted { is_some (lookup self.slots.now 0) ≡ true }
        ensures least { result.least.places ≡ least_at self.entry.slots.now path.number }
        ensures greatest { result.greatest.places ≡ greatest_at self.entry.slots.now path.number }
    {
        let nearest = self.nearest_vector(path);
        let nearest = Bounds {
            least: nearest,
            greatest: nearest,
        };
        let first = self.lower_bound(path);
        self.slots[first..]
            .iter()
            .take_while(|slot| path.covers(slot.path))
            .fold(nearest, |bounds, slot| bounds.and(slot.entry.vector))
    }
}
