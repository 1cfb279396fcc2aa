// Slots in path order, each path once, and where a path stands among them.
ghost use Rattle.std.specs.Prelude.{◌≡◌, ◌≤◌, true, length, is_some, if◌then◌else◌};
ghost use Rattle.stores.specs.Slots.{Sought, lookup, next_after, rises, place};

use crate::entry::{Entry, Slot};
use paths::path::Path;

#[derive(Clone, Copy)]
pub struct Sorted<'a> {
    pub slots: &'a [Slot],
    ghost in_order: { rises slots.now ≡ true },
}

impl<'a> Sorted<'a> {
    // How many slots come before the path.
    pub fn lower_bound(self, path: Path) -> usize
        ensures count { result ≡ place self.entry.slots.now path.number }
        ensures within { result ≤ length self.entry.slots.now }
    {
        self.slots.partition_point(|slot| slot.path < path)
    }

    // The place of the path's slot, or the place where it would come.
    pub fn seek(self, path: Path) -> Result<usize, usize>
        ensures answer { result ≡ (if is_some (lookup self.entry.slots.now path.number) then Ok (place self.entry.slots.now path.number) else Err (place self.entry.slots.now path.number)) }
        ensures sought { Sought self.entry.slots.now path.number result }
    {
        self.slots.binary_search_by_key(&path, |slot| slot.path)
    }

    pub fn find(self, path: Path) -> Option<Entry>
        ensures { result ≡ lookup self.entry.slots.now path.number }
    {
        let i = self.seek(path).ok()?;
        Some(self.slots[i].entry)
    }

    // The first path after this one, which need not be among them.
    pub fn next(self, path: Path) -> Option<Path>
        ensures { result ≡ next_after self.entry.slots.now path.number }
    {
        let i = self.slots.partition_point(|slot| slot.path <= path);
        self.slots.get(i).map(|slot| slot.path)
    }
}
