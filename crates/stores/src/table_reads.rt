// What can be asked of a table.
ghost use Rattle.std.specs.Prelude.{◌≡◌};
ghost use Rattle.stores.specs.Tables.{entries, table_model};

use crate::entry::Entry;
use crate::sorted::Sorted;
use crate::table::Table;
use crate::traits::ReadHalf;
use paths::path::Path;
use paths::stamp::Panel;
use paths::vector::Bounds;

impl<'a> Table<'a> {
    fn sorted(&self) -> Sorted<'_>
        ensures { result.slots.now ≡ entries self.now }
    {
        Sorted {
            slots: &self.slots[..self.len],
        }
    }
}

impl<'a> ReadHalf for Table<'a> {
    ghost model = { table_model };

    ghost laws = { λ t. t.sound.lawful };

    fn number(&self) -> Panel {
        self.number
    }

    fn clock(&self) -> u32 {
        self.clock
    }

    fn capacity(&self) -> usize {
        self.capacity
    }

    fn height(&self) -> u8 {
        0
    }

    fn count(&self) -> usize {
        self.len
    }

    fn find(&self, path: Path) -> Option<Entry> {
        self.sorted().find(path)
    }

    fn next(&self, path: Path) -> Option<Path> {
        self.sorted().next(path)
    }

    fn bounds(&self, path: Path) -> Bounds {
        self.sorted().bounds(path)
    }
}
