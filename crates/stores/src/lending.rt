// What a caller knows of a slice that it lent to a table, once the table is gone.
ghost use Rattle.std.specs.Prelude.{◌≡◌, ◌≤◌, ◌++◌, length, drop};
ghost use Rattle.stores.specs.Making.{with_one};

use crate::entry::{Entry, Slot};
use crate::table::Table;
use crate::traits::Store;
use paths::path::Path;
use paths::stamp::Panel;

// The slice holds the entries of a blank table after one put, and its other places are as they were.
pub fn put_over(slots: &mut [Slot], number: Panel, path: Path, entry: Entry)
    requires { 2 ≤ length slots.old }
    ensures { slots.new ≡ with_one path entry ++ drop (length (with_one path entry)) slots.old }
{
    let mut table = Table::make(number, 2, slots);
    let _ = table.put(path, entry);
}
