// The changes of a table.
ghost use Rattle.std.specs.Prelude.{◌≡◌, ◌==◌, false};
ghost use Rattle.stores.specs.Changes.{drops};
ghost use Rattle.stores.specs.Meaning.{stored, drop_answer, drop_model};
ghost use Rattle.stores.specs.Tables.{table_model, TableKeeps};

use crate::entry::{Entry, Slot};
use crate::slots::{drop_slot, put_slot};
use crate::table::Table;
use crate::traits::Store;
use lists::FrontList;
use paths::fault::{Cause, StoreFault};
use paths::path::Path;
use paths::stamp::Time;

// What a put of the entry at the path stores.
fn stored_slot(path: Path, entry: Entry) -> Slot
    ensures { result ≡ record { path = path; entry = stored path.number entry } }
{
    Slot {
        path,
        entry: entry.stored_at(path),
    }
}

// A table's refusal: it stands at the bottom.
fn refused(cause: Cause) -> StoreFault
    ensures { result ≡ record { cause = cause; height = 0 } }
{
    StoreFault { cause, height: 0 }
}

impl<'a> Table<'a> {
    // Takes an entry out, which is not the root's; tells whether there was one.
    fn take_out(&mut self, path: Path) -> bool
        requires { (path.number == 0) ≡ false }
        ensures answer { result ≡ drop_answer (table_model self.old) path.number }
        ensures after { table_model self.new ≡ drop_model (table_model self.old) path.number }
        ensures kept { TableKeeps (drops path) self.old self.new }
    {
        let slots = &mut *self.slots;
        let mut list = FrontList {
            slots,
            len: self.len,
        };
        let gone = drop_slot(&mut list, path);
        self.len = list.len;
        gone
    }
}

impl<'a> Store for Table<'a> {
    ghost keeps = { TableKeeps };

    fn put(&mut self, path: Path, entry: Entry) -> Result<(), StoreFault> {
        let slots = &mut *self.slots;
        let mut list = FrontList {
            slots,
            len: self.len,
        };
        let put = put_slot(&mut list, self.capacity, stored_slot(path, entry));
        self.len = list.len;
        put.map_err(refused)
    }

    fn drop(&mut self, path: Path) -> bool {
        if path == Path::root() {
            return false;
        }
        self.take_out(path)
    }

    fn tick(&mut self) -> Result<(), StoreFault> {
        if self.clock == Time::LAST {
            return Err(refused(Cause::LastTime));
        }
        self.clock += 1;
        Ok(())
    }
}
