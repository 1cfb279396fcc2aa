// Making a store over lent memory: a check that may refuse, then a making that cannot.
ghost use Rattle.std.specs.Prelude.{◌≡◌, ◌≤◌, length, slice_set};
ghost use Rattle.paths.specs.Parts.{MadeOf};
ghost use Rattle.paths.specs.declared.fault.Fault.TheVariants.{BadStore};
ghost use Rattle.stores.specs.Making.{may_make, root_slot, blank};
ghost use Rattle.stores.specs.Tables.{table_model};

use crate::entry::{Entry, Slot};
use crate::table::Table;
use paths::fault::Fault;
use paths::path::Path;
use paths::stamp::Panel;
use paths::vector::Vector;

// Whether a store of this panel number and capacity can be made where it needs so much memory and has so much.
pub fn check_making(
    number: u64,
    capacity: usize,
    needed: usize,
    memory: usize,
) -> Result<Panel, Fault>
    ensures { MadeOf (λ p. p.number) number (may_make number capacity needed memory) BadStore result }
{
    match Panel::try_from(number) {
        Ok(panel) if (1..=1000).contains(&capacity) && needed <= memory => Ok(panel),
        _ => Err(Fault::BadStore),
    }
}

// The slot of the root as it is first.
pub fn blank_root() -> Slot
    ensures { result ≡ root_slot }
{
    Slot {
        path: Path::root(),
        entry: Entry {
            vector: Vector {
                places: [0; Panel::COUNT],
            },
            grade: None,
        },
    }
}

impl<'a> Table<'a> {
    // A blank table; later places of the list stay as they are.
    pub fn make(number: Panel, capacity: usize, slots: &'a mut [Slot]) -> Table<'a>
        requires { (1 ≤ capacity) × ((capacity ≤ 1000) × (capacity ≤ length slots.old)) }
        ensures model { table_model result ≡ blank number capacity }
        ensures slots { result.slots.now ≡ slice_set slots.old 0 root_slot }
        ensures same { result.slots.ghost_name ≡ slots.entry.ghost_name }
    {
        slots[0] = blank_root();
        Table {
            number,
            clock: 0,
            capacity,
            slots,
            len: 1,
        }
    }
}
