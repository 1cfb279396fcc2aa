// Changes of a list whose filled places are slots in path order: two, so that the order is asked for by a clause of each. What
// they promise of the slice, `room` and `same`, ties two moments, so that no type can keep it.
ghost use Rattle.std.specs.Prelude.{◌≡◌, ◌-◌, ◌≤◌, true, not, ◌&&◌, ◌++◌, length, take, drop, is_some, is_ok, if◌then◌else◌, Ok, Err, ◌==◌};
ghost use Rattle.paths.specs.declared.fault.Cause.TheVariants.{Full};
ghost use Rattle.stores.specs.Slots.{key, lookup, put as put_slots, drop as drop_slots, dropped, rises};

use crate::entry::Slot;
use crate::sorted::Sorted;
use lists::FrontList;
use paths::fault::Cause;
use paths::path::Path;

// Puts a slot at its place, unless it is new and there are `most` already.
pub fn put_slot(list: &mut FrontList<'_, Slot>, most: usize, slot: Slot) -> Result<(), Cause>
    requires { (rises (take list.old.len list.old.slots.now) ≡ true) × ((list.old.len ≤ most) × (most ≤ length list.old.slots.now)) }
    ensures answer { result ≡ (if not (is_some (lookup (take list.old.len list.old.slots.now) (key slot))) && list.old.len == most then Err Full else Ok tt) }
    ensures len { list.new.len ≡ (if is_ok result then length (put_slots (take list.old.len list.old.slots.now) slot) else list.old.len) }
    ensures held { take list.new.len list.new.slots.now ≡ (if is_ok result then put_slots (take list.old.len list.old.slots.now) slot else take list.old.len list.old.slots.now) }
    ensures behind { drop list.new.len list.new.slots.now ≡ drop list.new.len list.old.slots.now }
    ensures room { length list.new.slots.now ≡ length list.old.slots.now }
    ensures same { list.new.slots.ghost_name ≡ list.old.slots.ghost_name }
{
    let sorted = Sorted {
        slots: list.filled(),
    };
    match sorted.seek(slot.path) {
        Ok(i) => {
            list.set(i, slot);
            Ok(())
        }
        Err(i) => {
            if list.len == most {
                return Err(Cause::Full);
            }
            list.insert(i, slot);
            Ok(())
        }
    }
}

// Takes the slot of a path out, which comes behind those left; tells whether there was one.
pub fn drop_slot(list: &mut FrontList<'_, Slot>, path: Path) -> bool
    requires { (rises (take list.old.len list.old.slots.now) ≡ true) × (list.old.len ≤ length list.old.slots.now) }
    ensures answer { result ≡ is_some (lookup (take list.old.len list.old.slots.now) path.number) }
    ensures len { list.new.len ≡ (if result then list.old.len - 1 else list.old.len) }
    ensures held { take list.new.len list.new.slots.now ≡ drop_slots (take list.old.len list.old.slots.now) path.number }
    ensures behind { drop list.new.len list.new.slots.now ≡ dropped (take list.old.len list.old.slots.now) path.number ++ drop list.old.len list.old.slots.now }
    ensures room { length list.new.slots.now ≡ length list.old.slots.now }
    ensures same { list.new.slots.ghost_name ≡ list.old.slots.ghost_name }
{
    let sorted = Sorted {
        slots: list.filled(),
    };
    match sorted.seek(path) {
        Ok(i) => list.remove(i),
        Err(_) => false,
    }
}
