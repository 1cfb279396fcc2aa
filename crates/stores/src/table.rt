// A store in memory: its entries in path order at the front of a slice that the caller lends.
ghost use Rattle.stores.specs.TableSound.{TableSound};

use crate::entry::Slot;
use paths::stamp::Panel;

// It holds the slice itself, and no list with the slice in it: then whoever lent it would learn its length alone.
#[derive(Drop)]
pub struct Table<'a> {
    pub number: Panel,
    pub clock: u32,
    pub capacity: usize,
    pub slots: &'a mut [Slot],
    pub len: usize,
    ghost sound: { TableSound number clock capacity len slots.now },
}
