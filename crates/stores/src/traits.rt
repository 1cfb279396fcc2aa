// The two traits of a store. Each make of store says by ghost members what it means, and code above it knows only that.
ghost use Rattle.std.specs.Prelude.{◌≡◌, length};
ghost use Rattle.stores.specs.Changes.{Change, puts, drops, ticks};
ghost use Rattle.stores.specs.Slots.{lookup, next_after};
ghost use Rattle.stores.specs.Meaning.{Model, Lawful, least_at, greatest_at, put_answer, put_model, drop_answer, drop_model, tick_answer, tick_model};

use crate::entry::Entry;
use paths::fault::StoreFault;
use paths::path::Path;
use paths::stamp::Panel;
use paths::vector::Bounds;

// What can be asked of a store. A source of a sync needs no more.
pub trait ReadHalf {
    // what the store means
    ghost model: { Self → Model };

    fn number(&self) -> Panel
        ensures { result ≡ (model self.now).number };

    fn clock(&self) -> u32
        ensures { result ≡ (model self.now).clock };

    fn capacity(&self) -> usize
        ensures { result ≡ (model self.now).capacity };

    // Layers above the bottom; 255 stands for 255 or more.
    fn height(&self) -> u8
        ensures { result ≡ (model self.now).height };

    // How many paths are entered.
    fn count(&self) -> usize
        ensures { result ≡ length (model self.now).entries };

    fn find(&self, path: Path) -> Option<Entry>
        ensures { result ≡ lookup (model self.now).entries path.number };

    // The least entered path after this one.
    fn next(&self, path: Path) -> Option<Path>
        ensures { result ≡ next_after (model self.now).entries path.number };

    // The least and the greatest over the vectors, as stored, of the entered paths that the path covers and of the
    // nearest entered one at or above it.
    fn bounds(&self, path: Path) -> Bounds
        ensures least { result.least.places ≡ least_at (model self.now).entries path.number }
        ensures greatest { result.greatest.places ≡ greatest_at (model self.now).entries path.number };

    // what every store keeps
    ghost laws: { (x : Self) → Lawful (model x) };
}

// A store that can be changed. A refused change changes nothing.
pub trait Store: ReadHalf {
    // what a change does, from the store before it to the one after it, in memory that a make was lent and that is no part
    // of its meaning
    ghost keeps: { Change → Self → Self → Type 0 };

    // Sets the entry at a path, at a folder without a grade.
    fn put(&mut self, path: Path, entry: Entry) -> Result<(), StoreFault>
        ensures answer { result ≡ put_answer (Self.ReadHalf.model self.old) path.number }
        ensures after { Self.ReadHalf.model self.new ≡ put_model (Self.ReadHalf.model self.old) path entry }
        ensures kept { keeps (puts path entry) self.old self.new };

    // Removes an entry, never the root's, and tells whether one went.
    fn drop(&mut self, path: Path) -> bool
        ensures answer { result ≡ drop_answer (Self.ReadHalf.model self.old) path.number }
        ensures after { Self.ReadHalf.model self.new ≡ drop_model (Self.ReadHalf.model self.old) path.number }
        ensures kept { keeps (drops path) self.old self.new };

    // Adds one to the clock.
    fn tick(&mut self) -> Result<(), StoreFault>
        ensures answer { result ≡ tick_answer (Self.ReadHalf.model self.old) }
        ensures after { Self.ReadHalf.model self.new ≡ tick_model (Self.ReadHalf.model self.old) }
        ensures kept { keeps ticks self.old self.new };
}
