// An entry as a store keeps it.
ghost use Rattle.std.specs.Prelude.{◌≡◌};
ghost use Rattle.stores.specs.Meaning.{stored};

use crate::entry::Entry;
use paths::path::Path;

impl Entry {
    // A folder has no grade.
    pub fn stored_at(self, path: Path) -> Entry
        ensures { result ≡ stored path.number self }
    {
        if path.is_leaf() {
            self
        } else {
            Entry {
                grade: None,
                ..self
            }
        }
    }
}
