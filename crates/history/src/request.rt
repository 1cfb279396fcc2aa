// What can be asked of panels that stand together, and what is answered.
use engine::answers::{Choice, Conflict, Meeting, Removal};
use engine::tally::Tally;
use paths::grade::SettingParts;
use paths::path::Path;
use paths::stamp::Panel;

// A call by the numbers of its panels.
#[derive(Clone, Copy, PartialEq, Eq)]
pub enum Request {
    Write(Panel, Path, SettingParts),
    Remove(Panel, Path),
    Sync(Meeting),
    // opens the conflict at a leaf and leaves it
    Inspect(Meeting),
    // opens the conflict at a leaf and ends it by a choice
    Resolve(Meeting, Choice),
}

// A conflict that was found has to be taken apart, as wherever one is held.
pub enum Answer {
    // the clock after a write or a choice
    Clock(u32),
    Removed(Removal),
    Synced(Tally),
    Found(Conflict),
}
