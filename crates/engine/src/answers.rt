// What the calls are handed and what they answer.
use crate::leaf::Kind;
use paths::grade::SettingParts;
use paths::path::Path;
use paths::stamp::{Panel, Stamp};

// Two panels by their numbers, and the path at which one is the source and the other the destination of a call.
#[derive(Clone, Copy, PartialEq, Eq)]
pub struct Meeting {
    pub source: Panel,
    pub destination: Panel,
    pub path: Path,
}

// How many grades a removal took, and the clock after it.
#[derive(Clone, Copy, PartialEq, Eq)]
pub struct Removal {
    pub removed: usize,
    pub clock: u32,
}

// A leaf that a sync left in conflict.
#[derive(Clone, Copy, PartialEq, Eq)]
pub struct Reported {
    pub leaf: Path,
    pub kind: Kind,
}

// What to do about a conflict: the destination's side, the source's, or a third grade of these knobs.
#[derive(Clone, Copy, PartialEq, Eq)]
pub enum Choice {
    Ours,
    Theirs,
    Third(SettingParts),
}

// A conflict that was opened: the panels with the leaf, and the stamp of each side, if it has a grade.
pub struct Conflict {
    pub meeting: Meeting,
    pub theirs: Option<Stamp>,
    pub ours: Option<Stamp>,
}
