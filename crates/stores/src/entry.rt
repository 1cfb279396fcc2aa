// What a store holds: at each entered path a vector and, at a leaf only, a grade or none.
use paths::grade::Grade;
use paths::path::Path;
use paths::vector::Vector;

#[derive(Clone, Copy, PartialEq, Eq)]
pub struct Entry {
    pub vector: Vector,
    pub grade: Option<Grade>,
}

#[derive(Clone, Copy, PartialEq, Eq)]
pub struct Slot {
    pub path: Path,
    pub entry: Entry,
}
