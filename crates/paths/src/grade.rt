// Grades: four knobs from -1000 to 1000, the stamp of the last act that set them and the stamp of their birth.
ghost use Rattle.std.specs.Prelude.{◌||◌, T, pos, negsuc, ◌≤ℤ◌, is_some};

use crate::stamp::{Stamp, StampParts};

// A struct of its own, as a panel and a time are: it has its width, and a range that a const parameter could not give.
#[derive(Clone, Copy, PartialEq, Eq)]
pub struct Knob {
    pub value: i16,
    ghost low: { negsuc 999 ≤ℤ value },
    ghost high: { value ≤ℤ pos 1000 },
}

// A value for each knob.
#[derive(Clone, Copy, PartialEq, Eq)]
pub struct Knobs<K = Knob> {
    pub lift: K,
    pub gamma: K,
    pub gain: K,
    pub contrast: K,
}

// In range, or of the plain numbers that a caller hands in.
#[derive(Clone, Copy, PartialEq, Eq)]
pub struct Grade<K = Knob, S = Stamp> {
    pub knobs: Knobs<K>,
    pub stamp: S,
    pub birth: S,
}

pub type GradeParts = Grade<i64, StampParts>;

// What a caller sets: one knob at least; the others are left out.
#[derive(Clone, Copy, PartialEq, Eq)]
pub struct Setting {
    pub knobs: Knobs<Option<Knob>>,
    ghost some: { T (is_some knobs.lift || is_some knobs.gamma || is_some knobs.gain || is_some knobs.contrast) },
}

// The knobs of a write or a third grade as handed in; None is left out.
pub type SettingParts = Knobs<Option<i64>>;
