// Version vectors: what a panel knows of the acts of each of the eight panels.
ghost use Rattle.std.specs.Prelude.{◌≡◌, ◌-◌, min, max};
ghost use Rattle.paths.specs.Vectors.{place, with_place, EachPlace, greater as greater_places, lesser as lesser_places, at_most, known};

use crate::stamp::{Panel, Stamp};
use std::array;

#[derive(Clone, Copy, PartialEq, Eq)]
pub struct Vector {
    pub places: [u32; Panel::COUNT],
}

// Place by place, the least and the greatest of some vectors.
#[derive(Clone, Copy, PartialEq, Eq)]
pub struct Bounds {
    pub least: Vector,
    pub greatest: Vector,
}

// The greater of two places. Every join goes through here, and its callers know only this promise.
pub fn greater_place(a: u32, b: u32) -> u32
    ensures { result ≡ max a b }
{
    a.max(b)
}

// Where the place of a panel stands.
fn index(panel: Panel) -> usize
    ensures { result ≡ panel.number - 1 }
{
    panel.number as usize - 1
}

impl Vector {
    // Up to which time the acts of a panel have arrived.
    pub fn place(self, panel: Panel) -> u32
        ensures { result ≡ place self.places panel.number }
    {
        self.places[index(panel)]
    }

    pub fn with_place(self, panel: Panel, value: u32) -> Vector
        ensures { result.places ≡ with_place self.places panel.number value }
    {
        let mut places = self.places;
        places[index(panel)] = value;
        Vector { places }
    }

    // What the rule makes of each place of both.
    fn zip_with<F: Fn(u32, u32) -> u32>(self, other: Vector, rule: F) -> Vector
        requires { F.IsAlwaysCallable rule }
        ensures { EachPlace (F.post rule) self.places other.places result.places }
    {
        Vector {
            places: array::from_fn(|i| rule(self.places[i], other.places[i])),
        }
    }

    // Place by place, the greater of both.
    pub fn greater(self, other: Vector) -> Vector
        ensures { result.places ≡ greater_places self.places other.places }
    {
        self.zip_with(other, greater_place)
    }

    // Place by place, the lesser of both.
    pub fn lesser(self, other: Vector) -> Vector
        ensures { result.places ≡ lesser_places self.places other.places }
    {
        self.zip_with(other, u32::min)
    }

    // Whether no place passes the same place of the other.
    pub fn at_most(self, other: Vector) -> bool
        ensures { result ≡ at_most self.places other.places }
    {
        self.places.iter().zip(&other.places).all(|(a, b)| a <= b)
    }

    // Whether the act of this stamp has arrived.
    pub fn knows(self, stamp: Stamp) -> bool
        ensures { result ≡ known stamp.panel.number stamp.time.value self.places }
    {
        stamp.time.value <= self.place(stamp.panel)
    }
}

impl Bounds {
    // The bounds of one vector more.
    pub fn and(self, vector: Vector) -> Bounds
        ensures least { result.least.places ≡ lesser_places self.least.places vector.places }
        ensures greatest { result.greatest.places ≡ greater_places self.greatest.places vector.places }
    {
        Bounds {
            least: self.least.lesser(vector),
            greatest: self.greatest.greater(vector),
        }
    }
}
