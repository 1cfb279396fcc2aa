// Who acted and when: panel numbers from 1 to 8, times from 1 to 1,000,000, and stamps of both.
ghost use Rattle.std.specs.Prelude.{◌≤◌};

// Panel and time are structs of their own, as a knob is: each has its width, and none may be taken for another.
#[derive(Clone, Copy, PartialEq, Eq)]
pub struct Panel {
    pub number: u8,
    ghost low: { 1 ≤ number },
    ghost high: { number ≤ 8 },
}

#[derive(Clone, Copy, PartialEq, Eq)]
pub struct Time {
    pub value: u32,
    ghost low: { 1 ≤ value },
    ghost high: { value ≤ 1000000 },
}

// In range, or of the plain numbers that a caller hands in.
#[derive(Clone, Copy, PartialEq, Eq)]
pub struct Stamp<P = Panel, T = Time> {
    pub panel: P,
    pub time: T,
}

pub type StampParts = Stamp<u64, u64>;

impl Panel {
    pub const COUNT: usize = 8;
}

impl Time {
    pub const LAST: u32 = 1_000_000;
}
