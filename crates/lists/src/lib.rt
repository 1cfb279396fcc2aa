// A list that is filled from the front of a slice which the caller lends. Places behind those it fills stay as they are.
#![tactic(auto)]

ghost use Rattle.std.specs.Prelude.{◌≡◌, ◌+◌, ◌-◌, ◌<◌, ◌≤◌, ◌&&◌, length, take, if◌then◌else◌, MatchBool, nat_le, nat_lt, slice_set};
ghost use Rattle.lists.specs.Front.{Inserts, Removes};

// Functions over slices, to which the list hands its own; the memory is the caller's, of a fixed size.

// Puts x before the i-th of the first len places, which are filled.
pub fn insert_slot<T: Copy>(slots: &mut [T], len: usize, i: usize, x: T)
    requires { (i ≤ len) × (len < length slots.old) }
    ensures { Inserts slots.old slots.new len i x }
{
    slots[len] = x;
    slots[i..=len].rotate_right(1);
}

// Takes the i-th of the first rest + 1 places out; the rest stay filled.
pub fn remove_slot<T: Copy>(slots: &mut [T], rest: usize, i: usize)
    requires { (i ≤ rest) × (rest < length slots.old) }
    ensures { Removes slots.old slots.new rest i }
{
    slots[i..=rest].rotate_left(1);
}

// Puts x at the place i.
pub fn set_slot<T: Copy>(slots: &mut [T], i: usize, x: T)
    requires { i < length slots.old }
    ensures { slots.new ≡ slice_set slots.old i x }
{
    slots[i] = x;
}

// `len` may be anything: a bound in the type would ask more of whoever makes one. Changes tell by a bool whether they took
// place, as a set's `insert` does, since nothing comes beside it.
#[derive(Drop)]
pub struct FrontList<'a, T> {
    pub slots: &'a mut [T],
    pub len: usize,
}

impl<'a, T: Copy> FrontList<'a, T> {
    // The filled places.
    pub fn filled(&self) -> &[T]
        ensures { result.now ≡ take self.now.len self.now.slots.now }
    {
        let len = self.len.min(self.slots.len());
        &self.slots[..len]
    }

    // How many places there are, filled or not.
    pub fn room(&self) -> usize
        ensures { result ≡ length self.now.slots.now }
    {
        self.slots.len()
    }

    // Puts x in the place of the i-th; tells whether there is one.
    pub fn set(&mut self, i: usize, x: T) -> bool
        ensures answer { result ≡ nat_lt i (length self.old.slots.now) }
        ensures len { self.new.len ≡ self.old.len }
        ensures slots { self.new.slots.now ≡ slice_set self.old.slots.now i x }
        ensures room { length self.new.slots.now ≡ length self.old.slots.now }
        // of two moments, so that no type can keep it: the slice is still the one that was lent
        ensures same { self.new.slots.ghost_name ≡ self.old.slots.ghost_name }
    {
        if i >= self.slots.len() {
            return false;
        }
        set_slot(self.slots, i, x);
        true
    }

    // Puts x before the i-th; tells whether there was a place for it.
    pub fn insert(&mut self, i: usize, x: T) -> bool
        ensures answer { result ≡ (nat_le i self.old.len && nat_lt self.old.len (length self.old.slots.now)) }
        ensures len { self.new.len ≡ (if result then self.old.len + 1 else self.old.len) }
        ensures slots { MatchBool result (Inserts self.old.slots.now self.new.slots.now self.old.len i x) (self.new.slots.now ≡ self.old.slots.now) }
        ensures room { length self.new.slots.now ≡ length self.old.slots.now }
        ensures same { self.new.slots.ghost_name ≡ self.old.slots.ghost_name }
    {
        if i > self.len || self.len >= self.slots.len() {
            return false;
        }
        insert_slot(self.slots, self.len, i, x);
        self.len += 1;
        true
    }

    // Puts x behind the last; tells whether there was a place for it.
    pub fn push(&mut self, x: T) -> bool
        ensures answer { result ≡ nat_lt self.old.len (length self.old.slots.now) }
        ensures len { self.new.len ≡ (if result then self.old.len + 1 else self.old.len) }
        ensures slots { self.new.slots.now ≡ slice_set self.old.slots.now self.old.len x }
        ensures room { length self.new.slots.now ≡ length self.old.slots.now }
        ensures same { self.new.slots.ghost_name ≡ self.old.slots.ghost_name }
    {
        if self.len >= self.slots.len() {
            return false;
        }
        set_slot(self.slots, self.len, x);
        self.len += 1;
        true
    }

    // Takes the i-th out; tells whether there was one.
    pub fn remove(&mut self, i: usize) -> bool
        ensures answer { result ≡ (nat_lt i self.old.len && nat_le self.old.len (length self.old.slots.now)) }
        ensures len { self.new.len ≡ (if result then self.old.len - 1 else self.old.len) }
        ensures slots { MatchBool result (Removes self.old.slots.now self.new.slots.now (self.old.len - 1) i) (self.new.slots.now ≡ self.old.slots.now) }
        ensures room { length self.new.slots.now ≡ length self.old.slots.now }
        ensures same { self.new.slots.ghost_name ≡ self.old.slots.ghost_name }
    {
        if i >= self.len || self.len > self.slots.len() {
            return false;
        }
        self.len -= 1;
        remove_slot(self.slots, self.len, i);
        true
    }
}
