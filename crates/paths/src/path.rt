// A path of the tree, held as its number: reel, scene, shot and node as the bytes of 32 bits, 0 where missing.
ghost use Rattle.std.specs.Prelude.{◌≡◌, T, if◌then◌else◌, Some, None, ◌==◌, nat_eq};
ghost use Rattle.std.specs.Option.{option_map};
ghost use Rattle.paths.specs.Steps.{levels, digits, is_number, covers, depth, parent as above};

#[derive(Clone, Copy, PartialEq, Eq, PartialOrd, Ord)]
pub struct Path {
    pub number: u32,
    ghost lawful: { T (is_number levels number) },
}

// The bytes of a number, reel, scene, shot and node.
pub fn bytes_of(number: u32) -> [u8; Path::LEVELS]
    ensures { result ≡ digits levels number }
{
    number.to_be_bytes()
}

impl Path {
    pub const LEVELS: usize = 4;

    pub fn root() -> Path
        ensures { result ≡ record { number = 0; lawful = tt } }
    {
        Path { number: 0 }
    }

    // How many steps it has.
    pub fn depth(self) -> usize
        ensures { result ≡ depth levels self.number }
    {
        bytes_of(self.number)
            .iter()
            .position(|step| *step == 0)
            .unwrap_or(Path::LEVELS)
    }

    pub fn is_leaf(self) -> bool
        ensures { result ≡ (depth levels self.number == levels) }
    {
        self.depth() == Path::LEVELS
    }

    // The path without its last step; the root has none. Each case says by its pattern which step is the last.
    pub fn parent(self) -> Option<Path>
        ensures { option_map (λ p. p.number) result ≡ (if nat_eq self.number 0 then None else Some (above levels self.number)) }
    {
        let number = match bytes_of(self.number) {
            [0, ..] => return None,
            [_, 0, ..] => 0,
            [_, _, 0, _] => self.number - self.number % 0x100_0000,
            [_, _, _, 0] => self.number - self.number % 0x1_0000,
            _ => self.number - self.number % 0x100,
        };
        Some(Path { number })
    }

    // Whether other begins with all steps of this path. By byte and byte in a chain, with a test of two parts for each, it was
    // tried, and the search does not follow such a chain.
    pub fn covers(self, other: Path) -> bool
        ensures { result ≡ covers levels self.number other.number }
    {
        let [a, b, c, d] = bytes_of(self.number);
        let [e, f, g, h] = bytes_of(other.number);
        a == 0 || a == e && (b == 0 || b == f && (c == 0 || c == g && (d == 0 || d == h)))
    }
}
