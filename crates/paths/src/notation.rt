// Paths and stamps as text.
ghost use Rattle.std.specs.Prelude.{◌≡◌, ◌∷◌, ◌++◌, Some, decimal};
ghost use Rattle.paths.specs.Steps.{levels};
ghost use Rattle.paths.specs.Notation.{text_of, Parsed, read_step, read_steps, read_path};

use crate::fault::Fault;
use crate::path::{Path, bytes_of};
use crate::stamp::Stamp;
use std::fmt;
use text::{read_fields, read_number};

impl fmt::Display for Path {
    ghost output = { λ p. Some (text_of p) };

    fn fmt<W: fmt::Write>(&self, f: &mut fmt::Formatter<W>) -> fmt::Result {
        let [reel, scene, shot, node] = bytes_of(self.number);
        match self.depth() {
            0 => write!(f, "."),
            1 => write!(f, "{reel}"),
            2 => write!(f, "{reel}/{scene}"),
            3 => write!(f, "{reel}/{scene}/{shot}"),
            _ => write!(f, "{reel}/{scene}/{shot}/{node}"),
        }
    }
}

impl fmt::Display for Stamp {
    ghost output = { λ s. Some (decimal s.panel.number ++ (58 ∷ decimal s.time.value)) };

    fn fmt<W: fmt::Write>(&self, f: &mut fmt::Formatter<W>) -> fmt::Result {
        let panel = self.panel.number;
        let time = self.time.value;
        write!(f, "{panel}:{time}")
    }
}

// The path that is written so.
impl<'a> TryFrom<&'a [u8]> for Path {
    type Error = Fault;

    ghost try_from_gives = { λ text r. Parsed text.now r };

    fn try_from(text: &'a [u8]) -> Result<Path, Fault> {
        Path::try_from(path_number(text).ok_or(Fault::NoPath)?)
    }
}

fn path_number(text: &[u8]) -> Option<u32>
    ensures { result ≡ read_path levels text.now }
{
    match text {
        [b'.'] => Some(0),
        _ => steps_number(text),
    }
}

fn step(text: &[u8]) -> Option<u8>
    ensures { result ≡ read_step text.now }
{
    u8::try_from(read_number(text)?)
        .ok()
        .filter(|step| *step != 0)
}

// The number of the steps that a text writes, at least one and at most as many as there are levels; missing steps are 0.
fn steps_number(text: &[u8]) -> Option<u32>
    ensures { result ≡ read_steps levels text.now }
{
    read_fields(text, b'/', 0, step).map(u32::from_be_bytes)
}
