// What is answered to a line.
ghost use Rattle.std.specs.Prelude.{◌≡◌, Some, Ok, Err};
ghost use Rattle.paths.specs.declared.fault.Fault.TheVariants.{OutOfRange};
ghost use Rattle.paths.specs.Faults.{nowhere};
ghost use Rattle.paths.specs.Parts.{MadeOf};
ghost use Rattle.leaves.specs.declared.answer.Undecided.TheVariants.{Refused};
ghost use Rattle.leaves.specs.Answers.{side_parts, lawful_side, Answered, answer_text};
ghost use Rattle.leaves.specs.Lines.{read_line};

use crate::line::read_line;
use engine::leaf::{Outcome, Side, decide};
use paths::fault::{Fault, Refusal, Site};
use paths::grade::{Grade, GradeParts};
use paths::path::Path;
use std::fmt;

// What a sync does at a leaf; no outcome where both sides are empty.
#[derive(Clone, Copy, PartialEq, Eq)]
pub struct Decided {
    pub leaf: Path,
    pub outcome: Option<Outcome>,
}

// Why nothing is decided of a line.
#[derive(Clone, Copy, PartialEq, Eq)]
pub enum Undecided {
    // it has not the form of one
    Unread,
    Refused(Fault),
}

impl From<Fault> for Undecided {
    ghost from_gives = { λ fault undecided. undecided ≡ Refused fault };

    fn from(fault: Fault) -> Undecided {
        Self::Refused(fault)
    }
}

pub fn answer_line(text: &[u8]) -> Result<Decided, Undecided>
    ensures { Answered (read_line text.now) result }
{
    let line = read_line(text).ok_or(Undecided::Unread)?;
    let leaf = Path::try_from(line.leaf)?;
    if !leaf.is_leaf() {
        let site = Site {
            path: leaf,
            panel: None,
        };
        return Err(Undecided::Refused(Fault::NoLeaf(site)));
    }
    let a = side(line.a)?;
    let b = side(line.b)?;
    Ok(Decided {
        leaf,
        outcome: decide(a, b),
    })
}

fn side(parts: Side<Option<GradeParts>>) -> Result<Side<Option<Grade>>, Fault>
    ensures { MadeOf side_parts parts (lawful_side parts.grade) (OutOfRange nowhere) result }
{
    Ok(Side {
        grade: parts.grade.map(Grade::try_from).transpose()?,
        vector: parts.vector,
    })
}

impl fmt::Display for Decided {
    ghost output = { λ d. Some (answer_text (Ok d)) };

    fn fmt<W: fmt::Write>(&self, f: &mut fmt::Formatter<W>) -> fmt::Result {
        let leaf = self.leaf;
        match self.outcome {
            None => write!(f, "{leaf} empty"),
            Some(Outcome::Kept) => write!(f, "{leaf} kept"),
            Some(Outcome::Taken) => write!(f, "{leaf} taken"),
            Some(Outcome::Removed) => write!(f, "{leaf} removed"),
            Some(Outcome::Conflict(kind)) => {
                let number = u8::from(kind);
                write!(f, "{leaf} conflict {number}")
            }
        }
    }
}

impl fmt::Display for Undecided {
    ghost output = { λ u. Some (answer_text (Err u)) };

    fn fmt<W: fmt::Write>(&self, f: &mut fmt::Formatter<W>) -> fmt::Result {
        match *self {
            Undecided::Unread => write!(f, "?"),
            Undecided::Refused(fault) => {
                let number = Refusal::from(fault).number;
                write!(f, "no {number}")
            }
        }
    }
}
