// A line of input, read by its form alone; whether its numbers are in range is no question yet.
ghost use Rattle.std.specs.Prelude.{◌≡◌, ◌-◌, ◌++◌, replicate};
ghost use Rattle.std.specs.Option.{option_map};
ghost use Rattle.leaves.specs.Lines.{read_stamp, read_stamps, read_grade, read_place, read_places, read_vector, read_side, read_line, line_text};

use engine::leaf::Side;
use paths::grade::{GradeParts, Knobs};
use paths::stamp::StampParts;
use paths::vector::Vector;
use text::{read_fields, read_number, split_first};

// A is the panel that a sync goes from, and B the one that it goes onto.
#[derive(Clone, Copy)]
pub struct Line<'a> {
    pub leaf: &'a [u8],
    pub a: Side<Option<GradeParts>>,
    pub b: Side<Option<GradeParts>>,
}

pub fn read_line(text: &[u8]) -> Option<Line<'_>>
    ensures { option_map line_text result ≡ read_line text.now }
{
    // Through the library's splitn each of seven exits would need a proof of its own; here none does.
    let (leaf, rest) = split_first(text, b' ');
    let (grade_a, rest) = split_first(rest?, b' ');
    let (vector_a, rest) = split_first(rest?, b' ');
    let (grade_b, vector_b) = split_first(rest?, b' ');
    let a = read_side(grade_a, vector_a)?;
    let b = read_side(grade_b, vector_b?)?;
    Some(Line { leaf, a, b })
}

fn read_side(grade: &[u8], vector: &[u8]) -> Option<Side<Option<GradeParts>>>
    ensures { result ≡ read_side grade.now vector.now }
{
    Some(Side {
        grade: read_grade(grade)?,
        vector: read_vector(vector)?,
    })
}

fn read_stamp(text: &[u8]) -> Option<StampParts>
    ensures { result ≡ read_stamp text.now }
{
    let (panel, time) = split_first(text, b':');
    Some(StampParts {
        panel: read_number(panel)?,
        time: read_number(time?)?,
    })
}

// A grade by its stamp and its birth. The rule never looks at knobs, so a line has none.
fn read_stamps(text: &[u8]) -> Option<GradeParts>
    ensures { result ≡ read_stamps text.now }
{
    let (stamp, birth) = split_first(text, b'/');
    Some(GradeParts {
        knobs: Knobs {
            lift: 0,
            gamma: 0,
            gain: 0,
            contrast: 0,
        },
        stamp: read_stamp(stamp)?,
        birth: read_stamp(birth?)?,
    })
}

fn read_grade(text: &[u8]) -> Option<Option<GradeParts>>
    ensures { result ≡ read_grade text.now }
{
    match text {
        [b'-'] => Some(None),
        _ => read_stamps(text).map(Some),
    }
}

fn read_place(text: &[u8]) -> Option<u32>
    ensures { result ≡ read_place text.now }
{
    u32::try_from(read_number(text)?).ok()
}

// The places that are left out are 0.
fn read_vector(text: &[u8]) -> Option<Vector>
    ensures { result ≡ read_vector text.now }
{
    Some(Vector {
        places: read_fields(text, b',', 0, read_place)?,
    })
}
