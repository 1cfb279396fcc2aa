// Reading numbers and fields from bytes.
#![tactic(auto)]

ghost use Rattle.std.specs.Prelude.{◌≡◌, Some};
ghost use Rattle.std.specs.Fn.{FnReturnsAt};
ghost use Rattle.std.specs.Option.{option_map};
ghost use Rattle.text.specs.Fields.{before_first, after_first, Marked, FieldsRead};
ghost use Rattle.text.specs.Numerals.{digits_value, numeral};

// The number that decimal digits write; past 64 bits it is the greatest that fits.
fn digits_value(text: &[u8]) -> Option<u64>
    ensures { result ≡ digits_value text.now }
{
    let mut number: u64 = 0;
    for digit in text {
        if !digit.is_ascii_digit() {
            return None;
        }
        number = number
            .saturating_mul(10)
            .saturating_add((*digit - b'0') as u64);
    }
    Some(number)
}

// The same of a numeral: one digit or more, and no leading zero.
pub fn read_number(text: &[u8]) -> Option<u64>
    ensures { result ≡ numeral text.now }
{
    match text {
        [] => None,
        [b'0', _, ..] => None,
        _ => digits_value(text),
    }
}

// Where the first byte that equals `mark` stands, if there is one.
fn first_mark(text: &[u8], mark: u8) -> Option<usize>
    ensures { Marked mark text.now result }
{
    text.iter().position(|byte| *byte == mark)
}

// What stands before the first byte that equals `mark`, and what after it, if there is one.
pub fn split_first(text: &[u8], mark: u8) -> (&[u8], Option<&[u8]>)
    ensures before { result.0.now ≡ before_first mark text.now }
    ensures after { option_map (λ x. x.now) result.1 ≡ after_first mark text.now }
{
    match first_mark(text, mark) {
        Some(i) => {
            let (_, after) = text.split_at(i + 1);
            (&text[0..i], Some(after))
        }
        None => (text, None),
    }
}

// The fields of a text, with a mark between them, at least one and at most N; those that are left out are blank.
pub fn read_fields<T: Copy, const N: usize, F: Fn(&[u8]) -> Option<T>>(
    text: &[u8],
    mark: u8,
    blank: T,
    read: F,
) -> Option<[T; N]>
    requires { F.IsAlwaysCallable read }
    ensures { FieldsRead (FnReturnsAt F.Fn read) mark blank N (Some text.now) result }
{
    let mut fields = [blank; N];
    let mut rest = Some(text);
    for field in &mut fields {
        if let Some(text) = rest {
            let (first, after) = split_first(text, mark);
            *field = read(first)?;
            rest = after;
        }
    }
    match rest {
        None => Some(fields),
        Some(_) => None,
    }
}
