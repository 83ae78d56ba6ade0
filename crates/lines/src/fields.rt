// The fields of a line.
ghost use Rattle.std.specs.Prelude.{◌≡◌};
ghost use Rattle.std.specs.Str.{all_ascii_digits};
ghost use Rattle.lines.specs.Fields.{field_of, field_letter};

// A part of a line, still in the reader's input.
#[derive(Clone, Copy, PartialEq, Eq, Debug)]
pub enum Field<'a> {
    Digits(&'a [u8]),
    Letter(&'a [u8]),
    Other(&'a [u8]),
}

// A field with the column, from 1, at which it begins.
#[derive(Clone, Copy, PartialEq, Eq, Debug)]
pub struct Placed<'a> {
    pub field: Field<'a>,
    pub column: u32,
}

fn all_digits(part: &[u8]) -> bool
    ensures { result ≡ all_ascii_digits part.now }
{
    part.iter().all(u8::is_ascii_digit)
}

// What kind of field a part of a line is.
impl<'a> From<&'a [u8]> for Field<'a> {
    ghost from_gives = { λ part field. field ≡ field_of part };

    fn from(part: &'a [u8]) -> Field<'a> {
        match part {
            _ if all_digits(part) => Field::Digits(part),
            [letter] if letter.is_ascii_alphabetic() => Field::Letter(part),
            _ => Field::Other(part),
        }
    }
}

impl<'a> Field<'a> {
    // The letter of a field that is one.
    pub fn letter(self) -> Option<u8>
        ensures { result ≡ field_letter self.entry }
    {
        match self {
            Field::Letter([letter]) => Some(*letter),
            _ => None,
        }
    }
}
