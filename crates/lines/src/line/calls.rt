// What a line says.
ghost use Rattle.std.specs.Prelude.{◌≡◌, ℕ, ◌<◌, ◌≤◌, true, length, take, Option, IfSome};
ghost use Rattle.std.specs.Option.{option_map};
ghost use Rattle.std.specs.Str.Parse.{digits_value};
ghost use Rattle.std.specs.List.{slice_get};
ghost use Rattle.std.specs.Range.{range_inclusive_start, range_inclusive_end};
ghost use Rattle.std.specs.Str.{all_ascii_digits};
ghost use Rattle.fault.specs.Numbers.{at_place};
ghost use Rattle.lines.specs.Fields.{number_at, column_from, RightCase};
ghost use Rattle.lines.specs.Forms.{formed, line_parts, placed_parts};
ghost use Rattle.lines.specs.Letters.{first_letter};
ghost use Rattle.lines.specs.Pieces.{fields_of, fields_at, well_spaced};
ghost use Rattle.lines.specs.Requests.{begun};

use crate::fields::{Field, Placed};
use crate::line::Line;
use crate::line::parts::Parts;
use crate::pieces::Pieces;
use fault::{Fault, Question};
use std::ops::RangeInclusive;

// The most bytes of a line.
const MAX_BYTES: usize = 64;

// The most digits of a number.
const MAX_DIGITS: usize = 10;

// Is there one space between fields, and none at the ends?
fn is_well_spaced(bytes: &[u8]) -> bool
    ensures { result ≡ well_spaced bytes.now }
{
    let mut before = b' ';
    for byte in bytes {
        if before == b' ' && *byte == b' ' {
            return false;
        }
        before = *byte;
    }
    before != b' '
}

// The number that digits write.
fn value_of(digits: &[u8]) -> u64
    requires { (all_ascii_digits digits.now ≡ true) × (length digits.now ≤ 10) }
    ensures { result ≡ digits_value 10 digits.now }
{
    let mut n = 0;
    for digit in digits {
        n = n * 10 + u64::from(*digit - b'0');
    }
    n
}

impl<'a> Line<'a> {
    pub fn new(bytes: &'a [u8], number: u32) -> Line<'a>
        ensures { line_parts result ≡ (number, take 65 bytes.now) }
    {
        Line {
            bytes: &bytes[..bytes.len().min(MAX_BYTES + 1)],
            number,
        }
    }

    // A refusal at a column of this line.
    pub fn fault(&self, question: Question, column: u32) -> Fault
        ensures { result ≡ at_place self.now.number column question }
    {
        Fault::at(self.number, column, question)
    }

    // Is its form right: not too long, one space between fields, none at the ends?
    pub fn check_form(&self) -> Result<(), Fault>
        ensures { result ≡ formed self.now.number self.now.bytes.now }
    {
        if self.bytes.len() > MAX_BYTES {
            return Err(self.fault(Question::LineLength, 1));
        }
        if !is_well_spaced(self.bytes) {
            return Err(self.fault(Question::LineSpacing, 1));
        }
        Ok(())
    }

    // How many fields it has.
    pub fn count_fields(&self) -> usize
        ensures { result ≡ length (fields_of self.now.bytes.now) }
    {
        Pieces::new(self.bytes, b' ').count()
    }

    // Field i, counted from 0.
    pub fn field(&self, i: usize) -> Option<Placed<'a>>
        ensures value { option_map placed_parts result ≡ slice_get (fields_at self.now.bytes.now) i }
        ensures sort { IfSome result (λ p. RightCase p.field) }
    {
        let (column, part) = Parts::new(self.bytes).nth(i)?;
        Some(Placed {
            field: Field::from(part),
            column,
        })
    }

    // The column of field i, or 1 where there is no such field.
    pub fn column(&self, i: usize) -> u32
        ensures { result ≡ column_from (slice_get (fields_at self.now.bytes.now) i) }
    {
        self.field(i).map_or(1, |placed| placed.column)
    }

    // The letter that it begins with, if its first field is one.
    pub fn letter(&self) -> Option<u8>
        ensures { result ≡ first_letter self.now.bytes.now }
    {
        self.field(0)?.field.letter()
    }

    // Field i as a number in a range.
    pub fn number(&self, i: usize, range: RangeInclusive<u32>) -> Result<u32, Fault>
        ensures { result ≡ number_at self.now.number (range_inclusive_start range) (range_inclusive_end range) self.now.bytes.now i }
    {
        let placed = self.field(i).ok_or(self.fault(Question::LineFields, 1))?;
        let Field::Digits(digits) = placed.field else {
            return Err(self.fault(Question::NumberDigits, placed.column));
        };
        if digits.len() > MAX_DIGITS || digits.len() > 1 && digits[0] == b'0' {
            return Err(self.fault(Question::NumberForm, placed.column));
        }
        let n = value_of(digits);
        let (low, high) = range.into_inner();
        if n < u64::from(low) || n > u64::from(high) {
            return Err(self.fault(Question::PointRange, placed.column));
        }
        Ok(n as u32)
    }

    // What it begins with, where its form is right: a known letter with the right number of fields behind it.
    pub(crate) fn begin<X: Copy, K: FnOnce(u8) -> Option<X>, F: FnOnce(X) -> usize>(
        &self,
        known: K,
        fields: F,
    ) -> Result<X, Fault>
        requires known { K.IsAlwaysCallable known }
        requires fields { F.IsAlwaysCallable fields }
        ensures { (k : ℕ → Option X) (n : X → ℕ) → ((b : ℕ) (x : Option X) → b < 256 → K.post known b x → x ≡ k b) → ((x : X) (m : ℕ) → F.post fields x m → m ≡ n x) → result ≡ begun k n self.now.number self.now.bytes.now }
    {
        self.check_form()?;
        let word = self
            .letter()
            .and_then(known)
            .ok_or(self.fault(Question::LineLetter, 1))?;
        if self.count_fields() != fields(word) {
            return Err(self.fault(Question::LineFields, 1));
        }
        Ok(word)
    }
}
