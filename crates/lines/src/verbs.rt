// What a line asks for, by its letter.
ghost use Rattle.std.specs.Prelude.{◌≡◌};
ghost use Rattle.lines.specs.Letters.{verb_of, verb_fields, loss_of};

// The letter of a line behind the first.
#[derive(Clone, Copy, PartialEq, Eq, Debug)]
pub enum Verb {
    Point,
    Drop,
    Lay,
    Convert,
}

impl Verb {
    // No TryFrom, whose error would say nothing: a letter is known or not.
    pub fn of(letter: u8) -> Option<Verb>
        ensures { result ≡ verb_of letter }
    {
        match letter as char {
            'p' => Some(Verb::Point),
            'd' => Some(Verb::Drop),
            'l' => Some(Verb::Lay),
            'c' => Some(Verb::Convert),
            _ => None,
        }
    }

    // How many fields such a line has, where a point's line has so many.
    pub fn fields(self, point_fields: usize) -> usize
        ensures { result ≡ verb_fields point_fields self }
    {
        match self {
            Verb::Point => point_fields,
            Verb::Drop => 2,
            Verb::Lay => 1,
            Verb::Convert => 2,
        }
    }
}

// The letter of the first line.
#[derive(Clone, Copy, PartialEq, Eq, Debug)]
pub enum LossName {
    Squares,
    Absolute,
    Bands,
}

impl LossName {
    // No TryFrom, as above.
    pub fn of(letter: u8) -> Option<LossName>
        ensures { result ≡ loss_of letter }
    {
        match letter as char {
            's' => Some(LossName::Squares),
            'a' => Some(LossName::Absolute),
            'b' => Some(LossName::Bands),
            _ => None,
        }
    }
}
