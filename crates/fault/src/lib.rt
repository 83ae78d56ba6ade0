// What a refusal says: which question was answered no, and where in the text it was asked.
#![tactic(auto)]

ghost use Rattle.std.specs.Prelude.{◌≡◌, Some};
ghost use Rattle.fault.specs.Numbers.{number_of, layer_of, outside_text, at_place};
ghost use Rattle.fault.specs.Texts.{fault_text};

use std::fmt;

// The questions that can be answered no, one variant each.
#[derive(Clone, Copy, PartialEq, Eq, Debug)]
pub enum Question {
    // Has the line at most 64 bytes?
    LineLength,
    // Has the line a field, single spaces between fields, and no space before or behind them?
    LineSpacing,
    // Is the first field a letter that such a line may begin with?
    LineLetter,
    // Has the line as many fields as its letter asks for?
    LineFields,
    // Are all bytes of the field digits?
    NumberDigits,
    // Has the number at most 10 digits, and no leading zero?
    NumberForm,
    // Is the number in its range: a level at most 65,535, a weight from 1 to 1,000, a count of 32 bits?
    PointRange,
    // Is the low end of a band at most its high end?
    BandEnds,
    // Has the memory for an answer at least 32 bytes?
    AnswerRoom,
    // Has the input at most 65,536 bytes?
    InputLength,
    // Is the count of the point to add at most 16,777,215?
    AddCount,
    // Is no point of the count to add held?
    AddTwice,
    // Is a place left for the point to add?
    AddFull,
    // Is a point of the count to drop held?
    DropNone,
    // Is a point held, so that there is something to lay?
    LayNone,
    // Has the holder room for a row for each held point?
    LayRoom,
    // Is the count of the row to put at most 16,777,215?
    PutCount,
    // Has the holder fewer rows than its capacity?
    PutRoom,
    // Are the bytes to open whole blocks, and no more than a full table takes?
    OpenLength,
    // Are both sums of the block right?
    OpenSums,
    // Is the rest of the block as it is laid out, with at most 1,024 rows up to its end?
    OpenLayout,
    // Do counts in range rise, and levels never fall, from each row to the next?
    OpenOrder,
    // Is there a row to convert by?
    ConvertEmpty,
    // Is the count to convert at least that of row 0?
    ConvertBelow,
    // Has some row a count at least the one to convert?
    ConvertAbove,
    // Is the level of the row found at least that of the row before?
    ConvertFalls,
}

impl Question {
    // The number that stands for the question in every record.
    pub fn number(self) -> u8
        ensures { result ≡ number_of self }
    {
        match self {
            Question::LineLength => 16,
            Question::LineSpacing => 17,
            Question::LineLetter => 18,
            Question::LineFields => 19,
            Question::NumberDigits => 20,
            Question::NumberForm => 21,
            Question::PointRange => 22,
            Question::BandEnds => 23,
            Question::AnswerRoom => 24,
            Question::InputLength => 25,
            Question::AddCount => 1,
            Question::AddTwice => 2,
            Question::AddFull => 3,
            Question::DropNone => 4,
            Question::LayNone => 5,
            Question::LayRoom => 6,
            Question::PutCount => 1,
            Question::PutRoom => 11,
            Question::OpenLength => 12,
            Question::OpenSums => 13,
            Question::OpenLayout => 14,
            Question::OpenOrder => 15,
            Question::ConvertEmpty => 7,
            Question::ConvertBelow => 8,
            Question::ConvertAbove => 9,
            Question::ConvertFalls => 10,
        }
    }

    // The layer that asks it.
    pub fn layer(self) -> u8
        ensures { result ≡ layer_of self }
    {
        match self {
            Question::LineLength => 1,
            Question::LineSpacing => 1,
            Question::LineLetter => 2,
            Question::LineFields => 2,
            Question::NumberDigits => 1,
            Question::NumberForm => 1,
            Question::PointRange => 1,
            Question::BandEnds => 2,
            Question::AnswerRoom => 2,
            Question::InputLength => 2,
            Question::AddCount => 3,
            Question::AddTwice => 3,
            Question::AddFull => 3,
            Question::DropNone => 3,
            Question::LayNone => 3,
            Question::LayRoom => 3,
            Question::PutCount => 4,
            Question::PutRoom => 4,
            Question::OpenLength => 4,
            Question::OpenSums => 4,
            Question::OpenLayout => 4,
            Question::OpenOrder => 4,
            Question::ConvertEmpty => 3,
            Question::ConvertBelow => 3,
            Question::ConvertAbove => 3,
            Question::ConvertFalls => 3,
        }
    }
}

// A refusal. Line and column count from 1, and are 0 where nothing was read from text.
#[derive(Clone, Copy, PartialEq, Eq, Debug)]
pub struct Fault {
    pub question: Question,
    pub line: u32,
    pub column: u32,
}

impl Fault {
    // The refusal of a call that reads no text.
    pub fn plain(question: Question) -> Fault
        ensures { result ≡ outside_text question }
    {
        Fault {
            question,
            line: 0,
            column: 0,
        }
    }

    // A refusal at a place in a text.
    pub fn at(line: u32, column: u32, question: Question) -> Fault
        ensures { result ≡ at_place line column question }
    {
        Fault {
            question,
            line,
            column,
        }
    }
}

impl fmt::Display for Fault {
    ghost output = { λ f. Some (fault_text f) };

    fn fmt<W: fmt::Write>(&self, f: &mut fmt::Formatter<W>) -> fmt::Result {
        let layer = self.question.layer();
        let number = self.question.number();
        let line = self.line;
        let column = self.column;
        write!(f, "{layer} {number} {line} {column}")
    }
}
