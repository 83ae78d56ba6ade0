// Why the program stops early.
use fault::Fault;
use std::alloc::{AllocError, AllocFailed};
use std::io;
use std::num::ParseIntError;
use thiserror::Error;

#[derive(Debug, Drop, Error)]
pub enum Stop {
    #[error("a line is not of the form rows | patches | +")]
    Line,
    #[error("a number is malformed or too great")]
    Number,
    // A row cannot be put.
    #[error("a row is refused by question {number}", number = .0.question.number())]
    Row(#[from] Fault),
    #[error("out of memory")]
    Memory,
    #[error(transparent)]
    Io(#[from] io::Error),
}

// By hand, with those below, since `#[from]` would have a field, and that would be printed where the program ends.
impl From<ParseIntError> for Stop {
    fn from(_e: ParseIntError) -> Stop {
        Stop::Number
    }
}

impl From<AllocError> for Stop {
    fn from(_e: AllocError) -> Stop {
        Stop::Memory
    }
}

impl<T: Drop> From<AllocFailed<T>> for Stop {
    fn from(_e: AllocFailed<T>) -> Stop {
        Stop::Memory
    }
}
