// Why the program stops early.
use fault::Fault;
use fit::Misfit;
use std::alloc::{AllocError, AllocFailed};
use std::io;
use std::num::ParseIntError;
use thiserror::Error;

#[derive(Debug, Drop, Error)]
pub enum Stop {
    #[error("a line is not of the form loss limit top : points")]
    Line,
    #[error("a number is malformed or too great")]
    Number,
    #[error("a point is refused by question {number}", number = .0.question.number())]
    Point(#[from] Fault),
    #[error("{misfit}", misfit = told(.0))]
    Fit(#[from] Misfit),
    #[error("out of memory")]
    Memory,
    #[error(transparent)]
    Io(#[from] io::Error),
}

// By hand, with those below, since `#[from]` would have a field, and that would be printed where the program ends.
impl From<ParseIntError> for Stop {
    fn from(_e: ParseIntError) -> Stop {
        Stop::Number
    }
}

impl From<AllocError> for Stop {
    fn from(_e: AllocError) -> Stop {
        Stop::Memory
    }
}

impl<T: Drop> From<AllocFailed<T>> for Stop {
    fn from(_e: AllocFailed<T>) -> Stop {
        Stop::Memory
    }
}

fn told(misfit: &Misfit) -> &'static str {
    match misfit {
        Misfit::TooMany => "a sweep has more than 1,024 points",
        Misfit::Places => "not one level for each point",
    }
}
