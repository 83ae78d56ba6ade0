// Why the program stops early.
use fault::Fault;
use fit::Misfit;
use measure::Usage;
use std::alloc::{AllocError, AllocFailed};
use std::io;
use thiserror::Error;

#[derive(Debug, Drop, Error)]
pub enum Stop {
    #[error("usage: timing [time N]")]
    Usage,
    #[error("a point is refused: {0}")]
    Point(#[from] Fault),
    #[error("a sweep cannot be fitted: {0:?}")]
    Fit(#[from] Misfit),
    #[error("out of memory")]
    Memory,
    #[error(transparent)]
    Io(#[from] io::Error),
}

// By hand, with those below, since `#[from]` would have a field, and that would be printed where the program ends.
impl From<Usage> for Stop {
    fn from(_e: Usage) -> Stop {
        Stop::Usage
    }
}

impl From<AllocError> for Stop {
    fn from(_e: AllocError) -> Stop {
        Stop::Memory
    }
}

impl<T: Drop> From<AllocFailed<T>> for Stop {
    fn from(_e: AllocFailed<T>) -> Stop {
        Stop::Memory
    }
}
