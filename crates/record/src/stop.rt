// Why the program stops early.
use fault::Fault;
use std::alloc::{AllocError, AllocFailed};
use std::io;
use thiserror::Error;

#[derive(Debug, Drop, Error)]
pub enum Stop {
    #[error("refused: {0}")]
    Refused(#[from] Fault),
    #[error("out of memory")]
    Memory,
    #[error(transparent)]
    Print(#[from] io::Error),
}

// By hand, with the one below, since `#[from]` would have a field, and that would be printed where the program ends.
impl From<AllocError> for Stop {
    fn from(_e: AllocError) -> Stop {
        Stop::Memory
    }
}

impl<T: Drop> From<AllocFailed<T>> for Stop {
    fn from(_e: AllocFailed<T>) -> Stop {
        Stop::Memory
    }
}
