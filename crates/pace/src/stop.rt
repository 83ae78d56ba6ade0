// Why the program stops early.
use fault::Fault;
use measure::Usage;
use std::alloc::AllocError;
use std::io;
use thiserror::Error;

#[derive(Debug, Drop, Error)]
pub enum Stop {
    #[error("usage: pace [time N]")]
    Usage,
    #[error("refused: {0}")]
    Refused(#[from] Fault),
    #[error("out of memory")]
    Memory,
    #[error(transparent)]
    Io(#[from] io::Error),
}

// By hand, with those below, since `#[from]` would have a field, and that would be printed where the program ends.
impl From<Usage> for Stop {
    fn from(_e: Usage) -> Stop {
        Stop::Usage
    }
}

impl From<AllocError> for Stop {
    fn from(_e: AllocError) -> Stop {
        Stop::Memory
    }
}
