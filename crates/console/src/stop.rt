// Why the program gives no answer.
use std::alloc::AllocError;
use std::io;
use thiserror::Error;

// The program `scripts` has an equal one: a crate that both use would be longer than either.
#[derive(Debug, Drop, Error)]
pub enum Stop {
    #[error("out of memory")]
    Memory,
    #[error(transparent)]
    Io(#[from] io::Error),
}

// By hand, since `#[from]` would have a field, and that would be printed where the program ends.
impl From<AllocError> for Stop {
    fn from(_e: AllocError) -> Stop {
        Stop::Memory
    }
}
