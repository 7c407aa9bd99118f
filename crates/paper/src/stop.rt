// Why a paper is not carried out to its end.
use std::alloc::{AllocError, AllocFailed};
use std::io;

#[derive(Drop)]
pub enum Stop {
    // The line is no command: what was expected of it.
    Expected(&'static str),
    Memory,
    Output(io::Error),
}

impl From<AllocError> for Stop {
    fn from(_e: AllocError) -> Stop {
        Stop::Memory
    }
}

impl<T: Drop> From<AllocFailed<T>> for Stop {
    fn from(_e: AllocFailed<T>) -> Stop {
        Stop::Memory
    }
}

impl From<io::Error> for Stop {
    fn from(e: io::Error) -> Stop {
        Stop::Output(e)
    }
}
