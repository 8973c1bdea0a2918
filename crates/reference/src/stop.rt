// Why a call stops.
use crate::refusal::Refusal;
use std::alloc::{AllocError, AllocFailed};

/// A call refuses, or there is no memory for its vectors.
#[derive(Clone, Copy, PartialEq, Eq, Debug)]
pub enum Stop {
    /// It refuses.
    Refused(Refusal),
    /// There is no memory.
    Memory(AllocError),
}

impl From<Refusal> for Stop {
    fn from(refusal: Refusal) -> Stop {
        Stop::Refused(refusal)
    }
}

impl From<AllocError> for Stop {
    fn from(e: AllocError) -> Stop {
        Stop::Memory(e)
    }
}

impl<T: Drop> From<AllocFailed<T>> for Stop {
    fn from(e: AllocFailed<T>) -> Stop {
        Stop::Memory(AllocError::from(e))
    }
}
