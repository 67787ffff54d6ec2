use std::alloc::{AllocError, AllocFailed};
use thiserror::Error;

/// There is no memory left for what was asked. No clause ties this answer to a refused allocation.
#[derive(Clone, Copy, Debug, PartialEq, Eq, Error)]
#[error("want of memory")]
pub struct NoMemory;

impl From<AllocError> for NoMemory {
    fn from(_e: AllocError) -> NoMemory {
        NoMemory
    }
}

impl<T: Drop> From<AllocFailed<T>> for NoMemory {
    fn from(_e: AllocFailed<T>) -> NoMemory {
        NoMemory
    }
}
