//! Why a line of cases can't be done.

use qw_types::NoMemory;
use std::alloc::{AllocError, AllocFailed};
use thiserror::Error;

/// Why a line can't be done.
#[derive(Clone, Copy, Debug, PartialEq, Eq, Error)]
pub enum CaseFault {
    /// It is none of the lines that are read.
    #[error("no line of cases")]
    Line,
    /// There is no memory left.
    #[error("want of memory")]
    NoMemory,
}

impl From<NoMemory> for CaseFault {
    fn from(_fault: NoMemory) -> CaseFault {
        CaseFault::NoMemory
    }
}

impl From<AllocError> for CaseFault {
    fn from(_fault: AllocError) -> CaseFault {
        CaseFault::NoMemory
    }
}

impl<T: Drop> From<AllocFailed<T>> for CaseFault {
    fn from(_fault: AllocFailed<T>) -> CaseFault {
        CaseFault::NoMemory
    }
}
