//! Why a row comes to no value.

use qw_machine::machine::InstanceFault;
use qw_octet_grammar::fault::BinaryFault;
use qw_octet_grammar::write::WriteFault;
use qw_valid::valid::ValidFault;
use std::alloc::AllocError;
use thiserror::Error;

/// The fault of a layer, or that there is no such row.
#[derive(Debug, Drop, Error)]
pub enum Refusal {
    #[error("no row of this kind")]
    NotRow,
    #[error("want of memory")]
    NoMemory(#[from(alloc)] AllocError),
    #[error("{0:?}")]
    Binary(#[from] BinaryFault),
    #[error("{0:?}")]
    Write(#[from] WriteFault),
    #[error("{0:?}")]
    Valid(#[from] ValidFault),
    #[error("{0:?}")]
    Instance(#[from] InstanceFault),
}
