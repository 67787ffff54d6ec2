//! Why a row comes to no value.

use qw_parse::fault::ParseFault;
use qw_schema::parse::SchemaFault;
use qw_token::token::TokenFault;
use qw_types::NoMemory;
use std::alloc::AllocError;
use thiserror::Error;

/// The fault of a layer, or that there is no such row.
#[derive(Debug, Drop, Error)]
pub enum Refusal {
    #[error("no row of this kind")]
    NotRow,
    #[error("want of memory")]
    Alloc(#[from(alloc)] AllocError),
    #[error("want of memory")]
    NoMemory(#[from] NoMemory),
    #[error("{0:?}")]
    Token(#[from] TokenFault),
    #[error("{0:?}")]
    Schema(#[from] SchemaFault),
    #[error("{0:?}")]
    Parse(#[from] ParseFault),
}
