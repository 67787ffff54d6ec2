use std::alloc::{AllocError, AllocFailed};
use thiserror::Error;

/// A construct of the standard's binary format that lies outside the profile.
#[derive(Clone, Copy, Debug, PartialEq, Eq)]
pub enum What {
    /// A type of floating point numbers, or an instruction on them (WebAssembly Core Specification 1.0, 5.3.1, 5.4).
    Float,
    /// An indirect call (5.4.1).
    CallIndirect,
    /// A table: its section, or its import or export (5.5.5, 5.5.7, 5.5.10).
    Table,
    /// A start section (5.5.11).
    Start,
    /// An element section (5.5.12).
    Element,
    /// A data section (5.5.14).
    DataSection,
    /// An import that isn't the memory or the function of the profile, or one of the two again (5.5.5).
    Import,
}

/// Why octets were not read.
#[derive(Clone, Copy, Debug, PartialEq, Eq, Error)]
pub enum BinaryFault {
    #[error("want of memory")]
    NoMemory,
    /// The first construct from the left that no rule allows is none of the standard's either.
    #[error("not a module")]
    NotModule,
    /// It is one of the standard's that lies outside the profile.
    #[error("out of profile {what:?}")]
    OutOfProfile { what: What },
}

impl From<AllocError> for BinaryFault {
    ghost use Rattle.std.specs.Prelude.{◌≡◌};
    ghost use Rattle.qw_octet_grammar.specs.declared.fault.BinaryFault.TheVariants.{NoMemory};

    ghost from_gives = { λ _ fault. fault ≡ NoMemory };

    fn from(_e: AllocError) -> BinaryFault {
        BinaryFault::NoMemory
    }
}

impl<T: Drop> From<AllocFailed<T>> for BinaryFault {
    ghost use Rattle.std.specs.Prelude.{◌≡◌};
    ghost use Rattle.qw_octet_grammar.specs.declared.fault.BinaryFault.TheVariants.{NoMemory};

    ghost from_gives = { λ _ fault. fault ≡ NoMemory };

    fn from(_e: AllocFailed<T>) -> BinaryFault {
        BinaryFault::NoMemory
    }
}
