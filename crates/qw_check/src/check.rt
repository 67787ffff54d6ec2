//! Octets, tested to be a valid module.

ghost use Rattle.std.specs.Prelude.{◌≡◌, IfErr, OnOk};
ghost use Rattle.qw_scan.specs.Held.{HeldByValid};
ghost use Rattle.qw_check.specs.Check.{HasFault, SpellsValid};
ghost use Rattle.qw_check.specs.Inner.Faults.{IsModuleFault};

use qw_octet_grammar::fault::{BinaryFault, What};
use qw_scan::scan::{ScannedModule, read_module, validate_module};
use qw_valid::valid::{Part, ValidFault};
use std::alloc::Global;
use thiserror::Error;

/// Why octets are no valid module.
#[derive(Clone, Copy, Debug, PartialEq, Eq, Error)]
pub enum CheckFault {
    /// The first construct from the left that no rule allows is none of the standard's (5.5.15).
    #[error("not a module")]
    NotModule,
    /// It is one of the standard's that lies outside the profile.
    #[error("out of profile")]
    OutOfProfile(What),
    /// The module is read, and this is its first part that isn't valid (3.4).
    #[error("a part isn't valid")]
    Part(Part),
    /// Its parts are valid, and this is the first function whose body isn't typed, counted among all functions, the imported ones
    /// first; and the first place of it that is refused (3.3).
    #[error("function {func} isn't typed at place {at}")]
    Body { func: usize, at: usize },
    #[error("want of memory")]
    NoMemory,
}

impl From<BinaryFault> for CheckFault {
    ghost use Rattle.qw_check.specs.Inner.Faults.{fault_of_reading};

    ghost from_gives = { λ fault check. check ≡ fault_of_reading fault };

    fn from(fault: BinaryFault) -> CheckFault {
        match fault {
            BinaryFault::NotModule => CheckFault::NotModule,
            BinaryFault::OutOfProfile { what } => CheckFault::OutOfProfile(what),
            BinaryFault::NoMemory => CheckFault::NoMemory,
        }
    }
}

impl From<ValidFault> for CheckFault {
    ghost use Rattle.qw_check.specs.Inner.Faults.{fault_of_validation};

    ghost from_gives = { λ fault check. check ≡ fault_of_validation fault };

    fn from(fault: ValidFault) -> CheckFault {
        match fault {
            ValidFault::Part(part) => CheckFault::Part(part),
            ValidFault::Body { func, at } => CheckFault::Body { func, at },
            ValidFault::NoMemory => CheckFault::NoMemory,
        }
    }
}

/// Tests whether the octets are a valid module in the profile.
///
/// # Errors
///
/// The first reason why not, or want of memory.
pub fn check(alloc: Global, octets: &[u8]) -> Result<(), CheckFault>
    ensures valid { OnOk result (SpellsValid octets.now) }
    ensures fault { IfErr result (λ fault. HasFault octets.now fault) }
{
    let module = read_module(alloc, octets)?;
    check_module(alloc, module)
}

/// Tests whether the module that was read is valid.
fn check_module(alloc: Global, module: ScannedModule) -> Result<(), CheckFault>
    ensures valid { OnOk result (HeldByValid «module».entry) }
    ensures fault { IfErr result (λ fault. IsModuleFault «module».entry fault) }
{
    validate_module(alloc, &module)?;
    Ok(())
}
