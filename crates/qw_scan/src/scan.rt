//! Octets read as a module, with no tree made of them, and tested to be a valid one (WebAssembly Core Specification 1.0, 3.4 and 5.5.15).

ghost use Rattle.std.specs.Prelude.{◌≡◌, length, IfOk, IfErr, OnOk};
ghost use Rattle.qw_binary.specs.Contents.{contents_of};
ghost use Rattle.qw_binary.specs.Modules.{SpellsModule, IsFirstStuck};
ghost use Rattle.qw_module.specs.declared.module.Module.{Module};
ghost use Rattle.qw_module.specs.Validity.{IsValid};
ghost use Rattle.qw_valid.specs.ValidFaults.{IsFault};
ghost use Rattle.qw_scan.specs.Held.{HeldByValid, HeldByFaulty};
ghost use Rattle.qw_scan.specs.Inner.Outlines.{indices_in, contents_in, IsOutline};

use crate::bodies::check_bodies;
use crate::outline::{Outline, outline_of};
use crate::parts::check_parts;
use crate::tables::tables_of;
use qw_octet_grammar::fault::BinaryFault;
use qw_valid::valid::ValidFault;
use std::alloc::Global;
use std::marker::Model;

/// A module by its octets. Only `read_module` makes one.
#[derive(Drop)]
pub struct ScannedModule<'a> {
    octets: &'a [u8],
    outline: Outline,
}

impl<'a> Model for ScannedModule<'a> {
    ghost use Rattle.std.specs.Prelude.{◌≡◌, length};
    ghost use Rattle.qw_binary.specs.Contents.{Contents};
    ghost use Rattle.qw_binary.specs.Modules.{SpellsModule};
    ghost use Rattle.qw_scan.specs.Inner.Outlines.{indices_in, contents_in, IsOutline};

    ghost Value = { Contents };

    ghost view = { λ t. contents_in t.octets.now t.outline };

    ghost invariant = { λ t. SpellsModule (contents_in t.octets.now t.outline) t.octets.now × IsOutline t.octets.now t.outline
        × (length (indices_in t.octets.now t.outline) ≡ length (contents_in t.octets.now t.outline).functions) };
}

/// The module that octets spell, which are read from left to right, each octet once; of them nothing is kept but where its sections begin.
///
/// # Errors
///
/// Where the octets spell no module: `OutOfProfile` where the first construct from the left that no rule allows is one of the standard's
/// outside the profile, else `NotModule`. `NoMemory` anywhere.
pub fn read_module(alloc: Global, octets: &[u8]) -> Result<ScannedModule<'_>, BinaryFault>
    ensures found { IfOk result (λ m. SpellsModule m octets.now) }
    ensures stuck { IfErr result (λ fault. IsFirstStuck fault octets.now) }
{
    let outline = outline_of(alloc, octets)?;
    Ok(ScannedModule { octets, outline })
}

/// Whether a module is valid, by its octets and their outline.
fn validate_outline(alloc: Global, octets: &[u8], outline: Outline) -> Result<(), ValidFault>
    requires spelled { SpellsModule (contents_in octets.now outline) octets.now }
    requires outline { IsOutline octets.now outline }
    requires complete { length (indices_in octets.now outline) ≡ length (contents_in octets.now outline).functions }
    ensures valid { (m : Module) → contents_of m ≡ contents_in octets.now outline → OnOk result (IsValid m) }
    ensures fault { (m : Module) → contents_of m ≡ contents_in octets.now outline → IfErr result (λ fault. IsFault fault m) }
{
    let Some(tables) = tables_of(alloc, octets, outline) else {
        return Err(ValidFault::NoMemory);
    };
    check_parts(alloc, octets, outline, &tables)?;
    check_bodies(alloc, octets, outline, &tables)
}

/// The same, of the module that they spell.
fn validate_octets(alloc: Global, octets: &[u8], outline: Outline) -> Result<(), ValidFault>
    requires spelled { SpellsModule (contents_in octets.now outline) octets.now }
    requires outline { IsOutline octets.now outline }
    requires complete { length (indices_in octets.now outline) ≡ length (contents_in octets.now outline).functions }
    ensures valid { OnOk result (HeldByValid (contents_in octets.now outline)) }
    ensures fault { IfErr result (HeldByFaulty (contents_in octets.now outline)) }
{
    validate_outline(alloc, octets, outline)
}

/// Tests whether a module is valid.
///
/// # Errors
///
/// The fault names the first part that isn't valid; where all are, the first function whose body isn't typed, and its first place refused;
/// or it says that there was no memory left.
pub fn validate_module(alloc: Global, module: &ScannedModule) -> Result<(), ValidFault>
    ensures valid { OnOk result (HeldByValid «module».now) }
    ensures fault { IfErr result (HeldByFaulty «module».now) }
{
    validate_octets(alloc, module.octets, module.outline)
}
