//! `decode`: the module that octets spell, or the first construct from the left that no rule allows.

ghost use Rattle.std.specs.Prelude.{◌≡◌, MatchOption, IfOk, IfErr, Ok, Err, ℕ, List, take, drop, true, false};
ghost use Rattle.qw_octet_grammar.specs.declared.fault.BinaryFault.{BinaryFault as Fault};
ghost use Rattle.qw_octet_grammar.specs.Reading.{Gives};
ghost use Rattle.qw_binary.specs.Contents.{Contents, contents_of};
ghost use Rattle.qw_binary.specs.Sections.{equal};
ghost use Rattle.qw_binary.specs.Modules.{header, SpellsModule, FirstStuck, IsFirstStuck};
ghost use Rattle.qw_binary.specs.Inner.Decoding.{module_in};

use crate::read::sections::sections_at;
use qw_module::module::Module;
use qw_octet_grammar::fault::BinaryFault;
use std::alloc::Global;

/// What follows the header.
fn after_header(octets: &[u8]) -> Option<&[u8]>
    ensures { MatchOption result (equal (take 8 octets.now) header ≡ false) (λ rest. (equal (take 8 octets.now) header ≡ true) × (rest.now ≡ drop 8 octets.now)) }
{
    match octets {
        [0x00, 0x61, 0x73, 0x6D, 0x01, 0x00, 0x00, 0x00, rest @ ..] => Some(rest),
        _ => None,
    }
}

/// The module of the octets.
fn module_of(alloc: Global, octets: &[u8]) -> Result<Module, BinaryFault>
    ensures { Gives contents_of result (module_in octets.now) }
{
    let Some(rest) = after_header(octets) else {
        return Err(BinaryFault::NotModule);
    };
    let so_far = sections_at(alloc, octets.len(), rest)?;
    if so_far.type_indices.len() == so_far.module.functions.len() {
        Ok(so_far.module)
    } else {
        Err(BinaryFault::NotModule)
    }
}

/// The module that the octets spell. They are read from left to right, each octet once; blocks may be nested as deeply as the
/// octets let them, since nothing calls itself.
///
/// # Errors
///
/// Where the octets spell no module: `OutOfProfile` where the first construct from the left that no rule allows is one of the
/// standard's outside the profile, else `NotModule`. `NoMemory` anywhere.
pub fn decode(alloc: Global, octets: &[u8]) -> Result<Module, BinaryFault>
    // What is decoded is spelled so.
    ensures found { IfOk result (λ m. SpellsModule (contents_of m) octets.now) }
    // What is spelled is decoded, unless memory runs out.
    ensures only { (m : Contents) → SpellsModule m octets.now → Gives contents_of result (Ok m) }
    // A fault is the first construct that no rule allows.
    ensures stuck { IfErr result (λ fault. IsFirstStuck fault octets.now) }
    // The first construct that no rule allows is the fault, unless memory runs out.
    ensures stuck_only { (fault : Fault) → FirstStuck octets.now fault → Gives contents_of result (Err fault) }
{
    module_of(alloc, octets)
}
