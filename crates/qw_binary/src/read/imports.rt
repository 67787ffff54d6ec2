//! Imports (WebAssembly Core Specification 1.0, 5.5.5).

ghost use Rattle.std.specs.Prelude.{◌≡◌, List, [], false, codes, Ok};
ghost use Rattle.qw_module.specs.declared.module.Import as modules;
ghost use Rattle.qw_octet_grammar.specs.Vectors.{counted};
ghost use Rattle.qw_octet_grammar.specs.Reading.{Gives, read};
ghost use Rattle.qw_binary.specs.Sections.{imported, is_same, is_among, once, named_by, names, other_kind, described, import_behind, next_import, imports};
ghost use Rattle.qw_binary.specs.Inner.Imported.{imported_of};

use crate::read::types::limits_at;
use qw_module::module::Import;
use qw_octet_grammar::fault::{BinaryFault, What};
use qw_octet_grammar::names::name_at;
use qw_octet_grammar::numbers::u32_at;
use std::alloc::Global;

/// The three imports of the profile.
#[derive(Clone, Copy)]
pub(crate) enum Imported {
    Memory,
    Raise,
    Pages,
}

impl Imported {
    /// Which one an import is.
    pub(crate) fn of(import: Import) -> Imported
        ensures { imported_of result ≡ imported import }
    {
        match import {
            Import::Memory(_) => Imported::Memory,
            Import::Raise(_) => Imported::Raise,
            Import::Pages(_) => Imported::Pages,
        }
    }

    /// Whether an import is this one.
    fn is(self, import: &Import) -> bool
        ensures { result ≡ is_same (imported_of self) (imported import.now) }
    {
        match (self, import) {
            (Imported::Memory, Import::Memory(_))
            | (Imported::Raise, Import::Raise(_))
            | (Imported::Pages, Import::Pages(_)) => true,
            _ => false,
        }
    }

    /// Whether one of these is this one.
    #[tactic(auto, using(crate::proofs::ImportLemmas::among_found, crate::proofs::ImportLemmas::among_later, crate::proofs::ImportLemmas::among_none))]
    pub(crate) fn is_among(self, imports: &[Import]) -> bool
        ensures { result ≡ is_among (imported_of self) imports.now }
    {
        for import in imports {
            if self.is(import) {
                return true;
            }
        }
        false
    }

    /// The name of this one, behind `q`.
    pub(crate) fn name(self) -> &'static str
        ensures { (before : List modules.Import) → is_among (imported_of self) before ≡ false → named_by before (codes "q") result.now ≡ Ok (imported_of self) }
    {
        match self {
            Imported::Memory => "memory",
            Imported::Raise => "raise",
            Imported::Pages => "pages",
        }
    }

    /// This one, where it is none of those before it.
    fn once(self, before: &[Import]) -> Result<Imported, BinaryFault>
        ensures { Gives imported_of result (once (imported_of self) before.now) }
    {
        if self.is_among(before) {
            Err(BinaryFault::OutOfProfile { what: What::Import })
        } else {
            Ok(self)
        }
    }

    /// The import of a pair of names.
    fn named(before: &[Import], from: &str, name: &str) -> Result<Imported, BinaryFault>
        ensures { Gives imported_of result (named_by before.now from.now name.now) }
    {
        if from != "q" {
            Err(BinaryFault::OutOfProfile { what: What::Import })
        } else if name == "memory" {
            Imported::Memory.once(before)
        } else if name == "raise" {
            Imported::Raise.once(before)
        } else if name == "pages" {
            Imported::Pages.once(before)
        } else {
            Err(BinaryFault::OutOfProfile { what: What::Import })
        }
    }

    /// The pair of names of an import.
    #[tactic(auto, unfolding(qw_octet_grammar::specs::Reading::read))]
    fn names_at<'a>(
        before: &[Import],
        octets: &'a [u8],
    ) -> Result<(Imported, &'a [u8]), BinaryFault>
        ensures { Gives (λ x. (imported_of x.0, x.1.now)) result (read (names before.now) octets.now) }
    {
        let (from, rest) = name_at(octets)?;
        let (name, rest) = name_at(rest)?;
        Ok((Imported::named(before, from, name)?, rest))
    }

    /// The kind of this import, and what is imported.
    #[tactic(auto, unfolding(qw_octet_grammar::specs::Reading::read))]
    fn described_at(self, octets: &[u8]) -> Result<(Import, &[u8]), BinaryFault>
        ensures { Gives (λ x. (x.0, x.1.now)) result (read (described (imported_of self)) octets.now) }
    {
        match (self, octets) {
            (_, []) => Err(BinaryFault::NotModule),
            (Imported::Memory, [0x02, rest @ ..]) => {
                let (limits, rest) = limits_at(rest)?;
                Ok((Import::Memory(limits), rest))
            }
            (Imported::Raise, [0x00, rest @ ..]) => {
                let (type_index, rest) = u32_at(rest)?;
                Ok((Import::Raise(type_index), rest))
            }
            (Imported::Pages, [0x00, rest @ ..]) => {
                let (type_index, rest) = u32_at(rest)?;
                Ok((Import::Pages(type_index), rest))
            }
            (_, [kind, ..]) => Err(other_kind_of(*kind)),
        }
    }
}

/// Why a kind isn't that of the names.
fn other_kind_of(kind: u8) -> BinaryFault
    ensures { result ≡ other_kind kind }
{
    match kind {
        0x01 => BinaryFault::OutOfProfile { what: What::Table },
        0x00 | 0x02 | 0x03 => BinaryFault::OutOfProfile { what: What::Import },
        _ => BinaryFault::NotModule,
    }
}

/// An import behind those before it.
#[tactic(auto, unfolding(qw_octet_grammar::specs::Reading::read))]
fn import_at<'a>(before: &[Import], octets: &'a [u8]) -> Result<(Import, &'a [u8]), BinaryFault>
    ensures { Gives (λ x. (x.0, x.1.now)) result (read (import_behind before.now) octets.now) }
{
    let (imported, rest) = Imported::names_at(before, octets)?;
    imported.described_at(rest)
}

/// So many imports.
fn imports_at(alloc: Global, count: u32, octets: &[u8]) -> Result<(Vec<Import>, &[u8]), BinaryFault>
    ensures { Gives (λ x. (x.0.items, x.1.now)) result (read (counted count next_import []) octets.now) }
{
    let mut found = Vec::new(alloc);
    let mut rest = octets;
    for _ in 0..count {
        let (item, after) = import_at(&found, rest)?;
        found.push(item)?;
        rest = after;
    }
    Ok((found, rest))
}

/// A vector of imports.
#[tactic(auto, unfolding(qw_octet_grammar::specs::Reading::read))]
pub fn import_vector_at(alloc: Global, octets: &[u8]) -> Result<(Vec<Import>, &[u8]), BinaryFault>
    ensures { Gives (λ x. (x.0.items, x.1.now)) result (read imports octets.now) }
{
    let (count, rest) = u32_at(octets)?;
    imports_at(alloc, count, rest)
}
