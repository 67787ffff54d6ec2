//! Whether exports are valid, by their octets: what is exported is there, each under a name of its own (WebAssembly Core Specification 1.0,
//! 3.4.8 and 3.4.10).

ghost use Rattle.std.specs.Prelude.{◌≡◌, ◌↔◌, ℕ, List, map, All, Ok, IfSome, IsTrue};
ghost use Rattle.std.specs.List.{AllPairs};
ghost use Rattle.std.specs.Cmp.Lexicographic.{slice_cmp};
ghost use Rattle.std.specs.Ordering.{nat_cmp, is_lt};
ghost use Rattle.qw_octet_grammar.specs.Reading.{Gives, read};
ghost use Rattle.qw_binary.specs.Contents.{ExportContents};
ghost use Rattle.qw_binary.specs.Sections.{export_kind, export as export_grammar};
ghost use Rattle.qw_scan.specs.Inner.Exported.{IsKindAmong, IsAmong, AreApart, AreNamedApart, name_in};
ghost use Rattle.qw_scan.specs.Inner.ExportsAt.{export_at, IsExportAt};

use crate::types::from;
use qw_module::module::ExportKind;
use qw_octet_grammar::fault::{BinaryFault, What};
use qw_octet_grammar::names::name_at;
use qw_octet_grammar::numbers::u32_at;
use qw_octet_grammar::windows::window;
use std::alloc::Global;
use std::cmp::Ordering;

/// How many things of each kind a module has, imported or of its own.
#[derive(Clone, Copy)]
pub(crate) struct Counts {
    pub(crate) functions: usize,
    pub(crate) memories: usize,
    pub(crate) globals: usize,
}

/// Where a name stands in a module's octets.
#[derive(Clone, Copy)]
pub(crate) struct NamePlace {
    start: u32,
    count: u32,
}

/// What is exported, by its index, and what follows.
#[tactic(auto, unfolding(qw_octet_grammar::specs::Reading::read))]
pub(crate) fn export_kind_at(octets: &[u8]) -> Result<(ExportKind, &[u8]), BinaryFault>
    ensures { Gives (λ x. (x.0, x.1.now)) result (read export_kind octets.now) }
{
    match octets {
        [0x00, index @ ..] => {
            let (index, rest) = u32_at(index)?;
            Ok((ExportKind::Function(index), rest))
        }
        [0x01, ..] => Err(BinaryFault::OutOfProfile { what: What::Table }),
        [0x02, index @ ..] => {
            let (index, rest) = u32_at(index)?;
            Ok((ExportKind::Memory(index), rest))
        }
        [0x03, index @ ..] => {
            let (index, rest) = u32_at(index)?;
            Ok((ExportKind::Global(index), rest))
        }
        _ => Err(BinaryFault::NotModule),
    }
}

fn is_among(counts: Counts, kind: ExportKind) -> bool
    ensures { IsTrue result ↔ IsKindAmong counts kind }
{
    match kind {
        ExportKind::Function(index) => (index as usize) < counts.functions,
        ExportKind::Memory(index) => (index as usize) < counts.memories,
        ExportKind::Global(index) => (index as usize) < counts.globals,
    }
}

/// What the export that octets begin with exports. `None` is want of memory.
fn kind_at(octets: &[u8]) -> Option<ExportKind>
    ensures { (e : ExportContents) (rest : List ℕ) → read export_grammar octets.now ≡ Ok (e, rest) → IfSome result (λ kind. kind ≡ e.kind) }
{
    let Ok((_, rest)) = name_at(octets) else {
        return None;
    };
    let Ok((kind, _)) = export_kind_at(rest) else {
        return None;
    };
    Some(kind)
}

/// Whether all exports that stand at these places are of what is there. `None` is want of memory.
pub(crate) fn exports_hold(octets: &[u8], offsets: &[u32], counts: Counts) -> Option<bool>
    ensures { All (IsExportAt octets.now) offsets.now → IfSome result (λ hold. IsTrue hold ↔ All (IsAmong counts) (map (export_at octets.now) offsets.now)) }
{
    for offset in offsets {
        let kind = kind_at(from(octets, *offset as usize))?;
        if !is_among(counts, kind) {
            return Some(false);
        }
    }
    Some(true)
}

fn name_in(octets: &[u8], place: NamePlace) -> &[u8]
    ensures { result.now ≡ name_in octets.now place }
{
    window(from(octets, place.start as usize), place.count)
}

/// Where the name of the export at a place stands. `None` is want of memory.
fn place_at(octets: &[u8], offset: u32) -> Option<NamePlace>
    ensures { IsExportAt octets.now offset → IfSome result (λ place. name_in octets.now place ≡ (export_at octets.now offset).name) }
{
    let Ok((count, rest)) = u32_at(from(octets, offset as usize)) else {
        return None;
    };
    let start = octets.len().saturating_sub(rest.len());
    let Ok(start) = u32::try_from(start) else {
        return None;
    };
    Some(NamePlace { start, count })
}

/// Where the names of exports stand, in their order. `None` is want of memory.
fn places_at(alloc: Global, octets: &[u8], offsets: &[u32]) -> Option<Vec<NamePlace>>
    ensures { All (IsExportAt octets.now) offsets.now → IfSome result (λ places.
        map (name_in octets.now) places.items ≡ map (λ (offset : ℕ). (export_at octets.now offset).name) offsets.now) }
{
    let mut places = Vec::with_capacity(alloc, offsets.len()).ok()?;
    for offset in offsets {
        places.push(place_at(octets, *offset)?).ok()?;
    }
    Some(places)
}

/// The order of two names.
fn compare(octets: &[u8], one: NamePlace, other: NamePlace) -> Ordering
    ensures { result ≡ slice_cmp nat_cmp (name_in octets.now one) (name_in octets.now other) }
{
    name_in(octets, one).cmp(name_in(octets, other))
}

/// Whether one name is before another.
fn is_before(octets: &[u8], one: NamePlace, other: NamePlace) -> bool
    ensures { result ≡ is_lt (slice_cmp nat_cmp (name_in octets.now one) (name_in octets.now other)) }
{
    compare(octets, one, other).is_lt()
}

/// Whether no two of these names are the same: they are sorted, and each is compared with the next.
fn are_apart(octets: &[u8], places: &mut [NamePlace]) -> bool
    ensures { IsTrue result ↔ AllPairs (AreApart (name_in octets.now)) places.old }
{
    places.sort_unstable_by(|one, other| compare(octets, *one, *other));
    places.is_sorted_by(|one, next| is_before(octets, *one, *next))
}

/// Whether no two exports have one name. `None` is want of memory.
pub(crate) fn names_differ(alloc: Global, octets: &[u8], offsets: &[u32]) -> Option<bool>
    ensures { All (IsExportAt octets.now) offsets.now → IfSome result (λ differ. IsTrue differ ↔ AllPairs AreNamedApart (map (export_at octets.now) offsets.now)) }
{
    let mut places = places_at(alloc, octets, offsets)?;
    Some(are_apart(octets, &mut places))
}
