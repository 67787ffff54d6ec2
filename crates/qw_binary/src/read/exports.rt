//! Exports (WebAssembly Core Specification 1.0, 5.5.10).

ghost use Rattle.std.specs.Prelude.{◌≡◌, [], map};
ghost use Rattle.qw_octet_grammar.specs.Vectors.{counted, one_more, vector};
ghost use Rattle.qw_octet_grammar.specs.Reading.{Gives, read};
ghost use Rattle.qw_binary.specs.Contents.{export_contents};
ghost use Rattle.qw_binary.specs.Sections.{export_kind, export as export_grammar};

use qw_module::module::{Export, ExportKind};
use qw_octet_grammar::fault::{BinaryFault, What};
use qw_octet_grammar::names::name_at;
use qw_octet_grammar::numbers::u32_at;
use std::alloc::Global;

/// What is exported, by its index.
#[tactic(auto, unfolding(qw_octet_grammar::specs::Reading::read))]
fn export_kind_at(octets: &[u8]) -> Result<(ExportKind, &[u8]), BinaryFault>
    ensures { Gives (λ x. (x.0, x.1.now)) result (read export_kind octets.now) }
{
    match octets {
        [0x00, rest @ ..] => {
            let (index, rest) = u32_at(rest)?;
            Ok((ExportKind::Function(index), rest))
        }
        [0x01, ..] => Err(BinaryFault::OutOfProfile { what: What::Table }),
        [0x02, rest @ ..] => {
            let (index, rest) = u32_at(rest)?;
            Ok((ExportKind::Memory(index), rest))
        }
        [0x03, rest @ ..] => {
            let (index, rest) = u32_at(rest)?;
            Ok((ExportKind::Global(index), rest))
        }
        _ => Err(BinaryFault::NotModule),
    }
}

/// An export.
#[tactic(auto, unfolding(qw_octet_grammar::specs::Reading::read))]
fn export_at(alloc: Global, octets: &[u8]) -> Result<(Export, &[u8]), BinaryFault>
    ensures { Gives (λ x. (export_contents x.0, x.1.now)) result (read export_grammar octets.now) }
{
    let (name, rest) = name_at(octets)?;
    let (kind, rest) = export_kind_at(rest)?;
    let name = String::from_str(alloc, name)?;
    Ok((Export { name, kind }, rest))
}

/// So many exports.
fn exports_at(alloc: Global, count: u32, octets: &[u8]) -> Result<(Vec<Export>, &[u8]), BinaryFault>
    ensures { Gives (λ x. (map export_contents x.0.items, x.1.now)) result (read (counted count (one_more export_grammar) []) octets.now) }
{
    let mut found = Vec::new(alloc);
    let mut rest = octets;
    for _ in 0..count {
        let (item, after) = export_at(alloc, rest)?;
        found.push(item)?;
        rest = after;
    }
    Ok((found, rest))
}

/// A vector of exports.
#[tactic(auto, unfolding(qw_octet_grammar::specs::Reading::read))]
pub fn export_vector_at(alloc: Global, octets: &[u8]) -> Result<(Vec<Export>, &[u8]), BinaryFault>
    ensures { Gives (λ x. (map export_contents x.0.items, x.1.now)) result (read (vector export_grammar) octets.now) }
{
    let (count, rest) = u32_at(octets)?;
    exports_at(alloc, count, rest)
}
