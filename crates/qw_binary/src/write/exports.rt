//! Exports (WebAssembly Core Specification 1.0, 5.5.10).

ghost use Rattle.std.specs.Prelude.{OnOk, map};
ghost use Rattle.qw_octet_grammar.specs.Vectors.{vector};
ghost use Rattle.qw_octet_grammar.specs.Writing.{Puts};
ghost use Rattle.qw_binary.specs.Contents.{export_contents};
ghost use Rattle.qw_binary.specs.Sections.{kind_by, export_kind, export as export_grammar};
ghost use Rattle.qw_binary.specs.Inner.Parts.{MakesKind};

use qw_module::module::{Export, ExportKind};
use qw_octet_grammar::write::{put_name, put_size, put_u32};
use std::alloc::AllocError;

/// The code of what is exported, and its index.
fn exported(kind: ExportKind) -> (u8, u32)
    ensures { MakesKind (kind_by result.0) result.1 kind }
{
    match kind {
        ExportKind::Function(index) => (0x00, index),
        ExportKind::Memory(index) => (0x02, index),
        ExportKind::Global(index) => (0x03, index),
    }
}

/// Writes what is exported.
#[tactic(auto, using(crate::proofs::WriteSimple::puts_kind))]
fn put_export_kind(kind: ExportKind, out: &mut Vec<u8>) -> Result<(), AllocError>
    ensures { OnOk result (Puts export_kind kind out.old.items out.new.items) }
{
    let (code, index) = exported(kind);
    out.push(code)?;
    put_u32(index, out)
}

/// Writes an export.
#[tactic(auto, using(crate::proofs::WriteSimple::puts_export))]
fn put_export(export: &Export, out: &mut Vec<u8>) -> Result<(), AllocError>
    ensures { OnOk result (Puts export_grammar (export_contents export.now) out.old.items out.new.items) }
{
    put_name(&export.name, out)?;
    put_export_kind(export.kind, out)
}

/// Writes a vector of exports.
pub fn put_exports(exports: &[Export], out: &mut Vec<u8>) -> Result<(), AllocError>
    ensures { OnOk result (Puts (vector export_grammar) (map export_contents exports.now) out.old.items out.new.items) }
{
    put_size(exports.len(), out)?;
    for export in exports {
        put_export(export, out)?;
    }
    Ok(())
}
