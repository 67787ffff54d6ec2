//! Whether a module has the shape that is executed: it imports the memory and `raise`, and may import `pages`, each with the type that
//! it has, and exports a function of its own as `run`, which takes one i32 and leaves nothing.

ghost use Rattle.std.specs.Prelude.{◌≡◌, ◌↔◌, ℕ, [], ◌∷◌, length, IsTrue, MatchOption, IfNone, IfSome, All, Any, Contains};
ghost use Rattle.qw_module.specs.Validity.{imported_functions, IsI32ToI32, IsLinked, IsOneI32, IsShaped, TakesAndLeavesI32, TakesOneI32};
ghost use Rattle.qw_machine.specs.Inner.Shape.{ImportsMemory, ImportsRaise, ExportsNoRun, ExportsRun};

use qw_module::instruction::ValType;
use qw_module::module::{Export, ExportKind, FuncType, Import, Module};
use qw_valid::imports::imported_functions;

/// Whether these types are one i32.
fn are_one_i32(types: &[ValType]) -> bool
    ensures { IsTrue result ↔ (types.now ≡ ValType.I32 ∷ []) }
{
    matches!(*types, [ValType::I32])
}

fn takes_one_i32(ty: &FuncType) -> bool
    ensures { IsTrue result ↔ TakesOneI32 ty.now }
{
    are_one_i32(&ty.params) && ty.results.is_empty()
}

fn takes_and_leaves_i32(ty: &FuncType) -> bool
    ensures { IsTrue result ↔ TakesAndLeavesI32 ty.now }
{
    are_one_i32(&ty.params) && are_one_i32(&ty.results)
}

fn is_one_i32(module: &Module, ty: u32) -> bool
    ensures { IsTrue result ↔ IsOneI32 «module».now ty }
{
    let Some(ty) = module.types.get(ty as usize) else {
        return false;
    };
    takes_one_i32(ty)
}

fn is_i32_to_i32(module: &Module, ty: u32) -> bool
    ensures { IsTrue result ↔ IsI32ToI32 «module».now ty }
{
    let Some(ty) = module.types.get(ty as usize) else {
        return false;
    };
    takes_and_leaves_i32(ty)
}

fn imports_memory(imports: &[Import]) -> bool
    ensures { IsTrue result ↔ ImportsMemory imports.now }
{
    imports
        .iter()
        .any(|import| matches!(import, Import::Memory(_)))
}

fn imports_function(imports: &[Import]) -> bool
    ensures { IsTrue result ↔ ((ty : ℕ) × Contains imports.now (Import.Raise ty)) }
{
    imports
        .iter()
        .any(|import| matches!(import, Import::Raise(_)))
}

/// Whether an import is of the type of what it is linked to.
fn is_linked(module: &Module, import: Import) -> bool
    ensures { IsTrue result ↔ IsLinked «module».now import }
{
    match import {
        Import::Raise(ty) => is_one_i32(module, ty),
        Import::Pages(ty) => is_i32_to_i32(module, ty),
        Import::Memory(_) => true,
    }
}

fn all_are_linked(module: &Module) -> bool
    ensures { IsTrue result ↔ All (IsLinked «module».now) «module».now.imports.items }
{
    module
        .imports
        .iter()
        .all(|import| is_linked(module, *import))
}

fn imports_raise(module: &Module) -> bool
    ensures { IsTrue result ↔ ImportsRaise «module».now }
{
    imports_function(&module.imports) && all_are_linked(module)
}

/// The number of the function that is exported as `run` here, `imported` being how many come before the
/// module's own.
fn run_number(module: &Module, imported: usize, export: &Export) -> Option<usize>
    requires { imported ≡ length (imported_functions «module».now) }
    ensures { MatchOption result (ExportsNoRun «module».now export.now) (ExportsRun «module».now export.now) }
{
    let ExportKind::Function(index) = export.kind else {
        return None;
    };
    if export.name.as_str() != "run" {
        return None;
    }
    let number = (index as usize).checked_sub(imported)?;
    let function = module.functions.get(number)?;
    if !is_one_i32(module, function.type_index) {
        return None;
    }
    Some(number)
}

/// The number of the module's own function that an export gives as `run`.
fn exported_run(module: &Module) -> Option<usize>
    ensures none { IfNone result (All (ExportsNoRun «module».now) «module».now.exports.items) }
    ensures some { IfSome result (λ number. Any (λ export. ExportsRun «module».now export number) «module».now.exports.items) }
{
    let imported = imported_functions(&module.imports);
    for export in &module.exports {
        if let Some(number) = run_number(module, imported, export) {
            return Some(number);
        }
    }
    None
}

/// The number of the module's own function that is exported as `run`, where the module has the shape.
pub(crate) fn shaped_run(module: &Module) -> Option<usize>
    ensures { MatchOption result ((number : ℕ) → IsShaped «module».now number → ⊥) (IsShaped «module».now) }
{
    if !imports_memory(&module.imports) || !imports_raise(module) {
        return None;
    }
    exported_run(module)
}
