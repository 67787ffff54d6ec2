//! Whether a module is valid (WebAssembly Core Specification 1.0, 3.4).

ghost use Rattle.std.specs.Prelude.{◌≡◌, ◌≢◌, ◌↔◌, ◌<◌, ◌≤◌, ℕ, length, reverse, Some, slice_get};
ghost use Rattle.std.specs.Prelude.{All, IsTrue, IfOk, IfErr, IfSome, OnOk, Err};
ghost use Rattle.std.specs.List.{AllPairs};
ghost use Rattle.qw_module.specs.Syntax.{NamesBelow, IsNumbered};
ghost use Rattle.qw_module.specs.Typing.{types_of};
ghost use Rattle.qw_module.specs.Places.{tokens_of, IsRefusedAt};
ghost use Rattle.qw_module.specs.Validity.{items_of, sequences_of, code_of_body, outside_of, functions_of, imported_functions};
ghost use Rattle.qw_module.specs.Validity.{memories_of, IsValidType, IsValidMemory};
ghost use Rattle.qw_module.specs.Validity.{IsValidImport, IsValidGlobal, IsExportedOf};
ghost use Rattle.qw_module.specs.Validity.{IsExport, IsValidFunction, HaveOtherNames, IsValid};
ghost use Rattle.qw_valid.specs.Inner.Refusals.{fault_in};
ghost use Rattle.qw_valid.specs.ModuleHeights.{HaveHeights};
ghost use Rattle.qw_valid.specs.ValidFaults.{HasBody, PartHolds, ArePartsValid, typing_in, IsFault};

use crate::checker::{Checker, constant_type};
use crate::heights::{Heights, module_heights};
use crate::imports::{imported_functions, imported_memories};
use crate::initial::constant_of;
use crate::locals::LocalTypes;
use crate::names::names_differ;
use crate::walk::{BodyFault, check_body};
use qw_module::instruction::{BlockType, Instr};
use qw_module::module::{Body, ExportKind, FuncType, Function, Global, Import, Limits, Module};
use std::alloc;
use std::marker::Model;
use thiserror::Error;

/// A part of a module, in the order in which they are tried.
#[derive(Clone, Copy, Debug, PartialEq, Eq)]
pub enum Part {
    /// A function's type has at most one result.
    Types,
    /// An import has a type, or is within its limits.
    Imports,
    /// Each function has a type, and a numbered body.
    Functions,
    /// The memory is within its limits, and the only one.
    Memory,
    /// A global's expression is one constant of its type.
    Globals,
    /// What is exported is there, each under a name of its own.
    Exports,
}

/// Why a module is refused: a part that isn't valid, a place of a body, or want of memory.
#[derive(Clone, Copy, Debug, PartialEq, Eq, Error)]
pub enum ValidFault {
    #[error("a part isn't valid")]
    Part(Part),
    /// The function, counted among all functions, the imported ones first; and the place in its body.
    #[error("function {func} isn't typed at place {at}")]
    Body { func: usize, at: usize },
    /// There is no memory left for the check, or a function needs more operands than any memory holds.
    #[error("want of memory")]
    NoMemory,
}

/// A module that is valid. Only `validate` makes one.
#[derive(Drop)]
pub struct ValidModule {
    module: Module,
    /// What each of its own functions needs, in their order.
    heights: Vec<Heights>,
}

impl Model for ValidModule {
    ghost use Rattle.qw_module.specs.declared.module.Module.{Module};

    ghost Value = { Module };

    ghost use Rattle.qw_module.specs.Validity.{IsValid};
    ghost use Rattle.qw_valid.specs.ModuleHeights.{HaveHeights};

    ghost view = { λ valid. valid.«module» };

    ghost invariant = { λ valid. IsValid valid.«module» × HaveHeights valid.«module» valid.heights.items };
}

impl ValidModule {
    pub fn module(&self) -> &Module
        ensures module { result.now ≡ self.now }
        ensures valid { IsValid self.now }
    {
        &self.module
    }

    /// How many operands and labels each of its own functions needs at most, in their order.
    pub fn heights(&self) -> &[Heights]
        ensures { HaveHeights self.now result.now }
    {
        &self.heights
    }
}

/// The greatest number of pages that a memory's limits may name (3.2.4).
const MOST_PAGES: u32 = 65536;

fn is_memory(limits: Limits) -> bool
    ensures { IsTrue result ↔ IsValidMemory limits }
{
    limits.min <= MOST_PAGES
        && match limits.max {
            None => true,
            Some(greatest) => greatest <= MOST_PAGES && limits.min <= greatest,
        }
}

fn are_types(types: &[FuncType]) -> bool
    ensures { IsTrue result ↔ All IsValidType types.now }
{
    types.iter().all(|ty| ty.results.len() <= 1)
}

fn is_import(module: &Module, import: Import) -> bool
    ensures { IsTrue result ↔ IsValidImport «module».now import }
{
    match import {
        Import::Memory(limits) => is_memory(limits),
        Import::Raise(ty) | Import::Pages(ty) => (ty as usize) < module.types.len(),
    }
}

fn are_imports(module: &Module) -> bool
    ensures { IsTrue result ↔ All (IsValidImport «module».now) «module».now.imports.items }
{
    module
        .imports
        .iter()
        .all(|import| is_import(module, *import))
}

/// How many functions there are, the imported ones among them.
fn functions(module: &Module) -> usize
    ensures { result ≡ length (functions_of «module».now) }
{
    imported_functions(&module.imports) + module.functions.len()
}

/// How many memories there are, imported or of its own.
fn memories(module: &Module) -> usize
    ensures { result ≡ length (memories_of «module».now) }
{
    imported_memories(&module.imports) + module.memories.len()
}

fn is_global(global: &Global) -> bool
    ensures { IsTrue result ↔ IsValidGlobal global.now }
{
    if !is_numbered(&global.init.labels, &global.init.sequences) {
        return false;
    }
    match constant_of(&global.init) {
        None => false,
        Some(constant) => constant_type(constant) == global.ty,
    }
}

fn are_globals(globals: &[Global]) -> bool
    ensures { IsTrue result ↔ All IsValidGlobal globals.now }
{
    globals.iter().all(|global| is_global(global))
}

fn is_memory_part(module: &Module) -> bool
    ensures { IsTrue result ↔
        (All IsValidMemory «module».now.memories.items × (length (memories_of «module».now) ≤ 1)) }
{
    memories(module) <= 1 && module.memories.iter().all(|limits| is_memory(*limits))
}

fn is_export(module: &Module, kind: ExportKind) -> bool
    ensures { IsTrue result ↔ IsExportedOf «module».now kind }
{
    match kind {
        ExportKind::Function(index) => (index as usize) < functions(module),
        ExportKind::Memory(index) => (index as usize) < memories(module),
        ExportKind::Global(index) => (index as usize) < module.globals.len(),
    }
}

/// Whether each export is of something that is there, and all have different names. `None` is want of memory.
fn are_exports(alloc: alloc::Global, module: &Module) -> Option<bool>
    ensures { IfSome result (λ are. IsTrue are ↔ (All (IsExport «module».now) «module».now.exports.items
        × AllPairs HaveOtherNames «module».now.exports.items)) }
{
    let are_there = module
        .exports
        .iter()
        .all(|export| is_export(module, export.kind));
    if !are_there {
        return Some(false);
    }
    names_differ(alloc, &module.exports)
}

/// Whether an instruction of the sequence of this number names only lower ones, and only labels that are there.
fn names_below(labels: usize, number: usize, instr: Instr) -> bool
    ensures { IsTrue result ↔ NamesBelow labels number instr }
{
    match instr {
        Instr::Block { body, .. } | Instr::Loop { body, .. } => body < number,
        Instr::If {
            then_body,
            else_body: None,
            ..
        } => then_body < number,
        Instr::If {
            then_body,
            else_body: Some(else_body),
            ..
        } => then_body < number && else_body < number,
        Instr::BrTable { first, count, .. } => first <= labels && count <= labels - first,
        _ => true,
    }
}

fn all_names_below(labels: usize, number: usize, sequence: &[Instr]) -> bool
    ensures { IsTrue result ↔ All (NamesBelow labels number) sequence.now }
{
    sequence
        .iter()
        .all(|instr| names_below(labels, number, *instr))
}

fn is_numbered(labels: &[u32], sequences: &[Vec<Instr>]) -> bool
    ensures { IsTrue result ↔ IsNumbered (record { each = items_of sequences.now; labels = labels.now }) }
{
    for (number, sequence) in sequences.iter().enumerate() {
        if !all_names_below(labels.len(), number, sequence) {
            return false;
        }
    }
    !sequences.is_empty()
}

/// Whether each function has a type of the module and a numbered body.
fn are_functions(module: &Module) -> bool
    ensures { IsTrue result ↔ All (HasBody «module».now) «module».now.functions.items }
{
    module
        .functions
        .iter()
        .all(|function| has_body(module, function))
}

fn has_body(module: &Module, function: &Function) -> bool
    ensures { IsTrue result ↔ HasBody «module».now function.now }
{
    (function.type_index as usize) < module.types.len()
        && is_numbered(&function.body.labels, &function.body.sequences)
}

/// Whether the parts of a module other than bodies are valid, and otherwise which is the first that isn't.
fn check_parts(alloc: alloc::Global, module: &Module) -> Result<(), ValidFault>
    ensures valid { OnOk result (ArePartsValid «module».now) }
    ensures fault { IfErr result (λ fault. IsFault fault «module».now) }
{
    if !are_types(&module.types) {
        return Err(ValidFault::Part(Part::Types));
    }
    if !are_imports(module) {
        return Err(ValidFault::Part(Part::Imports));
    }
    if !are_functions(module) {
        return Err(ValidFault::Part(Part::Functions));
    }
    if !is_memory_part(module) {
        return Err(ValidFault::Part(Part::Memory));
    }
    if !are_globals(&module.globals) {
        return Err(ValidFault::Part(Part::Globals));
    }
    if !are_exports(alloc, module).ok_or(ValidFault::NoMemory)? {
        return Err(ValidFault::Part(Part::Exports));
    }
    Ok(())
}

/// The result of a function of a type, if it has one.
fn result_of(ty: &FuncType) -> BlockType
    requires { IsValidType ty.now }
    ensures { types_of result ≡ reverse ty.now.results.items }
{
    match ty.results.as_slice() {
        [] => None,
        [result, ..] => Some(*result),
    }
}

/// Whether the body of a function is typed, and otherwise its first place refused.
fn check_function(
    alloc: alloc::Global,
    module: &Module,
    function: &Function,
) -> Result<(), BodyFault>
    requires parts { ArePartsValid «module».now }
    requires body { HasBody «module».now function.now }
    ensures valid { OnOk result (IsValidFunction «module».now function.now) }
    ensures refused { (at : ℕ) → result ≡ Err (BodyFault.At at) → IsRefusedAt (typing_in «module».now function.now) (tokens_of (code_of_body function.now.body)) at }
{
    let ty = &module.types[function.type_index as usize];
    let locals = LocalTypes::new(alloc, &function.locals).ok_or(BodyFault::NoMemory)?;
    check_body(Checker {
        alloc,
        module,
        parameters: &ty.params,
        locals: &locals,
        result: result_of(ty),
        has_memory: memories(module) > 0,
        body: &function.body,
    })
}

/// Whether the bodies of all functions are typed, and otherwise the first function and place refused.
fn check_functions(alloc: alloc::Global, module: &Module) -> Result<(), ValidFault>
    requires { ArePartsValid «module».now }
    ensures valid { OnOk result (All (IsValidFunction «module».now) «module».now.functions.items) }
    ensures fault { IfErr result (λ fault. IsFault fault «module».now) }
{
    let imported = imported_functions(&module.imports);
    for (number, function) in module.functions.iter().enumerate() {
        match check_function(alloc, module, function) {
            Ok(()) => {}
            Err(fault) => return Err(fault_in(imported + number, fault)),
        }
    }
    Ok(())
}

/// The fault of the body of a function of an index.
fn fault_in(func: usize, fault: BodyFault) -> ValidFault
    ensures { result ≡ fault_in func fault }
{
    match fault {
        BodyFault::At(at) => ValidFault::Body { func, at },
        BodyFault::NoMemory => ValidFault::NoMemory,
    }
}

fn check(alloc: alloc::Global, module: &Module) -> Result<(), ValidFault>
    ensures valid { OnOk result (IsValid «module».now) }
    ensures fault { IfErr result (λ fault. IsFault fault «module».now) }
{
    check_parts(alloc, module)?;
    check_functions(alloc, module)
}

/// What each own function of a valid module needs, or want of memory.
fn heights_of(alloc: alloc::Global, module: &Module) -> Result<Vec<Heights>, ValidFault>
    requires { IsValid «module».now }
    ensures heights { IfOk result (λ heights. HaveHeights «module».now heights.items) }
    ensures fault { IfErr result (λ fault. fault ≡ ValidFault.NoMemory) }
{
    module_heights(alloc, module).ok_or(ValidFault::NoMemory)
}

/// The module as a valid one. Otherwise it is dropped.
///
/// # Errors
///
/// The fault names the first part that isn't valid; where all are, the first function whose body isn't typed, and its first place
/// refused; or it says that there was no memory left.
pub fn validate(alloc: alloc::Global, module: Module) -> Result<ValidModule, ValidFault>
    ensures value { IfOk result (λ valid. valid ≡ «module») }
    ensures valid { OnOk result (IsValid «module») }
    ensures fault { IfErr result (λ fault. IsFault fault «module») }
    ensures invalid { IfErr result (λ fault. fault ≢ ValidFault.NoMemory → ¬ IsValid «module») }
{
    check(alloc, &module)?;
    let heights = heights_of(alloc, &module)?;
    Ok(ValidModule { module, heights })
}
