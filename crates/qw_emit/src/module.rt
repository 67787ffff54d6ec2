//! The module whose function `run` is a block's code.

ghost use Rattle.std.specs.Prelude.{◌≡◌, ℕ, ◌+◌, ◌++◌, ◌^◌, ◌≤◌, List, [], ◌∷◌, length, replicate, sum_by, IfOk, OnOk};
ghost use Rattle.std.specs.List.{AllByRecursion};
ghost use Rattle.qw_binary.specs.Contents.{contents_of};
ghost use Rattle.qw_binary.specs.Modules.{SpellsModule};
ghost use Rattle.qw_types.specs.declared.value.Val.{Val};
ghost use Rattle.qw_module.specs.declared.instruction.ValType.TheVariants.{I32};
ghost use Rattle.qw_module.specs.declared.module.Function.{Function};
ghost use Rattle.qw_module.specs.declared.module.Locals as runs;
ghost use Rattle.qw_module.specs.Form.{CallsNestWithin, NeverAsksSize, NeverGrows};
ghost use Rattle.qw_module.specs.Start.{weight, weight_of_function};
ghost use Rattle.qw_module.specs.Validity.{IsShaped, code_of_body, declared_types, imported_functions, sequences_of};
ghost use Rattle.qw_map.specs.Behaving.{IsRunnable, beginning};
ghost use Rattle.qw_map.specs.Layout.{Layout, IsReady};
ghost use Rattle.qw_map.specs.declared.layout.Placed.{Placed};
ghost use Rattle.qw_emit.specs.RunsOf.{RunsOf};
ghost use Rattle.qw_low.specs.Meaning.{meaning};
ghost use Rattle.qw_low.specs.Places.{RunsAs};
ghost use Rattle.qw_low.specs.Size.{size};
ghost use Rattle.qw_low.specs.State.{Own, Number, Address};
ghost use Rattle.qw_low.specs.Steps.{steps_of};
ghost use Rattle.qw_low.specs.Syntax.{Statement};
ghost use Rattle.qw_low.specs.Typing.{IsTyped};
ghost use Rattle.qw_emit.specs.Inner.Around.{IsAround};

use qw_low::block::Block;
use qw_low::body::body_of;
use qw_module::instruction::ValType;
use qw_module::module::{
    Body, Export, ExportKind, FuncType, Function, Import, Limits, Locals, Module,
};
use qw_types::NoMemory;
use std::alloc::Global;

/// The index of the type of `raise` and `run`: one i32, and no result.
const RUN_TYPE: u32 = 0;

/// The index of the type of `pages`: one i32, the number of pages, and one as its result, the number of the first or -1.
const PAGES_TYPE: u32 = 1;

/// The index of the module's own function `run`, behind the imported `raise` and `pages`.
const RUN_INDEX: u32 = 2;

/// Adds a local of a type: to the last run where that is of this type, else as a run of its own.
fn add_local(locals: &mut Vec<Locals>, ty: ValType) -> Result<(), NoMemory>
    requires { AllByRecursion (λ (run : runs.Locals). 1 ≤ run.count) locals.old.items }
    ensures types { OnOk result (declared_types locals.new.items ≡ declared_types locals.old.items ++ ty ∷ []) }
    ensures some { OnOk result (AllByRecursion (λ (run : runs.Locals). 1 ≤ run.count) locals.new.items) }
{
    match locals.pop() {
        Some(run) if run.ty == ty && run.count < u32::MAX => locals.push(Locals {
            count: run.count + 1,
            ty,
        })?,
        Some(run) => {
            locals.push(run)?;
            locals.push(Locals { count: 1, ty })?;
        }
        None => locals.push(Locals { count: 1, ty })?,
    }
    Ok(())
}

/// Locals of these types, those of one type side by side as one run.
fn declared(alloc: Global, types: &[ValType]) -> Result<Vec<Locals>, NoMemory>
    ensures types { IfOk result (λ locals. declared_types locals.items ≡ types.now) }
    ensures some { IfOk result (λ locals. AllByRecursion (λ (run : runs.Locals). 1 ≤ run.count) locals.items) }
{
    let mut locals = Vec::new(alloc);
    for ty in types {
        add_local(&mut locals, *ty)?;
    }
    Ok(locals)
}

/// The module with this body and these locals of `run`.
fn module_around(alloc: Global, body: Body, locals: Vec<Locals>) -> Result<Module, NoMemory>
    ensures around { IfOk result (λ m. IsAround (declared_types locals.items) (sequences_of body) m) }
    ensures run { IfOk result (λ m. (run : Function) × (m.functions.items ≡ run ∷ []) × (run.type_index ≡ 0) × (run.locals ≡ locals) × (run.body ≡ body)) }
{
    let run = Function {
        type_index: RUN_TYPE,
        locals,
        body,
    };
    let run_type = FuncType {
        params: vec![in alloc; ValType::I32]?,
        results: Vec::new(alloc),
    };
    let pages_type = FuncType {
        params: vec![in alloc; ValType::I32]?,
        results: vec![in alloc; ValType::I32]?,
    };
    let memory = Import::Memory(Limits { min: 1, max: None });
    let export = Export {
        name: String::from_str(alloc, "run")?,
        kind: ExportKind::Function(RUN_INDEX),
    };
    Ok(Module {
        types: vec![in alloc; run_type, pages_type]?,
        imports: vec![in alloc; memory, Import::Raise(RUN_TYPE), Import::Pages(PAGES_TYPE)]?,
        functions: vec![in alloc; run]?,
        memories: Vec::new(alloc),
        globals: Vec::new(alloc),
        exports: vec![in alloc; export]?,
    })
}

/// The module whose `run` does what a block does: its argument is the first local, the address of the first page, and behind it are
/// locals of these types, which begin as 0. Of a block whose steps are a typed statement's, it can be run, it has as many instructions
/// as the statement, with those that it calls too, its calls nest at most three deep, it never asks for the memory's size and never grows
/// it, and each of its runs over a memory that is ready is the statement's run of the first state. Of at most 2^22 instructions and 2^21
/// locals it is spelled in at most 64 MiB.
///
/// # Errors
///
/// [`NoMemory`] where the module does not fit memory.
pub fn module_of(alloc: Global, block: &Block, locals: &[ValType]) -> Result<Module, NoMemory>
    ensures runnable { IfOk result (λ m. (s : Statement) → block.now.code.items ≡ steps_of s → IsTyped (I32 ∷ locals.now) s → IsRunnable m) }
    ensures short { IfOk result (λ m. (s : Statement) → block.now.code.items ≡ steps_of s →
        sum_by (λ (function : Function). weight (code_of_body function.body)) m.functions.items ≡ size s) }
    ensures light { IfOk result (λ m. (s : Statement) → block.now.code.items ≡ steps_of s → (number : ℕ) → IsShaped m number →
        weight_of_function m (length (imported_functions m) + number) ≡ size s) }
    ensures nests { IfOk result (λ m. (s : Statement) → block.now.code.items ≡ steps_of s → IsTyped (I32 ∷ locals.now) s → CallsNestWithin m 3) }
    ensures no_size { IfOk result (λ m. (s : Statement) → block.now.code.items ≡ steps_of s → NeverAsksSize m) }
    ensures no_growth { IfOk result (λ m. (s : Statement) → block.now.code.items ≡ steps_of s → NeverGrows m) }
    ensures spelled { IfOk result (λ m. (s : Statement) → block.now.code.items ≡ steps_of s → IsTyped (I32 ∷ locals.now) s → size s ≤ 2 ^ 22 → length locals.now ≤ 2 ^ 21 →
        (text : List ℕ) × SpellsModule (contents_of m) text × (length text ≤ 2 ^ 26)) }
    ensures runs { IfOk result (λ m. (s : Statement) → block.now.code.items ≡ steps_of s → RunsOf m s (length locals.now)) }
{
    let declared = declared(alloc, locals)?;
    let body = body_of(alloc, &block.code)?;
    let module = module_around(alloc, body, declared)?;
    Ok(module)
}
