//! How many operands and labels the code of a body needs at most.

ghost use Rattle.std.specs.Prelude.{◌≡◌, ◌<◌, ℕ, All, IfSome, length, option_map, slice_get};
ghost use Rattle.qw_module.specs.Execution.{arity_of};
ghost use Rattle.qw_module.specs.Syntax.{IsNumbered, NamesBelow};
ghost use Rattle.qw_valid.specs.Heights.{taken_by, left_by, StaysWithin, AreHeightsOf};
ghost use Rattle.qw_module.specs.Validity.{code_of_body, outside_of, sequences_of, signature_of};
ghost use Rattle.qw_valid.specs.ModuleHeights.{HaveHeights};
ghost use Rattle.qw_valid.specs.ValidFaults.{HasBody};
ghost use Rattle.qw_valid.specs.Inner.Checkers.{HaveTypes};
ghost use Rattle.qw_valid.specs.Inner.Heights.{around, at_number, behind, holding, instruction_needs, needs, wider};

use crate::imports::function_type;
use qw_module::instruction::{BlockType, Instr, Op};
use qw_module::module::{Body, FuncType, Function, Module};
use std::alloc::Global;

/// How many operands and labels a code has at any time at most.
#[derive(Clone, Copy, Debug, PartialEq, Eq)]
pub struct Heights {
    /// The operands of the function's own.
    pub operands: usize,
    /// The labels, without that of the whole body.
    pub labels: usize,
}

impl Heights {
    /// So many operands and no label.
    fn holding(operands: usize) -> Heights
        ensures { result ≡ holding operands }
    {
        Heights {
            operands,
            labels: 0,
        }
    }

    /// What is enough for both.
    fn wider(self, other: Heights) -> Heights
        ensures { result ≡ wider self other }
    {
        Heights {
            operands: self.operands.max(other.operands),
            labels: self.labels.max(other.labels),
        }
    }

    /// What a sequence needs in a label of its own, on so many operands.
    fn around(self, now: usize) -> Option<Heights>
        ensures { IfSome result (λ heights. heights ≡ around now self) }
    {
        Some(Heights {
            operands: now.checked_add(self.operands)?,
            labels: self.labels.checked_add(1)?,
        })
    }
}

/// How many operands an instruction takes.
fn taken_by(op: Op) -> usize
    ensures { result ≡ taken_by op }
{
    match op {
        Op::Nop | Op::LocalGet(_) | Op::GlobalGet(_) | Op::Const(_) | Op::MemorySize => 0,
        Op::Drop
        | Op::LocalSet(_)
        | Op::LocalTee(_)
        | Op::GlobalSet(_)
        | Op::Unary(..)
        | Op::Eqz(_)
        | Op::Convert(_)
        | Op::Load(..)
        | Op::MemoryGrow => 1,
        Op::Binary(..) | Op::Division(..) | Op::Relation(..) | Op::Store(..) => 2,
        Op::Select => 3,
    }
}

/// How many operands an instruction leaves.
fn left_by(op: Op) -> usize
    ensures { result ≡ left_by op }
{
    match op {
        Op::Nop | Op::Drop | Op::LocalSet(_) | Op::GlobalSet(_) | Op::Store(..) => 0,
        _ => 1,
    }
}

/// How many results a block has.
fn arity_of(result_type: BlockType) -> usize
    ensures { result ≡ arity_of result_type }
{
    match result_type {
        None => 0,
        Some(_) => 1,
    }
}

/// The type of the function of an index.
fn type_of(module: &Module, index: u32) -> Option<&FuncType>
    requires { HaveTypes «module».now }
    ensures { option_map (λ ty. signature_of ty.now) result ≡ slice_get (outside_of «module».now).functions index }
{
    let ty = function_type(module, index as usize)?;
    Some(&module.types[ty as usize])
}

/// The operands behind an instruction.
fn behind(module: &Module, instr: Instr, now: usize) -> Option<usize>
    requires { HaveTypes «module».now }
    ensures { IfSome result (λ next. next ≡ behind ((outside_of «module».now).functions) instr now) }
{
    match instr {
        Instr::Op(op) => now.saturating_sub(taken_by(op)).checked_add(left_by(op)),
        Instr::Block { result, .. } | Instr::Loop { result, .. } => {
            now.checked_add(arity_of(result))
        }
        Instr::If { result, .. } => now.saturating_sub(1).checked_add(arity_of(result)),
        Instr::BrIf(_) => Some(now.saturating_sub(1)),
        Instr::Call(index) => match type_of(module, index) {
            None => Some(now),
            Some(ty) => now
                .saturating_sub(ty.params.len())
                .checked_add(ty.results.len()),
        },
        _ => Some(now),
    }
}

/// What an instruction needs with the sequences that it holds, where those of lower numbers need so many.
fn instruction_needs(lower: &[Heights], instr: Instr, now: usize) -> Option<Heights>
    requires { (labels : ℕ) × NamesBelow labels (length lower.now) instr }
    ensures { IfSome result (λ heights. heights ≡ instruction_needs (at_number lower.now) instr now) }
{
    let here = Heights::holding(now);
    match instr {
        Instr::Block { body, .. } | Instr::Loop { body, .. } => lower[body].around(now),
        Instr::If {
            then_body,
            else_body: None,
            ..
        } => Some(here.wider(lower[then_body].around(now.saturating_sub(1))?)),
        Instr::If {
            then_body,
            else_body: Some(else_body),
            ..
        } => {
            let below = now.saturating_sub(1);
            let first = here.wider(lower[then_body].around(below)?);
            Some(first.wider(lower[else_body].around(below)?))
        }
        _ => Some(here),
    }
}

/// What a sequence needs that begins on no operands, where those of lower numbers need so many.
fn sequence_needs(module: &Module, lower: &[Heights], sequence: &[Instr]) -> Option<Heights>
    requires types { HaveTypes «module».now }
    requires names { (labels : ℕ) × All (NamesBelow labels (length lower.now)) sequence.now }
    ensures { IfSome result (λ heights. heights ≡ needs ((outside_of «module».now).functions) (at_number lower.now) sequence.now 0) }
{
    let mut most = Heights::holding(0);
    let mut now = 0;
    for instr in sequence {
        most = most.wider(instruction_needs(lower, *instr, now)?);
        now = behind(module, *instr, now)?;
    }
    Some(most.wider(Heights::holding(now)))
}

/// What a body needs: its sequences are gone through by rising number, so that those that one names are known before it.
fn body_needs(alloc: Global, module: &Module, body: &Body) -> Option<Heights>
    requires types { HaveTypes «module».now }
    requires numbered { IsNumbered (sequences_of body.now) }
    ensures { IfSome result (λ heights. StaysWithin ((outside_of «module».now).functions) heights.operands heights.labels (code_of_body body.now) 0) }
{
    let mut lower = Vec::new(alloc);
    for sequence in &body.sequences {
        let needs = sequence_needs(module, &lower, sequence)?;
        lower.push(needs).ok()?;
    }
    lower.last().copied()
}

/// What a function needs, its results counted too.
fn function_heights(alloc: Global, module: &Module, function: &Function) -> Option<Heights>
    requires types { HaveTypes «module».now }
    requires body { HasBody «module».now function.now }
    ensures { IfSome result (λ heights. AreHeightsOf «module».now function.now heights.operands heights.labels) }
{
    let needs = body_needs(alloc, module, &function.body)?;
    let results = module.types[function.type_index as usize].results.len();
    Some(needs.wider(Heights::holding(results)))
}

/// What each function of the module's own needs, in their order. `None` is want of memory, or that no machine word counts the
/// operands, which no memory would hold.
pub(crate) fn module_heights(alloc: Global, module: &Module) -> Option<Vec<Heights>>
    requires types { HaveTypes «module».now }
    requires bodies { All (HasBody «module».now) «module».now.functions.items }
    ensures { IfSome result (λ heights. HaveHeights «module».now heights.items) }
{
    let mut heights = Vec::new(alloc);
    for function in &module.functions {
        let needed = function_heights(alloc, module, function)?;
        heights.push(needed).ok()?;
    }
    Some(heights)
}
