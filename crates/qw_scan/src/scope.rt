//! Whether an instruction that holds no other, or a call, is typed (WebAssembly Core Specification 1.0, 3.3).

ghost use Rattle.std.specs.Prelude.{◌≡◌, List, [], ◌++◌, ◌^◌};
ghost use Rattle.std.specs.Prelude.{map, reverse, nat_lt, nat_le, ◌&&◌, slice_get};
ghost use Rattle.std.specs.Option.{option_and_then};
ghost use Rattle.qw_module.specs.Typing.{Signature};
ghost use Rattle.qw_valid.specs.Inner.Checking.{Around, scope_at, after_select, after_set, after_call, after_op, one_to_one, two_to_one, all_popped, all_pushed};
ghost use Rattle.qw_valid.specs.Refusals.{Finds, Decides};
ghost use Rattle.qw_scan.specs.Inner.TypesAt.{type_by};
ghost use Rattle.qw_scan.specs.Inner.Signatures.{signature_of};
ghost use Rattle.qw_scan.specs.Inner.Tables.{global_of, typing_of};

use crate::locals::LocalRuns;
use crate::stack::Stack;
use crate::types::{TypeOctets, Types, number_of, type_of};
use qw_module::instruction::{BlockType, MemArg, Op, ValType};
use qw_valid::checker::{
    constant_type, converted_type, converting_type, is_aligned, join, load_octets, load_type,
    store_octets, store_type,
};
use qw_valid::operands::Refusal;

/// The type of a global, and whether it may be set.
#[derive(Clone, Copy)]
pub struct GlobalKind {
    pub ty: ValType,
    pub mutable: bool,
}

/// What a body is checked under.
#[derive(Clone, Copy)]
pub struct Scope<'a> {
    pub(crate) types: &'a Types<'a>,
    /// The index of each function's type, the imported ones first.
    pub(crate) functions: &'a [u32],
    pub(crate) globals: &'a [GlobalKind],
    /// How many memories there are.
    pub(crate) memories: usize,
    /// The octets of the types of the function's parameters.
    pub(crate) parameters: &'a [u8],
    /// The locals after the parameters.
    pub(crate) locals: &'a LocalRuns,
    pub(crate) result: BlockType,
}

impl Scope<'_> {
    fn local(&self, index: u32) -> Result<ValType, Refusal>
        ensures { Finds result (slice_get (map type_by self.now.parameters.now ++ self.now.locals.now) index) (λ ty. ty) }
    {
        let index = index as usize;
        if let Some(octet) = self.parameters.get(index) {
            return Ok(type_of(*octet));
        }
        self.locals
            .get(index - self.parameters.len())
            .ok_or(Refusal::IllTyped)
    }

    fn global(&self, index: u32) -> Result<GlobalKind, Refusal>
        ensures { Finds result (slice_get (map global_of self.now.globals.now) index) global_of }
    {
        self.globals
            .get(index as usize)
            .copied()
            .ok_or(Refusal::IllTyped)
    }

    fn access(&self, arg: MemArg, octets: u32) -> Result<(), Refusal>
        ensures { Decides result (nat_lt 0 self.now.memories && nat_le (2 ^ arg.align) octets) }
    {
        if self.memories > 0 && is_aligned(arg.align, octets) {
            Ok(())
        } else {
            Err(Refusal::IllTyped)
        }
    }

    fn memory(&self) -> Result<(), Refusal>
        ensures { Decides result (nat_lt 0 self.now.memories) }
    {
        if self.memories > 0 {
            Ok(())
        } else {
            Err(Refusal::IllTyped)
        }
    }

    /// The type of the function of an index.
    fn callee(&self, index: u32) -> Result<TypeOctets<'_>, Refusal>
        ensures { Finds result (slice_get (typing_of self.now).outside.functions index) signature_of }
    {
        let ty = number_of(self.functions, index).ok_or(Refusal::IllTyped)?;
        let Ok(found) = self.types.get(ty) else {
            return Err(Refusal::NoMemory);
        };
        Ok(found)
    }

    /// A call of a function (3.3.5, `call`).
    pub(crate) fn call(&self, index: u32, stack: &mut Stack) -> Result<(), Refusal>
        ensures typed { Finds result
            (option_and_then (λ signature. after_call signature stack.old.known) (slice_get (typing_of self.now).outside.functions index)) (λ _. stack.new.known) }
        ensures below { stack.new.below ≡ stack.old.below }
    {
        let ty = self.callee(index)?;
        stack.pop_arguments(ty.params)?;
        stack.push_results(ty.results)
    }

    fn select(&self, stack: &mut Stack) -> Result<(), Refusal>
        ensures typed { Finds result (after_select stack.old.known) (λ _. stack.new.known) }
        ensures below { stack.new.below ≡ stack.old.below }
    {
        stack.pop(ValType::I32)?;
        let first = stack.pop_any()?;
        let second = stack.pop_any()?;
        stack.push_kind(join(first, second)?)
    }

    fn set_global(&self, index: u32, stack: &mut Stack) -> Result<(), Refusal>
        ensures typed { Finds result
            (option_and_then (λ global. after_set global stack.old.known) (slice_get (typing_of self.now).outside.globals index)) (λ _. stack.new.known) }
        ensures below { stack.new.below ≡ stack.old.below }
    {
        let global = self.global(index)?;
        if !global.mutable {
            return Err(Refusal::IllTyped);
        }
        stack.pop(global.ty)
    }

    /// An instruction that holds no other.
    pub(crate) fn operator(&self, op: Op, stack: &mut Stack) -> Result<(), Refusal>
        ensures typed { (around : List Around) →
            Finds result (after_op (scope_at (typing_of self.now) around) op stack.old.known) (λ _. stack.new.known) }
        ensures below { stack.new.below ≡ stack.old.below }
    {
        match op {
            Op::Nop => Ok(()),
            Op::Drop => {
                let _ = stack.pop_any()?;
                Ok(())
            }
            Op::Select => self.select(stack),
            Op::LocalGet(x) => stack.push(self.local(x)?),
            Op::LocalSet(x) => stack.pop(self.local(x)?),
            Op::LocalTee(x) => {
                let ty = self.local(x)?;
                one_to_one(ty, ty, stack)
            }
            Op::GlobalGet(x) => stack.push(self.global(x)?.ty),
            Op::GlobalSet(x) => self.set_global(x, stack),
            Op::Const(number) => stack.push(constant_type(number)),
            Op::Unary(ty, _) => one_to_one(ty, ty, stack),
            Op::Binary(ty, _) | Op::Division(ty, _) => two_to_one(ty, ty, stack),
            Op::Eqz(ty) => one_to_one(ty, ValType::I32, stack),
            Op::Relation(ty, _) => two_to_one(ty, ValType::I32, stack),
            Op::Convert(conversion) => one_to_one(
                converted_type(conversion),
                converting_type(conversion),
                stack,
            ),
            Op::Load(load, arg) => {
                self.access(arg, load_octets(load))?;
                one_to_one(ValType::I32, load_type(load), stack)
            }
            Op::Store(store, arg) => {
                self.access(arg, store_octets(store))?;
                stack.pop(store_type(store))?;
                stack.pop(ValType::I32)
            }
            Op::MemorySize => {
                self.memory()?;
                stack.push(ValType::I32)
            }
            Op::MemoryGrow => {
                self.memory()?;
                one_to_one(ValType::I32, ValType::I32, stack)
            }
        }
    }
}

/// From an operand of one type to a result of another.
fn one_to_one(ty: ValType, result_type: ValType, stack: &mut Stack) -> Result<(), Refusal>
    ensures typed { Finds result (one_to_one ty result_type stack.old.known) (λ _. stack.new.known) }
    ensures below { stack.new.below ≡ stack.old.below }
{
    stack.pop(ty)?;
    stack.push(result_type)
}

/// From two operands of one type to a result of another.
fn two_to_one(ty: ValType, result_type: ValType, stack: &mut Stack) -> Result<(), Refusal>
    ensures typed { Finds result (two_to_one ty result_type stack.old.known) (λ _. stack.new.known) }
    ensures below { stack.new.below ≡ stack.old.below }
{
    stack.pop(ty)?;
    one_to_one(ty, result_type, stack)
}
