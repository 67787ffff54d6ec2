//! Whether an instruction that holds no other, or a call, is typed (WebAssembly Core Specification 1.0, 3.3).

ghost use Rattle.std.specs.Prelude.{◌≡◌, List, [], ◌∷◌, ◌++◌, ◌<◌, ◌^◌, ◌≤◌, ◌↔◌};
ghost use Rattle.std.specs.Prelude.{length, map, reverse, nat_le, IsTrue, ◌&&◌, All, Some, slice_get};
ghost use Rattle.std.specs.Option.{option_and_then};
ghost use Rattle.qw_module.specs.Numbers.{values_of, constant, type_of_constant, converts_from, converts_to};
ghost use Rattle.qw_module.specs.Numbers.{type_of_load, load_width, type_of_store, store_width, octets_of};
ghost use Rattle.qw_module.specs.Typing.{Scope};
ghost use Rattle.qw_module.specs.Validity.{outside_of, signature_of, global_type};
ghost use Rattle.qw_valid.specs.Inner.Checking.{Around, scope_at, has_memory, after_select, after_set, after_call, after_op, one_to_one, two_to_one};
ghost use Rattle.qw_valid.specs.Kinds.{joined};
ghost use Rattle.qw_valid.specs.Inner.Checkers.{typing_of, HaveTypes};
ghost use Rattle.qw_valid.specs.Refusals.{Finds, Decides};

use crate::imports::function_type;
use crate::locals::LocalTypes;
use crate::operands::{Operands, Refusal};
use qw_module::instruction::{BlockType, Const, Conversion, Load, MemArg, Op, Store, ValType};
use qw_module::module::{Body, FuncType, Global, Module};
use std::alloc;

/// The type of a constant.
pub fn constant_type(number: Const) -> ValType
    ensures value { result ≡ type_of_constant number }
    ensures fits { constant number < values_of result }
{
    match number {
        Const::I32(_) => ValType::I32,
        Const::I64(_) => ValType::I64,
    }
}

/// The type that a conversion converts from.
pub fn converted_type(conversion: Conversion) -> ValType
    ensures { result ≡ converts_from conversion }
{
    match conversion {
        Conversion::Wrap => ValType::I64,
        Conversion::Extend(_) => ValType::I32,
    }
}

/// The type that a conversion converts to.
pub fn converting_type(conversion: Conversion) -> ValType
    ensures { result ≡ converts_to conversion }
{
    match conversion {
        Conversion::Wrap => ValType::I32,
        Conversion::Extend(_) => ValType::I64,
    }
}

fn octets(ty: ValType) -> u32
    ensures { result ≡ octets_of ty }
{
    match ty {
        ValType::I32 => 4,
        ValType::I64 => 8,
    }
}

/// The type that a load gives.
pub fn load_type(load: Load) -> ValType
    ensures { result ≡ type_of_load load }
{
    match load {
        Load::Full(ty) | Load::From8(ty, _) | Load::From16(ty, _) => ty,
        Load::I64From32(_) => ValType::I64,
    }
}

/// How many octets a load reads.
pub fn load_octets(load: Load) -> u32
    ensures { result ≡ load_width load }
{
    match load {
        Load::Full(ty) => octets(ty),
        Load::From8(..) => 1,
        Load::From16(..) => 2,
        Load::I64From32(_) => 4,
    }
}

/// The type that a store takes.
pub fn store_type(store: Store) -> ValType
    ensures { result ≡ type_of_store store }
{
    match store {
        Store::Full(ty) | Store::To8(ty) | Store::To16(ty) => ty,
        Store::I64To32 => ValType::I64,
    }
}

/// How many octets a store writes.
pub fn store_octets(store: Store) -> u32
    ensures { result ≡ store_width store }
{
    match store {
        Store::Full(ty) => octets(ty),
        Store::To8(_) => 1,
        Store::To16(_) => 2,
        Store::I64To32 => 4,
    }
}

/// Whether an alignment of 2 to this power is at most so many octets.
pub fn is_aligned(align: u32, octets: u32) -> bool
    ensures { IsTrue result ↔ (2 ^ align ≤ octets) }
{
    2u32.checked_pow(align).is_some_and(|unit| unit <= octets)
}

/// The kind of what fits both kinds.
pub fn join(first: Option<ValType>, second: Option<ValType>) -> Result<Option<ValType>, Refusal>
    ensures { Finds result (joined first second) (λ kind. kind) }
{
    match (first, second) {
        (None, kind) => Ok(kind),
        (Some(ty), None) => Ok(Some(ty)),
        (Some(ty), Some(other)) if ty == other => Ok(Some(ty)),
        _ => Err(Refusal::IllTyped),
    }
}

/// What a body is checked under.
#[derive(Clone, Copy)]
pub(crate) struct Checker<'a> {
    pub(crate) alloc: alloc::Global,
    pub(crate) module: &'a Module,
    pub(crate) parameters: &'a [ValType],
    /// The locals after the parameters.
    pub(crate) locals: &'a LocalTypes<'a>,
    pub(crate) result: BlockType,
    pub(crate) has_memory: bool,
    pub(crate) body: &'a Body,
}

impl Checker<'_> {
    fn local(&self, index: u32) -> Result<ValType, Refusal>
        ensures { Finds result
            (slice_get (self.now.parameters.now ++ self.now.locals.now) index) (λ ty. ty) }
    {
        let index = index as usize;
        if let Some(ty) = self.parameters.get(index) {
            return Ok(*ty);
        }
        self.locals
            .get(index - self.parameters.len())
            .ok_or(Refusal::IllTyped)
    }

    fn global(&self, index: u32) -> Result<&Global, Refusal>
        ensures { Finds result (slice_get (map global_type self.now.«module».now.globals.items) index) (λ global. global_type global.now) }
    {
        self.module
            .globals
            .get(index as usize)
            .ok_or(Refusal::IllTyped)
    }

    fn access(&self, arg: MemArg, octets: u32) -> Result<(), Refusal>
        ensures { Decides result (self.now.has_memory && nat_le (2 ^ arg.align) octets) }
    {
        if self.has_memory && is_aligned(arg.align, octets) {
            Ok(())
        } else {
            Err(Refusal::IllTyped)
        }
    }

    fn memory(&self) -> Result<(), Refusal>
        ensures { Decides result self.now.has_memory }
    {
        if self.has_memory {
            Ok(())
        } else {
            Err(Refusal::IllTyped)
        }
    }

    /// The type of the function of an index.
    fn callee(&self, index: u32) -> Result<&FuncType, Refusal>
        requires { HaveTypes self.now.«module».now }
        ensures { Finds result (slice_get (outside_of self.now.«module».now).functions index) (λ ty. signature_of ty.now) }
    {
        let ty = function_type(self.module, index as usize).ok_or(Refusal::IllTyped)?;
        Ok(&self.module.types[ty as usize])
    }

    /// A call of a function (3.3.5, `call`).
    pub(crate) fn call(&self, index: u32, operands: &mut Operands) -> Result<(), Refusal>
        requires { HaveTypes self.now.«module».now }
        ensures { Finds result
            (option_and_then (λ signature. after_call signature operands.old) (slice_get (outside_of self.now.«module».now).functions index)) (λ _. operands.new) }
    {
        let ty = self.callee(index)?;
        operands.pop_arguments(&ty.params)?;
        operands.push_results(&ty.results)
    }

    fn select(&self, operands: &mut Operands) -> Result<(), Refusal>
        ensures { Finds result (after_select operands.old) (λ _. operands.new) }
    {
        operands.pop(ValType::I32)?;
        let first = operands.pop_any()?;
        let second = operands.pop_any()?;
        operands.push_kind(join(first, second)?)
    }

    fn set_global(&self, index: u32, operands: &mut Operands) -> Result<(), Refusal>
        ensures { Finds result
            (option_and_then (λ global. after_set global operands.old) (slice_get (outside_of self.now.«module».now).globals index)) (λ _. operands.new) }
    {
        let global = self.global(index)?;
        if !global.mutable {
            return Err(Refusal::IllTyped);
        }
        operands.pop(global.ty)
    }

    /// An instruction that holds no other.
    pub(crate) fn operator(&self, op: Op, operands: &mut Operands) -> Result<(), Refusal>
        requires { IsTrue self.now.has_memory ↔ (1 ≤ (outside_of self.now.«module».now).memories) }
        ensures { (around : List Around) →
            Finds result (after_op (scope_at (typing_of self.now) around) op operands.old) (λ _. operands.new) }
    {
        match op {
            Op::Nop => Ok(()),
            Op::Drop => {
                let _ = operands.pop_any()?;
                Ok(())
            }
            Op::Select => self.select(operands),
            Op::LocalGet(x) => operands.push(self.local(x)?),
            Op::LocalSet(x) => operands.pop(self.local(x)?),
            Op::LocalTee(x) => {
                let ty = self.local(x)?;
                one_to_one(ty, ty, operands)
            }
            Op::GlobalGet(x) => operands.push(self.global(x)?.ty),
            Op::GlobalSet(x) => self.set_global(x, operands),
            Op::Const(number) => operands.push(constant_type(number)),
            Op::Unary(ty, _) => one_to_one(ty, ty, operands),
            Op::Binary(ty, _) | Op::Division(ty, _) => two_to_one(ty, ty, operands),
            Op::Eqz(ty) => one_to_one(ty, ValType::I32, operands),
            Op::Relation(ty, _) => two_to_one(ty, ValType::I32, operands),
            Op::Convert(conversion) => one_to_one(
                converted_type(conversion),
                converting_type(conversion),
                operands,
            ),
            Op::Load(load, arg) => {
                self.access(arg, load_octets(load))?;
                one_to_one(ValType::I32, load_type(load), operands)
            }
            Op::Store(store, arg) => {
                self.access(arg, store_octets(store))?;
                operands.pop(store_type(store))?;
                operands.pop(ValType::I32)
            }
            Op::MemorySize => {
                self.memory()?;
                operands.push(ValType::I32)
            }
            Op::MemoryGrow => {
                self.memory()?;
                one_to_one(ValType::I32, ValType::I32, operands)
            }
        }
    }
}

/// From an operand of one type to a result of another.
fn one_to_one(ty: ValType, result_type: ValType, operands: &mut Operands) -> Result<(), Refusal>
    ensures { Finds result (one_to_one ty result_type operands.old) (λ _. operands.new) }
{
    operands.pop(ty)?;
    operands.push(result_type)
}

/// From two operands of one type to a result of another.
fn two_to_one(ty: ValType, result_type: ValType, operands: &mut Operands) -> Result<(), Refusal>
    ensures { Finds result (two_to_one ty result_type operands.old) (λ _. operands.new) }
{
    operands.pop(ty)?;
    one_to_one(ty, result_type, operands)
}
