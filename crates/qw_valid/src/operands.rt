//! The operands that are known while a body is checked.

ghost use Rattle.std.specs.Prelude.{◌≡◌, IsTrue, Some, None, reverse};
ghost use Rattle.qw_module.specs.Typing.{types_of};
ghost use Rattle.qw_valid.specs.Inner.Checking.{Known, nothing, anything, pushed, pushed_kind, popped, any_popped, all_pushed};
ghost use Rattle.qw_valid.specs.Inner.Checking.{all_popped, has_none};
ghost use Rattle.qw_valid.specs.Refusals.{Finds};

use qw_module::instruction::{BlockType, ValType};
use std::alloc::Global;
use std::marker::Model;

/// Why a body is refused.
#[derive(Clone, Copy, PartialEq, Eq)]
pub enum Refusal {
    IllTyped,
    NoMemory,
}

/// The kinds of the operands that are known at some point of a sequence: a type, or `None` where any fits.
#[derive(Drop)]
pub(crate) struct Operands {
    known: Vec<Option<ValType>>,
    /// Whether that point follows what never goes on, so that any others may lie below.
    unreachable: bool,
}

impl Model for Operands {
    ghost use Rattle.std.specs.Prelude.{reverse};
    ghost use Rattle.qw_valid.specs.Inner.Checking.{Known};

    ghost Value = { Known };

    ghost view = { λ o. record { kinds = reverse o.known.items; unbounded = o.unreachable } };
}

impl Operands {
    pub(crate) fn new(alloc: Global) -> Self
        ensures { result ≡ nothing }
    {
        Operands {
            known: Vec::new(alloc),
            unreachable: false,
        }
    }

    pub(crate) fn push_kind(&mut self, kind: Option<ValType>) -> Result<(), Refusal>
        ensures { Finds result (Some (pushed_kind kind self.old)) (λ _. self.new) }
    {
        self.known.push(kind).map_err(|_| Refusal::NoMemory)
    }

    pub(crate) fn push(&mut self, ty: ValType) -> Result<(), Refusal>
        ensures { Finds result (Some (pushed ty self.old)) (λ _. self.new) }
    {
        self.push_kind(Some(ty))
    }

    pub(crate) fn pop(&mut self, ty: ValType) -> Result<(), Refusal>
        ensures { Finds result (popped ty self.old) (λ _. self.new) }
    {
        match self.known.pop() {
            Some(None) => Ok(()),
            Some(Some(last)) if last == ty => Ok(()),
            None if self.unreachable => Ok(()),
            _ => Err(Refusal::IllTyped),
        }
    }

    /// Takes an operand of any type, and tells its kind.
    pub(crate) fn pop_any(&mut self) -> Result<Option<ValType>, Refusal>
        ensures { Finds result (any_popped self.old) (λ kind. (kind, self.new)) }
    {
        match self.known.pop() {
            Some(kind) => Ok(kind),
            None if self.unreachable => Ok(None),
            None => Err(Refusal::IllTyped),
        }
    }

    pub(crate) fn push_all(&mut self, types: BlockType) -> Result<(), Refusal>
        ensures { Finds result (Some (all_pushed (types_of types) self.old)) (λ _. self.new) }
    {
        match types {
            None => Ok(()),
            Some(ty) => self.push(ty),
        }
    }

    pub(crate) fn pop_all(&mut self, types: BlockType) -> Result<(), Refusal>
        ensures { Finds result (all_popped (types_of types) self.old) (λ _. self.new) }
    {
        match types {
            None => Ok(()),
            Some(ty) => self.pop(ty),
        }
    }

    /// Takes the arguments of a call, the last one first. Where none is known and any may be there, nothing is left to do, so a call takes
    /// no more steps than there are operands known.
    pub(crate) fn pop_arguments(&mut self, types: &[ValType]) -> Result<(), Refusal>
        ensures { Finds result (all_popped (reverse types.now) self.old) (λ _. self.new) }
    {
        for ty in types.iter().rev() {
            if self.are_any() {
                return Ok(());
            }
            self.pop(*ty)?;
        }
        Ok(())
    }

    /// Puts the results of a call.
    pub(crate) fn push_results(&mut self, types: &[ValType]) -> Result<(), Refusal>
        ensures { Finds result (Some (all_pushed (reverse types.now) self.old)) (λ _. self.new) }
    {
        for ty in types {
            self.push(*ty)?;
        }
        Ok(())
    }

    pub(crate) fn forget(&mut self)
        ensures { self.new ≡ anything }
    {
        self.known.clear();
        self.unreachable = true;
    }

    /// Whether none is known, and any may be there.
    fn are_any(&self) -> bool
        ensures { IsTrue result → self.now ≡ anything }
    {
        self.unreachable && self.known.is_empty()
    }

    pub(crate) fn is_empty(&self) -> bool
        ensures { result ≡ has_none self.now.kinds }
    {
        self.known.is_empty()
    }
}
