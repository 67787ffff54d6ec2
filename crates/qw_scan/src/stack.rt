//! The operands that are known while a body is checked, those of all its open sequences in one vector.

ghost use Rattle.std.specs.Prelude.{◌≡◌, [], ◌++◌, IsTrue, Some, None, map, reverse, take, drop, length};
ghost use Rattle.qw_module.specs.Typing.{types_of};
ghost use Rattle.qw_valid.specs.Inner.Checking.{Known, nothing, anything, pushed, pushed_kind, popped, any_popped, all_pushed};
ghost use Rattle.qw_valid.specs.Inner.Checking.{all_popped, has_none};
ghost use Rattle.qw_valid.specs.Refusals.{Finds};
ghost use Rattle.qw_scan.specs.Inner.TypesAt.{type_by};

use crate::types::type_of;
use qw_module::instruction::{BlockType, ValType};
use qw_valid::operands::Refusal;
use std::alloc::Global;
use std::marker::Model;

/// The kinds of the operands that are known at some point of a body: a type, or `None` where any fits.
#[derive(Drop)]
pub(crate) struct Stack {
    /// Those of the sequences round the innermost one, from the outermost in, and then its own.
    kinds: Vec<Option<ValType>>,
    /// How many of them are not its own.
    height: usize,
    /// Whether that point follows what never goes on, so that any others may lie below its own.
    unreachable: bool,
}

impl Model for Stack {
    ghost use Rattle.std.specs.Prelude.{◌≤◌, reverse, take, drop, length};
    ghost use Rattle.qw_scan.specs.Inner.Holding.{Held};

    ghost Value = { Held };

    ghost view = { λ s. record { known = record { kinds = reverse (drop s.height s.kinds.items); unbounded = s.unreachable }; below = take s.height s.kinds.items } };

    ghost invariant = { λ s. s.height ≤ length s.kinds.items };
}

impl Stack {
    pub(crate) fn new(alloc: Global) -> Self
        ensures { result ≡ record { known = nothing; below = [] } }
    {
        Stack {
            kinds: Vec::new(alloc),
            height: 0,
            unreachable: false,
        }
    }

    pub(crate) fn push_kind(&mut self, kind: Option<ValType>) -> Result<(), Refusal>
        ensures typed { Finds result (Some (pushed_kind kind self.old.known)) (λ _. self.new.known) }
        ensures below { self.new.below ≡ self.old.below }
    {
        self.kinds.push(kind).map_err(|_| Refusal::NoMemory)
    }

    pub(crate) fn push(&mut self, ty: ValType) -> Result<(), Refusal>
        ensures typed { Finds result (Some (pushed ty self.old.known)) (λ _. self.new.known) }
        ensures below { self.new.below ≡ self.old.below }
    {
        self.push_kind(Some(ty))
    }

    /// Whether none is known of the innermost sequence.
    pub(crate) fn is_empty(&self) -> bool
        ensures { result ≡ has_none self.now.known.kinds }
    {
        self.kinds.len() == self.height
    }

    /// Takes an operand of any type, and tells its kind.
    pub(crate) fn pop_any(&mut self) -> Result<Option<ValType>, Refusal>
        ensures typed { Finds result (any_popped self.old.known) (λ kind. (kind, self.new.known)) }
        ensures below { self.new.below ≡ self.old.below }
    {
        if self.kinds.len() > self.height {
            return Ok(self.kinds.pop().unwrap());
        }
        if self.unreachable {
            Ok(None)
        } else {
            Err(Refusal::IllTyped)
        }
    }

    pub(crate) fn pop(&mut self, ty: ValType) -> Result<(), Refusal>
        ensures typed { Finds result (popped ty self.old.known) (λ _. self.new.known) }
        ensures below { self.new.below ≡ self.old.below }
    {
        match self.pop_any()? {
            Some(last) if last != ty => Err(Refusal::IllTyped),
            _ => Ok(()),
        }
    }

    pub(crate) fn push_all(&mut self, types: BlockType) -> Result<(), Refusal>
        ensures typed { Finds result (Some (all_pushed (types_of types) self.old.known)) (λ _. self.new.known) }
        ensures below { self.new.below ≡ self.old.below }
    {
        match types {
            None => Ok(()),
            Some(ty) => self.push(ty),
        }
    }

    pub(crate) fn pop_all(&mut self, types: BlockType) -> Result<(), Refusal>
        ensures typed { Finds result (all_popped (types_of types) self.old.known) (λ _. self.new.known) }
        ensures below { self.new.below ≡ self.old.below }
    {
        match types {
            None => Ok(()),
            Some(ty) => self.pop(ty),
        }
    }

    /// After what never goes on.
    pub(crate) fn forget(&mut self)
        ensures typed { self.new.known ≡ anything }
        ensures below { self.new.below ≡ self.old.below }
    {
        self.kinds.truncate(self.height);
        self.unreachable = true;
    }

    /// Begins the second sequence of an `if` behind its first.
    pub(crate) fn restart(&mut self)
        ensures typed { self.new.known ≡ nothing }
        ensures below { self.new.below ≡ self.old.below }
    {
        self.kinds.truncate(self.height);
        self.unreachable = false;
    }

    /// Takes the arguments of a call, whose types these octets are, the last one first. Where none is known and any may be there, nothing is
    /// left to do, so a call takes no more steps than there are operands known.
    pub(crate) fn pop_arguments(&mut self, types: &[u8]) -> Result<(), Refusal>
        ensures typed { Finds result (all_popped (reverse (map type_by types.now)) self.old.known) (λ _. self.new.known) }
        ensures below { self.new.below ≡ self.old.below }
    {
        for octet in types.iter().rev() {
            if self.are_any() {
                return Ok(());
            }
            self.pop(type_of(*octet))?;
        }
        Ok(())
    }

    /// Puts the results of a call.
    pub(crate) fn push_results(&mut self, types: &[u8]) -> Result<(), Refusal>
        ensures typed { Finds result (Some (all_pushed (reverse (map type_by types.now)) self.old.known)) (λ _. self.new.known) }
        ensures below { self.new.below ≡ self.old.below }
    {
        for octet in types {
            self.push(type_of(*octet))?;
        }
        Ok(())
    }

    /// Whether none is known, and any may be there.
    pub(crate) fn are_any(&self) -> bool
        ensures { IsTrue result → self.now.known ≡ anything }
    {
        self.unreachable && self.is_empty()
    }

    /// Begins a sequence over the operands that are there. What it gives is how many there are below those of the sequence round it, and
    /// whether any may lie there.
    pub(crate) fn enter(&mut self) -> (usize, bool)
        ensures begun { self.new ≡ record { known = nothing; below = self.old.below ++ reverse self.old.known.kinds } }
        ensures height { result.0 ≡ length self.old.below }
        ensures unbounded { result.1 ≡ self.old.known.unbounded }
    {
        let outer = (self.height, self.unreachable);
        self.height = self.kinds.len();
        self.unreachable = false;
        outer
    }

    /// Ends a sequence, of which nothing is kept, where the one round it begins at this height.
    pub(crate) fn leave(&mut self, height: usize, unreachable: bool)
        ensures { self.new ≡ record { known = record { kinds = reverse (drop height self.old.below); unbounded = unreachable }; below = take height self.old.below } }
    {
        self.kinds.truncate(self.height);
        self.height = height.min(self.height);
        self.unreachable = unreachable;
    }
}
