//! Whether a body is typed: its places are gone through from the first on, with what is open and the operands that are known
//! (WebAssembly Core Specification 1.0, appendix "Validation Algorithm"). Nothing recurses, and each place takes a bounded
//! number of steps but for one that names a local, whose type is found by a search, a `br_table`, which looks up each of its labels, and a
//! call, which takes no more arguments than there are operands known.

ghost use Rattle.std.specs.Option.{option_map};
ghost use Rattle.qw_module.specs.declared.instruction.ValType.TheVariants.{I32};
ghost use Rattle.std.specs.Prelude.{◌≡◌, ℕ, ◌<◌, ◌≤◌, ◌+◌, ◌↔◌, [], ◌∷◌, map, reverse, length, IsTrue, Some, None, OnSome, OnOk, IfOk, Err, ◌^◌, ◌-◌, slice_get};
ghost use Rattle.qw_module.specs.Places.{tokens_of, IsTypable, IsRefusedAt};
ghost use Rattle.qw_module.specs.Syntax.{code_of, IsNumbered, NamesBelow, labels_in, named_if_some, sequence_at};
ghost use Rattle.qw_module.specs.Typing.{types_of};
ghost use Rattle.qw_module.specs.Validity.{outside_of, sequences_of};
ghost use Rattle.qw_valid.specs.Inner.Checking.{nothing, taken_in, Around, all_take, is_left, walked, first_walked, ended, turned, then_ended, closed, advanced, opened, popped, scope_at, after_br, after_br_if, after_br_table};
ghost use Rattle.qw_valid.specs.Kinds.{taken_by};
ghost use Rattle.qw_valid.specs.Inner.Checkers.{typing_of, body_of, HaveTypes};
ghost use Rattle.qw_valid.specs.Inner.Walks.{around_of, around_in, walked_of, performed, first_code, code_at};
ghost use Rattle.qw_valid.specs.Refusals.{Finds, Decides};

use crate::checker::Checker;
use crate::operands::{Operands, Refusal};
use qw_module::instruction::{BlockType, Instr, ValType};
use qw_module::module::Body;

/// How a sequence that is open was begun.
#[derive(Clone, Copy, PartialEq, Eq)]
pub enum Opener {
    Body,
    Block,
    Loop,
    /// An `if`, before its `else`.
    Then,
    /// An `if`, after its `else`.
    Else,
}

/// What was begun and not ended yet.
#[derive(Drop)]
pub(crate) struct Open {
    pub(crate) opener: Opener,
    pub(crate) result: BlockType,
    /// The operands before it.
    pub(crate) below: Operands,
    /// The number of the sequence of its `else`, where one is to come.
    pub(crate) other: Option<usize>,
    /// The number of the sequence that it stands in, and the index there of what follows it.
    pub(crate) sequence: usize,
    pub(crate) after: usize,
}

/// Where the check of a body is.
#[derive(Drop)]
pub(crate) struct Walk<'a> {
    checker: Checker<'a>,
    operands: Operands,
    opened: Vec<Open>,
    sequence: usize,
    index: usize,
}

/// What a branch to a label takes.
pub fn taken(opener: Opener, result_type: BlockType) -> BlockType
    ensures { types_of result ≡ taken_by opener result_type }
{
    match opener {
        Opener::Loop => None,
        _ => result_type,
    }
}

/// Why a body is refused: at the first place that isn't typable, or for want of memory.
#[derive(Clone, Copy, PartialEq, Eq)]
pub(crate) enum BodyFault {
    At(usize),
    NoMemory,
}

impl<'a> Walk<'a> {
    /// The walk before the first place. The error is want of memory.
    fn new(checker: Checker<'a>) -> Result<Self, Refusal>
        requires { IsNumbered (body_of checker) }
        ensures first { Finds result (Some (first_walked checker.entry.result (code_of (body_of checker.entry)))) walked_of }
        ensures checker { IfOk result (λ walk. walk.checker ≡ checker.entry) }
    {
        let sequences = checker.body.sequences.as_slice();
        let last = sequences.len() - 1;
        let mut walk = Walk {
            checker,
            operands: Operands::new(checker.alloc),
            opened: Vec::new(checker.alloc),
            sequence: last,
            index: sequences[last].len(),
        };
        walk.begin(Opener::Body, checker.result, None, last)?;
        Ok(walk)
    }

    /// What is open with this many others inside it. It is read by its place, since `nth` of an iterator goes through those before it.
    fn open_at(&self, index: u32) -> Result<&Open, Refusal>
        ensures { Finds result (slice_get (reverse self.now.opened.items) index) (λ opened. opened.now) }
    {
        let at = self.opened.len().checked_sub(index as usize + 1);
        Ok(&self.opened[at.ok_or(Refusal::IllTyped)?])
    }

    /// What a branch to the label of an index takes.
    fn label(&self, index: u32) -> Result<BlockType, Refusal>
        ensures { Finds result (slice_get (map taken_in (around_in self.now)) index) types_of }
    {
        let open = self.open_at(index)?;
        Ok(taken(open.opener, open.result))
    }

    /// Begins a sequence over the operands that are there.
    fn begin(
        &mut self,
        opener: Opener,
        result_type: BlockType,
        other: Option<usize>,
        inner: usize,
    ) -> Result<(), Refusal>
        ensures begun { Finds result
            (Some (opened opener result_type (named_if_some (first_code (body_of self.old.checker)) other) (code_at (body_of self.old.checker) self.old.sequence self.old.index)
            (around_in self.old) (code_at (body_of self.old.checker) inner 0) self.old.operands)) (λ _. walked_of self.new) }
        ensures checker { self.new.checker ≡ self.old.checker }
    {
        let empty = Operands::new(self.checker.alloc);
        let below = std::mem::replace(&mut self.operands, empty);
        let open = Open {
            opener,
            result: result_type,
            below,
            other,
            sequence: self.sequence,
            after: self.index,
        };
        self.opened.push(open).map_err(|_| Refusal::NoMemory)?;
        self.sequence = inner;
        self.index = 0;
        Ok(())
    }

    /// Whether the labels of a `br_table` take what its default takes.
    fn all_take(&self, labels: &[u32], taken: BlockType) -> Result<(), Refusal>
        ensures { Decides result (all_take (map taken_in (around_in self.now)) (types_of taken) labels.now) }
    {
        for label in labels {
            if self.label(*label)? != taken {
                return Err(Refusal::IllTyped);
            }
        }
        Ok(())
    }

    /// A branch that may go to several labels (3.3.5, `br_table`).
    fn table(&mut self, first: usize, count: usize, default: u32) -> Result<(), Refusal>
        requires labels { first + count ≤ length (body_of self.old.checker).labels }
        ensures typed { Finds result
            (after_br_table (scope_at (typing_of self.old.checker) (around_in self.old)) (labels_in (body_of self.old.checker).labels first count) default self.old.operands)
            (λ _. self.new.operands) }
        ensures operands { self.new ≡ record self.old { operands = self.new.operands } }
    {
        let taken = self.label(default)?;
        self.operands.pop(ValType::I32)?;
        let body = self.checker.body;
        self.all_take(&body.labels[first..first + count], taken)?;
        self.operands.pop_all(taken)?;
        self.operands.forget();
        Ok(())
    }

    /// The end of a sequence, which is left with its results alone.
    fn finish(&mut self, result_type: BlockType) -> Result<(), Refusal>
        ensures left { Decides result (is_left (types_of result_type) self.old.operands) }
        ensures operands { self.new ≡ record self.old { operands = self.new.operands } }
    {
        self.operands.pop_all(result_type)?;
        if self.operands.is_empty() {
            Ok(())
        } else {
            Err(Refusal::IllTyped)
        }
    }

    /// The end of a sequence after which what is around it goes on.
    fn end(&mut self, top: Open) -> Result<(), Refusal>
        ensures ended { Finds result (ended (around_of (body_of self.old.checker) top) (around_in self.old) self.old.operands) (λ _. walked_of self.new) }
        ensures checker { self.new.checker ≡ self.old.checker }
    {
        self.finish(top.result)?;
        self.operands = top.below;
        self.operands.push_all(top.result)?;
        self.sequence = top.sequence;
        self.index = top.after;
        Ok(())
    }

    /// Begins the `else` of an `if`.
    fn turn(&mut self, top: Open, other: usize) -> Result<(), Refusal>
        ensures turned { Finds result
            (turned (around_of (body_of self.old.checker) top) (first_code (body_of self.old.checker) other) (around_in self.old) self.old.operands) (λ _. walked_of self.new) }
        ensures checker { self.new.checker ≡ self.old.checker }
    {
        self.finish(top.result)?;
        let new = Open {
            opener: Opener::Else,
            other: None,
            ..top
        };
        self.begin_within(new, other)
    }

    /// Begins a sequence within what is open from now on.
    fn begin_within(&mut self, new: Open, inner: usize) -> Result<(), Refusal>
        ensures begun { Finds result
            (Some (walked nothing (around_of (body_of self.old.checker) new ∷ around_in self.old) (first_code (body_of self.old.checker) inner))) (λ _. walked_of self.new) }
        ensures checker { self.new.checker ≡ self.old.checker }
    {
        self.operands = Operands::new(self.checker.alloc);
        self.opened.push(new).map_err(|_| Refusal::NoMemory)?;
        self.sequence = inner;
        self.index = 0;
        Ok(())
    }

    /// The end of the first sequence of an `if`.
    fn end_of_then(&mut self, top: Open) -> Result<(), Refusal>
        ensures closed { Finds result
            (then_ended (around_of (body_of self.old.checker) top).other (around_of (body_of self.old.checker) top) (around_in self.old) self.old.operands) (λ _. walked_of self.new) }
        ensures checker { self.new.checker ≡ self.old.checker }
    {
        match top.other {
            Some(other) => self.turn(top, other),
            None if top.result.is_none() => self.end(top),
            None => Err(Refusal::IllTyped),
        }
    }

    /// The end of the innermost sequence: its `else` begins where one is to come, and otherwise what is around it goes on.
    fn close(&mut self) -> Result<(), Refusal>
        requires { 0 < length self.old.opened.items }
        ensures closed { Finds result (closed (around_in self.old) self.old.operands) (λ _. walked_of self.new) }
        ensures checker { self.new.checker ≡ self.old.checker }
    {
        let top = self.opened.pop().unwrap();
        match top.opener {
            Opener::Then => self.end_of_then(top),
            _ => self.end(top),
        }
    }

    fn branch(&mut self, label: u32) -> Result<(), Refusal>
        ensures typed { Finds result (after_br (scope_at (typing_of self.old.checker) (around_in self.old)) label self.old.operands) (λ _. self.new.operands) }
        ensures operands { self.new ≡ record self.old { operands = self.new.operands } }
    {
        let taken = self.label(label)?;
        self.operands.pop_all(taken)?;
        self.operands.forget();
        Ok(())
    }

    fn branch_if(&mut self, label: u32) -> Result<(), Refusal>
        ensures typed { Finds result (after_br_if (scope_at (typing_of self.old.checker) (around_in self.old)) label self.old.operands) (λ _. self.new.operands) }
        ensures operands { self.new ≡ record self.old { operands = self.new.operands } }
    {
        let taken = self.label(label)?;
        self.operands.pop(ValType::I32)?;
        self.operands.pop_all(taken)?;
        self.operands.push_all(taken)
    }

    fn begin_if(
        &mut self,
        result_type: BlockType,
        then_body: usize,
        else_body: Option<usize>,
    ) -> Result<(), Refusal>
        ensures begun { Finds result
            (option_map (opened Opener.Then result_type (named_if_some (first_code (body_of self.old.checker)) else_body) (code_at (body_of self.old.checker) self.old.sequence self.old.index)
            (around_in self.old) (first_code (body_of self.old.checker) then_body)) (popped I32 self.old.operands)) (λ _. walked_of self.new) }
        ensures checker { self.new.checker ≡ self.old.checker }
    {
        self.operands.pop(ValType::I32)?;
        self.begin(Opener::Then, result_type, else_body, then_body)
    }

    /// An instruction, whose index is that of the walk less one.
    fn perform(&mut self, instr: Instr) -> Result<(), Refusal>
        requires types { HaveTypes self.old.checker.«module».now }
        requires memory { IsTrue self.old.checker.has_memory ↔ (1 ≤ (outside_of self.old.checker.«module».now).memories) }
        requires names { (n : ℕ) × NamesBelow (length (body_of self.old.checker).labels) n instr }
        ensures performed { Finds result (performed self.old instr) (λ _. walked_of self.new) }
        ensures checker { self.new.checker ≡ self.old.checker }
    {
        let checker = self.checker;
        match instr {
            Instr::Op(op) => checker.operator(op, &mut self.operands),
            Instr::Unreachable => {
                self.operands.forget();
                Ok(())
            }
            Instr::Block { result, body } => self.begin(Opener::Block, result, None, body),
            Instr::Loop { result, body } => self.begin(Opener::Loop, result, None, body),
            Instr::If {
                result,
                then_body,
                else_body,
            } => self.begin_if(result, then_body, else_body),
            Instr::Br(label) => self.branch(label),
            Instr::BrIf(label) => self.branch_if(label),
            Instr::BrTable {
                first,
                count,
                default,
            } => self.table(first, count, default),
            Instr::Return => {
                self.operands.pop_all(checker.result)?;
                self.operands.forget();
                Ok(())
            }
            Instr::Call(index) => checker.call(index, &mut self.operands),
        }
    }

    /// One place more.
    fn advance(&mut self) -> Result<(), Refusal>
        requires types { HaveTypes self.old.checker.«module».now }
        requires memory { IsTrue self.old.checker.has_memory ↔ (1 ≤ (outside_of self.old.checker.«module».now).memories) }
        requires numbered { IsNumbered (body_of self.old.checker) }
        requires opened { 0 < length self.old.opened.items }
        ensures advanced { Finds result (advanced (typing_of self.old.checker) (walked_of self.old)) (λ _. walked_of self.new) }
        ensures checker { self.new.checker ≡ self.old.checker }
    {
        let Some(instr) = instruction_at(self.checker.body, self.sequence, self.index) else {
            return self.close();
        };
        self.index += 1;
        self.perform(instr)
    }
}

/// Whether a body is typed, and otherwise which is the first place refused.
pub(crate) fn check_body(checker: Checker) -> Result<(), BodyFault>
    requires types { HaveTypes checker.«module».now }
    requires memory { IsTrue checker.has_memory ↔ (1 ≤ (outside_of checker.«module».now).memories) }
    requires numbered { IsNumbered (body_of checker) }
    ensures typable { OnOk result (IsTypable (typing_of checker.entry) (tokens_of (code_of (body_of checker.entry)))) }
    ensures refused { (at : ℕ) → result ≡ Err (BodyFault.At at) → IsRefusedAt (typing_of checker.entry) (tokens_of (code_of (body_of checker.entry))) at }
{
    let mut walk = match Walk::new(checker) {
        Ok(walk) => walk,
        Err(_) => return Err(BodyFault::NoMemory),
    };
    let mut at = 0usize;
    while !walk.opened.is_empty() {
        match walk.advance() {
            Ok(()) => at = at.checked_add(1).ok_or(BodyFault::NoMemory)?,
            Err(Refusal::IllTyped) => return Err(BodyFault::At(at)),
            Err(Refusal::NoMemory) => return Err(BodyFault::NoMemory),
        }
    }
    Ok(())
}

/// The instruction at an index of the sequence of a number.
fn instruction_at(body: &Body, sequence: usize, index: usize) -> Option<Instr>
    ensures found { result ≡ slice_get (sequence_at (sequences_of body.now) sequence) index }
    ensures within { OnSome result (index < 2 ^ 64 - 1) }
{
    body.sequences.get(sequence)?.get(index).copied()
}
