//! Whether the octets of a body are typed: its tokens are gone through from the first on, with what is open and the operands that are known
//! (WebAssembly Core Specification 1.0, appendix "Validation Algorithm"). Nothing recurses, and of the body nothing is kept.

ghost use Rattle.std.specs.Prelude.{◌≡◌, ℕ, ◌<◌, List, [], ◌∷◌, map, take, reverse, length, Some, None, Ok, Err, OnOk, IfOk, slice_get};
ghost use Rattle.std.specs.Option.{option_map};
ghost use Rattle.qw_octet_grammar.specs.Grammar.{is, after};
ghost use Rattle.qw_octet_grammar.specs.Reading.{read};
ghost use Rattle.qw_octet_grammar.specs.Numbers.{u32 as u32_grammar};
ghost use Rattle.qw_octet_grammar.specs.Vectors.{counted, one_more, vector};
ghost use Rattle.qw_module.specs.declared.instruction.ValType.TheVariants.{I32};
ghost use Rattle.qw_valid.specs.declared.walk.Opener.TheVariants.{Then};
ghost use Rattle.qw_module.specs.Syntax.{Sequences, code_of, done};
ghost use Rattle.qw_module.specs.Places.{branches_by, tokens_of, IsTypable, IsRefusedAt};
ghost use Rattle.qw_module.specs.Typing.{types_of};
ghost use Rattle.qw_binary.specs.Types.{block_type};
ghost use Rattle.qw_binary.specs.Instructions.{simple as simple_grammar, expression};
ghost use Rattle.qw_binary.specs.Inner.Followed.{IsAlone};
ghost use Rattle.qw_valid.specs.Inner.Checking.{nothing, taken_in, are_same, all_take, is_left, walked, first_walked, ended, turned, closed, advanced_by, opened, popped, scope_at, after_br, after_br_if, after_br_table};
ghost use Rattle.qw_valid.specs.Refusals.{Finds, Decides};
ghost use Rattle.qw_scan.specs.Places.{token_of};
ghost use Rattle.qw_scan.specs.Inner.Tables.{typing_of};
ghost use Rattle.qw_scan.specs.Inner.Tokens.{token};
ghost use Rattle.qw_scan.specs.Inner.Stepping.{alone, else_around, walks};
ghost use Rattle.qw_scan.specs.Inner.Walking.{round_of, rounds, around_in, walked_of};
ghost use Rattle.qw_scan.specs.Inner.Answering.{Steps};

use crate::expression::behind_number_vector;
use crate::scope::Scope;
use crate::stack::Stack;
use qw_binary::read::instruction::simple_at;
use qw_binary::read::types::block_type_at;
use qw_module::instruction::{BlockType, Instr, ValType};
use qw_octet_grammar::numbers::u32_at;
use qw_valid::operands::Refusal;
use qw_valid::walk::{Opener, taken};
use std::alloc::Global;

/// What was begun and not ended yet.
#[derive(Clone, Copy)]
pub(crate) struct Frame {
    pub(crate) opener: Opener,
    pub(crate) result: BlockType,
    /// How many operands are below those of the sequence round it.
    pub(crate) height: u32,
    /// Whether any others may lie there.
    pub(crate) unreachable: bool,
}

/// Whether two labels take the same.
fn are_alike(found: BlockType, taken: BlockType) -> bool
    ensures { result ≡ are_same (types_of found) (types_of taken) }
{
    match (found, taken) {
        (None, None) => true,
        (Some(ty), Some(other)) if ty == other => true,
        _ => false,
    }
}

/// Where the check of a body is.
#[derive(Drop)]
pub(crate) struct Walk<'a> {
    scope: Scope<'a>,
    stack: Stack,
    frames: Vec<Frame>,
}

impl<'a> Walk<'a> {
    /// The walk before the first place. The error is want of memory.
    fn new(alloc: Global, scope: Scope<'a>, deepest: usize) -> Result<Self, Refusal>
        ensures first { Finds result (Some (walked nothing (first_walked scope.entry.result done).around done)) walked_of }
        ensures scope { IfOk result (λ walk. walk.scope ≡ scope.entry) }
    {
        let room = deepest.checked_add(1).ok_or(Refusal::NoMemory)?;
        let mut frames = Vec::with_capacity(alloc, room).map_err(|_| Refusal::NoMemory)?;
        let frame = Frame {
            opener: Opener::Body,
            result: scope.result,
            height: 0,
            unreachable: false,
        };
        frames.push(frame).map_err(|_| Refusal::NoMemory)?;
        Ok(Walk {
            scope,
            stack: Stack::new(alloc),
            frames,
        })
    }

    /// What is open with this many others inside it. It is read by its place, since `nth` of an iterator goes through those before it.
    fn frame_at(&self, index: u32) -> Result<Frame, Refusal>
        ensures { Finds result (slice_get (reverse self.now.frames.items) index) (λ frame. frame) }
    {
        let at = self.frames.len().checked_sub(index as usize + 1);
        Ok(self.frames[at.ok_or(Refusal::IllTyped)?])
    }

    /// What a branch to the label of an index takes.
    #[tactic(auto, using(crate::proofs::Rounds::labels_of_rounds))]
    fn label(&self, index: u32) -> Result<BlockType, Refusal>
        ensures { Finds result (slice_get (map taken_in (around_in self.now)) index) types_of }
    {
        let frame = self.frame_at(index)?;
        Ok(taken(frame.opener, frame.result))
    }

    /// Begins a sequence over the operands that are there.
    fn begin(&mut self, opener: Opener, result_type: BlockType) -> Result<(), Refusal>
        ensures begun { Finds result (Some (opened opener result_type None done (around_in self.old) done self.old.stack.known)) (λ _. walked_of self.new) }
        ensures scope { self.new.scope ≡ self.old.scope }
    {
        let (height, unreachable) = self.stack.enter();
        let frame = Frame {
            opener,
            result: result_type,
            height: u32::try_from(height).map_err(|_| Refusal::NoMemory)?,
            unreachable,
        };
        self.frames.push(frame).map_err(|_| Refusal::NoMemory)
    }

    /// The end of a sequence, which is left with its results alone.
    fn finish(&mut self, result_type: BlockType) -> Result<(), Refusal>
        ensures left { Decides result (is_left (types_of result_type) self.old.stack.known) }
        ensures below { self.new.stack.below ≡ self.old.stack.below }
        ensures stack { self.new ≡ record self.old { stack = self.new.stack } }
    {
        self.stack.pop_all(result_type)?;
        if self.stack.is_empty() {
            Ok(())
        } else {
            Err(Refusal::IllTyped)
        }
    }

    /// The end of a sequence after which what is round it goes on.
    fn end(&mut self, top: Frame) -> Result<(), Refusal>
        ensures ended { Finds result
            (ended (round_of self.old.stack.below top) (rounds (take top.height self.old.stack.below) (reverse self.old.frames.items)) self.old.stack.known) (λ _. walked_of self.new) }
        ensures scope { self.new.scope ≡ self.old.scope }
    {
        self.finish(top.result)?;
        self.stack.leave(top.height as usize, top.unreachable);
        self.stack.push_all(top.result)
    }

    /// Begins the `else` of an `if`.
    fn turn(&mut self, top: Frame) -> Result<(), Refusal>
        ensures turned { Finds result
            (turned (round_of self.old.stack.below top) done (rounds (take top.height self.old.stack.below) (reverse self.old.frames.items)) self.old.stack.known) (λ _. walked_of self.new) }
        ensures scope { self.new.scope ≡ self.old.scope }
    {
        self.finish(top.result)?;
        self.stack.restart();
        let frame = Frame {
            opener: Opener::Else,
            ..top
        };
        self.frames.push(frame).map_err(|_| Refusal::NoMemory)
    }

    /// An end.
    fn close(&mut self) -> Result<(), Refusal>
        requires { 0 < length self.old.frames.items }
        ensures closed { Finds result (closed (around_in self.old) self.old.stack.known) (λ _. walked_of self.new) }
        ensures scope { self.new.scope ≡ self.old.scope }
    {
        let top = self.frames.pop().unwrap();
        match top.opener {
            Opener::Then if top.result.is_some() => Err(Refusal::IllTyped),
            _ => self.end(top),
        }
    }

    /// An `else`.
    fn otherwise(&mut self) -> Result<(), Refusal>
        requires { 0 < length self.old.frames.items }
        ensures turned { Finds result (else_around (around_in self.old) self.old.stack.known) (λ _. walked_of self.new) }
        ensures scope { self.new.scope ≡ self.old.scope }
    {
        let top = self.frames.pop().unwrap();
        match top.opener {
            Opener::Then => self.turn(top),
            _ => Err(Refusal::IllTyped),
        }
    }

    fn branch(&mut self, label: u32) -> Result<(), Refusal>
        ensures typed { Finds result (after_br (scope_at (typing_of self.old.scope) (around_in self.old)) label self.old.stack.known) (λ _. self.new.stack.known) }
        ensures below { self.new.stack.below ≡ self.old.stack.below }
        ensures stack { self.new ≡ record self.old { stack = self.new.stack } }
    {
        let taken = self.label(label)?;
        self.stack.pop_all(taken)?;
        self.stack.forget();
        Ok(())
    }

    fn branch_if(&mut self, label: u32) -> Result<(), Refusal>
        ensures typed { Finds result (after_br_if (scope_at (typing_of self.old.scope) (around_in self.old)) label self.old.stack.known) (λ _. self.new.stack.known) }
        ensures below { self.new.stack.below ≡ self.old.stack.below }
        ensures stack { self.new ≡ record self.old { stack = self.new.stack } }
    {
        let taken = self.label(label)?;
        self.stack.pop(ValType::I32)?;
        self.stack.pop_all(taken)?;
        self.stack.push_all(taken)
    }

    /// Whether the labels that so many numbers are take what the default of their `br_table` takes.
    fn each_takes(&self, count: u32, octets: &[u8], taken: BlockType) -> Result<(), Refusal>
        ensures { (labels mid : List ℕ) → read (counted count (one_more u32_grammar) []) octets.now ≡ Ok (labels, mid) →
            Decides result (all_take (map taken_in (around_in self.now)) (types_of taken) labels) }
    {
        let mut rest = octets;
        for _ in 0..count {
            let Ok((label, after)) = u32_at(rest) else {
                return Err(Refusal::NoMemory);
            };
            let found = self.label(label)?;
            if are_alike(found, taken) {
                rest = after;
            } else {
                return Err(Refusal::IllTyped);
            }
        }
        Ok(())
    }

    /// Whether the labels of a `br_table` take what its default takes.
    fn all_take(&self, octets: &[u8], taken: BlockType) -> Result<(), Refusal>
        ensures { (labels mid : List ℕ) → read (vector u32_grammar) octets.now ≡ Ok (labels, mid) →
            Decides result (all_take (map taken_in (around_in self.now)) (types_of taken) labels) }
    {
        let Ok((count, rest)) = u32_at(octets) else {
            return Err(Refusal::NoMemory);
        };
        self.each_takes(count, rest, taken)
    }

    /// A branch that may go to several labels (3.3.5, `br_table`), which are read again from its octets.
    fn table(&mut self, octets: &[u8], default: u32) -> Result<(), Refusal>
        ensures typed { (labels mid : List ℕ) → read (vector u32_grammar) octets.now ≡ Ok (labels, mid) →
            Finds result (after_br_table (scope_at (typing_of self.old.scope) (around_in self.old)) labels default self.old.stack.known) (λ _. self.new.stack.known) }
        ensures below { self.new.stack.below ≡ self.old.stack.below }
        ensures stack { self.new ≡ record self.old { stack = self.new.stack } }
    {
        let taken = self.label(default)?;
        self.stack.pop(ValType::I32)?;
        self.all_take(octets, taken)?;
        self.stack.pop_all(taken)?;
        self.stack.forget();
        Ok(())
    }

    /// An instruction that holds no sequence, and is no `br_table`.
    fn perform(&mut self, instr: Instr) -> Result<(), Refusal>
        requires { IsAlone instr }
        ensures performed { Finds result (advanced_by (typing_of self.old.scope) (alone (token_of instr)) self.old.stack.known (around_in self.old)) (λ _. walked_of self.new) }
        ensures scope { self.new.scope ≡ self.old.scope }
    {
        match instr {
            Instr::Op(op) => self.scope.operator(op, &mut self.stack),
            Instr::Unreachable => {
                self.stack.forget();
                Ok(())
            }
            Instr::Br(label) => self.branch(label),
            Instr::BrIf(label) => self.branch_if(label),
            Instr::Return => {
                self.stack.pop_all(self.scope.result)?;
                self.stack.forget();
                Ok(())
            }
            Instr::Call(index) => self.scope.call(index, &mut self.stack),
            Instr::Block { .. } | Instr::Loop { .. } | Instr::If { .. } | Instr::BrTable { .. } => {
                Err(Refusal::NoMemory)
            }
        }
    }

    /// A sequence that its type begins.
    fn open<'b>(&mut self, opener: Opener, octets: &'b [u8]) -> Result<&'b [u8], Refusal>
        ensures opened { Steps (λ type. Some (opened opener type None done (around_in self.old) done self.old.stack.known)) (λ rest. (walked_of self.new, rest.now)) result
            (read block_type octets.now) }
        ensures scope { self.new.scope ≡ self.old.scope }
    {
        let Ok((ty, rest)) = block_type_at(octets) else {
            return Err(Refusal::NoMemory);
        };
        self.begin(opener, ty)?;
        Ok(rest)
    }

    /// The first sequence of an `if`, which its type begins.
    fn open_if<'b>(&mut self, octets: &'b [u8]) -> Result<&'b [u8], Refusal>
        ensures opened { Steps (λ type. option_map (opened Then type None done (around_in self.old) done) (popped I32 self.old.stack.known)) (λ rest. (walked_of self.new, rest.now)) result
            (read block_type octets.now) }
        ensures scope { self.new.scope ≡ self.old.scope }
    {
        let Ok((ty, rest)) = block_type_at(octets) else {
            return Err(Refusal::NoMemory);
        };
        self.stack.pop(ValType::I32)?;
        self.begin(Opener::Then, ty)?;
        Ok(rest)
    }

    /// A `br_table`.
    fn table_at<'b>(&mut self, octets: &'b [u8]) -> Result<&'b [u8], Refusal>
        ensures typed { Steps (λ t. walks (typing_of self.old.scope) t self.old.stack.known (around_in self.old)) (λ rest. (walked_of self.new, rest.now)) result
            (read (after (vector u32_grammar) (λ labels. after u32_grammar (λ default. is (branches_by labels default)))) octets.now) }
        ensures scope { self.new.scope ≡ self.old.scope }
    {
        let Ok(behind) = behind_number_vector(octets) else {
            return Err(Refusal::NoMemory);
        };
        let Ok((default, rest)) = u32_at(behind) else {
            return Err(Refusal::NoMemory);
        };
        self.table(octets, default)?;
        Ok(rest)
    }

    /// Any other instruction.
    fn simple<'b>(&mut self, code: u8, octets: &'b [u8]) -> Result<&'b [u8], Refusal>
        ensures typed { Steps (λ instr. advanced_by (typing_of self.old.scope) (alone (token_of instr)) self.old.stack.known (around_in self.old)) (λ rest. (walked_of self.new, rest.now)) result
            (read (simple_grammar code) octets.now) }
        ensures scope { self.new.scope ≡ self.old.scope }
    {
        let Ok((instr, rest)) = simple_at(code, octets) else {
            return Err(Refusal::NoMemory);
        };
        self.perform(instr)?;
        Ok(rest)
    }

    /// What stands behind a code.
    fn step<'b>(&mut self, code: u8, octets: &'b [u8]) -> Result<&'b [u8], Refusal>
        requires { 0 < length self.old.frames.items }
        ensures stepped { Steps (λ t. walks (typing_of self.old.scope) t self.old.stack.known (around_in self.old)) (λ rest. (walked_of self.new, rest.now)) result (read (token code) octets.now) }
        ensures scope { self.new.scope ≡ self.old.scope }
    {
        match code {
            0x0B => {
                self.close()?;
                Ok(octets)
            }
            0x05 => {
                self.otherwise()?;
                Ok(octets)
            }
            0x02 => self.open(Opener::Block, octets),
            0x03 => self.open(Opener::Loop, octets),
            0x04 => self.open_if(octets),
            0x0E => self.table_at(octets),
            _ => self.simple(code, octets),
        }
    }
}

/// Why a body is refused: at the first place that isn't typable, or for want of memory.
#[derive(Clone, Copy, PartialEq, Eq)]
pub enum BodyFault {
    At(usize),
    NoMemory,
}

/// Whether the body that octets begin with is typed, and otherwise which is the first place refused. So many sequences are open in it at most
/// within its outermost one.
pub fn check_body(
    alloc: Global,
    scope: Scope,
    deepest: usize,
    octets: &[u8],
) -> Result<(), BodyFault>
    ensures typable { (body : Sequences) (behind : List ℕ) → read expression octets.now ≡ Ok (body, behind) → OnOk result (IsTypable (typing_of scope.entry) (tokens_of (code_of body))) }
    ensures refused { (body : Sequences) (behind : List ℕ) → read expression octets.now ≡ Ok (body, behind) →
        (at : ℕ) → result ≡ Err (BodyFault.At at) → IsRefusedAt (typing_of scope.entry) (tokens_of (code_of body)) at }
{
    let Ok(mut walk) = Walk::new(alloc, scope, deepest) else {
        return Err(BodyFault::NoMemory);
    };
    let mut rest = octets;
    // An instruction takes an octet at least.
    for at in 0..octets.len() + 1 {
        if walk.frames.is_empty() {
            return Ok(());
        }
        let [code, behind @ ..] = rest else {
            return Err(BodyFault::NoMemory);
        };
        match walk.step(*code, behind) {
            Ok(after) => rest = after,
            Err(Refusal::IllTyped) => return Err(BodyFault::At(at)),
            Err(Refusal::NoMemory) => return Err(BodyFault::NoMemory),
        }
    }
    Err(BodyFault::NoMemory)
}
