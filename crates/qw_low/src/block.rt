//! Blocks of Low, and how each statement is composed of its parts.

ghost use Rattle.std.specs.Prelude.{◌≡◌, [], ◌∷◌, ◌++◌, OnOk};
ghost use Rattle.qw_low.specs.Syntax.{Expression, Statement, assign, load, store, conditional, while, request, raise, exit};
ghost use Rattle.qw_low.specs.Translation.{unaligned};
ghost use Rattle.qw_low.specs.Steps.{expression_steps, steps_of};

use crate::step::LowStep;
use qw_module::instruction::{Binary, Const, Load, MemArg, Op, REFUSAL, Relation, Store, ValType};
use qw_types::NoMemory;
use std::alloc::Global;

/// The octets of a page (WebAssembly Core Specification 1.0, 4.2.8).
const PAGE: u32 = 65_536;

/// An access so many octets behind its address, with no hint of its alignment.
fn access_at(offset: u32) -> MemArg
    ensures { result ≡ unaligned offset }
{
    MemArg { align: 0, offset }
}

/// A block: the steps of an expression or of a statement, one after another. Each call below adds the steps of one statement
/// to those that are there, so the block becomes the two statements in sequence.
#[derive(Drop)]
pub struct Block {
    /// The steps, in order.
    pub code: Vec<LowStep>,
}

impl Block {
    /// The block that does nothing.
    pub fn new(alloc: Global) -> Block
        ensures { result.code.items ≡ [] }
    {
        Block {
            code: Vec::new(alloc),
        }
    }

    /// Adds one step.
    pub fn push(&mut self, step: LowStep) -> Result<(), NoMemory>
        ensures { OnOk result (self.new.code.items ≡ self.old.code.items ++ step ∷ []) }
    {
        self.code.push(step)?;
        Ok(())
    }

    /// Adds another block.
    pub fn append(&mut self, next: &Block) -> Result<(), NoMemory>
        ensures { OnOk result (self.new.code.items ≡ self.old.code.items ++ next.now.code.items) }
    {
        self.code.extend_from_slice(&next.code)?;
        Ok(())
    }

    /// Adds an assignment of an expression to a local.
    pub fn assign(&mut self, to: u32, value: &Block) -> Result<(), NoMemory>
        ensures { OnOk result ((e : Expression) → value.now.code.items ≡ expression_steps e →
            self.new.code.items ≡ self.old.code.items ++ steps_of (assign to e)) }
    {
        self.append(value)?;
        self.push(LowStep::Op(Op::LocalSet(to)))
    }

    /// Adds a load into a local, from so many octets behind an address.
    pub fn load(
        &mut self,
        to: u32,
        kind: Load,
        offset: u32,
        address: &Block,
    ) -> Result<(), NoMemory>
        ensures { OnOk result ((a : Expression) → address.now.code.items ≡ expression_steps a →
            self.new.code.items ≡ self.old.code.items ++ steps_of (load to kind offset a)) }
    {
        self.append(address)?;
        self.push(LowStep::Op(Op::Load(kind, access_at(offset))))?;
        self.push(LowStep::Op(Op::LocalSet(to)))
    }

    /// Adds a store of an expression, so many octets behind an address.
    pub fn store(
        &mut self,
        kind: Store,
        offset: u32,
        address: &Block,
        value: &Block,
    ) -> Result<(), NoMemory>
        ensures { OnOk result ((a e : Expression) → address.now.code.items ≡ expression_steps a → value.now.code.items ≡ expression_steps e →
            self.new.code.items ≡ self.old.code.items ++ steps_of (store kind offset a e)) }
    {
        self.append(address)?;
        self.append(value)?;
        self.push(LowStep::Op(Op::Store(kind, access_at(offset))))
    }

    /// Adds a choice: `first`, unless the value of `test` is 0, and else `second`.
    pub fn choose(&mut self, test: &Block, first: &Block, second: &Block) -> Result<(), NoMemory>
        ensures { OnOk result ((e : Expression) (a b : Statement) → test.now.code.items ≡ expression_steps e →
            first.now.code.items ≡ steps_of a → second.now.code.items ≡ steps_of b →
            self.new.code.items ≡ self.old.code.items ++ steps_of (conditional e a b)) }
    {
        self.append(test)?;
        self.push(LowStep::If)?;
        self.append(first)?;
        self.push(LowStep::Else)?;
        self.append(second)?;
        self.push(LowStep::End)
    }

    /// Adds a loop: `body`, as long as the value of `test` is not 0. The test stands before the loop and at the end of each turn, so that a
    /// turn has one branch.
    pub fn repeat(&mut self, test: &Block, body: &Block) -> Result<(), NoMemory>
        ensures { OnOk result ((e : Expression) (a : Statement) → test.now.code.items ≡ expression_steps e → body.now.code.items ≡ steps_of a →
            self.new.code.items ≡ self.old.code.items ++ steps_of (while e a)) }
    {
        self.append(test)?;
        self.code.extend_from_slice(&[LowStep::If, LowStep::Loop])?;
        self.append(body)?;
        self.append(test)?;
        self.code
            .extend_from_slice(&[LowStep::Again, LowStep::End, LowStep::End])?;
        Ok(())
    }

    /// Adds a request for so many pages, whose address comes into a local; where it is refused, 3 is raised.
    pub fn request(&mut self, pages: &Block, to: u32) -> Result<(), NoMemory>
        ensures { OnOk result ((e : Expression) → pages.now.code.items ≡ expression_steps e →
            self.new.code.items ≡ self.old.code.items ++ steps_of (request e to)) }
    {
        self.append(pages)?;
        self.code.extend_from_slice(&[
            LowStep::Ask,
            LowStep::Op(Op::LocalTee(to)),
            LowStep::Op(Op::Const(Const::I32(REFUSAL))),
            LowStep::Op(Op::Relation(ValType::I32, Relation::Eq)),
            LowStep::If,
            LowStep::Raise(3),
            LowStep::End,
            LowStep::Op(Op::LocalGet(to)),
            LowStep::Op(Op::Const(Const::I32(PAGE))),
            LowStep::Op(Op::Binary(ValType::I32, Binary::Mul)),
            LowStep::Op(Op::LocalSet(to)),
        ])?;
        Ok(())
    }

    /// Adds the raise of an exception's code, 1 or 2.
    pub fn raise(&mut self, code: u32) -> Result<(), NoMemory>
        ensures { OnOk result (self.new.code.items ≡ self.old.code.items ++ steps_of (raise code)) }
    {
        self.push(LowStep::Raise(code))
    }

    /// Adds the end of the run.
    pub fn exit(&mut self) -> Result<(), NoMemory>
        ensures { OnOk result (self.new.code.items ≡ self.old.code.items ++ steps_of exit) }
    {
        self.push(LowStep::Exit)
    }
}
