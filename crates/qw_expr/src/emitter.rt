//! What is emitted so far: the steps of a block, and the types of the locals of its own.

ghost use Rattle.std.specs.Prelude.{◌≡◌, ◌+◌, ◌<◌, ◌^◌, [], ◌∷◌, ◌++◌, length, OnOk, IfOk, ◌≤◌};
ghost use Rattle.qw_expr.specs.Inner.Nulls.{join_block, joined_null, before_unless, after_unless};
ghost use Rattle.qw_low.specs.Steps.{steps_of};
ghost use Rattle.qw_expr.specs.Emits.{extent};
ghost use Rattle.qw_module.specs.declared.instruction.ValType.TheVariants.{I32, I64};

use qw_low::block::Block;
use qw_low::cell::Local;
use qw_low::step::LowStep;
use qw_module::instruction::{Binary, Op, ValType};
use qw_types::NoMemory;
use std::alloc::Global;

/// A block that grows, with the types of its own locals, which begin at the local `first`.
#[derive(Drop)]
pub struct Emitter {
    pub first: Local,
    pub block: Block,
    pub own: Vec<ValType>,
}

impl Emitter {
    /// The block that does nothing, whose own locals begin at a local.
    pub fn new(alloc: Global, first: Local) -> Emitter
        ensures { (result.first ≡ first) × (result.block.code.items ≡ []) × (result.own.items ≡ []) }
    {
        Emitter {
            first,
            block: Block::new(alloc),
            own: Vec::new(alloc),
        }
    }

    /// Takes the next local for its own, of a type. Past the greatest local it answers want of memory.
    pub fn fresh(&mut self, ty: ValType) -> Result<Local, NoMemory>
        ensures local { IfOk result (λ x. (x ≡ self.old.first + length self.old.own.items) × (x < 2 ^ 32)) }
        ensures own { OnOk result (self.new.own.items ≡ self.old.own.items ++ ty ∷ []) }
        ensures same { OnOk result ((self.new.first ≡ self.old.first) × (self.new.block.code.items ≡ self.old.block.code.items)) }
        ensures short { OnOk result (extent self.new ≡ extent self.old + 1) }
    {
        let Ok(count) = u32::try_from(self.own.len()) else {
            return Err(NoMemory);
        };
        let Some(local) = self.first.checked_add(count) else {
            return Err(NoMemory);
        };
        self.own.push(ty)?;
        Ok(local)
    }

    /// Adds the steps that join two null words, in the local `p` where there are two, and tells the local of the joined one.
    pub(crate) fn join_nulls(
        &mut self,
        p: Local,
        left: Option<Local>,
        right: Option<Local>,
    ) -> Result<Option<Local>, NoMemory>
        ensures null { IfOk result (λ null. null ≡ joined_null p left right) }
        ensures code { OnOk result (self.new.block.code.items ≡ self.old.block.code.items ++ steps_of (join_block p left right)) }
        ensures same { OnOk result ((self.new.first ≡ self.old.first) × (self.new.own.items ≡ self.old.own.items)) }
        ensures short { OnOk result (extent self.new ≤ extent self.old + 4) }
    {
        match (left, right) {
            (None, null) => Ok(null),
            (Some(m), None) => Ok(Some(m)),
            (Some(m), Some(n)) => {
                self.block.code.extend_from_slice(&[
                    LowStep::Op(Op::LocalGet(m)),
                    LowStep::Op(Op::LocalGet(n)),
                    LowStep::Op(Op::Binary(ValType::I32, Binary::Or)),
                    LowStep::Op(Op::LocalSet(p)),
                ])?;
                Ok(Some(p))
            }
        }
    }

    /// Begins what is done unless a value is null.
    pub(crate) fn begin_unless(&mut self, null: Option<Local>) -> Result<(), NoMemory>
        ensures code { OnOk result (self.new.block.code.items ≡ self.old.block.code.items ++ before_unless null) }
        ensures same { OnOk result ((self.new.first ≡ self.old.first) × (self.new.own.items ≡ self.old.own.items)) }
        ensures short { OnOk result (extent self.new ≤ extent self.old + 3) }
    {
        if let Some(n) = null {
            self.block.code.extend_from_slice(&[
                LowStep::Op(Op::LocalGet(n)),
                LowStep::If,
                LowStep::Else,
            ])?;
        }
        Ok(())
    }

    /// Ends it.
    pub(crate) fn end_unless(&mut self, null: Option<Local>) -> Result<(), NoMemory>
        ensures code { OnOk result (self.new.block.code.items ≡ self.old.block.code.items ++ after_unless null) }
        ensures same { OnOk result ((self.new.first ≡ self.old.first) × (self.new.own.items ≡ self.old.own.items)) }
        ensures short { OnOk result (extent self.new ≤ extent self.old + 1) }
    {
        if null.is_some() {
            self.block.push(LowStep::End)?;
        }
        Ok(())
    }
}
