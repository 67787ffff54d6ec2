//! Comparisons of texts (ISO/IEC 9075:1992, 8.2), by their octets: a text is less than each longer one that begins with it; and LIKE (8.5).

ghost use Rattle.std.specs.Prelude.{◌≡◌, ◌+◌, ◌<◌, ◌^◌, ◌++◌, List, Some, IfOk, OnOk, ◌≤◌, length};
ghost use Rattle.qw_types.specs.declared.kind.Kind.TheVariants as kind;
ghost use Rattle.qw_scalar.specs.Expression.{Expression, comparison};
ghost use Rattle.qw_scalar.specs.Typing.{AreTyped, kind_of};
ghost use Rattle.qw_module.specs.declared.instruction.ValType.TheVariants.{I32};
ghost use Rattle.qw_low.specs.Syntax.{Statement, assign, is_zero, local};
ghost use Rattle.qw_low.specs.Steps.{steps_of};
ghost use Rattle.qw_text.specs.Likes.{like_types};
ghost use Rattle.qw_text.specs.Texts.{own_types};
ghost use Rattle.qw_wide.specs.Inner.Blocks.{zero_test};
ghost use Rattle.qw_expr.specs.declared.emitter.Emitter.{Emitter};
ghost use Rattle.qw_expr.specs.Cells.{IsBelow};
ghost use Rattle.qw_expr.specs.Computes.{Known, AreBelow};
ghost use Rattle.qw_expr.specs.Emits.{Emits, EmitsTruth, comparing, extent, free_of};
ghost use Rattle.qw_expr.specs.Inner.Texts.{AddsTexts, TakesOwn, TakesTexts, TestsTexts, texts_own, texts_steps};

use crate::emitter::Emitter;
use crate::operand::Operand;
use qw_low::cell::{Cell, Local};
use qw_low::step::LowStep;
use qw_module::instruction::{Const, Op, ValType};
use qw_scalar::comparison::Comparison;
use qw_text::equality::emit_text_eq;
use qw_text::like::emit_like;
use qw_text::order::emit_text_order;
use qw_types::NoMemory;
use qw_wide::order::relation_of;

/// The locals of a comparison of texts.
#[derive(Clone, Copy)]
struct TextLocals {
    null: Local,
    truth: Local,
    free: Local,
}

impl Emitter {
    /// Takes the locals that the blocks of an equality and of an order call their own, and tells the first.
    fn order_locals(&mut self) -> Result<Local, NoMemory>
        ensures locals { IfOk result (λ free. TakesOwn own_types self.old self.new free) }
        ensures short { OnOk result (extent self.new ≤ extent self.old + 4) }
    {
        let free = self.fresh(ValType::I32)?;
        let _count = self.fresh(ValType::I32)?;
        let _left = self.fresh(ValType::I64)?;
        let _right = self.fresh(ValType::I64)?;
        Ok(free)
    }

    /// Takes those of a block that matches a text with a pattern.
    fn like_locals(&mut self) -> Result<Local, NoMemory>
        ensures locals { IfOk result (λ free. TakesOwn like_types self.old self.new free) }
        ensures short { OnOk result (extent self.new ≤ extent self.old + 8) }
    {
        let free = self.fresh(ValType::I32)?;
        let _text = self.fresh(ValType::I32)?;
        let _pattern = self.fresh(ValType::I32)?;
        let _text_behind = self.fresh(ValType::I32)?;
        let _pattern_behind = self.fresh(ValType::I32)?;
        let _wanted = self.fresh(ValType::I32)?;
        let _octet = self.fresh(ValType::I32)?;
        let _within = self.fresh(ValType::I32)?;
        Ok(free)
    }

    /// Takes the locals of a comparison: the block's own ones begin at `free`.
    fn text_locals(&mut self, operator: Comparison) -> Result<TextLocals, NoMemory>
        ensures locals { IfOk result (λ locals. TakesTexts operator self.old self.new locals) }
        ensures short { OnOk result (extent self.new ≤ extent self.old + (2 + length (texts_own operator))) }
    {
        let null = self.fresh(ValType::I32)?;
        let truth = self.fresh(ValType::I32)?;
        let free = match operator {
            Comparison::Like | Comparison::NotLike => self.like_locals()?,
            Comparison::Equal
            | Comparison::NotEqual
            | Comparison::Less
            | Comparison::LessOrEqual
            | Comparison::Greater
            | Comparison::GreaterOrEqual => self.order_locals()?,
        };
        Ok(TextLocals { null, truth, free })
    }

    /// Adds a copy of an answer.
    fn copy_answer(&mut self, from: Local, t: Local) -> Result<(), NoMemory>
        ensures code { OnOk result (self.new.block.code.items ≡ self.old.block.code.items ++ steps_of (assign t (local from))) }
        ensures same { OnOk result ((self.new.first ≡ self.old.first) × (self.new.own.items ≡ self.old.own.items)) }
        ensures short { OnOk result (extent self.new ≤ extent self.old + 2) }
    {
        self.block.code.extend_from_slice(&[
            LowStep::Op(Op::LocalGet(from)),
            LowStep::Op(Op::LocalSet(t)),
        ])?;
        Ok(())
    }

    /// Adds the opposite of an answer.
    fn copy_opposite(&mut self, from: Local, t: Local) -> Result<(), NoMemory>
        ensures code { OnOk result (self.new.block.code.items ≡ self.old.block.code.items ++ steps_of (assign t (is_zero I32 (local from)))) }
        ensures same { OnOk result ((self.new.first ≡ self.old.first) × (self.new.own.items ≡ self.old.own.items)) }
        ensures short { OnOk result (extent self.new ≤ extent self.old + 3) }
    {
        self.block.code.extend_from_slice(&[
            LowStep::Op(Op::LocalGet(from)),
            LowStep::Op(Op::Eqz(ValType::I32)),
            LowStep::Op(Op::LocalSet(t)),
        ])?;
        Ok(())
    }

    /// Adds the test of a number against 0.
    fn test_zero(&mut self, operator: Comparison, n: Local, t: Local) -> Result<(), NoMemory>
        ensures code { OnOk result (self.new.block.code.items ≡ self.old.block.code.items ++ steps_of (assign t (zero_test operator n))) }
        ensures same { OnOk result ((self.new.first ≡ self.old.first) × (self.new.own.items ≡ self.old.own.items)) }
        ensures short { OnOk result (extent self.new ≤ extent self.old + 4) }
    {
        self.block.code.extend_from_slice(&[
            LowStep::Op(Op::LocalGet(n)),
            LowStep::Op(Op::Const(Const::I64(0))),
            LowStep::Op(Op::Relation(ValType::I64, relation_of(operator))),
            LowStep::Op(Op::LocalSet(t)),
        ])?;
        Ok(())
    }

    /// Adds whether two texts compare so, or the left one matches the right one.
    fn text_test(
        &mut self,
        operator: Comparison,
        left: Cell,
        right: Cell,
        to: TextLocals,
    ) -> Result<(), NoMemory>
        requires left { (left.value < to.free) × (left.length < to.free) }
        requires right { (right.value < to.free) × (right.length < to.free) }
        requires room { to.free + length (texts_own operator) ≤ 2 ^ 32 }
        ensures code { OnOk result ((f : Statement) × (self.new.block.code.items ≡ self.old.block.code.items ++ steps_of f) × TestsTexts operator left right to.free to.truth f) }
        ensures same { OnOk result ((self.new.first ≡ self.old.first) × (self.new.own.items ≡ self.old.own.items)) }
        ensures short { OnOk result (extent self.new ≤ extent self.old + texts_steps operator) }
    {
        match operator {
            Comparison::Equal => {
                let out = emit_text_eq(&mut self.block, left, right, to.free)?;
                self.copy_answer(out, to.truth)?;
            }
            Comparison::NotEqual => {
                let out = emit_text_eq(&mut self.block, left, right, to.free)?;
                self.copy_opposite(out, to.truth)?;
            }
            Comparison::Less
            | Comparison::LessOrEqual
            | Comparison::Greater
            | Comparison::GreaterOrEqual => {
                let out = emit_text_order(&mut self.block, left, right, to.free)?;
                self.test_zero(operator, out, to.truth)?;
            }
            Comparison::Like => {
                let out = emit_like(&mut self.block, left, right, to.free)?;
                self.copy_answer(out, to.truth)?;
            }
            Comparison::NotLike => {
                let out = emit_like(&mut self.block, left, right, to.free)?;
                self.copy_opposite(out, to.truth)?;
            }
        }
        Ok(())
    }

    /// Adds a comparison of two texts, which is unknown where one is null.
    fn text_compared(
        &mut self,
        operator: Comparison,
        left: Cell,
        right: Cell,
    ) -> Result<Cell, NoMemory>
        requires below { IsBelow (free_of self.old) left × IsBelow (free_of self.old) right }
        ensures emits { IfOk result (λ out. AddsTexts operator left right self.old self.new out) }
        ensures short { OnOk result (extent self.new ≤ extent self.old + comparing operator) }
    {
        let to = self.text_locals(operator)?;
        let null = self.join_nulls(to.null, left.null, right.null)?;
        self.begin_zero(null, to.truth)?;
        self.text_test(operator, left, right, to)?;
        self.end_unless(null)?;
        Ok(Cell {
            value: to.truth,
            length: to.truth,
            null,
        })
    }

    /// Adds a comparison of two texts that were emitted before.
    pub fn compare_texts(
        &mut self,
        operator: Comparison,
        left: Operand,
        right: Operand,
    ) -> Result<Cell, NoMemory>
        requires below { IsBelow (free_of self.old) left.cell × IsBelow (free_of self.old) right.cell }
        ensures emits { IfOk result (λ out. (known : List Known) (a b : Expression) (start mid : Emitter) → AreTyped (comparison operator a b) → kind_of a ≡ Some kind.Text → kind_of b ≡ Some kind.Text →
            AreBelow (free_of start) known → Emits known a start mid left → Emits known b mid self.old right → EmitsTruth known (comparison operator a b) start self.new out) }
        ensures short { OnOk result (extent self.new ≤ extent self.old + comparing operator) }
    {
        self.text_compared(operator, left.cell, right.cell)
    }
}
