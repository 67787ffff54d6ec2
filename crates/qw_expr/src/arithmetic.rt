//! Operators on numbers (ISO/IEC 9075:1992, 6.12). Null operands are tested first, and only where there may be one.

ghost use Rattle.std.specs.Prelude.{◌≡◌, ◌+◌, ◌<◌, ◌≤◌, ◌^◌, ◌++◌, List, neg_ℤ, Ok, IfOk, length, OnOk};
ghost use Rattle.qw_types.specs.Arithmetic.{bring};
ghost use Rattle.qw_scalar.specs.Evaluation.{applied};
ghost use Rattle.qw_scalar.specs.Expression.{Expression, arithmetic, negative, scale_after};
ghost use Rattle.qw_scalar.specs.Typing.{IsTyped, ScalesAllowed};
ghost use Rattle.qw_low.specs.Syntax.{Statement};
ghost use Rattle.qw_low.specs.Steps.{steps_of};
ghost use Rattle.qw_wide.specs.Numbers.{Operates};
ghost use Rattle.qw_expr.specs.Inner.Operated.{number_at, AddsOperator, AddsOperation};
ghost use Rattle.qw_expr.specs.declared.emitter.Emitter.{Emitter};
ghost use Rattle.qw_expr.specs.Computes.{Known, AreBelow};
ghost use Rattle.qw_expr.specs.Emits.{Emits, extent, free_of};

use crate::emitter::Emitter;
use crate::operand::Operand;
use qw_low::block::Block;
use qw_low::cell::{Cell, Local};
use qw_module::instruction::ValType;
use qw_scalar::expression::Operator;
use qw_types::{Kind, NoMemory};
use qw_wide::arithmetic::{Scaled, add, bring, divide, multiply, negate, subtract};

impl Operand {
    /// The number of an operand.
    pub fn scaled(self) -> Scaled
        ensures { result ≡ record { local = self.cell.value; scale = self.scale; most = self.most } }
    {
        Scaled {
            local: self.cell.value,
            scale: self.scale,
            most: self.most,
        }
    }

    /// The operand of a number that may be null where the local says so.
    pub(crate) fn number(made: Scaled, null: Option<Local>) -> Operand
        ensures { result ≡ number_at made.local null made.scale made.most }
    {
        Operand {
            cell: Cell {
                value: made.local,
                length: made.local,
                null,
            },
            kind: Some(Kind::Number(made.scale)),
            scale: made.scale,
            most: made.most,
        }
    }
}

/// Adds an operator on two numbers.
fn operate(
    block: &mut Block,
    operator: Operator,
    left: Scaled,
    right: Scaled,
    free: Local,
) -> Result<Scaled, NoMemory>
    requires scales { (left.scale ≤ 18) × (right.scale ≤ 18) }
    requires allowed { ScalesAllowed operator left.scale right.scale }
    requires below { (left.local < free) × (right.local < free) }
    requires room { free + 1 < 2 ^ 32 }
    ensures block { IfOk result (λ out. (a : Statement) × (block.new.code.items ≡ block.old.code.items ++ steps_of a)
        × Operates (λ v w. applied operator v left.scale w right.scale) left.local left.most right.local right.most free out.local out.most a) }
    ensures scale { IfOk result (λ out. out.scale ≡ scale_after operator left.scale right.scale) }
    ensures short { OnOk result (length block.new.code.items ≤ length block.old.code.items + 60) }
{
    match operator {
        Operator::Add => add(block, left, right, free),
        Operator::Subtract => subtract(block, left, right, free),
        Operator::Multiply => multiply(block, left, right, free),
        Operator::Divide => divide(block, left, right, free),
    }
}

impl Emitter {
    /// Adds an operator on two numbers, unless one is null.
    fn operated(
        &mut self,
        operator: Operator,
        left: Operand,
        right: Operand,
    ) -> Result<Operand, NoMemory>
        requires scales { (left.scale ≤ 18) × (right.scale ≤ 18) }
        requires allowed { ScalesAllowed operator left.scale right.scale }
        requires below { (left.cell.value < free_of self.old) × (right.cell.value < free_of self.old) }
        ensures emits { IfOk result (λ out. AddsOperator operator left right self.old self.new out) }
        ensures short { OnOk result (extent self.new ≤ extent self.old + 75) }
    {
        let p = self.fresh(ValType::I32)?;
        let free = self.fresh(ValType::I64)?;
        let _last = self.fresh(ValType::I64)?;
        let null = self.join_nulls(p, left.cell.null, right.cell.null)?;
        self.begin_unless(null)?;
        let made = operate(
            &mut self.block,
            operator,
            left.scaled(),
            right.scaled(),
            free,
        )?;
        self.end_unless(null)?;
        Ok(Operand::number(made, null))
    }

    /// Adds an operator on two expressions, which were emitted before, the left one first (ISO/IEC 9075:1992, 6.12).
    pub fn arithmetic(
        &mut self,
        operator: Operator,
        left: Operand,
        right: Operand,
    ) -> Result<Operand, NoMemory>
        requires scales { (left.scale ≤ 18) × (right.scale ≤ 18) }
        requires allowed { ScalesAllowed operator left.scale right.scale }
        requires below { (left.cell.value < free_of self.old) × (right.cell.value < free_of self.old) }
        ensures emits { IfOk result (λ out. (known : List Known) (a b : Expression) (start mid : Emitter) → IsTyped (arithmetic operator a b) → AreBelow (free_of start) known →
            Emits known a start mid left → Emits known b mid self.old right → Emits known (arithmetic operator a b) start self.new out) }
        ensures short { OnOk result (extent self.new ≤ extent self.old + 75) }
    {
        self.operated(operator, left, right)
    }

    /// Adds the opposite of a number, unless it is null.
    fn opposite(&mut self, operand: Operand) -> Result<Operand, NoMemory>
        ensures emits { IfOk result (λ out. AddsOperation (λ v. Ok (neg_ℤ v)) operand.scale operand self.old self.new out) }
        ensures short { OnOk result (extent self.new ≤ extent self.old + 75) }
    {
        let free = self.fresh(ValType::I64)?;
        self.begin_unless(operand.cell.null)?;
        let made = negate(&mut self.block, operand.scaled(), free)?;
        self.end_unless(operand.cell.null)?;
        Ok(Operand::number(made, operand.cell.null))
    }

    /// Adds the opposite of an expression that was emitted before.
    pub fn negative(&mut self, operand: Operand) -> Result<Operand, NoMemory>
        ensures emits { IfOk result (λ out. (known : List Known) (a : Expression) (start : Emitter) → IsTyped (negative a) → AreBelow (free_of start) known →
            Emits known a start self.old operand → Emits known (negative a) start self.new out) }
        ensures short { OnOk result (extent self.new ≤ extent self.old + 75) }
    {
        self.opposite(operand)
    }

    /// Adds a number at another scale, unless it is null.
    pub(crate) fn scaled_to(&mut self, operand: Operand, scale: u8) -> Result<Operand, NoMemory>
        requires scales { (operand.scale ≤ scale) × (scale ≤ 18) }
        requires below { operand.cell.value < free_of self.old }
        ensures emits { IfOk result (λ out. AddsOperation (λ v. bring v operand.scale scale) scale operand self.old self.new out) }
        ensures short { OnOk result (extent self.new ≤ extent self.old + 85) }
    {
        let free = self.fresh(ValType::I64)?;
        self.begin_unless(operand.cell.null)?;
        let made = bring(&mut self.block, operand.scaled(), scale, free)?;
        self.end_unless(operand.cell.null)?;
        Ok(Operand::number(made, operand.cell.null))
    }
}
