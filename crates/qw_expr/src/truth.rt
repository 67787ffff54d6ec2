//! Conditions of one operand (ISO/IEC 9075:1992, 8.12): NOT, IS TRUE, IS FALSE, IS UNKNOWN, and predicates of one value.

ghost use Rattle.std.specs.Prelude.{◌≡◌, ◌++◌, List, None, IfOk, OnOk, ◌≤◌, ◌+◌, length};
ghost use Rattle.qw_types.specs.declared.truth.Truth.TheVariants.{True, False, Unknown};
ghost use Rattle.qw_scalar.specs.Expression.{Expression, Condition, predicate, negation_of, is};
ghost use Rattle.qw_low.specs.Syntax.{assign};
ghost use Rattle.qw_low.specs.Steps.{steps_of};
ghost use Rattle.qw_expr.specs.declared.emitter.Emitter.{Emitter};
ghost use Rattle.qw_expr.specs.Computes.{Known};
ghost use Rattle.qw_expr.specs.Emits.{Emits, EmitsTruth, extent};
ghost use Rattle.qw_expr.specs.Inner.Truths.{i32, is_false, AddsTest};

use crate::emitter::Emitter;
use crate::operand::Operand;
use qw_low::cell::{Cell, Local};
use qw_low::step::LowStep;
use qw_module::instruction::{Binary, Const, Op, ValType};
use qw_scalar::expression::Predicate;
use qw_types::{NoMemory, Truth};

/// The truth of a condition's being true, where the condition's own is: it has the same word, and is never unknown.
pub fn is_true(operand: Cell) -> Cell
    ensures { (known : List Known) (c : Condition) (start now : Emitter) → EmitsTruth known c start now operand → EmitsTruth known (is c True) start now result }
{
    sure(operand.value)
}

/// A truth that is never unknown.
fn sure(value: Local) -> Cell
    ensures { result ≡ record { value = value; length = value; null = None } }
{
    Cell {
        value,
        length: value,
        null: None,
    }
}

impl Emitter {
    /// Adds whether a truth is false.
    fn test_false(&mut self, operand: Cell) -> Result<Local, NoMemory>
        ensures emits { IfOk result (λ t. AddsTest (is_false operand.value operand.null) self.old self.new t) }
        ensures short { OnOk result (extent self.new ≤ extent self.old + 6) }
    {
        let t = self.fresh(ValType::I32)?;
        self.false_steps(operand, t)?;
        Ok(t)
    }

    /// Adds the steps of that test.
    fn false_steps(&mut self, operand: Cell, t: Local) -> Result<(), NoMemory>
        ensures code { OnOk result (self.new.block.code.items ≡ self.old.block.code.items ++ steps_of (assign t (is_false operand.value operand.null))) }
        ensures same { OnOk result ((self.new.first ≡ self.old.first) × (self.new.own.items ≡ self.old.own.items)) }
        ensures short { OnOk result (extent self.new ≤ extent self.old + 5) }
    {
        match operand.null {
            None => self.block.code.extend_from_slice(&[
                LowStep::Op(Op::LocalGet(operand.value)),
                LowStep::Op(Op::Eqz(ValType::I32)),
                LowStep::Op(Op::LocalSet(t)),
            ])?,
            Some(n) => self.block.code.extend_from_slice(&[
                LowStep::Op(Op::LocalGet(operand.value)),
                LowStep::Op(Op::LocalGet(n)),
                LowStep::Op(Op::Binary(ValType::I32, Binary::Or)),
                LowStep::Op(Op::Eqz(ValType::I32)),
                LowStep::Op(Op::LocalSet(t)),
            ])?,
        }
        Ok(())
    }

    /// Adds NOT of a condition that was emitted before: unknown stays unknown.
    pub fn negation(&mut self, operand: Cell) -> Result<Cell, NoMemory>
        ensures emits { IfOk result (λ out. (known : List Known) (c : Condition) (start : Emitter) → EmitsTruth known c start self.old operand → EmitsTruth known (negation_of c) start self.new out) }
        ensures short { OnOk result (extent self.new ≤ extent self.old + 6) }
    {
        let t = self.test_false(operand)?;
        Ok(Cell {
            value: t,
            length: t,
            null: operand.null,
        })
    }

    /// Adds IS FALSE of a condition that was emitted before.
    pub fn is_false(&mut self, operand: Cell) -> Result<Cell, NoMemory>
        ensures emits { IfOk result (λ out. (known : List Known) (c : Condition) (start : Emitter) → EmitsTruth known c start self.old operand → EmitsTruth known (is c False) start self.new out) }
        ensures short { OnOk result (extent self.new ≤ extent self.old + 6) }
    {
        let t = self.test_false(operand)?;
        Ok(sure(t))
    }

    /// Adds a number of 32 bits in a local of its own.
    pub(crate) fn flag(&mut self, value: u32) -> Result<Local, NoMemory>
        ensures emits { IfOk result (λ t. AddsTest (i32 value) self.old self.new t) }
        ensures short { OnOk result (extent self.new ≤ extent self.old + 3) }
    {
        let t = self.fresh(ValType::I32)?;
        self.block.code.extend_from_slice(&[
            LowStep::Op(Op::Const(Const::I32(value))),
            LowStep::Op(Op::LocalSet(t)),
        ])?;
        Ok(t)
    }

    /// Adds a predicate of an expression that was emitted before: IS NULL (8.6) is its null word, and 0 where it has none.
    pub fn predicate(&mut self, wanted: Predicate, operand: Operand) -> Result<Cell, NoMemory>
        ensures emits { IfOk result (λ out. (known : List Known) (a : Expression) (start : Emitter) → Emits known a start self.old operand → EmitsTruth known (predicate wanted a) start self.new out) }
        ensures short { OnOk result (extent self.new ≤ extent self.old + 3) }
    {
        match wanted {
            Predicate::IsNull => match operand.cell.null {
                Some(n) => Ok(sure(n)),
                None => {
                    let t = self.flag(0)?;
                    Ok(sure(t))
                }
            },
        }
    }

    /// Adds IS UNKNOWN of a condition that was emitted before: the word that says so, and 0 where it has none.
    pub fn is_unknown(&mut self, operand: Cell) -> Result<Cell, NoMemory>
        ensures emits { IfOk result (λ out. (known : List Known) (c : Condition) (start : Emitter) → EmitsTruth known c start self.old operand → EmitsTruth known (is c Unknown) start self.new out) }
        ensures short { OnOk result (extent self.new ≤ extent self.old + 3) }
    {
        match operand.null {
            Some(n) => Ok(sure(n)),
            None => {
                let t = self.flag(0)?;
                Ok(sure(t))
            }
        }
    }

    /// Adds IS of a truth, of a condition that was emitted before.
    pub fn is_truth(&mut self, operand: Cell, wanted: Truth) -> Result<Cell, NoMemory>
        ensures emits { IfOk result (λ out. (known : List Known) (c : Condition) (start : Emitter) → EmitsTruth known c start self.old operand → EmitsTruth known (is c wanted) start self.new out) }
        ensures short { OnOk result (extent self.new ≤ extent self.old + 6) }
    {
        match wanted {
            Truth::True => Ok(is_true(operand)),
            Truth::False => self.is_false(operand),
            Truth::Unknown => self.is_unknown(operand),
        }
    }
}
