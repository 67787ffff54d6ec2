//! AND and OR (ISO/IEC 9075:1992, 8.12), which skip their right sides where the left ones decide.

ghost use Rattle.std.specs.Prelude.{◌≡◌, ◌+◌, ◌++◌, [], ◌∷◌, List, IfOk, OnOk, ◌≤◌, length};
ghost use Rattle.qw_scalar.specs.Expression.{Condition, both, either};
ghost use Rattle.qw_module.specs.declared.instruction.ValType.TheVariants.{I32};
ghost use Rattle.qw_module.specs.declared.instruction.Binary.TheVariants.{And, Or};
ghost use Rattle.qw_low.specs.Syntax.{local, binop, is_zero};
ghost use Rattle.qw_low.specs.Steps.{expression_steps, steps_of};
ghost use Rattle.qw_expr.specs.declared.emitter.Emitter.{Emitter};
ghost use Rattle.qw_expr.specs.Computes.{Known, AreBelow};
ghost use Rattle.qw_expr.specs.Emits.{EmitsTruth, extent, free_of};
ghost use Rattle.qw_expr.specs.Inner.Junctions.{Begins, TakesCell, and_truth, and_unknown, or_unknown};
ghost use Rattle.qw_expr.specs.Inner.Truths.{i32, may_hold, unknown_word, set_truth};

use crate::choice::either_null;
use crate::emitter::Emitter;
use qw_low::cell::{Cell, Local};
use qw_low::step::LowStep;
use qw_module::instruction::{Binary, Const, Op, ValType};
use qw_types::NoMemory;

impl Emitter {
    /// Adds the word that says that a value is null, or a truth unknown: 0 where it never is.
    pub(crate) fn unknown_steps(&mut self, null: Option<Local>) -> Result<(), NoMemory>
        ensures code { OnOk result (self.new.block.code.items ≡ self.old.block.code.items ++ expression_steps (unknown_word null)) }
        ensures same { OnOk result ((self.new.first ≡ self.old.first) × (self.new.own.items ≡ self.old.own.items)) }
        ensures short { OnOk result (extent self.new ≤ extent self.old + 1) }
    {
        self.block.push(LowStep::Op(match null {
            None => Op::Const(Const::I32(0)),
            Some(n) => Op::LocalGet(n),
        }))
    }

    /// Adds whether a truth isn't false.
    fn may_steps(&mut self, operand: Cell) -> Result<(), NoMemory>
        ensures code { OnOk result (self.new.block.code.items ≡ self.old.block.code.items ++ expression_steps (may_hold operand.value operand.null)) }
        ensures same { OnOk result ((self.new.first ≡ self.old.first) × (self.new.own.items ≡ self.old.own.items)) }
        ensures short { OnOk result (extent self.new ≤ extent self.old + 3) }
    {
        match operand.null {
            None => self
                .block
                .code
                .extend_from_slice(&[LowStep::Op(Op::LocalGet(operand.value))])?,
            Some(n) => self.block.code.extend_from_slice(&[
                LowStep::Op(Op::LocalGet(operand.value)),
                LowStep::Op(Op::LocalGet(n)),
                LowStep::Op(Op::Binary(ValType::I32, Binary::Or)),
            ])?,
        }
        Ok(())
    }

    /// Takes locals for the truth of two conditions, which is unknown only where one may be.
    fn junction_cell(&mut self, left: Cell, right: Cell) -> Result<Cell, NoMemory>
        ensures cell { IfOk result (λ out. TakesCell left right self.old self.new out) }
        ensures short { OnOk result (extent self.new ≤ extent self.old + 2) }
    {
        let value = self.fresh(ValType::I32)?;
        let word = self.fresh(ValType::I32)?;
        Ok(Cell {
            value,
            length: value,
            null: either_null(word, left.null, right.null),
        })
    }

    /// Adds whether either of two truths is unknown.
    fn either_unknown(&mut self, left: Cell, right: Cell) -> Result<(), NoMemory>
        ensures code { OnOk result (self.new.block.code.items ≡ self.old.block.code.items ++ expression_steps (binop I32 Or (unknown_word left.null) (unknown_word right.null))) }
        ensures same { OnOk result ((self.new.first ≡ self.old.first) × (self.new.own.items ≡ self.old.own.items)) }
        ensures short { OnOk result (extent self.new ≤ extent self.old + 3) }
    {
        self.unknown_steps(left.null)?;
        self.unknown_steps(right.null)?;
        self.block
            .push(LowStep::Op(Op::Binary(ValType::I32, Binary::Or)))
    }

    /// Adds the truth of both of two conditions, the left of which isn't false.
    fn both_steps(&mut self, left: Cell, right: Cell, out: Cell) -> Result<(), NoMemory>
        ensures code { OnOk result (self.new.block.code.items ≡ self.old.block.code.items ++ steps_of (set_truth out.null out.value (and_truth left right) (and_unknown left right))) }
        ensures same { OnOk result ((self.new.first ≡ self.old.first) × (self.new.own.items ≡ self.old.own.items)) }
        ensures short { OnOk result (extent self.new ≤ extent self.old + 12) }
    {
        self.block.code.extend_from_slice(&[
            LowStep::Op(Op::LocalGet(left.value)),
            LowStep::Op(Op::LocalGet(right.value)),
            LowStep::Op(Op::Binary(ValType::I32, Binary::And)),
            LowStep::Op(Op::LocalSet(out.value)),
        ])?;
        if let Some(word) = out.null {
            self.either_unknown(left, right)?;
            self.may_steps(right)?;
            self.block.code.extend_from_slice(&[
                LowStep::Op(Op::Binary(ValType::I32, Binary::And)),
                LowStep::Op(Op::LocalSet(word)),
            ])?;
        }
        Ok(())
    }

    /// Adds the truth of either of two conditions, the left of which isn't true.
    fn either_steps(&mut self, left: Cell, right: Cell, out: Cell) -> Result<(), NoMemory>
        ensures code { OnOk result (self.new.block.code.items ≡ self.old.block.code.items ++ steps_of (set_truth out.null out.value (local right.value) (or_unknown left right))) }
        ensures same { OnOk result ((self.new.first ≡ self.old.first) × (self.new.own.items ≡ self.old.own.items)) }
        ensures short { OnOk result (extent self.new ≤ extent self.old + 9) }
    {
        self.block.code.extend_from_slice(&[
            LowStep::Op(Op::LocalGet(right.value)),
            LowStep::Op(Op::LocalSet(out.value)),
        ])?;
        if let Some(word) = out.null {
            self.either_unknown(left, right)?;
            self.block.code.extend_from_slice(&[
                LowStep::Op(Op::LocalGet(right.value)),
                LowStep::Op(Op::Eqz(ValType::I32)),
                LowStep::Op(Op::Binary(ValType::I32, Binary::And)),
                LowStep::Op(Op::LocalSet(word)),
            ])?;
        }
        Ok(())
    }

    /// Adds what is known without the right side: 1 for true, 0 for false.
    fn decided_steps(&mut self, out: Cell, decided: u32) -> Result<(), NoMemory>
        ensures code { OnOk result (self.new.block.code.items ≡ self.old.block.code.items ++ steps_of (set_truth out.null out.value (i32 decided) (i32 0))) }
        ensures same { OnOk result ((self.new.first ≡ self.old.first) × (self.new.own.items ≡ self.old.own.items)) }
        ensures short { OnOk result (extent self.new ≤ extent self.old + 4) }
    {
        self.block.code.extend_from_slice(&[
            LowStep::Op(Op::Const(Const::I32(decided))),
            LowStep::Op(Op::LocalSet(out.value)),
        ])?;
        if let Some(word) = out.null {
            self.block.code.extend_from_slice(&[
                LowStep::Op(Op::Const(Const::I32(0))),
                LowStep::Op(Op::LocalSet(word)),
            ])?;
        }
        Ok(())
    }

    /// Begins the right side of AND, which is done unless the left one is false.
    pub(crate) fn begin_and(&mut self, left: Cell) -> Result<(), NoMemory>
        ensures emits { OnOk result (Begins (may_hold left.value left.null) self.old self.new) }
        ensures short { OnOk result (extent self.new ≤ extent self.old + 4) }
    {
        self.may_steps(left)?;
        self.block.push(LowStep::If)
    }

    /// Ends AND.
    pub(crate) fn end_and(&mut self, left: Cell, right: Cell) -> Result<Cell, NoMemory>
        ensures emits { IfOk result (λ out. (known : List Known) (c d : Condition) (start mid begun : Emitter) → AreBelow (free_of start) known → EmitsTruth known c start mid left →
            Begins (may_hold left.value left.null) mid begun → EmitsTruth known d begun self.old right → EmitsTruth known (both c d) start self.new out) }
        ensures short { OnOk result (extent self.new ≤ extent self.old + 20) }
    {
        let out = self.junction_cell(left, right)?;
        self.both_steps(left, right, out)?;
        self.block.push(LowStep::Else)?;
        self.decided_steps(out, 0)?;
        self.block.push(LowStep::End)?;
        Ok(out)
    }

    /// Begins the right side of OR, which is done unless the left one is true.
    pub(crate) fn begin_or(&mut self, left: Cell) -> Result<(), NoMemory>
        ensures emits { OnOk result (Begins (is_zero I32 (local left.value)) self.old self.new) }
        ensures short { OnOk result (extent self.new ≤ extent self.old + 3) }
    {
        self.block.code.extend_from_slice(&[
            LowStep::Op(Op::LocalGet(left.value)),
            LowStep::Op(Op::Eqz(ValType::I32)),
            LowStep::If,
        ])?;
        Ok(())
    }

    /// Ends OR.
    pub(crate) fn end_or(&mut self, left: Cell, right: Cell) -> Result<Cell, NoMemory>
        ensures emits { IfOk result (λ out. (known : List Known) (c d : Condition) (start mid begun : Emitter) → AreBelow (free_of start) known → EmitsTruth known c start mid left →
            Begins (is_zero I32 (local left.value)) mid begun → EmitsTruth known d begun self.old right → EmitsTruth known (either c d) start self.new out) }
        ensures short { OnOk result (extent self.new ≤ extent self.old + 17) }
    {
        let out = self.junction_cell(left, right)?;
        self.either_steps(left, right, out)?;
        self.block.push(LowStep::Else)?;
        self.decided_steps(out, 1)?;
        self.block.push(LowStep::End)?;
        Ok(out)
    }
}
