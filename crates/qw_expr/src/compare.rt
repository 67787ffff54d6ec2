//! Comparisons (ISO/IEC 9075:1992, 8.2) of numbers and of dates.

ghost use Rattle.std.specs.Prelude.{◌≡◌, ◌+◌, ◌<◌, ◌≤◌, ◌^◌, ◌++◌, List, IsTrue, IfOk, OnOk, length};
ghost use Rattle.qw_types.specs.Arithmetic.{order_of};
ghost use Rattle.qw_scalar.specs.Expression.{Expression, comparison};
ghost use Rattle.qw_scalar.specs.Typing.{AreTyped, are_comparable, is_date, is_number, kind_of};
ghost use Rattle.qw_expr.specs.Cells.{IsBelow};
ghost use Rattle.qw_expr.specs.declared.emitter.Emitter.{Emitter};
ghost use Rattle.qw_expr.specs.Computes.{Known, AreBelow};
ghost use Rattle.qw_expr.specs.Emits.{Emits, EmitsTruth, comparing, extent, free_of};
ghost use Rattle.qw_expr.specs.Inner.Operated.{AddsComparison};
ghost use Rattle.qw_expr.specs.Inner.Truths.{before_zero};

use crate::emitter::Emitter;
use crate::operand::Operand;
use qw_low::cell::{Cell, Local};
use qw_low::step::LowStep;
use qw_module::instruction::{Const, Op, ValType};
use qw_scalar::comparison::Comparison;
use qw_types::{Kind, NoMemory};
use qw_wide::arithmetic::Scaled;
use qw_wide::order::emit_cmp_scaled;

/// The greatest date, as a number.
const LAST_DATE: u64 = 99_991_231;

impl Operand {
    /// A date as a number.
    pub fn dated(self) -> Scaled
        ensures { result ≡ record { local = self.cell.value; scale = 0; most = 99991231 } }
    {
        Scaled {
            local: self.cell.value,
            scale: 0,
            most: LAST_DATE,
        }
    }
}

impl Emitter {
    /// Begins what is done where no value is null, and leaves 0 in `t` where one is.
    pub(crate) fn begin_zero(&mut self, null: Option<Local>, t: Local) -> Result<(), NoMemory>
        ensures code { OnOk result (self.new.block.code.items ≡ self.old.block.code.items ++ before_zero null t) }
        ensures same { OnOk result ((self.new.first ≡ self.old.first) × (self.new.own.items ≡ self.old.own.items)) }
        ensures short { OnOk result (extent self.new ≤ extent self.old + 5) }
    {
        if let Some(n) = null {
            self.block.code.extend_from_slice(&[
                LowStep::Op(Op::LocalGet(n)),
                LowStep::If,
                LowStep::Op(Op::Const(Const::I32(0))),
                LowStep::Op(Op::LocalSet(t)),
                LowStep::Else,
            ])?;
        }
        Ok(())
    }

    /// Adds a comparison of two numbers, which is unknown where one is null.
    fn compared(
        &mut self,
        operator: Comparison,
        left: Scaled,
        left_null: Option<Local>,
        right: Scaled,
        right_null: Option<Local>,
    ) -> Result<Cell, NoMemory>
        requires scales { (left.scale ≤ 18) × (right.scale ≤ 18) }
        requires below { (left.local < free_of self.old) × (right.local < free_of self.old) }
        ensures emits { IfOk result (λ out. AddsComparison operator (λ v w. order_of v left.scale w right.scale) left.local left.most right.local right.most left_null right_null self.old self.new out) }
        ensures short { OnOk result (extent self.new ≤ extent self.old + 45) }
    {
        let p = self.fresh(ValType::I32)?;
        let t = self.fresh(ValType::I32)?;
        let n = self.fresh(ValType::I64)?;
        let null = self.join_nulls(p, left_null, right_null)?;
        self.begin_zero(null, t)?;
        emit_cmp_scaled(&mut self.block, operator, left, right, n, t)?;
        self.end_unless(null)?;
        Ok(Cell {
            value: t,
            length: t,
            null,
        })
    }

    /// Adds a comparison of two numbers that were emitted before, by their exact values.
    pub fn compare_numbers(
        &mut self,
        operator: Comparison,
        left: Operand,
        right: Operand,
    ) -> Result<Cell, NoMemory>
        requires scales { (left.scale ≤ 18) × (right.scale ≤ 18) }
        requires below { (left.cell.value < free_of self.old) × (right.cell.value < free_of self.old) }
        ensures emits { IfOk result (λ out. (known : List Known) (a b : Expression) (start mid : Emitter) → AreTyped (comparison operator a b) → IsTrue (is_number (kind_of a)) → IsTrue (is_number (kind_of b)) →
            AreBelow (free_of start) known → Emits known a start mid left → Emits known b mid self.old right → EmitsTruth known (comparison operator a b) start self.new out) }
        ensures short { OnOk result (extent self.new ≤ extent self.old + 45) }
    {
        self.compared(
            operator,
            left.scaled(),
            left.cell.null,
            right.scaled(),
            right.cell.null,
        )
    }

    /// Adds a comparison of two dates that were emitted before.
    pub fn compare_dates(
        &mut self,
        operator: Comparison,
        left: Operand,
        right: Operand,
    ) -> Result<Cell, NoMemory>
        requires below { (left.cell.value < free_of self.old) × (right.cell.value < free_of self.old) }
        ensures emits { IfOk result (λ out. (known : List Known) (a b : Expression) (start mid : Emitter) → AreTyped (comparison operator a b) → IsTrue (is_date (kind_of a)) → IsTrue (is_date (kind_of b)) →
            AreBelow (free_of start) known → Emits known a start mid left → Emits known b mid self.old right → EmitsTruth known (comparison operator a b) start self.new out) }
        ensures short { OnOk result (extent self.new ≤ extent self.old + 45) }
    {
        self.compared(
            operator,
            left.dated(),
            left.cell.null,
            right.dated(),
            right.cell.null,
        )
    }

    /// Adds a comparison of two expressions that were emitted before, the left one first (ISO/IEC 9075:1992, 8.2), or LIKE (8.5).
    pub fn compare(
        &mut self,
        operator: Comparison,
        left: Operand,
        right: Operand,
    ) -> Result<Cell, NoMemory>
        requires scales { (left.scale ≤ 18) × (right.scale ≤ 18) }
        requires comparable { IsTrue (are_comparable left.kind right.kind) }
        requires below { IsBelow (free_of self.old) left.cell × IsBelow (free_of self.old) right.cell }
        ensures emits { IfOk result (λ out. (known : List Known) (a b : Expression) (start mid : Emitter) → AreTyped (comparison operator a b) →
            AreBelow (free_of start) known → Emits known a start mid left → Emits known b mid self.old right → EmitsTruth known (comparison operator a b) start self.new out) }
        ensures short { OnOk result (extent self.new ≤ extent self.old + comparing operator) }
    {
        match left.kind {
            Some(Kind::Date) => self.compare_dates(operator, left, right),
            Some(Kind::Number(_)) => self.compare_numbers(operator, left, right),
            Some(Kind::Text) => self.compare_texts(operator, left, right),
            None => unreachable!(),
        }
    }
}
