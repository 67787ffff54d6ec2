//! Literals, fields of dates, and numbers at another scale.

ghost use Rattle.std.specs.Prelude.{◌≡◌, ◌<◌, ◌≤◌, ◌++◌, List, IfOk, OnOk, ◌+◌, length};
ghost use Rattle.qw_scalar.specs.Expression.{Expression, null, extract, brought};
ghost use Rattle.qw_scalar.specs.Typing.{IsTyped, is_number};
ghost use Rattle.qw_low.specs.Steps.{steps_of};
ghost use Rattle.qw_expr.specs.Computes.{Known, AreBelow};
ghost use Rattle.qw_expr.specs.Emits.{Emits, extent, free_of};
ghost use Rattle.qw_expr.specs.declared.emitter.Emitter.{Emitter};
ghost use Rattle.qw_expr.specs.Inner.Fields.{field_block};
ghost use Rattle.qw_expr.specs.Inner.Literals.{AddsField};
ghost use Rattle.qw_expr.specs.Literals.{number_operand, date_operand};

use crate::emitter::Emitter;
use crate::operand::Operand;
use qw_low::cell::{Cell, Local};
use qw_low::step::LowStep;
use qw_module::instruction::{Const, Division, Op, Sign, ValType};
use qw_scalar::expression::Field;
use qw_types::{Kind, NoMemory};

/// A divisor and the remainder's, by which a field of a date is found.
const YEAR: u64 = 10_000;

const MONTH: u64 = 100;

impl Operand {
    /// The operand of a number literal whose word a local holds.
    pub fn of_number(local: Local, value: i64, scale: u8) -> Operand
        ensures { result ≡ number_operand local value scale }
    {
        Operand {
            cell: Cell {
                value: local,
                length: local,
                null: None,
            },
            kind: Some(Kind::Number(scale)),
            scale,
            most: value.unsigned_abs(),
        }
    }

    /// The operand of a date literal whose word a local holds.
    pub fn of_date(local: Local) -> Operand
        ensures { result ≡ date_operand local }
    {
        Operand {
            cell: Cell {
                value: local,
                length: local,
                null: None,
            },
            kind: Some(Kind::Date),
            scale: 0,
            most: 0,
        }
    }
}

impl Emitter {
    /// Adds the null value.
    pub fn null(&mut self) -> Result<Operand, NoMemory>
        ensures emits { IfOk result (λ out. (known : List Known) → Emits known null self.old self.new out) }
        ensures short { OnOk result (extent self.new ≤ extent self.old + 3) }
    {
        let n = self.flag(1)?;
        Ok(Operand {
            cell: Cell {
                value: n,
                length: n,
                null: Some(n),
            },
            kind: None,
            scale: 0,
            most: 0,
        })
    }

    /// Adds the steps of a field of a date.
    fn field_steps(&mut self, field: Field, n: Local, x: Local) -> Result<(), NoMemory>
        ensures code { OnOk result (self.new.block.code.items ≡ self.old.block.code.items ++ steps_of (field_block field n x)) }
        ensures same { OnOk result ((self.new.first ≡ self.old.first) × (self.new.own.items ≡ self.old.own.items)) }
        ensures short { OnOk result (extent self.new ≤ extent self.old + 6) }
    {
        match field {
            Field::Year => self.block.code.extend_from_slice(&[
                LowStep::Op(Op::LocalGet(x)),
                LowStep::Op(Op::Const(Const::I64(YEAR))),
                LowStep::Op(Op::Division(ValType::I64, Division::Div(Sign::Signed))),
                LowStep::Op(Op::LocalSet(n)),
            ])?,
            Field::Month => self.block.code.extend_from_slice(&[
                LowStep::Op(Op::LocalGet(x)),
                LowStep::Op(Op::Const(Const::I64(MONTH))),
                LowStep::Op(Op::Division(ValType::I64, Division::Div(Sign::Signed))),
                LowStep::Op(Op::Const(Const::I64(MONTH))),
                LowStep::Op(Op::Division(ValType::I64, Division::Rem(Sign::Signed))),
                LowStep::Op(Op::LocalSet(n)),
            ])?,
            Field::Day => self.block.code.extend_from_slice(&[
                LowStep::Op(Op::LocalGet(x)),
                LowStep::Op(Op::Const(Const::I64(MONTH))),
                LowStep::Op(Op::Division(ValType::I64, Division::Rem(Sign::Signed))),
                LowStep::Op(Op::LocalSet(n)),
            ])?,
        }
        Ok(())
    }

    /// Adds a field of a date, unless it is null.
    fn field(&mut self, field: Field, operand: Operand) -> Result<Operand, NoMemory>
        ensures emits { IfOk result (λ out. AddsField field operand self.old self.new out) }
        ensures short { OnOk result (extent self.new ≤ extent self.old + 11) }
    {
        let n = self.fresh(ValType::I64)?;
        self.begin_unless(operand.cell.null)?;
        self.field_steps(field, n, operand.cell.value)?;
        self.end_unless(operand.cell.null)?;
        Ok(Operand {
            cell: Cell {
                value: n,
                length: n,
                null: operand.cell.null,
            },
            kind: Some(Kind::Number(0)),
            scale: 0,
            most: match field {
                Field::Year => 9999,
                Field::Month | Field::Day => 99,
            },
        })
    }

    /// Adds a field of a date that was emitted before (ISO/IEC 9075:1992, 6.6).
    pub fn extract(&mut self, field: Field, operand: Operand) -> Result<Operand, NoMemory>
        ensures emits { IfOk result (λ out. (known : List Known) (a : Expression) (start : Emitter) → IsTyped (extract field a) → AreBelow (free_of start) known →
            Emits known a start self.old operand → Emits known (extract field a) start self.new out) }
        ensures short { OnOk result (extent self.new ≤ extent self.old + 11) }
    {
        self.field(field, operand)
    }

    /// Brings what was emitted before to a scale; what is no number stays.
    pub fn brought(&mut self, operand: Operand, scale: u8) -> Result<Operand, NoMemory>
        requires scales { (operand.scale ≤ scale) × (scale ≤ 18) }
        requires below { operand.cell.value < free_of self.old }
        ensures emits { IfOk result (λ out. (known : List Known) (a : Expression) (start : Emitter) → IsTyped (brought a scale) → AreBelow (free_of start) known →
            Emits known a start self.old operand → Emits known (brought a scale) start self.new out) }
        ensures short { OnOk result (extent self.new ≤ extent self.old + 85) }
    {
        if is_number(operand.kind) {
            self.scaled_to(operand, scale)
        } else {
            Ok(Operand { scale, ..operand })
        }
    }
}

/// Whether values of a kind are numbers.
fn is_number(kind: Option<Kind>) -> bool
    ensures { result ≡ is_number kind }
{
    matches!(kind, Some(Kind::Number(_)))
}
