//! Choices between two results (ISO/IEC 9075:1992, 6.9): only the chosen one is evaluated, and left in a place of the choice's own.

ghost use Rattle.std.specs.Prelude.{◌≡◌, ◌<◌, ◌≤◌, ◌++◌, max, Bool, List, IfOk, OnOk, ◌+◌, length};
ghost use Rattle.qw_scalar.specs.Expression.{Expression, Condition, brought, choice, null};
ghost use Rattle.qw_scalar.specs.Typing.{IsTyped, joined, kind_of};
ghost use Rattle.qw_low.specs.declared.cell.Cell.{Cell};
ghost use Rattle.qw_low.specs.Steps.{steps_of};
ghost use Rattle.qw_expr.specs.declared.emitter.Emitter.{Emitter};
ghost use Rattle.qw_expr.specs.Computes.{Known, AreBelow};
ghost use Rattle.qw_expr.specs.Emits.{Emits, EmitsTruth, extent, free_of};
ghost use Rattle.qw_expr.specs.Inner.Choices.{Suits, TakesPlace, BeginsChoice, HasFirst, copy_block, chosen_at};
ghost use Rattle.qw_expr.specs.Inner.Truths.{junction_null};

use crate::emitter::Emitter;
use crate::operand::Operand;
use qw_low::cell::{Cell, Local};
use qw_low::step::LowStep;
use qw_module::instruction::{Op, ValType};
use qw_types::{Kind, NoMemory};

/// Where a choice leaves its value, with a null word; of a text its address and its length.
#[derive(Clone, Copy)]
pub(crate) struct Place {
    pub value: Local,
    pub length: Local,
    pub null: Local,
}

/// Where a choice is after its first result: the place of its value, and the first result's operand.
#[derive(Clone, Copy)]
pub(crate) struct Started {
    pub place: Place,
    pub first: Operand,
}

/// The kind of two results (9.3): null is of the other's kind.
fn joined(first: Option<Kind>, second: Option<Kind>) -> Option<Kind>
    ensures { result ≡ joined first second }
{
    match (first, second) {
        (None, _) => second,
        (Some(Kind::Number(a)), Some(Kind::Number(b))) => Some(Kind::Number(a.max(b))),
        (Some(_), _) => first,
    }
}

/// The null word of what comes from one of two values, in the local `word` where one may be null.
pub(crate) fn either_null(word: Local, first: Option<Local>, second: Option<Local>) -> Option<Local>
    ensures { result ≡ junction_null word first second }
{
    match (first, second) {
        (None, None) => None,
        (Some(_), _) | (None, Some(_)) => Some(word),
    }
}

impl Emitter {
    /// Takes locals for a place.
    fn place(&mut self, text: bool) -> Result<Place, NoMemory>
        ensures place { IfOk result (λ to. TakesPlace text self.old self.new to) }
        ensures short { OnOk result (extent self.new ≤ extent self.old + 3) }
    {
        if text {
            let value = self.fresh(ValType::I32)?;
            let length = self.fresh(ValType::I32)?;
            let null = self.fresh(ValType::I32)?;
            Ok(Place {
                value,
                length,
                null,
            })
        } else {
            let value = self.fresh(ValType::I64)?;
            let null = self.fresh(ValType::I32)?;
            Ok(Place {
                value,
                length: value,
                null,
            })
        }
    }

    /// Begins what is done where a truth is true.
    pub(crate) fn begin_choice(&mut self, test: Cell, text: bool) -> Result<Place, NoMemory>
        ensures emits { IfOk result (λ to. BeginsChoice test.value text self.old self.new to) }
        ensures short { OnOk result (extent self.new ≤ extent self.old + 5) }
    {
        let to = self.place(text)?;
        self.block
            .code
            .extend_from_slice(&[LowStep::Op(Op::LocalGet(test.value)), LowStep::If])?;
        Ok(to)
    }

    /// Adds the copy of a value to a place.
    fn copy(&mut self, to: Place, from: Operand) -> Result<(), NoMemory>
        ensures code { OnOk result (self.new.block.code.items ≡ self.old.block.code.items ++ steps_of (copy_block from.kind to from.cell)) }
        ensures same { OnOk result ((self.new.first ≡ self.old.first) × (self.new.own.items ≡ self.old.own.items)) }
        ensures short { OnOk result (extent self.new ≤ extent self.old + 6) }
    {
        match from.kind {
            None => {}
            Some(Kind::Number(_)) | Some(Kind::Date) => self.block.code.extend_from_slice(&[
                LowStep::Op(Op::LocalGet(from.cell.value)),
                LowStep::Op(Op::LocalSet(to.value)),
            ])?,
            Some(Kind::Text) => self.block.code.extend_from_slice(&[
                LowStep::Op(Op::LocalGet(from.cell.value)),
                LowStep::Op(Op::LocalSet(to.value)),
                LowStep::Op(Op::LocalGet(from.cell.length)),
                LowStep::Op(Op::LocalSet(to.length)),
            ])?,
        }
        self.unknown_steps(from.cell.null)?;
        self.block.push(LowStep::Op(Op::LocalSet(to.null)))
    }

    /// Ends what is done where the truth is true, and begins what is done where it isn't.
    pub(crate) fn begin_other(&mut self, to: Place, first: Operand) -> Result<(), NoMemory>
        ensures same { OnOk result ((self.new.first ≡ self.old.first) × (self.new.own.items ≡ self.old.own.items)) }
        ensures first { OnOk result ((known : List Known) (c : Condition) (a : Expression) (text : Bool) (start mid begun : Emitter) (test : Cell) →
            EmitsTruth known c start mid test → BeginsChoice test.value text mid begun to → Emits known a begun self.old first → HasFirst known c a text start self.new to first) }
        ensures short { OnOk result (extent self.new ≤ extent self.old + 7) }
    {
        self.copy(to, first)?;
        self.block.push(LowStep::Else)
    }

    /// Ends a first result that is brought to a scale.
    pub(crate) fn first_brought(
        &mut self,
        to: Place,
        operand: Operand,
        scale: u8,
    ) -> Result<Operand, NoMemory>
        requires scales { (operand.scale ≤ scale) × (scale ≤ 18) }
        requires below { operand.cell.value < free_of self.old }
        ensures emits { IfOk result (λ out. (known : List Known) (c : Condition) (a : Expression) (text : Bool) (start mid begun : Emitter) (test : Cell) → IsTyped (brought a scale) → AreBelow (free_of begun) known →
            EmitsTruth known c start mid test → BeginsChoice test.value text mid begun to → Emits known a begun self.old operand → HasFirst known c (brought a scale) text start self.new to out) }
        ensures short { OnOk result (extent self.new ≤ extent self.old + 95) }
    {
        let first = self.brought(operand, scale)?;
        self.begin_other(to, first)?;
        Ok(first)
    }

    /// Adds null where a truth is true, and else a known operand.
    pub(crate) fn null_where(
        &mut self,
        test: Cell,
        operand: Operand,
        text: bool,
    ) -> Result<Operand, NoMemory>
        ensures emits { IfOk result (λ out. (known : List Known) (c : Condition) (e : Expression) (start : Emitter) → IsTyped (choice c null e) → Suits text (kind_of (choice c null e)) → AreBelow (free_of start) known →
            EmitsTruth known c start self.old test → ((now : Emitter) → free_of start ≤ free_of now → Emits known e now now operand) → Emits known (choice c null e) start self.new out) }
        ensures short { OnOk result (extent self.new ≤ extent self.old + 25) }
    {
        let place = self.begin_choice(test, text)?;
        let first = self.null()?;
        self.begin_other(place, first)?;
        self.end_choice(place, first, operand)
    }

    /// Ends a choice.
    pub(crate) fn end_choice(
        &mut self,
        to: Place,
        first: Operand,
        second: Operand,
    ) -> Result<Operand, NoMemory>
        ensures emits { IfOk result (λ out. (known : List Known) (c : Condition) (a b : Expression) (text : Bool) (start mid : Emitter) → IsTyped (choice c a b) → Suits text (kind_of (choice c a b)) →
            AreBelow (free_of start) known → HasFirst known c a text start mid to first → Emits known b mid self.old second → Emits known (choice c a b) start self.new out) }
        ensures short { OnOk result (extent self.new ≤ extent self.old + 7) }
    {
        self.copy(to, second)?;
        self.block.push(LowStep::End)?;
        Ok(chosen(to, first, second))
    }
}

/// The operand of a choice.
fn chosen(to: Place, first: Operand, second: Operand) -> Operand
    ensures { result ≡ chosen_at to first second }
{
    Operand {
        cell: Cell {
            value: to.value,
            length: to.length,
            null: either_null(to.null, first.cell.null, second.cell.null),
        },
        kind: joined(first.kind, second.kind),
        scale: first.scale.max(second.scale),
        most: first.most.max(second.most),
    }
}
