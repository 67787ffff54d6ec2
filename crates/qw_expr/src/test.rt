//! Conditions as tests, for choices that ask only whether they are true: unknown leads where false does (ISO/IEC 9075:1992, 7.6).
//! A test is an expression of what is held where the block ends: it sets no local and skips nothing.

ghost use Rattle.std.specs.Prelude.{◌≡◌, ℕ, ◌+◌, ◌*◌, ◌≤◌, ◌++◌, List, IsTrue, IfOk, OnOk, length};
ghost use Rattle.qw_scalar.specs.Expression.{Expression, Condition, among, between, comparison, negation_of};
ghost use Rattle.qw_scalar.specs.Nodes.{nodes, nodes_of, nodes_of_all};
ghost use Rattle.qw_scalar.specs.Tree.{condition_of, expression_of, expressions_of};
ghost use Rattle.qw_scalar.specs.Typing.{AreTyped, are_comparable};
ghost use Rattle.qw_module.specs.declared.instruction.ValType.TheVariants.{I32};
ghost use Rattle.qw_module.specs.declared.instruction.Binary.TheVariants.{And, Or};
ghost use Rattle.qw_low.specs.Syntax.{binop, is_zero};
ghost use Rattle.qw_low.specs.Steps.{expression_steps};
ghost use Rattle.qw_expr.specs.declared.emitter.Emitter.{Emitter};
ghost use Rattle.qw_expr.specs.Bindings.{IsServed, TakeKnown, known_of};
ghost use Rattle.qw_expr.specs.Cells.{IsBelow};
ghost use Rattle.qw_expr.specs.Computes.{Known, AreBelow};
ghost use Rattle.qw_expr.specs.Emits.{Emits, EmitsTruth, extent, free_of};
ghost use Rattle.qw_expr.specs.Tests.{EmitsTest, IsTestBelow, tested};
ghost use Rattle.qw_expr.specs.Inner.Guards.{IsGuarded};
ghost use Rattle.qw_expr.specs.Inner.Tests.{is_one_relation};

use crate::emitter::Emitter;
use crate::guard::{emit_guarded, sure_of};
use crate::known::Binding;
use crate::operand::Operand;
use crate::plain::{one_of, plain, within};
use crate::search::sorted_literals;
use crate::tree::{among, between, emit_expr, emit_truth};
use qw_low::block::Block;
use qw_low::cell::{Cell, Local};
use qw_low::step::LowStep;
use qw_module::instruction::{Binary, Op, Relation, ValType};
use qw_scalar::comparison::Comparison;
use qw_scalar::expression::{Cond, Expr, Exprs};
use qw_types::{Kind, NoMemory};
use qw_wide::order::relation_of;
use std::alloc::Global;

/// What is 1 where a condition is true, and 0 where it is false or unknown.
#[derive(Drop)]
pub enum Test {
    /// A local of type i32.
    Local(Local),
    /// Whether a local of type i32 is 0.
    Zero(Local),
    /// A relation of two locals of type i64.
    Related(Relation, Local, Local),
    /// Whether a test is 0.
    Not(Box<Test>),
    /// Whether two tests are both 1.
    Both(Box<Test>, Box<Test>),
    /// Whether either of two tests is 1.
    Either(Box<Test>, Box<Test>),
}

impl Test {
    /// The test of whether this one is 0.
    pub(crate) fn not(self, alloc: Global) -> Result<Test, NoMemory>
        ensures word { IfOk result (λ out. tested out ≡ is_zero I32 (tested self)) }
        ensures below { IfOk result (λ out. (n : ℕ) → IsTestBelow n self → IsTestBelow n out) }
    {
        Ok(Test::Not(Box::new(alloc, self)?))
    }

    /// The test of whether this one and another are 1.
    pub(crate) fn both(self, alloc: Global, other: Test) -> Result<Test, NoMemory>
        ensures word { IfOk result (λ out. tested out ≡ binop I32 And (tested self) (tested other)) }
        ensures below { IfOk result (λ out. (n : ℕ) → IsTestBelow n self → IsTestBelow n other → IsTestBelow n out) }
    {
        Ok(Test::Both(Box::new(alloc, self)?, Box::new(alloc, other)?))
    }

    /// The test of whether this one or another is 1.
    pub(crate) fn either(self, alloc: Global, other: Test) -> Result<Test, NoMemory>
        ensures word { IfOk result (λ out. tested out ≡ binop I32 Or (tested self) (tested other)) }
        ensures below { IfOk result (λ out. (n : ℕ) → IsTestBelow n self → IsTestBelow n other → IsTestBelow n out) }
    {
        Ok(Test::Either(Box::new(alloc, self)?, Box::new(alloc, other)?))
    }

    /// Adds the steps of the test's expression.
    pub fn push(&self, block: &mut Block) -> Result<(), NoMemory>
        ensures code { OnOk result (block.new.code.items ≡ block.old.code.items ++ expression_steps (tested self.now)) }
    {
        match self {
            Test::Local(x) => block.push(LowStep::Op(Op::LocalGet(*x))),
            Test::Zero(x) => {
                block.push(LowStep::Op(Op::LocalGet(*x)))?;
                block.push(LowStep::Op(Op::Eqz(ValType::I32)))
            }
            Test::Related(relation, x, y) => {
                block.push(LowStep::Op(Op::LocalGet(*x)))?;
                block.push(LowStep::Op(Op::LocalGet(*y)))?;
                block.push(LowStep::Op(Op::Relation(ValType::I64, *relation)))
            }
            Test::Not(test) => {
                test.push(block)?;
                block.push(LowStep::Op(Op::Eqz(ValType::I32)))
            }
            Test::Both(left, right) => {
                left.push(block)?;
                right.push(block)?;
                block.push(LowStep::Op(Op::Binary(ValType::I32, Binary::And)))
            }
            Test::Either(left, right) => {
                left.push(block)?;
                right.push(block)?;
                block.push(LowStep::Op(Op::Binary(ValType::I32, Binary::Or)))
            }
        }
    }
}

/// Whether a comparison of two values is one relation of their locals: both are numbers of one scale or dates, and neither may be null.
pub(crate) fn is_one_relation(left: Operand, right: Operand) -> bool
    ensures { result ≡ is_one_relation left right }
{
    left.cell.null.is_none()
        && right.cell.null.is_none()
        && match left.kind {
            Some(Kind::Number(_)) => left.scale == right.scale,
            Some(Kind::Date) => true,
            Some(Kind::Text) | None => false,
        }
}

impl Emitter {
    /// Adds the test of a comparison of two expressions that were emitted before, the left one first.
    fn test_comparison(
        &mut self,
        operator: Comparison,
        left: Operand,
        right: Operand,
    ) -> Result<Test, NoMemory>
        requires scales { (left.scale ≤ 18) × (right.scale ≤ 18) }
        requires comparable { IsTrue (are_comparable left.kind right.kind) }
        requires below { IsBelow (free_of self.old) left.cell × IsBelow (free_of self.old) right.cell }
        ensures emits { IfOk result (λ out. (known : List Known) (a b : Expression) (start mid : Emitter) → AreTyped (comparison operator a b) →
            AreBelow (free_of start) known → Emits known a start mid left → Emits known b mid self.old right → EmitsTest known (comparison operator a b) start self.new out) }
        ensures short { OnOk result (extent self.new ≤ extent self.old + 200) }
        ensures few { IfOk result (λ out. length (expression_steps (tested out)) ≤ 3) }
    {
        if is_one_relation(left, right) {
            return Ok(Test::Related(relation_of(operator), left.cell.value, right.cell.value));
        }
        let t = self.compare(operator, left, right)?;
        Ok(Test::Local(t.value))
    }

    /// Adds the block of a condition, whose truth is left in a local.
    fn test_truth(&mut self, cond: &Cond, known: &[Binding]) -> Result<Test, NoMemory>
        requires typed { AreTyped (condition_of cond.now) }
        requires known { TakeKnown (known_of known.now) (condition_of cond.now) }
        requires served { IsServed (free_of self.old) (known_of known.now) }
        ensures emits { IfOk result (λ out. EmitsTest (known_of known.now) (condition_of cond.now) self.old self.new out) }
        ensures short { OnOk result (extent self.new ≤ extent self.old + 400 * nodes_of cond.now) }
        ensures few { IfOk result (λ out. length (expression_steps (tested out)) ≡ 1) }
    {
        let t = emit_truth(self, cond, known)?;
        Ok(Test::Local(t.value))
    }

    /// Adds the test of NOT of a condition that was emitted before.
    fn test_negation(&mut self, operand: Cell) -> Result<Test, NoMemory>
        ensures emits { IfOk result (λ out. (known : List Known) (c : Condition) (start : Emitter) → EmitsTruth known c start self.old operand → EmitsTest known (negation_of c) start self.new out) }
        ensures short { OnOk result (extent self.new ≤ extent self.old + 6) }
        ensures few { IfOk result (λ out. length (expression_steps (tested out)) ≤ 2) }
    {
        match operand.null {
            None => Ok(Test::Zero(operand.value)),
            Some(_) => {
                let t = self.negation(operand)?;
                Ok(Test::Local(t.value))
            }
        }
    }
}

/// Adds the test of whether an operand lies between two expressions (8.3): the operand's block, and no other where both are known and it
/// compares with each by one relation.
fn test_between(
    alloc: Global,
    emitter: &mut Emitter,
    operand: &Expr,
    least: &Expr,
    greatest: &Expr,
    known: &[Binding],
) -> Result<Test, NoMemory>
    requires typed { AreTyped (between (expression_of operand.now) (expression_of least.now) (expression_of greatest.now)) }
    requires known { TakeKnown (known_of known.now) (between (expression_of operand.now) (expression_of least.now) (expression_of greatest.now)) }
    requires served { IsServed (free_of emitter.old) (known_of known.now) }
    ensures emits { IfOk result (λ out. EmitsTest (known_of known.now) (between (expression_of operand.now) (expression_of least.now) (expression_of greatest.now)) emitter.old emitter.new out) }
    ensures short { OnOk result (extent emitter.new ≤ extent emitter.old + 400 * (1 + nodes operand.now + nodes least.now + nodes greatest.now)) }
    ensures spare { IfOk result (λ out. extent emitter.new + length (expression_steps (tested out)) + 30 ≤ extent emitter.old + 400 * (1 + nodes operand.now + nodes least.now + nodes greatest.now)) }
    ensures few { IfOk result (λ out. length (expression_steps (tested out)) + 1 ≤ 4 * (1 + nodes operand.now + nodes least.now + nodes greatest.now)) }
{
    let x = emit_expr(emitter, operand, known)?;
    match within(alloc, operand, x, least, greatest, known)? {
        Some(test) => Ok(test),
        None => {
            let t = between(emitter, operand, x, least, greatest, known)?;
            Ok(Test::Local(t.value))
        }
    }
}

/// Adds the test of whether an operand equals one of some values (8.4): the operand's block, and a search where the values are many literals
/// with which it compares by one relation each. Where they are fewer, or columns, it is one expression of all comparisons.
fn test_among(
    alloc: Global,
    emitter: &mut Emitter,
    operand: &Expr,
    values: &Exprs,
    known: &[Binding],
) -> Result<Test, NoMemory>
    requires typed { AreTyped (among (expression_of operand.now) (expressions_of values.now)) }
    requires known { TakeKnown (known_of known.now) (among (expression_of operand.now) (expressions_of values.now)) }
    requires served { IsServed (free_of emitter.old) (known_of known.now) }
    ensures emits { IfOk result (λ out. EmitsTest (known_of known.now) (among (expression_of operand.now) (expressions_of values.now)) emitter.old emitter.new out) }
    ensures short { OnOk result (extent emitter.new ≤ extent emitter.old + 400 * (1 + nodes operand.now + nodes_of_all values.now)) }
    ensures spare { IfOk result (λ out. extent emitter.new + length (expression_steps (tested out)) + 30 ≤ extent emitter.old + 400 * (1 + nodes operand.now + nodes_of_all values.now)) }
    ensures few { IfOk result (λ out. length (expression_steps (tested out)) + 1 ≤ 4 * (1 + nodes operand.now + nodes_of_all values.now)) }
{
    let x = emit_expr(emitter, operand, known)?;
    if let Some(sought) = sorted_literals(alloc, operand, x, values, known)? {
        let out = emitter.search(x.cell.value, &sought)?;
        return Ok(Test::Local(out));
    }
    match one_of(alloc, operand, x, values, known)? {
        Some(test) => Ok(test),
        None => {
            let t = among(emitter, values, operand, x, known)?;
            Ok(Test::Local(t.value))
        }
    }
}

/// Adds the block of a condition, and tells the test of whether it is true, with each null word tested where its value is used.
pub(crate) fn test_of(
    alloc: Global,
    emitter: &mut Emitter,
    cond: &Cond,
    known: &[Binding],
) -> Result<Test, NoMemory>
    requires typed { AreTyped (condition_of cond.now) }
    requires known { TakeKnown (known_of known.now) (condition_of cond.now) }
    requires served { IsServed (free_of emitter.old) (known_of known.now) }
    ensures emits { IfOk result (λ out. EmitsTest (known_of known.now) (condition_of cond.now) emitter.old emitter.new out) }
    ensures short { OnOk result (extent emitter.new ≤ extent emitter.old + 400 * nodes_of cond.now) }
    ensures spare { IfOk result (λ out. IsGuarded cond.now → extent emitter.new + length (expression_steps (tested out)) + 30 ≤ extent emitter.old + 400 * nodes_of cond.now) }
    ensures few { IfOk result (λ out. length (expression_steps (tested out)) + 1 ≤ 4 * nodes_of cond.now) }
{
    match cond {
        Cond::Compare(operator, left, right) => {
            let x = emit_expr(emitter, left, known)?;
            let y = emit_expr(emitter, right, known)?;
            emitter.test_comparison(*operator, x, y)
        }
        Cond::Between(operand, least, greatest) => {
            test_between(alloc, emitter, operand, least, greatest, known)
        }
        Cond::In(operand, values) => test_among(alloc, emitter, operand, values, known),
        Cond::Not(operand) => match plain(alloc, operand, known)? {
            Some(test) => test.not(alloc),
            None => {
                let t = emit_truth(emitter, operand, known)?;
                emitter.test_negation(t)
            }
        },
        Cond::And(left, right) => match plain(alloc, right, known)? {
            Some(second) => test_of(alloc, emitter, left, known)?.both(alloc, second),
            None => emitter.test_truth(cond, known),
        },
        Cond::Or(left, right) => match plain(alloc, right, known)? {
            Some(second) => test_of(alloc, emitter, left, known)?.either(alloc, second),
            None => emitter.test_truth(cond, known),
        },
        Cond::Predicate(_, _) | Cond::Is(_, _) => emitter.test_truth(cond, known),
    }
}

/// So many null words are tested before a condition: more are tested each where its value is used.
const MOST_NULLS: usize = 8;

/// Adds the block of a condition, and tells the test of whether it is true: every column and every literal of it but NULL is known. Where it
/// is unknown as soon as a column of its is null, all null words are tested at once.
///
/// # Errors
///
/// [`NoMemory`] where memory does not suffice, or there are too many locals.
pub fn emit_test(
    alloc: Global,
    emitter: &mut Emitter,
    cond: &Cond,
    known: &[Binding],
) -> Result<Test, NoMemory>
    requires typed { AreTyped (condition_of cond.now) }
    requires known { TakeKnown (known_of known.now) (condition_of cond.now) }
    requires served { IsServed (free_of emitter.old) (known_of known.now) }
    ensures emits { IfOk result (λ out. EmitsTest (known_of known.now) (condition_of cond.now) emitter.old emitter.new out) }
    ensures short { OnOk result (extent emitter.new ≤ extent emitter.old + 400 * nodes_of cond.now) }
    ensures few { IfOk result (λ out. length (expression_steps (tested out)) + 1 ≤ 4 * nodes_of cond.now) }
{
    let Some(sure) = sure_of(alloc, cond, known)? else {
        return test_of(alloc, emitter, cond, known);
    };
    let Some((first, rest)) = sure.nulls.split_first() else {
        return test_of(alloc, emitter, cond, known);
    };
    if rest.len() < MOST_NULLS {
        emit_guarded(alloc, emitter, cond, *first, rest, &sure.leaves)
    } else {
        test_of(alloc, emitter, cond, known)
    }
}
