//! Blocks of whole expressions and conditions (ISO/IEC 9075:1992, 6.11, 8.12): one call over a tree.
//!
//! What an abbreviation names twice, as the operand of BETWEEN, IN, CASE and NULLIF, is evaluated once: its operand is handed on.

ghost use Rattle.std.specs.Prelude.{◌≡◌, ℕ, ◌≤◌, IfOk, IsTrue, ◌+◌, ◌*◌, List, length, OnOk};
ghost use Rattle.qw_scalar.specs.Expression.{Condition, among, between, brought, cases, coalesced, comparison, is_there, scale_of, unless_among};
ghost use Rattle.qw_scalar.specs.Nodes.{nodes, nodes_of, nodes_of_all, nodes_of_branches, nodes_of_matches};
ghost use Rattle.qw_scalar.specs.Tree.{choices_of, condition_of, expression_of, expressions_of, matches_of};
ghost use Rattle.qw_scalar.specs.Typing.{AreTyped, IsTyped, kind_of};
ghost use Rattle.qw_expr.specs.Cells.{IsBelow};
ghost use Rattle.qw_expr.specs.Bindings.{IsServed, TakeKnown, TakesKnown, known_of};
ghost use Rattle.qw_expr.specs.Computes.{Known};
ghost use Rattle.qw_expr.specs.declared.emitter.Emitter.{Emitter};
ghost use Rattle.qw_expr.specs.Emits.{Emits, EmitsTruth, comparing, extent, free_of};
ghost use Rattle.qw_expr.specs.Inner.Choices.{Suits};
ghost use Rattle.qw_expr.specs.Inner.Made.{Asks, Includes, Made, MadeTruth, Starts, with_operand};

use crate::choice::Started;
use crate::emitter::Emitter;
use crate::known::{Binding, column_of, date_of, number_of, text_of};
use crate::operand::Operand;
use qw_low::cell::Cell;
use qw_scalar::comparison::Comparison;
use qw_scalar::evaluate::scale;
use qw_scalar::expression::{Branches, Cond, Expr, Exprs, Function, Matches, Predicate};
use qw_scalar::kind::of_expression;
use qw_types::{Kind, NoMemory};

/// What a choice leaves: the scale that its results are brought to, and whether they are texts.
#[derive(Clone, Copy)]
struct Form {
    scale: u8,
    text: bool,
}

/// Adds an expression.
#[cycle(tree)]
fn expression(emitter: &mut Emitter, expr: &Expr, known: &[Binding]) -> Result<Operand, NoMemory>
    requires typed { IsTyped (expression_of expr.now) }
    requires known { TakesKnown (known_of known.now) (expression_of expr.now) }
    requires served { IsServed (free_of emitter.old) (known_of known.now) }
    ensures { IfOk result (λ out. Made (known_of known.now) (expression_of expr.now) (400 * nodes expr.now) emitter.old emitter.new out) }
{
    match expr {
        Expr::Null => emitter.null(),
        Expr::Number(value, scale) => Ok(number_of(known, *value, *scale)),
        Expr::Date(day) => Ok(date_of(known, *day)),
        Expr::Text(text) => Ok(text_of(known, text)),
        Expr::Column(index, ty) => Ok(column_of(known, *index, *ty)),
        Expr::Arithmetic(operator, left, right) => {
            let a = expression(emitter, left, known)?;
            let b = expression(emitter, right, known)?;
            emitter.arithmetic(*operator, a, b)
        }
        Expr::Negative(operand) => {
            let a = expression(emitter, operand, known)?;
            emitter.negative(a)
        }
        Expr::Extract(field, operand) => {
            let a = expression(emitter, operand, known)?;
            emitter.extract(*field, a)
        }
        Expr::Case(branches) => branch(emitter, branches, Form::of(expr), known),
        Expr::Match(operand, matches) => {
            let x = expression(emitter, operand, known)?;
            matched(emitter, matches, operand, x, Form::of(expr), known)
        }
        Expr::Call(function, arguments) => match function {
            Function::Coalesce => coalesce(emitter, arguments, Form::of(expr), known),
            Function::NullIf => unless_among(emitter, arguments, Form::of(expr), known),
        },
    }
}

/// Adds an expression, brought to a scale.
#[cycle(tree)]
fn scaled(
    emitter: &mut Emitter,
    expr: &Expr,
    to: u8,
    known: &[Binding],
) -> Result<Operand, NoMemory>
    requires typed { IsTyped (brought (expression_of expr.now) to) }
    requires known { TakesKnown (known_of known.now) (expression_of expr.now) }
    requires served { IsServed (free_of emitter.old) (known_of known.now) }
    ensures { IfOk result (λ out. Made (known_of known.now) (brought (expression_of expr.now) to) (400 * nodes expr.now + 85) emitter.old emitter.new out) }
{
    let a = expression(emitter, expr, known)?;
    emitter.brought(a, to)
}

/// Begins a choice by a truth, and adds what it gives where that is true.
#[cycle(tree)]
fn first_result(
    emitter: &mut Emitter,
    test: Cell,
    expr: &Expr,
    form: Form,
    known: &[Binding],
) -> Result<Started, NoMemory>
    requires typed { IsTyped (brought (expression_of expr.now) form.scale) }
    requires known { TakesKnown (known_of known.now) (expression_of expr.now) }
    requires served { IsServed (free_of emitter.old) (known_of known.now) }
    ensures { IfOk result (λ begun. (all : List Known) (c : Condition) (most : ℕ) (start : Emitter) → Includes all (known_of known.now) → IsServed (free_of start) all → MadeTruth all c most start emitter.old test →
        Starts all c (brought (expression_of expr.now) form.scale) form.text (most + (400 * nodes expr.now + 100)) start emitter.new begun) }
{
    let place = emitter.begin_choice(test, form.text)?;
    let a = expression(emitter, expr, known)?;
    let first = emitter.first_brought(place, a, form.scale)?;
    Ok(Started { place, first })
}

/// Adds the first result whose condition is true, brought to a scale.
#[cycle(tree)]
fn branch(
    emitter: &mut Emitter,
    branches: &Branches,
    form: Form,
    known: &[Binding],
) -> Result<Operand, NoMemory>
    requires asks { Asks (known_of known.now) form.text (cases form.scale (choices_of branches.now)) }
    requires served { IsServed (free_of emitter.old) (known_of known.now) }
    ensures { IfOk result (λ out. Made (known_of known.now) (cases form.scale (choices_of branches.now)) (400 * nodes_of_branches branches.now) emitter.old emitter.new out) }
{
    match branches {
        Branches::Else(result) => scaled(emitter, result, form.scale, known),
        Branches::When(test, result, rest) => {
            let t = condition(emitter, test, known)?;
            let begun = first_result(emitter, t, result, form, known)?;
            let second = branch(emitter, rest, form, known)?;
            emitter.end_choice(begun.place, begun.first, second)
        }
    }
}

/// Adds the first result whose value equals an operand's, which is known, brought to a scale.
#[cycle(tree)]
fn matched(
    emitter: &mut Emitter,
    matches: &Matches,
    operand: &Expr,
    x: Operand,
    form: Form,
    known: &[Binding],
) -> Result<Operand, NoMemory>
    requires asks { Asks (known_of known.now) form.text (cases form.scale (matches_of matches.now (expression_of operand.now))) }
    requires served { IsServed (free_of emitter.old) (with_operand (expression_of operand.now) x (known_of known.now)) }
    ensures { IfOk result (λ out. Made (with_operand (expression_of operand.now) x (known_of known.now)) (cases form.scale (matches_of matches.now (expression_of operand.now))) (400 * nodes_of_matches matches.now) emitter.old emitter.new out) }
{
    match matches {
        Matches::Last(wanted, result, other) => {
            let t = against(emitter, Comparison::Equal, wanted, operand, x, known)?;
            let begun = first_result(emitter, t, result, form, known)?;
            let second = scaled(emitter, other, form.scale, known)?;
            emitter.end_choice(begun.place, begun.first, second)
        }
        Matches::When(wanted, result, rest) => {
            let t = against(emitter, Comparison::Equal, wanted, operand, x, known)?;
            let begun = first_result(emitter, t, result, form, known)?;
            let second = matched(emitter, rest, operand, x, form, known)?;
            emitter.end_choice(begun.place, begun.first, second)
        }
    }
}

/// Adds the first argument that isn't null, brought to a scale, or the last one.
#[cycle(tree)]
fn coalesce(
    emitter: &mut Emitter,
    arguments: &Exprs,
    form: Form,
    known: &[Binding],
) -> Result<Operand, NoMemory>
    requires asks { Asks (known_of known.now) form.text (cases form.scale (coalesced (expressions_of arguments.now))) }
    requires served { IsServed (free_of emitter.old) (known_of known.now) }
    ensures { IfOk result (λ out. Made (known_of known.now) (cases form.scale (coalesced (expressions_of arguments.now))) (400 * nodes_of_all arguments.now) emitter.old emitter.new out) }
{
    match arguments {
        Exprs::Last(argument) => scaled(emitter, argument, form.scale, known),
        Exprs::More(argument, rest) => {
            let x = expression(emitter, argument, known)?;
            let begun = unless_null(emitter, argument, x, form, known)?;
            let second = coalesce(emitter, rest, form, known)?;
            emitter.end_choice(begun.place, begun.first, second)
        }
    }
}

/// Adds the first argument, and null where it equals one of the others.
#[cycle(tree)]
fn unless_among(
    emitter: &mut Emitter,
    arguments: &Exprs,
    form: Form,
    known: &[Binding],
) -> Result<Operand, NoMemory>
    requires asks { Asks (known_of known.now) form.text (unless_among (expressions_of arguments.now)) }
    requires scale { form.scale ≡ scale_of (unless_among (expressions_of arguments.now)) }
    requires served { IsServed (free_of emitter.old) (known_of known.now) }
    ensures { IfOk result (λ out. Made (known_of known.now) (unless_among (expressions_of arguments.now)) (400 * nodes_of_all arguments.now) emitter.old emitter.new out) }
{
    match arguments {
        Exprs::Last(argument) => scaled(emitter, argument, form.scale, known),
        Exprs::More(argument, others) => {
            let x = expression(emitter, argument, known)?;
            let t = among(emitter, others, argument, x, known)?;
            emitter.null_where(t, x, form.text)
        }
    }
}

/// Adds a condition.
#[cycle(tree)]
fn condition(emitter: &mut Emitter, cond: &Cond, known: &[Binding]) -> Result<Cell, NoMemory>
    requires typed { AreTyped (condition_of cond.now) }
    requires known { TakeKnown (known_of known.now) (condition_of cond.now) }
    requires served { IsServed (free_of emitter.old) (known_of known.now) }
    ensures { IfOk result (λ out. MadeTruth (known_of known.now) (condition_of cond.now) (400 * nodes_of cond.now) emitter.old emitter.new out) }
{
    match cond {
        Cond::Compare(operator, left, right) => {
            let x = expression(emitter, left, known)?;
            against(emitter, *operator, right, left, x, known)
        }
        Cond::Between(operand, least, greatest) => {
            let x = expression(emitter, operand, known)?;
            let t = against(
                emitter,
                Comparison::GreaterOrEqual,
                least,
                operand,
                x,
                known,
            )?;
            emitter.begin_and(t)?;
            let u = against(
                emitter,
                Comparison::LessOrEqual,
                greatest,
                operand,
                x,
                known,
            )?;
            emitter.end_and(t, u)
        }
        Cond::In(operand, values) => {
            let x = expression(emitter, operand, known)?;
            among(emitter, values, operand, x, known)
        }
        Cond::Predicate(wanted, operand) => {
            let x = expression(emitter, operand, known)?;
            emitter.predicate(*wanted, x)
        }
        Cond::And(left, right) => {
            let t = condition(emitter, left, known)?;
            emitter.begin_and(t)?;
            let u = condition(emitter, right, known)?;
            emitter.end_and(t, u)
        }
        Cond::Or(left, right) => {
            let t = condition(emitter, left, known)?;
            emitter.begin_or(t)?;
            let u = condition(emitter, right, known)?;
            emitter.end_or(t, u)
        }
        Cond::Not(operand) => {
            let t = condition(emitter, operand, known)?;
            emitter.negation(t)
        }
        Cond::Is(operand, wanted) => {
            let t = condition(emitter, operand, known)?;
            emitter.is_truth(t, *wanted)
        }
    }
}

/// Adds the comparison of a known operand with an expression.
#[cycle(tree)]
fn against(
    emitter: &mut Emitter,
    operator: Comparison,
    right: &Expr,
    operand: &Expr,
    x: Operand,
    known: &[Binding],
) -> Result<Cell, NoMemory>
    requires typed { AreTyped (comparison operator (expression_of operand.now) (expression_of right.now)) }
    requires known { TakeKnown (known_of known.now) (comparison operator (expression_of operand.now) (expression_of right.now)) }
    requires served { IsServed (free_of emitter.old) (with_operand (expression_of operand.now) x (known_of known.now)) }
    ensures { IfOk result (λ out. MadeTruth (with_operand (expression_of operand.now) x (known_of known.now)) (comparison operator (expression_of operand.now) (expression_of right.now)) (400 * nodes right.now + comparing operator) emitter.old emitter.new out) }
{
    let y = expression(emitter, right, known)?;
    emitter.compare(operator, x, y)
}

/// Adds whether a known operand equals one of some values, up to the first that it equals (8.4).
#[cycle(tree)]
pub(crate) fn among(
    emitter: &mut Emitter,
    values: &Exprs,
    operand: &Expr,
    x: Operand,
    known: &[Binding],
) -> Result<Cell, NoMemory>
    requires typed { AreTyped (among (expression_of operand.now) (expressions_of values.now)) }
    requires known { TakeKnown (known_of known.now) (among (expression_of operand.now) (expressions_of values.now)) }
    requires served { IsServed (free_of emitter.old) (with_operand (expression_of operand.now) x (known_of known.now)) }
    ensures { IfOk result (λ out. MadeTruth (with_operand (expression_of operand.now) x (known_of known.now)) (among (expression_of operand.now) (expressions_of values.now)) (400 * nodes_of_all values.now) emitter.old emitter.new out) }
{
    match values {
        Exprs::Last(wanted) => against(emitter, Comparison::Equal, wanted, operand, x, known),
        Exprs::More(wanted, rest) => {
            let t = against(emitter, Comparison::Equal, wanted, operand, x, known)?;
            emitter.begin_or(t)?;
            let u = among(emitter, rest, operand, x, known)?;
            emitter.end_or(t, u)
        }
    }
}

/// Begins what is done where a known operand is null, which is left at a scale where it isn't.
fn unless_null(
    emitter: &mut Emitter,
    operand: &Expr,
    x: Operand,
    form: Form,
    known: &[Binding],
) -> Result<Started, NoMemory>
    requires typed { IsTyped (brought (expression_of operand.now) form.scale) }
    requires served { IsServed (free_of emitter.old) (with_operand (expression_of operand.now) x (known_of known.now)) }
    ensures { IfOk result (λ begun. Starts (with_operand (expression_of operand.now) x (known_of known.now)) (is_there (expression_of operand.now)) (brought (expression_of operand.now) form.scale) form.text 110 emitter.old emitter.new begun) }
{
    let null = emitter.predicate(Predicate::IsNull, x)?;
    let t = emitter.negation(null)?;
    let place = emitter.begin_choice(t, form.text)?;
    let first = emitter.first_brought(place, x, form.scale)?;
    Ok(Started { place, first })
}

impl Form {
    /// The form of an expression's values.
    fn of(expr: &Expr) -> Form
        requires { IsTyped (expression_of expr.now) }
        ensures scale { result.scale ≡ scale_of (expression_of expr.now) }
        ensures text { Suits result.text (kind_of (expression_of expr.now)) }
    {
        Form {
            scale: scale(expr),
            text: matches!(of_expression(expr), Some(Kind::Text)),
        }
    }
}

/// Adds whether a known operand lies between two expressions (8.3), the second of which is skipped where it is less than the first.
pub(crate) fn between(
    emitter: &mut Emitter,
    operand: &Expr,
    x: Operand,
    least: &Expr,
    greatest: &Expr,
    known: &[Binding],
) -> Result<Cell, NoMemory>
    requires typed { AreTyped (between (expression_of operand.now) (expression_of least.now) (expression_of greatest.now)) }
    requires known { TakeKnown (known_of known.now) (between (expression_of operand.now) (expression_of least.now) (expression_of greatest.now)) }
    requires served { IsServed (free_of emitter.old) (with_operand (expression_of operand.now) x (known_of known.now)) }
    ensures { IfOk result (λ out. MadeTruth (with_operand (expression_of operand.now) x (known_of known.now)) (between (expression_of operand.now) (expression_of least.now) (expression_of greatest.now)) (400 * (nodes least.now + nodes greatest.now) + 300) emitter.old emitter.new out) }
{
    let t = against(
        emitter,
        Comparison::GreaterOrEqual,
        least,
        operand,
        x,
        known,
    )?;
    emitter.begin_and(t)?;
    let u = against(
        emitter,
        Comparison::LessOrEqual,
        greatest,
        operand,
        x,
        known,
    )?;
    emitter.end_and(t, u)
}

/// Adds the block of an expression: every column and every literal of it but NULL is known.
///
/// # Errors
///
/// [`NoMemory`] where memory does not suffice, or there are too many locals.
pub fn emit_expr(emitter: &mut Emitter, expr: &Expr, known: &[Binding]) -> Result<Operand, NoMemory>
    requires typed { IsTyped (expression_of expr.now) }
    requires known { TakesKnown (known_of known.now) (expression_of expr.now) }
    requires served { IsServed (free_of emitter.old) (known_of known.now) }
    ensures emits { IfOk result (λ out. Emits (known_of known.now) (expression_of expr.now) emitter.old emitter.new out) }
    ensures short { OnOk result (extent emitter.new ≤ extent emitter.old + 400 * nodes expr.now) }
{
    expression(emitter, expr, known)
}

/// Adds the block of a condition: every column and every literal of it but NULL is known.
///
/// # Errors
///
/// [`NoMemory`] where memory does not suffice, or there are too many locals.
pub fn emit_truth(emitter: &mut Emitter, cond: &Cond, known: &[Binding]) -> Result<Cell, NoMemory>
    requires typed { AreTyped (condition_of cond.now) }
    requires known { TakeKnown (known_of known.now) (condition_of cond.now) }
    requires served { IsServed (free_of emitter.old) (known_of known.now) }
    ensures emits { IfOk result (λ out. EmitsTruth (known_of known.now) (condition_of cond.now) emitter.old emitter.new out) }
    ensures short { OnOk result (extent emitter.new ≤ extent emitter.old + 400 * nodes_of cond.now) }
{
    condition(emitter, cond, known)
}
