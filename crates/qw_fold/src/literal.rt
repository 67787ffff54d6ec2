//! Literals of numbers and dates (ISO/IEC 9075:1992, 5.3), and what an operation on them comes to.

ghost use Rattle.std.specs.Prelude.{◌≡◌, ◌≤◌, [], ℕ, IfOk, IsTrue, List, MatchOption, Option};
ghost use Rattle.qw_types.specs.Arithmetic.{fits};
ghost use Rattle.qw_scalar.specs.Columns.{HasColumns, HoldsIn};
ghost use Rattle.qw_scalar.specs.Evaluation.{value_of, at_row};
ghost use Rattle.qw_scalar.specs.Expression.{Expression, scale_of};
ghost use Rattle.qw_scalar.specs.Nodes.{nodes};
ghost use Rattle.qw_scalar.specs.Tree.{expression_of};
ghost use Rattle.qw_scalar.specs.Typing.{IsTyped};
ghost use Rattle.qw_scalar.specs.declared.expression.Expr.TheVariants.{Number};
ghost use Rattle.qw_fold.specs.Folded.{IsAtScale, IsFolded};
ghost use Rattle.qw_scalar.specs.Texts.{texts_in};
ghost use Rattle.qw_fold.specs.Inner.Made.{IsBrought, IsFoldAt, IsFoldOf, number_in};

use qw_scalar::evaluate::{scale, value};
use qw_scalar::expression::Expr;
use qw_scalar::value::Value;
use qw_types::{NoMemory, Text, arithmetic};
use std::alloc::Global;

/// Whether an expression is a literal of a number.
pub(crate) fn is_number(expr: &Expr) -> bool
    ensures { result ≡ Rattle.qw_fold.specs.Inner.Made.is_number expr.now }
{
    match expr {
        Expr::Number(_, _) => true,
        _ => false,
    }
}

/// Whether it is a literal of a date.
pub(crate) fn is_date(expr: &Expr) -> bool
    ensures { result ≡ Rattle.qw_fold.specs.Inner.Made.is_date expr.now }
{
    match expr {
        Expr::Date(_) => true,
        _ => false,
    }
}

/// An expression at a scale where it is a literal of a smaller one that has at most 18 digits there; any other one as it is.
pub(crate) fn at_scale(expr: Expr, to: u8) -> Expr
    requires typed { IsTyped (expression_of expr) }
    requires near { to ≤ 18 }
    ensures brought { IsBrought to (expression_of expr) (expression_of result) }
    ensures at { IsAtScale to result }
    ensures folded { IsFolded expr → IsFolded result }
    ensures nodes { nodes result ≡ nodes expr }
    ensures texts { texts_in result ≡ texts_in expr }
    ensures stands { (e : Expression) (count : ℕ) (texts : List (List ℕ)) → IsFoldOf e count texts expr → IsFoldAt to e count texts result }
{
    match expr {
        Expr::Number(number, from) if from < to => match arithmetic::bring(number, from, to) {
            Ok(brought) => Expr::Number(brought, to),
            Err(_) => Expr::Number(number, from),
        },
        other => other,
    }
}

/// The number that an expression over no column comes to, none where it raises or comes to no number.
fn number_of(expr: &Expr) -> Option<i64>
    requires typed { IsTyped (expression_of expr.now) }
    requires constant { HasColumns (HoldsIn []) (expression_of expr.now) }
    ensures number { result ≡ number_in (value_of (expression_of expr.now) (at_row [])) }
    ensures fits { MatchOption result (Unit {0}) (λ v. IsTrue (fits v)) }
{
    match value(expr, &[]) {
        Ok(Value::Number(number)) => Some(number),
        _ => None,
    }
}

/// The literal that an expression over no column comes to; the expression itself where it raises or comes to no number.
pub(crate) fn evaluated(expr: Expr) -> Expr
    requires typed { IsTyped (expression_of expr) }
    requires constant { HasColumns (HoldsIn []) (expression_of expr) }
    ensures { MatchOption (number_in (value_of (expression_of expr) (at_row []))) (result ≡ expr)
        (λ v. (result ≡ Number v (scale_of (expression_of expr))) × IsTrue (fits v)) }
{
    match number_of(&expr) {
        Some(number) => Expr::Number(number, scale(&expr)),
        None => expr,
    }
}

/// Another text with the same octets.
pub(crate) fn copy_of(alloc: Global, text: &Text) -> Result<Text, NoMemory>
    ensures { IfOk result (λ copy. copy ≡ text.now) }
{
    let copy = String::from_str(alloc, text.as_str())?;
    Ok(Text::new(copy))
}
