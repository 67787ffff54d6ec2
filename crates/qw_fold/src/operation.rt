//! Operators over operands that are folded (ISO/IEC 9075:1992, 6.6, 6.11, 6.12).

ghost use Rattle.std.specs.Prelude.{◌≡◌, ◌+◌, ◌++◌, ◌&&◌, IfOk};
ghost use Rattle.qw_scalar.specs.Expression.{arithmetic, comparison, extract, negative};
ghost use Rattle.qw_scalar.specs.Nodes.{nodes};
ghost use Rattle.qw_scalar.specs.Tree.{expression_of};
ghost use Rattle.qw_scalar.specs.Typing.{IsTyped};
ghost use Rattle.qw_fold.specs.Folded.{AreOperands, IsFolded, IsLeft, IsNoDate, IsNoNumber};
ghost use Rattle.qw_scalar.specs.Texts.{texts_in};
ghost use Rattle.qw_fold.specs.Inner.Made.{AreFoldOf, BroughtTogether, IsBuilt, IsFoldOf};

use crate::construct::{arithmetic_tree, compare_tree, extract_tree, negative_tree};
use crate::literal::{at_scale, evaluated, is_date, is_number};
use qw_scalar::comparison::Comparison;
use qw_scalar::evaluate::scale;
use qw_scalar::expression::{Cond, Expr, Field, Operator};
use qw_types::NoMemory;
use std::alloc::Global;

/// Two expressions, of which one that is a literal is brought to the larger scale of both, where it has at most 18 digits there.
pub(crate) fn at_one_scale(left: Expr, right: Expr) -> (Expr, Expr)
    requires typed { IsTyped (expression_of left) × IsTyped (expression_of right) }
    ensures { BroughtTogether left right result.0 result.1 }
{
    let to = scale(&left).max(scale(&right));
    (at_scale(left, to), at_scale(right, to))
}

/// `left operator right`: a literal where both operands are, and it doesn't raise.
pub(crate) fn arithmetic(
    alloc: Global,
    operator: Operator,
    left: Expr,
    right: Expr,
) -> Result<Expr, NoMemory>
    requires typed { IsTyped (arithmetic operator (expression_of left) (expression_of right)) }
    requires folded { IsFolded left × IsFolded right }
    ensures { IfOk result (λ made. IsFoldOf (arithmetic operator (expression_of left) (expression_of right)) (1 + nodes left + nodes right) (texts_in left ++ texts_in right) made) }
{
    match operator {
        Operator::Add | Operator::Subtract => {
            let (left, right) = at_one_scale(left, right);
            operation(alloc, operator, left, right)
        }
        Operator::Multiply | Operator::Divide => operation(alloc, operator, left, right),
    }
}

/// The same of operands that need no other scale.
fn operation(alloc: Global, operator: Operator, left: Expr, right: Expr) -> Result<Expr, NoMemory>
    requires typed { IsTyped (arithmetic operator (expression_of left) (expression_of right)) }
    requires folded { IsFolded left × IsFolded right }
    requires operands { AreOperands operator left right }
    ensures { IfOk result (λ made. IsFoldOf (arithmetic operator (expression_of left) (expression_of right)) (1 + nodes left + nodes right) (texts_in left ++ texts_in right) made) }
{
    let literals = are_numbers(&left, &right);
    let tree = arithmetic_tree(alloc, operator, left, right)?;
    if literals {
        return Ok(evaluated(tree));
    }
    Ok(tree)
}

/// Whether both are literals of numbers.
fn are_numbers(left: &Expr, right: &Expr) -> bool
    ensures { result ≡ Rattle.qw_fold.specs.Inner.Made.is_number left.now && Rattle.qw_fold.specs.Inner.Made.is_number right.now }
{
    is_number(left) && is_number(right)
}

/// `- operand`: a literal where the operand is.
pub(crate) fn negative(alloc: Global, operand: Expr) -> Result<Expr, NoMemory>
    requires typed { IsTyped (negative (expression_of operand)) }
    requires folded { IsFolded operand }
    ensures { IfOk result (λ made. IsFoldOf (negative (expression_of operand)) (1 + nodes operand) (texts_in operand) made) }
{
    let literal = is_number(&operand);
    let tree = negative_tree(alloc, operand)?;
    if literal {
        return Ok(evaluated(tree));
    }
    Ok(tree)
}

/// `EXTRACT(field FROM operand)`: a literal where the operand is.
pub(crate) fn extract(alloc: Global, field: Field, operand: Expr) -> Result<Expr, NoMemory>
    requires typed { IsTyped (extract field (expression_of operand)) }
    requires folded { IsFolded operand }
    ensures { IfOk result (λ made. IsFoldOf (extract field (expression_of operand)) (1 + nodes operand) (texts_in operand) made) }
{
    let literal = is_date(&operand);
    let tree = extract_tree(alloc, field, operand)?;
    if literal {
        return Ok(evaluated(tree));
    }
    Ok(tree)
}

/// `left op right`.
pub(crate) fn compared(
    alloc: Global,
    op: Comparison,
    left: Expr,
    right: Expr,
) -> Result<Cond, NoMemory>
    requires typed { IsTyped (expression_of left) × IsTyped (expression_of right) }
    requires folded { IsFolded left × IsFolded right }
    ensures { IfOk result (λ made. AreFoldOf (comparison op (expression_of left) (expression_of right)) (1 + nodes left + nodes right) (texts_in left ++ texts_in right) made) }
{
    let (left, right) = at_one_scale(left, right);
    compare_tree(alloc, op, left, right)
}
