//! Which columns make a condition unknown where one of them is null, and whether it can raise at a row that a scan reads.

ghost use Rattle.std.specs.Prelude.{◌≡◌, List, IsTrue, IfOk, Ok};
ghost use Rattle.std.specs.List.{AllByRecursion};
ghost use Rattle.qw_types.specs.Value.{IsSized};
ghost use Rattle.qw_types.specs.declared.truth.Truth.{Truth};
ghost use Rattle.qw_types.specs.declared.value.Val.{Val};
ghost use Rattle.qw_scalar.specs.Evaluation.{at_row, truth_of};
ghost use Rattle.qw_scalar.specs.Tree.{condition_of};
ghost use Rattle.qw_scalar.specs.Typing.{AreTyped};
ghost use Rattle.qw_raise.specs.Range.{IsInRange};
ghost use Rattle.qw_read.specs.declared.reader.Reader as reader;
ghost use Rattle.qw_operator.specs.Inner.Strict as strict;
ghost use Rattle.qw_operator.specs.Inner.Strict.{IsReadColumn, IsReadLeaf};

use qw_leaves::gather::leaves_within;
use qw_leaves::leaf::Leaf;
use qw_low::cell::Local;
use qw_raise::raise::condition_can_raise;
use qw_read::reader::Reader;
use qw_scalar::expression::{Cond, Expr};
use qw_types::{NoMemory, Ty};
use std::alloc::Global;

/// Whether an expression is null, if it is not an exception, where a column is: operators on null give null (ISO/IEC 9075:1992, 6.12).
fn makes_null(expr: &Expr, column: usize) -> bool
    ensures { result ≡ strict.makes_null expr.now column }
{
    match expr {
        Expr::Column(index, _) => *index == column,
        Expr::Arithmetic(_, left, right) => makes_null(left, column) || makes_null(right, column),
        Expr::Negative(operand) => makes_null(operand, column),
        Expr::Extract(_, operand) => makes_null(operand, column),
        Expr::Null
        | Expr::Number(_, _)
        | Expr::Date(_)
        | Expr::Text(_)
        | Expr::Case(_)
        | Expr::Match(_, _)
        | Expr::Call(_, _) => false,
    }
}

/// Whether a condition is unknown, if it is not an exception, where a column is null (8.2 to 8.4, 8.12).
fn makes_unknown(cond: &Cond, column: usize) -> bool
    ensures { result ≡ strict.makes_unknown cond.now column }
{
    match cond {
        Cond::Compare(_, left, right) => makes_null(left, column) || makes_null(right, column),
        Cond::Between(operand, _, _) => makes_null(operand, column),
        Cond::In(operand, _) => makes_null(operand, column),
        Cond::Not(operand) => makes_unknown(operand, column),
        Cond::Predicate(_, _) | Cond::And(_, _) | Cond::Or(_, _) | Cond::Is(_, _) => false,
    }
}

/// Whether a column may be null, is read by these locals, and makes a condition unknown.
pub(crate) fn is_tested(cond: &Cond, left: Local, end: Local, reader: Reader) -> bool
    ensures { result ≡ strict.is_tested cond.now left end reader }
{
    !reader.not_null
        && reader.left == left
        && reader.end == end
        && makes_unknown(cond, reader.column)
}

/// Whether a type is within the limits of types.
fn is_sized(ty: Ty) -> bool
    ensures { IsTrue result → IsSized ty }
{
    match ty {
        Ty::Integer | Ty::Date => true,
        Ty::Decimal { precision, scale } => precision >= 1 && precision <= 18 && scale <= precision,
        Ty::Varchar { length } => length >= 1 && length <= 1000,
    }
}

/// Whether a column is one of those that are read, with its type.
fn is_read_column(readers: &[Reader], column: usize, ty: Ty) -> bool
    ensures { IsTrue result → IsReadColumn readers.now column ty }
{
    let Some((first, rest)) = readers.split_first() else {
        return false;
    };
    if first.column == column && first.ty == ty {
        return true;
    }
    is_read_column(rest, column, ty)
}

/// Whether a leaf is a literal, or a column that is read.
fn is_read(leaf: &Leaf, readers: &[Reader]) -> bool
    ensures { IsTrue result → IsReadLeaf readers.now leaf.now }
{
    match leaf {
        Leaf::Column(column, ty) => is_sized(*ty) && is_read_column(readers, *column, *ty),
        Leaf::Number(_, _) | Leaf::Date(_) | Leaf::Text(_) => true,
    }
}

/// Whether each leaf is.
fn are_read(leaves: &[Leaf], readers: &[Reader]) -> bool
    ensures { IsTrue result → AllByRecursion (IsReadLeaf readers.now) leaves.now }
{
    let Some((first, rest)) = leaves.split_first() else {
        return true;
    };
    if !is_read(first, readers) {
        return false;
    }
    are_read(rest, readers)
}

/// Whether a condition is known to raise nothing at a row, by the types of the columns that are read.
pub(crate) fn is_quiet(alloc: Global, cond: &Cond, readers: &[Reader]) -> Result<bool, NoMemory>
    requires typed { AreTyped (condition_of cond.now) }
    ensures { IfOk result (λ quiet. IsTrue quiet → (row : List Val) → AllByRecursion (λ (r : reader.Reader). IsInRange row r.column r.ty) readers.now → (t : Truth) × (truth_of (condition_of cond.now) (at_row row) ≡ Ok t)) }
{
    let leaves = leaves_within(alloc, cond)?;
    if !are_read(&leaves, readers) {
        return Ok(false);
    }
    let raises = condition_can_raise(cond);
    Ok(!raises)
}
