//! The leaves of trees, from left to right: the columns and the literals that they take.

ghost use Rattle.std.specs.Prelude.{◌≡◌, ◌++◌, [], IfOk, IsUtf8, OnOk};
ghost use Rattle.std.specs.List.{flat_map};
ghost use Rattle.qw_leaves.specs.Leaves as gathered;
ghost use Rattle.qw_leaves.specs.Leaves.{Gathers, leaves_in, leaves_of_all, leaves_of_branches, leaves_of_matches, leaves_within};

use crate::leaf::Leaf;
use qw_scalar::expression::{Branches, Cond, Expr, Exprs, Matches};
use qw_types::{NoMemory, Text};
use std::alloc::Global;

/// Another text with the same octets.
fn copy_of(alloc: Global, text: &Text) -> Result<Text, NoMemory>
    ensures { IfOk result (λ copy. (copy ≡ text.now) × IsUtf8 text.now) }
{
    let copy = String::from_str(alloc, text.as_str())?;
    Ok(Text::new(copy))
}

/// Adds the leaves of an expression.
#[cycle(gathering)]
fn from_expression(alloc: Global, leaves: &mut Vec<Leaf>, expr: &Expr) -> Result<(), NoMemory>
    ensures { OnOk result (Gathers leaves.old.items leaves.new.items (leaves_in expr.now)) }
{
    match expr {
        Expr::Null => Ok(()),
        Expr::Number(value, scale) => {
            leaves.push(Leaf::Number(*value, *scale))?;
            Ok(())
        }
        Expr::Date(day) => {
            leaves.push(Leaf::Date(*day))?;
            Ok(())
        }
        Expr::Text(text) => {
            let copy = copy_of(alloc, text)?;
            leaves.push(Leaf::Text(copy))?;
            Ok(())
        }
        Expr::Column(column, ty) => {
            leaves.push(Leaf::Column(*column, *ty))?;
            Ok(())
        }
        Expr::Arithmetic(_, left, right) => {
            from_expression(alloc, leaves, left)?;
            from_expression(alloc, leaves, right)
        }
        Expr::Negative(operand) => from_expression(alloc, leaves, operand),
        Expr::Extract(_, operand) => from_expression(alloc, leaves, operand),
        Expr::Case(branches) => from_branches(alloc, leaves, branches),
        Expr::Match(operand, matches) => {
            from_expression(alloc, leaves, operand)?;
            from_matches(alloc, leaves, matches)
        }
        Expr::Call(_, arguments) => from_all(alloc, leaves, arguments),
    }
}

/// Adds those of a condition.
#[cycle(gathering)]
fn from_condition(alloc: Global, leaves: &mut Vec<Leaf>, cond: &Cond) -> Result<(), NoMemory>
    ensures { OnOk result (Gathers leaves.old.items leaves.new.items (leaves_within cond.now)) }
{
    match cond {
        Cond::Compare(_, left, right) => {
            from_expression(alloc, leaves, left)?;
            from_expression(alloc, leaves, right)
        }
        Cond::Between(operand, least, greatest) => {
            from_expression(alloc, leaves, operand)?;
            from_expression(alloc, leaves, least)?;
            from_expression(alloc, leaves, greatest)
        }
        Cond::In(operand, values) => {
            from_expression(alloc, leaves, operand)?;
            from_all(alloc, leaves, values)
        }
        Cond::Predicate(_, operand) => from_expression(alloc, leaves, operand),
        Cond::And(left, right) => {
            from_condition(alloc, leaves, left)?;
            from_condition(alloc, leaves, right)
        }
        Cond::Or(left, right) => {
            from_condition(alloc, leaves, left)?;
            from_condition(alloc, leaves, right)
        }
        Cond::Not(operand) => from_condition(alloc, leaves, operand),
        Cond::Is(operand, _) => from_condition(alloc, leaves, operand),
    }
}

/// Adds those of several expressions.
#[cycle(gathering)]
fn from_all(alloc: Global, leaves: &mut Vec<Leaf>, exprs: &Exprs) -> Result<(), NoMemory>
    ensures { OnOk result (Gathers leaves.old.items leaves.new.items (leaves_of_all exprs.now)) }
{
    match exprs {
        Exprs::Last(expr) => from_expression(alloc, leaves, expr),
        Exprs::More(expr, rest) => {
            from_expression(alloc, leaves, expr)?;
            from_all(alloc, leaves, rest)
        }
    }
}

/// Adds those of the branches of a CASE.
#[cycle(gathering)]
fn from_branches(alloc: Global, leaves: &mut Vec<Leaf>, branches: &Branches) -> Result<(), NoMemory>
    ensures { OnOk result (Gathers leaves.old.items leaves.new.items (leaves_of_branches branches.now)) }
{
    match branches {
        Branches::Else(result) => from_expression(alloc, leaves, result),
        Branches::When(test, result, rest) => {
            from_condition(alloc, leaves, test)?;
            from_expression(alloc, leaves, result)?;
            from_branches(alloc, leaves, rest)
        }
    }
}

/// Adds those of the branches of a CASE with an operand.
#[cycle(gathering)]
fn from_matches(alloc: Global, leaves: &mut Vec<Leaf>, matches: &Matches) -> Result<(), NoMemory>
    ensures { OnOk result (Gathers leaves.old.items leaves.new.items (leaves_of_matches matches.now)) }
{
    match matches {
        Matches::Last(wanted, result, other) => {
            from_expression(alloc, leaves, wanted)?;
            from_expression(alloc, leaves, result)?;
            from_expression(alloc, leaves, other)
        }
        Matches::When(wanted, result, rest) => {
            from_expression(alloc, leaves, wanted)?;
            from_expression(alloc, leaves, result)?;
            from_matches(alloc, leaves, rest)
        }
    }
}

/// The leaves of a condition.
///
/// # Errors
///
/// [`NoMemory`] where memory does not suffice.
pub fn leaves_within(alloc: Global, cond: &Cond) -> Result<Vec<Leaf>, NoMemory>
    ensures { IfOk result (λ leaves. Gathers [] leaves.items (gathered.leaves_within cond.now)) }
{
    let mut leaves = Vec::new(alloc);
    from_condition(alloc, &mut leaves, cond)?;
    Ok(leaves)
}

/// Adds those of conjuncts.
///
/// # Errors
///
/// [`NoMemory`] where memory does not suffice; some may have been added then.
pub fn from_conjuncts(
    alloc: Global,
    leaves: &mut Vec<Leaf>,
    conjuncts: &[Cond],
) -> Result<(), NoMemory>
    ensures { OnOk result (Gathers leaves.old.items leaves.new.items (flat_map leaves_within conjuncts.now)) }
{
    for conjunct in conjuncts {
        from_condition(alloc, leaves, conjunct)?;
    }
    Ok(())
}

/// Adds those of a select list.
///
/// # Errors
///
/// [`NoMemory`] where memory does not suffice; some may have been added then.
pub fn from_items(alloc: Global, leaves: &mut Vec<Leaf>, items: &[Expr]) -> Result<(), NoMemory>
    ensures { OnOk result (Gathers leaves.old.items leaves.new.items (flat_map leaves_in items.now)) }
{
    for item in items {
        from_expression(alloc, leaves, item)?;
    }
    Ok(())
}
