//! The set functions of a query, from left to right as they stand in the text (ISO/IEC 9075:1992, 6.5).

ghost use Rattle.std.specs.Prelude.{◌≡◌, ◌++◌, IfOk, OnOk, map, option_map};
ghost use Rattle.std.specs.List.{flat_map};
ghost use Rattle.std.specs.Option.{option_map_or};
ghost use Rattle.qw_ast.specs.Syntax.{SelectItem};
ghost use Rattle.qw_ast.specs.SyntaxTree as syntax;
ghost use Rattle.qw_ast.specs.SyntaxTree.{select_of};
ghost use Rattle.qw_typer.specs.Functions.{functions_in, written, written_in, written_in_all, written_in_branches, written_in_clause};
ghost use Rattle.qw_typer.specs.Inner.Functions.{all_written};

use qw_ast::script::{
    Branches, Cond, Expr, Exprs, Item, Phrase, SelectList, SetFunction, Statement,
};
use qw_types::NoMemory;
use std::alloc::Global;

/// A set function as it is written: its place, and what it has of an argument.
#[derive(Clone, Copy)]
pub(crate) enum Written<'t, 'a> {
    /// `COUNT(*)`.
    Rows(usize),
    /// A set function of an argument.
    Applied(usize, SetFunction, &'t Expr<'a>),
}

/// The set functions of a select list and of HAVING.
pub(crate) fn functions<'t, 'a>(
    alloc: Global,
    statement: &'t Statement<'a>,
) -> Result<Vec<Written<'t, 'a>>, NoMemory>
    ensures { IfOk result (λ found. all_written found.items ≡ functions_in (select_of statement.now)) }
{
    let mut found = Vec::new(alloc);
    if let SelectList::Items(items) = &statement.list {
        of_items(&mut found, items.as_slice())?;
    }
    if let Some(having) = &statement.having {
        of_condition(&mut found, having)?;
    }
    Ok(found)
}

/// Adds the set functions of items.
fn of_items<'t, 'a>(found: &mut Vec<Written<'t, 'a>>, items: &'t [Item<'a>]) -> Result<(), NoMemory>
    ensures { OnOk result (all_written found.new.items ≡ all_written found.old.items ++ flat_map (λ (i : SelectItem). written i.value) (map syntax.item_of items.now)) }
{
    let mut rest = items;
    while let [item, behind @ ..] = rest {
        of_expression(found, &item.expression)?;
        rest = behind;
    }
    Ok(())
}

/// Adds the set functions of an expression.
#[cycle(functions)]
fn of_expression<'t, 'a>(
    found: &mut Vec<Written<'t, 'a>>,
    expr: &'t Expr<'a>,
) -> Result<(), NoMemory>
    ensures { OnOk result (all_written found.new.items ≡ all_written found.old.items ++ written (syntax.expression_of expr.now)) }
{
    match expr {
        Expr::Null | Expr::Number(_) | Expr::Text(_) | Expr::Date(_, _) | Expr::Column(_, _) => {
            Ok(())
        }
        Expr::Signed(_, operand) => of_expression(found, operand),
        Expr::Arithmetic(_, left, right) => {
            of_expression(found, left)?;
            of_expression(found, right)
        }
        Expr::Extract(_, operand) => of_expression(found, operand),
        Expr::Case(branches) => of_branches(found, branches),
        Expr::Match(operand, branches) => {
            of_expression(found, operand)?;
            of_branches(found, branches)
        }
        Expr::Call(_, arguments) => of_all(found, arguments),
        Expr::CountRows(place) => {
            found.push(Written::Rows(*place))?;
            Ok(())
        }
        Expr::SetFunction(place, function, argument) => {
            found.push(Written::Applied(*place, *function, &**argument))?;
            Ok(())
        }
    }
}

/// Adds those of a condition.
#[cycle(functions)]
fn of_condition<'t, 'a>(
    found: &mut Vec<Written<'t, 'a>>,
    cond: &'t Cond<'a>,
) -> Result<(), NoMemory>
    ensures { OnOk result (all_written found.new.items ≡ all_written found.old.items ++ written_in (syntax.condition_of cond.now)) }
{
    match cond {
        Cond::Compare(_, left, right) => {
            of_expression(found, left)?;
            of_expression(found, right)
        }
        Cond::Between(_, operand, least, greatest) => {
            of_expression(found, operand)?;
            of_expression(found, least)?;
            of_expression(found, greatest)
        }
        Cond::In(_, operand, values) => {
            of_expression(found, operand)?;
            of_all(found, values)
        }
        Cond::Predicate(_, _, operand) => of_expression(found, operand),
        Cond::And(left, right) => {
            of_condition(found, left)?;
            of_condition(found, right)
        }
        Cond::Or(left, right) => {
            of_condition(found, left)?;
            of_condition(found, right)
        }
        Cond::Not(operand) => of_condition(found, operand),
        Cond::Is(_, operand, _) => of_condition(found, operand),
        Cond::Bracketed(operand) => of_condition(found, operand),
    }
}

/// Adds those of several expressions.
#[cycle(functions)]
fn of_all<'t, 'a>(found: &mut Vec<Written<'t, 'a>>, exprs: &'t Exprs<'a>) -> Result<(), NoMemory>
    ensures { OnOk result (all_written found.new.items ≡ all_written found.old.items ++ written_in_all (syntax.expressions_of exprs.now)) }
{
    match exprs {
        Exprs::Last(expr) => of_expression(found, expr),
        Exprs::More(expr, rest) => {
            of_expression(found, expr)?;
            of_all(found, rest)
        }
    }
}

/// Adds those of the branches of a CASE.
#[cycle(functions)]
fn of_branches<'t, 'a>(
    found: &mut Vec<Written<'t, 'a>>,
    branches: &'t Branches<'a>,
) -> Result<(), NoMemory>
    ensures { OnOk result (all_written found.new.items ≡ all_written found.old.items ++ written_in_branches (syntax.branching_of branches.now)) }
{
    match branches {
        Branches::Else(result) => of_expression(found, result),
        Branches::When(phrase, result, rest) => {
            of_phrase(found, phrase)?;
            of_expression(found, result)?;
            of_branches(found, rest)
        }
    }
}

/// Adds those of a condition or an expression.
#[cycle(functions)]
fn of_phrase<'t, 'a>(
    found: &mut Vec<Written<'t, 'a>>,
    phrase: &'t Phrase<'a>,
) -> Result<(), NoMemory>
    ensures { OnOk result (all_written found.new.items ≡ all_written found.old.items ++ written_in_clause (syntax.clause_of phrase.now)) }
{
    match phrase {
        Phrase::Condition(cond) => of_condition(found, cond),
        Phrase::Expression(expr) => of_expression(found, expr),
    }
}
