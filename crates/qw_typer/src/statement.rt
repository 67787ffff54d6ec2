//! The clauses of a query over the entries of its FROM (ISO/IEC 9075:1992, 7.6, 7.9).

ghost use Rattle.std.specs.Prelude.{◌≡◌, ◌≤◌, ◌+◌, ◌*◌, ◌++◌, ℕ, MatchResult, IfOk, Ok, length, map, option_map};
ghost use Rattle.qw_ast.specs.SyntaxTree as syntax;
ghost use Rattle.qw_types.specs.declared.schema.Column.{Column};
ghost use Rattle.qw_scalar.specs.Tree.{condition_of, expression_of};
ghost use Rattle.qw_ast.specs.Limits.{items_of, over_filter, over_items};
ghost use Rattle.qw_typer.specs.Inner.Sizes.{ColumnsPushed, Fits, FitsItems, FitsTests, column_count, nodes, nodes_condition, octets, octets_condition, selected_nodes};
ghost use Rattle.qw_typer.specs.Inner.Typing.{Refuses, as_entries, in_reach, typed_conjuncts, typed_filter, typed_item, typed_items, typed_list};
ghost use Rattle.qw_typer.specs.Meant.{ungrouped};
ghost use Rattle.qw_typer.specs.Typed.{column_names, columns_from, columns_meant, item_name, item_names, result_names};

use crate::expression::{condition, expression};
use crate::fault::FaultKind;
use crate::name::name_text;
use crate::refusal::{Refusal, first_token};
use crate::scope::{Entry, Scope, first_column};
use qw_ast::script::{Cond, Expr, Item, SelectList};
use qw_scalar::expression as meaning;
use qw_types::{Column, NoMemory, Text};
use std::alloc::Global;

/// The expressions of the select list of a query that isn't grouped.
#[tactic(auto, unfolding(crate::specs::Inner::Typing::Refuses))]
pub(crate) fn list<'a>(
    alloc: Global,
    entries: &[Entry<'_>],
    list: &SelectList<'a>,
) -> Result<Vec<meaning::Expr>, Refusal<'a>>
    ensures gives { MatchResult result (λ made. typed_list (ungrouped (as_entries entries.now)) (syntax.selected_of list.now) ≡ Ok (map expression_of made.items))
        (λ refusal. Refuses refusal (typed_list (ungrouped (as_entries entries.now)) (syntax.selected_of list.now))) }
    ensures fits { column_count (as_entries entries.now) ≤ 512 → IfOk result (λ made. FitsItems made.items (selected_nodes (syntax.selected_of list.now)) (over_items octets (items_of (syntax.selected_of list.now)))) }
{
    match list {
        SelectList::All => Ok(all_columns(alloc, entries).map_err(|_| Refusal::NoMemory)?),
        SelectList::Items(items) => items_of(alloc, &Scope::ungrouped(entries), items.as_slice()),
    }
}

/// All columns of all entries in order.
fn all_columns(alloc: Global, entries: &[Entry<'_>]) -> Result<Vec<meaning::Expr>, NoMemory>
    ensures gives { IfOk result (λ made. map expression_of made.items ≡ columns_meant (as_entries entries.now)) }
    ensures fits { IfOk result (λ made. FitsItems made.items (column_count (as_entries entries.now)) 0) }
{
    let mut made = Vec::new(alloc);
    let mut rest = entries;
    while let [entry, behind @ ..] = rest {
        push_columns(&mut made, entry.number, entry.columns)?;
        rest = behind;
    }
    Ok(made)
}

/// The columns of the entry of this number behind those before.
fn push_columns(
    made: &mut Vec<meaning::Expr>,
    number: u8,
    columns: &[Column],
) -> Result<(), NoMemory>
    ensures gives { IfOk result (λ _. map expression_of made.new.items ≡ map expression_of made.old.items ++ columns_from (64 * number) columns.now) }
    ensures fits { IfOk result (λ _. ColumnsPushed made.old.items made.new.items (length columns.now)) }
{
    let first = first_column(number);
    for (index, column) in columns.iter().enumerate() {
        made.push(meaning::Expr::Column(first + index, column.ty))?;
    }
    Ok(())
}

/// The items of a select list.
#[tactic(auto, using(crate::proofs::StepLemmas::items_step, crate::proofs::StepLemmas::items_refused, crate::proofs::StepLemmas::items_end, crate::proofs::OutcomeLemmas::refuses_memory), unfolding(crate::specs::Inner::Typing::Refuses))]
pub(crate) fn items_of<'a>(
    alloc: Global,
    scope: &Scope<'_, '_>,
    items: &[Item<'a>],
) -> Result<Vec<meaning::Expr>, Refusal<'a>>
    ensures gives { MatchResult result (λ made. typed_items (in_reach scope.now) (map syntax.item_of items.now) ≡ Ok (map expression_of made.items))
        (λ refusal. Refuses refusal (typed_items (in_reach scope.now) (map syntax.item_of items.now))) }
    ensures fits { IfOk result (λ made. FitsItems made.items (over_items nodes (map syntax.item_of items.now)) (over_items octets (map syntax.item_of items.now))) }
{
    let mut made = Vec::new(alloc);
    let mut rest = items;
    while let [item, behind @ ..] = rest {
        let x = item_of(alloc, scope, &item.expression)?;
        made.push(x).map_err(|_| Refusal::NoMemory)?;
        rest = behind;
    }
    Ok(made)
}

/// An item, which has a kind.
#[tactic(auto, using(crate::proofs::OutcomeLemmas::refuses_after, crate::proofs::OutcomeLemmas::refuses_then), unfolding(crate::specs::Inner::Typing::Refuses))]
fn item_of<'a>(
    alloc: Global,
    scope: &Scope<'_, '_>,
    expr: &Expr<'a>,
) -> Result<meaning::Expr, Refusal<'a>>
    ensures gives { MatchResult result (λ made. typed_item (in_reach scope.now) (syntax.expression_of expr.now) ≡ Ok (expression_of made))
        (λ refusal. Refuses refusal (typed_item (in_reach scope.now) (syntax.expression_of expr.now))) }
    ensures fits { IfOk result (λ made. Fits made (nodes (syntax.expression_of expr.now)) (octets (syntax.expression_of expr.now))) }
{
    let x = expression(alloc, scope, expr)?;
    if x.kind.is_none() {
        return Err(Refusal::Fault(FaultKind::Clash, first_token(expr)));
    }
    Ok(x.tree)
}

/// The conjuncts of WHERE, none without one.
pub(crate) fn filter<'a>(
    alloc: Global,
    scope: &Scope<'_, '_>,
    filter: &Option<Cond<'a>>,
) -> Result<Vec<meaning::Cond>, Refusal<'a>>
    ensures gives { MatchResult result (λ made. typed_filter (in_reach scope.now) (option_map syntax.condition_of filter.now) ≡ Ok (map condition_of made.items))
        (λ refusal. Refuses refusal (typed_filter (in_reach scope.now) (option_map syntax.condition_of filter.now))) }
    ensures fits { IfOk result (λ made. FitsTests made.items (over_filter nodes_condition (option_map syntax.condition_of filter.now)) (over_filter octets_condition (option_map syntax.condition_of filter.now))) }
{
    match filter {
        Some(cond) => conjuncts(alloc, scope, cond),
        None => Ok(Vec::new(alloc)),
    }
}

/// The operands of the outermost AND chain.
#[tactic(auto, using(crate::proofs::OutcomeLemmas::refuses_after, crate::proofs::OutcomeLemmas::refuses_then, crate::proofs::OutcomeLemmas::refuses_memory))]
pub(crate) fn conjuncts<'a>(
    alloc: Global,
    scope: &Scope<'_, '_>,
    cond: &Cond<'a>,
) -> Result<Vec<meaning::Cond>, Refusal<'a>>
    ensures gives { MatchResult result (λ made. typed_conjuncts (in_reach scope.now) (syntax.condition_of cond.now) ≡ Ok (map condition_of made.items))
        (λ refusal. Refuses refusal (typed_conjuncts (in_reach scope.now) (syntax.condition_of cond.now))) }
    ensures fits { IfOk result (λ made. FitsTests made.items (nodes_condition (syntax.condition_of cond.now)) (octets_condition (syntax.condition_of cond.now))) }
{
    match cond {
        Cond::And(left, right) => {
            let mut made = conjuncts(alloc, scope, left)?;
            let last = condition(alloc, scope, right)?;
            made.push(last).map_err(|_| Refusal::NoMemory)?;
            Ok(made)
        }
        _ => {
            let mut made = Vec::new(alloc);
            let only = condition(alloc, scope, cond)?;
            made.push(only).map_err(|_| Refusal::NoMemory)?;
            Ok(made)
        }
    }
}

/// The names of the result columns.
pub(crate) fn names(
    alloc: Global,
    scope: &Scope<'_, '_>,
    list: &SelectList<'_>,
) -> Result<Vec<Text>, NoMemory>
    ensures { IfOk result (λ names. names.items ≡ result_names (in_reach scope.now) (syntax.selected_of list.now)) }
{
    match list {
        SelectList::All => all_names(alloc, scope.entries),
        SelectList::Items(items) => names_of(alloc, items.as_slice()),
    }
}

/// The names of all columns of all entries.
fn all_names(alloc: Global, entries: &[Entry<'_>]) -> Result<Vec<Text>, NoMemory>
    ensures { IfOk result (λ names. names.items ≡ column_names (as_entries entries.now)) }
{
    let mut names = Vec::new(alloc);
    let mut rest = entries;
    while let [entry, behind @ ..] = rest {
        push_names(&mut names, entry.columns)?;
        rest = behind;
    }
    Ok(names)
}

/// The names of the columns behind those before.
fn push_names(names: &mut Vec<Text>, columns: &[Column]) -> Result<(), NoMemory>
    ensures { IfOk result (λ _. names.new.items ≡ names.old.items ++ map (λ (c : Column). c.name) columns.now) }
{
    for column in columns {
        names.push(column.name.clone()?)?;
    }
    Ok(())
}

/// The names of items.
#[tactic(auto, using(crate::proofs::StepLemmas::names_step), unfolding(crate::specs::Inner::Typing::Refuses))]
fn names_of(alloc: Global, items: &[Item<'_>]) -> Result<Vec<Text>, NoMemory>
    ensures { IfOk result (λ names. names.items ≡ item_names 1 (map syntax.item_of items.now)) }
{
    let mut names = Vec::new(alloc);
    let mut rest = items;
    while let [item, behind @ ..] = rest {
        names.push(item_name(alloc, names.len() + 1, item)?)?;
        rest = behind;
    }
    Ok(names)
}

/// The name of an item at a position from 1.
fn item_name(alloc: Global, position: usize, item: &Item<'_>) -> Result<Text, NoMemory>
    ensures { IfOk result (λ name. name ≡ item_name position (syntax.item_of item.now)) }
{
    match item.name {
        Some(name) => name_text(alloc, name),
        None => own_name(alloc, position, &item.expression),
    }
}

/// The name of an item that is given none.
fn own_name(alloc: Global, position: usize, expr: &Expr<'_>) -> Result<Text, NoMemory>
    ensures { IfOk result (λ name. name ≡ Rattle.qw_typer.specs.Typed.own_name position (syntax.expression_of expr.now)) }
{
    match expr {
        Expr::Column(_, name) => name_text(alloc, name),
        _ => Ok(Text::new(format!(in alloc; "C{position}")?)),
    }
}
