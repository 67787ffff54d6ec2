//! The columns of a table of distinct rows (ISO/IEC 9075:1992, 7.9), one for each item of a select list, and what makes a row of each of its keys.

ghost use Rattle.std.specs.Prelude.{◌≡◌, ◌+◌, [], ◌∷◌, false, length, map, IfOk};
ghost use Rattle.std.specs.List.{AllByRecursion};
ghost use Rattle.qw_scalar.specs.Nodes.{nodes, nodes_of};
ghost use Rattle.qw_scalar.specs.Tree.{expression_of};
ghost use Rattle.qw_scalar.specs.Typing.{IsTyped, kind_of};
ghost use Rattle.qw_scalar.specs.declared.expression.Expr.{Expr};
ghost use Rattle.qw_scalar.specs.declared.expression.Expr.TheVariants.{Column};
ghost use Rattle.qw_grouped.specs.Grouped as specified;
ghost use Rattle.qw_physical.specs.Coded.{pipeline_of};
ghost use Rattle.qw_physical.specs.Courses.{column_of};
ghost use Rattle.qw_physical.specs.Physical as physical;
ghost use Rattle.qw_physical.specs.Sizes.{size};
ghost use Rattle.qw_physical.specs.declared.pipeline.ReadColumn as reads;
ghost use Rattle.qw_compile.specs.Limits.{keys_built, keys_sought, lookups};
ghost use Rattle.qw_compile.specs.QueryLiterals.{query_texts};
ghost use Rattle.qw_compile_whole.specs.GroupColumns.{key_from};
ghost use Rattle.qw_compile_whole.specs.WholeDistinct as distinct;

use crate::group_columns::widest;
use qw_group_pipeline::columns::GroupColumns;
use qw_physical::{Operator, Pipeline, ReadColumn, Sink};
use qw_scalar::expression::Expr;
use qw_scalar::kind::of_expression;
use qw_types::NoMemory;
use std::alloc::Global;

/// The columns of the table whose keys are the rows of a select list: one for each item, numbered from 0 on, of the greatest type of its kind. There are no
/// set functions.
///
/// # Errors
///
/// [`NoMemory`] where the list does not fit memory, and nowhere else.
pub fn distinct_columns(alloc: Global, items: &[Expr]) -> Result<GroupColumns, NoMemory>
    requires typed { AllByRecursion (λ (e : Expr). IsTyped (expression_of e)) items.now }
    ensures key { IfOk result (λ made. made.key.items ≡ key_from 0 (distinct.distinct_columns 0 (map expression_of items.now))) }
    ensures values { IfOk result (λ made. made.values.items ≡ []) }
{
    let key = key_columns(alloc, items)?;
    Ok(GroupColumns {
        key,
        values: Vec::new(alloc),
    })
}

/// A column for each item.
fn key_columns(alloc: Global, items: &[Expr]) -> Result<Vec<ReadColumn>, NoMemory>
    requires typed { AllByRecursion (λ (e : Expr). IsTyped (expression_of e)) items.now }
    ensures { IfOk result (λ made. made.items ≡ key_from 0 (distinct.distinct_columns 0 (map expression_of items.now))) }
{
    let mut made = Vec::new(alloc);
    for (number, item) in items.iter().enumerate() {
        made.push(key_column(number, item))?;
    }
    Ok(made)
}

/// The column of an item, as the one of a number.
fn key_column(number: usize, item: &Expr) -> ReadColumn
    requires typed { IsTyped (expression_of item.now) }
    ensures { result ≡ record { number = number; ty = specified.widest (kind_of (expression_of item.now)); not_null = false } }
{
    ReadColumn {
        number,
        ty: widest(of_expression(item)),
        not_null: false,
    }
}

/// What makes a row of each key, as a pipeline over the rows of the grouped table: the values of its columns. It scans no entry of FROM.
///
/// # Errors
///
/// [`NoMemory`] where memory does not suffice, and nowhere else.
pub fn behind_distinct(alloc: Global, columns: &[ReadColumn]) -> Result<Pipeline, NoMemory>
    ensures operators { IfOk result (λ made. (pipeline_of made).operators ≡ physical.filter [] ∷ []) }
    ensures sink { IfOk result (λ made. (pipeline_of made).sink ≡ physical.select (map column_of columns.now)) }
    ensures alone { IfOk result (λ made. keys_sought made + (keys_built made + lookups made) ≡ 0) }
    ensures short { IfOk result (λ made. size nodes nodes_of made ≡ length columns.now) }
    ensures texts { IfOk result (λ made. query_texts (made ∷ []) ≡ []) }
{
    let items = shown_columns(alloc, columns)?;
    let mut operators = Vec::new(alloc);
    operators.push(Operator::Filter(Vec::new(alloc)))?;
    Ok(Pipeline {
        entry: 0,
        table: 0,
        operators,
        sink: Sink::Select(items),
    })
}

/// The values of columns.
fn shown_columns(alloc: Global, columns: &[ReadColumn]) -> Result<Vec<Expr>, NoMemory>
    ensures { IfOk result (λ made. made.items ≡ map (λ (c : reads.ReadColumn). Column c.number c.ty) columns.now) }
{
    let mut made = Vec::new(alloc);
    for column in columns {
        made.push(Expr::Column(column.number, column.ty))?;
    }
    Ok(made)
}
