//! The columns of the grouped table (ISO/IEC 9075:1992, 7.7), as the entries of a table of groups have them.

ghost use Rattle.std.specs.Prelude.{◌≡◌, ◌≤◌, ◌+◌, false, length, map, IfOk};
ghost use Rattle.std.specs.List.{AllByRecursion};
ghost use Rattle.qw_scalar.specs.Tree.{expression_of};
ghost use Rattle.qw_scalar.specs.Typing.{IsTyped, kind_of};
ghost use Rattle.qw_grouped.specs.Grouped as specified;
ghost use Rattle.qw_grouped.specs.Grouped.{Takes};
ghost use Rattle.qw_grouped.specs.Query.{function_of, grouped_of};
ghost use Rattle.qw_grouped.specs.declared.set_function.SetFunction as coded;
ghost use Rattle.qw_grouped.specs.declared.set_function.SetFunctionKind.TheVariants as functions;
ghost use Rattle.qw_compile_whole.specs.GroupColumns as given;

use qw_group_pipeline::columns::{GroupColumns, ValueColumn};
use qw_grouped::query::{GroupedColumn, GroupedQuery};
use qw_grouped::set_function::{SetFunction, SetFunctionKind};
use qw_physical::ReadColumn;
use qw_scalar::kind::of_expression;
use qw_types::{Kind, NoMemory, Ty};
use std::alloc::Global;

/// An average has so many digits more behind the point than its argument.
const FINER: u8 = 4;

/// The digits of the widest number, and the characters of the widest text.
const MOST_DIGITS: u8 = 18;

const MOST_CHARACTERS: u16 = 1000;

/// The columns of the grouped table: those of GROUP BY, and behind them the values of the set functions.
///
/// # Errors
///
/// [`NoMemory`] where the lists do not fit memory, and nowhere else.
pub fn group_columns(alloc: Global, query: &GroupedQuery) -> Result<GroupColumns, NoMemory>
    ensures key { IfOk result (λ made. made.key.items ≡ given.key_columns (grouped_of query.now)) }
    ensures values { IfOk result (λ made. made.values.items ≡ given.value_columns (grouped_of query.now)) }
{
    let key = key_columns(alloc, query.columns())?;
    let values = value_columns(alloc, key.len(), query.functions())?;
    Ok(GroupColumns { key, values })
}

/// The columns of GROUP BY.
fn key_columns(alloc: Global, columns: &[GroupedColumn]) -> Result<Vec<ReadColumn>, NoMemory>
    ensures { IfOk result (λ made. made.items ≡ given.key_from 0 columns.now) }
{
    let mut made = Vec::new(alloc);
    for (number, column) in columns.iter().enumerate() {
        made.push(key_column(number, column))?;
    }
    Ok(made)
}

/// A column of GROUP BY, as the one of a number.
fn key_column(number: usize, column: &GroupedColumn) -> ReadColumn
    ensures { result ≡ record { number = number; ty = column.now.ty; not_null = false } }
{
    ReadColumn {
        number,
        ty: column.ty,
        not_null: false,
    }
}

/// The values of set functions, the first of which has a number.
fn value_columns(
    alloc: Global,
    first: usize,
    functions: &[SetFunction],
) -> Result<Vec<ValueColumn>, NoMemory>
    requires few { first + length functions.now ≤ 1000 }
    requires typed { AllByRecursion (λ (f : coded.SetFunction). IsTyped (expression_of f.argument) × Takes f.kind (expression_of f.argument)) functions.now }
    ensures { IfOk result (λ made. made.items ≡ given.values_from first (map function_of functions.now)) }
{
    let mut made = Vec::new(alloc);
    for (index, function) in functions.iter().enumerate() {
        made.push(value_column(first + index, function))?;
    }
    Ok(made)
}

/// The value of a set function, as the column of a number.
fn value_column(number: usize, function: &SetFunction) -> ValueColumn
    requires typed { IsTyped (expression_of function.now.argument) }
    requires takes { Takes function.now.kind (expression_of function.now.argument) }
    ensures { result ≡ record {
      number = number;
      ty = specified.type_of_function (function_of function.now);
      function = function.now.kind;
      argument = given.argument_kind (kind_of (expression_of function.now.argument));
    } }
{
    let kind = of_expression(&function.argument);
    ValueColumn {
        number,
        ty: widest(value_kind(function.kind, kind)),
        function: function.kind,
        argument: argument_kind(kind),
    }
}

/// The kind of an argument, which each argument has.
fn argument_kind(kind: Option<Kind>) -> Kind
    ensures { result ≡ given.argument_kind kind }
{
    match kind {
        None => Kind::Number(0),
        Some(kind) => kind,
    }
}

/// The kind of a set function's values, of an argument of this kind (ISO/IEC 9075:1992, 6.5).
fn value_kind(function: SetFunctionKind, argument: Option<Kind>) -> Option<Kind>
    requires scale { function ≡ functions.Avg → specified.HasAverage argument }
    ensures { result ≡ specified.value_kind function argument }
{
    match function {
        SetFunctionKind::CountRows | SetFunctionKind::Count => Some(Kind::Number(0)),
        SetFunctionKind::Sum | SetFunctionKind::Min | SetFunctionKind::Max => argument,
        SetFunctionKind::Avg => match argument {
            Some(Kind::Number(scale)) => Some(Kind::Number(scale + FINER)),
            other => other,
        },
    }
}

/// The greatest type of a kind.
pub(crate) fn widest(kind: Option<Kind>) -> Ty
    ensures { result ≡ specified.widest kind }
{
    match kind {
        None => Ty::Integer,
        Some(Kind::Number(scale)) => Ty::Decimal {
            precision: MOST_DIGITS,
            scale,
        },
        Some(Kind::Date) => Ty::Date,
        Some(Kind::Text) => Ty::Varchar {
            length: MOST_CHARACTERS,
        },
    }
}
