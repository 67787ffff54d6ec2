//! GROUP BY: the grouped table, group by group (ISO/IEC 9075:1992, 7.7).

ghost use Rattle.std.specs.Prelude.{◌≡◌, ◌≢◌, ◌+◌, ◌<◌, ◌≤◌, ◌^◌, [], ◌∷◌, ◌++◌, length, map, IfOk, OnOk};
ghost use Rattle.std.specs.List.{filter, flat_map};
ghost use Rattle.qw_types.specs.ValueOrder.{is_same_row};
ghost use Rattle.qw_meaning.specs.Flow.{codes_given, rows_given};
ghost use Rattle.qw_grouped.specs.Grouped.{kinds_of};
ghost use Rattle.qw_grouped.specs.Groups as meaning;
ghost use Rattle.qw_grouped.specs.Query.{function_of};
ghost use Rattle.qw_plain_grouped.specs.Inner.Flows.{flow_of};

use crate::distinct::once;
use crate::flow::Flow;
use crate::order::is_same;
use crate::reckon::set_function;
use crate::rows::{copied, first_values, joined, values_at};
use qw_grouped::SetFunction;
use qw_types::{Code, NoMemory, Row};
use std::alloc::Global;

/// The grouped table of rows that reach GROUP BY: their first values, so many, are the grouped columns, and those behind them the arguments.
pub(crate) fn grouped_table(
    alloc: Global,
    columns: usize,
    functions: &[SetFunction],
    rows: &[Row],
) -> Result<Flow, NoMemory>
    requires few { length rows.now < 10 ^ 18 }
    requires places { columns + length functions.now ≤ 512 }
    ensures { IfOk result (λ f. flow_of f ≡ meaning.grouped_table columns (kinds_of (map function_of functions.now)) (record { rows = rows.now; codes = [] })) }
{
    if columns == 0 {
        one_group(alloc, functions, rows)
    } else {
        each_group(alloc, columns, functions, rows)
    }
}

/// Without GROUP BY: all rows are one group.
fn one_group(alloc: Global, functions: &[SetFunction], rows: &[Row]) -> Result<Flow, NoMemory>
    requires few { length rows.now < 10 ^ 18 }
    requires places { length functions.now ≤ 512 }
    ensures { IfOk result (λ f. flow_of f ≡ meaning.grouped_table 0 (kinds_of (map function_of functions.now)) (record { rows = rows.now; codes = [] })) }
{
    let mut table = Flow {
        rows: Vec::new(alloc),
        codes: Vec::new(alloc),
    };
    let key = Row::new(Vec::new(alloc));
    add_group(alloc, 0, functions, &key, rows, &mut table)?;
    Ok(table)
}

/// A group for each key.
fn each_group(
    alloc: Global,
    columns: usize,
    functions: &[SetFunction],
    rows: &[Row],
) -> Result<Flow, NoMemory>
    requires few { length rows.now < 10 ^ 18 }
    requires places { columns + length functions.now ≤ 512 }
    requires some { columns ≢ 0 }
    ensures { IfOk result (λ f. flow_of f ≡ meaning.grouped_table columns (kinds_of (map function_of functions.now)) (record { rows = rows.now; codes = [] })) }
{
    let all = keys_of(alloc, columns, rows)?;
    let keys = once(alloc, &all)?;
    let mut table = Flow {
        rows: Vec::new(alloc),
        codes: Vec::new(alloc),
    };
    for key in &keys {
        add_group_of(alloc, columns, functions, key, rows, &mut table)?;
    }
    Ok(table)
}

/// The keys of rows.
fn keys_of(alloc: Global, columns: usize, rows: &[Row]) -> Result<Vec<Row>, NoMemory>
    ensures { IfOk result (λ keys. keys.items ≡ map (meaning.key_of columns) rows.now) }
{
    let mut keys = Vec::new(alloc);
    for row in rows {
        keys.push(first_values(alloc, columns, row)?)?;
    }
    Ok(keys)
}

/// Adds what the group of a key comes to.
fn add_group_of(
    alloc: Global,
    columns: usize,
    functions: &[SetFunction],
    key: &Row,
    rows: &[Row],
    table: &mut Flow,
) -> Result<(), NoMemory>
    requires few { length rows.now < 10 ^ 18 }
    requires places { columns + length functions.now ≤ 512 }
    ensures rows { OnOk result (table.new.rows.items ≡ table.old.rows.items
        ++ rows_given (meaning.group_row columns (kinds_of (map function_of functions.now)) (record { key = key.now; rows = meaning.members columns key.now rows.now }))) }
    ensures codes { OnOk result (table.new.codes.items ≡ table.old.codes.items
        ++ codes_given (meaning.group_row columns (kinds_of (map function_of functions.now)) (record { key = key.now; rows = meaning.members columns key.now rows.now }))) }
{
    let members = members_of(alloc, columns, key, rows)?;
    add_group(alloc, columns, functions, key, &members, table)
}

/// The rows of a key.
fn members_of(alloc: Global, columns: usize, key: &Row, rows: &[Row]) -> Result<Vec<Row>, NoMemory>
    ensures members { IfOk result (λ members. members.items ≡ meaning.members columns key.now rows.now) }
    ensures few { IfOk result (λ members. length members.items ≤ length rows.now) }
{
    let mut members = Vec::new(alloc);
    for row in rows {
        add_member(alloc, columns, key, row, &mut members)?;
    }
    Ok(members)
}

/// Adds a row that has a key.
fn add_member(
    alloc: Global,
    columns: usize,
    key: &Row,
    row: &Row,
    members: &mut Vec<Row>,
) -> Result<(), NoMemory>
    ensures { OnOk result (members.new.items ≡ members.old.items ++ filter (λ r. is_same_row key.now (meaning.key_of columns r)) (row.now ∷ [])) }
{
    let own = first_values(alloc, columns, row)?;
    if is_same(key, &own) {
        members.push(copied(alloc, row)?)?;
    }
    Ok(())
}

/// Adds what a group comes to: its key with the values of the set functions behind it, or the exception that one of them raises.
fn add_group(
    alloc: Global,
    columns: usize,
    functions: &[SetFunction],
    key: &Row,
    rows: &[Row],
    table: &mut Flow,
) -> Result<(), NoMemory>
    requires few { length rows.now < 10 ^ 18 }
    requires places { columns + length functions.now ≤ 512 }
    ensures rows { OnOk result (table.new.rows.items ≡ table.old.rows.items
        ++ rows_given (meaning.group_row columns (kinds_of (map function_of functions.now)) (record { key = key.now; rows = rows.now }))) }
    ensures codes { OnOk result (table.new.codes.items ≡ table.old.codes.items
        ++ codes_given (meaning.group_row columns (kinds_of (map function_of functions.now)) (record { key = key.now; rows = rows.now }))) }
{
    match function_values(alloc, columns, functions, rows)? {
        Err(code) => table.codes.push(code)?,
        Ok(values) => table.rows.push(joined(alloc, key, &values)?)?,
    }
    Ok(())
}

/// What set functions come to over rows that have the argument of the first of them at a place, from left to right, or the first exception.
fn function_values(
    alloc: Global,
    place: usize,
    functions: &[SetFunction],
    rows: &[Row],
) -> Result<Result<Row, Code>, NoMemory>
    requires few { length rows.now < 10 ^ 18 }
    requires places { place + length functions.now ≤ 512 }
    ensures { IfOk result (λ made. made ≡ meaning.function_values place (kinds_of (map function_of functions.now)) rows.now) }
{
    let mut values = Vec::new(alloc);
    let mut at = place;
    for function in functions {
        let arguments = values_at(alloc, at, rows)?;
        match set_function(alloc, function.kind, arguments)? {
            Err(code) => return Ok(Err(code)),
            Ok(found) => values.push(found)?,
        }
        at += 1;
    }
    Ok(Ok(Row::new(values)))
}
