//! What the slow program answers of a query over the rows of tables.

ghost use Rattle.std.specs.Prelude.{◌≡◌, ◌<◌, IsTrue, length, map, pos};
ghost use Rattle.std.specs.List.{AllByRecursion};
ghost use Rattle.qw_types.specs.Kind.{IsOfKind, IsRowOf, type_kind};
ghost use Rattle.qw_types.specs.Contents.{rows_of};
ghost use Rattle.qw_types.specs.Value.{IsDay, is_day as tells_day};
ghost use Rattle.qw_meaning.specs.Query.{entry_of, joined_of, source_of};
ghost use Rattle.qw_meaning.specs.Select.{entries_in, entries_of, types_of};
ghost use Rattle.qw_meaning.specs.Select as specified;
ghost use Rattle.qw_grouped.specs.Whole.{sources_in};
ghost use Rattle.qw_grouped.specs.WholeQuery.{body_of};
ghost use Rattle.qw_plain.specs.Rows.{HasRowsOf};

use crate::fault::CaseFault;
use crate::setting::Setting;
use qw_csv::loading::load;
use qw_csv::{Cell, Loaded};
use qw_grouped::{Body, WholeQuery};
use qw_meaning::query::{Entry, Joined, Source};
use qw_plain::outcome::Answer;
use qw_plain_grouped::outcome::plain_whole_outcome;
use qw_top::files::table_file_name;
use qw_types::{ColumnType, Kind, Row, Schema, Table, Text, Val};
use std::alloc::Global;

/// The rows of each table of a schema, whose files stand in the folder `d`.
pub fn tables_of(
    alloc: Global,
    schema: &Schema,
    setting: &Setting,
) -> Result<Vec<Vec<Row>>, CaseFault> {
    let mut tables = Vec::new(alloc);
    for table in schema.as_slice() {
        tables.push(rows_of_table(alloc, table, setting)?)?;
    }
    Ok(tables)
}

fn rows_of_table(alloc: Global, table: &Table, setting: &Setting) -> Result<Vec<Row>, CaseFault> {
    let name = table_file_name(alloc, "d", table.name.as_str())?;
    let file = setting.text(name.as_str()).ok_or(CaseFault::Line)?;
    let loaded = load(alloc, table, file).map_err(|_| CaseFault::Line)?;
    rows_in(alloc, &loaded)
}

fn rows_in(alloc: Global, loaded: &Loaded) -> Result<Vec<Row>, CaseFault> {
    let mut rows = Vec::new(alloc);
    for row in 0..loaded.len() {
        rows.push(row_in(alloc, loaded, row)?)?;
    }
    Ok(rows)
}

fn row_in(alloc: Global, loaded: &Loaded, row: usize) -> Result<Row, CaseFault>
    requires { row < length loaded.now.rows }
{
    let mut values = Vec::new(alloc);
    for column in 0..loaded.width() {
        values.push(val_of(alloc, loaded.cell(row, column))?)?;
    }
    Ok(Row::new(values))
}

fn val_of(alloc: Global, cell: Cell<'_>) -> Result<Val, CaseFault> {
    Ok(match cell {
        Cell::Null => Val::Null,
        Cell::Num(number) => Val::Num(number),
        Cell::Date(day) => Val::Date(day),
        Cell::Text(octets) => {
            let text = std::str::from_utf8(octets).map_err(|_| CaseFault::Line)?;
            Val::Text(Text::new(String::from_str(alloc, text)?))
        }
    })
}

/// What the slow program answers over the tables. Their rows are tested for being of their kinds, as it asks.
pub fn plain_answer(
    alloc: Global,
    query: &WholeQuery,
    tables: &[Vec<Row>],
) -> Result<Answer, CaseFault> {
    if !have_rows(sources_of(&query.body), tables) {
        return Err(CaseFault::Line);
    }
    Ok(plain_whole_outcome(alloc, query, tables)?)
}

// The sources of FROM.
fn sources_of(body: &Body) -> &[Source]
    ensures { map source_of result.now ≡ sources_in (body_of body.now) }
{
    match body {
        Body::Plain(query) => query.sources(),
        Body::Grouped(query) => query.sources(),
    }
}

// Whether the table of each entry of FROM has rows of the entry's columns.
#[tactic(auto, using(crate::proofs::SourceLemmas::sources_more))]
fn have_rows(sources: &[Source], tables: &[Vec<Row>]) -> bool
    ensures { IsTrue result → AllByRecursion (HasRowsOf (map (λ t. t.items) tables.now)) (entries_of (map source_of sources.now)) }
{
    match sources {
        [] => true,
        [source, others @ ..] => source_has_rows(source, tables) && have_rows(others, tables),
    }
}

fn source_has_rows(source: &Source, tables: &[Vec<Row>]) -> bool
    ensures { IsTrue result → AllByRecursion (HasRowsOf (map (λ t. t.items) tables.now)) (entries_in (source_of source.now)) }
{
    has_rows(&source.first, tables) && joins_have_rows(source.joins.as_slice(), tables)
}

fn joins_have_rows(joins: &[Joined], tables: &[Vec<Row>]) -> bool
    ensures { IsTrue result → AllByRecursion (HasRowsOf (map (λ t. t.items) tables.now)) (map (λ (j : specified.Joined). j.entry) (map joined_of joins.now)) }
{
    match joins {
        [] => true,
        [join, others @ ..] => has_rows(&join.entry, tables) && joins_have_rows(others, tables),
    }
}

fn has_rows(entry: &Entry, tables: &[Vec<Row>]) -> bool
    ensures { IsTrue result → HasRowsOf (map (λ t. t.items) tables.now) (entry_of entry.now) }
{
    are_rows_of(entry.columns.as_slice(), rows_at(tables, entry.table))
}

fn rows_at(tables: &[Vec<Row>], table: usize) -> &[Row]
    ensures { result.now ≡ rows_of (map (λ t. t.items) tables.now) table }
{
    match tables.get(table) {
        None => &[],
        Some(rows) => rows.as_slice(),
    }
}

fn are_rows_of(columns: &[ColumnType], rows: &[Row]) -> bool
    ensures { IsTrue result → AllByRecursion (IsRowOf (map type_kind (types_of columns.now))) rows.now }
{
    match rows {
        [] => true,
        [row, others @ ..] => is_row_of(columns, row.values()) && are_rows_of(columns, others),
    }
}

fn is_row_of(columns: &[ColumnType], values: &[Val]) -> bool
    ensures { IsTrue result → IsRowOf (map type_kind (types_of columns.now)) values.now }
{
    match (columns, values) {
        ([], []) => true,
        ([column, columns @ ..], [value, values @ ..]) => {
            is_of_kind(Kind::of_type(column.ty), value) && is_row_of(columns, values)
        }
        _ => false,
    }
}

// Whether the calendar has the day that is year * 10000 + month * 100 + day.
fn is_day(number: i32) -> bool
    ensures { IsTrue result → IsDay number }
{
    number > 0 && names_day(number.unsigned_abs())
}

fn names_day(number: u32) -> bool
    ensures { result ≡ tells_day (pos number) }
{
    let (year, month, day) = (number / 10_000, number / 100 % 100, number % 100);
    let days = if month == 2 {
        if year % 4 == 0 && (year % 100 != 0 || year % 400 == 0) {
            29
        } else {
            28
        }
    } else if month == 4 || month == 6 || month == 9 || month == 11 {
        30
    } else {
        31
    };
    1 <= year && year <= 9999 && 1 <= month && month <= 12 && 1 <= day && day <= days
}

fn is_of_kind(kind: Kind, value: &Val) -> bool
    ensures { IsTrue result → IsOfKind kind value.now }
{
    match (kind, value) {
        (_, Val::Null) | (Kind::Text, Val::Text(_)) => true,
        (Kind::Number(_), Val::Num(number)) => number.unsigned_abs() < 1_000_000_000_000_000_000,
        (Kind::Date, Val::Date(day)) => is_day(*day),
        _ => false,
    }
}
