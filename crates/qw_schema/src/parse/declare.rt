//! The tables that the statements of a schema declare.

ghost use Rattle.std.specs.Prelude.{◌≡◌, ◌⊎◌, ◌≤◌, ◌<◌, [], Ok, Err, length, map, option_map, IfOk, IfErr, IfSome, MatchOption};
ghost use Rattle.std.specs.List.{list_any};
ghost use Rattle.std.specs.Str.{bytes_eq};
ghost use Rattle.qw_types.specs.Schema.{AreColumns};
ghost use Rattle.qw_schema.specs.Inner.Judges.{AreSized, checked, columns_of, is_named, is_twice, judged, judged_from, name_in};
ghost use Rattle.qw_schema.specs.Inner.Tables.{read_of};
ghost use Rattle.qw_schema.specs.Inner.Written.{definition_read};
ghost use Rattle.qw_token.specs.Token.{lexemes};

use super::table::create_table;
use super::{Count, SchemaFault};
use qw_ast::statement::is_too_deep;
use qw_ast::tree::{ColumnDefinition, TableDefinition};
use qw_token::token::Token;
use qw_types::schema::MAX_COLUMNS;
use qw_types::{Column, Columns, NoMemory, Table, Text};
use std::alloc::Global;

/// The tables that the statements declare, one each.
///
/// # Errors
///
/// The first fault of the first statement that has one, and `NoMemory`.
pub(crate) fn declared(
    alloc: Global,
    statements: &[&[Token<'_>]],
) -> Result<Vec<Table>, SchemaFault>
    ensures tables { IfOk result (λ tables. judged_from [] 1 (map (λ s. lexemes s.now) statements.now) ≡ Ok tables.items) }
    ensures fault { IfErr result (λ fault. (fault ≡ SchemaFault.NoMemory) ⊎ (judged_from [] 1 (map (λ s. lexemes s.now) statements.now) ≡ Err fault)) }
{
    let mut tables = Vec::new(alloc);
    for (index, tokens) in statements.iter().enumerate() {
        let table = judged(alloc, tables.as_slice(), index + 1, tokens)?;
        tables.push(table).map_err(|_| SchemaFault::NoMemory)?;
    }
    Ok(tables)
}

/// The table that a statement declares behind those, where the statement has this number.
fn judged(
    alloc: Global,
    before: &[Table],
    statement: usize,
    tokens: &[Token<'_>],
) -> Result<Table, SchemaFault>
    ensures table { IfOk result (λ table. judged before.now statement (lexemes tokens.now) ≡ Ok table) }
    ensures fault { IfErr result (λ fault. (fault ≡ SchemaFault.NoMemory) ⊎ (judged before.now statement (lexemes tokens.now) ≡ Err fault)) }
{
    if is_too_deep(tokens) {
        return Err(SchemaFault::TooDeep { statement });
    }
    let Some(definition) = create_table(alloc, tokens)? else {
        return Err(SchemaFault::NotGrammar { statement });
    };
    checked(alloc, before, statement, definition)
}

/// The table of the definition, if it keeps the limits and no name comes again.
fn checked(
    alloc: Global,
    before: &[Table],
    statement: usize,
    definition: TableDefinition,
) -> Result<Table, SchemaFault>
    requires some { 0 < length definition.columns.items }
    requires sized { AreSized (map read_of definition.columns.items) }
    ensures table { IfOk result (λ table. checked before.now statement (definition_read definition) ≡ Ok table) }
    ensures fault { IfErr result (λ fault. (fault ≡ SchemaFault.NoMemory) ⊎ (checked before.now statement (definition_read definition) ≡ Err fault)) }
{
    let TableDefinition { name, columns } = definition;
    if MAX_COLUMNS < columns.len() {
        return Err(SchemaFault::TooMany {
            statement,
            what: Count::Columns,
            limit: MAX_COLUMNS,
        });
    }
    if is_named(before, &name) || is_twice(columns.as_slice()) {
        return Err(SchemaFault::Duplicate { statement });
    }
    let Some(columns) = columns_of(alloc, columns)? else {
        return Err(SchemaFault::BadSize { statement });
    };
    Ok(Table {
        name,
        columns: Columns::new(columns),
    })
}

/// Whether one of the tables has the name.
fn is_named(tables: &[Table], name: &Text) -> bool
    ensures { result ≡ is_named tables.now name.now }
{
    tables
        .iter()
        .any(|table| name.as_str() == table.name.as_str())
}

/// Whether one of the columns has the name.
fn is_among(columns: &[ColumnDefinition], name: &Text) -> bool
    ensures { result ≡ list_any (λ (c : ColumnDefinition). bytes_eq name.now c.name) columns.now }
{
    columns
        .iter()
        .any(|column| name.as_str() == column.name.as_str())
}

/// Whether a name comes again behind one of the columns.
fn is_twice(columns: &[ColumnDefinition]) -> bool
    ensures { result ≡ is_twice (map name_in (map read_of columns.now)) }
{
    for (index, column) in columns.iter().enumerate() {
        if is_among(&columns[index + 1..], &column.name) {
            return true;
        }
    }
    false
}

/// The columns, if the sizes of each type are taken.
fn columns_of(
    alloc: Global,
    definitions: Vec<ColumnDefinition>,
) -> Result<Option<Vec<Column>>, NoMemory>
    ensures { IfOk result (λ columns. option_map (λ c. c.items) columns ≡ columns_of (map read_of definitions.items)) }
{
    let mut columns = Vec::new(alloc);
    for definition in definitions {
        let Some(ty) = definition.ty else {
            return Ok(None);
        };
        columns.push(Column {
            name: definition.name,
            ty,
            not_null: definition.not_null,
        })?;
    }
    Ok(Some(columns))
}
