//! The entries of FROM (ISO/IEC 9075:1992, 6.3, 7.4): their names and their tables.

ghost use Rattle.std.specs.Prelude.{◌≡◌, ◌≤◌, ◌++◌, [], false, MatchResult, IfOk, is_none, length, map};
ghost use Rattle.qw_types.specs.Contents.{column_type};
ghost use Rattle.qw_ast.specs.Grammar.{name_of};
ghost use Rattle.qw_ast.specs.Limits.{entries_of};
ghost use Rattle.qw_ast.specs.Syntax.{Joined};
ghost use Rattle.qw_ast.specs.SyntaxTree as syntax;
ghost use Rattle.qw_meaning.specs.Query as query;
ghost use Rattle.qw_typer.specs.Faults.{fault_where};
ghost use Rattle.qw_types.specs.Schema.{AreColumns};
ghost use Rattle.qw_typer.specs.Inner.Queries.{HaveTables, IsOneOf};
ghost use Rattle.qw_typer.specs.Inner.Typing.{as_entries, as_entry};
ghost use Rattle.qw_typer.specs.Typed.{entries_faults, entry_meant, entry_name, in_scope, place_of, entries_from};
ghost use Rattle.qw_typer.specs.declared.fault.FaultKind.TheVariants.{UnknownTable};

use crate::fault::FaultKind;
use crate::name::name_text;
use crate::refusal::{Refusal, Token};
use crate::scope::{Entry, is_known, is_name};
use qw_ast::script;
use qw_meaning::query;
use qw_types::{Column, ColumnType, NoMemory, Table, Text};
use std::alloc::Global;

/// The entries of FROM, from left to right.
#[tactic(auto, using(crate::proofs::QueryLemmas::memory_refused))]
pub(crate) fn entries<'a, 's>(
    alloc: Global,
    tables: &'s [Table],
    named: &[script::Entry<'a>],
) -> Result<Vec<Entry<'s>>, Refusal<'a>>
    requires { length named.now ≤ 8 }
    ensures known { MatchResult result (λ made. (entries_faults tables.now [] (map syntax.entry_of named.now) ≡ []) × (as_entries made.items ≡ entries_from tables.now 0 (map syntax.entry_of named.now)))
        (λ refusal. IsOneOf refusal (entries_faults tables.now [] (map syntax.entry_of named.now))) }
    ensures tables { IfOk result (λ made. HaveTables (as_entries made.items)) }
{
    let mut made = Vec::new(alloc);
    let mut rest = named;
    while let [entry, behind @ ..] = rest {
        let found = entry_of(alloc, tables, made.len() as u8, entry)?;
        if is_known(made.as_slice(), &found.name) {
            return Err(Refusal::Fault(FaultKind::DuplicateAlias, Token::Name(naming(entry))));
        }
        made.push(found).map_err(|_| Refusal::NoMemory)?;
        rest = behind;
    }
    Ok(made)
}

/// An entry of FROM, of this number.
#[tactic(auto, using(crate::proofs::QueryLemmas::memory_refused))]
fn entry_of<'a, 's>(
    alloc: Global,
    tables: &'s [Table],
    number: u8,
    named: &script::Entry<'a>,
) -> Result<Entry<'s>, Refusal<'a>>
    ensures known { MatchResult result (λ made. (is_none (place_of tables.now (name_of named.now.table.now)) ≡ false) × (as_entry made ≡ in_scope tables.now number (syntax.entry_of named.now)))
        (λ refusal. IsOneOf refusal (fault_where (is_none (place_of tables.now (name_of named.now.table.now))) UnknownTable (name_of named.now.table.now))) }
    ensures tables { IfOk result (λ made. AreColumns made.columns.now) }
{
    let found = place_named(alloc, tables, named.table).map_err(|_| Refusal::NoMemory)?;
    let name = name_text(alloc, naming(named)).map_err(|_| Refusal::NoMemory)?;
    match found {
        Some(place) => Ok(Entry {
            name,
            number,
            table: place,
            columns: tables[place].columns.as_slice(),
        }),
        None => Err(Refusal::Fault(FaultKind::UnknownTable, Token::Name(named.table))),
    }
}

/// The name of an entry as it is written: the alias, or without one the table's name.
fn naming<'a>(entry: &script::Entry<'a>) -> &'a [u8]
    ensures { name_of result.now ≡ entry_name (syntax.entry_of entry.now) }
{
    match entry.alias {
        Some(alias) => alias,
        None => entry.table,
    }
}

/// The place of the table of a name, as it is written.
fn place_named(alloc: Global, tables: &[Table], octets: &[u8]) -> Result<Option<usize>, NoMemory>
    ensures { IfOk result (λ found. found ≡ place_of tables.now (name_of octets.now)) }
{
    let name = name_text(alloc, octets)?;
    Ok(place_of(tables, &name))
}

/// The place of the table of a name, as it is kept.
fn place_of(tables: &[Table], name: &Text) -> Option<usize>
    ensures { result ≡ place_of tables.now name.now }
{
    tables.iter().position(|table| is_name(name, &table.name))
}

/// The entries of all sources as they are written, from left to right.
pub(crate) fn named<'a>(
    alloc: Global,
    sources: &[script::Source<'a>],
) -> Result<Vec<script::Entry<'a>>, NoMemory>
    ensures { IfOk result (λ named. map syntax.entry_of named.items ≡ entries_of (map syntax.source_of sources.now)) }
{
    let mut named = Vec::new(alloc);
    let mut rest = sources;
    while let [source, behind @ ..] = rest {
        named.push(source.first)?;
        push_joined(&mut named, source.joins.as_slice())?;
        rest = behind;
    }
    Ok(named)
}

/// The entries that are joined, behind those before.
fn push_joined<'a>(
    named: &mut Vec<script::Entry<'a>>,
    joins: &[script::Joined<'a>],
) -> Result<(), NoMemory>
    ensures { IfOk result (λ _. map syntax.entry_of named.new.items ≡ map syntax.entry_of named.old.items ++ map (λ (j : Joined). j.entry) (map syntax.joined_of joins.now)) }
{
    for join in joins {
        named.push(join.entry)?;
    }
    Ok(())
}

/// An entry as a specification has it.
pub(crate) fn meant(alloc: Global, entry: &Entry<'_>) -> Result<query::Entry, NoMemory>
    ensures { IfOk result (λ made. query.entry_of made ≡ entry_meant (as_entry entry.now)) }
{
    let columns = column_types(alloc, entry.columns)?;
    Ok(query::Entry {
        table: entry.table,
        columns,
    })
}

/// What columns are but for their names.
fn column_types(alloc: Global, columns: &[Column]) -> Result<Vec<ColumnType>, NoMemory>
    ensures { IfOk result (λ types. types.items ≡ map column_type columns.now) }
{
    Ok(
        columns
            .iter()
            .map(|column| column_type(column))
            .collect(alloc)?,
    )
}

/// What a column is but for its name: its type, and its NOT NULL.
fn column_type(column: &Column) -> ColumnType
    ensures { result ≡ column_type column.now }
{
    ColumnType {
        ty: column.ty,
        not_null: column.not_null,
    }
}
