//! From the words of a command to the contents of its files.

ghost use Rattle.std.specs.Prelude.{◌≡◌, ◌≢◌, ◌≤◌, IfOk, IfErr, length, map};
ghost use Rattle.std.specs.List.{AllByRecursion};
ghost use Rattle.qw_top.specs.Causes.{schema_refused};
ghost use Rattle.qw_top.specs.FileNames.{told_part};
ghost use Rattle.qw_top.specs.Inner.Causes.{cause_of};
ghost use Rattle.qw_top.specs.Inner.Inputs.{IsNoSchema, IsNoScript, StopsAtTable, StopsAtTables, StopsForTable};
ghost use Rattle.qw_top.specs.Inner.Queries.{IsOver, StopsForFault, asked_of};
ghost use Rattle.qw_command_line.specs.Read.{names_of, options_of};
ghost use Rattle.qw_top.specs.Asking.{AsksWithin, IsOne};
ghost use Rattle.qw_top.specs.Call.{IsRunLimit, IsTableLimit};
ghost use Rattle.qw_top.specs.Limits.{limits_of, most_text_octets};
ghost use Rattle.qw_top.specs.Inner.Stages.{FilesStop};
ghost use Rattle.qw_top.specs.Inner.Shelves.{HasRead, told_by};
ghost use Rattle.qw_top.specs.Inner.Stop.{StopsAs, StopsFor, failed_stop, octets_of};
ghost use Rattle.qw_top.specs.Top.{HasQueries, IsFile, IsTooLong, QueriesAre, SchemaIs, TableIs, TablesAre};

use super::queries::{QueriesFault, queries_of};
use crate::causes::Cause;
use crate::files::{MAX_TEXT_FILE, ReadFault, read_whole};
use crate::stop::{FileName, Stop, refused};
use crate::table_file::{TableFault, load_files};
use qw_command_line::command::RunWords;
use qw_csv::Loaded;
use qw_io::Shelf;
use qw_parse::fault::ParseFault;
use qw_schema::parse::{SchemaFault, schema_of};
use qw_typer::fault::TypeFault;
use qw_typer::query::TypedQuery;
use qw_types::{Schema, Table};
use std::alloc::Global;

/// What the files of a run hold.
#[derive(Drop)]
pub struct Prepared {
    /// The schema.
    pub schema: Schema,
    /// The rows of its tables, in order.
    pub tables: Vec<Loaded>,
    /// The queries over them, in order.
    pub queries: Vec<TypedQuery>,
}

/// Reads the files that the words name: the schema file, the tables' files in the order of the schema, and the queries
/// file. The first that is refused ends the reading.
///
/// # Errors
///
/// A refusal of a file, the name of the one that couldn't be read, or want of memory.
pub fn prepare<'a, F: Shelf>(
    alloc: Global,
    names: &RunWords<'a>,
    files: &mut F,
) -> Result<Prepared, Stop<'a>>
    ensures accepted { IfOk result (λ run. HasQueries (F.files files.old) (names_of names.now) run.schema run.tables.items (map asked_of run.queries.items)) }
    ensures over { IfOk result (λ run. AllByRecursion (IsOver run.schema) run.queries.items) }
    ensures few { IfOk result (λ run. length run.queries.items ≤ 64) }
    ensures stops { IfErr result (λ stop. FilesStop (limits_of (options_of names.now.options)) (F.files files.old) (names_of names.now) stop) }
    ensures shelf { HasRead (failed_stop result) (told_by F.Shelf files.old) (told_by F.Shelf files.new) }
    ensures within { AsksWithin (IsRunLimit (names_of names.now)) (F.watched files.old) (F.watched files.new) }
{
    let schema = read_schema(alloc, names.schema, files)?;
    let tables = read_tables(alloc, names, schema.as_slice(), files)?;
    let queries = read_queries(alloc, names.queries, &schema, files)?;
    Ok(Prepared {
        schema,
        tables,
        queries,
    })
}

/// The schema of a schema file.
pub(super) fn read_schema<'a, F: Shelf>(
    alloc: Global,
    name: &'a str,
    files: &mut F,
) -> Result<Schema, Stop<'a>>
    ensures accepted { IfOk result (λ schema. SchemaIs (F.files files.old) name.now schema) }
    ensures stops { IfErr result (λ stop. StopsAs (IsNoSchema (F.files files.old) name.now) name.now stop) }
    ensures shelf { HasRead (failed_stop result) (told_by F.Shelf files.old) (told_by F.Shelf files.new) }
    ensures within { AsksWithin (IsOne name.now most_text_octets) (F.watched files.old) (F.watched files.new) }
{
    let name = FileName::Given(name);
    let text = read_file(alloc, files, name, MAX_TEXT_FILE, Cause::SchemaTooLong)?;
    match schema_of(alloc, text.as_slice()) {
        Ok(schema) => Ok(schema),
        Err(fault) => Err(schema_stop(alloc, &fault)),
    }
}

/// Why a run stops at a text that is no schema.
fn schema_stop<'a>(alloc: Global, fault: &SchemaFault) -> Stop<'a>
    ensures memory { fault.now ≡ SchemaFault.NoMemory → result ≡ Stop.NoMemory }
    ensures refused { fault.now ≢ SchemaFault.NoMemory → StopsFor (schema_refused fault.now) result }
{
    match fault {
        SchemaFault::NoMemory => Stop::NoMemory,
        fault => refused(alloc, Cause::Schema(fault)),
    }
}

/// The rows of the tables of a schema, by their files.
fn read_tables<'a, F: Shelf>(
    alloc: Global,
    names: &RunWords<'a>,
    schema: &[Table],
    files: &mut F,
) -> Result<Vec<Loaded>, Stop<'a>>
    ensures accepted { IfOk result (λ tables. TablesAre (F.files files.old) (names_of names.now) schema.now tables.items) }
    ensures stops { IfErr result (λ stop. StopsAtTables (F.files files.old) (names_of names.now) schema.now stop) }
    ensures shelf { HasRead (failed_stop result) (told_by F.Shelf files.old) (told_by F.Shelf files.new) }
    ensures within { AsksWithin (IsTableLimit (names_of names.now)) (F.watched files.old) (F.watched files.new) }
{
    let mut tables = Vec::with_capacity(alloc, schema.len()).map_err(|_| Stop::NoMemory)?;
    for table in schema {
        let loaded = read_table(alloc, names, table, files)?;
        let Ok(()) = tables.push(loaded) else {
            return Err(Stop::NoMemory);
        };
    }
    Ok(tables)
}

/// The rows of a table, by its files.
fn read_table<'a, F: Shelf>(
    alloc: Global,
    names: &RunWords<'a>,
    table: &Table,
    files: &mut F,
) -> Result<Loaded, Stop<'a>>
    ensures accepted { IfOk result (λ loaded. TableIs (F.files files.old) (names_of names.now) table.now loaded) }
    ensures stops { IfErr result (λ stop. StopsAtTable (F.files files.old) (names_of names.now) table.now stop) }
    ensures shelf { HasRead (failed_stop result) (told_by F.Shelf files.old) (told_by F.Shelf files.new) }
    ensures within { AsksWithin (IsTableLimit (names_of names.now)) (F.watched files.old) (F.watched files.new) }
{
    match load_files(alloc, files, names, table) {
        Ok(loaded) => Ok(loaded),
        Err(fault) => Err(table_unloaded(alloc, table, names.parts, fault)),
    }
}

/// Why a run stops at the files of a table that weren't loaded, where each table has so many parts.
fn table_unloaded<'a>(
    alloc: Global,
    table: &Table,
    parts: Option<u64>,
    fault: TableFault,
) -> Stop<'a>
    ensures { StopsForTable parts table.now fault result }
{
    match fault {
        TableFault::TooLong(part) => {
            refused(alloc, Cause::TableTooLong(table, told_part(parts, part)))
        }
        TableFault::Unread(name) => Stop::Unread(FileName::Made(name)),
        TableFault::Content(part, fault) => {
            refused(alloc, Cause::Table(table, told_part(parts, part), &fault))
        }
        TableFault::NoMemory => Stop::NoMemory,
    }
}

/// The number of a file of a table as it is told: that of the part, where each table has so many.
fn told_part(parts: Option<u64>, part: u64) -> Option<u64>
    ensures { result ≡ told_part parts part }
{
    match parts {
        Some(_) => Some(part),
        None => None,
    }
}

/// The queries of a queries file, in order.
pub(super) fn read_queries<'a, F: Shelf>(
    alloc: Global,
    name: &'a str,
    schema: &Schema,
    files: &mut F,
) -> Result<Vec<TypedQuery>, Stop<'a>>
    ensures accepted { IfOk result (λ queries. QueriesAre (F.files files.old) name.now schema.now (map asked_of queries.items)) }
    ensures over { IfOk result (λ queries. AllByRecursion (IsOver schema.now) queries.items) }
    ensures some { IfOk result (λ queries. 1 ≤ length queries.items) }
    ensures few { IfOk result (λ queries. length queries.items ≤ 64) }
    ensures stops { IfErr result (λ stop. StopsAs (IsNoScript (F.files files.old) name.now schema.now) name.now stop) }
    ensures shelf { HasRead (failed_stop result) (told_by F.Shelf files.old) (told_by F.Shelf files.new) }
    ensures within { AsksWithin (IsOne name.now most_text_octets) (F.watched files.old) (F.watched files.new) }
{
    let name = FileName::Given(name);
    let text = read_file(alloc, files, name, MAX_TEXT_FILE, Cause::QueriesTooLong)?;
    match queries_of(alloc, schema, text.as_slice()) {
        Ok(queries) => Ok(queries),
        Err(fault) => Err(queries_stop(alloc, &fault)),
    }
}

/// Why a run stops at a text that asks for no queries.
fn queries_stop<'a>(alloc: Global, fault: &QueriesFault) -> Stop<'a>
    ensures { StopsForFault fault.now result }
{
    match fault {
        QueriesFault::Script(ParseFault::NoMemory) | QueriesFault::Typing(TypeFault::NoMemory) => {
            Stop::NoMemory
        }
        QueriesFault::Script(fault) => refused(alloc, Cause::Queries(fault)),
        QueriesFault::Typing(fault) => refused(alloc, Cause::Mistyped(fault)),
    }
}

/// A whole file within its limit. A longer one is refused for this cause.
pub(super) fn read_file<'a, F: Shelf>(
    alloc: Global,
    files: &mut F,
    name: FileName<'a>,
    limit: usize,
    too_long: Cause<'_>,
) -> Result<Vec<u8>, Stop<'a>>
    ensures whole { IfOk result (λ bytes. IsFile (F.files files.old) (octets_of name.entry) limit bytes.items) }
    ensures stops { IfErr result (λ stop. StopsAs (λ cause. (cause ≡ cause_of too_long.entry) × IsTooLong (F.files files.old) (octets_of name.entry) limit)
        (octets_of name.entry) stop) }
    ensures shelf { HasRead (failed_stop result) (told_by F.Shelf files.old) (told_by F.Shelf files.new) }
    ensures within { AsksWithin (IsOne (octets_of name.entry) limit) (F.watched files.old) (F.watched files.new) }
{
    match read_whole(alloc, files, name.as_str(), limit) {
        Ok(bytes) => Ok(bytes),
        Err(ReadFault::TooLong) => Err(refused(alloc, too_long)),
        Err(ReadFault::Failed) => Err(Stop::Unread(name)),
        Err(ReadFault::NoMemory) => Err(Stop::NoMemory),
    }
}
