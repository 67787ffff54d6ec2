//! Why a call ends before its work is done, and the line that says so.

ghost use Rattle.std.specs.Prelude.{◌≡◌, ◌++◌, IfOk, codes};
ghost use Rattle.std.specs.Fmt.{decimal};
ghost use Rattle.std.specs.String.{string_bytes};
ghost use Rattle.qw_top.specs.Causes.{cell_cause, column_name, counted, counted_in_script, file_words, in_statement, kind_words, line_of_cause, load_cause, module_cause, part_words, schema_cause, script_cause, status_of_cause, table_cause, too_many, typing_cause, what_words};
ghost use Rattle.qw_top.specs.Inner.Causes.{cause_of};
ghost use Rattle.qw_top.specs.Inner.Stop.{refusal_status};

use crate::stop::Refusal;
use qw_check::check::CheckFault;
use qw_csv::CellFault;
use qw_csv::loading::LoadFault;
use qw_octet_grammar::fault::What;
use qw_parse::fault::{Count as ScriptCount, ParseFault};
use qw_schema::parse::{Count, SchemaFault};
use qw_typer::fault::{FaultKind, TypeFault};
use qw_types::{FieldFault, NoMemory, Table};
use qw_valid::valid::Part;
use std::alloc::Global;

/// Why a run whose words were read ends before it has a bench.
#[derive(Clone, Copy)]
pub(crate) enum Cause<'a> {
    SchemaTooLong,
    Schema(&'a SchemaFault),
    /// A table's file; where tables have parts, that of the part of this number, counted from 1.
    TableTooLong(&'a Table, Option<u64>),
    Table(&'a Table, Option<u64>, &'a LoadFault),
    QueriesTooLong,
    Queries(&'a ParseFault),
    /// The queries are a script, and one means nothing over the schema.
    Mistyped(&'a TypeFault),
    /// The queries are accepted, and have no statement of this number.
    NoStatement(u64),
    ModuleTooLong,
    Module(&'a CheckFault),
    /// The pages of the columns and of the limits together, which are more than a memory has.
    TotalPages(u64),
}

impl Cause<'_> {
    /// What is refused for it.
    pub(crate) fn refusal(self) -> Refusal
        ensures { refusal_status result ≡ status_of_cause (cause_of self.entry) }
    {
        match self {
            Cause::SchemaTooLong | Cause::Schema(_) => Refusal::Schema,
            Cause::TableTooLong(_, _) | Cause::Table(_, _, _) => Refusal::TableFile,
            Cause::QueriesTooLong
            | Cause::Queries(_)
            | Cause::Mistyped(_)
            | Cause::NoStatement(_) => Refusal::Queries,
            Cause::ModuleTooLong | Cause::Module(_) => Refusal::Module,
            Cause::TotalPages(_) => Refusal::TotalPages,
        }
    }

    /// The line on it.
    pub(crate) fn line(self, alloc: Global) -> Result<String, NoMemory>
        ensures { IfOk result (λ line. string_bytes line ≡ line_of_cause (cause_of self.entry)) }
    {
        match self {
            Cause::SchemaTooLong => line_on(alloc, "schema", "too long"),
            Cause::Schema(fault) => {
                let words = schema_cause(alloc, fault)?;
                line_on(alloc, "schema", words.as_str())
            }
            Cause::TableTooLong(table, part) => {
                let told = file_words(alloc, table, part)?;
                line_on(alloc, told.as_str(), "too long")
            }
            Cause::Table(table, part, fault) => {
                let words = table_cause(alloc, table, part, fault)?;
                line_of(alloc, words.as_str())
            }
            Cause::QueriesTooLong => line_on(alloc, "queries", "too long"),
            Cause::Queries(fault) => {
                let words = script_cause(alloc, fault)?;
                line_on(alloc, "queries", words.as_str())
            }
            Cause::Mistyped(fault) => {
                let words = typing_cause(alloc, fault)?;
                line_on(alloc, "queries", words.as_str())
            }
            Cause::NoStatement(statement) => {
                Ok(format!(in alloc; "queries: no statement {statement}\n")?)
            }
            Cause::ModuleTooLong => line_on(alloc, "module", "too long"),
            Cause::Module(fault) => {
                let words = module_cause(alloc, fault)?;
                line_on(alloc, "module", words.as_str())
            }
            Cause::TotalPages(need) => Ok(format!(in alloc; "total pages {need}\n")?),
        }
    }
}

/// A line of these words.
fn line_of(alloc: Global, words: &str) -> Result<String, NoMemory>
    ensures { IfOk result (λ line. string_bytes line ≡ words.now ++ codes "\n") }
{
    Ok(format!(in alloc; "{words}\n")?)
}

/// A line of what is told, and these words on it.
fn line_on(alloc: Global, told: &str, words: &str) -> Result<String, NoMemory>
    ensures { IfOk result (λ line. string_bytes line ≡ (told.now ++ codes ": " ++ words.now) ++ codes "\n") }
{
    Ok(format!(in alloc; "{told}: {words}\n")?)
}

/// The words for why a text is no schema.
fn schema_cause(alloc: Global, fault: &SchemaFault) -> Result<String, NoMemory>
    ensures { IfOk result (λ words. string_bytes words ≡ schema_cause fault.now) }
{
    match fault {
        SchemaFault::NotUtf8 => Ok(String::from_str(alloc, "not utf-8")?),
        SchemaFault::NotToken { at } => Ok(format!(in alloc; "not a token at {at}")?),
        SchemaFault::NotGrammar { statement } => in_statement(alloc, "not grammar", *statement),
        SchemaFault::TooDeep { statement } => in_statement(alloc, "too deep", *statement),
        SchemaFault::TooMany {
            statement,
            what,
            limit,
        } => too_many(alloc, *statement, counted(*what), *limit),
        SchemaFault::Duplicate { statement } => in_statement(alloc, "duplicate", *statement),
        SchemaFault::BadSize { statement } => in_statement(alloc, "bad size", *statement),
        SchemaFault::NoMemory => Ok(String::from_str(alloc, "want of memory")?),
    }
}

/// The words for why a text is no script.
fn script_cause(alloc: Global, fault: &ParseFault) -> Result<String, NoMemory>
    ensures { IfOk result (λ words. string_bytes words ≡ script_cause fault.now) }
{
    match fault {
        ParseFault::NotUtf8 => Ok(String::from_str(alloc, "not utf-8")?),
        ParseFault::NotToken { at } => Ok(format!(in alloc; "not a token at {at}")?),
        ParseFault::NotGrammar { statement } => in_statement(alloc, "not grammar", *statement),
        ParseFault::TooDeep { statement } => in_statement(alloc, "too deep", *statement),
        ParseFault::TooMany {
            statement,
            what,
            limit,
        } => too_many(alloc, *statement, counted_in_script(*what), *limit),
        ParseFault::NoMemory => Ok(String::from_str(alloc, "want of memory")?),
    }
}

/// The words for why a script means nothing over a schema.
fn typing_cause(alloc: Global, fault: &TypeFault) -> Result<String, NoMemory>
    ensures { IfOk result (λ words. string_bytes words ≡ typing_cause fault.now) }
{
    match fault {
        TypeFault::Fault {
            statement,
            kind,
            name,
        } => mistyped(alloc, *statement, *kind, name.as_str()),
        TypeFault::NoMemory => Ok(String::from_str(alloc, "want of memory")?),
    }
}

/// Words on the statement of this number.
fn in_statement(alloc: Global, words: &str, statement: usize) -> Result<String, NoMemory>
    ensures { IfOk result (λ cause. string_bytes cause ≡ in_statement words.now statement) }
{
    Ok(format!(in alloc; "{words} in statement {statement}")?)
}

/// The words for too many of something in the statement of this number.
fn too_many(alloc: Global, statement: usize, what: &str, limit: usize) -> Result<String, NoMemory>
    ensures { IfOk result (λ cause. string_bytes cause ≡ too_many statement what.now limit) }
{
    Ok(format!(in alloc; "too many {what} in statement {statement}, limit {limit}")?)
}

/// The word for what is counted in a schema.
fn counted(what: Count) -> &'static str
    ensures { result.now ≡ counted what }
{
    match what {
        Count::Tables => "tables",
        Count::Columns => "columns",
    }
}

/// The words for what is counted in a script.
fn counted_in_script(what: ScriptCount) -> &'static str
    ensures { result.now ≡ counted_in_script what }
{
    match what {
        ScriptCount::Statements => "statements",
        ScriptCount::SelectItems => "select items",
        ScriptCount::FromEntries => "from entries",
        ScriptCount::GroupColumns => "group columns",
        ScriptCount::SortKeys => "sort keys",
        ScriptCount::Nodes => "nodes",
        ScriptCount::LiteralOctets => "literal octets",
    }
}

/// The words for a construct that is at fault in the statement of this number, and a token of it.
fn mistyped(
    alloc: Global,
    statement: usize,
    kind: FaultKind,
    name: &str,
) -> Result<String, NoMemory>
    ensures { IfOk result (λ cause. string_bytes cause ≡ in_statement (kind_words kind ++ codes " " ++ name.now) statement) }
{
    let kind = kind_words(kind);
    Ok(format!(in alloc; "{kind} {name} in statement {statement}")?)
}

/// The words for what is wrong with a construct.
fn kind_words(kind: FaultKind) -> &'static str
    ensures { result.now ≡ kind_words kind }
{
    match kind {
        FaultKind::UnknownTable => "unknown table",
        FaultKind::UnknownColumn => "unknown column",
        FaultKind::Ambiguous => "ambiguous",
        FaultKind::DuplicateAlias => "duplicate alias",
        FaultKind::Clash => "clash",
        FaultKind::ScaleTooLarge => "scale too large",
        FaultKind::LiteralTooLong => "literal too long",
        FaultKind::BadDate => "bad date",
        FaultKind::BadOrdinal => "bad ordinal",
        FaultKind::NotGrouped => "not grouped",
        FaultKind::NestedAggregate => "nested aggregate",
        FaultKind::TooManyFunctions => "too many functions",
    }
}

/// The words for a table's file: the table's name, and the number of the part where there is one.
fn file_words(alloc: Global, table: &Table, part: Option<u64>) -> Result<String, NoMemory>
    ensures { IfOk result (λ words. string_bytes words ≡ file_words table.now part) }
{
    let name = table.name.as_str();
    match part {
        Some(part) => Ok(format!(in alloc; "{name} part {part}")?),
        None => Ok(String::from_str(alloc, name)?),
    }
}

/// The words for why a table's file stands for no rows.
fn table_cause(
    alloc: Global,
    table: &Table,
    part: Option<u64>,
    fault: &LoadFault,
) -> Result<String, NoMemory>
    ensures { IfOk result (λ words. string_bytes words ≡ table_cause table.now part fault.now) }
{
    let told = file_words(alloc, table, part)?;
    load_cause(alloc, told.as_str(), table, fault)
}

/// The same of a file that is told by these words.
fn load_cause(
    alloc: Global,
    file: &str,
    table: &Table,
    fault: &LoadFault,
) -> Result<String, NoMemory>
    ensures { IfOk result (λ words. string_bytes words ≡ load_cause file.now table.now fault.now) }
{
    match fault {
        LoadFault::BadHeader => Ok(format!(in alloc; "{file}: bad header")?),
        LoadFault::FieldCount { row } => Ok(format!(in alloc; "{file} record {row}: field count")?),
        LoadFault::Field { row, column, fault } => {
            field_cause(alloc, file, *row, column_name(table, *column), *fault)
        }
        LoadFault::TooManyRows => Ok(format!(in alloc; "{file}: too many rows")?),
        LoadFault::NoMemory => Ok(String::from_str(alloc, "want of memory")?),
    }
}

/// The words for why a field of a record stands for no value of its column.
fn field_cause(
    alloc: Global,
    table: &str,
    row: usize,
    column: &str,
    fault: CellFault,
) -> Result<String, NoMemory>
    ensures { IfOk result (λ words. string_bytes words ≡ table.now ++ codes " record " ++ decimal row ++ codes " column " ++ column.now ++ codes ": " ++ cell_cause fault) }
{
    let why = cell_cause(fault);
    Ok(format!(in alloc; "{table} record {row} column {column}: {why}")?)
}

/// The name of a column of a table, counted from 0; the empty text where it has none.
fn column_name(table: &Table, column: usize) -> &str
    ensures { result.now ≡ column_name table.now column }
{
    match table.columns.as_slice().get(column) {
        Some(column) => column.name.as_str(),
        None => "",
    }
}

/// The words for why a field stands for no value of a column.
fn cell_cause(fault: CellFault) -> &'static str
    ensures { result.now ≡ cell_cause fault }
{
    match fault {
        CellFault::Form(FieldFault::NotNumber) => "not a number",
        CellFault::Form(FieldFault::TooLarge) => "too large",
        CellFault::Form(FieldFault::TooFine) => "too fine",
        CellFault::Form(FieldFault::NotDate) => "not a date",
        CellFault::NullForbidden => "null forbidden",
        CellFault::TextTooLong => "text too long",
        CellFault::NotUtf8 => "not utf-8",
    }
}

/// The words for why octets are no valid module.
fn module_cause(alloc: Global, fault: &CheckFault) -> Result<String, NoMemory>
    ensures { IfOk result (λ words. string_bytes words ≡ module_cause fault.now) }
{
    match fault {
        CheckFault::NotModule => Ok(String::from_str(alloc, "not a module")?),
        CheckFault::OutOfProfile(what) => out_of_profile(alloc, *what),
        CheckFault::Part(part) => invalid_part(alloc, *part),
        CheckFault::Body { func, at } => Ok(format!(in alloc; "invalid function {func} at {at}")?),
        CheckFault::NoMemory => Ok(String::from_str(alloc, "want of memory")?),
    }
}

/// The words for a construct that lies outside the profile.
fn out_of_profile(alloc: Global, what: What) -> Result<String, NoMemory>
    ensures { IfOk result (λ words. string_bytes words ≡ codes "out of profile " ++ what_words what) }
{
    let what = what_words(what);
    Ok(format!(in alloc; "out of profile {what}")?)
}

/// The name of what lies outside the profile.
fn what_words(what: What) -> &'static str
    ensures { result.now ≡ what_words what }
{
    match what {
        What::Float => "Float",
        What::CallIndirect => "CallIndirect",
        What::Table => "Table",
        What::Start => "Start",
        What::Element => "Element",
        What::DataSection => "DataSection",
        What::Import => "Import",
    }
}

/// The words for a part of a module that isn't valid.
fn invalid_part(alloc: Global, part: Part) -> Result<String, NoMemory>
    ensures { IfOk result (λ words. string_bytes words ≡ codes "invalid " ++ part_words part) }
{
    let part = part_words(part);
    Ok(format!(in alloc; "invalid {part}")?)
}

/// The name of a part of a module.
fn part_words(part: Part) -> &'static str
    ensures { result.now ≡ part_words part }
{
    match part {
        Part::Types => "Types",
        Part::Imports => "Imports",
        Part::Functions => "Functions",
        Part::Memory => "Memory",
        Part::Globals => "Globals",
        Part::Exports => "Exports",
    }
}
