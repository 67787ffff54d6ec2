//! What names are resolved against: the entries of FROM that column references reach, and the grouped table.

ghost use Rattle.std.specs.Prelude.{◌≡◌, ◌*◌, ◌+◌, ◌==◌, ◌++◌, if◌then◌else◌, List, [], Some, None, length, position, option_map};
ghost use Rattle.std.specs.List.{list_any};
ghost use Rattle.std.specs.Str.{bytes_eq};
ghost use Rattle.qw_typer.specs.declared.scope.Entry.{Entry as CodeEntry};
ghost use Rattle.qw_typer.specs.declared.scope.FunctionColumn.{FunctionColumn as CodeFunction};
ghost use Rattle.qw_grouped.specs.declared.query.GroupedColumn.{GroupedColumn};
ghost use Rattle.qw_ast.specs.SyntaxTree.{octets_of};
ghost use Rattle.qw_types.specs.declared.schema.Column.{Column};
ghost use Rattle.qw_scalar.specs.Expression as meaning;
ghost use Rattle.qw_typer.specs.Meant.{column_grouped, column_named, function_at, is_qualified, listed, ungrouped};
ghost use Rattle.qw_typer.specs.Meant as meant;
ghost use Rattle.qw_typer.specs.Faults as faults;
ghost use Rattle.qw_typer.specs.Inner.Typing.{IsFound, as_entries, as_entry, as_grouping, in_reach};

use qw_grouped::query::GroupedColumn;
use qw_types::{Column, Text, Ty};

/// An entry of FROM (ISO/IEC 9075:1992, 6.3, 7.4): its alias, or without one its table's name; its number among the entries of FROM
/// and its table's place in the schema, both counted from 0; and the table's columns in order.
#[derive(Drop)]
pub(crate) struct Entry<'s> {
    pub(crate) name: Text,
    pub(crate) number: u8,
    pub(crate) table: usize,
    pub(crate) columns: &'s [Column],
}

/// A set function of a grouped query as a column of its grouped table (6.5): its place in the text, and the type of its values.
#[derive(Clone, Copy)]
pub(crate) struct FunctionColumn {
    pub(crate) place: usize,
    pub(crate) ty: Ty,
}

/// The columns of the grouped table (7.7 to 7.9): those of GROUP BY, and behind them the set functions in the order of the text.
#[derive(Clone, Copy)]
pub(crate) struct Grouping<'e> {
    pub(crate) columns: &'e [GroupedColumn],
    pub(crate) functions: &'e [FunctionColumn],
}

/// What names are resolved against: the entries that column references reach, and in the select list and HAVING of a grouped query the
/// grouped table.
#[derive(Clone, Copy)]
pub(crate) struct Scope<'e, 's> {
    pub(crate) entries: &'e [Entry<'s>],
    pub(crate) grouping: Option<Grouping<'e>>,
}

impl<'e, 's> Scope<'e, 's> {
    /// That of ON, WHERE, GROUP BY and the arguments of set functions, and of the select list of a query that isn't grouped.
    pub(crate) fn ungrouped(entries: &'e [Entry<'s>]) -> Self
        ensures { in_reach result ≡ ungrouped (as_entries entries.now) }
    {
        Scope {
            entries,
            grouping: None,
        }
    }
}

impl Grouping<'_> {
    /// A column of FROM in the grouped table, if it is a column of GROUP BY.
    pub(crate) fn column(&self, column: Place) -> Option<Place>
        ensures { option_map (λ p. meaning.column p.place p.ty) result ≡ column_grouped (as_grouping self.now) (meaning.column column.place column.ty) }
    {
        match column_index(self.columns, column.place) {
            Some(index) => Some(Place {
                place: index,
                ty: self.columns[index].ty,
            }),
            None => None,
        }
    }

    /// The set function at a place of the text in the grouped table.
    pub(crate) fn function(&self, place: usize) -> Option<Place>
        ensures { option_map (λ p. meaning.column p.place p.ty) result ≡ function_at (as_grouping self.now) place }
    {
        match function_index(self.functions, place) {
            Some(index) => Some(Place {
                place: self.columns.len() + index,
                ty: self.functions[index].ty,
            }),
            None => None,
        }
    }
}

/// The place of the column of FROM of this number among the columns of GROUP BY.
fn column_index(columns: &[GroupedColumn], number: usize) -> Option<usize>
    ensures { result ≡ position (λ (c : GroupedColumn). c.number == number) columns.now }
{
    columns.iter().position(|column| column.number == number)
}

/// The place of the set function at a place of the text among the set functions.
fn function_index(functions: &[FunctionColumn], place: usize) -> Option<usize>
    ensures { result ≡ position (λ (f : CodeFunction). f.place == place) functions.now }
{
    functions
        .iter()
        .position(|function| function.place == place)
}

/// A column's number in every clause, and its type.
#[derive(Clone, Copy)]
pub(crate) struct Place {
    pub(crate) place: usize,
    pub(crate) ty: Ty,
}

/// What there is of columns that a reference may mean.
#[derive(Clone, Copy)]
pub(crate) enum Found {
    Nothing,
    One(Place),
    Several,
}

impl Found {
    /// With those that were found elsewhere.
    fn with(self, other: Found) -> Found
        ensures { (es fs : List meaning.Expression) → IsFound self es → IsFound other fs → IsFound result (es ++ fs) }
    {
        match self {
            Found::Nothing => other,
            Found::One(_) => match other {
                Found::Nothing => self,
                Found::One(_) | Found::Several => Found::Several,
            },
            Found::Several => Found::Several,
        }
    }
}

/// Whether the name, as a qualifier, is that of an entry in reach.
pub(crate) fn is_known(entries: &[Entry<'_>], name: &Text) -> bool
    ensures { result ≡ faults.is_known (as_entries entries.now) (Some name.now) }
{
    has_name(entries, name)
}

/// Whether an entry has the name.
fn has_name(entries: &[Entry<'_>], name: &Text) -> bool
    ensures { result ≡ list_any (λ (e : CodeEntry). bytes_eq name.now e.name) entries.now }
{
    entries.iter().any(|entry| is_name(name, &entry.name))
}

/// The columns of the name in the entries that the qualifier names.
pub(crate) fn referred(entries: &[Entry<'_>], qualifier: Option<&Text>, name: &Text) -> Found
    ensures { IsFound result (meant.referred (as_entries entries.now) (octets_of qualifier.entry) name.now) }
{
    let mut found = Found::Nothing;
    let mut rest = entries;
    while let [entry, behind @ ..] = rest {
        found = found.with(in_entry(entry, qualifier, name));
        rest = behind;
    }
    found
}

/// The column of the name in the entry, if the qualifier names the entry.
fn in_entry(entry: &Entry<'_>, qualifier: Option<&Text>, name: &Text) -> Found
    ensures { IsFound result (if is_qualified (octets_of qualifier.entry) (as_entry entry.now) then listed (column_named (as_entry entry.now) name.now) else []) }
{
    match qualifier {
        Some(qualifier) if !is_name(qualifier, &entry.name) => Found::Nothing,
        _ => at_place(column_named(entry, name)),
    }
}

/// A column that may be there.
fn at_place(place: Option<Place>) -> Found
    ensures { IsFound result (listed (option_map (λ p. meaning.column p.place p.ty) place)) }
{
    match place {
        Some(place) => Found::One(place),
        None => Found::Nothing,
    }
}

/// The column of the name in the entry: column c of entry e is number 64 * e + c.
fn column_named(entry: &Entry<'_>, name: &Text) -> Option<Place>
    ensures { option_map (λ p. meaning.column p.place p.ty) result ≡ column_named (as_entry entry.now) name.now }
{
    match index_of(entry.columns, name) {
        Some(index) => Some(Place {
            place: first_column(entry.number) + index,
            ty: entry.columns[index].ty,
        }),
        None => None,
    }
}

/// The number of an entry's first column.
pub(crate) fn first_column(number: u8) -> usize
    ensures { result ≡ 64 * number }
{
    64 * usize::from(number)
}

/// The place of a column in its table.
fn index_of(columns: &[Column], name: &Text) -> Option<usize>
    ensures { result ≡ position (λ (c : Column). bytes_eq name.now c.name) columns.now }
{
    columns
        .iter()
        .position(|column| is_name(name, &column.name))
}

/// Whether two names are the same.
pub(crate) fn is_name(name: &Text, other: &Text) -> bool
    ensures { result ≡ bytes_eq name.now other.now }
{
    name.as_str().as_bytes() == other.as_str().as_bytes()
}
