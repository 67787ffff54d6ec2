//! What the program leaves of the queries of a script beside the slow program's answers.

use crate::called::Came;
use crate::compared::Log;
use crate::fault::CaseFault;
use crate::plain::{plain_answer, tables_of};
use crate::setting::Setting;
use qw_bench::bench::{Bench, Ended};
use qw_plain::outcome::Answer;
use qw_schema::parse::schema_of;
use qw_sink::results::received;
use qw_top::top::queries::queries_of;
use qw_typer::query::TypedQuery;
use qw_types::{Code, NoMemory, Row, Schema, Val};
use std::alloc::Global;

/// In which order a query's rows have to come.
#[derive(Clone, Copy)]
pub enum Way {
    /// In that of the slow program.
    InOrder,
    /// In any.
    AnyOrder,
}

/// A schema, the rows of its tables, and how rows are compared.
#[derive(Drop)]
pub struct Given {
    schema: Schema,
    tables: Vec<Vec<Row>>,
    way: Way,
}

impl Given {
    /// The schema and the tables that are set.
    pub fn of(alloc: Global, setting: &Setting, way: Way) -> Result<Self, CaseFault> {
        let text = setting.text("s").ok_or(CaseFault::Line)?;
        let schema = schema_of(alloc, text).map_err(|_| CaseFault::Line)?;
        let tables = tables_of(alloc, &schema, setting)?;
        Ok(Given {
            schema,
            tables,
            way,
        })
    }
}

/// The number of the first query of the script that is set, from 0 on, that the program ends otherwise than the slow program. Those before it
/// are noted.
pub fn first_difference(
    alloc: Global,
    setting: &Setting,
    given: &Given,
    log: &mut Log,
) -> Result<Option<usize>, CaseFault> {
    let script = setting.text("q").unwrap_or(b"");
    let queries = queries_in(alloc, script, &given.schema)?;
    let texts = std::str::from_utf8(script).map_err(|_| CaseFault::Line)?;
    let came = Came::of(alloc, setting)?;
    let bench = bench_of(&came, queries.len())?;
    for (k, (query, text)) in queries.iter().zip(texts.split(';')).enumerate() {
        let answer = plain_answer(alloc, &query.query, given.tables.as_slice())?;
        if !ends_so(alloc, &answer, bench, k, given.way)? {
            return Ok(Some(k));
        }
        log.note(alloc, text, &answer)?;
    }
    Ok(None)
}

fn queries_in(alloc: Global, script: &[u8], schema: &Schema) -> Result<Vec<TypedQuery>, CaseFault> {
    queries_of(alloc, schema, script).map_err(|_| CaseFault::Line)
}

// The bench of a call, which has to have so many instances.
fn bench_of(came: &Came, count: usize) -> Result<&Bench, CaseFault> {
    let bench = came.kept().ok_or(CaseFault::Line)?;
    if bench.len() == count {
        Ok(bench)
    } else {
        Err(CaseFault::Line)
    }
}

// Whether the instance of a number ended as an answer says: with its rows, or with one of its exceptions.
fn ends_so(
    alloc: Global,
    answer: &Answer,
    bench: &Bench,
    k: usize,
    way: Way,
) -> Result<bool, NoMemory> {
    if bench.len() <= k || bench.released(k) {
        return Ok(false);
    }
    match bench.ended(k) {
        Some(Ended::Done) => Ok(gives(answer, received(alloc, bench, k)?.as_slice(), way)),
        Some(Ended::Raised(code)) => Ok(raises(answer, code)),
        _ => Ok(false),
    }
}

fn gives(answer: &Answer, rows: &[Row], way: Way) -> bool {
    match (answer, way) {
        (Answer::Rows(expected), Way::InOrder) => same_rows(expected.as_slice(), rows),
        (Answer::Rows(expected), Way::AnyOrder) => is_same_bag(expected.as_slice(), rows),
        (Answer::Raises(_), _) => false,
    }
}

fn raises(answer: &Answer, code: Code) -> bool {
    match answer {
        Answer::Rows(_) => false,
        Answer::Raises(codes) => codes.iter().any(|raised| *raised == code),
    }
}

// Whether these are the same rows, each as often.
fn is_same_bag(rows: &[Row], others: &[Row]) -> bool {
    rows.len() == others.len()
        && rows
            .iter()
            .all(|row| count(rows, row) == count(others, row))
}

fn count(rows: &[Row], row: &Row) -> usize {
    rows.iter()
        .filter(|other| same_values(other.values(), row.values()))
        .count()
}

// Whether these are the same rows in the same order.
fn same_rows(rows: &[Row], others: &[Row]) -> bool {
    rows.len() == others.len()
        && rows
            .iter()
            .zip(others)
            .all(|(row, other)| same_values(row.values(), other.values()))
}

fn same_values(values: &[Val], others: &[Val]) -> bool {
    values.len() == others.len()
        && values
            .iter()
            .zip(others)
            .all(|(value, other)| is_same(value, other))
}

fn is_same(value: &Val, other: &Val) -> bool {
    match (value, other) {
        (Val::Null, Val::Null) => true,
        (Val::Num(number), Val::Num(another)) => *number == *another,
        (Val::Date(day), Val::Date(another)) => *day == *another,
        (Val::Text(text), Val::Text(another)) => text.as_str() == another.as_str(),
        _ => false,
    }
}
