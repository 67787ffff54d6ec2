// Columns of all kinds of values and literals: what `qwasm` prints of each, beside the values that compare so.

use super::{kept_numbers, next_random, query_text, table_file};
use crate::tables::{WORDS, call, shelf, sink};
use qw_io::MemorySink;
use qw_scalar::comparison::Comparison;
use qw_top::status::Status;
use std::alloc::{AllocError, Global};
use std::process::Abort;
use std::test::Fail;

const SCHEMA: &[u8] = b"CREATE TABLE T (A INTEGER NOT NULL)";

const MOST_ROWS: u32 = 2_727;

// With the columns at the edges, which are cases of `qw_run_cases`, these make 200.
const GENERATED: u32 = 176;

// The comparison for the generated column of this number: each in its turn.
fn comparison_of(number: u32) -> Comparison {
    match number % 6 {
        0 => Comparison::Greater,
        1 => Comparison::Less,
        2 => Comparison::GreaterOrEqual,
        3 => Comparison::LessOrEqual,
        4 => Comparison::NotEqual,
        _ => Comparison::Equal,
    }
}

// A literal, negative or not: one of the least, one about the greatest INTEGER, any INTEGER, or one of up to 18 digits.
fn literal_of(random: u32) -> i64 {
    let magnitude = magnitude_of(random);
    if (random >> 12) % 2 == 0 {
        magnitude
    } else {
        magnitude.wrapping_neg()
    }
}

fn magnitude_of(random: u32) -> i64 {
    let few = i64::from((random >> 16) % 16);
    let many = i64::from(next_random(random) >> 1);
    match random >> 30 {
        0 => few,
        1 => 2_147_483_640 + few,
        2 => many,
        _ => many * 465_661_287,
    }
}

// A value about the literal or about the bounds of INTEGER, which wraps from one to the other, or any at all.
fn value_of(random: u32, literal: i64) -> i32 {
    let offset = ((random >> 16) % 8).cast_signed();
    let middle = match random >> 30 {
        0 | 1 => i32::try_from(literal).unwrap_or(0),
        2 => i32::MAX,
        _ => next_random(random).cast_signed(),
    };
    middle.wrapping_add(offset).wrapping_sub(4)
}

// How many rows a column has: one in eight may have as many as a table can.
fn rows_of(random: u32) -> u32 {
    let most = if random >> 29 == 0 { MOST_ROWS } else { 64 };
    (random >> 8) % (most + 1)
}

// A column of random values for a literal, and the generator's state after it.
fn generated(alloc: Global, random: u32, literal: i64) -> Result<(Vec<i32>, u32), AllocError> {
    let mut state = next_random(random);
    let mut column = Vec::new(alloc);
    for _ in 0..rows_of(state) {
        state = next_random(state);
        column.push(value_of(state, literal))?;
    }
    Ok((column, state))
}

// How a run over a column ends, and what it prints.
fn printed(
    alloc: Global,
    column: &[i32],
    comparison: Comparison,
    literal: i64,
) -> Result<(Status, MemorySink), AllocError> {
    let table = table_file(alloc, column)?;
    let query = query_text(alloc, comparison, literal)?;
    let mut files = shelf(alloc, SCHEMA, table.as_bytes(), query.as_bytes())?;
    let mut out = sink(alloc, 4_096);
    let mut notes = sink(alloc, 1);
    let (status, _) = call(alloc, &mut files, &WORDS, &mut out, &mut notes)?;
    Ok((status, out))
}

// The report of these numbers, a line each.
fn report_of(alloc: Global, numbers: &[i64]) -> Result<String, AllocError> {
    let count = numbers.len();
    let mut report = format!(in alloc; "QUERY 1 ROWS {count}\nA\n")?;
    for number in numbers {
        report.push_str(format!(in alloc; "{number}\n")?.as_str())?;
    }
    Ok(report)
}

// Asserts that a run over a column prints the values that compare so, and answers how many rows these are. A failure shows the
// literal too.
fn compared(
    rt: &impl Abort,
    alloc: Global,
    column: &[i32],
    comparison: Comparison,
    literal: i64,
) -> Result<usize, Fail> {
    let numbers = kept_numbers(alloc, comparison, literal, column)?;
    let report = report_of(alloc, numbers.as_slice())?;
    let (status, out) = printed(alloc, column, comparison, literal)?;
    assert_eq!(rt;
        (literal, status, out.bytes()),
        (literal, Status::Done, report.as_bytes())
    );
    Ok(numbers.len())
}

// Asserts it of a generated column of a number, and answers the generator's state after it.
fn compared_generated(
    rt: &impl Abort,
    alloc: Global,
    number: u32,
    random: u32,
) -> Result<u32, Fail> {
    let literal = literal_of(random);
    let (column, state) = generated(alloc, random, literal)?;
    compared(rt, alloc, column.as_slice(), comparison_of(number), literal)?;
    Ok(state)
}

#[test]
fn generated_columns(rt: HostRuntime) -> Result<(), Fail> {
    let mut random = 1;
    for number in 0..GENERATED {
        random = compared_generated(&rt, rt.alloc(), number, next_random(random))?;
    }
    Ok(())
}
