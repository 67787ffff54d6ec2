// Compiled statements beside comparisons of numbers, whatever turns they are given.

use qw_scalar::comparison::Comparison;
use std::alloc::{AllocError, Global};

// The next state of a linear congruential generator.
fn next_random(state: u32) -> u32 {
    state.wrapping_mul(1_664_525).wrapping_add(1_013_904_223)
}

fn symbol_of(comparison: Comparison) -> &'static str {
    match comparison {
        Comparison::Equal => "=",
        Comparison::NotEqual => "<>",
        Comparison::Less => "<",
        Comparison::LessOrEqual => "<=",
        Comparison::Greater => ">",
        Comparison::GreaterOrEqual => ">=",
        Comparison::Like => "LIKE",
        Comparison::NotLike => "NOT LIKE",
    }
}

// The octets of a table file of one column A with these values.
fn table_file(alloc: Global, values: &[i32]) -> Result<String, AllocError> {
    let mut table = String::from_str(alloc, "A\n")?;
    for value in values {
        table.push_str(format!(in alloc; "{value}\n")?.as_str())?;
    }
    Ok(table)
}

// The text of the query of the values that compare so with the literal.
fn query_text(alloc: Global, comparison: Comparison, literal: i64) -> Result<String, AllocError> {
    let symbol = symbol_of(comparison);
    format!(in alloc; "SELECT A FROM T WHERE A {symbol} {literal}")
}

fn compares(comparison: Comparison, number: i64, literal: i64) -> bool {
    match comparison {
        Comparison::Equal => number == literal,
        Comparison::NotEqual => number != literal,
        Comparison::Less => number < literal,
        Comparison::LessOrEqual => number <= literal,
        Comparison::Greater => number > literal,
        Comparison::GreaterOrEqual => number >= literal,
        // Asked of texts.
        Comparison::Like | Comparison::NotLike => false,
    }
}

// Those of a column's values that compare so with the literal.
fn kept_numbers(
    alloc: Global,
    comparison: Comparison,
    literal: i64,
    values: &[i32],
) -> Result<Vec<i64>, AllocError> {
    let mut numbers = Vec::new(alloc);
    for value in values {
        let number = i64::from(*value);
        if compares(comparison, number, literal) {
            numbers.push(number)?;
        }
    }
    Ok(numbers)
}

mod columns;
mod orders;
mod tenants;
