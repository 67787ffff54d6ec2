//! Cases of the layers that read texts (`qw_token`, `qw_schema`, `qw_parse`), and of the hashes of keys (`qw_layout`), a row each on standard
//! input. What a row expects was found by hand, and the hashes apart from the program, by the words of `qw_layout`'s page.
//!
//! Texts have `\n`, `\r`, `\t` and `\xFF` for octets, and `\32{..}` for a part that stands so many times, in which the first `#` is the number
//! of the part, from 0 on. The kinds of rows:
//!
//! - `tokens TEXT`: the tokens with their kinds, or where the text stops; `scan TEXT`: only whether it has tokens, or where it stops;
//! - `schema TEXT`: the tables that it declares, as they could be declared, or why it is refused; `sizes TEXT`: only how many tables and columns;
//! - `script TEXT`: what its statements say, with brackets that show their trees (`statement`), or why it is refused; `count TEXT`: only how many statements;
//! - `hash VALUE..`: the hash and the slot of a key, by its values: `null`, a number, `'text'`, or a date as `@YYYYMMDD`.
#![tactic(auto)]

mod answers;
mod keys;
mod refusal;
mod statement;
mod tables;
mod texts;

use answers::answer;
use qw_cases::{Row, Tally, row_of};
use std::alloc::{AllocError, Global};
use std::io;
use std::process::ExitCode;

/// What a row comes to, as text.
fn found(alloc: Global, row: Row<'_>) -> Result<String, AllocError> {
    match answer(alloc, row.kind, row.input) {
        Ok(text) => Ok(text),
        Err(refusal) => format!(in alloc; "{refusal}"),
    }
}

fn main(rt: HostRuntime) -> io::Result<ExitCode> {
    let text = io::read_to_string(rt.alloc(), rt.reader())?;
    let mut tally = Tally::new();
    for line in text.lines() {
        if let Some(row) = row_of(line) {
            let found = found(rt.alloc(), row)?;
            tally.note(&rt, row, &found)?;
        }
    }
    tally.end(&rt)
}
