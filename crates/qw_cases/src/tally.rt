//! How many rows were read, and how many came to something else than they say.

use crate::rows::Row;
use std::io;
use std::process::ExitCode;

/// Rows counted.
#[derive(Drop)]
pub struct Tally {
    rows: u64,
    different: u64,
}

impl Tally {
    /// No row yet.
    pub fn new() -> Self {
        Tally {
            rows: 0,
            different: 0,
        }
    }

    /// Counts a row, and prints it where it came to something else.
    pub fn note(&mut self, rt: &impl Print, row: Row<'_>, found: &str) -> io::Result<()> {
        self.rows = self.rows.saturating_add(1);
        if found == row.expected {
            return Ok(());
        }
        self.different = self.different.saturating_add(1);
        let Row {
            kind,
            input,
            expected,
        } = row;
        println!(rt; "{kind} {input} => {found}, not {expected}")
    }

    /// Prints how many rows there were, and how many of them came to something else. With none of these a program ends with 0.
    pub fn end(&self, rt: &impl Print) -> io::Result<ExitCode> {
        let Tally { rows, different } = self;
        println!(rt; "{rows} rows, {different} differ")?;
        Ok(if self.different == 0 {
            ExitCode::SUCCESS
        } else {
            ExitCode::from(1)
        })
    }
}
