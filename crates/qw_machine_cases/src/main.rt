//! Cases of the layers that read, write, check and execute modules (`qw_binary`, `qw_valid`, `qw_machine`), a row each on standard input.
//! What a row expects was found by hand in the WebAssembly Core Specification 1.0.
//!
//! Modules are octets in hexadecimal, behind the header. Bodies are the standard's words for instructions, with their immediates behind
//! them as the octets have them: of a block its result (`-`, `i32` or `i64`), of an access the exponent of its alignment and its offset, of a
//! `br_table` how many labels there are, these, and the default. `words` has all of them, `frames` the modules around bodies. The kinds of rows:
//!
//! - `octets OCTETS`: how reading these octets alone ends; `read MODULE`: how reading a module ends;
//! - `again MODULE`: the octets that are written of what was read;
//! - `valid MODULE`: whether it is valid, or its fault;
//! - `call MODULE`: whether its `run` can be called, or why not;
//! - `body RESULT BODY`: the first place that is refused of a body with this result; `bare` the same in a module without a memory, and `many` of a
//!   function with 2^32 - 2 locals;
//! - `i32 BODIES`, `i64 BODIES`: what is left by the last body, which leaves a value of this type, or why there is none; those before it,
//!   each ended by `;`, are the functions that can be called, from 1 on, each from two i64 to one;
//! - `memory AT OCTETS RESULT BODIES`: the same over a page with these eight octets at this address, and what they are afterwards;
//! - `steps AT ARGUMENT BODIES`: each answer of a run that isn't `Ran`, with the number of steps that it took and how the run has ended then, up to
//!   the second one after its end; and the pages of the memory and eight of its octets afterwards;
//! - `asks MOST AT ARGUMENT BODIES`: the same of a module that imports `pages` as function 0 and `raise` as function 1, at most so many
//!   steps at a time; the host gives the memory's next page, of which there is one.
#![tactic(auto)]

mod answers;
mod frames;
mod refusal;
mod runs;
mod words;

use answers::answer;
use qw_cases::{Row, Tally, row_of};
use std::alloc::{AllocError, Global};
use std::io;
use std::process::ExitCode;

/// What a row comes to, as text.
fn found(alloc: Global, row: Row<'_>) -> Result<String, AllocError> {
    match answer(alloc, row.kind, row.input) {
        Ok(text) => Ok(text),
        Err(refusal) => format!(in alloc; "{refusal}"),
    }
}

fn main(rt: HostRuntime) -> io::Result<ExitCode> {
    let text = io::read_to_string(rt.alloc(), rt.reader())?;
    let mut tally = Tally::new();
    for line in text.lines() {
        if let Some(row) = row_of(line) {
            let found = found(rt.alloc(), row)?;
            tally.note(&rt, row, &found)?;
        }
    }
    tally.end(&rt)
}
