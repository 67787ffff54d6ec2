//! Reads cases from standard input, does what each says, and writes a line on each: that it came out as wanted, or what is another.
//! The program ends with 0 where all came out so, and else with 1, with those that did not on standard error too.
//!
//! A case is what a whole call of [`qw_top::qwasm`] has to come to over texts in memory. Each line but a comment (`#`) has a key and
//! what belongs to it; what is set stays so until it is set again. In texts `\n`, `\r` and `\xFF` are octets.
//!
//! | line | meaning |
//! |---|---|
//! | `text NAME TEXT` | the text of a name: a file of the call, or what it has to write (`out`) and to note (`notes`) |
//! | `more NAME FROM TO TEXT` | adds a text once for each number from one to another, with the number in place of `@` |
//! | `drop NAME` | there is no such file; where there is no `out` or no `notes`, any is wanted, but not none |
//! | `words WORD..` | the words of the call, between single blanks |
//! | `greatest SHELF OUT NOTES` | the most octets that a call of the shelf gives, and that one of each sink takes |
//! | `failing SHELF OUT NOTES` | which call of each fails, from 0 on, or `-` |
//! | `kept COUNT` | how many instances the bench has that is kept, or `none` |
//! | `case STATUS NAME` | a case: the call ends so, with that report, those notes and that bench |
//! | `held NUMBER PAGES`, `size PAGES`, `octets ADDRESS OCTETS` | of the last call: the pages that an instance holds, those of the memory, and octets in it |
//! | `keep NAME` | the text of a name is what the last call wrote |
//! | `forms`, `form TEXT` | no forms; one form more |
//! | `same TEMPLATE` | of each form a query, with the words of the form, which stand between bars, in place of `@1`, `@2` and on: the program leaves of it what the slow program answers |
//! | `rule NAME TEXT`, `rules` | the alternatives that a name stands for, between bars, or more of them; no rules |
//! | `draw LINE`, `draws` | one more of the lines that are drawn, each of which sets something; no such lines |
//! | `random SEED COUNT` | so many times: each of these lines is set, with what is drawn in place of its symbols, and the call is made; the program leaves of each query what the slow program answers, its rows in any order |
//! | `seen COUNT` | so many queries were compared since the last such line, and some raise an exception and some don't |
//! | `least COUNT END WORDS` | of the queries that were compared since then, so many have all these words, which stand between bars, and came to this end: `rows`, `none` or `raised` |
//! | `wrong ..` | one of these that is wrong on purpose, and has to be found so |
//!
//! For `same` and `random` the schema is the text `s`, the tables' files stand in the folder `d`, and the script is `q`. A symbol stands between
//! braces: `{NAME}` and `{NAME:WORD}` for one of the alternatives of a rule, with the word in place of each `@` in it; `{KEPT=NAME}` and
//! `{KEPT=NAME:WORD}` for nothing, but what is drawn for the rule is kept; and `{=KEPT}` for what was kept so last. What a seed draws is the same
//! in every run. Of a script that comes out otherwise the verdict has the lines that were drawn, as they can be set again.
#![tactic(auto)]

mod called;
mod cases;
mod compare;
mod compared;
mod draws;
mod fault;
mod left;
mod named;
mod plain;
mod random;
mod same;
mod setting;
mod text;

use cases::{Cases, Verdict};
use fault::CaseFault;
use std::io;
use std::process::ExitCode;

// Writes what there is to say of a line, and answers whether it came out as it has to.
fn say(rt: &HostRuntime, line: &str, said: Result<Option<Verdict>, CaseFault>) -> io::Result<bool> {
    match said {
        Ok(None) => Ok(true),
        Ok(Some(verdict)) => {
            println!(rt; "{}", verdict.text)?;
            if !verdict.is_good {
                eprintln!(rt; "{}", verdict.text)?;
            }
            Ok(verdict.is_good)
        }
        Err(fault) => {
            println!(rt; "{line}: {fault}")?;
            eprintln!(rt; "{line}: {fault}")?;
            Ok(false)
        }
    }
}

// Does what the lines say one after another, and answers whether all came out as they have to.
fn run(rt: &HostRuntime, cases: &mut Cases) -> io::Result<bool> {
    let mut is_good = true;
    for line in rt.lines(rt.alloc()) {
        is_good &= step(rt, cases, line)?;
    }
    Ok(is_good)
}

fn step(rt: &HostRuntime, cases: &mut Cases, line: io::Result<String>) -> io::Result<bool> {
    let line = line?;
    let said = cases.line(rt.alloc(), line.as_str());
    say(rt, line.as_str(), said)
}

fn main(rt: HostRuntime) -> io::Result<ExitCode> {
    let mut cases = Cases::new(rt.alloc());
    let is_good = run(&rt, &mut cases)?;
    Ok(ExitCode::from(u8::from(!is_good)))
}
