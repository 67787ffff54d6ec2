// Queries that run to their ends one behind another over one memory, which gives the pages of those before to those behind: each comes to
// the rows, the end and the counts that it comes to alone, and the memory stays small.

use super::orders::{Came, came_to, is_same_end};
use crate::tables::{DEFAULT_LIMITS, bench_over};
use qw_bench::bench::{Bench, Ended, MAX_JOBS};
use qw_schema::parse::schema_of;
use qw_types::{Code, Schema};
use std::alloc::{AllocError, Global};
use std::process::Abort;
use std::test::Fail;

const SCHEMA: &[u8] = b"CREATE TABLE T (K INTEGER NOT NULL)";

const ROWS: u32 = 230;

// The last of 64 columns, and what follows it: 99 rows and an exception, all rows, and 100 rows. 63 rows fit a page.
const ENDINGS: [&[u8]; 3] = [
    b"1 / (100 - K) FROM T;",
    b"K FROM T;",
    b"K FROM T WHERE K <= 100;",
];

// How each of these ends, how many pages it holds then, and how many rows it has.
const ENDS: [(Option<Ended>, u32, usize); 3] = [
    (Some(Ended::Raised(Code::DivZero)), 2, 0),
    (Some(Ended::Done), 4, 230),
    (Some(Ended::Done), 2, 100),
];

fn statement(alloc: Global, ending: &[u8]) -> Result<Vec<u8>, AllocError> {
    let mut text = Vec::from_slice(alloc, b"SELECT ")?;
    for _ in 0..63 {
        text.extend_from_slice(b"K, ")?;
    }
    text.extend_from_slice(ending)?;
    Ok(text)
}

// So many statements, with the endings in turn.
fn script(alloc: Global, count: usize) -> Result<Vec<u8>, AllocError> {
    let mut script = Vec::new(alloc);
    for k in 0..count {
        script.extend_from_slice(statement(alloc, ENDINGS[k % 3])?.as_slice())?;
    }
    Ok(script)
}

// The file of the numbers from 1 on.
fn file(alloc: Global) -> Result<String, AllocError> {
    let mut text = String::from_str(alloc, "K\n")?;
    for row in 1..=ROWS {
        text.push_str(format!(in alloc; "{row}\n")?.as_str())?;
    }
    Ok(text)
}

// What each statement comes to alone.
fn alone(alloc: Global, schema: &Schema, file: &[u8]) -> Result<Vec<Came>, Fail> {
    let mut all = Vec::new(alloc);
    for &ending in &ENDINGS {
        let text = statement(alloc, ending)?;
        let mut bench = bench_over(alloc, schema, file, text.as_slice(), &[DEFAULT_LIMITS])??;
        bench.run_all(u64::MAX);
        all.push(came_to(alloc, &bench, 0)?)?;
    }
    Ok(all)
}

fn assert_ends(rt: &impl Abort, alone: &[Came]) {
    for (came, end) in alone.iter().zip(&ENDS) {
        assert_eq!(rt; (came.ended, came.pages, came.rows.len()), *end);
    }
}

// Runs an instance to its end.
fn end(bench: &mut Bench, k: usize) {
    if k < bench.len() {
        bench.turn(k, u64::MAX);
    }
}

// Releases an instance that is done, and answers whether it is released then.
fn release(bench: &mut Bench, k: usize) -> bool {
    if bench.len() <= k || bench.released(k) {
        return false;
    }
    match bench.ended(k) {
        Some(Ended::Done) => {
            bench.release(k);
            bench.released(k)
        }
        _ => false,
    }
}

// Runs an instance to its end and releases it, where it is done. Answers whether it came to the same as its statement alone, whether it
// was released, and how many pages the memory has then.
fn passed(
    alloc: Global,
    bench: &mut Bench,
    k: usize,
    alone: &[Came],
) -> Result<(bool, bool, u32), Fail> {
    end(bench, k);
    let came = came_to(alloc, bench, k)?;
    let Some(expected) = alone.get(k % 3) else {
        return Err("no statement".into());
    };
    let is_same = is_same_end(&came, expected);
    let released = release(bench, k);
    Ok((is_same, released, bench.memory().size()))
}

// One page of columns and three first pages. The first query is given a page behind them, and the second one these two of the first,
// which has failed, and one more; the third one is given one of the second's, which was released.
const SIZES: [(bool, bool, u32); 3] = [(true, false, 5), (true, true, 6), (true, true, 6)];

#[test]
fn pages_given_back_are_given_again(rt: HostRuntime) -> Result<(), Fail> {
    let alloc = rt.alloc();
    let schema = schema_of(alloc, SCHEMA)?;
    let file = file(alloc)?;
    let alone = alone(alloc, &schema, file.as_bytes())?;
    assert_ends(&rt, alone.as_slice());
    let script = script(alloc, 3)?;
    let limits = [DEFAULT_LIMITS; 3];
    let mut bench = bench_over(alloc, &schema, file.as_bytes(), script.as_slice(), &limits)??;
    assert_eq!(rt; bench.memory().size(), 4);
    for (k, size) in SIZES.iter().enumerate() {
        let passed = passed(alloc, &mut bench, k, alone.as_slice())?;
        assert_eq!(rt; passed, *size);
    }
    Ok(())
}

// A host of many tenants: the memory never has more pages than those of the columns, the first ones, and what the largest query asks for.
#[test]
fn tenants_share_a_small_memory(rt: HostRuntime) -> Result<(), Fail> {
    let alloc = rt.alloc();
    let schema = schema_of(alloc, SCHEMA)?;
    let file = file(alloc)?;
    let alone = alone(alloc, &schema, file.as_bytes())?;
    let script = script(alloc, MAX_JOBS)?;
    let limits = [DEFAULT_LIMITS; MAX_JOBS];
    let mut bench = bench_over(alloc, &schema, file.as_bytes(), script.as_slice(), &limits)??;
    assert_eq!(rt; (bench.len(), bench.memory().size()), (MAX_JOBS, 65));
    for k in 0..MAX_JOBS {
        let (is_same, released, size) = passed(alloc, &mut bench, k, alone.as_slice())?;
        assert_eq!(rt;
            (k, is_same, released, size <= 68),
            (k, true, k % 3 != 0, true)
        );
    }
    Ok(())
}
