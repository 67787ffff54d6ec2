// Turns at their quantum.

use crate::tables::{bench_over, end_of};
use qw_bench::bench::{Bench, Ended, Limits};
use qw_schema::parse::schema_of;
use std::alloc::Global;
use std::test::Fail;

// How many instructions a run over (4), (1), (7) takes, as docs/THEOREMS.md counts them by hand.
const STEPS: u64 = 108;

// A bench over (4), (1), (7) whose instance may run so many instructions, before its first turn.
fn limited(alloc: Global, steps: u64) -> Result<Bench, Fail> {
    let schema = schema_of(alloc, b"CREATE TABLE T (A INTEGER NOT NULL)")?;
    let script = b"SELECT A FROM T WHERE A > 5";
    let limits = Limits { pages: 1, steps };
    Ok(bench_over(alloc, &schema, b"A\n4\n1\n7\n", script, &[limits])??)
}

// The quanta of one turn after another, how many instructions each ran, and after it the end and the count of all.
const TURNS: [(u64, u64, Option<Ended>, u64); 3] = [
    (107, 107, None, 107),
    (10_000, 1, Some(Ended::Done), 108),
    (10_000, 0, Some(Ended::Done), 108),
];

// How many instructions a turn of the one instance ran.
fn turned(bench: &mut Bench, quantum: u64) -> u64 {
    if bench.len() == 0 || quantum == 0 {
        return 0;
    }
    bench.turn(0, quantum)
}

#[test]
fn a_turn_ends_at_its_quantum(rt: HostRuntime) -> Result<(), Fail> {
    let mut bench = limited(rt.alloc(), STEPS)?;
    for &(quantum, ran, end, all) in &TURNS {
        let turned = turned(&mut bench, quantum);
        assert_eq!(rt; (turned, end_of(&bench)), (ran, (end, all)));
    }
    Ok(())
}
