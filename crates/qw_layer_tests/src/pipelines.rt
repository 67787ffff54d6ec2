//! The pipelines of a plan that joins two joins, in the order in which they run. They were found by hand.

use crate::assertions::assert_text;
use qw_algebra::plan::{Plan, Side};
use qw_pipe::pipeline::{Pipeline, Step, Target};
use qw_pipe::split::split;
use qw_types::NoMemory;
use std::alloc::Global;
use std::test::Fail;

/// The rows of an entry, whose table has the entry's number.
fn scan(entry: usize) -> Plan {
    Plan::Scan {
        entry,
        table: entry,
    }
}

fn join(alloc: Global, left: Plan, right: Plan) -> Result<Plan, NoMemory> {
    Ok(Plan::Join {
        outer: false,
        left: Box::new(alloc, left)?,
        right: Box::new(alloc, right)?,
        on: Vec::new(alloc),
        keys: Vec::new(alloc),
        build: Side::Right,
    })
}

/// Entries 0 and 1 joined, with entries 2 and 3 joined, then WHERE and the select list.
fn join_of_joins(alloc: Global) -> Result<Plan, NoMemory> {
    let left = join(alloc, scan(0), scan(1))?;
    let right = join(alloc, scan(2), scan(3))?;
    let kept = Plan::Filter {
        conjuncts: Vec::new(alloc),
        below: Box::new(alloc, join(alloc, left, right)?)?,
    };
    Ok(Plan::Project {
        below: Box::new(alloc, kept)?,
        items: Vec::new(alloc),
    })
}

fn shown(alloc: Global, pipelines: &[Pipeline<'_>]) -> Result<String, Fail> {
    let mut text = String::new(alloc);
    for pipeline in pipelines {
        text.push_str(&format!(in alloc; "scan {}", pipeline.entry)?)?;
        add_steps(alloc, &pipeline.steps, &mut text)?;
        text.push_str(match pipeline.target {
            Target::Table(_) => ", table; ",
            Target::Result => ", result",
        })?;
    }
    Ok(text)
}

fn add_steps(alloc: Global, steps: &[Step<'_>], text: &mut String) -> Result<(), Fail> {
    for step in steps {
        match step {
            Step::Test(_) => text.push_str(", test")?,
            Step::Probe(table, _) => {
                text.push_str(&format!(in alloc; ", probe {}", table)?)?;
            }
            Step::Make(_) => text.push_str(", make")?,
        }
    }
    Ok(())
}

#[test]
fn built_sides_first(rt: HostRuntime) -> Result<(), Fail> {
    let alloc = rt.alloc();
    let plan = join_of_joins(alloc)?;
    let found = shown(alloc, &split(alloc, &plan)?)?;
    assert_text(
        &rt,
        &found,
        "scan 3, table; scan 2, probe 0, table; scan 1, table; scan 0, probe 2, probe 1, test, make, result",
    );
    Ok(())
}
