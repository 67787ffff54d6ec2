//! The leaves of pipelines' trees, from left to right: the columns and the literals that they take.

ghost use Rattle.std.specs.Prelude.{[], IfOk, OnOk};
ghost use Rattle.std.specs.List.{flat_map};
ghost use Rattle.qw_leaves.specs.Leaves.{Gathers};
ghost use Rattle.qw_compile.specs.QueryLiterals as gathered;

use qw_leaves::gather::{from_conjuncts, from_items};
use qw_leaves::leaf::Leaf;
use qw_physical::{Operator, Pipeline, Sink};
use qw_types::NoMemory;
use std::alloc::Global;

/// Adds the leaves of an operator.
fn from_operator(alloc: Global, leaves: &mut Vec<Leaf>, operator: &Operator) -> Result<(), NoMemory>
    ensures { OnOk result (Gathers leaves.old.items leaves.new.items (gathered.operator_leaves operator.now)) }
{
    match operator {
        Operator::Filter(conjuncts) => from_conjuncts(alloc, leaves, conjuncts),
        Operator::Probe(probe) => {
            from_items(alloc, leaves, &probe.key)?;
            from_conjuncts(alloc, leaves, &probe.on)
        }
    }
}

/// Adds the leaves of operators.
fn from_operators(
    alloc: Global,
    leaves: &mut Vec<Leaf>,
    operators: &[Operator],
) -> Result<(), NoMemory>
    ensures { OnOk result (Gathers leaves.old.items leaves.new.items (flat_map gathered.operator_leaves operators.now)) }
{
    for operator in operators {
        from_operator(alloc, leaves, operator)?;
    }
    Ok(())
}

/// Adds the leaves of a sink.
fn from_sink(alloc: Global, leaves: &mut Vec<Leaf>, sink: &Sink) -> Result<(), NoMemory>
    ensures { OnOk result (Gathers leaves.old.items leaves.new.items (gathered.sink_leaves sink.now)) }
{
    match sink {
        Sink::Build(build) => from_items(alloc, leaves, &build.key),
        Sink::Select(items) => from_items(alloc, leaves, items),
    }
}

/// Adds those of a pipeline.
fn from_pipeline(alloc: Global, leaves: &mut Vec<Leaf>, pipeline: &Pipeline) -> Result<(), NoMemory>
    ensures { OnOk result (Gathers leaves.old.items leaves.new.items (gathered.pipeline_leaves pipeline.now)) }
{
    from_operators(alloc, leaves, &pipeline.operators)?;
    from_sink(alloc, leaves, &pipeline.sink)
}

/// The leaves of pipelines, in the order in which they stand there.
///
/// # Errors
///
/// [`NoMemory`] where memory does not suffice.
pub fn query_leaves(alloc: Global, pipelines: &[Pipeline]) -> Result<Vec<Leaf>, NoMemory>
    ensures { IfOk result (λ leaves. Gathers [] leaves.items (flat_map gathered.pipeline_leaves pipelines.now)) }
{
    let mut leaves = Vec::new(alloc);
    for pipeline in pipelines {
        from_pipeline(alloc, &mut leaves, pipeline)?;
    }
    Ok(leaves)
}
