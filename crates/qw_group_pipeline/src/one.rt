//! All rows as one group, as without GROUP BY (ISO/IEC 9075:1992, 7.8 and 7.9): the values of its set functions come into locals, and its row of the grouped
//! table goes on to HAVING and the select list.

ghost use Rattle.std.specs.Prelude.{◌≡◌, ◌≤◌, ◌+◌, ◌*◌, ◌<◌, ◌++◌, [], IfOk, OnOk, Some, length, map};
ghost use Rattle.std.specs.List.{AllByRecursion};
ghost use Rattle.qw_types.specs.Value.{IsSized};
ghost use Rattle.qw_expr.specs.Bindings.{IsServed, known_of};
ghost use Rattle.qw_expr.specs.Emits.{extent, free_of};
ghost use Rattle.qw_physical.specs.Coded.{operator_of, sink_of};
ghost use Rattle.qw_operator.specs.Carries.{result_kinds};
ghost use Rattle.qw_operator.specs.Span.{sink_span, span};
ghost use Rattle.qw_operator.specs.Takes.{CanCarry};
ghost use Rattle.qw_group_pipeline.specs.Groups.{EmitsOneTo, InSink, all_anywhere};

use crate::columns::ValueColumn;
use crate::value::read_values;
use qw_expr::emitter::Emitter;
use qw_expr::known::Binding;
use qw_low::cell::Local;
use qw_operator::end::{End, Ended};
use qw_operator::operators::emit_operators;
use qw_physical::{Operator, Sink};
use qw_types::{Kind, NoMemory};
use std::alloc::Global;

/// Adds the block of a pipeline that begins at the one group of all rows, to whose areas a local leads: the values of the set functions are read, and their
/// row of the grouped table goes through operators, as HAVING is one, to the sink, where the literals of their expressions are known. It tells the kinds of
/// the cells that the sink's rows have in the result.
///
/// # Errors
///
/// [`NoMemory`] where memory does not suffice, or there are too many locals.
pub fn emit_one_group(
    alloc: Global,
    emitter: &mut Emitter,
    areas: Local,
    values: &[ValueColumn],
    operators: &[Operator],
    sink: &Sink,
    literals: Vec<Binding>,
) -> Result<Vec<Kind>, NoMemory>
    requires areas { areas < free_of emitter.old }
    requires few { length values.now ≤ 1000 }
    requires sized { AllByRecursion (λ c. IsSized c.ty) values.now }
    requires takes { CanCarry (all_anywhere [] values.now ++ known_of literals.items) (map operator_of operators.now) (sink_of sink.now) }
    requires served { IsServed (free_of emitter.old) (known_of literals.items) }
    ensures emits { OnOk result (EmitsOneTo (InSink (map operator_of operators.now) (sink_of sink.now)) (known_of literals.items) areas values.now emitter.old emitter.new) }
    ensures kinds { IfOk result (λ kinds. map Some kinds.items ≡ result_kinds (sink_of sink.now)) }
    ensures short { OnOk result (extent emitter.new ≤ extent emitter.old + (328 * length values.now + span operators.now (sink_span sink.now))) }
{
    let mut rest = literals;
    let mut known = read_values(alloc, emitter, areas, 0, values)?;
    known.append(&mut rest)?;
    let end = End::Sink(sink);
    let Ended { kinds, .. } = emit_operators(alloc, emitter, operators, end, known)?;
    Ok(kinds)
}
