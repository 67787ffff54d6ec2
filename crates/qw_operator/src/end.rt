//! What is innermost in the block of a pipeline's row: a sink takes the row, or it is put into a group of rows.

ghost use Rattle.std.specs.Prelude.{◌≡◌, ◌≤◌, ◌+◌, [], IfOk, OnOk, Some, map};
ghost use Rattle.qw_expr.specs.Bindings.{IsServed, known_of};
ghost use Rattle.qw_expr.specs.Emits.{extent, free_of};
ghost use Rattle.qw_feed.specs.Cells.{kinds_of};
ghost use Rattle.qw_table.specs.Joins.{sources_of};
ghost use Rattle.qw_operator.specs.Carries.{EmitsTo};
ghost use Rattle.qw_operator.specs.Ends.{CanEnd, IsEnded, cell_kinds, end_of, end_span, value_kinds, values_sink};
ghost use Rattle.qw_operator.specs.Takes.{CanCarry};

use crate::group::{Group, Place};
use crate::put::emit_put;
use crate::sink::emit_sink;
use qw_expr::emitter::Emitter;
use qw_expr::known::Binding;
use qw_low::cell::Local;
use qw_physical::Sink;
use qw_table::key::Field;
use qw_types::{Kind, NoMemory};
use std::alloc::Global;

/// What takes the rows of a pipeline.
#[derive(Clone, Copy)]
pub enum End<'a> {
    /// A table that later pipelines look up, or the result.
    Sink(&'a Sink),
    /// A group of rows. Where there is a local for a guard, a row is put into its group only while that isn't 0, and it is one less then.
    Group(&'a Group, Place, Option<Local>),
}

/// What is told of the rows that were taken.
#[derive(Drop)]
pub struct Ended {
    /// The kinds of the cells that they have in the result.
    pub kinds: Vec<Kind>,
    /// Where the values are that are put into a group: the key's fields, and behind them those of the arguments.
    pub fields: Vec<Field>,
}

/// Adds the block of what is innermost.
///
/// # Errors
///
/// [`NoMemory`] where memory does not suffice, or there are too many locals.
pub fn emit_end(
    alloc: Global,
    emitter: &mut Emitter,
    end: End<'_>,
    known: &[Binding],
) -> Result<Ended, NoMemory>
    requires takes { CanCarry (known_of known.now) [] (values_sink (end_of end)) }
    requires can { CanEnd (end_of end) (free_of emitter.old) }
    requires served { IsServed (free_of emitter.old) (known_of known.now) }
    ensures emits { IfOk result (λ ended. EmitsTo (IsEnded (end_of end.entry) ended.fields.items) (known_of known.now) [] emitter.old emitter.new) }
    ensures cells { IfOk result (λ ended. map Some ended.kinds.items ≡ cell_kinds (end_of end.entry)) }
    ensures values { IfOk result (λ ended. kinds_of (sources_of ended.fields.items) ≡ value_kinds (end_of end.entry)) }
    ensures short { OnOk result (extent emitter.new ≤ extent emitter.old + end_span end.entry) }
{
    match end {
        End::Sink(sink) => {
            let kinds = emit_sink(alloc, emitter, sink, known)?;
            let fields = Vec::new(alloc);
            Ok(Ended { kinds, fields })
        }
        End::Group(group, place, guard) => {
            let fields = emit_put(alloc, emitter, group, place, guard, known)?;
            let kinds = Vec::new(alloc);
            Ok(Ended { kinds, fields })
        }
    }
}
