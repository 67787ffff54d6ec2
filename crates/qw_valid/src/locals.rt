//! The types of a function's locals after its parameters, found by a search among the ends of their runs.

ghost use Rattle.std.specs.Prelude.{◌≡◌, ◌-◌, ◌<◌, ◌^◌, IfSome, option_map, slice_get};
ghost use Rattle.qw_module.specs.declared.module.Locals.{Locals};
ghost use Rattle.qw_module.specs.Validity.{declared_types};
ghost use Rattle.qw_valid.specs.Inner.Runs.{AreEnds};

use qw_module::instruction::ValType;
use qw_module::module::Locals;
use std::alloc::Global;
use std::marker::Model;

/// The types of locals, which stand in runs. The type of one is found in as many steps as the number of runs has binary digits, since
/// code may ask for late ones of many again and again.
#[derive(Drop)]
pub struct LocalTypes<'a> {
    runs: &'a [Locals],
    /// How many locals there are up to the end of each run.
    ends: Vec<usize>,
}

impl<'a> Model for LocalTypes<'a> {
    ghost use Rattle.std.specs.Prelude.{List};
    ghost use Rattle.qw_module.specs.declared.instruction.ValType.{ValType};

    ghost Value = { List ValType };

    ghost use Rattle.qw_module.specs.Validity.{declared_types};
    ghost use Rattle.qw_valid.specs.Inner.Runs.{AreEnds};

    ghost view = { λ t. declared_types t.runs.now };

    ghost invariant = { λ t. AreEnds t.runs.now t.ends.items };
}

impl<'a> LocalTypes<'a> {
    /// The types of the locals of these runs. `None` is want of memory.
    pub fn new(alloc: Global, runs: &'a [Locals]) -> Option<Self>
        ensures { IfSome result (λ types. types ≡ declared_types runs.now) }
    {
        let ends = ends_of(alloc, runs)?;
        Some(LocalTypes { runs, ends })
    }

    /// The type of the local of an index.
    pub fn get(&self, index: usize) -> Option<ValType>
        requires { index < 2 ^ 64 - 1 }
        ensures { result ≡ slice_get self.now index }
    {
        let run = run_of(self.runs, &self.ends, index)?;
        Some(run.ty)
    }
}

/// The run that the local of an index stands in: the first one up to whose end there are more locals than the index.
fn run_of(runs: &[Locals], ends: &[usize], index: usize) -> Option<Locals>
    requires ends { AreEnds runs.now ends.now }
    requires index { index < 2 ^ 64 - 1 }
    ensures { option_map (λ (run : Locals). run.ty) result ≡ slice_get (declared_types runs.now) index }
{
    let number = ends.partition_point(|end| *end <= index);
    runs.get(number).copied()
}

/// How many locals there are up to the end of each run, where the greatest number stands for all above it too.
fn ends_of(alloc: Global, runs: &[Locals]) -> Option<Vec<usize>>
    ensures { IfSome result (λ ends. AreEnds runs.now ends.items) }
{
    let mut ends = Vec::with_capacity(alloc, runs.len()).ok()?;
    let mut end = 0usize;
    for run in runs {
        end = end.saturating_add(run.count as usize);
        ends.push(end).ok()?;
    }
    Some(ends)
}
