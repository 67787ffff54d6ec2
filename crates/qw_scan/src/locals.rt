//! The types of a function's locals after its parameters, found by a search among the ends of their runs (WebAssembly Core Specification 1.0,
//! 5.5.13).

ghost use Rattle.std.specs.Prelude.{◌≡◌, ℕ, List, [], IfSome, Ok, slice_get};
ghost use Rattle.std.specs.Option.{option_map};
ghost use Rattle.qw_octet_grammar.specs.Reading.{read};
ghost use Rattle.qw_octet_grammar.specs.Vectors.{counted, one_more};
ghost use Rattle.qw_module.specs.declared.module.Locals.{Locals as LocalsOf};
ghost use Rattle.qw_module.specs.Validity.{declared_types};
ghost use Rattle.qw_binary.specs.Sections.{locals_run, locals};
ghost use Rattle.qw_scan.specs.Inner.Runs.{runs_in, last_end, Rise};

use qw_binary::read::types::val_type_at;
use qw_module::instruction::ValType;
use qw_octet_grammar::numbers::u32_at;
use std::alloc::Global;
use std::marker::Model;

/// A run of locals of one type, by how many locals there are up to its end.
#[derive(Clone, Copy)]
pub(crate) struct Run {
    pub(crate) end: u32,
    pub(crate) ty: ValType,
}

/// The types of the locals of a function after its parameters, in 8 octets of memory for each run.
#[derive(Drop)]
pub struct LocalRuns {
    runs: Vec<Run>,
}

impl Model for LocalRuns {
    ghost use Rattle.std.specs.Prelude.{List};
    ghost use Rattle.qw_module.specs.declared.instruction.ValType.{ValType};
    ghost use Rattle.qw_module.specs.Validity.{declared_types};
    ghost use Rattle.qw_scan.specs.Inner.Runs.{runs_in, Rise};

    ghost Value = { List ValType };

    ghost view = { λ t. declared_types (runs_in 0 t.runs.items) };

    ghost invariant = { λ t. Rise 0 t.runs.items };
}

impl LocalRuns {
    /// The type of the local of an index.
    pub fn get(&self, index: usize) -> Option<ValType>
        ensures { result ≡ slice_get self.now index }
    {
        let run = run_of(&self.runs, index)?;
        Some(run.ty)
    }
}

/// The run that the local of an index stands in: the first one up to whose end there are more locals than the index.
fn run_of(runs: &[Run], index: usize) -> Option<Run>
    requires { Rise 0 runs.now }
    ensures { option_map (λ (run : Run). run.ty) result ≡ slice_get (declared_types (runs_in 0 runs.now)) index }
{
    let number = runs.partition_point(|run| run.end as usize <= index);
    runs.get(number).copied()
}

/// So many runs, and what follows them. `None` is want of memory.
fn runs_at(alloc: Global, count: u32, octets: &[u8]) -> Option<(Vec<Run>, &[u8])>
    ensures rise { IfSome result (λ x. Rise 0 x.0.items) }
    ensures read { IfSome result (λ x. read (counted count (one_more locals_run) []) octets.now ≡ Ok (runs_in 0 x.0.items, x.1.now)) }
{
    let mut runs = Vec::with_capacity(alloc, count as usize).ok()?;
    let mut end = 0u32;
    let mut rest = octets;
    for _ in 0..count {
        let Ok((more, behind)) = u32_at(rest) else {
            return None;
        };
        let Ok((ty, after)) = val_type_at(behind) else {
            return None;
        };
        end = end.checked_add(more)?;
        runs.push(Run { end, ty }).ok()?;
        rest = after;
    }
    Some((runs, rest))
}

/// The locals that octets begin with, and what follows them. `None` is want of memory.
pub(crate) fn locals_at(alloc: Global, octets: &[u8]) -> Option<(LocalRuns, &[u8])>
    ensures { (found : List LocalsOf) (rest : List ℕ) → read locals octets.now ≡ Ok (found, rest) → IfSome result (λ x. (x.0 ≡ declared_types found) × (x.1.now ≡ rest)) }
{
    let Ok((count, behind)) = u32_at(octets) else {
        return None;
    };
    let (runs, rest) = runs_at(alloc, count, behind)?;
    Some((LocalRuns { runs }, rest))
}
