//! A `local.set` and a `local.get` of the same local directly behind it are one `local.tee` (WebAssembly Core Specification 1.0, 4.4.3).

ghost use Rattle.std.specs.Prelude.{◌≡◌, OnOk};
ghost use Rattle.qw_low.specs.Inner.Tees.{pushed, tee_of};

use qw_module::instruction::{Instr, Op};
use qw_types::NoMemory;

/// The `local.tee` that two instructions make, one directly behind the other.
fn tee_of(first: Instr, second: Instr) -> Option<Instr>
    ensures { result ≡ tee_of first second }
{
    match (first, second) {
        (Instr::Op(Op::LocalSet(set)), Instr::Op(Op::LocalGet(got))) if set == got => {
            Some(Instr::Op(Op::LocalTee(set)))
        }
        _ => None,
    }
}

/// Adds an instruction to a sequence. Where it makes a `local.tee` with the last one, that takes the place of both.
pub(crate) fn push(sequence: &mut Vec<Instr>, instruction: Instr) -> Result<(), NoMemory>
    ensures { OnOk result (sequence.new.items ≡ pushed sequence.old.items instruction) }
{
    if let Some(last) = sequence.last_mut() {
        if let Some(tee) = tee_of(*last, instruction) {
            *last = tee;
            return Ok(());
        }
    }
    sequence.push(instruction)?;
    Ok(())
}
