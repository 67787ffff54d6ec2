//! Whether functions call only functions below them, so that none is ever called within itself.

ghost use Rattle.std.specs.Prelude.{◌↔◌, IsTrue, All, IfNone, IfSome};
ghost use Rattle.std.specs.Global.{Vec};
ghost use Rattle.qw_module.specs.declared.instruction.Instr.{Instr};
ghost use Rattle.qw_module.specs.Validity.{CallsBelow, IsDescending};
ghost use Rattle.qw_machine.specs.Descending.{IsFirstAscending};

use qw_module::instruction::Instr;
use qw_module::module::Module;
use qw_valid::imports::imported_functions;

fn calls_below(func: usize, instr: Instr) -> bool
    ensures { IsTrue result ↔ CallsBelow func instr }
{
    match instr {
        Instr::Call(index) => (index as usize) < func,
        _ => true,
    }
}

fn all_call_below(func: usize, sequence: &[Instr]) -> bool
    ensures { IsTrue result ↔ All (CallsBelow func) sequence.now }
{
    sequence.iter().all(|instr| calls_below(func, *instr))
}

fn body_calls_below(func: usize, sequences: &[Vec<Instr>]) -> bool
    ensures { IsTrue result ↔ All (λ (sequence : Vec Instr). All (CallsBelow func) sequence.items) sequences.now }
{
    sequences
        .iter()
        .all(|sequence| all_call_below(func, sequence))
}

/// The index of the first function of the module's own that calls itself or one above it.
pub(crate) fn first_ascending(module: &Module) -> Option<usize>
    ensures none { IfNone result (IsDescending «module».now) }
    ensures first { IfSome result (λ func. IsFirstAscending «module».now func) }
{
    let imported = imported_functions(&module.imports);
    for (number, function) in module.functions.iter().enumerate() {
        let func = imported + number;
        if !body_calls_below(func, &function.body.sequences) {
            return Some(func);
        }
    }
    None
}
