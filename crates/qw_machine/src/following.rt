//! Operators that follow one another in a sequence (WebAssembly Core Specification 1.0, 4.4). What they work on is borrowed once for
//! all of them.

ghost use Rattle.std.specs.Prelude.{◌≡◌, ◌+◌, ◌-◌, ◌*◌, ◌<◌, ◌≤◌, length};
ghost use Rattle.qw_linear.specs.Memory.{page};
ghost use Rattle.qw_machine.specs.Inner.Points.{Point, with_held};
ghost use Rattle.qw_machine.specs.Inner.Activities.{IsFollowed, IsRun};

use crate::operators::{Operated, operate};
use crate::room::Rooms;
use crate::stack::Stack;
use crate::stepped::{Run, Stepped, operated};
use qw_linear::linear::Linear;
use qw_module::instruction::Instr;
use qw_module::module::Module;

/// Steps one after another in a sequence, from its index `first` on and before its index `end`, as long as they are operators.
/// The operands are those of all frames, the locals those of the function that runs.
#[inline(always)]
pub(crate) fn following(
    sequence: &[Instr],
    first: usize,
    end: usize,
    operands: &mut Stack<u64>,
    globals: &mut [u64],
    locals: &mut [u64],
    memory: &mut Linear,
    spare: u32,
) -> Run
    requires end { end < length sequence.now }
    requires point { (m : Module) × (rooms : Rooms) × (p : Point) × IsFollowed m rooms sequence.now p first operands.old.room operands.old.values globals.old locals.old }
    requires pages { length memory.old.octets + spare * page ≤ memory.old.reserved * page }
    ensures run { (m : Module) (rooms : Rooms) (p : Point) → IsFollowed m rooms sequence.now p first operands.old.room operands.old.values globals.old locals.old
        → IsRun m rooms spare (end - first) (with_held p first operands.old.values globals.old locals.old) memory.old.octets result
        (with_held p (first + result.steps) operands.new.values globals.new locals.new) memory.new.octets }
    ensures few { result.steps ≤ end - first }
    ensures inside { first + result.steps ≤ length sequence.now }
    ensures room { operands.new.room ≡ operands.old.room }
    ensures reserved { memory.new.reserved ≡ memory.old.reserved }
{
    let mut index = first;
    while index < end {
        let Instr::Op(op) = &sequence[index] else {
            break;
        };
        let done = operate(op, operands, globals, locals, memory, spare);
        index += 1;
        if !matches!(done, Operated::Ran) {
            return Run {
                steps: (index - first) as u64,
                last: operated(done),
            };
        }
    }
    Run::going((index - first) as u64)
}
