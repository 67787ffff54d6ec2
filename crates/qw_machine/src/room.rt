//! How much room the calls of a module's functions need, where each calls only functions below it.

ghost use Rattle.std.specs.Prelude.{◌≡◌, ◌<◌, length, IfSome, Some};
ghost use Rattle.qw_module.specs.Validity.{declared_types, IsValid};
ghost use Rattle.qw_valid.specs.ModuleHeights.{HaveHeights};
ghost use Rattle.qw_machine.specs.Inner.Rooms.{locals_in, needed};

use qw_module::module::{Function, Locals, Module};
use qw_valid::heights::Heights;

/// How many operands, labels and frames, and locals there is room for.
#[derive(Clone, Copy, PartialEq, Eq)]
pub(crate) struct Rooms {
    pub(crate) operands: usize,
    pub(crate) awaiting: usize,
    pub(crate) locals: usize,
}

/// How many locals the runs declare, or `None` where no machine word counts them.
fn declared(runs: &[Locals]) -> Option<usize>
    ensures { IfSome result (λ count. count ≡ length (declared_types runs.now)) }
{
    let mut count = 0usize;
    for run in runs {
        count = count.checked_add(run.count as usize)?;
    }
    Some(count)
}

/// How many locals a function has, its parameters among them.
fn locals(module: &Module, function: &Function) -> Option<usize>
    requires { function.now.type_index < length «module».now.types.items }
    ensures { IfSome result (λ count. count ≡ locals_in «module».now (Some function.now)) }
{
    let params = module.types[function.type_index as usize].params.len();
    declared(&function.locals)?.checked_add(params)
}

/// What all functions of a module need by what is known of each, or `None` where no machine word counts it.
pub(crate) fn needed_rooms(module: &Module, heights: &[Heights]) -> Option<Rooms>
    requires valid { IsValid «module».now }
    requires heights { HaveHeights «module».now heights.now }
    ensures { IfSome result (λ rooms. rooms ≡ needed «module».now heights.now) }
{
    // One operand more, since each operator has room for its result before it takes any.
    let mut rooms = Rooms {
        operands: 1,
        awaiting: 0,
        locals: 0,
    };
    for (number, function) in module.functions.iter().enumerate() {
        let most = heights[number];
        rooms = Rooms {
            operands: rooms.operands.checked_add(most.operands)?,
            awaiting: rooms.awaiting.checked_add(most.labels)?.checked_add(2)?,
            locals: rooms.locals.checked_add(locals(module, function)?)?,
        };
    }
    Some(rooms)
}
