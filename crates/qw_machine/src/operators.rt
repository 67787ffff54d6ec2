//! What the machine does at an instruction that holds no other, but for accesses to memory. Values are numbers without a type.

ghost use Rattle.std.specs.Prelude.{◌≡◌, ℕ, List, ◌+◌, ◌*◌, ◌<◌, ◌≤◌, length, Some, slice_get, slice_set};
ghost use Rattle.qw_linear.specs.Memory.{page};
ghost use Rattle.qw_module.specs.Step.{op_wants};
ghost use Rattle.qw_machine.specs.Inner.Operated.{CanOperate, IsDone};

use crate::accesses::{grow, load, store};
use crate::numbers::{apply, compare, convert, count, divide, value_of};
use crate::stack::Stack;
use qw_linear::linear::Linear;
use qw_module::instruction::Op;
use qw_module::trap::Trap;

/// What an operator came to.
#[derive(Clone, Copy, PartialEq, Eq)]
pub(crate) enum Operated {
    Ran,
    /// A request was granted: the memory's size before, and how much it grew, in pages.
    Grew { at: u32, pages: u32 },
    /// A request for so many pages was refused.
    Refused { pages: u32 },
    Trapped(Trap),
}

/// Does an operator whose operands are there. A request is granted where it is for at most `spare` pages.
// Its code stands in each place that executes operators, and each arm reads its own immediates alone. The kind of an access is
// read where it stands: a copy would take a place in memory that each operator clears.
#[inline(always)]
pub(crate) fn operate(
    op: &Op,
    operands: &mut Stack<u64>,
    globals: &mut [u64],
    locals: &mut [u64],
    memory: &mut Linear,
    spare: u32,
) -> Operated
    requires ready { CanOperate op.now globals.old operands.old.values locals.old }
    requires room { length operands.old.values < operands.old.room }
    requires pages { length memory.old.octets + spare * page ≤ memory.old.reserved * page }
    ensures done { IsDone (op_wants op.now globals.old operands.old.values locals.old)
        (record { operands = operands.old.values; globals = globals.old; locals = locals.old; memory = memory.old.octets }) spare result
        (record { operands = operands.new.values; globals = globals.new; locals = locals.new; memory = memory.new.octets }) }
    ensures room { operands.new.room ≡ operands.old.room }
    ensures reserved { memory.new.reserved ≡ memory.old.reserved }
{
    match *op {
        Op::Nop => {}
        Op::Drop => {
            let _ = operands.pop();
        }
        Op::Select => select(operands),
        Op::LocalGet(x) => operands.push(locals[x as usize]),
        Op::LocalSet(x) => locals[x as usize] = operands.pop(),
        Op::LocalTee(x) => locals[x as usize] = operands.top(),
        Op::GlobalGet(x) => operands.push(global_value(globals, x)),
        Op::GlobalSet(x) => set_global(globals, x, operands.pop()),
        Op::Const(number) => operands.push(value_of(number)),
        Op::Unary(ty, operator) => {
            let x = operands.pop();
            operands.push(count(ty, operator, x));
        }
        Op::Binary(ty, operator) => {
            let y = operands.pop();
            let x = operands.pop();
            operands.push(apply(ty, operator, x, y));
        }
        Op::Division(ty, operator) => {
            let y = operands.pop();
            let x = operands.pop();
            match divide(ty, operator, x, y) {
                Ok(value) => operands.push(value),
                Err(why) => return Operated::Trapped(why),
            }
        }
        Op::Eqz(_) => {
            let x = operands.pop();
            operands.push(u64::from(x == 0));
        }
        Op::Relation(ty, comparison) => {
            let y = operands.pop();
            let x = operands.pop();
            operands.push(compare(ty, comparison, x, y));
        }
        Op::Convert(conversion) => {
            let x = operands.pop();
            operands.push(convert(conversion, x));
        }
        Op::Load(ref kind, arg) => {
            if !load(kind, arg, operands, memory) {
                return Operated::Trapped(Trap::OutOfBounds);
            }
        }
        Op::Store(ref kind, arg) => {
            if !store(kind, arg, operands, memory) {
                return Operated::Trapped(Trap::OutOfBounds);
            }
        }
        Op::MemorySize => operands.push(u64::from(memory.size())),
        Op::MemoryGrow => return grow(operands, memory, spare),
    }
    Operated::Ran
}

/// Of two operands, the first where the one above them isn't 0, else the second (4.4.2, `select`).
// A call that borrows the operands would keep their number out of a register, here and in accesses.rt.
#[inline(always)]
fn select(operands: &mut Stack<u64>)
    requires ready { 2 < length operands.old.values }
    requires room { length operands.old.values < operands.old.room }
    ensures selected { (globals locals memory : List ℕ) (spare : ℕ) →
        IsDone (op_wants Op.Select globals operands.old.values locals) (record { operands = operands.old.values; globals = globals; locals = locals; memory = memory }) spare Operated.Ran
        (record { operands = operands.new.values; globals = globals; locals = locals; memory = memory }) }
    ensures room { operands.new.room ≡ operands.old.room }
{
    let condition = operands.pop();
    let second = operands.pop();
    let first = operands.pop();
    operands.push(if condition == 0 { second } else { first });
}

/// The value of a global (4.4.3, `global.get`).
// A call, and so is its counterpart: in the dispatch, an access to a local would end in a jump to the code that they share.
#[inline(never)]
fn global_value(globals: &[u64], x: u32) -> u64
    requires { x < length globals.now }
    ensures { slice_get globals.now x ≡ Some result }
{
    globals[x as usize]
}

/// Gives a global a value (4.4.3, `global.set`).
#[inline(never)]
fn set_global(globals: &mut [u64], x: u32, value: u64)
    requires { x < length globals.old }
    ensures { globals.new ≡ slice_set globals.old x value }
{
    globals[x as usize] = value;
}
