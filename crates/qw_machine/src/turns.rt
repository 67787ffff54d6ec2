//! Turns of a loop that begin its body anew (WebAssembly Core Specification 1.0, 4.4.5 and 4.4.6), made where the body runs.

ghost use Rattle.std.specs.Prelude.{◌≡◌, ◌<◌, ◌≤◌, true, false, length, IfSome, Some, slice_get};
ghost use Rattle.qw_module.specs.Validity.{sequences_of};
ghost use Rattle.qw_machine.specs.Inner.Activities.{IsTurn, Repeats};

use crate::activity::Awaiting;
use crate::stack::Stack;
use qw_module::instruction::Instr;
use qw_module::module::Body;

/// How many operands lie below those of the loop whose body is the sequence of this number, where its label is the innermost one
/// that awaits.
fn repeats(body: &Body, number: usize, awaiting: &Stack<Awaiting>) -> Option<usize>
    ensures { IfSome result (λ base. Repeats (sequences_of body.now) number awaiting.now.values base) }
{
    if awaiting.len() == 0 {
        return None;
    }
    let Awaiting::Label(entry) = awaiting.top() else {
        return None;
    };
    let Some(outer) = body.sequences.get(entry.sequence) else {
        return None;
    };
    let Some(&Instr::Loop { body: inner, .. }) = outer.get(entry.target) else {
        return None;
    };
    if entry.takes || inner != number || entry.after != entry.target + 1 {
        return None;
    }
    Some(entry.base)
}

/// Begins a loop's body anew where the instruction at an index of it is a `br_if` to the loop that is taken, and the two steps of that
/// may be made; answers whether it did. `again` keeps what [`repeats`] says of the loop once it was asked.
#[inline(always)]
pub(crate) fn turned(
    body: &Body,
    number: usize,
    awaiting: &Stack<Awaiting>,
    sequence: &[Instr],
    index: usize,
    most: u64,
    operands: &mut Stack<u64>,
    again: &mut Option<usize>,
) -> bool
    requires inside { index < length sequence.now }
    requires operand { slice_get sequence.now index ≡ Some (Instr.BrIf 0) → 0 < length operands.old.values }
    requires known { IfSome again.old (λ base. Repeats (sequences_of body.now) number awaiting.now.values base) }
    ensures few { result ≡ true → 2 ≤ most }
    ensures turned { result ≡ true → IsTurn (sequences_of body.now) number awaiting.now.values sequence.now index operands.old.values operands.new.values }
    ensures stays { result ≡ false → operands.new ≡ operands.old }
    ensures known { IfSome again.new (λ base. Repeats (sequences_of body.now) number awaiting.now.values base) }
    ensures room { operands.new.room ≡ operands.old.room }
{
    let Instr::BrIf(0) = sequence[index] else {
        return false;
    };
    if most < 2 || operands.top() == 0 {
        return false;
    }
    if again.is_none() {
        *again = repeats(body, number, awaiting);
    }
    let Some(base) = *again else {
        return false;
    };
    let _ = operands.pop();
    operands.truncate(base);
    true
}
