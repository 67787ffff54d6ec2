//! Blocks that are entered and left where operators are executed (WebAssembly Core Specification 1.0, 4.4.5 and 4.4.6): their labels
//! are pushed and popped without what an activity holds being put back.

ghost use Rattle.std.specs.Prelude.{◌≡◌, ℕ, List, ◌+◌, ◌*◌, ◌^◌, ◌<◌, ◌≤◌, ◌∷◌, true, false, length, vec_len, IfSome, None, Some};
ghost use Rattle.qw_linear.specs.Memory.{page};
ghost use Rattle.qw_module.specs.Syntax.{sequence_at};
ghost use Rattle.qw_module.specs.Validity.{sequences_of};
ghost use Rattle.qw_machine.specs.declared.stepped.Stepped.TheVariants.{Ran};
ghost use Rattle.qw_machine.specs.Inner.Points.{Point, in_sequence, instructions_at, placed, state_at};
ghost use Rattle.qw_machine.specs.Inner.Placed.{IsPoint};
ghost use Rattle.qw_machine.specs.Inner.Activities.{IsDoneAt, IsHalted, IsPlaced, has_no_else};
ghost use Rattle.qw_module.specs.Start.{body_of};

use crate::activity::{Awaiting, Entry};
use crate::following::following;
use crate::operators::operate;
use crate::room::Rooms;
use crate::stack::Stack;
use crate::stepped::{Run, Stepped, operated};
use crate::turns::turned;
use qw_linear::linear::Linear;
use qw_module::instruction::Instr;
use qw_module::module::{Body, Module};

/// An instruction that was executed, and the number of the sequence and the index in it that it led to.
#[derive(Clone, Copy)]
struct Moved {
    number: usize,
    index: usize,
    done: Stepped,
}

/// The sequence, its number and the index in it after labels were left, and whether that is before the sequence's end.
#[derive(Clone, Copy)]
struct Left<'a> {
    sequence: &'a [Instr],
    number: usize,
    index: usize,
    goes: bool,
}

/// An instruction that was executed, and the sequence, its number and the index in it that it led to. `goes` says that the run goes on
/// there.
#[derive(Clone, Copy)]
struct Crossed<'a> {
    sequence: &'a [Instr],
    number: usize,
    index: usize,
    done: Stepped,
    goes: bool,
}

/// An instruction that was executed, and the sequence, its number and the index in it that it led to, before that sequence's end.
/// `enters` says that this is the beginning of an inner one.
#[derive(Clone, Copy)]
struct Decided<'a> {
    sequence: &'a [Instr],
    number: usize,
    index: usize,
    enters: bool,
}

/// Steps made one after another, and the number of the sequence and the index in it that they led to. `done` is what a further
/// instruction came to, where one was executed that may have finished what still has to be left.
#[derive(Clone, Copy)]
pub(crate) struct Halted {
    pub(crate) run: Run,
    pub(crate) number: usize,
    pub(crate) index: usize,
    pub(crate) done: Option<Stepped>,
}

/// The most steps that [`blocks`] makes in one call, so that an index and what is left of them can be added.
const FAR: u64 = 1 << 62;

/// Of so many steps, as many as [`blocks`] makes in one call.
pub(crate) fn at_once(most: u64) -> u64
    ensures few { result ≤ most }
    ensures far { result ≤ 2 ^ 62 }
{
    if most < FAR { most } else { FAR }
}

/// The lesser of two indices.
fn least(one: usize, other: usize) -> usize
    ensures one { result ≤ one }
    ensures other { result ≤ other }
{
    if one < other { one } else { other }
}

/// Pushes a label, and goes to the beginning of the sequence of a number (4.4.6).
#[inline(always)]
fn enter_label(inner: usize, entry: Entry, awaiting: &mut Stack<Awaiting>) -> Moved
    requires room { length awaiting.old.values < awaiting.old.room }
    ensures pushed { awaiting.new ≡ record { values = Awaiting.Label entry ∷ awaiting.old.values; room = awaiting.old.room } }
    ensures begins { result ≡ record { number = inner; index = 0; done = Ran } }
{
    awaiting.push(Awaiting::Label(entry));
    Moved {
        number: inner,
        index: 0,
        done: Stepped::Ran,
    }
}

/// Executes the instruction at an index of a sequence where it is an operator, enters a block or is a `br_if` that isn't taken, and
/// leaves nothing that is finished yet. Of another instruction nothing is done.
#[inline(always)]
fn move_on(
    sequence: &[Instr],
    number: usize,
    index: usize,
    awaiting: &mut Stack<Awaiting>,
    operands: &mut Stack<u64>,
    globals: &mut [u64],
    locals: &mut [u64],
    memory: &mut Linear,
    spare: u32,
) -> Option<Moved>
    requires inside { index < length sequence.now }
    requires point { (m : Module) × (rooms : Rooms) × (p : Point) × (sequence.now ≡ instructions_at m p.function number) × IsPlaced m rooms p awaiting.old number index operands.old globals.old locals.old }
    requires pages { length memory.old.octets + spare * page ≤ memory.old.reserved * page }
    ensures done { (m : Module) (rooms : Rooms) (p : Point) → sequence.now ≡ instructions_at m p.function number → IsPlaced m rooms p awaiting.old number index operands.old globals.old locals.old
        → IfSome result (λ moved. IsDoneAt m rooms spare (placed p awaiting.old number index operands.old globals.old locals.old) memory.old.octets moved.done
        (placed p awaiting.new moved.number moved.index operands.new globals.new locals.new) memory.new.octets) }
    ensures stays { result ≡ None → (awaiting.new ≡ awaiting.old) × (operands.new ≡ operands.old) × (globals.new ≡ globals.old) × (locals.new ≡ locals.old) × (memory.new ≡ memory.old) }
    ensures rooms { (awaiting.new.room ≡ awaiting.old.room) × (operands.new.room ≡ operands.old.room) }
    ensures reserved { memory.new.reserved ≡ memory.old.reserved }
{
    let after = index + 1;
    match sequence[index] {
        Instr::Op(ref op) => {
            let done = operate(op, operands, globals, locals, memory, spare);
            Some(Moved {
                number,
                index: after,
                done: operated(done),
            })
        }
        Instr::Block { result, body } => {
            let entry = Entry {
                base: operands.len(),
                takes: result.is_some(),
                sequence: number,
                target: after,
                after,
            };
            Some(enter_label(body, entry, awaiting))
        }
        Instr::Loop { body, .. } => {
            let entry = Entry {
                base: operands.len(),
                takes: false,
                sequence: number,
                target: index,
                after,
            };
            Some(enter_label(body, entry, awaiting))
        }
        Instr::If {
            result,
            then_body,
            else_body,
        } => {
            let body = if operands.pop() != 0 {
                Some(then_body)
            } else {
                else_body
            };
            let Some(body) = body else {
                return Some(Moved {
                    number,
                    index: after,
                    done: Stepped::Ran,
                });
            };
            let entry = Entry {
                base: operands.len(),
                takes: result.is_some(),
                sequence: number,
                target: after,
                after,
            };
            Some(enter_label(body, entry, awaiting))
        }
        Instr::BrIf(_) => {
            if operands.top() != 0 {
                return None;
            }
            let _ = operands.pop();
            Some(Moved {
                number,
                index: after,
                done: Stepped::Ran,
            })
        }
        _ => None,
    }
}

/// The number of an `else`, where there is one and it isn't empty.
fn filled(body: &Body, number: Option<usize>) -> Option<usize>
    requires { IfSome number (λ other. other < vec_len body.now.sequences) }
    ensures there { IfSome result (λ inner. number ≡ Some inner) }
    ensures empty { result ≡ None → has_no_else (sequences_of body.now) number ≡ true }
{
    let number = number?;
    let sequence = body.sequences[number].as_slice();
    if sequence.is_empty() {
        return None;
    }
    Some(number)
}

/// Leaves the labels whose sequences are finished, up to a frame (4.4.6).
#[inline(always)]
fn leave_labels<'a>(
    body: &'a Body,
    number: usize,
    index: usize,
    awaiting: &mut Stack<Awaiting>,
) -> Left<'a>
    requires point { (m : Module) × (rooms : Rooms) × (p : Point) × (sequences_of body.now ≡ body_of m p.function) × IsPoint m rooms (in_sequence p awaiting.old.values number index) }
    ensures left { (m : Module) (rooms : Rooms) (p : Point) → sequences_of body.now ≡ body_of m p.function → IsPoint m rooms (in_sequence p awaiting.old.values number index)
        → IsPoint m rooms (in_sequence p awaiting.new.values result.number result.index)
        × (state_at m (in_sequence p awaiting.old.values number index) ≡ state_at m (in_sequence p awaiting.new.values result.number result.index)) }
    ensures sequence { result.sequence.now ≡ sequence_at (sequences_of body.now) result.number }
    ensures inside { result.goes ≡ true → result.index < length result.sequence.now }
    ensures room { awaiting.new.room ≡ awaiting.old.room }
{
    let mut sequence = body.sequences[number].as_slice();
    let mut number = number;
    let mut index = index;
    while index == sequence.len() {
        if awaiting.len() == 0 {
            return Left {
                sequence,
                number,
                index,
                goes: false,
            };
        }
        let Awaiting::Label(entry) = awaiting.top() else {
            return Left {
                sequence,
                number,
                index,
                goes: false,
            };
        };
        let _ = awaiting.pop();
        sequence = body.sequences[entry.sequence].as_slice();
        number = entry.sequence;
        index = entry.after;
    }
    Left {
        sequence,
        number,
        index,
        goes: true,
    }
}

/// Executes an instruction as [`move_on`] does, and leaves the labels whose sequences it finishes.
#[inline(always)]
fn cross<'a>(
    body: &'a Body,
    sequence: &'a [Instr],
    number: usize,
    index: usize,
    awaiting: &mut Stack<Awaiting>,
    operands: &mut Stack<u64>,
    globals: &mut [u64],
    locals: &mut [u64],
    memory: &mut Linear,
    spare: u32,
) -> Option<Crossed<'a>>
    requires inside { index < length sequence.now }
    requires point { (m : Module) × (rooms : Rooms) × (p : Point) × (sequences_of body.now ≡ body_of m p.function) × (sequence.now ≡ instructions_at m p.function number) × IsPlaced m rooms p awaiting.old number index operands.old globals.old locals.old }
    requires pages { length memory.old.octets + spare * page ≤ memory.old.reserved * page }
    ensures done { (m : Module) (rooms : Rooms) (p : Point) → sequences_of body.now ≡ body_of m p.function → sequence.now ≡ instructions_at m p.function number
        → IsPlaced m rooms p awaiting.old number index operands.old globals.old locals.old
        → IfSome result (λ crossed. IsDoneAt m rooms spare (placed p awaiting.old number index operands.old globals.old locals.old) memory.old.octets crossed.done
        (placed p awaiting.new crossed.number crossed.index operands.new globals.new locals.new) memory.new.octets) }
    ensures goes { IfSome result (λ crossed. crossed.goes ≡ true → (crossed.done ≡ Ran) × (crossed.index < length crossed.sequence.now) × (crossed.sequence.now ≡ sequence_at (sequences_of body.now) crossed.number)) }
    ensures stays { result ≡ None → (awaiting.new ≡ awaiting.old) × (operands.new ≡ operands.old) × (globals.new ≡ globals.old) × (locals.new ≡ locals.old) × (memory.new ≡ memory.old) }
    ensures rooms { (awaiting.new.room ≡ awaiting.old.room) × (operands.new.room ≡ operands.old.room) }
    ensures reserved { memory.new.reserved ≡ memory.old.reserved }
{
    let Some(moved) = move_on(
        sequence, number, index, awaiting, operands, globals, locals, memory, spare,
    ) else {
        return None;
    };
    let Stepped::Ran = moved.done else {
        return Some(Crossed {
            sequence,
            number: moved.number,
            index: moved.index,
            done: moved.done,
            goes: false,
        });
    };
    let left = leave_labels(body, moved.number, moved.index, awaiting);
    Some(Crossed {
        sequence: left.sequence,
        number: left.number,
        index: left.index,
        done: Stepped::Ran,
        goes: left.goes,
    })
}

/// Executes the instruction at an index of a sequence where it is an `if`, or a `br_if` that isn't taken, and finishes no sequence. Of
/// another instruction nothing is done.
// The condition is tested once, and each way goes on in the loop by itself.
#[inline(always)]
fn decide<'a>(
    body: &'a Body,
    sequence: &'a [Instr],
    number: usize,
    index: usize,
    awaiting: &mut Stack<Awaiting>,
    operands: &mut Stack<u64>,
) -> Option<Decided<'a>>
    requires inside { index < length sequence.now }
    requires point { (m : Module) × (rooms : Rooms) × (p : Point) × (globals : List ℕ) × (locals : List ℕ) × (sequences_of body.now ≡ body_of m p.function) × (sequence.now ≡ instructions_at m p.function number) × IsPlaced m rooms p awaiting.old number index operands.old globals locals }
    ensures done { (m : Module) (rooms : Rooms) (p : Point) (globals locals : List ℕ) (spare : ℕ) (memory : List ℕ) → sequences_of body.now ≡ body_of m p.function
        → sequence.now ≡ instructions_at m p.function number → IsPlaced m rooms p awaiting.old number index operands.old globals locals
        → IfSome result (λ decided. IsDoneAt m rooms spare (placed p awaiting.old number index operands.old globals locals) memory Ran
        (placed p awaiting.new decided.number decided.index operands.new globals locals) memory) }
    ensures goes { IfSome result (λ decided. (decided.index < length decided.sequence.now) × (decided.sequence.now ≡ sequence_at (sequences_of body.now) decided.number)) }
    ensures enters { IfSome result (λ decided. decided.enters ≡ true → decided.index ≡ 0) }
    ensures passes { IfSome result (λ decided. decided.enters ≡ false → (decided.number ≡ number) × (decided.index ≡ index + 1) × (awaiting.new ≡ awaiting.old)) }
    ensures stays { result ≡ None → (awaiting.new ≡ awaiting.old) × (operands.new ≡ operands.old) }
    ensures rooms { (awaiting.new.room ≡ awaiting.old.room) × (operands.new.room ≡ operands.old.room) }
{
    let after = index + 1;
    let passed = Decided {
        sequence,
        number,
        index: after,
        enters: false,
    };
    match sequence[index] {
        Instr::If {
            result,
            then_body,
            else_body,
        } => {
            let chosen = if operands.top() != 0 {
                Some(then_body)
            } else {
                filled(body, else_body)
            };
            let Some(inner) = chosen else {
                if after == sequence.len() {
                    return None;
                }
                let _ = operands.pop();
                return Some(passed);
            };
            let entered = body.sequences[inner].as_slice();
            if entered.is_empty() {
                return None;
            }
            let _ = operands.pop();
            awaiting.push(Awaiting::Label(Entry {
                base: operands.len(),
                takes: result.is_some(),
                sequence: number,
                target: after,
                after,
            }));
            Some(Decided {
                sequence: entered,
                number: inner,
                index: 0,
                enters: true,
            })
        }
        Instr::BrIf(_) => {
            if operands.top() != 0 || after == sequence.len() {
                return None;
            }
            let _ = operands.pop();
            Some(passed)
        }
        _ => None,
    }
}

/// Steps one after another, at most so many, from an index of a sequence of a body on: operators, those that begin a loop's body
/// anew, those that only take their operands, and those that enter and leave blocks. `number` is that of the sequence.
// `limit` is the index at which the steps would be over, if the sequence went on so far: so operators needn't be counted.
#[inline(always)]
pub(crate) fn blocks(
    body: &Body,
    number: usize,
    first: usize,
    most: u64,
    awaiting: &mut Stack<Awaiting>,
    operands: &mut Stack<u64>,
    globals: &mut [u64],
    locals: &mut [u64],
    memory: &mut Linear,
    spare: u32,
) -> Halted
    requires point { (m : Module) × (rooms : Rooms) × (p : Point) × (sequences_of body.now ≡ body_of m p.function) × IsPlaced m rooms p awaiting.old number first operands.old globals.old locals.old }
    requires pages { length memory.old.octets + spare * page ≤ memory.old.reserved * page }
    requires most { most ≤ 2 ^ 62 }
    ensures run { (m : Module) (rooms : Rooms) (p : Point) → sequences_of body.now ≡ body_of m p.function → IsPlaced m rooms p awaiting.old number first operands.old globals.old locals.old
        → IsHalted m rooms spare most (placed p awaiting.old number first operands.old globals.old locals.old) memory.old.octets result.run result.done
        (placed p awaiting.new result.number result.index operands.new globals.new locals.new) memory.new.octets }
    ensures rooms { (awaiting.new.room ≡ awaiting.old.room) × (operands.new.room ≡ operands.old.room) }
    ensures reserved { memory.new.reserved ≡ memory.old.reserved }
{
    let mut sequence = body.sequences[number].as_slice();
    let mut number = number;
    let mut index = first;
    let mut limit = first + most as usize;
    let mut again = None;
    loop {
        let end = least(limit, sequence.len() - 1);
        let run = following(
            sequence, index, end, operands, globals, locals, memory, spare,
        );
        index += run.steps as usize;
        if !matches!(run.last, Stepped::Ran) || index == limit {
            return Halted {
                run: Run {
                    steps: most - (limit - index) as u64,
                    last: run.last,
                },
                number,
                index,
                done: None,
            };
        }
        if let Some(decided) = decide(body, sequence, number, index, awaiting, operands) {
            if !decided.enters {
                index += 1;
                continue;
            }
            limit -= index + 1;
            sequence = decided.sequence;
            number = decided.number;
            index = 0;
            again = None;
            continue;
        }
        if turned(
            body,
            number,
            awaiting,
            sequence,
            index,
            (limit - index) as u64,
            operands,
            &mut again,
        ) {
            limit -= index + 2;
            index = 0;
            continue;
        }
        let Some(crossed) = cross(
            body, sequence, number, index, awaiting, operands, globals, locals, memory, spare,
        ) else {
            return Halted {
                run: Run::going(most - (limit - index) as u64),
                number,
                index,
                done: None,
            };
        };
        limit -= index;
        if !crossed.goes {
            return Halted {
                run: Run::going(most - limit as u64),
                number: crossed.number,
                index: crossed.index,
                done: Some(crossed.done),
            };
        }
        limit = limit - 1 + crossed.index;
        sequence = crossed.sequence;
        number = crossed.number;
        index = crossed.index;
        again = None;
    }
}
