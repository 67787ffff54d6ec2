//! What the machine does at an instruction that reads, writes or grows the memory (WebAssembly Core Specification 1.0, 4.4.4).

ghost use Rattle.std.specs.Prelude.{◌≡◌, ℕ, List, [], ◌+◌, ◌*◌, ◌^◌, ◌<◌, ◌≤◌, length, IsSome, IfSome, OnSome, IfNone, ◌↔◌};
ghost use Rattle.qw_module.specs.Numbers.{load_width, loaded_value, store_width};
ghost use Rattle.qw_linear.specs.Memory.{page, number_at, with_number, grown_by};
ghost use Rattle.qw_module.specs.Step.{op_wants};
ghost use Rattle.qw_module.specs.Execution.{effective};
ghost use Rattle.qw_machine.specs.Inner.Operated.{CanOperate, IsDone, accessed};

use crate::numbers::loaded;
use crate::operators::Operated;
use crate::stack::Stack;
use qw_linear::linear::Linear;
use qw_module::instruction::{Load, MemArg, Op, REFUSAL, Store, ValType};

/// Where an access begins.
#[inline(always)]
fn address_of(address: u64, arg: MemArg) -> u64
    requires { address < 2 ^ 32 }
    ensures { result ≡ effective address arg }
{
    address + u64::from(arg.offset)
}

/// The number of the octets that a load reads, or `None` outside the memory.
#[inline(always)]
fn octets(memory: &Linear, kind: Load, at: u64) -> Option<u64>
    ensures inside { IsSome result ↔ (at + load_width kind ≤ length memory.now.octets) }
    ensures value { IfSome result (λ n. n ≡ number_at memory.now.octets at (load_width kind)) }
    ensures fits { IfSome result (λ n. n < 2 ^ (8 * load_width kind)) }
{
    match kind {
        Load::Full(ValType::I64) => memory.load64(at),
        Load::Full(ValType::I32) | Load::I64From32(_) => memory.load32(at),
        Load::From16(..) => memory.load16(at),
        Load::From8(..) => memory.load8(at),
    }
}

/// Writes what a store writes, or nothing outside the memory.
#[inline(always)]
fn write(memory: &mut Linear, kind: Store, at: u64, value: u64) -> Option<()>
    ensures inside { IsSome result ↔ (at + store_width kind ≤ length memory.old.octets) }
    ensures stored { OnSome result (memory.new.octets ≡ with_number memory.old.octets at (store_width kind) value) }
    ensures unchanged { IfNone result (memory.new ≡ memory.old) }
    ensures reserved { memory.new.reserved ≡ memory.old.reserved }
{
    match kind {
        Store::Full(ValType::I64) => memory.store64(at, value),
        Store::Full(ValType::I32) | Store::I64To32 => memory.store32(at, value),
        Store::To16(_) => memory.store16(at, value),
        Store::To8(_) => memory.store8(at, value),
    }
}

/// Reads what a load reads. Answers whether that lies in the memory.
#[inline(always)]
pub(crate) fn load(kind: &Load, arg: MemArg, operands: &mut Stack<u64>, memory: &Linear) -> bool
    requires ready { CanOperate (Op.Load kind.now arg) [] operands.old.values [] }
    requires room { length operands.old.values < operands.old.room }
    ensures done { (globals locals : List ℕ) (spare : ℕ) →
        IsDone (op_wants (Op.Load kind.now arg) globals operands.old.values locals) (record { operands = operands.old.values; globals = globals; locals = locals; memory = memory.now.octets }) spare (accessed result)
        (record { operands = operands.new.values; globals = globals; locals = locals; memory = memory.now.octets }) }
    ensures room { operands.new.room ≡ operands.old.room }
{
    let at = address_of(operands.pop(), arg);
    let Some(number) = octets(memory, *kind, at) else {
        return false;
    };
    operands.push(loaded(*kind, number));
    true
}

/// Writes what a store writes. Answers whether that lies in the memory.
#[inline(always)]
pub(crate) fn store(
    kind: &Store,
    arg: MemArg,
    operands: &mut Stack<u64>,
    memory: &mut Linear,
) -> bool
    requires ready { CanOperate (Op.Store kind.now arg) [] operands.old.values [] }
    ensures done { (globals locals : List ℕ) (spare : ℕ) →
        IsDone (op_wants (Op.Store kind.now arg) globals operands.old.values locals) (record { operands = operands.old.values; globals = globals; locals = locals; memory = memory.old.octets }) spare (accessed result)
        (record { operands = operands.new.values; globals = globals; locals = locals; memory = memory.new.octets }) }
    ensures room { operands.new.room ≡ operands.old.room }
    ensures reserved { memory.new.reserved ≡ memory.old.reserved }
{
    let value = operands.pop();
    let at = address_of(operands.pop(), arg);
    write(memory, *kind, at, value).is_some()
}

/// Grows the memory by so many pages, which are reserved.
// Requests are rare: their code stays out of the dispatch of the other operators.
#[inline(never)]
fn extend(memory: &mut Linear, pages: u32)
    requires { length memory.old.octets + pages * page ≤ memory.old.reserved * page }
    ensures { memory.new ≡ record { octets = grown_by pages memory.old.octets; reserved = memory.old.reserved } }
{
    memory.grow(pages).unwrap();
}

/// A request for pages (4.4.4, `memory.grow`).
// Its answer is built in the dispatch: returned by a call, it would take a place in memory that each operator writes.
#[inline(always)]
pub(crate) fn grow(operands: &mut Stack<u64>, memory: &mut Linear, spare: u32) -> Operated
    requires ready { CanOperate Op.MemoryGrow [] operands.old.values [] }
    requires room { length operands.old.values < operands.old.room }
    requires pages { length memory.old.octets + spare * page ≤ memory.old.reserved * page }
    ensures done { (globals locals : List ℕ) →
        IsDone (op_wants Op.MemoryGrow globals operands.old.values locals) (record { operands = operands.old.values; globals = globals; locals = locals; memory = memory.old.octets }) spare result
        (record { operands = operands.new.values; globals = globals; locals = locals; memory = memory.new.octets }) }
    ensures room { operands.new.room ≡ operands.old.room }
    ensures reserved { memory.new.reserved ≡ memory.old.reserved }
{
    let pages = operands.pop() as u32;
    if pages > spare {
        operands.push(u64::from(REFUSAL));
        return Operated::Refused { pages };
    }
    let at = memory.size();
    extend(memory, pages);
    operands.push(u64::from(at));
    Operated::Grew { at, pages }
}
