//! Before the first conjunct of a row one test of null bits, where the conjunct is unknown as soon as one of some columns is null: a row that has a
//! null there is rejected before any value is read, and behind the test these columns are read as columns that can't be null.

ghost use Rattle.std.specs.Prelude.{◌≡◌, ◌+◌, ◌<◌, ◌^◌, ◌∷◌, ◌++◌, ◌≤◌, [], IfOk, OnOk, drop, length, map, take};
ghost use Rattle.qw_scalar.specs.Tree.{condition_of};
ghost use Rattle.qw_scalar.specs.Typing.{AreTyped};
ghost use Rattle.qw_module.specs.declared.instruction.ValType.TheVariants.{I32};
ghost use Rattle.qw_expr.specs.Bindings.{known_of};
ghost use Rattle.qw_expr.specs.Emits.{free_of};
ghost use Rattle.qw_read.specs.NullTests.{octet_types};
ghost use Rattle.qw_read.specs.Reading as reading;
ghost use Rattle.qw_operator.specs.Guarded.{picked, sure_where};
ghost use Rattle.qw_operator.specs.Inner.Strict as strict;
ghost use Rattle.qw_operator.specs.Inner.Strict.{AreBound, AreTestedBy};

use crate::locals::declare;
use crate::strict::{is_quiet, is_tested};
use qw_expr::emitter::Emitter;
use qw_expr::known::{Binding, Leaf};
use qw_expr::operand::Operand;
use qw_low::cell::Local;
use qw_module::instruction::ValType;
use qw_read::reader::Reader;
use qw_scalar::expression::Cond;
use qw_types::NoMemory;
use std::alloc::Global;

/// Adds a column to those that are tested before a conjunct, where it is one of them.
fn pick(
    tested: &mut Vec<Reader>,
    cond: &Cond,
    left: Local,
    end: Local,
    reader: Reader,
) -> Result<(), NoMemory>
    ensures { OnOk result (tested.new.items ≡ tested.old.items ++ picked (strict.is_tested cond.now left end) (reader ∷ [])) }
{
    if !is_tested(cond, left, end, reader) {
        return Ok(());
    }
    tested.push(reader)?;
    Ok(())
}

/// The columns that are tested before a conjunct, read by these locals.
fn pick_all(
    alloc: Global,
    cond: &Cond,
    left: Local,
    end: Local,
    readers: &[Reader],
) -> Result<Vec<Reader>, NoMemory>
    ensures { IfOk result (λ tested. tested.items ≡ picked (strict.is_tested cond.now left end) readers.now) }
{
    let mut tested = Vec::new(alloc);
    for reader in readers {
        pick(&mut tested, cond, left, end, *reader)?;
    }
    Ok(tested)
}

/// The columns that are tested before a conjunct: none where it may raise something.
pub(crate) fn tested_before(
    alloc: Global,
    cond: &Cond,
    readers: &[Reader],
) -> Result<Vec<Reader>, NoMemory>
    requires typed { AreTyped (condition_of cond.now) }
    ensures { IfOk result (λ tested. AreTestedBy cond.now readers.now tested.items) }
{
    let Some((head, _)) = readers.split_first() else {
        return Ok(Vec::new(alloc));
    };
    if !is_quiet(alloc, cond, readers)? {
        return Ok(Vec::new(alloc));
    }
    let tested = pick_all(alloc, cond, head.left, head.end, readers)?;
    Ok(tested)
}

/// A column as it is read behind the test.
fn behind_test(cond: &Cond, left: Local, end: Local, reader: Reader) -> Reader
    ensures { result ≡ sure_where (strict.is_tested cond.now left end) reader }
{
    if is_tested(cond, left, end, reader) {
        reader.sure()
    } else {
        reader
    }
}

/// All of them.
pub(crate) fn all_behind(
    alloc: Global,
    cond: &Cond,
    left: Local,
    end: Local,
    readers: &[Reader],
) -> Result<Vec<Reader>, NoMemory>
    ensures { IfOk result (λ sure. sure.items ≡ map (sure_where (strict.is_tested cond.now left end)) readers.now) }
{
    let mut sure = Vec::new(alloc);
    for reader in readers {
        sure.push(behind_test(cond, left, end, *reader))?;
    }
    Ok(sure)
}

/// The types of the locals of a test.
fn types_of(alloc: Global, others: &[Reader]) -> Result<Vec<ValType>, NoMemory>
    ensures { IfOk result (λ types. types.items ≡ I32 ∷ I32 ∷ I32 ∷ octet_types others.now) }
{
    let mut types = Vec::new(alloc);
    types.extend_from_slice(&[ValType::I32, ValType::I32, ValType::I32])?;
    for _other in others {
        types.push(ValType::I32)?;
    }
    Ok(types)
}

/// Declares the locals of a test of a column and others, and tells the first one.
pub(crate) fn declare_test(
    alloc: Global,
    emitter: &mut Emitter,
    others: &[Reader],
) -> Result<Local, NoMemory>
    ensures local { IfOk result (λ free. (free ≡ free_of emitter.old) × (free + 3 + length others.now < 2 ^ 32)) }
    ensures own { OnOk result (emitter.new.own.items ≡ emitter.old.own.items ++ (I32 ∷ I32 ∷ I32 ∷ octet_types others.now)) }
    ensures same { OnOk result ((emitter.new.first ≡ emitter.old.first) × (emitter.new.block.code.items ≡ emitter.old.block.code.items)) }
{
    let types = types_of(alloc, others)?;
    let free = declare(emitter, &types)?;
    Ok(free)
}

/// Adds what is known of columns as they are read behind the test, from what was known of them before.
fn bind(columns: &mut Vec<Binding>, known: &[Binding], sure: &[Reader]) -> Result<(), NoMemory>
    requires { AreBound known.now sure.now }
    ensures { OnOk result (known_of columns.new.items ≡ known_of columns.old.items ++ map reading.known_of sure.now) }
{
    let Some((reader, readers)) = sure.split_first() else {
        return Ok(());
    };
    let Some((binding, bindings)) = known.split_first() else {
        unreachable!();
    };
    columns.push(Binding {
        leaf: Leaf::Column(reader.column, reader.ty),
        operand: Operand {
            cell: reader.cell,
            ..binding.operand
        },
    })?;
    bind(columns, bindings, readers)?;
    Ok(())
}

/// What is known behind the test: so many literals, and the columns as they are read there.
pub(crate) fn known_behind(
    alloc: Global,
    known: Vec<Binding>,
    sure: &[Reader],
    literals: usize,
) -> Result<Vec<Binding>, NoMemory>
    requires few { literals ≤ length known.items }
    requires bound { AreBound (drop literals known.items) sure.now }
    ensures { IfOk result (λ held. known_of held.items ≡ take literals (known_of known.items) ++ map reading.known_of sure.now) }
{
    let mut held = known;
    let mut columns = Vec::new(alloc);
    bind(&mut columns, &held[literals..], sure)?;
    held.truncate(literals);
    held.append(&mut columns)?;
    Ok(held)
}
