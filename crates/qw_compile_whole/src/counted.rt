//! Rows that go into groups, counted where there may be very many of them: how many may come, and the end of a module that met as many.

ghost use Rattle.std.specs.Prelude.{◌≡◌, ◌++◌, OnOk};
ghost use Rattle.qw_low.specs.Steps.{steps_of};
ghost use Rattle.qw_compile_whole.specs.GuardedStatements as specified;

use qw_feed::rows::COUNT;
use qw_low::block::Block;
use qw_low::cell::Local;
use qw_low::step::LowStep;
use qw_module::instruction::{Const, Op, ValType};
use qw_types::NoMemory;

/// Set functions count and sum fewer rows than these.
const MOST_GROUPED: u64 = 1_000_000_000_000_000_000;

/// Two entries of FROM bring fewer rows.
const FEW_TABLES: usize = 3;

/// An exception that no run comes to.
const UNSEEN: u32 = 1;

/// The local that says how many rows may still go into groups, of so many entries of FROM and set functions; none where they are few, or nothing is counted.
pub(crate) fn guard_for(tables: usize, functions: usize) -> Option<Local>
    ensures { result ≡ specified.guard_for tables functions }
{
    if tables >= FEW_TABLES && functions >= 1 {
        Some(COUNT)
    } else {
        None
    }
}

/// Adds that so many rows may come, where they are counted.
pub(crate) fn push_count_from(block: &mut Block, guard: Option<Local>) -> Result<(), NoMemory>
    ensures { OnOk result (block.new.code.items ≡ block.old.code.items ++ steps_of (specified.count_from guard)) }
{
    if let Some(counter) = guard {
        block.code.extend_from_slice(&[
            LowStep::Op(Op::Const(Const::I64(MOST_GROUPED))),
            LowStep::Op(Op::LocalSet(counter)),
        ])?;
    }
    Ok(())
}

/// Adds the end of a module that met so many, where they are counted.
pub(crate) fn push_stop_at(block: &mut Block, guard: Option<Local>) -> Result<(), NoMemory>
    ensures { OnOk result (block.new.code.items ≡ block.old.code.items ++ steps_of (specified.stop_at guard)) }
{
    if let Some(counter) = guard {
        block.code.extend_from_slice(&[
            LowStep::Op(Op::LocalGet(counter)),
            LowStep::Op(Op::Eqz(ValType::I64)),
            LowStep::If,
            LowStep::Raise(UNSEEN),
            LowStep::Else,
            LowStep::End,
        ])?;
    }
    Ok(())
}
