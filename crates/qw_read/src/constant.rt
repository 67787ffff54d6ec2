//! The numbers and the dates of a query: their words, into locals, once at the start of a run.

ghost use Rattle.std.specs.Prelude.{◌≡◌, ◌++◌, OnOk};
ghost use Rattle.qw_low.specs.Syntax.{Statement};
ghost use Rattle.qw_low.specs.Steps.{steps_of};
ghost use Rattle.qw_read.specs.Constants.{Sets, SetsAll, constant_operand, word_value};
ghost use Rattle.qw_read.specs.Inner.ConstantBlocks.{constant_block};

use qw_expr::operand::Operand;
use qw_low::block::Block;
use qw_low::cell::{Cell, Local};
use qw_low::step::LowStep;
use qw_module::instruction::{Const, Op};
use qw_types::{Kind, NoMemory};

/// A literal that is a number or a date (ISO/IEC 9075:1992, 5.3).
#[derive(Clone, Copy, Debug, PartialEq, Eq)]
pub enum Word {
    /// A number and its scale.
    Number(i64, u8),
    /// A date, as year * 10000 + month * 100 + day.
    Date(i32),
}

/// Such a literal of a query, with the local for it, an i64.
#[derive(Clone, Copy, Debug, PartialEq, Eq)]
pub struct Constant {
    pub word: Word,
    pub local: Local,
}

impl Constant {
    /// The literal, for expressions.
    pub fn operand(&self) -> Operand
        ensures { result ≡ constant_operand self.now }
    {
        let cell = Cell {
            value: self.local,
            length: self.local,
            null: None,
        };
        match self.word {
            Word::Number(value, scale) => Operand {
                cell,
                kind: Some(Kind::Number(scale)),
                scale,
                most: value.unsigned_abs(),
            },
            Word::Date(_) => Operand {
                cell,
                kind: Some(Kind::Date),
                scale: 0,
                most: 0,
            },
        }
    }

    /// Its value, as a number of 64 bits.
    fn value(&self) -> i64
        ensures { result ≡ word_value self.now.word }
    {
        match self.word {
            Word::Number(value, _) => value,
            Word::Date(day) => i64::from(day),
        }
    }
}

/// Adds what puts the value into the local.
fn push_constant(block: &mut Block, constant: Constant) -> Result<(), NoMemory>
    ensures { OnOk result (block.new.code.items ≡ block.old.code.items ++ steps_of (constant_block constant)) }
{
    block.code.extend_from_slice(&[
        LowStep::Op(Op::Const(Const::I64(constant.value().cast_unsigned()))),
        LowStep::Op(Op::LocalSet(constant.local)),
    ])?;
    Ok(())
}

/// Adds what puts a number or a date into its local.
pub fn emit_constant(block: &mut Block, constant: Constant) -> Result<(), NoMemory>
    ensures { OnOk result ((a : Statement) × (block.new.code.items ≡ block.old.code.items ++ steps_of a) × Sets constant a) }
{
    push_constant(block, constant)?;
    Ok(())
}

/// Adds those of several, one after another.
pub fn emit_constants(block: &mut Block, constants: &[Constant]) -> Result<(), NoMemory>
    ensures { OnOk result ((a : Statement) × (block.new.code.items ≡ block.old.code.items ++ steps_of a) × SetsAll constants.now a) }
{
    for constant in constants {
        push_constant(block, *constant)?;
    }
    Ok(())
}
