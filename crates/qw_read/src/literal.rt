//! The texts of a query, which lie in the first page: their addresses and lengths, into locals, once at the start of a run.

ghost use Rattle.std.specs.Prelude.{◌≡◌, ◌<◌, ◌^◌, ◌++◌, OnOk};
ghost use Rattle.qw_low.specs.Syntax.{Statement};
ghost use Rattle.qw_low.specs.Steps.{steps_of};
ghost use Rattle.qw_read.specs.Texts.{text_operand, LeadsTo, LeadsToAll};
ghost use Rattle.qw_read.specs.Inner.TextBlocks.{literal_block};

use crate::begin::FIRST_PAGE;
use qw_expr::operand::Operand;
use qw_low::block::Block;
use qw_low::cell::Cell;
use qw_low::step::LowStep;
use qw_module::instruction::{Binary, Const, Op, ValType};
use qw_types::{Kind, NoMemory};

/// A text literal of a query, with the locals for it (ISO/IEC 9075:1992, 5.3).
#[derive(Clone, Copy, Debug, PartialEq, Eq)]
pub struct Literal {
    /// Where its octets begin, counted from the start of the first page.
    pub at: u32,
    /// How many octets it has.
    pub count: u32,
    /// For its address and its length, both i32. It is never null, so a null word is not used.
    pub cell: Cell,
}

impl Literal {
    /// The text, for expressions.
    pub fn operand(&self) -> Operand
        ensures { result ≡ text_operand self.now }
    {
        Operand {
            cell: Cell {
                null: None,
                ..self.cell
            },
            kind: Some(Kind::Text),
            scale: 0,
            most: 0,
        }
    }
}

/// Adds the address and the length. Both numbers are of 32 bits, as constants of an i32 are.
fn push_literal(block: &mut Block, literal: Literal) -> Result<(), NoMemory>
    ensures code { OnOk result (block.new.code.items ≡ block.old.code.items ++ steps_of (literal_block literal)) }
    ensures narrow { OnOk result ((literal.at < 2 ^ 32) × (literal.count < 2 ^ 32)) }
{
    block.code.extend_from_slice(&[
        LowStep::Op(Op::LocalGet(FIRST_PAGE)),
        LowStep::Op(Op::Const(Const::I32(literal.at))),
        LowStep::Op(Op::Binary(ValType::I32, Binary::Add)),
        LowStep::Op(Op::LocalSet(literal.cell.value)),
        LowStep::Op(Op::Const(Const::I32(literal.count))),
        LowStep::Op(Op::LocalSet(literal.cell.length)),
    ])?;
    Ok(())
}

/// Adds the address and the length of a text literal, which lies in the first page, into the literal's cell. Nothing is copied.
pub fn emit_literal(block: &mut Block, literal: Literal) -> Result<(), NoMemory>
    ensures { OnOk result ((a : Statement) × (block.new.code.items ≡ block.old.code.items ++ steps_of a) × LeadsTo literal a) }
{
    push_literal(block, literal)?;
    Ok(())
}

/// Adds those of several literals, one after another.
pub fn emit_literals(block: &mut Block, literals: &[Literal]) -> Result<(), NoMemory>
    ensures { OnOk result ((a : Statement) × (block.new.code.items ≡ block.old.code.items ++ steps_of a) × LeadsToAll literals.now a) }
{
    for literal in literals {
        push_literal(block, *literal)?;
    }
    Ok(())
}
