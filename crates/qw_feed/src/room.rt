//! Free space: where it begins, and the request for a page where something doesn't fit. What the blocks do stands in `proofs/RoomRuns`.

ghost use Rattle.std.specs.Prelude.{◌≡◌, ◌++◌, OnOk};
ghost use Rattle.qw_low.specs.Steps.{steps_of};
ghost use Rattle.qw_low.specs.Translation.{unaligned};
ghost use Rattle.qw_feed.specs.Room.{room_block, space_block};

use qw_low::block::Block;
use qw_low::cell::Local;
use qw_low::step::LowStep;
use qw_map::layout::FREE_OFFSET;
use qw_module::instruction::{Binary, Const, Load, MemArg, Op, REFUSAL, Relation, Sign, ValType};
use qw_types::NoMemory;

/// The address of the first page, which is the argument of `run`.
pub const DESCRIPTOR: Local = 0;

/// The first free address.
pub const FREE: Local = 1;

/// How many octets are free behind it.
pub const LEFT: Local = 2;

/// The octets of a page (WebAssembly Core Specification 1.0, 4.2.8).
const PAGE: u32 = 65_536;

/// An access so many octets behind its address, with no hint of its alignment.
pub fn access_at(offset: u32) -> MemArg
    ensures { result ≡ unaligned offset }
{
    MemArg { align: 0, offset }
}

/// Adds what the locals of free space begin as: the descriptor has so many octets of the first page.
///
/// # Errors
///
/// [`NoMemory`] where the block does not fit memory.
pub fn begin_space(block: &mut Block, descriptor_size: u32) -> Result<(), NoMemory>
    ensures { OnOk result (block.new.code.items ≡ block.old.code.items ++ steps_of (space_block descriptor_size)) }
{
    block.code.extend_from_slice(&[
        LowStep::Op(Op::LocalGet(DESCRIPTOR)),
        LowStep::Op(Op::Load(Load::Full(ValType::I32), access_at(FREE_OFFSET))),
        LowStep::Op(Op::LocalSet(FREE)),
        LowStep::Op(Op::Const(Const::I32(PAGE))),
        LowStep::Op(Op::Const(Const::I32(descriptor_size))),
        LowStep::Op(Op::Binary(ValType::I32, Binary::Sub)),
        LowStep::Op(Op::LocalSet(LEFT)),
    ])?;
    Ok(())
}

/// Adds a request for a page, where so many octets don't fit. Where it is refused, 3 is raised.
///
/// # Errors
///
/// [`NoMemory`] where the block does not fit memory.
pub fn find_room(block: &mut Block, size: u32) -> Result<(), NoMemory>
    ensures { OnOk result (block.new.code.items ≡ block.old.code.items ++ steps_of (room_block size)) }
{
    block.code.extend_from_slice(&[
        LowStep::Op(Op::LocalGet(LEFT)),
        LowStep::Op(Op::Const(Const::I32(size))),
        LowStep::Op(Op::Relation(ValType::I32, Relation::Lt(Sign::Unsigned))),
        LowStep::If,
        LowStep::Op(Op::Const(Const::I32(1))),
        LowStep::Ask,
        LowStep::Op(Op::LocalTee(FREE)),
        LowStep::Op(Op::Const(Const::I32(REFUSAL))),
        LowStep::Op(Op::Relation(ValType::I32, Relation::Eq)),
        LowStep::If,
        LowStep::Raise(3),
        LowStep::End,
        LowStep::Op(Op::LocalGet(FREE)),
        LowStep::Op(Op::Const(Const::I32(PAGE))),
        LowStep::Op(Op::Binary(ValType::I32, Binary::Mul)),
        LowStep::Op(Op::LocalSet(FREE)),
        LowStep::Op(Op::Const(Const::I32(PAGE))),
        LowStep::Op(Op::LocalSet(LEFT)),
        LowStep::Else,
        LowStep::End,
    ])?;
    Ok(())
}
