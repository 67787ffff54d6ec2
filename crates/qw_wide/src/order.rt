//! How numbers compare (ISO/IEC 9075:1992, 8.2), within 64 bits. Those of one scale compare as their words do.

ghost use Rattle.std.specs.Prelude.{◌≡◌, ◌+◌, ◌-◌, ◌*◌, ◌<◌, ◌≤◌, ◌^◌, ◌++◌, OnOk, length};
ghost use Rattle.qw_types.specs.Arithmetic.{order_of};
ghost use Rattle.qw_low.specs.Syntax.{Statement, assign};
ghost use Rattle.qw_low.specs.Steps.{steps_of};
ghost use Rattle.qw_wide.specs.Numbers.{Tests};
ghost use Rattle.qw_wide.specs.Relations.{IsTruthOf, relation_of};
ghost use Rattle.qw_wide.specs.Inner.Blocks.{is_past, left_brought, right_brought, zero_test, less_block, more_block, comparison_block};

use crate::arithmetic::{Scaled, is_past, ten_to};
use qw_low::block::Block;
use qw_low::cell::Local;
use qw_low::step::LowStep;
use qw_module::instruction::{Binary, Const, Division, Op, Relation, Sign, ValType};
use qw_scalar::comparison::Comparison;
use qw_types::NoMemory;

/// The relation of two values of 64 bits that a comparison of two numbers is.
#[tactic(auto, using(crate::proofs::Relations::tells_truth))]
pub fn relation_of(operator: Comparison) -> Relation
    ensures name { result ≡ relation_of operator }
    ensures truth { IsTruthOf operator result }
{
    match operator {
        Comparison::Equal | Comparison::Like => Relation::Eq,
        Comparison::NotEqual | Comparison::NotLike => Relation::Ne,
        Comparison::Less => Relation::Lt(Sign::Signed),
        Comparison::LessOrEqual => Relation::Le(Sign::Signed),
        Comparison::Greater => Relation::Gt(Sign::Signed),
        Comparison::GreaterOrEqual => Relation::Ge(Sign::Signed),
    }
}

/// Adds the steps for a left operand whose scale is k below the right one's: against the quotient of the right one by 10^k, and where they
/// are the same against its remainder.
fn push_left_brought(block: &mut Block, k: u8, n: Local, x: Local, y: Local) -> Result<(), NoMemory>
    requires { k ≤ 18 }
    ensures { OnOk result (block.new.code.items ≡ block.old.code.items ++ steps_of (left_brought k n x y)) }
{
    let power = ten_to(k);
    block.code.extend_from_slice(&[
        LowStep::Op(Op::LocalGet(x)),
        LowStep::Op(Op::LocalGet(y)),
        LowStep::Op(Op::Const(Const::I64(power))),
        LowStep::Op(Op::Division(ValType::I64, Division::Div(Sign::Signed))),
        LowStep::Op(Op::Binary(ValType::I64, Binary::Sub)),
        LowStep::Op(Op::LocalSet(n)),
        LowStep::Op(Op::LocalGet(n)),
        LowStep::Op(Op::Eqz(ValType::I64)),
        LowStep::If,
        LowStep::Op(Op::Const(Const::I64(0))),
        LowStep::Op(Op::LocalGet(y)),
        LowStep::Op(Op::Const(Const::I64(power))),
        LowStep::Op(Op::Division(ValType::I64, Division::Rem(Sign::Signed))),
        LowStep::Op(Op::Binary(ValType::I64, Binary::Sub)),
        LowStep::Op(Op::LocalSet(n)),
        LowStep::Else,
        LowStep::End,
    ])?;
    Ok(())
}

/// The same for a right operand whose scale is k below the left one's.
fn push_right_brought(
    block: &mut Block,
    k: u8,
    n: Local,
    x: Local,
    y: Local,
) -> Result<(), NoMemory>
    requires { k ≤ 18 }
    ensures { OnOk result (block.new.code.items ≡ block.old.code.items ++ steps_of (right_brought k n x y)) }
{
    let power = ten_to(k);
    block.code.extend_from_slice(&[
        LowStep::Op(Op::LocalGet(x)),
        LowStep::Op(Op::Const(Const::I64(power))),
        LowStep::Op(Op::Division(ValType::I64, Division::Div(Sign::Signed))),
        LowStep::Op(Op::LocalGet(y)),
        LowStep::Op(Op::Binary(ValType::I64, Binary::Sub)),
        LowStep::Op(Op::LocalSet(n)),
        LowStep::Op(Op::LocalGet(n)),
        LowStep::Op(Op::Eqz(ValType::I64)),
        LowStep::If,
        LowStep::Op(Op::LocalGet(x)),
        LowStep::Op(Op::Const(Const::I64(power))),
        LowStep::Op(Op::Division(ValType::I64, Division::Rem(Sign::Signed))),
        LowStep::Op(Op::LocalSet(n)),
        LowStep::Else,
        LowStep::End,
    ])?;
    Ok(())
}

/// Adds the steps of a test of a number against 0.
fn push_zero_test(
    block: &mut Block,
    operator: Comparison,
    n: Local,
    out: Local,
) -> Result<(), NoMemory>
    ensures { OnOk result (block.new.code.items ≡ block.old.code.items ++ steps_of (assign out (zero_test operator n))) }
{
    block.code.extend_from_slice(&[
        LowStep::Op(Op::LocalGet(n)),
        LowStep::Op(Op::Const(Const::I64(0))),
        LowStep::Op(Op::Relation(ValType::I64, relation_of(operator))),
        LowStep::Op(Op::LocalSet(out)),
    ])?;
    Ok(())
}

/// Adds the steps of a comparison whose left operand's scale is k below the right one's.
fn push_less_scaled(
    block: &mut Block,
    operator: Comparison,
    k: u8,
    left: Scaled,
    right: Scaled,
    n: Local,
    out: Local,
) -> Result<(), NoMemory>
    requires { k ≤ 18 }
    ensures { OnOk result (block.new.code.items ≡ block.old.code.items ++ steps_of (less_block operator (is_past (left.most * 10 ^ k)) k n out left.local right.local)) }
{
    if is_past(u128::from(left.most) * u128::from(ten_to(k))) {
        push_left_brought(block, k, n, left.local, right.local)?;
        push_zero_test(block, operator, n, out)?;
    } else {
        block.code.extend_from_slice(&[
            LowStep::Op(Op::LocalGet(left.local)),
            LowStep::Op(Op::Const(Const::I64(ten_to(k)))),
            LowStep::Op(Op::Binary(ValType::I64, Binary::Mul)),
            LowStep::Op(Op::LocalGet(right.local)),
            LowStep::Op(Op::Relation(ValType::I64, relation_of(operator))),
            LowStep::Op(Op::LocalSet(out)),
        ])?;
    }
    Ok(())
}

/// The same of a right operand whose scale is k below the left one's.
fn push_more_scaled(
    block: &mut Block,
    operator: Comparison,
    k: u8,
    left: Scaled,
    right: Scaled,
    n: Local,
    out: Local,
) -> Result<(), NoMemory>
    requires { k ≤ 18 }
    ensures { OnOk result (block.new.code.items ≡ block.old.code.items ++ steps_of (more_block operator (is_past (right.most * 10 ^ k)) k n out left.local right.local)) }
{
    if is_past(u128::from(right.most) * u128::from(ten_to(k))) {
        push_right_brought(block, k, n, left.local, right.local)?;
        push_zero_test(block, operator, n, out)?;
    } else {
        block.code.extend_from_slice(&[
            LowStep::Op(Op::LocalGet(left.local)),
            LowStep::Op(Op::LocalGet(right.local)),
            LowStep::Op(Op::Const(Const::I64(ten_to(k)))),
            LowStep::Op(Op::Binary(ValType::I64, Binary::Mul)),
            LowStep::Op(Op::Relation(ValType::I64, relation_of(operator))),
            LowStep::Op(Op::LocalSet(out)),
        ])?;
    }
    Ok(())
}

/// Adds the steps of a comparison: at one scale a relation of the two locals.
fn push_comparison(
    block: &mut Block,
    operator: Comparison,
    left: Scaled,
    right: Scaled,
    n: Local,
    out: Local,
) -> Result<(), NoMemory>
    requires scales { (left.scale ≤ 18) × (right.scale ≤ 18) }
    ensures { OnOk result (block.new.code.items ≡ block.old.code.items ++ steps_of (comparison_block operator left.scale left.most right.scale right.most n out left.local right.local)) }
{
    if left.scale == right.scale {
        block.code.extend_from_slice(&[
            LowStep::Op(Op::LocalGet(left.local)),
            LowStep::Op(Op::LocalGet(right.local)),
            LowStep::Op(Op::Relation(ValType::I64, relation_of(operator))),
            LowStep::Op(Op::LocalSet(out)),
        ])?;
        Ok(())
    } else if left.scale < right.scale {
        let k = right.scale - left.scale;
        push_less_scaled(block, operator, k, left, right, n, out)
    } else {
        let k = left.scale - right.scale;
        push_more_scaled(block, operator, k, left, right, n, out)
    }
}

/// Adds in the local `out` whether a comparison of two numbers is true, by their exact values: 1, and else 0. `free` is a local of its own.
pub fn emit_cmp_scaled(
    block: &mut Block,
    operator: Comparison,
    left: Scaled,
    right: Scaled,
    free: Local,
    out: Local,
) -> Result<(), NoMemory>
    requires scales { (left.scale ≤ 18) × (right.scale ≤ 18) }
    requires below { (left.local < out) × (right.local < out) × (out < free) }
    ensures block { OnOk result ((a : Statement) × (block.new.code.items ≡ block.old.code.items ++ steps_of a)
        × Tests operator (λ v w. order_of v left.scale w right.scale) left.local left.most right.local right.most free out a) }
    ensures short { OnOk result (length block.new.code.items ≤ length block.old.code.items + 24) }
{
    push_comparison(block, operator, left, right, free, out)
}
