//! Blocks of exact arithmetic (ISO/IEC 9075:1992, 6.12). A check is left out where the magnitudes show that it can't fail.

ghost use Rattle.std.specs.Prelude.{◌≡◌, ◌+◌, ◌-◌, ◌*◌, ◌<◌, ◌≤◌, ◌^◌, ◌++◌, max, neg_ℤ, Bool, Ok, OnOk, IfOk, length};
ghost use Rattle.qw_types.specs.Arithmetic.{bring, sum_of, difference_of, product_of, quotient_of};
ghost use Rattle.qw_low.specs.Syntax.{Statement, local, binop, divop, assign};
ghost use Rattle.qw_low.specs.Steps.{steps_of};
ghost use Rattle.qw_wide.specs.Numbers.{Operates, Converts};
ghost use Rattle.qw_wide.specs.Inner.Blocks.{i64, is_past, capped, range_check, check_if, bring_block, brought_in, sum_block, opposite_block, magnitude_block, tested_product, checked_product, product_block, zero_check, quotient_block, Sums, Products, Quotients};
ghost use Rattle.qw_module.specs.declared.instruction.ValType.TheVariants.{I64};
ghost use Rattle.qw_module.specs.declared.instruction.Binary.TheVariants.{Mul};
ghost use Rattle.qw_module.specs.declared.instruction.Division.TheVariants.{Div};
ghost use Rattle.qw_module.specs.declared.instruction.Sign.TheVariants.{Signed};

use qw_low::block::Block;
use qw_low::cell::Local;
use qw_low::step::LowStep;
use qw_module::instruction::{Binary, Const, Division, Op, Relation, Sign, ValType};
use qw_types::NoMemory;

/// The greatest magnitude of 18 digits.
pub const GREATEST: u64 = 999_999_999_999_999_999;

/// A number in a local of type i64: its scale, and the greatest magnitude that it may have.
#[derive(Clone, Copy, Debug, PartialEq, Eq)]
pub struct Scaled {
    pub local: Local,
    pub scale: u8,
    pub most: u64,
}

/// A power of ten.
#[tactic(auto, using(crate::proofs::ArithmeticRuns::power_some))]
pub fn ten_to(exponent: u8) -> u64
    requires { exponent ≤ 18 }
    ensures value { result ≡ 10 ^ exponent }
    ensures positive { 0 < result }
{
    10u64.pow(u32::from(exponent))
}

/// Whether a magnitude is past 18 digits.
pub(crate) fn is_past(magnitude: u128) -> bool
    ensures { result ≡ is_past magnitude }
{
    magnitude > u128::from(GREATEST)
}

/// The greatest magnitude that a number has which was checked.
fn capped(magnitude: u128) -> u64
    ensures { result ≡ capped magnitude }
{
    magnitude.min(u128::from(GREATEST)) as u64
}

/// Adds the steps that raise 2 where a number's magnitude is past a limit.
fn push_range_check(block: &mut Block, limit: u64, x: Local) -> Result<(), NoMemory>
    requires { limit < 10 ^ 18 }
    ensures { OnOk result (block.new.code.items ≡ block.old.code.items ++ steps_of (range_check limit x)) }
{
    block.code.extend_from_slice(&[
        LowStep::Op(Op::LocalGet(x)),
        LowStep::Op(Op::Const(Const::I64(limit))),
        LowStep::Op(Op::Binary(ValType::I64, Binary::Add)),
        LowStep::Op(Op::Const(Const::I64(limit + limit))),
        LowStep::Op(Op::Relation(ValType::I64, Relation::Gt(Sign::Unsigned))),
        LowStep::If,
        LowStep::Raise(2),
        LowStep::Else,
        LowStep::End,
    ])?;
    Ok(())
}

/// The same, where it is wanted.
fn push_check_if(block: &mut Block, wanted: bool, limit: u64, x: Local) -> Result<(), NoMemory>
    requires { limit < 10 ^ 18 }
    ensures { OnOk result (block.new.code.items ≡ block.old.code.items ++ steps_of (check_if wanted limit x)) }
{
    if wanted {
        push_range_check(block, limit, x)
    } else {
        Ok(())
    }
}

/// Adds the steps of an operator on two locals.
fn push_operator(
    block: &mut Block,
    operator: Binary,
    x: Local,
    y: Local,
    out: Local,
) -> Result<(), NoMemory>
    ensures { OnOk result (block.new.code.items ≡ block.old.code.items ++ steps_of (assign out (binop I64 operator (local x) (local y)))) }
{
    block.code.extend_from_slice(&[
        LowStep::Op(Op::LocalGet(x)),
        LowStep::Op(Op::LocalGet(y)),
        LowStep::Op(Op::Binary(ValType::I64, operator)),
        LowStep::Op(Op::LocalSet(out)),
    ])?;
    Ok(())
}

/// Adds the steps of a number times 10^k.
fn push_scale(block: &mut Block, k: u8, n: Local, x: Local) -> Result<(), NoMemory>
    requires { k ≤ 18 }
    ensures { OnOk result (block.new.code.items ≡ block.old.code.items ++ steps_of (assign n (binop I64 Mul (local x) (i64 (10 ^ k))))) }
{
    block.code.extend_from_slice(&[
        LowStep::Op(Op::LocalGet(x)),
        LowStep::Op(Op::Const(Const::I64(ten_to(k)))),
        LowStep::Op(Op::Binary(ValType::I64, Binary::Mul)),
        LowStep::Op(Op::LocalSet(n)),
    ])?;
    Ok(())
}

/// Adds the steps that bring a number to another scale, into the first free local where they change it.
fn push_bring(block: &mut Block, operand: Scaled, k: u8, n: Local) -> Result<Scaled, NoMemory>
    requires scale { operand.scale + k ≤ 36 }
    requires small { k ≤ 18 }
    ensures { IfOk result (λ out. (block.new.code.items ≡ block.old.code.items ++ steps_of (bring_block (is_past (operand.most * 10 ^ k)) k n operand.local))
        × (out ≡ record { local = brought_in k n operand.local; scale = operand.scale + k; most = capped (operand.most * 10 ^ k) })) }
{
    let raw = u128::from(operand.most) * u128::from(ten_to(k));
    let out = Scaled {
        local: if k == 0 { operand.local } else { n },
        scale: operand.scale + k,
        most: capped(raw),
    };
    if k > 0 {
        push_check_if(block, is_past(raw), GREATEST / ten_to(k), operand.local)?;
        push_scale(block, k, n, operand.local)?;
    }
    Ok(out)
}

/// Adds the steps of a sum or a difference: both operands at the larger scale, the left one first, the operator, and a check.
fn push_sum(
    block: &mut Block,
    operator: Binary,
    left: Scaled,
    right: Scaled,
    n: Local,
) -> Result<Scaled, NoMemory>
    requires scales { (left.scale ≤ 18) × (right.scale ≤ 18) }
    requires room { n + 1 < 2 ^ 32 }
    ensures { IfOk result (λ out. Sums operator left right n out block.old.code.items block.new.code.items) }
{
    let scale = left.scale.max(right.scale);
    let x = push_bring(block, left, scale - left.scale, n)?;
    let y = push_bring(block, right, scale - right.scale, n + 1)?;
    let raw = u128::from(x.most) + u128::from(y.most);
    push_operator(block, operator, x.local, y.local, n)?;
    push_check_if(block, is_past(raw), GREATEST, n)?;
    Ok(Scaled {
        local: n,
        scale,
        most: capped(raw),
    })
}

/// Adds the sum of two numbers, of the larger scale.
pub fn add(block: &mut Block, left: Scaled, right: Scaled, free: Local) -> Result<Scaled, NoMemory>
    requires scales { (left.scale ≤ 18) × (right.scale ≤ 18) }
    requires below { (left.local < free) × (right.local < free) }
    requires room { free + 1 < 2 ^ 32 }
    ensures block { IfOk result (λ out. (a : Statement) × (block.new.code.items ≡ block.old.code.items ++ steps_of a)
        × Operates (λ v w. sum_of v left.scale w right.scale) left.local left.most right.local right.most free out.local out.most a) }
    ensures scale { IfOk result (λ out. out.scale ≡ max left.scale right.scale) }
    ensures short { OnOk result (length block.new.code.items ≤ length block.old.code.items + 60) }
{
    push_sum(block, Binary::Add, left, right, free)
}

/// Adds the difference of two numbers, of the larger scale.
pub fn subtract(
    block: &mut Block,
    left: Scaled,
    right: Scaled,
    free: Local,
) -> Result<Scaled, NoMemory>
    requires scales { (left.scale ≤ 18) × (right.scale ≤ 18) }
    requires below { (left.local < free) × (right.local < free) }
    requires room { free + 1 < 2 ^ 32 }
    ensures block { IfOk result (λ out. (a : Statement) × (block.new.code.items ≡ block.old.code.items ++ steps_of a)
        × Operates (λ v w. difference_of v left.scale w right.scale) left.local left.most right.local right.most free out.local out.most a) }
    ensures scale { IfOk result (λ out. out.scale ≡ max left.scale right.scale) }
    ensures short { OnOk result (length block.new.code.items ≤ length block.old.code.items + 60) }
{
    push_sum(block, Binary::Sub, left, right, free)
}

/// Adds the opposite of a number.
pub fn negate(block: &mut Block, operand: Scaled, free: Local) -> Result<Scaled, NoMemory>
    ensures block { IfOk result (λ out. (a : Statement) × (block.new.code.items ≡ block.old.code.items ++ steps_of a)
        × Converts (λ v. Ok (neg_ℤ v)) operand.local operand.most free out.local out.most a) }
    ensures scale { IfOk result (λ out. out.scale ≡ operand.scale) }
    ensures short { OnOk result (length block.new.code.items ≤ length block.old.code.items + 60) }
{
    push_opposite(block, free, operand.local)?;
    Ok(Scaled {
        local: free,
        ..operand
    })
}

/// Adds the steps of an opposite.
fn push_opposite(block: &mut Block, n: Local, x: Local) -> Result<(), NoMemory>
    ensures { OnOk result (block.new.code.items ≡ block.old.code.items ++ steps_of (opposite_block n x)) }
{
    block.code.extend_from_slice(&[
        LowStep::Op(Op::Const(Const::I64(0))),
        LowStep::Op(Op::LocalGet(x)),
        LowStep::Op(Op::Binary(ValType::I64, Binary::Sub)),
        LowStep::Op(Op::LocalSet(n)),
    ])?;
    Ok(())
}

/// Adds the steps that leave the magnitude of a number in place of it.
fn push_magnitude(block: &mut Block, n: Local) -> Result<(), NoMemory>
    ensures { OnOk result (block.new.code.items ≡ block.old.code.items ++ steps_of (magnitude_block n)) }
{
    block.code.extend_from_slice(&[
        LowStep::Op(Op::LocalGet(n)),
        LowStep::Op(Op::Const(Const::I64(0))),
        LowStep::Op(Op::Relation(ValType::I64, Relation::Lt(Sign::Signed))),
        LowStep::If,
    ])?;
    push_opposite(block, n, n)?;
    block
        .code
        .extend_from_slice(&[LowStep::Else, LowStep::End])?;
    Ok(())
}

/// Adds the steps that multiply where the right factor is at most what the quotient in `n` says, and else raise 2.
fn push_tested_product(block: &mut Block, n: Local, x: Local, y: Local) -> Result<(), NoMemory>
    ensures { OnOk result (block.new.code.items ≡ block.old.code.items ++ steps_of (tested_product n x y)) }
{
    block.code.extend_from_slice(&[
        LowStep::Op(Op::LocalGet(y)),
        LowStep::Op(Op::LocalGet(n)),
        LowStep::Op(Op::Binary(ValType::I64, Binary::Add)),
        LowStep::Op(Op::LocalGet(n)),
        LowStep::Op(Op::LocalGet(n)),
        LowStep::Op(Op::Binary(ValType::I64, Binary::Add)),
        LowStep::Op(Op::Relation(ValType::I64, Relation::Gt(Sign::Unsigned))),
        LowStep::If,
        LowStep::Raise(2),
        LowStep::Else,
        LowStep::End,
    ])?;
    push_operator(block, Binary::Mul, x, y, n)
}

/// Adds the steps of a product whose range is checked: 10^18 - 1 over the left factor tells how large the right one may be.
fn push_checked_product(block: &mut Block, n: Local, x: Local, y: Local) -> Result<(), NoMemory>
    ensures { OnOk result (block.new.code.items ≡ block.old.code.items ++ steps_of (checked_product n x y)) }
{
    block.code.extend_from_slice(&[
        LowStep::Op(Op::LocalGet(x)),
        LowStep::Op(Op::Eqz(ValType::I64)),
        LowStep::If,
        LowStep::Op(Op::Const(Const::I64(0))),
        LowStep::Op(Op::LocalSet(n)),
        LowStep::Else,
        LowStep::Op(Op::Const(Const::I64(GREATEST))),
        LowStep::Op(Op::LocalGet(x)),
        LowStep::Op(Op::Division(ValType::I64, Division::Div(Sign::Signed))),
        LowStep::Op(Op::LocalSet(n)),
    ])?;
    push_magnitude(block, n)?;
    push_tested_product(block, n, x, y)?;
    block.push(LowStep::End)
}

/// Adds the steps of a product.
fn push_product(
    block: &mut Block,
    checked: bool,
    n: Local,
    x: Local,
    y: Local,
) -> Result<(), NoMemory>
    ensures { OnOk result (block.new.code.items ≡ block.old.code.items ++ steps_of (product_block checked n x y)) }
{
    if checked {
        push_checked_product(block, n, x, y)
    } else {
        push_operator(block, Binary::Mul, x, y, n)
    }
}

/// Adds the steps of a product, and tells the number that they make.
fn push_product_of(
    block: &mut Block,
    left: Scaled,
    right: Scaled,
    n: Local,
) -> Result<Scaled, NoMemory>
    requires scales { left.scale + right.scale ≤ 18 }
    ensures { IfOk result (λ out. Products left right n out block.old.code.items block.new.code.items) }
{
    let raw = u128::from(left.most) * u128::from(right.most);
    push_product(block, is_past(raw), n, left.local, right.local)?;
    Ok(Scaled {
        local: n,
        scale: left.scale + right.scale,
        most: capped(raw),
    })
}

/// Adds the product of two numbers, whose scale is the sum of theirs.
pub fn multiply(
    block: &mut Block,
    left: Scaled,
    right: Scaled,
    free: Local,
) -> Result<Scaled, NoMemory>
    requires scales { left.scale + right.scale ≤ 18 }
    requires below { (left.local < free) × (right.local < free) }
    ensures block { IfOk result (λ out. (a : Statement) × (block.new.code.items ≡ block.old.code.items ++ steps_of a)
        × Operates product_of left.local left.most right.local right.most free out.local out.most a) }
    ensures scale { IfOk result (λ out. out.scale ≡ left.scale + right.scale) }
    ensures short { OnOk result (length block.new.code.items ≤ length block.old.code.items + 60) }
{
    push_product_of(block, left, right, free)
}

/// Adds the steps that raise 1 where a number is 0.
fn push_zero_check(block: &mut Block, y: Local) -> Result<(), NoMemory>
    ensures { OnOk result (block.new.code.items ≡ block.old.code.items ++ steps_of (zero_check y)) }
{
    block.code.extend_from_slice(&[
        LowStep::Op(Op::LocalGet(y)),
        LowStep::Op(Op::Eqz(ValType::I64)),
        LowStep::If,
        LowStep::Raise(1),
        LowStep::Else,
        LowStep::End,
    ])?;
    Ok(())
}

/// Adds the steps of a quotient, and tells the number that they make.
fn push_quotient(
    block: &mut Block,
    left: Scaled,
    right: Scaled,
    n: Local,
) -> Result<Scaled, NoMemory>
    requires scales { left.scale + right.scale ≤ 18 }
    ensures { IfOk result (λ out. Quotients left right n out block.old.code.items block.new.code.items) }
{
    push_zero_check(block, right.local)?;
    let x = push_bring(block, left, right.scale, n)?;
    push_quotient_of(block, x.local, right.local, n)?;
    Ok(Scaled {
        local: n,
        scale: left.scale,
        most: x.most,
    })
}

/// Adds the steps of a division.
fn push_quotient_of(block: &mut Block, x: Local, y: Local, out: Local) -> Result<(), NoMemory>
    ensures { OnOk result (block.new.code.items ≡ block.old.code.items ++ steps_of (assign out (divop I64 (Div Signed) (local x) (local y)))) }
{
    block.code.extend_from_slice(&[
        LowStep::Op(Op::LocalGet(x)),
        LowStep::Op(Op::LocalGet(y)),
        LowStep::Op(Op::Division(ValType::I64, Division::Div(Sign::Signed))),
        LowStep::Op(Op::LocalSet(out)),
    ])?;
    Ok(())
}

/// Adds the quotient of two numbers, of the left one's scale: a divisor of 0 raises 1, before the dividend is brought to the sum of the scales.
pub fn divide(
    block: &mut Block,
    left: Scaled,
    right: Scaled,
    free: Local,
) -> Result<Scaled, NoMemory>
    requires scales { left.scale + right.scale ≤ 18 }
    requires below { (left.local < free) × (right.local < free) }
    ensures block { IfOk result (λ out. (a : Statement) × (block.new.code.items ≡ block.old.code.items ++ steps_of a)
        × Operates (λ v w. quotient_of v left.scale w right.scale) left.local left.most right.local right.most free out.local out.most a) }
    ensures scale { IfOk result (λ out. out.scale ≡ left.scale) }
    ensures short { OnOk result (length block.new.code.items ≤ length block.old.code.items + 60) }
{
    push_quotient(block, left, right, free)
}

/// Adds a number at another scale that is no smaller.
pub fn bring(block: &mut Block, operand: Scaled, to: u8, free: Local) -> Result<Scaled, NoMemory>
    requires scales { (operand.scale ≤ to) × (to ≤ 18) }
    requires below { operand.local < free }
    ensures block { IfOk result (λ out. (a : Statement) × (block.new.code.items ≡ block.old.code.items ++ steps_of a)
        × Converts (λ v. bring v operand.scale to) operand.local operand.most free out.local out.most a) }
    ensures scale { IfOk result (λ out. out.scale ≡ to) }
    ensures short { OnOk result (length block.new.code.items ≤ length block.old.code.items + 60) }
{
    push_bring(block, operand, to - operand.scale, free)
}
