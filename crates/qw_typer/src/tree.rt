//! Typed trees on the way, with the kinds of their values.

ghost use Rattle.std.specs.Prelude.{◌≡◌, ◌⊎◌, IfOk, IfErr, MatchResult, Ok, Err};
ghost use Rattle.qw_typer.specs.declared.refusal.Refusal.TheVariants.{NoMemory};

use crate::refusal::Refusal;
use qw_scalar::expression::{Expr, Exprs};
use qw_types::Kind;
use std::alloc::Global;

/// An expression and the kind of its values, none where null is the only one.
#[derive(Drop)]
pub(crate) struct Typed {
    pub(crate) tree: Expr,
    pub(crate) kind: Option<Kind>,
}

/// The branches of a CASE or the like; the kind of their results together, and whether they are of one.
#[derive(Drop)]
pub(crate) struct Results<T> {
    pub(crate) tree: T,
    pub(crate) kind: Option<Kind>,
    pub(crate) agree: bool,
}

/// The values of IN, and whether each compares with the operand.
#[derive(Drop)]
pub(crate) struct Values {
    pub(crate) tree: Exprs,
    pub(crate) comparable: bool,
}

/// The value in a box of its own.
pub(crate) fn boxed<'a, T: Drop>(alloc: Global, value: T) -> Result<Box<T>, Refusal<'a>>
    ensures same { IfOk result (λ made. made.value ≡ value) }
    ensures refused { IfErr result (λ refusal. refusal ≡ NoMemory) }
{
    Box::new(alloc, value).map_err(|_| Refusal::NoMemory)
}

/// Two values, each in a box of its own.
pub(crate) fn boxes<'a, T: Drop, U: Drop>(
    alloc: Global,
    first: T,
    second: U,
) -> Result<(Box<T>, Box<U>), Refusal<'a>>
    ensures first { IfOk result (λ made. made.0.value ≡ first) }
    ensures second { IfOk result (λ made. made.1.value ≡ second) }
    ensures refused { IfErr result (λ refusal. refusal ≡ NoMemory) }
{
    let first = boxed(alloc, first)?;
    let second = boxed(alloc, second)?;
    Ok((first, second))
}

/// Three values, each in a box of its own.
pub(crate) fn three_boxes<'a, T: Drop, U: Drop, V: Drop>(
    alloc: Global,
    first: T,
    second: U,
    third: V,
) -> Result<(Box<T>, Box<U>, Box<V>), Refusal<'a>>
    ensures first { IfOk result (λ made. made.0.value ≡ first) }
    ensures second { IfOk result (λ made. made.1.value ≡ second) }
    ensures third { IfOk result (λ made. made.2.value ≡ third) }
    ensures refused { IfErr result (λ refusal. refusal ≡ NoMemory) }
{
    let (first, second) = boxes(alloc, first, second)?;
    let third = boxed(alloc, third)?;
    Ok((first, second, third))
}

/// Both of what was found, or the refusal of the first that was refused.
pub(crate) fn pair<'a, T: Drop, U: Drop>(
    first: Result<T, Refusal<'a>>,
    second: Result<U, Refusal<'a>>,
) -> Result<(T, U), Refusal<'a>>
    ensures found { IfOk result (λ made. (first.entry ≡ Ok made.0) × (second.entry ≡ Ok made.1)) }
    ensures refused { IfErr result (λ refusal. MatchResult first.entry (λ _. second.entry ≡ Err refusal) (λ e. e ≡ refusal)) }
{
    let first = first?;
    let second = second?;
    Ok((first, second))
}

/// All three of what was found, or the refusal of the first that was refused.
pub(crate) fn three<'a, T: Drop, U: Drop, V: Drop>(
    first: Result<T, Refusal<'a>>,
    second: Result<U, Refusal<'a>>,
    third: Result<V, Refusal<'a>>,
) -> Result<(T, U, V), Refusal<'a>>
    ensures found { IfOk result (λ made. (first.entry ≡ Ok made.0) × ((second.entry ≡ Ok made.1) × (third.entry ≡ Ok made.2))) }
    ensures refused { IfErr result (λ refusal. MatchResult first.entry (λ _. MatchResult second.entry (λ _. third.entry ≡ Err refusal) (λ e. e ≡ refusal)) (λ e. e ≡ refusal)) }
{
    let (first, second) = pair(first, second)?;
    let third = third?;
    Ok((first, second, third))
}

/// The kind of what was found, none of what was refused.
pub(crate) fn kind_found(found: &Result<Typed, Refusal<'_>>) -> Option<Kind>
    ensures { IfOk found.now (λ t. result ≡ t.kind) }
{
    match found {
        Ok(typed) => typed.kind,
        Err(_) => None,
    }
}

/// Both of what was found, each in a box of its own, or the refusal of the first that was refused.
pub(crate) fn both<'a, T: Drop, U: Drop>(
    alloc: Global,
    left: Result<T, Refusal<'a>>,
    right: Result<U, Refusal<'a>>,
) -> Result<(Box<T>, Box<U>), Refusal<'a>>
    ensures found { IfOk result (λ made. (left.entry ≡ Ok made.0.value) × (right.entry ≡ Ok made.1.value)) }
    ensures refused { IfErr result (λ refusal. (refusal ≡ NoMemory) ⊎ MatchResult left.entry (λ _. right.entry ≡ Err refusal) (λ e. e ≡ refusal)) }
{
    let left = left?;
    let right = right?;
    boxes(alloc, left, right)
}
