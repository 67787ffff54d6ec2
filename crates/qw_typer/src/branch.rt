//! One more branch, argument or value before others.
#![tactic(auto, unfolding(crate::specs::Inner::Typing::Refuses))]

ghost use Rattle.std.specs.Prelude.{◌≡◌, ℕ, ◌+◌, IfOk, Ok, Result};
ghost use Rattle.qw_scalar.specs.declared.comparison.Comparison.TheVariants.{Equal};
ghost use Rattle.qw_scalar.specs.Expression.{Choices, Condition, Expression, Expressions, coalesced, comparison, last, more};
ghost use Rattle.qw_scalar.specs.Expression as meaning;
ghost use Rattle.qw_scalar.specs.Tree.{choices_of, condition_of, expression_of, expressions_of, matches_of};
ghost use Rattle.qw_scalar.specs.Typing.{kind_of};
ghost use Rattle.qw_typer.specs.Faults.{Fault};
ghost use Rattle.qw_typer.specs.Inner.Sizes.{Fits, FitsAll, FitsBranches, FitsCondition, FitsMatches};
ghost use Rattle.qw_typer.specs.Inner.Typing.{◌>>=◌ as ◌and_then◌, AreTold, Gives, GivesArguments, GivesChoices, GivesComparison, GivesCondition, GivesMatches, GivesValues, IsTold, all_comparable, comparison_outcome, spelled};

use crate::fault::FaultKind;
use crate::kinds::{agree, are_comparable, joined};
use crate::refusal::{Refusal, Token};
use crate::tree::{Results, Typed, Values, boxed, boxes, pair, three, three_boxes};
use qw_scalar::expression::{Branches, Cond, Exprs, Matches};
use qw_types::Kind;
use std::alloc::Global;

/// The last argument of COALESCE as it was found.
pub(crate) fn argument<'a>(
    alloc: Global,
    x: Result<Typed, Refusal<'a>>,
) -> Result<Results<Exprs>, Refusal<'a>>
    ensures gives { (e : Result Expression Fault) → Gives x.entry e → GivesArguments result (e and_then (λ a. Ok (last a))) }
    ensures fits { (n k : ℕ) → IfOk x.entry (λ t. Fits t.tree n k) → IfOk result (λ made. FitsAll made.tree (1 + n) k) }
{
    let x = x?;
    Ok(Results {
        kind: x.kind,
        agree: true,
        tree: Exprs::Last(boxed(alloc, x.tree)?),
    })
}

/// An argument of COALESCE before others, as they were found.
pub(crate) fn arguments_more<'a>(
    alloc: Global,
    x: Result<Typed, Refusal<'a>>,
    others: Result<Results<Exprs>, Refusal<'a>>,
) -> Result<Results<Exprs>, Refusal<'a>>
    ensures gives { (e : Result Expression Fault) (es : Result Expressions Fault) → Gives x.entry e → GivesArguments others.entry es → GivesArguments result (e and_then (λ a. es and_then (λ bs. Ok (more a bs)))) }
    ensures fits { (n k m j : ℕ) → IfOk x.entry (λ t. Fits t.tree n k) → IfOk others.entry (λ t. FitsAll t.tree m j) → IfOk result (λ made. FitsAll made.tree (1 + (n + m)) (k + j)) }
{
    let (x, others) = pair(x, others)?;
    argument_before(alloc, x, others)
}

/// An argument of COALESCE before others.
fn argument_before<'a>(
    alloc: Global,
    x: Typed,
    others: Results<Exprs>,
) -> Result<Results<Exprs>, Refusal<'a>>
    ensures gives { IsTold x → AreTold others.kind others.agree (coalesced (expressions_of others.tree)) → GivesArguments result (Ok (more (expression_of x.tree) (expressions_of others.tree))) }
    ensures fits { (n k m j : ℕ) → Fits x.tree n k → FitsAll others.tree m j → IfOk result (λ made. FitsAll made.tree (1 + (n + m)) (k + j)) }
{
    let kind = joined(x.kind, others.kind);
    let agree = agree(x.kind, others.kind) && others.agree;
    let (first, rest) = boxes(alloc, x.tree, others.tree)?;
    Ok(Results {
        kind,
        agree,
        tree: Exprs::More(first, rest),
    })
}

/// The last value of IN as it was found, beside an operand of this kind.
pub(crate) fn value<'a>(
    alloc: Global,
    kind: Option<Kind>,
    x: Result<Typed, Refusal<'a>>,
) -> Result<Values, Refusal<'a>>
    ensures gives { (e : Result Expression Fault) → Gives x.entry e → GivesValues kind result (e and_then (λ a. Ok (last a))) }
    ensures fits { (n k : ℕ) → IfOk x.entry (λ t. Fits t.tree n k) → IfOk result (λ made. FitsAll made.tree (1 + n) k) }
{
    let x = x?;
    Ok(Values {
        comparable: are_comparable(kind, x.kind),
        tree: Exprs::Last(boxed(alloc, x.tree)?),
    })
}

/// A value of IN before others, as they were found, beside an operand of this kind.
pub(crate) fn values_more<'a>(
    alloc: Global,
    kind: Option<Kind>,
    x: Result<Typed, Refusal<'a>>,
    others: Result<Values, Refusal<'a>>,
) -> Result<Values, Refusal<'a>>
    ensures gives { (e : Result Expression Fault) (es : Result Expressions Fault) → Gives x.entry e → GivesValues kind others.entry es → GivesValues kind result (e and_then (λ a. es and_then (λ bs. Ok (more a bs)))) }
    ensures fits { (n k m j : ℕ) → IfOk x.entry (λ t. Fits t.tree n k) → IfOk others.entry (λ t. FitsAll t.tree m j) → IfOk result (λ made. FitsAll made.tree (1 + (n + m)) (k + j)) }
{
    let (x, others) = pair(x, others)?;
    value_before(alloc, kind, x, others)
}

/// A value of IN before others, beside an operand of this kind.
fn value_before<'a>(
    alloc: Global,
    kind: Option<Kind>,
    x: Typed,
    others: Values,
) -> Result<Values, Refusal<'a>>
    ensures gives { IsTold x → others.comparable ≡ all_comparable kind (expressions_of others.tree) → GivesValues kind result (Ok (more (expression_of x.tree) (expressions_of others.tree))) }
    ensures fits { (n k m j : ℕ) → Fits x.tree n k → FitsAll others.tree m j → IfOk result (λ made. FitsAll made.tree (1 + (n + m)) (k + j)) }
{
    let comparable = are_comparable(kind, x.kind) && others.comparable;
    let (first, rest) = boxes(alloc, x.tree, others.tree)?;
    Ok(Values {
        comparable,
        tree: Exprs::More(first, rest),
    })
}

/// The result of ELSE as it was found.
pub(crate) fn otherwise<'a>(
    alloc: Global,
    x: Result<Typed, Refusal<'a>>,
) -> Result<Results<Branches>, Refusal<'a>>
    ensures gives { (e : Result Expression Fault) → Gives x.entry e → GivesChoices result (e and_then (λ a. Ok (meaning.otherwise a))) }
    ensures fits { (n k : ℕ) → IfOk x.entry (λ t. Fits t.tree n k) → IfOk result (λ made. FitsBranches made.tree (1 + n) k) }
{
    let x = x?;
    Ok(Results {
        kind: x.kind,
        agree: true,
        tree: Branches::Else(boxed(alloc, x.tree)?),
    })
}

/// A branch before others, as they were found.
pub(crate) fn when<'a>(
    alloc: Global,
    test: Result<Cond, Refusal<'a>>,
    x: Result<Typed, Refusal<'a>>,
    others: Result<Results<Branches>, Refusal<'a>>,
) -> Result<Results<Branches>, Refusal<'a>>
    ensures gives { (c : Result Condition Fault) (e : Result Expression Fault) (rest : Result Choices Fault) → GivesCondition test.entry c → Gives x.entry e → GivesChoices others.entry rest
        → GivesChoices result (c and_then (λ d. e and_then (λ a. rest and_then (λ bs. Ok (meaning.when d a bs))))) }
    ensures fits { (n k m j p i : ℕ) → IfOk test.entry (λ t. FitsCondition t n k) → IfOk x.entry (λ t. Fits t.tree m j) → IfOk others.entry (λ t. FitsBranches t.tree p i)
        → IfOk result (λ made. FitsBranches made.tree (1 + (n + (m + p))) (k + (j + i))) }
{
    let (test, x, others) = three(test, x, others)?;
    branch_before(alloc, test, x, others)
}

/// A branch before others.
fn branch_before<'a>(
    alloc: Global,
    test: Cond,
    x: Typed,
    others: Results<Branches>,
) -> Result<Results<Branches>, Refusal<'a>>
    ensures gives { IsTold x → AreTold others.kind others.agree (choices_of others.tree) → GivesChoices result (Ok (meaning.when (condition_of test) (expression_of x.tree) (choices_of others.tree))) }
    ensures fits { (n k m j p i : ℕ) → FitsCondition test n k → Fits x.tree m j → FitsBranches others.tree p i → IfOk result (λ made. FitsBranches made.tree (1 + (n + (m + p))) (k + (j + i))) }
{
    let kind = joined(x.kind, others.kind);
    let agree = agree(x.kind, others.kind) && others.agree;
    let (test, first, rest) = three_boxes(alloc, test, x.tree, others.tree)?;
    Ok(Results {
        kind,
        agree,
        tree: Branches::When(test, first, rest),
    })
}

/// The value of a WHEN as it was found, if it compares with an operand of this kind; else the refusal names the token.
pub(crate) fn matching<'a>(
    kind: Option<Kind>,
    token: Token<'a>,
    wanted: Result<Typed, Refusal<'a>>,
) -> Result<Typed, Refusal<'a>>
    ensures gives { (x : Expression) (w : Result Expression Fault) → kind ≡ kind_of x → Gives wanted.entry w → GivesComparison x result (w and_then (λ v. comparison_outcome (spelled token.entry) Equal x v)) }
    ensures fits { (n k : ℕ) → IfOk wanted.entry (λ t. Fits t.tree n k) → IfOk result (λ t. Fits t.tree n k) }
{
    let wanted = wanted?;
    if !are_comparable(kind, wanted.kind) {
        return Err(Refusal::Fault(FaultKind::Clash, token));
    }
    Ok(wanted)
}

/// The last branch of a CASE with an operand, and its ELSE, as they were found.
pub(crate) fn last_match<'a>(
    alloc: Global,
    wanted: Result<Typed, Refusal<'a>>,
    x: Result<Typed, Refusal<'a>>,
    other: Result<Typed, Refusal<'a>>,
) -> Result<Results<Matches>, Refusal<'a>>
    ensures gives { (e : Expression) (w : Result Condition Fault) (a b : Result Expression Fault) → GivesComparison e wanted.entry w → Gives x.entry a → Gives other.entry b
        → GivesMatches e result (w and_then (λ c. a and_then (λ y. (b and_then (λ z. Ok (meaning.otherwise z))) and_then (λ rest. Ok (meaning.when c y rest))))) }
    ensures fits { (n k m j p i : ℕ) → IfOk wanted.entry (λ t. Fits t.tree n k) → IfOk x.entry (λ t. Fits t.tree m j) → IfOk other.entry (λ t. Fits t.tree p i)
        → IfOk result (λ made. FitsMatches made.tree (1 + (n + (m + (1 + p)))) (k + (j + i))) }
{
    let (wanted, x, other) = three(wanted, x, other)?;
    only_match(alloc, wanted, x, other)
}

/// The last branch of a CASE with an operand, and its ELSE.
fn only_match<'a>(
    alloc: Global,
    wanted: Typed,
    x: Typed,
    other: Typed,
) -> Result<Results<Matches>, Refusal<'a>>
    ensures gives { (e : Expression) → IsTold x → IsTold other → GivesMatches e result (Ok (meaning.when (comparison Equal e (expression_of wanted.tree)) (expression_of x.tree) (meaning.otherwise (expression_of other.tree)))) }
    ensures fits { (n k m j p i : ℕ) → Fits wanted.tree n k → Fits x.tree m j → Fits other.tree p i → IfOk result (λ made. FitsMatches made.tree (1 + (n + (m + (1 + p)))) (k + (j + i))) }
{
    let kind = joined(x.kind, other.kind);
    let agree = agree(x.kind, other.kind);
    let (wanted, first, last) = three_boxes(alloc, wanted.tree, x.tree, other.tree)?;
    Ok(Results {
        kind,
        agree,
        tree: Matches::Last(wanted, first, last),
    })
}

/// A branch of a CASE with an operand before others, as they were found.
pub(crate) fn match_more<'a>(
    alloc: Global,
    wanted: Result<Typed, Refusal<'a>>,
    x: Result<Typed, Refusal<'a>>,
    others: Result<Results<Matches>, Refusal<'a>>,
) -> Result<Results<Matches>, Refusal<'a>>
    ensures gives { (e : Expression) (w : Result Condition Fault) (a : Result Expression Fault) (rest : Result Choices Fault) → GivesComparison e wanted.entry w → Gives x.entry a → GivesMatches e others.entry rest
        → GivesMatches e result (w and_then (λ c. a and_then (λ y. rest and_then (λ bs. Ok (meaning.when c y bs))))) }
    ensures fits { (n k m j p i : ℕ) → IfOk wanted.entry (λ t. Fits t.tree n k) → IfOk x.entry (λ t. Fits t.tree m j) → IfOk others.entry (λ t. FitsMatches t.tree p i)
        → IfOk result (λ made. FitsMatches made.tree (1 + (n + (m + p))) (k + (j + i))) }
{
    let (wanted, x, others) = three(wanted, x, others)?;
    match_before(alloc, wanted, x, others)
}

/// A branch of a CASE with an operand before others.
fn match_before<'a>(
    alloc: Global,
    wanted: Typed,
    x: Typed,
    others: Results<Matches>,
) -> Result<Results<Matches>, Refusal<'a>>
    ensures gives { (e : Expression) → IsTold x → AreTold others.kind others.agree (matches_of others.tree e)
        → GivesMatches e result (Ok (meaning.when (comparison Equal e (expression_of wanted.tree)) (expression_of x.tree) (matches_of others.tree e))) }
    ensures fits { (n k m j p i : ℕ) → Fits wanted.tree n k → Fits x.tree m j → FitsMatches others.tree p i → IfOk result (λ made. FitsMatches made.tree (1 + (n + (m + p))) (k + (j + i))) }
{
    let kind = joined(x.kind, others.kind);
    let agree = agree(x.kind, others.kind) && others.agree;
    let (wanted, first, rest) = three_boxes(alloc, wanted.tree, x.tree, others.tree)?;
    Ok(Results {
        kind,
        agree,
        tree: Matches::When(wanted, first, rest),
    })
}
