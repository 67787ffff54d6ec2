//! One construct over typed operands: whether their kinds go with it, and its tree.
#![tactic(auto, using(crate::proofs::CaseLemmas::told_case), unfolding(crate::specs::Inner::Typing::Refuses))]

ghost use Rattle.std.specs.Prelude.{◌≡◌, ℕ, ◌+◌, IfOk, MatchResult, Ok, Result};
ghost use Rattle.qw_ast.specs.SyntaxTree as syntax;
ghost use Rattle.qw_scalar.specs.Expression.{Choices, Condition, Expression, Expressions, both, coalesced, either, is, last, negation_of, predicate as predicate_of, unless_among};
ghost use Rattle.qw_scalar.specs.Tree.{choices_of, condition_of, expression_of, expressions_of, matches_of};
ghost use Rattle.qw_scalar.specs.Typing.{kind_of};
ghost use Rattle.qw_typer.specs.Faults.{Fault, first_of_all, first_of_branches, first_token};
ghost use Rattle.qw_typer.specs.Inner.Sizes.{Fits, FitsAll, FitsBranches, FitsCondition, FitsMatches};
ghost use Rattle.qw_typer.specs.Inner.Typing.{◌>>=◌ as ◌and_then◌, AreTold, Gives, GivesArguments, GivesChoices, GivesCondition, GivesMatches, GivesValues, IsTold, all_comparable, among_outcome, arithmetic_outcome, between_outcome, case_outcome, comparison_outcome, field_outcome, sign_outcome, unless_outcome};
ghost use Rattle.qw_typer.specs.Meant.{with_not};
ghost use Rattle.qw_typer.specs.declared.refusal.Refusal.TheVariants.{NoMemory};

use crate::fault::FaultKind;
use crate::kinds::{are_comparable, is_date, is_number, scale};
use crate::refusal::{Refusal, first_of_all, first_of_branches, first_token};
use crate::tree::{Results, Typed, Values, both, boxed, boxes, pair, three, three_boxes};
use qw_ast::script::{Branches, Expr, Exprs, Sign};
use qw_scalar::comparison::Comparison;
use qw_scalar::expression as meaning;
use qw_scalar::expression::{Field, Function, Operator, Predicate};
use qw_types::{Kind, Truth};
use std::alloc::Global;

/// The most digits behind the point of a result.
const MAX_SCALE: u16 = 18;

/// An operand as it was found behind a sign.
pub(crate) fn signed<'a>(
    alloc: Global,
    sign: Sign,
    operand: Result<Typed, Refusal<'a>>,
    at: &Expr<'a>,
) -> Result<Typed, Refusal<'a>>
    ensures gives { (x : Result Expression Fault) → Gives operand.entry x → Gives result (x and_then (λ e. sign_outcome (first_token (syntax.expression_of at.now)) sign e)) }
    ensures fits { (n k : ℕ) → IfOk operand.entry (λ x. Fits x.tree n k) → IfOk result (λ made. Fits made.tree (1 + n) k) }
{
    let operand = operand?;
    if !is_number(operand.kind) {
        return Err(Refusal::Fault(FaultKind::Clash, first_token(at)));
    }
    match sign {
        Sign::Plus => Ok(operand),
        Sign::Minus => Ok(Typed {
            kind: Some(Kind::Number(scale(operand.kind))),
            tree: meaning::Expr::Negative(boxed(alloc, operand.tree)?),
        }),
    }
}

/// Two operands of an arithmetic operator as they were found.
pub(crate) fn arithmetic<'a>(
    alloc: Global,
    operator: Operator,
    left: Result<Typed, Refusal<'a>>,
    right: Result<Typed, Refusal<'a>>,
    at: &Expr<'a>,
) -> Result<Typed, Refusal<'a>>
    ensures gives { (x y : Result Expression Fault) → Gives left.entry x → Gives right.entry y → Gives result (x and_then (λ a. y and_then (λ b. arithmetic_outcome (first_token (syntax.expression_of at.now)) operator a b))) }
    ensures fits { (n k m j : ℕ) → IfOk left.entry (λ x. Fits x.tree n k) → IfOk right.entry (λ y. Fits y.tree m j) → IfOk result (λ made. Fits made.tree (1 + (n + m)) (k + j)) }
{
    let (left, right) = pair(left, right)?;
    calculated(alloc, operator, left, right, at)
}

/// Two operands of an arithmetic operator.
fn calculated<'a>(
    alloc: Global,
    operator: Operator,
    left: Typed,
    right: Typed,
    at: &Expr<'a>,
) -> Result<Typed, Refusal<'a>>
    ensures gives { IsTold left → IsTold right → Gives result (arithmetic_outcome (first_token (syntax.expression_of at.now)) operator (expression_of left.tree) (expression_of right.tree)) }
    ensures fits { (n k m j : ℕ) → Fits left.tree n k → Fits right.tree m j → IfOk result (λ made. Fits made.tree (1 + (n + m)) (k + j)) }
{
    if !is_number(left.kind) || !is_number(right.kind) {
        return Err(Refusal::Fault(FaultKind::Clash, first_token(at)));
    }
    let Some(scale) = scale_after(operator, scale(left.kind), scale(right.kind)) else {
        return Err(Refusal::Fault(FaultKind::ScaleTooLarge, first_token(at)));
    };
    let (left, right) = boxes(alloc, left.tree, right.tree)?;
    Ok(Typed {
        kind: Some(Kind::Number(scale)),
        tree: meaning::Expr::Arithmetic(operator, left, right),
    })
}

/// The scale of what an operator gives, if it isn't too large.
fn scale_after(operator: Operator, left: u8, right: u8) -> Option<u8>
    ensures { result ≡ Rattle.qw_typer.specs.Inner.Typing.allowed_scale operator left right }
{
    match operator {
        Operator::Add | Operator::Subtract => Some(left.max(right)),
        Operator::Multiply if u16::from(left) + u16::from(right) <= MAX_SCALE => Some(left + right),
        Operator::Divide if u16::from(left) + u16::from(right) <= MAX_SCALE => Some(left),
        Operator::Multiply | Operator::Divide => None,
    }
}

/// A field of an operand as it was found.
pub(crate) fn extracted<'a>(
    alloc: Global,
    field: Field,
    operand: Result<Typed, Refusal<'a>>,
    at: &Expr<'a>,
) -> Result<Typed, Refusal<'a>>
    ensures gives { (x : Result Expression Fault) → Gives operand.entry x → Gives result (x and_then (λ e. field_outcome (first_token (syntax.expression_of at.now)) field e)) }
    ensures fits { (n k : ℕ) → IfOk operand.entry (λ x. Fits x.tree n k) → IfOk result (λ made. Fits made.tree (1 + n) k) }
{
    let operand = operand?;
    if !is_date(operand.kind) {
        return Err(Refusal::Fault(FaultKind::Clash, first_token(at)));
    }
    Ok(Typed {
        kind: Some(Kind::Number(0)),
        tree: meaning::Expr::Extract(field, boxed(alloc, operand.tree)?),
    })
}

/// A CASE without an operand, of branches as they were found.
pub(crate) fn searched_case<'a>(
    alloc: Global,
    results: Result<Results<meaning::Branches>, Refusal<'a>>,
    at: &Branches<'a>,
) -> Result<Typed, Refusal<'a>>
    ensures gives { (cs : Result Choices Fault) → GivesChoices results.entry cs → Gives result (cs and_then (λ cs. case_outcome (first_of_branches (syntax.branching_of at.now)) cs)) }
    ensures fits { (n k : ℕ) → IfOk results.entry (λ made. FitsBranches made.tree n k) → IfOk result (λ made. Fits made.tree (1 + n) k) }
{
    let results = results?;
    if !results.agree || results.kind.is_none() {
        return Err(Refusal::Fault(FaultKind::Clash, first_of_branches(at)));
    }
    Ok(Typed {
        kind: results.kind,
        tree: meaning::Expr::Case(boxed(alloc, results.tree)?),
    })
}

/// A CASE with an operand, of an operand and branches as they were found.
pub(crate) fn simple_case<'a>(
    alloc: Global,
    operand: Result<Typed, Refusal<'a>>,
    results: Result<Results<meaning::Matches>, Refusal<'a>>,
    at: &Expr<'a>,
) -> Result<Typed, Refusal<'a>>
    ensures gives { (x : Result Expression Fault) (cs : Expression → Result Choices Fault) → Gives operand.entry x → IfOk operand.entry (λ t. GivesMatches (expression_of t.tree) results.entry (cs (expression_of t.tree)))
        → Gives result (x and_then (λ a. cs a and_then (λ made. case_outcome (first_token (syntax.expression_of at.now)) made))) }
    ensures fits { (n k m j : ℕ) → IfOk operand.entry (λ x. Fits x.tree n k) → IfOk results.entry (λ made. FitsMatches made.tree m j) → IfOk result (λ made. Fits made.tree (1 + (n + m)) (k + j)) }
{
    let (operand, results) = pair(operand, results)?;
    matched(alloc, operand, results, at)
}

/// A CASE with an operand.
fn matched<'a>(
    alloc: Global,
    operand: Typed,
    results: Results<meaning::Matches>,
    at: &Expr<'a>,
) -> Result<Typed, Refusal<'a>>
    ensures gives { AreTold results.kind results.agree (matches_of results.tree (expression_of operand.tree)) → Gives result (case_outcome (first_token (syntax.expression_of at.now)) (matches_of results.tree (expression_of operand.tree))) }
    ensures fits { (n k m j : ℕ) → Fits operand.tree n k → FitsMatches results.tree m j → IfOk result (λ made. Fits made.tree (1 + (n + m)) (k + j)) }
{
    if !results.agree || results.kind.is_none() {
        return Err(Refusal::Fault(FaultKind::Clash, first_token(at)));
    }
    let (operand, branches) = boxes(alloc, operand.tree, results.tree)?;
    Ok(Typed {
        kind: results.kind,
        tree: meaning::Expr::Match(operand, branches),
    })
}

/// The arguments of COALESCE as they were found.
pub(crate) fn coalesced<'a>(
    alloc: Global,
    results: Result<Results<meaning::Exprs>, Refusal<'a>>,
    at: &Exprs<'a>,
) -> Result<Typed, Refusal<'a>>
    ensures gives { (xs : Result Expressions Fault) → GivesArguments results.entry xs → Gives result (xs and_then (λ xs. case_outcome (first_of_all (syntax.expressions_of at.now)) (coalesced xs))) }
    ensures fits { (n k : ℕ) → IfOk results.entry (λ made. FitsAll made.tree n k) → IfOk result (λ made. Fits made.tree (1 + n) k) }
{
    let results = results?;
    if !results.agree || results.kind.is_none() {
        return Err(Refusal::Fault(FaultKind::Clash, first_of_all(at)));
    }
    Ok(Typed {
        kind: results.kind,
        tree: meaning::Expr::Call(Function::Coalesce, boxed(alloc, results.tree)?),
    })
}

/// The only argument of NULLIF as it was found.
pub(crate) fn unless_none<'a>(
    alloc: Global,
    operand: Result<Typed, Refusal<'a>>,
) -> Result<Typed, Refusal<'a>>
    ensures gives { (x : Result Expression Fault) → Gives operand.entry x → Gives result (x and_then (λ e. Ok (unless_among (last e)))) }
    ensures fits { (n k : ℕ) → IfOk operand.entry (λ x. Fits x.tree n k) → IfOk result (λ made. Fits made.tree (1 + (1 + n)) k) }
{
    let operand = operand?;
    let argument = boxed(alloc, operand.tree)?;
    let arguments = boxed(alloc, meaning::Exprs::Last(argument))?;
    Ok(Typed {
        kind: operand.kind,
        tree: meaning::Expr::Call(Function::NullIf, arguments),
    })
}

/// The arguments of NULLIF as they were found, where it is known whether the others compare with the first.
pub(crate) fn unless_found<'a>(
    alloc: Global,
    first: Result<Typed, Refusal<'a>>,
    others: Result<Values, Refusal<'a>>,
    at: &Expr<'a>,
) -> Result<Typed, Refusal<'a>>
    ensures gives { (x : Result Expression Fault) (vs : Result Expressions Fault) → Gives first.entry x → IfOk first.entry (λ t. GivesValues t.kind others.entry vs)
        → Gives result (x and_then (λ a. vs and_then (λ bs. unless_outcome (first_token (syntax.expression_of at.now)) a bs))) }
    ensures fits { (n k m j : ℕ) → IfOk first.entry (λ x. Fits x.tree n k) → IfOk others.entry (λ made. FitsAll made.tree m j) → IfOk result (λ made. Fits made.tree (1 + (1 + (n + m))) (k + j)) }
{
    let (first, others) = pair(first, others)?;
    unless_equal(alloc, first, others.tree, others.comparable, at)
}

/// The arguments of NULLIF, where it is known whether the others compare with the first.
fn unless_equal<'a>(
    alloc: Global,
    first: Typed,
    others: meaning::Exprs,
    comparable: bool,
    at: &Expr<'a>,
) -> Result<Typed, Refusal<'a>>
    ensures gives { IsTold first → comparable ≡ all_comparable (kind_of (expression_of first.tree)) (expressions_of others) → Gives result (unless_outcome (first_token (syntax.expression_of at.now)) (expression_of first.tree) (expressions_of others)) }
    ensures fits { (n k m j : ℕ) → Fits first.tree n k → FitsAll others m j → IfOk result (λ made. Fits made.tree (1 + (1 + (n + m))) (k + j)) }
{
    if !comparable {
        return Err(Refusal::Fault(FaultKind::Clash, first_token(at)));
    }
    let kind = first.kind;
    let (first, others) = boxes(alloc, first.tree, others)?;
    let arguments = boxed(alloc, meaning::Exprs::More(first, others))?;
    Ok(Typed {
        kind,
        tree: meaning::Expr::Call(Function::NullIf, arguments),
    })
}

/// Two operands of a comparison as they were found.
pub(crate) fn compared<'a>(
    alloc: Global,
    comparison: Comparison,
    left: Result<Typed, Refusal<'a>>,
    right: Result<Typed, Refusal<'a>>,
    at: &Expr<'a>,
) -> Result<meaning::Cond, Refusal<'a>>
    ensures gives { (x y : Result Expression Fault) → Gives left.entry x → Gives right.entry y → GivesCondition result (x and_then (λ a. y and_then (λ b. comparison_outcome (first_token (syntax.expression_of at.now)) comparison a b))) }
    ensures fits { (n k m j : ℕ) → IfOk left.entry (λ x. Fits x.tree n k) → IfOk right.entry (λ y. Fits y.tree m j) → IfOk result (λ made. FitsCondition made (1 + (n + m)) (k + j)) }
{
    let (left, right) = pair(left, right)?;
    comparison_of(alloc, comparison, left, right, at)
}

/// Two operands of a comparison.
fn comparison_of<'a>(
    alloc: Global,
    comparison: Comparison,
    left: Typed,
    right: Typed,
    at: &Expr<'a>,
) -> Result<meaning::Cond, Refusal<'a>>
    ensures gives { IsTold left → IsTold right → GivesCondition result (comparison_outcome (first_token (syntax.expression_of at.now)) comparison (expression_of left.tree) (expression_of right.tree)) }
    ensures fits { (n k m j : ℕ) → Fits left.tree n k → Fits right.tree m j → IfOk result (λ made. FitsCondition made (1 + (n + m)) (k + j)) }
{
    if !are_comparable(left.kind, right.kind) {
        return Err(Refusal::Fault(FaultKind::Clash, first_token(at)));
    }
    let (left, right) = boxes(alloc, left.tree, right.tree)?;
    Ok(meaning::Cond::Compare(comparison, left, right))
}

/// The operands of BETWEEN as they were found.
pub(crate) fn between<'a>(
    alloc: Global,
    negated: bool,
    operand: Result<Typed, Refusal<'a>>,
    least: Result<Typed, Refusal<'a>>,
    greatest: Result<Typed, Refusal<'a>>,
    at: &Expr<'a>,
) -> Result<meaning::Cond, Refusal<'a>>
    ensures gives { (x y z : Result Expression Fault) → Gives operand.entry x → Gives least.entry y → Gives greatest.entry z
        → GivesCondition result (x and_then (λ a. y and_then (λ b. z and_then (λ c. between_outcome (first_token (syntax.expression_of at.now)) negated a b c)))) }
    ensures fits { (n k m j p i : ℕ) → IfOk operand.entry (λ x. Fits x.tree n k) → IfOk least.entry (λ y. Fits y.tree m j) → IfOk greatest.entry (λ z. Fits z.tree p i)
        → IfOk result (λ made. FitsCondition made (2 + (n + (m + p))) (k + (j + i))) }
{
    let (operand, least, greatest) = three(operand, least, greatest)?;
    within(alloc, negated, operand, least, greatest, at)
}

/// The operands of BETWEEN.
fn within<'a>(
    alloc: Global,
    negated: bool,
    operand: Typed,
    least: Typed,
    greatest: Typed,
    at: &Expr<'a>,
) -> Result<meaning::Cond, Refusal<'a>>
    ensures gives { IsTold operand → IsTold least → IsTold greatest → GivesCondition result (between_outcome (first_token (syntax.expression_of at.now)) negated (expression_of operand.tree) (expression_of least.tree) (expression_of greatest.tree)) }
    ensures fits { (n k m j p i : ℕ) → Fits operand.tree n k → Fits least.tree m j → Fits greatest.tree p i → IfOk result (λ made. FitsCondition made (2 + (n + (m + p))) (k + (j + i))) }
{
    if !are_comparable(operand.kind, least.kind) || !are_comparable(operand.kind, greatest.kind) {
        return Err(Refusal::Fault(FaultKind::Clash, first_token(at)));
    }
    let (operand, least, greatest) = three_boxes(alloc, operand.tree, least.tree, greatest.tree)?;
    with_not(
        alloc,
        negated,
        meaning::Cond::Between(operand, least, greatest),
    )
}

/// The operands of IN as they were found, where it is known whether the values compare with the first.
pub(crate) fn among<'a>(
    alloc: Global,
    negated: bool,
    operand: Result<Typed, Refusal<'a>>,
    values: Result<Values, Refusal<'a>>,
    at: &Expr<'a>,
) -> Result<meaning::Cond, Refusal<'a>>
    ensures gives { (x : Result Expression Fault) (vs : Result Expressions Fault) → Gives operand.entry x → IfOk operand.entry (λ t. GivesValues t.kind values.entry vs)
        → GivesCondition result (x and_then (λ a. vs and_then (λ bs. among_outcome (first_token (syntax.expression_of at.now)) negated a bs))) }
    ensures fits { (n k m j : ℕ) → IfOk operand.entry (λ x. Fits x.tree n k) → IfOk values.entry (λ made. FitsAll made.tree m j) → IfOk result (λ made. FitsCondition made (2 + (n + m)) (k + j)) }
{
    let (operand, values) = pair(operand, values)?;
    one_of(alloc, negated, operand, values.tree, values.comparable, at)
}

/// The operands of IN, where it is known whether the values compare with the first.
fn one_of<'a>(
    alloc: Global,
    negated: bool,
    operand: Typed,
    values: meaning::Exprs,
    comparable: bool,
    at: &Expr<'a>,
) -> Result<meaning::Cond, Refusal<'a>>
    ensures gives { comparable ≡ all_comparable (kind_of (expression_of operand.tree)) (expressions_of values) → GivesCondition result (among_outcome (first_token (syntax.expression_of at.now)) negated (expression_of operand.tree) (expressions_of values)) }
    ensures fits { (n k m j : ℕ) → Fits operand.tree n k → FitsAll values m j → IfOk result (λ made. FitsCondition made (2 + (n + m)) (k + j)) }
{
    if !comparable {
        return Err(Refusal::Fault(FaultKind::Clash, first_token(at)));
    }
    let (operand, values) = boxes(alloc, operand.tree, values)?;
    with_not(alloc, negated, meaning::Cond::In(operand, values))
}

/// A predicate of an operand as it was found.
pub(crate) fn value_test<'a>(
    alloc: Global,
    predicate: Predicate,
    negated: bool,
    operand: Result<Typed, Refusal<'a>>,
) -> Result<meaning::Cond, Refusal<'a>>
    ensures gives { (x : Result Expression Fault) → Gives operand.entry x → GivesCondition result (x and_then (λ e. Ok (with_not negated (predicate_of predicate e)))) }
    ensures fits { (n k : ℕ) → IfOk operand.entry (λ x. Fits x.tree n k) → IfOk result (λ made. FitsCondition made (2 + n) k) }
{
    let operand = operand?;
    let operand = boxed(alloc, operand.tree)?;
    with_not(alloc, negated, meaning::Cond::Predicate(predicate, operand))
}

/// AND of two operands as they were found.
pub(crate) fn conjunction<'a>(
    alloc: Global,
    left: Result<meaning::Cond, Refusal<'a>>,
    right: Result<meaning::Cond, Refusal<'a>>,
) -> Result<meaning::Cond, Refusal<'a>>
    ensures gives { (x y : Result Condition Fault) → GivesCondition left.entry x → GivesCondition right.entry y → GivesCondition result (x and_then (λ c. y and_then (λ d. Ok (both c d)))) }
    ensures fits { (n k m j : ℕ) → IfOk left.entry (λ x. FitsCondition x n k) → IfOk right.entry (λ y. FitsCondition y m j) → IfOk result (λ made. FitsCondition made (1 + (n + m)) (k + j)) }
{
    let (left, right) = both(alloc, left, right)?;
    Ok(meaning::Cond::And(left, right))
}

/// OR of two operands as they were found.
pub(crate) fn disjunction<'a>(
    alloc: Global,
    left: Result<meaning::Cond, Refusal<'a>>,
    right: Result<meaning::Cond, Refusal<'a>>,
) -> Result<meaning::Cond, Refusal<'a>>
    ensures gives { (x y : Result Condition Fault) → GivesCondition left.entry x → GivesCondition right.entry y → GivesCondition result (x and_then (λ c. y and_then (λ d. Ok (either c d)))) }
    ensures fits { (n k m j : ℕ) → IfOk left.entry (λ x. FitsCondition x n k) → IfOk right.entry (λ y. FitsCondition y m j) → IfOk result (λ made. FitsCondition made (1 + (n + m)) (k + j)) }
{
    let (left, right) = both(alloc, left, right)?;
    Ok(meaning::Cond::Or(left, right))
}

/// NOT before an operand as it was found.
pub(crate) fn negation<'a>(
    alloc: Global,
    operand: Result<meaning::Cond, Refusal<'a>>,
) -> Result<meaning::Cond, Refusal<'a>>
    ensures gives { (x : Result Condition Fault) → GivesCondition operand.entry x → GivesCondition result (x and_then (λ c. Ok (negation_of c))) }
    ensures fits { (n k : ℕ) → IfOk operand.entry (λ x. FitsCondition x n k) → IfOk result (λ made. FitsCondition made (1 + n) k) }
{
    let operand = operand?;
    Ok(meaning::Cond::Not(boxed(alloc, operand)?))
}

/// A test for a truth value of an operand as it was found.
pub(crate) fn truth_test<'a>(
    alloc: Global,
    negated: bool,
    operand: Result<meaning::Cond, Refusal<'a>>,
    truth: Truth,
) -> Result<meaning::Cond, Refusal<'a>>
    ensures gives { (x : Result Condition Fault) → GivesCondition operand.entry x → GivesCondition result (x and_then (λ c. Ok (with_not negated (is c truth)))) }
    ensures fits { (n k : ℕ) → IfOk operand.entry (λ x. FitsCondition x n k) → IfOk result (λ made. FitsCondition made (2 + n) k) }
{
    let operand = operand?;
    let operand = boxed(alloc, operand)?;
    with_not(alloc, negated, meaning::Cond::Is(operand, truth))
}

/// A predicate, or its negation where NOT stands in it.
fn with_not<'a>(
    alloc: Global,
    negated: bool,
    cond: meaning::Cond,
) -> Result<meaning::Cond, Refusal<'a>>
    ensures gives { MatchResult result (λ made. condition_of made ≡ with_not negated (condition_of cond)) (λ refusal. refusal ≡ NoMemory) }
    ensures fits { (n k : ℕ) → FitsCondition cond n k → IfOk result (λ made. FitsCondition made (1 + n) k) }
{
    if negated {
        Ok(meaning::Cond::Not(boxed(alloc, cond)?))
    } else {
        Ok(cond)
    }
}
