//! Trees from their parts, each in a box of its own.

ghost use Rattle.std.specs.Prelude.{◌≡◌, ◌+◌, ◌++◌, ℕ, IfOk};
ghost use Rattle.qw_scalar.specs.declared.comparison.Comparison.TheVariants.{Equal};
ghost use Rattle.qw_scalar.specs.Expression.{Expression, among, arithmetic, between, both, called, case, comparison, either, extract, is, largest_result, last, more, negation_of, negative, otherwise, predicate, scale_of, when};
ghost use Rattle.qw_scalar.specs.Nodes.{nodes, nodes_of, nodes_of_all, nodes_of_branches, nodes_of_matches};
ghost use Rattle.qw_scalar.specs.Tree.{choices_of, condition_of, expression_of, expressions_of, matches_of};
ghost use Rattle.qw_fold.specs.Folded.{AllFolded, AreAtOneScale, AreFolded, AreOperands, BranchesFolded, IsAtScale, IsFolded, IsLeft, IsNoDate, IsNoNumber, MatchesFolded};
ghost use Rattle.qw_scalar.specs.Texts.{texts_in, texts_of_all, texts_of_branches, texts_of_matches, texts_within};
ghost use Rattle.qw_fold.specs.Inner.Made.{AllBuilt, AreBuilt, ChoicesBuilt, IsBuilt, MatchesBuilt};

use qw_scalar::comparison::Comparison;
use qw_scalar::expression::{
    Branches, Cond, Expr, Exprs, Field, Function, Matches, Operator, Predicate,
};
use qw_types::{NoMemory, Truth};
use std::alloc::Global;

/// Two parts, each in a box of its own.
fn two_boxes<T: Drop, U: Drop>(
    alloc: Global,
    first: T,
    second: U,
) -> Result<(Box<T>, Box<U>), NoMemory>
    ensures { IfOk result (λ made. (made.0.value ≡ first) × (made.1.value ≡ second)) }
{
    Ok((Box::new(alloc, first)?, Box::new(alloc, second)?))
}

/// Three parts, each in a box of its own.
fn three_boxes<T: Drop, U: Drop, V: Drop>(
    alloc: Global,
    first: T,
    second: U,
    third: V,
) -> Result<(Box<T>, Box<U>, Box<V>), NoMemory>
    ensures { IfOk result (λ made. (made.0.value ≡ first) × (made.1.value ≡ second) × (made.2.value ≡ third)) }
{
    let (first, second) = two_boxes(alloc, first, second)?;
    Ok((first, second, Box::new(alloc, third)?))
}

/// `left operator right`.
pub(crate) fn arithmetic_tree(
    alloc: Global,
    operator: Operator,
    left: Expr,
    right: Expr,
) -> Result<Expr, NoMemory>
    ensures built { IfOk result (λ made. IsBuilt (arithmetic operator (expression_of left) (expression_of right)) (1 + nodes left + nodes right) (texts_in left ++ texts_in right) made) }
    ensures folded { IfOk result (λ made. IsFolded left × IsFolded right → IsLeft operator left right × AreOperands operator left right → IsFolded made) }
{
    let (left, right) = two_boxes(alloc, left, right)?;
    Ok(Expr::Arithmetic(operator, left, right))
}

/// `- operand`.
pub(crate) fn negative_tree(alloc: Global, operand: Expr) -> Result<Expr, NoMemory>
    ensures built { IfOk result (λ made. IsBuilt (negative (expression_of operand)) (1 + nodes operand) (texts_in operand) made) }
    ensures folded { IfOk result (λ made. IsFolded operand → IsNoNumber operand → IsFolded made) }
{
    Ok(Expr::Negative(Box::new(alloc, operand)?))
}

/// `EXTRACT(field FROM operand)`.
pub(crate) fn extract_tree(alloc: Global, field: Field, operand: Expr) -> Result<Expr, NoMemory>
    ensures built { IfOk result (λ made. IsBuilt (extract field (expression_of operand)) (1 + nodes operand) (texts_in operand) made) }
    ensures folded { IfOk result (λ made. IsFolded operand → IsNoDate operand → IsFolded made) }
{
    Ok(Expr::Extract(field, Box::new(alloc, operand)?))
}

/// `CASE branches END`.
pub(crate) fn case_tree(alloc: Global, branches: Branches) -> Result<Expr, NoMemory>
    ensures built { IfOk result (λ made. IsBuilt (case (choices_of branches)) (1 + nodes_of_branches branches) (texts_of_branches branches) made) }
    ensures folded { IfOk result (λ made. BranchesFolded (largest_result (choices_of branches)) branches → IsFolded made) }
{
    Ok(Expr::Case(Box::new(alloc, branches)?))
}

/// `CASE operand matches END`.
pub(crate) fn match_tree(alloc: Global, operand: Expr, matches: Matches) -> Result<Expr, NoMemory>
    ensures built { IfOk result (λ made. IsBuilt (case (matches_of matches (expression_of operand))) (1 + nodes operand + nodes_of_matches matches) (texts_in operand ++ texts_of_matches matches) made) }
    ensures folded { IfOk result (λ made. IsFolded operand → MatchesFolded (scale_of (expression_of operand)) (largest_result (matches_of matches (expression_of operand))) matches → IsFolded made) }
{
    let (operand, matches) = two_boxes(alloc, operand, matches)?;
    Ok(Expr::Match(operand, matches))
}

/// `function(arguments)`.
pub(crate) fn call_tree(
    alloc: Global,
    function: Function,
    arguments: Exprs,
) -> Result<Expr, NoMemory>
    ensures built { IfOk result (λ made. IsBuilt (called function (expressions_of arguments)) (1 + nodes_of_all arguments) (texts_of_all arguments) made) }
    ensures folded { IfOk result (λ made. AllFolded (scale_of (called function (expressions_of arguments))) arguments → IsFolded made) }
{
    Ok(Expr::Call(function, Box::new(alloc, arguments)?))
}

/// `left op right`.
pub(crate) fn compare_tree(
    alloc: Global,
    op: Comparison,
    left: Expr,
    right: Expr,
) -> Result<Cond, NoMemory>
    ensures built { IfOk result (λ made. AreBuilt (comparison op (expression_of left) (expression_of right)) (1 + nodes left + nodes right) (texts_in left ++ texts_in right) made) }
    ensures folded { IfOk result (λ made. IsFolded left × IsFolded right → AreAtOneScale left right → AreFolded made) }
{
    let (left, right) = two_boxes(alloc, left, right)?;
    Ok(Cond::Compare(op, left, right))
}

/// `operand BETWEEN least AND greatest`.
pub(crate) fn between_tree(
    alloc: Global,
    operand: Expr,
    least: Expr,
    greatest: Expr,
) -> Result<Cond, NoMemory>
    ensures built { IfOk result (λ made. AreBuilt (between (expression_of operand) (expression_of least) (expression_of greatest)) (1 + nodes operand + nodes least + nodes greatest) (texts_in operand ++ (texts_in least ++ texts_in greatest)) made) }
    ensures folded { IfOk result (λ made. IsFolded operand → IsFolded least × IsAtScale (scale_of (expression_of operand)) least → IsFolded greatest × IsAtScale (scale_of (expression_of operand)) greatest → AreFolded made) }
{
    let (operand, least, greatest) = three_boxes(alloc, operand, least, greatest)?;
    Ok(Cond::Between(operand, least, greatest))
}

/// `operand IN (values)`.
pub(crate) fn in_tree(alloc: Global, operand: Expr, values: Exprs) -> Result<Cond, NoMemory>
    ensures built { IfOk result (λ made. AreBuilt (among (expression_of operand) (expressions_of values)) (1 + nodes operand + nodes_of_all values) (texts_in operand ++ texts_of_all values) made) }
    ensures folded { IfOk result (λ made. IsFolded operand → AllFolded (scale_of (expression_of operand)) values → AreFolded made) }
{
    let (operand, values) = two_boxes(alloc, operand, values)?;
    Ok(Cond::In(operand, values))
}

/// `operand predicate`.
pub(crate) fn predicate_tree(
    alloc: Global,
    wanted: Predicate,
    operand: Expr,
) -> Result<Cond, NoMemory>
    ensures built { IfOk result (λ made. AreBuilt (predicate wanted (expression_of operand)) (1 + nodes operand) (texts_in operand) made) }
    ensures folded { IfOk result (λ made. IsFolded operand → AreFolded made) }
{
    Ok(Cond::Predicate(wanted, Box::new(alloc, operand)?))
}

/// `left AND right`.
pub(crate) fn and_tree(alloc: Global, left: Cond, right: Cond) -> Result<Cond, NoMemory>
    ensures built { IfOk result (λ made. AreBuilt (both (condition_of left) (condition_of right)) (1 + nodes_of left + nodes_of right) (texts_within left ++ texts_within right) made) }
    ensures folded { IfOk result (λ made. AreFolded left → AreFolded right → AreFolded made) }
{
    let (left, right) = two_boxes(alloc, left, right)?;
    Ok(Cond::And(left, right))
}

/// `left OR right`.
pub(crate) fn or_tree(alloc: Global, left: Cond, right: Cond) -> Result<Cond, NoMemory>
    ensures built { IfOk result (λ made. AreBuilt (either (condition_of left) (condition_of right)) (1 + nodes_of left + nodes_of right) (texts_within left ++ texts_within right) made) }
    ensures folded { IfOk result (λ made. AreFolded left → AreFolded right → AreFolded made) }
{
    let (left, right) = two_boxes(alloc, left, right)?;
    Ok(Cond::Or(left, right))
}

/// `NOT operand`.
pub(crate) fn not_tree(alloc: Global, operand: Cond) -> Result<Cond, NoMemory>
    ensures built { IfOk result (λ made. AreBuilt (negation_of (condition_of operand)) (1 + nodes_of operand) (texts_within operand) made) }
    ensures folded { IfOk result (λ made. AreFolded operand → AreFolded made) }
{
    Ok(Cond::Not(Box::new(alloc, operand)?))
}

/// `operand IS truth`.
pub(crate) fn is_tree(alloc: Global, operand: Cond, truth: Truth) -> Result<Cond, NoMemory>
    ensures built { IfOk result (λ made. AreBuilt (is (condition_of operand) truth) (1 + nodes_of operand) (texts_within operand) made) }
    ensures folded { IfOk result (λ made. AreFolded operand → AreFolded made) }
{
    Ok(Cond::Is(Box::new(alloc, operand)?, truth))
}

/// One expression alone.
pub(crate) fn last_tree(alloc: Global, expr: Expr) -> Result<Exprs, NoMemory>
    ensures built { IfOk result (λ made. AllBuilt (last (expression_of expr)) (1 + nodes expr) (texts_in expr) made) }
    ensures folded { IfOk result (λ made. (s : ℕ) → IsFolded expr × IsAtScale s expr → AllFolded s made) }
{
    Ok(Exprs::Last(Box::new(alloc, expr)?))
}

/// An expression before others.
pub(crate) fn more_tree(alloc: Global, expr: Expr, rest: Exprs) -> Result<Exprs, NoMemory>
    ensures built { IfOk result (λ made. AllBuilt (more (expression_of expr) (expressions_of rest)) (1 + nodes expr + nodes_of_all rest) (texts_in expr ++ texts_of_all rest) made) }
    ensures folded { IfOk result (λ made. (s : ℕ) → IsFolded expr × IsAtScale s expr → AllFolded s rest → AllFolded s made) }
{
    let (expr, rest) = two_boxes(alloc, expr, rest)?;
    Ok(Exprs::More(expr, rest))
}

/// `ELSE other`.
pub(crate) fn else_tree(alloc: Global, other: Expr) -> Result<Branches, NoMemory>
    ensures built { IfOk result (λ made. ChoicesBuilt (otherwise (expression_of other)) (1 + nodes other) (texts_in other) made) }
    ensures folded { IfOk result (λ made. (s : ℕ) → IsFolded other × IsAtScale s other → BranchesFolded s made) }
{
    Ok(Branches::Else(Box::new(alloc, other)?))
}

/// `WHEN test THEN value` before other branches.
pub(crate) fn when_tree(
    alloc: Global,
    test: Cond,
    value: Expr,
    rest: Branches,
) -> Result<Branches, NoMemory>
    ensures built { IfOk result (λ made. ChoicesBuilt (when (condition_of test) (expression_of value) (choices_of rest)) (1 + nodes_of test + nodes value + nodes_of_branches rest) (texts_within test ++ (texts_in value ++ texts_of_branches rest)) made) }
    ensures folded { IfOk result (λ made. (s : ℕ) → AreFolded test → IsFolded value × IsAtScale s value → BranchesFolded s rest → BranchesFolded s made) }
{
    let (test, value, rest) = three_boxes(alloc, test, value, rest)?;
    Ok(Branches::When(test, value, rest))
}

/// `WHEN wanted THEN value ELSE other`.
pub(crate) fn last_match_tree(
    alloc: Global,
    wanted: Expr,
    value: Expr,
    other: Expr,
) -> Result<Matches, NoMemory>
    ensures built { IfOk result (λ made. MatchesBuilt (λ (x : Expression). when (comparison Equal x (expression_of wanted)) (expression_of value) (otherwise (expression_of other))) (1 + nodes wanted + nodes value + nodes other) (texts_in wanted ++ (texts_in value ++ texts_in other)) made) }
    ensures folded { IfOk result (λ made. (x s : ℕ) → IsFolded wanted × IsAtScale x wanted → IsFolded value × IsAtScale s value → IsFolded other × IsAtScale s other → MatchesFolded x s made) }
{
    let (wanted, value, other) = three_boxes(alloc, wanted, value, other)?;
    Ok(Matches::Last(wanted, value, other))
}

/// `WHEN wanted THEN value` before other branches.
pub(crate) fn more_match_tree(
    alloc: Global,
    wanted: Expr,
    value: Expr,
    rest: Matches,
) -> Result<Matches, NoMemory>
    ensures built { IfOk result (λ made. MatchesBuilt (λ (x : Expression). when (comparison Equal x (expression_of wanted)) (expression_of value) (matches_of rest x)) (1 + nodes wanted + nodes value + nodes_of_matches rest) (texts_in wanted ++ (texts_in value ++ texts_of_matches rest)) made) }
    ensures folded { IfOk result (λ made. (x s : ℕ) → IsFolded wanted × IsAtScale x wanted → IsFolded value × IsAtScale s value → MatchesFolded x s rest → MatchesFolded x s made) }
{
    let (wanted, value, rest) = three_boxes(alloc, wanted, value, rest)?;
    Ok(Matches::When(wanted, value, rest))
}
