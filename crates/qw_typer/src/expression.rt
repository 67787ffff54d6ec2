//! Typed expressions and conditions (ISO/IEC 9075:1992, 6.9 to 6.12, 8.2 to 8.6, 8.12): operands from left to right, and the first
//! fault that is met.

ghost use Rattle.std.specs.Prelude.{◌≡◌, ◌+◌, IfOk, MatchResult, Ok};
ghost use Rattle.qw_ast.specs.SyntaxTree as syntax;
ghost use Rattle.qw_scalar.specs.Expression.{Expression};
ghost use Rattle.qw_scalar.specs.Typing.{kind_of};
ghost use Rattle.qw_typer.specs.Inner.Sizes.{Fits, FitsAll, FitsBranches, FitsCondition, FitsMatches, nodes, nodes_all, nodes_branches, nodes_condition, octets, octets_all, octets_branches, octets_condition};
ghost use Rattle.qw_typer.specs.Inner.Typing.{Gives, GivesArguments, GivesChoices, GivesCondition, GivesMatches, GivesValues, in_reach, spelled, typed, typed_all, typed_branches, typed_choices, typed_condition, typed_unless};

use crate::branch::{
    argument, arguments_more, last_match, match_more, matching, otherwise, value, values_more, when,
};
use crate::construct::{
    among, arithmetic, between, coalesced, compared, conjunction, disjunction, extracted, negation,
    searched_case, signed, simple_case, truth_test, unless_found, unless_none, value_test,
};
use crate::fault::FaultKind;
use crate::leaf::{column, date, number, text};
use crate::refusal::{Refusal, Token, first_token};
use crate::scope::Scope;
use crate::set_function::{applied, rows_counted};
use crate::tree::{Results, Typed, Values, kind_found};
use qw_ast::script::{Branches, Cond, Expr, Exprs, Phrase};
use qw_scalar::expression as meaning;
use qw_scalar::expression::Function;
use qw_types::Kind;
use std::alloc::Global;

/// An expression.
#[cycle(expression)]
pub(crate) fn expression<'a>(
    alloc: Global,
    scope: &Scope<'_, '_>,
    expr: &Expr<'a>,
) -> Result<Typed, Refusal<'a>>
    ensures gives { Gives result (typed (in_reach scope.now) (syntax.expression_of expr.now)) }
    ensures fits { IfOk result (λ made. Fits made.tree (nodes (syntax.expression_of expr.now)) (octets (syntax.expression_of expr.now))) }
{
    match expr {
        Expr::Null => Ok(Typed {
            kind: None,
            tree: meaning::Expr::Null,
        }),
        Expr::Number(octets) => number(alloc, octets),
        Expr::Text(octets) => text(alloc, octets),
        Expr::Date(string, intervals) => date(alloc, string, intervals.as_slice()),
        Expr::Column(qualifier, name) => column(alloc, scope, *qualifier, name),
        Expr::Signed(sign, operand) => {
            let x = expression(alloc, scope, operand);
            signed(alloc, *sign, x, operand)
        }
        Expr::Arithmetic(operator, left, right) => {
            let x = expression(alloc, scope, left);
            let y = expression(alloc, scope, right);
            arithmetic(alloc, *operator, x, y, left)
        }
        Expr::Extract(field, operand) => {
            let x = expression(alloc, scope, operand);
            extracted(alloc, *field, x, operand)
        }
        Expr::Case(branches) => {
            let results = choices(alloc, scope, branches);
            searched_case(alloc, results, branches)
        }
        Expr::Match(operand, branches) => {
            let x = expression(alloc, scope, operand);
            let results = matches(alloc, scope, kind_found(&x), first_token(operand), branches);
            simple_case(alloc, x, results, operand)
        }
        Expr::Call(function, list) => match function {
            Function::Coalesce => {
                let results = arguments(alloc, scope, list);
                coalesced(alloc, results, list)
            }
            Function::NullIf => unless_among(alloc, scope, list),
        },
        Expr::CountRows(place) => rows_counted(scope, *place),
        Expr::SetFunction(place, function, argument) => {
            let inner = Scope::ungrouped(scope.entries);
            let x = expression(alloc, &inner, argument);
            applied(scope, *place, *function, x, argument)
        }
    }
}

/// A condition.
#[cycle(expression)]
pub(crate) fn condition<'a>(
    alloc: Global,
    scope: &Scope<'_, '_>,
    cond: &Cond<'a>,
) -> Result<meaning::Cond, Refusal<'a>>
    ensures gives { GivesCondition result (typed_condition (in_reach scope.now) (syntax.condition_of cond.now)) }
    ensures fits { IfOk result (λ made. FitsCondition made (nodes_condition (syntax.condition_of cond.now)) (octets_condition (syntax.condition_of cond.now))) }
{
    match cond {
        Cond::Compare(comparison, left, right) => {
            let x = expression(alloc, scope, left);
            let y = expression(alloc, scope, right);
            compared(alloc, *comparison, x, y, left)
        }
        Cond::Between(negated, operand, least, greatest) => {
            let x = expression(alloc, scope, operand);
            let low = expression(alloc, scope, least);
            let high = expression(alloc, scope, greatest);
            between(alloc, *negated, x, low, high, operand)
        }
        Cond::In(negated, operand, list) => {
            let x = expression(alloc, scope, operand);
            let found = values(alloc, scope, kind_found(&x), list);
            among(alloc, *negated, x, found, operand)
        }
        Cond::Predicate(predicate, negated, operand) => {
            let x = expression(alloc, scope, operand);
            value_test(alloc, *predicate, *negated, x)
        }
        Cond::And(left, right) => {
            let x = condition(alloc, scope, left);
            let y = condition(alloc, scope, right);
            conjunction(alloc, x, y)
        }
        Cond::Or(left, right) => {
            let x = condition(alloc, scope, left);
            let y = condition(alloc, scope, right);
            disjunction(alloc, x, y)
        }
        Cond::Not(operand) => {
            let x = condition(alloc, scope, operand);
            negation(alloc, x)
        }
        Cond::Is(negated, operand, truth) => {
            let x = condition(alloc, scope, operand);
            truth_test(alloc, *negated, x, *truth)
        }
        Cond::Bracketed(operand) => condition(alloc, scope, operand),
    }
}

/// The arguments of NULLIF: the first, or null where it is among the others.
#[cycle(expression)]
fn unless_among<'a>(
    alloc: Global,
    scope: &Scope<'_, '_>,
    exprs: &Exprs<'a>,
) -> Result<Typed, Refusal<'a>>
    ensures gives { Gives result (typed_unless (in_reach scope.now) (syntax.expressions_of exprs.now)) }
    ensures fits { IfOk result (λ made. Fits made.tree (1 + nodes_all (syntax.expressions_of exprs.now)) (octets_all (syntax.expressions_of exprs.now))) }
{
    match exprs {
        Exprs::Last(expr) => {
            let x = expression(alloc, scope, expr);
            unless_none(alloc, x)
        }
        Exprs::More(expr, rest) => {
            let x = expression(alloc, scope, expr);
            let others = values(alloc, scope, kind_found(&x), rest);
            unless_found(alloc, x, others, expr)
        }
    }
}

/// The arguments of COALESCE.
#[cycle(expression)]
fn arguments<'a>(
    alloc: Global,
    scope: &Scope<'_, '_>,
    exprs: &Exprs<'a>,
) -> Result<Results<meaning::Exprs>, Refusal<'a>>
    ensures gives { GivesArguments result (typed_all (in_reach scope.now) (syntax.expressions_of exprs.now)) }
    ensures fits { IfOk result (λ made. FitsAll made.tree (nodes_all (syntax.expressions_of exprs.now)) (octets_all (syntax.expressions_of exprs.now))) }
{
    match exprs {
        Exprs::Last(expr) => {
            let x = expression(alloc, scope, expr);
            argument(alloc, x)
        }
        Exprs::More(expr, rest) => {
            let x = expression(alloc, scope, expr);
            let others = arguments(alloc, scope, rest);
            arguments_more(alloc, x, others)
        }
    }
}

/// The values of IN, and whether they compare with an operand of this kind.
#[cycle(expression)]
fn values<'a>(
    alloc: Global,
    scope: &Scope<'_, '_>,
    kind: Option<Kind>,
    exprs: &Exprs<'a>,
) -> Result<Values, Refusal<'a>>
    ensures gives { GivesValues kind result (typed_all (in_reach scope.now) (syntax.expressions_of exprs.now)) }
    ensures fits { IfOk result (λ made. FitsAll made.tree (nodes_all (syntax.expressions_of exprs.now)) (octets_all (syntax.expressions_of exprs.now))) }
{
    match exprs {
        Exprs::Last(expr) => {
            let x = expression(alloc, scope, expr);
            value(alloc, kind, x)
        }
        Exprs::More(expr, rest) => {
            let x = expression(alloc, scope, expr);
            let others = values(alloc, scope, kind, rest);
            values_more(alloc, kind, x, others)
        }
    }
}

/// The branches of a CASE without an operand.
#[cycle(expression)]
fn choices<'a>(
    alloc: Global,
    scope: &Scope<'_, '_>,
    branches: &Branches<'a>,
) -> Result<Results<meaning::Branches>, Refusal<'a>>
    ensures gives { GivesChoices result (typed_choices (in_reach scope.now) (syntax.branching_of branches.now)) }
    ensures fits { IfOk result (λ made. FitsBranches made.tree (nodes_branches (syntax.branching_of branches.now)) (octets_branches (syntax.branching_of branches.now))) }
{
    match branches {
        Branches::Else(result) => {
            let x = expression(alloc, scope, result);
            otherwise(alloc, x)
        }
        Branches::When(phrase, result, rest) => match &**phrase {
            Phrase::Expression(value) => {
                Err(Refusal::Fault(FaultKind::Clash, first_token(value)))
            }
            Phrase::Condition(cond) => {
                let test = condition(alloc, scope, cond);
                let x = expression(alloc, scope, result);
                let others = choices(alloc, scope, rest);
                when(alloc, test, x, others)
            }
        },
    }
}

/// The branches of a CASE with an operand of this kind, at least one with WHEN; a refusal names the operand's first token.
#[cycle(expression)]
fn matches<'a>(
    alloc: Global,
    scope: &Scope<'_, '_>,
    kind: Option<Kind>,
    token: Token<'a>,
    branches: &Branches<'a>,
) -> Result<Results<meaning::Matches>, Refusal<'a>>
    ensures gives { (x : Expression) → kind ≡ kind_of x → GivesMatches x result (typed_branches (in_reach scope.now) (spelled token.entry) x (syntax.branching_of branches.now)) }
    ensures fits { IfOk result (λ made. FitsMatches made.tree (nodes_branches (syntax.branching_of branches.now)) (octets_branches (syntax.branching_of branches.now))) }
{
    match branches {
        Branches::Else(_) => Err(Refusal::Fault(FaultKind::Clash, token)),
        Branches::When(phrase, result, rest) => match &**phrase {
            Phrase::Condition(_) => Err(Refusal::Fault(FaultKind::Clash, token)),
            Phrase::Expression(value) => {
                let found = expression(alloc, scope, value);
                let wanted = matching(kind, token, found);
                let x = expression(alloc, scope, result);
                match &**rest {
                    Branches::Else(other) => {
                        let y = expression(alloc, scope, other);
                        last_match(alloc, wanted, x, y)
                    }
                    Branches::When(_, _, _) => {
                        let others = matches(alloc, scope, kind, token, rest);
                        match_more(alloc, wanted, x, others)
                    }
                }
            }
        },
    }
}
