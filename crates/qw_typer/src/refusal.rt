//! Why a construct is refused, and the token that the refusal names.

ghost use Rattle.std.specs.Prelude.{◌≡◌};
ghost use Rattle.qw_ast.specs.SyntaxTree.{branching_of, condition_of, expression_of, expressions_of};
ghost use Rattle.qw_typer.specs.Faults.{first_of_all, first_of_branches, first_of_condition, first_token};
ghost use Rattle.qw_typer.specs.Inner.Typing.{spelled};

use crate::fault::FaultKind;
use qw_ast::script::{Branches, Cond, Expr, Exprs, Phrase, SetFunction};

/// A token of the text: a name or a literal by its octets, or the word of a set function.
#[derive(Clone, Copy)]
pub(crate) enum Token<'a> {
    Name(&'a [u8]),
    Literal(&'a [u8]),
    Function(SetFunction),
}

/// Why a construct is refused.
#[derive(Clone, Copy)]
pub(crate) enum Refusal<'a> {
    NoMemory,
    Fault(FaultKind, Token<'a>),
}

/// The first literal, column or set function of an expression; of NULL alone an empty literal.
#[cycle(token)]
pub(crate) fn first_token<'a>(expr: &Expr<'a>) -> Token<'a>
    ensures { spelled result ≡ first_token (expression_of expr.now) }
{
    match expr {
        Expr::Null => Token::Literal(b"".as_slice()),
        Expr::Number(octets) | Expr::Text(octets) | Expr::Date(octets, _) => Token::Literal(octets),
        Expr::Column(_, name) => Token::Name(name),
        Expr::Signed(_, operand) | Expr::Extract(_, operand) => first_token(operand),
        Expr::Arithmetic(_, left, _) => first_token(left),
        Expr::Match(operand, _) => first_token(operand),
        Expr::Case(branches) => first_of_branches(branches),
        Expr::Call(_, arguments) => first_of_all(arguments),
        Expr::CountRows(_) => Token::Function(SetFunction::Count),
        Expr::SetFunction(_, function, _) => Token::Function(*function),
    }
}

/// The first literal, column or set function of a condition.
#[cycle(token)]
pub(crate) fn first_of_condition<'a>(cond: &Cond<'a>) -> Token<'a>
    ensures { spelled result ≡ first_of_condition (condition_of cond.now) }
{
    match cond {
        Cond::Compare(_, left, _) => first_token(left),
        Cond::Between(_, operand, _, _)
        | Cond::In(_, operand, _)
        | Cond::Predicate(_, _, operand) => first_token(operand),
        Cond::And(left, _) | Cond::Or(left, _) => first_of_condition(left),
        Cond::Not(operand) | Cond::Is(_, operand, _) | Cond::Bracketed(operand) => {
            first_of_condition(operand)
        }
    }
}

/// The first literal, column or set function of the first of some expressions.
#[cycle(token)]
pub(crate) fn first_of_all<'a>(exprs: &Exprs<'a>) -> Token<'a>
    ensures { spelled result ≡ first_of_all (expressions_of exprs.now) }
{
    match exprs {
        Exprs::Last(expr) | Exprs::More(expr, _) => first_token(expr),
    }
}

/// The first literal, column or set function of the branches of a CASE.
#[cycle(token)]
pub(crate) fn first_of_branches<'a>(branches: &Branches<'a>) -> Token<'a>
    ensures { spelled result ≡ first_of_branches (branching_of branches.now) }
{
    match branches {
        Branches::Else(result) => first_token(result),
        Branches::When(phrase, _, _) => match &**phrase {
            Phrase::Condition(cond) => first_of_condition(cond),
            Phrase::Expression(expr) => first_token(expr),
        },
    }
}
