//! Trees of a query, put together from their parts.

ghost use Rattle.std.specs.Prelude.{◌≡◌, ◌≢◌, ◌⊎◌, ◌++◌, ◌∷◌, [], List, Option, Some, Ok, Err, IfOk, IfErr};
ghost use Rattle.qw_ast.specs.Syntax.{Condition};
ghost use Rattle.qw_token.specs.Token.{Lexeme};
ghost use Rattle.qw_parse.specs.declared.read.parser.Stop.TheVariants.{NoMemory};
ghost use Rattle.qw_ast.specs.SyntaxTree.{clause_of, condition_of, expression_of};
ghost use Rattle.qw_parse.specs.Inner.Readers.{condition_clause, in_brackets, join_and, join_arithmetic, join_or, the_condition, the_expression};
ghost use Rattle.qw_parse.specs.Inner.Parser.{Finds, Reads};

use super::parser::Stop;
use qw_ast::script::{Cond, Expr, Phrase};
use qw_scalar::expression::Operator;
use std::alloc::{AllocError, Global};

/// The value on the heap.
pub(crate) fn boxed<T: Drop>(alloc: Global, value: T) -> Result<Box<T>, AllocError>
    ensures { IfOk result (λ b. b.value ≡ value) }
{
    Ok(Box::new(alloc, value)?)
}

/// Both values on the heap.
pub(crate) fn boxes<T: Drop, U: Drop>(
    alloc: Global,
    left: T,
    right: U,
) -> Result<(Box<T>, Box<U>), AllocError>
    ensures { IfOk result (λ p. (p.0.value ≡ left) × (p.1.value ≡ right)) }
{
    let left = boxed(alloc, left)?;
    let right = boxed(alloc, right)?;
    Ok((left, right))
}

/// Both of what was found, each on the heap, or what stopped the first that was not.
pub(crate) fn both<T: Drop, U: Drop>(
    alloc: Global,
    left: Result<T, Stop>,
    right: Result<U, Stop>,
) -> Result<(Box<T>, Box<U>), Stop>
    ensures found { IfOk result (λ p. (left ≡ Ok p.0.value) × (right ≡ Ok p.1.value)) }
    ensures stopped { IfErr result (λ e. e ≢ NoMemory → (left ≡ Err e) ⊎ (right ≡ Err e)) }
{
    let left = left?;
    let right = right?;
    let left = boxed(alloc, left)?;
    let right = boxed(alloc, right)?;
    Ok((left, right))
}

/// The list with one more at its end.
pub(crate) fn push<T: Drop>(list: &mut Vec<T>, value: T) -> Result<(), AllocError>
    ensures { IfOk result (λ _. list.new.items ≡ list.old.items ++ value ∷ []) }
{
    list.push(value)?;
    Ok(())
}

/// The first and the others, in order.
pub(crate) fn in_front<T: Drop>(first: T, mut others: Vec<T>) -> Result<Vec<T>, AllocError>
    ensures { IfOk result (λ all. all.items ≡ first ∷ others.items) }
{
    others.insert(0, first)?;
    Ok(others)
}

/// The phrase, if it is an expression.
pub(crate) fn the_expression<'a>(phrase: Phrase<'a>) -> Result<Expr<'a>, Stop>
    ensures { Finds expression_of (the_expression (clause_of phrase.entry)) result }
{
    match phrase {
        Phrase::Expression(expression) => Ok(expression),
        Phrase::Condition(_condition) => Err(Stop::NotGrammar),
    }
}

/// The phrase, if it is a condition.
pub(crate) fn the_condition<'a>(phrase: Phrase<'a>) -> Result<Cond<'a>, Stop>
    ensures { Finds condition_of (the_condition (clause_of phrase.entry)) result }
{
    match phrase {
        Phrase::Condition(condition) => Ok(condition),
        Phrase::Expression(_expression) => Err(Stop::NotGrammar),
    }
}

/// What was read as a condition, as a phrase.
#[tactic(auto, unfolding(crate::specs::Inner::Readers::condition_clause))]
pub(crate) fn as_phrase<'a>(found: Result<Cond<'a>, Stop>) -> Result<Phrase<'a>, Stop>
    ensures { (o : Option (Condition × List Lexeme)) (rest : List Lexeme) → Reads condition_of o found.entry rest → Reads clause_of (condition_clause o) result rest }
{
    Ok(Phrase::Condition(found?))
}

/// What brackets round the phrase are.
pub(crate) fn in_brackets<'a>(alloc: Global, phrase: Phrase<'a>) -> Result<Phrase<'a>, Stop>
    ensures { Finds clause_of (Some (in_brackets (clause_of phrase.entry))) result }
{
    match phrase {
        Phrase::Condition(condition) => {
            let inside = boxed(alloc, condition)?;
            Ok(Phrase::Condition(Cond::Bracketed(inside)))
        }
        Phrase::Expression(expression) => Ok(Phrase::Expression(expression)),
    }
}

/// `left operator right`, of expressions.
pub(crate) fn arithmetic<'a>(
    alloc: Global,
    operator: Operator,
    left: Phrase<'a>,
    right: Phrase<'a>,
) -> Result<Phrase<'a>, Stop>
    ensures { Finds clause_of (join_arithmetic operator (clause_of left.entry) (clause_of right.entry)) result }
{
    let (left, right) = both(alloc, the_expression(left), the_expression(right))?;
    Ok(Phrase::Expression(Expr::Arithmetic(operator, left, right)))
}

/// `left AND right`, of conditions.
pub(crate) fn conjunction<'a>(
    alloc: Global,
    left: Phrase<'a>,
    right: Phrase<'a>,
) -> Result<Phrase<'a>, Stop>
    ensures { Finds clause_of (join_and tt (clause_of left.entry) (clause_of right.entry)) result }
{
    let (left, right) = both(alloc, the_condition(left), the_condition(right))?;
    Ok(Phrase::Condition(Cond::And(left, right)))
}

/// `left OR right`, of conditions.
pub(crate) fn disjunction<'a>(
    alloc: Global,
    left: Phrase<'a>,
    right: Phrase<'a>,
) -> Result<Phrase<'a>, Stop>
    ensures { Finds clause_of (join_or tt (clause_of left.entry) (clause_of right.entry)) result }
{
    let (left, right) = both(alloc, the_condition(left), the_condition(right))?;
    Ok(Phrase::Condition(Cond::Or(left, right)))
}
