//! Predicates and boolean tests (ISO/IEC 9075:1992, 8.2, 8.3, 8.4, 8.5, 8.6, 8.12).

ghost use Rattle.std.specs.Prelude.{◌≡◌};
ghost use Rattle.qw_ast.specs.ScriptGrammar.{likeness};
ghost use Rattle.qw_ast.specs.SyntaxTree.{clause_of, condition_of, expression_of};
ghost use Rattle.qw_parse.specs.Inner.Readers.{between_at, compare_at, condition_clause, expression_at, in_at, like_at, nested_at, value_test_at, predicate_at, sum_at, tail_at, test_at, truth_test_at};
ghost use Rattle.qw_parse.specs.Inner.Parser.{Reads, left};
ghost use Rattle.qw_parse.specs.Inner.Nests.{Nests};

use super::call::listed;
use super::parser::{Parser, Stop};
use super::rules::Rules;
use super::tree::{as_phrase, boxed, boxes, the_expression};
use qw_ast::script::{Cond, Expr, Phrase};
use qw_scalar::comparison::Comparison;

/// Reads what stands behind `operand IS`, of a predicate of one value.
#[tactic(auto, unfolding(crate::specs::Inner::Readers::value_test_at))]
fn value_test<'a>(parser: &mut Parser<'a>, operand: Expr<'a>) -> Result<Cond<'a>, Stop>
    ensures { Reads condition_of (value_test_at (expression_of operand.entry) (left parser.old)) result (left parser.new) }
{
    let negated = parser.not();
    let predicate = parser.predicate()?;
    Ok(Cond::Predicate(predicate, negated, boxed(parser.alloc, operand)?))
}

/// LIKE, with NOT before it or without.
fn likeness(negated: bool) -> Comparison
    ensures { result ≡ likeness negated }
{
    if negated {
        Comparison::NotLike
    } else {
        Comparison::Like
    }
}

/// Reads what stands behind `operand [NOT] LIKE`: the pattern, a character string.
#[tactic(auto, unfolding(crate::specs::Inner::Readers::like_at))]
fn like<'a>(parser: &mut Parser<'a>, negated: bool, operand: Expr<'a>) -> Result<Cond<'a>, Stop>
    ensures { Reads condition_of (like_at negated (expression_of operand.entry) (left parser.old)) result (left parser.new) }
{
    let pattern = parser.string().ok_or(Stop::NotGrammar)?;
    let (operand, pattern) = boxes(parser.alloc, operand, Expr::Text(pattern))?;
    Ok(Cond::Compare(likeness(negated), operand, pattern))
}

/// Reads IS and a truth value behind a condition, or nothing.
#[tactic(auto, unfolding(crate::specs::Inner::Readers::truth_test_at))]
fn truth_test<'a>(parser: &mut Parser<'a>, operand: Cond<'a>) -> Result<Cond<'a>, Stop>
    ensures { Reads condition_of (truth_test_at (condition_of operand.entry) (left parser.old)) result (left parser.new) }
{
    if !parser.word(b"IS") {
        return Ok(operand);
    }
    let negated = parser.not();
    let truth = parser.truth()?;
    Ok(Cond::Is(negated, boxed(parser.alloc, operand)?, truth))
}

impl<'a, F: Fn(&mut Parser<'a>, usize) -> Result<Phrase<'a>, Stop>> Rules<F> {
    /// Reads a sum that is an expression.
    #[tactic(auto, unfolding(crate::specs::Inner::Readers::expression_at))]
    fn operand(&self, parser: &mut Parser<'a>) -> Result<Box<Expr<'a>>, Stop>
        requires { Nests self.now.levels (F.pre self.now.inner) (F.post self.now.inner) }
        ensures { Reads (λ b. expression_of b.value) (expression_at (sum_at (nested_at self.now.levels)) (left parser.old)) result (left parser.new) }
    {
        let phrase = self.sum(parser)?;
        let expression = the_expression(phrase)?;
        Ok(boxed(parser.alloc, expression)?)
    }

    /// Reads what stands behind `operand comparison`.
    #[tactic(auto, unfolding(crate::specs::Inner::Readers::compare_at))]
    fn compare(
        &self,
        parser: &mut Parser<'a>,
        comparison: Comparison,
        operand: Expr<'a>,
    ) -> Result<Cond<'a>, Stop>
        requires { Nests self.now.levels (F.pre self.now.inner) (F.post self.now.inner) }
        ensures { Reads condition_of (compare_at (nested_at self.now.levels) comparison (expression_of operand.entry) (left parser.old)) result (left parser.new) }
    {
        let left = boxed(parser.alloc, operand)?;
        let right = self.operand(parser)?;
        Ok(Cond::Compare(comparison, left, right))
    }

    /// Reads what stands behind `operand [NOT] BETWEEN`.
    #[tactic(auto, unfolding(crate::specs::Inner::Readers::between_at))]
    fn between(
        &self,
        parser: &mut Parser<'a>,
        negated: bool,
        operand: Expr<'a>,
    ) -> Result<Cond<'a>, Stop>
        requires { Nests self.now.levels (F.pre self.now.inner) (F.post self.now.inner) }
        ensures { Reads condition_of (between_at (nested_at self.now.levels) negated (expression_of operand.entry) (left parser.old)) result (left parser.new) }
    {
        let operand = boxed(parser.alloc, operand)?;
        let least = self.operand(parser)?;
        parser.expect_word(b"AND")?;
        let greatest = self.operand(parser)?;
        Ok(Cond::Between(negated, operand, least, greatest))
    }

    /// Reads what stands behind `operand [NOT] IN`.
    #[tactic(auto, unfolding(crate::specs::Inner::Readers::in_at))]
    fn among(
        &self,
        parser: &mut Parser<'a>,
        negated: bool,
        operand: Expr<'a>,
    ) -> Result<Cond<'a>, Stop>
        requires { Nests self.now.levels (F.pre self.now.inner) (F.post self.now.inner) }
        ensures { Reads condition_of (in_at (nested_at self.now.levels) negated (expression_of operand.entry) (left parser.old)) result (left parser.new) }
    {
        let operand = boxed(parser.alloc, operand)?;
        let (first, others) = self.listing(parser)?;
        let values = listed(parser.alloc, first, others)?;
        Ok(Cond::In(negated, operand, boxed(parser.alloc, values)?))
    }

    /// Reads the rest of a predicate that begins with the expression, or nothing.
    #[tactic(auto, unfolding(crate::specs::Inner::Readers::tail_at, crate::specs::Inner::Readers::ranged_at, crate::specs::Inner::Readers::condition_clause))]
    fn tail(&self, parser: &mut Parser<'a>, operand: Expr<'a>) -> Result<Phrase<'a>, Stop>
        requires { Nests self.now.levels (F.pre self.now.inner) (F.post self.now.inner) }
        ensures { Reads clause_of (tail_at (nested_at self.now.levels) (expression_of operand.entry) (left parser.old)) result (left parser.new) }
    {
        if let Some(comparison) = parser.comparison() {
            return as_phrase(self.compare(parser, comparison, operand));
        }
        if parser.word(b"IS") {
            return as_phrase(value_test(parser, operand));
        }
        let negated = parser.not();
        if parser.word(b"BETWEEN") {
            return as_phrase(self.between(parser, negated, operand));
        }
        if parser.word(b"IN") {
            return as_phrase(self.among(parser, negated, operand));
        }
        if parser.word(b"LIKE") {
            return as_phrase(like(parser, negated, operand));
        }
        if negated {
            return Err(Stop::NotGrammar);
        }
        Ok(Phrase::Expression(operand))
    }

    /// Reads a predicate, a condition in brackets or an expression alone.
    #[tactic(auto, unfolding(crate::specs::Inner::Readers::predicate_at))]
    fn predicate(&self, parser: &mut Parser<'a>) -> Result<Phrase<'a>, Stop>
        requires { Nests self.now.levels (F.pre self.now.inner) (F.post self.now.inner) }
        ensures { Reads clause_of (predicate_at (nested_at self.now.levels) (left parser.old)) result (left parser.new) }
    {
        match self.sum(parser)? {
            Phrase::Expression(operand) => self.tail(parser, operand),
            Phrase::Condition(condition) => Ok(Phrase::Condition(condition)),
        }
    }

    /// Reads a boolean test, or an expression alone.
    #[tactic(auto, unfolding(crate::specs::Inner::Readers::test_at, crate::specs::Inner::Readers::condition_clause))]
    pub(crate) fn test(&self, parser: &mut Parser<'a>) -> Result<Phrase<'a>, Stop>
        requires { Nests self.now.levels (F.pre self.now.inner) (F.post self.now.inner) }
        ensures { Reads clause_of (test_at (nested_at self.now.levels) (left parser.old)) result (left parser.new) }
    {
        match self.predicate(parser)? {
            Phrase::Condition(condition) => {
                let tested = truth_test(parser, condition)?;
                Ok(Phrase::Condition(tested))
            }
            Phrase::Expression(expression) => Ok(Phrase::Expression(expression)),
        }
    }
}
