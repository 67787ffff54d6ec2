//! Operators by their ranks (ISO/IEC 9075:1992, 6.12 and 8.12): each rank is a loop.

ghost use Rattle.std.specs.Prelude.{◌≡◌};
ghost use Rattle.qw_ast.specs.SyntaxTree.{clause_of};
ghost use Rattle.qw_parse.specs.Inner.Readers.{boolean_factor_at, boolean_term_at, clause_at, factor_at, nested_at, sum_at, term_at};
ghost use Rattle.qw_parse.specs.Inner.Parser.{Reads, left};
ghost use Rattle.qw_parse.specs.Inner.Nests.{Nests};

use super::parser::{Parser, Stop};
use super::rules::Rules;
use super::tree::{arithmetic, boxed, conjunction, disjunction, the_condition, the_expression};
use qw_ast::script::{Cond, Expr, Phrase};

impl<'a, F: Fn(&mut Parser<'a>, usize) -> Result<Phrase<'a>, Stop>> Rules<F> {
    /// Reads a factor: a sign or none, and a primary.
    #[tactic(auto, unfolding(crate::specs::Inner::Readers::factor_at))]
    fn factor(&self, parser: &mut Parser<'a>) -> Result<Phrase<'a>, Stop>
        requires { Nests self.now.levels (F.pre self.now.inner) (F.post self.now.inner) }
        ensures { Reads clause_of (factor_at (nested_at self.now.levels) (left parser.old)) result (left parser.new) }
    {
        let Some(sign) = parser.sign() else {
            return self.primary(parser);
        };
        let phrase = self.primary(parser)?;
        let operand = boxed(parser.alloc, the_expression(phrase)?)?;
        Ok(Phrase::Expression(Expr::Signed(sign, operand)))
    }

    /// Reads a term: factors with `*` and `/` between them.
    #[tactic(auto, unfolding(crate::specs::Inner::Readers::term_at))]
    fn term(&self, parser: &mut Parser<'a>) -> Result<Phrase<'a>, Stop>
        requires { Nests self.now.levels (F.pre self.now.inner) (F.post self.now.inner) }
        ensures { Reads clause_of (term_at (nested_at self.now.levels) (left parser.old)) result (left parser.new) }
    {
        let mut whole = self.factor(parser)?;
        'operands: while let Some(operator) = parser.multiplication() {
            let operand = self.factor(parser)?;
            whole = arithmetic(parser.alloc, operator, whole, operand)?;
        }
        Ok(whole)
    }

    /// Reads a sum: terms with `+` and `-` between them.
    #[tactic(auto, unfolding(crate::specs::Inner::Readers::sum_at))]
    pub(crate) fn sum(&self, parser: &mut Parser<'a>) -> Result<Phrase<'a>, Stop>
        requires { Nests self.now.levels (F.pre self.now.inner) (F.post self.now.inner) }
        ensures { Reads clause_of (sum_at (nested_at self.now.levels) (left parser.old)) result (left parser.new) }
    {
        let mut whole = self.term(parser)?;
        'operands: while let Some(operator) = parser.addition() {
            let operand = self.term(parser)?;
            whole = arithmetic(parser.alloc, operator, whole, operand)?;
        }
        Ok(whole)
    }

    /// Reads a boolean factor: NOT or nothing, and a boolean test.
    #[tactic(auto, unfolding(crate::specs::Inner::Readers::boolean_factor_at, crate::specs::Inner::Readers::condition_at))]
    fn boolean_factor(&self, parser: &mut Parser<'a>) -> Result<Phrase<'a>, Stop>
        requires { Nests self.now.levels (F.pre self.now.inner) (F.post self.now.inner) }
        ensures { Reads clause_of (boolean_factor_at (nested_at self.now.levels) (left parser.old)) result (left parser.new) }
    {
        if !parser.word(b"NOT") {
            return self.test(parser);
        }
        let phrase = self.test(parser)?;
        let operand = boxed(parser.alloc, the_condition(phrase)?)?;
        Ok(Phrase::Condition(Cond::Not(operand)))
    }

    /// Reads a boolean term: boolean factors with AND between them.
    #[tactic(auto, unfolding(crate::specs::Inner::Readers::boolean_term_at))]
    fn boolean_term(&self, parser: &mut Parser<'a>) -> Result<Phrase<'a>, Stop>
        requires { Nests self.now.levels (F.pre self.now.inner) (F.post self.now.inner) }
        ensures { Reads clause_of (boolean_term_at (nested_at self.now.levels) (left parser.old)) result (left parser.new) }
    {
        let mut whole = self.boolean_factor(parser)?;
        'operands: while parser.word(b"AND") {
            let operand = self.boolean_factor(parser)?;
            whole = conjunction(parser.alloc, whole, operand)?;
        }
        Ok(whole)
    }

    /// Reads a condition or an expression: boolean terms with OR between them.
    #[tactic(auto, unfolding(crate::specs::Inner::Readers::clause_at))]
    pub(crate) fn phrase(&self, parser: &mut Parser<'a>) -> Result<Phrase<'a>, Stop>
        requires { Nests self.now.levels (F.pre self.now.inner) (F.post self.now.inner) }
        ensures { Reads clause_of (clause_at (nested_at self.now.levels) (left parser.old)) result (left parser.new) }
    {
        let mut whole = self.boolean_term(parser)?;
        'operands: while parser.word(b"OR") {
            let operand = self.boolean_term(parser)?;
            whole = disjunction(parser.alloc, whole, operand)?;
        }
        Ok(whole)
    }
}

/// Reads a condition or an expression of fewer than so many levels of brackets and CASEs.
pub(crate) fn nested<'a>(parser: &mut Parser<'a>, levels: usize) -> Result<Phrase<'a>, Stop>
    ensures { Reads clause_of (nested_at levels (left parser.old)) result (left parser.new) }
{
    if levels == 0 {
        return Err(Stop::NotGrammar);
    }
    Rules {
        levels: levels - 1,
        inner: nested,
    }
    .phrase(parser)
}
