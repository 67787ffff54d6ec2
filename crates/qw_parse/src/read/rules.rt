//! The rules of expressions and conditions over one level of brackets and CASEs.

ghost use Rattle.qw_ast.specs.SyntaxTree.{clause_of, condition_of, expression_of};
ghost use Rattle.qw_parse.specs.Inner.Readers.{condition_at, expression_at, nested_at, result_at};
ghost use Rattle.qw_parse.specs.Inner.Parser.{Reads, left};
ghost use Rattle.qw_parse.specs.Inner.Nests.{Nests};

use super::parser::{Parser, Stop};
use super::tree;
use qw_ast::script::{Cond, Expr, Phrase};

/// The rules over what stands in brackets and in CASE, which `inner` reads. They take it as a parameter, so that each is
/// proved by itself.
#[derive(Clone, Copy)]
pub(crate) struct Rules<F> {
    /// How many levels there may be inside.
    pub(crate) levels: usize,
    pub(crate) inner: F,
}

impl<'a, F: Fn(&mut Parser<'a>, usize) -> Result<Phrase<'a>, Stop>> Rules<F> {
    /// Reads what stands inside: a condition or an expression.
    pub(crate) fn inner(&self, parser: &mut Parser<'a>) -> Result<Phrase<'a>, Stop>
        requires { Nests self.now.levels (F.pre self.now.inner) (F.post self.now.inner) }
        ensures { Reads clause_of (nested_at self.now.levels (left parser.old)) result (left parser.new) }
    {
        (self.inner)(parser, self.levels)
    }

    /// Reads an expression inside.
    #[tactic(auto, unfolding(crate::specs::Inner::Readers::expression_at))]
    pub(crate) fn expression(&self, parser: &mut Parser<'a>) -> Result<Expr<'a>, Stop>
        requires { Nests self.now.levels (F.pre self.now.inner) (F.post self.now.inner) }
        ensures { Reads expression_of (expression_at (nested_at self.now.levels) (left parser.old)) result (left parser.new) }
    {
        let phrase = self.inner(parser)?;
        tree::the_expression(phrase)
    }

    /// Reads a condition inside.
    #[tactic(auto, unfolding(crate::specs::Inner::Readers::condition_at))]
    pub(crate) fn condition(&self, parser: &mut Parser<'a>) -> Result<Cond<'a>, Stop>
        requires { Nests self.now.levels (F.pre self.now.inner) (F.post self.now.inner) }
        ensures { Reads condition_of (condition_at (nested_at self.now.levels) (left parser.old)) result (left parser.new) }
    {
        let phrase = self.inner(parser)?;
        tree::the_condition(phrase)
    }

    /// Reads a result: an expression or NULL (ISO/IEC 9075:1992, 6.9).
    #[tactic(auto, unfolding(crate::specs::Inner::Readers::result_at))]
    pub(crate) fn result(&self, parser: &mut Parser<'a>) -> Result<Expr<'a>, Stop>
        requires { Nests self.now.levels (F.pre self.now.inner) (F.post self.now.inner) }
        ensures { Reads expression_of (result_at (nested_at self.now.levels) (left parser.old)) result (left parser.new) }
    {
        if parser.word(b"NULL") {
            return Ok(Expr::Null);
        }
        self.expression(parser)
    }
}
