//! Primaries (ISO/IEC 9075:1992, 6.11): literals, column references, brackets, CASE, functions and set functions.

ghost use Rattle.qw_ast.specs.Syntax as syntax;
ghost use Rattle.qw_ast.specs.SyntaxTree.{clause_of, expression_of};
ghost use Rattle.qw_parse.specs.Inner.Readers.{brackets_at, column_at, keyed_at, nested_at, other_at, primary_at, primary_by};
ghost use Rattle.qw_parse.specs.Inner.Parser.{Reads, left};
ghost use Rattle.qw_parse.specs.Inner.Nests.{Nests};

use super::parser::{Parser, Stop};
use super::rules::Rules;
use super::tree::in_brackets;
use qw_ast::script::{Expr, Phrase};

/// Reads a column reference (6.4).
#[tactic(auto, unfolding(crate::specs::Inner::Readers::column_at))]
fn column<'a>(parser: &mut Parser<'a>) -> Result<Expr<'a>, Stop>
    ensures { Reads expression_of (column_at (left parser.old)) result (left parser.new) }
{
    let first = parser.name().ok_or(Stop::NotGrammar)?;
    if !parser.symbol(b".") {
        return Ok(Expr::Column(None, first));
    }
    let name = parser.name().ok_or(Stop::NotGrammar)?;
    Ok(Expr::Column(Some(first), name))
}

impl<'a, F: Fn(&mut Parser<'a>, usize) -> Result<Phrase<'a>, Stop>> Rules<F> {
    /// Reads what stands behind `(`.
    #[tactic(auto, unfolding(crate::specs::Inner::Readers::brackets_at))]
    fn brackets(&self, parser: &mut Parser<'a>) -> Result<Phrase<'a>, Stop>
        requires { Nests self.now.levels (F.pre self.now.inner) (F.post self.now.inner) }
        ensures { Reads clause_of (brackets_at (nested_at self.now.levels) (left parser.old)) result (left parser.new) }
    {
        let phrase = self.inner(parser)?;
        parser.expect_symbol(b")")?;
        in_brackets(parser.alloc, phrase)
    }

    /// Reads a set function, a date or a column reference, by what is next.
    #[tactic(auto, unfolding(crate::specs::Inner::Readers::other_at))]
    fn other(&self, parser: &mut Parser<'a>) -> Result<Expr<'a>, Stop>
        requires { Nests self.now.levels (F.pre self.now.inner) (F.post self.now.inner) }
        ensures { Reads (λ e. syntax.expression (expression_of e)) (other_at (nested_at self.now.levels) (left parser.old)) result (left parser.new) }
    {
        if let Some(function) = parser.set_function() {
            return self.set_function(parser, function);
        }
        if parser.is_word(b"DATE") {
            let date = parser.date()?;
            return Ok(Expr::Date(date.string, date.intervals));
        }
        column(parser)
    }

    /// Reads a primary that begins with a word.
    #[tactic(auto, unfolding(crate::specs::Inner::Readers::keyed_at))]
    fn keyed(&self, parser: &mut Parser<'a>) -> Result<Expr<'a>, Stop>
        requires { Nests self.now.levels (F.pre self.now.inner) (F.post self.now.inner) }
        ensures { Reads (λ e. syntax.expression (expression_of e)) (keyed_at (nested_at self.now.levels) (left parser.old)) result (left parser.new) }
    {
        if parser.word(b"CASE") {
            return self.case(parser);
        }
        if let Some(function) = parser.function() {
            return self.call(parser, function);
        }
        if parser.word(b"EXTRACT") {
            return self.extract(parser);
        }
        self.other(parser)
    }

    /// Reads a primary, by what is next.
    #[tactic(auto, unfolding(crate::specs::Inner::Readers::primary_by))]
    fn begun(&self, parser: &mut Parser<'a>) -> Result<Phrase<'a>, Stop>
        requires { Nests self.now.levels (F.pre self.now.inner) (F.post self.now.inner) }
        ensures { Reads clause_of (primary_by (nested_at self.now.levels) (left parser.old)) result (left parser.new) }
    {
        if let Some(number) = parser.number() {
            return Ok(Phrase::Expression(Expr::Number(number)));
        }
        if let Some(text) = parser.string() {
            return Ok(Phrase::Expression(Expr::Text(text)));
        }
        if parser.symbol(b"(") {
            return self.brackets(parser);
        }
        let expression = self.keyed(parser)?;
        Ok(Phrase::Expression(expression))
    }

    /// Reads a primary, or a condition in brackets.
    pub(crate) fn primary(&self, parser: &mut Parser<'a>) -> Result<Phrase<'a>, Stop>
        requires { Nests self.now.levels (F.pre self.now.inner) (F.post self.now.inner) }
        ensures { Reads clause_of (primary_at (nested_at self.now.levels) (left parser.old)) result (left parser.new) }
    {
        self.begun(parser)
    }
}
