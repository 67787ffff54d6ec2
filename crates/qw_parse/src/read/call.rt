//! Functions, EXTRACT, set functions and lists of expressions (ISO/IEC 9075:1992, 6.9, 6.6, 6.5, 8.4).

ghost use Rattle.std.specs.Prelude.{◌≡◌, map, IfOk};
ghost use Rattle.qw_ast.specs.ScriptGrammar.{arguments};
ghost use Rattle.qw_ast.specs.Syntax.{further, last};
ghost use Rattle.qw_ast.specs.SyntaxTree.{expression_of, expressions_of};
ghost use Rattle.qw_parse.specs.Inner.Readers.{argument_at, before_at, call_at, expression_at, extract_at, further_at, listing_at, nested_at, rows_at, set_function_at};
ghost use Rattle.qw_parse.specs.Inner.Parser.{Reads, left};
ghost use Rattle.qw_parse.specs.Inner.Nests.{Nests};

use super::parser::{Parser, Stop};
use super::rules::Rules;
use super::terminal::takes;
use super::tree::{boxed, boxes, push};
use qw_ast::script::{Expr, Exprs, Phrase, SetFunction};
use qw_scalar::expression::Function;
use std::alloc::{AllocError, Global};

/// A list of one expression.
fn alone<'a>(alloc: Global, expression: Expr<'a>) -> Result<Exprs<'a>, AllocError>
    ensures { IfOk result (λ list. expressions_of list ≡ last (expression_of expression.entry)) }
{
    Ok(Exprs::Last(boxed(alloc, expression)?))
}

/// The list with one more expression before it.
fn with_first<'a>(
    alloc: Global,
    expression: Expr<'a>,
    list: Exprs<'a>,
) -> Result<Exprs<'a>, AllocError>
    ensures { IfOk result (λ made. expressions_of made ≡ further (expression_of expression.entry) (expressions_of list.entry)) }
{
    let (expression, list) = boxes(alloc, expression, list)?;
    Ok(Exprs::More(expression, list))
}

/// The first expression and the others, in order.
pub(crate) fn listed<'a>(
    alloc: Global,
    first: Expr<'a>,
    mut others: Vec<Expr<'a>>,
) -> Result<Exprs<'a>, AllocError>
    ensures { IfOk result (λ list. expressions_of list ≡ arguments (expression_of first.entry) (map expression_of others.entry.items)) }
{
    let Some(last) = others.pop() else {
        return alone(alloc, first);
    };
    let mut list = alone(alloc, last)?;
    'others: while let Some(expression) = others.pop() {
        list = with_first(alloc, expression, list)?;
    }
    with_first(alloc, first, list)
}

/// Reads what stands behind `*` of a set function, which is COUNT. Its place is the number of tokens behind it.
#[tactic(auto, unfolding(crate::specs::Inner::Readers::rows_at))]
fn rows<'a>(parser: &mut Parser<'a>, function: SetFunction) -> Result<Expr<'a>, Stop>
    ensures { Reads expression_of (rows_at function (left parser.old)) result (left parser.new) }
{
    if !matches!(function, SetFunction::Count) {
        return Err(Stop::NotGrammar);
    }
    parser.expect_symbol(b")")?;
    Ok(Expr::CountRows(parser.count()))
}

impl<'a, F: Fn(&mut Parser<'a>, usize) -> Result<Phrase<'a>, Stop>> Rules<F> {
    /// Reads as many expressions as there are, each behind a comma.
    #[tactic(auto, unfolding(crate::specs::Inner::Readers::further_at))]
    pub(crate) fn further(&self, parser: &mut Parser<'a>) -> Result<Vec<Expr<'a>>, Stop>
        requires { Nests self.now.levels (F.pre self.now.inner) (F.post self.now.inner) }
        ensures { Reads (λ es. map expression_of es.items) (further_at (expression_at (nested_at self.now.levels)) (left parser.old)) result (left parser.new) }
    {
        let mut expressions = Vec::new(parser.alloc);
        'items: while parser.symbol(b",") {
            let expression = self.expression(parser)?;
            push(&mut expressions, expression)?;
        }
        Ok(expressions)
    }

    /// Reads an expression and the symbol behind it.
    #[tactic(auto, unfolding(crate::specs::Inner::Readers::before_at))]
    fn before(&self, parser: &mut Parser<'a>, symbol: &[u8]) -> Result<Box<Expr<'a>>, Stop>
        requires { Nests self.now.levels (F.pre self.now.inner) (F.post self.now.inner) }
        ensures { Reads (λ b. expression_of b.value) (before_at (nested_at self.now.levels) symbol.now (left parser.old)) result (left parser.new) }
    {
        let expression = self.expression(parser)?;
        let expression = boxed(parser.alloc, expression)?;
        parser.expect_symbol(symbol)?;
        Ok(expression)
    }

    /// Reads expressions with commas between them, in brackets: the first and the others.
    #[tactic(auto, unfolding(crate::specs::Inner::Readers::listing_at))]
    pub(crate) fn listing(&self, parser: &mut Parser<'a>) -> Result<(Expr<'a>, Vec<Expr<'a>>), Stop>
        requires { Nests self.now.levels (F.pre self.now.inner) (F.post self.now.inner) }
        ensures { Reads (λ l. (expression_of l.0, map expression_of l.1.items)) (listing_at (nested_at self.now.levels) (left parser.old)) result (left parser.new) }
    {
        parser.expect_symbol(b"(")?;
        let first = self.expression(parser)?;
        let others = self.further(parser)?;
        parser.expect_symbol(b")")?;
        Ok((first, others))
    }

    /// Reads what stands behind the word of a function.
    #[tactic(auto, unfolding(crate::specs::Inner::Readers::call_at))]
    pub(crate) fn call(&self, parser: &mut Parser<'a>, function: Function) -> Result<Expr<'a>, Stop>
        requires { Nests self.now.levels (F.pre self.now.inner) (F.post self.now.inner) }
        ensures { Reads expression_of (call_at (nested_at self.now.levels) function (left parser.old)) result (left parser.new) }
    {
        let (first, others) = self.listing(parser)?;
        if !takes(function, others.len()) {
            return Err(Stop::NotGrammar);
        }
        let list = listed(parser.alloc, first, others)?;
        Ok(Expr::Call(function, boxed(parser.alloc, list)?))
    }

    /// Reads what stands behind EXTRACT.
    #[tactic(auto, unfolding(crate::specs::Inner::Readers::extract_at))]
    pub(crate) fn extract(&self, parser: &mut Parser<'a>) -> Result<Expr<'a>, Stop>
        requires { Nests self.now.levels (F.pre self.now.inner) (F.post self.now.inner) }
        ensures { Reads expression_of (extract_at (nested_at self.now.levels) (left parser.old)) result (left parser.new) }
    {
        parser.expect_symbol(b"(")?;
        let field = parser.field()?;
        parser.expect_word(b"FROM")?;
        let date = self.before(parser, b")")?;
        Ok(Expr::Extract(field, date))
    }

    /// Reads the argument of a set function and `)`. Its place is the number of tokens behind it.
    #[tactic(auto, unfolding(crate::specs::Inner::Readers::argument_at, crate::specs::Inner::Readers::behind_all))]
    fn argument(&self, parser: &mut Parser<'a>, function: SetFunction) -> Result<Expr<'a>, Stop>
        requires { Nests self.now.levels (F.pre self.now.inner) (F.post self.now.inner) }
        ensures { Reads expression_of (argument_at (nested_at self.now.levels) function (left parser.old)) result (left parser.new) }
    {
        parser.word(b"ALL");
        let argument = self.before(parser, b")")?;
        let place = parser.count();
        Ok(Expr::SetFunction(place, function, argument))
    }

    /// Reads what stands behind the word of a set function.
    #[tactic(auto, unfolding(crate::specs::Inner::Readers::set_function_at))]
    pub(crate) fn set_function(
        &self,
        parser: &mut Parser<'a>,
        function: SetFunction,
    ) -> Result<Expr<'a>, Stop>
        requires { Nests self.now.levels (F.pre self.now.inner) (F.post self.now.inner) }
        ensures { Reads expression_of (set_function_at (nested_at self.now.levels) function (left parser.old)) result (left parser.new) }
    {
        parser.expect_symbol(b"(")?;
        if parser.symbol(b"*") {
            return rows(parser, function);
        }
        self.argument(parser, function)
    }
}
