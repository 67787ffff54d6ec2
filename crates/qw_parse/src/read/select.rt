//! Queries (ISO/IEC 9075:1992, 7.9, 7.3, 7.4, 7.5, 7.6, 7.8; 7.7 for their groups, 13.1 for the order of their rows).

ghost use Rattle.std.specs.Prelude.{◌≡◌, option_map, map};
ghost use Rattle.qw_token.specs.Token.{lexemes};
ghost use Rattle.qw_ast.specs.SyntaxTree.{condition_of, entry_of, expression_of, item_of, joined_of, octets_of, selected_of, source_of};
ghost use Rattle.qw_ast.specs.SyntaxTree as tree;
ghost use Rattle.qw_parse.specs.Inner.Readers as readers;
ghost use Rattle.qw_parse.specs.Inner.Readers.{condition_at, entry_at, expression_at, filter_at, further_at, having_at, item_at, joined_at, joins_at, naming_at, nested_at, quantifier_at, select_at, select_list_at, source_at, sources_at};
ghost use Rattle.qw_parse.specs.Inner.Parser.{Finds, Reads, left};

use super::parser::{Parser, Stop};
use super::rank::nested;
use super::tree::{in_front, push, the_condition, the_expression};
use qw_ast::script::{Cond, Entry, Expr, Item, Joined, SelectList, Source, Statement};
use qw_token::token::Token;
use std::alloc::Global;

/// How many levels of brackets and CASEs are read. A statement in which more than 32 are open is refused before.
const LEVELS: usize = 33;

impl<'a> Parser<'a> {
    /// Reads a name behind AS or alone, or nothing.
    #[tactic(auto, unfolding(crate::specs::Inner::Readers::naming_at))]
    fn naming(&mut self) -> Result<Option<&'a [u8]>, Stop>
        ensures { Reads octets_of (naming_at (left self.old)) result (left self.new) }
    {
        if self.word(b"AS") {
            let name = self.name().ok_or(Stop::NotGrammar)?;
            return Ok(Some(name));
        }
        Ok(self.name())
    }

    /// Reads an expression.
    #[tactic(auto, unfolding(crate::specs::Inner::Readers::expression_at))]
    fn expression(&mut self) -> Result<Expr<'a>, Stop>
        ensures { Reads expression_of (expression_at (nested_at 33) (left self.old)) result (left self.new) }
    {
        let phrase = nested(self, LEVELS)?;
        the_expression(phrase)
    }

    /// Reads a condition.
    #[tactic(auto, unfolding(crate::specs::Inner::Readers::condition_at))]
    fn condition(&mut self) -> Result<Cond<'a>, Stop>
        ensures { Reads condition_of (condition_at (nested_at 33) (left self.old)) result (left self.new) }
    {
        let phrase = nested(self, LEVELS)?;
        the_condition(phrase)
    }

    /// Reads an item of a select list.
    #[tactic(auto, unfolding(crate::specs::Inner::Readers::item_at))]
    fn item(&mut self) -> Result<Item<'a>, Stop>
        ensures { Reads item_of (item_at (nested_at 33) (left self.old)) result (left self.new) }
    {
        let expression = self.expression()?;
        let name = self.naming()?;
        Ok(Item { expression, name })
    }

    /// Reads as many items as there are, each behind a comma.
    #[tactic(auto, unfolding(crate::specs::Inner::Readers::further_at))]
    fn items(&mut self) -> Result<Vec<Item<'a>>, Stop>
        ensures { Reads (λ is. map item_of is.items) (further_at (item_at (nested_at 33)) (left self.old)) result (left self.new) }
    {
        let mut items = Vec::new(self.alloc);
        'items: while self.symbol(b",") {
            let item = self.item()?;
            push(&mut items, item)?;
        }
        Ok(items)
    }

    /// Reads a select list.
    #[tactic(auto, unfolding(crate::specs::Inner::Readers::select_list_at))]
    fn select_list(&mut self) -> Result<SelectList<'a>, Stop>
        ensures { Reads selected_of (select_list_at (nested_at 33) (left self.old)) result (left self.new) }
    {
        if self.symbol(b"*") {
            return Ok(SelectList::All);
        }
        let first = self.item()?;
        let others = self.items()?;
        let items = in_front(first, others)?;
        Ok(SelectList::Items(items))
    }

    /// Reads a where clause, or nothing.
    #[tactic(auto, unfolding(crate::specs::Inner::Readers::filter_at))]
    fn filter(&mut self) -> Result<Option<Cond<'a>>, Stop>
        ensures { Reads (option_map condition_of) (filter_at (nested_at 33) (left self.old)) result (left self.new) }
    {
        if !self.word(b"WHERE") {
            return Ok(None);
        }
        let condition = self.condition()?;
        Ok(Some(condition))
    }

    /// Reads a having clause, or nothing.
    #[tactic(auto, unfolding(crate::specs::Inner::Readers::having_at))]
    fn having(&mut self) -> Result<Option<Cond<'a>>, Stop>
        ensures { Reads (option_map condition_of) (having_at (nested_at 33) (left self.old)) result (left self.new) }
    {
        if !self.word(b"HAVING") {
            return Ok(None);
        }
        let condition = self.condition()?;
        Ok(Some(condition))
    }

    /// Reads an entry of FROM: the name of a table, and an alias or none.
    #[tactic(auto, unfolding(crate::specs::Inner::Readers::entry_at))]
    fn entry(&mut self) -> Result<Entry<'a>, Stop>
        ensures { Reads entry_of (entry_at (left self.old)) result (left self.new) }
    {
        let table = self.regular()?;
        let alias = self.naming()?;
        Ok(Entry { table, alias })
    }

    /// Reads what stands behind JOIN.
    #[tactic(auto, unfolding(crate::specs::Inner::Readers::joined_at))]
    fn joined(&mut self) -> Result<(Entry<'a>, Cond<'a>), Stop>
        ensures { Reads (λ x. (entry_of x.0, condition_of x.1)) (joined_at (nested_at 33) (left self.old)) result (left self.new) }
    {
        let entry = self.entry()?;
        self.expect_word(b"ON")?;
        let on = self.condition()?;
        Ok((entry, on))
    }

    /// Reads as many joins as there are.
    #[tactic(auto, unfolding(crate::specs::Inner::Readers::joins_at))]
    fn joins(&mut self) -> Result<Vec<Joined<'a>>, Stop>
        ensures { Reads (λ js. map joined_of js.items) (joins_at (nested_at 33) (left self.old)) result (left self.new) }
    {
        let mut joins = Vec::new(self.alloc);
        'joins: while let Some(outer) = self.join() {
            let (entry, on) = self.joined()?;
            push(&mut joins, Joined { entry, outer, on })?;
        }
        Ok(joins)
    }

    /// Reads a source: an entry, and what is joined to it.
    #[tactic(auto, unfolding(crate::specs::Inner::Readers::source_at))]
    fn source(&mut self) -> Result<Source<'a>, Stop>
        ensures { Reads source_of (source_at (nested_at 33) (left self.old)) result (left self.new) }
    {
        let first = self.entry()?;
        let joins = self.joins()?;
        Ok(Source { first, joins })
    }

    /// Reads as many sources as there are, each behind a comma.
    #[tactic(auto, unfolding(crate::specs::Inner::Readers::further_at))]
    fn further_sources(&mut self) -> Result<Vec<Source<'a>>, Stop>
        ensures { Reads (λ ss. map source_of ss.items) (further_at (source_at (nested_at 33)) (left self.old)) result (left self.new) }
    {
        let mut sources = Vec::new(self.alloc);
        'sources: while self.symbol(b",") {
            let source = self.source()?;
            push(&mut sources, source)?;
        }
        Ok(sources)
    }

    /// Reads what stands behind FROM.
    #[tactic(auto, unfolding(crate::specs::Inner::Readers::sources_at))]
    fn sources(&mut self) -> Result<Vec<Source<'a>>, Stop>
        ensures { Reads (λ ss. map source_of ss.items) (sources_at (nested_at 33) (left self.old)) result (left self.new) }
    {
        let first = self.source()?;
        let others = self.further_sources()?;
        let sources = in_front(first, others)?;
        Ok(sources)
    }

    /// Whether DISTINCT is next; it is read then, and so is ALL.
    #[tactic(auto, unfolding(crate::specs::Inner::Readers::quantifier_at))]
    fn quantifier(&mut self) -> bool
        ensures { (result, left self.new) ≡ quantifier_at (left self.old) }
    {
        if self.word(b"DISTINCT") {
            return true;
        }
        self.word(b"ALL");
        false
    }

    /// Reads a query.
    #[tactic(auto, unfolding(crate::specs::Inner::Readers::select_at))]
    fn select(&mut self) -> Result<Statement<'a>, Stop>
        ensures { Reads tree.select_of (select_at (nested_at 33) (left self.old)) result (left self.new) }
    {
        self.expect_word(b"SELECT")?;
        let distinct = self.quantifier();
        let list = self.select_list()?;
        self.expect_word(b"FROM")?;
        let sources = self.sources()?;
        let condition = self.filter()?;
        let grouping = self.grouping()?;
        let having = self.having()?;
        let order = self.order()?;
        Ok(Statement {
            distinct,
            list,
            sources,
            condition,
            grouping,
            having,
            order,
        })
    }
}

/// The query that all tokens are.
#[tactic(auto, unfolding(crate::specs::Inner::Readers::select_of))]
pub(crate) fn query<'a>(alloc: Global, tokens: &[Token<'a>]) -> Result<Statement<'a>, Stop>
    ensures { Finds tree.select_of (readers.select_of (lexemes tokens.now)) result }
{
    let mut parser = Parser::new(alloc, tokens)?;
    let statement = parser.select()?;
    if !parser.is_done() {
        return Err(Stop::NotGrammar);
    }
    Ok(statement)
}
