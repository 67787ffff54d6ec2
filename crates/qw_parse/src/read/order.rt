//! The order of a query's rows (ISO/IEC 9075:1992, 13.1).

ghost use Rattle.std.specs.Prelude.{◌≡◌, map};
ghost use Rattle.qw_ast.specs.SyntaxTree.{key_of, sort_of};
ghost use Rattle.qw_parse.specs.Inner.Readers.{direction_at, further_at, key_at, order_at, sort_at};
ghost use Rattle.qw_parse.specs.Inner.Parser.{Reads, left};

use super::parser::{Parser, Stop};
use super::tree::{in_front, push};
use qw_ast::script::{Key, SortSpecification};

impl<'a> Parser<'a> {
    /// Reads a sort key.
    #[tactic(auto, unfolding(crate::specs::Inner::Readers::key_at))]
    fn key(&mut self) -> Result<Key<'a>, Stop>
        ensures { Reads key_of (key_at (left self.old)) result (left self.new) }
    {
        if let Some(digits) = self.integer() {
            return Ok(Key::Ordinal(digits));
        }
        let name = self.name().ok_or(Stop::NotGrammar)?;
        Ok(Key::Column(name))
    }

    /// Whether DESC is next; it is read then, and so is ASC.
    #[tactic(auto, unfolding(crate::specs::Inner::Readers::direction_at))]
    fn direction(&mut self) -> bool
        ensures { (result, left self.new) ≡ direction_at (left self.old) }
    {
        if self.word(b"DESC") {
            return true;
        }
        self.word(b"ASC");
        false
    }

    /// Reads a sort specification.
    #[tactic(auto, unfolding(crate::specs::Inner::Readers::sort_at))]
    fn sort(&mut self) -> Result<SortSpecification<'a>, Stop>
        ensures { Reads sort_of (sort_at (left self.old)) result (left self.new) }
    {
        let key = self.key()?;
        let is_descending = self.direction();
        Ok(SortSpecification { key, is_descending })
    }

    /// Reads as many sort specifications as there are, each behind a comma.
    #[tactic(auto, unfolding(crate::specs::Inner::Readers::further_at))]
    fn sorts(&mut self) -> Result<Vec<SortSpecification<'a>>, Stop>
        ensures { Reads (λ ss. map sort_of ss.items) (further_at sort_at (left self.old)) result (left self.new) }
    {
        let mut sorts = Vec::new(self.alloc);
        'sorts: while self.symbol(b",") {
            let sort = self.sort()?;
            push(&mut sorts, sort)?;
        }
        Ok(sorts)
    }

    /// Reads an order by clause, or nothing.
    #[tactic(auto, unfolding(crate::specs::Inner::Readers::order_at))]
    pub(crate) fn order(&mut self) -> Result<Vec<SortSpecification<'a>>, Stop>
        ensures { Reads (λ ss. map sort_of ss.items) (order_at (left self.old)) result (left self.new) }
    {
        if !self.word(b"ORDER") {
            return Ok(Vec::new(self.alloc));
        }
        self.expect_word(b"BY")?;
        let first = self.sort()?;
        let others = self.sorts()?;
        let order = in_front(first, others)?;
        Ok(order)
    }
}
