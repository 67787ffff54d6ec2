//! The groups of a query's rows: GROUP BY (ISO/IEC 9075:1992, 7.7).

ghost use Rattle.std.specs.Prelude.{◌≡◌, map};
ghost use Rattle.qw_ast.specs.SyntaxTree.{reference_of};
ghost use Rattle.qw_parse.specs.Inner.Readers.{further_at, grouping_at, reference_at};
ghost use Rattle.qw_parse.specs.Inner.Parser.{Reads, left};

use super::parser::{Parser, Stop};
use super::tree::{in_front, push};
use qw_ast::script::Reference;

impl<'a> Parser<'a> {
    /// Reads a column reference (6.4).
    #[tactic(auto, unfolding(crate::specs::Inner::Readers::reference_at))]
    fn reference(&mut self) -> Result<Reference<'a>, Stop>
        ensures { Reads reference_of (reference_at (left self.old)) result (left self.new) }
    {
        let first = self.name().ok_or(Stop::NotGrammar)?;
        if !self.symbol(b".") {
            return Ok(Reference {
                qualifier: None,
                name: first,
            });
        }
        let name = self.name().ok_or(Stop::NotGrammar)?;
        Ok(Reference {
            qualifier: Some(first),
            name,
        })
    }

    /// Reads as many column references as there are, each behind a comma.
    #[tactic(auto, unfolding(crate::specs::Inner::Readers::further_at))]
    fn references(&mut self) -> Result<Vec<Reference<'a>>, Stop>
        ensures { Reads (λ rs. map reference_of rs.items) (further_at reference_at (left self.old)) result (left self.new) }
    {
        let mut references = Vec::new(self.alloc);
        'references: while self.symbol(b",") {
            let reference = self.reference()?;
            push(&mut references, reference)?;
        }
        Ok(references)
    }

    /// Reads a group by clause, or nothing.
    #[tactic(auto, unfolding(crate::specs::Inner::Readers::grouping_at))]
    pub(crate) fn grouping(&mut self) -> Result<Vec<Reference<'a>>, Stop>
        ensures { Reads (λ rs. map reference_of rs.items) (grouping_at (left self.old)) result (left self.new) }
    {
        if !self.word(b"GROUP") {
            return Ok(Vec::new(self.alloc));
        }
        self.expect_word(b"BY")?;
        let first = self.reference()?;
        let others = self.references()?;
        let grouping = in_front(first, others)?;
        Ok(grouping)
    }
}
