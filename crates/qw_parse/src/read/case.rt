//! CASE (ISO/IEC 9075:1992, 6.9).

ghost use Rattle.std.specs.Prelude.{◌≡◌, map, option_map, IfOk};
ghost use Rattle.qw_ast.specs.ScriptGrammar.{branching};
ghost use Rattle.qw_ast.specs.Syntax.{when};
ghost use Rattle.qw_ast.specs.SyntaxTree.{branching_of, expression_of};
ghost use Rattle.qw_parse.specs.Inner.Readers.{branch_at, branches_at, case_at, case_operand_at, chain_at, else_at, nested_at};
ghost use Rattle.qw_parse.specs.Inner.Parser.{Reads, branch_of, left};
ghost use Rattle.qw_parse.specs.Inner.Nests.{Nests};

use super::parser::{Parser, Stop};
use super::rules::Rules;
use super::tree::{boxed, boxes, push};
use qw_ast::script::{Branches, Expr, Phrase};
use std::alloc::{AllocError, Global};

/// What WHEN and THEN say.
#[derive(Drop)]
pub(crate) struct Branch<'a> {
    pub(crate) test: Phrase<'a>,
    pub(crate) result: Expr<'a>,
}

/// A branch before others.
fn before<'a>(
    alloc: Global,
    branch: Branch<'a>,
    others: Branches<'a>,
) -> Result<Branches<'a>, AllocError>
    ensures { IfOk result (λ chain. branching_of chain ≡ when (branch_of branch.entry).test (branch_of branch.entry).result (branching_of others.entry)) }
{
    let others = boxed(alloc, others)?;
    let (test, result) = boxes(alloc, branch.test, branch.result)?;
    Ok(Branches::When(test, result, others))
}

/// The branches in order, and the result of ELSE.
fn chained<'a>(
    alloc: Global,
    mut branches: Vec<Branch<'a>>,
    otherwise: Expr<'a>,
) -> Result<Branches<'a>, AllocError>
    ensures { IfOk result (λ chain. branching_of chain ≡ branching (map branch_of branches.entry.items) (expression_of otherwise.entry)) }
{
    let mut chain = Branches::Else(boxed(alloc, otherwise)?);
    'branches: while let Some(branch) = branches.pop() {
        chain = before(alloc, branch, chain)?;
    }
    Ok(chain)
}

impl<'a, F: Fn(&mut Parser<'a>, usize) -> Result<Phrase<'a>, Stop>> Rules<F> {
    /// Reads what stands behind WHEN: a condition where the CASE is searched, else an expression; THEN and a result.
    #[tactic(auto, unfolding(crate::specs::Inner::Readers::branch_at))]
    fn branch(&self, parser: &mut Parser<'a>, searched: bool) -> Result<Branch<'a>, Stop>
        requires { Nests self.now.levels (F.pre self.now.inner) (F.post self.now.inner) }
        ensures { Reads branch_of (branch_at (nested_at self.now.levels) searched (left parser.old)) result (left parser.new) }
    {
        let test = self.inner(parser)?;
        if matches!(test, Phrase::Condition(_)) != searched {
            return Err(Stop::NotGrammar);
        }
        parser.expect_word(b"THEN")?;
        let result = self.result(parser)?;
        Ok(Branch { test, result })
    }

    /// Reads as many branches as there are, each behind WHEN.
    #[tactic(auto, unfolding(crate::specs::Inner::Readers::branches_at))]
    fn branches(&self, parser: &mut Parser<'a>, searched: bool) -> Result<Vec<Branch<'a>>, Stop>
        requires { Nests self.now.levels (F.pre self.now.inner) (F.post self.now.inner) }
        ensures { Reads (λ bs. map branch_of bs.items) (branches_at (nested_at self.now.levels) searched (left parser.old)) result (left parser.new) }
    {
        let mut branches = Vec::new(parser.alloc);
        'items: while parser.word(b"WHEN") {
            let branch = self.branch(parser, searched)?;
            push(&mut branches, branch)?;
        }
        Ok(branches)
    }

    /// Reads ELSE and a result, or nothing, which is ELSE NULL; and END.
    #[tactic(auto, unfolding(crate::specs::Inner::Readers::else_at))]
    fn otherwise(&self, parser: &mut Parser<'a>) -> Result<Expr<'a>, Stop>
        requires { Nests self.now.levels (F.pre self.now.inner) (F.post self.now.inner) }
        ensures { Reads expression_of (else_at (nested_at self.now.levels) (left parser.old)) result (left parser.new) }
    {
        if parser.word(b"ELSE") {
            let result = self.result(parser)?;
            parser.expect_word(b"END")?;
            return Ok(result);
        }
        parser.expect_word(b"END")?;
        Ok(Expr::Null)
    }

    /// Reads what stands between CASE and WHEN.
    #[tactic(auto, unfolding(crate::specs::Inner::Readers::case_operand_at))]
    fn case_operand(&self, parser: &mut Parser<'a>) -> Result<Option<Box<Expr<'a>>>, Stop>
        requires { Nests self.now.levels (F.pre self.now.inner) (F.post self.now.inner) }
        ensures { Reads (option_map (λ b. expression_of b.value)) (case_operand_at (nested_at self.now.levels) (left parser.old)) result (left parser.new) }
    {
        if parser.is_word(b"WHEN") {
            return Ok(None);
        }
        let operand = self.expression(parser)?;
        Ok(Some(boxed(parser.alloc, operand)?))
    }

    /// Reads the branches, one at least, ELSE and END.
    #[tactic(auto, unfolding(crate::specs::Inner::Readers::chain_at))]
    fn chain(&self, parser: &mut Parser<'a>, searched: bool) -> Result<Box<Branches<'a>>, Stop>
        requires { Nests self.now.levels (F.pre self.now.inner) (F.post self.now.inner) }
        ensures { Reads (λ b. branching_of b.value) (chain_at (nested_at self.now.levels) searched (left parser.old)) result (left parser.new) }
    {
        let branches = self.branches(parser, searched)?;
        let otherwise = self.otherwise(parser)?;
        if branches.is_empty() {
            return Err(Stop::NotGrammar);
        }
        let chain = chained(parser.alloc, branches, otherwise)?;
        Ok(boxed(parser.alloc, chain)?)
    }

    /// Reads what stands behind CASE.
    #[tactic(auto, unfolding(crate::specs::Inner::Readers::case_at))]
    pub(crate) fn case(&self, parser: &mut Parser<'a>) -> Result<Expr<'a>, Stop>
        requires { Nests self.now.levels (F.pre self.now.inner) (F.post self.now.inner) }
        ensures { Reads expression_of (case_at (nested_at self.now.levels) (left parser.old)) result (left parser.new) }
    {
        let operand = self.case_operand(parser)?;
        let chain = self.chain(parser, operand.is_none())?;
        match operand {
            Some(operand) => Ok(Expr::Match(operand, chain)),
            None => Ok(Expr::Case(chain)),
        }
    }
}
