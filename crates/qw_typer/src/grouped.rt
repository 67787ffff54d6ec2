//! A query with GROUP BY, HAVING or a set function over the entries of its FROM (ISO/IEC 9075:1992, 6.5, 7.7 to 7.9).

ghost use Rattle.std.specs.Prelude.{◌≡◌, IfOk, MatchResult, Ok, length, map};
ghost use Rattle.qw_ast.specs.Limits.{entries_of, items_of, over_items};
ghost use Rattle.qw_ast.specs.SyntaxTree as syntax;
ghost use Rattle.qw_ast.specs.SyntaxTree.{select_of};
ghost use Rattle.qw_scalar.specs.Tree.{expression_of};
ghost use Rattle.qw_typer.specs.Functions.{functions_in};
ghost use Rattle.qw_typer.specs.Inner.Functions.{all_written};
ghost use Rattle.qw_typer.specs.Inner.Grouping.{FitsBehind, FitsGroups, behind_of, groups_of, over_group, starred_nodes, table_of, typed_behind, typed_groups};
ghost use Rattle.qw_typer.specs.Inner.Sizes.{FitsItems, octets};
ghost use Rattle.qw_typer.specs.Inner.Typing.{Refuses, as_entries, as_grouping, typed_list};
ghost use Rattle.qw_typer.specs.Typed.{result_names};

use crate::functions::Written;
use crate::grouping::{Placed, columns, expect_few, functions};
use crate::refusal::Refusal;
use crate::scope::{Entry, Grouping, Scope};
use crate::sources::sources;
use crate::starred::starred;
use crate::statement::{filter, items_of, names};
use qw_ast::script::{SelectList, Statement};
use qw_grouped::GroupedColumn;
use qw_meaning::query::Source;
use qw_scalar::expression::{Cond, Expr};
use qw_types::Text;
use std::alloc::Global;

/// What groups a query.
#[derive(Drop)]
pub(crate) struct Groups {
    pub(crate) columns: Vec<GroupedColumn>,
    pub(crate) functions: Placed,
}

/// What a grouped query is over the entries of its FROM and over its grouped table, but for what groups it.
#[derive(Drop)]
pub(crate) struct Behind {
    pub(crate) sources: Vec<Source>,
    pub(crate) conjuncts: Vec<Cond>,
    pub(crate) having: Vec<Cond>,
    pub(crate) items: Vec<Expr>,
    pub(crate) names: Vec<Text>,
}

impl Groups {
    /// The grouped table.
    pub(crate) fn table(&self) -> Grouping<'_>
        ensures { as_grouping result ≡ table_of (groups_of self.now) }
    {
        Grouping {
            columns: self.columns.as_slice(),
            functions: self.functions.columns.as_slice(),
        }
    }
}

/// The columns of GROUP BY and the set functions.
#[tactic(auto, using(crate::proofs::OutcomeLemmas::refuses_after, crate::proofs::OutcomeLemmas::refuses_then, crate::proofs::OutcomeLemmas::refuses_memory))]
pub(crate) fn group_by<'a>(
    alloc: Global,
    entries: &[Entry<'_>],
    statement: &Statement<'a>,
    written: &[Written<'_, 'a>],
) -> Result<Groups, Refusal<'a>>
    requires written { all_written written.now ≡ functions_in (select_of statement.now) }
    ensures gives { MatchResult result (λ made. typed_groups (as_entries entries.now) (select_of statement.now) ≡ Ok (groups_of made))
        (λ refusal. Refuses refusal (typed_groups (as_entries entries.now) (select_of statement.now))) }
    ensures fits { IfOk result (λ made. FitsGroups made (select_of statement.now)) }
{
    let columns = columns(alloc, entries, statement.grouping.as_slice())?;
    let functions = functions(alloc, entries, written)?;
    expect_few(written)?;
    Ok(Groups { columns, functions })
}

/// What stands over the grouped table, FROM and WHERE.
#[tactic(auto, using(crate::proofs::OutcomeLemmas::refuses_after, crate::proofs::OutcomeLemmas::refuses_then, crate::proofs::OutcomeLemmas::refuses_memory))]
pub(crate) fn clauses<'a>(
    alloc: Global,
    entries: &[Entry<'a>],
    table: Grouping<'_>,
    statement: &Statement<'a>,
) -> Result<Behind, Refusal<'a>>
    requires { length entries.now ≡ length (entries_of (select_of statement.now).sources) }
    ensures gives { MatchResult result (λ made. (typed_behind (as_entries entries.now) (as_grouping table.entry) (select_of statement.now) ≡ Ok (behind_of made)) × (made.names.items ≡ result_names (over_group (as_entries entries.now) (as_grouping table.entry)) (select_of statement.now).selected))
        (λ refusal. Refuses refusal (typed_behind (as_entries entries.now) (as_grouping table.entry) (select_of statement.now))) }
    ensures fits { IfOk result (λ made. FitsBehind made (as_entries entries.now) (select_of statement.now)) }
{
    let scope = Scope {
        entries,
        grouping: Some(table),
    };
    let items = list_over(alloc, entries, &table, &statement.list)?;
    let sources = sources(alloc, entries, statement.sources.as_slice())?;
    let having = filter(alloc, &scope, &statement.having)?;
    let conjuncts = filter(alloc, &Scope::ungrouped(entries), &statement.condition)?;
    let names = names(alloc, &scope, &statement.list).map_err(|_| Refusal::NoMemory)?;
    Ok(Behind {
        sources,
        conjuncts,
        having,
        items,
        names,
    })
}

/// The expressions of a select list over the grouped table.
#[tactic(auto, unfolding(crate::specs::Inner::Typing::Refuses))]
fn list_over<'a>(
    alloc: Global,
    entries: &[Entry<'a>],
    table: &Grouping<'_>,
    list: &SelectList<'a>,
) -> Result<Vec<Expr>, Refusal<'a>>
    ensures gives { MatchResult result (λ made. typed_list (over_group (as_entries entries.now) (as_grouping table.now)) (syntax.selected_of list.now) ≡ Ok (map expression_of made.items))
        (λ refusal. Refuses refusal (typed_list (over_group (as_entries entries.now) (as_grouping table.now)) (syntax.selected_of list.now))) }
    ensures fits { IfOk result (λ made. FitsItems made.items (starred_nodes (as_entries entries.now) (syntax.selected_of list.now)) (over_items octets (items_of (syntax.selected_of list.now)))) }
{
    match list {
        SelectList::All => starred(alloc, entries, table),
        SelectList::Items(items) => items_of(
            alloc,
            &Scope {
                entries,
                grouping: Some(*table),
            },
            items.as_slice(),
        ),
    }
}
