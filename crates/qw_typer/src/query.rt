//! A query over the tables of a schema (ISO/IEC 9075:1992, 7.4, 7.6, 7.9, 13.1): what it means, the names of its result columns, and the
//! keys of its order.

ghost use Rattle.std.specs.Prelude.{◌≡◌, ◌≤◌, true, false, [], MatchResult, IfOk, Ok, length};
ghost use Rattle.qw_ast.specs.Limits.{entries_of};
ghost use Rattle.qw_ast.specs.SyntaxTree.{select_of};
ghost use Rattle.qw_grouped.specs.WholeQuery.{whole_of};
ghost use Rattle.qw_meaning.specs.Query.{query_of};
ghost use Rattle.qw_typer.specs.Functions.{functions_in};
ghost use Rattle.qw_typer.specs.Grouping.{is_grouped};
ghost use Rattle.qw_typer.specs.Inner.Functions.{all_written};
ghost use Rattle.qw_typer.specs.Inner.Grouping.{FitsBody};
ghost use Rattle.qw_typer.specs.Inner.Queries.{IsFrom, IsOneOf, parts_of};
ghost use Rattle.qw_typer.specs.Inner.Sizes.{FitsQuery, column_count};
ghost use Rattle.qw_typer.specs.Inner.Typing.{Refuses, as_entries, typed_over};
ghost use Rattle.qw_typer.specs.Keys.{keys_faults, keys_meant};
ghost use Rattle.qw_typer.specs.Meant.{ungrouped};
ghost use Rattle.qw_typer.specs.Typed.{IsWithin, Means, query_faults, result_names};

use crate::entries::{entries, named};
use crate::functions::{Written, functions};
use crate::grouped::{clauses, group_by};
use crate::grouping::or_rows;
use crate::key::keys;
use crate::refusal::Refusal;
use crate::scope::{Entry, Scope};
use crate::sources::sources;
use crate::statement::{filter, list, names};
use qw_ast::script::Statement;
use qw_grouped::GroupedQuery;
use qw_grouped::whole::{Body, WholeQuery};
use qw_meaning::query::{Query, Source};
use qw_order::SortKey;
use qw_scalar::expression::{Cond, Expr};
use qw_types::{Schema, Text};
use std::alloc::Global;

/// A query over a schema's tables: what it means, the names of its result columns in order, and the keys by which its rows are sorted.
#[derive(Drop)]
pub struct TypedQuery {
    pub query: WholeQuery,
    pub names: Vec<Text>,
    pub keys: Vec<SortKey>,
}

/// What a query is over the entries of its FROM.
#[derive(Drop)]
struct Over {
    sources: Vec<Source>,
    conjuncts: Vec<Cond>,
    items: Vec<Expr>,
    names: Vec<Text>,
}

/// A query over the tables of a schema.
#[tactic(auto, using(crate::proofs::QueryLemmas::memory_refused))]
pub(crate) fn query<'a>(
    alloc: Global,
    schema: &'a Schema,
    statement: &Statement<'a>,
) -> Result<TypedQuery, Refusal<'a>>
    requires { IsWithin (select_of statement.now) }
    ensures means { MatchResult result (λ made. Means schema.now (select_of statement.now) (whole_of made.query) made.names.items made.keys.items)
        (λ refusal. IsOneOf refusal (query_faults schema.now (select_of statement.now))) }
    ensures fits { IfOk result (λ made. FitsBody made.query.body (select_of statement.now)) }
{
    let sources = statement.sources.as_slice();
    let named = named(alloc, sources).map_err(|_| Refusal::NoMemory)?;
    let entries = entries(alloc, schema.as_slice(), named.as_slice())?;
    over_from(alloc, schema, entries.as_slice(), statement)
}

/// A query over the tables of a schema, which the entries of its FROM are.
#[tactic(auto, using(crate::proofs::QueryLemmas::memory_refused))]
fn over_from<'a>(
    alloc: Global,
    schema: &Schema,
    entries: &[Entry<'a>],
    statement: &Statement<'a>,
) -> Result<TypedQuery, Refusal<'a>>
    requires within { IsWithin (select_of statement.now) }
    requires from { IsFrom schema.now (select_of statement.now) (as_entries entries.now) }
    ensures means { MatchResult result (λ made. Means schema.now (select_of statement.now) (whole_of made.query) made.names.items made.keys.items)
        (λ refusal. IsOneOf refusal (query_faults schema.now (select_of statement.now))) }
    ensures fits { IfOk result (λ made. FitsBody made.query.body (select_of statement.now)) }
{
    let written = functions(alloc, statement).map_err(|_| Refusal::NoMemory)?;
    if is_grouped(statement, written.as_slice()) {
        grouped_query(alloc, schema, entries, statement, written.as_slice())
    } else {
        plain_query(alloc, schema, entries, statement)
    }
}

/// Whether a query is grouped, by GROUP BY, by HAVING or by one of its set functions.
fn is_grouped(statement: &Statement<'_>, written: &[Written<'_, '_>]) -> bool
    requires { all_written written.now ≡ functions_in (select_of statement.now) }
    ensures { result ≡ is_grouped (select_of statement.now) }
{
    !(statement.grouping.is_empty() && statement.having.is_none() && written.is_empty())
}

/// A query that isn't grouped.
#[tactic(auto, using(crate::proofs::QueryLemmas::memory_refused))]
fn plain_query<'a>(
    alloc: Global,
    schema: &Schema,
    entries: &[Entry<'_>],
    statement: &Statement<'a>,
) -> Result<TypedQuery, Refusal<'a>>
    requires within { IsWithin (select_of statement.now) }
    requires from { IsFrom schema.now (select_of statement.now) (as_entries entries.now) }
    requires plain { is_grouped (select_of statement.now) ≡ false }
    ensures means { MatchResult result (λ made. Means schema.now (select_of statement.now) (whole_of made.query) made.names.items made.keys.items)
        (λ refusal. IsOneOf refusal (query_faults schema.now (select_of statement.now))) }
    ensures fits { IfOk result (λ made. FitsBody made.query.body (select_of statement.now)) }
{
    let distinct = statement.distinct;
    let over = over_entries(alloc, entries, statement)?;
    let keys = order_keys(alloc, over.names.as_slice(), statement)?;
    let plain = Query::new(over.sources, over.conjuncts, over.items);
    Ok(TypedQuery {
        query: WholeQuery {
            body: Body::Plain(plain),
            distinct,
        },
        names: over.names,
        keys,
    })
}

/// A query that is grouped.
#[tactic(auto, using(crate::proofs::QueryLemmas::memory_refused))]
fn grouped_query<'a>(
    alloc: Global,
    schema: &Schema,
    entries: &[Entry<'a>],
    statement: &Statement<'a>,
    written: &[Written<'_, 'a>],
) -> Result<TypedQuery, Refusal<'a>>
    requires within { IsWithin (select_of statement.now) }
    requires from { IsFrom schema.now (select_of statement.now) (as_entries entries.now) }
    requires grouped { is_grouped (select_of statement.now) ≡ true }
    requires written { all_written written.now ≡ functions_in (select_of statement.now) }
    ensures means { MatchResult result (λ made. Means schema.now (select_of statement.now) (whole_of made.query) made.names.items made.keys.items)
        (λ refusal. IsOneOf refusal (query_faults schema.now (select_of statement.now))) }
    ensures fits { IfOk result (λ made. FitsBody made.query.body (select_of statement.now)) }
{
    let groups = group_by(alloc, entries, statement, written)?;
    let behind = clauses(alloc, entries, groups.table(), statement)?;
    let keys = order_keys(alloc, behind.names.as_slice(), statement)?;
    let columns = groups.columns;
    let placed = groups.functions;
    let mut functions = placed.functions;
    or_rows(columns.as_slice(), &mut functions).map_err(|_| Refusal::NoMemory)?;
    let query = GroupedQuery::new(
        behind.sources,
        behind.conjuncts,
        columns,
        functions,
        behind.having,
        behind.items,
    );
    Ok(TypedQuery {
        query: WholeQuery {
            body: Body::Grouped(query),
            distinct: statement.distinct,
        },
        names: behind.names,
        keys,
    })
}

/// The keys of a query's order over the names of its result columns.
fn order_keys<'a>(
    alloc: Global,
    names: &[Text],
    statement: &Statement<'a>,
) -> Result<Vec<SortKey>, Refusal<'a>>
    ensures { MatchResult result (λ made. (keys_faults names.now (select_of statement.now).order ≡ []) × (made.items ≡ keys_meant names.now (select_of statement.now).order))
        (λ refusal. IsOneOf refusal (keys_faults names.now (select_of statement.now).order)) }
{
    keys(alloc, names, statement.order.as_slice())
}

/// A query over the entries of its FROM.
#[tactic(auto, using(crate::proofs::OutcomeLemmas::refuses_after, crate::proofs::OutcomeLemmas::refuses_then, crate::proofs::OutcomeLemmas::refuses_memory))]
fn over_entries<'a>(
    alloc: Global,
    entries: &[Entry<'_>],
    statement: &Statement<'a>,
) -> Result<Over, Refusal<'a>>
    requires { length entries.now ≡ length (entries_of (select_of statement.now).sources) }
    ensures gives { MatchResult result (λ over. (typed_over (ungrouped (as_entries entries.now)) (select_of statement.now) ≡ Ok (query_of (parts_of over))) × (over.names.items ≡ result_names (ungrouped (as_entries entries.now)) (select_of statement.now).selected))
        (λ refusal. Refuses refusal (typed_over (ungrouped (as_entries entries.now)) (select_of statement.now))) }
    ensures fits { column_count (as_entries entries.now) ≤ 512 → IfOk result (λ over. FitsQuery (parts_of over) (select_of statement.now)) }
{
    let scope = Scope::ungrouped(entries);
    let items = list(alloc, entries, &statement.list)?;
    let sources = sources(alloc, entries, statement.sources.as_slice())?;
    let conjuncts = filter(alloc, &scope, &statement.condition)?;
    let names = names(alloc, &scope, &statement.list).map_err(|_| Refusal::NoMemory)?;
    Ok(Over {
        sources,
        conjuncts,
        items,
        names,
    })
}
