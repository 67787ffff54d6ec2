//! The sources of FROM over its entries (ISO/IEC 9075:1992, 7.4, 7.5): the conjuncts of each ON, over what it reaches.

ghost use Rattle.std.specs.Prelude.{◌≡◌, ◌+◌, MatchResult, IfOk, Ok, drop, length, map, take};
ghost use Rattle.qw_ast.specs.Limits.{entries_of, over_joins, over_sources};
ghost use Rattle.qw_ast.specs.SyntaxTree as syntax;
ghost use Rattle.qw_meaning.specs.Query.{joined_of, source_of};
ghost use Rattle.qw_typer.specs.Sizes.{tests_in, tests_on};
ghost use Rattle.qw_typer.specs.Inner.Sizes.{FitsTests, nodes_condition, octets_condition};
ghost use Rattle.qw_typer.specs.Inner.Typing.{Refuses, as_entries, as_entry, typed_joined, typed_joins, typed_source, typed_sources};

use crate::entries::meant;
use crate::refusal::Refusal;
use crate::scope::{Entry, Scope};
use crate::statement::conjuncts;
use qw_ast::script;
use qw_meaning::query::{Joined, Source};
use std::alloc::Global;

/// The sources, over the entries from the first one's on.
#[tactic(auto, using(crate::proofs::OutcomeLemmas::refuses_memory))]
pub(crate) fn sources<'a>(
    alloc: Global,
    entries: &[Entry<'_>],
    sources: &[script::Source<'a>],
) -> Result<Vec<Source>, Refusal<'a>>
    requires { length entries.now ≡ length (entries_of (map syntax.source_of sources.now)) }
    ensures gives { MatchResult result (λ made. typed_sources (as_entries entries.now) (map syntax.source_of sources.now) ≡ Ok (map source_of made.items))
        (λ refusal. Refuses refusal (typed_sources (as_entries entries.now) (map syntax.source_of sources.now))) }
    ensures fits { IfOk result (λ made. FitsTests (tests_on made.items) (over_sources nodes_condition (map syntax.source_of sources.now)) (over_sources octets_condition (map syntax.source_of sources.now))) }
{
    let mut made = Vec::new(alloc);
    let mut rest = sources;
    let mut others = entries;
    while let [source, behind @ ..] = rest {
        let count = source.joins.len() + 1;
        let typed = source_of(alloc, &others[..count], source)?;
        made.push(typed).map_err(|_| Refusal::NoMemory)?;
        others = &others[count..];
        rest = behind;
    }
    Ok(made)
}

/// A source over its own entries.
#[tactic(auto, using(crate::proofs::OutcomeLemmas::refuses_memory))]
fn source_of<'a>(
    alloc: Global,
    own: &[Entry<'_>],
    source: &script::Source<'a>,
) -> Result<Source, Refusal<'a>>
    requires { length own.now ≡ length source.now.joins.items + 1 }
    ensures gives { MatchResult result (λ made. typed_source (as_entries own.now) (syntax.source_of source.now) ≡ Ok (source_of made))
        (λ refusal. Refuses refusal (typed_source (as_entries own.now) (syntax.source_of source.now))) }
    ensures fits { IfOk result (λ made. FitsTests (tests_in made.joins.items) (over_joins nodes_condition (map syntax.joined_of source.now.joins.items)) (over_joins octets_condition (map syntax.joined_of source.now.joins.items))) }
{
    let joins = joins(alloc, own, source.joins.as_slice())?;
    let first = meant(alloc, &own[0]).map_err(|_| Refusal::NoMemory)?;
    Ok(Source { first, joins })
}

/// What is joined to the first of some entries, the others in order.
#[tactic(auto, using(crate::proofs::OutcomeLemmas::refuses_memory))]
fn joins<'a>(
    alloc: Global,
    own: &[Entry<'_>],
    joins: &[script::Joined<'a>],
) -> Result<Vec<Joined>, Refusal<'a>>
    requires { length own.now ≡ length joins.now + 1 }
    ensures gives { MatchResult result (λ made. typed_joins (as_entries (take 1 own.now)) (as_entries (drop 1 own.now)) (map syntax.joined_of joins.now) ≡ Ok (map joined_of made.items))
        (λ refusal. Refuses refusal (typed_joins (as_entries (take 1 own.now)) (as_entries (drop 1 own.now)) (map syntax.joined_of joins.now))) }
    ensures fits { IfOk result (λ made. FitsTests (tests_in made.items) (over_joins nodes_condition (map syntax.joined_of joins.now)) (over_joins octets_condition (map syntax.joined_of joins.now))) }
{
    let mut made = Vec::new(alloc);
    let mut rest = joins;
    while let [join, behind @ ..] = rest {
        let number = made.len() + 1;
        let typed = joined(alloc, &own[..number + 1], &own[number], join)?;
        made.push(typed).map_err(|_| Refusal::NoMemory)?;
        rest = behind;
    }
    Ok(made)
}

/// JOIN over what its ON reaches, and its own entry.
#[tactic(auto, using(crate::proofs::OutcomeLemmas::refuses_after, crate::proofs::OutcomeLemmas::refuses_then, crate::proofs::OutcomeLemmas::refuses_memory))]
fn joined<'a>(
    alloc: Global,
    reach: &[Entry<'_>],
    own: &Entry<'_>,
    join: &script::Joined<'a>,
) -> Result<Joined, Refusal<'a>>
    ensures gives { MatchResult result (λ made. typed_joined (as_entries reach.now) (as_entry own.now) (syntax.joined_of join.now) ≡ Ok (joined_of made))
        (λ refusal. Refuses refusal (typed_joined (as_entries reach.now) (as_entry own.now) (syntax.joined_of join.now))) }
    ensures fits { IfOk result (λ made. FitsTests made.on.items (nodes_condition (syntax.condition_of join.now.on)) (octets_condition (syntax.condition_of join.now.on))) }
{
    let on = conjuncts(alloc, &Scope::ungrouped(reach), &join.on)?;
    let entry = meant(alloc, own).map_err(|_| Refusal::NoMemory)?;
    Ok(Joined {
        entry,
        outer: join.outer,
        on,
    })
}
