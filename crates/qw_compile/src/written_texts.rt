//! The text literals of a query, in the order in which they stand in it.

ghost use Rattle.std.specs.Prelude.{◌≡◌, IsUtf8, IfOk, OnOk};
ghost use Rattle.std.specs.List.{AllByRecursion, flat_map};
ghost use Rattle.qw_algebra.specs.Sizes.{tests_in, tests_on};
ghost use Rattle.qw_leaves.specs.Leaves.{Gathers, leaves_within};
ghost use Rattle.qw_compile.specs.WrittenTexts.{texts_of_query};

use crate::texts::texts_of;
use qw_leaves::gather::{from_conjuncts, from_items};
use qw_leaves::leaf::Leaf;
use qw_meaning::query::{Joined, Query, Source};
use qw_types::{NoMemory, Text};
use std::alloc::Global;

/// The text literals of each ON in written order, of WHERE, and of the select list.
///
/// # Errors
///
/// [`NoMemory`] where memory does not suffice, and nowhere else.
pub fn written_texts(alloc: Global, query: &Query) -> Result<Vec<Text>, NoMemory>
    ensures texts { IfOk result (λ texts. texts.items ≡ texts_of_query query.now) }
    ensures utf8 { IfOk result (λ texts. AllByRecursion IsUtf8 texts.items) }
{
    let mut leaves = Vec::new(alloc);
    from_sources(alloc, &mut leaves, query.sources())?;
    from_conjuncts(alloc, &mut leaves, query.conjuncts())?;
    from_items(alloc, &mut leaves, query.items())?;
    texts_of(alloc, &leaves)
}

/// Adds the leaves of each ON of sources.
fn from_sources(alloc: Global, leaves: &mut Vec<Leaf>, sources: &[Source]) -> Result<(), NoMemory>
    ensures { OnOk result (Gathers leaves.old.items leaves.new.items (flat_map leaves_within (tests_on sources.now))) }
{
    for source in sources {
        from_joins(alloc, leaves, &source.joins)?;
    }
    Ok(())
}

/// Adds those of joins.
fn from_joins(alloc: Global, leaves: &mut Vec<Leaf>, joins: &[Joined]) -> Result<(), NoMemory>
    ensures { OnOk result (Gathers leaves.old.items leaves.new.items (flat_map leaves_within (tests_in joins.now))) }
{
    for join in joins {
        from_conjuncts(alloc, leaves, &join.on)?;
    }
    Ok(())
}
