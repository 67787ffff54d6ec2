//! The text literals of a grouped query, in the order in which their octets lie in the first page (ISO/IEC 9075:1992, 5.3).

ghost use Rattle.std.specs.Prelude.{◌≡◌, ◌++◌, IsUtf8, IfOk};
ghost use Rattle.std.specs.List.{AllByRecursion, flat_map};
ghost use Rattle.qw_scalar.specs.Texts.{texts_in, texts_within};
ghost use Rattle.qw_compile.specs.WrittenTexts.{texts_of_query};
ghost use Rattle.qw_compile_whole.specs.WholeTexts.{front_texts, texts_of_grouped};

use qw_compile::texts::texts_of;
use qw_compile::written_texts::written_texts;
use qw_grouped::query::GroupedQuery;
use qw_leaves::gather::{from_conjuncts, from_items};
use qw_meaning::query::Query;
use qw_types::{NoMemory, Text};
use std::alloc::Global;

/// The text literals of what reaches GROUP BY, and behind them those of HAVING and of the select list.
///
/// # Errors
///
/// [`NoMemory`] where memory does not suffice, and nowhere else.
pub fn grouped_texts(
    alloc: Global,
    front: &Query,
    query: &GroupedQuery,
) -> Result<Vec<Text>, NoMemory>
    requires front { texts_of_query front.now ≡ front_texts query.now }
    ensures texts { IfOk result (λ texts. texts.items ≡ texts_of_grouped query.now) }
    ensures utf8 { IfOk result (λ texts. AllByRecursion IsUtf8 texts.items) }
{
    let mut texts = written_texts(alloc, front)?;
    let mut behind = behind_texts(alloc, query)?;
    texts.append(&mut behind)?;
    Ok(texts)
}

/// The text literals of HAVING and of the select list.
fn behind_texts(alloc: Global, query: &GroupedQuery) -> Result<Vec<Text>, NoMemory>
    ensures texts { IfOk result (λ texts. texts.items ≡ flat_map texts_within query.now.having ++ flat_map texts_in query.now.items) }
    ensures utf8 { IfOk result (λ texts. AllByRecursion IsUtf8 texts.items) }
{
    let mut leaves = Vec::new(alloc);
    from_conjuncts(alloc, &mut leaves, query.having())?;
    from_items(alloc, &mut leaves, query.items())?;
    texts_of(alloc, &leaves)
}
