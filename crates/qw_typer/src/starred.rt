//! `*` in a grouped query: all columns of FROM over the grouped table (ISO/IEC 9075:1992, 7.9).

ghost use Rattle.std.specs.Prelude.{◌≡◌, ◌*◌, ◌++◌, [], IfOk, MatchResult, Some, length, map, true};
ghost use Rattle.qw_scalar.specs.Tree.{expression_of};
ghost use Rattle.qw_typer.specs.Grouping.{starred, starred_faults};
ghost use Rattle.qw_typer.specs.Typed.{columns_from, columns_meant};
ghost use Rattle.qw_typer.specs.Inner.Sizes.{ColumnsPushed, FitsItems, column_count};
ghost use Rattle.qw_typer.specs.Inner.Typing.{Refuses, as_entries, as_grouping, outcome};

use crate::fault::FaultKind;
use crate::refusal::{Refusal, Token};
use crate::scope::{Entry, Grouping, Place, first_column};
use qw_scalar::expression::Expr;
use qw_types::Column;
use std::alloc::Global;

/// All columns of all entries in order, each of which has to be grouped.
#[tactic(auto, using(crate::proofs::StarredLemmas::entry_kept, crate::proofs::StarredLemmas::entry_refused))]
pub(crate) fn starred<'a>(
    alloc: Global,
    entries: &[Entry<'_>],
    grouping: &Grouping<'_>,
) -> Result<Vec<Expr>, Refusal<'a>>
    ensures gives { MatchResult result (λ made. (starred_faults (Some (as_grouping grouping.now)) (columns_meant (as_entries entries.now)) ≡ []) × (map expression_of made.items ≡ starred (Some (as_grouping grouping.now)) (columns_meant (as_entries entries.now))))
        (λ refusal. Refuses refusal (outcome (starred_faults (Some (as_grouping grouping.now)) (columns_meant (as_entries entries.now))) true)) }
    ensures fits { IfOk result (λ made. FitsItems made.items (column_count (as_entries entries.now)) 0) }
{
    let mut made = Vec::new(alloc);
    let mut rest = entries;
    while let [entry, behind @ ..] = rest {
        push_grouped(&mut made, entry.number, entry.columns, grouping)?;
        rest = behind;
    }
    Ok(made)
}

/// The columns of the entry of this number behind those before.
#[tactic(auto, using(crate::proofs::OutcomeLemmas::refuses_memory), unfolding(crate::specs::Inner::Typing::Refuses))]
fn push_grouped<'a>(
    made: &mut Vec<Expr>,
    number: u8,
    columns: &[Column],
    grouping: &Grouping<'_>,
) -> Result<(), Refusal<'a>>
    ensures gives { MatchResult result (λ _. (starred_faults (Some (as_grouping grouping.now)) (columns_from (64 * number) columns.now) ≡ [])
        × (map expression_of made.new.items ≡ map expression_of made.old.items ++ starred (Some (as_grouping grouping.now)) (columns_from (64 * number) columns.now)))
        (λ refusal. Refuses refusal (outcome (starred_faults (Some (as_grouping grouping.now)) (columns_from (64 * number) columns.now)) true)) }
    ensures fits { IfOk result (λ _. ColumnsPushed made.old.items made.new.items (length columns.now)) }
{
    let first = first_column(number);
    for (index, column) in columns.iter().enumerate() {
        let own = Place {
            place: first + index,
            ty: column.ty,
        };
        match grouping.column(own) {
            Some(place) => made
                .push(Expr::Column(place.place, place.ty))
                .map_err(|_| Refusal::NoMemory)?,
            None => {
                return Err(Refusal::Fault(FaultKind::NotGrouped, Token::Literal(b"*".as_slice())));
            }
        }
    }
    Ok(())
}
