//! From a typed query specification to one that means the same.

ghost use Rattle.std.specs.Prelude.{◌≡◌, ◌≤◌, ◌+◌, IfOk, sum_by};
ghost use Rattle.std.specs.List.{All, AllByRecursion, flat_map};
ghost use Rattle.qw_scalar.specs.Nodes.{nodes, nodes_of};
ghost use Rattle.qw_meaning.specs.Select.{IsSpecification, specification_of};
ghost use Rattle.qw_scalar.specs.Tree.{condition_of, expression_of};
ghost use Rattle.qw_scalar.specs.Typing.{AreTyped, IsTyped};
ghost use Rattle.qw_fold.specs.Folded.{AreFolded, IsFolded};
ghost use Rattle.qw_meaning.specs.Same.{MeansTheSame};
ghost use Rattle.qw_scalar.specs.Texts.{texts_in, texts_within};
ghost use Rattle.qw_fold.specs.Inner.Made.{ConjunctsFold, ItemsFold};

use crate::tree::{condition, expression};
use qw_meaning::select::Select;
use qw_scalar::expression::{Cond, Expr};
use qw_types::{ColumnType, NoMemory};
use std::alloc::Global;

/// A specification that means the same, conjunct by conjunct and item by item, of trees that are no larger, with the same texts
/// (ISO/IEC 9075:1992, 6.12, 8.2). An operation on literals is the literal that it comes to, unless it raises. A literal that is compared
/// with, added to or subtracted from a number of a larger scale stands at that scale, where it has at most 18 digits there; so do the
/// bounds of BETWEEN, the values of IN and of a CASE with an operand, and results of a choice that are literals.
///
/// # Errors
///
/// [`NoMemory`] where memory does not suffice.
pub fn fold(alloc: Global, select: &Select) -> Result<Select, NoMemory>
    ensures from { IfOk result (λ folded. (folded.table ≡ select.now.table) × (folded.columns ≡ select.now.columns)) }
    ensures specification { IfOk result (λ folded. IsSpecification (specification_of folded)) }
    ensures same { IfOk result (λ folded. MeansTheSame (specification_of select.now) (specification_of folded)) }
    ensures folded { IfOk result (λ folded. AllByRecursion AreFolded folded.conjuncts × AllByRecursion IsFolded folded.items) }
    ensures short { IfOk result (λ folded. (sum_by nodes_of folded.conjuncts ≤ sum_by nodes_of select.now.conjuncts) × (sum_by nodes folded.items ≤ sum_by nodes select.now.items)) }
    ensures texts { IfOk result (λ folded. (flat_map texts_within folded.conjuncts ≡ flat_map texts_within select.now.conjuncts) × (flat_map texts_in folded.items ≡ flat_map texts_in select.now.items)) }
{
    let columns = columns_of(alloc, select.columns())?;
    let conjuncts = conjuncts_of(alloc, select.conjuncts())?;
    let items = items_of(alloc, select.items())?;
    Ok(Select::new(select.table(), columns, conjuncts, items))
}

/// The same columns.
fn columns_of(alloc: Global, columns: &[ColumnType]) -> Result<Vec<ColumnType>, NoMemory>
    ensures { IfOk result (λ made. made.items ≡ columns.now) }
{
    let mut made = Vec::new(alloc);
    made.extend_from_slice(columns)?;
    Ok(made)
}

/// The conjuncts of WHERE, one for one.
fn conjuncts_of(alloc: Global, conjuncts: &[Cond]) -> Result<Vec<Cond>, NoMemory>
    requires typed { All (λ c. AreTyped (condition_of c)) conjuncts.now }
    ensures { IfOk result (λ made. ConjunctsFold conjuncts.now made.items) }
{
    let mut made = Vec::new(alloc);
    for conjunct in conjuncts {
        made.push(condition(alloc, conjunct)?)?;
    }
    Ok(made)
}

/// The items of a select list, one for one.
fn items_of(alloc: Global, items: &[Expr]) -> Result<Vec<Expr>, NoMemory>
    requires typed { All (λ e. IsTyped (expression_of e)) items.now }
    ensures { IfOk result (λ made. ItemsFold items.now made.items) }
{
    let mut made = Vec::new(alloc);
    for item in items {
        made.push(expression(alloc, item)?)?;
    }
    Ok(made)
}
