//! The header of the rows that a query gives.

ghost use Rattle.std.specs.Prelude.{◌≡◌, ◌++◌, ◌∷◌, [], map, slice_get, IfOk, IfSome};
ghost use Rattle.std.specs.List.{AllByRecursion};
ghost use Rattle.std.specs.Option.{option_map_or};
ghost use Rattle.qw_scalar.specs.Tree.{expression_of};
ghost use Rattle.qw_scalar.specs.Typing.{IsTyped};
ghost use Rattle.qw_grouped.specs.WholeQuery.{body_of};
ghost use Rattle.qw_whole.specs.WholePromises.{items_in};
ghost use Rattle.qw_top.specs.Inner.Queries.{head_of, heads_of};

use qw_grouped::whole::Body;
use qw_scalar::expression::Expr;
use qw_scalar::kind::of_expression;
use qw_sink::sink::{Head, Header};
use qw_typer::query::TypedQuery;
use qw_types::{Kind, NoMemory, Text};
use std::alloc::Global;

/// The header of the rows that a query gives.
pub(super) fn header_of(alloc: Global, query: &TypedQuery) -> Result<Header, NoMemory>
    ensures { IfOk result (λ header. header ≡ heads_of query.now.names.items (items_in (body_of query.now.query.body))) }
{
    let items = items_of(&query.query.body);
    let mut heads = Vec::new(alloc);
    for (index, name) in query.names.iter().enumerate() {
        heads = with_head(alloc, heads, name, items, index)?;
    }
    Ok(Header::new(heads))
}

/// The select list of a query.
fn items_of(body: &Body) -> &[Expr]
    ensures items { map expression_of result.now ≡ items_in (body_of body.now) }
    ensures typed { AllByRecursion (λ item. IsTyped (expression_of item)) result.now }
{
    match body {
        Body::Plain(query) => query.items(),
        Body::Grouped(query) => query.items(),
    }
}

/// The heads, and behind them that of a column of this name, where there is the item of this number that gives its values.
fn with_head(
    alloc: Global,
    mut heads: Vec<Head>,
    name: &Text,
    items: &[Expr],
    index: usize,
) -> Result<Vec<Head>, NoMemory>
    requires { IfSome (slice_get items.now index) (λ item. IsTyped (expression_of item)) }
    ensures { IfOk result (λ more. more.items ≡ heads.items ++ option_map_or (λ item. head_of name.now (expression_of item) ∷ []) (slice_get items.now index) []) }
{
    match items.get(index) {
        Some(item) => {
            heads.push(head_of(alloc, name, item)?)?;
            Ok(heads)
        }
        None => Ok(heads),
    }
}

/// The head of a column of this name, whose values an item gives.
fn head_of(alloc: Global, name: &Text, item: &Expr) -> Result<Head, NoMemory>
    requires { IsTyped (expression_of item.now) }
    ensures { IfOk result (λ head. head ≡ head_of name.now (expression_of item.now)) }
{
    let name = String::from_str(alloc, name.as_str())?;
    Ok(Head {
        name: Text::new(name),
        // Each item has a kind, since a query takes no other.
        kind: of_expression(item).unwrap_or(Kind::Number(0)),
    })
}
