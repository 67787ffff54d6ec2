//! Typed queries: grouped or not, with DISTINCT or without.

ghost use Rattle.std.specs.Prelude.{◌≡◌};
ghost use Rattle.qw_grouped.specs.Grouped.{IsGrouped};
ghost use Rattle.qw_grouped.specs.Query.{grouped_of};

use crate::set_function::SetFunction;
use qw_meaning::query::{Query, Source};
use qw_scalar::expression::{Cond, Expr};
use qw_types::Ty;
use std::marker::Model;

/// A column of GROUP BY (ISO/IEC 9075:1992, 7.7): its number in a row of FROM, 64 * entry + column, and its type.
#[derive(Clone, Copy, Debug, PartialEq, Eq)]
pub struct GroupedColumn {
    pub number: usize,
    pub ty: Ty,
}

/// A typed grouped query (7.7, 7.8, 7.9): `SELECT items FROM sources WHERE conjuncts GROUP BY columns HAVING having`. ON, WHERE and the
/// arguments of set functions number the columns of FROM, as a [`Query`] does. HAVING and the select list number those of the grouped table:
/// the grouped columns from 0 on, and behind them the set functions. Contracts see it as its parts; which grouped query they make is
/// `grouped_of`.
#[derive(Drop)]
pub struct GroupedQuery {
    sources: Vec<Source>,
    conjuncts: Vec<Cond>,
    columns: Vec<GroupedColumn>,
    functions: Vec<SetFunction>,
    having: Vec<Cond>,
    items: Vec<Expr>,
}

impl Model for GroupedQuery {
    ghost use Rattle.qw_grouped.specs.Grouped.{IsGrouped};
    ghost use Rattle.qw_grouped.specs.Query.{GroupedParts, grouped_of};
    ghost use Rattle.qw_grouped.specs.contracts.query.GroupedColumn as column;
    ghost use Rattle.qw_grouped.specs.contracts.set_function.SetFunction as function;
    ghost use Rattle.qw_meaning.specs.contracts.query.Source as source;
    ghost use Rattle.qw_scalar.specs.contracts.expression.Expr as expression;
    ghost use Rattle.qw_scalar.specs.contracts.expression.Cond as condition;
    ghost use Rattle.std.specs.Coded.{codes};

    ghost Value = { GroupedParts };

    ghost coded = { Prim.hlevel (codes, source.the_row.coded, column.the_row.coded, function.the_row.coded, expression.the_row.coded, condition.the_row.coded) };

    ghost view = { λ q. record {
      sources = q.sources.items;
      conjuncts = q.conjuncts.items;
      columns = q.columns.items;
      functions = q.functions.items;
      having = q.having.items;
      items = q.items.items;
    } };

    ghost invariant = { λ q. IsGrouped (grouped_of (record {
      sources = q.sources.items;
      conjuncts = q.conjuncts.items;
      columns = q.columns.items;
      functions = q.functions.items;
      having = q.having.items;
      items = q.items.items;
    })) };
}

impl GroupedQuery {
    /// The grouped query with these parts: the sources of FROM, the conjuncts of WHERE, the columns of GROUP BY, none where there is no
    /// GROUP BY, the set functions of HAVING and the select list, the conjuncts of HAVING, and the select list. Where there is neither a column
    /// nor a set function, `COUNT(*)` has to be one of the set functions.
    pub fn new(
        sources: Vec<Source>,
        conjuncts: Vec<Cond>,
        columns: Vec<GroupedColumn>,
        functions: Vec<SetFunction>,
        having: Vec<Cond>,
        items: Vec<Expr>,
    ) -> Self
        requires { IsGrouped (grouped_of (record {
          sources = sources.items;
          conjuncts = conjuncts.items;
          columns = columns.items;
          functions = functions.items;
          having = having.items;
          items = items.items;
        })) }
        ensures { result ≡ record {
          sources = sources.items;
          conjuncts = conjuncts.items;
          columns = columns.items;
          functions = functions.items;
          having = having.items;
          items = items.items;
        } }
    {
        GroupedQuery {
            sources,
            conjuncts,
            columns,
            functions,
            having,
            items,
        }
    }

    /// The sources of FROM, from left to right.
    pub fn sources(&self) -> &[Source]
        ensures sources { result.now ≡ self.now.sources }
        ensures kept { IsGrouped (grouped_of self.now) }
    {
        self.sources.as_slice()
    }

    /// The conjuncts of WHERE in written order, none where there is no WHERE.
    pub fn conjuncts(&self) -> &[Cond]
        ensures conjuncts { result.now ≡ self.now.conjuncts }
        ensures kept { IsGrouped (grouped_of self.now) }
    {
        self.conjuncts.as_slice()
    }

    /// The columns of GROUP BY in written order, none where there is no GROUP BY.
    pub fn columns(&self) -> &[GroupedColumn]
        ensures columns { result.now ≡ self.now.columns }
        ensures kept { IsGrouped (grouped_of self.now) }
    {
        self.columns.as_slice()
    }

    /// The set functions, whose values are columns of the grouped table behind those of GROUP BY.
    pub fn functions(&self) -> &[SetFunction]
        ensures functions { result.now ≡ self.now.functions }
        ensures kept { IsGrouped (grouped_of self.now) }
    {
        self.functions.as_slice()
    }

    /// The conjuncts of HAVING in written order, none where there is no HAVING.
    pub fn having(&self) -> &[Cond]
        ensures having { result.now ≡ self.now.having }
        ensures kept { IsGrouped (grouped_of self.now) }
    {
        self.having.as_slice()
    }

    /// The select list.
    pub fn items(&self) -> &[Expr]
        ensures items { result.now ≡ self.now.items }
        ensures kept { IsGrouped (grouped_of self.now) }
    {
        self.items.as_slice()
    }
}
