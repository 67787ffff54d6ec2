//! Typed query specifications over several tables.

ghost use Rattle.std.specs.Prelude.{◌≡◌};
ghost use Rattle.qw_meaning.specs.Query.{query_of};
ghost use Rattle.qw_meaning.specs.Select.{IsSpecification};

use qw_scalar::expression::{Cond, Expr};
use qw_types::ColumnType;
use std::marker::Model;

/// An entry of FROM (ISO/IEC 9075:1992, 7.4): a table, counted from 0 in the schema, and the types of its columns in their order, each
/// with its NOT NULL.
#[derive(Drop)]
pub struct Entry {
    pub table: usize,
    pub columns: Vec<ColumnType>,
}

/// `JOIN entry ON on`, or `LEFT JOIN entry ON on` (7.5); `on` has the operands of the outermost AND chain in written order.
#[derive(Drop)]
pub struct Joined {
    pub entry: Entry,
    /// Whether it is a LEFT JOIN.
    pub outer: bool,
    pub on: Vec<Cond>,
}

/// A source of FROM, up to the next comma: an entry, and those joined to it from left to right.
#[derive(Drop)]
pub struct Source {
    pub first: Entry,
    pub joins: Vec<Joined>,
}

/// A typed query specification (7.9): `SELECT items FROM sources WHERE conjuncts`. Column c of entry e of FROM, both counted from 0, is
/// number 64 * e + c in every clause. Contracts see it as its parts; which specification they make is `query_of`.
#[derive(Drop)]
pub struct Query {
    sources: Vec<Source>,
    conjuncts: Vec<Cond>,
    items: Vec<Expr>,
}

impl Model for Query {
    ghost use Rattle.qw_meaning.specs.Query.{QueryParts, query_of};
    ghost use Rattle.qw_meaning.specs.Select.{IsSpecification};
    ghost use Rattle.qw_meaning.specs.contracts.query.Source as source;
    ghost use Rattle.qw_scalar.specs.contracts.expression.Expr as expression;
    ghost use Rattle.qw_scalar.specs.contracts.expression.Cond as condition;
    ghost use Rattle.std.specs.Coded.{codes};

    ghost Value = { QueryParts };

    ghost coded = { Prim.hlevel (codes, source.the_row.coded, expression.the_row.coded, condition.the_row.coded) };

    ghost view = { λ q. record { sources = q.sources.items; conjuncts = q.conjuncts.items; items = q.items.items } };

    ghost invariant = { λ q. IsSpecification (query_of (record { sources = q.sources.items; conjuncts = q.conjuncts.items; items = q.items.items })) };
}

impl Query {
    /// The specification with these parts: the sources of FROM, the operands of the outermost AND chain of WHERE in written order,
    /// and the select list.
    pub fn new(sources: Vec<Source>, conjuncts: Vec<Cond>, items: Vec<Expr>) -> Self
        requires { IsSpecification (query_of (record { sources = sources.items; conjuncts = conjuncts.items; items = items.items })) }
        ensures { result ≡ record { sources = sources.items; conjuncts = conjuncts.items; items = items.items } }
    {
        Query {
            sources,
            conjuncts,
            items,
        }
    }

    /// The sources of FROM, from left to right.
    pub fn sources(&self) -> &[Source]
        ensures sources { result.now ≡ self.now.sources }
        ensures kept { IsSpecification (query_of self.now) }
    {
        self.sources.as_slice()
    }

    /// The conjuncts of WHERE in written order, none where there is no WHERE.
    pub fn conjuncts(&self) -> &[Cond]
        ensures conjuncts { result.now ≡ self.now.conjuncts }
        ensures kept { IsSpecification (query_of self.now) }
    {
        self.conjuncts.as_slice()
    }

    /// The select list.
    pub fn items(&self) -> &[Expr]
        ensures items { result.now ≡ self.now.items }
        ensures kept { IsSpecification (query_of self.now) }
    {
        self.items.as_slice()
    }
}
