//! Typed query specifications.

ghost use Rattle.std.specs.Prelude.{◌≡◌};
ghost use Rattle.qw_meaning.specs.Select.{IsSpecification, specification_of};

use qw_scalar::expression::{Cond, Expr};
use qw_types::ColumnType;
use std::marker::Model;

/// A typed query specification over one table (ISO/IEC 9075:1992, 7.9): `SELECT items FROM table WHERE conjuncts`. Columns are
/// counted from 0, in the order of the table. Contracts see it as its parts; which specification they make is
/// `specification_of`.
#[derive(Drop)]
pub struct Select {
    table: usize,
    columns: Vec<ColumnType>,
    conjuncts: Vec<Cond>,
    items: Vec<Expr>,
}

impl Model for Select {
    ghost use Rattle.qw_meaning.specs.Select.{Parts, IsSpecification, specification_of};
    ghost use Rattle.qw_scalar.specs.contracts.expression.Expr as expression;
    ghost use Rattle.qw_scalar.specs.contracts.expression.Cond as condition;
    ghost use Rattle.std.specs.Coded.{codes};

    ghost Value = { Parts };

    ghost coded = { Prim.hlevel (codes, expression.the_row.coded, condition.the_row.coded) };

    ghost view = { λ s. record {
      table = s.table;
      columns = s.columns.items;
      conjuncts = s.conjuncts.items;
      items = s.items.items;
    } };

    ghost invariant = { λ s. IsSpecification (specification_of (record {
      table = s.table;
      columns = s.columns.items;
      conjuncts = s.conjuncts.items;
      items = s.items.items;
    })) };
}

impl Select {
    /// The specification with these parts: a table of the schema and its columns' types, each with its NOT NULL, the operands of
    /// the outermost AND chain of WHERE in written order, and the select list.
    pub fn new(
        table: usize,
        columns: Vec<ColumnType>,
        conjuncts: Vec<Cond>,
        items: Vec<Expr>,
    ) -> Self
        requires { IsSpecification (specification_of (record { table = table; columns = columns.items; conjuncts = conjuncts.items; items = items.items })) }
        ensures { result ≡ record { table = table; columns = columns.items; conjuncts = conjuncts.items; items = items.items } }
    {
        Select {
            table,
            columns,
            conjuncts,
            items,
        }
    }

    /// The table of FROM, counted from 0 in the schema.
    pub fn table(&self) -> usize
        ensures table { result ≡ self.now.table }
        ensures kept { IsSpecification (specification_of self.now) }
    {
        self.table
    }

    /// The table's columns, in their order: the type of each, and whether it is NOT NULL.
    pub fn columns(&self) -> &[ColumnType]
        ensures columns { result.now ≡ self.now.columns }
        ensures kept { IsSpecification (specification_of self.now) }
    {
        self.columns.as_slice()
    }

    /// The conjuncts of WHERE in written order, none where there is no WHERE.
    pub fn conjuncts(&self) -> &[Cond]
        ensures conjuncts { result.now ≡ self.now.conjuncts }
        ensures kept { IsSpecification (specification_of self.now) }
    {
        self.conjuncts.as_slice()
    }

    /// The select list.
    pub fn items(&self) -> &[Expr]
        ensures items { result.now ≡ self.now.items }
        ensures kept { IsSpecification (specification_of self.now) }
    {
        self.items.as_slice()
    }
}
