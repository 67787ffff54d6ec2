//! Typed expressions and conditions. Types stand where a tree can't tell them: a scale at a number, a type at a column.

use crate::comparison::Comparison;
use qw_types::{Text, Truth, Ty};

/// An operator on two numbers (ISO/IEC 9075:1992, 6.12).
#[derive(Clone, Copy, Debug, PartialEq, Eq)]
pub enum Operator {
    Add,
    Subtract,
    Multiply,
    Divide,
}

/// A field of a date (6.6 "extract expression").
#[derive(Clone, Copy, Debug, PartialEq, Eq)]
pub enum Field {
    Year,
    Month,
    Day,
}

/// A predicate of one value.
#[derive(Clone, Copy, Debug, PartialEq, Eq)]
pub enum Predicate {
    /// Whether it is null (8.6 "null predicate").
    IsNull,
}

/// A function of one argument or more.
#[derive(Clone, Copy, Debug, PartialEq, Eq)]
pub enum Function {
    /// The first argument that isn't null (6.9).
    Coalesce,
    /// The first argument, or null where it equals another (6.9).
    NullIf,
}

/// A typed expression (6.11 "value expression").
#[cycle(expression)]
#[derive(Drop)]
pub enum Expr {
    /// The literal NULL, which stands only as the result of a CASE.
    Null,
    /// A number and its scale.
    Number(i64, u8),
    /// A date, as year * 10000 + month * 100 + day.
    Date(i32),
    /// A text.
    Text(Text),
    /// A column of the row, counted from 0, and its type.
    Column(usize, Ty),
    /// `left operator right`.
    Arithmetic(Operator, Box<Expr>, Box<Expr>),
    /// `- operand`.
    Negative(Box<Expr>),
    /// `EXTRACT(field FROM date)`.
    Extract(Field, Box<Expr>),
    /// `CASE branches END`.
    Case(Box<Branches>),
    /// `CASE operand matches END`.
    Match(Box<Expr>, Box<Matches>),
    /// `function(arguments)`.
    Call(Function, Box<Exprs>),
}

/// A typed condition (8.12 "search condition", with its predicates).
#[cycle(expression)]
#[derive(Drop)]
pub enum Cond {
    /// `left comparison right` (8.2).
    Compare(Comparison, Box<Expr>, Box<Expr>),
    /// `operand BETWEEN least AND greatest` (8.3).
    Between(Box<Expr>, Box<Expr>, Box<Expr>),
    /// `operand IN (values)` (8.4).
    In(Box<Expr>, Box<Exprs>),
    /// `operand predicate`, as `operand IS NULL`.
    Predicate(Predicate, Box<Expr>),
    /// `left AND right`.
    And(Box<Cond>, Box<Cond>),
    /// `left OR right`.
    Or(Box<Cond>, Box<Cond>),
    /// `NOT operand`.
    Not(Box<Cond>),
    /// `operand IS truth`.
    Is(Box<Cond>, Truth),
}

/// One or more expressions in order.
#[cycle(expression)]
#[derive(Drop)]
pub enum Exprs {
    Last(Box<Expr>),
    More(Box<Expr>, Box<Exprs>),
}

/// The branches of a CASE (6.9 "searched case").
#[cycle(expression)]
#[derive(Drop)]
pub enum Branches {
    /// `ELSE result`.
    Else(Box<Expr>),
    /// `WHEN condition THEN result` and the branches after it.
    When(Box<Cond>, Box<Expr>, Box<Branches>),
}

/// The branches of a CASE with an operand (6.9 "simple case").
#[cycle(expression)]
#[derive(Drop)]
pub enum Matches {
    /// `WHEN value THEN result ELSE other`.
    Last(Box<Expr>, Box<Expr>, Box<Expr>),
    /// `WHEN value THEN result` and the branches after it.
    When(Box<Expr>, Box<Expr>, Box<Matches>),
}
