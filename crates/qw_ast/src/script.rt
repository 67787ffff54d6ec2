//! The code's trees of a script: queries, expressions and conditions. Names and literals are slices of the text, as they stand there.

ghost use Rattle.std.specs.Prelude.{◌≡◌};
ghost use Rattle.qw_ast.specs.Limits.{AreQueries};
ghost use Rattle.qw_ast.specs.SyntaxTree.{selects_of};

use qw_scalar::comparison::Comparison;
use qw_scalar::expression::{Field, Function, Operator, Predicate};
use qw_types::Truth;
use std::marker::Model;

/// A sign before a factor or an interval (ISO/IEC 9075:1992, 6.11, 6.14).
#[derive(Clone, Copy, Debug, PartialEq, Eq)]
pub enum Sign {
    Plus,
    Minus,
}

/// `sign INTERVAL 'days' DAY` (5.3 "interval literal"), the string with its quotes.
#[derive(Clone, Copy, Debug)]
pub struct Interval<'a> {
    pub sign: Sign,
    pub days: &'a [u8],
}

/// A function of the values of a group (6.5 "set function specification").
#[derive(Clone, Copy, Debug, PartialEq, Eq)]
pub enum SetFunction {
    Count,
    Sum,
    Avg,
    Min,
    Max,
}

/// An expression (6.11 "value expression"). A set function has its place in front: the number of the statement's tokens behind it, which
/// no other set function of the statement has.
#[cycle(script)]
pub enum Expr<'a> {
    /// The word NULL, which stands only as a result of a CASE; also the result of an ELSE that isn't there (6.9).
    Null,
    /// An unsigned number.
    Number(&'a [u8]),
    /// A character string, with its quotes.
    Text(&'a [u8]),
    /// `DATE 'date' intervals`, the string with its quotes.
    Date(&'a [u8], Vec<Interval<'a>>),
    /// `[qualifier.]name` (6.4).
    Column(Option<&'a [u8]>, &'a [u8]),
    /// `sign operand`.
    Signed(Sign, Box<Expr<'a>>),
    /// `left operator right`.
    Arithmetic(Operator, Box<Expr<'a>>, Box<Expr<'a>>),
    /// `EXTRACT(field FROM date)` (6.6).
    Extract(Field, Box<Expr<'a>>),
    /// `CASE branches END` (6.9 "searched case"); each WHEN has a condition.
    Case(Box<Branches<'a>>),
    /// `CASE operand branches END` (6.9 "simple case"); each WHEN has an expression.
    Match(Box<Expr<'a>>, Box<Branches<'a>>),
    /// `function(arguments)`, of as many arguments as the function takes (6.9).
    Call(Function, Box<Exprs<'a>>),
    /// `COUNT(*)` (6.5).
    CountRows(usize),
    /// `function([ALL] argument)` (6.5).
    SetFunction(usize, SetFunction, Box<Expr<'a>>),
}

/// A condition (8.12 "search condition", with its predicates). A `bool` tells whether NOT stands in the predicate.
#[cycle(script)]
pub enum Cond<'a> {
    /// `left comparison right` (8.2), or `left [NOT] LIKE right` (8.5), where right is a character string.
    Compare(Comparison, Box<Expr<'a>>, Box<Expr<'a>>),
    /// `operand [NOT] BETWEEN least AND greatest` (8.3).
    Between(bool, Box<Expr<'a>>, Box<Expr<'a>>, Box<Expr<'a>>),
    /// `operand [NOT] IN (values)` (8.4).
    In(bool, Box<Expr<'a>>, Box<Exprs<'a>>),
    /// `operand IS [NOT] predicate`, as `operand IS NULL` (8.6).
    Predicate(Predicate, bool, Box<Expr<'a>>),
    /// `left AND right`.
    And(Box<Cond<'a>>, Box<Cond<'a>>),
    /// `left OR right`.
    Or(Box<Cond<'a>>, Box<Cond<'a>>),
    /// `NOT operand`.
    Not(Box<Cond<'a>>),
    /// `operand IS [NOT] truth`.
    Is(bool, Box<Cond<'a>>, Truth),
    /// `(condition)`.
    Bracketed(Box<Cond<'a>>),
}

/// A condition or an expression.
#[cycle(script)]
#[derive(Drop)]
pub enum Phrase<'a> {
    Condition(Cond<'a>),
    Expression(Expr<'a>),
}

/// One or more expressions in order.
#[cycle(script)]
pub enum Exprs<'a> {
    Last(Box<Expr<'a>>),
    More(Box<Expr<'a>>, Box<Exprs<'a>>),
}

/// The branches of a CASE.
#[cycle(script)]
pub enum Branches<'a> {
    /// `ELSE result`, with NULL where there is no ELSE.
    Else(Box<Expr<'a>>),
    /// `WHEN phrase THEN result` and the branches after it.
    When(Box<Phrase<'a>>, Box<Expr<'a>>, Box<Branches<'a>>),
}

/// An item of a select list: `expression [[AS] name]` (7.9 "derived column").
#[derive(Drop)]
pub struct Item<'a> {
    pub expression: Expr<'a>,
    pub name: Option<&'a [u8]>,
}

/// A select list (7.9).
#[derive(Drop)]
pub enum SelectList<'a> {
    /// `*`.
    All,
    /// One item or more.
    Items(Vec<Item<'a>>),
}

/// `table [[AS] alias]` (6.3 "table reference").
#[derive(Clone, Copy, Debug)]
pub struct Entry<'a> {
    pub table: &'a [u8],
    pub alias: Option<&'a [u8]>,
}

/// `[INNER] JOIN entry ON condition` or `LEFT [OUTER] JOIN entry ON condition` (7.5 "join type").
#[derive(Drop)]
pub struct Joined<'a> {
    pub entry: Entry<'a>,
    /// Whether it is LEFT.
    pub outer: bool,
    pub on: Cond<'a>,
}

/// What stands between two commas of FROM: an entry, and those joined to it from left to right (7.4, 7.5).
#[derive(Drop)]
pub struct Source<'a> {
    pub first: Entry<'a>,
    pub joins: Vec<Joined<'a>>,
}

/// `[qualifier.]name` (6.4 "column reference").
#[derive(Clone, Copy, Debug)]
pub struct Reference<'a> {
    pub qualifier: Option<&'a [u8]>,
    pub name: &'a [u8],
}

/// What a sort specification sorts by: a result column (13.1 "sort key").
#[derive(Clone, Copy, Debug)]
pub enum Key<'a> {
    /// Its position, an unsigned number without a point.
    Ordinal(&'a [u8]),
    /// Its name.
    Column(&'a [u8]),
}

/// `key [ASC | DESC]` (13.1 "sort specification").
#[derive(Clone, Copy, Debug)]
pub struct SortSpecification<'a> {
    pub key: Key<'a>,
    pub is_descending: bool,
}

/// `SELECT [ALL | DISTINCT] list FROM sources [WHERE condition] [GROUP BY grouping] [HAVING having] [ORDER BY order]` (7.9, 7.4, 7.6, 7.7,
/// 7.8, 13.1), with one source or more; without a GROUP BY the grouping is empty, and without an ORDER BY the order.
#[derive(Drop)]
pub struct Statement<'a> {
    pub distinct: bool,
    pub list: SelectList<'a>,
    pub sources: Vec<Source<'a>>,
    pub condition: Option<Cond<'a>>,
    pub grouping: Vec<Reference<'a>>,
    pub having: Option<Cond<'a>>,
    pub order: Vec<SortSpecification<'a>>,
}

/// The statements of a text, in order: as many as a script may have, each of which some tokens are, none larger than a query may be.
#[derive(Drop)]
pub struct Script<'a> {
    statements: Vec<Statement<'a>>,
}

impl<'a> Model for Script<'a> {
    ghost use mir.Syntax.{named};
    ghost use Rattle.std.specs.Prelude.{List, []};
    ghost use Rattle.std.specs.Coded.{codes};
    ghost use Rattle.qw_ast.specs.declared.script.Statement.{Statement};
    ghost use Rattle.qw_ast.specs.contracts.script.Expr as expression;
    ghost use Rattle.qw_ast.specs.contracts.script.Cond as condition;

    ghost Value = { List Statement };

    ghost coded = { Prim.hlevel (codes, (expression.the_row (record { mir = named 1; lft = [] })).coded, (condition.the_row (record { mir = named 1; lft = [] })).coded) };

    ghost use Rattle.qw_ast.specs.Limits.{AreQueries};
    ghost use Rattle.qw_ast.specs.SyntaxTree.{selects_of};

    ghost view = { λ a. a.statements.items };

    ghost invariant = { λ a. AreQueries (selects_of a.statements.items) };
}

impl<'a> Script<'a> {
    /// Takes the statements as they are. That each is a query of the grammar, and that they keep the limits, is not tested here: the
    /// caller knows it.
    pub fn new(statements: Vec<Statement<'a>>) -> Self
        requires { AreQueries (selects_of statements.items) }
        ensures { result ≡ statements.entry.items }
    {
        Script { statements }
    }

    /// The statements, in order.
    pub fn as_slice(&self) -> &[Statement<'a>]
        ensures same { result.now ≡ self.now }
        ensures limits { AreQueries (selects_of self.now) }
    {
        self.statements.as_slice()
    }
}

// Chains of operators and lists may be as long as a text, so they are dropped by a loop. What else nests is bounded by the
// brackets and CASEs that may be open.

impl<'a> Drop for Expr<'a> {
    #[cycle(script)]
    fn drop(mut self) {
        loop {
            match self {
                Expr::Null | Expr::Number(_) | Expr::Text(_) | Expr::Column(_, _) => return,
                Expr::CountRows(_) => return,
                Expr::Date(_, _intervals) => return,
                Expr::Signed(_, _operand) => return,
                Expr::Arithmetic(_, left, _right) => self = Box::into_inner(left),
                Expr::Extract(_, _date) => return,
                Expr::Case(_branches) => return,
                Expr::Match(_operand, _branches) => return,
                Expr::Call(_, _arguments) => return,
                Expr::SetFunction(_, _, _argument) => return,
            }
        }
    }
}

impl<'a> Drop for Cond<'a> {
    #[cycle(script)]
    fn drop(mut self) {
        loop {
            match self {
                Cond::Compare(_, _left, _right) => return,
                Cond::Between(_, _operand, _least, _greatest) => return,
                Cond::In(_, _operand, _values) => return,
                Cond::Predicate(_, _, _operand) => return,
                Cond::And(left, _right) => self = Box::into_inner(left),
                Cond::Or(left, _right) => self = Box::into_inner(left),
                Cond::Not(_operand) => return,
                Cond::Is(_, _operand, _) => return,
                Cond::Bracketed(_operand) => return,
            }
        }
    }
}

impl<'a> Drop for Exprs<'a> {
    #[cycle(script)]
    fn drop(mut self) {
        loop {
            match self {
                Exprs::Last(_last) => return,
                Exprs::More(_first, rest) => self = Box::into_inner(rest),
            }
        }
    }
}

impl<'a> Drop for Branches<'a> {
    #[cycle(script)]
    fn drop(mut self) {
        loop {
            match self {
                Branches::Else(_result) => return,
                Branches::When(_test, _result, rest) => self = Box::into_inner(rest),
            }
        }
    }
}
