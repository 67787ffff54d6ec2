//! Where the columns and the literals of expressions are.

ghost use Rattle.std.specs.Prelude.{◌≡◌, IsTrue, false};
ghost use Rattle.qw_scalar.specs.Expression.{column, date, number, text};
ghost use Rattle.qw_expr.specs.declared.known.Leaf.TheVariants as leaf;
ghost use Rattle.qw_expr.specs.Bindings.{IsAmong, Knows, known_of};

use crate::operand::Operand;
use qw_types::{Text, Ty};

/// What an expression takes from outside.
#[derive(Debug, Drop)]
pub enum Leaf {
    /// A column of the row, counted from 0, and its type.
    Column(usize, Ty),
    /// A number literal and its scale.
    Number(i64, u8),
    /// A date literal, as year * 10000 + month * 100 + day.
    Date(i32),
    /// A text literal.
    Text(Text),
}

/// A column or a literal whose value is in locals.
#[derive(Debug, Drop)]
pub struct Binding {
    pub leaf: Leaf,
    pub operand: Operand,
}

impl Leaf {
    /// Whether it is this column.
    fn is_column(&self, index: usize, ty: Ty) -> bool
        ensures yes { IsTrue result → self.now ≡ leaf.Column index ty }
        ensures no { result ≡ false → self.now ≡ leaf.Column index ty → ⊥ }
    {
        match self {
            Leaf::Column(i, t) => *i == index && *t == ty,
            Leaf::Number(_, _) | Leaf::Date(_) | Leaf::Text(_) => false,
        }
    }

    /// Whether it is this number of this scale.
    fn is_number(&self, value: i64, scale: u8) -> bool
        ensures yes { IsTrue result → self.now ≡ leaf.Number value scale }
        ensures no { result ≡ false → self.now ≡ leaf.Number value scale → ⊥ }
    {
        match self {
            Leaf::Number(v, s) => *v == value && *s == scale,
            Leaf::Column(_, _) | Leaf::Date(_) | Leaf::Text(_) => false,
        }
    }

    /// Whether it is this date.
    fn is_date(&self, day: i32) -> bool
        ensures yes { IsTrue result → self.now ≡ leaf.Date day }
        ensures no { result ≡ false → self.now ≡ leaf.Date day → ⊥ }
    {
        match self {
            Leaf::Date(d) => *d == day,
            Leaf::Column(_, _) | Leaf::Number(_, _) | Leaf::Text(_) => false,
        }
    }

    /// Whether it is this text.
    fn is_text(&self, text: &Text) -> bool
        ensures yes { IsTrue result → self.now ≡ leaf.Text text.now }
        ensures no { result ≡ false → self.now ≡ leaf.Text text.now → ⊥ }
    {
        match self {
            Leaf::Column(_, _) | Leaf::Number(_, _) | Leaf::Date(_) => false,
            Leaf::Text(other) => other.as_str() == text.as_str(),
        }
    }
}

/// The operand of a column.
pub(crate) fn column_of(bindings: &[Binding], index: usize, ty: Ty) -> Operand
    requires { Knows (known_of bindings.now) (column index ty) }
    ensures { IsAmong (record { expression = column index ty; operand = result }) (known_of bindings.now) }
{
    let mut rest = bindings;
    while let Some((first, others)) = rest.split_first() {
        if first.leaf.is_column(index, ty) {
            return first.operand;
        }
        rest = others;
    }
    unreachable!()
}

/// The operand of a number literal.
pub(crate) fn number_of(bindings: &[Binding], value: i64, scale: u8) -> Operand
    requires { Knows (known_of bindings.now) (number value scale) }
    ensures { IsAmong (record { expression = number value scale; operand = result }) (known_of bindings.now) }
{
    let mut rest = bindings;
    while let Some((first, others)) = rest.split_first() {
        if first.leaf.is_number(value, scale) {
            return first.operand;
        }
        rest = others;
    }
    unreachable!()
}

/// The operand of a date literal.
pub(crate) fn date_of(bindings: &[Binding], day: i32) -> Operand
    requires { Knows (known_of bindings.now) (date day) }
    ensures { IsAmong (record { expression = date day; operand = result }) (known_of bindings.now) }
{
    let mut rest = bindings;
    while let Some((first, others)) = rest.split_first() {
        if first.leaf.is_date(day) {
            return first.operand;
        }
        rest = others;
    }
    unreachable!()
}

/// The operand of a text literal.
pub(crate) fn text_of(bindings: &[Binding], literal: &Text) -> Operand
    requires { Knows (known_of bindings.now) (text literal.now) }
    ensures { IsAmong (record { expression = text literal.now; operand = result }) (known_of bindings.now) }
{
    let mut rest = bindings;
    while let Some((first, others)) = rest.split_first() {
        if first.leaf.is_text(literal) {
            return first.operand;
        }
        rest = others;
    }
    unreachable!()
}
