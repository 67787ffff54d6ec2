//! `Value`: an expression's value, whose text is borrowed from the row or the literal.

ghost use Rattle.std.specs.Prelude.{◌≡◌, IfOk};
ghost use Rattle.qw_scalar.specs.Value.{val_of};

use qw_types::{NoMemory, Text, Val};
use std::alloc::Global;

/// A value of an expression (ISO/IEC 9075:1992, 6.11): a value of a row, whose text is lent by the row or by the literal that it
/// comes from, so that evaluating takes no memory. Contracts see it as that value (`val_of`).
#[derive(Clone, Copy, Debug)]
pub enum Value<'a> {
    /// The null value.
    Null,
    /// A number, as the whole number that it is at its expression's scale.
    Number(i64),
    /// A date, as year * 10000 + month * 100 + day.
    Date(i32),
    /// A text.
    Text(&'a Text),
}

/// The value of a row, lent.
pub fn lent(value: &Val) -> Value<'_>
    ensures { val_of result ≡ value.now }
{
    match value {
        Val::Null => Value::Null,
        Val::Num(number) => Value::Number(*number),
        Val::Date(day) => Value::Date(*day),
        Val::Text(text) => Value::Text(text),
    }
}

/// The value as one of a row, its text copied.
///
/// # Errors
///
/// [`NoMemory`] where the text's copy does not fit memory, and nowhere else.
pub fn owned(alloc: Global, value: Value<'_>) -> Result<Val, NoMemory>
    ensures { IfOk result (λ made. made ≡ val_of value.entry) }
{
    Ok(match value {
        Value::Null => Val::Null,
        Value::Number(number) => Val::Num(number),
        Value::Date(day) => Val::Date(day),
        Value::Text(text) => Val::Text(copy_of(alloc, text)?),
    })
}

/// A text once more.
fn copy_of(alloc: Global, text: &Text) -> Result<Text, NoMemory>
    ensures { IfOk result (λ made. made ≡ text.now) }
{
    Ok(Text::new(String::from_str(alloc, text.as_str())?))
}
