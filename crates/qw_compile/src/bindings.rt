//! What is known where expressions are evaluated: texts, numbers and dates, and the columns that have been read.

ghost use Rattle.std.specs.Prelude.{◌≡◌, ◌≤◌, ◌+◌, ◌*◌, ◌++◌, length, map, IfOk, OnOk};
ghost use Rattle.std.specs.List.{All};
ghost use Rattle.qw_types.specs.Value.{IsSized};
ghost use Rattle.qw_expr.specs.Bindings as bindings;
ghost use Rattle.qw_read.specs.Constants.{known_constant, literal_of};
ghost use Rattle.qw_read.specs.Reading.{known_of};
ghost use Rattle.qw_read.specs.Texts.{known_texts};

use crate::texts::copy_of;
use qw_expr::known::{Binding, Leaf};
use qw_read::constant::{Constant, Word};
use qw_read::literal::Literal;
use qw_read::reader::Reader;
use qw_types::{NoMemory, Text};
use std::alloc::Global;

/// Each text literal has so many locals, for its address and its length.
const TEXT_LOCALS: u32 = 2;

/// How many locals so many texts have, and so many numbers and dates.
pub fn literal_locals(texts: usize, words: usize) -> usize
    requires texts { texts ≤ 100000 }
    requires words { words ≤ 100000 }
    ensures { result ≡ 2 * texts + words }
{
    TEXT_LOCALS as usize * texts + words
}

/// How many literals there are, of so many texts and of so many numbers and dates.
pub fn literals_in(texts: usize, words: usize) -> usize
    requires texts { texts ≤ 100000 }
    requires words { words ≤ 100000 }
    ensures { result ≡ texts + words }
{
    texts + words
}

/// Adds what is known of columns that have been read.
fn bind_columns(made: &mut Vec<Binding>, readers: &[Reader]) -> Result<(), NoMemory>
    requires { All (λ r. IsSized r.ty) readers.now }
    ensures { OnOk result (bindings.known_of made.new.items ≡ bindings.known_of made.old.items ++ map known_of readers.now) }
{
    for reader in readers {
        made.push(Binding {
            leaf: Leaf::Column(reader.column, reader.ty),
            operand: reader.operand(),
        })?;
    }
    Ok(())
}

/// Adds what is known of texts, by their literals.
fn bind_texts(
    alloc: Global,
    made: &mut Vec<Binding>,
    literals: &[Literal],
    texts: &[Text],
) -> Result<(), NoMemory>
    requires { length literals.now ≡ length texts.now }
    ensures { OnOk result (bindings.known_of made.new.items ≡ bindings.known_of made.old.items ++ known_texts literals.now texts.now) }
{
    for (index, text) in texts.iter().enumerate() {
        made.push(Binding {
            leaf: Leaf::Text(copy_of(alloc, text)?),
            operand: literals[index].operand(),
        })?;
    }
    Ok(())
}

/// Adds what is known of numbers and dates, by their locals.
fn bind_constants(made: &mut Vec<Binding>, constants: &[Constant]) -> Result<(), NoMemory>
    ensures { OnOk result (bindings.known_of made.new.items ≡ bindings.known_of made.old.items ++ map known_constant constants.now) }
{
    for constant in constants {
        made.push(Binding {
            leaf: leaf_of(constant.word),
            operand: constant.operand(),
        })?;
    }
    Ok(())
}

/// The leaf of a number or a date.
fn leaf_of(word: Word) -> Leaf
    ensures { bindings.named result ≡ literal_of word }
{
    match word {
        Word::Number(value, scale) => Leaf::Number(value, scale),
        Word::Date(day) => Leaf::Date(day),
    }
}

/// What is known where the columns have been read, where the literals' locals lead to texts, and the constants' hold numbers and dates.
///
/// # Errors
///
/// [`NoMemory`] where memory does not suffice.
pub fn bindings_of(
    alloc: Global,
    readers: &[Reader],
    literals: &[Literal],
    texts: &[Text],
    constants: &[Constant],
) -> Result<Vec<Binding>, NoMemory>
    requires sized { All (λ r. IsSized r.ty) readers.now }
    requires many { length literals.now ≡ length texts.now }
    ensures { IfOk result (λ made. bindings.known_of made.items ≡ (known_texts literals.now texts.now ++ map known_constant constants.now) ++ map known_of readers.now) }
{
    let mut made = Vec::new(alloc);
    bind_texts(alloc, &mut made, literals, texts)?;
    bind_constants(&mut made, constants)?;
    bind_columns(&mut made, readers)?;
    Ok(made)
}
