//! The numbers and the dates of a query (ISO/IEC 9075:1992, 5.3), and the locals for them.

ghost use Rattle.std.specs.Prelude.{◌≡◌, ◌≤◌, ◌+◌, ◌++◌, IfOk, OnOk, length};
ghost use Rattle.qw_read.specs.declared.constant.Word.{Word};
ghost use Rattle.qw_compile.specs.Literals.{constants_from};
ghost use Rattle.qw_compile.specs.Words.{words_among};

use qw_leaves::leaf::Leaf;
use qw_low::cell::Local;
use qw_read::constant::{Constant, Word};
use qw_types::NoMemory;
use std::alloc::Global;

/// The numbers and the dates among leaves, in their order.
///
/// # Errors
///
/// [`NoMemory`] where the list does not fit memory.
pub fn words_of(alloc: Global, leaves: &[Leaf]) -> Result<Vec<Word>, NoMemory>
    ensures { IfOk result (λ words. words.items ≡ words_among leaves.now) }
{
    let mut words = Vec::new(alloc);
    for leaf in leaves {
        match leaf {
            Leaf::Number(value, scale) => words.push(Word::Number(*value, *scale))?,
            Leaf::Date(day) => words.push(Word::Date(*day))?,
            Leaf::Column(_, _) | Leaf::Text(_) => (),
        }
    }
    Ok(words)
}

/// Such literals with a local each, from one on.
///
/// # Errors
///
/// [`NoMemory`] where the list does not fit memory.
pub fn constants_of(alloc: Global, words: &[Word], first: Local) -> Result<Vec<Constant>, NoMemory>
    requires { first + length words.now ≤ 1000000 }
    ensures { IfOk result (λ constants. constants.items ≡ constants_from first words.now) }
{
    let mut constants = Vec::new(alloc);
    let mut local = first;
    for word in words {
        constants.push(Constant { word: *word, local })?;
        local += 1;
    }
    Ok(constants)
}
