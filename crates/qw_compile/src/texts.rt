//! The text literals of a query (ISO/IEC 9075:1992, 5.3): their octets, which lie in the first page, and the locals for them.

ghost use Rattle.std.specs.Prelude.{◌≡◌, ◌≤◌, ◌+◌, ◌*◌, IsUtf8, IfOk, length};
ghost use Rattle.std.specs.List.{concat};
ghost use Rattle.qw_leaves.specs.Leaves.{texts_among};
ghost use Rattle.qw_compile.specs.Literals as gathered;

use qw_leaves::leaf::Leaf;
use qw_low::cell::{Cell, Local};
use qw_read::literal::Literal;
use qw_types::{NoMemory, Text};
use std::alloc::Global;

/// Each text has so many locals: for its address and its length.
const LOCALS: u32 = 2;

/// Another text with the same octets.
pub fn copy_of(alloc: Global, text: &Text) -> Result<Text, NoMemory>
    ensures { IfOk result (λ copy. (copy ≡ text.now) × IsUtf8 text.now) }
{
    let copy = String::from_str(alloc, text.as_str())?;
    Ok(Text::new(copy))
}

/// The texts among leaves, in their order.
///
/// # Errors
///
/// [`NoMemory`] where memory does not suffice.
pub fn texts_of(alloc: Global, leaves: &[Leaf]) -> Result<Vec<Text>, NoMemory>
    ensures { IfOk result (λ texts. texts.items ≡ texts_among leaves.now) }
{
    let mut texts = Vec::new(alloc);
    for leaf in leaves {
        match leaf {
            Leaf::Text(text) => texts.push(copy_of(alloc, text)?)?,
            Leaf::Column(_, _) | Leaf::Number(_, _) | Leaf::Date(_) => (),
        }
    }
    Ok(texts)
}

/// The octets of texts, one text behind another.
///
/// # Errors
///
/// [`NoMemory`] where memory does not suffice.
pub fn octets_of(alloc: Global, texts: &[Text]) -> Result<Vec<u8>, NoMemory>
    ensures { IfOk result (λ octets. octets.items ≡ concat texts.now) }
{
    let mut octets = Vec::new(alloc);
    for text in texts {
        octets.extend_from_slice(text.as_str().as_bytes())?;
    }
    Ok(octets)
}

/// The literals of texts whose octets lie one behind another from an offset of the first page on, with two locals each, from one on.
///
/// # Errors
///
/// [`NoMemory`] where the list does not fit memory.
pub fn literals_of(
    alloc: Global,
    texts: &[Text],
    first: Local,
    offset: u32,
) -> Result<Vec<Literal>, NoMemory>
    requires locals { first + 2 * length texts.now ≤ 1000000 }
    requires octets { offset + length (concat texts.now) ≤ 1000000 }
    ensures { IfOk result (λ literals. literals.items ≡ gathered.literals_from first offset texts.now) }
{
    let mut literals = Vec::new(alloc);
    let mut local = first;
    let mut at = offset;
    for text in texts {
        let count = text.as_str().len() as u32;
        literals.push(Literal {
            at,
            count,
            cell: Cell {
                value: local,
                length: local + 1,
                null: None,
            },
        })?;
        local += LOCALS;
        at += count;
    }
    Ok(literals)
}
