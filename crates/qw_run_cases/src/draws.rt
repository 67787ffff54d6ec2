//! Texts that are drawn by rules: in a text, a name between braces stands for one of the alternatives of its rule.

use crate::fault::CaseFault;
use crate::named::Texts;
use std::alloc::{AllocError, Global};

// The most pieces of a text.
const MOST: usize = 1_000_000;

/// The numbers that a seed gives, one after another, and the texts that are kept.
#[derive(Drop)]
pub struct Draws {
    state: u64,
    kept: Texts,
}

impl Draws {
    /// The draws of a seed, none of them taken.
    pub fn new(alloc: Global, seed: u64) -> Self {
        Draws {
            state: seed,
            kept: Texts::new(alloc),
        }
    }

    // Knuth's generator MMIX, without the lower bits of its numbers, which repeat too soon.
    fn next(&mut self) -> usize {
        let factor = 6_364_136_223_846_793_005;
        self.state = self
            .state
            .wrapping_mul(factor)
            .wrapping_add(1_442_695_040_888_963_407);
        (self.state >> 33) as usize
    }

    // One of the alternatives that stand between bars.
    fn one_of<'a>(&mut self, alternatives: &'a str) -> &'a str {
        let count = alternatives.split('|').count();
        let place = self.next().checked_rem(count).unwrap_or(0);
        alternatives.split('|').nth(place).unwrap_or("")
    }
}

/// A text of which some is drawn.
#[derive(Drop)]
struct Drawing {
    // What isn't drawn yet, the next piece last.
    pieces: Vec<String>,
    // The text, and those begun in it that are to be kept, the innermost last.
    begun: Vec<String>,
}

impl Drawing {
    fn of(alloc: Global, text: &str) -> Result<Self, AllocError> {
        let mut drawing = Drawing {
            pieces: Vec::new(alloc),
            begun: Vec::new(alloc),
        };
        drawing.pieces.push(String::from_str(alloc, text)?)?;
        drawing.begun.push(String::new(alloc))?;
        Ok(drawing)
    }

    fn add(&mut self, text: &str) -> Result<(), CaseFault> {
        let last = self.begun.last_mut().ok_or(CaseFault::Line)?;
        last.push_str(text)?;
        Ok(())
    }

    // Draws the first symbol of a piece, and leaves what follows it.
    fn step(
        &mut self,
        alloc: Global,
        rules: &Texts,
        draws: &mut Draws,
        piece: &str,
    ) -> Result<(), CaseFault> {
        let Some((before, behind)) = piece.split_once('{') else {
            return self.add(piece);
        };
        self.add(before)?;
        let (symbol, rest) = behind.split_once('}').ok_or(CaseFault::Line)?;
        self.pieces.push(String::from_str(alloc, rest)?)?;
        self.symbol(alloc, rules, draws, symbol)
    }

    fn symbol(
        &mut self,
        alloc: Global,
        rules: &Texts,
        draws: &mut Draws,
        symbol: &str,
    ) -> Result<(), CaseFault> {
        match symbol.split_once('=') {
            None => self.alternative(alloc, rules, draws, symbol),
            Some(("", name)) => self.add(draws.kept.text(name).ok_or(CaseFault::Line)?),
            Some((name, "")) => self.keep(alloc, draws, name),
            Some((name, rule)) => {
                self.begin(alloc, name)?;
                self.alternative(alloc, rules, draws, rule)
            }
        }
    }

    // Begins a text that is to be kept, and leaves a symbol that ends it.
    fn begin(&mut self, alloc: Global, name: &str) -> Result<(), CaseFault> {
        self.begun.push(String::new(alloc))?;
        self.pieces.push(format!(in alloc; "{{{name}=}}")?)?;
        Ok(())
    }

    // Keeps the text that was begun last.
    fn keep(&mut self, alloc: Global, draws: &mut Draws, name: &str) -> Result<(), CaseFault> {
        let text = self.begun.pop().ok_or(CaseFault::Line)?;
        draws.kept.put(alloc, name, text)?;
        Ok(())
    }

    // Leaves one of the alternatives of a rule, with what stands behind the rule's name in place of each `@`.
    fn alternative(
        &mut self,
        alloc: Global,
        rules: &Texts,
        draws: &mut Draws,
        rule: &str,
    ) -> Result<(), CaseFault> {
        let (name, word) = rule.split_once(':').unwrap_or((rule, ""));
        let alternatives = rules.text(name).ok_or(CaseFault::Line)?;
        let text = draws.one_of(alternatives).replace(alloc, '@', word)?;
        self.pieces.push(text)?;
        Ok(())
    }
}

/// A text, with what is drawn for each of its symbols in place of it.
pub fn drawn(
    alloc: Global,
    rules: &Texts,
    draws: &mut Draws,
    text: &str,
) -> Result<String, CaseFault> {
    let mut drawing = Drawing::of(alloc, text)?;
    for _ in 0..MOST {
        match drawing.pieces.pop() {
            None => return drawing.begun.pop().ok_or(CaseFault::Line),
            Some(piece) => drawing.step(alloc, rules, draws, piece.as_str())?,
        }
    }
    Err(CaseFault::Line)
}
