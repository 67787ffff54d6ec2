//! The queries that were compared, what each came to, and how many are as a line says.

use crate::fault::CaseFault;
use crate::text::{number_of, word_of};
use qw_plain::outcome::Answer;
use std::alloc::Global;

/// A query that was compared.
#[derive(Drop)]
struct Compared {
    text: String,
    raised: bool,
    rows: usize,
}

impl Compared {
    // Whether a query came to this end.
    fn has_ended(&self, end: &str) -> Result<bool, CaseFault> {
        match end {
            "raised" => Ok(self.raised),
            "rows" => Ok(self.rows > 0),
            "none" => Ok(self.rows == 0 && !self.raised),
            _ => Err(CaseFault::Line),
        }
    }

    // Whether the text has all words that stand between bars.
    fn has_words(&self, words: &str) -> bool {
        words
            .split('|')
            .all(|word| self.text.as_str().contains(word))
    }
}

/// The queries that were compared since the count began.
#[derive(Drop)]
pub struct Log {
    all: Vec<Compared>,
}

impl Log {
    /// None compared yet.
    pub fn new(alloc: Global) -> Self {
        Log {
            all: Vec::new(alloc),
        }
    }

    /// Notes a query and what it came to.
    pub fn note(&mut self, alloc: Global, text: &str, answer: &Answer) -> Result<(), CaseFault> {
        let (raised, rows) = match answer {
            Answer::Raises(_) => (true, 0),
            Answer::Rows(rows) => (false, rows.len()),
        };
        let text = String::from_str(alloc, text)?;
        self.all.push(Compared { text, raised, rows })?;
        Ok(())
    }

    fn raised(&self) -> usize {
        self.all.iter().filter(|one| one.raised).count()
    }

    /// What the count of the queries that were compared differs in from a line's, if it does. It begins again.
    pub fn count(&mut self, rest: &str) -> Result<Option<&'static str>, CaseFault> {
        let (wanted, _) = number_of(rest)?;
        let (queries, raised) = (self.all.len(), self.raised());
        self.all.clear();
        Ok(if queries as u64 != wanted {
            Some("count")
        } else if raised == 0 || raised == queries {
            Some("kind")
        } else {
            None
        })
    }

    /// Whether fewer queries than a line says came to its end and have its words.
    pub fn least(&self, rest: &str) -> Result<Option<&'static str>, CaseFault> {
        let (least, rest) = number_of(rest)?;
        let (end, words) = word_of(rest);
        Ok(if self.count_of(end, words)? < least {
            Some("count")
        } else {
            None
        })
    }

    // How many queries came to an end and have these words.
    fn count_of(&self, end: &str, words: &str) -> Result<u64, CaseFault> {
        let mut count: u64 = 0;
        for one in &self.all {
            if one.has_ended(end)? && one.has_words(words) {
                count = count.wrapping_add(1);
            }
        }
        Ok(count)
    }
}
