//! What a call is given, and what it has to come to: texts by their names, words, and how the outside answers.

use crate::fault::CaseFault;
use crate::text::{number_of, push_numbered, push_octets, word_of};
use qw_io::{MemoryShelf, MemorySink, NamedFile};
use std::alloc::{AllocError, Global};

/// What stands for the shelf, the report's sink and the sink of the notes.
#[derive(Clone, Copy)]
pub struct Outside {
    /// The most octets that a call of each gives or takes.
    greatest: [usize; 3],
    /// The number of the call of each that fails.
    failing: [u64; 3],
}

/// What the lines so far have set.
#[derive(Drop)]
pub struct Setting {
    texts: Vec<NamedFile>,
    words: Vec<String>,
    outside: Outside,
    kept: Option<usize>,
}

impl Setting {
    /// No texts and no words.
    pub fn new(alloc: Global) -> Self {
        Setting {
            texts: Vec::new(alloc),
            words: Vec::new(alloc),
            outside: Outside {
                greatest: [1; 3],
                failing: [u64::MAX; 3],
            },
            kept: None,
        }
    }

    /// The words of the call.
    pub fn words(&self) -> &[String] {
        self.words.as_slice()
    }

    /// How many instances the bench has to have that the call keeps, if it has to keep one.
    pub fn kept(&self) -> Option<usize> {
        self.kept
    }

    fn place_of(&self, name: &str) -> Option<usize> {
        self.texts
            .iter()
            .position(|text| text.name.as_str() == name)
    }

    /// The text of a name, if there is one.
    pub fn text(&self, name: &str) -> Option<&[u8]> {
        let text = self.texts.get(self.place_of(name)?)?;
        Some(text.bytes.as_slice())
    }

    /// Does what a line says that sets something.
    pub fn set(&mut self, alloc: Global, key: &str, rest: &str) -> Result<(), CaseFault> {
        match key {
            "text" => self.set_text(alloc, rest),
            "more" => self.add(alloc, rest),
            "drop" => self.drop_text(rest),
            "words" => self.set_words(alloc, rest),
            "greatest" => self.set_greatest(rest),
            "failing" => self.set_failing(rest),
            "kept" => self.set_kept(rest),
            _ => Err(CaseFault::Line),
        }
    }

    /// Gives a name these octets.
    pub fn put(&mut self, alloc: Global, name: &str, bytes: Vec<u8>) -> Result<(), AllocError> {
        match self.place_of(name) {
            Some(place) => {
                if let Some(text) = self.texts.get_mut(place) {
                    text.bytes = bytes;
                }
            }
            None => {
                let name = String::from_str(alloc, name)?;
                self.texts.push(NamedFile { name, bytes })?;
            }
        }
        Ok(())
    }

    fn set_text(&mut self, alloc: Global, rest: &str) -> Result<(), CaseFault> {
        let (name, text) = word_of(rest);
        self.put(alloc, name, Vec::new(alloc))?;
        push_octets(self.text_mut(name)?, text)
    }

    fn text_mut(&mut self, name: &str) -> Result<&mut Vec<u8>, CaseFault> {
        let place = self.place_of(name).ok_or(CaseFault::Line)?;
        let text = self.texts.get_mut(place).ok_or(CaseFault::Line)?;
        Ok(&mut text.bytes)
    }

    fn add(&mut self, alloc: Global, rest: &str) -> Result<(), CaseFault> {
        let (name, rest) = word_of(rest);
        let (from, rest) = number_of(rest)?;
        let (to, rest) = number_of(rest)?;
        push_all(alloc, self.text_mut(name)?, (from, to), rest)
    }

    fn drop_text(&mut self, name: &str) -> Result<(), CaseFault> {
        let place = self.place_of(name).ok_or(CaseFault::Line)?;
        if place < self.texts.len() {
            self.texts.remove(place);
        }
        Ok(())
    }

    // Words stand between single blanks, so that two blanks have an empty word between them.
    fn set_words(&mut self, alloc: Global, rest: &str) -> Result<(), CaseFault> {
        self.words.clear();
        if rest.is_empty() {
            return Ok(());
        }
        for word in rest.split(' ') {
            self.words.push(String::from_str(alloc, word)?)?;
        }
        Ok(())
    }

    fn set_greatest(&mut self, rest: &str) -> Result<(), CaseFault> {
        let [shelf, out, notes] = numbers_of(rest)?;
        self.outside.greatest = [shelf as usize, out as usize, notes as usize];
        Ok(())
    }

    fn set_failing(&mut self, rest: &str) -> Result<(), CaseFault> {
        self.outside.failing = numbers_of(rest)?;
        Ok(())
    }

    fn set_kept(&mut self, rest: &str) -> Result<(), CaseFault> {
        self.kept = match rest {
            "none" => None,
            _ => Some(number_of(rest)?.0 as usize),
        };
        Ok(())
    }

    /// A shelf that has all texts.
    pub fn shelf(&self, alloc: Global) -> Result<MemoryShelf, AllocError> {
        let files = copies(alloc, self.texts.as_slice())?;
        let failing = Vec::from_slice(alloc, &self.outside.failing[..1])?;
        Ok(MemoryShelf::new(files, self.outside.greatest[0].max(1), failing))
    }

    /// A sink for the report.
    pub fn out(&self, alloc: Global) -> Result<MemorySink, AllocError> {
        sink(alloc, self.outside.greatest[1], self.outside.failing[1])
    }

    /// A sink for the notes.
    pub fn notes(&self, alloc: Global) -> Result<MemorySink, AllocError> {
        sink(alloc, self.outside.greatest[2], self.outside.failing[2])
    }
}

fn sink(alloc: Global, greatest: usize, failing: u64) -> Result<MemorySink, AllocError> {
    let failing = Vec::from_slice(alloc, &[failing])?;
    Ok(MemorySink::new(alloc, greatest.max(1), failing))
}

// Three numbers, each of which may be `-` for one that nothing reaches.
fn numbers_of(rest: &str) -> Result<[u64; 3], CaseFault> {
    let (first, rest) = number_or_none(rest)?;
    let (second, rest) = number_or_none(rest)?;
    let (third, _) = number_or_none(rest)?;
    Ok([first, second, third])
}

fn number_or_none(rest: &str) -> Result<(u64, &str), CaseFault> {
    match word_of(rest) {
        ("-", rest) => Ok((u64::MAX, rest)),
        _ => number_of(rest),
    }
}

fn push_all(
    alloc: Global,
    into: &mut Vec<u8>,
    numbers: (u64, u64),
    text: &str,
) -> Result<(), CaseFault> {
    let mut octets = Vec::new(alloc);
    push_octets(&mut octets, text)?;
    push_numbered(alloc, into, numbers, octets.as_slice())?;
    Ok(())
}

fn copies(alloc: Global, texts: &[NamedFile]) -> Result<Vec<NamedFile>, AllocError> {
    let mut files = Vec::new(alloc);
    for text in texts {
        files.push(copy(alloc, text)?)?;
    }
    Ok(files)
}

fn copy(alloc: Global, text: &NamedFile) -> Result<NamedFile, AllocError> {
    Ok(NamedFile {
        name: String::from_str(alloc, text.name.as_str())?,
        bytes: Vec::from_slice(alloc, text.bytes.as_slice())?,
    })
}
