//! Texts by their names.

use std::alloc::{AllocError, Global};

/// A name and its text.
#[derive(Drop)]
struct Named {
    name: String,
    text: String,
}

/// Texts, no two of one name.
#[derive(Drop)]
pub struct Texts {
    all: Vec<Named>,
}

impl Texts {
    /// No texts.
    pub fn new(alloc: Global) -> Self {
        Texts {
            all: Vec::new(alloc),
        }
    }

    /// No texts again.
    pub fn clear(&mut self) {
        self.all.clear();
    }

    fn place_of(&self, name: &str) -> Option<usize> {
        self.all.iter().position(|one| one.name.as_str() == name)
    }

    /// The text of a name, if there is one.
    pub fn text(&self, name: &str) -> Option<&str> {
        let one = self.all.get(self.place_of(name)?)?;
        Some(one.text.as_str())
    }

    /// Gives a name this text.
    pub fn put(&mut self, alloc: Global, name: &str, text: String) -> Result<(), AllocError> {
        match self.place_of(name) {
            Some(place) => {
                if let Some(one) = self.all.get_mut(place) {
                    one.text = text;
                }
            }
            None => {
                let name = String::from_str(alloc, name)?;
                self.all.push(Named { name, text })?;
            }
        }
        Ok(())
    }
}
