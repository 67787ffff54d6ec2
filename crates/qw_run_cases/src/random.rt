//! Scripts that are drawn by rules, with what is drawn besides, and what the program leaves of each beside the slow program's answer.

use crate::compare::{Given, Way, first_difference};
use crate::compared::Log;
use crate::draws::{Draws, drawn};
use crate::fault::CaseFault;
use crate::named::Texts;
use crate::setting::Setting;
use crate::text::{number_of, word_of};
use std::alloc::{AllocError, Global};

/// The rules, the lines that are drawn for each script, and those that were drawn for the last one.
#[derive(Drop)]
pub struct Random {
    rules: Texts,
    lines: Vec<String>,
    drawn: Vec<String>,
}

impl Random {
    /// No rules and no lines.
    pub fn new(alloc: Global) -> Self {
        Random {
            rules: Texts::new(alloc),
            lines: Vec::new(alloc),
            drawn: Vec::new(alloc),
        }
    }

    /// Does what a line says that sets a rule or a line to be drawn.
    pub fn set(&mut self, alloc: Global, key: &str, rest: &str) -> Result<(), CaseFault> {
        match key {
            "rule" => self.add_rule(alloc, rest)?,
            "draw" => self.lines.push(String::from_str(alloc, rest)?)?,
            "draws" => self.lines.clear(),
            _ => self.rules.clear(),
        }
        Ok(())
    }

    // A rule, or more alternatives of one that is there.
    fn add_rule(&mut self, alloc: Global, rest: &str) -> Result<(), AllocError> {
        let (name, more) = word_of(rest);
        let alternatives = match self.rules.text(name) {
            None => String::from_str(alloc, more)?,
            Some(text) => format!(in alloc; "{text}|{more}")?,
        };
        self.rules.put(alloc, name, alternatives)
    }

    /// Draws so many scripts, each with what is drawn besides. Answers the number of the first query of one, from 0 on, that the program
    /// ends otherwise than the slow program: this script was the last one drawn.
    pub fn first_other(
        &mut self,
        alloc: Global,
        setting: &mut Setting,
        log: &mut Log,
        rest: &str,
    ) -> Result<Option<usize>, CaseFault> {
        let (seed, rest) = number_of(rest)?;
        let (count, _) = number_of(rest)?;
        let mut draws = Draws::new(alloc, seed);
        for _ in 0..count {
            self.draw(alloc, &mut draws)?;
            let other = self.other(alloc, setting, log)?;
            if other.is_some() {
                return Ok(other);
            }
        }
        Ok(None)
    }

    // Draws the lines of a script.
    fn draw(&mut self, alloc: Global, draws: &mut Draws) -> Result<(), CaseFault> {
        self.drawn.clear();
        for line in &self.lines {
            self.drawn
                .push(drawn(alloc, &self.rules, draws, line.as_str())?)?;
        }
        Ok(())
    }

    fn other(
        &self,
        alloc: Global,
        setting: &mut Setting,
        log: &mut Log,
    ) -> Result<Option<usize>, CaseFault> {
        for line in &self.drawn {
            let (key, rest) = word_of(line.as_str());
            setting.set(alloc, key, rest)?;
        }
        let given = Given::of(alloc, setting, Way::AnyOrder)?;
        first_difference(alloc, setting, &given, log)
    }

    /// The lines that were drawn for the last script.
    pub fn last(&self, alloc: Global) -> Result<String, AllocError> {
        let mut text = String::new(alloc);
        for line in &self.drawn {
            text.push_str("\n")?;
            text.push_str(line.as_str())?;
        }
        Ok(text)
    }
}
