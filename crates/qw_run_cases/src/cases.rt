//! The lines of cases, one after another, and the verdict on each case.

use crate::called::Came;
use crate::compared::Log;
use crate::fault::CaseFault;
use crate::left;
use crate::random::Random;
use crate::same::Forms;
use crate::setting::Setting;
use crate::text::word_of;
use std::alloc::{AllocError, Global};

/// What is said of a case, and whether it came out as it has to.
#[derive(Drop)]
pub struct Verdict {
    /// The line that tells it.
    pub text: String,
    /// Whether the case came out as it has to.
    pub is_good: bool,
}

/// The lines so far: what they set, the last call, the forms and the rules of queries, and the queries that were compared.
#[derive(Drop)]
pub struct Cases {
    setting: Setting,
    came: Option<Came>,
    forms: Forms,
    random: Random,
    log: Log,
}

impl Cases {
    /// No line yet.
    pub fn new(alloc: Global) -> Self {
        Cases {
            setting: Setting::new(alloc),
            came: None,
            forms: Forms::new(alloc),
            random: Random::new(alloc),
            log: Log::new(alloc),
        }
    }

    /// Does what a line says, and answers the verdict where it is a case.
    pub fn line(&mut self, alloc: Global, line: &str) -> Result<Option<Verdict>, CaseFault> {
        let (key, rest) = word_of(line);
        match key {
            "" | "#" => Ok(None),
            "case" | "held" | "size" | "octets" | "seen" | "least" => self.right(alloc, line),
            "same" => self.same(alloc, rest),
            "random" => self.random(alloc, rest),
            "wrong" => self.wrong(alloc, rest),
            "keep" => unjudged(self.keep(alloc, rest)),
            "form" | "forms" => unjudged(self.forms.set(alloc, key, rest)),
            "rule" | "rules" | "draw" | "draws" => unjudged(self.random.set(alloc, key, rest)),
            _ => unjudged(self.setting.set(alloc, key, rest)),
        }
    }

    // What the case of a line differs in from what is wanted, if it does.
    fn difference(&mut self, alloc: Global, line: &str) -> Result<Option<&'static str>, CaseFault> {
        let (key, rest) = word_of(line);
        match key {
            "case" => self.called(alloc, rest),
            "same" => told("answer", self.is_same(alloc, rest)),
            "random" => told("answer", self.is_drawn_same(alloc, rest)),
            "seen" => self.log.count(rest),
            "least" => self.log.least(rest),
            _ => told("bench", self.is_left(alloc, key, rest)),
        }
    }

    // Makes the call of a case, and tells what it differs in.
    fn called(&mut self, alloc: Global, rest: &str) -> Result<Option<&'static str>, CaseFault> {
        self.came = Some(Came::of(alloc, &self.setting)?);
        let (status, _) = word_of(rest);
        self.came()?.difference(alloc, &self.setting, status)
    }

    fn is_same(&mut self, alloc: Global, template: &str) -> Result<bool, CaseFault> {
        let other = self.other(alloc, template)?;
        Ok(other.is_none())
    }

    fn is_drawn_same(&mut self, alloc: Global, rest: &str) -> Result<bool, CaseFault> {
        let other = self.drawn_other(alloc, rest)?;
        Ok(other.is_none())
    }

    // The number of the first query of a template that comes out otherwise.
    fn other(&mut self, alloc: Global, template: &str) -> Result<Option<usize>, CaseFault> {
        self.forms
            .first_other(alloc, &mut self.setting, &mut self.log, template)
    }

    // The number of the first query that comes out otherwise, of the last script that was drawn.
    fn drawn_other(&mut self, alloc: Global, rest: &str) -> Result<Option<usize>, CaseFault> {
        self.random
            .first_other(alloc, &mut self.setting, &mut self.log, rest)
    }

    fn is_left(&self, alloc: Global, key: &str, rest: &str) -> Result<bool, CaseFault> {
        left::is_as_wanted(alloc, self.came()?.kept(), key, rest)
    }

    // What the last call came to.
    fn came(&self) -> Result<&Came, CaseFault> {
        self.came.as_ref().ok_or(CaseFault::Line)
    }

    // Gives a name what the last call wrote.
    fn keep(&mut self, alloc: Global, name: &str) -> Result<(), CaseFault> {
        let octets = Vec::from_slice(alloc, self.came()?.out())?;
        self.setting.put(alloc, name, octets)?;
        Ok(())
    }

    // The verdict on the queries of a template.
    fn same(&mut self, alloc: Global, template: &str) -> Result<Option<Verdict>, CaseFault> {
        match self.other(alloc, template)? {
            None => judged(true, format!(in alloc; "same {template}: as wanted")),
            Some(k) => judged(
                false,
                format!(in alloc; "same {template}: another answer at query {k}"),
            ),
        }
    }

    // The verdict on scripts that are drawn.
    fn random(&mut self, alloc: Global, rest: &str) -> Result<Option<Verdict>, CaseFault> {
        match self.drawn_other(alloc, rest) {
            Ok(None) => judged(true, format!(in alloc; "random {rest}: as wanted")),
            Ok(Some(k)) => {
                let last = self.random.last(alloc)?;
                judged(
                    false,
                    format!(in alloc; "random {rest}: another answer at query {k} of{last}"),
                )
            }
            Err(fault) => {
                let last = self.random.last(alloc)?;
                judged(false, format!(in alloc; "random {rest}: {fault}: {last}"))
            }
        }
    }

    // The verdict on a case.
    fn right(&mut self, alloc: Global, line: &str) -> Result<Option<Verdict>, CaseFault> {
        match self.difference(alloc, line)? {
            None => judged(true, format!(in alloc; "{line}: as wanted")),
            Some(what) => self.another(alloc, line, what),
        }
    }

    // What a case differs in, and, of one that is about the last call, what this came to.
    fn another(&self, alloc: Global, line: &str, what: &str) -> Result<Option<Verdict>, CaseFault> {
        let (key, _) = word_of(line);
        if key == "seen" || key == "least" {
            return judged(false, format!(in alloc; "{line}: another {what}"));
        }
        let told = self.came()?.told(alloc)?;
        judged(false, format!(in alloc; "{line}: another {what}: {told}"))
    }

    // The verdict on a case that is wrong on purpose.
    fn wrong(&mut self, alloc: Global, line: &str) -> Result<Option<Verdict>, CaseFault> {
        match self.difference(alloc, line)? {
            None => judged(
                false,
                format!(in alloc; "{line}: as wanted, which it must not be"),
            ),
            Some(what) => judged(
                true,
                format!(in alloc; "{line}: another {what}, as it has to have"),
            ),
        }
    }
}

// What a case differs in, where it isn't as wanted.
fn told(
    what: &'static str,
    is_as_wanted: Result<bool, CaseFault>,
) -> Result<Option<&'static str>, CaseFault> {
    Ok(if is_as_wanted? { None } else { Some(what) })
}

// The verdict that a line tells.
fn judged(is_good: bool, text: Result<String, AllocError>) -> Result<Option<Verdict>, CaseFault> {
    Ok(Some(Verdict {
        text: text?,
        is_good,
    }))
}

// No verdict where a line only sets something.
fn unjudged(done: Result<(), CaseFault>) -> Result<Option<Verdict>, CaseFault> {
    done?;
    Ok(None)
}
