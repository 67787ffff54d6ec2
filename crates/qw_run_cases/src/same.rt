//! Queries made of forms, and what the program leaves of each beside the slow program's answer.

use crate::compare::{Given, Way, first_difference};
use crate::compared::Log;
use crate::fault::CaseFault;
use crate::setting::Setting;
use std::alloc::{AllocError, Global};

/// Forms of queries.
#[derive(Drop)]
pub struct Forms {
    forms: Vec<String>,
}

// The most statements of a script.
const MOST: usize = 64;

impl Forms {
    /// No forms.
    pub fn new(alloc: Global) -> Self {
        Forms {
            forms: Vec::new(alloc),
        }
    }

    /// No forms again, or one more.
    pub fn set(&mut self, alloc: Global, key: &str, form: &str) -> Result<(), CaseFault> {
        if key == "forms" {
            self.forms.clear();
        } else {
            self.forms.push(String::from_str(alloc, form)?)?;
        }
        Ok(())
    }

    /// The number of the first query of a template, from 0 on, that the program ends otherwise than the slow program.
    pub fn first_other(
        &self,
        alloc: Global,
        setting: &mut Setting,
        log: &mut Log,
        template: &str,
    ) -> Result<Option<usize>, CaseFault> {
        let given = Given::of(alloc, setting, Way::InOrder)?;
        for (k, forms) in self.forms.chunks(MOST).enumerate() {
            let script = script_of(alloc, forms, template)?;
            setting.put(alloc, "q", script.into_bytes())?;
            if let Some(other) = first_difference(alloc, setting, &given, log)? {
                return Ok(Some(other.saturating_add(k.saturating_mul(MOST))));
            }
        }
        Ok(None)
    }
}

// The script that has a query of each form.
fn script_of(alloc: Global, forms: &[String], template: &str) -> Result<String, AllocError> {
    let mut script = String::new(alloc);
    for form in forms {
        push_query(&mut script, template, form.as_str())?;
        script.push_str(";")?;
    }
    Ok(script)
}

// Adds a template with the words of a form, which stand between bars, in place of their marks.
fn push_query(script: &mut String, template: &str, form: &str) -> Result<(), AllocError> {
    let mut parts = template.split('@');
    script.push_str(parts.next().unwrap_or(""))?;
    for part in parts {
        script.push_str(word_at(form, part.as_bytes().first().copied()))?;
        script.push_str(part.get(1..).unwrap_or(""))?;
    }
    Ok(())
}

// The word of a form that a digit stands for, from 1 on.
fn word_at(form: &str, digit: Option<u8>) -> &str {
    let place = digit.unwrap_or(b'1').saturating_sub(b'1');
    form.split('|').nth(usize::from(place)).unwrap_or("")
}
