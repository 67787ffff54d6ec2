//! A whole call over the texts in memory, and in what it differs from what is wanted.

use crate::fault::CaseFault;
use crate::setting::Setting;
use qw_bench::bench::Bench;
use qw_io::MemorySink;
use qw_top::status::Status;
use qw_top::top::qwasm;
use std::alloc::{AllocError, Global};

/// What a call came to: its end, what it wrote and noted, and the bench that it kept.
#[derive(Drop)]
pub struct Came {
    status: Status,
    out: MemorySink,
    notes: MemorySink,
    kept: Option<Bench>,
}

impl Came {
    /// Calls the program as a setting says.
    pub fn of(alloc: Global, setting: &Setting) -> Result<Self, AllocError> {
        let mut files = setting.shelf(alloc)?;
        let mut out = setting.out(alloc)?;
        let mut notes = setting.notes(alloc)?;
        let mut kept = None;
        let words = setting.words();
        let status = qwasm(alloc, words, &mut files, &mut out, &mut notes, &mut kept);
        Ok(Came {
            status,
            out,
            notes,
            kept,
        })
    }

    /// What the call wrote.
    pub fn out(&self) -> &[u8] {
        self.out.bytes()
    }

    /// The bench that the call kept.
    pub fn kept(&self) -> Option<&Bench> {
        self.kept.as_ref()
    }

    /// What the call came to, in words.
    pub fn told(&self, alloc: Global) -> Result<String, AllocError> {
        let (out, notes) = (shown(self.out.bytes()), shown(self.notes.bytes()));
        let instances = self.instances();
        format!(in alloc;
            "it ended with {:?}, wrote {out:?}, noted {notes:?}, and kept {instances:?}",
            self.status
        )
    }

    // How many instances the bench has that the call kept, if it kept one.
    fn instances(&self) -> Option<usize> {
        match &self.kept {
            Some(bench) => Some(bench.len()),
            None => None,
        }
    }

    /// What the call differs in from the end and the texts that are wanted, if it does.
    pub fn difference(
        &self,
        alloc: Global,
        setting: &Setting,
        status: &str,
    ) -> Result<Option<&'static str>, CaseFault> {
        let ended = format!(in alloc; "{:?}", self.status)?;
        Ok(if ended.as_str() == status {
            self.other_than(setting)
        } else {
            Some("end")
        })
    }

    fn other_than(&self, setting: &Setting) -> Option<&'static str> {
        if !is_as_wanted(setting.text("out"), self.out.bytes()) {
            Some("report")
        } else if !is_as_wanted(setting.text("notes"), self.notes.bytes()) {
            Some("note")
        } else if self.instances() != setting.kept() {
            Some("bench")
        } else {
            None
        }
    }
}

fn shown(octets: &[u8]) -> &str {
    std::str::from_utf8(octets).unwrap_or("what is no text")
}

// Whether octets are those of a text; where there is none, whether there are octets at all.
fn is_as_wanted(text: Option<&[u8]>, octets: &[u8]) -> bool {
    match text {
        Some(text) => text == octets,
        None => !octets.is_empty(),
    }
}
