//! Refusals, unread files and want of memory, as a run stops at them.

ghost use Rattle.std.specs.Prelude.{◌≡◌};
ghost use Rattle.qw_top.specs.Inner.Causes.{cause_of};
ghost use Rattle.qw_top.specs.Inner.Stop.{octets_of, refusal_status, StopsFor};

use crate::causes::Cause;
use crate::status::Status;
use qw_types::NoMemory;
use std::alloc::Global;

/// What is refused with a line of its own.
#[derive(Clone, Copy, Debug, PartialEq, Eq)]
pub enum Refusal {
    /// The schema file.
    Schema,
    /// A table's file.
    TableFile,
    /// The queries file.
    Queries,
    /// The file of a module.
    Module,
    /// More pages than a memory has.
    TotalPages,
}

impl Refusal {
    /// The status of a run that ends with this refusal.
    pub fn status(self) -> Status
        ensures { result ≡ refusal_status self }
    {
        match self {
            Refusal::Schema => Status::SchemaRefused,
            Refusal::TableFile => Status::TableFileRefused,
            Refusal::Queries | Refusal::Module => Status::QueriesRefused,
            Refusal::TotalPages => Status::TotalPages,
        }
    }
}

/// The name of a file.
#[derive(Debug, Drop)]
pub enum FileName<'a> {
    /// A word of the command line.
    Given(&'a str),
    /// A name that was made from such a word.
    Made(String),
}

impl FileName<'_> {
    /// The name as it was given or made.
    pub fn as_str(&self) -> &str
        ensures { result.now ≡ octets_of self.now }
    {
        match self {
            FileName::Given(name) => name,
            FileName::Made(name) => name.as_str(),
        }
    }
}

/// Why a command stopped before its work was done.
#[derive(Debug, Drop)]
pub enum Stop<'a> {
    /// A file or the number of a statement was refused, or more pages are needed than a memory has.
    Refused {
        refusal: Refusal,
        /// The line on the cause.
        line: String,
    },
    /// The file of this name could not be read.
    Unread(FileName<'a>),
    /// There was no memory left.
    NoMemory,
}

impl From<NoMemory> for Stop<'_> {
    ghost use Rattle.qw_top.specs.declared.stop.Stop.TheVariants.{NoMemory};

    ghost from_gives = { λ _ stop. stop ≡ NoMemory };

    fn from(_fault: NoMemory) -> Self {
        Stop::NoMemory
    }
}

/// Why a run stops for this cause. Where there is no memory for its line, that is why.
pub(crate) fn refused<'a>(alloc: Global, cause: Cause<'_>) -> Stop<'a>
    ensures { StopsFor (cause_of cause.entry) result }
{
    match cause.line(alloc) {
        Ok(line) => Stop::Refused {
            refusal: cause.refusal(),
            line,
        },
        Err(NoMemory) => Stop::NoMemory,
    }
}
