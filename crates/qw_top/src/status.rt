//! How a run of the program ends.

ghost use Rattle.std.specs.Prelude.{◌≡◌};
ghost use Rattle.qw_top.specs.Status.{exit_code};

use qw_types::NoMemory;

/// How a run of the program ended.
#[derive(Clone, Copy, Debug, PartialEq, Eq)]
pub enum Status {
    /// Every query gave rows, and the report was written.
    Done,
    /// The report was written, and it says of a query that it raised an exception, and of none that it met a limit.
    Raised,
    /// The words of the command line are none that the program takes.
    WordsRefused,
    /// The schema file is too long, or its text is no schema.
    SchemaRefused,
    /// A table file is too long, or its records don't fit the table.
    TableFileRefused,
    /// The queries file is too long, or its text is no script over the schema.
    QueriesRefused,
    /// A file could not be read.
    ReadFailed,
    /// The report or a line on what went wrong could not be written.
    WriteFailed,
    /// The report was written, and it says of a query that it met its limit of pages.
    PageLimitMet,
    /// There was no memory left.
    NoMemory,
    /// The report was written, and it says of a query that it met its limit of instructions, and of none that it met one of pages.
    StepLimitMet,
    /// The pages of the columns and the limits of pages are more than a memory has.
    TotalPages,
}

impl From<NoMemory> for Status {
    ghost use Rattle.qw_top.specs.declared.status.Status.TheVariants.{NoMemory};

    ghost from_gives = { λ _ status. status ≡ NoMemory };

    fn from(_fault: NoMemory) -> Status {
        Status::NoMemory
    }
}

impl Status {
    /// The number that the program ends with.
    pub fn code(self) -> u8
        ensures { result ≡ exit_code self }
    {
        match self {
            Status::Done => 0,
            Status::Raised => 1,
            Status::WordsRefused => 2,
            Status::SchemaRefused => 3,
            Status::TableFileRefused => 4,
            Status::QueriesRefused => 5,
            Status::ReadFailed => 6,
            Status::WriteFailed => 7,
            Status::PageLimitMet => 8,
            Status::NoMemory => 9,
            Status::StepLimitMet => 10,
            Status::TotalPages => 11,
        }
    }
}

/// The numbers of all statuses.
pub fn status_numbers()
    ensures done { exit_code Status.Done ≡ 0 }
    ensures raised { exit_code Status.Raised ≡ 1 }
    ensures words { exit_code Status.WordsRefused ≡ 2 }
    ensures schema { exit_code Status.SchemaRefused ≡ 3 }
    ensures table { exit_code Status.TableFileRefused ≡ 4 }
    ensures queries { exit_code Status.QueriesRefused ≡ 5 }
    ensures read { exit_code Status.ReadFailed ≡ 6 }
    ensures write { exit_code Status.WriteFailed ≡ 7 }
    ensures pages { exit_code Status.PageLimitMet ≡ 8 }
    ensures no_memory { exit_code Status.NoMemory ≡ 9 }
    ensures steps { exit_code Status.StepLimitMet ≡ 10 }
    ensures total { exit_code Status.TotalPages ≡ 11 }
{}
