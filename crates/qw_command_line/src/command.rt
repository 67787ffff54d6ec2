//! What words that were read ask for, and why others aren't read.

ghost use Rattle.std.specs.Prelude.{◌≡◌, ◌≤◌, ℕ, Some};
ghost use Rattle.qw_command_line.specs.Words.{least_of, most_of, name_of};

use thiserror::Error;

/// A number that a word gives, as digits or as how many octets it has, from a least to a greatest value of its own.
#[derive(Clone, Copy, Debug)]
pub enum Number {
    /// How many instructions of a query have a turn.
    Quantum,
    /// How many pages a query may hold.
    Pages,
    /// How many instructions a query may run.
    Steps,
    /// Which statement of a script is compiled, counted from 1.
    Statement,
    /// What the draws of generated input begin with.
    Seed,
    /// How many rows of a table are generated.
    Rows,
    /// How many octets the text has that stands for null in table files.
    Null,
    /// How many parts the file of a table has.
    Parts,
}

impl Number {
    /// Its name, which is that of its option or of its place.
    pub fn name(self) -> &'static str
        ensures { result.now ≡ name_of self }
    {
        match self {
            Number::Quantum => "quantum",
            Number::Pages => "pages",
            Number::Steps => "steps",
            Number::Statement => "statement",
            Number::Seed => "SEED",
            Number::Rows => "ROWS",
            Number::Null => "null",
            Number::Parts => "parts",
        }
    }

    /// Its least value.
    pub fn least(self) -> u64
        ensures { result ≡ least_of self }
    {
        match self {
            Number::Seed | Number::Rows => 0,
            _ => 1,
        }
    }

    /// Its greatest value.
    pub fn most(self) -> u64
        ensures { result ≡ most_of self }
    {
        match self {
            Number::Quantum => 1_000_000_000,
            Number::Pages => 65_535,
            Number::Steps => 999_999_999_999_999_999,
            Number::Statement => 64,
            Number::Seed => 18_446_744_073_709_551_615,
            Number::Rows => 100_000,
            Number::Null => 100,
            Number::Parts => 999,
        }
    }
}

/// What `run` and `gen` are given beside their input, each in its range.
#[derive(Clone, Copy, Debug)]
pub struct RunOptions {
    /// How many pages of 65,536 octets a query may hold.
    pub pages: u32,
    /// How many instructions a query may run.
    pub steps: u64,
    /// How many instructions a query runs before the next one has its turn: so many that the cost of a turn doesn't count, and so few
    /// that queries alternate.
    pub quantum: u64,
    /// Whether counts of what was used are written.
    pub counts: bool,
    ghost some_pages: { 1 ≤ pages },
    ghost few_pages: { pages ≤ 65535 },
    ghost some_steps: { 1 ≤ steps },
    ghost few_steps: { steps ≤ 999999999999999999 },
    ghost some_quantum: { 1 ≤ quantum },
    ghost few_quantum: { quantum ≤ 1000000000 },
}

/// The options of `run` and `gen` where no word says otherwise.
pub const DEFAULT_OPTIONS: RunOptions = RunOptions {
    pages: 128,
    steps: 999_999_999_999_999_999,
    quantum: 10_000,
    counts: false,
};

/// The words of `run`.
#[derive(Clone, Copy, Debug)]
pub struct RunWords<'a> {
    /// The name of the schema file.
    pub schema: &'a str,
    /// The folder of the table files.
    pub folder: &'a str,
    /// The name of the queries file.
    pub queries: &'a str,
    /// The text of 1 to 100 octets that stands for null in table files, if one does.
    pub null: Option<&'a str>,
    /// How many parts the file of each table has, from 1 to 999, if it is in parts.
    pub parts: Option<u64>,
    /// What else it is given.
    pub options: RunOptions,
    ghost some_parts: { (count : ℕ) → parts ≡ Some count → 1 ≤ count },
    ghost few_parts: { (count : ℕ) → parts ≡ Some count → count ≤ 999 },
}

/// The words of `compile`.
#[derive(Clone, Copy, Debug)]
pub struct CompileWords<'a> {
    /// The name of the schema file.
    pub schema: &'a str,
    /// The name of the queries file.
    pub queries: &'a str,
    /// The number of the statement, from 1 to 64.
    pub statement: u64,
}

/// The words of `gen`.
#[derive(Clone, Copy, Debug)]
pub struct GenWords {
    /// What the draws of the generated input begin with.
    pub seed: u64,
    /// How many rows of SALE are generated, at most 100,000.
    pub rows: u32,
    /// What else it is given.
    pub options: RunOptions,
}

/// A command, with the words that belong to it.
#[derive(Clone, Copy, Debug)]
pub enum Command<'a> {
    /// `run`: the queries of a file are run over table files, and their rows reported.
    Run(RunWords<'a>),
    /// `compile`: the module of a statement is written.
    Compile(CompileWords<'a>),
    /// `check`: the file of this name is checked to be a valid module.
    Check(&'a str),
    /// `gen`: the queries of generated input are run over its tables, and their rows reported.
    Gen(GenWords),
}

/// Why words aren't read.
#[derive(Debug, Drop, Error)]
pub enum WordsFault {
    /// They are those of no command, or ask for help. The text is for the user.
    #[error("the words are those of no command")]
    Refused(String),
    /// The word for a number isn't digits, or out of its range; the text that stands for null has no octet, or too many.
    #[error("a number is out of range")]
    OutOfRange(Number),
    #[error("want of memory")]
    NoMemory,
}
