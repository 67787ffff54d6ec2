//! Words, read as one of the commands.

ghost use Rattle.std.specs.Prelude.{◌≡◌, ◌≤◌, ℕ, Option, Some, map, IfOk};
ghost use Rattle.std.specs.String.{string_bytes};
ghost use Rattle.clap.specs.Words.{Text, first_of, found_of, kind_of, rows_of, subcommand_rows_of};
ghost use Rattle.qw_command_line.specs.Inner.Values.{IsRefusal, IsValue, gen_read, null_read, number_read, options_read, parts_read, run_read};
ghost use Rattle.qw_command_line.specs.Read.{Answers, AnswersStatement};
ghost use Rattle.qw_command_line.specs.Words as spec;

use crate::command::{
    Command, CompileWords, DEFAULT_OPTIONS, GenWords, Number, RunOptions, RunWords, WordsFault,
};
use crate::program::program;
use clap::error::ErrorKind;
use clap::{ArgMatches, Error};
use qw_types::digits::are_digits;
use std::alloc::Global;

/// Reads the words of a command line, without the program's own name.
///
/// # Errors
///
/// `Refused` where `clap` takes them for no command of the program, with its text; `OutOfRange` where it does, and the word for this
/// number isn't one or more digits with a value in its range, those for `SEED`, `ROWS`, `quantum`, `pages`, `steps`, `null` and `parts` being read in this
/// order, and that for `null` being any text of 1 to 100 octets;
/// `NoMemory`.
pub fn read<'a>(alloc: Global, words: &'a [String]) -> Result<Command<'a>, WordsFault>
    ensures { Answers (spec.reading (map string_bytes words.entry.now)) result }
{
    let Ok(program) = program(alloc) else {
        return Err(WordsFault::NoMemory);
    };
    match program.try_get_matches_from(words) {
        Ok(matches) => entered(alloc, &matches),
        Err(error) => Err(refusal(alloc, &error)),
    }
}

/// Why words aren't read that `clap` answers with this error. Its text is for the user.
pub(crate) fn refusal(alloc: Global, error: &Error) -> WordsFault
    ensures refusal { IsRefusal result }
    ensures memory { kind_of error.now ≡ ErrorKind.OutOfMemory → result ≡ WordsFault.NoMemory }
{
    if error.kind() == ErrorKind::OutOfMemory {
        return WordsFault::NoMemory;
    }
    match format!(in alloc; "{error}") {
        Ok(text) => WordsFault::Refused(text),
        Err(_) => WordsFault::NoMemory,
    }
}

/// The command that the words entered.
fn entered<'a>(alloc: Global, matches: &ArgMatches<'a>) -> Result<Command<'a>, WordsFault>
    ensures { Answers (spec.read_entered (subcommand_rows_of matches.now)) result }
{
    match matches.subcommand() {
        Some((name, matches)) => read_as(alloc, name, matches),
        None => Err(no_command(alloc)),
    }
}

/// The command of this name, with these matches.
fn read_as<'a>(
    alloc: Global,
    name: &str,
    matches: &ArgMatches<'a>,
) -> Result<Command<'a>, WordsFault>
    ensures { Answers (spec.read_as name.now (rows_of (found_of matches.now))) result }
{
    if name == "run" {
        return read_run(alloc, matches);
    }
    if name == "compile" {
        return read_compile(alloc, matches);
    }
    if name == "check" {
        return read_check(alloc, matches);
    }
    if name == "gen" {
        return read_gen(alloc, matches);
    }
    Err(no_command(alloc))
}

/// The matches of `run`.
fn read_run<'a>(alloc: Global, matches: &ArgMatches<'a>) -> Result<Command<'a>, WordsFault>
    ensures { Answers (spec.read_run (rows_of (found_of matches.now))) result }
{
    let schema = value(alloc, matches, "SCHEMA")?;
    let folder = value(alloc, matches, "DIR")?;
    let queries = value(alloc, matches, "QUERIES")?;
    match run_words(matches, schema, folder, queries) {
        Ok(words) => Ok(Command::Run(words)),
        Err(number) => Err(WordsFault::OutOfRange(number)),
    }
}

/// What `run` is given, by the words for its places.
fn run_words<'a>(
    matches: &ArgMatches<'a>,
    schema: &'a str,
    folder: &'a str,
    queries: &'a str,
) -> Result<RunWords<'a>, Number>
    ensures { spec.run_with (rows_of (found_of matches.now)) schema.entry.now folder.entry.now queries.entry.now ≡ run_read result }
{
    let options = options_of(matches)?;
    let null = null_of(matches)?;
    let parts = parts_of(matches)?;
    Ok(RunWords {
        schema,
        folder,
        queries,
        null,
        parts,
        options,
    })
}

/// The matches of `compile`.
fn read_compile<'a>(alloc: Global, matches: &ArgMatches<'a>) -> Result<Command<'a>, WordsFault>
    ensures { Answers (spec.read_compile (rows_of (found_of matches.now))) result }
{
    match statement_words(alloc, matches) {
        Ok(words) => Ok(Command::Compile(words)),
        Err(fault) => Err(fault),
    }
}

/// The words that tell a statement, among the matches of a command that has their places.
///
/// # Errors
///
/// As of [`read`].
pub(crate) fn statement_words<'a>(
    alloc: Global,
    matches: &ArgMatches<'a>,
) -> Result<CompileWords<'a>, WordsFault>
    ensures { AnswersStatement (spec.read_compile (rows_of (found_of matches.now))) result }
{
    let schema = value(alloc, matches, "SCHEMA")?;
    let queries = value(alloc, matches, "QUERIES")?;
    let word = value(alloc, matches, "statement")?;
    match value_in_range(Number::Statement, word) {
        Some(statement) => Ok(CompileWords {
            schema,
            queries,
            statement,
        }),
        None => Err(WordsFault::OutOfRange(Number::Statement)),
    }
}

/// The matches of `check`.
fn read_check<'a>(alloc: Global, matches: &ArgMatches<'a>) -> Result<Command<'a>, WordsFault>
    ensures { Answers (spec.read_check (rows_of (found_of matches.now))) result }
{
    let file = value(alloc, matches, "MODULE")?;
    Ok(Command::Check(file))
}

/// The matches of `gen`.
fn read_gen<'a>(alloc: Global, matches: &ArgMatches<'a>) -> Result<Command<'a>, WordsFault>
    ensures { Answers (spec.read_gen (rows_of (found_of matches.now))) result }
{
    let seed = value(alloc, matches, Number::Seed.name())?;
    let rows = value(alloc, matches, Number::Rows.name())?;
    match gen_words(matches, seed, rows) {
        Ok(words) => Ok(Command::Gen(words)),
        Err(number) => Err(WordsFault::OutOfRange(number)),
    }
}

/// What `gen` is given, by the words for its seed and its rows.
fn gen_words(matches: &ArgMatches, seed: &str, rows: &str) -> Result<GenWords, Number>
    ensures { spec.gen_with (rows_of (found_of matches.now)) seed.now rows.now ≡ gen_read result }
{
    let seed = value_in_range(Number::Seed, seed).ok_or(Number::Seed)?;
    let rows = value_in_range(Number::Rows, rows).ok_or(Number::Rows)?;
    let options = options_of(matches)?;
    Ok(GenWords {
        seed,
        rows: rows as u32,
        options,
    })
}

/// The value of a place or an option of a command. `clap` takes no words that leave one without, so it is always there.
fn value<'a>(alloc: Global, matches: &ArgMatches<'a>, id: &str) -> Result<&'a str, WordsFault>
    ensures { IsValue result (first_of id.now (rows_of (found_of matches.now))) }
{
    match matches.get_str(id) {
        Some(value) => Ok(value),
        None => Err(no_command(alloc)),
    }
}

/// Why words aren't read that are those of no command.
fn no_command(alloc: Global) -> WordsFault
    ensures { IsRefusal result }
{
    match String::from_str(alloc, "error: the words are those of no command\n") {
        Ok(text) => WordsFault::Refused(text),
        Err(_) => WordsFault::NoMemory,
    }
}

/// The options of a run.
fn options_of(matches: &ArgMatches) -> Result<RunOptions, Number>
    ensures { (read : spec.RunOptions → spec.Reading) → spec.with_options (rows_of (found_of matches.now)) read ≡ options_read result read }
{
    let quantum = number_of(matches, Number::Quantum, DEFAULT_OPTIONS.quantum)?;
    let pages = number_of(matches, Number::Pages, u64::from(DEFAULT_OPTIONS.pages))?;
    let steps = number_of(matches, Number::Steps, DEFAULT_OPTIONS.steps)?;
    Ok(RunOptions {
        pages: pages as u32,
        steps,
        quantum,
        counts: is_given(matches, "stats"),
    })
}

/// The text that stands for null, if one does.
///
/// # Errors
///
/// The number of its octets where it has none, or too many.
fn null_of<'a>(matches: &ArgMatches<'a>) -> Result<Option<&'a str>, Number>
    ensures { (read : Option Text → spec.Reading) → spec.with_null (rows_of (found_of matches.now)) read ≡ null_read result read }
{
    match matches.get_str(Number::Null.name()) {
        Some(text) if is_in_range(Number::Null, text.len() as u64) => Ok(Some(text)),
        Some(_) => Err(Number::Null),
        None => Ok(None),
    }
}

/// The number of parts of the file of a table, if it is in parts.
///
/// # Errors
///
/// The number where its word isn't digits, or out of its range.
fn parts_of(matches: &ArgMatches) -> Result<Option<u64>, Number>
    ensures reads { (read : Option ℕ → spec.Reading) → spec.with_parts (rows_of (found_of matches.now)) read ≡ parts_read result read }
    ensures least { IfOk result (λ parts. (count : ℕ) → parts ≡ Some count → 1 ≤ count) }
    ensures most { IfOk result (λ parts. (count : ℕ) → parts ≡ Some count → count ≤ 999) }
{
    match matches.get_str(Number::Parts.name()) {
        Some(word) => match value_in_range(Number::Parts, word) {
            Some(count) => Ok(Some(count)),
            None => Err(Number::Parts),
        },
        None => Ok(None),
    }
}

/// The value of a number that may be left out, for another then.
///
/// # Errors
///
/// The number where its word isn't digits, or out of its range.
fn number_of(matches: &ArgMatches, number: Number, otherwise: u64) -> Result<u64, Number>
    requires least { spec.least_of number ≤ otherwise }
    requires most { otherwise ≤ spec.most_of number }
    ensures reads { (read : ℕ → spec.Reading) → spec.with_option (rows_of (found_of matches.now)) number otherwise read ≡ number_read result read }
    ensures least { IfOk result (λ value. spec.least_of number ≤ value) }
    ensures most { IfOk result (λ value. value ≤ spec.most_of number) }
{
    match matches.get_str(number.name()) {
        Some(word) => value_in_range(number, word).ok_or(number),
        None => Ok(otherwise),
    }
}

/// Whether an option without a value was given, which `clap` says by the text of a `bool`.
fn is_given(matches: &ArgMatches, id: &str) -> bool
    ensures { result ≡ spec.is_given (rows_of (found_of matches.now)) id.now }
{
    match matches.get_str(id) {
        Some(text) => text == "true",
        None => false,
    }
}

/// The value of a number by its word, which has to be one or more digits.
fn value_in_range(number: Number, word: &str) -> Option<u64>
    ensures { result ≡ spec.value_in_range number word.now }
{
    if !are_digits(word.as_bytes()) {
        return None;
    }
    let Ok(value) = word.parse::<u64>() else {
        return None;
    };
    if is_in_range(number, value) {
        Some(value)
    } else {
        None
    }
}

/// Whether a number is in its range.
fn is_in_range(number: Number, value: u64) -> bool
    ensures { result ≡ spec.is_in_range number value }
{
    number.least() <= value && value <= number.most()
}
