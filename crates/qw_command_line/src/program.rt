//! The commands that the program has, and the program `qwasm-layout`, as `clap` takes them.

ghost use Rattle.std.specs.Prelude.{IfOk};
ghost use Rattle.clap.specs.Words.{App, with_rule};
ghost use Rattle.qw_command_line.specs.Inner.Programs.{IsApp};
ghost use Rattle.qw_command_line.specs.LayoutWords as layout_spec;
ghost use Rattle.qw_command_line.specs.Words as spec;

use crate::command::Number;
use clap::{Arg, ArgAction, Command};
use std::alloc::{AllocError, Global};

// How each command ends, and what the lines mean that users meet first. The documents have all of it.

const RUN_ENDS: &str = "Status:
  0  rows of every query          6  a file could not be read
  1  an SQL exception of a query  7  an output could not be written
  2  words that are refused       8  PAGES: a query's page limit
  3  the schema is refused        9  want of memory
  4  a table's file is refused   10  STEPS: a query's instruction limit
  5  the queries are refused     11  total pages: more than a memory has

Lines on standard error:
  not grammar in statement K  the K-th statement is none of the profile
  not a token at N            no token begins at octet N of the file, counted from 0
  T: bad header               the first line of T's file has to name the schema's columns, in their order

docs/DIALECTS.md says what to write for LIMIT, !=, \"text\" and other things from elsewhere, docs/FORMATS.md what each line means.";

const STATEMENT_ENDS: &str = "Status:
  0  it is written                6  a file could not be read
  2  words that are refused       7  an output could not be written
  3  the schema is refused        9  want of memory
  5  the queries are refused, or there is no statement K

Lines on standard error:
  not grammar in statement K  the K-th statement is none of the profile
  not a token at N            no token begins at octet N of the file, counted from 0

docs/DIALECTS.md says what to write for things from elsewhere, docs/FORMATS.md what each line means.";

const CHECK_ENDS: &str = "Status:
  0  the file is a valid module   6  the file could not be read
  2  words that are refused       7  an output could not be written
  5  it is none                   9  want of memory

docs/FORMATS.md says what the line of a refusal means.";

const GENERATED_ENDS: &str = "Status:
  0  rows of every query          8  PAGES: a query's page limit
  1  an SQL exception of a query  9  want of memory
  2  words that are refused      10  STEPS: a query's instruction limit
  7  an output could not be written
 11  total pages: more than a memory has

docs/FORMATS.md says how the tables are generated.";

/// The program: its words come without its own name, and one of its commands has to be given.
///
/// # Errors
///
/// Want of memory.
pub(crate) fn program<'a>(alloc: Global) -> Result<Command<'a>, AllocError>
    ensures { IfOk result (λ program. IsApp program spec.program) }
{
    let program = Command::new(alloc, "qwasm")
        .about("Compiles SQL queries to WebAssembly and runs them over CSV tables")
        .no_binary_name(true)
        .subcommand_required(true)
        .bin_name("qwasm")?;
    let program = program.subcommand(run(alloc)?)?;
    let program = program.subcommand(compile(alloc)?)?;
    let program = program.subcommand(check(alloc)?)?;
    program.subcommand(generate(alloc)?)
}

/// `run SCHEMA DIR QUERIES [--quantum N] [--pages N] [--steps N] [--stats] [--null TEXT] [--parts N]`.
fn run<'a>(alloc: Global) -> Result<Command<'a>, AllocError>
    ensures { IfOk result (λ run. IsApp run spec.run_app) }
{
    let run = with_run_options(alloc, bare_run(alloc)?)?;
    with_file_options(alloc, run)
}

/// `run SCHEMA DIR QUERIES`.
fn bare_run<'a>(alloc: Global) -> Result<Command<'a>, AllocError>
    ensures { IfOk result (λ run. IsApp run spec.bare_run_app) }
{
    let run = Command::new(alloc, "run")
        .about("Runs the queries of a script over table files, and reports their rows")
        .after_help(RUN_ENDS);
    let run = with_place(alloc, run, "SCHEMA", "The file of CREATE TABLE statements")?;
    let run = with_place(
        alloc,
        run,
        "DIR",
        "The folder of the table files: t.csv for each table T of the schema",
    )?;
    with_place(
        alloc,
        run,
        "QUERIES",
        "The file of the script, 1 to 64 queries",
    )
}

/// `compile SCHEMA QUERIES --statement K`.
fn compile<'a>(alloc: Global) -> Result<Command<'a>, AllocError>
    ensures { IfOk result (λ compile. IsApp compile spec.compile_app) }
{
    let compile = Command::new(alloc, "compile")
        .about("Writes the WebAssembly module of a query to standard output")
        .after_help(STATEMENT_ENDS);
    with_statement(alloc, compile)
}

/// The program `qwasm-layout SCHEMA QUERIES --statement K`: its words come without its own name.
///
/// # Errors
///
/// Want of memory.
pub(crate) fn layout_program<'a>(alloc: Global) -> Result<Command<'a>, AllocError>
    ensures { IfOk result (λ program. IsApp program layout_spec.layout_program) }
{
    let program = Command::new(alloc, "qwasm-layout")
        .about("Tells in JSON what a host has to know of the WebAssembly module of a query")
        .after_help(STATEMENT_ENDS)
        .no_binary_name(true)
        .bin_name("qwasm-layout")?;
    with_statement(alloc, program)
}

/// `check MODULE`.
fn check<'a>(alloc: Global) -> Result<Command<'a>, AllocError>
    ensures { IfOk result (λ check. IsApp check spec.check_app) }
{
    let check = Command::new(alloc, "check")
        .about("Says whether a file is a valid module of WebAssembly 1.0, or why it is none")
        .after_help(CHECK_ENDS);
    with_place(
        alloc,
        check,
        "MODULE",
        "The file of the module, in the binary format",
    )
}

/// `gen SEED ROWS [--quantum N] [--pages N] [--steps N] [--stats]`.
fn generate<'a>(alloc: Global) -> Result<Command<'a>, AllocError>
    ensures { IfOk result (λ generate. IsApp generate spec.gen_app) }
{
    with_run_options(alloc, bare_generate(alloc)?)
}

/// `gen SEED ROWS`.
fn bare_generate<'a>(alloc: Global) -> Result<Command<'a>, AllocError>
    ensures { IfOk result (λ generate. IsApp generate spec.bare_gen_app) }
{
    let generate = Command::new(alloc, "gen")
        .about("Runs three queries over generated tables, and reports their rows")
        .after_help(GENERATED_ENDS);
    let generate = with_place(
        alloc,
        generate,
        Number::Seed.name(),
        "The number that rows are drawn by, 0 to 18446744073709551615",
    )?;
    with_place(
        alloc,
        generate,
        Number::Rows.name(),
        "How many rows of SALE are generated, 0 to 100000",
    )
}

/// The command with the options of runs.
fn with_run_options<'a>(alloc: Global, command: Command<'a>) -> Result<Command<'a>, AllocError>
    ensures { IfOk result (λ more. (app : App) → IsApp command.entry app → IsApp more (spec.with_run_options app)) }
{
    let command = with_option(
        alloc,
        command,
        Number::Quantum.name(),
        "N",
        "Instructions of a query in one turn, 1 to 1000000000 [default: 10000]",
    )?;
    let command = with_option(
        alloc,
        command,
        Number::Pages.name(),
        "N",
        "Pages of 65536 octets that a query may hold, 1 to 65535 [default: 128]",
    )?;
    let command = with_option(
        alloc,
        command,
        Number::Steps.name(),
        "N",
        "Instructions that a query may run [default: 999999999999999999]",
    )?;
    with_stats(alloc, command)
}

/// The command with the options of table files.
fn with_file_options<'a>(alloc: Global, command: Command<'a>) -> Result<Command<'a>, AllocError>
    ensures { IfOk result (λ more. (app : App) → IsApp command.entry app → IsApp more (spec.with_file_options app)) }
{
    let command = with_option(
        alloc,
        command,
        Number::Null.name(),
        "TEXT",
        "The field that stands for null, 1 to 100 octets [default: the empty field]",
    )?;
    with_option(
        alloc,
        command,
        Number::Parts.name(),
        "N",
        "Parts of each table's file, 1 to 999: t.1.csv to t.N.csv for table T",
    )
}

/// The command with the words that tell a statement: `SCHEMA QUERIES --statement K`.
fn with_statement<'a>(alloc: Global, command: Command<'a>) -> Result<Command<'a>, AllocError>
    ensures { IfOk result (λ more. (app : App) → IsApp command.entry app → IsApp more (spec.with_statement app)) }
{
    let command = with_place(
        alloc,
        command,
        "SCHEMA",
        "The file of CREATE TABLE statements",
    )?;
    let command = with_place(
        alloc,
        command,
        "QUERIES",
        "The file of the script, 1 to 64 queries",
    )?;
    let statement = Arg::new(alloc, "statement")
        .long("statement")
        .value_name("K")
        .required(true)
        .help("The number of the query in the script, from 1");
    command.arg(statement)
}

/// The command with one more place, which has to be filled, and a line of help on it.
fn with_place<'a>(
    alloc: Global,
    command: Command<'a>,
    name: &'a str,
    help: &'a str,
) -> Result<Command<'a>, AllocError>
    ensures { IfOk result (λ more. (app : App) → IsApp command.entry app → IsApp more (with_rule app (spec.place name.entry.now))) }
{
    command.arg(Arg::new(alloc, name).required(true).help(help))
}

/// The command with one more option, `--NAME VALUE`, which may be left out, and a line of help on it.
fn with_option<'a>(
    alloc: Global,
    command: Command<'a>,
    name: &'a str,
    value: &'a str,
    help: &'a str,
) -> Result<Command<'a>, AllocError>
    ensures { IfOk result (λ more. (app : App) → IsApp command.entry app → IsApp more (with_rule app (spec.option name.entry.now))) }
{
    let option = Arg::new(alloc, name)
        .long(name)
        .value_name(value)
        .help(help);
    command.arg(option)
}

/// The command with the option `--stats`, which has no value.
fn with_stats<'a>(alloc: Global, command: Command<'a>) -> Result<Command<'a>, AllocError>
    ensures { IfOk result (λ more. (app : App) → IsApp command.entry app → IsApp more (with_rule app spec.stats_option)) }
{
    let stats = Arg::new(alloc, "stats")
        .long("stats")
        .action(ArgAction::SetTrue)
        .help("Reports the instructions that each query ran and the pages that it holds");
    command.arg(stats)
}
