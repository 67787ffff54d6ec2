//! A call, from the words of the command line on.

ghost use Rattle.std.specs.Prelude.{◌≡◌, ◌≢◌, ◌⊎◌, ◌↔◌, ℕ, List, map, IfSome, IsTrue, Option, Some};
ghost use Rattle.std.specs.List.{AllByRecursion};
ghost use Rattle.std.specs.String.{string_bytes};
ghost use Rattle.qw_io.specs.Faults.{IsCounted};
ghost use Rattle.qw_types.specs.Contents.{Contents};
ghost use Rattle.qw_types.specs.declared.schema.Table.{Table};
ghost use Rattle.qw_bench.specs.Bench.{rows_in_tables};
ghost use Rattle.qw_bench.specs.Standing.{Standing};
ghost use Rattle.qw_command_line.specs.declared.command.Number.{Number};
ghost use Rattle.qw_command_line.specs.Words.{RunOptions, no_command, out_of_range, reading};
ghost use Rattle.qw_top.specs.Asking.{AsksWithin};
ghost use Rattle.qw_top.specs.Call.{Asks, AsksToCheck, AsksToCompile, Explains, IsLimit, IsNamed, Leaves, LeavesFront, Notes, Settles};
ghost use Rattle.qw_top.specs.Causes.{AreOne, Cause, status_of_cause};
ghost use Rattle.qw_top.specs.Complete.{Completes};
ghost use Rattle.qw_csv.specs.declared.loading.LoadFault.{LoadFault};
ghost use Rattle.qw_top.specs.FileNames.{table_file_of};
ghost use Rattle.qw_top.specs.Limits.{limits_of, most_table_octets};
ghost use Rattle.qw_top.specs.declared.status.Status.{Status};
ghost use Rattle.qw_top.specs.Notes.{want_of_memory_line};
ghost use Rattle.qw_top.specs.Output.{with_text};
ghost use Rattle.qw_top.specs.Plain.{IsPlainFault, IsPlainTable, plain_names};
ghost use Rattle.qw_top.specs.Top.{Asked, Files, HasQueries, HaveRoom, IsEnough, IsFault, IsFaultyPart, IsLongPart, IsRefusal, IsReported, IsTooLong, Names, RaisesNothing, TableIs};

use crate::status::Status;
use perform::perform;
use qw_bench::bench::Bench;
use qw_check::laws::one_answer;
use qw_io::{Shelf, Sink};
use std::alloc::Global;

mod answer;
mod check;
mod compile;
mod header;
mod inputs;
pub mod layout;
mod perform;
pub mod program;
pub mod queries;
mod report;
mod run;
mod statement;

/// Does what the words of a command line ask for, which come without the program's own name: runs queries over files or over generated
/// input and writes their report to `out`, or writes the module of a statement, or says of a file that it is a valid module. `notes` gets
/// a line where it couldn't.
///
/// `kept` holds the bench of a run afterwards where its report was written, and where `out` counted a fault; else, at
/// `WriteFailed` and `NoMemory`, the bench or nothing; and at any other status, and of the other commands, nothing.
pub fn qwasm<F: Shelf, O: Sink, E: Sink>(
    alloc: Global,
    words: &[String],
    files: &mut F,
    out: &mut O,
    notes: &mut E,
    kept: &mut Option<Bench>,
) -> Status
    ensures explained { Explains (F.files files.old) (map string_bytes words.now) kept.new result }
    ensures exactly { (told : List ℕ → Option (List ℕ)) (cause : Cause) → F.files files.old ≡ Some told
        → Settles (Some told) (map string_bytes words.now) cause
        → (result ≡ status_of_cause cause) ⊎ IsFault result }
    ensures runs { (options : RunOptions) (schema : List Table) (tables : List Contents) (queries : List Asked)
        → Asks (F.files files.old) (map string_bytes words.now) options schema tables queries
        → HaveRoom (limits_of options) tables queries → IsReported result ⊎ IsFault result }
    ensures enough { (options : RunOptions) (schema : List Table) (tables : List Contents) (queries : List Asked) (b : Standing)
        → Asks (F.files files.old) (map string_bytes words.now) options schema tables queries
        → kept.new ≡ Some b → IsEnough (limits_of options) (rows_in_tables tables) queries b
        → (result ≢ Status.PageLimitMet) × (result ≢ Status.StepLimitMet) }
    ensures plain { (options : RunOptions) (schema : List Table) (tables : List Contents) (queries : List Asked)
        → Asks (F.files files.old) (map string_bytes words.now) options schema tables queries
        → AllByRecursion (RaisesNothing (rows_in_tables tables)) queries → result ≢ Status.Raised }
    ensures complete { Completes (F.files files.old) (map string_bytes words.now) kept.new result (O.taken out.old) (O.taken out.new) }
    ensures compiles { (told : List ℕ → Option (List ℕ)) (one : Asked) → F.files files.old ≡ Some told
        → AsksToCompile (Some told) (map string_bytes words.now) one → (result ≡ Status.Done) ⊎ IsFault result }
    ensures checks { (told : List ℕ → Option (List ℕ)) → F.files files.old ≡ Some told
        → AsksToCheck (Some told) (map string_bytes words.now) → (result ≡ Status.Done) ⊎ IsFault result }
    ensures left { Leaves (F.files files.old) (map string_bytes words.now) result kept.new (O.taken out.old) (O.taken out.new) }
    ensures kept_at_fault { O.faults out.new ≢ O.faults out.old
        → LeavesFront (F.files files.old) (map string_bytes words.now) kept.new (O.taken out.old) (O.taken out.new) }
    ensures noted { Notes (F.files files.old) (map string_bytes words.now) (F.fault_name files.new) result (E.taken notes.old) (E.taken notes.new) }
    ensures noted_whole { (IsTrue E.takes_memory → ⊥) → result ≡ Status.NoMemory
        → E.taken notes.new ≡ with_text (E.taken notes.old) want_of_memory_line }
    ensures silent_at_fault { O.faults out.new ≢ O.faults out.old → E.taken notes.new ≡ E.taken notes.old }
    ensures read_fault { result ≡ Status.ReadFailed → IsCounted (F.faults files.old) (F.faults files.new) }
    ensures no_read_fault { result ≢ Status.ReadFailed → result ≢ Status.WriteFailed → result ≢ Status.NoMemory
        → F.faults files.new ≡ F.faults files.old }
    ensures want_hides_none { (IsTrue E.takes_memory → ⊥) → result ≡ Status.NoMemory → F.faults files.new ≡ F.faults files.old }
    ensures fault_name { F.faults files.new ≢ F.faults files.old
        → IfSome (F.fault_name files.new) (λ name. IsNamed (F.files files.old) (map string_bytes words.now) name) }
    ensures same_files { F.files files.new ≡ F.files files.old }
    ensures asked { AsksWithin (IsLimit (map string_bytes words.now)) (F.watched files.old) (F.watched files.new) }
    ensures write_fault { result ≡ Status.WriteFailed
        → IsCounted (O.faults out.old) (O.faults out.new) ⊎ IsCounted (E.faults notes.old) (E.faults notes.new) }
    ensures no_write_fault { result ≢ Status.WriteFailed
        → (O.faults out.new ≡ O.faults out.old) × (E.faults notes.new ≡ E.faults notes.old) }
{
    one_answer();
    perform(alloc, words, files, out, notes, kept)
}

/// Refusals, faults and ends of runs whose queries were executed are apart, and each status is one of them.
pub fn kinds_of_ends()
    ensures refusals { IsRefusal Status.WordsRefused × IsRefusal Status.SchemaRefused × IsRefusal Status.TableFileRefused
        × IsRefusal Status.QueriesRefused × IsRefusal Status.TotalPages }
    ensures faults { IsFault Status.ReadFailed × IsFault Status.WriteFailed × IsFault Status.NoMemory }
    ensures reported { IsReported Status.Done × IsReported Status.Raised × IsReported Status.PageLimitMet × IsReported Status.StepLimitMet }
    ensures one { (status : Status) → IsRefusal status ⊎ IsFault status ⊎ IsReported status }
    ensures apart { (status : Status) → (IsRefusal status → IsFault status → ⊥) × (IsRefusal status → IsReported status → ⊥)
        × (IsFault status → IsReported status → ⊥) }
{}

/// Words and told files settle one cause at most, or faults of one statement's typing, and its status is that of a refusal. So a
/// call that promises `Explains` ends with this refusal, or with a fault of the outside or want of memory.
pub fn one_cause()
    ensures one { (told : List ℕ → Option (List ℕ)) (words : List (List ℕ)) (cause other : Cause)
        → Settles (Some told) words cause → Settles (Some told) words other → AreOne cause other }
    ensures refusal { (cause : Cause) → IsRefusal (status_of_cause cause) }
    ensures ends { (told : List ℕ → Option (List ℕ)) (words : List (List ℕ)) (cause : Cause) (kept : Option Standing) (status : Status)
        → Settles (Some told) words cause → Explains (Some told) words kept status
        → (status ≡ status_of_cause cause) ⊎ IsFault status }
{
    one_answer();
}

/// Words that are those of no command, or of which a number is out of its range, explain no other end but one that kept what
/// is noted of them from being written: no file is read.
pub fn refused_words_come_first()
    ensures { (files : Files) (words : List (List ℕ)) (kept : Option Standing) (status : Status)
        → (reading words ≡ no_command) ⊎ ((number : Number) × (reading words ≡ out_of_range number)) → Explains files words kept status
        → (status ≡ Status.WordsRefused) ⊎ (status ≡ Status.WriteFailed) ⊎ (status ≡ Status.NoMemory) }
{}

/// Where the words have neither parts of tables nor a text for null, a table stands for the rows that its one file stands for; it is too
/// long where this file is; and its first fault is that of this file.
pub fn plain_tables()
    ensures rows { (files : Files) (schema folder queries : List ℕ) (table : Table) (contents : Contents)
        → TableIs files (plain_names schema folder queries) table contents ↔ IsPlainTable files folder table contents }
    ensures too_long { (files : Files) (schema folder queries : List ℕ) (table : Table) (part : ℕ)
        → IsLongPart files (plain_names schema folder queries) table part
        ↔ ((part ≡ 1) × IsTooLong files (table_file_of folder table.name) most_table_octets) }
    ensures fault { (files : Files) (schema folder queries : List ℕ) (table : Table) (part : ℕ) (fault : LoadFault)
        → IsFaultyPart files (plain_names schema folder queries) table part fault ↔ ((part ≡ 1) × IsPlainFault files folder table fault) }
{}

/// Told files hold one schema, one list of rows of each of its tables, and one list of queries at most.
pub fn one_content()
    ensures { (told : List ℕ → Option (List ℕ)) (names : Names) (schema other_schema : List Table)
        (tables other_tables : List Contents) (queries other_queries : List Asked)
        → HasQueries (Some told) names schema tables queries
        → HasQueries (Some told) names other_schema other_tables other_queries
        → (schema ≡ other_schema) × (tables ≡ other_tables) × (queries ≡ other_queries) }
{}
