//! The words of the program `qwasm-layout`.

ghost use Rattle.std.specs.Prelude.{map};
ghost use Rattle.std.specs.String.{string_bytes};
ghost use Rattle.qw_command_line.specs.LayoutWords.{layout_reading};
ghost use Rattle.qw_command_line.specs.Read.{AnswersStatement};

use crate::command::{CompileWords, WordsFault};
use crate::program::layout_program;
use crate::read::{refusal, statement_words};
use std::alloc::Global;

/// Reads the words of a command line of `qwasm-layout`, without its own name: those of `compile`.
///
/// # Errors
///
/// `Refused` where `clap` doesn't take them, with its text; `OutOfRange` where it does, and the word for the number of the statement
/// isn't one or more digits with a value in its range; `NoMemory`.
pub fn read_layout<'a>(alloc: Global, words: &'a [String]) -> Result<CompileWords<'a>, WordsFault>
    ensures { AnswersStatement (layout_reading (map string_bytes words.entry.now)) result }
{
    let Ok(program) = layout_program(alloc) else {
        return Err(WordsFault::NoMemory);
    };
    match program.try_get_matches_from(words) {
        Ok(matches) => statement_words(alloc, &matches),
        Err(error) => Err(refusal(alloc, &error)),
    }
}
