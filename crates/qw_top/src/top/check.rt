//! `check`: whether a file is a valid module.

ghost use Rattle.std.specs.Prelude.{◌≡◌, ◌≢◌, ◌⊎◌, IfErr, IfSome, IsTrue, OnOk};
ghost use Rattle.qw_io.specs.Faults.{IsCounted};
ghost use Rattle.qw_top.specs.Asking.{AsksWithin, IsOne};
ghost use Rattle.qw_top.specs.Call.{CheckSettles, CheckWrites, IsValidFile, LeavesText, TextExplains, TookFrontOf};
ghost use Rattle.qw_top.specs.Causes.{module_refused};
ghost use Rattle.qw_top.specs.Delivered.{CommandNotes};
ghost use Rattle.qw_top.specs.Inner.Shelves.{HasRead, told_by};
ghost use Rattle.qw_top.specs.Inner.Stop.{StopsAs, StopsFor, failed_stop};
ghost use Rattle.qw_top.specs.Limits.{most_module_octets};
ghost use Rattle.qw_top.specs.Notes.{want_of_memory_line};
ghost use Rattle.qw_top.specs.Output.{with_text};

use super::answer::answer;
use super::inputs::read_file;
use crate::causes::Cause;
use crate::files::MAX_MODULE_FILE;
use crate::notes::note_stop;
use crate::status::Status;
use crate::stop::{FileName, Stop, refused};
use qw_check::check::{CheckFault, check};
use qw_io::{Shelf, Sink};
use std::alloc::Global;

/// Checks the file of this name, and writes `valid` where it is a valid module.
pub(super) fn check_file<F: Shelf, O: Sink, E: Sink>(
    alloc: Global,
    name: &str,
    files: &mut F,
    out: &mut O,
    notes: &mut E,
) -> Status
    ensures explained { TextExplains (IsValidFile (F.files files.old) name.now) (CheckSettles (F.files files.old) name.now) result }
    ensures left { LeavesText (CheckWrites (F.files files.old) name.now) result (O.taken out.old) (O.taken out.new) }
    ensures at_fault { O.faults out.new ≢ O.faults out.old → TookFrontOf (CheckWrites (F.files files.old) name.now) (O.taken out.old) (O.taken out.new) }
    ensures noted { CommandNotes (CheckSettles (F.files files.old) name.now) (λ other. other ≡ name.now) (F.fault_name files.new) result (E.taken notes.old) (E.taken notes.new) }
    ensures noted_whole { (IsTrue E.takes_memory → ⊥) → result ≡ Status.NoMemory
        → E.taken notes.new ≡ with_text (E.taken notes.old) want_of_memory_line }
    ensures silent_at_fault { O.faults out.new ≢ O.faults out.old → E.taken notes.new ≡ E.taken notes.old }
    ensures read_fault { result ≡ Status.ReadFailed → IsCounted (F.faults files.old) (F.faults files.new) }
    ensures no_read_fault { result ≢ Status.ReadFailed → result ≢ Status.WriteFailed → result ≢ Status.NoMemory
        → F.faults files.new ≡ F.faults files.old }
    ensures want_hides_none { (IsTrue E.takes_memory → ⊥) → result ≡ Status.NoMemory → F.faults files.new ≡ F.faults files.old }
    ensures fault_name { F.faults files.new ≢ F.faults files.old → IfSome (F.fault_name files.new) (λ other. other ≡ name.now) }
    ensures same_files { F.files files.new ≡ F.files files.old }
    ensures asked { AsksWithin (IsOne name.now most_module_octets) (F.watched files.old) (F.watched files.new) }
    ensures write_fault { result ≡ Status.WriteFailed
        → IsCounted (O.faults out.old) (O.faults out.new) ⊎ IsCounted (E.faults notes.old) (E.faults notes.new) }
    ensures no_write_fault { result ≢ Status.WriteFailed
        → (O.faults out.new ≡ O.faults out.old) × (E.faults notes.new ≡ E.faults notes.old) }
{
    match checked(alloc, name, files) {
        Ok(()) => answer(b"valid\n", out, notes),
        Err(stop) => note_stop(notes, &stop),
    }
}

/// Reads the file of this name and checks it.
///
/// # Errors
///
/// Why it is no valid module, its name where it couldn't be read, or want of memory.
fn checked<'a, F: Shelf>(alloc: Global, name: &'a str, files: &mut F) -> Result<(), Stop<'a>>
    ensures accepted { OnOk result (IsValidFile (F.files files.old) name.now) }
    ensures stops { IfErr result (λ stop. StopsAs (CheckSettles (F.files files.old) name.now) name.now stop) }
    ensures shelf { HasRead (failed_stop result) (told_by F.Shelf files.old) (told_by F.Shelf files.new) }
    ensures within { AsksWithin (IsOne name.now most_module_octets) (F.watched files.old) (F.watched files.new) }
{
    let name = FileName::Given(name);
    let octets = read_file(alloc, files, name, MAX_MODULE_FILE, Cause::ModuleTooLong)?;
    match check(alloc, octets.as_slice()) {
        Ok(()) => Ok(()),
        Err(fault) => Err(module_stop(alloc, &fault)),
    }
}

/// Why a command stops at octets that are no valid module.
fn module_stop<'a>(alloc: Global, fault: &CheckFault) -> Stop<'a>
    ensures memory { fault.now ≡ CheckFault.NoMemory → result ≡ Stop.NoMemory }
    ensures refused { fault.now ≢ CheckFault.NoMemory → StopsFor (module_refused fault.now) result }
{
    match fault {
        CheckFault::NoMemory => Stop::NoMemory,
        fault => refused(alloc, Cause::Module(fault)),
    }
}
