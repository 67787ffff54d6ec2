ghost use Rattle.std.specs.Prelude.{◌≡◌, ◌≢◌, ◌↔◌, ◌≤◌, OnOk, IfErr, IfOk, IsErrOf, Some};
ghost use Rattle.std.specs.IoError.{error_kind};
ghost use Rattle.std.specs.Option.{ForSome, option_map};
ghost use Rattle.std.specs.String.{string_bytes};
ghost use Rattle.std.specs.declared.io.Error.{Error};
ghost use Rattle.qw_io.specs.Calls.{Stands};
ghost use Rattle.qw_io.specs.Faults.{IsCounted};

use crate::fault::{FaultCount, IoFault};
use crate::file_system::FileSystem;
use crate::opened_file::OpenedFile;
use crate::shelf::Shelf;
use std::alloc::Global;
use std::io;
use std::io::ErrorKind;

/// The files of a system, by their paths. Nothing is told of what they hold, but each answer is that of a call of the system.
///
/// The file that was read last stays open, so one opening serves the reading of a whole file from its front
/// on: all its octets are of the file that had the name when the reading began, whatever has the name later.
/// There is no seek in such a reading, so a pipe can be read too. A call for another name closes the file, and
/// so does a fault; a later call for its name opens what has the name then.
#[derive(Drop)]
pub struct FileShelf<'a, S: FileSystem> {
    alloc: Global,
    system: &'a S,
    opened: Option<OpenedFile<S>>,
    faults: FaultCount,
    failed: Option<String>,
    ghost stands: { ForSome opened (λ one. Stands (S.opens system.now (string_bytes one.name)) S.seeks S.reads one.offset one.file) },
}

impl<'a, S: FileSystem> FileShelf<'a, S> {
    /// All files that the system lets the program open, with no fault counted yet.
    pub fn new(alloc: Global, system: &'a S) -> Self
        ensures { ⟦<FileShelf<'a, S> as Shelf>⟧.faults result ≡ 0 }
    {
        FileShelf {
            alloc,
            system,
            opened: None,
            faults: FaultCount::ZERO,
            failed: None,
        }
    }

    /// The file of this name: the one that is open, or one that is opened now. It is taken from the shelf.
    fn take_opened(&mut self, name: &str) -> Result<OpenedFile<S>, IoFault>
        ensures named { IfOk result (λ opened. string_bytes opened.name ≡ name.now) }
        ensures stands { IfOk result (λ opened. Stands (S.opens self.old.system.now name.now) S.seeks S.reads opened.offset opened.file) }
        ensures same_system { self.new.system ≡ self.old.system }
        ensures ok { OnOk result (self.new.faults ≡ self.old.faults) }
        ensures ok_keeps { OnOk result (self.new.failed ≡ self.old.failed) }
        ensures never_falls { self.old.faults.count ≤ self.new.faults.count }
        ensures failed { IsErrOf result IoFault.Failed → IsCounted self.old.faults.count self.new.faults.count }
        ensures failed_outside { IsErrOf result IoFault.Failed → (error : Error) × S.opens self.old.system.now name.now (Err error) × (error_kind error ≢ ErrorKind.OutOfMemory) }
        ensures failed_name { IsErrOf result IoFault.Failed → option_map string_bytes self.new.failed ≡ Some name.now }
        ensures no_memory { IsErrOf result IoFault.NoMemory → self.new.faults ≡ self.old.faults }
        ensures no_memory_keeps { IsErrOf result IoFault.NoMemory → self.new.failed ≡ self.old.failed }
    {
        match self.opened.take() {
            Some(opened) if opened.is_named(name) => Ok(opened),
            _ => {
                let name = String::from_str(self.alloc, name).map_err(|_| IoFault::NoMemory)?;
                match self.system.open_named(name.as_str()) {
                    Ok(file) => Ok(OpenedFile::new(name, file)),
                    Err(error) => Err(self.fault_of(name, &error)),
                }
            }
        }
    }

    /// The fault that an error at the file of this name is.
    fn fault_of(&mut self, name: String, error: &io::Error) -> IoFault
        ensures same_system { self.new.system ≡ self.old.system }
        ensures never_falls { self.old.faults.count ≤ self.new.faults.count }
        ensures failed { result ≡ IoFault.Failed → IsCounted self.old.faults.count self.new.faults.count }
        ensures failed_name { result ≡ IoFault.Failed → option_map string_bytes self.new.failed ≡ Some (string_bytes name) }
        ensures memory { result ≡ IoFault.NoMemory ↔ error_kind error.now ≡ ErrorKind.OutOfMemory }
        ensures no_memory { result ≡ IoFault.NoMemory → self.new.faults ≡ self.old.faults }
        ensures no_memory_keeps { result ≡ IoFault.NoMemory → self.new.failed ≡ self.old.failed }
    {
        let fault = self.faults.fault_of(error);
        if fault == IoFault::Failed {
            self.failed = Some(name);
        }
        fault
    }
}

impl<S: FileSystem> Shelf for FileShelf<'_, S> {
    ghost use Rattle.std.specs.Prelude.{◌≡◌, ◌↔◌, ◌⊎◌, ◌≤◌, ⊤, None, IfOk, IfSome, IsErrOf, OnOk, length, take, drop};
    ghost use Rattle.std.specs.Option.{option_map};
    ghost use Rattle.std.specs.String.{string_bytes};
    ghost use Rattle.qw_io.specs.Calls.{FailsOutside, Gives};
    ghost use Rattle.qw_io.specs.Faults.{IsCounted};
    ghost use Rattle.qw_io.specs.Files.{OfFile};

    ghost files = { λ _. None };

    ghost faults = { λ s. s.faults.count };

    ghost fault_name = { λ s. option_map string_bytes s.failed };

    fn fetch(&mut self, name: &str, at: u64, into: &mut [u8]) -> Result<usize, IoFault>
        ensures never_falls { self.old.faults.count ≤ self.new.faults.count }
        ensures failed_is_counted { IsErrOf result IoFault.Failed → IsCounted self.old.faults.count self.new.faults.count }
        ensures no_memory_is_not { IsErrOf result IoFault.NoMemory → self.new.faults.count ≡ self.old.faults.count }
        ensures ok_is_not { OnOk result (self.new.faults.count ≡ self.old.faults.count) }

        ensures failed_name { IsErrOf result IoFault.Failed → IfSome (option_map string_bytes self.new.failed) (λ of. of ≡ name.now) }
        ensures no_memory_keeps { IsErrOf result IoFault.NoMemory → option_map string_bytes self.new.failed ≡ option_map string_bytes self.old.failed }
        ensures ok_keeps { OnOk result (option_map string_bytes self.new.failed ≡ option_map string_bytes self.old.failed) }

        ensures within { IfOk result (λ n. n ≤ length into.old) }
        ensures gives { IfOk result (λ n. Gives (S.opens self.old.system.now name.now) S.seeks S.reads at n into.new) }
        ensures fails { IsErrOf result IoFault.Failed → FailsOutside (S.opens self.old.system.now name.now) S.seeks S.reads at }

        // Of files that aren't told the trait's clauses on their octets say nothing.
        ensures there { OnOk result (OfFile None name.now (λ _. ⊤)) }
        ensures end { IfOk result (λ n. OfFile None name.now (λ bytes. (n ≡ 0) ↔ ((length into.old ≡ 0) ⊎ (length bytes ≤ at)))) }
        ensures octets { IfOk result (λ n. OfFile None name.now (λ bytes. take n into.new ≡ take n (drop at bytes))) }
    {
        let mut opened = self.take_opened(name)?;
        match opened.read_at(at, into) {
            Ok(count) => {
                self.opened = Some(opened);
                Ok(count)
            }
            Err(error) => Err(self.fault_of(opened.name, &error)),
        }
    }
}
