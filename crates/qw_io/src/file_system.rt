ghost use Rattle.std.specs.Prelude.{◌≤◌, ℕ, List, Result, IfOk, length, ⊤};
ghost use Rattle.std.specs.declared.io.Error.{Error};

use std::fs::File;
use std::io;
use std::io::{Read, Seek, SeekFrom};
use std::rt::Files;

/// The calls of a file system that a shelf makes. What a call may answer is a relation that each system has of its own, so code
/// that is proved of all of them answers only what a call answered.
pub trait FileSystem {
    /// An open file.
    type File: Drop;

    /// Opening the file of a name may answer so.
    ghost opens: { Self → List ℕ → Result Self.File Error → Type 0 };

    /// Seeking an offset of a file may answer so, and leave the file so.
    ghost seeks: { Self.File → ℕ → Result ℕ Error → Self.File → Type 0 };

    /// Reading may answer so, with these octets in the buffer, and leave the file so.
    ghost reads: { Self.File → Result ℕ Error → List ℕ → Self.File → Type 0 };

    /// Opens the file of this name for reading, at its front.
    fn open_named(&self, name: &str) -> io::Result<Self::File>
        ensures { opens self.now name.now result };

    /// Seeks this offset from the front of a file, in octets.
    fn seek_front(file: &mut Self::File, at: u64) -> io::Result<u64>
        ensures { seeks file.old at result file.new };

    /// Reads octets into the front of `into`, and answers how many.
    fn read_piece(file: &mut Self::File, into: &mut [u8]) -> io::Result<usize>
        ensures within { IfOk result (λ n. n ≤ length into.old) }
        ensures read { reads file.old result into.new file.new };
}

impl<R: Files> FileSystem for R {
    ghost use Rattle.std.specs.Io.KnownBytes.{ReadConsumes};

    type File = <R as Files>::File;

    ghost opens = { λ _ _ _. ⊤ };

    ghost seeks = { λ _ _ _ _. ⊤ };

    ghost reads = { λ before answer octets after. ReadConsumes (⟦<<R as Files>::File as Read>⟧.remaining before) (⟦<<R as Files>::File as Read>⟧.remaining after) answer octets };

    fn open_named(&self, name: &str) -> io::Result<<R as Files>::File> {
        File::open(self, name)
    }

    fn seek_front(file: &mut <R as Files>::File, at: u64) -> io::Result<u64> {
        file.seek(SeekFrom::Start(at))
    }

    fn read_piece(file: &mut <R as Files>::File, into: &mut [u8]) -> io::Result<usize> {
        file.read(into)
    }
}
