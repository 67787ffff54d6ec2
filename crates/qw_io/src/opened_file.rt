ghost use Rattle.std.specs.Prelude.{◌≡◌, ◌↔◌, ◌+◌, ◌≤◌, IfOk, IsTrue, length};
ghost use Rattle.std.specs.String.{string_bytes};
ghost use Rattle.qw_io.specs.Inner.Opened.{ReadsAt};

use crate::file_system::FileSystem;
use std::io;

/// A file that was opened, with the name that it was opened by and the offset at which the last reading ended.
#[derive(Drop)]
pub struct OpenedFile<S: FileSystem> {
    /// The name that it was opened by.
    pub name: String,
    /// The file.
    pub file: S::File,
    /// The offset at which the last reading ended, in octets.
    pub offset: u128,
}

impl<S: FileSystem> OpenedFile<S> {
    /// A file that nothing was read of.
    pub fn new(name: String, file: S::File) -> Self
        ensures name { result.name ≡ name }
        ensures file { result.file ≡ file }
        ensures offset { result.offset ≡ 0 }
    {
        OpenedFile {
            name,
            file,
            offset: 0,
        }
    }

    /// Whether it was opened by this name.
    pub fn is_named(&self, name: &str) -> bool
        ensures { IsTrue result ↔ (string_bytes self.now.name ≡ name.now) }
    {
        self.name.as_str() == name
    }

    /// Reads octets from this offset on, and answers how many. It seeks only where the last reading ended
    /// elsewhere. After an error nothing is known of where the next reading would begin.
    pub fn read_at(&mut self, at: u64, into: &mut [u8]) -> io::Result<usize>
        ensures within { IfOk result (λ n. n ≤ length into.old) }
        ensures name { self.new.name ≡ self.old.name }
        ensures offset { IfOk result (λ n. self.new.offset ≡ at + n) }
        ensures read { ReadsAt S.seeks S.reads self.old.offset at self.old.file self.new.file result into.new }
    {
        if at as u128 != self.offset {
            S::seek_front(&mut self.file, at)?;
        }
        let count = S::read_piece(&mut self.file, into)?;
        self.offset = at as u128 + count as u128;
        Ok(count)
    }
}
