ghost use Rattle.std.specs.Prelude.{◌≡◌, ◌≤◌, Some};

use crate::fault::{FaultPlan, IoFault};
use crate::piece::{NamedFile, bytes_named, copy_piece};
use crate::shelf::Shelf;

/// Files in memory, read in pieces of at most a chosen length. A name that no file has is a fault, and
/// so is each call whose number was listed. Both are counted.
#[derive(Debug, Drop)]
pub struct MemoryShelf {
    files: Vec<NamedFile>,
    greatest: usize,
    plan: FaultPlan,
    ghost some: { 1 ≤ greatest },
}

impl MemoryShelf {
    ghost use Rattle.qw_io.specs.Memory.{bytes_of};

    /// `greatest` is the most octets that one call reads. `failing` are the numbers of the calls that
    /// are to fail, from 0. Where two files have one name, the first counts.
    pub fn new(files: Vec<NamedFile>, greatest: usize, failing: Vec<u64>) -> Self
        requires { 1 ≤ greatest }
        ensures files { ⟦<MemoryShelf as Shelf>⟧.files result ≡ Some (bytes_of files.items) }
        ensures no_faults { ⟦<MemoryShelf as Shelf>⟧.faults result ≡ 0 }
    {
        MemoryShelf {
            files,
            greatest,
            plan: FaultPlan::new(failing),
        }
    }
}

impl Shelf for MemoryShelf {
    ghost use Rattle.std.specs.Prelude.{Some, false};
    ghost use Rattle.qw_io.specs.Memory.{bytes_of};

    ghost files = { λ s. Some (bytes_of s.files.items) };

    ghost faults = { λ s. s.plan.faults.count };

    ghost takes_memory = { false };

    fn fetch(&mut self, name: &str, at: u64, into: &mut [u8]) -> Result<usize, IoFault> {
        self.plan.begin_call()?;
        let Some(bytes) = bytes_named(self.files.as_slice(), name) else {
            return Err(self.plan.faults.failed());
        };
        Ok(copy_piece(bytes, at, self.greatest, into))
    }
}
