ghost use Rattle.std.specs.Prelude.{◌≡◌, ◌↔◌, ◌⊎◌, ℕ, ◌+◌, ◌≤◌, Bool, true, List, Option, length, take, drop, IfOk, IfSome, None, OnOk, IsErrOf, IsTrue, ⊤};
ghost use Rattle.qw_io.specs.Faults.{IsCounted};
ghost use Rattle.std.specs.Option.{option_map};
ghost use Rattle.qw_io.specs.Files.{OfFile, Watched, watched_after};

use crate::fault::IoFault;

/// Files that are read by name, a piece at a time.
pub trait Shelf {
    /// The bytes of each file by its name, where they are told. No call changes them.
    ghost files: { Self → Option (List ℕ → Option (List ℕ)) };

    /// How many faults were counted. The count never falls, and stays at 2^64 - 1.
    ghost faults: { Self → ℕ };

    /// The name of the file that the last counted fault was at, where it is told.
    ghost fault_name: { Self → Option (List ℕ) } = { λ _. None };

    /// One file's name, and how far calls asked for the file, where that is told.
    ghost watched: { Self → Option Watched } = { λ _. None };

    /// Whether a call may take memory. Only then may it answer want of memory.
    ghost takes_memory: { Bool } = { true };

    /// Reads octets of the file `name` from offset `at` into the front of `into`, and answers how many.
    /// Of what stands behind them in `into` nothing is said, nor of `into` after an `Err`.
    /// `Ok(0)` at an `into` that isn't empty is the end of the file.
    ///
    /// # Errors
    ///
    /// [`IoFault::Failed`] where the file can't be found or read, and [`IoFault::NoMemory`] where the call
    /// finds no memory. A later call may succeed.
    fn fetch(&mut self, name: &str, at: u64, into: &mut [u8]) -> Result<usize, IoFault>
        ensures never_falls { faults self.old ≤ faults self.new }
        ensures failed_is_counted { IsErrOf result IoFault.Failed →
            IsCounted (faults self.old) (faults self.new) }
        ensures no_memory_is_not { IsErrOf result IoFault.NoMemory → faults self.new ≡ faults self.old }
        ensures memory_is_taken { IsErrOf result IoFault.NoMemory → IsTrue takes_memory }
        ensures ok_is_not { OnOk result (faults self.new ≡ faults self.old) }

        ensures failed_name { IsErrOf result IoFault.Failed → IfSome (fault_name self.new) (λ of. of ≡ name.now) }
        ensures no_memory_keeps { IsErrOf result IoFault.NoMemory → fault_name self.new ≡ fault_name self.old }
        ensures ok_keeps { OnOk result (fault_name self.new ≡ fault_name self.old) }

        ensures watched { watched self.new ≡ option_map (watched_after name.now (at + length into.old)) (watched self.old) }

        ensures same_files { files self.new ≡ files self.old }
        ensures within { IfOk result (λ n. n ≤ length into.old) }

        // What is read, where the files are told.
        ensures there { OnOk result (OfFile (files self.old) name.now (λ _. ⊤)) }
        ensures end { IfOk result (λ n. OfFile (files self.old) name.now (λ bytes.
            (n ≡ 0) ↔ ((length into.old ≡ 0) ⊎ (length bytes ≤ at)))) }
        ensures octets { IfOk result (λ n. OfFile (files self.old) name.now (λ bytes.
            take n into.new ≡ take n (drop at bytes))) };
}
