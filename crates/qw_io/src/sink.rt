ghost use Rattle.std.specs.Prelude.{◌≡◌, ℕ, ◌≤◌, ◌<◌, Bool, true, List, Option, ◌++◌, length, take, IfOk, OnOk, OnErr, IsErrOf, IsTrue};
ghost use Rattle.std.specs.Option.{option_map};
ghost use Rattle.qw_io.specs.Faults.{IsCounted};

use crate::fault::IoFault;

/// What takes bytes, a piece at a time.
pub trait Sink {
    /// The bytes taken so far, where they are told.
    ghost taken: { Self → Option (List ℕ) };

    /// How many faults were counted. The count never falls, and stays at 2^64 - 1.
    ghost faults: { Self → ℕ };

    /// Whether a call may take memory. Only then may it answer want of memory.
    ghost takes_memory: { Bool } = { true };

    /// Takes octets from the front of `piece`, and answers how many: of an empty piece none, of any
    /// other at least one.
    ///
    /// # Errors
    ///
    /// [`IoFault::Failed`] where the outside takes nothing, and [`IoFault::NoMemory`] where the call finds no
    /// memory. In both cases no octet was taken, and a later call may succeed.
    fn put(&mut self, piece: &[u8]) -> Result<usize, IoFault>
        ensures never_falls { faults self.old ≤ faults self.new }
        ensures failed_is_counted { IsErrOf result IoFault.Failed →
            IsCounted (faults self.old) (faults self.new) }
        ensures no_memory_is_not { IsErrOf result IoFault.NoMemory → faults self.new ≡ faults self.old }
        ensures memory_is_taken { IsErrOf result IoFault.NoMemory → IsTrue takes_memory }
        ensures ok_is_not { OnOk result (faults self.new ≡ faults self.old) }

        ensures within { IfOk result (λ n. n ≤ length piece.now) }
        ensures some { IfOk result (λ n. 0 < length piece.now → 1 ≤ n) }
        ensures appended { IfOk result (λ n.
            taken self.new ≡ option_map (λ bytes. bytes ++ take n piece.now) (taken self.old)) }
        ensures fault_takes_none { OnErr result (taken self.new ≡ taken self.old) };
}
