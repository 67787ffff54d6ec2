ghost use Rattle.std.specs.Prelude.{◌≡◌, ◌≤◌, [], Some};

use crate::fault::{FaultPlan, IoFault};
use crate::sink::Sink;
use std::alloc::Global;

/// A sink in memory that takes pieces of at most a chosen length. Each call whose number was listed
/// fails, and is counted.
#[derive(Debug, Drop)]
pub struct MemorySink {
    taken: Vec<u8>,
    greatest: usize,
    plan: FaultPlan,
    ghost some: { 1 ≤ greatest },
}

impl MemorySink {
    /// An empty sink. `greatest` is the most octets that one call takes. `failing` are the numbers of
    /// the calls that are to fail, from 0.
    pub fn new(alloc: Global, greatest: usize, failing: Vec<u64>) -> Self
        requires { 1 ≤ greatest }
        ensures taken { ⟦<MemorySink as Sink>⟧.taken result ≡ Some [] }
        ensures no_faults { ⟦<MemorySink as Sink>⟧.faults result ≡ 0 }
    {
        MemorySink {
            taken: Vec::new(alloc),
            greatest,
            plan: FaultPlan::new(failing),
        }
    }

    /// The bytes taken so far.
    pub fn bytes(&self) -> &[u8]
        ensures { ⟦<MemorySink as Sink>⟧.taken self.now ≡ Some result.now }
    {
        self.taken.as_slice()
    }
}

impl Sink for MemorySink {
    ghost use Rattle.std.specs.Prelude.{Some};

    ghost taken = { λ s. Some s.taken.items };

    ghost faults = { λ s. s.plan.faults.count };

    fn put(&mut self, piece: &[u8]) -> Result<usize, IoFault> {
        self.plan.begin_call()?;
        let count = piece.len().min(self.greatest);
        self.taken
            .extend_from_slice(&piece[..count])
            .map_err(|_| IoFault::NoMemory)?;
        Ok(count)
    }
}
