ghost use Rattle.std.specs.Prelude.{◌≡◌, ◌↔◌, ◌≤◌, Contains, IfErr, IsErr, OnErr, OnOk};
ghost use Rattle.std.specs.IoError.{error_kind};
ghost use Rattle.qw_io.specs.Faults.{IsCounted};

use std::io;
use std::io::ErrorKind;
use thiserror::Error;

/// Why a shelf or a sink did not do what it was asked.
#[derive(Clone, Copy, Debug, PartialEq, Eq, Error)]
pub enum IoFault {
    /// The outside failed. The count of faults says so too.
    #[error("the device failed")]
    Failed,
    /// There is no memory left for the call.
    #[error("want of memory")]
    NoMemory,
}

/// A count of faults, which stays at its last value once it is there.
#[derive(Clone, Copy, Debug)]
pub struct FaultCount {
    /// How many faults were counted, at most 2^64 - 1.
    pub count: u64,
}

impl FaultCount {
    /// No fault yet.
    pub const ZERO: FaultCount = FaultCount { count: 0 };

    /// Counts one fault, and answers it.
    pub fn failed(&mut self) -> IoFault
        ensures counted { IsCounted self.old.count self.new.count }
        ensures never_falls { self.old.count ≤ self.new.count }
        ensures failed { result ≡ IoFault.Failed }
    {
        self.count = self.count.saturating_add(1);
        IoFault::Failed
    }

    /// The fault that an error of the system is. Want of memory is not counted.
    pub fn fault_of(&mut self, error: &io::Error) -> IoFault
        ensures never_falls { self.old.count ≤ self.new.count }
        ensures failed { result ≡ IoFault.Failed → IsCounted self.old.count self.new.count }
        ensures no_memory { result ≡ IoFault.NoMemory → self.new.count ≡ self.old.count }
        ensures memory { result ≡ IoFault.NoMemory ↔ error_kind error.now ≡ ErrorKind.OutOfMemory }
    {
        if error.kind() == ErrorKind::OutOfMemory {
            return IoFault::NoMemory;
        }
        self.failed()
    }
}

/// The calls that are to fail, by number from 0, and what was counted so far.
#[derive(Debug, Drop)]
pub struct FaultPlan {
    failing: Vec<u64>,
    next_call: u64,
    /// What was counted so far.
    pub faults: FaultCount,
}

impl FaultPlan {
    /// The numbers of the calls that are to fail, in any order. No call was made yet.
    pub fn new(failing: Vec<u64>) -> Self
        ensures { result.faults.count ≡ 0 }
    {
        FaultPlan {
            failing,
            next_call: 0,
            faults: FaultCount::ZERO,
        }
    }

    /// Begins the next call.
    ///
    /// # Errors
    ///
    /// [`IoFault::Failed`], exactly where the call is listed.
    pub fn begin_call(&mut self) -> Result<(), IoFault>
        ensures ok { OnOk result (self.new.faults.count ≡ self.old.faults.count) }
        ensures only_failed { IfErr result (λ fault. fault ≡ IoFault.Failed) }
        ensures counted { OnErr result (IsCounted self.old.faults.count self.new.faults.count) }
        ensures never_falls { self.old.faults.count ≤ self.new.faults.count }
        ensures listed { IsErr result ↔ Contains self.old.failing.items self.old.next_call }
    {
        let call = self.next_call;
        self.next_call = call.saturating_add(1);
        if self.failing.contains(&call) {
            return Err(self.faults.failed());
        }
        Ok(())
    }
}
