ghost use Rattle.std.specs.Prelude.{◌≡◌};

use crate::fault::{FaultCount, IoFault};
use crate::sink::Sink;
use crate::stream::Stream;

/// A stream of the system, as standard output or standard error. As a sink it tells nothing of what it took, but each answer is that
/// of one write to the stream. A write that takes no octet is a fault, as is every error of the stream.
#[derive(Drop)]
pub struct StdSink<W> {
    /// The stream.
    pub stream: W,
    faults: FaultCount,
}

impl<W: Stream> StdSink<W> {
    /// A sink that writes to the stream, with no fault counted yet.
    pub fn new(stream: W) -> Self
        ensures stream { result.stream ≡ stream }
        ensures no_faults { ⟦<StdSink<W> as Sink>⟧.faults result ≡ 0 }
    {
        StdSink {
            stream,
            faults: FaultCount::ZERO,
        }
    }
}

impl<W: Stream> Sink for StdSink<W> {
    ghost use Rattle.std.specs.Prelude.{◌≡◌, ◌≤◌, ◌<◌, None, false, length, IfErr, IfOk, OnOk, OnErr, IsErrOf};
    ghost use Rattle.qw_io.specs.Calls.{TakesNone};
    ghost use Rattle.qw_io.specs.Faults.{IsCounted};

    ghost taken = { λ _. None };

    ghost faults = { λ s. s.faults.count };

    ghost takes_memory = { false };

    fn put(&mut self, piece: &[u8]) -> Result<usize, IoFault>
        ensures never_falls { self.old.faults.count ≤ self.new.faults.count }
        ensures failed_is_counted { IsErrOf result IoFault.Failed → IsCounted self.old.faults.count self.new.faults.count }
        ensures only_failed { IfErr result (λ fault. fault ≡ IoFault.Failed) }
        ensures ok_is_not { OnOk result (self.new.faults ≡ self.old.faults) }

        ensures within { IfOk result (λ n. n ≤ length piece.now) }
        ensures some { IfOk result (λ n. 0 < length piece.now → 1 ≤ n) }
        ensures takes { IfOk result (λ n. 0 < length piece.now → W.writes self.old.stream piece.now (Ok n) self.new.stream) }
        ensures nothing { length piece.now ≡ 0 → (result ≡ Ok 0) × (self.new.stream ≡ self.old.stream) }
        ensures takes_none { OnErr result (TakesNone W.writes self.old.stream piece.now self.new.stream) }
    {
        if piece.is_empty() {
            return Ok(0);
        }
        match self.stream.write_piece(piece) {
            Ok(0) | Err(_) => Err(self.faults.failed()),
            Ok(count) => Ok(count),
        }
    }
}
