ghost use Rattle.std.specs.Prelude.{◌≤◌, ℕ, List, Result, IfOk, length};
ghost use Rattle.std.specs.declared.io.Error.{Error};

use std::io;
use std::io::Write;

/// The call of a stream that a sink makes. What it may answer is a relation that each stream has of its own, so code that is proved
/// of all of them answers only what the call answered.
pub trait Stream {
    /// Writing these octets may answer so, and leave the stream so.
    ghost writes: { Self → List ℕ → Result ℕ Error → Self → Type 0 };

    /// Writes octets from the front of `piece`, and answers how many.
    fn write_piece(&mut self, piece: &[u8]) -> io::Result<usize>
        ensures within { IfOk result (λ n. n ≤ length piece.now) }
        ensures written { writes self.old piece.now result self.new };
}

impl<W: Write> Stream for W {
    ghost use Rattle.std.specs.Io.KnownBytes.{WriteAppends};

    ghost writes = { λ before piece answer after. WriteAppends (W.Write.contents before) (W.Write.contents after) answer piece };

    fn write_piece(&mut self, piece: &[u8]) -> io::Result<usize> {
        self.write(piece)
    }
}
