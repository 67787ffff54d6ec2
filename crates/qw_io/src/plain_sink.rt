ghost use Rattle.std.specs.Prelude.{◌≡◌, [], Some};

use crate::fault::IoFault;
use crate::sink::Sink;
use std::alloc::Global;

/// A sink in memory that takes each piece whole. Its count of faults is always 0, so it never answers
/// [`IoFault::Failed`].
#[derive(Debug, Drop)]
pub struct PlainSink {
    taken: Vec<u8>,
}

impl PlainSink {
    /// An empty sink.
    pub fn new(alloc: Global) -> Self
        ensures { ⟦<PlainSink as Sink>⟧.taken result ≡ Some [] }
    {
        PlainSink {
            taken: Vec::new(alloc),
        }
    }

    /// The bytes taken so far.
    pub fn bytes(&self) -> &[u8]
        ensures { ⟦<PlainSink as Sink>⟧.taken self.now ≡ Some result.now }
    {
        self.taken.as_slice()
    }
}

impl Sink for PlainSink {
    ghost use Rattle.std.specs.Prelude.{Some};

    ghost taken = { λ s. Some s.taken.items };

    ghost faults = { λ _. 0 };

    fn put(&mut self, piece: &[u8]) -> Result<usize, IoFault> {
        self.taken
            .extend_from_slice(piece)
            .map_err(|_| IoFault::NoMemory)?;
        Ok(piece.len())
    }
}
