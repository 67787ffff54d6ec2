ghost use Rattle.std.specs.Prelude.{◌≡◌, Some};
ghost use Rattle.std.specs.String.{string_bytes};

use crate::fault::IoFault;
use crate::shelf::Shelf;

/// A shelf that notes of one file how far calls asked for it.
#[derive(Debug, Drop)]
pub struct WatchedShelf<S> {
    shelf: S,
    name: String,
    asked_to: u128,
}

impl<S: Shelf> WatchedShelf<S> {
    /// The same files, of which the one of this name is watched. No call asked for it yet.
    pub fn new(shelf: S, name: String) -> Self
        ensures { ⟦<WatchedShelf<S> as Shelf>⟧.watched result ≡ Some (record { name = string_bytes name; asked_to = 0 }) }
    {
        WatchedShelf {
            shelf,
            name,
            asked_to: 0,
        }
    }

    /// The offset behind the last octet of the file that any call asked for.
    pub fn asked_to(&self) -> u128
        ensures { ⟦<WatchedShelf<S> as Shelf>⟧.watched self.now ≡ Some (record { name = string_bytes self.now.name; asked_to = result }) }
    {
        self.asked_to
    }
}

impl<S: Shelf> Shelf for WatchedShelf<S> {
    ghost use Rattle.std.specs.Prelude.{Some};
    ghost use Rattle.std.specs.String.{string_bytes};

    ghost files = { λ s. S.files s.shelf };

    ghost faults = { λ s. S.faults s.shelf };

    ghost fault_name = { λ s. S.fault_name s.shelf };

    ghost watched = { λ s. Some (record { name = string_bytes s.name; asked_to = s.asked_to }) };

    ghost takes_memory = { S.takes_memory };

    fn fetch(&mut self, name: &str, at: u64, into: &mut [u8]) -> Result<usize, IoFault> {
        if self.name.as_str() == name {
            self.asked_to = self.asked_to.max(at as u128 + into.len() as u128);
        }
        self.shelf.fetch(name, at, into)
    }
}
