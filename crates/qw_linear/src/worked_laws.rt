//! Worked cases of the definitions, with numbers, stated as contracts. No function here computes anything.

ghost use Rattle.std.specs.Prelude.{◌≡◌, ℕ, List, [], ◌∷◌, length, slice_index, Some, None};
ghost use Rattle.qw_linear.specs.Memory.{number_at, with_number, loaded, stored, grown_by, cleared, pages_of};

/// Numbers are little endian: the octets 2, 3, 4, 5 stand for 2 + 3 * 256 + 4 * 65536 + 5 * 16777216.
#[tactic(auto, unfolding(crate::specs::Memory::number_at))]
pub fn number_of_octets()
    ensures one { number_at (1 ∷ 2 ∷ 3 ∷ 4 ∷ 5 ∷ []) 1 1 ≡ 2 }
    ensures two { number_at (1 ∷ 2 ∷ 3 ∷ 4 ∷ 5 ∷ []) 1 2 ≡ 770 }
    ensures four { number_at (1 ∷ 2 ∷ 3 ∷ 4 ∷ 5 ∷ []) 1 4 ≡ 84148994 }
    ensures eight { number_at (1 ∷ 0 ∷ 0 ∷ 0 ∷ 1 ∷ 0 ∷ 0 ∷ 0 ∷ []) 0 8 ≡ 4294967297 }
{}

/// A number is put low octet first, as far as it fits its width: of 66051, which is 3 + 2 * 256 + 1 * 65536, the third octet
/// is left out where two are written.
#[tactic(auto, unfolding(crate::specs::Memory::with_number))]
pub fn octets_of_a_number()
    ensures three { with_number (9 ∷ 9 ∷ 9 ∷ 9 ∷ 9 ∷ []) 1 3 66051 ≡ 9 ∷ 3 ∷ 2 ∷ 1 ∷ 9 ∷ [] }
    ensures two { with_number (9 ∷ 9 ∷ 9 ∷ 9 ∷ 9 ∷ []) 1 2 66051 ≡ 9 ∷ 3 ∷ 2 ∷ 9 ∷ 9 ∷ [] }
    ensures four { with_number (9 ∷ 9 ∷ 9 ∷ 9 ∷ 9 ∷ []) 1 4 4294967295 ≡ 9 ∷ 255 ∷ 255 ∷ 255 ∷ 255 ∷ [] }
{}

/// A load of two octets from the last two of a memory reads them, and one from the last reads nothing; a store too.
#[tactic(auto, unfolding(crate::specs::Memory::number_at, crate::specs::Memory::with_number))]
pub fn accesses_at_the_end()
    ensures loaded { loaded (1 ∷ 2 ∷ 3 ∷ []) 1 2 ≡ Some 770 }
    ensures not_loaded { loaded (1 ∷ 2 ∷ 3 ∷ []) 2 2 ≡ None }
    ensures stored { stored (1 ∷ 2 ∷ 3 ∷ []) 1 2 513 ≡ 1 ∷ 1 ∷ 2 ∷ [] }
    ensures not_stored { stored (1 ∷ 2 ∷ 3 ∷ []) 2 2 513 ≡ 1 ∷ 2 ∷ 3 ∷ [] }
{}

/// A memory that grew by two pages has 131,072 octets more, all 0, behind those that it had.
pub fn memory_of_two_more_pages()
    ensures length { (octets : List ℕ) → length octets ≡ 65536 → length (grown_by 2 octets) ≡ 196608 }
    ensures pages { (octets : List ℕ) → length octets ≡ 65536 → pages_of (grown_by 2 octets) ≡ 3 }
    ensures kept { (octets : List ℕ) → length octets ≡ 65536 → slice_index (grown_by 2 octets) 65535 ≡ slice_index octets 65535 }
    ensures first { (octets : List ℕ) → length octets ≡ 65536 → slice_index (grown_by 2 octets) 65536 ≡ 0 }
    ensures last { (octets : List ℕ) → length octets ≡ 65536 → slice_index (grown_by 2 octets) 196607 ≡ 0 }
{}

/// Of a memory of three pages of which the middle one was cleared, the 65,536 octets of that page are 0, and the others are as they were.
pub fn memory_of_a_cleared_page()
    ensures length { (octets : List ℕ) → length octets ≡ 196608 → length (cleared 1 1 octets) ≡ 196608 }
    ensures before { (octets : List ℕ) → length octets ≡ 196608 → slice_index (cleared 1 1 octets) 65535 ≡ slice_index octets 65535 }
    ensures first { (octets : List ℕ) → length octets ≡ 196608 → slice_index (cleared 1 1 octets) 65536 ≡ 0 }
    ensures last { (octets : List ℕ) → length octets ≡ 196608 → slice_index (cleared 1 1 octets) 131071 ≡ 0 }
    ensures behind { (octets : List ℕ) → length octets ≡ 196608 → slice_index (cleared 1 1 octets) 131072 ≡ slice_index octets 131072 }
{}
