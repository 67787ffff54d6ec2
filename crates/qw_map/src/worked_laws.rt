//! Worked cases of the definitions, with numbers, stated as contracts: what an instance may do with the areas that it has, and
//! what requests for pages leave. No function here computes anything.
//!
//! - [`columns`]: where columns of tables stand, and the values that are read there.
//! - [`rows`]: descriptors and result rows.

pub mod columns;
pub mod rows;

ghost use Rattle.std.specs.Prelude.{◌≡◌, ℕ, List, [], ◌∷◌, length, Bool, Some, None, true, false};
ghost use Rattle.qw_module.specs.declared.trap.Trap.{Trap};
ghost use Rattle.qw_module.specs.Execution.{Config, Running, Returned, Event, Silent, Loads, Stores, Grows, Raises, Traps};
ghost use Rattle.qw_map.specs.Areas.{Area, World, IsFine, IsAnswered, AsksWithin, AsksOn, grants, lies_in_one, are_covered, world_after};
ghost use Rattle.qw_linear.specs.Memory.{pages_of};
ghost use Rattle.qw_map.specs.Free.{place_among, marked, given_back};
ghost use Rattle.qw_map.specs.Worked.{at_start, two_pages};

/// Of a column of three rows, from octet 64 on, an instance whose first page begins at 65,536 may load each value, and nothing
/// beside them; and it may load from its page, and nothing behind it.
pub fn loads_of_three_rows()
    ensures values { IsFine at_start (Loads 64 4) × IsFine at_start (Loads 68 4) × IsFine at_start (Loads 72 4) }
    ensures two { IsFine at_start (Loads 68 8) }
    ensures first { IsFine at_start (Loads 0 4) → ⊥ }
    ensures before { IsFine at_start (Loads 63 4) → ⊥ }
    ensures over { IsFine at_start (Loads 73 4) → ⊥ }
    ensures behind { IsFine at_start (Loads 76 4) → ⊥ }
    ensures page { IsFine at_start (Loads 65536 4) × IsFine at_start (Loads 131064 8) }
    ensures past_page { IsFine at_start (Loads 131065 8) → ⊥ }
{}

/// It may store in its page alone: neither in the column, nor behind the page.
pub fn stores_of_three_rows()
    ensures page { IsFine at_start (Stores 65536 4) × IsFine at_start (Stores 131064 8) }
    ensures column { IsFine at_start (Stores 64 4) → ⊥ }
    ensures before { IsFine at_start (Stores 65535 4) → ⊥ }
    ensures past_page { IsFine at_start (Stores 131065 8) → ⊥ }
{}

/// Each octet of an access is to lie in one of the areas, and they may lie in several: an access from one page into the next is
/// fine where both are an instance's own. One octet outside isn't.
pub fn accesses_over_two_pages()
    ensures stores { IsFine two_pages (Stores 131070 4) × IsFine two_pages (Stores 131065 8) × IsFine two_pages (Stores 196600 8) }
    ensures loads { IsFine two_pages (Loads 131070 4) × IsFine two_pages (Loads 68 8) }
    ensures before { IsFine two_pages (Stores 65535 8) → ⊥ }
    ensures behind { IsFine two_pages (Stores 196601 8) → ⊥ }
    ensures mapped { IsFine two_pages (Stores 68 8) → ⊥ }
    ensures octets { (lies_in_one two_pages.own 131071 ≡ true) × (lies_in_one two_pages.own 131072 ≡ true)
        × (lies_in_one two_pages.own 196607 ≡ true) × (lies_in_one two_pages.own 196608 ≡ false) × (lies_in_one two_pages.own 65535 ≡ false) }
    ensures nothing { are_covered two_pages.own 0 0 ≡ true }
{}

/// It may raise 1 and 2, and 3 only after a request that was refused; it never traps.
pub fn raises()
    ensures exceptions { IsFine at_start (Raises 1) × IsFine at_start (Raises 2) }
    ensures unrefused { IsFine at_start (Raises 3) → ⊥ }
    ensures refused { (w : World) → w.refused ≡ Some 1 → IsFine w (Raises 3) }
    ensures others { (w : World) → (IsFine w (Raises 0) → ⊥) × (IsFine w (Raises 4) → ⊥) }
    ensures traps { (w : World) (why : Trap) → IsFine w (Traps why) → ⊥ }
{}

/// Of 128 pages with 127 held, one page is granted, and two are refused; none is granted at the limit too.
pub fn requests_at_the_limit()
    ensures granted { (w : World) → w.held ≡ 127 → w.limit ≡ 128 → grants w 1 ≡ true }
    ensures refused { (w : World) → w.held ≡ 127 → w.limit ≡ 128 → grants w 2 ≡ false }
    ensures full { (w : World) → w.held ≡ 128 → w.limit ≡ 128 → (grants w 1 ≡ false) × (grants w 0 ≡ true) }
    ensures answered { (w : World) → w.held ≡ 127 → w.limit ≡ 128 → IsAnswered w (Grows 1 true) × IsAnswered w (Grows 2 false) }
    ensures not_answered { (w : World) → w.held ≡ 127 → w.limit ≡ 128 → (IsAnswered w (Grows 1 false) → ⊥) × (IsAnswered w (Grows 2 true) → ⊥) }
{}

/// A request within 128 pages, with 127 held, is of one page or of none, and the run goes on after it; where nothing bounds requests, it
/// goes on after each.
pub fn requests_within()
    ensures one { (w : World) (c : Config) → w.held ≡ 127 → AsksWithin 128 w (Grows 1 true) (Running c) }
    ensures two { (w : World) (c : Config) → w.held ≡ 127 → AsksWithin 128 w (Grows 2 false) (Running c) → ⊥ }
    ensures none { (w : World) (c : Config) → w.held ≡ 127 → AsksWithin 128 w (Grows 0 true) (Running c) }
    ensures last { (w : World) → AsksWithin 128 w (Grows 1 true) Returned → ⊥ }
    ensures on { (c : Config) → AsksOn (Grows 1 false) (Running c) × (AsksOn (Grows 1 false) Returned → ⊥) × AsksOn Silent Returned }
{}

/// Two pages that are granted over a memory of two are the third and the fourth; a request of no page leaves what there is; of a
/// refused request its pages are kept.
pub fn worlds_after_requests()
    ensures granted { (memory : List ℕ) → length memory ≡ 131072
        → world_after at_start memory (Grows 2 true) ≡ record at_start {
          own = (record { start = 65536; size = 65536 }) ∷ (record { start = 131072; size = 131072 }) ∷ [];
          held = 3;
        } }
    ensures none { (memory : List ℕ) → world_after at_start memory (Grows 0 true) ≡ at_start }
    ensures refused { (w : World) (memory : List ℕ) → world_after w memory (Grows 2 false) ≡ record w { refused = Some 2 } }
{}

/// Where requests are placed, of a column page 0 and first pages 1, 2 and 3. Instance 0 asks for 1 and gets page 4, then ends with an
/// exception, so 1 and 4 are free. Instance 1 asks for 1 and gets 1; it asks for 2 and gets 5 and 6. Instance 2 asks for 1 and gets 4.
pub fn recycled_pages()
    ensures first { (m : List ℕ) → pages_of m ≡ 4 → place_among m (false ∷ false ∷ false ∷ false ∷ []) 1 ≡ 4 }
    ensures ended { given_back ((record { start = 65536; size = 65536 }) ∷ (record { start = 262144; size = 65536 }) ∷ []) (false ∷ false ∷ false ∷ false ∷ false ∷ [])
        ≡ false ∷ true ∷ false ∷ false ∷ true ∷ [] }
    ensures second { (m : List ℕ) → place_among m (false ∷ true ∷ false ∷ false ∷ true ∷ []) 1 ≡ 1 }
    ensures third { (m : List ℕ) → pages_of m ≡ 5 → place_among m (marked false 1 1 (false ∷ true ∷ false ∷ false ∷ true ∷ [])) 2 ≡ 5 }
    ensures fourth { (m : List ℕ) → place_among m (false ∷ false ∷ false ∷ false ∷ true ∷ false ∷ false ∷ []) 1 ≡ 4 }
    ensures none { (m : List ℕ) (free : List Bool) → place_among m free 0 ≡ pages_of m }
{}
