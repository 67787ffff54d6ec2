//! LIKE by octets is LIKE by characters; and both at patterns and texts worked by hand. No function here computes anything.

ghost use Rattle.std.specs.Prelude.{◌≡◌, ℕ, List, true, false, codes, [], ◌∷◌, IsUtf8};
ghost use Rattle.qw_types.specs.Like.{fits_pattern, is_like, matches};

/// Whether a text matches a pattern can be told from their octets, without putting characters together.
pub fn octets_decide()
    ensures { (pattern text : List ℕ) → IsUtf8 pattern → IsUtf8 text → fits_pattern pattern text ≡ is_like pattern text }
{}

/// Runs, single characters, and characters of more than one octet: `é` is the character 233, of the octets 195 and 169.
pub fn patterns_and_texts()
    ensures single { (matches (codes "_n%") (codes "ink") ≡ true) × (matches (codes "_n%") (codes "pen") ≡ false) × (matches (codes "_n%") (codes "n") ≡ false) }
    ensures run { (matches (codes "%n") (codes "pen") ≡ true) × (matches (codes "p%") (codes "pen") ≡ true) × (matches (codes "%e%") (codes "pen") ≡ true) × (matches (codes "%") [] ≡ true) }
    ensures whole { (matches (codes "pe") (codes "pen") ≡ false) × (matches [] (codes "pen") ≡ false) × (matches [] [] ≡ true) }
    ensures character { (matches (codes "_") (233 ∷ []) ≡ true) × (matches (codes "__") (233 ∷ []) ≡ false) × (matches (codes "p%") (37 ∷ []) ≡ false) }
    ensures octets { (is_like (95 ∷ []) (195 ∷ 169 ∷ []) ≡ true) × (is_like (95 ∷ 95 ∷ []) (195 ∷ 169 ∷ []) ≡ false) × (is_like (195 ∷ 169 ∷ 37 ∷ []) (195 ∷ 169 ∷ 110 ∷ []) ≡ true) }
{}

/// `pen` and `p`; `_` and `__` of `é`, the octets 195 and 169; `%_` and `%__` of `€`, the octets 226, 130 and 172.
pub fn by_octets()
    ensures run { (fits_pattern (codes "%n") (codes "pen") ≡ true) × (fits_pattern (codes "%e") (codes "pen") ≡ false) × (fits_pattern (codes "p%") (codes "p") ≡ true) }
    ensures character { (fits_pattern (codes "_") (195 ∷ 169 ∷ []) ≡ true) × (fits_pattern (codes "__") (195 ∷ 169 ∷ []) ≡ false) }
    ensures inner { (fits_pattern (codes "%_") (226 ∷ 130 ∷ 172 ∷ []) ≡ true) × (fits_pattern (codes "%__") (226 ∷ 130 ∷ 172 ∷ []) ≡ false) }
{}
