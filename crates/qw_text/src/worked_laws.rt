//! Worked cases of the definitions, with numbers: stated as contracts.

ghost use Rattle.std.specs.Prelude.{◌≡◌, [], codes};
ghost use Rattle.qw_text.specs.Likes.{pairs};

/// `pen` has four places, with the one behind its last octet, and `%n` three; a text and a pattern without octets have one each.
pub fn places_of_texts()
    ensures { (pairs (codes "pen") (codes "%n") ≡ 12) × (pairs [] [] ≡ 1) }
{}
