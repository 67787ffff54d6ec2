//! The order of texts, and worked cases of it.

ghost use Rattle.std.specs.Prelude.{◌≡◌, ℕ, List, [], ◌∷◌, ◌++◌};
ghost use Rattle.std.specs.Ordering.{ordering_reverse};
ghost use Rattle.std.specs.declared.cmp.Ordering.TheVariants.{Less, Equal, Greater};
ghost use Rattle.qw_types.specs.TextOrder.{text_order};

use crate::text::Text;
use std::cmp::Ordering;

/// How two texts compare, by their octets and without padding (ISO/IEC 9075:1992, 8.2).
#[tactic(auto, using(crate::proofs::TextOrderLemmas::as_slices))]
pub fn compare(left: &Text, right: &Text) -> Ordering
    ensures { result ≡ text_order left.now right.now }
{
    left.as_str().cmp(right.as_str())
}

/// The order of texts is a total order, which turns round with its operands; a text is equal to itself alone, and less than each
/// longer one that begins with it.
pub fn order_laws()
    ensures same { (text : List ℕ) → text_order text text ≡ Equal }
    ensures only_same { (left right : List ℕ) → text_order left right ≡ Equal → left ≡ right }
    ensures turned { (left right : List ℕ) → text_order right left ≡ ordering_reverse (text_order left right) }
    ensures chain { (first second third : List ℕ) → text_order first second ≡ Less → text_order second third ≡ Less → text_order first third ≡ Less }
    ensures prefix { (text : List ℕ) (octet : ℕ) (rest : List ℕ) → text_order text (text ++ octet ∷ rest) ≡ Less }
{}

/// `'ink' < 'm'`, `'pen' > 'm'`, `'m' < 'ma'`, `'m ' > 'm'`, `'M' < 'm'`, `'' < 'a'`, `'pen' = 'pen'`.
pub fn worked_orders()
    ensures { (text_order (105 ∷ 110 ∷ 107 ∷ []) (109 ∷ []) ≡ Less)
        × (text_order (112 ∷ 101 ∷ 110 ∷ []) (109 ∷ []) ≡ Greater)
        × (text_order (109 ∷ []) (109 ∷ 97 ∷ []) ≡ Less)
        × (text_order (109 ∷ 32 ∷ []) (109 ∷ []) ≡ Greater)
        × (text_order (77 ∷ []) (109 ∷ []) ≡ Less)
        × (text_order [] (97 ∷ []) ≡ Less)
        × (text_order (112 ∷ 101 ∷ 110 ∷ []) (112 ∷ 101 ∷ 110 ∷ []) ≡ Equal) }
{}
