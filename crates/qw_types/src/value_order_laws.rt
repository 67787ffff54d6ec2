//! The order of values and rows: what holds of it, and worked cases. No function here computes anything.

ghost use Rattle.std.specs.Prelude.{◌≡◌, pos, negsuc, true, false, [], ◌∷◌, List};
ghost use Rattle.std.specs.Ordering.{ordering_reverse};
ghost use Rattle.std.specs.declared.cmp.Ordering.TheVariants.{Less, Equal, Greater};
ghost use Rattle.qw_types.specs.ValueOrder.{is_same_row, row_order, value_order};
ghost use Rattle.qw_types.specs.declared.value.Val.{Val};
ghost use Rattle.qw_types.specs.declared.value.Val.TheVariants.{Null, Num, Date, Text};

/// It turns round with its operands, and finds equal what is the same alone; so two rows that aren't distinct are the same row.
pub fn order_laws()
    ensures turned { (a b : Val) → value_order b a ≡ ordering_reverse (value_order a b) }
    ensures only_same { (a b : Val) → value_order a b ≡ Equal → a ≡ b }
    ensures same { (a : Val) → value_order a a ≡ Equal }
    ensures rows { (row other : List Val) → is_same_row row other ≡ true → row ≡ other }
    ensures same_row { (row : List Val) → is_same_row row row ≡ true }
{}

/// Null is below -5, '' and 0001-01-01; -5 below 3; 1998-09-02 below 1998-09-03; 'ink' below 'pen'. The rows (1, null) and (1, null) aren't
/// distinct, (1, null) and (1, 2) are, and (1, null) comes first; (1, 2) comes before (2, 1).
pub fn worked_orders()
    ensures nulls { (value_order Null (Num (negsuc 4)) ≡ Less) × (value_order Null (Text []) ≡ Less) × (value_order (Date (pos 10101)) Null ≡ Greater) × (value_order Null Null ≡ Equal) }
    ensures values { (value_order (Num (negsuc 4)) (Num (pos 3)) ≡ Less) × (value_order (Date (pos 19980902)) (Date (pos 19980903)) ≡ Less)
        × (value_order (Text (105 ∷ 110 ∷ 107 ∷ [])) (Text (112 ∷ 101 ∷ 110 ∷ [])) ≡ Less) × (value_order (Num (pos 3)) (Num (pos 3)) ≡ Equal) }
    ensures rows { (is_same_row (Num (pos 1) ∷ Null ∷ []) (Num (pos 1) ∷ Null ∷ []) ≡ true) × (is_same_row (Num (pos 1) ∷ Null ∷ []) (Num (pos 1) ∷ Num (pos 2) ∷ []) ≡ false)
        × (row_order (Num (pos 1) ∷ Null ∷ []) (Num (pos 1) ∷ Num (pos 2) ∷ []) ≡ Less) × (row_order (Num (pos 1) ∷ Num (pos 2) ∷ []) (Num (pos 2) ∷ Num (pos 1) ∷ []) ≡ Less)
        × (row_order [] (Null ∷ []) ≡ Less) }
{}
