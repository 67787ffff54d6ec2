//! Rows sorted by hand. No function here computes anything.

ghost use Rattle.std.specs.Prelude.{pos, negsuc, true, false, [], ◌∷◌, List, codes};
ghost use Rattle.qw_types.specs.declared.value.Val.{Val};
ghost use Rattle.qw_types.specs.declared.value.Val.TheVariants.{Null, Num, Date, Text};
ghost use Rattle.qw_order.specs.Order.{AreSorted};

/// 2, null, -5, 3: null comes first, and last with DESC.
pub fn nulls_are_least()
    ensures ascending { AreSorted (record { position = 0; is_descending = false } ∷ [])
        ((Num (pos 2) ∷ []) ∷ (Null ∷ []) ∷ (Num (negsuc 4) ∷ []) ∷ (Num (pos 3) ∷ []) ∷ [])
        ((Null ∷ []) ∷ (Num (negsuc 4) ∷ []) ∷ (Num (pos 2) ∷ []) ∷ (Num (pos 3) ∷ []) ∷ []) }
    ensures descending { AreSorted (record { position = 0; is_descending = true } ∷ [])
        ((Num (pos 2) ∷ []) ∷ (Null ∷ []) ∷ (Num (negsuc 4) ∷ []) ∷ (Num (pos 3) ∷ []) ∷ [])
        ((Num (pos 3) ∷ []) ∷ (Num (pos 2) ∷ []) ∷ (Num (negsuc 4) ∷ []) ∷ (Null ∷ []) ∷ []) }
{}

/// By the second of two columns, (1, 7), (2, 5), (3, 7), (4, 5): the rows of 5 stand as they stood, and so do those of 7, with DESC too;
/// no other arrangement is sorted.
pub fn ties_keep_their_order()
    ensures ascending { AreSorted (record { position = 1; is_descending = false } ∷ [])
        ((Num (pos 1) ∷ Num (pos 7) ∷ []) ∷ (Num (pos 2) ∷ Num (pos 5) ∷ []) ∷ (Num (pos 3) ∷ Num (pos 7) ∷ []) ∷ (Num (pos 4) ∷ Num (pos 5) ∷ []) ∷ [])
        ((Num (pos 2) ∷ Num (pos 5) ∷ []) ∷ (Num (pos 4) ∷ Num (pos 5) ∷ []) ∷ (Num (pos 1) ∷ Num (pos 7) ∷ []) ∷ (Num (pos 3) ∷ Num (pos 7) ∷ []) ∷ []) }
    ensures descending { AreSorted (record { position = 1; is_descending = true } ∷ [])
        ((Num (pos 1) ∷ Num (pos 7) ∷ []) ∷ (Num (pos 2) ∷ Num (pos 5) ∷ []) ∷ (Num (pos 3) ∷ Num (pos 7) ∷ []) ∷ (Num (pos 4) ∷ Num (pos 5) ∷ []) ∷ [])
        ((Num (pos 1) ∷ Num (pos 7) ∷ []) ∷ (Num (pos 3) ∷ Num (pos 7) ∷ []) ∷ (Num (pos 2) ∷ Num (pos 5) ∷ []) ∷ (Num (pos 4) ∷ Num (pos 5) ∷ []) ∷ []) }
    ensures turned { AreSorted (record { position = 1; is_descending = false } ∷ [])
        ((Num (pos 1) ∷ Num (pos 7) ∷ []) ∷ (Num (pos 3) ∷ Num (pos 7) ∷ []) ∷ [])
        ((Num (pos 3) ∷ Num (pos 7) ∷ []) ∷ (Num (pos 1) ∷ Num (pos 7) ∷ []) ∷ []) → ⊥ }
{}

/// ('pen', 1998-09-03), ('ink', 1998-09-02), ('pen', 1998-09-01), ('ink', null): by the text, then by the date with DESC.
pub fn second_key_decides()
    ensures { AreSorted (record { position = 0; is_descending = false } ∷ record { position = 1; is_descending = true } ∷ [])
        ((Text (codes "pen") ∷ Date (pos 19980903) ∷ []) ∷ (Text (codes "ink") ∷ Date (pos 19980902) ∷ []) ∷ (Text (codes "pen") ∷ Date (pos 19980901) ∷ []) ∷ (Text (codes "ink") ∷ Null ∷ []) ∷ [])
        ((Text (codes "ink") ∷ Date (pos 19980902) ∷ []) ∷ (Text (codes "ink") ∷ Null ∷ []) ∷ (Text (codes "pen") ∷ Date (pos 19980903) ∷ []) ∷ (Text (codes "pen") ∷ Date (pos 19980901) ∷ []) ∷ []) }
{}
