//! Worked cases of the definitions, with numbers: stated as contracts. No function here computes anything.

ghost use Rattle.std.specs.Prelude.{◌≡◌, ◌≢◌, ℕ, Bool, true, false, negsuc, pos, [], ◌∷◌, None, Some};
ghost use Rattle.qw_types.specs.declared.kind.Kind.TheVariants as kind;
ghost use Rattle.qw_types.specs.declared.value.Ty.TheVariants as ty;
ghost use Rattle.qw_types.specs.declared.value.Val.TheVariants as val;
ghost use Rattle.qw_read.specs.Reading.{operand_of, place_of, StandsAt};
ghost use Rattle.qw_read.specs.Texts.{text_operand, AreFrom, LieThere};
ghost use Rattle.qw_read.specs.Worked.{reader, sizes, dates, prices, names, literal, one_page};

/// What was read of a DECIMAL(5,2) has two digits after the point and is at most 99999, at that scale; of an INTEGER it is at most 2^31.
pub fn operands_of_columns()
    ensures decimal { ((operand_of (reader (ty.Decimal 5 2))).most ≡ 99999) × ((operand_of (reader (ty.Decimal 5 2))).kind ≡ Some (kind.Number 2)) × ((operand_of (reader (ty.Decimal 5 2))).scale ≡ 2) }
    ensures integer { ((operand_of (reader ty.Integer)).most ≡ 2147483648) × ((operand_of (reader ty.Integer)).scale ≡ 0) }
{}

/// Of nine rows, a DECIMAL's values end 72 octets behind their begin, an INTEGER's and a DATE's 36; so do the offsets of texts, of which one
/// more stands there.
pub fn places_of_values()
    ensures decimal { place_of (ty.Decimal 5 2) 9 ≡ 72 }
    ensures integer { place_of ty.Integer 9 ≡ 36 }
    ensures date { place_of ty.Date 9 ≡ 36 }
    ensures text { place_of (ty.Varchar 2) 9 ≡ 36 }
{}

/// Of the layout's column 1, row 9 is null where bit 1 of the second octet of its null bits is 1, and the column has octets for ten rows.
/// A row of a DECIMAL takes eight octets, and -1 has all bits; a text lies between two offsets, which are those of its row and the next.
pub fn values_that_stand()
    ensures null { StandsAt dates sizes 1 ty.Date false 9 val.Null }
    ensures number { StandsAt prices sizes 1 (ty.Decimal 5 2) true 4 (val.Num (negsuc 0)) }
    ensures text { StandsAt names sizes 1 (ty.Varchar 2) true 8 (val.Text (65 ∷ [])) }
    ensures no_room { StandsAt dates [] 1 ty.Date false 9 val.Null → ⊥ }
{}

/// Of two texts of two octets and of one that lie from octet 80 on, the second one's literal begins at 82; one that began at 81 would be
/// that of no text there. A text lies in the first page where its octets are, up to the end of the page and no further; and it is held as a
/// text of no scale.
pub fn texts_that_lie()
    ensures behind { AreFrom 80 (literal 80 2 ∷ literal 82 1 ∷ []) ((65 ∷ 66 ∷ []) ∷ (67 ∷ []) ∷ []) }
    ensures overlap { AreFrom 80 (literal 80 2 ∷ literal 81 1 ∷ []) ((65 ∷ 66 ∷ []) ∷ (67 ∷ []) ∷ []) → ⊥ }
    ensures there { LieThere one_page (literal 65535 1 ∷ []) ((65 ∷ []) ∷ []) }
    ensures past_the_page { LieThere one_page (literal 65536 1 ∷ []) ((65 ∷ []) ∷ []) → ⊥ }
    ensures other_octet { LieThere one_page (literal 65535 1 ∷ []) ((66 ∷ []) ∷ []) → ⊥ }
    ensures operand { ((text_operand (literal 80 2)).kind ≡ Some kind.Text) × ((text_operand (literal 80 2)).scale ≡ 0) × ((text_operand (literal 80 2)).cell.null ≡ None) }
{}
