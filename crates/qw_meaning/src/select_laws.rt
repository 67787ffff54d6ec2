//! Worked cases of specifications and of the rows of their tables. No function here computes anything.

ghost use Rattle.std.specs.Prelude.{◌≡◌, pos, negsuc, [], ◌∷◌, length, map, List};
ghost use Rattle.qw_types.specs.Kind.{IsRowOf, type_kind};
ghost use Rattle.qw_types.specs.declared.value.Ty.{Ty};
ghost use Rattle.qw_types.specs.declared.value.Ty.TheVariants as type;
ghost use Rattle.qw_types.specs.declared.value.Val.{Val};
ghost use Rattle.qw_types.specs.declared.value.Val.TheVariants.{Null, Num, Date, Text};
ghost use Rattle.qw_scalar.specs.Expression.{column, null};
ghost use Rattle.qw_meaning.specs.Select.{AreOfEntries, IsColumnOf, IsReached, IsSpecification, alone};
ghost use Rattle.qw_scalar.specs.WorkedRows.{first_item, pen};
ghost use Rattle.qw_meaning.specs.WorkedQueries.{item_entry, item_joined, note_entry, numbers};

/// `SELECT ID FROM ITEM` is a specification; `SELECT NULL`, `SELECT LABEL` as a number, a second column of a table of one and an empty
/// list aren't.
pub fn specifications()
    ensures taken { IsSpecification (record { sources = alone item_entry ∷ []; conjuncts = []; items = column 0 type.Integer ∷ [] }) }
    ensures null_item { IsSpecification (record { sources = alone numbers ∷ []; conjuncts = []; items = null ∷ [] }) → ⊥ }
    ensures other_type { IsSpecification (record { sources = alone item_entry ∷ []; conjuncts = []; items = column 3 type.Integer ∷ [] }) → ⊥ }
    ensures no_column { IsSpecification (record { sources = alone numbers ∷ []; conjuncts = []; items = column 1 type.Integer ∷ [] }) → ⊥ }
    ensures no_item { IsSpecification (record { sources = alone numbers ∷ []; conjuncts = []; items = [] }) → ⊥ }
{}

/// In `FROM ITEM, NOTE` LABEL of ITEM is number 3 and RATE of NOTE number 65; 4 and 128 are of no column. `ITEM JOIN NOTE ON ITEM = ID` is
/// a specification, and so is it beside NOTE in front, with numbers from 64 on; where the ON names a column of the source in front, or of an
/// entry behind its own, it isn't.
pub fn columns_and_joins()
    ensures numbers { IsColumnOf (item_entry ∷ note_entry ∷ []) 3 (type.Varchar 20) × IsColumnOf (item_entry ∷ note_entry ∷ []) 65 (type.Decimal 3 1) }
    ensures no_column { (ty : Ty) → IsColumnOf (item_entry ∷ note_entry ∷ []) 4 ty → ⊥ }
    ensures no_entry { (ty : Ty) → IsColumnOf (item_entry ∷ note_entry ∷ []) 128 ty → ⊥ }
    ensures joined { IsSpecification (record { sources = item_joined (column 0 type.Integer) (column 64 type.Integer) ∷ []; conjuncts = []; items = column 65 (type.Decimal 3 1) ∷ [] }) }
    ensures behind { IsSpecification (record { sources = alone note_entry ∷ item_joined (column 64 type.Integer) (column 128 type.Integer) ∷ []; conjuncts = []; items = column 1 (type.Decimal 3 1) ∷ [] }) }
    ensures other_source { IsSpecification (record { sources = alone note_entry ∷ item_joined (column 0 type.Integer) (column 128 type.Integer) ∷ []; conjuncts = []; items = column 1 (type.Decimal 3 1) ∷ [] }) → ⊥ }
    ensures later_entry { IsSpecification (record { sources = item_joined (column 0 type.Integer) (column 128 type.Integer) ∷ alone note_entry ∷ []; conjuncts = []; items = column 1 (type.Decimal 9 2) ∷ [] }) → ⊥ }
{}

/// (1, 10.00, 1998-09-02, 'pen') is a row of ITEM's columns; of one column more it isn't.
pub fn rows()
    ensures row { IsRowOf (map type_kind (type.Integer ∷ type.Decimal 9 2 ∷ type.Date ∷ type.Varchar 20 ∷ [])) first_item.row }
    ensures short_row { IsRowOf (map type_kind (type.Integer ∷ type.Decimal 9 2 ∷ type.Date ∷ type.Varchar 20 ∷ type.Integer ∷ [])) first_item.row → ⊥ }
{}

/// Over NOTE (ITEM INTEGER NOT NULL, RATE DECIMAL(3, 1)), the second table of the schema: (1, -99.9) and (1, null) are its rows, whatever
/// the first table has. A table isn't NOTE where a row has a null in ITEM, no RATE, a third value, a text or 2147483648 in ITEM, 100.0 in
/// RATE, or where it has more than 1,000,000 rows; nor are the tables those of two entries where one of the two isn't.
pub fn tables()
    ensures taken { (other : List (List Val)) → AreOfEntries (note_entry ∷ []) (other ∷ ((Num (pos 1) ∷ Num (negsuc 998) ∷ []) ∷ (Num (pos 1) ∷ Null ∷ []) ∷ []) ∷ []) }
    ensures no_table { AreOfEntries (note_entry ∷ []) [] }
    ensures null_in_not_null { (other : List (List Val)) → AreOfEntries (note_entry ∷ []) (other ∷ ((Num (pos 1) ∷ Null ∷ []) ∷ (Null ∷ Null ∷ []) ∷ []) ∷ []) → ⊥ }
    ensures short_row { (other : List (List Val)) → AreOfEntries (note_entry ∷ []) (other ∷ ((Num (pos 1) ∷ []) ∷ []) ∷ []) → ⊥ }
    ensures long_row { (other : List (List Val)) → AreOfEntries (note_entry ∷ []) (other ∷ ((Num (pos 1) ∷ Null ∷ Null ∷ []) ∷ []) ∷ []) → ⊥ }
    ensures other_kind { (other : List (List Val)) → AreOfEntries (note_entry ∷ []) (other ∷ ((Text pen ∷ Null ∷ []) ∷ []) ∷ []) → ⊥ }
    ensures too_large { (other : List (List Val)) → AreOfEntries (note_entry ∷ []) (other ∷ ((Num (pos 2147483648) ∷ Null ∷ []) ∷ []) ∷ []) → ⊥ }
    ensures too_long { (other : List (List Val)) → AreOfEntries (note_entry ∷ []) (other ∷ ((Num (pos 1) ∷ Num (pos 1000) ∷ []) ∷ []) ∷ []) → ⊥ }
    ensures too_many { (other rows : List (List Val)) → length rows ≡ 1000001 → AreOfEntries (note_entry ∷ []) (other ∷ rows ∷ []) → ⊥ }
    ensures second_entry { AreOfEntries (numbers ∷ note_entry ∷ []) ([] ∷ ((Null ∷ Null ∷ []) ∷ []) ∷ []) → ⊥ }
    ensures first_entry { AreOfEntries (numbers ∷ note_entry ∷ []) (((Date (pos 19980902) ∷ []) ∷ []) ∷ [] ∷ []) → ⊥ }
{}
