//! Descriptors and result rows. No function here computes anything.

ghost use Rattle.std.specs.Prelude.{◌≡◌, ℕ, List, [], ◌∷◌, length, Some, None, true, false, pos, negsuc};
ghost use Rattle.qw_types.specs.declared.kind.Kind.TheVariants as kind;
ghost use Rattle.qw_types.specs.declared.value.Ty.TheVariants.{Integer, Varchar};
ghost use Rattle.qw_types.specs.declared.value.Val.TheVariants as val;
ghost use Rattle.qw_map.specs.Layout.{entry_offset, descriptor_size, HasEntry, row_size, text_cell, cell_at, rows_at};
ghost use Rattle.qw_map.specs.Worked.{at_start, one_column, one_text, three, two_rows, with_own};

/// Entries of 16 octets follow a head of 64, and the octets of texts the entries; the whole is brought to a multiple of 8. A result
/// row has 8 octets and 16 for each cell.
pub fn parts_of_a_page()
    ensures entries { (entry_offset 0 ≡ 64) × (entry_offset 1 ≡ 80) × (entry_offset 64 ≡ 1088) }
    ensures rows { (row_size 1 ≡ 24) × (row_size 2 ≡ 40) × (row_size 64 ≡ 1032) }
    ensures nothing { descriptor_size (record { columns = []; literals = []; cells = [] }) ≡ 64 }
    ensures columns { descriptor_size one_column ≡ 80 }
    ensures literals { descriptor_size (record one_column { literals = 112 ∷ 101 ∷ 110 ∷ [] }) ≡ 88 }
    ensures eight { descriptor_size (record one_column { literals = 112 ∷ 101 ∷ 110 ∷ 105 ∷ 110 ∷ 107 ∷ 97 ∷ 98 ∷ [] }) ≡ 88 }
    ensures nine { descriptor_size (record one_column { literals = 112 ∷ 101 ∷ 110 ∷ 105 ∷ 110 ∷ 107 ∷ 97 ∷ 98 ∷ 99 ∷ [] }) ≡ 96 }
{}

/// What an instance begins with: the three parts of its column, of which two are empty, and its first page.
pub fn first_areas()
    ensures mapped { at_start.mapped ≡ record { start = 64; size = 12 } ∷ record { start = 80; size = 0 } ∷ record { start = 80; size = 0 } ∷ [] }
    ensures own { (at_start.own ≡ record { start = 65536; size = 65536 } ∷ []) × (at_start.held ≡ 1) × (at_start.limit ≡ 128) × (at_start.refused ≡ None) }
{}

/// A cell's octet behind its value is 1 where it is null and 0 where it isn't, and nothing else. A number has at most 18 digits;
/// a date is a day of the calendar, which 1998-04-31 is not.
#[tactic(auto, unfolding(qw_linear::specs::Memory::number_at))]
pub fn cells_of_octets()
    ensures null { (cell_at [] (7 ∷ 0 ∷ 0 ∷ 0 ∷ 0 ∷ 0 ∷ 0 ∷ 0 ∷ 1 ∷ 0 ∷ 0 ∷ 0 ∷ 0 ∷ 0 ∷ 0 ∷ 0 ∷ []) 0 (kind.Number 0) ≡ Some val.Null)
        × (cell_at [] (7 ∷ 0 ∷ 0 ∷ 0 ∷ 0 ∷ 0 ∷ 0 ∷ 0 ∷ 2 ∷ 0 ∷ 0 ∷ 0 ∷ 0 ∷ 0 ∷ 0 ∷ 0 ∷ []) 0 (kind.Number 0) ≡ None) }
    ensures numbers { (cell_at [] (255 ∷ 255 ∷ 99 ∷ 167 ∷ 179 ∷ 182 ∷ 224 ∷ 13 ∷ 0 ∷ 0 ∷ 0 ∷ 0 ∷ 0 ∷ 0 ∷ 0 ∷ 0 ∷ []) 0 (kind.Number 2) ≡ Some (val.Num (pos 999999999999999999)))
        × (cell_at [] (0 ∷ 0 ∷ 100 ∷ 167 ∷ 179 ∷ 182 ∷ 224 ∷ 13 ∷ 0 ∷ 0 ∷ 0 ∷ 0 ∷ 0 ∷ 0 ∷ 0 ∷ 0 ∷ []) 0 (kind.Number 2) ≡ None)
        × (cell_at [] (1 ∷ 0 ∷ 156 ∷ 88 ∷ 76 ∷ 73 ∷ 31 ∷ 242 ∷ 0 ∷ 0 ∷ 0 ∷ 0 ∷ 0 ∷ 0 ∷ 0 ∷ 0 ∷ []) 0 (kind.Number 0) ≡ Some (val.Num (negsuc 999999999999999998))) }
    ensures dates { (cell_at [] (15 ∷ 226 ∷ 48 ∷ 1 ∷ 0 ∷ 0 ∷ 0 ∷ 0 ∷ 0 ∷ 0 ∷ 0 ∷ 0 ∷ 0 ∷ 0 ∷ 0 ∷ 0 ∷ []) 0 kind.Date ≡ Some (val.Date (pos 19980815)))
        × (cell_at [] (192 ∷ 190 ∷ 245 ∷ 5 ∷ 0 ∷ 0 ∷ 0 ∷ 0 ∷ 0 ∷ 0 ∷ 0 ∷ 0 ∷ 0 ∷ 0 ∷ 0 ∷ 0 ∷ []) 0 kind.Date ≡ None)
        × (cell_at [] (143 ∷ 224 ∷ 48 ∷ 1 ∷ 0 ∷ 0 ∷ 0 ∷ 0 ∷ 0 ∷ 0 ∷ 0 ∷ 0 ∷ 0 ∷ 0 ∷ 0 ∷ 0 ∷ []) 0 kind.Date ≡ None) }
{}

/// A text of three octets is read where the areas have all of them: in an area of its own, or over the border of two. A text with an
/// octet outside, one that ends behind the memory, and one that isn't UTF-8 are not.
pub fn texts_of_areas()
    ensures there { text_cell (record { start = 1; size = 3 } ∷ []) (9 ∷ 112 ∷ 101 ∷ 110 ∷ 9 ∷ []) 1 3 ≡ Some (val.Text (112 ∷ 101 ∷ 110 ∷ [])) }
    ensures border { text_cell (record { start = 1; size = 1 } ∷ record { start = 2; size = 2 } ∷ []) (9 ∷ 112 ∷ 101 ∷ 110 ∷ 9 ∷ []) 1 3 ≡ Some (val.Text (112 ∷ 101 ∷ 110 ∷ [])) }
    ensures outside { text_cell (record { start = 1; size = 2 } ∷ []) (9 ∷ 112 ∷ 101 ∷ 110 ∷ 9 ∷ []) 1 3 ≡ None }
    ensures behind { text_cell (record { start = 1; size = 3 } ∷ []) (9 ∷ 112 ∷ 101 ∷ []) 1 3 ≡ None }
    ensures not_text { text_cell (record { start = 1; size = 3 } ∷ []) (9 ∷ 112 ∷ 255 ∷ 110 ∷ []) 1 3 ≡ None }
    ensures empty { text_cell [] (9 ∷ []) 0 0 ≡ Some (val.Text []) }
{}

/// Two result rows, of which the first has a null and the descriptor's text, the second a null and a text of the column. They lie in
/// own areas, in one or over the border of two. Where an octet of the last row isn't the instance's own, where the descriptor isn't, or
/// where a text lies neither in the columns nor in the descriptor, there are none.
pub fn result_rows()
    ensures one { rows_at one_text (with_own (record { start = 8; size = 184 } ∷ [])) (two_rows 0) 8 ≡
        Some ((val.Null ∷ val.Date (pos 19980815) ∷ val.Text (112 ∷ 101 ∷ 110 ∷ []) ∷ [])
        ∷ (val.Num (negsuc 6) ∷ val.Null ∷ val.Text (105 ∷ 110 ∷ 107 ∷ []) ∷ []) ∷ []) }
    ensures border { rows_at one_text (with_own (record { start = 8; size = 100 } ∷ record { start = 108; size = 84 } ∷ [])) (two_rows 0) 8 ≡
        Some ((val.Null ∷ val.Date (pos 19980815) ∷ val.Text (112 ∷ 101 ∷ 110 ∷ []) ∷ [])
        ∷ (val.Num (negsuc 6) ∷ val.Null ∷ val.Text (105 ∷ 110 ∷ 107 ∷ []) ∷ []) ∷ []) }
    ensures last { rows_at one_text (with_own (record { start = 8; size = 183 } ∷ [])) (two_rows 0) 8 ≡ None }
    ensures head { rows_at one_text (with_own (record { start = 9; size = 183 } ∷ [])) (two_rows 0) 8 ≡ None }
    ensures text { (rows_at one_text (with_own (record { start = 8; size = 184 } ∷ [])) (two_rows 1) 8 ≡ None)
        × (rows_at one_text (with_own (record { start = 8; size = 184 } ∷ [])) (two_rows 80) 8 ≡ None) }
{}

/// An entry has the addresses of a column's values, of its null bits and of the octets of its texts, and its rows: here from octet 64
/// on, 80, 80 and 3 rows. Where the column has no null bits, or no texts, 0 stands in their place, and where it has, it doesn't.
#[tactic(auto, unfolding(qw_linear::specs::Memory::number_at))]
pub fn entries_of_columns()
    ensures whole { HasEntry (64 ∷ 0 ∷ 0 ∷ 0 ∷ 0 ∷ 0 ∷ 0 ∷ 0 ∷ 0 ∷ 0 ∷ 0 ∷ 0 ∷ 3 ∷ 0 ∷ 0 ∷ 0 ∷ []) 0
        (record { table = 0; column = 0; ty = Integer; not_null = true }) three }
    ensures nullable { HasEntry (64 ∷ 0 ∷ 0 ∷ 0 ∷ 80 ∷ 0 ∷ 0 ∷ 0 ∷ 0 ∷ 0 ∷ 0 ∷ 0 ∷ 3 ∷ 0 ∷ 0 ∷ 0 ∷ []) 0
        (record { table = 0; column = 0; ty = Integer; not_null = false }) three }
    ensures texts { HasEntry (64 ∷ 0 ∷ 0 ∷ 0 ∷ 0 ∷ 0 ∷ 0 ∷ 0 ∷ 80 ∷ 0 ∷ 0 ∷ 0 ∷ 3 ∷ 0 ∷ 0 ∷ 0 ∷ []) 0
        (record { table = 0; column = 0; ty = Varchar 5; not_null = true }) three }
    ensures no_nulls { HasEntry (64 ∷ 0 ∷ 0 ∷ 0 ∷ 0 ∷ 0 ∷ 0 ∷ 0 ∷ 0 ∷ 0 ∷ 0 ∷ 0 ∷ 3 ∷ 0 ∷ 0 ∷ 0 ∷ []) 0
        (record { table = 0; column = 0; ty = Integer; not_null = false }) three → ⊥ }
    ensures no_octets { HasEntry (64 ∷ 0 ∷ 0 ∷ 0 ∷ 0 ∷ 0 ∷ 0 ∷ 0 ∷ 0 ∷ 0 ∷ 0 ∷ 0 ∷ 3 ∷ 0 ∷ 0 ∷ 0 ∷ []) 0
        (record { table = 0; column = 0; ty = Varchar 5; not_null = true }) three → ⊥ }
    ensures other_rows { HasEntry (64 ∷ 0 ∷ 0 ∷ 0 ∷ 0 ∷ 0 ∷ 0 ∷ 0 ∷ 0 ∷ 0 ∷ 0 ∷ 0 ∷ 4 ∷ 0 ∷ 0 ∷ 0 ∷ []) 0
        (record { table = 0; column = 0; ty = Integer; not_null = true }) three → ⊥ }
{}
