//! Where columns of tables stand, and the values that are read there. No function here computes anything.

ghost use Rattle.std.specs.Prelude.{◌≡◌, ℕ, List, [], ◌∷◌, length, replicate, take, Some, None, true, false, pos, negsuc};
ghost use Rattle.qw_types.specs.Contents.{Contents, AreLoaded};
ghost use Rattle.qw_types.specs.declared.value.Ty.TheVariants.{Integer, Decimal, Date, Varchar};
ghost use Rattle.qw_types.specs.declared.value.Val.TheVariants as val;
ghost use Rattle.qw_map.specs.Columns.{values_size, nulls_size, areas_of, null_bit, text_offset, stored_at, value_at, to_eight, tables_end, map_of, column_pages, HoldsColumn};
ghost use Rattle.qw_map.specs.Worked.{items, no_shops, nulls_only, labels, label_octets, label_values, numbers, number_octets};
ghost use Rattle.qw_map.specs.declared.layout.Placed.{Placed};

/// The octets of a column's values and of its null bits, of 0, 1, 8 and 9 rows.
pub fn sizes_of_parts()
    ensures integers { (values_size Integer 0 ≡ 0) × (values_size Integer 1 ≡ 4) × (values_size Integer 8 ≡ 32) × (values_size Integer 9 ≡ 36) }
    ensures decimals { (values_size (Decimal 9 2) 0 ≡ 0) × (values_size (Decimal 9 2) 1 ≡ 8) × (values_size (Decimal 1 0) 8 ≡ 64) × (values_size (Decimal 18 18) 9 ≡ 72) }
    ensures dates { (values_size Date 0 ≡ 0) × (values_size Date 1 ≡ 4) × (values_size Date 8 ≡ 32) × (values_size Date 9 ≡ 36) }
    ensures texts { (values_size (Varchar 10) 0 ≡ 4) × (values_size (Varchar 10) 1 ≡ 8) × (values_size (Varchar 1) 8 ≡ 36) × (values_size (Varchar 1000) 9 ≡ 40) }
    ensures nulls { (nulls_size false 0 ≡ 0) × (nulls_size false 1 ≡ 1) × (nulls_size false 8 ≡ 1) × (nulls_size false 9 ≡ 2) × (nulls_size true 9 ≡ 0) }
    ensures eights { (to_eight 0 ≡ 0) × (to_eight 1 ≡ 8) × (to_eight 8 ≡ 8) × (to_eight 9 ≡ 16) }
{}

/// Two tables one behind the other, the first with three rows and a column of each type, the second without rows: where the parts
/// of each column stand. All of it ends at octet 176, in one page.
pub fn columns_of_tables()
    ensures map { map_of (items ∷ no_shops ∷ []) ≡
        (record { values = 64; octets = 80; size = 0; nulls = 80; rows = 3 } ∷ record { values = 80; octets = 104; size = 0; nulls = 104; rows = 3 }
        ∷ record { values = 112; octets = 128; size = 0; nulls = 128; rows = 3 } ∷ record { values = 136; octets = 152; size = 6; nulls = 160; rows = 3 } ∷ [])
        ∷ (record { values = 168; octets = 176; size = 0; nulls = 176; rows = 0 } ∷ record { values = 176; octets = 176; size = 0; nulls = 176; rows = 0 } ∷ []) ∷ [] }
    ensures ends { (tables_end 64 (items ∷ []) ≡ 168) × (tables_end 64 (items ∷ no_shops ∷ []) ≡ 176) × (tables_end 64 [] ≡ 64) }
    ensures pages { (column_pages (items ∷ no_shops ∷ []) ≡ 1) × (column_pages [] ≡ 1) }
    ensures areas { areas_of (Varchar 10) false (record { values = 136; octets = 152; size = 6; nulls = 160; rows = 3 }) ≡
        record { start = 136; size = 16 } ∷ record { start = 152; size = 6 } ∷ record { start = 160; size = 1 } ∷ [] }
{}

/// A column of 0, 1, 8 and 9 rows that may be null: where its null bits stand, and where it ends.
pub fn columns_of_few_rows()
    ensures none { (map_of (nulls_only 0 ∷ []) ≡ (record { values = 64; octets = 64; size = 0; nulls = 64; rows = 0 } ∷ []) ∷ []) × (tables_end 64 (nulls_only 0 ∷ []) ≡ 64) }
    ensures one { (map_of (nulls_only 1 ∷ []) ≡ (record { values = 64; octets = 72; size = 0; nulls = 72; rows = 1 } ∷ []) ∷ []) × (tables_end 64 (nulls_only 1 ∷ []) ≡ 80) }
    ensures eight { (map_of (nulls_only 8 ∷ []) ≡ (record { values = 64; octets = 96; size = 0; nulls = 96; rows = 8 } ∷ []) ∷ []) × (tables_end 64 (nulls_only 8 ∷ []) ≡ 104) }
    ensures nine { (map_of (nulls_only 9 ∷ []) ≡ (record { values = 64; octets = 104; size = 0; nulls = 104; rows = 9 } ∷ []) ∷ []) × (tables_end 64 (nulls_only 9 ∷ []) ≡ 112) }
{}

/// 64 columns of a million rows, INTEGER NOT NULL each, end at octet 256,000,064, in 3,907 pages; one column of 16,368 rows fills a
/// page, and one row more takes a second.
pub fn pages_of_columns()
    ensures million { (table : Contents) → AreLoaded table → table.columns ≡ replicate 64 (record { ty = Integer; not_null = true }) → length table.rows ≡ 1000000
        → (tables_end 64 (table ∷ []) ≡ 256000064) × (column_pages (table ∷ []) ≡ 3907) }
    ensures full { (table : Contents) → AreLoaded table → table.columns ≡ replicate 1 (record { ty = Integer; not_null = true }) → length table.rows ≡ 16368
        → column_pages (table ∷ []) ≡ 1 }
    ensures two { (table : Contents) → AreLoaded table → table.columns ≡ replicate 1 (record { ty = Integer; not_null = true }) → length table.rows ≡ 16369
        → column_pages (table ∷ []) ≡ 2 }
{}

/// An INTEGER takes four octets, the lowest first: -1, 513 and the least one; and the second of two rows is null, with 0 in its
/// place and its bit among the null bits of octet 8.
#[tactic(auto, unfolding(qw_linear::specs::Memory::number_at))]
pub fn integers_of_octets()
    ensures plain { (placed : Placed) (memory : List ℕ) → placed ≡ record { values = 1; octets = 16; size = 0; nulls = 16; rows = 3 }
        → memory ≡ 9 ∷ 255 ∷ 255 ∷ 255 ∷ 255 ∷ 1 ∷ 2 ∷ 0 ∷ 0 ∷ 0 ∷ 0 ∷ 0 ∷ 128 ∷ 0 ∷ 0 ∷ 0 ∷ []
        → (value_at memory Integer true placed 0 ≡ val.Num (negsuc 0)) × (value_at memory Integer true placed 1 ≡ val.Num (pos 513))
        × (value_at memory Integer true placed 2 ≡ val.Num (negsuc 2147483647)) }
    ensures null { (placed : Placed) (memory : List ℕ) → placed ≡ record { values = 0; octets = 8; size = 0; nulls = 8; rows = 2 }
        → memory ≡ 5 ∷ 0 ∷ 0 ∷ 0 ∷ 0 ∷ 0 ∷ 0 ∷ 0 ∷ 2 ∷ []
        → (value_at memory Integer false placed 0 ≡ val.Num (pos 5)) × (value_at memory Integer false placed 1 ≡ val.Null)
        × (stored_at memory Integer placed 1 ≡ val.Num (pos 0)) }
{}

/// A DECIMAL takes eight octets: 10.00 and -0.50 at the scale 2. A DATE takes four: 1998-08-15.
#[tactic(auto, unfolding(qw_linear::specs::Memory::number_at))]
pub fn decimals_and_dates_of_octets()
    ensures decimals { (placed : Placed) (memory : List ℕ) → placed ≡ record { values = 0; octets = 16; size = 0; nulls = 16; rows = 2 }
        → memory ≡ 232 ∷ 3 ∷ 0 ∷ 0 ∷ 0 ∷ 0 ∷ 0 ∷ 0 ∷ 206 ∷ 255 ∷ 255 ∷ 255 ∷ 255 ∷ 255 ∷ 255 ∷ 255 ∷ []
        → (value_at memory (Decimal 9 2) true placed 0 ≡ val.Num (pos 1000)) × (value_at memory (Decimal 9 2) true placed 1 ≡ val.Num (negsuc 49)) }
    ensures dates { (placed : Placed) (memory : List ℕ) → placed ≡ record { values = 0; octets = 8; size = 0; nulls = 8; rows = 1 }
        → memory ≡ 15 ∷ 226 ∷ 48 ∷ 1 ∷ 0 ∷ 0 ∷ 0 ∷ 0 ∷ []
        → value_at memory Date true placed 0 ≡ val.Date (pos 19980815) }
{}

/// The null bit of the twelfth row is bit 3 of the second octet: 8 there makes it alone null.
#[tactic(auto, unfolding(qw_linear::specs::Memory::number_at))]
pub fn null_bits_of_octets()
    ensures { (null_bit (0 ∷ 0 ∷ 8 ∷ []) 1 11 ≡ 1) × (null_bit (0 ∷ 0 ∷ 8 ∷ []) 1 10 ≡ 0) × (null_bit (0 ∷ 0 ∷ 8 ∷ []) 1 12 ≡ 0)
        × (null_bit (0 ∷ 0 ∷ 8 ∷ []) 1 3 ≡ 0) × (null_bit (0 ∷ 1 ∷ 128 ∷ []) 1 0 ≡ 1) × (null_bit (0 ∷ 1 ∷ 128 ∷ []) 1 15 ≡ 1) }
{}

/// Two texts, of three octets and of none, with the offsets 0, 3 and 3.
#[tactic(auto, unfolding(qw_linear::specs::Memory::number_at))]
pub fn texts_of_octets()
    ensures { (placed : Placed) (memory : List ℕ) → placed ≡ record { values = 0; octets = 16; size = 3; nulls = 24; rows = 2 }
        → memory ≡ 0 ∷ 0 ∷ 0 ∷ 0 ∷ 3 ∷ 0 ∷ 0 ∷ 0 ∷ 3 ∷ 0 ∷ 0 ∷ 0 ∷ 0 ∷ 0 ∷ 0 ∷ 0 ∷ 112 ∷ 101 ∷ 110 ∷ 0 ∷ 0 ∷ 0 ∷ 0 ∷ 0 ∷ []
        → (value_at memory (Varchar 10) true placed 0 ≡ val.Text (112 ∷ 101 ∷ 110 ∷ [])) × (value_at memory (Varchar 10) true placed 1 ≡ val.Text [])
        × (text_offset memory placed 2 ≡ 3) }
{}

/// A memory holds a column of texts where the values, all offsets and the null bits are the column's, and its parts lie in the
/// memory. Where the last text would end an octet later, where another row is null, where a bit is 1 that no row has, or where the null bits lie behind the
/// memory, it doesn't.
pub fn a_column_of_texts()
    ensures held { HoldsColumn (label_octets 3 2) (Varchar 10) false labels label_values }
    ensures last { HoldsColumn (label_octets 4 2) (Varchar 10) false labels label_values → ⊥ }
    ensures null { HoldsColumn (label_octets 3 4) (Varchar 10) false labels label_values → ⊥ }
    ensures spare { HoldsColumn (label_octets 3 10) (Varchar 10) false labels label_values → ⊥ }
    ensures behind { HoldsColumn (take 24 (label_octets 3 2)) (Varchar 10) false labels label_values → ⊥ }
    ensures size { HoldsColumn (label_octets 3 2) (Varchar 10) false (record labels { size = 4 }) label_values → ⊥ }
    ensures rows { HoldsColumn (label_octets 3 2) (Varchar 10) false labels (val.Text (112 ∷ 101 ∷ 110 ∷ []) ∷ val.Null ∷ []) → ⊥ }
{}

/// In a null's place stands 0.
pub fn a_column_with_a_null()
    ensures held { HoldsColumn (number_octets 0) Integer false numbers (val.Num (pos 5) ∷ val.Null ∷ []) }
    ensures blank { HoldsColumn (number_octets 7) Integer false numbers (val.Num (pos 5) ∷ val.Null ∷ []) → ⊥ }
{}
