//! Worked cases of the definitions, with numbers, stated as contracts. No function here computes anything.

ghost use Rattle.std.specs.Prelude.{◌≡◌, pos, negsuc, [], ◌∷◌, codes};
ghost use Rattle.qw_types.specs.declared.value.Val.TheVariants.{Null, Num, Date, Text};
ghost use Rattle.qw_layout.specs.Hash.{basis, fold_octets, key_hash, slot, value_octets};
ghost use Rattle.qw_layout.specs.Row.{aggregate_offsets, cell_offset, column_offsets, entry_size};

/// FNV-1a has its published values: of "a" 0xAF63DC4C8601EC8C, of "foobar" 0x85944171F73967E8.
pub fn published_folds()
    ensures none { fold_octets basis [] ≡ 14695981039346656037 }
    ensures one { fold_octets basis (codes "a") ≡ 12638187200555641996 }
    ensures six { fold_octets basis (codes "foobar") ≡ 9625390261332436968 }
{}

/// The octets of 1, -2, 1998-09-02, 'pen', '' and null.
pub fn octets_of_values()
    ensures number { value_octets (Num (pos 1)) ≡ 0 ∷ 1 ∷ 0 ∷ 0 ∷ 0 ∷ 0 ∷ 0 ∷ 0 ∷ 0 ∷ [] }
    ensures negative { value_octets (Num (negsuc 1)) ≡ 0 ∷ 254 ∷ 255 ∷ 255 ∷ 255 ∷ 255 ∷ 255 ∷ 255 ∷ 255 ∷ [] }
    ensures date { value_octets (Date (pos 19980902)) ≡ 0 ∷ 102 ∷ 226 ∷ 48 ∷ 1 ∷ 0 ∷ 0 ∷ 0 ∷ 0 ∷ [] }
    ensures text { (value_octets (Text (codes "pen")) ≡ 0 ∷ 112 ∷ 101 ∷ 110 ∷ []) × (value_octets (Text []) ≡ 0 ∷ []) }
    ensures null { value_octets Null ≡ 1 ∷ [] }
{}

/// The hashes of the keys (1), (-1), (1998-09-02), ('pen'), ('') and (null).
pub fn hashes_of_fields()
    ensures number { key_hash (Num (pos 1) ∷ []) ≡ 11548815004974112758 }
    ensures negative { key_hash (Num (negsuc 0) ∷ []) ≡ 7147630405201513603 }
    ensures date { key_hash (Date (pos 19980902) ∷ []) ≡ 3455276596321382192 }
    ensures text { key_hash (Text (codes "pen") ∷ []) ≡ 944068761417339098 }
    ensures empty { key_hash (Text [] ∷ []) ≡ 3136886941265041739 }
    ensures null { key_hash (Null ∷ []) ≡ 632908417880113564 }
{}

/// The hashes of the keys (1, 'pen'), ('pen', 1), (1, null), (null, 1), ('a', 'b') and ('ab', ''), and that of no field.
pub fn hashes_of_pairs()
    ensures pair { key_hash (Num (pos 1) ∷ Text (codes "pen") ∷ []) ≡ 6163652382140074817 }
    ensures turned { key_hash (Text (codes "pen") ∷ Num (pos 1) ∷ []) ≡ 1852568090669092067 }
    ensures nulls { (key_hash (Num (pos 1) ∷ Null ∷ []) ≡ 12101806363537532593) × (key_hash (Null ∷ Num (pos 1) ∷ []) ≡ 5403657468164626249) }
    ensures texts { (key_hash (Text (codes "a") ∷ Text (codes "b") ∷ []) ≡ 11938495230707893556) × (key_hash (Text (codes "ab") ∷ Text [] ∷ []) ≡ 1923745453035212248) }
    ensures no_field { key_hash [] ≡ 17923080537854234121 }
{}

/// The slots of the keys (1), ('pen'), (null), (1, 'pen') and of that without fields.
pub fn slots_of_keys()
    ensures number { slot (Num (pos 1) ∷ []) ≡ 641 }
    ensures text { slot (Text (codes "pen") ∷ []) ≡ 52 }
    ensures null { slot (Null ∷ []) ≡ 35 }
    ensures pair { slot (Num (pos 1) ∷ Text (codes "pen") ∷ []) ≡ 342 }
    ensures no_field { slot [] ≡ 994 }
{}

/// An entry with a key of two fields, three columns and two aggregates: the key stands at 24 and 40, the columns from 56 on, the
/// aggregates from 104 on, and it has 168 octets. One of a key of one field alone has 40.
pub fn parts_of_an_entry()
    ensures key { (cell_offset 0 ≡ 24) × (cell_offset 1 ≡ 40) }
    ensures columns { column_offsets 2 3 ≡ 56 ∷ 72 ∷ 88 ∷ [] }
    ensures aggregates { aggregate_offsets 5 2 ≡ 104 ∷ 136 ∷ [] }
    ensures size { (entry_size 2 3 2 ≡ 168) × (entry_size 1 0 0 ≡ 40) }
{}
