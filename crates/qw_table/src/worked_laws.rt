//! Worked cases of the definitions, stated as contracts. No function here computes anything.

ghost use Rattle.std.specs.Prelude.{◌≡◌, ◌<◌, pos, true, false, None, Some, [], ◌∷◌};
ghost use Rattle.qw_types.specs.declared.value.Val.TheVariants as val;
ghost use Rattle.qw_low.specs.State.{Own, Address, Number};
ghost use Rattle.qw_feed.specs.Feeds.{nothing, one_row};
ghost use Rattle.qw_table.specs.Entries.{MayBe, cell_from};
ghost use Rattle.qw_table.specs.Joins.{have_values, keyed, where_equal, where_values};
ghost use Rattle.qw_table.specs.Keys.{text_octets};
ghost use Rattle.qw_table.specs.Tables.{in_slot, newest, values_of, with_entry};

/// The head of a chain is the address of its newest entry, and 0 where it has none. An entry that is put into chain 641 stands before those that it
/// had, and no other chain has it.
pub fn chains_of_entries()
    ensures none { newest [] ≡ Number 0 }
    ensures some { newest (record { part = 1; offset = 4096; values = [] } ∷ []) ≡ Address (Own 1) 4096 }
    ensures entered { with_entry (λ j. []) 641 (record { part = 1; offset = 4096; values = val.Num (pos 1) ∷ [] }) 641 ≡ record { part = 1; offset = 4096; values = val.Num (pos 1) ∷ [] } ∷ [] }
    ensures others { with_entry (λ j. []) 641 (record { part = 1; offset = 4096; values = val.Num (pos 1) ∷ [] }) 640 ≡ [] }
    ensures values { values_of (record { part = 1; offset = 4096; values = val.Num (pos 1) ∷ [] } ∷ []) ≡ (val.Num (pos 1) ∷ []) ∷ [] }
{}

/// Of the entries (1, 'a'), (2, 'b') and (1, 'c'), whose key is their first value, slot 641, which is that of the key (1), has the first and the third.
pub fn entries_of_a_slot()
    ensures slot { keyed 1 (val.Num (pos 1) ∷ val.Text (97 ∷ []) ∷ []) ≡ 641 }
    ensures entries { in_slot (λ values. keyed 1 values) 641 ((val.Num (pos 1) ∷ val.Text (97 ∷ []) ∷ []) ∷ (val.Num (pos 2) ∷ val.Text (98 ∷ []) ∷ []) ∷ (val.Num (pos 1) ∷ val.Text (99 ∷ []) ∷ []) ∷ [])
        ≡ (val.Num (pos 1) ∷ val.Text (97 ∷ []) ∷ []) ∷ (val.Num (pos 1) ∷ val.Text (99 ∷ []) ∷ []) ∷ [] }
{}

/// A key (1, null) has a null, (1, 'pen') has none; so of the first row nothing comes. The entry (1, 'a') feeds for the key (1), and not for (2).
pub fn keys_that_meet()
    ensures null { have_values (val.Num (pos 1) ∷ val.Null ∷ []) ≡ false }
    ensures whole { have_values (val.Num (pos 1) ∷ val.Text (112 ∷ 101 ∷ 110 ∷ []) ∷ []) ≡ true }
    ensures nothing { where_values (one_row (val.Num (pos 1) ∷ val.Null ∷ [])) (val.Num (pos 1) ∷ val.Null ∷ []) ≡ nothing }
    ensures equal { where_equal 1 (λ values. one_row values) (val.Num (pos 1) ∷ []) (record { part = 1; offset = 4096; values = val.Num (pos 1) ∷ val.Text (97 ∷ []) ∷ [] }) ≡ one_row (val.Num (pos 1) ∷ val.Text (97 ∷ []) ∷ []) }
    ensures other { where_equal 1 (λ values. one_row values) (val.Num (pos 2) ∷ []) (record { part = 1; offset = 4096; values = val.Num (pos 1) ∷ val.Text (97 ∷ []) ∷ [] }) ≡ nothing }
    ensures null_entry { where_equal 1 (λ values. one_row values) (val.Num (pos 2) ∷ []) (record { part = 1; offset = 4096; values = val.Null ∷ [] }) ≡ nothing }
{}

/// The three locals of a cell that may be null, from 20 on, and of one that may not; which values may be where; and the octets that are counted of the
/// key (1, 'pen', null).
pub fn cells_and_octets()
    ensures nullable { cell_from 20 true ≡ record { value = 21; length = 22; null = Some 20 } }
    ensures sure { cell_from 20 false ≡ record { value = 21; length = 22; null = None } }
    ensures may { MayBe true val.Null × (MayBe false val.Null → ⊥) × MayBe false (val.Num (pos 1)) }
    ensures octets { text_octets (val.Num (pos 1) ∷ val.Text (112 ∷ 101 ∷ 110 ∷ []) ∷ val.Null ∷ []) ≡ 3 }
{}
