//! Worked cases of the definitions, stated as contracts. No function here computes anything.

ghost use Rattle.std.specs.Prelude.{◌≡◌, pos, negsuc, true, false, None, Some, [], ◌∷◌};
ghost use Rattle.qw_types.specs.declared.kind.Kind.TheVariants as kind;
ghost use Rattle.qw_types.specs.declared.value.Val.TheVariants as val;
ghost use Rattle.qw_grouped.specs.declared.set_function.SetFunctionKind.TheVariants.{Avg, Count, CountRows, Max, Min, Sum};
ghost use Rattle.qw_low.specs.State.{Cells, LowState, Number, Own};
ghost use Rattle.qw_table.specs.Entries.{Stands};
ghost use Rattle.qw_group.specs.Areas.{HasAggregate, null_of};
ghost use Rattle.qw_group.specs.Groups.{AreChosenWithin, group_size};
ghost use Rattle.qw_group.specs.Sums.{average_most};
ghost use Rattle.qw_group.specs.Values.{may_be_null, read_units};
ghost use Rattle.qw_group.specs.Walks.{slots_down};
ghost use Rattle.qw_group.specs.Wides.{IsWide, bits_128};

/// -1 is two words of ones, 2^64 the high word 1, and -2^64 the high word of ones alone.
pub fn numbers_of_two_words()
    ensures bits { bits_128 (negsuc 0) ≡ 340282366920938463463374607431768211455 }
    ensures below { IsWide 18446744073709551615 18446744073709551615 (negsuc 0) }
    ensures above { IsWide 0 1 (pos 18446744073709551616) }
    ensures far_below { IsWide 0 18446744073709551615 (negsuc 18446744073709551615) }
{}

/// Of 3, null and -5 COUNT(*) has taken 3 values, COUNT 2; SUM has -2, in two words, and the count 2; MIN has -5 and MAX 3. Of null alone nothing is known
/// but that no value was taken.
pub fn areas_of_set_functions()
    ensures rows { (s : LowState) (c : Cells) → c (Own 1) 56 8 ≡ Some (Number 3) → HasAggregate (Stands s) CountRows (kind.Number 0) (val.Num (pos 3) ∷ val.Null ∷ val.Num (negsuc 4) ∷ []) c 1 40 }
    ensures count { (s : LowState) (c : Cells) → c (Own 1) 56 8 ≡ Some (Number 2) → HasAggregate (Stands s) Count (kind.Number 0) (val.Num (pos 3) ∷ val.Null ∷ val.Num (negsuc 4) ∷ []) c 1 40 }
    ensures sum { (s : LowState) (c : Cells) → c (Own 1) 56 8 ≡ Some (Number 2) → c (Own 1) 40 8 ≡ Some (Number 18446744073709551614) → c (Own 1) 48 8 ≡ Some (Number 18446744073709551615) →
        HasAggregate (Stands s) Sum (kind.Number 0) (val.Num (pos 3) ∷ val.Null ∷ val.Num (negsuc 4) ∷ []) c 1 40 }
    ensures least { (s : LowState) (c : Cells) → c (Own 1) 56 8 ≡ Some (Number 2) → c (Own 1) 40 8 ≡ Some (Number 18446744073709551611) → HasAggregate (Stands s) Min (kind.Number 0) (val.Num (pos 3) ∷ val.Null ∷ val.Num (negsuc 4) ∷ []) c 1 40 }
    ensures greatest { (s : LowState) (c : Cells) → c (Own 1) 56 8 ≡ Some (Number 2) → c (Own 1) 40 8 ≡ Some (Number 3) → HasAggregate (Stands s) Max (kind.Number 0) (val.Num (pos 3) ∷ val.Null ∷ val.Num (negsuc 4) ∷ []) c 1 40 }
    ensures none { (s : LowState) (c : Cells) → c (Own 1) 56 8 ≡ Some (Number 0) → HasAggregate (Stands s) Min kind.Text (val.Null ∷ []) c 1 40 }
{}

/// An entry with a key of one field and two set functions has 104 octets. A count is never null; COUNT(*) looks at no null word. Of the text 'ink' MAX
/// compares three octets at most, COUNT none. An average takes 16 turns, a sum none: by 2 at most 62 instructions where the sum is -7 or 2^64 - 1, and
/// 492 where it is -2^64. A walk meets slot 2 before 1 before 0.
pub fn entries_and_walks()
    ensures size { group_size (record { cell = record { value = 10; length = 11; null = None }; kind = kind.Number 0 } ∷ [])
        (record { function = Sum; argument = record { cell = record { value = 12; length = 11; null = None }; kind = kind.Number 0 } } ∷ record { function = CountRows; argument = record { cell = record { value = 12; length = 11; null = None }; kind = kind.Number 0 } } ∷ []) ≡ 104 }
    ensures nulls { (may_be_null Count ≡ false) × (may_be_null Sum ≡ true) × (null_of CountRows (record { cell = record { value = 12; length = 11; null = Some 13 }; kind = kind.Number 0 }) ≡ None) }
    ensures chosen { AreChosenWithin 1 (Max ∷ []) (val.Num (pos 2) ∷ val.Text (105 ∷ 110 ∷ 107 ∷ []) ∷ []) 3 }
    ensures not_fewer { AreChosenWithin 1 (Max ∷ []) (val.Num (pos 2) ∷ val.Text (105 ∷ 110 ∷ 107 ∷ []) ∷ []) 2 → ⊥ }
    ensures counted { AreChosenWithin 1 (Count ∷ []) (val.Num (pos 2) ∷ val.Text (105 ∷ 110 ∷ 107 ∷ []) ∷ []) 0 }
    ensures turns { (read_units Avg ≡ 16) × (read_units Sum ≡ 0) }
    ensures averages { (average_most (negsuc 6) 2 ≡ 62) × (average_most (pos 18446744073709551615) 2 ≡ 62) × (average_most (negsuc 18446744073709551615) 2 ≡ 492) × (average_most (pos 7) 1000000000000000 ≡ 142) }
    ensures slots { slots_down 3 ≡ 2 ∷ 1 ∷ 0 ∷ [] }
{}
