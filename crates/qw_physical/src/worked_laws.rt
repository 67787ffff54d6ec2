//! Worked cases of pipelines. No function here computes anything.

ghost use Rattle.std.specs.Prelude.{◌≡◌, pos, [], ◌∷◌};
ghost use Rattle.qw_types.specs.declared.code.Code.TheVariants.{DivZero};
ghost use Rattle.qw_types.specs.declared.value.Ty.TheVariants.{Integer};
ghost use Rattle.qw_types.specs.declared.value.Val.TheVariants.{Null, Num};
ghost use Rattle.qw_scalar.specs.declared.comparison.Comparison.TheVariants.{Greater};
ghost use Rattle.qw_scalar.specs.Expression.{column, comparison, number};
ghost use Rattle.qw_meaning.specs.WorkedQueries.{quotient_above_six};
ghost use Rattle.qw_physical.specs.Courses.{pipeline_cost, pipeline_fed};
ghost use Rattle.qw_physical.specs.WorkedCourses.{builds_b, entries_of_b, left_joins_b, looks_up_b, two_tables, with_null};

/// Of B with the rows (1, 10), (null, 20) and (1, 30), each entry has the key and the column that is kept, and the row whose key is null is left
/// out. The key 1 of A finds both entries, in the order in which they stand, and the key 2 finds none.
pub fn entries_of_a_join()
    ensures entries { (pipeline_fed two_tables [] builds_b).rows ≡ (Num (pos 1) ∷ Num (pos 10) ∷ []) ∷ (Num (pos 1) ∷ Num (pos 30) ∷ []) ∷ [] }
    ensures rows { (pipeline_fed two_tables (((Num (pos 1) ∷ Num (pos 30) ∷ []) ∷ (Num (pos 1) ∷ Num (pos 10) ∷ []) ∷ []) ∷ []) looks_up_b).rows ≡ (Num (pos 30) ∷ []) ∷ (Num (pos 10) ∷ []) ∷ [] }
    ensures none_raised { (pipeline_fed two_tables [] builds_b).codes ≡ [] }
{}

/// Of a LEFT JOIN the key 1 finds both entries, and the keys 2 and null, which equals nothing, go on by themselves, null at the column that entries
/// keep (ISO/IEC 9075:1992, 7.5). So does each row where no pair passes the other conjunct of ON; but where pairs raise, their row doesn't. A row takes
/// one unit, one for each entry of its key's slot, and one more.
pub fn rows_of_a_left_join()
    ensures rows { (pipeline_fed with_null entries_of_b (left_joins_b [])).rows
        ≡ (Num (pos 1) ∷ Num (pos 10) ∷ []) ∷ (Num (pos 1) ∷ Num (pos 30) ∷ []) ∷ (Num (pos 2) ∷ Null ∷ []) ∷ (Null ∷ Null ∷ []) ∷ [] }
    ensures passed { (pipeline_fed with_null entries_of_b (left_joins_b (comparison Greater (column 65 Integer) (number (pos 20) 0) ∷ []))).rows
        ≡ (Num (pos 1) ∷ Num (pos 30) ∷ []) ∷ (Num (pos 2) ∷ Null ∷ []) ∷ (Null ∷ Null ∷ []) ∷ [] }
    ensures failed { (pipeline_fed with_null entries_of_b (left_joins_b (comparison Greater (column 65 Integer) (number (pos 30) 0) ∷ []))).rows
        ≡ (Num (pos 1) ∷ Null ∷ []) ∷ (Num (pos 2) ∷ Null ∷ []) ∷ (Null ∷ Null ∷ []) ∷ [] }
    ensures raised_rows { (pipeline_fed with_null entries_of_b (left_joins_b (quotient_above_six 0 ∷ []))).rows ≡ (Num (pos 2) ∷ Null ∷ []) ∷ (Null ∷ Null ∷ []) ∷ [] }
    ensures raised_codes { (pipeline_fed with_null entries_of_b (left_joins_b (quotient_above_six 0 ∷ []))).codes ≡ DivZero ∷ DivZero ∷ [] }
    ensures cost { pipeline_cost with_null entries_of_b (left_joins_b []) ≡ 8 }
{}
