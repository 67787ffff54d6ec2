//! Worked cases of whole specifications, with numbers, stated as contracts. No function here computes anything.

ghost use Rattle.std.specs.Prelude.{◌≡◌, pos, negsuc, true, false, [], ◌∷◌, Ok};
ghost use Rattle.qw_types.specs.declared.value.Ty.TheVariants.{Integer};
ghost use Rattle.qw_types.specs.declared.value.Val.TheVariants.{Null, Num};
ghost use Rattle.qw_scalar.specs.declared.comparison.Comparison.TheVariants.{Equal, NotEqual, Less, LessOrEqual, Greater, GreaterOrEqual};
ghost use Rattle.qw_scalar.specs.Conjuncts.{passes};
ghost use Rattle.qw_scalar.specs.Evaluation.{at_row};
ghost use Rattle.qw_scalar.specs.Expression.{column};
ghost use Rattle.qw_meaning.specs.Outcome.{Rows, outcome};
ghost use Rattle.qw_meaning.specs.WorkedQueries.{where_compared, where_second_is_five};

/// `SELECT A FROM T WHERE A > 5` over the rows (4), (1), (7), (null): the first two and the last don't pass, and the result is (7).
pub fn greater_than_five()
    ensures first { passes (where_compared Greater (pos 5)).conjuncts (at_row (Num (pos 4) ∷ [])) ≡ Ok false }
    ensures second { passes (where_compared Greater (pos 5)).conjuncts (at_row (Num (pos 1) ∷ [])) ≡ Ok false }
    ensures third { passes (where_compared Greater (pos 5)).conjuncts (at_row (Num (pos 7) ∷ [])) ≡ Ok true }
    ensures null { passes (where_compared Greater (pos 5)).conjuncts (at_row (Null ∷ [])) ≡ Ok false }
    ensures rows { outcome (where_compared Greater (pos 5)) (((Num (pos 4) ∷ []) ∷ (Num (pos 1) ∷ []) ∷ (Num (pos 7) ∷ []) ∷ (Null ∷ []) ∷ []) ∷ [])
        ≡ Rows ((Num (pos 7) ∷ []) ∷ []) }
{}

/// The six comparisons with -1 over the rows (-2), (-1), (0), one below, one at and one above it.
pub fn comparisons_at_their_edges()
    ensures equal { outcome (where_compared Equal (negsuc 0)) (((Num (negsuc 1) ∷ []) ∷ (Num (negsuc 0) ∷ []) ∷ (Num (pos 0) ∷ []) ∷ []) ∷ [])
        ≡ Rows ((Num (negsuc 0) ∷ []) ∷ []) }
    ensures not_equal { outcome (where_compared NotEqual (negsuc 0)) (((Num (negsuc 1) ∷ []) ∷ (Num (negsuc 0) ∷ []) ∷ (Num (pos 0) ∷ []) ∷ []) ∷ [])
        ≡ Rows ((Num (negsuc 1) ∷ []) ∷ (Num (pos 0) ∷ []) ∷ []) }
    ensures less { outcome (where_compared Less (negsuc 0)) (((Num (negsuc 1) ∷ []) ∷ (Num (negsuc 0) ∷ []) ∷ (Num (pos 0) ∷ []) ∷ []) ∷ [])
        ≡ Rows ((Num (negsuc 1) ∷ []) ∷ []) }
    ensures less_or_equal { outcome (where_compared LessOrEqual (negsuc 0)) (((Num (negsuc 1) ∷ []) ∷ (Num (negsuc 0) ∷ []) ∷ (Num (pos 0) ∷ []) ∷ []) ∷ [])
        ≡ Rows ((Num (negsuc 1) ∷ []) ∷ (Num (negsuc 0) ∷ []) ∷ []) }
    ensures greater { outcome (where_compared Greater (negsuc 0)) (((Num (negsuc 1) ∷ []) ∷ (Num (negsuc 0) ∷ []) ∷ (Num (pos 0) ∷ []) ∷ []) ∷ [])
        ≡ Rows ((Num (pos 0) ∷ []) ∷ []) }
    ensures greater_or_equal { outcome (where_compared GreaterOrEqual (negsuc 0)) (((Num (negsuc 1) ∷ []) ∷ (Num (negsuc 0) ∷ []) ∷ (Num (pos 0) ∷ []) ∷ []) ∷ [])
        ≡ Rows ((Num (negsuc 0) ∷ []) ∷ (Num (pos 0) ∷ []) ∷ []) }
{}

/// `SELECT C, A FROM T WHERE B = 5` over the rows (1, 5, 9), (2, 6, 8), (3, 5, 9): the columns come in the order of the select
/// list, the rows in that of the table, and a row that comes twice comes twice. A row without a B doesn't pass.
pub fn columns_in_their_order()
    ensures rows { outcome (where_second_is_five (column 2 Integer ∷ column 0 Integer ∷ []))
        (((Num (pos 1) ∷ Num (pos 5) ∷ Num (pos 9) ∷ []) ∷ (Num (pos 2) ∷ Num (pos 6) ∷ Num (pos 8) ∷ []) ∷ (Num (pos 3) ∷ Num (pos 5) ∷ Num (pos 9) ∷ []) ∷ []) ∷ [])
        ≡ Rows ((Num (pos 9) ∷ Num (pos 1) ∷ []) ∷ (Num (pos 9) ∷ Num (pos 3) ∷ []) ∷ []) }
    ensures duplicates { outcome (where_second_is_five (column 2 Integer ∷ []))
        (((Num (pos 1) ∷ Num (pos 5) ∷ Num (pos 9) ∷ []) ∷ (Num (pos 2) ∷ Num (pos 6) ∷ Num (pos 8) ∷ []) ∷ (Num (pos 3) ∷ Num (pos 5) ∷ Num (pos 9) ∷ []) ∷ []) ∷ [])
        ≡ Rows ((Num (pos 9) ∷ []) ∷ (Num (pos 9) ∷ []) ∷ []) }
    ensures no_column { passes (where_second_is_five []).conjuncts (at_row (Num (pos 5) ∷ [])) ≡ Ok false }
{}
