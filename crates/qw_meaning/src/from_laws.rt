//! FROM of several entries: what holds of its rows, and worked cases. No function here computes anything.

ghost use Rattle.std.specs.Prelude.{◌≡◌, ◌≤◌, ◌<◌, ◌+◌, ◌*◌, ℕ, pos, true, false, [], ◌∷◌, length, List, slice_get};
ghost use Rattle.qw_types.specs.declared.code.Code.TheVariants.{DivZero};
ghost use Rattle.qw_types.specs.declared.value.Ty.TheVariants.{Integer};
ghost use Rattle.qw_types.specs.declared.value.Val.{Val};
ghost use Rattle.qw_types.specs.declared.value.Val.TheVariants.{Null, Num, Date};
ghost use Rattle.qw_scalar.specs.declared.comparison.Comparison.TheVariants.{Equal, Greater};
ghost use Rattle.qw_scalar.specs.Evaluation.{cell_of};
ghost use Rattle.qw_scalar.specs.declared.expression.Predicate.TheVariants.{IsNull};
ghost use Rattle.qw_scalar.specs.Expression.{column, comparison, number, predicate};
ghost use Rattle.qw_meaning.specs.From.{at_places, entry_flow, from_sources, joined, merged};
ghost use Rattle.qw_meaning.specs.Outcome.{Raises, Rows, outcome};
ghost use Rattle.qw_meaning.specs.Select.{alone};
ghost use Rattle.qw_meaning.specs.WorkedQueries.{a_joined_b, a_left_joined_b, four_tables, is_next, items_entry, one_column, quotient_above_six};

/// Of two rows at the places of two entries, each column's value stands at its number, and null where neither has one; a row stands by
/// itself before others are joined to it.
pub fn columns_stand()
    ensures first { (row other : List Val) (entry later i : ℕ) → entry < later → length row ≤ 64 → i < length row →
        cell_of (slice_get (merged (at_places entry row) (at_places later other)) (64 * entry + i)) ≡ cell_of (slice_get row i) }
    ensures second { (row other : List Val) (entry later i : ℕ) → entry < later → length row ≤ 64 →
        cell_of (slice_get (merged (at_places entry row) (at_places later other)) (64 * later + i)) ≡ cell_of (slice_get other i) }
    ensures alone { (row : List Val) (i : ℕ) → cell_of (slice_get (at_places 0 row) i) ≡ cell_of (slice_get row i) }
{}

/// The product of no table is one row without a column, that of one table the table; of two each row of the one with each of the other.
pub fn products()
    ensures none { (tables : List (List (List Val))) → from_sources [] tables ≡ record { rows = [] ∷ []; codes = [] } }
    ensures one { from_sources (alone (one_column 0) ∷ []) four_tables ≡ record { rows = (Num (pos 1) ∷ []) ∷ (Num (pos 1) ∷ []) ∷ (Null ∷ []) ∷ []; codes = [] } }
    ensures two { outcome (record { sources = alone (one_column 0) ∷ alone items_entry ∷ []; conjuncts = []; items = column 0 Integer ∷ column 64 Integer ∷ [] }) four_tables
        ≡ Rows ((Num (pos 1) ∷ Num (pos 1) ∷ []) ∷ (Num (pos 1) ∷ Num (pos 2) ∷ []) ∷ (Num (pos 1) ∷ Num (pos 3) ∷ [])
        ∷ (Num (pos 1) ∷ Num (pos 1) ∷ []) ∷ (Num (pos 1) ∷ Num (pos 2) ∷ []) ∷ (Num (pos 1) ∷ Num (pos 3) ∷ [])
        ∷ (Null ∷ Num (pos 1) ∷ []) ∷ (Null ∷ Num (pos 2) ∷ []) ∷ (Null ∷ Num (pos 3) ∷ []) ∷ []) }
    ensures beside_none { outcome (record { sources = alone items_entry ∷ alone (one_column 2) ∷ []; conjuncts = []; items = column 64 Integer ∷ [] }) four_tables ≡ Rows [] }
{}

/// A and B have the rows 1, 1 and null: `SELECT A.K FROM A JOIN B ON A.K = B.K` gives 1 four times. `ITEM A, ITEM B WHERE A.ID = B.ID + 1 AND
/// A.ID > 2` gives 3 and 2.
pub fn worked_joins()
    ensures duplicates { outcome (record { sources = a_joined_b 0 ∷ []; conjuncts = []; items = column 0 Integer ∷ [] }) four_tables
        ≡ Rows ((Num (pos 1) ∷ []) ∷ (Num (pos 1) ∷ []) ∷ (Num (pos 1) ∷ []) ∷ (Num (pos 1) ∷ []) ∷ []) }
    ensures itself { outcome (record {
      sources = alone items_entry ∷ alone items_entry ∷ [];
      conjuncts = is_next 0 64 ∷ comparison Greater (column 0 Integer) (number (pos 2) 0) ∷ [];
      items = column 0 Integer ∷ column 64 Integer ∷ [];
    }) four_tables ≡ Rows ((Num (pos 3) ∷ Num (pos 2) ∷ []) ∷ []) }
{}

/// `SELECT A.K, B.K FROM A LEFT JOIN B ON A.K = B.K` gives 1 beside 1 four times, and null, which equals nothing, once beside null. Where B's rows
/// are asked to be 2 or more, or are those of NOTHING, each row of A comes once. What WHERE asks is asked of rows that were completed.
pub fn worked_left_joins()
    ensures completed { outcome (record { sources = a_left_joined_b 1 (comparison Equal (column 0 Integer) (column 64 Integer)) ∷ []; conjuncts = []; items = column 0 Integer ∷ column 64 Integer ∷ [] }) four_tables
        ≡ Rows ((Num (pos 1) ∷ Num (pos 1) ∷ []) ∷ (Num (pos 1) ∷ Num (pos 1) ∷ []) ∷ (Num (pos 1) ∷ Num (pos 1) ∷ []) ∷ (Num (pos 1) ∷ Num (pos 1) ∷ []) ∷ (Null ∷ Null ∷ []) ∷ []) }
    ensures no_partner { outcome (record { sources = a_left_joined_b 1 (comparison Greater (column 64 Integer) (number (pos 1) 0)) ∷ []; conjuncts = []; items = column 0 Integer ∷ column 64 Integer ∷ [] }) four_tables
        ≡ Rows ((Num (pos 1) ∷ Null ∷ []) ∷ (Num (pos 1) ∷ Null ∷ []) ∷ (Null ∷ Null ∷ []) ∷ []) }
    ensures no_row { outcome (record { sources = a_left_joined_b 2 (comparison Equal (column 0 Integer) (column 64 Integer)) ∷ []; conjuncts = []; items = column 0 Integer ∷ column 64 Integer ∷ [] }) four_tables
        ≡ Rows ((Num (pos 1) ∷ Null ∷ []) ∷ (Num (pos 1) ∷ Null ∷ []) ∷ (Null ∷ Null ∷ []) ∷ []) }
    ensures behind { outcome (record { sources = a_left_joined_b 1 (comparison Equal (column 0 Integer) (column 64 Integer)) ∷ []; conjuncts = predicate IsNull (column 64 Integer) ∷ []; items = column 0 Integer ∷ [] }) four_tables
        ≡ Rows ((Null ∷ []) ∷ []) }
{}

/// A pair that raises has its exception come, and its row isn't completed: of A's three rows the two that are 1 raise at each of B's three, also
/// where another conjunct would have left the row alone; the third, null, has no exception. Of no pair there is none.
pub fn exceptions_of_left_joins()
    ensures raised { outcome (record { sources = a_left_joined_b 1 (quotient_above_six 0) ∷ []; conjuncts = []; items = column 0 Integer ∷ [] }) four_tables
        ≡ Raises (DivZero ∷ DivZero ∷ DivZero ∷ DivZero ∷ DivZero ∷ DivZero ∷ []) }
    ensures not_completed { joined true (quotient_above_six 0 ∷ []) (record { rows = (Num (pos 1) ∷ []) ∷ (Null ∷ []) ∷ []; codes = [] }) (entry_flow four_tables 1 1)
        ≡ record { rows = (Null ∷ []) ∷ []; codes = DivZero ∷ DivZero ∷ DivZero ∷ [] } }
    ensures no_pair { outcome (record { sources = a_left_joined_b 2 (quotient_above_six 0) ∷ []; conjuncts = []; items = column 0 Integer ∷ [] }) four_tables
        ≡ Rows ((Num (pos 1) ∷ []) ∷ (Num (pos 1) ∷ []) ∷ (Null ∷ []) ∷ []) }
{}

/// An exception of an ON comes, one of each pair that raises, where another source has no row too; one of WHERE doesn't over an empty
/// product, `ITEM, NOTHING WHERE 10 / (ID - 1) > 6`.
pub fn exceptions_of_from()
    ensures of_on { outcome (record {
      sources = alone (one_column 2) ∷ record { first = one_column 0; joins = record { entry = one_column 1; outer = false; on = quotient_above_six 128 ∷ [] } ∷ [] } ∷ [];
      conjuncts = [];
      items = column 0 Integer ∷ [];
    }) four_tables ≡ Raises (DivZero ∷ DivZero ∷ DivZero ∷ DivZero ∷ DivZero ∷ DivZero ∷ []) }
    ensures of_where { outcome (record { sources = alone items_entry ∷ alone (one_column 2) ∷ []; conjuncts = quotient_above_six 0 ∷ []; items = column 0 Integer ∷ [] }) four_tables ≡ Rows [] }
    ensures of_where_of_pairs { outcome (record { sources = alone items_entry ∷ alone (one_column 0) ∷ []; conjuncts = quotient_above_six 0 ∷ []; items = column 0 Integer ∷ [] }) four_tables
        ≡ Raises (DivZero ∷ DivZero ∷ DivZero ∷ []) }
{}
