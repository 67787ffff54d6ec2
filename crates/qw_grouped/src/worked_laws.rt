//! Worked cases of grouped queries and of DISTINCT, whose outcomes were found by hand. No function here computes anything.

ghost use Rattle.std.specs.Prelude.{◌≡◌, pos, negsuc, neg_ℤ, true, false, [], ◌∷◌};
ghost use Rattle.qw_types.specs.declared.code.Code.TheVariants.{DivZero, OutOfRange};
ghost use Rattle.qw_types.specs.declared.value.Ty.TheVariants.{Decimal};
ghost use Rattle.qw_types.specs.declared.value.Val.TheVariants.{Null, Num, Text};
ghost use Rattle.qw_scalar.specs.declared.comparison.Comparison.TheVariants.{Equal, Greater, Less};
ghost use Rattle.qw_scalar.specs.declared.expression.Operator.TheVariants.{Add};
ghost use Rattle.qw_scalar.specs.Expression.{arithmetic, column, comparison, number, text};
ghost use Rattle.qw_scalar.specs.WorkedRows.{ink, pen};
ghost use Rattle.qw_meaning.specs.Outcome.{Raises, Rows};
ghost use Rattle.qw_meaning.specs.Select.{alone};
ghost use Rattle.qw_meaning.specs.WorkedQueries.{four_tables, items_entry, one_column, ones};
ghost use Rattle.qw_grouped.specs.Groups.{groups, members, once};
ghost use Rattle.qw_grouped.specs.Whole.{plain, whole_outcome};
ghost use Rattle.qw_grouped.specs.WorkedGroups.{all_of, applied_to, by_id, by_label, by_price, count_rows, distinct_of, greatest_twice, id, integer_at, label, label_at, number_at, of_first_column, of_items, of_large_numbers, price, quotient, with_negative};
ghost use Rattle.qw_grouped.specs.declared.set_function.SetFunctionKind.TheVariants.{Avg, Count, Max, Min, Sum};

/// `SELECT COUNT(*), COUNT(PRICE), SUM(PRICE), AVG(PRICE) FROM ITEM` over the prices 10.00, null and 0.50 gives 3, 2, 10.50, 5.250000;
/// `SELECT LABEL, COUNT(*) FROM ITEM GROUP BY LABEL` 2 for 'pen' and 1 for 'ink'; `SELECT ID FROM ITEM GROUP BY ID HAVING COUNT(PRICE) = 0`
/// the 2 alone; and `SELECT LABEL, MAX(ID) + MIN(ID) FROM ITEM WHERE ID > 1 GROUP BY LABEL` 6 for 'pen' and 4 for 'ink'.
pub fn groups_of_items()
    ensures whole_table { whole_outcome (all_of (of_items [] [] (count_rows ∷ applied_to Count price ∷ applied_to Sum price ∷ applied_to Avg price ∷ []) []
        (number_at 0 0 ∷ number_at 0 1 ∷ number_at 2 2 ∷ number_at 6 3 ∷ []))) four_tables
        ≡ Rows ((Num (pos 3) ∷ Num (pos 2) ∷ Num (pos 1050) ∷ Num (pos 5250000) ∷ []) ∷ []) }
    ensures by_label { whole_outcome (all_of (of_items [] (by_label ∷ []) (count_rows ∷ []) [] (label_at 0 ∷ number_at 0 1 ∷ []))) four_tables
        ≡ Rows ((Text pen ∷ Num (pos 2) ∷ []) ∷ (Text ink ∷ Num (pos 1) ∷ []) ∷ []) }
    ensures having { whole_outcome (all_of (of_items [] (by_id ∷ []) (applied_to Count price ∷ []) (comparison Equal (number_at 0 1) (number (pos 0) 0) ∷ []) (integer_at 0 ∷ []))) four_tables
        ≡ Rows ((Num (pos 2) ∷ []) ∷ []) }
    ensures behind_where { whole_outcome (all_of (of_items (comparison Greater id (number (pos 1) 0) ∷ []) (by_label ∷ []) (applied_to Max id ∷ applied_to Min id ∷ []) []
        (label_at 0 ∷ arithmetic Add (number_at 0 1) (number_at 0 2) ∷ []))) four_tables
        ≡ Rows ((Text ink ∷ Num (pos 4) ∷ []) ∷ (Text pen ∷ Num (pos 6) ∷ []) ∷ []) }
{}

/// Over NOTHING, of no row: `SELECT COUNT(*), SUM(X) FROM NOTHING` gives one row of 0 and null, with GROUP BY X none; `HAVING` alone makes
/// one group too, `SELECT 1 FROM NOTHING HAVING 1 > 0`.
pub fn no_rows()
    ensures one_group { whole_outcome (all_of (of_first_column 2 [] (count_rows ∷ applied_to Sum id ∷ []) (number_at 0 0 ∷ number_at 0 1 ∷ []))) four_tables
        ≡ Rows ((Num (pos 0) ∷ Null ∷ []) ∷ []) }
    ensures no_group { whole_outcome (all_of (of_first_column 2 (by_id ∷ []) (count_rows ∷ applied_to Sum id ∷ []) (number_at 0 1 ∷ number_at 0 2 ∷ []))) four_tables ≡ Rows [] }
    ensures having { whole_outcome (all_of (of_items (comparison Less id (number (pos 0) 0) ∷ []) [] (count_rows ∷ []) (comparison Greater (number (pos 1) 0) (number (pos 0) 0) ∷ []) (number (pos 1) 0 ∷ []))) four_tables
        ≡ Rows ((Num (pos 1) ∷ []) ∷ []) }
    ensures having_false { whole_outcome (all_of (of_items [] [] (count_rows ∷ []) (comparison Greater (number_at 0 0) (number (pos 9) 0) ∷ []) (number (pos 1) 0 ∷ []))) four_tables ≡ Rows [] }
{}

/// The sums and averages of W: 999999999999999999 twice and its negative come to 999999999999999999, without the negative one they are out
/// of range, also where HAVING drops the group, `SELECT SUM(V) FROM W HAVING COUNT(*) > 9`; and the average of the three rows has no room.
pub fn limits()
    ensures sum { whole_outcome (all_of (of_large_numbers (applied_to Sum (column 0 (Decimal 18 0)) ∷ []) [] (number_at 0 0 ∷ []))) (with_negative ∷ [])
        ≡ Rows ((Num (pos 999999999999999999) ∷ []) ∷ []) }
    ensures too_large { whole_outcome (all_of (of_large_numbers (applied_to Sum (column 0 (Decimal 18 0)) ∷ []) [] (number_at 0 0 ∷ []))) (greatest_twice ∷ [])
        ≡ Raises (OutOfRange ∷ []) }
    ensures dropped { whole_outcome (all_of (of_large_numbers (applied_to Sum (column 0 (Decimal 18 0)) ∷ count_rows ∷ [])
        (comparison Greater (number_at 0 1) (number (pos 9) 0) ∷ []) (number_at 0 0 ∷ []))) (greatest_twice ∷ [])
        ≡ Raises (OutOfRange ∷ []) }
    ensures average { whole_outcome (all_of (of_large_numbers (applied_to Avg (column 0 (Decimal 18 0)) ∷ []) [] (number_at 4 0 ∷ []))) (with_negative ∷ [])
        ≡ Raises (OutOfRange ∷ []) }
{}

/// Nulls are one group: over A of 1, 1 and null, `SELECT K, COUNT(*), COUNT(K) FROM A GROUP BY K` gives 1, 2, 2 and null, 1, 0; over null,
/// 1 and null it gives null first, with two rows. A key of two columns is distinct where one of the two is.
pub fn null_keys()
    ensures last { whole_outcome (all_of (of_first_column 0 (by_id ∷ []) (count_rows ∷ applied_to Count id ∷ []) (integer_at 0 ∷ number_at 0 1 ∷ number_at 0 2 ∷ []))) four_tables
        ≡ Rows ((Num (pos 1) ∷ Num (pos 2) ∷ Num (pos 2) ∷ []) ∷ (Null ∷ Num (pos 1) ∷ Num (pos 0) ∷ []) ∷ []) }
    ensures first { whole_outcome (all_of (of_first_column 0 (by_id ∷ []) (count_rows ∷ applied_to Count id ∷ []) (integer_at 0 ∷ number_at 0 1 ∷ number_at 0 2 ∷ [])))
        (((Null ∷ []) ∷ (Num (pos 1) ∷ []) ∷ (Null ∷ []) ∷ []) ∷ [])
        ≡ Rows ((Null ∷ Num (pos 2) ∷ Num (pos 0) ∷ []) ∷ (Num (pos 1) ∷ Num (pos 1) ∷ Num (pos 1) ∷ []) ∷ []) }
    ensures two_columns { groups 2 ((Num (pos 1) ∷ Null ∷ Num (pos 7) ∷ []) ∷ (Num (pos 1) ∷ Num (pos 2) ∷ Num (pos 8) ∷ []) ∷ (Num (pos 1) ∷ Null ∷ Num (pos 9) ∷ []) ∷ [])
        ≡ record { key = Num (pos 1) ∷ Null ∷ []; rows = (Num (pos 1) ∷ Null ∷ Num (pos 7) ∷ []) ∷ (Num (pos 1) ∷ Null ∷ Num (pos 9) ∷ []) ∷ [] }
        ∷ record { key = Num (pos 1) ∷ Num (pos 2) ∷ []; rows = (Num (pos 1) ∷ Num (pos 2) ∷ Num (pos 8) ∷ []) ∷ [] } ∷ [] }
    ensures null_and_number { members 1 (Null ∷ []) ((Null ∷ []) ∷ (Num (pos 0) ∷ []) ∷ (Text [] ∷ []) ∷ (Null ∷ []) ∷ []) ≡ (Null ∷ []) ∷ (Null ∷ []) ∷ [] }
{}

/// Exceptions: an argument's comes, one of each row that raises, though the group would be dropped; where WHERE or an argument raises, no
/// group is formed, so that no sum is out of range and HAVING raises nothing; HAVING's and the select list's come of each group, and a group
/// that HAVING drops raises nothing in the select list.
pub fn exceptions()
    ensures argument { whole_outcome (all_of (of_items [] (by_label ∷ []) (applied_to Sum (quotient id) ∷ []) (comparison Greater (number_at 0 1) (number (pos 99) 0) ∷ []) (label_at 0 ∷ []))) four_tables
        ≡ Raises (DivZero ∷ []) }
    ensures no_group { whole_outcome (all_of (of_items (comparison Greater (quotient id) (number (pos 0) 0) ∷ []) [] (count_rows ∷ []) (comparison Greater (arithmetic Add (number (pos 999999999999999999) 0) (number (pos 1) 0)) (number (pos 0) 0) ∷ []) (number_at 0 0 ∷ []))) four_tables
        ≡ Raises (DivZero ∷ []) }
    ensures having { whole_outcome (all_of (of_items [] (by_id ∷ []) (count_rows ∷ []) (comparison Greater (quotient (number_at 0 1)) (number (pos 0) 0) ∷ []) (integer_at 0 ∷ []))) four_tables
        ≡ Raises (DivZero ∷ DivZero ∷ DivZero ∷ []) }
    ensures select_list { whole_outcome (all_of (of_items [] (by_label ∷ []) (count_rows ∷ []) [] (quotient (number_at 0 1) ∷ []))) four_tables ≡ Raises (DivZero ∷ []) }
    ensures dropped_group { whole_outcome (all_of (of_items [] (by_label ∷ []) (count_rows ∷ []) (comparison Greater (number_at 0 1) (number (pos 1) 0) ∷ []) (quotient (number_at 0 1) ∷ []))) four_tables
        ≡ Rows ((Num (pos 10) ∷ []) ∷ []) }
{}

/// `SELECT DISTINCT LABEL FROM ITEM WHERE LABEL = 'pen'` gives 'pen' once, and without DISTINCT twice; of A, which is 1, 1 and null,
/// `SELECT DISTINCT K` gives 1 and null; of `SELECT LABEL, COUNT(*) .. GROUP BY ID, LABEL`, (pen, 1), (ink, 1) and (pen, 1), DISTINCT gives two;
/// nulls are one row, and a null beside a value is another.
pub fn distinct_rows()
    ensures once { whole_outcome (record {
      body = plain (record { sources = alone items_entry ∷ []; conjuncts = comparison Equal label (text pen) ∷ []; items = label ∷ [] });
      distinct = true;
    }) four_tables ≡ Rows ((Text pen ∷ []) ∷ []) }
    ensures twice { whole_outcome (record {
      body = plain (record { sources = alone items_entry ∷ []; conjuncts = comparison Equal label (text pen) ∷ []; items = label ∷ [] });
      distinct = false;
    }) four_tables ≡ Rows ((Text pen ∷ []) ∷ (Text pen ∷ []) ∷ []) }
    ensures nulls { whole_outcome (record { body = plain (record { sources = alone (one_column 0) ∷ []; conjuncts = []; items = id ∷ [] }); distinct = true }) four_tables
        ≡ Rows ((Num (pos 1) ∷ []) ∷ (Null ∷ []) ∷ []) }
    ensures of_groups { whole_outcome (distinct_of (of_items [] (by_id ∷ by_label ∷ []) (count_rows ∷ []) [] (label_at 1 ∷ number_at 0 2 ∷ []))) four_tables
        ≡ Rows ((Text pen ∷ Num (pos 1) ∷ []) ∷ (Text ink ∷ Num (pos 1) ∷ []) ∷ []) }
    ensures beside_null { once ((Null ∷ Num (pos 1) ∷ []) ∷ (Null ∷ Null ∷ []) ∷ (Null ∷ Num (pos 1) ∷ []) ∷ (Num (pos 1) ∷ Null ∷ []) ∷ (Null ∷ Null ∷ []) ∷ [])
        ≡ (Null ∷ Num (pos 1) ∷ []) ∷ (Null ∷ Null ∷ []) ∷ (Num (pos 1) ∷ Null ∷ []) ∷ [] }
    ensures exception { whole_outcome (record { body = plain (record { sources = alone items_entry ∷ []; conjuncts = []; items = quotient id ∷ [] }); distinct = true }) four_tables
        ≡ Raises (DivZero ∷ []) }
{}
