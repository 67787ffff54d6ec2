//! Worked cases of the bounds of grouped queries and of DISTINCT, counted by hand. No function here computes anything.

ghost use Rattle.std.specs.Prelude.{◌≡◌, pos, [], ◌∷◌, Some};
ghost use Rattle.qw_types.specs.declared.kind.Kind.TheVariants.{Number, Text};
ghost use Rattle.qw_types.specs.declared.value.Val.TheVariants.{Null, Num};
ghost use Rattle.qw_scalar.specs.declared.comparison.Comparison.TheVariants.{Equal, Greater};
ghost use Rattle.qw_scalar.specs.Expression.{comparison, number, text};
ghost use Rattle.qw_scalar.specs.WorkedRows.{pen};
ghost use Rattle.qw_meaning.specs.WorkedQueries.{four_tables};
ghost use Rattle.qw_grouped.specs.WorkedGroups.{all_of, applied_to, by_id, by_label, count_rows, distinct_of, id, label, label_at, number_at, of_first_column, of_items, price, quotient};
ghost use Rattle.qw_grouped.specs.declared.set_function.SetFunctionKind.TheVariants.{Avg, Count, Max, Min, Sum};
ghost use Rattle.qw_whole.specs.WholePromises.{cells_of, whole_pages, whole_units};
ghost use Rattle.qw_whole.specs.WorkedWholes.{counted_often, distinct_columns, numbers_to};

/// `SELECT LABEL, COUNT(*) FROM ITEM GROUP BY LABEL` over 'pen', 'ink', 'pen': 3 rows are scanned; there are 2 entries, 12 octets that are folded of
/// three keys, 1,024 slots, each row meets the entry of its own label, which is 4 with the octets of that, and 2 result rows: these are 1,055.
/// `HAVING LABEL = 'pen'` compares 6 octets at each of the two groups and leaves one result row, 1,066. Of no row, as `WHERE ID > 9` leaves, there are
/// the scan and the slots.
pub fn units_of_labels()
    ensures by_label { whole_units (all_of (of_items [] (by_label ∷ []) (count_rows ∷ []) [] (label_at 0 ∷ number_at 0 1 ∷ []))) four_tables ≡ 1055 }
    ensures having { whole_units (all_of (of_items [] (by_label ∷ []) (count_rows ∷ []) (comparison Equal (label_at 0) (text pen) ∷ []) (label_at 0 ∷ number_at 0 1 ∷ []))) four_tables ≡ 1066 }
    ensures no_row { whole_units (all_of (of_items (comparison Greater id (number (pos 9) 0) ∷ []) (by_label ∷ []) (count_rows ∷ []) [] (label_at 0 ∷ number_at 0 1 ∷ []))) four_tables ≡ 1027 }
{}

/// Without GROUP BY there is one group with no key: of the three rows of ITEM, `SELECT COUNT(*)` takes 3, one entry, 1,024 slots, nothing that is
/// folded, one for each row that meets the entry, and a result row: 1,032, as of n rows 2 n + 1,026. `SUM(PRICE)` beside it takes no more;
/// `AVG(PRICE)` beside them takes 128 more, and twice no more than once. `MAX(LABEL)` compares at most 3 octets at each row, 9 more than COUNT(*), and
/// MIN beside it no more. Of no row there are the entry, the slots and the result row.
pub fn units_of_one_group()
    ensures count { whole_units (all_of (of_items [] [] (count_rows ∷ []) [] (number_at 0 0 ∷ []))) four_tables ≡ 1032 }
    ensures sum { whole_units (all_of (of_items [] [] (count_rows ∷ applied_to Sum price ∷ []) [] (number_at 0 0 ∷ number_at 2 1 ∷ []))) four_tables ≡ 1032 }
    ensures average { whole_units (all_of (of_items [] [] (count_rows ∷ applied_to Avg price ∷ applied_to Avg price ∷ []) [] (number_at 0 0 ∷ number_at 6 1 ∷ []))) four_tables ≡ 1160 }
    ensures greatest { whole_units (all_of (of_items [] [] (applied_to Max label ∷ []) [] (label_at 0 ∷ []))) four_tables ≡ 1041 }
    ensures both { whole_units (all_of (of_items [] [] (applied_to Max label ∷ applied_to Min label ∷ applied_to Count label ∷ []) [] (label_at 0 ∷ label_at 1 ∷ []))) four_tables ≡ 1041 }
    ensures no_row { whole_units (all_of (of_first_column 2 [] (count_rows ∷ applied_to Sum id ∷ []) (number_at 0 0 ∷ number_at 0 1 ∷ []))) four_tables ≡ 1026 }
    ensures no_group { whole_units (all_of (of_first_column 2 (by_id ∷ []) (count_rows ∷ applied_to Avg id ∷ []) (number_at 0 1 ∷ number_at 0 2 ∷ []))) four_tables ≡ 1024 }
{}

/// A row that raises goes no further, and all others count, also where no group is formed: of `SELECT SUM(10 / (ID - 1)) FROM ITEM GROUP BY LABEL` the
/// rows with the ID 2 and 3 do, 'ink' and 'pen': 3 of the scan, 2 entries, 8 octets that are folded, 1,024 slots, 4 at each row, and 2 result rows: 1,047.
/// A group that raises makes no result row: 'ink', which has one row, raises in `SELECT 10 / (COUNT(*) - 1) .. GROUP BY LABEL`, 1,054.
pub fn units_where_one_raises()
    ensures argument { whole_units (all_of (of_items [] (by_label ∷ []) (applied_to Sum (quotient id) ∷ []) [] (label_at 0 ∷ []))) four_tables ≡ 1047 }
    ensures group { whole_units (all_of (of_items [] (by_label ∷ []) (count_rows ∷ []) [] (quotient (number_at 0 1) ∷ []))) four_tables ≡ 1054 }
{}

/// `SELECT DISTINCT K FROM A` over 1, 1 and null: 3 rows are scanned; there are 2 entries, since nulls are one row; 9, 9 and 1 octets that are folded,
/// 1,024 slots, one for each row that meets the entry of its own, and 2 result rows: 1,053. Of three nulls there is one entry and one result row, 1,035.
/// `SELECT DISTINCT LABEL, COUNT(*) FROM ITEM GROUP BY ID, LABEL` has two tables: 3 of the scan, 3 entries, 13 octets that are folded at each row, 1,024
/// slots and 4 at each row, which are 1,081; and 2 entries, 13 octets that are folded at each row, 1,024 slots, 4 at each row, and 2 result rows, 1,079
/// more.
pub fn units_of_distinct_rows()
    ensures nulls { whole_units (distinct_columns 0 1) four_tables ≡ 1053 }
    ensures all_null { whole_units (distinct_columns 0 1) (((Null ∷ []) ∷ (Null ∷ []) ∷ (Null ∷ []) ∷ []) ∷ []) ≡ 1035 }
    ensures no_row { whole_units (distinct_columns 0 1) [] ≡ 1024 }
    ensures of_groups { whole_units (distinct_of (of_items [] (by_id ∷ by_label ∷ []) (count_rows ∷ []) [] (label_at 1 ∷ number_at 0 2 ∷ []))) four_tables ≡ 2160 }
{}

/// An entry of one key field and 511 set functions has 16,392 octets, and a result row of 512 cells 8,200; so the bound is 2 pages, 2 for the directory,
/// and (4,096 + G * 16,392 + G * 8,200) / 49,144 for G groups: 4 for one, and 5 for two. Rows of one group are one.
pub fn pages_of_wide_groups()
    ensures none { whole_pages (all_of (counted_often 512 511)) [] ≡ 4 }
    ensures last_of_four { whole_pages (all_of (counted_often 512 511)) (numbers_to 1) ≡ 4 }
    ensures first_of_five { whole_pages (all_of (counted_often 512 511)) (numbers_to 2) ≡ 5 }
    ensures one_group { whole_pages (all_of (counted_often 512 511)) (((Num (pos 7) ∷ []) ∷ (Num (pos 7) ∷ []) ∷ (Num (pos 7) ∷ []) ∷ []) ∷ []) ≡ 4 }
{}

/// A distinct row of 64 cells has an entry of 1,048 octets and a result row of 1,032; so the bound is 4 pages and (4,096 + D * 1,048 + D * 1,032) / 64,488
/// for D distinct rows: 4 for 29, and 5 for 30. With GROUP BY besides there are two directories; an entry of a group has 72 octets, with its key and
/// COUNT(*), one of a distinct row of 512 cells 8,216, and a result row 8,200: 6 pages and (8,192 + G * 72 + G * 8,216 + G * 8,200) / 57,320 for G groups
/// whose rows are distinct, 6 for two, and 7 for three.
pub fn pages_of_distinct_rows()
    ensures last_of_four { whole_pages (distinct_columns 0 64) (numbers_to 29) ≡ 4 }
    ensures first_of_five { whole_pages (distinct_columns 0 64) (numbers_to 30) ≡ 5 }
    ensures two_tables { whole_pages (distinct_of (counted_often 512 1)) (numbers_to 2) ≡ 6 }
    ensures two_tables_more { whole_pages (distinct_of (counted_often 512 1)) (numbers_to 3) ≡ 7 }
{}

/// The cells of `SELECT LABEL, COUNT(*), AVG(PRICE) .. GROUP BY LABEL` are a text, a whole number, and a number with six digits behind the point.
pub fn cells_of_groups()
    ensures { cells_of (all_of (of_items [] (by_label ∷ []) (count_rows ∷ applied_to Avg price ∷ []) [] (label_at 0 ∷ number_at 0 1 ∷ number_at 6 2 ∷ []))) ≡ Some Text ∷ Some (Number 0) ∷ Some (Number 6) ∷ [] }
{}
