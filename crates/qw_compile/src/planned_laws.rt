//! What holds of the bounds of queries, which are told of their well placed plans; and worked cases. No function here computes anything.

ghost use Rattle.std.specs.Prelude.{◌≡◌, ◌≤◌, ℕ, ◌+◌, ◌-◌, ◌*◌, ◌/◌, eqb, max, pos, replicate, true, List, [], ◌∷◌, length, sum_by};
ghost use Rattle.std.specs.List.{AllByRecursion, IsDistinct, filter};
ghost use Rattle.qw_types.specs.Contents.{rows_of};
ghost use Rattle.qw_types.specs.declared.value.Ty.TheVariants.{Integer};
ghost use Rattle.qw_types.specs.declared.value.Val.{Val};
ghost use Rattle.qw_types.specs.declared.value.Val.TheVariants.{Num};
ghost use Rattle.qw_linear.specs.Memory.{page};
ghost use Rattle.qw_scalar.specs.declared.comparison.Comparison.TheVariants.{Equal};
ghost use Rattle.qw_scalar.specs.declared.expression.Operator.TheVariants as operator;
ghost use Rattle.qw_scalar.specs.Evaluation.{at_row};
ghost use Rattle.qw_scalar.specs.Expression.{Condition, Expression, arithmetic, case, coalesced, column, comparison, last, more, number};
ghost use Rattle.qw_scalar.specs.Units.{units_of_all, units_of_items};
ghost use Rattle.qw_meaning.specs.Flow.{each, kept};
ghost use Rattle.qw_meaning.specs.From.{from_sources};
ghost use Rattle.qw_meaning.specs.Outcome.{flow};
ghost use Rattle.qw_meaning.specs.Select.{AreOfEntries, Entry, IsSpecification, Specification, alone};
ghost use Rattle.qw_algebra.specs.Columns.{condition_names_column, is_of};
ghost use Rattle.qw_algebra.specs.Node.{node_flow};
ghost use Rattle.qw_algebra.specs.Written.{written};
ghost use Rattle.qw_pipe.specs.Octets.{greatest_entry, table_octets};
ghost use Rattle.qw_rewrite.specs.Placed.{IsSizedPlan};
ghost use Rattle.qw_rewrite.specs.Sift.{are_quiet};
ghost use Rattle.qw_map.specs.Layout.{row_size};
ghost use Rattle.qw_promise.specs.WorkedQueries.{above, integers, three_rows};
ghost use Rattle.qw_compile.specs.PlannedQueries.{columns_read, greatest, kept_by, page_bound, placed, reads, stored, units};
ghost use Rattle.qw_compile.specs.WorkedJoins.{equal_numbers, left_joined_numbers, with_each};
ghost use Rattle.qw_compile.specs.WorkedTexts.{from_words, is_pen, m, pen, two_words, word};

/// The units of a query over one table, whose conjuncts all go to its scan, are the rows of the table and of the result, and of each comparison of
/// texts that compares most its octets, WHERE's at each row of the table and the select list's at each row that WHERE leaves. Where no texts are
/// compared, the units are these rows, wherever its conjuncts stand.
pub fn units_of_one_table()
    ensures at_scan { (tables : List (List (List Val))) (entry : Entry) (conjuncts : List Condition) (items : List Expression) →
        are_quiet conjuncts ≡ true → AllByRecursion (λ c. condition_names_column c ≡ true) conjuncts →
        units (record { sources = alone entry ∷ []; conjuncts = conjuncts; items = items }) tables
        ≡ length (rows_of tables entry.table) + length (flow (record { sources = alone entry ∷ []; conjuncts = conjuncts; items = items }) tables).rows
        + (sum_by (λ (row : List Val). units_of_all conjuncts (at_row row)) (from_sources (alone entry ∷ []) tables).rows
        + sum_by (λ (row : List Val). units_of_items items (at_row row)) (each (kept conjuncts) (from_sources (alone entry ∷ []) tables)).rows) }
    ensures no_texts { (tables : List (List (List Val))) (entry : Entry) (conjuncts : List Condition) (items : List Expression) →
        IsSpecification (record { sources = alone entry ∷ []; conjuncts = conjuncts; items = items }) → AreOfEntries (entry ∷ []) tables →
        IsSizedPlan (written (record { sources = alone entry ∷ []; conjuncts = conjuncts; items = items })) →
        ((row : List Val) → units_of_all conjuncts (at_row row) ≡ 0) → ((row : List Val) → units_of_items items (at_row row) ≡ 0) →
        units (record { sources = alone entry ∷ []; conjuncts = conjuncts; items = items }) tables
        ≡ length (rows_of tables entry.table) + length (flow (record { sources = alone entry ∷ []; conjuncts = conjuncts; items = items }) tables).rows }
{}

/// The pages of a query over one table are those of its result rows, each page but the first and the last having more than a page less a row of them.
pub fn pages_of_one_table()
    ensures { (tables : List (List (List Val))) (entry : Entry) (conjuncts : List Condition) (items : List Expression) →
        IsSpecification (record { sources = alone entry ∷ []; conjuncts = conjuncts; items = items }) → AreOfEntries (entry ∷ []) tables →
        IsSizedPlan (written (record { sources = alone entry ∷ []; conjuncts = conjuncts; items = items })) →
        page_bound (record { sources = alone entry ∷ []; conjuncts = conjuncts; items = items }) tables
        ≡ 2 + length (flow (record { sources = alone entry ∷ []; conjuncts = conjuncts; items = items }) tables).rows * row_size (length items) / (page - row_size (length items)) }
{}

/// Of columns that a query reads, each of them told once, those of some entries of FROM are no more than an entry of a hash table is said to keep.
pub fn columns_kept()
    ensures { (query : Specification) (entries numbers : List ℕ) → IsDistinct eqb numbers → AllByRecursion (λ i. reads query i ≡ true) numbers →
        length (filter (is_of entries) numbers) ≤ kept_by query entries }
{}

/// Where entries keep no more columns than that, all that the plan's tables and its result hold is within what the page bound counts, and so is the
/// greatest of their entries and rows.
pub fn pages_of_kept_columns()
    ensures stored { (query : Specification) (tables : List (List (List Val))) (kept : List ℕ → ℕ) → ((entries : List ℕ) → kept entries ≤ kept_by query entries) →
        table_octets kept tables (placed query) + length (node_flow tables (placed query)).rows * row_size (length query.items) ≤ stored query tables }
    ensures greatest { (query : Specification) (kept : List ℕ → ℕ) → ((entries : List ℕ) → kept entries ≤ kept_by query entries) →
        max (row_size (length query.items)) (greatest_entry kept (placed query)) ≤ greatest query }
{}

/// Three rows and the one that is kept are 4 units; where all three are kept there are 6, and of no rows none. A row that raises makes no result
/// row, so of three rows of which one raises there are 5.
pub fn units_of_rows()
    ensures one_kept { units (above 1 (pos 5)) three_rows ≡ 4 }
    ensures all_kept { units (above 1 (pos 0)) three_rows ≡ 6 }
    ensures no_rows { units (above 1 (pos 5)) ([] ∷ []) ≡ 0 }
    ensures no_table { units (above 1 (pos 5)) [] ≡ 0 }
    ensures raises { units (record {
      sources = alone (integers 0) ∷ [];
      conjuncts = [];
      items = arithmetic operator.Divide (number (pos 8) 0) (arithmetic operator.Subtract (column 0 Integer) (number (pos 1) 0)) ∷ [];
    }) three_rows ≡ 5 }
{}

/// All pairs of 2 and of 3 rows are a join without a key: 5 rows, 3 entries, 1,024 slots, one unit for each of the 6 pairs, since all entries are in
/// one slot, and 6 result rows, which are 1,044. A table of 2 rows that comes twice counts twice: 4 rows, 2 entries, 1,024 slots, 4 pairs and 4
/// result rows, which are 1,038. Of no rows there are the slots alone.
pub fn units_of_pairs()
    ensures two_tables { (a b c d e : Val) → units (with_each 1) (((a ∷ []) ∷ (b ∷ []) ∷ []) ∷ ((c ∷ []) ∷ (d ∷ []) ∷ (e ∷ []) ∷ []) ∷ []) ≡ 1044 }
    ensures twice { (a b : Val) → units (with_each 0) (((a ∷ []) ∷ (b ∷ []) ∷ []) ∷ []) ≡ 1038 }
    ensures no_rows { units (with_each 1) [] ≡ 1024 }
{}

/// Of the rows 'pen' and 'm', `WHERE L = 'm'` compares 3 + 1 octets and 1 + 1: with the two rows, and the one that is found, these are 9
/// units. Of `L = 'pen' AND L = 'm'` the greater counts at each row, 6 and 4 octets, so with the two rows 12 units. An item that compares
/// L with 'pen' counts at the rows that reach it: with `WHERE 1 = 2` at none, so the 2 rows are all; without a WHERE at both, 6 and 4
/// octets, which with two rows and two result rows are 14; and twice in a COALESCE no more than once.
pub fn units_of_texts()
    ensures found { units (from_words (comparison Equal word m ∷ []) (word ∷ [])) two_words ≡ 9 }
    ensures greater { units (from_words (comparison Equal word pen ∷ comparison Equal word m ∷ []) (word ∷ [])) two_words ≡ 12 }
    ensures dropped { units (from_words (comparison Equal (number (pos 1) 0) (number (pos 2) 0) ∷ []) (is_pen ∷ [])) two_words ≡ 2 }
    ensures kept { units (from_words [] (is_pen ∷ [])) two_words ≡ 14 }
    ensures once { units (from_words [] (case (coalesced (more is_pen (last is_pen))) ∷ [])) two_words ≡ 14 }
{}

/// `SELECT T.A FROM T, U WHERE T.A = U.A`, T being 4, 1, 7 and U the row 4: 4 rows, one entry, 1,024 slots, 36 octets that are folded of four keys of a
/// number, the one row that meets the entry in its slot, and a result row. Where U has no rows, 3 rows, 1,024 slots and 27 octets.
pub fn units_of_joins()
    ensures one_pair { units equal_numbers (((Num (pos 4) ∷ []) ∷ (Num (pos 1) ∷ []) ∷ (Num (pos 7) ∷ []) ∷ []) ∷ ((Num (pos 4) ∷ []) ∷ []) ∷ []) ≡ 1067 }
    ensures no_rows { units equal_numbers (((Num (pos 4) ∷ []) ∷ (Num (pos 1) ∷ []) ∷ (Num (pos 7) ∷ []) ∷ []) ∷ [] ∷ []) ≡ 1054 }
{}

/// `SELECT T.A FROM T LEFT JOIN U ON T.A = U.A` over the same tables makes two result rows more: 1,069. Where U has no rows, three more: 1,057; and where
/// T has none, there are U's row, its entry, 1,024 slots and nine octets.
pub fn units_of_left_joins()
    ensures one_pair { units left_joined_numbers (((Num (pos 4) ∷ []) ∷ (Num (pos 1) ∷ []) ∷ (Num (pos 7) ∷ []) ∷ []) ∷ ((Num (pos 4) ∷ []) ∷ []) ∷ []) ≡ 1069 }
    ensures no_partner { units left_joined_numbers (((Num (pos 4) ∷ []) ∷ (Num (pos 1) ∷ []) ∷ (Num (pos 7) ∷ []) ∷ []) ∷ [] ∷ []) ≡ 1057 }
    ensures no_rows { units left_joined_numbers ([] ∷ ((Num (pos 4) ∷ []) ∷ []) ∷ []) ≡ 1035 }
{}

/// A result row of one cell has 24 octets, so the bound is 2 + N * 24 / 65,512 pages for N result rows: 2 for one row, for 2,728
/// and for 2,729, and 3 for 2,730. Rows that are rejected don't count.
pub fn page_bound_of_narrow_rows()
    ensures one { page_bound (above 1 (pos 5)) three_rows ≡ 2 }
    ensures past_the_first_page { page_bound (above 1 (pos 5)) (replicate 2728 (Num (pos 7) ∷ []) ∷ []) ≡ 2 }
    ensures last_of_two { page_bound (above 1 (pos 5)) (replicate 2729 (Num (pos 7) ∷ []) ∷ []) ≡ 2 }
    ensures first_of_three { page_bound (above 1 (pos 5)) (replicate 2730 (Num (pos 7) ∷ []) ∷ []) ≡ 3 }
    ensures rejected { page_bound (above 1 (pos 5)) (replicate 2730 (Num (pos 5) ∷ []) ∷ []) ≡ 2 }
{}

/// A result row of 64 cells has 1,032 octets, so the bound is 2 + N * 1,032 / 64,504 pages: 2 for 62 rows, and 3 for 63.
pub fn page_bound_of_wide_rows()
    ensures last_of_two { page_bound (above 64 (pos 5)) (replicate 62 (Num (pos 7) ∷ []) ∷ []) ≡ 2 }
    ensures first_of_three { page_bound (above 64 (pos 5)) (replicate 63 (Num (pos 7) ∷ []) ∷ []) ≡ 3 }
{}

/// An entry of the join of T and U by A has 24 octets, 16 of its key and 16 of U's column, which is read; so the bound is 2 pages, 2 more for the
/// directory, and (4,096 + N * 56 + R * 24) / 65,480 for N rows of U and R result rows: 4 for 1,096 rows of U, and 5 for 1,097.
pub fn page_bound_of_joins()
    ensures read { columns_read equal_numbers (1 ∷ []) ≡ 64 ∷ [] }
    ensures one_pair { page_bound equal_numbers (((Num (pos 4) ∷ []) ∷ []) ∷ ((Num (pos 4) ∷ []) ∷ []) ∷ []) ≡ 4 }
    ensures last_of_four { page_bound equal_numbers ([] ∷ replicate 1096 (Num (pos 7) ∷ []) ∷ []) ≡ 4 }
    ensures first_of_five { page_bound equal_numbers ([] ∷ replicate 1097 (Num (pos 7) ∷ []) ∷ []) ≡ 5 }
{}

/// Rows of T that have no partner are result rows of a LEFT JOIN: where U is empty the bound is 4 pages and (4,096 + N * 24) / 65,480 for N rows of T,
/// 4 for 2,557 and 5 for 2,558.
pub fn page_bound_of_left_joins()
    ensures read { columns_read left_joined_numbers (1 ∷ []) ≡ 64 ∷ [] }
    ensures last_of_four { page_bound left_joined_numbers (replicate 2557 (Num (pos 7) ∷ []) ∷ [] ∷ []) ≡ 4 }
    ensures first_of_five { page_bound left_joined_numbers (replicate 2558 (Num (pos 7) ∷ []) ∷ [] ∷ []) ≡ 5 }
{}

/// Where all pairs of rows are made, an entry has neither a key nor a column, so it has 24 octets as a result row has, and the bound is 4 pages and
/// (4,096 + N * 24 + N * 24) / 65,512 for one row of T and N of U: 4 for 1,279 rows of U, and 5 for 1,280.
pub fn page_bound_of_pairs()
    ensures not_read { columns_read (with_each 1) (1 ∷ []) ≡ [] }
    ensures last_of_four { page_bound (with_each 1) (((Num (pos 4) ∷ []) ∷ []) ∷ replicate 1279 (Num (pos 7) ∷ []) ∷ []) ≡ 4 }
    ensures first_of_five { page_bound (with_each 1) (((Num (pos 4) ∷ []) ∷ []) ∷ replicate 1280 (Num (pos 7) ∷ []) ∷ []) ≡ 5 }
{}
