//! Worked cases of the sizes, texts and columns of grouped queries, and of those with DISTINCT, counted by hand. No function here computes anything.

ghost use Rattle.std.specs.Prelude.{◌≡◌, ℕ, ◌++◌, false, List, [], ◌∷◌, length, replicate};
ghost use Rattle.qw_types.specs.declared.kind.Kind.TheVariants as kind;
ghost use Rattle.qw_types.specs.declared.value.Ty.TheVariants.{Decimal, Integer, Varchar};
ghost use Rattle.qw_scalar.specs.Nodes.{nodes_of};
ghost use Rattle.qw_scalar.specs.declared.expression.Cond.{Cond};
ghost use Rattle.qw_scalar.specs.declared.expression.Expr.TheVariants.{Column, Text};
ghost use Rattle.qw_scalar.specs.Texts.{texts_within};
ghost use Rattle.qw_grouped.specs.WorkedGroups.{applied_to, by_label, by_price, count_rows, label, label_at, number_at, of_items, price};
ghost use Rattle.qw_grouped.specs.declared.set_function.SetFunctionKind.TheVariants.{Avg, CountRows, Max, Min};
ghost use Rattle.qw_compile_whole.specs.DistinctLimits.{IsShortDistinct};
ghost use Rattle.qw_compile_whole.specs.GroupColumns.{key_columns, value_columns};
ghost use Rattle.qw_compile_whole.specs.GroupedDistinctLimits.{IsShortGroupedDistinct};
ghost use Rattle.qw_compile_whole.specs.WholeLimits.{IsShortGrouped};
ghost use Rattle.qw_compile_whole.specs.WholeTexts.{texts_of_grouped};
ghost use Rattle.qw_compile_whole.specs.WorkedSizes.{of_many_columns, of_parts, plain_parts, set_function};

/// 64 columns of GROUP BY count as 192 nodes, 448 times COUNT(*) as 1,344, and one item is one: so HAVING has room for 2,475, and not for one more.
/// A text literal has room for 16,384 octets, and not for one more.
pub fn worked_sizes()
    ensures most_nodes { (c : Cond) → texts_within c ≡ [] → nodes_of c ≡ 2475 → IsShortGrouped (of_many_columns 448 (c ∷ []) (Column 0 Integer ∷ [])) }
    ensures too_many { (c : Cond) → nodes_of c ≡ 2476 → IsShortGrouped (of_many_columns 448 (c ∷ []) (Column 0 Integer ∷ [])) → ⊥ }
    ensures most_octets { (text : List ℕ) → length text ≡ 16384 → IsShortGrouped (of_parts [] [] [] (Text text ∷ [])) }
    ensures too_long { (text : List ℕ) → length text ≡ 16385 → IsShortGrouped (of_parts [] [] [] (Text text ∷ [])) → ⊥ }
{}

/// With DISTINCT that one item, a column of the table of distinct rows, counts as three: so HAVING has room for 2,473 nodes, and not for one more.
pub fn worked_grouped_distinct_sizes()
    ensures most_nodes { (c : Cond) → texts_within c ≡ [] → nodes_of c ≡ 2473 → IsShortGroupedDistinct (of_many_columns 448 (c ∷ []) (Column 0 Integer ∷ [])) }
    ensures too_many { (c : Cond) → nodes_of c ≡ 2474 → IsShortGroupedDistinct (of_many_columns 448 (c ∷ []) (Column 0 Integer ∷ [])) → ⊥ }
{}

/// Of `SELECT DISTINCT *` over 128 columns these count as 512 nodes: so WHERE has room for 3,500, and not for one more (7.9).
pub fn worked_distinct_sizes()
    ensures most_nodes { (c : Cond) → texts_within c ≡ [] → nodes_of c ≡ 3500 → IsShortDistinct (plain_parts (c ∷ []) (replicate 128 (Column 0 Integer))) }
    ensures too_many { (c : Cond) → nodes_of c ≡ 3501 → IsShortDistinct (plain_parts (c ∷ []) (replicate 128 (Column 0 Integer))) → ⊥ }
{}

/// The texts of `SELECT 'pen' .. WHERE c HAVING d AND MIN('m') ..` are those of WHERE, 'm', those of HAVING, and 'pen' (ISO/IEC 9075:1992, 5.3).
pub fn worked_texts()
    ensures { (c d : Cond) → texts_of_grouped (of_parts (c ∷ []) (set_function Min (Text (109 ∷ [])) ∷ []) (d ∷ []) (Text (112 ∷ 101 ∷ 110 ∷ []) ∷ []))
        ≡ texts_within c ++ (109 ∷ []) ∷ texts_within d ++ (112 ∷ 101 ∷ 110 ∷ []) ∷ [] }
{}

/// Of `SELECT LABEL, COUNT(*), AVG(PRICE), MAX(LABEL) FROM ITEM GROUP BY LABEL, PRICE` the grouped table has the columns 0 and 1, of the types of LABEL and
/// PRICE, each of which may be null, and behind them three set functions: a whole number, a number with six digits behind the point, and a text
/// (7.7).
pub fn worked_columns()
    ensures key { key_columns (of_items [] (by_label ∷ by_price ∷ []) (count_rows ∷ applied_to Avg price ∷ applied_to Max label ∷ []) [] (label_at 0 ∷ number_at 0 2 ∷ number_at 6 3 ∷ label_at 4 ∷ []))
        ≡ record { number = 0; ty = Varchar 20; not_null = false } ∷ record { number = 1; ty = Decimal 9 2; not_null = false } ∷ [] }
    ensures values { value_columns (of_items [] (by_label ∷ by_price ∷ []) (count_rows ∷ applied_to Avg price ∷ applied_to Max label ∷ []) [] (label_at 0 ∷ number_at 0 2 ∷ number_at 6 3 ∷ label_at 4 ∷ []))
        ≡ record { number = 2; ty = Decimal 18 0; function = CountRows; argument = kind.Number 0 } ∷ record { number = 3; ty = Decimal 18 6; function = Avg; argument = kind.Number 2 }
        ∷ record { number = 4; ty = Varchar 1000; function = Max; argument = kind.Text } ∷ [] }
{}
