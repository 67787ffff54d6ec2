//! What holds of groups and of DISTINCT. No function here computes anything.

ghost use Rattle.std.specs.Prelude.{◌≡◌, ◌<◌, ◌^◌, ℕ, Bool, false, List, [], length, map};
ghost use Rattle.std.specs.List.{AllByRecursion, AllPairs, AllZip, flat_map};
ghost use Rattle.std.specs.List.Sorted.{IsPermutation};
ghost use Rattle.qw_types.specs.Contents.{rows_of};
ghost use Rattle.qw_types.specs.Kind.{IsRowOf, type_kind};
ghost use Rattle.qw_types.specs.ValueOrder.{is_same_row};
ghost use Rattle.qw_types.specs.declared.value.Val.{Val};
ghost use Rattle.qw_scalar.specs.Typing.{IsValueOf, kind_of};
ghost use Rattle.qw_meaning.specs.Flow.{Flow};
ghost use Rattle.qw_meaning.specs.Outcome.{IsSameOutcome, ended, flow, outcome};
ghost use Rattle.qw_meaning.specs.Select.{Entry, IsSpecification, Specification, entries_of, types_of};
ghost use Rattle.qw_grouped.specs.Grouped.{Grouped, IsGrouped, front, kinds_of, types_of_group};
ghost use Rattle.qw_grouped.specs.Groups.{Group, behind_front, grouped_table, groups, keys, once};
ghost use Rattle.qw_grouped.specs.Whole.{if_distinct, plain, whole_outcome};

/// Each row that reaches GROUP BY is in exactly one group; no key comes twice.
pub fn groups_part_the_rows()
    ensures rows { (columns : ℕ) (rows : List (List Val)) → IsPermutation rows (flat_map (λ (g : Group). g.rows) (groups columns rows)) }
    ensures keys { (columns : ℕ) (rows : List (List Val)) → AllPairs (λ key other. is_same_row key other ≡ false) (keys columns rows) }
{}

/// What reaches GROUP BY in another order, and exceptions in another order, come to the same rows and exceptions in another order: so groups
/// may be met in any order. DISTINCT too minds no order; and the outcome is the same.
pub fn any_order()
    ensures rows { (query : Grouped) (before other : Flow (List Val)) → IsPermutation before.rows other.rows → IsPermutation before.codes other.codes
        → IsPermutation (behind_front query before).rows (behind_front query other).rows }
    ensures codes { (query : Grouped) (before other : Flow (List Val)) → IsPermutation before.rows other.rows → IsPermutation before.codes other.codes
        → IsPermutation (behind_front query before).codes (behind_front query other).codes }
    ensures distinct { (rows others : List (List Val)) → IsPermutation rows others → IsPermutation (once rows) (once others) }
    ensures outcome { (distinct : Bool) (flow other : Flow (List Val)) → IsPermutation flow.rows other.rows → IsPermutation flow.codes other.codes
        → IsSameOutcome (ended (if_distinct distinct flow.rows) flow.codes) (ended (if_distinct distinct other.rows) other.codes) }
{}

/// A query that isn't grouped, without DISTINCT, comes to what its specification does.
pub fn plain_queries()
    ensures { (specification : Specification) (tables : List (List (List Val))) → whole_outcome (record { body = plain specification; distinct = false }) tables ≡ outcome specification tables }
{}

/// The rows of a specification, over tables of its entries, have a value of each item's kind.
pub fn rows_are_typed()
    ensures { (query : Specification) (tables : List (List (List Val))) → IsSpecification query
        → AllByRecursion (λ (entry : Entry). AllByRecursion (IsRowOf (map type_kind (types_of entry.columns))) (rows_of tables entry.table)) (entries_of query.sources)
        → AllByRecursion (AllZip IsValueOf (map kind_of query.items)) (flow query tables).rows }
{}

/// Where fewer than 10^18 rows reach GROUP BY, each of them with a value of each item's kind, the rows of the grouped table have a value of each
/// of its columns' types.
pub fn grouped_rows_are_typed()
    ensures { (query : Grouped) (rows : List (List Val)) → IsGrouped query → AllByRecursion (AllZip IsValueOf (map kind_of (front query).items)) rows → length rows < 10 ^ 18
        → AllByRecursion (IsRowOf (map type_kind (types_of_group query))) (grouped_table (length query.columns) (kinds_of query.functions) (record { rows = rows; codes = [] })).rows }
{}
