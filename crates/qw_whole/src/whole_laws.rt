//! What holds of the bounds of queries, grouped or not, with DISTINCT or without. No function here computes anything.

ghost use Rattle.std.specs.Prelude.{◌≡◌, ℕ, ◌+◌, false, List, [], length, sum_by};
ghost use Rattle.std.specs.List.Sorted.{IsPermutation};
ghost use Rattle.qw_types.specs.declared.value.Val.{Val};
ghost use Rattle.qw_meaning.specs.Outcome.{flow};
ghost use Rattle.qw_meaning.specs.Select.{AreOfEntries, Specification, entries_of};
ghost use Rattle.qw_grouped.specs.Grouped.{Grouped};
ghost use Rattle.qw_grouped.specs.Groups.{groups, once};
ghost use Rattle.qw_grouped.specs.Whole.{Body, IsBody, Whole, body_flow, plain, sources_in};
ghost use Rattle.qw_algebra.specs.Written.{written};
ghost use Rattle.qw_pipe.specs.Units.{Hashing};
ghost use Rattle.qw_rewrite.specs.Placed.{IsSizedPlan};
ghost use Rattle.qw_compile.specs.PlannedQueries.{promise_of};
ghost use Rattle.qw_whole.specs.AnyOrder.{ArePermuted};
ghost use Rattle.qw_whole.specs.GroupTables.{distinct_octets, distinct_units, group_keys, group_octets, group_units};
ghost use Rattle.qw_whole.specs.Shares.{group_share, key_share, row_share};
ghost use Rattle.qw_whole.specs.WholePromises.{body_rows, planned_in, promise_of_whole, whole_pages, whole_units};

/// A query that isn't grouped, without DISTINCT, promises what its specification does.
pub fn plain_queries()
    ensures { (specification : Specification) → promise_of_whole (record { body = plain specification; distinct = false }) ≡ promise_of specification }
{}

/// What the table of groups, and that of distinct rows, take is the same of rows in another order: units and octets.
pub fn any_order()
    ensures groups { (h : Hashing) (query : Grouped) (rows others : List (List Val)) → IsPermutation rows others → group_units h query rows ≡ group_units h query others }
    ensures group_octets { (query : Grouped) (rows others : List (List Val)) → IsPermutation rows others → group_octets query rows ≡ group_octets query others }
    ensures distinct { (h : Hashing) (rows others : List (List Val)) → IsPermutation rows others → distinct_units h rows ≡ distinct_units h others }
    ensures distinct_octets { (items : ℕ) (rows others : List (List Val)) → IsPermutation rows others → distinct_octets items rows ≡ distinct_octets items others }
{}

/// Over tables whose rows stand in another order, a query asks for the same units and pages.
pub fn tables_in_any_order()
    ensures units { (query : Whole) (tables others : List (List (List Val))) → ArePermuted tables others → whole_units query tables ≡ whole_units query others }
    ensures pages { (query : Whole) (tables others : List (List (List Val))) → ArePermuted tables others → whole_pages query tables ≡ whole_pages query others }
{}

/// Over tables of its entries, the rows of which bounds are told are those that the select list makes by the query's meaning, where nothing was raised
/// before GROUP BY, or, of a query that isn't grouped, nothing at all.
pub fn rows_of_plans()
    ensures { (body : Body) (tables : List (List (List Val))) → IsBody body → AreOfEntries (entries_of (sources_in body)) tables → IsSizedPlan (written (planned_in body))
        → (flow (planned_in body) tables).codes ≡ [] → body_rows body tables ≡ (body_flow body tables).rows }
{}

/// The units of a grouped query behind the rows that reach GROUP BY are those of its entries and of the slots, and the shares of all rows, as they come,
/// and of all groups, at the end; those of DISTINCT are the entries, the slots, and the shares of all rows.
pub fn shares_of_units()
    ensures groups { (h : Hashing) (query : Grouped) (rows : List (List Val)) →
        group_units h query rows ≡ length (group_keys (length query.columns) rows) + h.slots (length (group_keys (length query.columns) rows))
        + sum_by (row_share h query rows) rows + sum_by (group_share query) (groups (length query.columns) rows) }
    ensures distinct { (h : Hashing) (rows : List (List Val)) →
        distinct_units h rows ≡ length (once rows) + h.slots (length (once rows)) + sum_by (key_share h (once rows)) rows }
{}
