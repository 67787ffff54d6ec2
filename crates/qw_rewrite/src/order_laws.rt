//! What holds of the order of joins and of the sides that they are built from, and worked cases. No function here computes anything.

ghost use Rattle.std.specs.Prelude.{◌≡◌, ◌∷◌, ℕ, List, [], false, true};
ghost use Rattle.std.specs.List.Sorted.{IsPermutation};
ghost use Rattle.qw_types.specs.declared.value.Ty.TheVariants.{Integer};
ghost use Rattle.qw_types.specs.declared.value.Val.{Val};
ghost use Rattle.qw_scalar.specs.declared.comparison.Comparison.TheVariants.{Equal};
ghost use Rattle.qw_scalar.specs.Expression.{column, comparison};
ghost use Rattle.qw_meaning.specs.Outcome.{flow};
ghost use Rattle.qw_meaning.specs.Select.{AreOfEntries, IsSpecification, Specification, entries_of};
ghost use Rattle.qw_algebra.specs.Node.{Node, filter, join, node_flow, project, scan};
ghost use Rattle.qw_algebra.specs.Written.{written};
ghost use Rattle.qw_rewrite.specs.Order.{in_order, ordered, turned};
ghost use Rattle.qw_rewrite.specs.Placed.{IsSizedPlan, IsWellPlaced};
ghost use Rattle.qw_rewrite.specs.Probed.{AreProbes};

/// Whatever the counts, a well placed plan in their order, each join built from its side of fewer rows, has the query's rows and exceptions, each
/// as often.
pub fn orders_keep_the_bag()
    ensures rows { (query : Specification) (tables : List (List (List Val))) (counts : List ℕ) (node : Node) → IsSpecification query → AreOfEntries (entries_of query.sources) tables → IsSizedPlan (written query)
        → IsWellPlaced query node → IsPermutation (node_flow tables (turned counts (ordered counts node))).rows (flow query tables).rows }
    ensures codes { (query : Specification) (tables : List (List (List Val))) (counts : List ℕ) (node : Node) → IsSpecification query → AreOfEntries (entries_of query.sources) tables → IsSizedPlan (written query)
        → IsWellPlaced query node → IsPermutation (node_flow tables (turned counts (ordered counts node))).codes (flow query tables).codes }
{}

/// Each join of such a plan, built from either side, comes to what its keys find.
pub fn ordered_joins_are_probes()
    ensures { (query : Specification) (tables : List (List (List Val))) (counts : List ℕ) (node : Node) → IsSpecification query → AreOfEntries (entries_of query.sources) tables → IsSizedPlan (written query)
        → IsWellPlaced query node → AreProbes tables (turned counts (ordered counts node)) }
{}

/// `FROM ITEM, T, BIG WHERE ITEM.ID = BIG.K AND BIG.K = T.A` over 3, 10 and 100,000 rows is ordered BIG, ITEM, T; over none it is ITEM, BIG, T.
pub fn orders_of_entries()
    ensures most_first { in_order (3 ∷ 10 ∷ 100000 ∷ []) (comparison Equal (column 0 Integer) (column 128 Integer) ∷ comparison Equal (column 128 Integer) (column 64 Integer) ∷ [])
        (record { entry = 0; table = 0 } ∷ record { entry = 1; table = 1 } ∷ record { entry = 2; table = 2 } ∷ [])
        ≡ record { entry = 2; table = 2 } ∷ record { entry = 0; table = 0 } ∷ record { entry = 1; table = 1 } ∷ [] }
    ensures ties { in_order (0 ∷ 0 ∷ 0 ∷ []) (comparison Equal (column 0 Integer) (column 128 Integer) ∷ comparison Equal (column 128 Integer) (column 64 Integer) ∷ [])
        (record { entry = 0; table = 0 } ∷ record { entry = 1; table = 1 } ∷ record { entry = 2; table = 2 } ∷ [])
        ≡ record { entry = 0; table = 0 } ∷ record { entry = 2; table = 2 } ∷ record { entry = 1; table = 1 } ∷ [] }
{}

/// The plan of that query, as the text nests it and in order: where the product of ITEM and T was, both joins have a key.
pub fn plans_in_order()
    ensures { ordered (3 ∷ 10 ∷ 100000 ∷ [])
        (project (filter [] (join false (join false (filter [] (scan 0 0)) (filter [] (scan 1 1)) [] []) (filter [] (scan 2 2))
        (comparison Equal (column 0 Integer) (column 128 Integer) ∷ comparison Equal (column 128 Integer) (column 64 Integer) ∷ []) (0 ∷ 1 ∷ []))) (column 64 Integer ∷ []))
        ≡ project (filter [] (join false (join false (filter [] (scan 2 2)) (filter [] (scan 0 0)) (comparison Equal (column 0 Integer) (column 128 Integer) ∷ []) (0 ∷ []))
        (filter [] (scan 1 1)) (comparison Equal (column 128 Integer) (column 64 Integer) ∷ []) (0 ∷ []))) (column 64 Integer ∷ []) }
{}

/// An inner join is built from the side whose tables have fewer rows in all, from the right one at a tie; a LEFT JOIN from its right side.
pub fn sides_that_are_built()
    ensures fewer { turned (3 ∷ 10 ∷ []) (join false (scan 0 0) (scan 1 1) [] []) ≡ join false (scan 1 1) (scan 0 0) [] [] }
    ensures tie { turned (10 ∷ 10 ∷ []) (join false (scan 0 0) (scan 1 1) [] []) ≡ join false (scan 0 0) (scan 1 1) [] [] }
    ensures summed { turned (3 ∷ 4 ∷ 5 ∷ []) (join false (join false (scan 0 0) (scan 1 1) [] []) (scan 2 2) [] []) ≡ join false (join false (scan 1 1) (scan 0 0) [] []) (scan 2 2) [] [] }
    ensures outer { turned (3 ∷ 10 ∷ []) (join true (scan 0 0) (scan 1 1) [] []) ≡ join true (scan 0 0) (scan 1 1) [] [] }
{}
