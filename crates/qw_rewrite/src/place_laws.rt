//! What holds of the well placed plan of every query. No function here computes anything.

ghost use Rattle.std.specs.Prelude.{◌≡◌, true, List};
ghost use Rattle.std.specs.List.{AllByRecursion};
ghost use Rattle.std.specs.List.Sorted.{IsPermutation};
ghost use Rattle.qw_types.specs.Value.{IsSized};
ghost use Rattle.qw_types.specs.declared.schema.ColumnType.{ColumnType};
ghost use Rattle.qw_types.specs.declared.value.Val.{Val};
ghost use Rattle.qw_meaning.specs.Outcome.{flow};
ghost use Rattle.qw_meaning.specs.Select.{AreOfEntries, Entry, IsSpecification, Specification, entries_of};
ghost use Rattle.qw_algebra.specs.Node.{Node, node_flow};
ghost use Rattle.qw_algebra.specs.Written.{written};
ghost use Rattle.qw_algebra.specs.Columns.{entries_below};
ghost use Rattle.qw_rewrite.specs.Lowest.{NamesBelow, StandLow, StayInOrder};
ghost use Rattle.qw_rewrite.specs.Placed.{IsSizedPlan, IsWellPlaced, conjuncts_of};
ghost use Rattle.qw_rewrite.specs.Probed.{AreProbes};

/// The well placed plan of a query comes to its rows in their order and to its exceptions in theirs, over all tables of its entries.
pub fn well_placed_flow()
    ensures { (query : Specification) (tables : List (List (List Val))) (node : Node) → IsSpecification query → AreOfEntries (entries_of query.sources) tables → IsSizedPlan (written query)
        → IsWellPlaced query node → node_flow tables node ≡ flow query tables }
{}

/// The plan of a query as it is written may be rewritten where the columns of its entries are of sizes that types may have.
pub fn written_plans_are_sized()
    ensures { (query : Specification) → IsSpecification query → AllByRecursion (λ (entry : Entry). AllByRecursion (λ (column : ColumnType). IsSized column.ty) entry.columns) (entries_of query.sources)
        → IsSizedPlan (written query) }
{}

/// A well placed plan has each conjunct of the query once, and a scan of each entry, in the order of the text.
pub fn nothing_is_lost()
    ensures conjuncts { (query : Specification) (node : Node) → IsWellPlaced query node → IsPermutation (conjuncts_of (written query)) (conjuncts_of node) }
    ensures entries { (query : Specification) (node : Node) → IsWellPlaced query node → entries_below node ≡ entries_below (written query) }
{}

/// In a well placed plan each conjunct names only columns of the entries below its step, and no conjunct that may move could stand lower. Each
/// clause has first what came down to it, of which nothing can raise,
/// and then those of its own that stay, in their order.
pub fn each_has_its_place()
    ensures below { (query : Specification) (node : Node) → IsSpecification query → IsWellPlaced query node → NamesBelow node }
    ensures low { (query : Specification) (node : Node) → IsWellPlaced query node → StandLow true node }
    ensures in_order { (query : Specification) (node : Node) → IsWellPlaced query node → StayInOrder true (written query) node }
{}

/// Each join of a well placed plan comes to what its keys find: of each row of the left side, the rows of the right side with equal values at
/// each key, of which the other conjuncts of its ON are tested.
pub fn joins_are_probes()
    ensures { (query : Specification) (tables : List (List (List Val))) (node : Node) → IsSpecification query → AreOfEntries (entries_of query.sources) tables → IsSizedPlan (written query)
        → IsWellPlaced query node → AreProbes tables node }
{}
