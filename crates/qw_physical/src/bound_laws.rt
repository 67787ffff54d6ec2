//! What the pipelines of every query take. No function here computes anything.

ghost use Rattle.std.specs.Prelude.{◌≡◌, ◌≤◌, ℕ, ◌+◌, ◌*◌, max, true, List, [], ◌++◌, length, map};
ghost use Rattle.std.specs.List.{AllByRecursion, filter};
ghost use Rattle.qw_types.specs.declared.value.Val.{Val};
ghost use Rattle.qw_meaning.specs.Query.{QueryParts, query_of};
ghost use Rattle.qw_meaning.specs.Select.{AreOfEntries, IsSpecification, Specification, entries_of};
ghost use Rattle.qw_algebra.specs.Columns.{is_of};
ghost use Rattle.qw_algebra.specs.Node.{Node, node_flow};
ghost use Rattle.qw_algebra.specs.Written.{written};
ghost use Rattle.qw_rewrite.specs.Placed.{IsSizedPlan, IsWellPlaced};
ghost use Rattle.qw_pipe.specs.General.{general_hashing};
ghost use Rattle.qw_pipe.specs.Octets.{greatest_entry, table_count, table_octets};
ghost use Rattle.qw_pipe.specs.Pipes.{pipelines};
ghost use Rattle.qw_pipe.specs.Units.{units_of};
ghost use Rattle.qw_physical.specs.Courses.{AreBuilt, costs};
ghost use Rattle.qw_physical.specs.Held.{held, kept_of, sink_size};
ghost use Rattle.qw_physical.specs.Physical.{Pipeline};
ghost use Rattle.qw_physical.specs.Reads.{AreRead, AreScaled};
ghost use Rattle.qw_physical.specs.Spelled.{all_spelled};
ghost use Rattle.qw_physical.specs.declared.pipeline.ReadColumn.{ReadColumn};

use qw_types::value_order_laws::order_laws;

/// The pipelines of a query's well placed plan, spelled out, take together no more than the units of the plan, in whatever order the entries of
/// their tables stand. So do those that have run and the next one, where it raises an exception.
pub fn units_of_queries()
    ensures { (query : Specification) (tables : List (List (List Val))) (node : Node) (columns : List ReadColumn) (front back : List Pipeline) (more : List (List (List Val)))
        → IsSpecification query → AreOfEntries (entries_of query.sources) tables → IsSizedPlan (written query) → IsWellPlaced query node → AreRead columns query → AreScaled query
        → all_spelled columns 0 (pipelines node) ≡ front ++ back → AreBuilt tables [] front more → costs tables [] (front ++ back) more ≤ units_of general_hashing tables node }
{
    order_laws();
}

/// What they put into memory is within what the plan is said to hold, where entries keep as many columns as are read of the entries of FROM on the
/// built side: the octets of directories, entries and result rows together, and the greatest entry or row. There is a table for each join.
pub fn octets_of_queries()
    ensures held { (query : Specification) (tables : List (List (List Val))) (node : Node) (columns : List ReadColumn) (front back : List Pipeline) (more : List (List (List Val)))
        → IsSpecification query → AreOfEntries (entries_of query.sources) tables → IsSizedPlan (written query) → IsWellPlaced query node → AreRead columns query → AreScaled query
        → all_spelled columns 0 (pipelines node) ≡ front ++ back → AreBuilt tables [] front more
        → held tables [] (front ++ back) more ≤ table_octets (kept_of columns) tables node + length (node_flow tables node).rows * (8 + 16 * length query.items) }
    ensures sizes { (query : Specification) (node : Node) (columns : List ReadColumn) → IsWellPlaced query node
        → AllByRecursion (λ (p : Pipeline). sink_size p.sink ≤ max (8 + 16 * length query.items) (greatest_entry (kept_of columns) node)) (all_spelled columns 0 (pipelines node)) }
    ensures count { (query : Specification) (node : Node) (columns : List ReadColumn) → IsWellPlaced query node → length (all_spelled columns 0 (pipelines node)) ≡ table_count node + 1 }
    ensures numbers { (columns : List ReadColumn) (entries : List ℕ) → kept_of columns entries ≡ length (filter (is_of entries) (map (λ (c : ReadColumn). c.number) columns)) }
{
    order_laws();
}

/// Equalities of a query of the code compare operands of one scale where they are of one kind, since the results of a CASE are brought to one.
pub fn scales_of_queries()
    ensures { (parts : QueryParts) → IsSpecification (query_of parts) → AreScaled (query_of parts) }
{}
