//! What holds of the plan of every query. No function here computes anything.

ghost use Rattle.std.specs.Prelude.{◌≡◌, ◌≤◌, List, length};
ghost use Rattle.qw_types.specs.declared.value.Val.{Val};
ghost use Rattle.qw_meaning.specs.Outcome.{flow};
ghost use Rattle.qw_meaning.specs.Select.{Specification};
ghost use Rattle.qw_algebra.specs.Node.{node_flow};
ghost use Rattle.qw_algebra.specs.Written.{written};

/// The plan of a query as it is written comes to the query's rows in their order and to its exceptions in theirs, over any tables.
pub fn written_plans()
    ensures { (query : Specification) (tables : List (List (List Val))) → 1 ≤ length query.sources → node_flow tables (written query) ≡ flow query tables }
{}
