//! What holds of the pipelines of every plan. No function here computes anything.

ghost use Rattle.std.specs.Prelude.{◌≡◌, ◌+◌, [], ◌∷◌, List, length, sum_by};
ghost use Rattle.std.specs.List.Sorted.{IsPermutation};
ghost use Rattle.qw_types.specs.Contents.{rows_of};
ghost use Rattle.qw_types.specs.declared.value.Val.{Val};
ghost use Rattle.qw_scalar.specs.Evaluation.{at_row};
ghost use Rattle.qw_scalar.specs.Expression.{Condition, Expression};
ghost use Rattle.qw_scalar.specs.Units.{units_of_all, units_of_items};
ghost use Rattle.qw_meaning.specs.Flow.{each, kept};
ghost use Rattle.qw_meaning.specs.From.{from_sources};
ghost use Rattle.qw_meaning.specs.Outcome.{IsSameOutcome, ended};
ghost use Rattle.qw_meaning.specs.Select.{Entry, alone};
ghost use Rattle.qw_algebra.specs.Node.{Node, node_flow};
ghost use Rattle.qw_algebra.specs.Written.{written};
ghost use Rattle.qw_pipe.specs.Pipes.{AreOrdered, EndsInResult, pipelines, pipelines_flow};
ghost use Rattle.qw_pipe.specs.Units.{Hashing, pipelines_units, units_of};

/// The pipelines of a plan come to its rows in their order, and to its exceptions in some order, since a table is built before the rows that
/// look it up are read.
pub fn pipelines_of_plans()
    ensures rows { (tables : List (List (List Val))) (node : Node) → (pipelines_flow tables (pipelines node)).rows ≡ (node_flow tables node).rows }
    ensures codes { (tables : List (List (List Val))) (node : Node) → IsPermutation (node_flow tables node).codes (pipelines_flow tables (pipelines node)).codes }
{}

/// So they come to the plan's outcome: to the same rows, or to exceptions of which each is one of the plan's, and the other way round.
pub fn outcomes_of_pipelines()
    ensures { (tables : List (List (List Val))) (node : Node) → IsSameOutcome (ended (node_flow tables node).rows (node_flow tables node).codes)
        (ended (pipelines_flow tables (pipelines node)).rows (pipelines_flow tables (pipelines node)).codes) }
{}

/// A pipeline of a plan looks up only tables that pipelines before it build, each to be looked up as it is. All but the last build a table,
/// and the last makes the result.
pub fn order_of_pipelines()
    ensures before { (node : Node) → AreOrdered [] (pipelines node) }
    ensures last { (node : Node) → EndsInResult (pipelines node) }
{}

/// The units of a plan's pipelines, each over the tables that those before it built, are the plan's, whatever its hash tables do.
pub fn units_of_pipelines()
    ensures { (h : Hashing) (tables : List (List (List Val))) (node : Node) → pipelines_units h tables (record { built = []; codes = [] }) (pipelines node) ≡ units_of h tables node }
{}

/// The units of a query over one table, by its plan as written, but for its result rows: the rows of the table, and of each comparison of texts that
/// compares most its octets, WHERE's at each row of the table and the select list's at each row that WHERE leaves.
pub fn units_of_one_table()
    ensures { (h : Hashing) (tables : List (List (List Val))) (entry : Entry) (conjuncts : List Condition) (items : List Expression) →
        units_of h tables (written (record { sources = alone entry ∷ []; conjuncts = conjuncts; items = items }))
        ≡ length (rows_of tables entry.table)
        + (sum_by (λ (row : List Val). units_of_all conjuncts (at_row row)) (from_sources (alone entry ∷ []) tables).rows
        + sum_by (λ (row : List Val). units_of_items items (at_row row)) (each (kept conjuncts) (from_sources (alone entry ∷ []) tables)).rows) }
{}
