//! What holds of the pipelines of every query, over tables whose entries stand in any order. No function here computes anything.

ghost use Rattle.std.specs.Prelude.{◌≡◌, ◌++◌, ◌≤◌, [], ◌∷◌, List, Some, length, slice_get, take};
ghost use Rattle.std.specs.List.{AllByRecursion, AllZip, Contains};
ghost use Rattle.std.specs.List.Sorted.{IsPermutation};
ghost use Rattle.qw_types.specs.declared.code.Code.{Code};
ghost use Rattle.qw_types.specs.declared.value.Val.{Val};
ghost use Rattle.qw_meaning.specs.Outcome.{IsSameOutcome, Raises, Rows, flow, outcome};
ghost use Rattle.qw_meaning.specs.Select.{Specification};
ghost use Rattle.qw_algebra.specs.Node.{Node, node_flow};
ghost use Rattle.qw_pipe.specs.Pipes.{pipelines};
ghost use Rattle.qw_physical.specs.Courses.{AreBuilt, costs, pipeline_cost, pipeline_fed};
ghost use Rattle.qw_physical.specs.Physical.{MayBeNull, Pipeline};
ghost use Rattle.qw_physical.specs.Sides.{FeedsSide, IsApart, IsMadeFor, IsPlanned, ScansNulls, builds_of, last_of, sides};
ghost use Rattle.qw_physical.specs.Spelled.{IsSamePipeline, all_spelled};
ghost use Rattle.qw_physical.specs.declared.pipeline.ReadColumn.{ReadColumn};

/// Where all tables of a query's plan are built, each of the entries that its pipeline fed, in any order, and the last pipeline raises nothing,
/// that one feeds the rows of the query, and so does every order of them.
pub fn rows_of_queries()
    ensures { (query : Specification) (tables : List (List (List Val))) (columns : List ReadColumn) (node : Node) → IsPlanned query tables columns node
        → (more : List (List (List Val))) (rows : List (List Val)) → AreBuilt tables [] (builds_of columns node) more → (pipeline_fed tables more (last_of columns node)).codes ≡ []
        → IsPermutation (pipeline_fed tables more (last_of columns node)).rows rows → IsSameOutcome (outcome query tables) (Rows rows) }
{}

/// An exception of a pipeline, over tables that the pipelines before it built, is one of the query's.
pub fn exceptions_of_pipelines()
    ensures builds { (query : Specification) (tables : List (List (List Val))) (columns : List ReadColumn) (node : Node) → IsPlanned query tables columns node
        → (before : List Pipeline) (p : Pipeline) (after : List Pipeline) (more : List (List (List Val))) → builds_of columns node ≡ before ++ p ∷ after → AreBuilt tables [] before more
        → (code : Code) → Contains (pipeline_fed tables more p).codes code → (outcome query tables ≡ Raises (flow query tables).codes) × Contains (flow query tables).codes code }
    ensures last { (query : Specification) (tables : List (List (List Val))) (columns : List ReadColumn) (node : Node) → IsPlanned query tables columns node
        → (more : List (List (List Val))) → AreBuilt tables [] (builds_of columns node) more
        → (code : Code) → Contains (pipeline_fed tables more (last_of columns node)).codes code → (outcome query tables ≡ Raises (flow query tables).codes) × Contains (flow query tables).codes code }
{}

/// Each pipeline that builds a table feeds entries of its side of a join, at most as many as that has rows, and the last one feeds as many
/// rows as the plan has.
pub fn rows_of_pipelines()
    ensures builds { (query : Specification) (tables : List (List (List Val))) (columns : List ReadColumn) (node : Node) → IsPlanned query tables columns node
        → (before : List Pipeline) (p : Pipeline) (after : List Pipeline) (more : List (List (List Val))) → builds_of columns node ≡ before ++ p ∷ after → AreBuilt tables [] before more
        → (side : Node) × ((slice_get (sides node) (length before) ≡ Some side) × FeedsSide tables more p side) }
    ensures last { (query : Specification) (tables : List (List (List Val))) (columns : List ReadColumn) (node : Node) → IsPlanned query tables columns node
        → (more : List (List (List Val))) → AreBuilt tables [] (builds_of columns node) more → length (pipeline_fed tables more (last_of columns node)).rows ≡ length (node_flow tables node).rows }
{}

/// So the entries of tables that were built are made for their lookups, and there are at most as many as the sides have rows.
pub fn entries_of_tables()
    ensures made { (query : Specification) (tables : List (List (List Val))) (columns : List ReadColumn) (node : Node) → IsPlanned query tables columns node
        → (before after : List Pipeline) (more : List (List (List Val))) → builds_of columns node ≡ before ++ after → AreBuilt tables [] before more
        → AllZip (λ (p : Pipeline) (entries : List (List Val)). AllByRecursion (IsMadeFor p.sink) entries) before more }
    ensures count { (query : Specification) (tables : List (List (List Val))) (columns : List ReadColumn) (node : Node) → IsPlanned query tables columns node
        → (before after : List Pipeline) (more : List (List (List Val))) → builds_of columns node ≡ before ++ after → AreBuilt tables [] before more
        → AllZip (λ (entries : List (List Val)) (side : Node). length entries ≤ length (node_flow tables side).rows) more (take (length before) (sides node)) }
{}

/// The pipelines that build tables come first, in their order, and the one that makes the result comes last. What a lookup keeps is of none of
/// the entries of FROM that its rows are of before it, so that rows are null at it until then.
pub fn order_of_courses()
    ensures pipelines { (columns : List ReadColumn) (node : Node) → all_spelled columns 0 (pipelines node) ≡ builds_of columns node ++ last_of columns node ∷ [] }
    ensures apart { (query : Specification) (tables : List (List (List Val))) (columns : List ReadColumn) (node : Node) → IsPlanned query tables columns node
        → AllByRecursion IsApart (builds_of columns node) × IsApart (last_of columns node) }
    ensures nulls { (query : Specification) (tables : List (List (List Val))) (columns : List ReadColumn) (node : Node) → IsPlanned query tables columns node
        → AllByRecursion (ScansNulls tables) (builds_of columns node) × ScansNulls tables (last_of columns node) }
{}

/// Pipelines that mean the same, expression by expression, feed the same and take as many units.
pub fn same_pipelines()
    ensures fed { (tables built : List (List (List Val))) (p q : Pipeline) → IsSamePipeline p q → pipeline_fed tables built p ≡ pipeline_fed tables built q }
    ensures cost { (tables built : List (List (List Val))) (p q : Pipeline) → IsSamePipeline p q → pipeline_cost tables built p ≡ pipeline_cost tables built q }
    ensures built { (tables : List (List (List Val))) (ps qs : List Pipeline) (built more : List (List (List Val))) → AllZip IsSamePipeline ps qs → AreBuilt tables built ps more → AreBuilt tables built qs more }
    ensures costs { (tables : List (List (List Val))) (ps qs : List Pipeline) (built more : List (List (List Val))) → AllZip IsSamePipeline ps qs → costs tables built ps more ≡ costs tables built qs more }
{}

/// Of the columns that entries of a LEFT JOIN's table keep none is NOT NULL in rows, where a row without a partner is null at them (7.5).
pub fn nulls_of_left_joins()
    ensures builds { (query : Specification) (tables : List (List (List Val))) (columns : List ReadColumn) (node : Node) → IsPlanned query tables columns node
        → AllByRecursion (λ (p : Pipeline). AllByRecursion MayBeNull p.operators) (builds_of columns node) }
    ensures last { (query : Specification) (tables : List (List (List Val))) (columns : List ReadColumn) (node : Node) → IsPlanned query tables columns node
        → AllByRecursion MayBeNull (last_of columns node).operators }
{}
