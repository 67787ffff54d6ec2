//! What holds of the plan of every query, and of its pipelines. No function here computes anything.

ghost use Rattle.std.specs.Prelude.{◌≡◌, ◌≤◌, List, [], length};
ghost use Rattle.qw_types.specs.declared.value.Val.{Val};
ghost use Rattle.qw_meaning.specs.Select.{AreOfEntries, IsSpecification, entries_of};
ghost use Rattle.qw_grouped.specs.Whole.{Whole, whole_flow, whole_outcome};
ghost use Rattle.qw_algebra.specs.Written as specification;
ghost use Rattle.qw_rewrite.specs.Placed.{IsSizedPlan};
ghost use Rattle.qw_plan.specs.Pipes.{AreOrdered, ComesTo, EndsInResult, pipelines, run_of};
ghost use Rattle.qw_plan.specs.Placed.{placed_plan};
ghost use Rattle.qw_plan.specs.Plan.{Plan, plan_flow, written};
ghost use Rattle.qw_plan.specs.Stages.{Select, select_flow, select_of, select_outcome};
ghost use Rattle.qw_plan.specs.Widths.{AreWide, IsFormed, plan_width};

/// A query, grouped or not, with DISTINCT or without, means what its query specification with the stages behind it does: the same rows in the same
/// order, the same exceptions, and so the same outcome.
pub fn one_meaning()
    ensures flow { (query : Whole) (tables : List (List (List Val))) → select_flow (select_of query) tables ≡ whole_flow query tables }
    ensures outcome { (query : Whole) (tables : List (List (List Val))) → select_outcome (select_of query) tables ≡ whole_outcome query tables }
{}

/// The plan of a query as it is written comes to the query's rows in their order and to its exceptions in theirs, over any tables; and so does the well
/// placed one, over tables of the query's entries whose columns are of sizes that types may have.
pub fn one_plan()
    ensures written { (query : Select) (tables : List (List (List Val))) → 1 ≤ length query.rows.sources → plan_flow tables (written query) ≡ select_flow query tables }
    ensures placed { (query : Select) (tables : List (List (List Val))) → IsSpecification query.rows → AreOfEntries (entries_of query.rows.sources) tables → IsSizedPlan (specification.written query.rows)
        → plan_flow tables (placed_plan (written query)) ≡ select_flow query tables }
{}

/// The plan of a query is formed, and each row of a formed plan has as many values as the plan is wide.
pub fn widths_of_plans()
    ensures formed { (query : Whole) → IsFormed (written (select_of query)) }
    ensures wide { (tables : List (List (List Val))) (plan : Plan) → IsFormed plan → AreWide (plan_width plan) (plan_flow tables plan).rows }
{}

/// A pipeline of a plan walks or looks up only tables that pipelines before it fill for that. All but the last fill a table, and the last makes the
/// result.
pub fn order_of_pipelines()
    ensures before { (plan : Plan) → AreOrdered [] (pipelines plan) }
    ensures last { (plan : Plan) → EndsInResult (pipelines plan) }
{}

/// The pipelines of a plan, each table filled by its own and the last making the plan's rows, run one after another until one raises, come to the plan's
/// rows in their order where nothing is raised; where something is, they raise exceptions of the plan's.
pub fn pipelines_of_plans()
    ensures { (tables : List (List (List Val))) (plan : Plan) → ComesTo (run_of tables plan) (plan_flow tables plan) }
{}

/// So the pipelines of a query's well placed plan come to what the query means.
pub fn pipelines_of_queries()
    ensures { (query : Whole) (tables : List (List (List Val))) → IsSpecification (select_of query).rows → AreOfEntries (entries_of (select_of query).rows.sources) tables
        → IsSizedPlan (specification.written (select_of query).rows) → ComesTo (run_of tables (placed_plan (written (select_of query)))) (whole_flow query tables) }
{}
