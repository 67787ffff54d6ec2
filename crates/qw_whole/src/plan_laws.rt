//! What holds of the bounds of every plan of a whole query, and worked cases, counted by hand. No function here computes anything.

ghost use Rattle.std.specs.Prelude.{◌≡◌, ◌+◌, ◌≤◌, List, [], length};
ghost use Rattle.qw_types.specs.declared.value.Val.{Val};
ghost use Rattle.qw_meaning.specs.WorkedQueries.{four_tables};
ghost use Rattle.qw_grouped.specs.Whole.{Whole};
ghost use Rattle.qw_grouped.specs.WorkedGroups.{all_of};
ghost use Rattle.qw_pipe.specs.General.{general_hashing};
ghost use Rattle.qw_pipe.specs.Units.{Hashing};
ghost use Rattle.qw_plan.specs.Pipes.{pipeline_flow, pipelines, split};
ghost use Rattle.qw_plan.specs.Placed.{placed_plan};
ghost use Rattle.qw_plan.specs.Plan.{Plan, written};
ghost use Rattle.qw_plan.specs.Stages.{select_of};
ghost use Rattle.qw_plan.specs.WorkedSelects.{both_raise, distinct_labels, labels_counted};
ghost use Rattle.qw_whole.specs.PipeUnits.{all_filled, pipelines_units, run_units};
ghost use Rattle.qw_whole.specs.PlanBounds.{plan_pages, plan_rows, plan_taken, plan_units};
ghost use Rattle.qw_whole.specs.WholePromises.{taken, whole_pages, whole_units};

/// What a query promises of units, of tables and of pages is what its well placed plan takes, stage by stage, and of units one for each row of the result.
pub fn bounds_of_plans()
    ensures units { (query : Whole) (tables : List (List (List Val)))
        → whole_units query tables ≡ plan_units general_hashing tables (placed_plan (written (select_of query))) + length (plan_rows tables (placed_plan (written (select_of query)))) }
    ensures taken { (query : Whole) (tables : List (List (List Val))) → taken query tables ≡ plan_taken tables (placed_plan (written (select_of query))) }
    ensures pages { (query : Whole) (tables : List (List (List Val))) → whole_pages query tables ≡ plan_pages tables (placed_plan (written (select_of query))) }
{}

/// The units of a plan's pipelines, each over the tables that those before it fill, are the plan's, whatever its hash tables do, and the last makes the
/// rows that are counted, as if nothing were raised. Those of the pipelines that run, up to the first that raises, are no more.
pub fn units_of_pipelines()
    ensures all { (h : Hashing) (tables : List (List (List Val))) (plan : Plan) → pipelines_units h tables [] (pipelines plan) ≡ plan_units h tables plan }
    ensures rows { (tables : List (List (List Val))) (plan : Plan) → (pipeline_flow tables (all_filled tables [] (split 0 plan).builds) (split 0 plan).last).rows ≡ plan_rows tables plan }
    ensures run { (h : Hashing) (tables : List (List (List Val))) (plan : Plan) → run_units h tables [] (pipelines plan) ≤ plan_units h tables plan }
{}

/// `SELECT A.LABEL, COUNT(*) FROM ITEM A JOIN ITEM B ON A.LABEL = B.LABEL GROUP BY A.ID, A.LABEL` over 1, 'pen', 2, 'ink' and 3, 'pen'. The join: 3 rows
/// and 3 are scanned; 3 entries, 4 octets folded of each of 6 keys, 1,024 slots, five pairs of a row and an entry of its label, each 4, and 6 octets that
/// ON compares at each: 1,107. Five rows reach GROUP BY. Their groups: 3 entries, 13 octets folded of each row's key, 1,024 slots, and one entry of its
/// own that each row meets, 4: 1,112. These are 2,219. DISTINCT of the three rows that are made takes 2 entries, 13 octets of each row, 1,024 slots, and 4
/// at each row: 1,077 more.
pub fn units_of_stages()
    ensures grouped { plan_units general_hashing four_tables (placed_plan (written (select_of (all_of labels_counted)))) ≡ 2219 }
    ensures distinct { plan_units general_hashing four_tables (placed_plan (written (select_of distinct_labels))) ≡ 3296 }
{}

/// Its tables, each with a directory of 4,096 octets: of the join, 3 entries of 56 octets, 24 and 16 for the key and for the one column of B that is read;
/// of the groups, 3 of 88, with two columns and a set function; of the distinct rows, 2 of 56. Two result rows of 40 octets with all of these are less than
/// a page less 88: so with DISTINCT it is 8 pages, 2 and 2 for each table, and without it 6.
pub fn pages_of_stages()
    ensures tables { plan_taken four_tables (placed_plan (written (select_of distinct_labels))) ≡ record { tables = 3; octets = 12832; greatest = 88 } }
    ensures grouped { plan_pages four_tables (placed_plan (written (select_of (all_of labels_counted)))) ≡ 6 }
    ensures distinct { plan_pages four_tables (placed_plan (written (select_of distinct_labels))) ≡ 8 }
{}

/// ITEM where 10 / (ID - 1) > 6, one row and an exception, joined with ITEM where ID + 999999999999999999 > 0, which has no row and three exceptions: 3 rows
/// are scanned, 3 again, and there are 1,024 slots. A run scans the right side's 3 and ends.
pub fn units_of_a_run()
    ensures plan { plan_units general_hashing four_tables both_raise ≡ 1030 }
    ensures run { run_units general_hashing four_tables [] (pipelines both_raise) ≡ 3 }
{}
