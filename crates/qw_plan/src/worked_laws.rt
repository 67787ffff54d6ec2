//! Worked cases of plans and their pipelines, found by hand. No function here computes anything.

ghost use Rattle.std.specs.Prelude.{◌≡◌, pos, false, [], ◌∷◌};
ghost use Rattle.qw_types.specs.declared.code.Code.TheVariants.{DivZero, OutOfRange};
ghost use Rattle.qw_types.specs.declared.value.Ty.TheVariants.{Integer, Varchar};
ghost use Rattle.qw_types.specs.declared.value.Val.TheVariants.{Num, Text};
ghost use Rattle.qw_scalar.specs.Expression.{column, number};
ghost use Rattle.qw_scalar.specs.WorkedRows.{ink, pen};
ghost use Rattle.qw_meaning.specs.WorkedQueries.{four_tables};
ghost use Rattle.qw_grouped.specs.WorkedGroups.{label_at, number_at};
ghost use Rattle.qw_grouped.specs.declared.set_function.SetFunctionKind.TheVariants.{CountRows};
ghost use Rattle.qw_algebra.specs.Node as node;
ghost use Rattle.qw_pipe.specs.Pipes.{make, probe, test};
ghost use Rattle.qw_plan.specs.Pipes.{AreOrdered, EndsInResult, run_of, scan, split, to_lookup, to_result, to_walk, walk};
ghost use Rattle.qw_plan.specs.Plan.{plan_flow, rows, stage, written};
ghost use Rattle.qw_plan.specs.Stages.{distinct, group, select_of};
ghost use Rattle.qw_plan.specs.Widths.{IsFormed, plan_width};
ghost use Rattle.qw_plan.specs.WorkedSelects.{both_raise, distinct_labels, same_label};

/// `SELECT DISTINCT A.LABEL, COUNT(*) FROM ITEM A JOIN ITEM B ON A.LABEL = B.LABEL GROUP BY A.ID, A.LABEL`: B's rows fill table 0, A's look it up and
/// their pairs fill table 1, whose groups fill table 2, whose distinct rows are the result. The items 1, 'pen', 2, 'ink' and 3, 'pen' have 2, 1 and 2
/// partners; so there are two rows, each of two values.
pub fn groups_of_a_join()
    ensures pipelines { split 0 (written (select_of distinct_labels)) ≡ record {
      builds = record { source = scan 1 3; steps = []; target = to_lookup (record { entries = 1 ∷ []; outer = false; on = same_label ∷ []; keys = [] }) }
          ∷ record {
            source = scan 0 3;
            steps = probe 0 (record { entries = 1 ∷ []; outer = false; on = same_label ∷ []; keys = [] }) ∷ test []
                ∷ make (column 0 Integer ∷ column 3 (Varchar 20) ∷ number (pos 1) 0 ∷ []) ∷ [];
            target = to_walk (group 2 (CountRows ∷ []));
          }
          ∷ record { source = walk (group 2 (CountRows ∷ [])) 1; steps = test [] ∷ make (label_at 1 ∷ number_at 0 2 ∷ []) ∷ []; target = to_walk distinct }
          ∷ [];
      last = record { source = walk distinct 2; steps = []; target = to_result };
    } }
    ensures run { run_of four_tables (written (select_of distinct_labels)) ≡ record { rows = (Text pen ∷ Num (pos 2) ∷ []) ∷ (Text ink ∷ Num (pos 1) ∷ []) ∷ []; codes = [] } }
    ensures width { plan_width (written (select_of distinct_labels)) ≡ 2 }
{}

/// ITEM where 10 / (ID - 1) > 6, which raises 22012 at the first row, joined with ITEM where ID + 999999999999999999 > 0, which raises 22003 at each of
/// its three: the plan has all four exceptions. A run fills the right side's table first, and ends there with its three.
pub fn runs_stop()
    ensures plan { plan_flow four_tables both_raise ≡ record { rows = []; codes = DivZero ∷ OutOfRange ∷ OutOfRange ∷ OutOfRange ∷ [] } }
    ensures run { run_of four_tables both_raise ≡ record { rows = []; codes = OutOfRange ∷ OutOfRange ∷ OutOfRange ∷ [] } }
{}

/// Not in order: a pipeline that walks the groups of a table whose rows were put there to be looked up, and one that walks a table that none filled. Pipelines
/// whose last fills a table don't end in a result.
pub fn not_in_order()
    ensures other_use { AreOrdered []
        (record { source = scan 0 3; steps = []; target = to_lookup (record { entries = 0 ∷ []; outer = false; on = []; keys = [] }) }
        ∷ record { source = walk (group 1 []) 0; steps = []; target = to_result } ∷ []) → ⊥ }
    ensures other_stage { AreOrdered []
        (record { source = scan 0 3; steps = make (column 0 Integer ∷ []) ∷ []; target = to_walk distinct }
        ∷ record { source = walk (group 1 []) 0; steps = []; target = to_result } ∷ []) → ⊥ }
    ensures not_filled { AreOrdered [] (record { source = walk distinct 0; steps = []; target = to_result } ∷ []) → ⊥ }
    ensures no_result { EndsInResult (record { source = scan 0 3; steps = []; target = to_walk distinct } ∷ []) → ⊥ }
{}

/// Not formed: rows that no list made, and groups by two columns of rows of one value.
pub fn not_formed()
    ensures no_list { IsFormed (rows (node.scan 0 3)) → ⊥ }
    ensures few_columns { IsFormed (stage (group 2 []) (rows (node.project (node.scan 0 3) (column 0 Integer ∷ [])))) → ⊥ }
{}
