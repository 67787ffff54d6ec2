//! Worked cases of pipelines, with numbers. No function here computes anything.

ghost use Rattle.std.specs.Prelude.{◌≡◌, pos, false, true, [], ◌∷◌};
ghost use Rattle.qw_types.specs.declared.code.Code.TheVariants.{DivZero, OutOfRange};
ghost use Rattle.qw_types.specs.declared.value.Ty.TheVariants.{Integer, Varchar};
ghost use Rattle.qw_types.specs.declared.value.Val.TheVariants.{Null, Num};
ghost use Rattle.qw_scalar.specs.declared.comparison.Comparison.TheVariants.{Equal};
ghost use Rattle.qw_scalar.specs.Expression.{column, comparison, text};
ghost use Rattle.qw_scalar.specs.WorkedRows.{pen};
ghost use Rattle.qw_meaning.specs.WorkedQueries.{four_tables, is_next, quotient_above_six};
ghost use Rattle.qw_algebra.specs.Node.{filter, join, node_flow, project, scan};
ghost use Rattle.qw_algebra.specs.WorkedPlans.{above_two, item_and_joined, left_joined_above, next_items};
ghost use Rattle.qw_algebra.specs.Written.{written};
ghost use Rattle.qw_pipe.specs.Pipes.{AreOrdered, EndsInResult, make, pipelines, pipelines_flow, probe, test, to_result, to_table};
ghost use Rattle.qw_pipe.specs.Units.{units_of};
ghost use Rattle.qw_pipe.specs.WorkedPipes.{by_entries, by_number, one_slot, past_range};

/// `ITEM A, ITEM B WHERE A.ID = B.ID + 1 AND A.ID > 2`, where A.ID > 2 is tested before A is joined: B is built, and A looks it up.
pub fn one_join()
    ensures pipelines { pipelines (project (join false (filter (above_two ∷ []) (scan 0 3)) (scan 1 3) (is_next 0 64 ∷ []) (0 ∷ [])) (column 0 Integer ∷ []))
        ≡ record { entry = 1; table = 3; steps = []; target = to_table (record { entries = 1 ∷ []; outer = false; on = is_next 0 64 ∷ []; keys = 0 ∷ [] }) }
        ∷ record {
          entry = 0;
          table = 3;
          steps = test (above_two ∷ []) ∷ probe 0 (record { entries = 1 ∷ []; outer = false; on = is_next 0 64 ∷ []; keys = 0 ∷ [] }) ∷ make (column 0 Integer ∷ []) ∷ [];
          target = to_result;
        } ∷ [] }
    ensures flow { pipelines_flow four_tables (pipelines (written next_items)) ≡ record { rows = (Num (pos 3) ∷ Num (pos 2) ∷ []) ∷ []; codes = [] } }
{}

/// `ITEM A LEFT JOIN ITEM B ON A.ID = B.ID + 1`: B is built, and each row of A looks it up; the first, which finds no partner, goes on by itself.
/// `A LEFT JOIN B ON A.K = B.K + 1 WHERE 10 / (A.K - 1) > 6` raises at the two rows of A that are 1, which no row of B is beside.
pub fn one_left_join()
    ensures pipelines { pipelines (project (join true (scan 0 3) (scan 1 3) (is_next 0 64 ∷ []) (0 ∷ [])) (column 0 Integer ∷ column 64 Integer ∷ []))
        ≡ record { entry = 1; table = 3; steps = []; target = to_table (record { entries = 1 ∷ []; outer = true; on = is_next 0 64 ∷ []; keys = 0 ∷ [] }) }
        ∷ record {
          entry = 0;
          table = 3;
          steps = probe 0 (record { entries = 1 ∷ []; outer = true; on = is_next 0 64 ∷ []; keys = 0 ∷ [] }) ∷ make (column 0 Integer ∷ column 64 Integer ∷ []) ∷ [];
          target = to_result;
        } ∷ [] }
    ensures flow { pipelines_flow four_tables (pipelines (project (join true (scan 0 3) (scan 1 3) (is_next 0 64 ∷ []) (0 ∷ [])) (column 0 Integer ∷ column 64 Integer ∷ [])))
        ≡ record { rows = (Num (pos 1) ∷ Null ∷ []) ∷ (Num (pos 2) ∷ Num (pos 1) ∷ []) ∷ (Num (pos 3) ∷ Num (pos 2) ∷ []) ∷ []; codes = [] } }
    ensures behind { pipelines_flow four_tables (pipelines (written left_joined_above)) ≡ record { rows = []; codes = DivZero ∷ DivZero ∷ [] } }
{}

/// `ITEM, A JOIN B ON A.K = B.K`: B is built, A looks it up and its pairs are built, as rows of entries 1 and 2, and ITEM looks those up.
pub fn built_of_a_join()
    ensures { pipelines (written item_and_joined)
        ≡ record { entry = 2; table = 1; steps = []; target = to_table (record { entries = 2 ∷ []; outer = false; on = comparison Equal (column 64 Integer) (column 128 Integer) ∷ []; keys = [] }) }
        ∷ record {
          entry = 1;
          table = 0;
          steps = probe 0 (record { entries = 2 ∷ []; outer = false; on = comparison Equal (column 64 Integer) (column 128 Integer) ∷ []; keys = [] }) ∷ [];
          target = to_table (record { entries = 1 ∷ 2 ∷ []; outer = false; on = []; keys = [] });
        }
        ∷ record {
          entry = 0;
          table = 3;
          steps = probe 1 (record { entries = 1 ∷ 2 ∷ []; outer = false; on = []; keys = [] }) ∷ test [] ∷ make (column 0 Integer ∷ []) ∷ [];
          target = to_result;
        } ∷ [] }
{}

/// Not in order: a pipeline that looks up a table which none built before it, and one whose table was built to be looked up by another key, or
/// for an inner join where the lookup is a LEFT JOIN's.
/// Pipelines without a last one that makes the result don't end in it.
pub fn orders()
    ensures not_built { AreOrdered [] (record { entry = 0; table = 0; steps = probe 0 (record { entries = 1 ∷ []; outer = false; on = []; keys = [] }) ∷ []; target = to_result } ∷ []) → ⊥ }
    ensures other_key { AreOrdered []
        (record { entry = 1; table = 1; steps = []; target = to_table (record { entries = 1 ∷ []; outer = false; on = is_next 0 64 ∷ []; keys = [] }) }
        ∷ record { entry = 0; table = 0; steps = probe 0 (record { entries = 1 ∷ []; outer = false; on = is_next 0 64 ∷ []; keys = 0 ∷ [] }) ∷ []; target = to_result } ∷ []) → ⊥ }
    ensures other_join { AreOrdered []
        (record { entry = 1; table = 1; steps = []; target = to_table (record { entries = 1 ∷ []; outer = false; on = []; keys = [] }) }
        ∷ record { entry = 0; table = 0; steps = probe 0 (record { entries = 1 ∷ []; outer = true; on = []; keys = [] }) ∷ []; target = to_result } ∷ []) → ⊥ }
    ensures no_result { EndsInResult (record { entry = 1; table = 1; steps = []; target = to_table (record { entries = 1 ∷ []; outer = false; on = []; keys = [] }) } ∷ []) → ⊥ }
{}

/// The exceptions of the right side come first: of ITEM where 10 / (ID - 1) > 6, which raises 22012 at the first row, joined with ITEM where
/// ID + 999999999999999999 > 0, which raises 22003 at each of its three. So it is of a LEFT JOIN, where the row that is left, 2, has no partner.
pub fn exceptions_of_pipelines()
    ensures of_plan { node_flow four_tables (join false (filter (quotient_above_six 0 ∷ []) (scan 0 3)) (filter (past_range ∷ []) (scan 1 3)) [] [])
        ≡ record { rows = []; codes = DivZero ∷ OutOfRange ∷ OutOfRange ∷ OutOfRange ∷ [] } }
    ensures of_pipelines { pipelines_flow four_tables (pipelines (join false (filter (quotient_above_six 0 ∷ []) (scan 0 3)) (filter (past_range ∷ []) (scan 1 3)) [] []))
        ≡ record { rows = []; codes = OutOfRange ∷ OutOfRange ∷ OutOfRange ∷ DivZero ∷ [] } }
    ensures of_left_join { node_flow four_tables (project (join true (filter (quotient_above_six 0 ∷ []) (scan 0 3)) (filter (past_range ∷ []) (scan 1 3)) [] []) (column 0 Integer ∷ []))
        ≡ record { rows = (Num (pos 2) ∷ []) ∷ []; codes = DivZero ∷ OutOfRange ∷ OutOfRange ∷ OutOfRange ∷ [] } }
    ensures of_its_pipelines { pipelines_flow four_tables (pipelines (project (join true (filter (quotient_above_six 0 ∷ []) (scan 0 3)) (filter (past_range ∷ []) (scan 1 3)) [] []) (column 0 Integer ∷ [])))
        ≡ record { rows = (Num (pos 2) ∷ []) ∷ []; codes = OutOfRange ∷ OutOfRange ∷ OutOfRange ∷ DivZero ∷ [] } }
{}

/// `SELECT A.K FROM A JOIN B ON A.K = B.K`, A and B being 1, 1 and null, scans 3 rows and 3 rows, keeps 2 entries, since the key of the third row is
/// null, folds 54 octets, makes 1,024 slots, and meets each of 2 entries with each of 3 rows where all are in one slot, 4 pairs where each number has
/// its own; without the key it keeps 3, folds none and meets 9. As a LEFT JOIN it takes as much, and without
/// the key 3 more, the turn of each of A's rows by itself. `ITEM JOIN A ON A.K = ITEM.ID` meets 2: the operand with A's column is the table's. That rows are made counts nothing here.
pub fn units_of_joins()
    ensures in_one_slot { units_of one_slot four_tables
        (project (join false (scan 0 0) (scan 1 1) (comparison Equal (column 0 Integer) (column 64 Integer) ∷ []) (0 ∷ [])) (column 0 Integer ∷ [])) ≡ 1092 }
    ensures in_own_slots { units_of by_number four_tables
        (project (join false (scan 0 0) (scan 1 1) (comparison Equal (column 0 Integer) (column 64 Integer) ∷ []) (0 ∷ [])) (column 0 Integer ∷ [])) ≡ 1090 }
    ensures no_key { units_of by_number four_tables
        (project (join false (scan 0 0) (scan 1 1) (comparison Equal (column 0 Integer) (column 64 Integer) ∷ []) []) (column 0 Integer ∷ [])) ≡ 1042 }
    ensures outer_in_one_slot { units_of one_slot four_tables
        (project (join true (scan 0 0) (scan 1 1) (comparison Equal (column 0 Integer) (column 64 Integer) ∷ []) (0 ∷ [])) (column 0 Integer ∷ [])) ≡ 1092 }
    ensures outer_in_own_slots { units_of by_number four_tables
        (project (join true (scan 0 0) (scan 1 1) (comparison Equal (column 0 Integer) (column 64 Integer) ∷ []) (0 ∷ [])) (column 0 Integer ∷ [])) ≡ 1090 }
    ensures outer_without_key { units_of by_number four_tables
        (project (join true (scan 0 0) (scan 1 1) (comparison Equal (column 0 Integer) (column 64 Integer) ∷ []) []) (column 0 Integer ∷ [])) ≡ 1045 }
    ensures sides { units_of by_number four_tables (join false (scan 0 3) (scan 1 0) (comparison Equal (column 64 Integer) (column 0 Integer) ∷ []) (0 ∷ [])) ≡ 1088 }
{}

/// A row whose key has a null isn't entered, so it makes no directory larger. Where a directory has twice as many slots as there are entries, and a
/// key's slot is the rest of its number, `A JOIN B ON A.K = B.K` over 1, 5 and null takes the scan of 6 rows, 2 entries, 54 octets that are folded, 4
/// slots, and 4 pairs, since 1 and 5 are in one slot of 4: 70. With 2 in the place of null there are 3 entries, 6 slots, and 3 pairs, each key in its
/// own slot: 72.
pub fn units_of_entered_rows()
    ensures with_a_null { units_of by_entries (((Num (pos 1) ∷ []) ∷ (Num (pos 5) ∷ []) ∷ (Null ∷ []) ∷ []) ∷ [])
        (join false (scan 0 0) (scan 1 0) (comparison Equal (column 0 Integer) (column 64 Integer) ∷ []) (0 ∷ [])) ≡ 70 }
    ensures without { units_of by_entries (((Num (pos 1) ∷ []) ∷ (Num (pos 5) ∷ []) ∷ (Num (pos 2) ∷ []) ∷ []) ∷ [])
        (join false (scan 0 0) (scan 1 0) (comparison Equal (column 0 Integer) (column 64 Integer) ∷ []) (0 ∷ [])) ≡ 72 }
{}

/// `SELECT ID FROM ITEM WHERE LABEL = 'pen'` scans 3 rows and compares 6 octets at each. ITEM joined with itself by LABEL, all
/// keys in one slot, meets 9 entries with 3 octets of the row's key, and compares 6 octets at each of 5 pairs.
pub fn units_of_texts()
    ensures tested { units_of one_slot four_tables (project (filter (comparison Equal (column 3 (Varchar 20)) (text pen) ∷ []) (scan 0 3)) (column 0 Integer ∷ [])) ≡ 21 }
    ensures joined { units_of one_slot four_tables (join false (scan 0 3) (scan 1 3) (comparison Equal (column 3 (Varchar 20)) (column 67 (Varchar 20)) ∷ []) (0 ∷ [])) ≡ 1153 }
{}
