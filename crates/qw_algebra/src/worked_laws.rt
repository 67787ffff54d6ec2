//! Worked cases of plans, with numbers. No function here computes anything.

ghost use Rattle.std.specs.Prelude.{◌≡◌, pos, false, true, [], ◌∷◌};
ghost use Rattle.qw_types.specs.declared.code.Code.TheVariants.{DivZero};
ghost use Rattle.qw_types.specs.declared.kind.Kind.TheVariants.{Number};
ghost use Rattle.qw_types.specs.declared.value.Ty.TheVariants.{Integer};
ghost use Rattle.qw_types.specs.declared.value.Val.TheVariants.{Null, Num};
ghost use Rattle.qw_scalar.specs.declared.comparison.Comparison.TheVariants.{Equal};
ghost use Rattle.qw_scalar.specs.Expression.{cell, column, comparison, found, given, nil, operand, parameter};
ghost use Rattle.qw_meaning.specs.WorkedQueries.{four_tables, is_next, quotient_above_six};
ghost use Rattle.qw_algebra.specs.Columns.{condition_names_only, is_of, names_column, names_only};
ghost use Rattle.qw_algebra.specs.Node.{filter, join, node_flow, project, scan};
ghost use Rattle.qw_algebra.specs.WorkedPlans.{above_two, beside_nothing, item_and_joined, left_joined_above, next_items};
ghost use Rattle.qw_algebra.specs.Written.{written};

/// The plans of four queries as they are written: a WHERE over a product, of a source of one entry beside one of two joined entries, and
/// their entries counted from left to right; and of a LEFT JOIN, whose rows without a partner stand for themselves.
pub fn plans_as_written()
    ensures product { written next_items ≡ project (filter (is_next 0 64 ∷ above_two ∷ []) (join false (scan 0 3) (scan 1 3) [] [])) (column 0 Integer ∷ column 64 Integer ∷ []) }
    ensures joined { written item_and_joined
        ≡ project (filter [] (join false (scan 0 3) (join false (scan 1 0) (scan 2 1) (comparison Equal (column 64 Integer) (column 128 Integer) ∷ []) []) [] [])) (column 0 Integer ∷ []) }
    ensures beside { written beside_nothing ≡ project (filter (quotient_above_six 0 ∷ []) (join false (scan 0 3) (scan 1 2) [] [])) (column 0 Integer ∷ []) }
    ensures outer { written left_joined_above ≡ project (filter (quotient_above_six 0 ∷ []) (join true (scan 0 0) (scan 1 1) (is_next 0 64 ∷ []) [])) (column 0 Integer ∷ []) }
    ensures completed { node_flow four_tables (join true (scan 0 0) (scan 1 1) (is_next 0 64 ∷ []) []) ≡ record { rows = (Num (pos 1) ∷ []) ∷ (Num (pos 1) ∷ []) ∷ (Null ∷ []) ∷ []; codes = [] } }
{}

/// A scan puts a table's rows at the places of its entry. `ITEM A, ITEM B WHERE A.ID = B.ID + 1 AND A.ID > 2` gives 3 beside 2, by its plan
/// as written, and by one that tests A.ID > 2 before A is joined.
pub fn flows_of_plans()
    ensures scanned { node_flow (((Num (pos 7) ∷ []) ∷ (Null ∷ []) ∷ []) ∷ []) (scan 0 0) ≡ record { rows = (Num (pos 7) ∷ []) ∷ (Null ∷ []) ∷ []; codes = [] } }
    ensures as_written { node_flow four_tables (written next_items) ≡ record { rows = (Num (pos 3) ∷ Num (pos 2) ∷ []) ∷ []; codes = [] } }
    ensures tested_first { node_flow four_tables
        (project (join false (filter (above_two ∷ []) (scan 0 3)) (scan 1 3) (is_next 0 64 ∷ []) (0 ∷ [])) (column 0 Integer ∷ column 64 Integer ∷ []))
        ≡ record { rows = (Num (pos 3) ∷ Num (pos 2) ∷ []) ∷ []; codes = [] } }
{}

/// `ITEM, NOTHING WHERE 10 / (ID - 1) > 6`: over the empty product nothing is raised; below it the conjunct would raise at the first row of
/// ITEM.
pub fn raising_above_and_below()
    ensures above { node_flow four_tables (written beside_nothing) ≡ record { rows = []; codes = [] } }
    ensures below { node_flow four_tables (project (join false (filter (quotient_above_six 0 ∷ []) (scan 0 3)) (scan 1 2) [] []) (column 0 Integer ∷ [])) ≡ record { rows = []; codes = DivZero ∷ [] } }
{}

/// Column 64 is of entry 1 and column 0 of entry 0. A value that is filled in names no column, and a column with a bound names its column;
/// `A.ID IN (SELECT ..)` with the key B.ID names columns of both entries (ISO/IEC 9075:1992, 6.2, 6.4, 7.11, 8.4).
pub fn columns_beside_what_is_filled_in()
    ensures given { (names_column (given (parameter 0) (Number 0) 9 Null) ≡ false) × (names_only (is_of (1 ∷ [])) (given (parameter 0) (Number 0) 9 Null) ≡ true) }
    ensures cell { (names_only (is_of (1 ∷ [])) (cell 64 Integer 9) ≡ true) × (names_only (is_of (1 ∷ [])) (cell 0 Integer 9) ≡ false) }
    ensures found { (condition_names_only (is_of (1 ∷ [])) (found 0 (operand (column 64 Integer) nil) (operand (column 0 Integer) nil) (Number 0 ∷ Number 0 ∷ []) []) ≡ false)
        × ((condition_names_only (is_of (0 ∷ [])) (found 0 (operand (column 64 Integer) nil) (operand (column 0 Integer) nil) (Number 0 ∷ Number 0 ∷ []) []) ≡ false)
        × (condition_names_only (is_of (0 ∷ 1 ∷ [])) (found 0 (operand (column 64 Integer) nil) (operand (column 0 Integer) nil) (Number 0 ∷ Number 0 ∷ []) []) ≡ true)) }
{}
