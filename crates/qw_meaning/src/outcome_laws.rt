//! What holds of every clause and outcome, and worked cases whose outcomes were found by hand. No function here computes
//! anything.

ghost use Rattle.std.specs.Prelude.{◌≡◌, ◌⊎◌, pos, [], ◌∷◌, List, Result, Ok, Err};
ghost use Rattle.std.specs.List.{Contains};
ghost use Rattle.qw_types.specs.declared.code.Code.{Code};
ghost use Rattle.qw_types.specs.declared.code.Code.TheVariants.{DivZero, OutOfRange};
ghost use Rattle.qw_types.specs.declared.truth.Truth.{Truth};
ghost use Rattle.qw_types.specs.declared.value.Ty.TheVariants.{Integer};
ghost use Rattle.qw_types.specs.declared.value.Val.{Val};
ghost use Rattle.qw_types.specs.declared.value.Val.TheVariants.{Null, Num};
ghost use Rattle.qw_scalar.specs.declared.expression.Operator.TheVariants.{Subtract, Multiply, Divide};
ghost use Rattle.qw_scalar.specs.declared.comparison.Comparison.TheVariants.{Equal, Greater};
ghost use Rattle.qw_scalar.specs.Conjuncts.{passes};
ghost use Rattle.qw_scalar.specs.Evaluation.{Environment, truth_of};
ghost use Rattle.qw_scalar.specs.Expression.{Condition, number, column, arithmetic, comparison};
ghost use Rattle.qw_meaning.specs.Flow.{Flow, each, spread};
ghost use Rattle.qw_meaning.specs.Select.{alone};
ghost use Rattle.qw_meaning.specs.WorkedQueries.{nullable, numbers};
ghost use Rattle.qw_meaning.specs.Outcome.{Outcome, Rows, Raises, IsSameOutcome, outcome};

/// A clause that makes a flow of each row raises exactly what they raise, beside what was raised before; and a row comes of it exactly
/// where it comes of a row that reaches it (ISO/IEC 9075:1992, 7.5, 7.6, 7.9, 22.1).
pub fn each_flow_by_itself()
    ensures only_raised { (work : List Val → Flow (List Val)) (flow : Flow (List Val)) (code : Code) →
        Contains (spread work flow).codes code → Contains flow.codes code ⊎ ((row : List Val) × (Contains flow.rows row × Contains (work row).codes code)) }
    ensures raised { (work : List Val → Flow (List Val)) (flow : Flow (List Val)) (row : List Val) (code : Code) →
        Contains flow.rows row → Contains (work row).codes code → Contains (spread work flow).codes code }
    ensures raised_before { (work : List Val → Flow (List Val)) (flow : Flow (List Val)) (code : Code) →
        Contains flow.codes code → Contains (spread work flow).codes code }
    ensures only_given { (work : List Val → Flow (List Val)) (flow : Flow (List Val)) (made : List Val) →
        Contains (spread work flow).rows made → (row : List Val) × (Contains flow.rows row × Contains (work row).rows made) }
    ensures given { (work : List Val → Flow (List Val)) (flow : Flow (List Val)) (row made : List Val) →
        Contains flow.rows row → Contains (work row).rows made → Contains (spread work flow).rows made }
{}

/// Where a clause makes rows of a row or raises, it gives rows of those alone that raise nothing.
pub fn each_row_by_itself()
    ensures only_raised { (work : List Val → Result (List (List Val)) Code) (flow : Flow (List Val)) (code : Code) →
        Contains (each work flow).codes code → Contains flow.codes code ⊎ ((row : List Val) × (Contains flow.rows row × (work row ≡ Err code))) }
    ensures raised { (work : List Val → Result (List (List Val)) Code) (flow : Flow (List Val)) (row : List Val) (code : Code) →
        Contains flow.rows row → work row ≡ Err code → Contains (each work flow).codes code }
    ensures only_given { (work : List Val → Result (List (List Val)) Code) (flow : Flow (List Val)) (made : List Val) →
        Contains (each work flow).rows made → (row : List Val) × (rows : List (List Val)) × (Contains flow.rows row × ((work row ≡ Ok rows) × Contains rows made)) }
    ensures given { (work : List Val → Result (List (List Val)) Code) (flow : Flow (List Val)) (row made : List Val) (rows : List (List Val)) →
        Contains flow.rows row → work row ≡ Ok rows → Contains rows made → Contains (each work flow).rows made }
{}

/// Two conjuncts that have a truth at a row may change places there.
pub fn conjuncts_change_places()
    ensures { (c d : Condition) (rest : List Condition) (env : Environment) (t u : Truth) →
        truth_of c env ≡ Ok t → truth_of d env ≡ Ok u → passes (c ∷ d ∷ rest) env ≡ passes (d ∷ c ∷ rest) env }
{}

/// An outcome is the same as itself; the order of a bag's rows and of exceptions, and how often one came, make no difference; rows are
/// no exceptions, a row that comes twice isn't one that comes once, and one exception isn't another.
pub fn same_outcomes()
    ensures itself { (o : Outcome) → IsSameOutcome o o }
    ensures turned { (row other : List Val) → IsSameOutcome (Rows (row ∷ other ∷ [])) (Rows (other ∷ row ∷ [])) }
    ensures twice { IsSameOutcome (Raises (DivZero ∷ OutOfRange ∷ DivZero ∷ [])) (Raises (OutOfRange ∷ DivZero ∷ [])) }
    ensures counted { (row : List Val) → IsSameOutcome (Rows (row ∷ row ∷ [])) (Rows (row ∷ [])) → ⊥ }
    ensures no_rows { (rows : List (List Val)) (codes : List Code) → IsSameOutcome (Rows rows) (Raises codes) → ⊥ }
    ensures other_code { IsSameOutcome (Raises (DivZero ∷ [])) (Raises (OutOfRange ∷ [])) → ⊥ }
{}

/// Over the table of the rows (1), (2), (3): `ID > 1 AND 10/(ID-1) > 6` keeps 2, and in the other order raises; `ID > 1 AND ID = 2` keeps
/// 2 in both orders; `SELECT ID/(ID-1)` raises; both clauses' exceptions come, WHERE's first; a row that WHERE drops, or at which it
/// raises, raises nothing in the select list. Over no row nothing is raised.
pub fn worked_outcomes()
    ensures guarded { outcome (record {
      sources = alone numbers ∷ [];
      conjuncts = comparison Greater (column 0 Integer) (number (pos 1) 0) ∷ comparison Greater (arithmetic Divide (number (pos 10) 0) (arithmetic Subtract (column 0 Integer) (number (pos 1) 0))) (number (pos 6) 0) ∷ [];
      items = column 0 Integer ∷ [];
    })
        (((Num (pos 1) ∷ []) ∷ (Num (pos 2) ∷ []) ∷ (Num (pos 3) ∷ []) ∷ []) ∷ []) ≡ Rows ((Num (pos 2) ∷ []) ∷ []) }
    ensures unguarded { outcome (record {
      sources = alone numbers ∷ [];
      conjuncts = comparison Greater (arithmetic Divide (number (pos 10) 0) (arithmetic Subtract (column 0 Integer) (number (pos 1) 0))) (number (pos 6) 0) ∷ comparison Greater (column 0 Integer) (number (pos 1) 0) ∷ [];
      items = column 0 Integer ∷ [];
    })
        (((Num (pos 1) ∷ []) ∷ (Num (pos 2) ∷ []) ∷ (Num (pos 3) ∷ []) ∷ []) ∷ []) ≡ Raises (DivZero ∷ []) }
    ensures harmless { outcome (record {
      sources = alone numbers ∷ [];
      conjuncts = comparison Greater (column 0 Integer) (number (pos 1) 0) ∷ comparison Equal (column 0 Integer) (number (pos 2) 0) ∷ [];
      items = column 0 Integer ∷ [];
    })
        (((Num (pos 1) ∷ []) ∷ (Num (pos 2) ∷ []) ∷ (Num (pos 3) ∷ []) ∷ []) ∷ []) ≡ Rows ((Num (pos 2) ∷ []) ∷ []) }
    ensures harmless_turned { outcome (record {
      sources = alone numbers ∷ [];
      conjuncts = comparison Equal (column 0 Integer) (number (pos 2) 0) ∷ comparison Greater (column 0 Integer) (number (pos 1) 0) ∷ [];
      items = column 0 Integer ∷ [];
    })
        (((Num (pos 1) ∷ []) ∷ (Num (pos 2) ∷ []) ∷ (Num (pos 3) ∷ []) ∷ []) ∷ []) ≡ Rows ((Num (pos 2) ∷ []) ∷ []) }
    ensures select_list { outcome (record {
      sources = alone numbers ∷ [];
      conjuncts = [];
      items = arithmetic Divide (column 0 Integer) (arithmetic Subtract (column 0 Integer) (number (pos 1) 0)) ∷ [];
    })
        (((Num (pos 1) ∷ []) ∷ (Num (pos 2) ∷ []) ∷ (Num (pos 3) ∷ []) ∷ []) ∷ []) ≡ Raises (DivZero ∷ []) }
    ensures both_clauses { outcome (record {
      sources = alone numbers ∷ [];
      conjuncts = comparison Greater (arithmetic Divide (number (pos 10) 0) (arithmetic Subtract (column 0 Integer) (number (pos 1) 0))) (number (pos 0) 0) ∷ [];
      items = arithmetic Multiply (number (pos 999999999999999999) 0) (column 0 Integer) ∷ [];
    })
        (((Num (pos 2) ∷ []) ∷ (Num (pos 1) ∷ []) ∷ []) ∷ []) ≡ Raises (DivZero ∷ OutOfRange ∷ []) }
    ensures dropped_row { outcome (record {
      sources = alone numbers ∷ [];
      conjuncts = comparison Greater (column 0 Integer) (number (pos 1) 0) ∷ [];
      items = arithmetic Divide (number (pos 10) 0) (arithmetic Subtract (column 0 Integer) (number (pos 1) 0)) ∷ [];
    })
        (((Num (pos 1) ∷ []) ∷ (Num (pos 2) ∷ []) ∷ []) ∷ []) ≡ Rows ((Num (pos 10) ∷ []) ∷ []) }
    ensures no_row { outcome (record {
      sources = alone numbers ∷ [];
      conjuncts = [];
      items = arithmetic Divide (number (pos 1) 0) (number (pos 0) 0) ∷ [];
    })
        ([] ∷ []) ≡ Rows [] }
    ensures unknown { outcome (record {
      sources = alone numbers ∷ [];
      conjuncts = comparison Greater (column 0 Integer) (number (pos 1) 0) ∷ [];
      items = column 0 Integer ∷ [];
    })
        (((Null ∷ []) ∷ (Num (pos 2) ∷ []) ∷ []) ∷ []) ≡ Rows ((Num (pos 2) ∷ []) ∷ []) }
    ensures other_table { outcome (record {
      sources = alone (record { table = 1; columns = nullable Integer ∷ [] }) ∷ [];
      conjuncts = [];
      items = column 0 Integer ∷ [];
    })
        (((Num (pos 1) ∷ []) ∷ []) ∷ ((Num (pos 2) ∷ []) ∷ []) ∷ []) ≡ Rows ((Num (pos 2) ∷ []) ∷ []) }
{}
