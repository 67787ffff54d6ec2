//! What can't raise, at a row. No function here computes anything.

ghost use Rattle.std.specs.Prelude.{◌≡◌, List, Bool, false, IfOk, Ok};
ghost use Rattle.qw_types.specs.Value.{IsOfTypeOrNull, IsSized};
ghost use Rattle.qw_types.specs.declared.truth.Truth.{Truth};
ghost use Rattle.qw_types.specs.declared.value.Ty.{Ty};
ghost use Rattle.qw_types.specs.declared.value.Val.{Val};
ghost use Rattle.qw_scalar.specs.Closed.{Given, closed, closed_in};
ghost use Rattle.qw_scalar.specs.Columns.{HasColumns, HaveColumns};
ghost use Rattle.qw_scalar.specs.Evaluation.{at_row, truth_of, value_of};
ghost use Rattle.qw_scalar.specs.Expression.{Condition, Expression};
ghost use Rattle.qw_scalar.specs.Typing.{AreTyped, IsTyped, IsWithin};
ghost use Rattle.qw_raise.specs.Raise.{can_raise, condition_can_raise, magnitude};
ghost use Rattle.qw_raise.specs.Range.{Fits, IsInRange};

/// A typed expression that can't raise has a value at each row whose columns hold values in their types' ranges, which is no larger than the
/// expression's magnitude; a condition that can't raise has a truth there (ISO/IEC 9075:1992, 6.12, 22.1).
pub fn quiet_laws()
    ensures value { (row : List Val) (e : Expression) → IsTyped e → HasColumns (IsInRange row) e → can_raise e ≡ false →
        (v : Val) × ((value_of e (at_row row) ≡ Ok v) × IsWithin (magnitude e) v) }
    ensures truth { (row : List Val) (c : Condition) → AreTyped c → HaveColumns (IsInRange row) c → condition_can_raise c ≡ false →
        (t : Truth) × (truth_of c (at_row row) ≡ Ok t) }
{}

/// A value of a typed expression is no larger than the expression's magnitude, at each such row, also where the expression can raise: where
/// more than 18 digits would be needed there is an exception and no value.
pub fn values_are_within_magnitudes()
    ensures { (row : List Val) (e : Expression) → IsTyped e → HasColumns (IsInRange row) e → IfOk (value_of e (at_row row)) (IsWithin (magnitude e)) }
{}

/// What dynamic parameters and subqueries give changes no magnitude, and nothing that is filled in can raise that couldn't: so what a plan may
/// move doesn't depend on it (ISO/IEC 9075:1992, 6.2, 7.11).
pub fn filling_in_raises_nothing()
    ensures magnitude { (g : Given) (e : Expression) → magnitude (closed g e) ≡ magnitude e }
    ensures expression { (g : Given) (e : Expression) → can_raise (closed g e) ≡ can_raise e }
    ensures condition { (g : Given) (c : Condition) → condition_can_raise (closed_in g c) ≡ condition_can_raise c }
{}

/// Each value that a column of a table may have is in its type's range.
pub fn columns_are_in_range()
    ensures { (ty : Ty) (not_null : Bool) (v : Val) → IsSized ty → IsOfTypeOrNull ty not_null v → Fits ty v }
{}
