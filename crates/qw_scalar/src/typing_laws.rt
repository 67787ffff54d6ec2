//! What typing gives, and worked cases of it. No function here computes anything.

ghost use Rattle.std.specs.Prelude.{◌≡◌, pos, IfOk, List, Some, None};
ghost use Rattle.qw_types.specs.declared.kind.Kind.TheVariants as kind;
ghost use Rattle.qw_types.specs.declared.value.Ty.TheVariants as type;
ghost use Rattle.qw_types.specs.declared.value.Val.{Val};
ghost use Rattle.qw_scalar.specs.declared.expression.Field.TheVariants.{Year};
ghost use Rattle.qw_scalar.specs.declared.expression.Operator.TheVariants.{Add, Subtract, Multiply, Divide};
ghost use Rattle.qw_scalar.specs.declared.comparison.Comparison.TheVariants.{Equal};
ghost use Rattle.qw_scalar.specs.Columns.{HasColumns, HoldsIn};
ghost use Rattle.qw_scalar.specs.Evaluation.{value_of, at_row};
ghost use Rattle.qw_scalar.specs.Expression.{Expression, null, number, date, text, column, arithmetic, negative, extract, comparison, last, more, otherwise, when, case, coalesced, scale_of, unless_among};
ghost use Rattle.qw_scalar.specs.Typing.{AreTyped, IsTyped, IsValueOf, kind_of};
ghost use Rattle.qw_scalar.specs.WorkedRows.{pen};

/// The value of a typed expression is null or of the expression's kind, at a row with the columns that it names
/// (ISO/IEC 9075:1992, 6.11).
pub fn values_are_of_their_kind()
    ensures { (e : Expression) (row : List Val) → IsTyped e → HasColumns (HoldsIn row) e →
        IfOk (value_of e (at_row row)) (λ v. IsValueOf (kind_of e) v) }
{}

/// Typed: `1 + 0.5`, `ID * PRICE`, `COALESCE(1, 0.50)`, `CASE WHEN LABEL = 'pen' THEN NULL ELSE 2 END`, `EXTRACT(YEAR FROM SOLD)`.
pub fn typed_expressions()
    ensures { IsTyped (arithmetic Add (number (pos 1) 0) (number (pos 5) 1))
        × IsTyped (arithmetic Multiply (column 0 type.Integer) (column 1 (type.Decimal 9 2)))
        × IsTyped (case (coalesced (more (number (pos 1) 0) (last (number (pos 50) 2)))))
        × IsTyped (case (when (comparison Equal (column 3 (type.Varchar 20)) (text pen)) null (otherwise (number (pos 2) 0))))
        × IsTyped (extract Year (column 2 type.Date)) }
{}

/// Their kinds: scale 1, scale 2, scale 2, scale 0, scale 0; `NULLIF(LABEL, 'pen')` is a text.
pub fn kinds()
    ensures { (kind_of (arithmetic Add (number (pos 1) 0) (number (pos 5) 1)) ≡ Some (kind.Number 1))
        × (kind_of (arithmetic Multiply (column 0 type.Integer) (column 1 (type.Decimal 9 2))) ≡ Some (kind.Number 2))
        × (kind_of (case (coalesced (more (number (pos 1) 0) (last (number (pos 50) 2))))) ≡ Some (kind.Number 2))
        × (kind_of (case (when (comparison Equal (column 3 (type.Varchar 20)) (text pen)) null (otherwise (number (pos 2) 0)))) ≡ Some (kind.Number 0))
        × (kind_of (extract Year (column 2 type.Date)) ≡ Some (kind.Number 0))
        × (kind_of (unless_among (more (column 3 (type.Varchar 20)) (last (text pen)))) ≡ Some kind.Text)
        × (kind_of null ≡ None) }
{}

/// The scales of results (6.12): of a quotient the dividend's, `1 / 0.5` at 0 and `7.00 / 2` at 2; of a product the sum, of scales 2 and 3
/// at 5; of a sum and a difference the larger. A CASE brings its results to the larger one, NULLIF keeps its first operand's.
pub fn scales()
    ensures results { (scale_of (arithmetic Divide (number (pos 1) 0) (number (pos 5) 1)) ≡ 0)
        × (scale_of (arithmetic Divide (number (pos 700) 2) (number (pos 2) 0)) ≡ 2)
        × (scale_of (arithmetic Multiply (number (pos 1) 2) (number (pos 1) 3)) ≡ 5)
        × (scale_of (arithmetic Add (number (pos 1) 2) (number (pos 1) 3)) ≡ 3)
        × (scale_of (arithmetic Add (number (pos 1) 3) (number (pos 1) 2)) ≡ 3)
        × (scale_of (arithmetic Subtract (number (pos 1) 2) (number (pos 1) 3)) ≡ 3)
        × (scale_of (arithmetic Subtract (number (pos 1) 3) (number (pos 1) 2)) ≡ 3)
        × (scale_of (case (coalesced (more (number (pos 1) 0) (last (number (pos 50) 2))))) ≡ 2)
        × (scale_of (unless_among (more (number (pos 1) 1) (last (number (pos 1) 4)))) ≡ 1) }
    ensures kinds { (kind_of (arithmetic Divide (number (pos 1) 0) (number (pos 5) 1)) ≡ Some (kind.Number 0))
        × (kind_of (arithmetic Divide (number (pos 700) 2) (number (pos 2) 0)) ≡ Some (kind.Number 2))
        × (kind_of (arithmetic Multiply (number (pos 1) 2) (number (pos 1) 3)) ≡ Some (kind.Number 5)) }
{}

/// Not typed: `1 + 'pen'`, `- SOLD`, `EXTRACT(YEAR FROM 1)`, `LABEL = 1`, `COALESCE(1, 'pen')`, `NULL + 1`, a product of scales 9 and 10, a
/// quotient of scales 18 and 1, a literal of 19 digits, one of scale 19, and
/// the 29th of February 1900.
pub fn untyped_expressions()
    ensures text_operand { IsTyped (arithmetic Add (number (pos 1) 0) (text pen)) → ⊥ }
    ensures date_operand { IsTyped (negative (column 2 type.Date)) → ⊥ }
    ensures number_field { IsTyped (extract Year (number (pos 1) 0)) → ⊥ }
    ensures unlike { AreTyped (comparison Equal (column 3 (type.Varchar 20)) (number (pos 1) 0)) → ⊥ }
    ensures unlike_results { IsTyped (case (coalesced (more (number (pos 1) 0) (last (text pen))))) → ⊥ }
    ensures null_operand { IsTyped (arithmetic Add null (number (pos 1) 0)) → ⊥ }
    ensures product { IsTyped (arithmetic Multiply (number (pos 1) 9) (number (pos 1) 10)) → ⊥ }
    ensures quotient { IsTyped (arithmetic Divide (number (pos 1) 18) (number (pos 1) 1)) → ⊥ }
    ensures digits { IsTyped (number (pos 1000000000000000000) 0) → ⊥ }
    ensures scale { IsTyped (number (pos 1) 19) → ⊥ }
    ensures no_day { IsTyped (date (pos 19000229)) → ⊥ }
{}
