//! What holds of every expression and condition, and worked cases whose values were found by hand. No function here
//! computes anything.

ghost use Rattle.std.specs.Prelude.{◌≡◌, ◌≢◌, ℕ, ℤ, pos, neg_ℤ, codes, [], ◌∷◌, Ok, Err};
ghost use Rattle.qw_types.specs.declared.code.Code.{Code};
ghost use Rattle.qw_types.specs.declared.code.Code.TheVariants.{DivZero, OutOfRange};
ghost use Rattle.qw_types.specs.declared.truth.Truth.{Truth};
ghost use Rattle.qw_types.specs.declared.truth.Truth.TheVariants.{True, False, Unknown};
ghost use Rattle.qw_scalar.specs.declared.expression.Function.TheVariants.{Coalesce, NullIf};
ghost use Rattle.qw_scalar.specs.declared.expression.Operator.{Operator};
ghost use Rattle.qw_scalar.specs.declared.expression.Operator.TheVariants.{Add, Subtract, Multiply, Divide};
ghost use Rattle.qw_scalar.specs.declared.expression.Predicate.TheVariants.{IsNull};
ghost use Rattle.qw_scalar.specs.declared.expression.Field.TheVariants.{Year, Month, Day};
ghost use Rattle.qw_scalar.specs.declared.comparison.Comparison.TheVariants.{Equal, NotEqual, Less, LessOrEqual, Greater, GreaterOrEqual, Like, NotLike};
ghost use Rattle.qw_types.specs.declared.value.Ty.TheVariants.{Integer, Decimal, Varchar};
ghost use Rattle.qw_types.specs.declared.value.Ty.TheVariants as type;
ghost use Rattle.qw_types.specs.declared.value.Val.{Val};
ghost use Rattle.qw_types.specs.declared.value.Val.TheVariants.{Null, Num, Text};
ghost use Rattle.qw_scalar.specs.Evaluation.{Environment, HasNull, truth_of, value_of};
ghost use Rattle.qw_scalar.specs.WorkedRows.{first_item, second_item, third_item, pen, ink};
ghost use Rattle.qw_scalar.specs.Expression.{Expression, Condition, Expressions, null, number, date, text, column, arithmetic, negative, extract, comparison, predicate, both, either, negation_of, is, last, more, otherwise, when, among, between, called, case, coalesced};

/// The left operand's exception is the expression's, whatever the right one does (ISO/IEC 9075:1992, 6.12).
pub fn left_operand_first()
    ensures { (operator : Operator) (a b : Expression) (env : Environment) (code : Code) →
        value_of a env ≡ Err code → value_of (arithmetic operator a b) env ≡ Err code }
{}

/// An operator with a null operand gives null, also where the other is a zero divisor or can't be brought.
pub fn null_operand()
    ensures left { (operator : Operator) (a b : Expression) (env : Environment) (y : Val) →
        value_of a env ≡ Ok Null → value_of b env ≡ Ok y → value_of (arithmetic operator a b) env ≡ Ok Null }
    ensures right { (operator : Operator) (a b : Expression) (env : Environment) (x : Val) →
        value_of a env ≡ Ok x → value_of b env ≡ Ok Null → value_of (arithmetic operator a b) env ≡ Ok Null }
{}

/// AND skips its right side after false, OR after true; neither skips it otherwise: an exception there comes.
pub fn skipped_sides()
    ensures and { (c d : Condition) (env : Environment) → truth_of c env ≡ Ok False → truth_of (both c d) env ≡ Ok False }
    ensures or { (c d : Condition) (env : Environment) → truth_of c env ≡ Ok True → truth_of (either c d) env ≡ Ok True }
    ensures and_unknown { (c d : Condition) (env : Environment) (code : Code) →
        truth_of c env ≡ Ok Unknown → truth_of d env ≡ Err code → truth_of (both c d) env ≡ Err code }
    ensures or_unknown { (c d : Condition) (env : Environment) (code : Code) →
        truth_of c env ≡ Ok Unknown → truth_of d env ≡ Err code → truth_of (either c d) env ≡ Err code }
{}

/// `x NOT IN (..)` beside a null is never true (8.4).
pub fn not_in_beside_null()
    ensures { (x : Expression) (values : Expressions) (env : Environment) → HasNull env values →
        truth_of (negation_of (among x values)) env ≢ Ok True }
{}

/// `x IS NULL` is never unknown (8.6), nor is `c IS TRUE` and its like (8.12).
pub fn never_unknown()
    ensures null { (x : Expression) (env : Environment) → truth_of (predicate IsNull x) env ≢ Ok Unknown }
    ensures truth { (c : Condition) (t : Truth) (env : Environment) → truth_of (is c t) env ≢ Ok Unknown }
{}

/// Values: an operator at its edges, both forms of CASE, COALESCE, NULLIF and EXTRACT.
pub fn worked_values()
    ensures { (value_of (arithmetic Divide (column 0 Integer) (arithmetic Subtract (column 0 Integer) (number (pos 1) 0))) first_item ≡ Err DivZero)
        × (value_of (arithmetic Divide (column 0 Integer) (arithmetic Subtract (column 0 Integer) (number (pos 1) 0))) second_item ≡ Ok (Num (pos 2)))
        × (value_of (arithmetic Divide (column 0 Integer) (arithmetic Subtract (column 0 Integer) (number (pos 1) 0))) third_item ≡ Ok (Num (pos 1)))
        × (value_of (arithmetic Divide (negative (number (pos 7) 0)) (number (pos 2) 0)) first_item ≡ Ok (Num (neg_ℤ (pos 3))))
        × (value_of (arithmetic Divide (number (pos 700) 2) (number (pos 2) 0)) first_item ≡ Ok (Num (pos 350)))
        × (value_of (arithmetic Divide (number (pos 1) 0) (number (pos 5) 1)) first_item ≡ Ok (Num (pos 2)))
        × (value_of (column 1 (Decimal 9 2)) second_item ≡ Ok Null)
        × (value_of (arithmetic Divide (column 1 (Decimal 9 2)) (number (pos 0) 0)) second_item ≡ Ok Null)
        × (value_of (arithmetic Divide (number (pos 0) 0) (column 1 (Decimal 9 2))) second_item ≡ Ok Null)
        × (value_of (arithmetic Add (number (pos 999999999999999999) 0) (number (pos 1) 0)) first_item ≡ Err OutOfRange)
        × (value_of (arithmetic Add (number (pos 999999999999999999) 0) (arithmetic Divide (number (pos 1) 18) (number (pos 0) 0))) first_item ≡ Err DivZero)
        × (value_of (arithmetic Add (arithmetic Multiply (number (pos 999999999999999999) 0) (number (pos 2) 0)) (arithmetic Divide (number (pos 1) 0) (number (pos 0) 0))) first_item ≡ Err OutOfRange)
        × (value_of (case (when (comparison Equal (column 0 Integer) (number (pos 1) 0)) (number (pos 0) 0) (otherwise (arithmetic Divide (number (pos 10) 0) (arithmetic Subtract (column 0 Integer) (number (pos 1) 0)))))) first_item ≡ Ok (Num (pos 0)))
        × (value_of (case (when (comparison Equal (column 0 Integer) (number (pos 1) 0)) (number (pos 0) 0) (otherwise (arithmetic Divide (number (pos 10) 0) (arithmetic Subtract (column 0 Integer) (number (pos 1) 0)))))) second_item ≡ Ok (Num (pos 10)))
        × (value_of (case (when (comparison Equal (column 0 Integer) (number (pos 1) 0)) (number (pos 0) 0) (otherwise (arithmetic Divide (number (pos 10) 0) (arithmetic Subtract (column 0 Integer) (number (pos 1) 0)))))) third_item ≡ Ok (Num (pos 5)))
        × (value_of (case (when (comparison Equal (column 0 Integer) (number (pos 1) 0)) (number (pos 10) 0) (when (comparison Equal (column 0 Integer) (number (pos 2) 0)) (number (pos 25) 1) (otherwise null)))) first_item ≡ Ok (Num (pos 100)))
        × (value_of (case (when (comparison Equal (column 0 Integer) (number (pos 1) 0)) (number (pos 10) 0) (when (comparison Equal (column 0 Integer) (number (pos 2) 0)) (number (pos 25) 1) (otherwise null)))) second_item ≡ Ok (Num (pos 25)))
        × (value_of (case (when (comparison Equal (column 0 Integer) (number (pos 1) 0)) (number (pos 10) 0) (when (comparison Equal (column 0 Integer) (number (pos 2) 0)) (number (pos 25) 1) (otherwise null)))) third_item ≡ Ok Null)
        × (value_of (case (coalesced (more (number (pos 1) 0) (last (number (pos 50) 2))))) first_item ≡ Ok (Num (pos 100)))
        × (value_of (case (coalesced (more (column 1 (Decimal 9 2)) (last (number (pos 1) 0))))) second_item ≡ Ok (Num (pos 100)))
        × (value_of (case (coalesced (more (column 1 (Decimal 9 2)) (last (number (pos 1) 0))))) third_item ≡ Ok (Num (pos 50)))
        × (value_of (case (coalesced (more (column 1 (Decimal 9 2)) (more null (last (arithmetic Divide (number (pos 1) 0) (number (pos 0) 0))))))) first_item ≡ Ok (Num (pos 1000)))
        × (value_of (called NullIf (more (number (pos 1) 0) (last (number (pos 10) 1)))) first_item ≡ Ok Null)
        × (value_of (called NullIf (more (number (pos 1) 0) (last (number (pos 2) 0)))) first_item ≡ Ok (Num (pos 1)))
        × (value_of (called NullIf (more (column 0 Integer) (last (column 1 (Decimal 9 2))))) second_item ≡ Ok (Num (pos 2)))
        × (value_of (extract Year (column 2 type.Date)) first_item ≡ Ok (Num (pos 1998)))
        × (value_of (extract Month (column 2 type.Date)) first_item ≡ Ok (Num (pos 9)))
        × (value_of (extract Day (column 2 type.Date)) first_item ≡ Ok (Num (pos 2)))
        × (value_of (extract Day (column 2 type.Date)) third_item ≡ Ok Null) }
{}

/// Conditions: what null does, which sides are skipped, and which exceptions come.
pub fn worked_conditions()
    ensures { (truth_of (comparison Greater (column 1 (Decimal 9 2)) (number (pos 1) 0)) first_item ≡ Ok True)
        × (truth_of (comparison Greater (column 1 (Decimal 9 2)) (number (pos 1) 0)) second_item ≡ Ok Unknown)
        × (truth_of (comparison Greater (column 1 (Decimal 9 2)) (number (pos 1) 0)) third_item ≡ Ok False)
        × (truth_of (both (comparison Greater (column 0 Integer) (number (pos 1) 0)) (comparison Greater (arithmetic Divide (number (pos 10) 0) (arithmetic Subtract (column 0 Integer) (number (pos 1) 0))) (number (pos 6) 0))) first_item ≡ Ok False)
        × (truth_of (both (comparison Greater (column 0 Integer) (number (pos 1) 0)) (comparison Greater (arithmetic Divide (number (pos 10) 0) (arithmetic Subtract (column 0 Integer) (number (pos 1) 0))) (number (pos 6) 0))) second_item ≡ Ok True)
        × (truth_of (both (comparison Greater (column 0 Integer) (number (pos 1) 0)) (comparison Greater (arithmetic Divide (number (pos 10) 0) (arithmetic Subtract (column 0 Integer) (number (pos 1) 0))) (number (pos 6) 0))) third_item ≡ Ok False)
        × (truth_of (both (comparison Greater (arithmetic Divide (number (pos 10) 0) (arithmetic Subtract (column 0 Integer) (number (pos 1) 0))) (number (pos 6) 0)) (comparison Greater (column 0 Integer) (number (pos 1) 0))) first_item ≡ Err DivZero)
        × (truth_of (both (comparison Greater (column 1 (Decimal 9 2)) (number (pos 1) 0)) (comparison Greater (arithmetic Divide (number (pos 10) 0) (arithmetic Subtract (column 0 Integer) (number (pos 1) 0))) (number (pos 6) 0))) first_item ≡ Err DivZero)
        × (truth_of (negation_of (among (column 0 Integer) (more (number (pos 1) 0) (last (column 1 (Decimal 9 2)))))) first_item ≡ Ok False)
        × (truth_of (negation_of (among (column 0 Integer) (more (number (pos 1) 0) (last (column 1 (Decimal 9 2)))))) second_item ≡ Ok Unknown)
        × (truth_of (negation_of (among (column 0 Integer) (more (number (pos 1) 0) (last (column 1 (Decimal 9 2)))))) third_item ≡ Ok True)
        × (truth_of (comparison LessOrEqual (column 2 type.Date) (date (pos 19980902))) first_item ≡ Ok True)
        × (truth_of (comparison LessOrEqual (column 2 type.Date) (date (pos 19980902))) second_item ≡ Ok False)
        × (truth_of (comparison LessOrEqual (column 2 type.Date) (date (pos 19980902))) third_item ≡ Ok Unknown)
        × (truth_of (between (column 0 Integer) (number (pos 2) 0) (arithmetic Divide (number (pos 1) 0) (number (pos 0) 0))) first_item ≡ Ok False)
        × (truth_of (between (column 0 Integer) (number (pos 2) 0) (arithmetic Divide (number (pos 1) 0) (number (pos 0) 0))) second_item ≡ Err DivZero)
        × (truth_of (between (column 0 Integer) (number (pos 1) 0) (number (pos 2) 0)) second_item ≡ Ok True)
        × (truth_of (between (column 0 Integer) (column 1 (Decimal 9 2)) (number (pos 1) 0)) second_item ≡ Ok False)
        × (truth_of (between (column 0 Integer) (column 1 (Decimal 9 2)) (number (pos 2) 0)) second_item ≡ Ok Unknown)
        × (truth_of (either (comparison Greater (column 1 (Decimal 9 2)) (number (pos 1) 0)) (comparison Equal (column 0 Integer) (number (pos 2) 0))) second_item ≡ Ok True)
        × (truth_of (either (comparison Greater (column 0 Integer) (number (pos 1) 0)) (comparison Greater (arithmetic Divide (number (pos 10) 0) (arithmetic Subtract (column 0 Integer) (number (pos 1) 0))) (number (pos 6) 0))) second_item ≡ Ok True)
        × (truth_of (either (comparison Equal (column 0 Integer) (number (pos 2) 0)) (comparison Greater (arithmetic Divide (number (pos 10) 0) (arithmetic Subtract (column 0 Integer) (number (pos 1) 0))) (number (pos 6) 0))) first_item ≡ Err DivZero)
        × (truth_of (is (comparison Greater (column 1 (Decimal 9 2)) (number (pos 1) 0)) Unknown) second_item ≡ Ok True)
        × (truth_of (negation_of (is (comparison Greater (column 1 (Decimal 9 2)) (number (pos 1) 0)) True)) second_item ≡ Ok True)
        × (truth_of (negation_of (comparison Greater (column 1 (Decimal 9 2)) (number (pos 1) 0))) second_item ≡ Ok Unknown)
        × (truth_of (predicate IsNull (column 1 (Decimal 9 2))) second_item ≡ Ok True)
        × (truth_of (predicate IsNull (column 1 (Decimal 9 2))) first_item ≡ Ok False)
        × (truth_of (predicate IsNull (arithmetic Divide (column 1 (Decimal 9 2)) (number (pos 0) 0))) second_item ≡ Ok True)
        × (truth_of (comparison Equal (column 1 (Decimal 9 2)) (number (pos 10) 0)) first_item ≡ Ok True)
        × (truth_of (comparison NotEqual (column 1 (Decimal 9 2)) (number (pos 5) 1)) third_item ≡ Ok False)
        × (truth_of (comparison GreaterOrEqual (column 1 (Decimal 9 2)) (number (pos 1000) 2)) first_item ≡ Ok True)
        × (truth_of (comparison Less (column 1 (Decimal 9 2)) (number (pos 10001) 3)) first_item ≡ Ok True) }
{}

/// Texts, `LABEL` being 'pen', 'ink' and 'pen' at the three rows: comparisons, IN and BETWEEN, both forms of CASE, COALESCE and NULLIF.
pub fn worked_texts()
    ensures { (truth_of (comparison Less (column 3 (Varchar 20)) (text (109 ∷ []))) first_item ≡ Ok False)
        × (truth_of (comparison Less (column 3 (Varchar 20)) (text (109 ∷ []))) second_item ≡ Ok True)
        × (truth_of (comparison Equal (column 3 (Varchar 20)) (text pen)) third_item ≡ Ok True)
        × (truth_of (comparison NotEqual (column 3 (Varchar 20)) (text pen)) second_item ≡ Ok True)
        × (truth_of (comparison Greater (column 3 (Varchar 20)) (text (112 ∷ 101 ∷ []))) first_item ≡ Ok True)
        × (truth_of (comparison GreaterOrEqual (text (112 ∷ 101 ∷ [])) (column 3 (Varchar 20))) first_item ≡ Ok False)
        × (truth_of (comparison Equal (text (112 ∷ 101 ∷ 110 ∷ 32 ∷ [])) (column 3 (Varchar 20))) first_item ≡ Ok False)
        × (truth_of (comparison Equal (called NullIf (more (column 3 (Varchar 20)) (last (text pen)))) (text pen)) first_item ≡ Ok Unknown)
        × (truth_of (among (column 3 (Varchar 20)) (more (text ink) (last (text pen)))) first_item ≡ Ok True)
        × (truth_of (negation_of (among (column 3 (Varchar 20)) (more (text ink) (last (called NullIf (more (text pen) (last (text pen)))))))) first_item ≡ Ok Unknown)
        × (truth_of (between (column 3 (Varchar 20)) (text (105 ∷ [])) (text (106 ∷ []))) second_item ≡ Ok True)
        × (truth_of (between (column 3 (Varchar 20)) (text (105 ∷ [])) (text (106 ∷ []))) first_item ≡ Ok False)
        × (value_of (case (when (comparison Equal (column 3 (Varchar 20)) (text pen)) (text ink) (otherwise (column 3 (Varchar 20))))) first_item ≡ Ok (Text ink))
        × (value_of (case (when (comparison Equal (column 0 Integer) (number (pos 2) 0)) (column 3 (Varchar 20)) (otherwise null))) second_item ≡ Ok (Text ink))
        × (value_of (called Coalesce (more (called NullIf (more (column 3 (Varchar 20)) (last (text pen)))) (last (text ink)))) third_item ≡ Ok (Text ink))
        × (value_of (called NullIf (more (column 3 (Varchar 20)) (last (text pen)))) second_item ≡ Ok (Text ink))
        × (value_of (called NullIf (more (column 3 (Varchar 20)) (last (text pen)))) third_item ≡ Ok Null)
        × (truth_of (predicate IsNull (column 3 (Varchar 20))) first_item ≡ Ok False) }
{}

/// LIKE: LABEL, 'pen' and 'ink', against patterns; `x NOT LIKE p` and `NOT (x LIKE p)`; a null of either side is unknown; `_` takes `é`, of two octets.
pub fn worked_likes()
    ensures { (truth_of (comparison Like (column 3 (Varchar 20)) (text (codes "%n"))) first_item ≡ Ok True)
        × (truth_of (comparison Like (column 3 (Varchar 20)) (text (codes "%n"))) second_item ≡ Ok False)
        × (truth_of (comparison Like (column 3 (Varchar 20)) (text (codes "_n%"))) second_item ≡ Ok True)
        × (truth_of (comparison Like (column 3 (Varchar 20)) (text (codes "pe"))) first_item ≡ Ok False)
        × (truth_of (comparison Like (text (codes "%n")) (column 3 (Varchar 20))) first_item ≡ Ok False)
        × (truth_of (comparison NotLike (column 3 (Varchar 20)) (text (codes "%n"))) first_item ≡ Ok False)
        × (truth_of (comparison NotLike (column 3 (Varchar 20)) (text (codes "%n"))) second_item ≡ Ok True)
        × (truth_of (negation_of (comparison Like (column 3 (Varchar 20)) (text (codes "%n")))) second_item ≡ Ok True)
        × (truth_of (comparison Like null (text (codes "%"))) first_item ≡ Ok Unknown)
        × (truth_of (comparison NotLike null (text (codes "%"))) first_item ≡ Ok Unknown)
        × (truth_of (comparison Like (text pen) null) first_item ≡ Ok Unknown)
        × (truth_of (comparison Like (text (195 ∷ 169 ∷ [])) (text (codes "_"))) first_item ≡ Ok True)
        × (truth_of (comparison Like (text (195 ∷ 169 ∷ [])) (text (codes "__"))) first_item ≡ Ok False) }
{}
