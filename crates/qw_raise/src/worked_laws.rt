//! Worked cases of the definitions. No function here computes anything. ID is an INTEGER, PRICE a DECIMAL(9, 2).

ghost use Rattle.std.specs.Prelude.{◌≡◌, [], ◌∷◌, pos, negsuc, false, true};
ghost use Rattle.qw_types.specs.declared.kind.Kind.TheVariants as kind;
ghost use Rattle.qw_types.specs.declared.value.Ty.TheVariants as type;
ghost use Rattle.qw_types.specs.declared.value.Val.TheVariants.{Null, Num, Date};
ghost use Rattle.qw_scalar.specs.declared.comparison.Comparison.TheVariants.{Equal, Greater};
ghost use Rattle.qw_scalar.specs.declared.expression.Field.TheVariants.{Year};
ghost use Rattle.qw_scalar.specs.declared.expression.Operator.TheVariants.{Add, Subtract, Multiply, Divide};
ghost use Rattle.qw_scalar.specs.declared.expression.Predicate.TheVariants.{IsNull};
ghost use Rattle.qw_scalar.specs.Expression.{among, arithmetic, between, case, cell, coalesced, column, comparison, date, extract, found, given, last, more, negation_of, negative, nil, null, number, operand, otherwise, parameter, predicate, single, unless_among, when};
ghost use Rattle.qw_raise.specs.Raise.{can_raise, condition_can_raise, magnitude};
ghost use Rattle.qw_raise.specs.Range.{Fits};

/// Of ID it is 2147483648, of PRICE 999999999, of 5.00 it is 500; of ID + PRICE, at scale 2, 215748364799; of ID * PRICE it is capped; of
/// PRICE / 0.5 it is 9999999990; of `CASE WHEN ID = 1 THEN ID ELSE PRICE END` 214748364800; of EXTRACT(YEAR FROM SOLD) 9999, of SOLD 0.
pub fn magnitudes()
    ensures columns { (magnitude (column 0 type.Integer) ≡ 2147483648) × ((magnitude (column 1 (type.Decimal 9 2)) ≡ 999999999) × (magnitude (column 2 type.Date) ≡ 0)) }
    ensures literals { (magnitude (number (pos 500) 2) ≡ 500) × ((magnitude (negative (number (pos 500) 2)) ≡ 500) × (magnitude (number (negsuc 499) 2) ≡ 500)) }
    ensures sum { magnitude (arithmetic Add (column 0 type.Integer) (column 1 (type.Decimal 9 2))) ≡ 215748364799 }
    ensures difference { magnitude (arithmetic Subtract (column 1 (type.Decimal 9 2)) (column 0 type.Integer)) ≡ 215748364799 }
    ensures product { (magnitude (arithmetic Multiply (column 0 type.Integer) (number (pos 25) 1)) ≡ 53687091200)
        × (magnitude (arithmetic Multiply (column 0 type.Integer) (column 1 (type.Decimal 9 2))) ≡ 999999999999999999) }
    ensures quotient { magnitude (arithmetic Divide (column 1 (type.Decimal 9 2)) (number (pos 5) 1)) ≡ 9999999990 }
    ensures choice { magnitude (case (when (comparison Equal (column 0 type.Integer) (number (pos 1) 0)) (column 0 type.Integer) (otherwise (column 1 (type.Decimal 9 2))))) ≡ 214748364800 }
    ensures year { magnitude (extract Year (column 2 type.Date)) ≡ 9999 }
{}

/// A quotient can raise unless its divisor is a literal other than 0 and the dividend fits at the sum of the scales: `ID / 2` and `PRICE / 0.5`
/// can't; `ID / 0`, `ID / (2 - 1)`, `ID / - 2`, `ID / ID` and `PRICE / 0.0000000000000005` can.
pub fn quotients()
    ensures quiet { (can_raise (arithmetic Divide (column 0 type.Integer) (number (pos 2) 0)) ≡ false)
        × (can_raise (arithmetic Divide (column 1 (type.Decimal 9 2)) (number (pos 5) 1)) ≡ false) }
    ensures by_zero { can_raise (arithmetic Divide (column 0 type.Integer) (number (pos 0) 0)) ≡ true }
    ensures by_difference { can_raise (arithmetic Divide (column 0 type.Integer) (arithmetic Subtract (number (pos 2) 0) (number (pos 1) 0))) ≡ true }
    ensures by_signed { can_raise (arithmetic Divide (column 0 type.Integer) (negative (number (pos 2) 0))) ≡ true }
    ensures by_column { can_raise (arithmetic Divide (column 0 type.Integer) (column 0 type.Integer)) ≡ true }
    ensures dividend { can_raise (arithmetic Divide (column 1 (type.Decimal 9 2)) (number (pos 5) 16)) ≡ true }
{}

/// `999999999999999998 + 1` can't raise, `999999999999999999 + 1` and `999999999999999999 + 0.1`, where the first is brought to scale 1, can,
/// and `-999999999999999999 - 1`. `ID + PRICE` can't.
pub fn sums()
    ensures quiet { (can_raise (arithmetic Add (number (pos 999999999999999998) 0) (number (pos 1) 0)) ≡ false)
        × (can_raise (arithmetic Add (column 0 type.Integer) (column 1 (type.Decimal 9 2))) ≡ false) }
    ensures result { (can_raise (arithmetic Add (number (pos 999999999999999999) 0) (number (pos 1) 0)) ≡ true)
        × (can_raise (arithmetic Subtract (negative (number (pos 999999999999999999) 0)) (number (pos 1) 0)) ≡ true) }
    ensures first { can_raise (arithmetic Add (number (pos 999999999999999999) 0) (number (pos 1) 1)) ≡ true }
    ensures second { can_raise (arithmetic Subtract (number (pos 1) 1) (number (pos 999999999999999999) 0)) ≡ true }
{}

/// `ID * 465661287` can't raise: it comes to at most 999999999339134976. `ID * 465661288`, `ID * 1000000000` can. What is over one that can can too.
pub fn products()
    ensures quiet { can_raise (arithmetic Multiply (column 0 type.Integer) (number (pos 465661287) 0)) ≡ false }
    ensures past { (can_raise (arithmetic Multiply (column 0 type.Integer) (number (pos 465661288) 0)) ≡ true)
        × (can_raise (arithmetic Multiply (column 0 type.Integer) (number (pos 1000000000) 0)) ≡ true) }
    ensures over { can_raise (negative (arithmetic Subtract (arithmetic Multiply (column 0 type.Integer) (number (pos 1000000000) 0)) (number (pos 1) 0))) ≡ true }
{}

/// With q for `1 / ID`, which can raise: `1 BETWEEN 0 AND q`, `1 IN (0, q)`, `q IS NULL`, `NOT (q = 1)`, `COALESCE(ID, q)`, `NULLIF(ID, q)` and
/// `CASE WHEN q = 1 THEN 1 ELSE 2 END` can; the like with ID for q can't. `COALESCE(DECIMAL(18, 0), 0.1)` can: its results are brought.
pub fn constructs()
    ensures between { (condition_can_raise (between (number (pos 1) 0) (number (pos 0) 0) (arithmetic Divide (number (pos 1) 0) (column 0 type.Integer))) ≡ true)
        × (condition_can_raise (between (number (pos 1) 0) (number (pos 0) 0) (column 0 type.Integer)) ≡ false) }
    ensures among { (condition_can_raise (among (number (pos 1) 0) (more (number (pos 0) 0) (last (arithmetic Divide (number (pos 1) 0) (column 0 type.Integer))))) ≡ true)
        × (condition_can_raise (among (number (pos 1) 0) (more (number (pos 0) 0) (last (column 0 type.Integer)))) ≡ false) }
    ensures tests { (condition_can_raise (predicate IsNull (arithmetic Divide (number (pos 1) 0) (column 0 type.Integer))) ≡ true)
        × (condition_can_raise (negation_of (comparison Equal (arithmetic Divide (number (pos 1) 0) (column 0 type.Integer)) (number (pos 1) 0))) ≡ true) }
    ensures coalesce { (can_raise (case (coalesced (more (column 0 type.Integer) (last (arithmetic Divide (number (pos 1) 0) (column 0 type.Integer)))))) ≡ true)
        × (can_raise (case (coalesced (more (column 0 type.Integer) (last (column 1 (type.Decimal 9 2)))))) ≡ false) }
    ensures brought { can_raise (case (coalesced (more (column 0 (type.Decimal 18 0)) (last (number (pos 1) 1))))) ≡ true }
    ensures unless_equal { (can_raise (unless_among (more (column 0 type.Integer) (last (arithmetic Divide (number (pos 1) 0) (column 0 type.Integer))))) ≡ true)
        × (can_raise (unless_among (more (column 0 type.Integer) (last (column 0 type.Integer)))) ≡ false) }
    ensures branch { (can_raise (case (when (comparison Equal (arithmetic Divide (number (pos 1) 0) (column 0 type.Integer)) (number (pos 1) 0)) (number (pos 1) 0) (otherwise (number (pos 2) 0)))) ≡ true)
        × (can_raise (case (when (comparison Equal (column 0 type.Integer) (number (pos 1) 0)) null (otherwise (number (pos 2) 0)))) ≡ false) }
{}

/// Of a value that is filled in, and of a column that is told to have so much at most, that is the magnitude, and neither raises; told past 18
/// digits it is 999999999999999999. A quotient by a value that is filled in can raise, also by 2, which any other value may take the place of.
/// IN over the rows of a subquery can raise where what is asked or a key can, and not otherwise (ISO/IEC 9075:1992, 6.2, 6.5, 7.11).
pub fn what_is_filled_in()
    ensures magnitudes { (magnitude (given (parameter 0) (kind.Number 2) 99 Null) ≡ 99) × ((magnitude (given (single 0) (kind.Number 2) 1000000000000000000 (Num (pos 1))) ≡ 999999999999999999)
        × ((magnitude (cell 0 (type.Decimal 18 2) 500) ≡ 500) × (magnitude (cell 0 (type.Decimal 18 2) 1000000000000000000) ≡ 999999999999999999))) }
    ensures quiet { (can_raise (given (parameter 0) (kind.Number 2) 99 Null) ≡ false) × ((can_raise (cell 0 (type.Decimal 18 2) 500) ≡ false)
        × (can_raise (arithmetic Multiply (cell 0 (type.Decimal 18 2) 500) (given (parameter 0) (kind.Number 2) 99 Null)) ≡ false)) }
    ensures divided { (can_raise (arithmetic Divide (column 0 type.Integer) (given (parameter 0) (kind.Number 0) 9 (Num (pos 2)))) ≡ true)
        × (can_raise (arithmetic Divide (column 0 type.Integer) (cell 1 type.Integer 9)) ≡ true) }
    ensures asked { (condition_can_raise (found 0 (operand (arithmetic Divide (number (pos 1) 0) (column 0 type.Integer)) nil) nil (kind.Number 0 ∷ []) []) ≡ true)
        × ((condition_can_raise (found 0 (operand (column 0 type.Integer) nil) (operand (column 0 type.Integer) (operand (arithmetic Divide (number (pos 1) 0) (column 0 type.Integer)) nil)) (kind.Number 0 ∷ []) []) ≡ true)
        × (condition_can_raise (found 0 (operand (column 0 type.Integer) nil) (operand (column 0 type.Integer) nil) (kind.Number 0 ∷ kind.Number 0 ∷ []) []) ≡ false)) }
{}

/// In the range of an INTEGER: null, -2147483648; not 3000000000, nor a date. Of a DECIMAL(9, 2): 9999999.99, not 10000000.00.
pub fn ranges()
    ensures integer { Fits type.Integer Null × Fits type.Integer (Num (negsuc 2147483647)) }
    ensures no_integer { (Fits type.Integer (Num (pos 3000000000)) → ⊥) × (Fits type.Integer (Date (pos 19980902)) → ⊥) }
    ensures decimal { Fits (type.Decimal 9 2) (Num (pos 999999999)) × (Fits (type.Decimal 9 2) (Num (pos 1000000000)) → ⊥) }
{}
