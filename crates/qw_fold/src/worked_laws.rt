//! Worked cases of the definitions, with numbers: stated as contracts. No function here computes anything.

ghost use Rattle.std.specs.Prelude.{◌≡◌, ℕ, ℤ, pos, [], ◌∷◌};
ghost use Rattle.qw_types.specs.declared.value.Ty.TheVariants.{Decimal, Integer};
ghost use Rattle.qw_scalar.specs.declared.expression.Expr.TheVariants.{Column, Number};
ghost use Rattle.qw_scalar.specs.declared.expression.Field.TheVariants.{Month};
ghost use Rattle.qw_scalar.specs.declared.expression.Operator.TheVariants.{Add, Divide, Multiply, Subtract};
ghost use Rattle.qw_scalar.specs.declared.comparison.Comparison.TheVariants.{Less};
ghost use Rattle.qw_scalar.specs.Expression.{arithmetic, column, comparison, date, extract, number};
ghost use Rattle.qw_fold.specs.Folded.{AreAtOneScale, AreOperands, IsAtScale, IsLeft};
ghost use Rattle.qw_scalar.specs.Same.{AreSame, IsSame};
ghost use Rattle.qw_meaning.specs.Same.{MeansTheSame};
ghost use Rattle.qw_meaning.specs.Select.{alone};
ghost use Rattle.qw_meaning.specs.WorkedQueries.{nullable, numbers, required};

/// `2 * 3 + 1` is 7, at the scale 0, `EXTRACT(MONTH FROM DATE '1998-09-02')` 9, and `1.5 - 1` 0.5. It is no 8, and no 7.0, which is of
/// another scale; `1 / 0` is no literal.
pub fn literals_of_operations()
    ensures sum { IsSame (arithmetic Add (arithmetic Multiply (number (pos 2) 0) (number (pos 3) 0)) (number (pos 1) 0)) (number (pos 7) 0) }
    ensures month { IsSame (extract Month (date (pos 19980902))) (number (pos 9) 0) }
    ensures difference { IsSame (arithmetic Subtract (number (pos 15) 1) (number (pos 1) 0)) (number (pos 5) 1) }
    ensures other { IsSame (arithmetic Add (arithmetic Multiply (number (pos 2) 0) (number (pos 3) 0)) (number (pos 1) 0)) (number (pos 8) 0) → ⊥ }
    ensures other_scale { IsSame (arithmetic Add (arithmetic Multiply (number (pos 2) 0) (number (pos 3) 0)) (number (pos 1) 0)) (number (pos 70) 1) → ⊥ }
    ensures raises { (v : ℤ) (s : ℕ) → IsSame (arithmetic Divide (number (pos 1) 0) (number (pos 0) 0)) (number v s) → ⊥ }
{}

/// `PRICE < 10` of a PRICE of scale 2 is `PRICE < 10.00`, and not `PRICE < 0.10`: 5.00 tells them apart.
pub fn literals_of_comparisons()
    ensures same { AreSame (comparison Less (column 0 (Decimal 9 2)) (number (pos 10) 0)) (comparison Less (column 0 (Decimal 9 2)) (number (pos 1000) 2)) }
    ensures other { AreSame (comparison Less (column 0 (Decimal 9 2)) (number (pos 10) 0)) (comparison Less (column 0 (Decimal 9 2)) (number (pos 10) 2)) → ⊥ }
{}

/// Left as they are: `1 / 0`, and a sum of 19 digits; not `7 / 2`.
pub fn operations_that_are_left()
    ensures by_zero { IsLeft Divide (Number (pos 1) 0) (Number (pos 0) 0) }
    ensures too_large { IsLeft Add (Number (pos 999999999999999999) 0) (Number (pos 1) 0) }
    ensures done { IsLeft Divide (Number (pos 7) 0) (Number (pos 2) 0) → ⊥ }
{}

/// Beside PRICE, 10.00 stands at its scale, as 10.000 does, and 10 doesn't; nor does 10 in `PRICE + 10`, but in `PRICE * 10` it may stay.
/// 99,999,999,999,999,999 has no value of 18 digits there.
pub fn literals_beside_a_price()
    ensures there { AreAtOneScale (Column 0 (Decimal 9 2)) (Number (pos 1000) 2) }
    ensures beyond { AreAtOneScale (Column 0 (Decimal 9 2)) (Number (pos 10000) 3) }
    ensures whole { AreAtOneScale (Column 0 (Decimal 9 2)) (Number (pos 10) 0) → ⊥ }
    ensures sum { AreOperands Add (Column 0 (Decimal 9 2)) (Number (pos 10) 0) → ⊥ }
    ensures product { AreOperands Multiply (Column 0 (Decimal 9 2)) (Number (pos 10) 0) }
    ensures too_large { IsAtScale 2 (Number (pos 99999999999999999) 0) }
{}

/// A specification means the same as one over another table, with another NOT NULL or with one item more, in no case.
pub fn other_specifications()
    ensures table { MeansTheSame (record { sources = alone numbers ∷ []; conjuncts = []; items = column 0 Integer ∷ [] })
        (record { sources = alone (record { table = 1; columns = nullable Integer ∷ [] }) ∷ []; conjuncts = []; items = column 0 Integer ∷ [] }) → ⊥ }
    ensures not_null { MeansTheSame (record { sources = alone numbers ∷ []; conjuncts = []; items = column 0 Integer ∷ [] })
        (record { sources = alone (record { table = 0; columns = required Integer ∷ [] }) ∷ []; conjuncts = []; items = column 0 Integer ∷ [] }) → ⊥ }
    ensures items { MeansTheSame (record { sources = alone numbers ∷ []; conjuncts = []; items = column 0 Integer ∷ [] })
        (record { sources = alone numbers ∷ []; conjuncts = []; items = column 0 Integer ∷ column 0 Integer ∷ [] }) → ⊥ }
{}
