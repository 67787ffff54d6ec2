//! What expressions compare at most, and worked cases of it. No function here computes anything.

ghost use Rattle.std.specs.Prelude.{◌≡◌, ◌≤◌, ℕ, max, pos, [], ◌∷◌, List};
ghost use Rattle.qw_types.specs.declared.value.Ty.TheVariants as type;
ghost use Rattle.qw_scalar.specs.declared.comparison.Comparison.TheVariants.{Equal, Less, Like, NotLike};
ghost use Rattle.qw_scalar.specs.declared.expression.Operator.TheVariants.{Divide};
ghost use Rattle.qw_scalar.specs.Evaluation.{Environment};
ghost use Rattle.qw_scalar.specs.Expression.{Expression, among, arithmetic, between, case, coalesced, column, comparison, last, more, null, number, otherwise, text, unless_among, when};
ghost use Rattle.qw_scalar.specs.Units.{units, units_of, units_of_all, units_of_items};
ghost use Rattle.qw_scalar.specs.WorkedRows.{first_item, ink, nested_coalesce, pen, second_item};

/// COALESCE compares what its arguments compare at most (ISO/IEC 9075:1992, 6.9), though the CASE that it abbreviates names the first one
/// twice; COALESCE within COALESCE, 31 deep or as deep as it may be, compares no more than the two that it is made of.
pub fn coalesce()
    ensures once { (a b : Expression) (env : Environment) → units (case (coalesced (more a (last b)))) env ≡ max (units a env) (units b env) }
    ensures nested { (n : ℕ) (a b : Expression) (env : Environment) → units (nested_coalesce n a b) env ≤ max (units a env) (units b env) }
    ensures deep { (a b : Expression) (env : Environment) → units (nested_coalesce 31 a b) env ≤ max (units a env) (units b env) }
{}

/// `'pen' = 'ink'` compares 6 octets, 3 of each text, and `LABEL = 'pen'` the same where LABEL is 'ink'; numbers compare none, nor does a
/// comparison with null or with what raises. `LABEL IN ('pen', 'ink', '')` and `LABEL BETWEEN '' AND 'pen'` compare 6, the most of each
/// comparison, and `NULLIF(LABEL, 'penpen')` 9. `LABEL LIKE 'p%'` takes (3 + 1) * (2 + 1), and `'' NOT LIKE 'pen'` 1 * 4. Of a list the most
/// counts too, and 0 of none.
pub fn worked_units()
    ensures { (units_of (comparison Equal (text pen) (text ink)) first_item ≡ 6)
        × (units_of (comparison Less (column 3 (type.Varchar 20)) (text pen)) second_item ≡ 6)
        × (units_of (comparison Equal (number (pos 1) 0) (number (pos 2) 0)) first_item ≡ 0)
        × (units_of (comparison Equal (column 1 (type.Decimal 9 2)) (number (pos 2) 0)) second_item ≡ 0)
        × (units_of (comparison Equal (text pen) (column 8 (type.Varchar 20))) first_item ≡ 0)
        × (units_of (comparison Equal (arithmetic Divide (number (pos 1) 0) (number (pos 0) 0)) (text pen)) first_item ≡ 0)
        × (units_of (among (column 3 (type.Varchar 20)) (more (text pen) (more (text ink) (last (text []))))) first_item ≡ 6)
        × (units_of (between (column 3 (type.Varchar 20)) (text []) (text pen)) first_item ≡ 6)
        × (units (unless_among (more (column 3 (type.Varchar 20)) (last (text (112 ∷ 101 ∷ 110 ∷ pen))))) first_item ≡ 9)
        × (units (case (when (comparison Equal (text pen) (text ink)) (unless_among (more (text []) (last (text pen)))) (otherwise (text pen)))) first_item ≡ 6)
        × (units_of_all (comparison Equal (text pen) (text []) ∷ comparison Equal (text pen) (text ink) ∷ comparison Equal (text []) (text pen) ∷ []) first_item ≡ 6)
        × (units_of_items (unless_among (more (text pen) (last (text ink))) ∷ text pen ∷ []) first_item ≡ 6)
        × (units_of (comparison Like (column 3 (type.Varchar 20)) (text (112 ∷ 37 ∷ []))) first_item ≡ 12)
        × (units_of (comparison NotLike (text []) (text pen)) first_item ≡ 4)
        × (units_of (comparison Like null (text pen)) first_item ≡ 0)
        × (units_of_all [] first_item ≡ 0)
        × (units_of_items [] first_item ≡ 0) }
{}
