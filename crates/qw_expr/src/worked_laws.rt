//! Worked cases of the definitions, with numbers: stated as contracts. No function here computes anything.

ghost use Rattle.std.specs.Prelude.{◌≡◌, pos, negsuc, [], ◌∷◌, length, Some, None};
ghost use Rattle.qw_types.specs.declared.truth.Truth.TheVariants.{True, False, Unknown};
ghost use Rattle.qw_types.specs.declared.value.Val.TheVariants.{Null, Num, Date};
ghost use Rattle.qw_scalar.specs.Evaluation.{at_row};
ghost use Rattle.qw_scalar.specs.declared.comparison.Comparison.TheVariants.{Equal};
ghost use Rattle.qw_scalar.specs.Expression.{number, text, comparison, negation_of};
ghost use Rattle.qw_module.specs.declared.instruction.ValType.TheVariants.{I32, I64};
ghost use Rattle.qw_module.specs.declared.instruction.Binary.TheVariants.{Or};
ghost use Rattle.qw_module.specs.declared.instruction.Sign.TheVariants.{Signed};
ghost use Rattle.qw_module.specs.declared.instruction.Relation.TheVariants.{Eq, Ge, Le, Lt};
ghost use Rattle.qw_low.specs.State.{Number};
ghost use Rattle.qw_low.specs.Syntax.{assign, binop, conditional, local, relop};
ghost use Rattle.qw_low.specs.Meaning.{Completed, meaning, value};
ghost use Rattle.qw_low.specs.Size.{size};
ghost use Rattle.qw_low.specs.Steps.{expression_steps};
ghost use Rattle.qw_low.specs.Worked.{state};
ghost use Rattle.qw_expr.specs.Cells.{HoldsTruth, HoldsValue};
ghost use Rattle.qw_expr.specs.Emits.{extent};
ghost use Rattle.qw_expr.specs.Literals.{number_operand};
ghost use Rattle.qw_expr.specs.Tests.{tested, truth_word};
ghost use Rattle.qw_expr.specs.declared.emitter.Emitter.{Emitter};
ghost use Rattle.qw_expr.specs.declared.test.Test.TheVariants as test;
ghost use Rattle.qw_scalar.specs.Units.{units_of};

/// -5 is 2^64 - 5 with 0 in the null word, which isn't null; null is 1 in the null word, whatever the value's local holds; a truth of 0 is
/// unknown with 1 in the null word, and false with 0.
pub fn values_in_locals()
    ensures number { HoldsValue (record { value = 0; length = 0; null = Some 1 }) (Num (negsuc 4)) (record state { locals = Number 18446744073709551611 ∷ Number 0 ∷ [] }) }
    ensures not_null { HoldsValue (record { value = 0; length = 0; null = Some 1 }) Null (record state { locals = Number 18446744073709551611 ∷ Number 0 ∷ [] }) → ⊥ }
    ensures null { HoldsValue (record { value = 0; length = 0; null = Some 1 }) Null (record state { locals = Number 7 ∷ Number 1 ∷ [] }) }
    ensures date { HoldsValue (record { value = 0; length = 0; null = Some 1 }) (Date (pos 19980902)) (record state { locals = Number 19980902 ∷ Number 0 ∷ [] }) }
    ensures unknown { HoldsTruth (record { value = 0; length = 0; null = Some 1 }) Unknown (record state { locals = Number 0 ∷ Number 1 ∷ [] }) }
    ensures false_truth { HoldsTruth (record { value = 0; length = 0; null = Some 1 }) False (record state { locals = Number 0 ∷ Number 0 ∷ [] }) }
{}

/// The units of `'pen' = 'm'` are its 4 octets; NOT adds none, and a comparison of numbers has none.
pub fn units_of_comparisons()
    ensures { (units_of (comparison Equal (text (112 ∷ 101 ∷ 110 ∷ [])) (text (109 ∷ []))) (at_row []) ≡ 4)
        × (units_of (negation_of (comparison Equal (text (112 ∷ 101 ∷ 110 ∷ [])) (text (109 ∷ [])))) (at_row []) ≡ 4)
        × (units_of (comparison Equal (number (pos 1) 0) (number (pos 10) 1)) (at_row []) ≡ 0) }
{}

/// The literal -0.5, of scale 1, whose word is in local 3: its magnitude is 5, and it has no null word.
pub fn operand_of_a_literal()
    ensures { ((number_operand 3 (negsuc 4) 1).most ≡ 5) × ((number_operand 3 (negsuc 4) 1).scale ≡ 1) × ((number_operand 3 (negsuc 4) 1).cell.null ≡ None) }
{}

/// -5 is less than 3 as signed values; a null word of 0 is 0; unknown is no more true than false.
pub fn tests_of_locals()
    ensures related { value (record state { locals = Number 18446744073709551611 ∷ Number 3 ∷ [] }) (tested (test.Related (Lt Signed) 0 1)) ≡ Some (Number 1) }
    ensures zero { value (record state { locals = Number 0 ∷ [] }) (tested (test.Zero 0)) ≡ Some (Number 1) }
    ensures word { (truth_word True ≡ 1) × (truth_word False ≡ 0) × (truth_word Unknown ≡ 0) }
{}

/// 5 lies between 3 and 7, and 8 doesn't; 5 is one of 3 and 5, and 4 isn't, of which NOT is true. A test of both sides counts unknown as false, which
/// leaves 0 in a local.
pub fn tests_joined()
    ensures between { (p q : _) → value (record state { locals = Number 5 ∷ Number 3 ∷ Number 7 ∷ [] }) (tested (test.Both' p (test.Related (Ge Signed) 0 1) q (test.Related (Le Signed) 0 2))) ≡ Some (Number 1) }
    ensures outside { (p q : _) → value (record state { locals = Number 8 ∷ Number 3 ∷ Number 7 ∷ [] }) (tested (test.Both' p (test.Related (Ge Signed) 0 1) q (test.Related (Le Signed) 0 2))) ≡ Some (Number 0) }
    ensures one_of { (p q : _) → value (record state { locals = Number 5 ∷ Number 3 ∷ Number 5 ∷ [] }) (tested (test.Either' p (test.Related Eq 0 2) q (test.Related Eq 0 1))) ≡ Some (Number 1) }
    ensures not_in { (p q r : _) → value (record state { locals = Number 4 ∷ Number 3 ∷ Number 5 ∷ [] }) (tested (test.Not' r (test.Either' p (test.Related Eq 0 2) q (test.Related Eq 0 1)))) ≡ Some (Number 1) }
    ensures unknown { (p q : _) → value (record state { locals = Number 0 ∷ Number 1 ∷ [] }) (tested (test.Both' p (test.Local 0) q (test.Local 1))) ≡ Some (Number 0) }
{}

/// BETWEEN of two words is 7 steps, IN of six 23.
pub fn steps_of_tests()
    ensures between { (p : _) → length (expression_steps (tested (test.Both' p (test.Related (Ge Signed) 0 1) p (test.Related (Le Signed) 0 2)))) ≡ 7 }
    ensures one_of { (p : _) → length (expression_steps (tested (test.Either' p (test.Either' p (test.Either' p (test.Either' p (test.Either' p (test.Related Eq 0 6) p (test.Related Eq 0 5)) p (test.Related Eq 0 4)) p (test.Related Eq 0 3)) p (test.Related Eq 0 2)) p (test.Related Eq 0 1)))) ≡ 23 }
{}

/// -1, 3, 5 and 9 in locals 1 to 4, in halves before 5: 5, 3 and -1 are found among them, and 4 isn't, by 12 instructions each, of 20 that
/// the search has.
pub fn search_by_halves()
    ensures middle { meaning 0 0 (conditional (relop I64 (Lt Signed) (local 0) (local 3)) (assign 5 (binop I32 Or (relop I64 Eq (local 0) (local 1)) (relop I64 Eq (local 0) (local 2)))) (assign 5 (binop I32 Or (relop I64 Eq (local 0) (local 3)) (relop I64 Eq (local 0) (local 4))))) (record state { locals = Number 5 ∷ Number 18446744073709551615 ∷ Number 3 ∷ Number 5 ∷ Number 9 ∷ Number 0 ∷ [] }) ≡ Completed 12 (record state { locals = Number 5 ∷ Number 18446744073709551615 ∷ Number 3 ∷ Number 5 ∷ Number 9 ∷ Number 1 ∷ [] }) }
    ensures lower { meaning 0 0 (conditional (relop I64 (Lt Signed) (local 0) (local 3)) (assign 5 (binop I32 Or (relop I64 Eq (local 0) (local 1)) (relop I64 Eq (local 0) (local 2)))) (assign 5 (binop I32 Or (relop I64 Eq (local 0) (local 3)) (relop I64 Eq (local 0) (local 4))))) (record state { locals = Number 3 ∷ Number 18446744073709551615 ∷ Number 3 ∷ Number 5 ∷ Number 9 ∷ Number 0 ∷ [] }) ≡ Completed 12 (record state { locals = Number 3 ∷ Number 18446744073709551615 ∷ Number 3 ∷ Number 5 ∷ Number 9 ∷ Number 1 ∷ [] }) }
    ensures least { meaning 0 0 (conditional (relop I64 (Lt Signed) (local 0) (local 3)) (assign 5 (binop I32 Or (relop I64 Eq (local 0) (local 1)) (relop I64 Eq (local 0) (local 2)))) (assign 5 (binop I32 Or (relop I64 Eq (local 0) (local 3)) (relop I64 Eq (local 0) (local 4))))) (record state { locals = Number 18446744073709551615 ∷ Number 18446744073709551615 ∷ Number 3 ∷ Number 5 ∷ Number 9 ∷ Number 0 ∷ [] }) ≡ Completed 12 (record state { locals = Number 18446744073709551615 ∷ Number 18446744073709551615 ∷ Number 3 ∷ Number 5 ∷ Number 9 ∷ Number 1 ∷ [] }) }
    ensures none { meaning 0 0 (conditional (relop I64 (Lt Signed) (local 0) (local 3)) (assign 5 (binop I32 Or (relop I64 Eq (local 0) (local 1)) (relop I64 Eq (local 0) (local 2)))) (assign 5 (binop I32 Or (relop I64 Eq (local 0) (local 3)) (relop I64 Eq (local 0) (local 4))))) (record state { locals = Number 4 ∷ Number 18446744073709551615 ∷ Number 3 ∷ Number 5 ∷ Number 9 ∷ Number 0 ∷ [] }) ≡ Completed 12 (record state { locals = Number 4 ∷ Number 18446744073709551615 ∷ Number 3 ∷ Number 5 ∷ Number 9 ∷ Number 0 ∷ [] }) }
    ensures size { size (conditional (relop I64 (Lt Signed) (local 0) (local 3)) (assign 5 (binop I32 Or (relop I64 Eq (local 0) (local 1)) (relop I64 Eq (local 0) (local 2)))) (assign 5 (binop I32 Or (relop I64 Eq (local 0) (local 3)) (relop I64 Eq (local 0) (local 4))))) ≡ 20 }
{}

/// Three steps and two locals of its own are an extent of 5, wherever the locals begin.
pub fn extents()
    ensures { (emitter : Emitter) → length emitter.block.code.items ≡ 3 → length emitter.own.items ≡ 2 → extent emitter ≡ 5 }
{}
