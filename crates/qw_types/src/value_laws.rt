//! What holds of truth, of exact arithmetic and of the lengths of texts, and worked cases whose values were found by hand. No function here
//! computes anything.

ghost use Rattle.std.specs.Prelude.{◌≡◌, ◌≤◌, ◌*◌, ℕ, ℤ, Bool, List, length, pos, neg_ℤ, max, int_div, Ok, Err};
ghost use Rattle.std.specs.List.{AllByRecursion};
ghost use Rattle.std.specs.Ordering.{int_cmp};
ghost use Rattle.std.specs.declared.cmp.Ordering.TheVariants.{Less, Equal, Greater};
ghost use Rattle.qw_types.specs.Arithmetic.{bring, difference_of, order_of, product_of, quotient_of, sum_of};
ghost use Rattle.qw_types.specs.Truth.{conjunction, disjunction, negation};
ghost use Rattle.qw_types.specs.Value.{IsOfTypeOrNull, IsTextOf, text_octets};
ghost use Rattle.qw_types.specs.declared.code.Code.TheVariants.{DivZero, OutOfRange};
ghost use Rattle.qw_types.specs.declared.truth.Truth.{Truth};
ghost use Rattle.qw_types.specs.declared.truth.Truth.TheVariants.{True, False, Unknown};
ghost use Rattle.qw_types.specs.declared.value.Ty.TheVariants.{Varchar};
ghost use Rattle.qw_types.specs.declared.value.Val.{Val};

/// AND and OR in value don't mind the order of their operands (ISO/IEC 9075:1992, 8.12, tables 13 and 14).
pub fn truth_commutes()
    ensures and { (a b : Truth) → conjunction a b ≡ conjunction b a }
    ensures or { (a b : Truth) → disjunction a b ≡ disjunction b a }
{}

/// Nor do they mind brackets.
pub fn truth_associates()
    ensures and { (a b c : Truth) → conjunction (conjunction a b) c ≡ conjunction a (conjunction b c) }
    ensures or { (a b c : Truth) → disjunction (disjunction a b) c ≡ disjunction a (disjunction b c) }
{}

/// De Morgan's laws hold with unknown too, and NOT undoes itself.
pub fn truth_negates()
    ensures and { (a b : Truth) → negation (conjunction a b) ≡ disjunction (negation a) (negation b) }
    ensures or { (a b : Truth) → negation (disjunction a b) ≡ conjunction (negation a) (negation b) }
    ensures twice { (a : Truth) → negation (negation a) ≡ a }
{}

/// What unknown does in each operator.
pub fn unknown_in_truth()
    ensures and { (conjunction Unknown True ≡ Unknown) × (conjunction Unknown False ≡ False) × (conjunction Unknown Unknown ≡ Unknown) }
    ensures or { (disjunction Unknown True ≡ True) × (disjunction Unknown False ≡ Unknown) × (disjunction Unknown Unknown ≡ Unknown) }
    ensures not { negation Unknown ≡ Unknown }
{}

/// Where both values can be brought to the larger scale, comparing their exact values is comparing them there.
pub fn comparison_by_bringing()
    ensures { (a b x y : ℤ) (sa sb : ℕ) → bring a sa (max sa sb) ≡ Ok x → bring b sb (max sa sb) ≡ Ok y →
        order_of a sa b sb ≡ int_cmp x y }
{}

/// A zero divisor raises "division by zero" whatever the dividend, also one that can't be brought.
pub fn zero_divisor_raises()
    ensures { (a : ℤ) (sa sb : ℕ) → quotient_of a sa (pos 0) sb ≡ Err DivZero }
{}

/// A text has at most four octets for each character that it may have, and the texts of a VARCHAR column, of a length that it may
/// have, at most 4,000 a row (ISO/IEC 10646, annex D "UTF-8").
pub fn texts_are_short()
    ensures one { (limit : ℕ) (octets : List ℕ) → IsTextOf limit octets → length octets ≤ 4 * limit }
    ensures column { (limit : ℕ) (not_null : Bool) (values : List Val) → limit ≤ 1000 → AllByRecursion (IsOfTypeOrNull (Varchar limit) not_null) values
        → text_octets values ≤ 4000 * length values }
{}

/// Sums: at the edge of 18 digits, at scales 0 and 18, and at unlike scales.
pub fn worked_sums()
    ensures { (sum_of (pos 999999999999999999) 0 (pos 1) 0 ≡ Err OutOfRange)
        × (sum_of (pos 999999999999999998) 0 (pos 1) 0 ≡ Ok (pos 999999999999999999))
        × (sum_of (pos 999999999999999999) 0 (pos 0) 0 ≡ Ok (pos 999999999999999999))
        × (sum_of (neg_ℤ (pos 999999999999999999)) 0 (neg_ℤ (pos 1)) 0 ≡ Err OutOfRange)
        × (sum_of (neg_ℤ (pos 999999999999999999)) 0 (pos 1) 0 ≡ Ok (neg_ℤ (pos 999999999999999998)))
        × (sum_of (pos 999999999999999999) 0 (neg_ℤ (pos 999999999999999999)) 0 ≡ Ok (pos 0))
        × (sum_of (pos 1) 0 (pos 1) 18 ≡ Err OutOfRange)
        × (sum_of (pos 0) 0 (pos 5) 18 ≡ Ok (pos 5))
        × (sum_of (pos 5) 18 (pos 0) 0 ≡ Ok (pos 5))
        × (sum_of (pos 1) 18 (pos 1) 0 ≡ Err OutOfRange)
        × (sum_of (pos 9) 1 (pos 1) 0 ≡ Ok (pos 19))
        × (sum_of (pos 150) 2 (pos 25) 1 ≡ Ok (pos 400))
        × (sum_of (neg_ℤ (pos 150)) 2 (pos 25) 1 ≡ Ok (pos 100))
        × (sum_of (pos 99999999999999999) 0 (pos 0) 1 ≡ Ok (pos 999999999999999990))
        × (sum_of (pos 100000000000000000) 0 (pos 0) 1 ≡ Err OutOfRange)
        × (sum_of (pos 999999999999999999) 18 (pos 1) 18 ≡ Err OutOfRange)
        × (sum_of (pos 999999999999999999) 18 (pos 0) 18 ≡ Ok (pos 999999999999999999)) }
{}

/// Differences.
pub fn worked_differences()
    ensures { (difference_of (pos 999999999999999999) 0 (neg_ℤ (pos 1)) 0 ≡ Err OutOfRange)
        × (difference_of (neg_ℤ (pos 999999999999999999)) 0 (pos 1) 0 ≡ Err OutOfRange)
        × (difference_of (pos 999999999999999999) 0 (pos 1) 0 ≡ Ok (pos 999999999999999998))
        × (difference_of (neg_ℤ (pos 999999999999999999)) 0 (neg_ℤ (pos 1)) 0 ≡ Ok (neg_ℤ (pos 999999999999999998)))
        × (difference_of (pos 0) 0 (pos 999999999999999999) 0 ≡ Ok (neg_ℤ (pos 999999999999999999)))
        × (difference_of (pos 1) 0 (pos 9) 1 ≡ Ok (pos 1))
        × (difference_of (pos 300) 2 (pos 5) 1 ≡ Ok (pos 250))
        × (difference_of (pos 0) 0 (pos 1) 18 ≡ Ok (neg_ℤ (pos 1)))
        × (difference_of (pos 1) 0 (pos 1) 18 ≡ Err OutOfRange)
        × (difference_of (pos 999999999999999999) 0 (pos 999999999999999999) 0 ≡ Ok (pos 0)) }
{}

/// Products: that just fit, and that just don't.
pub fn worked_products()
    ensures { (product_of (pos 999999999) (pos 1000000001) ≡ Ok (pos 999999999999999999))
        × (product_of (pos 1000000000) (pos 1000000000) ≡ Err OutOfRange)
        × (product_of (neg_ℤ (pos 1000000000)) (pos 1000000000) ≡ Err OutOfRange)
        × (product_of (neg_ℤ (pos 999999999)) (pos 1000000001) ≡ Ok (neg_ℤ (pos 999999999999999999)))
        × (product_of (pos 999999999999999999) (pos 1) ≡ Ok (pos 999999999999999999))
        × (product_of (pos 999999999999999999) (neg_ℤ (pos 1)) ≡ Ok (neg_ℤ (pos 999999999999999999)))
        × (product_of (pos 999999999999999999) (pos 2) ≡ Err OutOfRange)
        × (product_of (pos 0) (pos 999999999999999999) ≡ Ok (pos 0))
        × (product_of (neg_ℤ (pos 7)) (neg_ℤ (pos 3)) ≡ Ok (pos 21))
        × (product_of (pos 500000000000000000) (pos 2) ≡ Err OutOfRange)
        × (product_of (pos 500000000000000000) (pos 1) ≡ Ok (pos 500000000000000000))
        × (product_of (pos 150) (pos 25) ≡ Ok (pos 3750)) }
{}

/// Quotients: truncated toward zero, of the dividend's scale; "division by zero" before "out of range".
pub fn worked_quotients()
    ensures { (quotient_of (neg_ℤ (pos 7)) 0 (pos 2) 0 ≡ Ok (neg_ℤ (pos 3)))
        × (quotient_of (pos 7) 0 (neg_ℤ (pos 2)) 0 ≡ Ok (neg_ℤ (pos 3)))
        × (quotient_of (neg_ℤ (pos 7)) 0 (neg_ℤ (pos 2)) 0 ≡ Ok (pos 3))
        × (quotient_of (pos 7) 0 (pos 2) 0 ≡ Ok (pos 3))
        × (quotient_of (pos 700) 2 (pos 2) 0 ≡ Ok (pos 350))
        × (quotient_of (pos 1) 0 (pos 5) 1 ≡ Ok (pos 2))
        × (quotient_of (pos 1) 0 (pos 3) 0 ≡ Ok (pos 0))
        × (quotient_of (neg_ℤ (pos 1)) 0 (pos 3) 0 ≡ Ok (pos 0))
        × (quotient_of (pos 100) 2 (pos 3) 0 ≡ Ok (pos 33))
        × (quotient_of (pos 200) 2 (pos 3) 0 ≡ Ok (pos 66))
        × (quotient_of (neg_ℤ (pos 200)) 2 (pos 3) 0 ≡ Ok (neg_ℤ (pos 66)))
        × (quotient_of (pos 1) 0 (pos 0) 0 ≡ Err DivZero)
        × (quotient_of (pos 0) 0 (pos 0) 0 ≡ Err DivZero)
        × (quotient_of (pos 999999999999999999) 0 (pos 0) 18 ≡ Err DivZero)
        × (quotient_of (pos 999999999999999999) 0 (pos 1) 18 ≡ Err OutOfRange)
        × (quotient_of (pos 1) 0 (pos 1) 18 ≡ Err OutOfRange)
        × (quotient_of (pos 0) 0 (pos 1) 18 ≡ Ok (pos 0))
        × (quotient_of (pos 999999999999999999) 0 (pos 1) 0 ≡ Ok (pos 999999999999999999))
        × (quotient_of (pos 999999999999999999) 0 (neg_ℤ (pos 1)) 0 ≡ Ok (neg_ℤ (pos 999999999999999999)))
        × (quotient_of (pos 100000000000000000) 0 (pos 5) 1 ≡ Err OutOfRange)
        × (quotient_of (pos 99999999999999999) 0 (pos 5) 1 ≡ Ok (pos 199999999999999998))
        × (quotient_of (pos 9) 9 (pos 3) 9 ≡ Ok (pos 3000000000)) }
{}

/// Comparisons of unlike scales, also where bringing wouldn't fit.
pub fn worked_comparisons()
    ensures { (order_of (pos 1) 0 (pos 10) 1 ≡ Equal)
        × (order_of (pos 1) 0 (pos 9) 1 ≡ Greater)
        × (order_of (neg_ℤ (pos 1)) 0 (pos 9) 1 ≡ Less)
        × (order_of (pos 1) 0 (pos 999999999999999999) 18 ≡ Greater)
        × (order_of (pos 0) 0 (pos 0) 18 ≡ Equal)
        × (order_of (pos 999999999999999999) 0 (pos 999999999999999999) 18 ≡ Greater)
        × (order_of (neg_ℤ (pos 999999999999999999)) 0 (neg_ℤ (pos 999999999999999999)) 18 ≡ Less)
        × (order_of (pos 999999999999999999) 0 (pos 999999999999999999) 0 ≡ Equal)
        × (order_of (pos 15) 1 (pos 150) 2 ≡ Equal)
        × (order_of (pos 15) 1 (pos 151) 2 ≡ Less)
        × (order_of (neg_ℤ (pos 15)) 1 (neg_ℤ (pos 151)) 2 ≡ Greater)
        × (order_of (pos 999999999999999999) 18 (pos 1) 0 ≡ Less) }
{}
