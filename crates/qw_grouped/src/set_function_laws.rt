//! What holds of the set functions, and worked cases whose values were found by hand. No function here computes anything.

ghost use Rattle.std.specs.Prelude.{◌≡◌, ◌≤◌, ◌^◌, ◌*ℤ◌, pos, negsuc, neg_ℤ, int_div, true, false, List, [], ◌∷◌, length, Ok, Err};
ghost use Rattle.std.specs.List.{AllByRecursion};
ghost use Rattle.std.specs.List.Sorted.{IsPermutation};
ghost use Rattle.std.specs.Ordering.{is_le};
ghost use Rattle.qw_types.specs.Arithmetic.{fits};
ghost use Rattle.qw_types.specs.ValueOrder.{value_order};
ghost use Rattle.qw_types.specs.declared.code.Code.TheVariants.{OutOfRange};
ghost use Rattle.qw_types.specs.declared.value.Val.{Val};
ghost use Rattle.qw_types.specs.declared.value.Val.TheVariants.{Null, Num, Date, Text};
ghost use Rattle.qw_grouped.specs.SetFunctions.{greatest_value, least_value, not_null, set_function_value, total};
ghost use Rattle.qw_grouped.specs.declared.set_function.SetFunctionKind.{SetFunctionKind};
ghost use Rattle.qw_grouped.specs.declared.set_function.SetFunctionKind.TheVariants.{CountRows, Count, Sum, Avg, Min, Max};

/// Over the prices 10.00, null and 0.50: three rows, two values, the sum 10.50, the average 5.250000, the least 0.50, the greatest 10.00.
pub fn prices()
    ensures rows { set_function_value CountRows (Num (pos 1000) ∷ Null ∷ Num (pos 50) ∷ []) ≡ Ok (Num (pos 3)) }
    ensures values { set_function_value Count (Num (pos 1000) ∷ Null ∷ Num (pos 50) ∷ []) ≡ Ok (Num (pos 2)) }
    ensures sum { set_function_value Sum (Num (pos 1000) ∷ Null ∷ Num (pos 50) ∷ []) ≡ Ok (Num (pos 1050)) }
    ensures average { set_function_value Avg (Num (pos 1000) ∷ Null ∷ Num (pos 50) ∷ []) ≡ Ok (Num (pos 5250000)) }
    ensures least { set_function_value Min (Num (pos 1000) ∷ Null ∷ Num (pos 50) ∷ []) ≡ Ok (Num (pos 50)) }
    ensures greatest { set_function_value Max (Num (pos 1000) ∷ Null ∷ Num (pos 50) ∷ []) ≡ Ok (Num (pos 1000)) }
{}

/// Over no row, and over rows with nulls alone: COUNT is 0 and COUNT(*) the number of rows, and all others are null.
pub fn no_values()
    ensures no_row { (set_function_value CountRows [] ≡ Ok (Num (pos 0))) × (set_function_value Count [] ≡ Ok (Num (pos 0)))
        × (set_function_value Sum [] ≡ Ok Null) × (set_function_value Avg [] ≡ Ok Null)
        × (set_function_value Min [] ≡ Ok Null) × (set_function_value Max [] ≡ Ok Null) }
    ensures nulls { (set_function_value CountRows (Null ∷ Null ∷ []) ≡ Ok (Num (pos 2))) × (set_function_value Count (Null ∷ Null ∷ []) ≡ Ok (Num (pos 0)))
        × (set_function_value Sum (Null ∷ Null ∷ []) ≡ Ok Null) × (set_function_value Avg (Null ∷ Null ∷ []) ≡ Ok Null)
        × (set_function_value Min (Null ∷ Null ∷ []) ≡ Ok Null) × (set_function_value Max (Null ∷ Null ∷ []) ≡ Ok Null) }
    ensures left_out { not_null (Null ∷ Num (pos 0) ∷ Null ∷ Text [] ∷ Date (pos 10101) ∷ []) ≡ Num (pos 0) ∷ Text [] ∷ Date (pos 10101) ∷ [] }
{}

/// A sum has at most 18 digits: 999999999999999999 is one, and one more is out of range, of both signs. What the sum is midway is nothing
/// to it: 999999999999999999 twice and its negative once come to 999999999999999999, in any order.
pub fn limits_of_sums()
    ensures greatest { set_function_value Sum (Num (pos 999999999999999998) ∷ Num (pos 1) ∷ []) ≡ Ok (Num (pos 999999999999999999)) }
    ensures past { set_function_value Sum (Num (pos 999999999999999999) ∷ Num (pos 1) ∷ []) ≡ Err OutOfRange }
    ensures least { set_function_value Sum (Num (neg_ℤ (pos 999999999999999998)) ∷ Null ∷ Num (negsuc 0) ∷ []) ≡ Ok (Num (neg_ℤ (pos 999999999999999999))) }
    ensures below { set_function_value Sum (Num (neg_ℤ (pos 999999999999999999)) ∷ Null ∷ Num (negsuc 0) ∷ []) ≡ Err OutOfRange }
    ensures midway { set_function_value Sum (Num (pos 999999999999999999) ∷ Num (pos 999999999999999999) ∷ Num (neg_ℤ (pos 999999999999999999)) ∷ []) ≡ Ok (Num (pos 999999999999999999)) }
    ensures midway_below { set_function_value Sum (Num (neg_ℤ (pos 999999999999999999)) ∷ Num (neg_ℤ (pos 999999999999999999)) ∷ Num (pos 999999999999999999) ∷ []) ≡ Ok (Num (neg_ℤ (pos 999999999999999999))) }
    ensures twice { set_function_value Sum (Num (pos 999999999999999999) ∷ Num (pos 999999999999999999) ∷ []) ≡ Err OutOfRange }
{}

/// An average is truncated toward zero: of 1, 0 and 0 it is 0.3333, of 2, 0 and 0 it is 0.6666, of their negatives -0.3333 and -0.6666; of
/// numbers too near zero 0. It is out of range where four digits more don't fit, though the sum does; and it fits where the sum doesn't.
pub fn averages()
    ensures third { set_function_value Avg (Num (pos 1) ∷ Num (pos 0) ∷ Num (pos 0) ∷ []) ≡ Ok (Num (pos 3333)) }
    ensures two_thirds { set_function_value Avg (Num (pos 2) ∷ Num (pos 0) ∷ Num (pos 0) ∷ []) ≡ Ok (Num (pos 6666)) }
    ensures negative_third { set_function_value Avg (Num (negsuc 0) ∷ Num (pos 0) ∷ Num (pos 0) ∷ []) ≡ Ok (Num (neg_ℤ (pos 3333))) }
    ensures two_negative_thirds { set_function_value Avg (Num (negsuc 1) ∷ Num (pos 0) ∷ Num (pos 0) ∷ []) ≡ Ok (Num (neg_ℤ (pos 6666))) }
    ensures nulls { set_function_value Avg (Num (pos 1) ∷ Null ∷ Num (pos 2) ∷ []) ≡ Ok (Num (pos 15000)) }
    ensures no_room { set_function_value Avg (Num (pos 999999999999999999) ∷ Num (pos 999999999999999999) ∷ Num (neg_ℤ (pos 999999999999999999)) ∷ []) ≡ Err OutOfRange }
    ensures room { set_function_value Avg (Num (pos 99999999999999) ∷ []) ≡ Ok (Num (pos 999999999999990000)) }
    ensures past { set_function_value Avg (Num (pos 100000000000000) ∷ []) ≡ Err OutOfRange }
    ensures sum_of_any_size { set_function_value Avg (Num (pos 999999999999999999) ∷ Num (pos 2) ∷ Num (neg_ℤ (pos 999999999999999999)) ∷ []) ≡ Ok (Num (pos 6666)) }
{}

/// MIN and MAX of numbers of both signs, of dates, and of texts by their octets: '' is below 'p', 'ink' below 'p', and 'p' below 'pen'.
pub fn least_and_greatest()
    ensures numbers { (set_function_value Min (Num (pos 3) ∷ Num (negsuc 4) ∷ Null ∷ Num (pos 0) ∷ []) ≡ Ok (Num (negsuc 4)))
        × (set_function_value Max (Num (negsuc 6) ∷ Num (negsuc 4) ∷ Null ∷ Num (negsuc 5) ∷ []) ≡ Ok (Num (negsuc 4))) }
    ensures dates { (set_function_value Min (Null ∷ Date (pos 19980902) ∷ Date (pos 19980901) ∷ []) ≡ Ok (Date (pos 19980901)))
        × (set_function_value Max (Null ∷ Date (pos 19980902) ∷ Date (pos 19980901) ∷ []) ≡ Ok (Date (pos 19980902))) }
    ensures texts { (set_function_value Min (Text (112 ∷ 101 ∷ 110 ∷ []) ∷ Text (112 ∷ []) ∷ Text (105 ∷ 110 ∷ 107 ∷ []) ∷ []) ≡ Ok (Text (105 ∷ 110 ∷ 107 ∷ [])))
        × (set_function_value Max (Text (112 ∷ []) ∷ Text (112 ∷ 101 ∷ 110 ∷ []) ∷ Text (105 ∷ 110 ∷ 107 ∷ []) ∷ []) ≡ Ok (Text (112 ∷ 101 ∷ 110 ∷ [])))
        × (set_function_value Min (Text (112 ∷ []) ∷ Text [] ∷ []) ≡ Ok (Text [])) }
{}

/// The order of the values makes no difference.
pub fn any_order()
    ensures { (kind : SetFunctionKind) (values others : List Val) → IsPermutation values others → set_function_value kind values ≡ set_function_value kind others }
{}

/// MIN's value is at most each value that isn't null, and MAX's at least.
pub fn extremes()
    ensures least { (values : List Val) → AllByRecursion (λ value. is_le (value_order (least_value (not_null values)) value) ≡ true) (not_null values) }
    ensures greatest { (values : List Val) → AllByRecursion (λ value. is_le (value_order value (greatest_value (not_null values))) ≡ true) (not_null values) }
{}

/// Of one value or more, SUM and AVG are out of range exactly where the whole sum, or the average, has more than 18 digits.
pub fn ranges()
    ensures sum { (values : List Val) → 1 ≤ length (not_null values) → fits (total (not_null values)) ≡ true → set_function_value Sum values ≡ Ok (Num (total (not_null values))) }
    ensures sum_past { (values : List Val) → fits (total (not_null values)) ≡ false → set_function_value Sum values ≡ Err OutOfRange }
    ensures average { (values : List Val) → 1 ≤ length (not_null values) → fits (int_div (total (not_null values) *ℤ pos (10 ^ 4)) (pos (length (not_null values)))) ≡ true
        → set_function_value Avg values ≡ Ok (Num (int_div (total (not_null values) *ℤ pos (10 ^ 4)) (pos (length (not_null values))))) }
    ensures average_past { (values : List Val) → 1 ≤ length (not_null values) → fits (int_div (total (not_null values) *ℤ pos (10 ^ 4)) (pos (length (not_null values)))) ≡ false
        → set_function_value Avg values ≡ Err OutOfRange }
{}
