//! Worked cases of the definitions, with numbers, stated as contracts. No function here computes anything.

ghost use Rattle.std.specs.Prelude.{◌≡◌, IsTrue, ℤ, pos, negsuc, [], ◌∷◌, codes, true, false, Some, None};
ghost use Rattle.qw_types.specs.Calendar.{IsDate};
ghost use Rattle.qw_types.specs.DateText.{ShowsDate};
ghost use Rattle.qw_types.specs.Numeral.{ShowsNumber, is_fine, is_number};
ghost use Rattle.qw_types.specs.NumberText.{decimal_text};
ghost use Rattle.qw_types.specs.declared.value.Ty.TheVariants as ty;
ghost use Rattle.qw_types.specs.declared.value.Ty.TheVariants.{Decimal, Integer, Varchar};
ghost use Rattle.qw_types.specs.declared.value.Val.TheVariants as val;
ghost use Rattle.qw_types.specs.declared.value.Val.TheVariants.{Num};
ghost use Rattle.qw_types.specs.Value.{IsDay, IsOfType, IsSized, is_day, value_of};

/// An INTEGER is from -2147483648 to 2147483647, and no number past these bounds is one.
pub fn integer_bounds()
    ensures least { IsOfType Integer (Num (negsuc 2147483647)) }
    ensures greatest { IsOfType Integer (Num (pos 2147483647)) }
    ensures below { IsOfType Integer (Num (negsuc 2147483648)) → ⊥ }
    ensures above { IsOfType Integer (Num (pos 2147483648)) → ⊥ }
{}

/// In the rows (4, -1) and (7, 9) the values are found by row and column, both counted from 0, and none beside them.
pub fn values_of_two_rows()
    ensures first { value_of ((Num (pos 4) ∷ Num (negsuc 0) ∷ []) ∷ (Num (pos 7) ∷ Num (pos 9) ∷ []) ∷ []) 0 1 ≡ Some (Num (negsuc 0)) }
    ensures second { value_of ((Num (pos 4) ∷ Num (negsuc 0) ∷ []) ∷ (Num (pos 7) ∷ Num (pos 9) ∷ []) ∷ []) 1 0 ≡ Some (Num (pos 7)) }
    ensures no_column { value_of ((Num (pos 4) ∷ Num (negsuc 0) ∷ []) ∷ (Num (pos 7) ∷ Num (pos 9) ∷ []) ∷ []) 1 2 ≡ None }
    ensures no_row { value_of ((Num (pos 4) ∷ Num (negsuc 0) ∷ []) ∷ (Num (pos 7) ∷ Num (pos 9) ∷ []) ∷ []) 2 0 ≡ None }
{}

/// A DECIMAL(3, 1) is from -99.9 to 99.9, whole numbers of tenths.
pub fn decimal_bounds()
    ensures least { IsOfType (Decimal 3 1) (Num (negsuc 998)) }
    ensures greatest { IsOfType (Decimal 3 1) (Num (pos 999)) }
    ensures below { IsOfType (Decimal 3 1) (Num (negsuc 999)) → ⊥ }
    ensures above { IsOfType (Decimal 3 1) (Num (pos 1000)) → ⊥ }
    ensures no_text { IsOfType (Decimal 3 1) (val.Text (49 ∷ [])) → ⊥ }
{}

/// A DATE is a day of the years 1 to 9999: of the centuries only every fourth has a 29th of February.
pub fn dates_of_the_calendar()
    ensures first { IsDate 1 1 1 }
    ensures last { IsDate 9999 12 31 }
    ensures leap { IsDate 2000 2 29 × IsDate 1996 2 29 }
    ensures common { (IsDate 1900 2 29 → ⊥) × (IsDate 1997 2 29 → ⊥) }
    ensures short { IsDate 1998 4 30 × (IsDate 1998 4 31 → ⊥) × (IsDate 1998 9 31 → ⊥) }
    ensures beside { (IsDate 0 1 1 → ⊥) × (IsDate 10000 1 1 → ⊥) × (IsDate 1998 13 1 → ⊥) × (IsDate 1998 0 1 → ⊥) × (IsDate 1998 1 0 → ⊥) }
    ensures number { IsOfType ty.Date (val.Date (pos 19980902)) }
    ensures no_number { IsOfType ty.Date (val.Date (pos 19980931)) → ⊥ }
{}

/// The numbers that are days are those of the calendar's days, and no others.
pub fn days_are_numbers()
    ensures days { (number : ℤ) → IsTrue (is_day number) → IsDay number }
    ensures numbers { (number : ℤ) → IsDay number → IsTrue (is_day number) }
    ensures ends { (is_day (pos 10101) ≡ true) × (is_day (pos 10100) ≡ false) × (is_day (pos 99991231) ≡ true) × (is_day (pos 99991232) ≡ false) × (is_day (negsuc 10100) ≡ false) }
    ensures leap { (is_day (pos 20000229) ≡ true) × (is_day (pos 19000229) ≡ false) × (is_day (pos 19980431) ≡ false) × (is_day (pos 19981301) ≡ false) }
{}

/// A VARCHAR(2) has texts of two characters of up to four octets each: "zß" has three octets, and "zß水" is too long.
pub fn characters_are_counted()
    ensures short { IsOfType (Varchar 2) (val.Text (122 ∷ 195 ∷ 159 ∷ [])) }
    ensures long { IsOfType (Varchar 2) (val.Text (122 ∷ 195 ∷ 159 ∷ 230 ∷ 176 ∷ 180 ∷ [])) → ⊥ }
    ensures broken { IsOfType (Varchar 2) (val.Text (122 ∷ 195 ∷ [])) → ⊥ }
    ensures empty { IsOfType (Varchar 2) (val.Text []) }
{}

/// The sizes that types may have.
pub fn sizes_of_types()
    ensures some { IsSized Integer × IsSized ty.Date × IsSized (Decimal 18 18) × IsSized (Decimal 1 0) × IsSized (Varchar 1) × IsSized (Varchar 1000) }
    ensures precision { (IsSized (Decimal 0 0) → ⊥) × (IsSized (Decimal 19 0) → ⊥) }
    ensures scale { IsSized (Decimal 2 3) → ⊥ }
    ensures length { (IsSized (Varchar 0) → ⊥) × (IsSized (Varchar 1001) → ⊥) }
{}

/// Numbers from their texts, in hundredths: " 1.50 ", "+.5", "5." and "-0.00" show some, and "1.500" shows what "1.50" does.
pub fn numbers_of_texts()
    ensures spaces { ShowsNumber 2 (32 ∷ 49 ∷ 46 ∷ 53 ∷ 48 ∷ 32 ∷ []) (pos 150) }
    ensures fraction { ShowsNumber 2 (43 ∷ 46 ∷ 53 ∷ []) (pos 50) }
    ensures whole { ShowsNumber 2 (53 ∷ 46 ∷ []) (pos 500) }
    ensures zero { ShowsNumber 2 (45 ∷ 48 ∷ 46 ∷ 48 ∷ 48 ∷ []) (pos 0) }
    ensures negative { ShowsNumber 2 (45 ∷ 49 ∷ []) (negsuc 99) }
    ensures zeros { ShowsNumber 2 (49 ∷ 46 ∷ 53 ∷ 48 ∷ 48 ∷ []) (pos 150) }
{}

/// Texts that show none: "", "+", ".", "1e3", "1.2.3", "1 2" and "--1"; and 1.505 is too fine in hundredths.
pub fn texts_without_numbers()
    ensures none { (is_number [] ≡ false) × (is_number (43 ∷ []) ≡ false) × (is_number (46 ∷ []) ≡ false) × (is_number (49 ∷ 101 ∷ 51 ∷ []) ≡ false)
        × (is_number (49 ∷ 46 ∷ 50 ∷ 46 ∷ 51 ∷ []) ≡ false) × (is_number (49 ∷ 32 ∷ 50 ∷ []) ≡ false) × (is_number (45 ∷ 45 ∷ 49 ∷ []) ≡ false) }
    ensures fine { (is_number (49 ∷ 46 ∷ 53 ∷ 48 ∷ 53 ∷ []) ≡ true) × (is_fine 2 (49 ∷ 46 ∷ 53 ∷ 48 ∷ 53 ∷ []) ≡ false) }
{}

/// " 1998-09-02 " shows the date, "1998-9-2" and "1998-09-31" show none.
pub fn dates_of_texts()
    ensures spaces { ShowsDate (32 ∷ 49 ∷ 57 ∷ 57 ∷ 56 ∷ 45 ∷ 48 ∷ 57 ∷ 45 ∷ 48 ∷ 50 ∷ 32 ∷ []) (pos 19980902) }
    ensures short { (number : ℤ) → ShowsDate (49 ∷ 57 ∷ 57 ∷ 56 ∷ 45 ∷ 57 ∷ 45 ∷ 50 ∷ []) number → ⊥ }
    ensures no_day { (number : ℤ) → ShowsDate (49 ∷ 57 ∷ 57 ∷ 56 ∷ 45 ∷ 48 ∷ 57 ∷ 45 ∷ 51 ∷ 49 ∷ []) number → ⊥ }
{}

/// Texts of numbers: 0 at scales 0 and 2 is "0" and "0.00"; -5 at scale 2 is "-0.05"; 123456 is "123456", "1234.56" and "0.00123456" at
/// scales 0, 2 and 8.
pub fn texts_of_numbers()
    ensures zero { (decimal_text (pos 0) 0 ≡ codes "0") × (decimal_text (pos 0) 2 ≡ codes "0.00") }
    ensures below_one { (decimal_text (negsuc 4) 2 ≡ codes "-0.05") × (decimal_text (pos 5) 1 ≡ codes "0.5") }
    ensures negative { (decimal_text (negsuc 0) 0 ≡ codes "-1") × (decimal_text (negsuc 149) 2 ≡ codes "-1.50") }
    ensures places { (decimal_text (pos 123456) 0 ≡ codes "123456") × (decimal_text (pos 123456) 2 ≡ codes "1234.56") × (decimal_text (pos 123456) 8 ≡ codes "0.00123456") }
{}

/// Texts at the limits: 18 digits at scales 0 and 18, the least and the greatest INTEGER, and the least and the greatest number of 64 bits.
pub fn texts_at_limits()
    ensures digits { (decimal_text (pos 999999999999999999) 0 ≡ codes "999999999999999999") × (decimal_text (negsuc 999999999999999998) 4 ≡ codes "-99999999999999.9999") }
    ensures scale { (decimal_text (pos 999999999999999999) 18 ≡ codes "0.999999999999999999") × (decimal_text (negsuc 0) 18 ≡ codes "-0.000000000000000001") }
    ensures integers { (decimal_text (negsuc 2147483647) 0 ≡ codes "-2147483648") × (decimal_text (pos 2147483647) 0 ≡ codes "2147483647") }
    ensures words { (decimal_text (negsuc 9223372036854775807) 0 ≡ codes "-9223372036854775808") × (decimal_text (pos 9223372036854775807) 2 ≡ codes "92233720368547758.07") }
{}
