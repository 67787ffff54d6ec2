//! What is filled in before evaluation, and worked cases of it, found by hand. No function here computes anything.

ghost use Rattle.std.specs.Prelude.{◌≡◌, pos, negsuc, IfOk, List, [], ◌∷◌, Ok, Some, true, false};
ghost use Rattle.qw_types.specs.declared.kind.Kind.TheVariants as kind;
ghost use Rattle.qw_types.specs.declared.truth.Truth.TheVariants.{True, False, Unknown};
ghost use Rattle.qw_types.specs.declared.value.Ty.TheVariants as type;
ghost use Rattle.qw_types.specs.declared.value.Val.TheVariants as val;
ghost use Rattle.qw_types.specs.declared.value.Val.{Val};
ghost use Rattle.qw_scalar.specs.declared.comparison.Comparison.TheVariants.{Equal, Greater};
ghost use Rattle.qw_scalar.specs.Closed.{Fills, FillsIn, Given, closed, closed_in};
ghost use Rattle.qw_scalar.specs.Columns.{HasColumns, HoldsIn};
ghost use Rattle.qw_scalar.specs.Evaluation.{answered, at_row, meets, truth_of, value_of};
ghost use Rattle.qw_scalar.specs.Expression.{Condition, Expression, cell, column, comparison, found, given, negation_of, nil, operand, parameter, scale_of, single, text};
ghost use Rattle.qw_scalar.specs.Typing.{AreTyped, IsTyped, IsValueOf, kind_of};
ghost use Rattle.qw_scalar.specs.Units.{units, units_of};
ghost use Rattle.qw_scalar.specs.WorkedRows.{first_item, ink, pen, second_item, third_item};

/// What is typed is typed with what is filled in, and of the same kind and scale; so its value is of its kind at each row with the columns that
/// it names (ISO/IEC 9075:1992, 6.2, 7.11).
pub fn closing_keeps_types()
    ensures kind { (g : Given) (e : Expression) → kind_of (closed g e) ≡ kind_of e }
    ensures scale { (g : Given) (e : Expression) → scale_of (closed g e) ≡ scale_of e }
    ensures typed { (g : Given) (e : Expression) → IsTyped e → Fills g e → IsTyped (closed g e) }
    ensures conditions { (g : Given) (c : Condition) → AreTyped c → FillsIn g c → AreTyped (closed_in g c) }
    ensures values { (g : Given) (e : Expression) (row : List Val) → IsTyped e → Fills g e → HasColumns (HoldsIn row) e →
        IfOk (value_of (closed g e) (at_row row)) (λ v. IsValueOf (kind_of e) v) }
{}

/// `PRICE NOT IN (SELECT ..)` over no row is true, of a null PRICE too. `ID NOT IN (SELECT PRICE ..)` over 10.00, null and 0.50 is unknown where
/// ID is 1, and over 1.00 and null false there: beside a null it is never true. A null that is asked is unknown beside any row
/// (ISO/IEC 9075:1992, 8.4).
pub fn not_in()
    ensures over_none { (truth_of (closed_in (record { inner = [] ∷ []; values = [] }) (negation_of (found 0 (operand (column 1 (type.Decimal 9 2)) nil) nil (kind.Number 0 ∷ []) []))) second_item ≡ Ok True)
        × (truth_of (closed_in (record { inner = [] ∷ []; values = [] }) (negation_of (found 0 (operand (column 1 (type.Decimal 9 2)) nil) nil (kind.Number 0 ∷ []) []))) first_item ≡ Ok True) }
    ensures beside_null { (truth_of (closed_in (record { inner = ((val.Num (pos 1000) ∷ []) ∷ (val.Null ∷ []) ∷ (val.Num (pos 50) ∷ []) ∷ []) ∷ []; values = [] }) (negation_of (found 0 (operand (column 0 type.Integer) nil) nil (kind.Number 2 ∷ []) []))) first_item ≡ Ok Unknown)
        × (truth_of (closed_in (record { inner = ((val.Num (pos 100) ∷ []) ∷ (val.Null ∷ []) ∷ []) ∷ []; values = [] }) (negation_of (found 0 (operand (column 0 type.Integer) nil) nil (kind.Number 2 ∷ []) []))) first_item ≡ Ok False) }
    ensures null_asked { truth_of (closed_in (record { inner = ((val.Num (pos 100) ∷ []) ∷ []) ∷ []; values = [] }) (found 0 (operand (column 1 (type.Decimal 9 2)) nil) nil (kind.Number 2 ∷ []) [])) second_item ≡ Ok Unknown }
{}

/// `EXISTS (SELECT * FROM ITEM J WHERE J.LABEL = I.LABEL AND J.ID > 2)`: its rows are those that pass J.ID > 2, the one of ID 3 with LABEL 'pen',
/// and the key is I.LABEL. A null key meets no row. `ID IN (SELECT .. WHERE J.LABEL = I.LABEL)` over ('pen', null) and ('ink', 2) is unknown at
/// 'pen', where the value is null, and true at 'ink', where ID is 2 (ISO/IEC 9075:1992, 7.11, 8.4, 8.8).
pub fn exists_correlated()
    ensures by_label { (truth_of (closed_in (record { inner = ((val.Text pen ∷ []) ∷ []) ∷ []; values = [] }) (found 0 nil (operand (column 3 (type.Varchar 20)) nil) (kind.Text ∷ []) [])) first_item ≡ Ok True)
        × (truth_of (closed_in (record { inner = ((val.Text pen ∷ []) ∷ []) ∷ []; values = [] }) (found 0 nil (operand (column 3 (type.Varchar 20)) nil) (kind.Text ∷ []) [])) second_item ≡ Ok False)
        × (truth_of (closed_in (record { inner = ((val.Text pen ∷ []) ∷ []) ∷ []; values = [] }) (found 0 nil (operand (column 3 (type.Varchar 20)) nil) (kind.Text ∷ []) [])) third_item ≡ Ok True) }
    ensures null_key { truth_of (closed_in (record { inner = ((val.Null ∷ []) ∷ []) ∷ []; values = [] }) (found 0 nil (operand (column 1 (type.Decimal 9 2)) nil) (kind.Number 2 ∷ []) [])) second_item ≡ Ok False }
    ensures in_by_key { (truth_of (closed_in (record { inner = ((val.Text pen ∷ val.Null ∷ []) ∷ (val.Text ink ∷ val.Num (pos 2) ∷ []) ∷ []) ∷ []; values = [] }) (found 0 (operand (column 0 type.Integer) nil) (operand (column 3 (type.Varchar 20)) nil) (kind.Text ∷ kind.Number 0 ∷ []) [])) first_item ≡ Ok Unknown)
        × (truth_of (closed_in (record { inner = ((val.Text pen ∷ val.Null ∷ []) ∷ (val.Text ink ∷ val.Num (pos 2) ∷ []) ∷ []) ∷ []; values = [] }) (found 0 (operand (column 0 type.Integer) nil) (operand (column 3 (type.Varchar 20)) nil) (kind.Text ∷ kind.Number 0 ∷ []) [])) second_item ≡ Ok True) }
{}

/// Keys meet a row where each equals its cell: 1 at scale 0 the cell 100 at scale 2, 'pen' the cell 'pen'; not where the second cell is 'ink',
/// nor where a cell or a key is null, nor a row that is too short. No keys meet every row. Of the rows that are met one that is true comes before
/// one that is unknown, whichever is first; rows that aren't met answer nothing, and over none the answer is false (ISO/IEC 9075:1992, 8.2, 8.4).
pub fn rows_that_are_met()
    ensures meeting { (meets (record { value = val.Num (pos 1); scale = 0 } ∷ record { value = val.Text pen; scale = 0 } ∷ []) (kind.Number 2 ∷ kind.Text ∷ []) (val.Num (pos 100) ∷ val.Text pen ∷ []) ≡ true)
        × (meets (record { value = val.Num (pos 1); scale = 0 } ∷ record { value = val.Text pen; scale = 0 } ∷ []) (kind.Number 2 ∷ kind.Text ∷ []) (val.Num (pos 100) ∷ val.Text ink ∷ []) ≡ false)
        × (meets (record { value = val.Num (pos 1); scale = 0 } ∷ record { value = val.Text pen; scale = 0 } ∷ []) (kind.Number 2 ∷ kind.Text ∷ []) (val.Num (pos 1) ∷ val.Text pen ∷ []) ≡ false)
        × (meets (record { value = val.Num (pos 1); scale = 0 } ∷ record { value = val.Text pen; scale = 0 } ∷ []) (kind.Number 2 ∷ kind.Text ∷ []) (val.Num (pos 100) ∷ val.Null ∷ []) ≡ false)
        × (meets (record { value = val.Null; scale = 0 } ∷ []) (kind.Number 2 ∷ []) (val.Null ∷ []) ≡ false)
        × (meets (record { value = val.Num (pos 1); scale = 0 } ∷ record { value = val.Text pen; scale = 0 } ∷ []) (kind.Number 2 ∷ kind.Text ∷ []) (val.Num (pos 100) ∷ []) ≡ false)
        × (meets [] (kind.Number 2 ∷ []) (val.Null ∷ []) ≡ true) }
    ensures answers { (answered (record { value = val.Num (pos 7); scale = 0 } ∷ []) [] (kind.Number 0 ∷ []) ((val.Null ∷ []) ∷ (val.Num (pos 7) ∷ []) ∷ []) ≡ True)
        × (answered (record { value = val.Num (pos 7); scale = 0 } ∷ []) [] (kind.Number 0 ∷ []) ((val.Num (pos 7) ∷ []) ∷ (val.Null ∷ []) ∷ []) ≡ True)
        × (answered (record { value = val.Num (pos 7); scale = 0 } ∷ []) [] (kind.Number 0 ∷ []) ((val.Num (pos 8) ∷ []) ∷ (val.Null ∷ []) ∷ []) ≡ Unknown)
        × (answered (record { value = val.Num (pos 7); scale = 0 } ∷ []) [] (kind.Number 0 ∷ []) ((val.Num (pos 8) ∷ []) ∷ (val.Num (pos 9) ∷ []) ∷ []) ≡ False)
        × (answered (record { value = val.Num (pos 7); scale = 0 } ∷ []) (record { value = val.Num (pos 1); scale = 0 } ∷ []) (kind.Number 0 ∷ kind.Number 0 ∷ []) ((val.Num (pos 2) ∷ val.Num (pos 7) ∷ []) ∷ (val.Num (pos 1) ∷ val.Num (pos 8) ∷ []) ∷ []) ≡ False)
        × (answered [] (record { value = val.Num (pos 1); scale = 0 } ∷ []) (kind.Number 0 ∷ []) ((val.Num (pos 2) ∷ []) ∷ (val.Num (pos 1) ∷ []) ∷ []) ≡ True)
        × (answered [] (record { value = val.Num (pos 1); scale = 0 } ∷ []) (kind.Number 0 ∷ []) ((val.Num (pos 2) ∷ []) ∷ []) ≡ False)
        × (answered [] [] [] [] ≡ False) }
{}

/// A scalar subquery of no row is null, and of one row that row's value. `PRICE > ?` at scale 2: true with 1.00 where PRICE is 10.00, unknown with
/// null, true with 0.40 where PRICE is 0.50. What is not given is null, and parameters and subqueries are counted apart
/// (ISO/IEC 9075:1992, 6.2, 7.11).
pub fn given_values()
    ensures single { (value_of (closed (record { inner = [] ∷ []; values = [] }) (given (single 0) (kind.Number 2) 999999999 val.Null)) first_item ≡ Ok val.Null)
        × (value_of (closed (record { inner = ((val.Num (pos 7) ∷ []) ∷ []) ∷ []; values = [] }) (given (single 0) (kind.Number 2) 999999999 val.Null)) first_item ≡ Ok (val.Num (pos 7))) }
    ensures parameter { (truth_of (closed_in (record { inner = []; values = val.Num (pos 100) ∷ [] }) (comparison Greater (column 1 (type.Decimal 9 2)) (given (parameter 0) (kind.Number 2) 999999999999999999 val.Null))) first_item ≡ Ok True)
        × (truth_of (closed_in (record { inner = []; values = val.Null ∷ [] }) (comparison Greater (column 1 (type.Decimal 9 2)) (given (parameter 0) (kind.Number 2) 999999999999999999 val.Null))) first_item ≡ Ok Unknown)
        × (truth_of (closed_in (record { inner = []; values = val.Num (pos 40) ∷ [] }) (comparison Greater (column 1 (type.Decimal 9 2)) (given (parameter 0) (kind.Number 2) 999999999999999999 val.Null))) third_item ≡ Ok True) }
    ensures apart { (closed (record { inner = ((val.Num (pos 7) ∷ []) ∷ []) ∷ []; values = val.Num (pos 1) ∷ val.Num (pos 2) ∷ [] }) (given (parameter 1) (kind.Number 0) 9 val.Null) ≡ given (parameter 1) (kind.Number 0) 9 (val.Num (pos 2)))
        × (closed (record { inner = ((val.Num (pos 7) ∷ []) ∷ []) ∷ []; values = val.Num (pos 1) ∷ val.Num (pos 2) ∷ [] }) (given (single 0) (kind.Number 0) 9 val.Null) ≡ given (single 0) (kind.Number 0) 9 (val.Num (pos 7)))
        × (closed (record { inner = []; values = val.Num (pos 1) ∷ [] }) (given (parameter 1) (kind.Number 0) 9 val.Null) ≡ given (parameter 1) (kind.Number 0) 9 val.Null) }
{}

/// A column that is told to have 10.00 at most has 10.00, and a null and what is no number as they are; were it told 9.99, it would be null there.
/// So of both signs. The type alone says its kind and scale, and it names its column (ISO/IEC 9075:1992, 6.4, 6.5).
pub fn bounded_cells()
    ensures within { (value_of (cell 1 (type.Decimal 9 2) 1000) first_item ≡ Ok (val.Num (pos 1000)))
        × (value_of (cell 0 (type.Decimal 18 0) 5) first_item ≡ Ok (val.Num (pos 1)))
        × (value_of (cell 0 type.Integer 5) (at_row (val.Num (negsuc 4) ∷ [])) ≡ Ok (val.Num (negsuc 4)))
        × (value_of (cell 1 (type.Decimal 9 2) 1000) second_item ≡ Ok val.Null)
        × (value_of (cell 2 type.Date 0) first_item ≡ Ok (val.Date (pos 19980902)))
        × (value_of (cell 3 (type.Varchar 20) 0) first_item ≡ Ok (val.Text pen)) }
    ensures past { (value_of (cell 1 (type.Decimal 9 2) 999) first_item ≡ Ok val.Null)
        × (value_of (cell 0 type.Integer 5) (at_row (val.Num (negsuc 5) ∷ [])) ≡ Ok val.Null) }
    ensures kind { (kind_of (cell 1 (type.Decimal 9 2) 5) ≡ Some (kind.Number 2)) × (scale_of (cell 1 (type.Decimal 9 2) 5) ≡ 2) × (kind_of (cell 2 type.Date 5) ≡ Some kind.Date) }
    ensures named { HasColumns (λ i ty. i ≡ 1) (cell 1 (type.Decimal 9 2) 5) × (HasColumns (λ i ty. i ≡ 0) (cell 1 (type.Decimal 9 2) 5) → ⊥) }
{}

/// Typed: a parameter of scale 18 and 18 digits, and one that has 0.99 at most with 0.99; not one of scale 19, of 19 digits, with 1.00, or with a
/// date. So is what may be filled in: 0.99 and null, and neither 1.00, nor minus 1.00, nor a date.
pub fn what_may_be_given()
    ensures typed { IsTyped (given (parameter 0) (kind.Number 18) 999999999999999999 val.Null)
        × IsTyped (given (parameter 0) (kind.Number 2) 99 (val.Num (pos 99))) }
    ensures scale { IsTyped (given (parameter 0) (kind.Number 19) 99 val.Null) → ⊥ }
    ensures digits { IsTyped (given (parameter 0) (kind.Number 2) 1000000000000000000 val.Null) → ⊥ }
    ensures larger { IsTyped (given (parameter 0) (kind.Number 2) 99 (val.Num (pos 100))) → ⊥ }
    ensures unlike { IsTyped (given (parameter 0) (kind.Number 2) 99 (val.Date (pos 19980902))) → ⊥ }
    ensures fills { Fills (record { inner = []; values = val.Num (pos 99) ∷ [] }) (given (parameter 0) (kind.Number 2) 99 val.Null)
        × Fills (record { inner = []; values = [] }) (given (parameter 0) (kind.Number 2) 99 val.Null) }
    ensures fills_no_more { Fills (record { inner = []; values = val.Num (pos 100) ∷ [] }) (given (parameter 0) (kind.Number 2) 99 val.Null) → ⊥ }
    ensures fills_no_less { Fills (record { inner = []; values = val.Num (negsuc 99) ∷ [] }) (given (parameter 0) (kind.Number 2) 99 val.Null) → ⊥ }
    ensures fills_no_other { Fills (record { inner = []; values = val.Date (pos 19980902) ∷ [] }) (given (parameter 0) (kind.Number 2) 99 val.Null) → ⊥ }
{}

/// A text that is given is UTF-8, as 'pen' is; the octet 255 alone is none, neither for a parameter nor in a row of a subquery.
pub fn texts_that_may_be_given()
    ensures typed { IsTyped (given (parameter 0) kind.Text 0 (val.Text pen)) }
    ensures no_text { IsTyped (given (parameter 0) kind.Text 0 (val.Text (255 ∷ []))) → ⊥ }
    ensures no_cell { AreTyped (found 0 (operand (column 3 (type.Varchar 20)) nil) nil (kind.Text ∷ []) ((val.Text (255 ∷ []) ∷ []) ∷ [])) → ⊥ }
{}

/// `ID IN (SELECT PRICE ..)` is typed over rows of one number each, and `EXISTS` by the key ID over rows of more cells, whichever the others are;
/// not IN over texts, nor over rows without a value, nor a row with a text where its kind is a number, nor one of two cells
/// (ISO/IEC 9075:1992, 8.2, 8.4, 8.8). What is filled in has rows of these kinds.
pub fn what_may_be_found()
    ensures typed { AreTyped (found 0 (operand (column 0 type.Integer) nil) nil (kind.Number 2 ∷ []) ((val.Num (pos 1000) ∷ []) ∷ (val.Null ∷ []) ∷ []))
        × AreTyped (found 0 nil (operand (column 0 type.Integer) nil) (kind.Number 2 ∷ kind.Text ∷ []) []) }
    ensures unlike { AreTyped (found 0 (operand (column 0 type.Integer) nil) nil (kind.Text ∷ []) []) → ⊥ }
    ensures without_value { AreTyped (found 0 (operand (column 0 type.Integer) nil) nil [] []) → ⊥ }
    ensures unlike_key { AreTyped (found 0 nil (operand (column 2 type.Date) nil) (kind.Number 0 ∷ []) []) → ⊥ }
    ensures unlike_cell { AreTyped (found 0 (operand (column 0 type.Integer) nil) nil (kind.Number 2 ∷ []) ((val.Text pen ∷ []) ∷ [])) → ⊥ }
    ensures longer { AreTyped (found 0 (operand (column 0 type.Integer) nil) nil (kind.Number 2 ∷ []) ((val.Null ∷ val.Null ∷ []) ∷ [])) → ⊥ }
    ensures fills { FillsIn (record { inner = ((val.Num (pos 1000) ∷ []) ∷ []) ∷ []; values = [] }) (found 0 (operand (column 0 type.Integer) nil) nil (kind.Number 2 ∷ []) []) }
    ensures fills_no_other { FillsIn (record { inner = ((val.Date (pos 19980902) ∷ []) ∷ []) ∷ []; values = [] }) (found 0 (operand (column 0 type.Integer) nil) nil (kind.Number 2 ∷ []) []) → ⊥ }
{}

/// What is filled in compares no octets by itself; `'pen' = ?` with 'ink' compares 6, and IN what its operands compare.
pub fn units_with_what_is_given()
    ensures { (units (given (parameter 0) kind.Text 0 (val.Text pen)) first_item ≡ 0)
        × (units (cell 3 (type.Varchar 20) 0) first_item ≡ 0)
        × (units_of (closed_in (record { inner = []; values = val.Text ink ∷ [] }) (comparison Equal (text pen) (given (parameter 0) kind.Text 0 val.Null))) first_item ≡ 6)
        × (units_of (found 0 (operand (column 3 (type.Varchar 20)) nil) nil (kind.Text ∷ []) ((val.Text pen ∷ []) ∷ [])) first_item ≡ 0) }
{}
