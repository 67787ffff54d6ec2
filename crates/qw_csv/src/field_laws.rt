//! Worked cases of fields and records: what a field stands for, why it stands for nothing, and which fault of a record is told.

ghost use Rattle.std.specs.Prelude.{None, [], ◌∷◌, codes, neg_ℤ, pos};
ghost use Rattle.qw_types.specs.declared.numeral.FieldFault.TheVariants as form;
ghost use Rattle.qw_types.specs.declared.value.Ty.TheVariants as ty;
ghost use Rattle.qw_types.specs.declared.value.Val.TheVariants as val;
ghost use Rattle.qw_csv.specs.Field.{IsFieldFault, IsFieldOf};
ghost use Rattle.qw_csv.specs.Loading.{IsFaultOf, IsPartOf, IsRecordFault};
ghost use Rattle.qw_csv.specs.Worked.{faulty_part, may_be_null, two_columns, two_line_part};
ghost use Rattle.qw_csv.specs.declared.cell.CellFault.TheVariants as cell;
ghost use Rattle.qw_csv.specs.declared.loading.LoadFault.TheVariants as fault;

/// Spaces round a number, a sign and a point without digits before it are taken, and zeros past the scale (ISO/IEC 9075:1992, 5.3, 6.10). A digit past the
/// scale that isn't 0 is told before the range is: `100.005` in a DECIMAL(4,2) is too fine.
pub fn worked_number_fields()
    ensures spaces { IsFieldOf None (may_be_null ty.Integer) (codes " +7 ") (val.Num (pos 7)) }
    ensures point { IsFieldOf None (may_be_null (ty.Decimal 9 2)) (codes "-.5") (val.Num (neg_ℤ (pos 50))) }
    ensures zeros { IsFieldOf None (may_be_null (ty.Decimal 4 2)) (codes "1.500") (val.Num (pos 150)) }
    ensures least { IsFieldOf None (may_be_null ty.Integer) (codes "-2147483648") (val.Num (neg_ℤ (pos 2147483648))) }
    ensures too_large { IsFieldFault None (may_be_null ty.Integer) (codes "2147483648") (cell.Form form.TooLarge) }
    ensures too_fine { IsFieldFault None (may_be_null (ty.Decimal 4 2)) (codes "100.005") (cell.Form form.TooFine) }
    ensures digits { IsFieldFault None (may_be_null (ty.Decimal 4 2)) (codes "100") (cell.Form form.TooLarge) }
    ensures exponent { IsFieldFault None (may_be_null (ty.Decimal 9 2)) (codes "1e3") (cell.Form form.NotNumber) }
{}

/// A date is a day of the calendar, with spaces round it; 2020 is a leap year and 2019 is none.
pub fn worked_date_fields()
    ensures leap { IsFieldOf None (may_be_null ty.Date) (codes " 2020-02-29 ") (val.Date (pos 20200229)) }
    ensures none { IsFieldFault None (may_be_null ty.Date) (codes "2019-02-29") (cell.Form form.NotDate) }
{}

/// A text is as long as it has characters: three of two octets each are taken in a VARCHAR(3), four of one octet aren't. It keeps its spaces.
pub fn worked_text_fields()
    ensures characters { IsFieldOf None (may_be_null (ty.Varchar 3)) (195 ∷ 169 ∷ 195 ∷ 169 ∷ 195 ∷ 169 ∷ []) (val.Text (195 ∷ 169 ∷ 195 ∷ 169 ∷ 195 ∷ 169 ∷ [])) }
    ensures spaces { IsFieldOf None (may_be_null (ty.Varchar 3)) (codes " a ") (val.Text (codes " a ")) }
    ensures too_long { IsFieldFault None (may_be_null (ty.Varchar 3)) (codes "abcd") cell.TextTooLong }
{}

/// Of a record of two faults the one of the first field is told, and its number of fields before any. An empty line is no record, and a line end within quotes
/// ends none (RFC 4180): so the record behind one of two lines is record 2.
pub fn worked_records()
    ensures first { IsRecordFault None two_columns.columns 0 1 (codes "x" ∷ codes "abcd" ∷ []) (fault.Field 1 0 (cell.Form form.NotNumber)) }
    ensures number { IsRecordFault None two_columns.columns 0 1 (codes "x" ∷ []) (fault.FieldCount 1) }
    ensures two_lines { IsPartOf two_columns None two_line_part ((val.Num (pos 1) ∷ val.Text (codes "x\ny") ∷ []) ∷ []) }
    ensures behind { IsFaultOf two_columns None 0 faulty_part (fault.Field 2 0 (cell.Form form.NotNumber)) }
{}
