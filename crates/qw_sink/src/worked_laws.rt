//! What is printed of given values, worked out by hand. No function here computes anything.

ghost use Rattle.std.specs.Prelude.{◌≡◌, [], ◌∷◌, codes, pos, negsuc};
ghost use Rattle.qw_types.specs.declared.code.Code.TheVariants.{DivZero, OutOfRange};
ghost use Rattle.qw_types.specs.declared.kind.Kind.TheVariants as kind;
ghost use Rattle.qw_types.specs.declared.value.Val.TheVariants.{Null, Num, Date, Text};
ghost use Rattle.qw_sink.specs.Sink.{date_text, printed, printed_row, report_of_counts, report_of_exception, report_of_pages, report_of_steps, rows_line};

/// Dates are printed as YYYY-MM-DD, with all their zeros.
pub fn printed_dates()
    ensures day { date_text 19980901 ≡ codes "1998-09-01" }
    ensures first { date_text 10101 ≡ codes "0001-01-01" }
    ensures last { date_text 99991231 ≡ codes "9999-12-31" }
{}

/// Null is the empty field, of any kind; numbers have the digits of their scale behind the point; texts are as they are.
pub fn printed_values()
    ensures null { printed (kind.Number 2) Null ≡ [] }
    ensures whole { printed (kind.Number 0) (Num (pos 7)) ≡ codes "7" }
    ensures price { printed (kind.Number 2) (Num (pos 1000)) ≡ codes "10.00" }
    ensures below { printed (kind.Number 2) (Num (negsuc 4)) ≡ codes "-0.05" }
    ensures date { printed kind.Date (Date (pos 19980815)) ≡ codes "1998-08-15" }
    ensures text { printed kind.Text (Text (codes "pen")) ≡ codes "pen" }
    ensures row { printed_row [] (Null ∷ []) ≡ [] }
{}

/// The lines on ends of queries, and on their counts.
pub fn lines_of_ends()
    ensures rows { rows_line 1 12 ≡ codes "QUERY 1 ROWS 12\n" }
    ensures zero { report_of_exception 3 DivZero ≡ codes "QUERY 3 SQLSTATE 22012\n" }
    ensures range { report_of_exception 64 OutOfRange ≡ codes "QUERY 64 SQLSTATE 22003\n" }
    ensures pages { report_of_pages 2 128 1 128 ≡ codes "QUERY 2 PAGES 128 1 128\n" }
    ensures steps { report_of_steps 1 5 ≡ codes "QUERY 1 STEPS 5\n" }
    ensures counts { report_of_counts 2 1234 3 ≡ codes "STATS 2 STEPS 1234 PAGES 3\n" }
{}
