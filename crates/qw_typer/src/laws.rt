//! What holds of what queries mean. No function here computes anything.

ghost use Rattle.std.specs.Prelude.{◌≡◌, ℕ, pos, false, true, List, [], ◌∷◌, Some, None, codes};
ghost use Rattle.std.specs.List.{AllByRecursion};
ghost use Rattle.qw_types.specs.Schema.{AreColumns};
ghost use Rattle.qw_types.specs.declared.schema.Table.{Table};
ghost use Rattle.qw_types.specs.declared.value.Ty.TheVariants.{Integer};
ghost use Rattle.qw_scalar.specs.declared.comparison.Comparison.TheVariants.{Equal};
ghost use Rattle.qw_grouped.specs.Whole.{IsBody, Whole};
ghost use Rattle.qw_order.specs.declared.sort_key.SortKey.{SortKey};
ghost use Rattle.qw_ast.specs.declared.script.Sign.TheVariants.{Plus, Minus};
ghost use Rattle.qw_scalar.specs.Expression as meaning;
ghost use Rattle.qw_ast.specs.Syntax.{Select, all_columns, column, number, ordinal, signed, text};
ghost use Rattle.qw_typer.specs.declared.fault.FaultKind.TheVariants.{Ambiguous, BadOrdinal, DuplicateAlias, UnknownColumn, UnknownTable};
ghost use Rattle.qw_typer.specs.Literal.{date_of, number_of};
ghost use Rattle.qw_typer.specs.Meant.{meant};
ghost use Rattle.qw_typer.specs.Typed.{IsWithin, Means, item_names, items_meant, own_name, query_faults, result_names, scope_of, sources_meant};
ghost use Rattle.qw_typer.specs.Worked.{all_from, all_in_order, alone, ascending, in_order, item_from, join, key_of, keys_of, left_join, of, strict_table, table, table_as, two_tables};

/// A query means something exactly where it has no fault, and then one query alone, with one name for each result column and one key for
/// each sort specification.
pub fn meaning_or_fault()
    ensures meaning { (schema : List Table) (s : Select) → query_faults schema s ≡ [] → (whole : Whole) × (names : List (List ℕ)) × (keys : List SortKey) × Means schema s whole names keys }
    ensures no_fault { (schema : List Table) (s : Select) (whole : Whole) (names : List (List ℕ)) (keys : List SortKey) → Means schema s whole names keys → query_faults schema s ≡ [] }
    ensures one { (schema : List Table) (s : Select) (whole other : Whole) (names others : List (List ℕ)) (keys further : List SortKey) → Means schema s whole names keys
        → Means schema s other others further → (whole ≡ other) × (names ≡ others) × (keys ≡ further) }
{}

/// What a query means is typed over the columns of its entries and keeps a query's limits (ISO/IEC 9075:1992, 6.9 to 6.12, 8.2).
pub fn meanings_are_typed()
    ensures { (schema : List Table) (s : Select) (whole : Whole) (names : List (List ℕ)) (keys : List SortKey) → AllByRecursion (λ (t : Table). AreColumns t.columns) schema → IsWithin s
        → Means schema s whole names keys → IsBody whole.body }
{}

/// `1.50` is 150 of scale 2, `.5` is 5 of scale 1, `5.` is 5; zeros at the start don't count; a number of 19 digits and one of 19 digits
/// behind its point are too long.
pub fn worked_numbers()
    ensures scale { number_of (codes "1.50") ≡ Some (meaning.number (pos 150) 2) }
    ensures point_first { number_of (codes ".5") ≡ Some (meaning.number (pos 5) 1) }
    ensures point_last { number_of (codes "5.") ≡ Some (meaning.number (pos 5) 0) }
    ensures zeros { number_of (codes "0000000000000000000012") ≡ Some (meaning.number (pos 12) 0) }
    ensures longest { number_of (codes "999999999999999999") ≡ Some (meaning.number (pos 999999999999999999) 0) }
    ensures too_long { number_of (codes "1000000000000000000") ≡ None }
    ensures too_fine { number_of (codes "0.0000000000000000001") ≡ None }
{}

/// `DATE '1998-12-01' - INTERVAL '90' DAY` is 1998-09-02; 1900 is no leap year and 2000 is one; there is no day before 0001-01-01, and none
/// after 9999-12-31; spaces and a date without its zeros are no date, 8 digits and no digit no interval.
#[tactic(auto, unfolding(crate::specs::Days::earlier, crate::specs::Days::later))]
pub fn worked_dates()
    ensures back { date_of (codes "'1998-12-01'") (record { sign = Minus; string = codes "'90'" } ∷ []) ≡ Some (meaning.date (pos 19980902)) }
    ensures century { date_of (codes "'1900-02-29'") [] ≡ None }
    ensures leap { date_of (codes "'2000-02-28'") (record { sign = Plus; string = codes "'1'" } ∷ []) ≡ Some (meaning.date (pos 20000229)) }
    ensures first { date_of (codes "'0001-01-01'") (record { sign = Minus; string = codes "'1'" } ∷ record { sign = Plus; string = codes "'1'" } ∷ []) ≡ None }
    ensures last { date_of (codes "'9999-12-31'") (record { sign = Plus; string = codes "'1'" } ∷ []) ≡ None }
    ensures form { (date_of (codes "' 1998-12-01'") [] ≡ None) × (date_of (codes "'1998-12-1'") [] ≡ None) }
    ensures interval { (date_of (codes "'1998-12-01'") (record { sign = Plus; string = codes "'00000001'" } ∷ []) ≡ None) × (date_of (codes "'1998-12-01'") (record { sign = Plus; string = codes "''" } ∷ []) ≡ None) }
{}

/// An item that is a column is named by it, any other by C and its place from 1, as C1 and C2; a name that is given comes first (7.9, which
/// leaves the names of items that have none to the implementation).
pub fn worked_names()
    ensures first { own_name 1 (number (codes "5")) ≡ codes "C1" }
    ensures second { own_name 2 (text (codes "'a'")) ≡ codes "C2" }
    ensures tenth { own_name 10 (signed Minus (column None (codes "a"))) ≡ codes "C10" }
    ensures column { own_name 2 (column None (codes "a")) ≡ codes "A" }
    ensures list { item_names 1 (record { value = number (codes "5"); name = None } ∷ record { value = column None (codes "b"); name = None } ∷ record { value = number (codes "5"); name = Some (codes "c1") }
        ∷ record { value = number (codes "5"); name = None } ∷ []) ≡ codes "C1" ∷ codes "B" ∷ codes "C1" ∷ codes "C4" ∷ [] }
{}

/// Over A (K, X) and B (K, Y): `SELECT * FROM A, B` is columns 0, 1, 64 and 65, named K, X, K and Y.
pub fn worked_product()
    ensures faultless { query_faults two_tables (all_from (alone (table (codes "a")) ∷ alone (table (codes "b")) ∷ [])) ≡ [] }
    ensures columns { items_meant (scope_of two_tables (all_from (alone (table (codes "a")) ∷ alone (table (codes "b")) ∷ []))) all_columns
        ≡ meaning.column 0 Integer ∷ meaning.column 1 Integer ∷ meaning.column 64 Integer ∷ meaning.column 65 Integer ∷ [] }
    ensures names { result_names (scope_of two_tables (all_from (alone (table (codes "a")) ∷ alone (table (codes "b")) ∷ []))) all_columns ≡ codes "K" ∷ codes "X" ∷ codes "K" ∷ codes "Y" ∷ [] }
{}

/// `FROM A AS P JOIN A AS Q ON P.K = Q.X` joins A with itself: column 0 with column 65 (ISO/IEC 9075:1992, 6.3, 7.5). `FROM A, A` and
/// `FROM A AS P, B AS P` name two entries alike, and C is no table.
pub fn worked_entries()
    ensures self_join { query_faults two_tables (all_from (record { first = table_as (codes "a") (codes "p"); joins = join (table_as (codes "a") (codes "q")) (of (codes "p") (codes "k")) (of (codes "q") (codes "x")) ∷ [] } ∷ [])) ≡ [] }
    ensures columns { sources_meant two_tables 0 (record { first = table_as (codes "a") (codes "p"); joins = join (table_as (codes "a") (codes "q")) (of (codes "p") (codes "k")) (of (codes "q") (codes "x")) ∷ [] } ∷ [])
        ≡ record {
          first = record { table = 0; columns = record { ty = Integer; not_null = false } ∷ record { ty = Integer; not_null = false } ∷ [] };
          joins = record { entry = record { table = 0; columns = record { ty = Integer; not_null = false } ∷ record { ty = Integer; not_null = false } ∷ [] }; outer = false; on = meaning.comparison Equal (meaning.column 0 Integer) (meaning.column 65 Integer) ∷ [] } ∷ [];
        } ∷ [] }
    ensures twice { query_faults two_tables (all_from (alone (table (codes "a")) ∷ alone (table (codes "A")) ∷ [])) ≡ record { kind = DuplicateAlias; name = codes "A" } ∷ [] }
    ensures aliases { query_faults two_tables (all_from (alone (table_as (codes "a") (codes "p")) ∷ alone (table_as (codes "b") (codes "p")) ∷ [])) ≡ record { kind = DuplicateAlias; name = codes "P" } ∷ [] }
    ensures no_table { query_faults two_tables (all_from (alone (table (codes "a")) ∷ alone (table (codes "c")) ∷ [])) ≡ record { kind = UnknownTable; name = codes "C" } ∷ [] }
{}

/// In `FROM A, B` K alone is ambiguous, B.K is column 64, Y is column 65; A.Y is no column, and P.K names no entry (6.4).
pub fn worked_references()
    ensures ambiguous { query_faults two_tables (item_from (column None (codes "k")) (alone (table (codes "a")) ∷ alone (table (codes "b")) ∷ [])) ≡ record { kind = Ambiguous; name = codes "K" } ∷ [] }
    ensures qualified { query_faults two_tables (item_from (of (codes "b") (codes "k")) (alone (table (codes "a")) ∷ alone (table (codes "b")) ∷ [])) ≡ [] }
    ensures qualified_is { meant (scope_of two_tables (all_from (alone (table (codes "a")) ∷ alone (table (codes "b")) ∷ []))) (of (codes "b") (codes "k")) ≡ meaning.column 64 Integer }
    ensures only_one { meant (scope_of two_tables (all_from (alone (table (codes "a")) ∷ alone (table (codes "b")) ∷ []))) (column None (codes "y")) ≡ meaning.column 65 Integer }
    ensures other_table { query_faults two_tables (item_from (of (codes "a") (codes "y")) (alone (table (codes "a")) ∷ alone (table (codes "b")) ∷ [])) ≡ record { kind = UnknownColumn; name = codes "Y" } ∷ [] }
    ensures no_entry { query_faults two_tables (item_from (of (codes "p") (codes "k")) (alone (table (codes "a")) ∷ alone (table (codes "b")) ∷ [])) ≡ record { kind = UnknownTable; name = codes "P" } ∷ [] }
{}

/// Over A (K, X) and B (K, Y) a key is a result column (13.1): by its name or by its position from 1. In `SELECT A.X AS Z, B.K, 5 FROM A, B`
/// the names are Z, K and C3: Z is the first, K the second and C3 the third; X is none; 3 is the last position. Of `SELECT * FROM A, B` two
/// result columns have the name K, and one X.
pub fn worked_keys()
    ensures faultless { query_faults two_tables (in_order (key_of (codes "z") ∷ key_of (codes "c3") ∷ key_of (codes "k") ∷ ordinal (codes "03") ∷ [])) ≡ [] }
    ensures named { keys_of (key_of (codes "z") ∷ key_of (codes "c3") ∷ key_of (codes "k") ∷ []) ≡ ascending 0 ∷ ascending 2 ∷ ascending 1 ∷ [] }
    ensures ordinals { keys_of (ordinal (codes "3") ∷ ordinal (codes "01") ∷ []) ≡ ascending 2 ∷ ascending 0 ∷ [] }
    ensures zero { query_faults two_tables (in_order (ordinal (codes "0") ∷ [])) ≡ record { kind = BadOrdinal; name = codes "0" } ∷ [] }
    ensures past_the_last { query_faults two_tables (in_order (ordinal (codes "4") ∷ [])) ≡ record { kind = BadOrdinal; name = codes "4" } ∷ [] }
    ensures no_result_column { query_faults two_tables (in_order (key_of (codes "x") ∷ [])) ≡ record { kind = UnknownColumn; name = codes "X" } ∷ [] }
    ensures ambiguous { query_faults two_tables (all_in_order (key_of (codes "k") ∷ [])) ≡ record { kind = Ambiguous; name = codes "K" } ∷ [] }
    ensures star { query_faults two_tables (all_in_order (key_of (codes "x") ∷ key_of (codes "y") ∷ ordinal (codes "4") ∷ [])) ≡ [] }
{}

/// An ON reaches the entries of its source up to its own (7.5): in `FROM A JOIN B ON A.K = Q.K JOIN A AS Q ON Q.K = B.K` the first ON names Q
/// too early, the second reaches all three; and in `FROM A AS P, A JOIN B ON P.K = B.K` P is of another source.
pub fn worked_reach()
    ensures behind { query_faults two_tables (all_from (record { first = table (codes "a"); joins = join (table (codes "b")) (of (codes "a") (codes "k")) (of (codes "q") (codes "k")) ∷ join (table_as (codes "a") (codes "q")) (of (codes "q") (codes "k")) (of (codes "b") (codes "k")) ∷ [] } ∷ []))
        ≡ record { kind = UnknownTable; name = codes "Q" } ∷ [] }
    ensures up_to_its_own { query_faults two_tables (all_from (record { first = table (codes "a"); joins = join (table (codes "b")) (of (codes "a") (codes "k")) (of (codes "b") (codes "k")) ∷ join (table_as (codes "a") (codes "q")) (of (codes "q") (codes "k")) (of (codes "b") (codes "k")) ∷ [] } ∷ [])) ≡ [] }
    ensures other_source { query_faults two_tables (all_from (alone (table_as (codes "a") (codes "p")) ∷ record { first = table (codes "a"); joins = join (table (codes "b")) (of (codes "p") (codes "k")) (of (codes "b") (codes "k")) ∷ [] } ∷ []))
        ≡ record { kind = UnknownTable; name = codes "P" } ∷ [] }
{}

/// In `FROM A LEFT JOIN B ON A.K = B.K JOIN A AS Q ON Q.K = B.Y` the first join is an outer one and the second isn't (7.5). The ON of a LEFT
/// JOIN reaches what one of JOIN does: the entries of its source up to its own. A column of its right side is NOT NULL as its table declares
/// it, since rows of the table are meant.
pub fn worked_left_joins()
    ensures faultless { query_faults two_tables (all_from (record { first = table (codes "a"); joins = left_join (table (codes "b")) (of (codes "a") (codes "k")) (of (codes "b") (codes "k")) ∷ join (table_as (codes "a") (codes "q")) (of (codes "q") (codes "k")) (of (codes "b") (codes "y")) ∷ [] } ∷ [])) ≡ [] }
    ensures sources { sources_meant two_tables 0 (record { first = table (codes "a"); joins = left_join (table (codes "b")) (of (codes "a") (codes "k")) (of (codes "b") (codes "k")) ∷ join (table_as (codes "a") (codes "q")) (of (codes "q") (codes "k")) (of (codes "b") (codes "y")) ∷ [] } ∷ [])
        ≡ record {
          first = record { table = 0; columns = record { ty = Integer; not_null = false } ∷ record { ty = Integer; not_null = false } ∷ [] };
          joins = record { entry = record { table = 1; columns = record { ty = Integer; not_null = false } ∷ record { ty = Integer; not_null = false } ∷ [] }; outer = true; on = meaning.comparison Equal (meaning.column 0 Integer) (meaning.column 64 Integer) ∷ [] }
              ∷ record { entry = record { table = 0; columns = record { ty = Integer; not_null = false } ∷ record { ty = Integer; not_null = false } ∷ [] }; outer = false; on = meaning.comparison Equal (meaning.column 128 Integer) (meaning.column 65 Integer) ∷ [] } ∷ [];
        } ∷ [] }
    ensures declared { sources_meant strict_table 0 (record { first = table_as (codes "c") (codes "p"); joins = left_join (table_as (codes "c") (codes "q")) (of (codes "p") (codes "k")) (of (codes "q") (codes "k")) ∷ [] } ∷ [])
        ≡ record {
          first = record { table = 0; columns = record { ty = Integer; not_null = true } ∷ [] };
          joins = record { entry = record { table = 0; columns = record { ty = Integer; not_null = true } ∷ [] }; outer = true; on = meaning.comparison Equal (meaning.column 0 Integer) (meaning.column 64 Integer) ∷ [] } ∷ [];
        } ∷ [] }
    ensures behind { query_faults two_tables (all_from (record { first = table (codes "a"); joins = left_join (table (codes "b")) (of (codes "a") (codes "k")) (of (codes "q") (codes "k")) ∷ left_join (table_as (codes "a") (codes "q")) (of (codes "q") (codes "k")) (of (codes "b") (codes "k")) ∷ [] } ∷ []))
        ≡ record { kind = UnknownTable; name = codes "Q" } ∷ [] }
    ensures other_source { query_faults two_tables (all_from (alone (table_as (codes "a") (codes "p")) ∷ record { first = table (codes "a"); joins = left_join (table (codes "b")) (of (codes "p") (codes "k")) (of (codes "b") (codes "k")) ∷ [] } ∷ []))
        ≡ record { kind = UnknownTable; name = codes "P" } ∷ [] }
{}
