//! Worked cases of grouped queries (ISO/IEC 9075:1992, 6.5, 7.7 to 7.9). No function here computes anything.

ghost use Rattle.std.specs.Prelude.{◌≡◌, List, pos, true, false, [], ◌∷◌, Some, None, codes};
ghost use Rattle.qw_types.specs.declared.schema.Table.{Table};
ghost use Rattle.qw_types.specs.declared.value.Ty.TheVariants.{Decimal, Integer};
ghost use Rattle.qw_scalar.specs.declared.comparison.Comparison.TheVariants.{Equal};
ghost use Rattle.qw_scalar.specs.Expression as meaning;
ghost use Rattle.qw_grouped.specs.declared.set_function.SetFunctionKind.TheVariants as kind;
ghost use Rattle.qw_ast.specs.declared.script.SetFunction.TheVariants.{Avg, Sum};
ghost use Rattle.qw_ast.specs.Syntax.{Select, count_rows, number, set_function};
ghost use Rattle.qw_typer.specs.declared.fault.FaultKind.TheVariants.{Clash, NestedAggregate, NotGrouped, ScaleTooLarge};
ghost use Rattle.qw_typer.specs.Grouping.{is_grouped};
ghost use Rattle.qw_typer.specs.Typed.{grouped_meant, query_faults, whole_meant};
ghost use Rattle.qw_typer.specs.Worked.{all_from, join, table, two_tables};
ghost use Rattle.qw_typer.specs.WorkedGroups.{all_by, by, from_t, is_one, named, once, one_table, where_t};

/// `SELECT D, COUNT(*), SUM(E) FROM T GROUP BY D HAVING COUNT(*) = 1`, whose set functions stand at the places 22, 17 and 4: the grouped table
/// has D and behind it COUNT(*), SUM(E) and COUNT(*), and HAVING tests the last.
pub fn worked_group()
    ensures faultless { query_faults one_table (from_t (named (codes "d") ∷ count_rows 22 ∷ set_function 17 Sum (named (codes "e")) ∷ []) (by (codes "d") ∷ []) (Some (is_one (count_rows 4)))) ≡ [] }
    ensures grouped { is_grouped (from_t (named (codes "d") ∷ count_rows 22 ∷ set_function 17 Sum (named (codes "e")) ∷ []) (by (codes "d") ∷ []) (Some (is_one (count_rows 4)))) ≡ true }
    ensures columns { (grouped_meant one_table (from_t (named (codes "d") ∷ count_rows 22 ∷ set_function 17 Sum (named (codes "e")) ∷ []) (by (codes "d") ∷ []) (Some (is_one (count_rows 4))))).columns ≡ record { number = 0; ty = Integer } ∷ [] }
    ensures functions { (grouped_meant one_table (from_t (named (codes "d") ∷ count_rows 22 ∷ set_function 17 Sum (named (codes "e")) ∷ []) (by (codes "d") ∷ []) (Some (is_one (count_rows 4))))).functions
        ≡ record { kind = kind.CountRows; argument = meaning.number (pos 1) 0 } ∷ record { kind = kind.Sum; argument = meaning.column 2 (Decimal 18 14) } ∷ record { kind = kind.CountRows; argument = meaning.number (pos 1) 0 } ∷ [] }
    ensures items { (grouped_meant one_table (from_t (named (codes "d") ∷ count_rows 22 ∷ set_function 17 Sum (named (codes "e")) ∷ []) (by (codes "d") ∷ []) (Some (is_one (count_rows 4))))).items
        ≡ meaning.column 0 Integer ∷ meaning.column 1 (Decimal 18 0) ∷ meaning.column 2 (Decimal 18 14) ∷ [] }
    ensures having { (grouped_meant one_table (from_t (named (codes "d") ∷ count_rows 22 ∷ set_function 17 Sum (named (codes "e")) ∷ []) (by (codes "d") ∷ []) (Some (is_one (count_rows 4))))).having
        ≡ meaning.comparison Equal (meaning.column 3 (Decimal 18 0)) (meaning.number (pos 1) 0) ∷ [] }
    ensures conjuncts { (grouped_meant one_table (from_t (named (codes "d") ∷ count_rows 22 ∷ set_function 17 Sum (named (codes "e")) ∷ []) (by (codes "d") ∷ []) (Some (is_one (count_rows 4))))).conjuncts ≡ [] }
{}

/// `SELECT 5 FROM T HAVING 1 = 1` has neither a column nor a set function, and COUNT(*) is kept; `SELECT COUNT(*) FROM T` is grouped and
/// `SELECT D FROM T` isn't; `SELECT * FROM T GROUP BY F, E, N, D` has the four columns of T in their order.
pub fn worked_groups()
    ensures kept { (grouped_meant one_table (from_t (number (codes "5") ∷ []) [] (Some (is_one (number (codes "1")))))).functions ≡ record { kind = kind.CountRows; argument = meaning.number (pos 1) 0 } ∷ [] }
    ensures counted { is_grouped (from_t (count_rows 2 ∷ []) [] None) ≡ true }
    ensures plain { is_grouped (from_t (named (codes "d") ∷ []) [] None) ≡ false }
    ensures star_faultless { query_faults one_table (all_by (by (codes "f") ∷ by (codes "e") ∷ by (codes "n") ∷ by (codes "d") ∷ [])) ≡ [] }
    ensures star { (grouped_meant one_table (all_by (by (codes "f") ∷ by (codes "e") ∷ by (codes "n") ∷ by (codes "d") ∷ []))).items
        ≡ meaning.column 3 Integer ∷ meaning.column 2 (Rattle.qw_types.specs.declared.value.Ty.TheVariants.Varchar 10) ∷ meaning.column 1 (Decimal 18 14) ∷ meaning.column 0 (Decimal 18 15) ∷ [] }
{}

/// What isn't grouped stands neither in the select list nor in HAVING (7.8, 7.9). Of a `*` there is one fault, however many columns of T
/// (D, E, N and F) aren't grouped, and it names the `*`.
pub fn worked_ungrouped()
    ensures list { query_faults one_table (from_t (named (codes "n") ∷ []) (by (codes "d") ∷ []) None) ≡ record { kind = NotGrouped; name = codes "N" } ∷ [] }
    ensures having { query_faults one_table (from_t (named (codes "d") ∷ []) (by (codes "d") ∷ []) (Some (is_one (named (codes "e"))))) ≡ record { kind = NotGrouped; name = codes "E" } ∷ [] }
    ensures star { query_faults one_table (all_by (by (codes "e") ∷ by (codes "d") ∷ by (codes "n") ∷ [])) ≡ record { kind = NotGrouped; name = codes "*" } ∷ [] }
    ensures star_of_several { query_faults one_table (all_by (by (codes "e") ∷ [])) ≡ record { kind = NotGrouped; name = codes "*" } ∷ [] }
{}

/// A set function stands neither in WHERE nor in ON nor in the argument of another; SUM takes no text, and AVG at most 14 digits behind the
/// point (6.5, 7.5, 7.6).
pub fn worked_set_functions()
    ensures filter { query_faults one_table (where_t (is_one (count_rows 2))) ≡ record { kind = NestedAggregate; name = codes "COUNT" } ∷ [] }
    ensures on { query_faults two_tables (all_from (record { first = table (codes "a"); joins = join (table (codes "b")) (set_function 4 Sum (named (codes "x"))) (named (codes "y")) ∷ [] } ∷ [])) ≡ record { kind = NestedAggregate; name = codes "SUM" } ∷ [] }
    ensures argument { query_faults one_table (from_t (set_function 9 Sum (count_rows 7) ∷ []) [] None) ≡ record { kind = NestedAggregate; name = codes "COUNT" } ∷ [] }
    ensures text { query_faults one_table (from_t (set_function 5 Sum (named (codes "n")) ∷ []) [] None) ≡ record { kind = Clash; name = codes "N" } ∷ [] }
    ensures fifteen { query_faults one_table (from_t (set_function 5 Avg (named (codes "f")) ∷ []) [] None) ≡ record { kind = ScaleTooLarge; name = codes "F" } ∷ [] }
    ensures fourteen { query_faults one_table (from_t (set_function 5 Avg (named (codes "e")) ∷ []) [] None) ≡ [] }
{}

/// DISTINCT says of a query, grouped or not, that each of its rows is kept once, and nothing else: it adds no fault, and what the query
/// comes to before is the same without it (7.9 "set quantifier").
pub fn worked_distinct()
    ensures distinct { (whole_meant one_table (once (from_t (named (codes "d") ∷ []) [] None))).distinct ≡ true }
    ensures all { (whole_meant one_table (from_t (named (codes "d") ∷ []) [] None)).distinct ≡ false }
    ensures grouped { (whole_meant one_table (once (from_t (named (codes "d") ∷ count_rows 7 ∷ []) (by (codes "d") ∷ []) None))).distinct ≡ true }
    ensures body { (schema : List Table) (query : Select) → (whole_meant schema (once query)).body ≡ (whole_meant schema query).body }
    ensures faults { (schema : List Table) (query : Select) → query_faults schema (once query) ≡ query_faults schema query }
{}
