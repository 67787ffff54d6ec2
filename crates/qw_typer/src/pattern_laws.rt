//! Worked cases of LIKE over a table's columns (ISO/IEC 9075:1992, 8.5). No function here computes anything.

ghost use Rattle.std.specs.Prelude.{◌≡◌, [], ◌∷◌, codes};
ghost use Rattle.qw_types.specs.declared.value.Ty.TheVariants.{Varchar};
ghost use Rattle.qw_scalar.specs.declared.comparison.Comparison.TheVariants.{Like, NotLike};
ghost use Rattle.qw_scalar.specs.Expression as meaning;
ghost use Rattle.qw_ast.specs.Syntax.{comparison, number, text};
ghost use Rattle.qw_typer.specs.declared.fault.FaultKind.TheVariants.{Clash};
ghost use Rattle.qw_typer.specs.Typed.{query_faults, specification_meant};
ghost use Rattle.qw_typer.specs.WorkedGroups.{named, one_table, where_t};

/// `SELECT D FROM T WHERE N NOT LIKE 'it''s%'` over T (D INTEGER, N VARCHAR(10), ..) asks of N whether it does not match `it's%`. A pattern is a text,
/// so what stands before LIKE is one: a number or a column of numbers clashes with it.
pub fn worked_patterns()
    ensures faultless { query_faults one_table (where_t (comparison NotLike (named (codes "n")) (text (codes "'it''s%'")))) ≡ [] }
    ensures meant { (specification_meant one_table (where_t (comparison NotLike (named (codes "n")) (text (codes "'it''s%'"))))).conjuncts
        ≡ meaning.comparison NotLike (meaning.column 1 (Varchar 10)) (meaning.text (codes "it's%")) ∷ [] }
    ensures number { query_faults one_table (where_t (comparison Like (number (codes "5")) (text (codes "'a'")))) ≡ record { kind = Clash; name = codes "5" } ∷ [] }
    ensures column { query_faults one_table (where_t (comparison Like (named (codes "d")) (text (codes "'a'")))) ≡ record { kind = Clash; name = codes "D" } ∷ [] }
{}
