//! What column references and set functions mean over a grouped table (ISO/IEC 9075:1992, 6.4, 6.5, 7.7 to 7.9), and their faults, in worked
//! cases. No function here computes anything.

ghost use Rattle.std.specs.Prelude.{◌≡◌, ◌++◌, [], Some, codes};
ghost use Rattle.qw_types.specs.declared.value.Ty.TheVariants.{Integer, Decimal, Varchar};
ghost use Rattle.qw_scalar.specs.declared.comparison.Comparison.TheVariants.{Equal};
ghost use Rattle.qw_scalar.specs.declared.expression.Operator.TheVariants.{Add};
ghost use Rattle.qw_scalar.specs.Expression as meaning;
ghost use Rattle.qw_ast.specs.declared.script.SetFunction.TheVariants.{Count, Sum, Avg, Min, Max};
ghost use Rattle.qw_ast.specs.Syntax.{arithmetic, column, comparison, count_rows, set_function};
ghost use Rattle.qw_typer.specs.declared.fault.FaultKind.TheVariants.{Clash, NestedAggregate, NotGrouped, ScaleTooLarge, UnknownColumn, UnknownTable};
ghost use Rattle.qw_typer.specs.Faults.{condition_faults, faults};
ghost use Rattle.qw_typer.specs.Meant.{meant};
ghost use Rattle.qw_typer.specs.WorkedScopes.{fault, faults_of, named, over_a, over_groups};

/// In `FROM A GROUP BY X, K` X is the first column of the grouped table and K the second, behind a qualifier or not; F isn't grouped, alone
/// or as an operand; Z is no column at all, and P no entry. In WHERE F is the third column of A.
pub fn worked_group_references()
    ensures first { meant over_groups (named (codes "x")) ≡ meaning.column 0 (Varchar 5) }
    ensures second { meant over_groups (column (Some (codes "a")) (codes "k")) ≡ meaning.column 1 Integer }
    ensures grouped { faults over_groups (named (codes "x")) ≡ [] }
    ensures not_grouped { faults over_groups (named (codes "f")) ≡ fault NotGrouped (codes "F") }
    ensures qualified { faults over_groups (column (Some (codes "a")) (codes "f")) ≡ fault NotGrouped (codes "F") }
    ensures operand { faults over_groups (arithmetic Add (named (codes "k")) (named (codes "f"))) ≡ fault NotGrouped (codes "F") }
    ensures no_column { faults over_groups (named (codes "z")) ≡ fault UnknownColumn (codes "Z") }
    ensures no_entry { faults over_groups (column (Some (codes "p")) (codes "k")) ≡ fault UnknownTable (codes "P") }
    ensures from_is { meant over_a (named (codes "f")) ≡ meaning.column 2 (Decimal 18 14) }
    ensures from { faults over_a (named (codes "f")) ≡ [] }
{}

/// Behind X and K stand the set functions, each at its place, whatever their words and arguments are. An argument is over FROM, where nothing
/// has to be grouped and no set function may stand; so is WHERE. SUM and AVG take numbers, MIN takes a text too; and AVG takes at most 14
/// digits behind the point.
pub fn worked_set_functions()
    ensures first { meant over_groups (count_rows 9) ≡ meaning.column 2 (Decimal 18 0) }
    ensures second { meant over_groups (set_function 3 Sum (named (codes "f"))) ≡ meaning.column 3 (Decimal 18 14) }
    ensures rows { faults over_groups (count_rows 9) ≡ [] }
    ensures argument { faults_of Sum (codes "f") ≡ [] }
    ensures no_column { faults_of Sum (codes "z") ≡ fault UnknownColumn (codes "Z") }
    ensures nested_rows { faults over_groups (set_function 3 Sum (count_rows 9)) ≡ fault NestedAggregate (codes "COUNT") }
    ensures nested { faults over_groups (set_function 3 Sum (set_function 9 Max (named (codes "f")))) ≡ fault NestedAggregate (codes "MAX") }
    ensures in_where { condition_faults over_a (comparison Equal (set_function 3 Min (named (codes "f"))) (count_rows 9)) ≡ fault NestedAggregate (codes "MIN") ++ fault NestedAggregate (codes "COUNT") }
    ensures sum_of_text { faults_of Sum (codes "x") ≡ fault Clash (codes "X") }
    ensures average_of_text { faults_of Avg (codes "x") ≡ fault Clash (codes "X") }
    ensures of_text { (faults_of Min (codes "x") ≡ []) × (faults_of Max (codes "x") ≡ []) × (faults_of Count (codes "x") ≡ []) }
    ensures average_at_14 { faults_of Avg (codes "f") ≡ [] }
    ensures average_at_15 { faults_of Avg (codes "g") ≡ fault ScaleTooLarge (codes "G") }
    ensures sum_at_15 { faults_of Sum (codes "g") ≡ [] }
{}
