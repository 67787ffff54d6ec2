//! Laws of the grammar, and worked cases of it.

ghost use Rattle.std.specs.Prelude.{◌≡◌, ℕ, List, [], ◌∷◌, None, Some, codes, false, true};
ghost use Rattle.qw_scalar.specs.declared.expression.Operator.TheVariants.{Add, Multiply, Subtract};
ghost use Rattle.qw_scalar.specs.declared.comparison.Comparison.TheVariants.{Equal, Greater, Like, NotLike};
ghost use Rattle.qw_token.specs.Token.{Lexeme};
ghost use Rattle.qw_ast.specs.declared.script.Sign.TheVariants.{Minus};
ghost use Rattle.qw_ast.specs.declared.script.SetFunction.TheVariants.{Avg, Count, Max, Min, Sum};
ghost use Rattle.qw_ast.specs.Syntax.{Clause, Select, arithmetic, between, both, bracketed, column, comparison, condition, count_rows, date, either, expression, items, negation_of, null, number, ordinal, otherwise, searched_case, set_function, signed, text, when};
ghost use Rattle.qw_ast.specs.ScriptGrammar.{IsSelectOf};
ghost use Rattle.qw_parse.specs.declared.fault.ParseFault.{ParseFault};
ghost use Rattle.qw_ast.specs.Limits.{nodes, nodes_condition, octets, octets_condition, query_nodes};
ghost use Rattle.qw_parse.specs.declared.fault.Count.TheVariants.{FromEntries, GroupColumns, LiteralOctets, Nodes, SelectItems, SortKeys};
ghost use Rattle.qw_parse.specs.Script.{IsPassedFirst, IsScriptRefused, Limit, ReadsScript, limits};
ghost use Rattle.qw_parse.specs.Worked.{Says, a_of_t, all_from, all_of_a, all_grouped, all_in_order, alone, by_name, equals, from, joined, key_named, left_joined, n, of_t, quoted, reference_named, s, the_column, the_table, w};

/// Tokens are one query at most.
pub fn one_query_specification()
    ensures { (tokens : List Lexeme) (query other : Select) → IsSelectOf tokens query → IsSelectOf tokens other → query ≡ other }
{}

/// A text is one script, or is refused for one cause, and never both.
pub fn one_script()
    ensures script { (script : List ℕ) (queries others : List Select) → ReadsScript script queries → ReadsScript script others → queries ≡ others }
    ensures cause { (script : List ℕ) (fault other : ParseFault) → IsScriptRefused script fault → IsScriptRefused script other → fault ≡ other }
    ensures either { (script : List ℕ) (queries : List Select) (fault : ParseFault) → ReadsScript script queries → IsScriptRefused script fault → ⊥ }
{}

/// NOT binds closer than AND, AND closer than OR, and BETWEEN takes the AND next to it (ISO/IEC 9075:1992, 8.12 and 8.3).
pub fn worked_conditions()
    ensures or_and { Says (w (codes "a") ∷ s (codes "=") ∷ n (codes "1") ∷ w (codes "OR") ∷ w (codes "b") ∷ s (codes "=") ∷ n (codes "2") ∷ w (codes "AND") ∷ w (codes "NOT") ∷ w (codes "c") ∷ s (codes "=") ∷ n (codes "3") ∷ []) (condition (either (equals (codes "a") (codes "1")) (both (equals (codes "b") (codes "2")) (negation_of (equals (codes "c") (codes "3")))))) }
    ensures between { Says (w (codes "x") ∷ w (codes "BETWEEN") ∷ n (codes "1") ∷ w (codes "AND") ∷ n (codes "2") ∷ w (codes "AND") ∷ w (codes "y") ∷ s (codes "=") ∷ n (codes "3") ∷ []) (condition (both (between false (the_column (codes "x")) (number (codes "1")) (number (codes "2"))) (equals (codes "y") (codes "3")))) }
    ensures not { Says (w (codes "NOT") ∷ w (codes "a") ∷ s (codes "=") ∷ w (codes "b") ∷ []) (condition (negation_of (comparison Equal (the_column (codes "a")) (the_column (codes "b"))))) }
{}

/// Operators of one rank associate to the left, and a sign binds closer than `*` (6.12).
pub fn worked_expressions()
    ensures left { Says (n (codes "1") ∷ s (codes "-") ∷ n (codes "2") ∷ s (codes "-") ∷ n (codes "3") ∷ []) (expression (arithmetic Subtract (arithmetic Subtract (number (codes "1")) (number (codes "2"))) (number (codes "3")))) }
    ensures sign { Says (s (codes "-") ∷ w (codes "a") ∷ s (codes "*") ∷ w (codes "b") ∷ []) (expression (arithmetic Multiply (signed Minus (the_column (codes "a"))) (the_column (codes "b")))) }
{}

/// Brackets hold an expression or a condition, whichever stands in them. Round a condition they are part of the tree, so that
/// `(a AND b) AND c` has two conjuncts and `a AND b AND c` three; round an expression they aren't.
pub fn worked_brackets()
    ensures operand { Says (s (codes "(") ∷ w (codes "a") ∷ s (codes ")") ∷ s (codes "=") ∷ n (codes "1") ∷ []) (condition (equals (codes "a") (codes "1"))) }
    ensures predicate { Says (s (codes "(") ∷ w (codes "a") ∷ s (codes "=") ∷ n (codes "1") ∷ s (codes ")") ∷ []) (condition (bracketed (equals (codes "a") (codes "1")))) }
    ensures sum { Says (s (codes "(") ∷ s (codes "(") ∷ w (codes "a") ∷ s (codes ")") ∷ s (codes "+") ∷ n (codes "1") ∷ s (codes ")") ∷ s (codes ">") ∷ n (codes "2") ∷ []) (condition (comparison Greater (arithmetic Add (the_column (codes "a")) (number (codes "1"))) (number (codes "2")))) }
    ensures nested { Says (s (codes "(") ∷ s (codes "(") ∷ w (codes "a") ∷ s (codes "=") ∷ n (codes "1") ∷ s (codes ")") ∷ w (codes "AND") ∷ w (codes "b") ∷ s (codes "=") ∷ n (codes "2") ∷ s (codes ")") ∷ []) (condition (bracketed (both (bracketed (equals (codes "a") (codes "1"))) (equals (codes "b") (codes "2"))))) }
{}

/// Nodes and literal octets: NULL as a result is no node, two quotes in a string are one octet, and a date has none. A set function is a
/// node beside its argument, and so is each column of GROUP BY. `*` is none, and behind DISTINCT 512.
pub fn worked_sizes()
    ensures condition { nodes_condition (both (equals (codes "a") (codes "1")) (negation_of (between false (the_column (codes "x")) (number (codes "1")) (number (codes "2"))))) ≡ 9 }
    ensures case { nodes (searched_case (when (condition (equals (codes "a") (codes "1"))) null (otherwise (text (codes "'x'"))))) ≡ 5 }
    ensures string { octets (text (codes "'it''s'")) ≡ 4 }
    ensures pattern { (nodes_condition (comparison Like (the_column (codes "x")) (text (codes "'a%'"))) ≡ 3) × (octets_condition (comparison NotLike (the_column (codes "x")) (text (codes "'a%'"))) ≡ 2) }
    ensures set_function { (nodes (count_rows 0) ≡ 1) × (nodes (set_function 0 Sum (the_column (codes "x"))) ≡ 2) }
    ensures groups { query_nodes (all_grouped (reference_named (codes "k") ∷ reference_named (codes "j") ∷ []) (Some (comparison Greater (count_rows 0) (number (codes "1")))) []) ≡ 5 }
    ensures asterisk { (query_nodes (all_of_a true) ≡ 512) × (query_nodes (all_of_a false) ≡ 0) × (query_nodes (a_of_t true) ≡ 1) }
    ensures date { (nodes (date (codes "'2024-01-31'") []) ≡ 1) × (octets (date (codes "'2024-01-31'") []) ≡ 0) }
{}

/// Of several limits that are passed the first is told: items, then entries of FROM, then columns of GROUP BY, then keys of ORDER BY, then
/// nodes, then octets of literals. Of 8 entries, 64 columns, 64 keys and 1,000 nodes there aren't too many, of 9, 65, 65 and 1,001 there
/// are.
pub fn worked_limits()
    ensures items { IsPassedFirst (limits 65 9 65 65 1001 16385) (record { many = 65; what = SelectItems; most = 64 }) }
    ensures entries { IsPassedFirst (limits 64 9 65 65 1001 16385) (record { many = 9; what = FromEntries; most = 8 }) }
    ensures columns { IsPassedFirst (limits 64 8 65 65 1001 16385) (record { many = 65; what = GroupColumns; most = 64 }) }
    ensures keys { IsPassedFirst (limits 64 8 64 65 1001 16385) (record { many = 65; what = SortKeys; most = 64 }) }
    ensures nodes { IsPassedFirst (limits 64 8 64 64 1001 16385) (record { many = 1001; what = Nodes; most = 1000 }) }
    ensures octets { IsPassedFirst (limits 64 8 64 64 1000 16385) (record { many = 16385; what = LiteralOctets; most = 16384 }) }
    ensures none { (limit : Limit) → IsPassedFirst (limits 64 8 64 64 1000 16384) limit → ⊥ }
{}

/// FROM is sources between commas, each an entry and its joins (ISO/IEC 9075:1992, 7.4, 7.5): INNER says nothing more than JOIN, and none
/// stands without ON.
pub fn worked_sources()
    ensures product { IsSelectOf (from (w (codes "a") ∷ s (codes ",") ∷ w (codes "b") ∷ [])) (all_from (alone (the_table (codes "a")) ∷ alone (the_table (codes "b")) ∷ [])) }
    ensures join { IsSelectOf (from (w (codes "a") ∷ w (codes "x") ∷ w (codes "JOIN") ∷ w (codes "b") ∷ w (codes "ON") ∷ w (codes "k") ∷ s (codes "=") ∷ n (codes "1") ∷ []))
        (all_from (record { first = record { table = codes "a"; alias = Some (codes "x") }; joins = joined (the_table (codes "b")) (codes "k") (codes "1") ∷ [] } ∷ [])) }
    ensures inner_join { IsSelectOf (from (w (codes "a") ∷ w (codes "INNER") ∷ w (codes "JOIN") ∷ w (codes "b") ∷ w (codes "ON") ∷ w (codes "k") ∷ s (codes "=") ∷ n (codes "1") ∷ s (codes ",") ∷ w (codes "c") ∷ []))
        (all_from (record { first = the_table (codes "a"); joins = joined (the_table (codes "b")) (codes "k") (codes "1") ∷ [] } ∷ alone (the_table (codes "c")) ∷ [])) }
    ensures no_condition { (query : Select) → IsSelectOf (from (w (codes "a") ∷ w (codes "JOIN") ∷ w (codes "b") ∷ [])) query → ⊥ }
{}

/// LEFT JOIN is an outer join wherever JOIN stands (ISO/IEC 9075:1992, 7.5 "join type"), and OUTER behind LEFT says nothing more. RIGHT and FULL
/// joins are no queries here, nor is LEFT without JOIN, OUTER without LEFT, LEFT with INNER, or LEFT JOIN without ON.
pub fn worked_left_joins()
    ensures left_join { IsSelectOf (from (w (codes "a") ∷ w (codes "LEFT") ∷ w (codes "JOIN") ∷ w (codes "b") ∷ w (codes "ON") ∷ w (codes "k") ∷ s (codes "=") ∷ n (codes "1") ∷ []))
        (all_from (record { first = the_table (codes "a"); joins = left_joined (the_table (codes "b")) (codes "k") (codes "1") ∷ [] } ∷ [])) }
    ensures left_outer_join { IsSelectOf (from (w (codes "a") ∷ w (codes "x") ∷ w (codes "left") ∷ w (codes "Outer") ∷ w (codes "join") ∷ w (codes "b") ∷ w (codes "y") ∷ w (codes "on") ∷ w (codes "k") ∷ s (codes "=") ∷ n (codes "1") ∷ s (codes ",") ∷ w (codes "c") ∷ []))
        (all_from (record { first = record { table = codes "a"; alias = Some (codes "x") }; joins = left_joined (record { table = codes "b"; alias = Some (codes "y") }) (codes "k") (codes "1") ∷ [] } ∷ alone (the_table (codes "c")) ∷ [])) }
    ensures in_a_row { IsSelectOf (from (w (codes "a") ∷ w (codes "JOIN") ∷ w (codes "b") ∷ w (codes "ON") ∷ w (codes "k") ∷ s (codes "=") ∷ n (codes "1") ∷ w (codes "LEFT") ∷ w (codes "JOIN") ∷ w (codes "c") ∷ w (codes "ON") ∷ w (codes "k") ∷ s (codes "=") ∷ n (codes "2") ∷ w (codes "INNER") ∷ w (codes "JOIN") ∷ w (codes "d") ∷ w (codes "ON") ∷ w (codes "k") ∷ s (codes "=") ∷ n (codes "3") ∷ []))
        (all_from (record { first = the_table (codes "a"); joins = joined (the_table (codes "b")) (codes "k") (codes "1") ∷ left_joined (the_table (codes "c")) (codes "k") (codes "2") ∷ joined (the_table (codes "d")) (codes "k") (codes "3") ∷ [] } ∷ [])) }
    ensures right_join { (query : Select) → IsSelectOf (from (w (codes "a") ∷ w (codes "RIGHT") ∷ w (codes "JOIN") ∷ w (codes "b") ∷ w (codes "ON") ∷ w (codes "k") ∷ s (codes "=") ∷ n (codes "1") ∷ [])) query → ⊥ }
    ensures full_join { (query : Select) → IsSelectOf (from (w (codes "a") ∷ w (codes "FULL") ∷ w (codes "OUTER") ∷ w (codes "JOIN") ∷ w (codes "b") ∷ w (codes "ON") ∷ w (codes "k") ∷ s (codes "=") ∷ n (codes "1") ∷ [])) query → ⊥ }
    ensures no_join { (query : Select) → IsSelectOf (from (w (codes "a") ∷ w (codes "LEFT") ∷ w (codes "b") ∷ w (codes "ON") ∷ w (codes "k") ∷ s (codes "=") ∷ n (codes "1") ∷ [])) query → ⊥ }
    ensures no_left { (query : Select) → IsSelectOf (from (w (codes "a") ∷ w (codes "OUTER") ∷ w (codes "JOIN") ∷ w (codes "b") ∷ w (codes "ON") ∷ w (codes "k") ∷ s (codes "=") ∷ n (codes "1") ∷ [])) query → ⊥ }
    ensures left_inner_join { (query : Select) → IsSelectOf (from (w (codes "a") ∷ w (codes "LEFT") ∷ w (codes "INNER") ∷ w (codes "JOIN") ∷ w (codes "b") ∷ w (codes "ON") ∷ w (codes "k") ∷ s (codes "=") ∷ n (codes "1") ∷ [])) query → ⊥ }
    ensures no_condition { (query : Select) → IsSelectOf (from (w (codes "a") ∷ w (codes "LEFT") ∷ w (codes "JOIN") ∷ w (codes "b") ∷ [])) query → ⊥ }
{}

/// A key of ORDER BY is a name or a number without a point; without DESC it ascends (ISO/IEC 9075:1992, 13.1). No key is a name behind a
/// qualifier, an expression, a number with a point or with a sign, and ORDER BY stands behind WHERE, with a key at least.
pub fn worked_order()
    ensures ascending { IsSelectOf (from (w (codes "a") ∷ w (codes "ORDER") ∷ w (codes "BY") ∷ w (codes "k") ∷ [])) (all_in_order (record { key = key_named (codes "k"); is_descending = false } ∷ [])) }
    ensures keys { IsSelectOf (from (w (codes "a") ∷ w (codes "order") ∷ w (codes "by") ∷ n (codes "2") ∷ w (codes "desc") ∷ s (codes ",") ∷ w (codes "k") ∷ w (codes "ASC") ∷ s (codes ",") ∷ w (codes "x") ∷ []))
        (all_in_order (record { key = ordinal (codes "2"); is_descending = true } ∷ record { key = key_named (codes "k"); is_descending = false } ∷ record { key = key_named (codes "x"); is_descending = false } ∷ [])) }
    ensures qualified { (query : Select) → IsSelectOf (from (w (codes "a") ∷ w (codes "ORDER") ∷ w (codes "BY") ∷ w (codes "a") ∷ s (codes ".") ∷ w (codes "k") ∷ [])) query → ⊥ }
    ensures further_qualified { (query : Select) → IsSelectOf (from (w (codes "a") ∷ w (codes "ORDER") ∷ w (codes "BY") ∷ w (codes "k") ∷ s (codes ",") ∷ w (codes "a") ∷ s (codes ".") ∷ w (codes "k") ∷ w (codes "DESC") ∷ [])) query → ⊥ }
    ensures expression { (query : Select) → IsSelectOf (from (w (codes "a") ∷ w (codes "ORDER") ∷ w (codes "BY") ∷ w (codes "k") ∷ s (codes "+") ∷ n (codes "1") ∷ [])) query → ⊥ }
    ensures point { (query : Select) → IsSelectOf (from (w (codes "a") ∷ w (codes "ORDER") ∷ w (codes "BY") ∷ n (codes "1.") ∷ [])) query → ⊥ }
    ensures sign { (query : Select) → IsSelectOf (from (w (codes "a") ∷ w (codes "ORDER") ∷ w (codes "BY") ∷ s (codes "-") ∷ n (codes "1") ∷ [])) query → ⊥ }
    ensures both_directions { (query : Select) → IsSelectOf (from (w (codes "a") ∷ w (codes "ORDER") ∷ w (codes "BY") ∷ w (codes "k") ∷ w (codes "ASC") ∷ w (codes "DESC") ∷ [])) query → ⊥ }
    ensures no_key { (query : Select) → IsSelectOf (from (w (codes "a") ∷ w (codes "ORDER") ∷ w (codes "BY") ∷ [])) query → ⊥ }
    ensures before_where { (query : Select) → IsSelectOf (from (w (codes "a") ∷ w (codes "ORDER") ∷ w (codes "BY") ∷ w (codes "k") ∷ w (codes "WHERE") ∷ w (codes "k") ∷ s (codes "=") ∷ n (codes "1") ∷ [])) query → ⊥ }
{}

/// A set function is COUNT of `*`, or one of five words with an argument in brackets, before which ALL may stand without effect (ISO/IEC
/// 9075:1992, 6.5). With it stands its place, the number of tokens behind it. None has no argument, or two, or DISTINCT before it, and
/// `*` is an argument of COUNT alone.
pub fn worked_set_functions()
    ensures rows { Says (w (codes "COUNT") ∷ s (codes "(") ∷ s (codes "*") ∷ s (codes ")") ∷ []) (expression (count_rows 0)) }
    ensures all { Says (w (codes "SUM") ∷ s (codes "(") ∷ w (codes "ALL") ∷ w (codes "x") ∷ s (codes ")") ∷ []) (expression (set_function 0 Sum (the_column (codes "x")))) }
    ensures argument { Says (w (codes "avg") ∷ s (codes "(") ∷ s (codes "-") ∷ w (codes "x") ∷ s (codes "+") ∷ n (codes "1") ∷ s (codes ")") ∷ []) (expression (set_function 0 Avg (arithmetic Add (signed Minus (the_column (codes "x"))) (number (codes "1"))))) }
    ensures qualified { Says (w (codes "MIN") ∷ s (codes "(") ∷ w (codes "t") ∷ s (codes ".") ∷ w (codes "d") ∷ s (codes ")") ∷ []) (expression (set_function 0 Min (column (Some (codes "t")) (codes "d")))) }
    ensures condition { Says (w (codes "MAX") ∷ s (codes "(") ∷ w (codes "x") ∷ s (codes ")") ∷ s (codes ">") ∷ n (codes "1") ∷ []) (condition (comparison Greater (set_function 2 Max (the_column (codes "x"))) (number (codes "1")))) }
    ensures nested { Says (s (codes "(") ∷ w (codes "COUNT") ∷ s (codes "(") ∷ w (codes "x") ∷ s (codes ")") ∷ s (codes "+") ∷ w (codes "COUNT") ∷ s (codes "(") ∷ s (codes "*") ∷ s (codes ")") ∷ s (codes ")") ∷ []) (expression (arithmetic Add (set_function 6 Count (the_column (codes "x"))) (count_rows 1))) }
    ensures nothing { (clause : Clause) → Says (w (codes "COUNT") ∷ s (codes "(") ∷ s (codes ")") ∷ []) clause → ⊥ }
    ensures no_rows { (clause : Clause) → Says (w (codes "SUM") ∷ s (codes "(") ∷ s (codes "*") ∷ s (codes ")") ∷ []) clause → ⊥ }
    ensures all_rows { (clause : Clause) → Says (w (codes "COUNT") ∷ s (codes "(") ∷ w (codes "ALL") ∷ s (codes "*") ∷ s (codes ")") ∷ []) clause → ⊥ }
    ensures distinct { (clause : Clause) → Says (w (codes "SUM") ∷ s (codes "(") ∷ w (codes "DISTINCT") ∷ w (codes "x") ∷ s (codes ")") ∷ []) clause → ⊥ }
    ensures two { (clause : Clause) → Says (w (codes "SUM") ∷ s (codes "(") ∷ w (codes "x") ∷ s (codes ",") ∷ w (codes "x") ∷ s (codes ")") ∷ []) clause → ⊥ }
    ensures no_brackets { (clause : Clause) → Says (w (codes "SUM") ∷ w (codes "x") ∷ []) clause → ⊥ }
{}

/// Two set functions of a query have two places, also where they are the same in words.
pub fn worked_places()
    ensures { IsSelectOf (w (codes "SELECT") ∷ w (codes "COUNT") ∷ s (codes "(") ∷ s (codes "*") ∷ s (codes ")") ∷ s (codes ",") ∷ w (codes "COUNT") ∷ s (codes "(") ∷ s (codes "*") ∷ s (codes ")") ∷ w (codes "FROM") ∷ w (codes "a") ∷ []) (record { distinct = false; selected = items (record { value = count_rows 7; name = None } ∷ record { value = count_rows 2; name = None } ∷ []); sources = alone (the_table (codes "a")) ∷ []; filter = None; grouping = []; having = None; order = [] }) }
{}

/// GROUP BY stands behind FROM and WHERE, then HAVING, then ORDER BY, each or none of them (ISO/IEC 9075:1992, 7.7, 7.8, 13.1). The columns of
/// GROUP BY are column references, one at least; a number is none, nor is an expression.
pub fn worked_groups()
    ensures columns { IsSelectOf (from (w (codes "a") ∷ w (codes "GROUP") ∷ w (codes "BY") ∷ w (codes "k") ∷ s (codes ",") ∷ w (codes "a") ∷ s (codes ".") ∷ w (codes "j") ∷ w (codes "ORDER") ∷ w (codes "BY") ∷ w (codes "k") ∷ [])) (all_grouped (reference_named (codes "k") ∷ record { qualifier = Some (codes "a"); name = codes "j" } ∷ []) None (by_name (codes "k") ∷ [])) }
    ensures having { IsSelectOf (from (w (codes "a") ∷ w (codes "group") ∷ w (codes "by") ∷ w (codes "k") ∷ w (codes "having") ∷ w (codes "COUNT") ∷ s (codes "(") ∷ s (codes "*") ∷ s (codes ")") ∷ s (codes ">") ∷ n (codes "1") ∷ w (codes "ORDER") ∷ w (codes "BY") ∷ w (codes "k") ∷ [])) (all_grouped (reference_named (codes "k") ∷ []) (Some (comparison Greater (count_rows 5) (number (codes "1")))) (by_name (codes "k") ∷ [])) }
    ensures having_alone { IsSelectOf (from (w (codes "a") ∷ w (codes "HAVING") ∷ w (codes "COUNT") ∷ s (codes "(") ∷ s (codes "*") ∷ s (codes ")") ∷ s (codes ">") ∷ n (codes "1") ∷ w (codes "ORDER") ∷ w (codes "BY") ∷ w (codes "k") ∷ [])) (all_grouped [] (Some (comparison Greater (count_rows 5) (number (codes "1")))) (by_name (codes "k") ∷ [])) }
    ensures behind_having { (query : Select) → IsSelectOf (from (w (codes "a") ∷ w (codes "HAVING") ∷ w (codes "k") ∷ s (codes "=") ∷ n (codes "1") ∷ w (codes "GROUP") ∷ w (codes "BY") ∷ w (codes "k") ∷ [])) query → ⊥ }
    ensures behind_order { (query : Select) → IsSelectOf (from (w (codes "a") ∷ w (codes "ORDER") ∷ w (codes "BY") ∷ w (codes "k") ∷ w (codes "GROUP") ∷ w (codes "BY") ∷ w (codes "k") ∷ [])) query → ⊥ }
    ensures before_where { (query : Select) → IsSelectOf (from (w (codes "a") ∷ w (codes "GROUP") ∷ w (codes "BY") ∷ w (codes "k") ∷ w (codes "WHERE") ∷ w (codes "k") ∷ s (codes "=") ∷ n (codes "1") ∷ [])) query → ⊥ }
    ensures literal { (query : Select) → IsSelectOf (from (w (codes "a") ∷ w (codes "GROUP") ∷ w (codes "BY") ∷ n (codes "1") ∷ [])) query → ⊥ }
    ensures expression { (query : Select) → IsSelectOf (from (w (codes "a") ∷ w (codes "GROUP") ∷ w (codes "BY") ∷ w (codes "k") ∷ s (codes "+") ∷ n (codes "1") ∷ [])) query → ⊥ }
    ensures set_function { (query : Select) → IsSelectOf (from (w (codes "a") ∷ w (codes "GROUP") ∷ w (codes "BY") ∷ w (codes "COUNT") ∷ s (codes "(") ∷ s (codes "*") ∷ s (codes ")") ∷ [])) query → ⊥ }
    ensures no_column { (query : Select) → IsSelectOf (from (w (codes "a") ∷ w (codes "GROUP") ∷ w (codes "BY") ∷ [])) query → ⊥ }
{}

/// Behind SELECT stands DISTINCT, or ALL, which says no more than neither of them does (ISO/IEC 9075:1992, 7.9 "set quantifier"). There is
/// one at most, and none before a later item.
pub fn worked_quantifiers()
    ensures distinct { IsSelectOf (of_t (w (codes "DISTINCT") ∷ w (codes "a") ∷ [])) (a_of_t true) }
    ensures small { IsSelectOf (of_t (w (codes "distinct") ∷ w (codes "a") ∷ [])) (a_of_t true) }
    ensures all { IsSelectOf (of_t (w (codes "ALL") ∷ w (codes "a") ∷ [])) (a_of_t false) }
    ensures neither { IsSelectOf (of_t (w (codes "a") ∷ [])) (a_of_t false) }
    ensures both { (query : Select) → IsSelectOf (of_t (w (codes "ALL") ∷ w (codes "DISTINCT") ∷ w (codes "a") ∷ [])) query → ⊥ }
    ensures twice { (query : Select) → IsSelectOf (of_t (w (codes "DISTINCT") ∷ w (codes "DISTINCT") ∷ w (codes "a") ∷ [])) query → ⊥ }
    ensures second { (query : Select) → IsSelectOf (of_t (w (codes "a") ∷ s (codes ",") ∷ w (codes "DISTINCT") ∷ w (codes "a") ∷ [])) query → ⊥ }
{}

/// Behind LIKE, before which NOT may stand, there is a character string, the pattern (ISO/IEC 9075:1992, 8.5); so it has the rank of a comparison,
/// and NOT before the whole predicate is another. No column and no expression is a pattern, and there is no ESCAPE.
pub fn worked_patterns()
    ensures like { Says (w (codes "x") ∷ w (codes "LIKE") ∷ quoted (codes "'a%'") ∷ []) (condition (comparison Like (the_column (codes "x")) (text (codes "'a%'")))) }
    ensures not_like { Says (w (codes "x") ∷ w (codes "not") ∷ w (codes "like") ∷ quoted (codes "'a%'") ∷ []) (condition (comparison NotLike (the_column (codes "x")) (text (codes "'a%'")))) }
    ensures both { Says (w (codes "NOT") ∷ w (codes "x") ∷ w (codes "LIKE") ∷ quoted (codes "'a'") ∷ w (codes "AND") ∷ w (codes "y") ∷ w (codes "LIKE") ∷ quoted (codes "'b'") ∷ [])
        (condition (both (negation_of (comparison Like (the_column (codes "x")) (text (codes "'a'")))) (comparison Like (the_column (codes "y")) (text (codes "'b'"))))) }
    ensures column { (query : Select) → IsSelectOf (from (w (codes "a") ∷ w (codes "WHERE") ∷ w (codes "x") ∷ w (codes "LIKE") ∷ w (codes "y") ∷ [])) query → ⊥ }
    ensures expression { (query : Select) → IsSelectOf (from (w (codes "a") ∷ w (codes "WHERE") ∷ w (codes "x") ∷ w (codes "LIKE") ∷ quoted (codes "'a'") ∷ s (codes "+") ∷ n (codes "1") ∷ [])) query → ⊥ }
    ensures escape { (query : Select) → IsSelectOf (from (w (codes "a") ∷ w (codes "WHERE") ∷ w (codes "x") ∷ w (codes "LIKE") ∷ quoted (codes "'a'") ∷ w (codes "ESCAPE") ∷ quoted (codes "'b'") ∷ [])) query → ⊥ }
    ensures nothing { (query : Select) → IsSelectOf (from (w (codes "a") ∷ w (codes "WHERE") ∷ w (codes "x") ∷ w (codes "NOT") ∷ w (codes "LIKE") ∷ [])) query → ⊥ }
{}
