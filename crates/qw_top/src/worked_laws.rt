//! Cases with numbers of definitions that no function computes as they stand. No function here computes anything.

ghost use Rattle.std.specs.Prelude.{◌≡◌, ◌^◌, ◌++◌, pos, [], ◌∷◌, Some, None, codes};
ghost use Rattle.qw_types.specs.declared.numeral.FieldFault.TheVariants.{NotDate, NotNumber, TooFine, TooLarge};
ghost use Rattle.qw_types.specs.declared.value.Val.TheVariants.{Num};
ghost use Rattle.qw_csv.specs.declared.cell.CellFault.TheVariants as cell;
ghost use Rattle.qw_csv.specs.declared.loading.LoadFault.TheVariants as load;
ghost use Rattle.qw_meaning.specs.Outcome.{Rows};
ghost use Rattle.qw_grouped.specs.Whole.{whole_outcome};
ghost use Rattle.qw_map.specs.Turns.{Done, Exception, Pages, Steps};
ghost use Rattle.qw_schema.specs.declared.parse.Count.TheVariants.{Columns};
ghost use Rattle.qw_schema.specs.declared.parse.SchemaFault.TheVariants as schema;
ghost use Rattle.qw_parse.specs.declared.fault.Count.TheVariants.{Statements, SelectItems, FromEntries, GroupColumns, SortKeys, Nodes, LiteralOctets};
ghost use Rattle.qw_parse.specs.declared.fault.ParseFault.TheVariants as script;
ghost use Rattle.qw_typer.specs.declared.fault.FaultKind.TheVariants.{Ambiguous, BadDate, BadOrdinal, Clash, DuplicateAlias, LiteralTooLong, NestedAggregate, NotGrouped, ScaleTooLarge, TooManyFunctions, UnknownColumn, UnknownTable};
ghost use Rattle.qw_typer.specs.declared.fault.TypeFault.TheVariants.{Fault};
ghost use Rattle.qw_octet_grammar.specs.declared.fault.What.TheVariants.{DataSection};
ghost use Rattle.qw_valid.specs.declared.valid.Part.TheVariants.{Exports};
ghost use Rattle.qw_check.specs.declared.check.CheckFault.TheVariants as check;
ghost use Rattle.qw_whole.specs.WholePromises.{whole_pages};
ghost use Rattle.qw_bench.specs.Bench.{rows_in_tables};
ghost use Rattle.qw_generate.specs.Generated.{queries_text, schema_text, shop_text};
ghost use Rattle.qw_top.specs.Asking.{AsksWithin, IsOne};
ghost use Rattle.qw_top.specs.Causes.{line_of_cause, module_refused, module_too_long, no_statement, number_out_of_range, queries_mistyped, queries_refused, queries_too_long, schema_refused, schema_too_long, table_refused, table_too_long, total_pages};
ghost use Rattle.qw_top.specs.Complete.{AreEnough, most_steps, status_meant};
ghost use Rattle.qw_top.specs.Delivered.{status_of_ends};
ghost use Rattle.qw_top.specs.FileNames.{file_of, files_in, table_file_of, told_part};
ghost use Rattle.qw_top.specs.Generated.{generated_names, told_generated};
ghost use Rattle.qw_top.specs.Limits.{limits_of, most_module_octets, most_table_octets, most_text_octets};
ghost use Rattle.qw_top.specs.Top.{IsHeader, RaisesNothing};
ghost use Rattle.qw_top.specs.Worked.{divided, joined, joined_tables, watched_file, worked_table};
ghost use Rattle.qw_command_line.specs.Words.{default_options};
ghost use Rattle.qw_command_line.specs.declared.command.Number.TheVariants as number;
ghost use Rattle.qw_top.specs.declared.status.Status.{Status};

/// A limit of pages comes before one of instructions, and that before an exception, whichever query met it.
pub fn worked_statuses()
    ensures done { status_of_ends (Some Done ∷ Some Done ∷ []) ≡ Status.Done }
    ensures raised { status_of_ends (Some Done ∷ Some (Exception 1) ∷ Some Done ∷ []) ≡ Status.Raised }
    ensures steps { status_of_ends (Some (Exception 2) ∷ Some (Steps 9) ∷ Some Done ∷ []) ≡ Status.StepLimitMet }
    ensures pages { status_of_ends (Some (Exception 1) ∷ Some (Steps 9) ∷ Some (Pages 1 1 1) ∷ []) ≡ Status.PageLimitMet }
    ensures pages_first { status_of_ends (Some (Pages 1 1 1) ∷ Some (Steps 9) ∷ Some (Exception 1) ∷ []) ≡ Status.PageLimitMet }
{}

/// `SELECT T.A FROM T, U WHERE T.A = U.A` as a script asks for it, over T of 4, 1, 7 and U of 4: the header of its one column; the one row 4, with
/// nothing raised; and its bound on pages.
pub fn worked_join()
    ensures header { IsHeader joined.whole (codes "A" ∷ []) joined.header }
    ensures rows { whole_outcome joined.whole (rows_in_tables joined_tables) ≡ Rows ((Num (pos 4) ∷ []) ∷ []) }
    ensures plain { RaisesNothing (rows_in_tables joined_tables) joined }
    ensures pages { whole_pages joined.whole (rows_in_tables joined_tables) ≡ 4 }
{}

/// No compiled module of that query runs more than 2^24 * (1 + 1,067) instructions over these tables. So 4 pages and as many instructions are
/// enough for it, whichever module it has, and so are those that a query may use where the words have no options; a page or an instruction
/// fewer are not. It means that the work is done; beside `SELECT 8 / (A - 1) AS Q FROM T`, which divides by zero at the row 1, that an
/// exception was raised.
pub fn worked_ends()
    ensures steps { most_steps joined (rows_in_tables joined_tables) ≡ 17918066688 }
    ensures enough { AreEnough (record { pages = 4; steps = 17918066688 }) (rows_in_tables joined_tables) (joined ∷ []) None }
    ensures defaults { AreEnough (limits_of default_options) (rows_in_tables joined_tables) (joined ∷ []) None }
    ensures few_pages { AreEnough (record { pages = 3; steps = 17918066688 }) (rows_in_tables joined_tables) (joined ∷ []) None → ⊥ }
    ensures few_steps { AreEnough (record { pages = 4; steps = 17918066687 }) (rows_in_tables joined_tables) (joined ∷ []) None → ⊥ }
    ensures done { status_meant (rows_in_tables joined_tables) (joined ∷ []) ≡ Status.Done }
    ensures raised { status_meant (rows_in_tables joined_tables) (joined ∷ divided ∷ []) ≡ Status.Raised }
{}

/// The lines on a schema file.
pub fn worked_schema_lines()
    ensures too_long { line_of_cause schema_too_long ≡ codes "schema: too long\n" }
    ensures not_utf8 { line_of_cause (schema_refused schema.NotUtf8) ≡ codes "schema: not utf-8\n" }
    ensures not_token { line_of_cause (schema_refused (schema.NotToken 7)) ≡ codes "schema: not a token at 7\n" }
    ensures not_grammar { line_of_cause (schema_refused (schema.NotGrammar 1)) ≡ codes "schema: not grammar in statement 1\n" }
    ensures too_deep { line_of_cause (schema_refused (schema.TooDeep 3)) ≡ codes "schema: too deep in statement 3\n" }
    ensures too_many { line_of_cause (schema_refused (schema.TooMany 2 Columns 64)) ≡ codes "schema: too many columns in statement 2, limit 64\n" }
    ensures duplicate { line_of_cause (schema_refused (schema.Duplicate 2)) ≡ codes "schema: duplicate in statement 2\n" }
    ensures bad_size { line_of_cause (schema_refused (schema.BadSize 1)) ≡ codes "schema: bad size in statement 1\n" }
{}

/// The lines on the file of a table that has no parts.
pub fn worked_table_lines()
    ensures too_long { line_of_cause (table_too_long worked_table None) ≡ codes "T: too long\n" }
    ensures bad_header { line_of_cause (table_refused worked_table None load.BadHeader) ≡ codes "T: bad header\n" }
    ensures field_count { line_of_cause (table_refused worked_table None (load.FieldCount 12)) ≡ codes "T record 12: field count\n" }
    ensures not_number { line_of_cause (table_refused worked_table None (load.Field 1 0 (cell.Form NotNumber))) ≡ codes "T record 1 column A: not a number\n" }
    ensures too_large { line_of_cause (table_refused worked_table None (load.Field 3 1 (cell.Form TooLarge))) ≡ codes "T record 3 column B: too large\n" }
    ensures too_fine { line_of_cause (table_refused worked_table None (load.Field 2 0 (cell.Form TooFine))) ≡ codes "T record 2 column A: too fine\n" }
    ensures not_date { line_of_cause (table_refused worked_table None (load.Field 10 1 (cell.Form NotDate))) ≡ codes "T record 10 column B: not a date\n" }
    ensures null { line_of_cause (table_refused worked_table None (load.Field 1 0 cell.NullForbidden)) ≡ codes "T record 1 column A: null forbidden\n" }
    ensures text_too_long { line_of_cause (table_refused worked_table None (load.Field 1 1 cell.TextTooLong)) ≡ codes "T record 1 column B: text too long\n" }
    ensures not_utf8 { line_of_cause (table_refused worked_table None (load.Field 1 0 cell.NotUtf8)) ≡ codes "T record 1 column A: not utf-8\n" }
    ensures too_many_rows { line_of_cause (table_refused worked_table None load.TooManyRows) ≡ codes "T: too many rows\n" }
{}

/// The lines on a part of a table: the part's number, counted from 1, comes behind the table's name.
pub fn worked_part_lines()
    ensures too_long { line_of_cause (table_too_long worked_table (Some 2)) ≡ codes "T part 2: too long\n" }
    ensures bad_header { line_of_cause (table_refused worked_table (Some 1) load.BadHeader) ≡ codes "T part 1: bad header\n" }
    ensures field_count { line_of_cause (table_refused worked_table (Some 3) (load.FieldCount 12)) ≡ codes "T part 3 record 12: field count\n" }
    ensures not_number { line_of_cause (table_refused worked_table (Some 999) (load.Field 1 0 (cell.Form NotNumber))) ≡ codes "T part 999 record 1 column A: not a number\n" }
    ensures null { line_of_cause (table_refused worked_table (Some 10) (load.Field 2 0 cell.NullForbidden)) ≡ codes "T part 10 record 2 column A: null forbidden\n" }
    ensures too_many_rows { line_of_cause (table_refused worked_table (Some 2) load.TooManyRows) ≡ codes "T part 2: too many rows\n" }
{}

/// The names of a table's files in the folder `d`: of a table without parts one, whichever number is asked for; of one with parts one for each
/// number. A table without parts has one file, and its number isn't told.
pub fn worked_file_names()
    ensures plain { file_of (codes "d") None (codes "SALES") 1 ≡ codes "d/sales.csv" }
    ensures first { file_of (codes "d") (Some 2) (codes "SALES") 1 ≡ codes "d/sales.1.csv" }
    ensures last { file_of (codes "d") (Some 999) (codes "SALES") 999 ≡ codes "d/sales.999.csv" }
    ensures one { file_of (codes "d") (Some 1) (codes "SALES") 1 ≡ codes "d/sales.1.csv" }
    ensures one_file { files_in None ≡ 1 }
    ensures two_files { files_in (Some 2) ≡ 2 }
    ensures untold { told_part None 1 ≡ None }
    ensures told { told_part (Some 2) 2 ≡ Some 2 }
{}

/// The lines on a queries file, and on the pages of a run.
pub fn worked_query_lines()
    ensures too_long { line_of_cause queries_too_long ≡ codes "queries: too long\n" }
    ensures not_token { line_of_cause (queries_refused (script.NotToken 10)) ≡ codes "queries: not a token at 10\n" }
    ensures not_grammar { line_of_cause (queries_refused (script.NotGrammar 2)) ≡ codes "queries: not grammar in statement 2\n" }
    ensures many_statements { line_of_cause (queries_refused (script.TooMany 1 Statements 64)) ≡ codes "queries: too many statements in statement 1, limit 64\n" }
    ensures many_items { line_of_cause (queries_refused (script.TooMany 1 SelectItems 64)) ≡ codes "queries: too many select items in statement 1, limit 64\n" }
    ensures many_entries { line_of_cause (queries_refused (script.TooMany 4 FromEntries 8)) ≡ codes "queries: too many from entries in statement 4, limit 8\n" }
    ensures many_groups { line_of_cause (queries_refused (script.TooMany 2 GroupColumns 64)) ≡ codes "queries: too many group columns in statement 2, limit 64\n" }
    ensures many_keys { line_of_cause (queries_refused (script.TooMany 2 SortKeys 64)) ≡ codes "queries: too many sort keys in statement 2, limit 64\n" }
    ensures many_nodes { line_of_cause (queries_refused (script.TooMany 3 Nodes 1000)) ≡ codes "queries: too many nodes in statement 3, limit 1000\n" }
    ensures many_octets { line_of_cause (queries_refused (script.TooMany 2 LiteralOctets 16384)) ≡ codes "queries: too many literal octets in statement 2, limit 16384\n" }
    ensures unknown_table { line_of_cause (queries_mistyped (Fault 2 UnknownTable (codes "U"))) ≡ codes "queries: unknown table U in statement 2\n" }
    ensures unknown_column { line_of_cause (queries_mistyped (Fault 1 UnknownColumn (codes "B"))) ≡ codes "queries: unknown column B in statement 1\n" }
    ensures ambiguous { line_of_cause (queries_mistyped (Fault 1 Ambiguous (codes "A"))) ≡ codes "queries: ambiguous A in statement 1\n" }
    ensures duplicate_alias { line_of_cause (queries_mistyped (Fault 3 DuplicateAlias (codes "T"))) ≡ codes "queries: duplicate alias T in statement 3\n" }
    ensures clash { line_of_cause (queries_mistyped (Fault 64 Clash (codes "'x'"))) ≡ codes "queries: clash 'x' in statement 64\n" }
    ensures scale { line_of_cause (queries_mistyped (Fault 1 ScaleTooLarge (codes "0.1"))) ≡ codes "queries: scale too large 0.1 in statement 1\n" }
    ensures literal { line_of_cause (queries_mistyped (Fault 1 LiteralTooLong (codes "1000000000000000000")))
        ≡ codes "queries: literal too long 1000000000000000000 in statement 1\n" }
    ensures date { line_of_cause (queries_mistyped (Fault 1 BadDate (codes "'1998-02-29'"))) ≡ codes "queries: bad date '1998-02-29' in statement 1\n" }
    ensures ordinal { line_of_cause (queries_mistyped (Fault 1 BadOrdinal (codes "2"))) ≡ codes "queries: bad ordinal 2 in statement 1\n" }
    ensures not_grouped { line_of_cause (queries_mistyped (Fault 1 NotGrouped (codes "B"))) ≡ codes "queries: not grouped B in statement 1\n" }
    ensures nested { line_of_cause (queries_mistyped (Fault 3 NestedAggregate (codes "SUM"))) ≡ codes "queries: nested aggregate SUM in statement 3\n" }
    ensures many_functions { line_of_cause (queries_mistyped (Fault 1 TooManyFunctions (codes "COUNT"))) ≡ codes "queries: too many functions COUNT in statement 1\n" }
    ensures pages { line_of_cause (total_pages 65536) ≡ codes "total pages 65536\n" }
{}

/// The lines on a module's file, and on a statement that isn't there.
pub fn worked_module_lines()
    ensures too_long { line_of_cause module_too_long ≡ codes "module: too long\n" }
    ensures no_module { line_of_cause (module_refused check.NotModule) ≡ codes "module: not a module\n" }
    ensures profile { line_of_cause (module_refused (check.OutOfProfile DataSection)) ≡ codes "module: out of profile DataSection\n" }
    ensures part { line_of_cause (module_refused (check.Part Exports)) ≡ codes "module: invalid Exports\n" }
    ensures function { line_of_cause (module_refused (check.Body 0 3)) ≡ codes "module: invalid function 0 at 3\n" }
    ensures statement { line_of_cause (no_statement 2) ≡ codes "queries: no statement 2\n" }
{}

/// The lines on numbers of the words that are out of their ranges.
pub fn worked_word_lines()
    ensures quantum { line_of_cause (number_out_of_range number.Quantum) ≡ codes "words: quantum out of range\n" }
    ensures pages { line_of_cause (number_out_of_range number.Pages) ≡ codes "words: pages out of range\n" }
    ensures steps { line_of_cause (number_out_of_range number.Steps) ≡ codes "words: steps out of range\n" }
    ensures statement { line_of_cause (number_out_of_range number.Statement) ≡ codes "words: statement out of range\n" }
    ensures seed { line_of_cause (number_out_of_range number.Seed) ≡ codes "words: SEED out of range\n" }
    ensures rows { line_of_cause (number_out_of_range number.Rows) ≡ codes "words: ROWS out of range\n" }
    ensures null { line_of_cause (number_out_of_range number.Null) ≡ codes "words: null out of range\n" }
    ensures parts { line_of_cause (number_out_of_range number.Parts) ≡ codes "words: parts out of range\n" }
{}

/// The files of generated input, by the names that a run of them takes: the schema, the file of each table that it declares, one row of SALE being
/// asked for, and the queries.
pub fn worked_generated_files()
    ensures schema { told_generated 0 1 generated_names.schema ≡ Some schema_text }
    ensures sale { told_generated 0 1 (table_file_of generated_names.folder (codes "SALE"))
        ≡ Some (codes "ID,SHOP,PRICE,SOLD,KIND\n" ++ codes "1,8,964.24,2007-10-15,bolt\n") }
    ensures shop { told_generated 0 1 (table_file_of generated_names.folder (codes "SHOP")) ≡ Some shop_text }
    ensures queries { told_generated 0 1 generated_names.queries ≡ Some queries_text }
    ensures none { told_generated 0 1 (table_file_of generated_names.folder (codes "T")) ≡ Some [] }
{}

/// The limits of files: 1,048,576 octets of a schema file and of a queries file, 268,435,456 of a table file, 67,108,864 of a module's;
/// and what a query may use where the words have no options: 128 pages, and fewer than 10^18 instructions.
pub fn worked_limits()
    ensures texts { most_text_octets ≡ 2 ^ 20 }
    ensures tables { most_table_octets ≡ 2 ^ 28 }
    ensures modules { most_module_octets ≡ 2 ^ 26 }
    ensures defaults { limits_of default_options ≡ record { pages = 128; steps = 999999999999999999 } }
{}

/// A file with a limit of 3 octets may be asked for up to the fourth, and not up to the fifth, unless it was before.
pub fn worked_asking()
    ensures within { AsksWithin (IsOne (codes "f") 3) (watched_file 0) (watched_file 4) }
    ensures past { AsksWithin (IsOne (codes "f") 3) (watched_file 0) (watched_file 5) → ⊥ }
    ensures before { AsksWithin (IsOne (codes "f") 3) (watched_file 5) (watched_file 5) }
{}
