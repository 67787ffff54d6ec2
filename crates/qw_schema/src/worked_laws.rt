//! Worked cases of the definitions, stated as contracts: what table definitions declare, and which fault of a statement is told. No function here computes
//! anything.

ghost use Rattle.std.specs.Prelude.{[], ◌∷◌, codes, replicate};
ghost use Rattle.qw_ast.specs.SchemaGrammar.{statements};
ghost use Rattle.qw_schema.specs.Parse.{Declare, HasFirstFault};
ghost use Rattle.qw_schema.specs.Worked.{alike_columns, create_table, decimal_column, greatest_table, greatest_tokens, int_column, item_table, item_tokens, sign, text_column, two_tables, two_tokens};
ghost use Rattle.qw_schema.specs.declared.parse.Count.TheVariants.{Columns};
ghost use Rattle.qw_schema.specs.declared.parse.SchemaFault.TheVariants.{BadSize, Duplicate, NotGrammar, TooDeep, TooMany};

/// `CREATE TABLE item (id INT NOT NULL, Price DEC(9,2), SOLD DATE, LABEL VARCHAR(20))` declares a table of four columns, with names in upper case (ISO/IEC
/// 9075:1992, 5.2, 11.3, 11.4). A second statement declares a second table, with a `;` behind it or without. A precision of 18 with as great a scale, and a
/// length of 1,000, are taken (6.1).
pub fn worked_definitions()
    ensures each_type { Declare [] (statements item_tokens) (item_table ∷ []) }
    ensures two { Declare [] (statements two_tokens) two_tables }
    ensures greatest { Declare [] (statements greatest_tokens) (greatest_table ∷ []) }
{}

/// One fault of a statement is told, the first of these: more than 32 brackets are open, though no definition begins so; it is no table definition, as where 32
/// are; more than 64 columns, though their names are one and each of no length; two columns of one name, or a table of a name that is there; a size that isn't
/// taken: a length of 0 or 1,001, a precision of 19, a scale past the precision.
pub fn worked_faults()
    ensures too_deep { HasFirstFault [] 1 (replicate 33 (sign (codes "(")) ∷ []) (TooDeep 1) }
    ensures deep { HasFirstFault [] 1 (replicate 32 (sign (codes "(")) ∷ []) (NotGrammar 1) }
    ensures no_column { HasFirstFault [] 1 (create_table (codes "T") [] ∷ []) (NotGrammar 1) }
    ensures reserved_name { HasFirstFault [] 1 (create_table (codes "T") (int_column (codes "date")) ∷ []) (NotGrammar 1) }
    ensures too_many { HasFirstFault [] 1 (create_table (codes "T") (alike_columns 64) ∷ []) (TooMany 1 Columns 64) }
    ensures one_name { HasFirstFault [] 1 (create_table (codes "T") (alike_columns 63) ∷ []) (Duplicate 1) }
    ensures no_length { HasFirstFault [] 1 (create_table (codes "T") (alike_columns 0) ∷ []) (BadSize 1) }
    ensures length { HasFirstFault [] 1 (create_table (codes "T") (text_column (codes "A") (codes "1001")) ∷ []) (BadSize 1) }
    ensures precision { HasFirstFault [] 1 (create_table (codes "T") (decimal_column (codes "A") (codes "19") (codes "0")) ∷ []) (BadSize 1) }
    ensures scale { HasFirstFault [] 1 (create_table (codes "T") (decimal_column (codes "A") (codes "2") (codes "3")) ∷ []) (BadSize 1) }
{}

/// Of two statements at fault the first is told, whatever the fault of the second; a table of the name of the one before it is at fault before its sizes are.
pub fn worked_order()
    ensures first { HasFirstFault [] 1 (create_table (codes "T") (alike_columns 0) ∷ replicate 33 (sign (codes "(")) ∷ []) (BadSize 1) }
    ensures second { HasFirstFault [] 1 (create_table (codes "T") (int_column (codes "A")) ∷ create_table (codes "t") (alike_columns 0) ∷ []) (Duplicate 2) }
{}
