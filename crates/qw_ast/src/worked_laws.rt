//! Worked cases of the definitions, with numbers, stated as contracts. No function here computes anything.

ghost use Rattle.std.specs.Prelude.{◌≡◌, [], codes};
ghost use Rattle.qw_ast.specs.Grammar.{name_of};
ghost use Rattle.qw_ast.specs.Limits.{AreTaken, IsScriptLength};
ghost use Rattle.qw_ast.specs.Quoted.{string_value};

/// A query of 64 items, 8 entries of FROM, 64 grouped columns, 64 sort keys, 1,000 nodes and 16,384 literal octets is taken; one item,
/// entry, column, key, node or octet more is too many.
pub fn sizes_of_a_query()
    ensures most { AreTaken 64 8 64 64 1000 16384 }
    ensures items { AreTaken 65 8 64 64 1000 16384 → ⊥ }
    ensures entries { AreTaken 64 9 64 64 1000 16384 → ⊥ }
    ensures columns { AreTaken 64 8 65 64 1000 16384 → ⊥ }
    ensures keys { AreTaken 64 8 64 65 1000 16384 → ⊥ }
    ensures nodes { AreTaken 64 8 64 64 1001 16384 → ⊥ }
    ensures octets { AreTaken 64 8 64 64 1000 16385 → ⊥ }
{}

/// A text may have 1 to 64 statements.
pub fn statements_of_a_text()
    ensures least { IsScriptLength 1 }
    ensures most { IsScriptLength 64 }
    ensures none { IsScriptLength 0 → ⊥ }
    ensures more { IsScriptLength 65 → ⊥ }
{}

/// Two quotes within quotes are one, of a string as of a delimited identifier; the other kind of quote is an octet like another.
pub fn values_between_quotes()
    ensures string { string_value (codes "'it''s \"\"'") ≡ codes "it's \"\"" }
    ensures quotes { string_value (codes "''''''") ≡ codes "''" }
    ensures empty { string_value (codes "''") ≡ [] }
    ensures name { name_of (codes "\"a\"\"b''\"") ≡ codes "a\"b''" }
    ensures regular { name_of (codes "ab") ≡ codes "AB" }
{}
