//! Names and words, which are one in upper and in lower case.

ghost use Rattle.std.specs.Prelude.{◌≡◌};
ghost use Rattle.std.specs.List.{list_any};
ghost use Rattle.std.specs.Str.{bytes_eq};
ghost use Rattle.qw_ast.specs.Grammar.{folded, reserved};

/// The words that are no regular identifiers (ISO/IEC 9075:1992, 5.2 "reserved word", as far as this language has them).
const RESERVED: [&str; 60] = [
    "ALL",
    "AND",
    "AS",
    "ASC",
    "AVG",
    "BETWEEN",
    "BY",
    "CASE",
    "COALESCE",
    "COUNT",
    "CREATE",
    "CROSS",
    "DATE",
    "DEC",
    "DECIMAL",
    "DESC",
    "DISTINCT",
    "ELSE",
    "END",
    "EXCEPT",
    "EXISTS",
    "EXTRACT",
    "FALSE",
    "FROM",
    "FULL",
    "GROUP",
    "HAVING",
    "IN",
    "INNER",
    "INT",
    "INTEGER",
    "INTERSECT",
    "INTERVAL",
    "IS",
    "JOIN",
    "LEFT",
    "LIKE",
    "MAX",
    "MIN",
    "NATURAL",
    "NOT",
    "NULL",
    "NULLIF",
    "NUMERIC",
    "ON",
    "OR",
    "ORDER",
    "OUTER",
    "RIGHT",
    "SELECT",
    "SUM",
    "TABLE",
    "THEN",
    "TRUE",
    "UNION",
    "UNKNOWN",
    "USING",
    "VARCHAR",
    "WHEN",
    "WHERE",
];

/// Whether the octets in upper case are the word.
pub fn folds_to(octets: &[u8], word: &[u8]) -> bool
    ensures { result ≡ bytes_eq (folded octets.now) word.now }
{
    octets.len() == word.len()
        && octets
            .iter()
            .zip(word)
            .all(|(octet, letter)| octet.to_ascii_uppercase() == *letter)
}

/// Whether the octets in upper case are one of the words.
fn is_among(words: &[&str], octets: &[u8]) -> bool
    ensures { result ≡ list_any (λ word. bytes_eq (folded octets.now) word.now) words.now }
{
    words.iter().any(|word| folds_to(octets, word.as_bytes()))
}

/// Whether the octets are a reserved word, in upper or lower case.
pub fn is_reserved(octets: &[u8]) -> bool
    ensures { result ≡ list_any (bytes_eq (folded octets.now)) reserved }
{
    is_among(&RESERVED, octets)
}
