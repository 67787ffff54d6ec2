//! Worked cases of the definitions, with numbers, stated as contracts. No function here computes anything.

ghost use Rattle.std.specs.Prelude.{◌≡◌, false, true, [], ◌∷◌, codes, map};
ghost use Rattle.qw_token.specs.Token.{AreTokens, StopsAt, after_mark, is_separator};
ghost use Rattle.qw_token.specs.declared.token.Kind.TheVariants.{CharacterString, DelimitedIdentifier, Number, Symbol, Word};

/// Tab, line feed, carriage return and space, octets 9, 10, 13 and 32, stand between tokens (ISO/IEC 9075:1992, 5.2 "separator"). Vertical
/// tab and form feed, octets 11 and 12, don't, nor does any neighbour of those four.
pub fn separators()
    ensures four { map is_separator (9 ∷ 10 ∷ 13 ∷ 32 ∷ []) ≡ true ∷ true ∷ true ∷ true ∷ [] }
    ensures others { map is_separator (0 ∷ 8 ∷ 11 ∷ 12 ∷ 14 ∷ 31 ∷ 33 ∷ []) ≡ false ∷ false ∷ false ∷ false ∷ false ∷ false ∷ false ∷ [] }
{}

/// `'it''s` has no end: the longest front of it that is a token is `'it'`, and behind that, at octet 4, none begins (ISO/IEC 9075:1992, 5.2,
/// 5.3). With one quote more it is one token. So `"a"` is the token of `"a""b`, whose octets are 34, 97, 34, 34 and 98; at three double
/// quotes none begins, since no name is empty.
pub fn open_quotes()
    ensures string { StopsAt (codes "'it''s") 4 }
    ensures closed { AreTokens (codes "'it''s'") (record { kind = CharacterString; octets = codes "'it''s'" } ∷ []) }
    ensures name { StopsAt (34 ∷ 97 ∷ 34 ∷ 34 ∷ 98 ∷ []) 3 }
    ensures no_name { StopsAt (34 ∷ 34 ∷ 34 ∷ []) 0 }
{}

/// A number that a letter or a second point cuts off is no token, and nothing shorter is one there: none begins at `.5a` or `1..2`.
pub fn cut_numbers()
    ensures letter { StopsAt (codes ".5a") 0 }
    ensures point { StopsAt (codes "1..2") 0 }
{}

/// Words, symbols, numbers and strings need nothing between them where the longest token ends (ISO/IEC 9075:1992, 5.2): `a_1<=.5` are three, since `<=` is one.
/// A comment ends before the line feed, whatever stands in it; two minus signs in a string begin none, and one minus sign is a symbol. Of `1.x` and of `x.1`
/// only the second is tokens, a word and a number.
pub fn kinds_of_tokens()
    ensures each { AreTokens (codes "SELECT a_1<=.5 --x;\n<>'--';")
        (record { kind = Word; octets = codes "SELECT" } ∷ record { kind = Word; octets = codes "a_1" } ∷ record { kind = Symbol; octets = codes "<=" } ∷ record { kind = Number; octets = codes ".5" } ∷ record { kind = Symbol; octets = codes "<>" } ∷ record { kind = CharacterString; octets = codes "'--'" } ∷ record { kind = Symbol; octets = codes ";" } ∷ []) }
    ensures minus { AreTokens (codes "-1.") (record { kind = Symbol; octets = codes "-" } ∷ record { kind = Number; octets = codes "1." } ∷ []) }
    ensures name { AreTokens (codes "\"a--\"") (record { kind = DelimitedIdentifier; octets = codes "\"a--\"" } ∷ []) }
    ensures cut { StopsAt (codes "1.x") 0 }
    ensures behind { AreTokens (codes "x.1") (record { kind = Word; octets = codes "x" } ∷ record { kind = Number; octets = codes ".1" } ∷ []) }
{}

/// One byte order mark, the octets 239, 187 and 191, is passed over at the start of a text; a second one, and a part of one, aren't.
pub fn byte_order_marks()
    ensures one { after_mark (239 ∷ 187 ∷ 191 ∷ 65 ∷ []) ≡ 65 ∷ [] }
    ensures none { after_mark (65 ∷ []) ≡ 65 ∷ [] }
    ensures two { after_mark (239 ∷ 187 ∷ 191 ∷ 239 ∷ 187 ∷ 191 ∷ []) ≡ 239 ∷ 187 ∷ 191 ∷ [] }
    ensures part { after_mark (239 ∷ 187 ∷ 65 ∷ []) ≡ 239 ∷ 187 ∷ 65 ∷ [] }
{}
