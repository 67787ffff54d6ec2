//! The statements of a text, and how deep brackets are nested in them.

ghost use Rattle.std.specs.Prelude.{◌≡◌, ◌≤◌, map, IfOk};
ghost use Rattle.qw_ast.specs.SchemaGrammar.{is_semicolon, statements, depth_behind, exceeds};
ghost use Rattle.qw_ast.specs.Inner.Statements.{cut};
ghost use Rattle.qw_token.specs.Token.{lexeme, lexemes};

use crate::word::folds_to;
use qw_token::token::Token;
use qw_types::NoMemory;
use std::alloc::Global;

/// The most brackets and CASEs that are open behind a token.
const MAX_DEPTH: usize = 32;

/// Whether the token is a `;`.
fn is_semicolon(token: &Token<'_>) -> bool
    ensures { result ≡ is_semicolon (lexeme token.now) }
{
    token.octets == b";".as_slice()
}

/// The first statement, and the tokens behind its `;`.
fn cut<'t, 'a>(tokens: &'t [Token<'a>]) -> (&'t [Token<'a>], &'t [Token<'a>])
    ensures { (lexemes result.0.now, lexemes result.1.now) ≡ cut (lexemes tokens.now) }
{
    for (index, token) in tokens.iter().enumerate() {
        if is_semicolon(token) {
            return (&tokens[..index], &tokens[index + 1..]);
        }
    }
    (tokens, &[])
}

/// The statements, in order.
pub fn statements<'t, 'a>(
    alloc: Global,
    tokens: &'t [Token<'a>],
) -> Result<Vec<&'t [Token<'a>]>, NoMemory>
    ensures { IfOk result (λ found. map (λ s. lexemes s.now) found.items ≡ statements (lexemes tokens.now)) }
{
    if tokens.is_empty() {
        return Ok(Vec::new(alloc));
    }
    let (first, mut rest) = cut(tokens);
    let mut found = vec![in alloc; first]?;
    while !rest.is_empty() {
        let (statement, behind) = cut(rest);
        found.push(statement)?;
        rest = behind;
    }
    Ok(found)
}

/// What is open behind the token, where `depth` was open before it.
fn depth_behind(depth: usize, token: &Token<'_>) -> usize
    requires { depth ≤ 32 }
    ensures { result ≡ depth_behind depth (lexeme token.now) }
{
    let octets = token.octets;
    if octets == b"(".as_slice() || folds_to(octets, b"CASE") {
        return depth + 1;
    }
    if octets == b")".as_slice() || folds_to(octets, b"END") {
        return depth.saturating_sub(1);
    }
    depth
}

/// Whether more than [`MAX_DEPTH`] are open behind some token.
pub fn is_too_deep(tokens: &[Token<'_>]) -> bool
    ensures { result ≡ exceeds 0 (lexemes tokens.now) }
{
    let mut depth = 0;
    for token in tokens {
        depth = depth_behind(depth, token);
        if MAX_DEPTH < depth {
            return true;
        }
    }
    false
}
