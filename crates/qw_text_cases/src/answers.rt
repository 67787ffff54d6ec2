//! What each kind of row comes to.

use crate::keys::hashed;
use crate::refusal::Refusal;
use crate::statement::put_shown;
use crate::tables::shown_tables;
use crate::texts::octets_of_text;
use qw_parse::script::script_of;
use qw_schema::parse::schema_of;
use qw_token::token::{Token, tokens};
use std::alloc::{AllocError, Global};

/// What a row of a kind comes to.
pub fn answer(alloc: Global, kind: &str, input: &str) -> Result<String, Refusal> {
    if kind == "hash" {
        return hashed(alloc, input);
    }
    let octets = octets_of_text(alloc, input)?;
    match kind {
        "tokens" => shown(alloc, &octets),
        "scan" => scan(alloc, &octets),
        "schema" => schema(alloc, &octets),
        "sizes" => sizes(alloc, &octets),
        "script" => script(alloc, &octets),
        "count" => count(alloc, &octets),
        _ => Err(Refusal::NotRow),
    }
}

/// Octets that are a text.
fn text_of(octets: Vec<u8>) -> Result<String, Refusal> {
    String::from_utf8(octets).map_err(|_| Refusal::NotRow)
}

/// Adds a token's kind and octets.
fn put_token(alloc: Global, out: &mut Vec<u8>, token: &Token<'_>) -> Result<(), AllocError> {
    if !out.is_empty() {
        out.push(b' ')?;
    }
    let kind = format!(in alloc; "{:?}", token.kind)?;
    out.extend_from_slice(kind.as_bytes())?;
    out.push(b'[')?;
    out.extend_from_slice(token.octets)?;
    out.push(b']')?;
    Ok(())
}

fn shown(alloc: Global, octets: &[u8]) -> Result<String, Refusal> {
    let found = tokens(alloc, octets)?;
    let mut out = Vec::new(alloc);
    for token in found.as_slice() {
        put_token(alloc, &mut out, token)?;
    }
    if out.is_empty() {
        out.extend_from_slice(b"none")?;
    }
    text_of(out)
}

fn scan(alloc: Global, octets: &[u8]) -> Result<String, Refusal> {
    tokens(alloc, octets)?;
    Ok(String::from_str(alloc, "tokens")?)
}

fn schema(alloc: Global, octets: &[u8]) -> Result<String, Refusal> {
    let schema = schema_of(alloc, octets)?;
    Ok(shown_tables(alloc, schema.as_slice())?)
}

fn sizes(alloc: Global, octets: &[u8]) -> Result<String, Refusal> {
    let schema = schema_of(alloc, octets)?;
    let tables = schema.as_slice().len();
    let mut columns = 0usize;
    for table in schema.as_slice() {
        columns = columns.saturating_add(table.columns.as_slice().len());
    }
    Ok(format!(in alloc; "{tables} tables, {columns} columns")?)
}

fn script(alloc: Global, octets: &[u8]) -> Result<String, Refusal> {
    let script = script_of(alloc, octets)?;
    let mut out = Vec::new(alloc);
    for statement in script.as_slice() {
        if !out.is_empty() {
            out.extend_from_slice(b" | ")?;
        }
        put_shown(alloc, &mut out, statement)?;
    }
    text_of(out)
}

fn count(alloc: Global, octets: &[u8]) -> Result<String, Refusal> {
    let script = script_of(alloc, octets)?;
    let statements = script.as_slice().len();
    Ok(format!(in alloc; "{statements} statements")?)
}
