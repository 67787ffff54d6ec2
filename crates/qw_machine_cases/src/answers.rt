//! What each kind of row comes to.

use crate::frames::{BARE, Frame, MANY, USUAL, checked, module_of};
use crate::refusal::Refusal;
use crate::runs::{answers_of, asks_of, call_of, one_page, value_of};
use crate::words::{number_of, put_octets, short_number};
use qw_binary::decode::decode;
use qw_binary::encode::encode;
use qw_valid::valid::{ValidFault, validate};
use std::alloc::{AllocError, Global};

/// What a row of a kind comes to.
pub fn answer(alloc: Global, kind: &str, input: &str) -> Result<String, Refusal> {
    match kind {
        "octets" => octets(alloc, input),
        "read" => read(alloc, input),
        "again" => again(alloc, input),
        "valid" => valid(alloc, input),
        "call" => call(alloc, input),
        "body" => place(alloc, USUAL, input),
        "bare" => place(alloc, BARE, input),
        "many" => place(alloc, MANY, input),
        "i32" | "i64" => value_of(alloc, &mut one_page(alloc)?, kind, input),
        "memory" => over_octets(alloc, input),
        "steps" => steps(alloc, input),
        "asks" => asks(alloc, input),
        _ => Err(Refusal::NotRow),
    }
}

fn words(alloc: Global, words: &str) -> Result<String, Refusal> {
    Ok(String::from_str(alloc, words)?)
}

fn octets(alloc: Global, input: &str) -> Result<String, Refusal> {
    let mut octets = Vec::new(alloc);
    put_octets(&mut octets, input)?;
    decode(alloc, &octets)?;
    words(alloc, "a module")
}

fn read(alloc: Global, input: &str) -> Result<String, Refusal> {
    decode(alloc, &module_of(alloc, input)?)?;
    words(alloc, "a module")
}

/// Octets as they stand in rows, without those of the header.
fn octets_shown(alloc: Global, octets: &[u8]) -> Result<String, AllocError> {
    let mut text = String::from_str(alloc, "written")?;
    for octet in octets.iter().skip(8) {
        text.push_str(&format!(in alloc; " {octet:02X}")?)?;
    }
    Ok(text)
}

fn again(alloc: Global, input: &str) -> Result<String, Refusal> {
    let module = decode(alloc, &module_of(alloc, input)?)?;
    let octets = encode(alloc, &module)?;
    Ok(octets_shown(alloc, &octets)?)
}

fn valid(alloc: Global, input: &str) -> Result<String, Refusal> {
    let octets = module_of(alloc, input)?;
    validate(alloc, decode(alloc, &octets)?)?;
    words(alloc, "valid")
}

fn call(alloc: Global, input: &str) -> Result<String, Refusal> {
    let octets = module_of(alloc, input)?;
    call_of(alloc, &octets, 0)?;
    words(alloc, "called")
}

/// The first word, and the rest.
fn first(input: &str) -> Result<(&str, &str), Refusal> {
    input.split_once(' ').ok_or(Refusal::NotRow)
}

/// The first place refused of the body of function 1.
fn place(alloc: Global, frame: Frame, input: &str) -> Result<String, Refusal> {
    let (left, body) = input.split_once(' ').unwrap_or((input, ""));
    let octets = checked(alloc, frame, left, body)?;
    let module = decode(alloc, &octets)?;
    match validate(alloc, module) {
        Ok(_valid) => words(alloc, "valid"),
        Err(ValidFault::Body { func: 1, at }) => Ok(format!(in alloc; "place {at}")?),
        Err(fault) => Err(fault.into()),
    }
}

fn over_octets(alloc: Global, input: &str) -> Result<String, Refusal> {
    let (at, rest) = first(input)?;
    let (octets, rest) = first(rest)?;
    let (ty, bodies) = first(rest)?;
    let at = number_of(at)?;
    let mut memory = one_page(alloc)?;
    memory
        .store64(at, number_of(octets)?)
        .ok_or(Refusal::NotRow)?;
    let value = value_of(alloc, &mut memory, ty, bodies)?;
    let left = memory.load64(at).ok_or(Refusal::NotRow)?;
    Ok(format!(in alloc; "{value} and {left:#X}")?)
}

fn steps(alloc: Global, input: &str) -> Result<String, Refusal> {
    let (at, rest) = first(input)?;
    let (argument, bodies) = first(rest)?;
    let mut memory = one_page(alloc)?;
    let answers = answers_of(alloc, &mut memory, bodies, short_number(argument)?)?;
    let left = memory.load64(number_of(at)?).ok_or(Refusal::NotRow)?;
    let pages = memory.size();
    Ok(format!(in alloc; "{answers}{pages} pages, {left:#X}")?)
}

fn asks(alloc: Global, input: &str) -> Result<String, Refusal> {
    let (most, rest) = first(input)?;
    let (at, rest) = first(rest)?;
    let (argument, bodies) = first(rest)?;
    let mut memory = one_page(alloc)?;
    let most = short_number(most)?;
    let answers = asks_of(alloc, &mut memory, most, bodies, short_number(argument)?)?;
    let left = memory.load64(number_of(at)?).ok_or(Refusal::NotRow)?;
    let pages = memory.size();
    Ok(format!(in alloc; "{answers}{pages} pages, {left:#X}")?)
}
