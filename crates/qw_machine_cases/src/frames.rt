//! Modules around bodies, as octets (WebAssembly Core Specification 1.0, 5.5).

use crate::refusal::Refusal;
use crate::words::{put_number, put_octets, put_short, put_words};
use std::alloc::{AllocError, Global};

/// The header (5.5.15).
const HEADER: [u8; 8] = [0x00, 0x61, 0x73, 0x6D, 0x01, 0x00, 0x00, 0x00];

/// Where a row's modules differ from those of other rows.
#[derive(Clone, Copy)]
pub struct Frame {
    /// The section of imports.
    imports: &'static [u8],
    /// The locals of the body, behind its parameters.
    locals: &'static [u8],
}

/// Two i64, no i32, and one i32.
const LOCALS: [u8; 7] = [0x03, 0x02, 0x7E, 0x00, 0x7F, 0x01, 0x7F];

/// A memory of at least one page, and `raise` of type 0.
const IMPORTS: &[u8] = b"\x02\x17\x02\x01q\x06memory\x02\x00\x01\x01q\x05raise\x00\x00";

/// The frame of most rows.
pub const USUAL: Frame = Frame {
    imports: IMPORTS,
    locals: &LOCALS,
};

/// One without a memory.
pub const BARE: Frame = Frame {
    imports: b"\x02\x0B\x01\x01q\x05raise\x00\x00",
    locals: &LOCALS,
};

/// One whose body has 2^32 - 3 locals of type i32 and one of type i64, behind its parameters.
pub const MANY: Frame = Frame {
    imports: IMPORTS,
    locals: &[0x02, 0xFD, 0xFF, 0xFF, 0xFF, 0x0F, 0x7F, 0x01, 0x7E],
};

/// A section of an id, by what it holds.
fn put_section(out: &mut Vec<u8>, id: u8, contents: &[u8]) -> Result<(), AllocError> {
    out.push(id)?;
    put_long(out, contents)
}

/// Octets behind their number.
fn put_long(out: &mut Vec<u8>, octets: &[u8]) -> Result<(), AllocError> {
    put_number(out, octets.len() as i64, 4)?;
    out.extend_from_slice(octets)
}

/// Octets behind the header.
pub fn module_of(alloc: Global, words: &str) -> Result<Vec<u8>, Refusal> {
    let mut module = Vec::new(alloc);
    module.extend_from_slice(&HEADER)?;
    put_octets(&mut module, words)?;
    Ok(module)
}

/// What a function leaves (5.3.3).
fn result_of(word: &str) -> Result<&'static [u8], Refusal> {
    match word {
        "-" => Ok(&[0x00]),
        "i32" => Ok(&[0x01, 0x7F]),
        "i64" => Ok(&[0x01, 0x7E]),
        _ => Err(Refusal::NotRow),
    }
}

/// The types of `raise`, from i32 to nothing; of the body, from i32 and i64 to its result; and of function 2, to i64.
fn put_checked_types(out: &mut Vec<u8>, alloc: Global, left: &[u8]) -> Result<(), AllocError> {
    let mut types = Vec::new(alloc);
    types.extend_from_slice(&[0x03, 0x60, 0x01, 0x7F, 0x00, 0x60, 0x02, 0x7F, 0x7E])?;
    types.extend_from_slice(left)?;
    types.extend_from_slice(&[0x60, 0x02, 0x7F, 0x7E, 0x01, 0x7E])?;
    put_section(out, 0x01, &types)
}

/// The code of a function with these locals (5.5.13), whose body is words between octets.
fn put_code(
    out: &mut Vec<u8>,
    alloc: Global,
    locals: &[u8],
    words: &str,
    around: (&[u8], &[u8]),
) -> Result<(), Refusal> {
    let mut code = Vec::new(alloc);
    code.extend_from_slice(locals)?;
    code.extend_from_slice(around.0)?;
    put_words(&mut code, words)?;
    code.extend_from_slice(around.1)?;
    code.push(0x0B)?;
    put_long(out, &code)?;
    Ok(())
}

/// The code of the body and of function 2.
fn put_checked_code(
    out: &mut Vec<u8>,
    alloc: Global,
    locals: &[u8],
    words: &str,
) -> Result<(), Refusal> {
    let mut codes = vec![in alloc; 0x02]?;
    put_code(&mut codes, alloc, locals, words, (&[], &[]))?;
    put_code(&mut codes, alloc, &LOCALS, "local.get 3", (&[], &[]))?;
    put_section(out, 0x0A, &codes)?;
    Ok(())
}

/// A module whose function of index 1 has this result and body. The function of index 0 is `raise`, that of index 2 takes an i32 and an i64
/// to an i64. Its globals are an i32 that may be set, and an i64 that may not.
pub fn checked(alloc: Global, frame: Frame, left: &str, words: &str) -> Result<Vec<u8>, Refusal> {
    let mut out = Vec::new(alloc);
    out.extend_from_slice(&HEADER)?;
    put_checked_types(&mut out, alloc, result_of(left)?)?;
    out.extend_from_slice(frame.imports)?;
    out.extend_from_slice(&[0x03, 0x03, 0x02, 0x01, 0x02])?;
    out.extend_from_slice(&[
        0x06, 0x0B, 0x02, 0x7F, 0x01, 0x41, 0x00, 0x0B, 0x7E, 0x00, 0x42, 0x00, 0x0B,
    ])?;
    put_checked_code(&mut out, alloc, frame.locals, words)?;
    Ok(out)
}

/// How many functions there are before the last body.
fn helpers_of(helpers: &str) -> u32 {
    let mut count = 0u32;
    for _ in helpers.chars().filter(|c| *c == ';') {
        count = count.saturating_add(1);
    }
    count
}

/// The type of each function's body: 1 of those before the last one, whose type is 0.
fn put_function_types(out: &mut Vec<u8>, alloc: Global, helpers: u32) -> Result<(), AllocError> {
    let mut types = Vec::new(alloc);
    put_short(&mut types, helpers.saturating_add(1))?;
    for _ in 0..helpers {
        types.push(0x01)?;
    }
    types.push(0x00)?;
    put_section(out, 0x03, &types)
}

/// The function of an index, exported as `run` (5.5.10).
fn put_run(out: &mut Vec<u8>, alloc: Global, index: u32) -> Result<(), AllocError> {
    let mut exports = Vec::new(alloc);
    exports.extend_from_slice(b"\x01\x03run\x00")?;
    put_short(&mut exports, index)?;
    put_section(out, 0x07, &exports)
}

/// The bodies, each ended by `;` but the last one, which is put between octets.
fn put_codes(
    out: &mut Vec<u8>,
    alloc: Global,
    bodies: &str,
    around: (&[u8], &[u8]),
) -> Result<(), Refusal> {
    let (helpers, last) = bodies.rsplit_once(';').unwrap_or(("", bodies));
    let mut codes = Vec::new(alloc);
    put_short(&mut codes, helpers_of(bodies).saturating_add(1))?;
    if helpers_of(bodies) > 0 {
        for helper in helpers.split(';') {
            put_code(&mut codes, alloc, &LOCALS, helper, (&[], &[]))?;
        }
    }
    put_code(&mut codes, alloc, &LOCALS, last, around)?;
    put_section(out, 0x0A, &codes)?;
    Ok(())
}

/// What a module that is called imports.
#[derive(Clone, Copy)]
pub struct Linked {
    /// The section of its types: the first one, of `raise` and of `run`, from i32 to nothing, and the second one from two i64 to one.
    types: &'static [u8],
    /// The section of imports.
    imports: &'static [u8],
    /// How many functions it imports.
    functions: u32,
}

/// A memory and `raise`.
pub const RAISING: Linked = Linked {
    types: &[
        0x01, 0x0B, 0x02, 0x60, 0x01, 0x7F, 0x00, 0x60, 0x02, 0x7E, 0x7E, 0x01, 0x7E,
    ],
    imports: IMPORTS,
    functions: 1,
};

/// `pages`, from i32 to i32, then a memory and `raise`.
pub const ASKING: Linked = Linked {
    types: &[
        0x01, 0x10, 0x03, 0x60, 0x01, 0x7F, 0x00, 0x60, 0x02, 0x7E, 0x7E, 0x01, 0x7E, 0x60, 0x01,
        0x7F, 0x01, 0x7F,
    ],
    imports: b"\x02\x21\x03\x01q\x05pages\x00\x02\x01q\x06memory\x02\x00\x01\x01q\x05raise\x00\x00",
    functions: 2,
};

/// A module of the shape that is executed. Its functions are those that it imports; those of the bodies before the last one, each from two
/// i64 to one; and `run`, whose body is the last one between octets. Its globals are an i64 that begins as 5 and may be set, and an i32 that is 9.
pub fn called(
    alloc: Global,
    linked: Linked,
    bodies: &str,
    around: (&[u8], &[u8]),
) -> Result<Vec<u8>, Refusal> {
    let helpers = helpers_of(bodies);
    let mut out = Vec::new(alloc);
    out.extend_from_slice(&HEADER)?;
    out.extend_from_slice(linked.types)?;
    out.extend_from_slice(linked.imports)?;
    put_function_types(&mut out, alloc, helpers)?;
    out.extend_from_slice(&[
        0x06, 0x0B, 0x02, 0x7E, 0x01, 0x42, 0x05, 0x0B, 0x7F, 0x00, 0x41, 0x09, 0x0B,
    ])?;
    put_run(&mut out, alloc, helpers.saturating_add(linked.functions))?;
    put_codes(&mut out, alloc, bodies, around)?;
    Ok(out)
}
