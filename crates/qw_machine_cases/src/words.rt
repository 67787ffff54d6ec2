//! Bodies as octets (WebAssembly Core Specification 1.0, 5.4): the words of instructions, and their immediates.

use crate::refusal::Refusal;
use std::alloc::AllocError;

/// What the words stand for: instructions (5.4), and the results of blocks (5.3.2).
static WORDS: [(&str, u8); 106] = [
    ("-", 0x40),
    ("i32", 0x7F),
    ("i64", 0x7E),
    ("unreachable", 0x00),
    ("nop", 0x01),
    ("block", 0x02),
    ("loop", 0x03),
    ("if", 0x04),
    ("else", 0x05),
    ("end", 0x0B),
    ("br", 0x0C),
    ("br_if", 0x0D),
    ("br_table", 0x0E),
    ("return", 0x0F),
    ("call", 0x10),
    ("drop", 0x1A),
    ("select", 0x1B),
    ("local.get", 0x20),
    ("local.set", 0x21),
    ("local.tee", 0x22),
    ("global.get", 0x23),
    ("global.set", 0x24),
    ("i32.load", 0x28),
    ("i64.load", 0x29),
    ("i32.load8_s", 0x2C),
    ("i32.load8_u", 0x2D),
    ("i32.load16_s", 0x2E),
    ("i32.load16_u", 0x2F),
    ("i64.load8_s", 0x30),
    ("i64.load8_u", 0x31),
    ("i64.load16_s", 0x32),
    ("i64.load16_u", 0x33),
    ("i64.load32_s", 0x34),
    ("i64.load32_u", 0x35),
    ("i32.store", 0x36),
    ("i64.store", 0x37),
    ("i32.store8", 0x3A),
    ("i32.store16", 0x3B),
    ("i64.store8", 0x3C),
    ("i64.store16", 0x3D),
    ("i64.store32", 0x3E),
    ("memory.size", 0x3F),
    ("memory.grow", 0x40),
    ("i32.const", 0x41),
    ("i64.const", 0x42),
    ("i32.eqz", 0x45),
    ("i32.eq", 0x46),
    ("i32.ne", 0x47),
    ("i32.lt_s", 0x48),
    ("i32.lt_u", 0x49),
    ("i32.gt_s", 0x4A),
    ("i32.gt_u", 0x4B),
    ("i32.le_s", 0x4C),
    ("i32.le_u", 0x4D),
    ("i32.ge_s", 0x4E),
    ("i32.ge_u", 0x4F),
    ("i64.eqz", 0x50),
    ("i64.eq", 0x51),
    ("i64.ne", 0x52),
    ("i64.lt_s", 0x53),
    ("i64.lt_u", 0x54),
    ("i64.gt_s", 0x55),
    ("i64.gt_u", 0x56),
    ("i64.le_s", 0x57),
    ("i64.le_u", 0x58),
    ("i64.ge_s", 0x59),
    ("i64.ge_u", 0x5A),
    ("i32.clz", 0x67),
    ("i32.ctz", 0x68),
    ("i32.popcnt", 0x69),
    ("i32.add", 0x6A),
    ("i32.sub", 0x6B),
    ("i32.mul", 0x6C),
    ("i32.div_s", 0x6D),
    ("i32.div_u", 0x6E),
    ("i32.rem_s", 0x6F),
    ("i32.rem_u", 0x70),
    ("i32.and", 0x71),
    ("i32.or", 0x72),
    ("i32.xor", 0x73),
    ("i32.shl", 0x74),
    ("i32.shr_s", 0x75),
    ("i32.shr_u", 0x76),
    ("i32.rotl", 0x77),
    ("i32.rotr", 0x78),
    ("i64.clz", 0x79),
    ("i64.ctz", 0x7A),
    ("i64.popcnt", 0x7B),
    ("i64.add", 0x7C),
    ("i64.sub", 0x7D),
    ("i64.mul", 0x7E),
    ("i64.div_s", 0x7F),
    ("i64.div_u", 0x80),
    ("i64.rem_s", 0x81),
    ("i64.rem_u", 0x82),
    ("i64.and", 0x83),
    ("i64.or", 0x84),
    ("i64.xor", 0x85),
    ("i64.shl", 0x86),
    ("i64.shr_s", 0x87),
    ("i64.shr_u", 0x88),
    ("i64.rotl", 0x89),
    ("i64.rotr", 0x8A),
    ("i32.wrap_i64", 0xA7),
    ("i64.extend_i32_s", 0xAC),
    ("i64.extend_i32_u", 0xAD),
];

/// The octet that a word stands for, where it is none of a number.
fn octet_of(word: &str) -> Option<u8> {
    for &(name, octet) in &WORDS {
        if name == word {
            return Some(octet);
        }
    }
    None
}

/// The number that digits to the base 16 are.
fn hexadecimal(digits: &str) -> Option<u64> {
    let mut number = 0u64;
    for digit in digits.chars() {
        let digit = digit.to_digit(16)?;
        number = number.checked_mul(16)?.checked_add(u64::from(digit))?;
    }
    Some(number)
}

/// A number: decimal digits, or `0x` and others.
pub fn number_of(word: &str) -> Result<u64, Refusal> {
    let number = match word.strip_prefix("0x") {
        Some(digits) => hexadecimal(digits),
        None => word.parse().ok(),
    };
    number.ok_or(Refusal::NotRow)
}

/// A number below 2^32.
pub fn short_number(word: &str) -> Result<u32, Refusal> {
    u32::try_from(number_of(word)?).map_err(|_| Refusal::NotRow)
}

/// Adds octets that are written as two digits each.
pub fn put_octets(out: &mut Vec<u8>, words: &str) -> Result<(), Refusal> {
    for word in words.split_whitespace() {
        let octet = hexadecimal(word).and_then(|number| u8::try_from(number).ok());
        out.push(octet.ok_or(Refusal::NotRow)?)?;
    }
    Ok(())
}

/// Adds the seven lowest bits of a number for each octet, and one octet more than is told; so many are enough for a number of the type (5.2.2).
pub fn put_number(out: &mut Vec<u8>, number: i64, more: u32) -> Result<(), AllocError> {
    let mut rest = number;
    for _ in 0..more {
        out.push((rest & 0x7F) as u8 | 0x80)?;
        rest >>= 7;
    }
    out.push((rest & 0x7F) as u8)?;
    Ok(())
}

/// Adds a number below 2^32.
pub fn put_short(out: &mut Vec<u8>, number: u32) -> Result<(), AllocError> {
    put_number(out, i64::from(number), 4)
}

/// What the numbers behind a word are.
#[derive(Clone, Copy)]
enum Immediate {
    /// Below 2^32: indices, alignments, offsets.
    Short,
    /// A constant of type i32, and one of type i64.
    I32,
    I64,
}

/// What the numbers behind a word are.
fn immediate_of(word: &str) -> Immediate {
    match word {
        "i32.const" => Immediate::I32,
        "i64.const" => Immediate::I64,
        _ => Immediate::Short,
    }
}

/// Adds the number of a word.
fn put_immediate(out: &mut Vec<u8>, immediate: Immediate, word: &str) -> Result<(), Refusal> {
    match immediate {
        Immediate::Short => put_short(out, short_number(word)?)?,
        Immediate::I32 => {
            let number = short_number(word)?;
            put_number(out, i64::from(number.cast_signed()), 4)?;
        }
        Immediate::I64 => put_number(out, number_of(word)?.cast_signed(), 9)?,
    }
    Ok(())
}

/// Adds the octet of a word, and the one behind that of an instruction on the memory as a whole (5.4.6).
fn put_word(out: &mut Vec<u8>, word: &str, octet: u8) -> Result<(), AllocError> {
    out.push(octet)?;
    if word == "memory.size" || word == "memory.grow" {
        out.push(0x00)?;
    }
    Ok(())
}

/// Adds the octets of a body's words.
pub fn put_words(out: &mut Vec<u8>, words: &str) -> Result<(), Refusal> {
    let mut immediate = Immediate::Short;
    for word in words.split_whitespace() {
        match octet_of(word) {
            Some(octet) => put_word(out, word, octet)?,
            None => put_immediate(out, immediate, word)?,
        }
        immediate = immediate_of(word);
    }
    Ok(())
}
