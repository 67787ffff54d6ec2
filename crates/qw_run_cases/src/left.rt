//! What a run leaves: the pages that an instance holds, the pages of the memory, and octets in it.

use crate::fault::CaseFault;
use crate::text::{number_of, push_octets};
use qw_bench::bench::Bench;
use qw_linear::linear::Linear;
use std::alloc::Global;

/// Whether there is a bench, and it is as a line wants it.
pub fn is_as_wanted(
    alloc: Global,
    bench: Option<&Bench>,
    key: &str,
    rest: &str,
) -> Result<bool, CaseFault> {
    let bench = bench.ok_or(CaseFault::Line)?;
    match key {
        "held" => holds(bench, rest),
        "size" => has_size(bench, rest),
        "octets" => has_octets(alloc, bench.memory(), rest),
        _ => Err(CaseFault::Line),
    }
}

fn holds(bench: &Bench, rest: &str) -> Result<bool, CaseFault> {
    let (number, rest) = number_of(rest)?;
    let (pages, _) = number_of(rest)?;
    Ok(held(bench, number as usize) == Some(pages))
}

fn has_size(bench: &Bench, rest: &str) -> Result<bool, CaseFault> {
    let (pages, _) = number_of(rest)?;
    Ok(u64::from(bench.memory().size()) == pages)
}

fn has_octets(alloc: Global, memory: &Linear, rest: &str) -> Result<bool, CaseFault> {
    let (address, rest) = number_of(rest)?;
    let mut octets = Vec::new(alloc);
    push_octets(&mut octets, rest)?;
    Ok(has_all(memory, address, octets.as_slice()))
}

// How many pages the instance of a number holds, from 1 on.
fn held(bench: &Bench, number: usize) -> Option<u64> {
    let place = number.checked_sub(1)?;
    if place < bench.len() {
        Some(u64::from(bench.pages(place)))
    } else {
        None
    }
}

// Whether a memory has these octets, eight by eight, from an address on.
fn has_all(memory: &Linear, address: u64, octets: &[u8]) -> bool {
    let mut at = address;
    for eight in octets.chunks(8) {
        if !has_eight(memory, at, eight) {
            return false;
        }
        at = at.saturating_add(8);
    }
    true
}

fn has_eight(memory: &Linear, address: u64, octets: &[u8]) -> bool {
    match memory.load64(address) {
        Some(word) => word.to_le_bytes().as_slice() == octets,
        None => false,
    }
}
