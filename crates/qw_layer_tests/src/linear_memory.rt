//! The linear memory at its edges: accesses of each width at the last addresses, growth and copies.

use qw_linear::linear::{Linear, MAX_PAGES};
use qw_types::NoMemory;
use std::alloc::Global;
use std::process::Abort;
use std::test::Fail;

const NUMBER: u64 = 0x8877_6655_4433_2211;

const OTHER_NUMBER: u64 = 0x0102_0304_0506_0708;

// Growths of a memory with room for three pages, one after the other: by how many, what is answered, and the
// size from then on.
const GROWTHS: [(u32, Option<u32>, u32); 6] = [
    (1, Some(0), 1),
    (0, Some(1), 1),
    (3, None, 1),
    (u32::MAX, None, 1),
    (2, Some(1), 3),
    (1, None, 3),
];

// Last addresses of a memory of one page, and the numbers there once NUMBER is stored in its last eight
// octets: width, address, number.
const ENDS: [(u8, u64, Option<u64>); 8] = [
    (1, 65_535, Some(0x88)),
    (1, 65_536, None),
    (2, 65_534, Some(0x8877)),
    (2, 65_535, None),
    (4, 65_532, Some(0x8877_6655)),
    (4, 65_533, None),
    (8, 65_528, Some(NUMBER)),
    (8, 65_529, None),
];

fn load(memory: &Linear, width: u8, at: u64) -> Option<u64> {
    match width {
        1 => memory.load8(at),
        2 => memory.load16(at),
        4 => memory.load32(at),
        _ => memory.load64(at),
    }
}

fn store(memory: &mut Linear, width: u8, at: u64, number: u64) -> Option<()> {
    match width {
        1 => memory.store8(at, number),
        2 => memory.store16(at, number),
        4 => memory.store32(at, number),
        _ => memory.store64(at, number),
    }
}

/// A memory of one page, and no room for more.
fn one_page(rt: &impl Abort, alloc: Global) -> Result<Linear, NoMemory> {
    let mut memory = Linear::new(alloc, 1)?;
    assert!(rt; memory.grow(1) == Some(0));
    Ok(memory)
}

/// Asserts what is read at an address.
fn assert_load(rt: &impl Abort, memory: &Linear, width: u8, at: u64, number: Option<u64>) {
    assert_eq!(rt; load(memory, width, at), number, "{width} octets at {at}");
}

/// Stores a number, and asserts whether there is room for it.
fn assert_store(rt: &impl Abort, memory: &mut Linear, width: u8, at: u64, number: u64, room: bool) {
    let stored = store(memory, width, at, number).is_some();
    assert!(rt; stored == room, "{width} octets at {at}");
}

#[test]
fn grows_within_its_reservation(rt: HostRuntime) -> Result<(), Fail> {
    let mut memory = Linear::new(rt.alloc(), 3)?;
    assert!(rt; memory.reserved() == 3 && memory.size() == 0);
    assert_load(&rt, &memory, 1, 0, None);
    for &(pages, answer, size) in &GROWTHS {
        assert!(rt; memory.grow(pages) == answer && memory.size() == size);
    }
    Ok(())
}

#[test]
fn reads_what_was_stored_up_to_the_end(rt: HostRuntime) -> Result<(), Fail> {
    let mut memory = one_page(&rt, rt.alloc())?;
    assert_store(&rt, &mut memory, 8, 65_528, NUMBER, true);
    for &(width, at, number) in &ENDS {
        assert_load(&rt, &memory, width, at, number);
    }
    for &(width, at, number) in &ENDS {
        assert_store(&rt, &mut memory, width, at, OTHER_NUMBER, number.is_some());
    }
    assert_load(&rt, &memory, 8, 65_528, Some(OTHER_NUMBER));
    assert_store(&rt, &mut memory, 1, 65_528, 0x1FF, true);
    assert_load(&rt, &memory, 8, 65_528, Some(0x0102_0304_0506_07FF));
    assert_load(&rt, &memory, 8, u64::MAX, None);
    assert_store(&rt, &mut memory, 8, u64::MAX, 0, false);
    Ok(())
}

#[test]
fn copies_up_to_the_end(rt: HostRuntime) -> Result<(), Fail> {
    let mut memory = one_page(&rt, rt.alloc())?;
    assert!(rt; memory.copy_in(65_533, b"abcd").is_none());
    assert_load(&rt, &memory, 4, 65_532, Some(0));
    assert!(rt; memory.copy_in(65_532, b"abcd").is_some());
    assert_load(&rt, &memory, 4, 65_532, Some(0x6463_6261));
    Ok(())
}

// Reserved pages take no memory before they are used, so even the most can be had.
#[test]
fn reserves_the_most_pages(rt: HostRuntime) -> Result<(), Fail> {
    let mut memory = Linear::new(rt.alloc(), MAX_PAGES)?;
    assert!(rt; memory.grow(2) == Some(0) && memory.size() == 2);
    assert_load(&rt, &memory, 8, 2 * 65_536 - 8, Some(0));
    assert_load(&rt, &memory, 8, 2 * 65_536 - 7, None);
    Ok(())
}
