// The files of the system, and what a shelf makes of their faults.

use super::device::Device;
use super::{Fetch, assert_fetch, assert_fetches};
use qw_io::{FileShelf, IoFault, Shelf, WatchedShelf};
use std::alloc::Global;
use std::fs;
use std::io::ErrorKind;
use std::process::Abort;
use std::test::Fail;

// How many octets a call asks for in the reading of a whole file.
const PIECE: usize = 65_536;

// Faults of a file, and what the shelf answers.
const FAULTS: [(ErrorKind, IoFault); 3] = [
    (ErrorKind::Other, IoFault::Failed),
    (ErrorKind::UnexpectedEof, IoFault::Failed),
    (ErrorKind::OutOfMemory, IoFault::NoMemory),
];

const SHORT: &str = "file-shelf-short.txt";

const SHORT_FETCHES: [Fetch; 2] = [(SHORT, 1, 8, Ok(b"ello")), (SHORT, 5, 8, Ok(b""))];

const MISSING_FETCHES: [Fetch; 2] = [
    ("missing", 0, 8, Err(IoFault::Failed)),
    (SHORT, 0, 8, Err(IoFault::Failed)),
];

const LONG: &str = "file-shelf-long.txt";

// How many octets it has: 3 MB, more than any power of two that a piece or a count might be cut at below.
const LONG_OCTETS: usize = 3_000_000;

// From its front once more, and from near its end.
const LONG_FETCHES: [Fetch; 2] = [
    (LONG, 0, 3, Ok(&[0, 1, 2])),
    (LONG, 2_999_998, 3, Ok(&[46, 47])),
];

const WATCHED: &str = "file-shelf-watched.txt";

const WATCHED_FETCHES: [Fetch; 3] = [
    (WATCHED, 1, 8, Ok(b"ello")),
    (WATCHED, 4, 2, Ok(b"o")),
    (".", 0, 64, Err(IoFault::Failed)),
];

const VERSION: &str = "file-shelf-version.txt";

// After another name it is opened again, and is the new one.
const VERSION_FETCHES: [Fetch; 2] = [
    ("", 0, 8, Err(IoFault::Failed)),
    (VERSION, 0, 8, Ok(b"another")),
];

const DEVICE_FETCHES: [Fetch; 2] = [("f", 0, 60, Ok(&[7; 60])), ("f", 60, 60, Ok(&[7; 40]))];

// So many octets, no two pieces of them alike.
fn octets(alloc: Global, count: usize) -> Result<Vec<u8>, Fail> {
    let mut octets = Vec::new(alloc);
    for index in 0..count {
        octets.push((index % 251) as u8)?;
    }
    Ok(octets)
}

// Writes a file of so many octets.
fn written(rt: &HostRuntime, name: &str, count: usize) -> Result<Vec<u8>, Fail> {
    let octets = octets(rt.alloc(), count)?;
    fs::write(rt, name, octets.as_slice())?;
    Ok(octets)
}

// Reads a file on behind what was read of it, and answers how many octets came.
fn read_on<F: Shelf>(shelf: &mut F, name: &str, read: &mut Vec<u8>) -> Result<usize, Fail> {
    let mut piece = [0u8; PIECE];
    let count = shelf
        .fetch(name, read.len() as u64, &mut piece)
        .ok()
        .ok_or("a fault")?;
    read.extend_from_slice(&piece[..count])?;
    Ok(count)
}

// Reads the rest of a file on to the end of what was read of it.
fn read_rest<F: Shelf>(shelf: &mut F, name: &str, read: &mut Vec<u8>) -> Result<(), Fail> {
    for _ in 0..64 {
        if read_on(shelf, name, read)? == 0 {
            return Ok(());
        }
    }
    Err("no end".into())
}

#[test]
fn a_short_file_is_read(rt: HostRuntime) -> Result<(), Fail> {
    fs::write(&rt, SHORT, "hello")?;
    let mut shelf = FileShelf::new(rt.alloc(), &rt);
    assert_fetches(&rt, &mut shelf, &SHORT_FETCHES);
    fs::remove_file(&rt, SHORT)?;
    assert_fetches(&rt, &mut shelf, &MISSING_FETCHES);
    Ok(())
}

#[test]
fn a_long_file_is_read_whole(rt: HostRuntime) -> Result<(), Fail> {
    let long = written(&rt, LONG, LONG_OCTETS)?;
    let mut shelf = FileShelf::new(rt.alloc(), &rt);
    let mut read = Vec::new(rt.alloc());
    read_rest(&mut shelf, LONG, &mut read)?;
    assert!(rt; read == long);
    assert_fetches(&rt, &mut shelf, &LONG_FETCHES);
    fs::remove_file(&rt, LONG)?;
    Ok(())
}

// Puts another file at the name.
fn replace(rt: &HostRuntime, name: &str) -> Result<(), Fail> {
    let other = "file-shelf-other.txt";
    fs::write(rt, other, "another")?;
    fs::rename(rt, other, name)?;
    Ok(())
}

// Reads a file of 100,000 octets that loses its name after the first piece.
fn read_replaced<F: Shelf>(rt: &HostRuntime, shelf: &mut F, name: &str) -> Result<Vec<u8>, Fail> {
    let mut read = Vec::new(rt.alloc());
    read_on(shelf, name, &mut read)?;
    replace(rt, name)?;
    read_rest(shelf, name, &mut read)?;
    Ok(read)
}

// Another file has the name once the reading has begun: what is read is the file that had it.
#[test]
fn a_file_is_read_as_one_version(rt: HostRuntime) -> Result<(), Fail> {
    let old = written(&rt, VERSION, 100_000)?;
    let mut shelf = FileShelf::new(rt.alloc(), &rt);
    let read = read_replaced(&rt, &mut shelf, VERSION)?;
    assert!(rt; read == old);
    assert_fetches(&rt, &mut shelf, &VERSION_FETCHES);
    fs::remove_file(&rt, VERSION)?;
    Ok(())
}

#[test]
fn a_folder_is_no_file(rt: HostRuntime) {
    let mut shelf = FileShelf::new(rt.alloc(), &rt);
    assert_fetch(&rt, &mut shelf, ".", 0, 8, Err(IoFault::Failed));
}

// Asserts the calls of a file that fails behind its octets.
fn assert_fault(rt: &impl Abort, alloc: Global, kind: ErrorKind, fault: IoFault) {
    let device = Device::new(100, kind);
    let mut shelf = FileShelf::new(alloc, &device);
    assert_fetches(rt, &mut shelf, &DEVICE_FETCHES);
    assert_fetch(rt, &mut shelf, "f", 100, 60, Err(fault));
    // It was closed, and this file can't be opened twice.
    assert_fetch(rt, &mut shelf, "f", 100, 60, Err(IoFault::Failed));
}

// A fault in mid-file is answered, and isn't the end of the file. One opening and no seek serve the reading.
#[test]
fn a_fault_in_mid_file(rt: HostRuntime) {
    for &(kind, fault) in &FAULTS {
        assert_fault(&rt, rt.alloc(), kind, fault);
    }
}

// The furthest call counts, whatever it gave; a call for another file doesn't.
#[test]
fn a_watched_file_is_asked_for(rt: HostRuntime) -> Result<(), Fail> {
    fs::write(&rt, WATCHED, "hello")?;
    let name = String::from_str(rt.alloc(), WATCHED)?;
    let mut shelf = WatchedShelf::new(FileShelf::new(rt.alloc(), &rt), name);
    assert_fetches(&rt, &mut shelf, &WATCHED_FETCHES);
    assert_eq!(rt; shelf.asked_to(), 9);
    fs::remove_file(&rt, WATCHED)?;
    Ok(())
}
