//! A whole file, read piece by piece.

use crate::tables::file;
use qw_io::MemoryShelf;
use qw_top::files::{ReadFault, part_file_name, read_whole, table_file_name};
use std::alloc::{AllocError, Global};
use std::test::Fail;

const NAME: &str = "data/sales.csv";

// A shelf of the file of a table, which gives at most two octets a call, and whose call 5 fails.
fn shelf_of_sales(alloc: Global) -> Result<MemoryShelf, AllocError> {
    let name = table_file_name(alloc, "data", "SALES")?;
    let files = vec![in alloc; file(alloc, name.as_str(), b"hello")?]?;
    Ok(MemoryShelf::new(files, 2, Vec::from_slice(alloc, &[5])?))
}

#[test]
fn a_file_is_read_piece_by_piece(rt: HostRuntime) -> Result<(), Fail> {
    let alloc = rt.alloc();
    let mut shelf = shelf_of_sales(alloc)?;
    let whole = read_whole(alloc, &mut shelf, NAME, 5)
        .ok()
        .ok_or("not read")?;
    assert_eq!(rt; whole.as_slice(), b"hello".as_slice());
    let failed = read_whole(alloc, &mut shelf, NAME, 4).err();
    let long = read_whole(alloc, &mut shelf, NAME, 4).err();
    assert_eq!(rt;
        (failed, long),
        (Some(ReadFault::Failed), Some(ReadFault::TooLong))
    );
    Ok(())
}

#[test]
fn a_part_has_its_number_before_the_ending(rt: HostRuntime) -> Result<(), Fail> {
    let name = part_file_name(rt.alloc(), "data", "SALES", 12)?;
    assert_eq!(rt; name.as_str(), "data/sales.12.csv");
    Ok(())
}
