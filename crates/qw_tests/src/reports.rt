// Parts of a report of queries without rows. That the calls don't answer want of memory is what no clause says.

use qw_sink::sink::{with_exception, with_pages, with_steps};
use qw_types::{Code, NoMemory};
use std::alloc::Global;
use std::test::Fail;

const OTHER_ENDS: &[u8] =
    b"before\nQUERY 1 PAGES 128 2 129\nQUERY 2 SQLSTATE 22012\nQUERY 3 SQLSTATE 22003\nQUERY 10 STEPS 999999999999999999\n";

// A report of queries without rows, behind a line.
fn report_of_other_ends(alloc: Global) -> Result<Vec<u8>, NoMemory> {
    let report = Vec::from_slice(alloc, b"before\n")?;
    let report = with_pages(alloc, report, 1, 128, 2, 129)?;
    let report = with_exception(alloc, report, 2, Code::DivZero)?;
    let report = with_exception(alloc, report, 3, Code::OutOfRange)?;
    with_steps(alloc, report, 10, 999_999_999_999_999_999)
}

#[test]
fn other_ends(rt: HostRuntime) -> Result<(), Fail> {
    let report = report_of_other_ends(rt.alloc())?;
    assert_eq!(rt; report.as_slice(), OTHER_ENDS);
    Ok(())
}
