// Runs over a table file of exactly its greatest length, and over one of an octet more, which is the table's one file or its second
// part. That memory suffices for them is what no clause says.

use crate::tables::{WORDS, call, shelf, sink};
use qw_io::{IoFault, MemoryShelf, Shelf};
use qw_top::status::Status;
use std::alloc::Global;
use std::process::Abort;
use std::test::Fail;

// A shelf whose table file has so many octets, and the second part of the table too: a column A, a row of 7, and line feeds behind
// them. They are made as they are read, since a shelf in memory would hold them beside the text that is read of them. The first part
// ends behind the row.
#[derive(Drop)]
struct LongTable {
    texts: MemoryShelf,
    octets: u64,
}

impl Shelf for LongTable {
    ghost use Rattle.std.specs.Prelude.{None};

    ghost files = { λ _. None };

    ghost faults = { λ s. ⟦<MemoryShelf as Shelf>⟧.faults s.texts };

    fn fetch(&mut self, name: &str, at: u64, into: &mut [u8]) -> Result<usize, IoFault> {
        let octets = if name == "d/t.1.csv" {
            4
        } else if name == "d/t.csv" || name == "d/t.2.csv" {
            self.octets
        } else {
            return self.texts.fetch(name, at, into);
        };
        let left = octets.saturating_sub(at);
        let count = into.len().min(left as usize);
        into[..count].fill(b'\n');
        if at == 0 && count >= 4 {
            into[..4].copy_from_slice(b"A\n7\n");
        }
        Ok(count)
    }
}

// The words of a run over a table in two parts.
const PARTS: [&str; 5] = ["run", "s", "d", "q", "--parts=2"];

// How a run of these words ends over a table file of so many octets: its end, what is written and noted, and whether a bench is kept.
const LENGTHS: [(&[&str], u64, Status, &[u8], &[u8], bool); 4] = [
    (
        &WORDS,
        268_435_456,
        Status::Done,
        b"QUERY 1 ROWS 1\nA\n7\n",
        b"",
        true,
    ),
    (
        &WORDS,
        268_435_457,
        Status::TableFileRefused,
        b"",
        b"T: too long\n",
        false,
    ),
    (
        &PARTS,
        268_435_456,
        Status::Done,
        b"QUERY 1 ROWS 2\nA\n7\n7\n",
        b"",
        true,
    ),
    (
        &PARTS,
        268_435_457,
        Status::TableFileRefused,
        b"",
        b"T part 2: too long\n",
        false,
    ),
];

fn assert_ends(
    rt: &impl Abort,
    alloc: Global,
    words: &[&str],
    octets: u64,
    end: (Status, &[u8], &[u8], bool),
) -> Result<(), Fail> {
    let schema = b"CREATE TABLE T (A INTEGER NOT NULL)";
    let texts = shelf(alloc, schema, b"", b"SELECT A FROM T WHERE A > 5")?;
    let mut files = LongTable { texts, octets };
    let (mut out, mut notes) = (sink(alloc, 4_096), sink(alloc, 1));
    let (status, kept) = call(alloc, &mut files, words, &mut out, &mut notes)?;
    assert_eq!(rt; (status, out.bytes(), notes.bytes(), kept.is_some()), end);
    Ok(())
}

#[test]
fn table_files_of_the_greatest_length(rt: HostRuntime) -> Result<(), Fail> {
    for &(words, octets, status, report, noted, keeps) in &LENGTHS {
        assert_ends(
            &rt,
            rt.alloc(),
            words,
            octets,
            (status, report, noted, keeps),
        )?;
    }
    Ok(())
}
