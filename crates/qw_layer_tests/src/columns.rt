// The octets of columns, written out by hand from docs/FORMATS.md, and values read back.

ghost use Rattle.std.specs.Prelude.{◌≡◌, IfOk, IsSome, IsTrue, List, length};
ghost use Rattle.std.specs.List.{AllByRecursion};
ghost use Rattle.qw_types.specs.Contents.{Contents};
ghost use Rattle.qw_types.specs.Schema.{AreColumns};
ghost use Rattle.qw_types.specs.Value.{IsSized};
ghost use Rattle.qw_columns.specs.Mapped.{IsMapOf, value_in};

use qw_columns::{ColumnMap, PlaceFault, pages_needed, place, value_at};
use qw_csv::loading::{load, load_parts};
use qw_csv::{Cell, Loaded};
use qw_linear::linear::{Linear, PAGE};
use qw_types::{Column, Columns, NoMemory, Table, Text, Ty, Val};
use std::alloc::{AllocError, Global};
use std::process::Abort;
use std::test::Fail;

const MONEY: Ty = Ty::Decimal {
    precision: 9,
    scale: 2,
};

const LABEL: Ty = Ty::Varchar { length: 10 };

// Of tables of one column A: its type, whether it is NOT NULL, the file, and the octets from 64 on, behind which are zeros.
const COLUMNS: [(Ty, bool, &[u8], &[u8]); 12] = [
    (Ty::Integer, true, b"A\n", b""),
    (LABEL, true, b"A\n", b""),
    (
        Ty::Integer,
        true,
        b"A\n4\n-1\n256\n",
        b"\x04\0\0\0\xFF\xFF\xFF\xFF\0\x01\0\0",
    ),
    (Ty::Integer, false, b"A\n\"\"\n", b"\0\0\0\0\0\0\0\0\x01"),
    (Ty::Integer, false, b"A\n7\n", b"\x07\0\0\0"),
    (
        Ty::Integer,
        false,
        b"A\n1\n\"\"\n3\n\"\"\n5\n6\n7\n\"\"\n",
        b"\x01\0\0\0\0\0\0\0\x03\0\0\0\0\0\0\0\x05\0\0\0\x06\0\0\0\x07\0\0\0\0\0\0\0\x8A",
    ),
    (
        Ty::Integer,
        false,
        b"A\n1\n2\n3\n4\n5\n6\n7\n8\n\"\"\n",
        b"\x01\0\0\0\x02\0\0\0\x03\0\0\0\x04\0\0\0\x05\0\0\0\x06\0\0\0\x07\0\0\0\x08\0\0\0\0\0\0\0\0\0\0\0\0\x01",
    ),
    (
        MONEY,
        true,
        b"A\n10.00\n-.5\n",
        b"\xE8\x03\0\0\0\0\0\0\xCE\xFF\xFF\xFF\xFF\xFF\xFF\xFF",
    ),
    (
        Ty::Date,
        true,
        b"A\n1998-08-15\n1924-02-29\n",
        b"\x0F\xE2\x30\x01\x25\x95\x25\x01",
    ),
    (
        Ty::Date,
        false,
        b"A\n1998-08-15\n\"\"\n",
        b"\x0F\xE2\x30\x01\0\0\0\0\x02",
    ),
    (
        LABEL,
        true,
        b"A\n\"\"\n\xC3\x9F\nab\n",
        b"\0\0\0\0\0\0\0\0\x02\0\0\0\x04\0\0\0\xC3\x9Fab",
    ),
    (
        LABEL,
        false,
        b"A\npen\n\"\"\nink\n",
        b"\0\0\0\0\x03\0\0\0\x03\0\0\0\x06\0\0\0penink\0\0\x02",
    ),
];

const ITEM_FILE: &[u8] =
    b"ID,PRICE,SOLD,LABEL\n1,10.00,1998-08-15,pen\n2,,,ink\n3,0.50,1999-01-02,\n";

// The same in two parts, the second of which has a byte order mark, where NULL stands for null.
const FIRST_PART: &[u8] = b"ID,PRICE,SOLD,LABEL\n1,10.00,1998-08-15,pen\n2,NULL,NULL,ink\n";

const SECOND_PART: &[u8] = b"\xEF\xBB\xBFid,price,sold,label\n3,0.50,1999-01-02,\"NULL\"";

// The table ITEM from 64 on, and behind it the table of one column and one row.
const TWO_TABLES: &[u8] = b"\x01\0\0\0\x02\0\0\0\x03\0\0\0\0\0\0\0\
\xE8\x03\0\0\0\0\0\0\0\0\0\0\0\0\0\0\x32\0\0\0\0\0\0\0\x02\0\0\0\0\0\0\0\
\x0F\xE2\x30\x01\0\0\0\0\x56\x06\x31\x01\0\0\0\0\x02\0\0\0\0\0\0\0\
\0\0\0\0\x03\0\0\0\x06\0\0\0\x06\0\0\0penink\0\0\x04\0\0\0\0\0\0\0\
\x07\0\0\0";

// By table, column and row.
const VALUES: [((usize, usize, usize), Cell<'static>); 13] = [
    ((0, 0, 0), Cell::Num(1)),
    ((0, 0, 1), Cell::Num(2)),
    ((0, 0, 2), Cell::Num(3)),
    ((0, 1, 0), Cell::Num(1_000)),
    ((0, 1, 1), Cell::Null),
    ((0, 1, 2), Cell::Num(50)),
    ((0, 2, 0), Cell::Date(19_980_815)),
    ((0, 2, 1), Cell::Null),
    ((0, 2, 2), Cell::Date(19_990_102)),
    ((0, 3, 0), Cell::Text(b"pen")),
    ((0, 3, 1), Cell::Text(b"ink")),
    ((0, 3, 2), Cell::Null),
    ((1, 0, 0), Cell::Num(7)),
];

/// A column of a name and a type.
pub(crate) fn column(
    alloc: Global,
    name: &str,
    ty: Ty,
    not_null: bool,
) -> Result<Column, AllocError>
    ensures { IfOk result (λ c. (c.name ≡ name.now) × (c.ty ≡ ty) × (c.not_null ≡ not_null)) }
{
    Ok(Column {
        name: Text::new(String::from_str(alloc, name)?),
        ty,
        not_null,
    })
}

/// CREATE TABLE T ( columns )
pub(crate) fn table(alloc: Global, columns: Vec<Column>) -> Result<Table, AllocError>
    requires { AreColumns columns.items }
    ensures { IfOk result (λ table. table.columns ≡ columns.items) }
{
    Ok(Table {
        name: Text::new(String::from_str(alloc, "T")?),
        columns: Columns::new(columns),
    })
}

/// CREATE TABLE T ( A .. )
fn narrow(alloc: Global, ty: Ty, not_null: bool) -> Result<Table, AllocError>
    requires { IsSized ty }
{
    let columns = vec![in alloc; column(alloc, "A", ty, not_null)?]?;
    table(alloc, columns)
}

/// CREATE TABLE T ( ID INTEGER NOT NULL , PRICE DECIMAL(9,2) , SOLD DATE , LABEL VARCHAR(10) )
fn item(alloc: Global) -> Result<Table, AllocError> {
    let columns = vec![in alloc;
        column(alloc, "ID", Ty::Integer, true)?,
        column(alloc, "PRICE", MONEY, false)?,
        column(alloc, "SOLD", Ty::Date, false)?,
        column(alloc, "LABEL", LABEL, false)?,
    ]?;
    table(alloc, columns)
}

fn is_sized(ty: Ty) -> bool
    ensures { IsTrue result → IsSized ty }
{
    match ty {
        Ty::Integer | Ty::Date => true,
        Ty::Decimal { precision, scale } => {
            1 <= precision && precision <= 18 && scale <= precision
        }
        Ty::Varchar { length } => 1 <= length && length <= 1000,
    }
}

/// Whether all octets of the first page from an address on are 0.
fn is_zero_from(memory: &Linear, at: u64) -> bool {
    let Some(rest) = memory.octets_at(at, (PAGE as u64).saturating_sub(at)) else {
        return false;
    };
    for octet in rest {
        if *octet != 0 {
            return false;
        }
    }
    true
}

/// Whether there is such a row of a column of a table.
fn is_there(tables: &[Loaded], at: (usize, usize, usize)) -> bool
    ensures { IsTrue result → IsSome (value_in tables.now at.0 at.1 at.2) }
{
    let (table, column, row) = at;
    if table < tables.len() && column < tables[table].width() && row < tables[table].len() {
        let _cell = tables[table].cell(row, column);
        return true;
    }
    false
}

/// Whether there are all of these rows.
fn are_there(tables: &[Loaded], values: &[((usize, usize, usize), Cell<'static>)]) -> bool
    ensures { IsTrue result → AllByRecursion (λ value. IsSome (value_in tables.now value.0.0 value.0.1 value.0.2)) values.now }
{
    match values {
        [] => true,
        [one, others @ ..] => is_there(tables, one.0) && are_there(tables, others),
    }
}

/// Whether a value is that of the cell.
fn is_same(value: &Val, cell: &Cell<'_>) -> bool {
    match (value, cell) {
        (Val::Null, Cell::Null) => true,
        (Val::Num(one), Cell::Num(other)) => *one == *other,
        (Val::Date(one), Cell::Date(other)) => *one == *other,
        (Val::Text(one), Cell::Text(other)) => one.as_str().as_bytes() == *other,
        _ => false,
    }
}

/// Asserts the octets of a memory of one page from 64 on, behind which are zeros.
fn assert_octets(rt: &impl Abort, memory: &Linear, octets: &[u8]) {
    let size = octets.len() as u64;
    assert_eq!(rt; memory.octets_at(64, size), Some(octets));
    assert!(rt; is_zero_from(memory, 64 + size));
}

/// A table that is read from a file, alone.
fn loaded(alloc: Global, table: &Table, file: &[u8]) -> Result<Vec<Loaded>, Fail>
    ensures { IfOk result (λ tables. length tables.items ≡ 1) }
{
    let table = load(alloc, table, file)?;
    Ok(vec![in alloc; table]?)
}

/// The memory of a table that is read from a file.
fn placed(alloc: Global, table: &Table, file: &[u8]) -> Result<Linear, Fail> {
    let tables = loaded(alloc, table, file)?;
    let mut memory = Linear::new(alloc, 2)?;
    place(alloc, tables, &mut memory)?;
    Ok(memory)
}

#[test]
fn octets_of_columns(rt: HostRuntime) -> Result<(), Fail> {
    for &(ty, not_null, file, octets) in &COLUMNS {
        assert!(rt; is_sized(ty));
        let table = narrow(rt.alloc(), ty, not_null)?;
        let memory = placed(rt.alloc(), &table, file)?;
        assert_eq!(rt; memory.size(), 1);
        assert_octets(&rt, &memory, octets);
    }
    Ok(())
}

/// The tables of ITEM, and of one column and one row.
fn two_loaded(alloc: Global) -> Result<Vec<Loaded>, Fail>
    ensures { IfOk result (λ tables. length tables.items ≡ 2) }
{
    let first = load(alloc, &item(alloc)?, ITEM_FILE)?;
    let second = load(alloc, &narrow(alloc, Ty::Integer, true)?, b"A\n7\n")?;
    Ok(vec![in alloc; first, second]?)
}

/// Asserts the values of rows.
fn assert_values(
    rt: &impl Abort,
    alloc: Global,
    memory: &Linear,
    map: &ColumnMap,
    values: &[((usize, usize, usize), Cell<'static>)],
) -> Result<(), NoMemory>
    requires { (tables : List Contents) × IsMapOf map.now memory.now.octets tables
        × AllByRecursion (λ value. IsSome (value_in tables value.0.0 value.0.1 value.0.2)) values.now }
{
    let [one, others @ ..] = values else {
        return Ok(());
    };
    let (table, column, row) = one.0;
    let value = value_at(alloc, memory, map, table, column, row)?;
    assert!(rt; is_same(&value, &one.1), "{:?}", one.0);
    assert_values(rt, alloc, memory, map, others)
}

#[test]
fn two_tables(rt: HostRuntime) -> Result<(), Fail> {
    let tables = two_loaded(rt.alloc())?;
    assert!(rt; are_there(&tables, &VALUES));
    let mut memory = Linear::new(rt.alloc(), 1)?;
    let map = place(rt.alloc(), tables, &mut memory)?;
    assert_octets(&rt, &memory, TWO_TABLES);
    Ok(assert_values(&rt, rt.alloc(), &memory, &map, &VALUES)?)
}

/// The tables of ITEM in parts, and of one column and one row.
fn parts_loaded(alloc: Global) -> Result<Vec<Loaded>, Fail>
    ensures { IfOk result (λ tables. length tables.items ≡ 2) }
{
    let parts = vec![in alloc;
        Vec::from_slice(alloc, FIRST_PART)?,
        Vec::from_slice(alloc, SECOND_PART)?,
    ]?;
    let null = Some(b"NULL".as_slice());
    let first = load_parts(alloc, &item(alloc)?, parts.as_slice(), null)?;
    let second = load(alloc, &narrow(alloc, Ty::Integer, true)?, b"A\n7\n")?;
    Ok(vec![in alloc; first, second]?)
}

#[test]
fn a_table_in_parts(rt: HostRuntime) -> Result<(), Fail> {
    let tables = parts_loaded(rt.alloc())?;
    let mut memory = Linear::new(rt.alloc(), 1)?;
    place(rt.alloc(), tables, &mut memory)?;
    assert_octets(&rt, &memory, TWO_TABLES);
    Ok(())
}

#[test]
fn no_room(rt: HostRuntime) -> Result<(), Fail> {
    let table = narrow(rt.alloc(), Ty::Integer, true)?;
    let tables = loaded(rt.alloc(), &table, b"A\n")?;
    assert!(rt; pages_needed(tables.as_slice()) == 1);
    let mut memory = Linear::new(rt.alloc(), 0)?;
    let fault = place(rt.alloc(), tables, &mut memory).err();
    assert!(rt; fault == Some(PlaceFault::TooManyPages { need: 1 }));
    assert!(rt; memory.size() == 0);
    Ok(())
}
