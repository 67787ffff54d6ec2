//! Keys of hash tables: their shapes, and the parts of an entry.

use qw_layout::key::{FieldTy, KeyField, KeyShape, Shape, shape_of};
use qw_layout::row::RowLayout;
use std::process::Abort;
use std::test::Fail;

// A field of each type, twice one.
const FIELDS: [KeyField; 5] = [
    KeyField {
        ty: FieldTy::Integer,
        nullable: false,
    },
    KeyField {
        ty: FieldTy::Number,
        nullable: true,
    },
    KeyField {
        ty: FieldTy::Date,
        nullable: false,
    },
    KeyField {
        ty: FieldTy::Text,
        nullable: true,
    },
    KeyField {
        ty: FieldTy::Integer,
        nullable: true,
    },
];

#[test]
fn shapes_of_keys(rt: HostRuntime) -> Result<(), Fail> {
    let Shape::General(general) = shape_of(rt.alloc(), &FIELDS)?;
    assert_eq!(rt; general.fields(), FIELDS.as_slice());
    assert!(rt; general.places().is_empty());
    Ok(())
}

#[test]
fn parts_of_an_entry(rt: HostRuntime) -> Result<(), Fail> {
    let row = RowLayout::new(rt.alloc(), 2, 3, 2)?;
    assert_eq!(rt; (row.key, row.size), (24, 168));
    assert_eq!(rt; row.columns.as_slice(), [56, 72, 88].as_slice());
    assert_eq!(rt; row.aggregates.as_slice(), [104, 136].as_slice());
    Ok(())
}
