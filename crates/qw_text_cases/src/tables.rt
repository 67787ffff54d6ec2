//! Tables as they could be declared.

use qw_types::{Column, Table, Ty};
use std::alloc::{AllocError, Global};

/// The type as it could be declared.
fn shown_type(alloc: Global, ty: Ty) -> Result<String, AllocError> {
    match ty {
        Ty::Integer => String::from_str(alloc, "INTEGER"),
        Ty::Decimal { precision, scale } => format!(in alloc; "DECIMAL({precision},{scale})"),
        Ty::Date => String::from_str(alloc, "DATE"),
        Ty::Varchar { length } => format!(in alloc; "VARCHAR({length})"),
    }
}

/// Adds the column as it could be declared.
fn put_column(alloc: Global, text: &mut String, column: &Column) -> Result<(), AllocError> {
    text.push_str(column.name.as_str())?;
    text.push_str(" ")?;
    text.push_str(&shown_type(alloc, column.ty)?)?;
    if column.not_null {
        text.push_str(" NOT NULL")?;
    }
    Ok(())
}

/// Adds the table as it could be declared.
fn put_table(alloc: Global, text: &mut String, table: &Table) -> Result<(), AllocError> {
    text.push_str(table.name.as_str())?;
    let mut before = "(";
    for column in table.columns.as_slice() {
        text.push_str(before)?;
        put_column(alloc, text, column)?;
        before = ",";
    }
    text.push_str(")")
}

/// The tables as they could be declared, with `;` between each two.
pub fn shown_tables(alloc: Global, tables: &[Table]) -> Result<String, AllocError> {
    let mut text = String::new(alloc);
    for table in tables {
        if !text.is_empty() {
            text.push_str(";")?;
        }
        put_table(alloc, &mut text, table)?;
    }
    Ok(text)
}
