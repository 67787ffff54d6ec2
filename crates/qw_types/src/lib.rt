//! The values, rows and schemas that every other crate speaks of.
//!
//! - [`truth::Truth`]: truth of three values; [`truth::and`], [`truth::or`], [`truth::not`].
//! - [`arithmetic`]: exact arithmetic on whole numbers with scales; [`code::Code`]: the exceptions that it raises.
//! - [`value_laws`]: what holds of both, and worked cases.
//! - [`digits`]: whether octets are digits.
//! - [`numeral::read_number`], [`numeral::read_integer`], [`date_text::read_date`]: a number or a date from its text.
//! - [`number_text::decimal_text`]: the text of a number.
//! - [`value::Ty`] and [`value::Val`]: a column's type, and a value of a row.
//! - [`kind::Kind`]: number with a scale, date or text, and that a type's values are of its kind.
//! - [`text::Text`]: a text, which contracts see as its octets; [`text_order`]: how texts compare.
//! - [`like::is_like`]: whether a text matches a pattern.
//! - [`row::Row`]: the values of one row, which contracts see as a list.
//! - [`schema::Schema`]: the declared tables, each with its columns.
//! - [`value_order_laws`], [`like_laws`], [`worked_laws`]: laws of the order of values and of LIKE, and worked cases of the definitions.
//!
//! The limits on counts and the rule that names differ are kept by the types.
#![tactic(auto)]

pub mod arithmetic;
pub mod code;
pub mod date_text;
pub mod digits;
pub mod kind;
pub mod like;
pub mod like_laws;

pub use qw_base::memory;

pub mod number_text;
pub mod numeral;
mod power;
pub mod row;
pub mod schema;
mod short_number;
pub mod text;
pub mod text_order;
pub mod truth;
pub mod value;
pub mod value_laws;
pub mod value_order_laws;
pub mod worked_laws;

pub use code::Code;
pub use kind::Kind;
pub use numeral::FieldFault;
pub use qw_base::NoMemory;
pub use row::Row;
pub use schema::{Column, ColumnType, Columns, Schema, Table};
pub use text::Text;
pub use truth::Truth;
pub use value::{Ty, Val};
