ghost use Rattle.std.specs.Prelude.{◌≡◌};
ghost use Rattle.qw_types.specs.Value.{type_scale};

use crate::text::Text;

/// The type of a column (ISO/IEC 9075:1992, 6.1 "data type"). Which values it has is `IsOfType` of
/// `specs/Value`.
#[derive(Clone, Copy, Debug, PartialEq, Eq)]
pub enum Ty {
    /// A whole number from -2^31 to 2^31 - 1 (ISO/IEC 9075:1992, 4.4 "Numbers").
    Integer,
    /// An exact number of at most `precision` digits (1 to 18), `scale` of them after the point.
    Decimal { precision: u8, scale: u8 },
    /// A date of the years 1 to 9999.
    Date,
    /// A text of at most `length` characters (1 to 1,000).
    Varchar { length: u16 },
}

impl Ty {
    /// The scale: how many digits after the point the numbers of the type have, 0 where its values are no numbers.
    pub fn scale(self) -> u8
        ensures { result ≡ type_scale self }
    {
        match self {
            Ty::Decimal { scale, .. } => scale,
            Ty::Integer | Ty::Date | Ty::Varchar { .. } => 0,
        }
    }
}

/// A value of a row.
#[derive(Clone, Debug, Drop)]
pub enum Val {
    /// The null value.
    Null,
    /// A number, as the whole number that it is at its column's scale.
    Num(i64),
    /// A date, as year * 10000 + month * 100 + day.
    Date(i32),
    /// A text.
    Text(Text),
}
