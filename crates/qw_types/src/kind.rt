//! The kinds of values, and what ties them to types.

ghost use Rattle.std.specs.Prelude.{◌≡◌, List, map};
ghost use Rattle.std.specs.List.{AllByRecursion, AllZip};
ghost use Rattle.qw_types.specs.Kind.{IsOfKind, IsRowOf, type_kind};
ghost use Rattle.qw_types.specs.Value.{IsOfColumn, IsOfType, IsSized};
ghost use Rattle.qw_types.specs.declared.schema.Column.{Column};
ghost use Rattle.qw_types.specs.declared.value.Ty.{Ty};
ghost use Rattle.qw_types.specs.declared.value.Val.{Val};

use crate::value::Ty;

/// What values are compared and computed with (ISO/IEC 9075:1992, 4.1 "Data types"): values of one kind are comparable
/// (4.2, 4.4, 4.5), those of two kinds aren't.
#[derive(Clone, Copy, Debug, PartialEq, Eq)]
pub enum Kind {
    /// Numbers, with so many digits after the point: their scale, from 0 to 18.
    Number(u8),
    /// Dates.
    Date,
    /// Texts.
    Text,
}

impl Kind {
    /// The kind of a type's values.
    pub fn of_type(ty: Ty) -> Self
        ensures { result ≡ type_kind ty }
    {
        match ty {
            Ty::Integer => Kind::Number(0),
            Ty::Decimal { scale, .. } => Kind::Number(scale),
            Ty::Date => Kind::Date,
            Ty::Varchar { .. } => Kind::Text,
        }
    }
}

/// A value of a type, of a size that types may have, is of the type's kind; so is a value of a column, null or not; and a row of a
/// table's columns is one of their kinds.
pub fn values_are_of_their_kind()
    ensures of_type { (ty : Ty) (value : Val) → IsSized ty → IsOfType ty value → IsOfKind (type_kind ty) value }
    ensures of_column { (column : Column) (value : Val) → IsSized column.ty → IsOfColumn column value → IsOfKind (type_kind column.ty) value }
    ensures of_row { (columns : List Column) (row : List Val) → AllByRecursion (λ (c : Column). IsSized c.ty) columns → AllZip IsOfColumn columns row
        → IsRowOf (map (λ (c : Column). type_kind c.ty) columns) row }
{}
