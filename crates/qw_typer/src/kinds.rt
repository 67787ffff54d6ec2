//! Tests of kinds (ISO/IEC 9075:1992, 4.1, 8.2, 9.3).

ghost use Rattle.std.specs.Prelude.{◌≡◌};
ghost use Rattle.qw_typer.specs.Inner.Typing.{kind_scale};
ghost use Rattle.qw_scalar.specs.Typing.{agree, are_comparable, is_date, is_number, joined};

use qw_types::Kind;

/// Whether values are numbers.
pub(crate) fn is_number(kind: Option<Kind>) -> bool
    ensures { result ≡ is_number kind }
{
    matches!(kind, Some(Kind::Number(_)))
}

/// Whether values are dates.
pub(crate) fn is_date(kind: Option<Kind>) -> bool
    ensures { result ≡ is_date kind }
{
    matches!(kind, Some(Kind::Date))
}

/// Whether values of two kinds compare.
pub(crate) fn are_comparable(kind: Option<Kind>, other: Option<Kind>) -> bool
    ensures { result ≡ are_comparable kind other }
{
    match (kind, other) {
        (Some(Kind::Number(_)), Some(Kind::Number(_))) => true,
        (Some(Kind::Date), Some(Kind::Date)) | (Some(Kind::Text), Some(Kind::Text)) => true,
        _ => false,
    }
}

/// Whether results of two kinds are of one, or one of them is null.
pub(crate) fn agree(kind: Option<Kind>, other: Option<Kind>) -> bool
    ensures { result ≡ agree kind other }
{
    match (kind, other) {
        (None, _) | (_, None) => true,
        _ => are_comparable(kind, other),
    }
}

/// The kind of two results.
pub(crate) fn joined(kind: Option<Kind>, other: Option<Kind>) -> Option<Kind>
    ensures { result ≡ joined kind other }
{
    match (kind, other) {
        (None, _) => other,
        (Some(Kind::Number(a)), Some(Kind::Number(b))) => Some(Kind::Number(a.max(b))),
        (Some(_), _) => kind,
    }
}

/// The scale of a kind, 0 where it is no number.
pub(crate) fn scale(kind: Option<Kind>) -> u8
    ensures { result ≡ kind_scale kind }
{
    match kind {
        Some(Kind::Number(scale)) => scale,
        Some(Kind::Date) | Some(Kind::Text) | None => 0,
    }
}
