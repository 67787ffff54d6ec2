//! Truth of three values (ISO/IEC 9075:1992, 8.12).

ghost use Rattle.std.specs.Prelude.{◌≡◌};
ghost use Rattle.qw_types.specs.Truth.{conjunction, disjunction, negation};

/// The truth of a condition.
#[derive(Clone, Copy, Debug, PartialEq, Eq)]
pub enum Truth {
    True,
    False,
    /// As of a comparison with null.
    Unknown,
}

/// `a AND b`.
pub fn and(a: Truth, b: Truth) -> Truth
    ensures { result ≡ conjunction a b }
{
    match (a, b) {
        (Truth::False, _) | (_, Truth::False) => Truth::False,
        (Truth::True, Truth::True) => Truth::True,
        _ => Truth::Unknown,
    }
}

/// `a OR b`.
pub fn or(a: Truth, b: Truth) -> Truth
    ensures { result ≡ disjunction a b }
{
    match (a, b) {
        (Truth::True, _) | (_, Truth::True) => Truth::True,
        (Truth::False, Truth::False) => Truth::False,
        _ => Truth::Unknown,
    }
}

/// `NOT a`.
pub fn not(a: Truth) -> Truth
    ensures { result ≡ negation a }
{
    match a {
        Truth::True => Truth::False,
        Truth::False => Truth::True,
        Truth::Unknown => Truth::Unknown,
    }
}
