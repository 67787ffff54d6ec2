//! Digits.

ghost use Rattle.std.specs.Prelude.{◌≡◌};
ghost use Rattle.std.specs.Char.{is_ascii_digit};
ghost use Rattle.std.specs.List.{list_all};
ghost use Rattle.qw_types.specs.Digits.{are_digits};

/// Whether the octets are digits, one or more.
pub fn are_digits(octets: &[u8]) -> bool
    ensures { result ≡ are_digits octets.now }
{
    !octets.is_empty() && all_digits(octets)
}

/// Whether each octet is a digit.
fn all_digits(octets: &[u8]) -> bool
    ensures { result ≡ list_all is_ascii_digit octets.now }
{
    octets.iter().all(u8::is_ascii_digit)
}
