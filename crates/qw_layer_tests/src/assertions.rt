//! Assertions that several modules make. Each is proved once, however many tests call it.

use std::process::Abort;

/// Asserts a text.
pub(crate) fn assert_text(rt: &impl Abort, found: &str, expected: &str) {
    assert_eq!(rt; found, expected);
}

/// Asserts octets.
pub(crate) fn assert_octets(rt: &impl Abort, found: &[u8], expected: &[u8]) {
    assert_eq!(rt; found, expected);
}
