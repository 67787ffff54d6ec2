//! The exceptions of SQL.

/// Why a statement raises an exception (ISO/IEC 9075:1992, 22.1).
#[derive(Clone, Copy, Debug, PartialEq, Eq)]
pub enum Code {
    /// "Data exception: division by zero", SQLSTATE 22012.
    DivZero,
    /// "Data exception: numeric value out of range", SQLSTATE 22003.
    OutOfRange,
}
