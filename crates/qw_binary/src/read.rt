//! Reading the binary format, construct by construct. A function `x_at` reads an x at the front of octets, and gives it with the
//! octets behind it; nothing calls itself, and nothing is reserved by a count.

pub(crate) mod codes;
pub(crate) mod exports;
pub(crate) mod expression;
pub(crate) mod functions;
pub(crate) mod globals;
pub mod imports;
pub mod instruction;
pub(crate) mod sections;
pub mod types;
