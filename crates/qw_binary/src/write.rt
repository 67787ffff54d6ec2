//! Writing the binary format, construct by construct. A function `put_x` puts the octets of an x behind those before; nothing calls
//! itself. Numbers are written in the least number of octets.

mod codes;
pub mod exports;
mod expression;
pub mod functions;
pub mod globals;
pub mod imports;
mod instruction;
pub mod sections;
pub mod types;
