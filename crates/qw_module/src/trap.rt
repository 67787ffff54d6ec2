/// Why an instruction traps (WebAssembly Core Specification 1.0, 4.4). The standard has one trap; which
/// premise failed is told here.
#[derive(Clone, Copy, Debug, PartialEq, Eq)]
pub enum Trap {
    /// `unreachable` was executed (4.4.5).
    Unreachable,
    /// An access isn't wholly inside the memory (4.4.4).
    OutOfBounds,
    /// The divisor is 0 (4.3.2).
    DivideByZero,
    /// A signed quotient is no value of its type (4.3.2, `idiv_s`).
    Overflow,
}
