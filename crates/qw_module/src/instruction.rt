/// A value type (WebAssembly Core Specification 1.0, 2.3.1).
#[derive(Clone, Copy, Debug, PartialEq, Eq)]
pub enum ValType {
    I32,
    I64,
}

/// The type of a block: its result, if it has one (2.3.2).
pub type BlockType = Option<ValType>;

/// How the bits of an operand are read where the instruction says so (2.4.1, `sx`).
#[derive(Clone, Copy, Debug, PartialEq, Eq)]
pub enum Sign {
    Signed,
    Unsigned,
}

/// A constant: its type and its unsigned reading (2.4.1, `t.const`).
#[derive(Clone, Copy, Debug, PartialEq, Eq)]
pub enum Const {
    I32(u32),
    I64(u64),
}

/// An operator from one operand to a result of its type (2.4.1, `iunop`): it counts bits.
#[derive(Clone, Copy, Debug, PartialEq, Eq)]
pub enum Unary {
    /// The zeros above the highest bit that is 1; all bits of 0.
    Clz,
    /// The zeros below the lowest bit that is 1; all bits of 0.
    Ctz,
    /// The bits that are 1.
    Popcnt,
}

/// An operator from two operands to a result of their type, which there always is (2.4.1, `ibinop`).
/// Shifts and rotations are by the second operand modulo the number of bits.
#[derive(Clone, Copy, Debug, PartialEq, Eq)]
pub enum Binary {
    Add,
    Sub,
    Mul,
    And,
    Or,
    Xor,
    Shl,
    Shr(Sign),
    Rotl,
    Rotr,
}

/// An operator from two operands to a result of their type, which there isn't for a divisor of 0 (2.4.1,
/// `ibinop`).
#[derive(Clone, Copy, Debug, PartialEq, Eq)]
pub enum Division {
    /// The quotient, rounded toward zero. There is none either where it is no value of the type.
    Div(Sign),
    /// The remainder, with the sign of the dividend.
    Rem(Sign),
}

/// A comparison of two operands of one type, whose result is 1 or 0 of type i32 (2.4.1, `irelop`).
#[derive(Clone, Copy, Debug, PartialEq, Eq)]
pub enum Relation {
    Eq,
    Ne,
    Lt(Sign),
    Gt(Sign),
    Le(Sign),
    Ge(Sign),
}

/// An operator from an operand of one type to a result of another (2.4.1, `cvtop`).
#[derive(Clone, Copy, Debug, PartialEq, Eq)]
pub enum Conversion {
    /// From i64 to i32: the low bits.
    Wrap,
    /// From i32 to i64, by the sign.
    Extend(Sign),
}

/// A load: the type of its result, and how many octets it reads as what (2.4.4).
#[derive(Clone, Copy, Debug, PartialEq, Eq)]
pub enum Load {
    /// All octets of a value.
    Full(ValType),
    /// One octet, extended by the sign.
    From8(ValType, Sign),
    /// Two octets, extended by the sign.
    From16(ValType, Sign),
    /// Four octets, extended to an i64 by the sign.
    I64From32(Sign),
}

/// A store: the type of its operand, and how many of its low octets it writes (2.4.4).
#[derive(Clone, Copy, Debug, PartialEq, Eq)]
pub enum Store {
    /// All octets of a value.
    Full(ValType),
    To8(ValType),
    To16(ValType),
    /// Four octets of an i64.
    I64To32,
}

/// The immediates of an access: the alignment hint as an exponent of 2, and the offset that is added
/// to the address operand (2.4.4, `memarg`). In the definitions both are any natural numbers.
#[derive(Clone, Copy, Debug, PartialEq, Eq)]
pub struct MemArg {
    /// The exponent: an access of 2^`align` octets is expected to be aligned. It changes no result.
    pub align: u32,
    /// Octets that are added to the address, without wrapping.
    pub offset: u32,
}

/// What `memory.grow` gives where it is refused: -1, read as an unsigned number (4.4.4).
pub const REFUSAL: u32 = u32::MAX;

/// An instruction that holds no other, after which the next of its sequence comes in the same function.
#[derive(Clone, Copy, Debug, PartialEq, Eq)]
pub enum Op {
    Nop,
    /// Takes an operand of any type (2.4.2).
    Drop,
    /// Of two operands of one type, the first where the i32 above them isn't 0, else the second (2.4.2).
    Select,
    LocalGet(u32),
    LocalSet(u32),
    LocalTee(u32),
    GlobalGet(u32),
    GlobalSet(u32),
    Const(Const),
    Unary(ValType, Unary),
    Binary(ValType, Binary),
    Division(ValType, Division),
    /// Whether an operand is 0 (2.4.1, `itestop`): 1 or 0 of type i32.
    Eqz(ValType),
    Relation(ValType, Relation),
    Convert(Conversion),
    Load(Load, MemArg),
    Store(Store, MemArg),
    /// The number of pages of the memory (2.4.4, `memory.size`).
    MemorySize,
    /// A request for as many pages as its operand says; its result is the number of pages before, or
    /// [`REFUSAL`] (2.4.4, `memory.grow`).
    MemoryGrow,
}

/// An instruction of a numbered body (2.4). A block, loop or if names its inner sequences by their
/// numbers in the body, each lower than the number of the sequence that the instruction stands in.
#[derive(Clone, Copy, Debug, PartialEq, Eq)]
pub enum Instr {
    Op(Op),
    /// Traps (2.4.5).
    Unreachable,
    Block {
        result: BlockType,
        body: usize,
    },
    Loop {
        result: BlockType,
        body: usize,
    },
    If {
        result: BlockType,
        then_body: usize,
        /// `None` where no `else` is written; then the other sequence is empty.
        else_body: Option<usize>,
    },
    /// A branch to the label of this index, counted from the innermost, 0.
    Br(u32),
    /// The same, where the operand is not 0.
    BrIf(u32),
    /// A branch by the operand: to one of `count` labels, which stand in the body's `labels` from `first` on,
    /// or to `default` where the operand isn't below `count`.
    BrTable {
        first: usize,
        count: usize,
        default: u32,
    },
    /// Leaves the function (2.4.5).
    Return,
    /// A call of a function by its index, which counts the imported functions first (2.4.5).
    Call(u32),
}
