//! The steps that Low is built of in the code: flat, with marks where a choice or a loop begins and ends.

use qw_module::instruction::Op;

/// A step. Steps stand one after another as their instructions do, so blocks are composed by appending them. Which of
/// them are Low, `specs/Steps` says: loads and stores are instructions of [`LowStep::Op`] whose address lies in a part.
#[derive(Clone, Copy, Debug, PartialEq, Eq)]
pub enum LowStep {
    /// An instruction of an expression, an assignment, a load or a store.
    Op(Op),
    /// Begins what is done unless the operand is 0. It ends at `Else` or `End`.
    If,
    /// Begins what is done where the operand is 0.
    Else,
    /// Begins a loop.
    Loop,
    /// At the end of a loop: the loop again, unless the operand is 0.
    Again,
    /// Ends an `If` or a `Loop`.
    End,
    /// Asks the host for as many pages as the operand says.
    Ask,
    /// Raises a code.
    Raise(u32),
    /// Ends the run.
    Exit,
}
