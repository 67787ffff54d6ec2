//! Expressions read for their end alone, with nothing kept of them (WebAssembly Core Specification 1.0, 5.4.1 and 5.4.6).

ghost use Rattle.std.specs.Prelude.{◌≡◌, [], ◌∷◌, Ok};
ghost use Rattle.qw_octet_grammar.specs.Grammar.{goes_on};
ghost use Rattle.qw_octet_grammar.specs.Reading.{Gives, read};
ghost use Rattle.qw_octet_grammar.specs.Numbers.{u32 as u32_grammar};
ghost use Rattle.qw_binary.specs.Instructions.{expression};
ghost use Rattle.qw_scan.specs.Read.{mapped, passed_over};
ghost use Rattle.qw_scan.specs.Inner.Passing.{over, all_over, vector_over};
ghost use Rattle.qw_scan.specs.Inner.Shapes.{shape_after_end, shape_after_else, shape, shapes, turns_in, after_code};

use qw_binary::read::instruction::simple_at;
use qw_binary::read::types::block_type_at;
use qw_octet_grammar::fault::BinaryFault;
use qw_octet_grammar::numbers::u32_at;
use std::alloc::Global;

/// What follows so many numbers of 32 bits.
fn behind_numbers(count: u32, octets: &[u8]) -> Result<&[u8], BinaryFault>
    ensures { Gives (λ rest. (tt, rest.now)) result (read (all_over count (over u32_grammar)) octets.now) }
{
    let mut rest = octets;
    for _ in 0..count {
        let (_, after) = u32_at(rest)?;
        rest = after;
    }
    Ok(rest)
}

/// What follows a vector of numbers of 32 bits.
#[tactic(auto, unfolding(qw_octet_grammar::specs::Reading::read))]
pub(crate) fn behind_number_vector(octets: &[u8]) -> Result<&[u8], BinaryFault>
    ensures { Gives (λ rest. (tt, rest.now)) result (read (vector_over (over u32_grammar)) octets.now) }
{
    let (count, rest) = u32_at(octets)?;
    behind_numbers(count, rest)
}

/// The sequences that are open within the outermost one of an expression.
#[derive(Drop)]
struct Shape {
    /// Of each, the outermost first, whether an `else` may end it.
    turns: Vec<bool>,
    /// How many were open at most.
    deepest: usize,
}

impl Shape {
    fn new(alloc: Global) -> Shape
        ensures { turns_in result ≡ [] }
    {
        Shape {
            turns: Vec::new(alloc),
            deepest: 0,
        }
    }

    /// Ends the innermost sequence; whether it was the outermost one.
    fn end(&mut self) -> bool
        ensures { after_code result (turns_in self.new) ≡ shape_after_end (turns_in self.old) }
    {
        self.turns.pop().is_none()
    }

    /// Ends the first sequence of an `if`, where it is one, and begins the second.
    fn turn(&mut self) -> Result<(), BinaryFault>
        ensures { Gives (λ _. goes_on (turns_in self.new)) result (shape_after_else (turns_in self.old)) }
    {
        match self.turns.pop() {
            Some(true) => {
                self.turns.push(false)?;
                Ok(())
            }
            _ => Err(BinaryFault::NotModule),
        }
    }

    /// Begins a sequence.
    fn begin(&mut self, may_turn: bool) -> Result<(), BinaryFault>
        ensures { Gives (λ _. turns_in self.new) result (Ok (may_turn ∷ turns_in self.old)) }
    {
        self.turns.push(may_turn)?;
        self.deepest = self.deepest.max(self.turns.len());
        Ok(())
    }

    /// What stands behind a code; whether it was the last end.
    #[tactic(auto, unfolding(qw_octet_grammar::specs::Reading::read))]
    fn step<'a>(&mut self, code: u8, octets: &'a [u8]) -> Result<(bool, &'a [u8]), BinaryFault>
        ensures { Gives (λ x. (after_code x.0 (turns_in self.new), x.1.now)) result (read (shape (turns_in self.old) code) octets.now) }
    {
        match code {
            0x0B => Ok((self.end(), octets)),
            0x05 => {
                self.turn()?;
                Ok((false, octets))
            }
            0x02 => {
                let (_, rest) = block_type_at(octets)?;
                self.begin(false)?;
                Ok((false, rest))
            }
            0x03 => {
                let (_, rest) = block_type_at(octets)?;
                self.begin(false)?;
                Ok((false, rest))
            }
            0x04 => {
                let (_, rest) = block_type_at(octets)?;
                self.begin(true)?;
                Ok((false, rest))
            }
            0x0E => {
                let rest = behind_number_vector(octets)?;
                let (_, rest) = u32_at(rest)?;
                Ok((false, rest))
            }
            _ => {
                let (_, rest) = simple_at(code, octets)?;
                Ok((false, rest))
            }
        }
    }
}

/// What follows the last end of an expression, and how many sequences are open at most within its outermost one.
pub(crate) fn behind_shapes(alloc: Global, octets: &[u8]) -> Result<(usize, &[u8]), BinaryFault>
    ensures { Gives (λ x. (tt, x.1.now)) result (read shapes octets.now) }
{
    let mut shape = Shape::new(alloc);
    let mut rest = octets;
    // An instruction takes an octet at least.
    for _ in 0..octets.len() + 1 {
        match rest {
            [] => return Err(BinaryFault::NotModule),
            [code, behind @ ..] => {
                let (last, after) = shape.step(*code, behind)?;
                rest = after;
                if last {
                    return Ok((shape.deepest, rest));
                }
            }
        }
    }
    Err(BinaryFault::NotModule)
}

/// What follows an expression, and how many sequences are open at most within its outermost one.
///
/// # Errors
///
/// The first construct that no rule allows, and `NoMemory`.
#[tactic(auto, using(crate::proofs::SameShapes::same_shapes))]
pub fn behind_expression(alloc: Global, octets: &[u8]) -> Result<(usize, &[u8]), BinaryFault>
    ensures { Gives (λ x. (tt, x.1.now)) result (mapped passed_over (read expression octets.now)) }
{
    behind_shapes(alloc, octets)
}
