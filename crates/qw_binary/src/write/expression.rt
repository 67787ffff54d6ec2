//! Expressions, whose sequences are written without recursion (WebAssembly Core Specification 1.0, 5.4.1 and 5.4.6). A body is
//! written only if its sequences have the numbers that a reader gives them; it is checked as it is written.

ghost use Rattle.std.specs.Prelude.{◌≡◌, ◌⊎◌, ◌↔◌, ◌<◌, ◌≤◌, ◌+◌, ◌^◌, ℕ, List, Option, ◌++◌, IfSome, IfOk, IfErr, OnOk, MatchOption, Some, false, true, ◌∷◌, [], length, reverse, slice_get};
ghost use Rattle.qw_octet_grammar.specs.Grammar.{goes_on, ends, octet};
ghost use Rattle.qw_octet_grammar.specs.Writing.{Puts};
ghost use Rattle.qw_module.specs.Syntax.{Sequences, sequence_at, labels_in};
ghost use Rattle.qw_module.specs.Validity.{sequences_of};
ghost use Rattle.qw_binary.specs.Instructions.{at_first, begun, first as first_opener, instruction as instruction_grammar, instruction_of, expression, Progress};
ghost use Rattle.qw_module.specs.declared.instruction.Instr.{Instr as AnyInstr};
ghost use Rattle.qw_module.specs.declared.instruction.Instr.TheVariants as i;
ghost use Rattle.qw_module.specs.declared.instruction.ValType.{ValType as AnyType};
ghost use Rattle.qw_octet_grammar.specs.Grammar.{Spells};
ghost use Rattle.qw_octet_grammar.specs.declared.write.WriteFault.TheVariants.{NotSpelled};
ghost use Rattle.qw_binary.specs.declared.read.expression.Opener.TheVariants as by;
ghost use Rattle.qw_binary.specs.Inner.Codes.{IsOpening};
ghost use Rattle.qw_binary.specs.Inner.Followed.{IsAlone, IsFresh, Holds, Stands, IsAt, IsDead, Passes};
ghost use Rattle.qw_binary.specs.Inner.Reader.{opener_of};
ghost use Rattle.qw_binary.specs.Inner.Writer.{progress_of, within_open, next_of};

use crate::read::expression::Opener;
use crate::write::instruction::put_simple;
use crate::write::types::put_block_type;
use qw_module::instruction::{BlockType, Instr, ValType};
use qw_module::module::Body;
use qw_octet_grammar::write::{WriteFault, put_number_vector, put_u32};
use std::alloc::{AllocError, Global};

/// A sequence that is open round another one.
#[derive(Drop)]
struct Around {
    /// What opened that other one.
    opener: Opener,
    /// The number of the sequence.
    sequence: usize,
    /// The place of the instruction that holds the other one.
    place: usize,
}

/// An expression that is being written.
#[derive(Drop)]
struct Writer {
    /// How many sequences have ended, those of the lowest numbers.
    ended: usize,
    /// How many labels the `br_table`s so far have, the first ones.
    labels: usize,
    /// The sequences that are open round the present one, the outermost first.
    around: Vec<Around>,
    /// The number of the present sequence.
    sequence: usize,
    /// The place in it of what comes next.
    place: usize,
}

/// The instruction at a place of a sequence.
fn instruction_at(body: &Body, sequence: usize, place: usize) -> Option<Instr>
    ensures found { result ≡ slice_get (sequence_at (sequences_of body.now) sequence) place }
    ensures next_place { IfSome result (λ _. place + 1 < 2 ^ 64) }
{
    body.sequences.get(sequence)?.get(place).copied()
}

/// Whether two types of blocks are the same.
fn is_same(left: BlockType, right: BlockType) -> bool
    ensures { (result ≡ true) ↔ (left ≡ right) }
{
    match (left, right) {
        (None, None) => true,
        (Some(ValType::I32), Some(ValType::I32)) | (Some(ValType::I64), Some(ValType::I64)) => true,
        _ => false,
    }
}

/// Whether an instruction is that of a sequence that was opened so and has this number.
fn holds(instruction: Instr, opener: Opener, number: usize) -> bool
    ensures { (result ≡ true) ↔ (instruction ≡ instruction_of (opener_of opener) number) }
{
    match (opener, instruction) {
        (Opener::Block(ty), Instr::Block { result, body }) => is_same(result, ty) && body == number,
        (Opener::Loop(ty), Instr::Loop { result, body }) => is_same(result, ty) && body == number,
        (
            Opener::First(ty),
            Instr::If {
                result,
                then_body,
                else_body: None,
            },
        ) => is_same(result, ty) && then_body == number,
        (
            Opener::Second(ty, first),
            Instr::If {
                result,
                then_body,
                else_body: Some(second),
            },
        ) => { is_same(result, ty) && then_body == first && second == number }
        _ => false,
    }
}

/// So many labels from the first one on.
fn labels_at(body: &Body, first: usize, count: usize) -> Option<&[u32]>
    ensures { MatchOption result (length (sequences_of body.now).labels < first + count) (λ labels. (labels.now ≡ labels_in (sequences_of body.now).labels first count) × (first + count ≤ length (sequences_of body.now).labels)) }
{
    body.labels.get(first..)?.get(..count)
}

/// The second sequence of an `if`, and its opener, where the first one ends that was opened so and has this number.
fn other_of(opener: Opener, holder: Instr, number: usize) -> Option<(Opener, usize)>
    ensures { MatchOption result
        ((ty : Option AnyType) (then_body second : ℕ) (own : Option AnyType) → opener_of opener ≡ first_opener ty → holder ≡ i.If own then_body (Some second) → ⊥)
        (λ x. (ty own : Option AnyType) × (then_body : ℕ) × (opener_of opener ≡ first_opener ty) × (holder ≡ i.If own then_body (Some x.1)) × (x.0 ≡ by.Second ty number)) }
{
    match (opener, holder) {
        (
            Opener::First(ty),
            Instr::If {
                else_body: Some(second),
                ..
            },
        ) => Some((Opener::Second(ty, number), second)),
        _ => None,
    }
}

/// The code and the type of what opens a sequence by a code of its own.
fn opening(opener: Opener) -> (u8, BlockType)
    requires { IsFresh (opener_of opener) }
    ensures { IsOpening result.0 result.1 (opener_of opener) }
{
    match opener {
        Opener::Block(ty) => (0x02, ty),
        Opener::Loop(ty) => (0x03, ty),
        Opener::First(ty) => (0x04, ty),
        Opener::Second(..) => unreachable!(),
    }
}

/// Writes the code and the type of a sequence that begins.
#[tactic(auto, using(crate::proofs::WriteCodes::instruction_put))]
fn put_opening(opener: Opener, out: &mut Vec<u8>) -> Result<(), AllocError>
    requires { IsFresh (opener_of opener) }
    ensures { OnOk result ((p : Progress) → Puts (octet (instruction_grammar p)) (goes_on (begun p (opener_of opener))) out.old.items out.new.items) }
{
    let (code, ty) = opening(opener);
    out.push(code)?;
    put_block_type(ty, out)
}

impl Writer {
    /// Before the first instruction of the last sequence, which is the outermost.
    fn new(alloc: Global, body: &Body) -> Result<Writer, WriteFault>
        ensures first { IfOk result (λ writer. progress_of (sequences_of body.now) writer ≡ at_first) }
        ensures at { IfOk result (λ writer. IsAt (sequences_of body.now) writer) }
        ensures refused { IfErr result (λ e. e ≡ NotSpelled → IsDead (sequences_of body.now) (goes_on at_first)) }
    {
        let Some(sequence) = body.sequences.len().checked_sub(1) else {
            return Err(WriteFault::NotSpelled);
        };
        Ok(Writer {
            ended: 0,
            labels: 0,
            around: Vec::new(alloc),
            sequence,
            place: 0,
        })
    }

    /// Begins a sequence of this number, which a reader gives to none that has ended and to none round it.
    fn begin(&mut self, opener: Opener, number: usize) -> Result<(), WriteFault>
        ensures begun { OnOk result ((body : Sequences) → progress_of body self.new ≡ begun (progress_of body self.old) (opener_of opener)) }
        ensures at { OnOk result ((body : Sequences) (holder : AnyInstr) → IsAt body self.old → slice_get (sequence_at body self.old.sequence) self.old.place ≡ Some holder
            → Holds (opener_of opener) holder number → IsAt body self.new) }
        ensures refused { IfErr result (λ e. e ≡ NotSpelled → (number < self.old.ended) ⊎ (self.old.sequence ≤ number)) }
    {
        if number < self.ended || self.sequence <= number {
            return Err(WriteFault::NotSpelled);
        }
        self.around.push(Around {
            opener,
            sequence: self.sequence,
            place: self.place,
        })?;
        self.sequence = number;
        self.place = 0;
        Ok(())
    }

    /// Ends the outermost sequence, behind all others and all labels.
    fn end_outermost(&self, body: &Body, out: &mut Vec<u8>) -> Result<(), WriteFault>
        requires at { IsAt (sequences_of body.now) self.now }
        requires at_end { length (sequence_at (sequences_of body.now) self.now.ended) ≤ self.now.place }
        requires outermost { (self.now.around.items ≡ []) × (self.now.sequence ≡ self.now.ended) × (self.now.ended < length (sequences_of body.now).each) }
        ensures written { OnOk result (Puts (octet (instruction_grammar (progress_of (sequences_of body.now) self.now))) (ends (sequences_of body.now)) out.old.items out.new.items) }
        ensures follows { OnOk result (Passes (sequences_of body.now) (goes_on (progress_of (sequences_of body.now) self.now)) (ends (sequences_of body.now))) }
        ensures refused { IfErr result (λ e. e ≡ NotSpelled → IsDead (sequences_of body.now) (goes_on (progress_of (sequences_of body.now) self.now))) }
    {
        if self.ended + 1 != body.sequences.len() || self.labels != body.labels.len() {
            return Err(WriteFault::NotSpelled);
        }
        out.push(0x0B)?;
        Ok(())
    }

    /// Goes on with the second sequence of an `if`.
    fn otherwise(
        &mut self,
        around: Around,
        second: usize,
        out: &mut Vec<u8>,
    ) -> Result<(), AllocError>
        ensures put { OnOk result (out.new.items ≡ out.old.items ++ 0x05 ∷ []) }
        ensures around { OnOk result (self.new.around.items ≡ self.old.around.items ++ around ∷ []) }
        ensures place { OnOk result ((self.new.sequence ≡ second) × (self.new.place ≡ 0)) }
        ensures kept { (self.new.ended ≡ self.old.ended) × (self.new.labels ≡ self.old.labels) }
    {
        self.around.push(around)?;
        self.sequence = second;
        self.place = 0;
        out.push(0x05)?;
        Ok(())
    }

    /// Ends the present sequence, and goes on behind the instruction that holds it, or with its other sequence.
    fn end_inner(
        &mut self,
        around: Around,
        body: &Body,
        out: &mut Vec<u8>,
    ) -> Result<(), WriteFault>
        requires stands { Stands (sequences_of body.now) (around ∷ reverse self.old.around.items) self.old.ended }
        requires labels { self.old.labels ≤ length (sequences_of body.now).labels }
        requires at_end { length (sequence_at (sequences_of body.now) self.old.ended) ≤ self.old.place }
        requires present { (self.old.sequence ≡ self.old.ended) × (self.old.ended < length (sequences_of body.now).each) }
        ensures written { OnOk result (Puts (octet (instruction_grammar (within_open (sequences_of body.now) around (progress_of (sequences_of body.now) self.old)))) (goes_on (progress_of (sequences_of body.now) self.new)) out.old.items out.new.items) }
        ensures at { OnOk result (IsAt (sequences_of body.now) self.new) }
        ensures follows { OnOk result (Passes (sequences_of body.now) (goes_on (within_open (sequences_of body.now) around (progress_of (sequences_of body.now) self.old))) (goes_on (progress_of (sequences_of body.now) self.new))) }
        ensures refused { IfErr result (λ e. e ≡ NotSpelled → IsDead (sequences_of body.now) (goes_on (within_open (sequences_of body.now) around (progress_of (sequences_of body.now) self.old)))) }
    {
        let Some(holder) = instruction_at(body, around.sequence, around.place) else {
            return Err(WriteFault::NotSpelled);
        };
        let number = self.ended;
        self.ended = number + 1;
        if let Some((opener, second)) = other_of(around.opener, holder, number) {
            if !holds(holder, opener, second) {
                return Err(WriteFault::NotSpelled);
            }
            self.otherwise(Around { opener, ..around }, second, out)?;
            return Ok(());
        }
        if !holds(holder, around.opener, number) {
            return Err(WriteFault::NotSpelled);
        }
        self.sequence = around.sequence;
        self.place = around.place + 1;
        out.push(0x0B)?;
        Ok(())
    }

    /// Ends the present sequence; whether it was the outermost.
    fn end(&mut self, body: &Body, out: &mut Vec<u8>) -> Result<bool, WriteFault>
        requires at { IsAt (sequences_of body.now) self.old }
        requires at_end { length (sequence_at (sequences_of body.now) self.old.sequence) ≤ self.old.place }
        ensures written { IfOk result (λ last. Puts (octet (instruction_grammar (progress_of (sequences_of body.now) self.old))) (next_of (sequences_of body.now) last self.new) out.old.items out.new.items) }
        ensures at { IfOk result (λ last. last ≡ false → IsAt (sequences_of body.now) self.new) }
        ensures follows { IfOk result (λ last. Passes (sequences_of body.now) (goes_on (progress_of (sequences_of body.now) self.old)) (next_of (sequences_of body.now) last self.new)) }
        ensures refused { IfErr result (λ e. e ≡ NotSpelled → IsDead (sequences_of body.now) (goes_on (progress_of (sequences_of body.now) self.old))) }
    {
        if self.sequence != self.ended || body.sequences.len() <= self.ended {
            return Err(WriteFault::NotSpelled);
        }
        match self.around.pop() {
            None => {
                self.end_outermost(body, out)?;
                Ok(true)
            }
            Some(around) => {
                self.end_inner(around, body, out)?;
                Ok(false)
            }
        }
    }

    /// Opens a sequence of this number, which the instruction at the present place holds.
    fn open(
        &mut self,
        opener: Opener,
        number: usize,
        body: &Body,
        out: &mut Vec<u8>,
    ) -> Result<(), WriteFault>
        requires fresh { IsFresh (opener_of opener) }
        requires at { IsAt (sequences_of body.now) self.old }
        requires holds { (holder : AnyInstr) × (slice_get (sequence_at (sequences_of body.now) self.old.sequence) self.old.place ≡ Some holder) × Holds (opener_of opener) holder number }
        ensures written { OnOk result (Puts (octet (instruction_grammar (progress_of (sequences_of body.now) self.old))) (goes_on (progress_of (sequences_of body.now) self.new)) out.old.items out.new.items) }
        ensures at { OnOk result (IsAt (sequences_of body.now) self.new) }
        ensures follows { OnOk result (Passes (sequences_of body.now) (goes_on (progress_of (sequences_of body.now) self.old)) (goes_on (progress_of (sequences_of body.now) self.new))) }
        ensures refused { IfErr result (λ e. e ≡ NotSpelled → IsDead (sequences_of body.now) (goes_on (progress_of (sequences_of body.now) self.old))) }
    {
        put_opening(opener, out)?;
        self.begin(opener, number)
    }

    /// Writes the `br_table` at the present place, whose labels are the next ones of the body.
    fn put_table(
        &mut self,
        first: usize,
        count: usize,
        default: u32,
        body: &Body,
        out: &mut Vec<u8>,
    ) -> Result<(), WriteFault>
        requires at { IsAt (sequences_of body.now) self.old }
        requires here { slice_get (sequence_at (sequences_of body.now) self.old.sequence) self.old.place ≡ Some (i.BrTable first count default) }
        requires next_place { self.old.place + 1 < 2 ^ 64 }
        ensures written { OnOk result (Puts (octet (instruction_grammar (progress_of (sequences_of body.now) self.old))) (goes_on (progress_of (sequences_of body.now) self.new)) out.old.items out.new.items) }
        ensures at { OnOk result (IsAt (sequences_of body.now) self.new) }
        ensures follows { OnOk result (Passes (sequences_of body.now) (goes_on (progress_of (sequences_of body.now) self.old)) (goes_on (progress_of (sequences_of body.now) self.new))) }
        ensures refused { IfErr result (λ e. e ≡ NotSpelled → IsDead (sequences_of body.now) (goes_on (progress_of (sequences_of body.now) self.old))) }
    {
        let Some(labels) = labels_at(body, first, count) else {
            return Err(WriteFault::NotSpelled);
        };
        if first != self.labels {
            return Err(WriteFault::NotSpelled);
        }
        out.push(0x0E)?;
        put_number_vector(labels, out)?;
        put_u32(default, out)?;
        self.labels = first + count;
        self.place += 1;
        Ok(())
    }

    /// Writes the instruction at the present place, which holds no sequence and names no labels.
    fn put_here(
        &mut self,
        instruction: Instr,
        body: &Body,
        out: &mut Vec<u8>,
    ) -> Result<(), AllocError>
        requires alone { IsAlone instruction }
        requires at { IsAt (sequences_of body.now) self.old }
        requires here { slice_get (sequence_at (sequences_of body.now) self.old.sequence) self.old.place ≡ Some instruction }
        requires next_place { self.old.place + 1 < 2 ^ 64 }
        ensures written { OnOk result (Puts (octet (instruction_grammar (progress_of (sequences_of body.now) self.old))) (goes_on (progress_of (sequences_of body.now) self.new)) out.old.items out.new.items) }
        ensures at { OnOk result (IsAt (sequences_of body.now) self.new) }
        ensures follows { OnOk result (Passes (sequences_of body.now) (goes_on (progress_of (sequences_of body.now) self.old)) (goes_on (progress_of (sequences_of body.now) self.new))) }
    {
        put_simple(instruction, out)?;
        self.place += 1;
        Ok(())
    }

    /// Writes the instruction at the present place.
    fn put(&mut self, instruction: Instr, body: &Body, out: &mut Vec<u8>) -> Result<(), WriteFault>
        requires at { IsAt (sequences_of body.now) self.old }
        requires here { slice_get (sequence_at (sequences_of body.now) self.old.sequence) self.old.place ≡ Some instruction }
        requires next_place { self.old.place + 1 < 2 ^ 64 }
        ensures written { OnOk result (Puts (octet (instruction_grammar (progress_of (sequences_of body.now) self.old))) (goes_on (progress_of (sequences_of body.now) self.new)) out.old.items out.new.items) }
        ensures at { OnOk result (IsAt (sequences_of body.now) self.new) }
        ensures follows { OnOk result (Passes (sequences_of body.now) (goes_on (progress_of (sequences_of body.now) self.old)) (goes_on (progress_of (sequences_of body.now) self.new))) }
        ensures refused { IfErr result (λ e. e ≡ NotSpelled → IsDead (sequences_of body.now) (goes_on (progress_of (sequences_of body.now) self.old))) }
    {
        match instruction {
            Instr::Block {
                result,
                body: number,
            } => self.open(Opener::Block(result), number, body, out),
            Instr::Loop {
                result,
                body: number,
            } => self.open(Opener::Loop(result), number, body, out),
            Instr::If {
                result,
                then_body,
                ..
            } => self.open(Opener::First(result), then_body, body, out),
            Instr::BrTable {
                first,
                count,
                default,
            } => self.put_table(first, count, default, body, out),
            _ => {
                self.put_here(instruction, body, out)?;
                Ok(())
            }
        }
    }

    /// Writes what comes next; whether it was the last end.
    #[tactic(auto, using(crate::proofs::WriteExpression::past_end))]
    fn step(&mut self, body: &Body, out: &mut Vec<u8>) -> Result<bool, WriteFault>
        requires at { IsAt (sequences_of body.now) self.old }
        ensures written { IfOk result (λ last. Puts (octet (instruction_grammar (progress_of (sequences_of body.now) self.old))) (next_of (sequences_of body.now) last self.new) out.old.items out.new.items) }
        ensures at { IfOk result (λ last. last ≡ false → IsAt (sequences_of body.now) self.new) }
        ensures follows { IfOk result (λ last. Passes (sequences_of body.now) (goes_on (progress_of (sequences_of body.now) self.old)) (next_of (sequences_of body.now) last self.new)) }
        ensures refused { IfErr result (λ e. e ≡ NotSpelled → IsDead (sequences_of body.now) (goes_on (progress_of (sequences_of body.now) self.old))) }
    {
        match instruction_at(body, self.sequence, self.place) {
            Some(instruction) => {
                self.put(instruction, body, out)?;
                Ok(false)
            }
            None => self.end(body, out),
        }
    }
}

/// Writes an expression, whose sequences stand in a body.
pub fn put_expression(alloc: Global, body: &Body, out: &mut Vec<u8>) -> Result<(), WriteFault>
    ensures written { OnOk result (Puts expression (sequences_of body.now) out.old.items out.new.items) }
    ensures refused { IfErr result (λ e. e ≡ NotSpelled → (text : List ℕ) → Spells expression (sequences_of body.now) text → ⊥) }
{
    let mut writer = Writer::new(alloc, body)?;
    for _ in 0..u64::MAX {
        if writer.step(body, out)? {
            return Ok(());
        }
    }
    // Each step puts an octet at least, and no vector has so many.
    Err(WriteFault::NoMemory)
}
