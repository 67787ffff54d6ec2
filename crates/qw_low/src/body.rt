//! Flat steps become a numbered body.

ghost use Rattle.std.specs.Prelude.{◌≡◌, [], ◌∷◌, length, OnOk, IfOk};
ghost use Rattle.std.specs.List.{AllByRecursion};
ghost use Rattle.qw_module.specs.Syntax.{done, IsNumbered};
ghost use Rattle.qw_module.specs.Validity.{CallsBelow, code_of_body, items_of, sequences_of};
ghost use Rattle.qw_module.specs.Numbering.{IsInOrder};
ghost use Rattle.qw_module.specs.Offsets.{FitOffsets};
ghost use Rattle.qw_low.specs.Inner.Tees.{pushed};
ghost use Rattle.qw_low.specs.Inner.Writing.{writing_of, adds, opens, finishes, all_written, written};
ghost use Rattle.qw_low.specs.Steps.{FitsStep, steps_of};
ghost use Rattle.qw_low.specs.Syntax.{Statement};
ghost use Rattle.qw_low.specs.Translation.{statement_code};

use crate::step::LowStep;
use crate::tee;
use qw_module::instruction::{Const, Instr, Op};
use qw_module::module::Body;
use qw_types::NoMemory;
use std::alloc::Global;

/// What was opened in a sequence that waits.
#[derive(Clone, Copy)]
enum Opened {
    If,
    /// The other sequence of an `If`, whose first one has this number.
    Else(usize),
    Loop,
}

/// A sequence that waits for an inner one.
#[derive(Drop)]
struct Waiting {
    sequence: Vec<Instr>,
    opened: Opened,
}

/// The sequences that are finished, the one that is written, and those that wait for it, the innermost last.
#[derive(Drop)]
struct Writer {
    finished: Vec<Vec<Instr>>,
    current: Vec<Instr>,
    waiting: Vec<Waiting>,
}

impl Writer {
    fn add(&mut self, instruction: Instr) -> Result<(), NoMemory>
        ensures { OnOk result (writing_of self.new ≡ adds pushed instruction (writing_of self.old)) }
    {
        tee::push(&mut self.current, instruction)
    }

    fn open(&mut self, alloc: Global, opened: Opened) -> Result<(), NoMemory>
        ensures { OnOk result (writing_of self.new ≡ opens opened (writing_of self.old)) }
    {
        let sequence = std::mem::replace(&mut self.current, Vec::new(alloc));
        self.waiting.push(Waiting { sequence, opened })?;
        Ok(())
    }

    /// Finishes the current sequence, and gives its number.
    fn finish(&mut self, alloc: Global) -> Result<usize, NoMemory>
        ensures number { IfOk result (λ n. n ≡ length self.old.finished.items) }
        ensures finished { OnOk result (writing_of self.new ≡ finishes (writing_of self.old)) }
    {
        let number = self.finished.len();
        let sequence = std::mem::replace(&mut self.current, Vec::new(alloc));
        self.finished.push(sequence)?;
        Ok(number)
    }

    fn turn(&mut self, alloc: Global) -> Result<(), NoMemory>
        ensures { OnOk result (writing_of self.new ≡ written pushed LowStep.Else (writing_of self.old)) }
    {
        if let Some(outer) = self.waiting.pop() {
            let first = self.finish(alloc)?;
            self.waiting.push(Waiting {
                sequence: outer.sequence,
                opened: Opened::Else(first),
            })?;
        }
        Ok(())
    }

    fn end(&mut self, alloc: Global) -> Result<(), NoMemory>
        ensures { OnOk result (writing_of self.new ≡ written pushed LowStep.End (writing_of self.old)) }
    {
        if let Some(outer) = self.waiting.pop() {
            let number = self.finish(alloc)?;
            let mut sequence = outer.sequence;
            sequence.push(match outer.opened {
                Opened::If => Instr::If {
                    result: None,
                    then_body: number,
                    else_body: None,
                },
                Opened::Else(first) => Instr::If {
                    result: None,
                    then_body: first,
                    else_body: Some(number),
                },
                Opened::Loop => Instr::Loop {
                    result: None,
                    body: number,
                },
            })?;
            self.current = sequence;
        }
        Ok(())
    }

    fn write(&mut self, alloc: Global, step: LowStep) -> Result<(), NoMemory>
        ensures { OnOk result (writing_of self.new ≡ written pushed step (writing_of self.old)) }
    {
        match step {
            LowStep::Op(op) => self.add(Instr::Op(op))?,
            LowStep::If => self.open(alloc, Opened::If)?,
            LowStep::Else => self.turn(alloc)?,
            LowStep::Loop => self.open(alloc, Opened::Loop)?,
            LowStep::Again => self.add(Instr::BrIf(0))?,
            LowStep::End => self.end(alloc)?,
            LowStep::Ask => self.add(Instr::Call(1))?,
            LowStep::Raise(code) => {
                self.add(Instr::Op(Op::Const(Const::I32(code))))?;
                self.add(Instr::Call(0))?;
            }
            LowStep::Exit => self.add(Instr::Return)?,
        }
        Ok(())
    }
}

/// Reads the offset of an access, which so has 32 bits.
fn read_offset(step: LowStep)
    ensures { FitsStep step }
{
    match step {
        LowStep::Op(Op::Load(_, arg) | Op::Store(_, arg)) => {
            let _offset = arg.offset;
        }
        _ => {}
    }
}

/// The body of these steps. Where they are those of a statement, it is the statement's code, its sequences stand in the order in which
/// they are read, and the offsets of its accesses have 32 bits. It calls no function but the first two.
pub fn body_of(alloc: Global, code: &[LowStep]) -> Result<Body, NoMemory>
    ensures code { IfOk result (λ b. (s : Statement) → code.now ≡ steps_of s → code_of_body b ≡ statement_code s done) }
    ensures numbered { IfOk result (λ b. (s : Statement) → code.now ≡ steps_of s → IsNumbered (sequences_of b)) }
    ensures calls { IfOk result (λ b. AllByRecursion (AllByRecursion (CallsBelow 2)) (items_of b.sequences.items)) }
    ensures order { IfOk result (λ b. (s : Statement) → code.now ≡ steps_of s → IsInOrder (sequences_of b)) }
    ensures labels { IfOk result (λ b. b.labels.items ≡ []) }
    ensures offsets { IfOk result (λ b. (s : Statement) → code.now ≡ steps_of s → FitOffsets (code_of_body b)) }
{
    let mut writer = Writer {
        finished: Vec::new(alloc),
        current: Vec::new(alloc),
        waiting: Vec::new(alloc),
    };
    for step in code {
        read_offset(*step);
        writer.write(alloc, *step)?;
    }
    writer.finish(alloc)?;
    Ok(Body {
        sequences: writer.finished,
        labels: Vec::new(alloc),
    })
}
