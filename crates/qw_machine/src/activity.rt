//! Where the execution of a call is, and its steps (WebAssembly Core Specification 1.0, 4.2.12 and 4.4).

ghost use Rattle.std.specs.Prelude.{◌≡◌, ℕ, List, ◌++◌, ◌+◌, ◌*◌, ◌<◌, ◌≤◌, ◌^◌, map, length, replicate, take, ◌-◌, drop, IfOk, Some, slice_get, vec_capacity, All};
ghost use Rattle.qw_linear.specs.Memory.{page};
ghost use Rattle.qw_module.specs.Numbers.{truth};
ghost use Rattle.qw_module.specs.Syntax.{labels_in, IsNumbered};
ghost use Rattle.qw_module.specs.Execution.{chosen};
ghost use Rattle.qw_module.specs.Start.{body_of, closure_of, initial_value};
ghost use Rattle.qw_module.specs.Validity.{sequences_of, code_of_body, declared_types, imported_functions, IsValidGlobal};
ghost use Rattle.qw_machine.specs.Inner.Points.{Point, after_answer, at_index, called_at, entered, first_point, has_result, in_body, instructions_at, point_of, resumed, under};
ghost use Rattle.qw_machine.specs.Inner.Ended.{answer_of};
ghost use Rattle.qw_machine.specs.Inner.Rooms.{rooms_of};
ghost use Rattle.qw_machine.specs.declared.stepped.Stepped.TheVariants.{Ran};
ghost use Rattle.qw_machine.specs.Inner.Operated.{CanOperate};
ghost use Rattle.qw_machine.specs.Inner.Placed.{IsAsking, IsExecuted, IsPoint, IsRunning};
ghost use Rattle.qw_machine.specs.Inner.Activities.{CanJump, CanLeave, IsDoneAt, IsHalted, IsJump, IsLeft, IsReturn, IsRun, IsStepped};

use crate::blocks::{Halted, at_once, blocks};
use crate::hosts::{Host, linked_host};
use crate::numbers::value_of;
use crate::operators::{Operated, operate};
use crate::room::Rooms;
use crate::stack::Stack;
use crate::stepped::{Run, Stepped, operated};
use qw_base::NoMemory;
use qw_linear::linear::Linear;
use qw_module::instruction::{Instr, Op};
use qw_module::module::{self, Body, Function, Locals, Module};
use qw_module::trap::Trap;
use qw_valid::initial::constant_of;
use std::alloc::Global;

/// A label that the instance is in (4.2.12).
#[derive(Clone, Copy, PartialEq, Eq)]
pub(crate) struct Entry {
    /// How many operands lie below the label's own.
    pub(crate) base: usize,
    /// Whether a branch to the label takes an operand.
    pub(crate) takes: bool,
    /// The number of the sequence that the label stands in.
    pub(crate) sequence: usize,
    /// The index there that a branch goes to: a loop's own, or the one after the block.
    pub(crate) target: usize,
    /// The index there after the label's end.
    pub(crate) after: usize,
}

/// A frame: what a function that was called comes back to (4.2.12).
#[derive(Clone, Copy, PartialEq, Eq)]
pub(crate) struct Frame {
    /// How many operands lie below those of the function that was called.
    pub(crate) base: usize,
    /// Whether that function leaves a result.
    pub(crate) leaves: bool,
    /// The number of the caller among the module's own functions.
    pub(crate) function: usize,
    /// The number of the sequence that the call stands in.
    pub(crate) sequence: usize,
    /// The index there after the call.
    pub(crate) after: usize,
    /// How many locals lie below the caller's.
    pub(crate) first_local: usize,
    /// How many labels and frames there are up to the caller's frame, with it.
    pub(crate) floor: usize,
}

/// What awaits the end of a sequence (4.2.12).
#[derive(Clone, Copy, PartialEq, Eq)]
pub(crate) enum Awaiting {
    Label(Entry),
    Call(Frame),
}

/// Where the execution of a call is: the labels and frames that it is in, the function that runs, its
/// sequence that runs and the index in it, the operands and locals of all frames, and the globals. All room is
/// reserved at first.
#[derive(Drop)]
pub(crate) struct Activity {
    awaiting: Stack<Awaiting>,
    floor: usize,
    function: usize,
    sequence: usize,
    index: usize,
    operands: Stack<u64>,
    locals: Vec<u64>,
    first_local: usize,
    globals: Vec<u64>,
}

impl Activity {
    /// The activity of a call of a module's own function with one argument, whose declared locals are zeros. The
    /// error is want of memory.
    pub(crate) fn begin(
        alloc: Global,
        program: &Module,
        rooms: Rooms,
        number: usize,
        argument: u32,
    ) -> Result<Self, NoMemory>
        requires executed { IsExecuted program.now }
        requires there { number < length program.now.functions.items }
        requires awaiting { 1 ≤ rooms.awaiting }
        requires locals { (function : Function) → slice_get program.now.functions.items number ≡ Some function → 1 + length (declared_types function.locals.items) ≤ rooms.locals }
        ensures point { (function : Function) → slice_get program.now.functions.items number ≡ Some function → IfOk result (λ activity.
            point_of activity ≡ first_point program.now number argument (length (declared_types function.locals.items)) (map (λ global. initial_value (code_of_body global.init)) program.now.globals.items)) }
        ensures rooms { IfOk result (λ activity. rooms_of activity ≡ rooms) }
    {
        let function = &program.functions[number];
        let mut locals = Vec::with_capacity(alloc, rooms.locals)?;
        locals.push_reserved(u64::from(argument));
        declare(&mut locals, &function.locals);
        let mut activity = Activity {
            awaiting: Stack::with_room(alloc, rooms.awaiting)?,
            floor: 0,
            function: number,
            sequence: 0,
            index: 0,
            operands: Stack::with_room(alloc, rooms.operands)?,
            locals,
            first_local: 0,
            globals: initial_values(alloc, &program.globals)?,
        };
        activity.enter_body(program, number, false);
        Ok(activity)
    }

    /// Enters the body of a function of the module's own, in the label of the whole body (4.4.7).
    fn enter_body(&mut self, program: &Module, number: usize, leaves: bool)
        requires executed { IsExecuted program.now }
        requires there { number < length program.now.functions.items }
        requires room { length self.old.awaiting.values < self.old.awaiting.room }
        ensures point { point_of self.new ≡ in_body program.now (point_of self.old) number leaves }
        ensures rooms { rooms_of self.new ≡ rooms_of self.old }
    {
        let sequences = program.functions[number].body.sequences.as_slice();
        let sequence = sequences.len() - 1;
        let end = sequences[sequence].len();
        self.awaiting.push(Awaiting::Label(Entry {
            base: self.operands.len(),
            takes: leaves,
            sequence,
            target: end,
            after: end,
        }));
        self.function = number;
        self.sequence = sequence;
        self.index = 0;
    }

    /// Enters a block that begins with a sequence of this number (4.4.6).
    fn enter(&mut self, inner: usize, takes: bool, target: usize)
        requires room { length self.old.awaiting.values < self.old.awaiting.room }
        requires index { self.old.index < 2 ^ 64 - 1 }
        ensures point { point_of self.new ≡ entered (point_of self.old) inner takes target }
        ensures rooms { rooms_of self.new ≡ rooms_of self.old }
    {
        self.awaiting.push(Awaiting::Label(Entry {
            base: self.operands.len(),
            takes,
            sequence: self.sequence,
            target,
            after: self.index + 1,
        }));
        self.sequence = inner;
        self.index = 0;
    }

    /// Branches to the label of an index, counted from the innermost (4.4.5, `br`).
    fn branch(&mut self, index: usize)
        requires there { CanJump index (point_of self.old) }
        requires room { length self.old.operands.values ≤ self.old.operands.room }
        ensures jump { IsJump index (point_of self.old) (point_of self.new) }
        ensures rooms { rooms_of self.new ≡ rooms_of self.old }
    {
        self.awaiting.truncate(self.awaiting.len() - index);
        if let Awaiting::Label(entry) = self.awaiting.pop() {
            unwind(&mut self.operands, entry.base, entry.takes);
            self.sequence = entry.sequence;
            self.index = entry.target;
        }
    }

    /// Goes on in the caller after a function that was called has ended (4.4.7).
    fn resume(&mut self, caller: Frame)
        requires locals { self.old.first_local ≤ length self.old.locals.items }
        ensures point { point_of self.new ≡ resumed (point_of self.old) caller }
        ensures rooms { rooms_of self.new ≡ rooms_of self.old }
    {
        self.locals.truncate(self.first_local);
        self.first_local = caller.first_local;
        self.floor = caller.floor;
        self.function = caller.function;
        self.sequence = caller.sequence;
        self.index = caller.after;
    }

    /// Returns to the caller of the function that runs (4.4.5, `return`).
    fn leave(&mut self)
        requires there { CanLeave (point_of self.old) }
        requires room { length self.old.operands.values ≤ self.old.operands.room }
        requires locals { self.old.first_local ≤ length self.old.locals.items }
        ensures returned { IsReturn (point_of self.old) (point_of self.new) }
        ensures rooms { rooms_of self.new ≡ rooms_of self.old }
    {
        self.awaiting.truncate(self.floor);
        if let Awaiting::Call(caller) = self.awaiting.pop() {
            unwind(&mut self.operands, caller.base, caller.leaves);
            self.resume(caller);
        }
    }

    /// Calls a function of the module's own: its arguments become its first locals (4.4.7).
    fn invoke(&mut self, program: &Module, number: usize)
        requires executed { IsExecuted program.now }
        requires there { number < length program.now.functions.items }
        requires operands { (function : Function) → slice_get program.now.functions.items number ≡ Some function
            → (closure_of program.now function).params ≤ length self.old.operands.values }
        requires awaiting { length self.old.awaiting.values + 2 ≤ self.old.awaiting.room }
        requires locals { (function : Function) → slice_get program.now.functions.items number ≡ Some function
            → length self.old.locals.items + (closure_of program.now function).params + (closure_of program.now function).declared ≤ vec_capacity self.old.locals }
        requires index { self.old.index < 2 ^ 64 - 1 }
        ensures point { (function : Function) → slice_get program.now.functions.items number ≡ Some function → point_of self.new
            ≡ in_body program.now (called_at (point_of self.old) (closure_of program.now function).params (closure_of program.now function).declared (has_result program.now function)) number (has_result program.now function) }
        ensures rooms { rooms_of self.new ≡ rooms_of self.old }
    {
        let function = &program.functions[number];
        let ty = &program.types[function.type_index as usize];
        let leaves = !ty.results.is_empty();
        let first_local = self.locals.len();
        self.operands.pass(ty.params.len(), &mut self.locals);
        declare(&mut self.locals, &function.locals);
        self.awaiting.push(Awaiting::Call(Frame {
            base: self.operands.len(),
            leaves,
            function: self.function,
            sequence: self.sequence,
            after: self.index + 1,
            first_local: self.first_local,
            floor: self.floor,
        }));
        self.floor = self.awaiting.len();
        self.first_local = first_local;
        self.enter_body(program, number, leaves);
    }

    /// Executes an operator whose operands are there. The index stays.
    #[inline(always)]
    fn operator(&mut self, op: &Op, memory: &mut Linear, spare: u32) -> Operated
        requires ready { CanOperate op.now self.old.globals.items self.old.operands.values (drop self.old.first_local self.old.locals.items) }
        requires locals { self.old.first_local ≤ length self.old.locals.items }
        requires room { length self.old.operands.values < self.old.operands.room }
        requires pages { length memory.old.octets + spare * page ≤ memory.old.reserved * page }
        ensures done { (m : Module) (rooms : Rooms) (index : ℕ) → IsPoint m rooms (at_index (point_of self.old) index)
            → slice_get (instructions_at m self.old.function self.old.sequence) index ≡ Some (Instr.Op op.now)
            → IsDoneAt m rooms spare (at_index (point_of self.old) index) memory.old.octets (answer_of result) (at_index (point_of self.new) (index + 1)) memory.new.octets }
        ensures place { (self.new.function ≡ self.old.function) × (self.new.sequence ≡ self.old.sequence) × (self.new.index ≡ self.old.index) }
        ensures rooms { rooms_of self.new ≡ rooms_of self.old }
        ensures reserved { memory.new.reserved ≡ memory.old.reserved }
    {
        operate(
            op,
            &mut self.operands,
            self.globals.as_mut_slice(),
            &mut self.locals[self.first_local..],
            memory,
            spare,
        )
    }

    /// The sequence that runs.
    #[inline(always)]
    fn instructions<'a>(&self, program: &'a Module) -> &'a [Instr]
        requires function { self.now.function < length program.now.functions.items }
        requires sequence { self.now.sequence < length (body_of program.now self.now.function).each }
        ensures { result.now ≡ instructions_at program.now self.now.function self.now.sequence }
    {
        program.functions[self.function].body.sequences[self.sequence].as_slice()
    }

    /// Executes the instruction at the index of the sequence that runs, and leaves nothing that is finished yet. `imported` is how
    /// many functions the module imports.
    fn execute(
        &mut self,
        sequence: &[Instr],
        program: &Module,
        imported: usize,
        memory: &mut Linear,
        spare: u32,
    ) -> Stepped
        requires executed { IsExecuted program.now }
        requires imported { imported ≡ length (imported_functions program.now) }
        requires sequence { sequence.now ≡ instructions_at program.now self.old.function self.old.sequence }
        requires point { IsPoint program.now (rooms_of self.old) (point_of self.old) }
        requires unfinished { self.old.index < length (instructions_at program.now self.old.function self.old.sequence) }
        requires pages { length memory.old.octets + spare * page ≤ memory.old.reserved * page }
        ensures done { IsDoneAt program.now (rooms_of self.old) spare (point_of self.old) memory.old.octets result (point_of self.new) memory.new.octets }
        ensures rooms { rooms_of self.new ≡ rooms_of self.old }
        ensures reserved { memory.new.reserved ≡ memory.old.reserved }
    {
        let after = self.index + 1;
        match sequence[self.index] {
            Instr::Op(op) => {
                let done = self.operator(&op, memory, spare);
                self.index = after;
                return operated(done);
            }
            Instr::Unreachable => return Stepped::Trapped(Trap::Unreachable),
            Instr::Block { result, body } => self.enter(body, result.is_some(), after),
            Instr::Loop { body, .. } => self.enter(body, false, self.index),
            Instr::If {
                result,
                then_body,
                else_body,
            } => {
                let body = if self.operands.pop() != 0 {
                    Some(then_body)
                } else {
                    else_body
                };
                match body {
                    Some(body) => self.enter(body, result.is_some(), after),
                    None => self.index = after,
                }
            }
            Instr::Br(index) => self.branch(index as usize),
            Instr::BrIf(index) => {
                if self.operands.pop() != 0 {
                    self.branch(index as usize);
                } else {
                    self.index = after;
                }
            }
            Instr::BrTable {
                first,
                count,
                default,
            } => {
                let operand = self.operands.pop();
                let labels = &program.functions[self.function].body.labels;
                let index = choose(labels, first, count, default, operand);
                self.branch(index as usize);
            }
            Instr::Return => {
                if self.floor == 0 {
                    return Stepped::Returned;
                }
                self.leave();
            }
            Instr::Call(index) => match (index as usize).checked_sub(imported) {
                Some(number) => self.invoke(program, number),
                None => return self.call_host(program, index as usize),
            },
        }
        Stepped::Ran
    }

    /// What the call of an imported function, which is next, comes to: `raise` ends the run, and `pages` asks the host and stays next
    /// until it has answered.
    fn call_host(&self, program: &Module, index: usize) -> Stepped
        requires executed { IsExecuted program.now }
        requires point { IsPoint program.now (rooms_of self.now) (point_of self.now) }
        requires calls { slice_get (instructions_at program.now self.now.function self.now.sequence) self.now.index ≡ Some (Instr.Call index) }
        requires imported { index < length (imported_functions program.now) }
        requires index { self.now.index < 2 ^ 64 - 1 }
        ensures { (spare : ℕ) (memory : List ℕ) → IsDoneAt program.now (rooms_of self.now) spare (point_of self.now) memory result (point_of self.now) memory }
    {
        let host = linked_host(&program.imports, index).unwrap();
        let argument = self.operands.top() as u32;
        match host {
            Host::Raise => Stepped::Raised(argument),
            Host::Pages => Stepped::Asked { pages: argument },
        }
    }

    /// Leaves what the host answers the call of `pages` that is next (4.4.7), and what this finishes. Answers whether the run goes on:
    /// `run` wasn't left.
    pub(crate) fn answer(&mut self, program: &Module, value: u32) -> bool
        requires executed { IsExecuted program.now }
        requires point { IsRunning program.now (rooms_of self.old) (point_of self.old) }
        requires asks { (pages : ℕ) × IsAsking program.now (point_of self.old) pages }
        ensures left { IsLeft program.now (rooms_of self.old) (after_answer (point_of self.old) value) result (point_of self.new) }
        ensures rooms { rooms_of self.new ≡ rooms_of self.old }
    {
        let _ = self.operands.pop();
        self.operands.push(u64::from(value));
        self.index += 1;
        self.leave_finished(program)
    }

    /// Leaves the labels and frames whose sequences are finished (4.4.6 and 4.4.7). Answers whether the run goes on: `run`
    /// wasn't left.
    pub(crate) fn leave_finished(&mut self, program: &Module) -> bool
        requires executed { IsExecuted program.now }
        requires point { IsPoint program.now (rooms_of self.old) (point_of self.old) }
        ensures left { IsLeft program.now (rooms_of self.old) (point_of self.old) result (point_of self.new) }
        ensures rooms { rooms_of self.new ≡ rooms_of self.old }
    {
        while self.index == program.functions[self.function].body.sequences[self.sequence].len() {
            if self.awaiting.len() == 0 {
                return false;
            }
            match self.awaiting.pop() {
                Awaiting::Label(entry) => {
                    self.sequence = entry.sequence;
                    self.index = entry.after;
                }
                Awaiting::Call(caller) => self.resume(caller),
            }
        }
        true
    }

    /// What is left of a step after its instruction: leaves what that finishes. `done` is what the instruction came to.
    fn finish(&mut self, program: &Module, done: Stepped) -> Stepped
        requires executed { IsExecuted program.now }
        requires done { (spare : ℕ) × (p : Point) × (memory : List ℕ) × (after : List ℕ) × IsDoneAt program.now (rooms_of self.old) spare p memory done (point_of self.old) after }
        ensures stepped { (spare : ℕ) (p : Point) (memory after : List ℕ) → IsDoneAt program.now (rooms_of self.old) spare p memory done (point_of self.old) after
            → IsStepped program.now (rooms_of self.old) spare p memory result (point_of self.new) after }
        ensures rooms { rooms_of self.new ≡ rooms_of self.old }
    {
        if done.halts() {
            return done;
        }
        if !self.leave_finished(program) {
            return Stepped::Returned;
        }
        done
    }

    /// One step: an instruction, and what it finishes.
    pub(crate) fn step(
        &mut self,
        program: &Module,
        imported: usize,
        memory: &mut Linear,
        spare: u32,
    ) -> Stepped
        requires executed { IsExecuted program.now }
        requires imported { imported ≡ length (imported_functions program.now) }
        requires point { IsPoint program.now (rooms_of self.old) (point_of self.old) }
        requires unfinished { self.old.index < length (instructions_at program.now self.old.function self.old.sequence) }
        requires pages { length memory.old.octets + spare * page ≤ memory.old.reserved * page }
        ensures stepped { IsStepped program.now (rooms_of self.old) spare (point_of self.old) memory.old.octets result (point_of self.new) memory.new.octets }
        ensures rooms { rooms_of self.new ≡ rooms_of self.old }
        ensures reserved { memory.new.reserved ≡ memory.old.reserved }
    {
        let sequence = self.instructions(program);
        let done = self.execute(sequence, program, imported, memory, spare);
        self.finish(program, done)
    }

    /// Steps one after another, at most so many, as long as they are operators, enter and leave blocks, only take their operands, or
    /// begin a loop's body anew. The last instruction may be executed and what it finishes not left yet: [`Halted::done`].
    fn operators(&mut self, program: &Module, memory: &mut Linear, spare: u32, most: u64) -> Halted
        requires executed { IsExecuted program.now }
        requires point { IsRunning program.now (rooms_of self.old) (point_of self.old) }
        requires pages { length memory.old.octets + spare * page ≤ memory.old.reserved * page }
        ensures run { IsHalted program.now (rooms_of self.old) spare most (point_of self.old) memory.old.octets result.run result.done (point_of self.new) memory.new.octets }
        ensures rooms { rooms_of self.new ≡ rooms_of self.old }
        ensures reserved { memory.new.reserved ≡ memory.old.reserved }
    {
        let first = self.index;
        if !may_begin(&self.instructions(program)[first]) {
            return Halted {
                run: Run::going(0),
                number: self.sequence,
                index: first,
                done: None,
            };
        }
        let few = at_once(most);
        // A local variable of its own: as a field, its length would be read and written at each operator.
        let mut operands = self.operands.take();
        let halted = blocks(
            &program.functions[self.function].body,
            self.sequence,
            first,
            few,
            &mut self.awaiting,
            &mut operands,
            self.globals.as_mut_slice(),
            &mut self.locals[self.first_local..],
            memory,
            spare,
        );
        self.operands = operands;
        self.sequence = halted.number;
        self.index = halted.index;
        halted
    }

    /// Steps one after another, at least one and at most so many: operators and blocks, and an instruction that may be any.
    fn stretch(
        &mut self,
        program: &Module,
        imported: usize,
        memory: &mut Linear,
        spare: u32,
        most: u64,
    ) -> Run
        requires executed { IsExecuted program.now }
        requires imported { imported ≡ length (imported_functions program.now) }
        requires point { IsRunning program.now (rooms_of self.old) (point_of self.old) }
        requires pages { length memory.old.octets + spare * page ≤ memory.old.reserved * page }
        requires some { 1 ≤ most }
        ensures run { IsRun program.now (rooms_of self.old) spare most (point_of self.old) memory.old.octets result (point_of self.new) memory.new.octets }
        ensures some { result.last ≡ Ran → 1 ≤ result.steps }
        ensures rooms { rooms_of self.new ≡ rooms_of self.old }
        ensures reserved { memory.new.reserved ≡ memory.old.reserved }
    {
        let halted = self.operators(program, memory, spare, most - 1);
        if !matches!(halted.run.last, Stepped::Ran) {
            return halted.run;
        }
        let steps = halted.run.steps + 1;
        let Some(done) = halted.done else {
            let last = self.step(program, imported, memory, spare);
            return Run { steps, last };
        };
        let last = self.finish(program, done);
        Run { steps, last }
    }

    /// Steps one after another, at most so many, up to the first that comes to another answer than `Ran`. One that asks the host is
    /// counted.
    pub(crate) fn run(
        &mut self,
        program: &Module,
        imported: usize,
        memory: &mut Linear,
        spare: u32,
        most: u64,
    ) -> Run
        requires executed { IsExecuted program.now }
        requires imported { imported ≡ length (imported_functions program.now) }
        requires point { IsRunning program.now (rooms_of self.old) (point_of self.old) }
        requires pages { length memory.old.octets + spare * page ≤ memory.old.reserved * page }
        ensures run { IsRun program.now (rooms_of self.old) spare most (point_of self.old) memory.old.octets result (point_of self.new) memory.new.octets }
        ensures all { result.last ≡ Ran → result.steps ≡ most }
        ensures rooms { rooms_of self.new ≡ rooms_of self.old }
        ensures reserved { memory.new.reserved ≡ memory.old.reserved }
    {
        let mut steps = 0;
        while steps < most {
            let run = self.stretch(program, imported, memory, spare, most - steps);
            steps += run.steps;
            if !matches!(run.last, Stepped::Ran) {
                return Run {
                    steps,
                    last: run.last,
                };
            }
        }
        Run::going(steps)
    }
}

/// Whether an instruction is one that [`blocks`] executes. Of others what an activity holds needn't be taken out first.
fn may_begin(instruction: &Instr) -> bool {
    matches!(
        *instruction,
        Instr::Op(_) | Instr::Block { .. } | Instr::Loop { .. } | Instr::If { .. }
    )
}

/// The value that the code of a global's expression gives (4.4.1).
fn initial_value(init: &Body) -> u64
    requires { IsNumbered (sequences_of init.now) }
    ensures { result ≡ initial_value (code_of_body init.now) }
{
    match constant_of(init) {
        None => 0,
        Some(constant) => value_of(constant),
    }
}

/// The values that globals begin with (4.5.4).
fn initial_values(alloc: Global, globals: &[module::Global]) -> Result<Vec<u64>, NoMemory>
    requires { All IsValidGlobal globals.now }
    ensures { IfOk result (λ values. values.items ≡ map (λ global. initial_value (code_of_body global.init)) globals.now) }
{
    let mut values = Vec::new(alloc);
    for global in globals {
        values.push(initial_value(&global.init))?;
    }
    Ok(values)
}

/// Adds the locals that the runs declare, which begin as zeros.
fn declare(locals: &mut Vec<u64>, runs: &[Locals])
    requires { length locals.old.items + length (declared_types runs.now) ≤ vec_capacity locals.old }
    ensures locals { locals.new.items ≡ locals.old.items ++ replicate (length (declared_types runs.now)) 0 }
    ensures room { vec_capacity locals.new ≡ vec_capacity locals.old }
{
    for run in runs {
        for _ in 0..run.count {
            locals.push_reserved(0);
        }
    }
}

/// The label that a `br_table` goes to by its operand (4.4.5, `br_table`).
fn choose(labels: &[u32], first: usize, count: usize, default: u32, operand: u64) -> u32
    requires { first + count ≤ length labels.now }
    ensures { result ≡ chosen (labels_in labels.now first count) default operand }
{
    if operand < count as u64 {
        labels[first + operand as usize]
    } else {
        default
    }
}

/// Drops the operands above the first `base`, but for the last one where one is kept.
fn unwind(operands: &mut Stack<u64>, base: usize, keeps: bool)
    requires there { base + truth keeps ≤ length operands.old.values }
    requires room { length operands.old.values ≤ operands.old.room }
    ensures operands { operands.new.values ≡ take (truth keeps) operands.old.values ++ under base operands.old.values }
    ensures room { operands.new.room ≡ operands.old.room }
{
    if !keeps {
        operands.truncate(base);
        return;
    }
    let kept = operands.pop();
    operands.truncate(base);
    operands.push(kept);
}
