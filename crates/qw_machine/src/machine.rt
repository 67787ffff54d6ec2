//! The machine: executes an instance's `run` instruction by instruction (WebAssembly Core Specification
//! 1.0, 4.4), as the step relation of qw_module's `specs/Execution` says.

ghost use Rattle.std.specs.Prelude.{◌≡◌, ℕ, ◌+◌, ◌*◌, ◌<◌, ◌≤◌, ◌↔◌, None, Some, length, unwrap_or, IfOk, IfSome};
ghost use Rattle.std.specs.Bool.{MatchBool};
ghost use Rattle.qw_linear.specs.Memory.{page};
ghost use Rattle.qw_module.specs.Validity.{IsDescending, IsShaped, IsValid};
ghost use Rattle.qw_machine.specs.Descending.{IsFirstAscending};

use crate::activity::Activity;
use crate::descending::first_ascending;
use crate::room::needed_rooms;
use crate::shape::shaped_run;
use crate::stepped::{Run, RunEnd, Stepped};
use qw_base::NoMemory;
use qw_linear::linear::Linear;
use qw_valid::imports::imported_functions;
use qw_valid::valid::ValidModule;
use std::alloc::Global;
use std::marker::Model;
use thiserror::Error;

/// What a call of `pages` leaves where the host gives none: -1, as a growth that is refused (4.4.4, `memory.grow`).
const REFUSAL: u32 = u32::MAX;

/// Why a module isn't called.
#[derive(Clone, Copy, Debug, PartialEq, Eq, Error)]
pub enum InstanceFault {
    #[error("the module hasn't the shape that is executed")]
    NotShaped,
    /// The first function, counted among all functions, the imported ones first, that calls itself or one above it.
    #[error("function {func} calls one that isn't below it")]
    NotDescending { func: usize },
    #[error("want of memory")]
    NoMemory,
}

/// A valid module whose `run` was called, and where the call is. Contracts see a [`Called`](specs/Instance): the module,
/// the state, and for how many pages the host was asked while it owes the answer.
#[derive(Drop)]
pub struct Instance {
    valid: ValidModule,
    /// How many functions the module imports.
    imported: usize,
    /// `None` as long as the run goes on.
    ended: Option<RunEnd>,
    /// For how many pages the host was asked, until it has answered. The activity is at the call that asks.
    asked: Option<u32>,
    activity: Activity,
}

impl Model for Instance {
    ghost use Rattle.qw_machine.specs.Instance.{Called};
    ghost use Rattle.qw_machine.specs.Inner.CalledCode.{called_code};

    ghost Value = { Called };

    ghost coded = { called_code };

    ghost use Rattle.qw_machine.specs.Inner.Held.{called, IsHeld};

    ghost view = { called };

    ghost invariant = { IsHeld };
}

impl Instance {
    ghost use Rattle.qw_machine.specs.Instance.{AsksFor, Comes, ComesBy, IsLast, asked_by};
    ghost use Rattle.qw_machine.specs.declared.stepped.Stepped.TheVariants.{Ran};
    ghost use Rattle.qw_module.specs.Start.{begun};
    ghost use Rattle.qw_module.specs.Execution.{IsOver, Config, State, Returned, Running, refusal};
    ghost use Rattle.qw_module.specs.Step.{AsksPlace, wants};

    /// Calls the `run` of a module with an argument.
    ///
    /// # Errors
    ///
    /// `NotShaped` exactly where the module hasn't the shape that is executed; else `NotDescending` exactly where a
    /// function calls one that isn't below it; and `NoMemory` for want of memory.
    pub fn new(alloc: Global, valid: ValidModule, argument: u32) -> Result<Self, InstanceFault>
        ensures begun { (number : ℕ) → IsShaped valid number → IsDescending valid
            → IfOk result (λ instance. instance ≡ record { program = valid; state = begun valid number argument; asked = None }) }
        ensures owes_none { IfOk result (λ instance. instance.asked ≡ None) }
        ensures not_shaped { (result ≡ Err InstanceFault.NotShaped) ↔ ((number : ℕ) → IsShaped valid number → ⊥) }
        ensures not_descending { (func : ℕ) → (result ≡ Err (InstanceFault.NotDescending func)) ↔ (((number : ℕ) × IsShaped valid number) × IsFirstAscending valid func) }
    {
        let Some(number) = shaped_run(valid.module()) else {
            return Err(InstanceFault::NotShaped);
        };
        if let Some(func) = first_ascending(valid.module()) {
            return Err(InstanceFault::NotDescending { func });
        }
        Instance::call(alloc, valid, number, argument).map_err(|_| InstanceFault::NoMemory)
    }

    fn call(
        alloc: Global,
        valid: ValidModule,
        number: usize,
        argument: u32,
    ) -> Result<Self, NoMemory>
        requires shaped { IsShaped valid number }
        requires descends { IsDescending valid }
        ensures { IfOk result (λ instance. instance ≡ record { program = valid; state = begun valid number argument; asked = None }) }
    {
        let module = valid.module();
        let rooms = needed_rooms(module, valid.heights()).ok_or(NoMemory)?;
        let mut activity = Activity::begin(alloc, module, rooms, number, argument)?;
        let runs = activity.leave_finished(module);
        let imported = imported_functions(&module.imports);
        Ok(Instance {
            valid,
            imported,
            ended: RunEnd::after_leaving(runs),
            asked: None,
            activity,
        })
    }

    /// How the run has ended: what its last step came to, or `Returned` where `run` has no instructions. It is
    /// `Ran` as long as the run goes on, also where a step was a request.
    pub fn last(&self) -> Stepped
        ensures { IsLast result self.now.state }
    {
        match self.ended {
            None => Stepped::Ran,
            Some(RunEnd::Returned) => Stepped::Returned,
            Some(RunEnd::Raised(code)) => Stepped::Raised(code),
            Some(RunEnd::Trapped(why)) => Stepped::Trapped(why),
        }
    }

    /// Executes one instruction, and leaves what it finishes. A growth is granted exactly where it is for at most `spare`
    /// pages. A call of the imported function `pages` isn't executed yet: the answer is `Asked`, and [`give`](Instance::give) ends
    /// the step. After `Returned`, `Raised` or `Trapped` nothing changes any more, and the answer is the same again. It takes no
    /// memory.
    pub fn step(&mut self, memory: &mut Linear, spare: u32) -> Stepped
        requires none_owed { self.old.asked ≡ None }
        requires room { length memory.old.octets + spare * page ≤ memory.old.reserved * page }
        ensures step { (c : Config) → self.old.state ≡ Running c
            → Comes spare c memory.old.octets self.new.state memory.new.octets result }
        ensures over { IsOver self.old.state → (self.new ≡ self.old) × (memory.new ≡ memory.old) × IsLast result self.old.state }
        ensures asked { self.new.asked ≡ asked_by result }
        ensures program { self.new.program ≡ self.old.program }
        ensures reserved { memory.new.reserved ≡ memory.old.reserved }
    {
        if self.ended.is_some() {
            return self.last();
        }
        let stepped = self
            .activity
            .step(self.valid.module(), self.imported, memory, spare);
        self.ended = stepped.end();
        self.asked = stepped.asked();
        stepped
    }

    /// Executes instructions one after another, as so many calls of [`step`](Instance::step): at most `most`, and none after one
    /// whose answer isn't `Ran`. Answers how many they were and what the last of them came to, `Ran` where there was none. Where the
    /// host is asked for pages, the step that asks isn't counted, and fewer than `most` were made. It takes no memory.
    pub fn run(&mut self, memory: &mut Linear, spare: u32, most: u64) -> Run
        requires none_owed { self.old.asked ≡ None }
        requires room { length memory.old.octets + spare * page ≤ memory.old.reserved * page }
        ensures runs { (c : Config) → self.old.state ≡ Running c
            → ComesBy spare result.steps c memory.old.octets self.new.state memory.new.octets result.last }
        ensures few { result.steps ≤ most }
        ensures all { (c : Config) → self.old.state ≡ Running c → result.last ≡ Ran → result.steps ≡ most }
        ensures before_most { IfSome (asked_by result.last) (λ pages. result.steps < most) }
        ensures over { IsOver self.old.state → (self.new ≡ self.old) × (memory.new ≡ memory.old) × (result.steps ≡ 0) × IsLast result.last self.old.state }
        ensures asked { self.new.asked ≡ asked_by result.last }
        ensures program { self.new.program ≡ self.old.program }
        ensures reserved { memory.new.reserved ≡ memory.old.reserved }
    {
        if self.ended.is_some() {
            return Run {
                steps: 0,
                last: self.last(),
            };
        }
        let run = self
            .activity
            .run(self.valid.module(), self.imported, memory, spare, most);
        self.ended = run.last.end();
        self.asked = run.last.asked();
        run.made()
    }

    /// Tells what the host gives where it was asked for pages: the number of the first of them, or `None` where it gives none. It ends
    /// the step that asked. Answers whether the run goes on: `run` wasn't left. It takes no memory.
    pub fn give(&mut self, first: Option<u32>) -> bool
        requires owed { (pages : ℕ) × (self.old.asked ≡ Some pages) }
        ensures asks { IfSome self.old.asked (λ pages. (c : Config) × (self.old.state ≡ Running c) × AsksFor pages c) }
        ensures given { (c : Config) (pages : ℕ) (make : ℕ → State) → self.old.state ≡ Running c → wants c ≡ AsksPlace pages make
            → self.new.state ≡ make (unwrap_or first refusal) }
        ensures goes { MatchBool result ((c : Config) × (self.new.state ≡ Running c)) (self.new.state ≡ Returned) }
        ensures answered { self.new.asked ≡ None }
        ensures program { self.new.program ≡ self.old.program }
    {
        let goes = self
            .activity
            .answer(self.valid.module(), first.unwrap_or(REFUSAL));
        self.ended = RunEnd::after_leaving(goes);
        self.asked = None;
        goes
    }
}
