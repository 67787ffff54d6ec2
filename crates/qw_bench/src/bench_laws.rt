//! What holds of instances that share one memory, for every list of turns and releases. No function here computes anything.

ghost use Rattle.std.specs.Prelude.{◌≡◌, ℕ, List, IsSome};
ghost use Rattle.qw_types.specs.Contents.{Contents};
ghost use Rattle.qw_meaning.specs.Select.{AreOfEntries};
ghost use Rattle.qw_promise.specs.Compiled.{IsCompiled};
ghost use Rattle.qw_promise.specs.Promise.{Promise};
ghost use Rattle.qw_map.specs.Seen.{IsSteady};
ghost use Rattle.qw_map.specs.Turns.{Shared, Act, turns};
ghost use Rattle.qw_module.specs.Validity.{IsShaped};
ghost use Rattle.qw_bench.specs.Alike.{AreAlike, AreEqual, EndAlike};
ghost use Rattle.qw_bench.specs.Bench.{AreServing, AreTurns, EachTask, IsAt, IsStart, Task, released_in, rows_in_tables};

/// From their start on, whatever turns they are given and whichever are released, instances serve their tasks over the tables.
pub fn turns_serve()
    ensures start { (tables : List Contents) (tasks : List Task) (s : Shared) → IsStart tables tasks s → AreServing tables tasks s }
    ensures turns { (tables : List Contents) (tasks : List Task) (s : Shared) (acts : List Act) →
        AreServing tables tasks s → AreServing tables tasks (turns acts s) }
{}

/// From the start on, whatever turns the instances are given and whichever are released, one whose module is compiled for what is promised,
/// with its layout, ends within the bounds of instructions and pages, and answers as long as it isn't released, where the tables are those
/// of the promise's entries. It ends in no other way than at an exception of the outcome, or at a limit of its own that lies below its bound.
pub fn compiled_answers()
    ensures { (tables : List Contents) (tasks : List Task) (s : Shared) (acts : List Act) (promise : Promise) → IsStart tables tasks s →
        EachTask (λ t i. IsCompiled promise t.program.layout t.program.module' → AreOfEntries promise.entries (rows_in_tables tables) →
        (number : ℕ) × IsShaped t.program.module' number × IsAt promise (rows_in_tables tables) (turns acts s).common.memory t number i i.end)
        tasks (turns acts s) }
{}

/// Of any two memories with their tables, tasks, turns and releases: where two tasks are alike, of a module that is steady with its layout, and both
/// instances have ended, they have ended alike, whatever other tables, tasks and turns there are.
pub fn alike_tasks_end_alike()
    ensures { (tables others : List Contents) (tasks others_tasks : List Task) (s t : Shared) (acts others_acts : List Act) → IsStart tables tasks s → IsStart others others_tasks t →
        EachTask (λ one i. EachTask (λ another j. IsSteady one.program.layout one.program.module' → AreAlike tables one others another → IsSome i.end → IsSome j.end →
        EndAlike (turns acts s).common.memory one i (turns others_acts t).common.memory another j) others_tasks (turns others_acts t)) tasks (turns acts s) }
{}

/// Turns alone release nobody.
pub fn turns_release_none()
    ensures { (acts : List Act) (s : Shared) (k : ℕ) → AreTurns acts → released_in (turns acts s) k ≡ released_in s k }
{}

/// So one compiled module, under equal limits and over equal rows in the tables that its promise reads, ends alike in whatever company: with the
/// same rows in their order, or the same exception or limit, after as many instructions, with as many pages.
pub fn equal_queries_end_alike()
    ensures { (tables others : List Contents) (tasks others_tasks : List Task) (s t : Shared) (acts others_acts : List Act) (promise : Promise) →
        IsStart tables tasks s → IsStart others others_tasks t →
        EachTask (λ one i. EachTask (λ another j. IsCompiled promise one.program.layout one.program.module' → AreEqual promise tables one others another →
        IsSome i.end → IsSome j.end → EndAlike (turns acts s).common.memory one i (turns others_acts t).common.memory another j)
        others_tasks (turns others_acts t)) tasks (turns acts s) }
{}
