//! What the code of Low does, stated as contracts. No function here computes anything.

ghost use Rattle.std.specs.Prelude.{◌≡◌, ◌≢◌, ℕ, ◌+◌, List};
ghost use Rattle.qw_module.specs.Execution.{Store};
ghost use Rattle.qw_map.specs.Areas.{World};
ghost use Rattle.qw_map.specs.Runs.{Moment, OpenRun};
ghost use Rattle.qw_map.specs.Seen.{Seen, seen};
ghost use Rattle.qw_low.specs.Syntax.{Statement};
ghost use Rattle.qw_low.specs.State.{LowState};
ghost use Rattle.qw_low.specs.Meaning.{Unfinished, meaning};
ghost use Rattle.qw_low.specs.Places.{AreMeant, StandsFor, RunsAs, HasHosts, IsDone, beginning};

/// Every open run of a statement's code, over any memory that stands for a state, is the statement's run of the state. All of them come to its
/// end after one number of instructions, which is at most the run's count and at least half of it.
pub fn open_runs_are_low_runs()
    ensures { (most fuel : ℕ) (a : Statement) (s : LowState) (store : Store) (w : World) (memory locals : List ℕ) →
        HasHosts store → StandsFor w s memory → AreMeant w s.locals locals →
        RunsAs (meaning most fuel a s) most (beginning store w a locals memory) }
{}

/// All open runs of a statement's code, over memories that stand for one state, keep step: after as many instructions each holds as many
/// pages, had as many refused last, and ended alike or goes on.
pub fn open_runs_keep_step()
    ensures { (most fuel : ℕ) (a : Statement) (s : LowState) (store : Store) → HasHosts store →
        (course : ℕ → Seen) × (IsDone (meaning most fuel a s) → (w : World) (memory locals : List ℕ) → StandsFor w s memory → AreMeant w s.locals locals → (k : ℕ) (b : Moment) →
        OpenRun k (beginning store w a locals memory) b → seen b ≡ course k) }
{}

/// Where so many turns of each loop suffice, more that are allowed change nothing.
pub fn more_turns_change_nothing()
    ensures { (most fuel more : ℕ) (a : Statement) (s : LowState) → meaning most fuel a s ≢ Unfinished →
        meaning most (more + fuel) a s ≡ meaning most fuel a s }
{}
