//! Worked cases of the definitions, with numbers, stated as contracts. No function here computes anything.

ghost use Rattle.std.specs.Prelude.{◌≡◌, ℕ, pos, Bool, true, false, List, [], ◌∷◌, None};
ghost use Rattle.qw_types.specs.Contents.{Contents};
ghost use Rattle.qw_types.specs.declared.value.Ty.TheVariants.{Integer, Date};
ghost use Rattle.qw_types.specs.declared.value.Val.TheVariants.{Num};
ghost use Rattle.qw_map.specs.declared.layout.Used.{Used};
ghost use Rattle.qw_bench.specs.declared.bench.Limits.{Limits};
ghost use Rattle.qw_module.specs.declared.instruction.Const.TheVariants.{I32};
ghost use Rattle.qw_module.specs.declared.instruction.Op.TheVariants.{Const};
ghost use Rattle.qw_module.specs.Execution.{Running};
ghost use Rattle.qw_module.specs.Syntax.{done, op};
ghost use Rattle.qw_map.specs.Areas.{World};
ghost use Rattle.qw_map.specs.Turns.{Shared, release, turn};
ghost use Rattle.qw_bench.specs.Bench.{AreRounds, AreTurns, IsColumnIn, Program, Task};
ghost use Rattle.qw_bench.specs.Standing.{AreLimits, AreTasksOf, total_pages};

/// Two instances, of which one has an instruction left to run and the other two: rounds of turns of one instruction are a
/// turn for each, in order, and then one for the second alone; of two instructions, a turn for each. Nothing less, and no
/// other order, is rounds until all have ended.
pub fn rounds_of_two_instances()
    ensures { (w : World) (memory : List ℕ) (free : List Bool) (s : Shared) → s ≡ record {
      common = record { memory = memory; free = free };
      instances =
          (record {
            state = Running (record { store = record { functions = []; globals = [] }; code = op (Const (I32 0)) done; operands = []; locals = []; contexts = [] });
            world = w;
            most_steps = 9;
            ran = 0;
            end = None;
            released = false;
          })
          ∷ (record {
            state = Running (record { store = record { functions = []; globals = [] }; code = op (Const (I32 0)) (op (Const (I32 0)) done); operands = []; locals = []; contexts = [] });
            world = w;
            most_steps = 9;
            ran = 0;
            end = None;
            released = false;
          })
          ∷ [];
    }
        → AreRounds 1 (turn 0 1 ∷ turn 1 1 ∷ turn 1 1 ∷ []) s × AreRounds 2 (turn 0 2 ∷ turn 1 2 ∷ []) s
        × (AreRounds 1 (turn 0 1 ∷ turn 1 1 ∷ []) s → ⊥) × (AreRounds 1 (turn 1 1 ∷ turn 0 1 ∷ turn 1 1 ∷ []) s → ⊥) }
{}

/// Turns alone, or nothing at all, are turns; a release among them isn't.
pub fn turns_without_a_release()
    ensures { AreTurns (turn 0 5 ∷ turn 1 7 ∷ []) × AreTurns [] × (AreTurns (turn 0 5 ∷ release 0 ∷ turn 1 7 ∷ []) → ⊥) }
{}

/// Two programs under two limits have two tasks, in order, each under its own limits: not under those of the other, not in
/// the other order, and not one of them alone.
pub fn tasks_of_two_programs()
    ensures { (p q : Program) (one two : Limits) (t u : Task) → one ≡ record { pages = 1; steps = 9 } → two ≡ record { pages = 5; steps = 7 }
        → t.program ≡ p → t.pages ≡ 1 → t.steps ≡ 9 → u.program ≡ q → u.pages ≡ 5 → u.steps ≡ 7
        → AreTasksOf (p ∷ q ∷ []) (one ∷ two ∷ []) (t ∷ u ∷ []) × (AreTasksOf (p ∷ q ∷ []) (two ∷ one ∷ []) (t ∷ u ∷ []) → ⊥)
        × (AreTasksOf (p ∷ q ∷ []) (one ∷ two ∷ []) (u ∷ t ∷ []) → ⊥) × (AreTasksOf (p ∷ q ∷ []) (one ∷ two ∷ []) (t ∷ []) → ⊥) }
{}

/// Two small tables, whose columns take one page together, and two limits, of 128 pages and of 5: 134 pages. The second limit
/// alone needs 6, and no limit leaves the page of the columns, which is there without a table too.
pub fn pages_of_two_tables_and_two_limits()
    ensures { (first second : Contents) (one two : Limits)
        → first ≡ record { columns = (record { ty = Integer; not_null = true }) ∷ []; rows = (Num (pos 7) ∷ []) ∷ (Num (pos 8) ∷ []) ∷ [] }
        → second ≡ record { columns = (record { ty = Date; not_null = false }) ∷ []; rows = [] }
        → one ≡ record { pages = 128; steps = 9 } → two ≡ record { pages = 5; steps = 7 }
        → (total_pages (first ∷ second ∷ []) (one ∷ two ∷ []) ≡ 134) × (total_pages (first ∷ second ∷ []) (two ∷ []) ≡ 6)
        × (total_pages (first ∷ second ∷ []) [] ≡ 1) × (total_pages [] [] ≡ 1) }
{}

/// The only column of the second of two tables is in them: as a DATE that may be null, and not as an INTEGER, not as one that
/// may not be null, not in the first table, and not as a second column.
pub fn a_column_of_two_tables()
    ensures { (first second : Contents) (tables : List Contents) (used : (table column : ℕ) → Used)
        → first ≡ record { columns = (record { ty = Integer; not_null = true }) ∷ []; rows = [] }
        → second ≡ record { columns = (record { ty = Date; not_null = false }) ∷ []; rows = [] } → tables ≡ first ∷ second ∷ []
        → used ≡ (λ table column. record { table = table; column = column; ty = Date; not_null = false })
        → IsColumnIn tables (used 1 0) × (IsColumnIn tables (record (used 1 0) { ty = Integer }) → ⊥)
        × (IsColumnIn tables (record (used 1 0) { not_null = true }) → ⊥) × (IsColumnIn tables (used 0 0) → ⊥) × (IsColumnIn tables (used 1 1) → ⊥)
        × (IsColumnIn tables (used 2 0) → ⊥) }
{}

/// An instance may hold from 1 to 65,535 pages, and run from 1 to 999,999,999,999,999,999 instructions.
pub fn limits_in_their_ranges()
    ensures { (limits : (pages steps : ℕ) → Limits) → limits ≡ (λ pages steps. record { pages = pages; steps = steps })
        → AreLimits (limits 1 1) × AreLimits (limits 65535 1) × (AreLimits (limits 0 1) → ⊥) × (AreLimits (limits 65536 1) → ⊥) × (AreLimits (limits 1 0) → ⊥)
        × AreLimits (limits 1 999999999999999999) × (AreLimits (limits 1 1000000000000000000) → ⊥) }
{}
