//! What blocks promise, on a loop and on a page that is asked for: stated as contracts. No function here computes anything.

ghost use Rattle.std.specs.Prelude.{◌≡◌, ℕ, ◌+◌, ◌*◌, ◌%◌, ◌^◌, ◌<◌, ◌≤◌, ◌⊎◌, List, length, Some, slice_get};
ghost use Rattle.qw_module.specs.declared.instruction.ValType.TheVariants.{I32};
ghost use Rattle.qw_module.specs.declared.instruction.Binary.TheVariants.{Sub};
ghost use Rattle.qw_module.specs.declared.instruction.Load.TheVariants as loads;
ghost use Rattle.qw_module.specs.declared.instruction.Store.TheVariants as stores;
ghost use Rattle.qw_module.specs.Execution.{Store, Returned, Raised};
ghost use Rattle.qw_map.specs.Areas.{World};
ghost use Rattle.qw_map.specs.Runs.{BehavesWithin};
ghost use Rattle.qw_low.specs.Places.{AreMeant, StandsFor, HasHosts, beginning};
ghost use Rattle.qw_low.specs.Syntax.{local, binop, skip, seq, assign, load, store, conditional, while, request, raise};
ghost use Rattle.qw_low.specs.State.{Number, LowState};
ghost use Rattle.qw_low.specs.Meaning.{meaning};
ghost use Rattle.qw_low.specs.Promise.{Ends};
ghost use Rattle.qw_low.specs.Worked.{i32};

/// A countdown from n, which would raise 1 at 0, ends after at most 9 instructions for each turn and 2 more, and raises nothing: by the
/// rules for sequences, choices, assignments and loops over units.
pub fn a_countdown_ends()
    ensures { (most fuel x n : ℕ) (s : LowState) → slice_get s.locals x ≡ Some (Number n) → x < length s.locals → n < 2 ^ 32 → n < fuel →
        Ends (n * 9 + 2) (λ t. slice_get t.locals x ≡ Some (Number 0)) (λ t. ⊥) (λ code. ⊥)
        (meaning most fuel (while (local x) (seq (conditional (local x) skip (raise 1)) (assign x (binop I32 Sub (local x) (i32 1))))) s) }
{}

/// A number that is stored in a page asked for, and loaded again, after at most 16 instructions; or 3 is raised, and nothing else.
pub fn a_page_is_used()
    ensures { (most fuel x y n : ℕ) (s : LowState) → x < length s.locals → y < length s.locals → s.held + 1 ≤ most →
        Ends 16 (λ t. slice_get t.locals y ≡ Some (Number (n % 2 ^ 32))) (λ t. ⊥) (λ code. code ≡ 3)
        (meaning most fuel (seq (request (i32 1) x) (seq (store (stores.Full I32) 8 (local x) (i32 n)) (load y (loads.Full I32) 8 (local x)))) s) }
{}

/// So in every open run of its code, over any memory that stands for a state: after at most 16 instructions it has returned, or raised 3.
pub fn open_runs_use_a_page()
    ensures { (most left x y n : ℕ) (s : LowState) (module_store : Store) (w : World) (memory locals : List ℕ) → HasHosts module_store → StandsFor w s memory → AreMeant w s.locals locals →
        x < length s.locals → y < length s.locals → s.held + 1 ≤ most →
        BehavesWithin 16 most left (λ b. (b.state ≡ Returned) ⊎ (b.state ≡ Raised 3))
        (beginning module_store w (seq (request (i32 1) x) (seq (store (stores.Full I32) 8 (local x) (i32 n)) (load y (loads.Full I32) 8 (local x)))) locals memory) }
{}
