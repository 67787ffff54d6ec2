//! What holds of every compiled module. No function here computes anything.

ghost use Rattle.std.specs.Prelude.{◌≡◌, ℕ, List, ◌∷◌};
ghost use Rattle.qw_types.specs.declared.value.Val.{Val};
ghost use Rattle.qw_module.specs.declared.module.Module.{Module};
ghost use Rattle.qw_module.specs.Validity.{IsShaped};
ghost use Rattle.qw_meaning.specs.Outcome.{Rows};
ghost use Rattle.qw_meaning.specs.Select.{AreOfEntries};
ghost use Rattle.qw_map.specs.Behaving.{BehavesWith};
ghost use Rattle.qw_map.specs.Layout.{Layout, IsReady};
ghost use Rattle.qw_map.specs.declared.layout.Placed.{Placed};
ghost use Rattle.qw_promise.specs.Compiled.{IsCompiled, module_weight};
ghost use Rattle.qw_promise.specs.Promise.{Promise};

/// A compiled form keeps what is asked of a job.
pub fn compiled_behaves()
    ensures { (promise : Promise) (layout : Layout) (m : Module) → IsCompiled promise layout m → BehavesWith layout m }
{}

/// A module without an instruction is the compiled form of nothing that comes to a row over some tables of its entries, for which a
/// memory is ready. So no constant module is the compiled form of every query.
pub fn empty_modules()
    ensures { (promise : Promise) (layout : Layout) (m : Module) (tables : List (List (List Val))) (row : List Val) (rows : List (List Val)) →
        AreOfEntries promise.entries tables → promise.outcome tables ≡ Rows (row ∷ rows) →
        (placed : List Placed) (descriptor limit : ℕ) (memory : List ℕ) → IsReady layout placed tables descriptor limit memory →
        module_weight m ≡ 0 → IsCompiled promise layout m → ⊥ }
{}
