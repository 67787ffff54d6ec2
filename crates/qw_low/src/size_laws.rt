//! How many instructions the code of Low has, a `local.tee` counted as the `local.set` and the `local.get` that it is, stated as a
//! contract. No function here computes anything.

ghost use Rattle.std.specs.Prelude.{◌≡◌, ℕ, ◌+◌};
ghost use Rattle.qw_module.specs.Syntax.{Code};
ghost use Rattle.qw_module.specs.Start.{weight_with};
ghost use Rattle.qw_low.specs.Syntax.{Statement};
ghost use Rattle.qw_low.specs.Translation.{statement_code};
ghost use Rattle.qw_low.specs.Size.{size};

/// The code of a statement has as many instructions as its size says, before those that follow: of its own, and with those of the
/// functions that it calls too, where functions 0 and 1 have none.
pub fn code_has_its_size()
    ensures { (called : ℕ → ℕ) → called 0 ≡ 0 → called 1 ≡ 0 → (a : Statement) (k : Code) → weight_with called (statement_code a k) ≡ size a + weight_with called k }
{}
