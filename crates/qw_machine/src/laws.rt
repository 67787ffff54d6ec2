//! What holds of calls of valid modules, stated as a contract. No function here computes anything.

ghost use Rattle.std.specs.Prelude.{ℕ, ◌^◌, ◌<◌};
ghost use Rattle.qw_module.specs.Soundness.{IsTypedState};
ghost use Rattle.qw_module.specs.Start.{begun};
ghost use Rattle.qw_module.specs.Validity.{IsValid, IsShaped};
ghost use Rattle.qw_module.specs.declared.module.Module.{Module};

/// The run of a valid module of the shape begins typed, whatever its argument.
pub fn valid_modules_begin_typed()
    ensures { (m : Module) (number argument : ℕ) → IsValid m → IsShaped m number → argument < 2 ^ 32 →
        IsTypedState (begun m number argument) }
{}
