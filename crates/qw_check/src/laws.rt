//! Laws of checking, each the contract of a function that does nothing.

ghost use Rattle.std.specs.Prelude.{◌≡◌, ℕ, List};
ghost use Rattle.qw_check.specs.Check.{HasFault, SpellsValid};
ghost use Rattle.qw_check.specs.declared.check.CheckFault.{CheckFault};
ghost use Rattle.qw_check.specs.declared.check.CheckFault.TheVariants.{NoMemory};

use qw_binary::laws;

/// Octets have one fault at most, want of memory apart, and those of a valid module have none. So a call of `check` that answers
/// anything but want of memory gives the one answer.
pub fn one_answer()
    ensures one { (text : List ℕ) (fault other : CheckFault) → (fault ≡ NoMemory → ⊥) → (other ≡ NoMemory → ⊥) → HasFault text fault → HasFault text other → fault ≡ other }
    ensures never_both { (text : List ℕ) (fault : CheckFault) → SpellsValid text → HasFault text fault → fault ≡ NoMemory }
{
    laws::one_module();
    laws::one_fault();
}
