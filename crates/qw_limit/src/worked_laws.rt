//! Worked cases of the definitions, with numbers, stated as contracts. No function here computes anything.

ghost use Rattle.std.specs.Prelude.{◌≡◌, ℕ, [], ◌∷◌, List};
ghost use Rattle.qw_types.specs.declared.value.Val.{Val};
ghost use Rattle.qw_low.specs.Meaning.{Completed, Stopped, Wrong, meaning};
ghost use Rattle.qw_low.specs.Syntax.{seq, while, local};
ghost use Rattle.qw_limit.specs.Counting.{CountsDown, EndsOrTakes, Spares, TakesAtLeast, guarded_block};
ghost use Rattle.qw_limit.specs.Limited.{HasFirst};
ghost use Rattle.qw_limit.specs.Worked.{number, seven, two_locals};

/// A block is done while the local is above 0, and counted: seven instructions more where it is done, and three where it isn't.
pub fn blocks_that_are_counted()
    ensures done { meaning 1 1 (guarded_block 0 (seven 1)) (two_locals 2 0) ≡ Completed 9 (two_locals 1 7) }
    ensures passed_over { meaning 1 1 (guarded_block 0 (seven 1)) (two_locals 0 0) ≡ Completed 3 (two_locals 0 0) }
    ensures last { meaning 1 1 (seq (guarded_block 0 (seven 1)) (guarded_block 0 (seven 1))) (two_locals 1 0) ≡ Completed 12 (two_locals 0 7) }
{}

/// A statement counts down where it sets the local in guarded blocks alone, and within these it doesn't set it otherwise.
pub fn statements_that_count_down()
    ensures guarded { CountsDown 0 (while (local 1) (seq (seven 1) (guarded_block 0 (seven 1)))) }
    ensures set { CountsDown 0 (seq (guarded_block 0 (seven 1)) (seven 0)) → ⊥ }
    ensures set_within { CountsDown 0 (guarded_block 0 (seven 0)) → ⊥ }
    ensures other { CountsDown 1 (guarded_block 0 (seven 1)) → ⊥ }
    ensures spared { Spares 0 (seven 1) × (Spares 0 (guarded_block 0 (seven 1)) → ⊥) }
{}

/// A run whose count is nine takes at least four instructions, and may take no five, since each `local.tee` of it counts two. Where it should leave
/// the first local 2 and leaves it 1, it ends in the other way alone, which it may if four instructions are long, and not if five are.
pub fn runs_that_take_long()
    ensures four { TakesAtLeast 4 (Completed 9 (two_locals 1 7)) }
    ensures not_five { TakesAtLeast 5 (Completed 9 (two_locals 1 7)) → ⊥ }
    ensures stopped { TakesAtLeast 4 (Stopped 3 9 (two_locals 1 7)) × (TakesAtLeast 4 Wrong → ⊥) }
    ensures as_it_should { EndsOrTakes 5 12 (λ t. t ≡ two_locals 1 7) (λ t. ⊥) (λ t. ⊥) (λ code. ⊥) (λ code. ⊥) (Completed 9 (two_locals 1 7)) }
    ensures long { EndsOrTakes 4 12 (λ t. ⊥) (λ t. t ≡ two_locals 1 7) (λ t. ⊥) (λ code. ⊥) (λ code. ⊥) (Completed 9 (two_locals 1 7)) }
    ensures not_long { EndsOrTakes 5 12 (λ t. ⊥) (λ t. t ≡ two_locals 1 7) (λ t. ⊥) (λ code. ⊥) (λ code. ⊥) (Completed 9 (two_locals 1 7)) → ⊥ }
{}

/// Of three rows a sink that takes two has the first two, and may take none more; of one it has one, and may take one.
pub fn rows_that_are_taken()
    ensures two { HasFirst 2 0 (λ rows t. rows ≡ number 5 ∷ number 7 ∷ []) (number 5 ∷ number 7 ∷ number 9 ∷ []) (two_locals 0 0) }
    ensures one { HasFirst 2 0 (λ rows t. rows ≡ number 5 ∷ []) (number 5 ∷ []) (two_locals 1 0) }
    ensures none_left { HasFirst 2 0 (λ rows t. rows ≡ number 5 ∷ number 7 ∷ []) (number 5 ∷ number 7 ∷ number 9 ∷ []) (two_locals 1 0) → ⊥ }
{}
