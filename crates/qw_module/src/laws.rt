//! What holds of the definitions of execution, stated as contracts. No function here computes anything.

ghost use Rattle.std.specs.Prelude.{◌≡◌, ℕ, Bool, ◌+◌, ◌*◌, ◌≤◌, List, [], ◌∷◌, Some, IsSome, length};
ghost use Rattle.qw_linear.specs.Memory.{page, pages_of, most_pages, AreOctets};
ghost use Rattle.qw_module.specs.Execution.{Config, Event, State, Step, pages_gained};
ghost use Rattle.qw_module.specs.Step.{Next, next, Agrees, AnswerAlike};
ghost use Rattle.qw_module.specs.Syntax.{Code};
ghost use Rattle.qw_module.specs.Typing.{Typed};
ghost use Rattle.qw_module.specs.Soundness.{IsTyped, IsTypedState};
ghost use Rattle.qw_module.specs.Places.{Token, tokens_of, Typing, scope_in, body, IsTypable, IsRefusedAt};

/// The rules of execution and the step that is computed say the same, where each request is granted as `grants` answers, and one to the
/// host at `place`.
pub fn step_is_computed()
    ensures by_rule { (grants : ℕ → Bool) (place : ℕ → ℕ) (c : Config) (m : List ℕ) (e : Event) (s : State) (after : List ℕ) →
        Step c m e s after → Agrees grants place e → next grants place c m ≡ Some (record { event = e; state = s; memory = after }) }
    ensures by_computing { (grants : ℕ → Bool) (place : ℕ → ℕ) (c : Config) (m : List ℕ) (n : Next) →
        next grants place c m ≡ Some n → Step c m n.event n.state n.memory }
{}

/// A configuration over a memory makes at most one step, and at a request at most one for each answer.
pub fn step_is_deterministic()
    ensures { (c : Config) (m : List ℕ) (e f : Event) (s t : State) (after other : List ℕ) →
        Step c m e s after → Step c m f t other → AnswerAlike e f → (e ≡ f) × (s ≡ t) × (after ≡ other) }
{}

/// Type soundness: a typed configuration makes a step, and over a memory that holds octets, and no more pages than there can be,
/// each step leads to a typed state. Whatever the configuration, the memory stays one of octets and of no more pages, and one of
/// whole pages is longer by those that were granted and that it had not.
pub fn typed_configurations_go_on()
    ensures progress { (grants : ℕ → Bool) (place : ℕ → ℕ) (c : Config) (m : List ℕ) → IsTyped c → IsSome (next grants place c m) }
    ensures preservation { (grants : ℕ → Bool) (place : ℕ → ℕ) (c : Config) (m : List ℕ) (n : Next) →
        IsTyped c → AreOctets m → pages_of m ≤ most_pages → next grants place c m ≡ Some n → IsTypedState n.state }
    ensures memory { (grants : ℕ → Bool) (place : ℕ → ℕ) (c : Config) (m : List ℕ) (n : Next) →
        AreOctets m → next grants place c m ≡ Some n → AreOctets n.memory }
    ensures pages { (grants : ℕ → Bool) (place : ℕ → ℕ) (c : Config) (m : List ℕ) (n : Next) →
        pages_of m ≤ most_pages → next grants place c m ≡ Some n → pages_of n.memory ≤ most_pages }
    ensures size { (grants : ℕ → Bool) (place : ℕ → ℕ) (c : Config) (m : List ℕ) (n : Next) →
        length m ≡ pages_of m * page → next grants place c m ≡ Some n → length n.memory ≡ length m + pages_gained m n.event * page }
{}

/// The places of a body are typable exactly where the body is typed by the standard's rules. Then none is refused, and otherwise
/// one at most is the first.
pub fn places_are_typed()
    ensures typed { (f : Typing) (code : Code) → IsTypable f (tokens_of code) → Typed (scope_in f (body ∷ [])) code [] f.results }
    ensures typable { (f : Typing) (code : Code) → Typed (scope_in f (body ∷ [])) code [] f.results → IsTypable f (tokens_of code) }
    ensures none_refused { (f : Typing) (tokens : List Token) (at : ℕ) → IsTypable f tokens → IsRefusedAt f tokens at → ⊥ }
    ensures one_refused { (f : Typing) (tokens : List Token) (at other : ℕ) → IsRefusedAt f tokens at → IsRefusedAt f tokens other → at ≡ other }
{}
