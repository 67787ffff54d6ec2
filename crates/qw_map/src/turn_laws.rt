//! What holds of instances that share one memory, for every list of turns. No function here computes anything.

ghost use Rattle.std.specs.Prelude.{◌≡◌, ◌≢◌, ℕ, ◌+◌, ◌-◌, ◌*◌, ◌/◌, ◌<◌, ◌≤◌, ◌⊎◌, Bool, true, false, List, Some, None, IsSome, length, slice_get, slice_index};
ghost use Rattle.std.specs.List.{AllByRecursion};
ghost use Rattle.qw_module.specs.Execution.{Config, Running};
ghost use Rattle.qw_linear.specs.Memory.{page, most_pages, pages_of, AreOctets};
ghost use Rattle.qw_module.specs.Step.{Next, next};
ghost use Rattle.qw_module.specs.Soundness.{IsTypedState};
ghost use Rattle.qw_map.specs.Areas.{SameIn, IsFine, grants, lies_in_one};
ghost use Rattle.qw_map.specs.Runs.{Moment, OpenRun, Behaves, BehavesWithin};
ghost use Rattle.qw_map.specs.Turns.{Instance, Common, Shared, Trap, is_back, own_of, placing, steps_of, Act, turn, acted, turns, EachInstance, EachAfter, IsWhole, AreSafe, moment_of, LeadsTo};

/// Whatever acts follow, an instance that has ended stays as it is, but that it may be released.
pub fn ended_stays_ended()
    ensures { (s : Shared) (acts : List Act) (k : ℕ) (i : Instance) →
        slice_get s.instances k ≡ Some i → IsSome i.end →
        (released : Bool) × (slice_get (turns acts s).instances k ≡ Some (record i { released = released })) }
{}

/// A turn changes the memory and the one instance that it is given to. Two turns of one instance one after the other are
/// one turn with the quanta added.
pub fn turns_are_of_one_instance()
    ensures others { (s : Shared) (j k quantum : ℕ) →
        k ≢ j → slice_get (acted s (turn j quantum)).instances k ≡ slice_get s.instances k }
    ensures many { (s : Shared) (acts : List Act) →
        length (turns acts s).instances ≡ length s.instances }
    ensures steps { (a b : ℕ) (i : Instance) (common : Common) →
        steps_of (a + b) i common ≡ steps_of b (steps_of a i common).0 (steps_of a i common).1 }
    ensures turn { (s : Shared) (j a b : ℕ) → acted s (turn j (a + b)) ≡ acted (acted s (turn j a)) (turn j b) }
{}

/// A turn takes at most its quantum of steps, and none once the instance has ended. A typed instance that has not ended
/// takes one at least, and all of them unless it ends.
pub fn turns_count_steps()
    ensures at_most { (quantum : ℕ) (i : Instance) (common : Common) →
        (i.ran ≤ (steps_of quantum i common).0.ran) × ((steps_of quantum i common).0.ran ≤ i.ran + quantum) }
    ensures none { (quantum : ℕ) (i : Instance) (common : Common) →
        IsSome i.end → steps_of quantum i common ≡ (i, common) }
    ensures some { (quantum : ℕ) (i : Instance) (common : Common) →
        IsWhole i → IsTypedState i.state → AreOctets common.memory → i.end ≡ None → quantum ≢ 0 →
        i.ran < (steps_of quantum i common).0.ran }
    ensures all { (quantum : ℕ) (i : Instance) (common : Common) →
        IsWhole i → IsTypedState i.state → AreOctets common.memory → pages_of common.memory ≤ most_pages →
        ((steps_of quantum i common).0.ran ≡ i.ran + quantum) ⊎ IsSome (steps_of quantum i common).0.end }
{}

/// Turns keep what is said of single instances: no instance runs more than it may, its end goes with its state, and, over a
/// memory of no more pages than there can be, its configuration stays typed.
pub fn turns_keep_instances()
    ensures whole { (s : Shared) (acts : List Act) →
        EachInstance IsWhole s → EachInstance IsWhole (turns acts s) }
    ensures typed { (s : Shared) (acts : List Act) →
        AreOctets s.common.memory → pages_of s.common.memory ≤ most_pages → EachInstance (λ i. IsTypedState i.state) s →
        AreOctets (turns acts s).common.memory × (pages_of (turns acts s).common.memory ≤ most_pages)
        × EachInstance (λ i. IsTypedState i.state) (turns acts s) }
{}

/// Instances lie apart in one memory, and each does only what it may in its open runs. Whatever turns they are given, that
/// is so after them, and what an instance went through is one of its open runs, with a step for each instruction
/// that it ran: the steps of the others are only what others may do to it, until its pages are given back. So it behaves on, with bounds or
/// without.
pub fn turns_are_open_runs()
    ensures safe { (behind : ℕ) (s : Shared) (acts : List Act) → AreSafe behind s → AreSafe behind (turns acts s) }
    ensures runs { (behind : ℕ) (s : Shared) (acts : List Act) → AreSafe behind s →
        EachAfter (λ i later. (i.ran ≤ later.ran) × LeadsTo (later.ran - i.ran)
        (moment_of i s.common.memory) (moment_of later (turns acts s).common.memory) (is_back later)) s (turns acts s) }
    ensures onwards { (n k : ℕ) (a b c : Moment) →
        LeadsTo n a b false → k ≢ 0 → OpenRun k b c → OpenRun (k + n) a c }
    ensures behaves { (behind : ℕ) (s : Shared) (acts : List Act) (left : ℕ) → AreSafe behind s →
        EachAfter (λ i later. is_back later ≡ false → Behaves left (λ b. Unit {0}) (moment_of i s.common.memory) →
        Behaves (left - (later.ran - i.ran)) (λ b. Unit {0}) (moment_of later (turns acts s).common.memory))
        s (turns acts s) }
    ensures within { (behind : ℕ) (s : Shared) (acts : List Act) (most pages left : ℕ) → AreSafe behind s →
        EachAfter (λ i later. is_back later ≡ false → BehavesWithin most pages left (λ b. Unit {0}) (moment_of i s.common.memory) →
        BehavesWithin (most - (later.ran - i.ran)) pages (left - (later.ran - i.ran)) (λ b. Unit {0}) (moment_of later (turns acts s).common.memory))
        s (turns acts s) }
{}

/// In the same setting, whatever turns came before, the next step of an instance that has not ended is fine: it loads from the columns that it
/// maps and its own areas, stores in its own areas, raises 3 only after a refused request, and does not trap. So no instance
/// ends with a trap.
pub fn steps_in_turns_are_fine()
    ensures fine { (behind : ℕ) (s : Shared) (acts : List Act) (c : Config) (t : Next) → AreSafe behind s →
        EachInstance (λ i. i.end ≡ None → i.state ≡ Running c → next (grants i.world) (placing (turns acts s).common) c (turns acts s).common.memory ≡ Some t →
        IsFine i.world t.event) (turns acts s) }
    ensures no_trap { (behind : ℕ) (s : Shared) (acts : List Act) → AreSafe behind s →
        EachInstance (λ i. i.end ≢ Some Trap) s → EachInstance (λ i. i.end ≢ Some Trap) (turns acts s) }
{}

/// In the same setting turns leave each octet of the mapped columns as it was, and the columns and limits of each
/// instance.
pub fn columns_stay()
    ensures octets { (behind : ℕ) (s : Shared) (acts : List Act) → AreSafe behind s →
        EachInstance (λ i. AllByRecursion (SameIn s.common.memory (turns acts s).common.memory) i.world.mapped) s }
    ensures maps { (behind : ℕ) (s : Shared) (acts : List Act) → AreSafe behind s →
        EachAfter (λ i later. (later.world.mapped ≡ i.world.mapped)
        × (later.world.limit ≡ i.world.limit) × (later.most_steps ≡ i.most_steps)) s (turns acts s) }
{}

/// In the same setting turns leave each octet of the memory that lies in no own area of any instance, and in no page that is free, as it was;
/// and so each one before the page from which on all lies but columns.
pub fn others_stay()
    ensures octets { (behind : ℕ) (s : Shared) (acts : List Act) (address : ℕ) → AreSafe behind s → address < length s.common.memory →
        EachInstance (λ i. lies_in_one (own_of i) address ≡ false) s → slice_get s.common.free (address / page) ≢ Some true →
        slice_index (turns acts s).common.memory address ≡ slice_index s.common.memory address }
    ensures front { (behind : ℕ) (s : Shared) (acts : List Act) (address : ℕ) → AreSafe behind s → address < behind * page →
        slice_index (turns acts s).common.memory address ≡ slice_index s.common.memory address }
{}
