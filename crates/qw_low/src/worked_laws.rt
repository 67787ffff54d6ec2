//! Worked cases of the definitions, with numbers, stated as contracts. No function here computes anything.

ghost use Rattle.std.specs.Prelude.{◌≡◌, ℕ, List, [], ◌∷◌, length, Some, None};
ghost use Rattle.qw_module.specs.declared.instruction.ValType.TheVariants.{I32, I64};
ghost use Rattle.qw_module.specs.declared.instruction.Sign.TheVariants.{Unsigned};
ghost use Rattle.qw_module.specs.declared.instruction.Const.TheVariants as const;
ghost use Rattle.qw_module.specs.declared.instruction.Binary.TheVariants.{Add, Sub, Mul};
ghost use Rattle.qw_module.specs.declared.instruction.Relation.TheVariants.{Eq};
ghost use Rattle.qw_module.specs.declared.instruction.Division.TheVariants.{Div};
ghost use Rattle.qw_module.specs.declared.instruction.Op.TheVariants as o;
ghost use Rattle.qw_module.specs.declared.instruction.Load.TheVariants as loads;
ghost use Rattle.qw_module.specs.declared.instruction.Store.TheVariants as stores;
ghost use Rattle.qw_linear.specs.Memory.{number_at, AreOctets};
ghost use Rattle.qw_module.specs.Execution.{Store};
ghost use Rattle.qw_module.specs.Syntax.{done, op, loop, if_then, br_if, return, call};
ghost use Rattle.qw_map.specs.Areas.{World};
ghost use Rattle.qw_map.specs.Runs.{Moment, OpenRun};
ghost use Rattle.qw_map.specs.Seen.{seen};
ghost use Rattle.qw_map.specs.Turns.{Done, Pages};
ghost use Rattle.qw_low.specs.Syntax.{constant_of, local, binop, divop, is_zero, advance, retreat, skip, seq, assign, load, store, conditional, while, request, raise, exit};
ghost use Rattle.qw_low.specs.State.{Column, Own, Value, Number, Address, with_cell, with_pages};
ghost use Rattle.qw_low.specs.Meaning.{value, Completed, Exited, Stopped, Wrong, Unfinished, meaning};
ghost use Rattle.qw_low.specs.Translation.{statement_code};
ghost use Rattle.qw_low.specs.Places.{Means, AreMeant, Holds, Fits, StandsFor, IsOutcome, EndsAfter, HasHosts, beginning};
ghost use Rattle.qw_low.specs.Begin.{descriptor_word};
ghost use Rattle.qw_low.specs.Worked.{i32, state, nearly_full, world, two_columns};

/// Addresses stay within their part, and a number is no address.
pub fn values_of_addresses()
    ensures moved { value state (advance (local 1) (i32 8)) ≡ Some (Address (Column 0) 8) }
    ensures at_the_end { value state (advance (local 1) (i32 12)) ≡ Some (Address (Column 0) 12) }
    ensures past_the_end { value state (advance (local 1) (i32 13)) ≡ None }
    ensures back { value state (retreat (advance (local 1) (i32 8)) (i32 6)) ≡ Some (Address (Column 0) 2) }
    ensures at_the_start { value state (retreat (advance (local 1) (i32 8)) (i32 8)) ≡ Some (Address (Column 0) 0) }
    ensures before_the_start { value state (retreat (advance (local 1) (i32 8)) (i32 9)) ≡ None }
    ensures no_place { value state (retreat (i32 8) (i32 6)) ≡ None }
    ensures no_distance { value state (retreat (local 1) (local 1)) ≡ None }
    ensures no_address { value state (advance (local 2) (i32 8)) ≡ None }
    ensures no_number { value state (binop I32 Add (local 1) (i32 8)) ≡ None }
    ensures tested { (value state (is_zero I32 (local 1)) ≡ Some (Number 0)) × (value state (is_zero I32 (i32 0)) ≡ Some (Number 1))
        × (value state (is_zero I64 (local 1)) ≡ None) }
    ensures trapping { value state (divop I32 (Div Unsigned) (local 2) (i32 0)) ≡ None }
    ensures missing { value state (local 3) ≡ None }
{}

/// A countdown from 2 counts 7 instructions a turn, of which a `local.tee` is two, and 2 for its last test; with two turns allowed it is
/// unfinished.
pub fn counts_of_a_loop()
    ensures three_turns { meaning 128 3 (while (local 2) (assign 2 (binop I32 Sub (local 2) (i32 1)))) state
        ≡ Completed 16 (record state { locals = Address (Own 0) 0 ∷ Address (Column 0) 0 ∷ Number 0 ∷ [] }) }
    ensures two_turns { meaning 128 2 (while (local 2) (assign 2 (binop I32 Sub (local 2) (i32 1)))) state ≡ Unfinished }
{}

/// An address leads a choice as a number above 0 does. What ends a run is not gone on from.
pub fn counts_of_choices()
    ensures address { meaning 128 0 (conditional (local 0) (raise 1) skip) state ≡ Stopped 1 4 state }
    ensures number { meaning 128 0 (conditional (i32 0) (raise 1) (raise 2)) state ≡ Stopped 2 4 state }
    ensures left { meaning 128 0 (seq exit (raise 1)) state ≡ Exited 1 state }
    ensures codes { (meaning 128 0 (raise 0) state ≡ Wrong) × (meaning 128 0 (raise 3) state ≡ Wrong) }
{}

/// A store leaves its value in its cell, nothing that is known where it overlaps, and all else as it was. It is wrong in a column
/// and past the end of a part.
pub fn stores_of_words()
    ensures there { meaning 128 0 (store (stores.Full I32) 8 (local 0) (i32 7)) state
        ≡ Completed 3 (record state { cells = with_cell state.cells (Own 0) 8 4 (Number 7) }) }
    ensures cell { with_cell state.cells (Own 0) 8 4 (Number 7) (Own 0) 8 4 ≡ Some (Number 7) }
    ensures overlapped { with_cell (with_cell state.cells (Own 0) 8 4 (Number 7)) (Own 0) 10 4 (Number 9) (Own 0) 8 4 ≡ None }
    ensures narrower { with_cell state.cells (Own 0) 8 4 (Number 7) (Own 0) 8 1 ≡ None }
    ensures beside { with_cell (with_cell state.cells (Own 0) 8 4 (Number 7)) (Own 0) 12 4 (Number 9) (Own 0) 8 4 ≡ Some (Number 7) }
    ensures other_part { with_cell (with_cell state.cells (Own 0) 8 4 (Number 7)) (Own 1) 8 4 (Number 9) (Own 0) 8 4 ≡ Some (Number 7) }
    ensures low_octets { meaning 128 0 (seq (store (stores.To8 I32) 0 (local 0) (i32 258)) (load 2 (loads.From8 I32 Unsigned) 0 (local 0))) state
        ≡ Completed 6 (record state {
          locals = Address (Own 0) 0 ∷ Address (Column 0) 0 ∷ Number 2 ∷ [];
          cells = with_cell state.cells (Own 0) 0 1 (Number 2);
        }) }
    ensures column { meaning 128 0 (store (stores.Full I32) 0 (local 1) (i32 7)) state ≡ Wrong }
    ensures past_the_end { meaning 128 0 (store (stores.Full I32) 65533 (local 0) (i32 7)) state ≡ Wrong }
    ensures unknown { meaning 128 0 (load 2 (loads.Full I32) 0 (local 0)) state ≡ Wrong }
    ensures half_an_address { meaning 128 0 (store (stores.To16 I32) 0 (local 0) (local 1)) state ≡ Wrong }
{}

/// With 127 of 128 pages held one page is granted, as a new part whose octets are 0, after 10 instructions, and two are refused
/// after 8. A request for no page, or past the most stated, is wrong.
pub fn requests_at_the_limit()
    ensures granted { meaning 200 0 (request (i32 1) 2) nearly_full ≡ Completed 10 (record (with_pages nearly_full 1) {
      locals = Address (Own 0) 0 ∷ Address (Column 0) 0 ∷ Address (Own 1) 0 ∷ [];
    }) }
    ensures new_part { ((with_pages nearly_full 1).own ≡ 65536 ∷ 65536 ∷ []) × ((with_pages nearly_full 1).held ≡ 128)
        × ((with_pages nearly_full 1).cells (Own 1) 65532 4 ≡ Some (Number 0)) × ((with_pages nearly_full 1).cells (Own 1) 65533 4 ≡ None)
        × ((with_pages nearly_full 1).cells (Own 0) 0 4 ≡ None) }
    ensures refused { meaning 200 0 (request (i32 2) 2) nearly_full ≡ Stopped 3 8 (record nearly_full { refused = Some 2 }) }
    ensures past_the_most { meaning 128 0 (request (i32 2) 2) nearly_full ≡ Wrong }
    ensures none { meaning 200 0 (request (i32 0) 2) nearly_full ≡ Wrong }
    ensures address { meaning 200 0 (request (local 0) 2) nearly_full ≡ Wrong }
{}

/// The code of a loop, in full.
pub fn code_of_a_loop()
    ensures { statement_code (while (local 0) (seq (assign 1 (i32 5)) exit)) done
        ≡ op (o.LocalGet 0) (if_then None (loop None (op (o.Const (const.I32 5)) (op (o.LocalSet 1) (return (op (o.LocalGet 0) (br_if 0 done))))) done) done) }
{}

/// A local that is set and got next is both in one `local.tee`, whatever set it, also where a loop's condition gets it. Where another local is
/// got next, or none, it is set alone.
pub fn code_of_tees()
    ensures assigned { statement_code (seq (assign 2 (i32 5)) (assign 1 (local 2))) done
        ≡ op (o.Const (const.I32 5)) (op (o.LocalTee 2) (op (o.LocalSet 1) done)) }
    ensures loaded { statement_code (seq (load 2 (loads.Full I32) 8 (local 0)) (assign 1 (local 2))) done
        ≡ op (o.LocalGet 0) (op (o.Load (loads.Full I32) (record { align = 0; offset = 8 })) (op (o.LocalTee 2) (op (o.LocalSet 1) done))) }
    ensures requested { statement_code (seq (request (i32 1) 2) (assign 1 (local 2))) done
        ≡ op (o.Const (const.I32 1)) (call 1 (op (o.LocalTee 2) (op (o.Const (const.I32 4294967295)) (op (o.Relation I32 Eq)
        (if_then None (op (o.Const (const.I32 3)) (call 0 done))
        (op (o.LocalGet 2) (op (o.Const (const.I32 65536)) (op (o.Binary I32 Mul) (op (o.LocalTee 2) (op (o.LocalSet 1) done)))))))))) }
    ensures in_a_loop { statement_code (while (local 2) (assign 2 (i32 0))) done
        ≡ op (o.LocalGet 2) (if_then None (loop None (op (o.Const (const.I32 0)) (op (o.LocalTee 2) (br_if 0 done))) done) done) }
    ensures another { statement_code (seq (assign 2 (i32 5)) (assign 1 (local 0))) done
        ≡ op (o.Const (const.I32 5)) (op (o.LocalSet 2) (op (o.LocalGet 0) (op (o.LocalSet 1) done))) }
    ensures later { statement_code (seq (assign 2 (i32 5)) (assign 1 (binop I32 Add (i32 1) (local 2)))) done
        ≡ op (o.Const (const.I32 5)) (op (o.LocalSet 2) (op (o.Const (const.I32 1)) (op (o.LocalGet 2) (op (o.Binary I32 Add) (op (o.LocalSet 1) done))))) }
{}

/// The words of addresses in a world whose column begins at 64, and whose page at 65,536.
pub fn words_of_addresses()
    ensures page { Means world (Address (Own 0) 8) 65544 }
    ensures column { Means world (Address (Column 0) 12) 76 }
    ensures past_the_end { Means world (Address (Column 0) 13) 77 → ⊥ }
    ensures elsewhere { Means world (Address (Own 0) 8) 65545 → ⊥ }
    ensures no_part { (word : ℕ) → Means world (Address (Own 1) 0) word → ⊥ }
    ensures number { (Means world (Number 7) 7) × (Means world (Number 7) 8 → ⊥) }
{}

/// A world fits a state whose parts have its sizes, if none begins at 0 and the own ones lie apart.
pub fn worlds_that_fit()
    ensures fitting { Fits world state }
    ensures smaller { (w : World) → w ≡ record world { mapped = (record { start = 64; size = 8 }) ∷ [] } → Fits w state → ⊥ }
    ensures at_zero { (w : World) → w ≡ record world { mapped = (record { start = 0; size = 12 }) ∷ [] } → Fits w state → ⊥ }
    ensures overlapping { (w : World) → w ≡ record world { mapped = (record { start = 65535; size = 12 }) ∷ [] } → Fits w state → ⊥ }
    ensures held { (w : World) → w ≡ record world { held = 2 } → Fits w state → ⊥ }
{}

/// Four octets of the page hold a number where they are its octets, little endian.
#[tactic(auto, unfolding(qw_linear::specs::Memory::number_at))]
pub fn cells_in_memory()
    ensures there { Holds (record world { own = (record { start = 1; size = 4 }) ∷ [] }) (0 ∷ 7 ∷ 1 ∷ 0 ∷ 0 ∷ []) (Own 0) 0 4 (Number 263) }
    ensures another { Holds (record world { own = (record { start = 1; size = 4 }) ∷ [] }) (0 ∷ 7 ∷ 1 ∷ 0 ∷ 0 ∷ []) (Own 0) 0 4 (Number 262) → ⊥ }
    ensures past_the_end { (v : Value) → Holds (record world { own = (record { start = 1; size = 4 }) ∷ [] }) (0 ∷ 7 ∷ 1 ∷ 0 ∷ 0 ∷ []) (Own 0) 1 4 v → ⊥ }
{}

/// A memory of two pages stands for the state, and one of one page doesn't, since the instance's page doesn't lie in it. What the state
/// knows of a cell stands in memory.
pub fn memories_that_stand()
    ensures two_pages { (memory : List ℕ) → length memory ≡ 131072 → AreOctets memory → StandsFor world state memory }
    ensures one_page { (memory : List ℕ) → length memory ≡ 65536 → StandsFor world state memory → ⊥ }
    ensures number { (memory : List ℕ) → StandsFor world (record state { cells = with_cell state.cells (Own 0) 8 4 (Number 7) }) memory →
        number_at memory 65544 4 ≡ 7 }
    ensures address { (memory : List ℕ) → StandsFor world (record state { cells = with_cell state.cells (Own 0) 8 4 (Address (Column 0) 4) }) memory →
        number_at memory 65544 4 ≡ 68 }
    ensures locals { AreMeant world state.locals (65536 ∷ 64 ∷ 2 ∷ []) }
{}

/// Each open run of a choice by an address, over a memory that stands for the state, raises 1 after 4 instructions.
pub fn open_runs_of_a_choice()
    ensures { (store : Store) (memory locals : List ℕ) → HasHosts store → StandsFor world state memory → AreMeant world state.locals locals →
        EndsAfter 4 128 (IsOutcome (Stopped 1 4 state)) (beginning store world (conditional (local 0) (raise 1) skip) locals memory) }
{}

/// A local that is set and got next costs its run one instruction fewer than it counts: each open run of two assignments has ended after 3
/// instructions where the count is 4, of the countdown from 2 after 14 where it is 16, and of a request that is granted and an assignment after
/// 11 where it is 12. Where another local is got next it ends after 4.
pub fn open_runs_of_tees()
    ensures teed { (store : Store) (memory locals : List ℕ) → HasHosts store → StandsFor world state memory → AreMeant world state.locals locals →
        EndsAfter 3 128 (IsOutcome (Completed 4 (record state { locals = Address (Own 0) 0 ∷ Number 5 ∷ Number 5 ∷ [] })))
        (beginning store world (seq (assign 2 (i32 5)) (assign 1 (local 2))) locals memory) }
    ensures counted { meaning 128 0 (seq (assign 2 (i32 5)) (assign 1 (local 2))) state
        ≡ Completed 4 (record state { locals = Address (Own 0) 0 ∷ Number 5 ∷ Number 5 ∷ [] }) }
    ensures countdown { (store : Store) (memory locals : List ℕ) → HasHosts store → StandsFor world state memory → AreMeant world state.locals locals →
        EndsAfter 14 128 (IsOutcome (Completed 16 (record state { locals = Address (Own 0) 0 ∷ Address (Column 0) 0 ∷ Number 0 ∷ [] })))
        (beginning store world (while (local 2) (assign 2 (binop I32 Sub (local 2) (i32 1)))) locals memory) }
    ensures requested { (store : Store) (w : World) (memory locals : List ℕ) → HasHosts store → StandsFor w nearly_full memory → AreMeant w nearly_full.locals locals →
        EndsAfter 11 200 (IsOutcome (Completed 12 (record (with_pages nearly_full 1) { locals = Address (Own 0) 0 ∷ Address (Own 1) 0 ∷ Address (Own 1) 0 ∷ [] })))
        (beginning store w (seq (request (i32 1) 2) (assign 1 (local 2))) locals memory) }
    ensures another { (store : Store) (memory locals : List ℕ) → HasHosts store → StandsFor world state memory → AreMeant world state.locals locals →
        EndsAfter 4 128 (IsOutcome (Completed 4 (record state { locals = Address (Own 0) 0 ∷ Address (Own 0) 0 ∷ Number 5 ∷ [] })))
        (beginning store world (seq (assign 2 (i32 5)) (assign 1 (local 0))) locals memory) }
{}

/// With 127 of 128 pages held, each open run of a request for one page holds 128 after its second instruction, and has ended after 10. One of two
/// pages has been refused them after its second instruction, and has ended after 8, with these numbers.
pub fn open_runs_of_requests()
    ensures before { (store : Store) (w : World) (memory locals : List ℕ) (b : Moment) → HasHosts store → StandsFor w nearly_full memory → AreMeant w nearly_full.locals locals →
        OpenRun 1 (beginning store w (request (i32 1) 2) locals memory) b → seen b ≡ record { held = 127; refused = None; end = None } }
    ensures granted { (store : Store) (w : World) (memory locals : List ℕ) (b : Moment) → HasHosts store → StandsFor w nearly_full memory → AreMeant w nearly_full.locals locals →
        OpenRun 2 (beginning store w (request (i32 1) 2) locals memory) b → seen b ≡ record { held = 128; refused = None; end = None } }
    ensures done { (store : Store) (w : World) (memory locals : List ℕ) (b : Moment) → HasHosts store → StandsFor w nearly_full memory → AreMeant w nearly_full.locals locals →
        OpenRun 10 (beginning store w (request (i32 1) 2) locals memory) b → seen b ≡ record { held = 128; refused = None; end = Some Done } }
    ensures refused { (store : Store) (w : World) (memory locals : List ℕ) (b : Moment) → HasHosts store → StandsFor w nearly_full memory → AreMeant w nearly_full.locals locals →
        OpenRun 2 (beginning store w (request (i32 2) 2) locals memory) b → seen b ≡ record { held = 127; refused = Some 2; end = None } }
    ensures stopped { (store : Store) (w : World) (memory locals : List ℕ) (b : Moment) → HasHosts store → StandsFor w nearly_full memory → AreMeant w nearly_full.locals locals →
        OpenRun 8 (beginning store w (request (i32 2) 2) locals memory) b → seen b ≡ record { held = 127; refused = Some 2; end = Some (Pages 127 2 128) } }
{}

/// The words of the descriptor of a layout of two columns, the second column a VARCHAR that may be null, over a table without rows: the first
/// free address, the end of the page, and of each column the parts that it has, 0 for those that it hasn't, and its rows.
pub fn words_of_a_descriptor()
    ensures head { (descriptor_word two_columns [] 0 ≡ Some (Address (Own 0) 96)) × (descriptor_word two_columns [] 4 ≡ Some (Address (Own 0) 65536))
        × (descriptor_word two_columns [] 8 ≡ None) × (descriptor_word two_columns [] 16 ≡ None) }
    ensures first { (descriptor_word two_columns [] 64 ≡ Some (Address (Column 0) 0)) × (descriptor_word two_columns [] 68 ≡ Some (Number 0))
        × (descriptor_word two_columns [] 72 ≡ Some (Number 0)) × (descriptor_word two_columns [] 76 ≡ Some (Number 0)) }
    ensures second { (descriptor_word two_columns [] 80 ≡ Some (Address (Column 3) 0)) × (descriptor_word two_columns [] 84 ≡ Some (Address (Column 5) 0))
        × (descriptor_word two_columns [] 88 ≡ Some (Address (Column 4) 0)) × (descriptor_word two_columns [] 92 ≡ Some (Number 0)) }
    ensures behind { (descriptor_word two_columns [] 96 ≡ None) × (descriptor_word two_columns [] 82 ≡ None) }
{}
