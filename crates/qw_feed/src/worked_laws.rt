//! Worked cases of the definitions, with numbers, stated as contracts. No function here computes anything.

ghost use Rattle.std.specs.Prelude.{◌≡◌, ℕ, ◌+◌, ◌*◌, ◌<◌, ◌≤◌, Bool, true, false, pos, negsuc, [], ◌∷◌, Ok, Err, Some, slice_set};
ghost use Rattle.qw_types.specs.declared.code.Code.TheVariants.{DivZero, OutOfRange};
ghost use Rattle.qw_types.specs.declared.truth.Truth.TheVariants.{True, False, Unknown};
ghost use Rattle.qw_types.specs.declared.value.Val.TheVariants as val;
ghost use Rattle.qw_low.specs.State.{Own, Number, Address, LowState, with_cell};
ghost use Rattle.qw_low.specs.Syntax.{skip, seq, assign, raise};
ghost use Rattle.qw_low.specs.Meaning.{Completed, meaning};
ghost use Rattle.qw_low.specs.Promise.{Ends};
ghost use Rattle.qw_feed.specs.Cells.{cells_block, HasCell};
ghost use Rattle.qw_feed.specs.Feeds.{nothing, one_row, both, flow_over, flow_by, where_true, Tells, spend, Any, AtMost, FeedsTo};
ghost use Rattle.qw_feed.specs.Frames.{pos as place, Before, Outside, From, Below, But, Keeps, Stored};
ghost use Rattle.qw_feed.specs.Room.{i32, HasRoom, Paid};
ghost use Rattle.qw_feed.specs.Rows.{in_order, push_block, finish_block, BesideRoot, HasRows, Fills, HasAnswer};
ghost use Rattle.qw_feed.specs.Scans.{rows_block};
ghost use Rattle.qw_feed.specs.Stages.{all_true, all_values, AreItems, AreTests};
ghost use Rattle.qw_feed.specs.Worked.{number, row_at, HasOne, two_rows, counted, count_one, in_local, seven, always};

/// Of objects of at most 24 octets each page but the last one has 65,512 at least: the second page is paid for by one object that is placed there,
/// the third one by 65,512 octets before it. What is paid for is never more pages than the octets and two pages' worth.
pub fn pages_that_are_paid()
    ensures first { Paid 65512 0 65536 1 }
    ensures second { Paid 65512 24 24 2 }
    ensures second_unpaid { Paid 65512 0 24 2 → ⊥ }
    ensures third { Paid 65512 65536 24 3 }
    ensures third_unpaid { Paid 65512 65535 24 3 → ⊥ }
    ensures bound { (most u budget offset held : ℕ) → Paid u budget offset held → budget + 2 * u < (most + 1) * u → held ≤ most }
{}

/// Places of the second part lie behind all of the first. Old locals below 8 are 0 and those from 5 to 7; and what lies beside the word that leads to
/// the first row is the octets before it, and those behind it up to the base.
pub fn locals_and_places()
    ensures placed { place 1 8 ≡ 4294967304 }
    ensures below { Below 8 0 × Below 8 5 × Below 8 7 }
    ensures not_below { (Below 8 1 → ⊥) × (Below 8 4 → ⊥) × (Below 8 8 → ⊥) }
    ensures from { From 3 0 × From 3 3 × (From 3 2 → ⊥) }
    ensures but { But 6 (Below 8) 5 × (But 6 (Below 8) 6 → ⊥) }
    ensures before { Before 64 60 4 × (Before 64 61 4 → ⊥) }
    ensures outside { Outside 64 88 60 4 × Outside 64 88 88 4 × (Outside 64 88 62 4 → ⊥) }
    ensures root { BesideRoot 64 4 4 × BesideRoot 64 12 52 × (BesideRoot 64 8 4 → ⊥) × (BesideRoot 64 60 8 → ⊥) }
{}

/// In a page whose first 112 octets are taken there is room from 112 on, and not before.
pub fn room_in_a_page()
    ensures there { HasRoom 0 112 two_rows }
    ensures taken { HasRoom 0 104 two_rows → ⊥ }
    ensures other_part { HasRoom 1 112 two_rows → ⊥ }
{}

/// A null's cell says so in its ninth octet. A number's has its 64 bits and 0 there.
pub fn cells_of_values()
    ensures number { HasCell (λ p offset octets. ⊥) two_rows.cells 0 72 (val.Num (pos 5)) }
    ensures other_number { HasCell (λ p offset octets. ⊥) two_rows.cells 0 72 (val.Num (pos 6)) → ⊥ }
    ensures null { HasCell (λ p offset octets. ⊥) two_rows.cells 0 72 val.Null → ⊥ }
{}

/// The rows of a result, from octet 64 on, are those that its chain has, the oldest first, and as many as are counted.
pub fn rows_of_a_result()
    ensures order { in_order (row_at 88 7 ∷ row_at 64 5 ∷ []) ≡ number 5 ∷ number 7 ∷ [] }
    ensures there { HasRows HasOne 24 64 65512 0 (number 5 ∷ number 7 ∷ []) two_rows }
    ensures fewer { HasRows HasOne 24 64 65512 0 (number 5 ∷ []) two_rows → ⊥ }
    ensures before_the_base { HasRows HasOne 24 65 65512 0 (number 5 ∷ number 7 ∷ []) two_rows → ⊥ }
{}

/// What is stored behind 112 keeps all that lies before it, and not what lies there. A local that is set isn't kept, and the others are.
pub fn what_is_kept()
    ensures stored { Stored (Before 112) two_rows (record two_rows { cells = with_cell two_rows.cells (Own 0) 120 8 (Number 2) }) }
    ensures elsewhere { Stored (Before 128) two_rows (record two_rows { cells = with_cell two_rows.cells (Own 0) 120 8 (Number 2) }) → ⊥ }
    ensures set { Keeps (From 5) (Before 65536) two_rows (record two_rows { locals = slice_set two_rows.locals 4 (Number 3) }) }
    ensures other { Keeps (From 4) (Before 65536) two_rows (record two_rows { locals = slice_set two_rows.locals 4 (Number 3) }) → ⊥ }
{}

/// The cell of the number 2, which a local has, is filled by the block that stores it, and not by none. A row of it is pushed behind the others, in at most
/// 36 instructions, unless a page is refused; and the descriptor's words lead to the two rows at the end.
pub fn rows_that_are_pushed()
    ensures filled { Fills HasOne 24 64 128 0 (number 2) (cells_block 8 (in_local ∷ [])) two_rows }
    ensures unfilled { Fills HasOne 24 64 128 0 (number 2) skip two_rows → ⊥ }
    ensures pushed { Ends 36 (λ t. Keeps (From 5) (BesideRoot 64) two_rows t × HasRows HasOne 24 64 65512 0 (number 5 ∷ number 7 ∷ number 2 ∷ []) t) (λ t. ⊥) (λ code. code ≡ 3)
        (meaning 128 0 (push_block 24 (cells_block 8 (in_local ∷ []))) two_rows) }
    ensures finished { Ends 12 (HasAnswer HasOne 24 64 (row_at 88 7 ∷ row_at 64 5 ∷ []) two_rows) (λ t. ⊥) (λ code. ⊥) (meaning 128 0 finish_block two_rows) }
{}

/// Flows come one after another, with all their exceptions; of an exception no row comes, and none where a condition isn't true.
pub fn flows_of_rows()
    ensures two { both (one_row (number 5)) (one_row (number 7)) ≡ record { rows = number 5 ∷ number 7 ∷ []; codes = [] } }
    ensures over { flow_over (λ n. both (one_row (number n)) (flow_by (Err DivZero) one_row)) (5 ∷ 7 ∷ []) ≡ record { rows = number 5 ∷ number 7 ∷ []; codes = DivZero ∷ DivZero ∷ [] } }
    ensures value { flow_by (Ok (number 5)) one_row ≡ one_row (number 5) }
    ensures condition { (where_true (one_row (number 5)) true ≡ one_row (number 5)) × (where_true (one_row (number 5)) false ≡ nothing) }
    ensures spent { spend (λ n. n) (3 ∷ 0 ∷ 5 ∷ []) ≡ 11 }
    ensures few { AtMost 2 (number 5 ∷ number 7 ∷ []) × (AtMost 1 (number 5 ∷ number 7 ∷ []) → ⊥) }
{}

/// A refusal may always be raised, and an exception only where it is of the flow.
pub fn what_is_raised()
    ensures refused { Tells [] 3 }
    ensures told { Tells (OutOfRange ∷ DivZero ∷ []) 1 }
    ensures untold { Tells (OutOfRange ∷ []) 1 → ⊥ }
    ensures none { Tells [] 1 → ⊥ }
{}

/// A block of nothing feeds no row, to whatever counts, and no block of nothing feeds a row. A block that counts one feeds one, in its own four
/// instructions, and not two. What raises an exception feeds a flow that has it, and no other. A block that sets a local doesn't keep it.
pub fn blocks_that_feed()
    ensures none { (most fuel N : ℕ) (s : LowState) → FeedsTo counted most fuel N (λ i. Unit {0}) Any nothing skip s }
    ensures no_row { FeedsTo counted 128 0 1 (λ i. ⊥) Any (one_row []) skip two_rows → ⊥ }
    ensures one { FeedsTo counted 128 0 1 (From 5) Any (one_row []) count_one two_rows }
    ensures not_two { FeedsTo counted 128 0 1 (From 5) Any (both (one_row []) (one_row [])) count_one two_rows → ⊥ }
    ensures in_no_time { FeedsTo counted 128 0 0 (From 5) Any (one_row []) count_one two_rows → ⊥ }
    ensures raised { FeedsTo counted 128 0 1 (λ i. Unit {0}) Any (record { rows = []; codes = DivZero ∷ [] }) (raise 1) two_rows }
    ensures other { FeedsTo counted 128 0 1 (λ i. Unit {0}) Any (record { rows = []; codes = OutOfRange ∷ [] }) (raise 1) two_rows → ⊥ }
    ensures unkept { FeedsTo counted 128 0 1 (λ i. i ≡ 1) Any nothing (assign 1 (i32 0)) two_rows → ⊥ }
    ensures besides { FeedsTo counted 128 0 1 (λ i. i ≡ 1) (λ t. ⊥) nothing skip two_rows → ⊥ }
{}

/// A scan counts its local down by four a row: from 8 on there are two.
pub fn rows_of_a_scan()
    ensures two_turns { meaning 128 3 (seq (assign 5 (i32 8)) (rows_block 5 count_one)) two_rows
        ≡ Completed 26 (record two_rows { locals = Address (Own 0) 0 ∷ Address (Own 0) 112 ∷ Number 65424 ∷ Address (Own 0) 88 ∷ Number 4 ∷ Number 0 ∷ [] }) }
{}

/// A block of nothing before 1 decides a conjunct that is true, and no other. One that puts 7 into the item's local makes the item 7.
pub fn blocks_of_stages()
    ensures true_one { AreTests 128 0 1 6 6 (λ stage s. Unit {0}) 0 (always ∷ []) (Ok True ∷ []) }
    ensures false_one { AreTests 128 0 1 6 6 (λ stage s. Unit {0}) 0 (always ∷ []) (Ok False ∷ []) → ⊥ }
    ensures none { AreTests 128 0 1 6 6 (λ stage s. Unit {0}) 0 (always ∷ []) [] → ⊥ }
    ensures item { AreItems 128 0 1 6 (λ s. Unit {0}) (λ p offset octets. ⊥) 5 (seven ∷ []) (Ok (val.Num (pos 7)) ∷ []) }
    ensures other_item { AreItems 128 0 1 6 (λ s. Unit {0}) (λ p offset octets. ⊥) 5 (seven ∷ []) (Ok (val.Num (pos 8)) ∷ []) → ⊥ }
    ensures beside { AreItems 128 0 1 6 (λ s. Unit {0}) (λ p offset octets. ⊥) 6 (seven ∷ []) (Ok (val.Num (pos 7)) ∷ []) → ⊥ }
{}

/// Conjuncts are decided from the left: after one that isn't true none raises. Items have the first exception.
pub fn conjuncts_and_items()
    ensures all { all_true (Ok True ∷ Ok True ∷ []) ≡ Ok true }
    ensures unknown { all_true (Ok Unknown ∷ Err DivZero ∷ []) ≡ Ok false }
    ensures untrue { all_true (Ok True ∷ Ok False ∷ Err DivZero ∷ []) ≡ Ok false }
    ensures exception { all_true (Ok True ∷ Err DivZero ∷ []) ≡ Err DivZero }
    ensures values { all_values (Ok (val.Num (pos 5)) ∷ []) ≡ Ok (number 5) }
    ensures first { all_values (Ok val.Null ∷ Err OutOfRange ∷ Err DivZero ∷ []) ≡ Err OutOfRange }
{}
