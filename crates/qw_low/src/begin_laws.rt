//! What is known where a run begins, over a memory that is ready for it: stated as contracts. No function here computes anything.

ghost use Rattle.std.specs.Prelude.{◌≡◌, ◌≤◌, ℕ, ◌+◌, ◌*◌, List, length, Some, slice_get};
ghost use Rattle.qw_types.specs.declared.value.Val.{Val};
ghost use Rattle.qw_types.specs.Contents.{rows_of};
ghost use Rattle.qw_linear.specs.Memory.{page};
ghost use Rattle.qw_map.specs.Columns.{column_values};
ghost use Rattle.qw_map.specs.Layout.{Layout, entry_offset, descriptor_size, first_world, IsReady};
ghost use Rattle.qw_map.specs.declared.layout.Placed.{Placed};
ghost use Rattle.qw_map.specs.declared.layout.Used.{Used};
ghost use Rattle.qw_low.specs.State.{Column, Own, Value, Number, Address};
ghost use Rattle.qw_low.specs.Places.{Means, StandsFor};
ghost use Rattle.qw_low.specs.Begin.{first_state, KnowsValue, KnowsNull, KnowsHead, KnowsEntry};

/// A memory that is ready for a run, of a layout whose descriptor fits a page, stands for the state in which the run begins, and its argument, the descriptor's address, for the
/// first page's.
pub fn ready_memories_stand()
    ensures stands { (layout : Layout) (placed : List Placed) (tables : List (List (List Val))) (descriptor limit : ℕ) (memory : List ℕ) (locals : List Value) →
        IsReady layout placed tables descriptor limit memory → descriptor_size layout ≤ page →
        StandsFor (first_world layout placed descriptor limit) (first_state layout tables limit locals) memory }
    ensures argument { (layout : Layout) (placed : List Placed) (descriptor limit : ℕ) →
        Means (first_world layout placed descriptor limit) (Address (Own 0) 0) descriptor }
{}

/// In that state the value of each row is known of each column that the layout uses, and whether it is null.
pub fn first_states_know_columns()
    ensures values { (layout : Layout) (placed : List Placed) (tables : List (List (List Val))) (descriptor limit : ℕ) (memory : List ℕ) (locals : List Value) →
        IsReady layout placed tables descriptor limit memory → (k row : ℕ) (used : Used) (value : Val) → slice_get layout.columns k ≡ Some used →
        slice_get (column_values (rows_of tables used.table) used.column) row ≡ Some value →
        KnowsValue (first_state layout tables limit locals).cells k used.ty row value }
    ensures nulls { (layout : Layout) (placed : List Placed) (tables : List (List (List Val))) (descriptor limit : ℕ) (memory : List ℕ) (locals : List Value) →
        IsReady layout placed tables descriptor limit memory → (k row : ℕ) (used : Used) (value : Val) → slice_get layout.columns k ≡ Some used →
        slice_get (column_values (rows_of tables used.table) used.column) row ≡ Some value →
        KnowsNull (first_state layout tables limit locals).cells k row used.not_null value }
{}

/// And so are the addresses and numbers of the descriptor: of each column its entry, and the octets of the texts; behind it there are
/// zeros.
pub fn first_states_know_descriptors()
    ensures head { (layout : Layout) (placed : List Placed) (tables : List (List (List Val))) (descriptor limit : ℕ) (memory : List ℕ) (locals : List Value) →
        IsReady layout placed tables descriptor limit memory →
        KnowsHead (first_state layout tables limit locals).cells layout }
    ensures entries { (layout : Layout) (placed : List Placed) (tables : List (List (List Val))) (descriptor limit : ℕ) (memory : List ℕ) (locals : List Value) →
        IsReady layout placed tables descriptor limit memory → (k : ℕ) (used : Used) → slice_get layout.columns k ≡ Some used →
        KnowsEntry (first_state layout tables limit locals).cells k used (length (rows_of tables used.table)) }
    ensures literals { (layout : Layout) (placed : List Placed) (tables : List (List (List Val))) (descriptor limit : ℕ) (memory : List ℕ) (locals : List Value) →
        IsReady layout placed tables descriptor limit memory → (k octet : ℕ) → slice_get layout.literals k ≡ Some octet →
        (first_state layout tables limit locals).cells (Own 0) (entry_offset (length layout.columns) + k) 1 ≡ Some (Number octet) }
    ensures zeros { (layout : Layout) (placed : List Placed) (tables : List (List (List Val))) (descriptor limit : ℕ) (memory : List ℕ) (locals : List Value) →
        IsReady layout placed tables descriptor limit memory → (offset width : ℕ) → descriptor_size layout ≤ offset → offset + width ≤ page →
        (first_state layout tables limit locals).cells (Own 0) offset width ≡ Some (Number 0) }
{}
