//! What is known of columns and of texts where a run begins, over a memory that is ready for it: stated as contracts. No function here computes
//! anything.

ghost use Rattle.std.specs.Prelude.{◌≡◌, ◌≤◌, ◌+◌, ◌*◌, ◌++◌, ℕ, List, length, Some, slice_get};
ghost use Rattle.std.specs.List.{concat};
ghost use Rattle.qw_types.specs.declared.value.Val.{Val};
ghost use Rattle.qw_types.specs.Contents.{rows_of};
ghost use Rattle.qw_map.specs.Columns.{column_values, values_size};
ghost use Rattle.qw_linear.specs.Memory.{page};
ghost use Rattle.qw_map.specs.Layout.{Layout, descriptor_size, entry_offset, IsReady};
ghost use Rattle.qw_map.specs.declared.layout.Placed.{Placed};
ghost use Rattle.qw_map.specs.declared.layout.Used.{Used};
ghost use Rattle.qw_low.specs.State.{Own, Value};
ghost use Rattle.qw_low.specs.Begin.{first_state};
ghost use Rattle.qw_low.specs.Held.{LiesAt};
ghost use Rattle.qw_read.specs.Reading.{HasOctets, StandsAt};
ghost use Rattle.qw_read.specs.Texts.{AreFrom, LieThere};
ghost use Rattle.qw_read.specs.declared.literal.Literal.{Literal};

/// In the state in which the run begins, the value of each row of each column that the layout uses stands in the column's parts, where
/// blocks may read it.
pub fn columns_stand()
    ensures { (layout : Layout) (placed : List Placed) (tables : List (List (List Val))) (descriptor limit : ℕ) (memory : List ℕ) (locals : List Value) →
        IsReady layout placed tables descriptor limit memory → descriptor_size layout ≤ page → (k row : ℕ) (used : Used) (value : Val) → slice_get layout.columns k ≡ Some used →
        slice_get (column_values (rows_of tables used.table) used.column) row ≡ Some value →
        StandsAt (first_state layout tables limit locals).cells (first_state layout tables limit locals).columns k used.ty used.not_null row value }
{}

/// In that state the values of each column have a place for each row of its table.
pub fn columns_are_long()
    ensures { (layout : Layout) (placed : List Placed) (tables : List (List (List Val))) (descriptor limit : ℕ) (memory : List ℕ) (locals : List Value) →
        IsReady layout placed tables descriptor limit memory → descriptor_size layout ≤ page → (k : ℕ) (used : Used) → slice_get layout.columns k ≡ Some used →
        HasOctets (first_state layout tables limit locals).columns (3 * k) (values_size used.ty (length (rows_of tables used.table))) }
{}

/// In that state a text among the octets of the layout's texts lies in the first page, behind the descriptor's entries and the texts before
/// it; and so do all of them, whose literals are one behind another.
pub fn texts_lie()
    ensures one { (layout : Layout) (placed : List Placed) (tables : List (List (List Val))) (descriptor limit : ℕ) (memory : List ℕ) (locals : List Value) →
        IsReady layout placed tables descriptor limit memory → descriptor_size layout ≤ page → (before octets after : List ℕ) → layout.literals ≡ before ++ (octets ++ after) →
        LiesAt (first_state layout tables limit locals) (Own 0) (entry_offset (length layout.columns) + length before) octets }
    ensures all { (layout : Layout) (placed : List Placed) (tables : List (List (List Val))) (descriptor limit : ℕ) (memory : List ℕ) (locals : List Value) →
        IsReady layout placed tables descriptor limit memory → descriptor_size layout ≤ page → (literals : List Literal) (texts : List (List ℕ)) → layout.literals ≡ concat texts →
        AreFrom (entry_offset (length layout.columns)) literals texts → LieThere (first_state layout tables limit locals) literals texts }
{}
