//! What holds of the result rows of an instance in the memory. No function here computes anything.

ghost use Rattle.std.specs.Prelude.{◌≡◌, ℕ, List, Some};
ghost use Rattle.qw_types.specs.declared.value.Val.{Val};
ghost use Rattle.qw_map.specs.Areas.{World, Others};
ghost use Rattle.qw_map.specs.Layout.{Layout, rows_at};

/// The result rows of an instance stay whatever others do.
pub fn results_stay()
    ensures { (layout : Layout) (w : World) (before after : List ℕ) (descriptor : ℕ) (rows : List (List Val)) →
        Others w before after →
        rows_at layout w before descriptor ≡ Some rows → rows_at layout w after descriptor ≡ Some rows }
{}
