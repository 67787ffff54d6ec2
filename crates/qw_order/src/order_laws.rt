//! What holds of rows that are sorted by keys. No function here computes anything.

ghost use Rattle.std.specs.Prelude.{◌≡◌, [], List};
ghost use Rattle.std.specs.Cmp.{IsTotalOrder};
ghost use Rattle.qw_types.specs.declared.value.Val.{Val};
ghost use Rattle.qw_order.specs.Order.{AreSorted, key_order};
ghost use Rattle.qw_order.specs.declared.sort_key.SortKey.{SortKey};

/// Rows can be sorted by any keys, and one list of them alone is sorted; by keys, rows stand in a total order.
pub fn sorted_rows_are_one_list()
    ensures there { (keys : List SortKey) (rows : List (List Val)) → (sorted : List (List Val)) × AreSorted keys rows sorted }
    ensures one { (keys : List SortKey) (rows sorted other : List (List Val)) → AreSorted keys rows sorted → AreSorted keys rows other → sorted ≡ other }
    ensures total { (keys : List SortKey) → IsTotalOrder (key_order keys) }
{}

/// Without keys the rows themselves are sorted, and nothing else is.
pub fn without_keys()
    ensures there { (rows : List (List Val)) → AreSorted [] rows rows }
    ensures only { (rows sorted : List (List Val)) → AreSorted [] rows sorted → sorted ≡ rows }
{}
