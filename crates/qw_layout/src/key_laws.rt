//! What holds of packs and of hashes. No function here computes anything.

ghost use Rattle.std.specs.Prelude.{◌≡◌, ◌↔◌, ◌<◌, true, List};
ghost use Rattle.qw_types.specs.ValueOrder.{is_same_row};
ghost use Rattle.qw_types.specs.declared.value.Val.{Val};
ghost use Rattle.qw_layout.specs.declared.key.Shape.{Shape};
ghost use Rattle.qw_layout.specs.Hash.{key_hash, slot};
ghost use Rattle.qw_layout.specs.Key.{pack};

use qw_types::value_order_laws::order_laws;

/// Packs are equal exactly where keys aren't distinct. Keys that aren't distinct have equal hashes, and are in one slot of a directory.
pub fn packs_tell_keys()
    ensures packs { (shape : Shape) (key other : List Val) → pack shape key ≡ pack shape other ↔ is_same_row key other ≡ true }
    ensures hashes { (key other : List Val) → is_same_row key other ≡ true → key_hash key ≡ key_hash other }
    ensures slots { (key other : List Val) → is_same_row key other ≡ true → slot key ≡ slot other }
    ensures below { (key : List Val) → slot key < 1024 }
{
    order_laws();
}
