//! Whether the names of exports differ: they are sorted, and each compared with the next.

ghost use Rattle.std.specs.Prelude.{◌≡◌, ℕ, ◌<◌, ◌↔◌, length, slice_index_or, List, IsTrue, IfSome};
ghost use Rattle.std.specs.Borrow.{Bor};
ghost use Rattle.std.specs.List.{AllPairs};
ghost use Rattle.std.specs.String.{string_bytes};
ghost use Rattle.qw_module.specs.declared.module.Export.{Export};
ghost use Rattle.qw_module.specs.Validity.{HaveOtherNames};

use qw_module::module::Export;
use std::alloc::Global;

/// Whether no two exports have one name. `None` is want of memory.
pub(crate) fn names_differ(alloc: Global, exports: &[Export]) -> Option<bool>
    ensures { IfSome result (λ differ. IsTrue differ ↔ AllPairs HaveOtherNames exports.now) }
{
    let mut names = names_of(alloc, exports)?;
    names.sort_unstable();
    Some(names.is_sorted_by(|name, next| name < next))
}

/// The names of exports, in their order. `None` is want of memory.
fn names_of(alloc: Global, exports: &[Export]) -> Option<Vec<&str>>
    ensures count { IfSome result (λ names. length names.items ≡ length exports.now) }
    ensures each { IfSome result (λ names. (k : ℕ) (d : Bor (List ℕ)) (e : Export) → k < length exports.now →
        (slice_index_or names.items k d).now ≡ string_bytes (slice_index_or exports.now k e).name) }
{
    let mut names = Vec::with_capacity(alloc, exports.len()).ok()?;
    for export in exports {
        names.push(export.name.as_str()).ok()?;
    }
    Some(names)
}
