//! The columns among leaves.

ghost use Rattle.std.specs.Prelude.{◌≡◌, IfOk};
ghost use Rattle.qw_leaves.specs.Leaves.{columns_among};

use crate::leaf::Leaf;
use qw_types::NoMemory;
use std::alloc::Global;

/// The numbers of the columns among leaves, in their order, each as often as it stands there.
///
/// # Errors
///
/// [`NoMemory`] where memory does not suffice.
pub fn columns_of(alloc: Global, leaves: &[Leaf]) -> Result<Vec<usize>, NoMemory>
    ensures { IfOk result (λ columns. columns.items ≡ columns_among leaves.now) }
{
    let mut columns = Vec::new(alloc);
    for leaf in leaves {
        match leaf {
            Leaf::Column(column, _) => columns.push(*column)?,
            Leaf::Number(_, _) | Leaf::Date(_) | Leaf::Text(_) => (),
        }
    }
    Ok(columns)
}
