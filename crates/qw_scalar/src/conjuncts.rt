//! Whether a row passes the conjuncts of a WHERE, as a slow program.

ghost use Rattle.std.specs.Prelude.{◌≡◌, map};
ghost use Rattle.std.specs.List.{All};
ghost use Rattle.qw_scalar.specs.Evaluation.{at_row};
ghost use Rattle.qw_scalar.specs.Columns.{HaveColumns, HoldsIn};
ghost use Rattle.qw_scalar.specs.Conjuncts.{passes};
ghost use Rattle.qw_scalar.specs.Tree.{condition_of};
ghost use Rattle.qw_scalar.specs.Typing.{AreTyped};

use crate::evaluate::condition;
use crate::expression::Cond;
use qw_types::{Code, Truth, Val};

/// Whether each conjunct is true at a row; they are evaluated in order, up to the first that isn't true.
///
/// # Errors
///
/// The exception of the first conjunct that has no truth, where those before it are true.
pub fn pass(conjuncts: &[Cond], row: &[Val]) -> Result<bool, Code>
    requires typed { All (λ c. AreTyped (condition_of c)) conjuncts.now }
    requires columns { All (λ c. HaveColumns (HoldsIn row.now) (condition_of c)) conjuncts.now }
    ensures { result ≡ passes (map condition_of conjuncts.now) (at_row row.now) }
{
    for conjunct in conjuncts {
        match condition(conjunct, row)? {
            Truth::True => {}
            Truth::False | Truth::Unknown => return Ok(false),
        }
    }
    Ok(true)
}
