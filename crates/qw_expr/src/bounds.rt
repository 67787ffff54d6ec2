//! Numbers on which no operator raises (ISO/IEC 9075:1992, 6.12), by the greatest magnitudes that they may have.

ghost use Rattle.std.specs.Prelude.{◌≡◌, ◌-◌, ◌*◌, ◌<◌, ◌≤◌, ◌+◌, ◌^◌, IfSome};
ghost use Rattle.qw_scalar.specs.declared.expression.Operator.TheVariants.{Add, Subtract, Multiply};
ghost use Rattle.qw_scalar.specs.Typing.{ScalesAllowed};
ghost use Rattle.qw_expr.specs.Inner.Guards.{Stays};

use qw_scalar::expression::Operator;
use qw_wide::arithmetic::{GREATEST, ten_to};

/// The scale of a number, and the greatest magnitude that it may have.
#[derive(Clone, Copy)]
pub(crate) struct Bounds {
    pub(crate) scale: u8,
    pub(crate) most: u64,
}

/// A magnitude of at most 18 digits: none of any other.
fn within(magnitude: u128) -> Option<u64>
    ensures same { IfSome result (λ out. out ≡ magnitude) }
    ensures few { IfSome result (λ out. out < 10 ^ 18) }
{
    if magnitude > u128::from(GREATEST) {
        None
    } else {
        Some(magnitude as u64)
    }
}

impl Bounds {
    /// The greatest magnitude at a scale that is no smaller, where it has at most 18 digits.
    fn brought(self, scale: u8) -> Option<u64>
        requires { (self.scale ≤ scale) × (scale ≤ 18) }
        ensures same { IfSome result (λ out. out ≡ self.most * 10 ^ (scale - self.scale)) }
        ensures few { IfSome result (λ out. out < 10 ^ 18) }
    {
        within(u128::from(self.most) * u128::from(ten_to(scale - self.scale)))
    }

    /// The bounds of a sum or a difference, where neither it nor bringing its operands to one scale raises.
    fn added(self, other: Bounds) -> Option<Bounds>
        requires scales { (self.scale ≤ 18) × (other.scale ≤ 18) }
        ensures { IfSome result (λ out. Stays Add self.scale self.most other.scale other.most out.scale out.most × Stays Subtract self.scale self.most other.scale other.most out.scale out.most) }
    {
        let scale = self.scale.max(other.scale);
        let left = self.brought(scale)?;
        let right = other.brought(scale)?;
        let most = within(u128::from(left) + u128::from(right))?;
        Some(Bounds { scale, most })
    }

    /// The bounds of a product, where it doesn't raise.
    fn multiplied(self, other: Bounds) -> Option<Bounds>
        requires scales { self.scale + other.scale ≤ 18 }
        ensures { IfSome result (λ out. Stays Multiply self.scale self.most other.scale other.most out.scale out.most) }
    {
        let most = within(u128::from(self.most) * u128::from(other.most))?;
        Some(Bounds {
            scale: self.scale + other.scale,
            most,
        })
    }

    /// The bounds of what an operator gives on numbers within these, where it raises on none of them. A quotient may always raise.
    pub(crate) fn operated(self, operator: Operator, other: Bounds) -> Option<Bounds>
        requires scales { (self.scale ≤ 18) × (other.scale ≤ 18) }
        requires allowed { ScalesAllowed operator self.scale other.scale }
        ensures { IfSome result (λ out. Stays operator self.scale self.most other.scale other.most out.scale out.most) }
    {
        match operator {
            Operator::Add | Operator::Subtract => self.added(other),
            Operator::Multiply => self.multiplied(other),
            Operator::Divide => None,
        }
    }
}
