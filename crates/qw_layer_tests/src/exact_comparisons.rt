//! Comparison of numbers of unlike scales, at pairs that lie as near to one another as their scales allow. Which of a pair is
//! greater follows from how it is made.

ghost use Rattle.std.specs.Prelude.{◌≤◌};

use qw_types::arithmetic;
use std::cmp::Ordering;
use std::test::Fail;

/// A power of ten, from 10 to 1,000,000.
fn ten_to(digits: u8) -> i64 {
    match digits {
        1 => 10,
        2 => 100,
        3 => 1_000,
        4 => 10_000,
        5 => 100_000,
        _ => 1_000_000,
    }
}

/// How two numbers compare, where both have at most 18 digits.
fn order(a: i64, sa: u8, b: i64, sb: u8) -> Option<Ordering>
    requires { (sa ≤ 18) × (sb ≤ 18) }
{
    let limit = 1_000_000_000_000_000_000;
    if a.unsigned_abs() >= limit || b.unsigned_abs() >= limit {
        return None;
    }
    Some(arithmetic::compare(a, sa, b, sb))
}

/// Whether `number` at scale `few` and `number * 10^more + off` at scale `few + more` compare as 0 and `off` do, in both orders.
fn compares(number: i64, few: u8, more: u8, off: i64) -> bool
    requires { (few ≤ 12) × (more ≤ 6) }
{
    // Far from the limits, where the product and the sum would stop.
    let moved = number.saturating_mul(ten_to(more)).saturating_add(off);
    let many = few + more;
    let wanted = 0.cmp(&off);
    order(number, few, moved, many) == Some(wanted)
        && order(moved, many, number, few) == Some(wanted.reverse())
}

/// 468 pairs.
#[test]
fn unlike_scales(rt: HostRuntime) {
    for few in 0..13 {
        for more in 1..7 {
            for off in &[-1, 0, 1] {
                assert!(rt; compares(7, few, more, *off));
                assert!(rt; compares(-7, few, more, *off));
            }
        }
    }
}
