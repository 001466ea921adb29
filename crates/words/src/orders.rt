// The two orders, and the choice between them.

ghost use Rattle.std.specs.Prelude.{◌≡◌};
ghost use Rattle.words.specs.Order.{order_by};
ghost use Rattle.words.specs.Shortlex.{shortlex as shortlexOf};
ghost use Rattle.words.specs.Kachinuki.{kachinuki as kachinukiOf};
ghost use Rattle.words.specs.Answer.{ordering_of};

use crate::Order;
use std::cmp::Ordering;

// Order 0: by length, then by the first differing letter.
fn shortlex(a: &[u8], b: &[u8]) -> Ordering
    ensures { ordering_of result ≡ shortlexOf a.now b.now }
{
    a.len().cmp(&b.len()).then_with(|| a.cmp(b))
}

// Order 1: on the first letters, then on shorter words. (By `cmp` of the letters and a match the way through equal ones takes longer.)
fn kachinuki(a: &[u8], b: &[u8]) -> Ordering
    ensures { ordering_of result ≡ kachinukiOf a.now b.now }
{
    if a.is_empty() || b.is_empty() {
        return a.len().cmp(&b.len());
    }
    let t = &a[1..];
    let u = &b[1..];
    if a[0] == b[0] {
        kachinuki(t, u)
    } else if a[0] < b[0] {
        kachinuki(t, b).then(Ordering::Greater)
    } else {
        kachinuki(a, u).then(Ordering::Less)
    }
}

// Two words by the order that a header names.
#[tactic(auto, unfolding(crate::specs::Order::order_by))]
pub fn compare_by(order: Order, a: &[u8], b: &[u8]) -> Ordering
    ensures { ordering_of result ≡ order_by order a.now b.now }
{
    if order.code == 0 {
        shortlex(a, b)
    } else {
        kachinuki(a, b)
    }
}
