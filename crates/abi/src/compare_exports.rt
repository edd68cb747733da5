// The order of two trees' texts, exported to C.
ghost use Rattle.std.specs.Prelude.{◌≡◌};
ghost use Rattle.query_compare.specs.OrderAnswers.{compare_answer, code, first_given};

use crate::figures::put_u32;
use std::cmp::Ordering;

// Compares two trees: the order of the first text (1 before, 2 same, 3 after), the length of the longest common prefix, and which tree comes first (1 or 2; 1
// if the texts are equal).
pub fn bt_compare(
    one: &[u8],
    other: &[u8],
    order: &mut u32,
    shared: &mut u32,
    first: &mut u32,
) -> u32
    ensures shared_after { record { number = result; value = order.new; entered = shared.new } ≡ compare_answer one.now other.now }
    ensures first_after { first.new ≡ first_given (compare_answer one.now other.now).value }
{
    let compared = query_compare::compare(one, other);
    match compared {
        Ok((side, length)) => {
            *first = first_of(side);
            put_u32(order, code(side), put_u32(shared, length, 0))
        }
        Err(refusal) => {
            *first = 0;
            put_u32(order, 0, put_u32(shared, 0, refusal.number()))
        }
    }
}

// The number of an order.
fn code(side: Ordering) -> u32
    ensures { result ≡ code side }
{
    match side {
        Ordering::Less => 1,
        Ordering::Equal => 2,
        Ordering::Greater => 3,
    }
}

// The number of the tree that comes first.
fn first_of(side: Ordering) -> u32
    ensures { result ≡ first_given (code side) }
{
    match side {
        Ordering::Less => 1,
        Ordering::Equal => 1,
        Ordering::Greater => 2,
    }
}
