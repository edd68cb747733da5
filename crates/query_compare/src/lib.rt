// The lexicographic order of the texts of two trees: both are read up to the first difference.
#![tactic(auto)]

mod side_by_side;

ghost use Rattle.std.specs.Prelude.{◌≡◌};
ghost use Rattle.layout.specs.HeaderFields.{HeaderOf};
ghost use Rattle.query_compare.specs.OrderAnswers.{compare_answer, IsCompareAnswer, IsFirstAnswer};

use layout::header;
use layout::header::Header;
use refusals::Refusal;
use std::cmp::Ordering;

// Compares two trees of any settings: the order of the first text, with the length of the longest common prefix.
pub fn compare(one: &[u8], other: &[u8]) -> Result<(Ordering, u32), Refusal>
    ensures { IsCompareAnswer one.now other.now result }
{
    let h = header::read_header(one)?;
    compare_with(one, h, other)
}

// The first tree passes questions 5 to 7.
fn compare_with(one: &[u8], h: Header, other: &[u8]) -> Result<(Ordering, u32), Refusal>
    requires { HeaderOf one.now h }
    ensures { IsCompareAnswer one.now other.now result }
{
    let g = header::read_header(other)?;
    side_by_side::by_places(one, h, other, g)
}

// Compares two trees and returns the one whose text comes first, the first one if the texts are equal; an empty slice if refused. `order` is 1, 2 or 3:
// before, same, after.
pub fn first<'a>(
    one: &'a [u8],
    other: &'a [u8],
    number: &mut u32,
    order: &mut u32,
    shared: &mut u32,
) -> &'a [u8]
    ensures shared_after { record { number = number.exit.now; value = order.new; entered = shared.new }
        ≡ compare_answer one.now other.now }
    ensures first_answer { IsFirstAnswer (compare_answer one.now other.now) one.entry other.entry result }
{
    let compared = compare(one, other);
    match compared {
        Ok((side, length)) => {
            *number = 0;
            *shared = length;
            match side {
                Ordering::Less => {
                    *order = 1;
                    one
                }
                Ordering::Equal => {
                    *order = 2;
                    one
                }
                Ordering::Greater => {
                    *order = 3;
                    other
                }
            }
        }
        Err(refusal) => {
            *number = refusal.number();
            *order = 0;
            *shared = 0;
            &one[0..0]
        }
    }
}
