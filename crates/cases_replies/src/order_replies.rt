// The order of two trees, printed.
use crate::say;

// The number, the order of the first in a word, the length of the longest common prefix, and which tree was returned.
pub fn order<'a>(one: &'a [u8], other: &'a [u8]) {
    let mut number: u32 = 0;
    let mut order: u32 = 0;
    let mut shared: u32 = 0;
    let first = query::first(one, other, &mut number, &mut order, &mut shared);
    say::number(number);
    word(order);
    say::figure(shared as u64);
    say::figure(which(first, one) as u64);
}

// Before, same or after; `-` if the comparison is refused.
fn word(order: u32) {
    match order {
        1 => {
            io::write_all(1, b" before");
        }
        2 => {
            io::write_all(1, b" same");
        }
        3 => {
            io::write_all(1, b" after");
        }
        _ => {
            io::write_all(1, b" -");
        }
    }
}

// Which tree this is, the first or the second; 0 for the empty part.
fn which(first: &[u8], one: &[u8]) -> u32 {
    if first.len() == 0 {
        return 0;
    }
    if byte_slices::equal(first, one) {
        return 1;
    }
    2
}
