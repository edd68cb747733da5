// Question 9: whether all counts before, inside and skip are right.
#![tactic(auto)]

ghost use Rattle.std.specs.Prelude.{◌≡◌};
ghost use Rattle.format.specs.TreeReading.{text_of, counts_true};
ghost use Rattle.check_counts.specs.CountsAsked.{Linking};

use layout::header::Header;

mod block_counts;
mod leaf_count;
mod level_counts;
mod prefix;

// Whether the counts of a tree that passes questions 5 to 8 are right for the one text that fits it. The levels are checked from the last one up.
pub fn counts_right(t: &[u8], h: Header) -> bool
    requires { Linking t.now h }
    ensures { result ≡ counts_true (text_of t.now) t.now }
{
    let mut b = h.settings.leaf;
    for level in (0..h.settings.levels).rev() {
        if !level_counts::level_right(t, h, level, b) {
            return false;
        }
        b *= h.settings.arity;
    }
    true
}
