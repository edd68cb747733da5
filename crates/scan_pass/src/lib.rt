// One pass over the text for a level: enters its blocks and pairs in the table, then looks up every window of their lengths.
#![tactic(auto)]

mod enter;
mod pass;

ghost use Rattle.std.specs.Prelude.{◌≡◌, ◌+◌, ◌*◌, ◌≤◌, ◌<◌, length};
ghost use Rattle.scan_pass.specs.Passes.{Ordered, Answered, place_put, Counted};
ghost use Rattle.scan_hash_table.specs.Entries.{Laid, item_place_in};

use scan_hash_table::Items;
use text::TextPlace;

// The lengths of the blocks and pairs of a level: of full blocks, of full pairs, of a short block, of a pair with a short block; 0 if there is none.
#[derive(Clone, Copy)]
pub struct Lengths {
    pub block: u32,
    pub pair: u32,
    pub last: u32,
    pub ending: u32,
}

// Finds the first occurrence of every block and pair of a level. Returns the number of windows looked up.
pub fn scan(words: &mut [u32], text: &[u8], out: &[u8], it: Items) -> u32
    requires { Laid text.now out.now it (length words.old) × Ordered text.now out.now it }
    ensures answered { Answered text.now out.now it words.new }
    ensures counted { Counted text.now out.now it result }
{
    let lengths = enter::enter_level(words, text, out, it);
    pass::pass(words, text, out, it, lengths)
}

// The first occurrence of item x, by the table.
pub fn place_of(words: &[u32], n: u32, x: u32) -> TextPlace
    requires { (3 * x + 3 ≤ length words.now) × (n ≤ item_place_in words.now x → item_place_in words.now x < n + x) }
    ensures { result.0 ≡ place_put n words.now x }
{
    let w = words[3 * x as usize + 2];
    if w < n {
        return TextPlace(w);
    }
    TextPlace(words[3 * (w - n) as usize + 2])
}
