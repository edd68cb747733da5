// The end of a path among the leaf bytes, and how far the leaf bytes of the following blocks continue the text.
ghost use Rattle.std.specs.Prelude.{◌&&◌, ◌≡◌, ◌+◌, ◌-◌, ◌≤◌, ◌<◌, eqb};
ghost use Rattle.format.specs.Layout as at;
ghost use Rattle.format.specs.TreeReading.{is_kept_block};
ghost use Rattle.format.specs.Layout.{max_text};
ghost use Rattle.layout.specs.HeaderFields.{HeaderOf};
ghost use Rattle.walk_path.specs.Above.{above_of};
ghost use Rattle.walk_path.specs.Walk.{walked, walked_in};
ghost use Rattle.walk_ranges.specs.LeafEnds.{EndsIn, LeafEndOf, Joined};

use layout::header::Header;
use layout::place::{BlockNumber, BlockPlace, TextPlace};
use layout::record;

// The block of the last level in which a path ends, the place in it, the number of its leaf byte, the smallest number of bytes left in a block above the last
// level, and the number of blocks entered.
#[derive(Clone, Copy)]
pub struct LeafEnd {
    pub block: BlockNumber,
    pub place: BlockPlace,
    pub leaf: u32,
    pub left: u32,
    pub entered: u32,
}

// The end of the path of a place of the text, from the word of its walk: question 14.
pub fn end_of(t: &[u8], h: Header, p: TextPlace, word: u64) -> Option<LeafEnd>
    requires { (HeaderOf t.now h) × (p.0 < h.text_length)
        × (walked_in word ≡ walked t.now (record { entered = 0; left = h.text_length - p.0 }) (above_of t.now p.0)) }
    ensures { LeafEndOf t.now p.0 result }
{
    let reached = walk_path::unpacked(word)?;
    let block = reached.block;
    let place = reached.place;
    let last = h.settings.levels - 1;
    let kind = record::kind(t, h.record_size, last, block);
    if kind != 0 {
        return None;
    }
    let link = record::link(t, h.record_size, last, block);
    let leaf = link.0 as u64 + place.0 as u64;
    if h.leaf_count as u64 <= leaf {
        return None;
    }
    Some(LeafEnd {
        block,
        place,
        leaf: leaf as u32,
        left: reached.state.left,
        entered: reached.state.entered + 1,
    })
}

// Whether a block of the last level is in the table, is kept, and has this leaf byte first.
fn follows(t: &[u8], h: Header, number: u64, leaf: u64) -> bool
    requires { HeaderOf t.now h }
    ensures { result ≡ (is_kept_block t.now ((at.settings t.now).levels - 1) number
        && eqb (at.link t.now ((at.settings t.now).levels - 1) number) leaf) }
{
    let last = h.settings.levels - 1;
    let count = record::level_count(t, last) as u64;
    if count <= number {
        return false;
    }
    let block = BlockNumber(number as u32);
    let kind = record::kind(t, h.record_size, last, block);
    if kind != 0 {
        return false;
    }
    let link = record::link(t, h.record_size, last, block);
    link.0 as u64 == leaf
}

// The number of leaf bytes from the end of a path on that belong to consecutive blocks with consecutive leaf bytes: `most`, rounded up to the end of a block,
// or fewer.
pub fn joined(t: &[u8], h: Header, end: LeafEnd, most: u32) -> u32
    requires { (HeaderOf t.now h) × (EndsIn t.now end) × (most ≤ max_text) }
    ensures { Joined t.now end result }
{
    let m = h.settings.leaf;
    let count = record::level_count(t, h.settings.levels - 1) as u64;
    let mut n: u32 = m - end.place.0;
    for next in end.block.0 as u64 + 1..count {
        if most <= n || !follows(t, h, next, end.leaf as u64 + n as u64) {
            return n;
        }
        n += m;
    }
    n
}
