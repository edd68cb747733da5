// Question 9 for edges: a full kept block above the last level has the edges of its first and last child, a block of the last level those of its leaf bytes,
// and any other block those that the walk of a short span reads.
ghost use Rattle.std.specs.Prelude.{true, ◌≡◌, ◌+◌, ◌-◌, ◌≤◌, ◌<◌, length};
ghost use Rattle.format.specs.Layout.{max_leaf};
ghost use Rattle.format.specs.Layout as at;
ghost use Rattle.format.specs.TreeReading.{text_of, edges_true, short_from};
ghost use Rattle.theory_edges.specs.EdgesLocal.{walked_edges, child_edges, has_full_children, edges_local, level_edges};
ghost use Rattle.walk_short.specs.Gathered.{gathered, InRange};
ghost use Rattle.check_edges.specs.EdgesMatch.{Linking, Edged, Leafy, found_is};

use crate::equal;
use layout::header::Header;
use layout::place::{BlockNumber, BlockPlace};
use layout::record;
use layout::settings::Settings;
use walk_short::gather;
use walk_short::gather::{BlockSpan, Parts};
use walk_steps::position::{BlockOffset, LevelAt};

// Whether the edge of m bytes at a place is the `own` bytes that were found, then zeros.
fn edge_right(t: &[u8], m: u32, at: usize, own: u32, found: Option<Parts>) -> bool
    requires { (at + m ≤ length t.now) × (own ≤ m) × (m ≤ max_leaf) × InRange t.now own found }
    ensures { result ≡ found_is t.now m at own found }
{
    let Some(q) = found else {
        return false;
    };
    if !equal::equal_at(t, at, q.from, q.size as usize) {
        return false;
    }
    let rest = own - q.size;
    if !equal::equal_at(t, at + q.size as usize, q.next, rest as usize) {
        return false;
    }
    byte_slices::all_zero(t, at + own as usize, m - own)
}

// Both edges of a block, by the walk of a short span.
fn walked_right(t: &[u8], h: Header, level: u32, b: u32, block: BlockNumber) -> bool
    requires { Edged t.now h level b block.0 }
    ensures { result ≡ walked_edges t.now level block.0 }
{
    let m = h.settings.leaf;
    let length = walk_steps::block_length(t, h.record_size, level, b, block);
    let own = byte_slices::min(m, length);
    let at = record::edges(t, h.record_size, h.settings.counted, level, block);
    let on = LevelAt { level, b };
    let here = BlockOffset {
        first: block,
        steps: 0,
    };
    let front = BlockSpan {
        place: BlockPlace(0),
        len: own,
    };
    let first = gather::gather(t, h.record_size, on, here, front, 0);
    if !edge_right(t, m, at, own, first) {
        return false;
    }
    let back = BlockSpan {
        place: BlockPlace(length - own),
        len: own,
    };
    let last = gather::gather(t, h.record_size, on, here, back, 0);
    edge_right(t, m, at + m as usize, own, last)
}

// Where the first leaf bytes of a block of the last level are.
fn leaf_bytes(t: &[u8], h: Header, level: u32, block: BlockNumber, own: u32) -> Option<Parts>
    requires { Leafy t.now h level block.0 own }
    ensures { result ≡ gathered 0 (short_from t.now ((at.settings t.now).levels - 1 - level) level (block.0 + 0) 0 own) }
{
    let link = record::link(t, h.record_size, level, block);
    Some(Parts {
        entered: 1,
        from: h.leaf_offset as usize + link.0 as usize,
        size: own,
        next: 0,
    })
}

// Both edges of a block of the last level.
fn leaf_right(t: &[u8], h: Header, level: u32, b: u32, block: BlockNumber) -> bool
    requires { (Edged t.now h level b block.0) × (level + 1 ≡ h.settings.levels) }
    ensures { result ≡ walked_edges t.now level block.0 }
{
    let m = h.settings.leaf;
    let own = walk_steps::block_length(t, h.record_size, level, b, block);
    let at = record::edges(t, h.record_size, h.settings.counted, level, block);
    let found = leaf_bytes(t, h, level, block, own);
    if !edge_right(t, m, at, own, found) {
        return false;
    }
    let again = leaf_bytes(t, h, level, block, own);
    edge_right(t, m, at + m as usize, own, again)
}

// The first edge is that of the first child, the last edge that of the last child.
fn child_right(t: &[u8], h: Header, level: u32, b: u32, block: BlockNumber) -> bool
    requires { (Edged t.now h level b block.0) × (has_full_children t.now level block.0 ≡ true) }
    ensures { result ≡ child_edges t.now level block.0 }
{
    let size = h.record_size;
    let counted = h.settings.counted;
    let m = h.settings.leaf as usize;
    let link = record::link(t, size, level, block);
    let at = record::edges(t, size, counted, level, block);
    let first = record::edges(t, size, counted, level + 1, BlockNumber(link.0));
    if !equal::equal_at(t, at, first, m) {
        return false;
    }
    let last_child = BlockNumber(link.0 + (h.settings.arity - 1));
    let last = record::edges(t, size, counted, level + 1, last_child);
    equal::equal_at(t, at + m, last + m, m)
}

// Whether a block above the last level is kept and full.
fn is_full(t: &[u8], h: Header, level: u32, b: u32, block: BlockNumber) -> bool
    requires { (Edged t.now h level b block.0) × (level + 1 < h.settings.levels) }
    ensures { result ≡ has_full_children t.now level block.0 }
{
    let kind = record::kind(t, h.record_size, level, block);
    if kind != 0 {
        return false;
    }
    let length = walk_steps::block_length(t, h.record_size, level, b, block);
    length == b
}

// Both edges of a block.
fn block_right(t: &[u8], h: Header, level: u32, b: u32, block: BlockNumber) -> bool
    requires { Edged t.now h level b block.0 }
    ensures { result ≡ edges_local t.now level block.0 }
{
    let down = level + 1;
    if down == h.settings.levels {
        return leaf_right(t, h, level, b, block);
    }
    if is_full(t, h, level, b, block) {
        return child_right(t, h, level, b, block);
    }
    walked_right(t, h, level, b, block)
}

// The edges of a level's blocks.
fn level_right(t: &[u8], h: Header, level: u32) -> bool
    requires { (Linking t.now h) × (at.layout t.now ≡ 2) × (level < (at.settings t.now).levels) }
    ensures { result ≡ level_edges t.now level }
{
    let b = h.settings.block_length(level);
    let n = record::level_count(t, level);
    for i in 0..n {
        if !block_right(t, h, level, b, BlockNumber(i)) {
            return false;
        }
    }
    true
}

// Whether the edges of a tree that passes questions 5 to 8 are right for the one text that fits it. A layout 1 tree has none.
pub fn edges_right(t: &[u8], h: Header) -> bool
    requires { Linking t.now h }
    ensures { result ≡ edges_true (text_of t.now) t.now }
{
    if h.layout != Settings::EDGED {
        return true;
    }
    for l in 0..h.settings.levels {
        if !level_right(t, h, l) {
            return false;
        }
    }
    true
}
