// Checks the counts of one counted byte in one block.
ghost use Rattle.std.specs.Prelude.{true, false, ◌≡◌, eqb};
ghost use Rattle.format.specs.Layout as at;
ghost use Rattle.theory_counts.specs.CountsLocal.{up_length, before_local, kept_inside, kept_local, pointing_skip, pointing_inside, pointing_local, block_local};
ghost use Rattle.check_counts.specs.CountsAsked.{InTable, TrueBelow};
ghost use Rattle.check_counts.specs.PrefixTargets.{child_length};

use crate::prefix;
use layout::place::{BlockNumber, BlockPlace};
use layout::{fields, record};
use walk_steps::position::{BlockPosition, LevelAt};

// The count before is 0 at the start of the parent, else the sum of before and inside of the left neighbour; `up` is the block length of the parent.
fn before_right(t: &[u8], size: u32, level: u32, up: u32, block: BlockNumber, c: u32) -> bool
    requires { (up ≡ up_length t.now level) × InTable t.now size level block.0 c }
    ensures { result ≡ eqb (at.before t.now level block.0 c) (before_local t.now level block.0 c) }
{
    let before = record::before(t, size, level, block, c);
    let start = record::start(t, size, level, block);
    let apart = start.0 % up;
    if apart == 0 {
        return before == 0;
    }
    let left = BlockNumber(block.0 - 1);
    let to_left = record::before(t, size, level, left, c) as u64;
    let in_left = record::inside(t, size, level, left, c) as u64;
    before as u64 == to_left + in_left
}

// The count inside of a kept block: that of its leaf bytes, or before plus inside of its last child. `below` is the block length of the children.
fn kept_inside(
    t: &[u8],
    size: u32,
    level: u32,
    b: u32,
    below: u32,
    block: BlockNumber,
    c: u32,
) -> u64
    requires { (b ≡ at.full_length t.now level) × (below ≡ child_length t.now level)
        × InTable t.now size level block.0 c × (at.is_kept t.now level block.0 ≡ true) }
    ensures { result ≡ kept_inside t.now level block.0 c }
{
    let shape = fields::shape_of(t);
    let length = walk_steps::block_length(t, size, level, b, block);
    let down = level + 1;
    if down == shape.levels {
        return prefix::in_leaves(t, size, level, block, length, c);
    }
    let link = record::link(t, size, level, block);
    let last = BlockNumber(link.0 + (length - 1) / below);
    let to_last = record::before(t, size, down, last, c) as u64;
    let in_last = record::inside(t, size, down, last, c) as u64;
    to_last + in_last
}

// A kept block has its count inside, and a skip of 0.
fn kept_right(
    t: &[u8],
    size: u32,
    level: u32,
    b: u32,
    below: u32,
    block: BlockNumber,
    c: u32,
) -> bool
    requires { (b ≡ at.full_length t.now level) × (below ≡ child_length t.now level)
        × InTable t.now size level block.0 c × (at.is_kept t.now level block.0 ≡ true) }
    ensures { result ≡ kept_local t.now level block.0 c }
{
    let skip = record::skip(t, size, level, block, c);
    if skip != 0 {
        return false;
    }
    let inside = record::inside(t, size, level, block, c);
    inside as u64 == kept_inside(t, size, level, b, below, block, c)
}

// How often the byte occurs in the linked block before the gap.
fn pointing_skip(t: &[u8], size: u32, level: u32, b: u32, block: BlockNumber, c: u32) -> u64
    requires { (b ≡ at.full_length t.now level)
        × InTable t.now size level block.0 c × (at.is_kept t.now level block.0 ≡ false) × TrueBelow t.now level }
    ensures { result ≡ pointing_skip t.now level block.0 c }
{
    let gap = record::gap(t, size, level, block);
    if gap.0 == 0 {
        return 0;
    }
    let link = record::link(t, size, level, block);
    let there = BlockPosition {
        block: BlockNumber(link.0),
        place: BlockPlace(gap.0 - 1),
    };
    prefix::up_to(&t, size, LevelAt { level, b }, there, c)
}

// How often the byte occurs in the linked blocks up to the end of the occurrence.
fn pointing_inside(t: &[u8], size: u32, level: u32, b: u32, block: BlockNumber, c: u32) -> u64
    requires { (b ≡ at.full_length t.now level)
        × InTable t.now size level block.0 c × (at.is_kept t.now level block.0 ≡ false) × TrueBelow t.now level }
    ensures { result ≡ pointing_inside t.now level block.0 c }
{
    let length = walk_steps::block_length(t, size, level, b, block);
    let end = BlockPosition {
        block,
        place: BlockPlace(length - 1),
    };
    let holder = prefix::prefix_target(t, size, LevelAt { level, b }, end, c);
    let next = holder.block;
    let place = holder.place;
    let there = BlockPosition { block: next, place };
    let rest = prefix::up_to(&t, size, LevelAt { level, b }, there, c);
    holder.plus + rest
}

// The skip and the count inside of a pointing block are those of the blocks that it points to.
fn pointing_right(t: &[u8], size: u32, level: u32, b: u32, block: BlockNumber, c: u32) -> bool
    requires { (b ≡ at.full_length t.now level)
        × InTable t.now size level block.0 c × (at.is_kept t.now level block.0 ≡ false) × TrueBelow t.now level }
    ensures { result ≡ pointing_local t.now level block.0 c }
{
    let skip = record::skip(t, size, level, block, c) as u64;
    let skipped = pointing_skip(t, size, level, b, block, c);
    if skip != skipped {
        return false;
    }
    let both = skip + record::inside(t, size, level, block, c) as u64;
    let counted = pointing_inside(t, size, level, b, block, c);
    both == counted
}

// The counts before, inside and skip of one counted byte in one block; the levels below have been checked.
pub fn block_right(
    t: &[u8],
    size: u32,
    on: LevelAt,
    up: u32,
    below: u32,
    block: BlockNumber,
    c: u32,
) -> bool
    requires { (on.b ≡ at.full_length t.now on.level) × (up ≡ up_length t.now on.level) × (below ≡ child_length t.now on.level)
        × InTable t.now size on.level block.0 c × TrueBelow t.now on.level }
    ensures { result ≡ block_local t.now on.level block.0 c }
{
    if !before_right(t, size, on.level, up, block, c) {
        return false;
    }
    let kind = record::kind(t, size, on.level, block);
    if kind == 0 {
        return kept_right(t, size, on.level, on.b, below, block, c);
    }
    pointing_right(t, size, on.level, on.b, block, c)
}
