// The count walk: how often a counted byte occurs in a kept block up to a place. It enters one child on each level.
ghost use Rattle.std.specs.Prelude.{◌≡◌, ◌+◌, ◌-◌, ◌≤◌, ◌<◌};
ghost use Rattle.format.specs.Layout as at;
ghost use Rattle.theory_counts.specs.CountsLocal.{in_leaf_bytes, up_to};
ghost use Rattle.check_counts.specs.CountsAsked.{InTable, InBlock, KeptPlace, InKept};
ghost use Rattle.check_counts.specs.PrefixTargets.{target_of, child_of, last_sum, step_of};

use crate::leaf_count;
use layout::place::{BlockNumber, BlockPlace};
use layout::{fields, header, record};
use walk_steps::position::{BlockPosition, LevelAt};

// The kept block of a level that contains a place, and what is added and subtracted on the way to it.
#[derive(Clone, Copy)]
pub struct PrefixTarget {
    pub block: BlockNumber,
    pub place: BlockPlace,
    pub plus: u64,
    pub minus: u64,
}

// How often counted byte number c occurs in the first n leaf bytes of a block of the last level.
pub fn in_leaves(t: &[u8], size: u32, level: u32, block: BlockNumber, n: u32, c: u32) -> u64
    requires { (InTable t.now size level block.0 c) × (level + 1 ≡ (at.settings t.now).levels) × (n ≤ at.block_length_at t.now level block.0) }
    ensures { (result ≡ in_leaf_bytes t.now level block.0 n c) × (result ≤ n) }
{
    let shape = fields::shape_of(t);
    let link = record::link(t, size, level, block);
    let from = shape.leaf_offset as usize + link.0 as usize;
    let byte = t[header::COUNTED_AT + c as usize];
    leaf_count::leaf_count(t, from, n, byte) as u64
}

// The kept block for a place: a kept block itself; for a pointing block its first target, or the second if the place is past the end of the first.
pub fn prefix_target(
    t: &[u8],
    size: u32,
    on: LevelAt,
    position: BlockPosition,
    c: u32,
) -> PrefixTarget
    requires { (on.b ≡ at.full_length t.now on.level) × InBlock t.now size on.level position.block.0 position.place.0 c }
    ensures { (result ≡ target_of t.now on.level position.block.0 position.place.0 c) × (result.plus < 4294967296) }
{
    let from = position.block;
    let kind = record::kind(t, size, on.level, from);
    if kind == 0 {
        let place = position.place;
        return PrefixTarget {
            block: from,
            place,
            plus: 0,
            minus: 0,
        };
    }
    let link = record::link(t, size, on.level, from);
    let gap = record::gap(t, size, on.level, from);
    let skip = record::skip(t, size, on.level, from, c) as u64;
    let at = gap.0 + position.place.0;
    if at < on.b {
        return PrefixTarget {
            block: BlockNumber(link.0),
            place: BlockPlace(at),
            plus: 0,
            minus: skip,
        };
    }
    PrefixTarget {
        block: BlockNumber(link.0 + 1),
        place: BlockPlace(at - on.b),
        plus: record::inside(t, size, on.level, BlockNumber(link.0), c) as u64,
        minus: skip,
    }
}

// From a kept block to the child that contains a place; b is the block length of the children.
fn child_of(t: &[u8], size: u32, level: u32, b: u32, position: BlockPosition) -> BlockPosition
    requires { (b ≡ at.full_length t.now (level + 1)) × (level + 1 < (at.settings t.now).levels)
        × KeptPlace t.now size level position.block.0 position.place.0 }
    ensures { result ≡ child_of t.now level position.block.0 position.place.0 }
{
    let link = record::link(t, size, level, position.block);
    let part = walk_steps::div_rem(position.place, b);
    let place = part.place;
    BlockPosition {
        block: BlockNumber(link.0 + part.blocks),
        place,
    }
}

// How often counted byte number c occurs in the parent of a block of the last level, up to a place of the block.
fn in_last(t: &[u8], size: u32, level: u32, position: BlockPosition, c: u32) -> u64
    requires { (level + 1 ≡ (at.settings t.now).levels) × InBlock t.now size level position.block.0 position.place.0 c }
    ensures { result ≡ last_sum t.now level position.block.0 position.place.0 c }
{
    let before = record::before(t, size, level, position.block, c);
    let within = in_leaves(t, size, level, position.block, position.place.0 + 1, c);
    before as u64 + within
}

// The kept block for a place of a child, with the child's count before.
fn step(t: &[u8], size: u32, on: LevelAt, position: BlockPosition, c: u32) -> PrefixTarget
    requires { (on.b ≡ at.full_length t.now on.level) × InBlock t.now size on.level position.block.0 position.place.0 c }
    ensures { (result ≡ step_of t.now on.level position.block.0 position.place.0 c) × (result.plus < 8589934592) }
{
    let before = record::before(t, size, on.level, position.block, c);
    let holder = prefix_target(t, size, on, position, c);
    let block = holder.block;
    let place = holder.place;
    PrefixTarget {
        block,
        place,
        plus: before as u64 + holder.plus,
        minus: holder.minus,
    }
}

// How often counted byte number c occurs in a kept block above the last level up to a place, included. The number of levels left decreases.
pub fn up_to(t: &&[u8], size: u32, on: LevelAt, position: BlockPosition, c: u32) -> u64
    requires { (on.b ≡ at.full_length t.now.now on.level) × (on.level + 1 < (at.settings t.now.now).levels)
        × InKept t.now.now size on.level position.block.0 position.place.0 c }
    ensures { result ≡ up_to t.now.now
        ((at.settings t.now.now).levels - 1 - on.level) on.level position.block.0 position.place.0 c }
{
    let tree = *t;
    let shape = fields::shape_of(tree);
    let down = on.level + 1;
    let below = walk_steps::quotient(on.b, shape.arity);
    let child = child_of(tree, size, on.level, below, position);
    if down + 1 == shape.levels {
        return in_last(tree, size, down, child, c);
    }
    let under = LevelAt {
        level: down,
        b: below,
    };
    let holder = step(tree, size, under, child, c);
    let block = holder.block;
    let place = holder.place;
    let rest = up_to(t, size, under, BlockPosition { block, place }, c);
    holder.plus + rest - holder.minus
}
