// Checks one block of a level.
ghost use Rattle.std.specs.Prelude.{◌≡◌, ◌+◌, ◌≤◌, ◌<◌};
ghost use Rattle.text.specs.Text.{all_below, sum_below};
ghost use Rattle.format.specs.TreeReading.{width_at, kept_right, pointing_right, block_right};
ghost use Rattle.check_links.specs.LevelAsked.{LevelOf, child_as_cut, is_target_right, next_right};

use crate::level_read::Level;
use layout::place::{BlockNumber, BlockPlace, TextPlace};
use layout::{cut, record, settings};

// The number of children of a block, or of its leaf bytes on the last level, by its kind.
pub fn width(t: &[u8], v: Level, block: BlockNumber) -> u32
    requires { LevelOf t.now v × (block.0 < v.count) }
    ensures { result ≡ width_at t.now v.number block.0 }
{
    let kind = record::kind(t, v.size, v.number, block);
    if kind != 0 {
        return 0;
    }
    let start = record::start(t, v.size, v.number, block);
    let length = cut::length_from(v.length, start, v.full);
    if length == v.full {
        return v.most;
    }
    settings::pieces(length, v.part)
}

// Whether a block is linked correctly. The blocks before it have `before` children, this one has `width`, and the next level has room for them all.
pub fn block_right(t: &[u8], v: Level, block: BlockNumber, before: u32, width: u32) -> bool
    requires { LevelOf t.now v × (block.0 < v.count) × (before ≡ sum_below block.0 (width_at t.now v.number))
        × (width ≡ width_at t.now v.number block.0) × (before + width ≤ v.room) }
    ensures { result ≡ block_right t.now v.number block.0 }
{
    let kind = record::kind(t, v.size, v.number, block);
    if kind == 0 {
        return kept_right(t, v, block, before, width);
    }
    pointing_right(t, v, block)
}

// A kept block links to the first child, or leaf byte, that the blocks before it do not use, and its children start where they must.
fn kept_right(t: &[u8], v: Level, block: BlockNumber, before: u32, width: u32) -> bool
    requires { LevelOf t.now v × (block.0 < v.count) × (before ≡ sum_below block.0 (width_at t.now v.number))
        × (width ≡ width_at t.now v.number block.0) × (before + width ≤ v.room) }
    ensures { result ≡ kept_right t.now v.number block.0 }
{
    let link = record::link(t, v.size, v.number, block);
    if link.0 != before {
        return false;
    }
    let gap = record::gap(t, v.size, v.number, block);
    if gap.0 != 0 {
        return false;
    }
    if v.number == v.last {
        return true;
    }
    let start = record::start(t, v.size, v.number, block);
    children_right(t, v, start, BlockNumber(link.0), width)
}

// The children of a block that starts at `start` start where they must; `first` is the first of them.
fn children_right(t: &[u8], v: Level, start: TextPlace, first: BlockNumber, width: u32) -> bool
    requires { LevelOf t.now v × (v.number ≡ v.last → ⊥) × (first.0 + width ≤ v.room) }
    ensures { result ≡ all_below width (child_as_cut t.now v.number first.0 start.0) }
{
    for j in 0..width {
        let child = record::start(t, v.size, v.number + 1, BlockNumber(first.0 + j));
        if child.0 as u64 != start.0 as u64 + j as u64 * v.part as u64 {
            return false;
        }
    }
    true
}

// A pointing block is above the last level, its gap is below the block length, and its occurrence is right.
fn pointing_right(t: &[u8], v: Level, block: BlockNumber) -> bool
    requires { LevelOf t.now v × (block.0 < v.count) }
    ensures { result ≡ pointing_right t.now v.number block.0 }
{
    let kind = record::kind(t, v.size, v.number, block);
    if kind != 1 {
        return false;
    }
    if v.number == v.last {
        return false;
    }
    let gap = record::gap(t, v.size, v.number, block);
    if v.full <= gap.0 {
        return false;
    }
    let target = BlockNumber(record::link(t, v.size, v.number, block).0);
    let start = record::start(t, v.size, v.number, block);
    let length = cut::length_from(v.length, start, v.full);
    if !target_right(t, v, target, gap, length, start) {
        return false;
    }
    if gap.0 + length <= v.full {
        return true;
    }
    next_right(t, v, target)
}

// The occurrence begins in a kept block and ends at or before `start`.
fn target_right(
    t: &[u8],
    v: Level,
    target: BlockNumber,
    gap: BlockPlace,
    length: u32,
    start: TextPlace,
) -> bool
    requires { LevelOf t.now v }
    ensures { result ≡ is_target_right t.now v.number target.0 gap.0 length start.0 }
{
    if v.count <= target.0 {
        return false;
    }
    let target_kind = record::kind(t, v.size, v.number, target);
    if target_kind != 0 {
        return false;
    }
    let from = record::start(t, v.size, v.number, target);
    from.0 as u64 + gap.0 as u64 + length as u64 <= start.0 as u64
}

// The block after the target is kept and follows in the text.
fn next_right(t: &[u8], v: Level, target: BlockNumber) -> bool
    requires { LevelOf t.now v × (target.0 < v.count) }
    ensures { result ≡ next_right t.now v.number target.0 }
{
    let next = BlockNumber(target.0 + 1);
    if v.count <= next.0 {
        return false;
    }
    let next_kind = record::kind(t, v.size, v.number, next);
    if next_kind != 0 {
        return false;
    }
    let from = record::start(t, v.size, v.number, target);
    let to = record::start(t, v.size, v.number, next);
    to.0 as u64 == from.0 as u64 + v.full as u64
}
