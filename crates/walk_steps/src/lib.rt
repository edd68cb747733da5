// The steps of a path: the kind of the block that is reached, and the block that a place refers to. A number past the table, even past 32 bits, is no block.
// The starts of blocks are not read. `size` is the number of bytes of a record.
#![tactic(auto)]

pub mod position;

ghost use Rattle.std.specs.Prelude.{◌≡◌, cond, ◌+◌, ◌*◌, ◌/◌, ◌%◌, ◌≤◌, ◌<◌, ltb};
ghost use Rattle.format.specs.Layout as at;
ghost use Rattle.format.specs.TreeReading.{target_block, target_place};
ghost use Rattle.walk_steps.specs.Steps.{OnLevel, InTable, Pointing, block_kind_at, child_at, resolved_target};

use crate::position::{BlockOffset, BlockPosition, LevelAt};
use layout::place::{BlockNumber, BlockPlace, TextPlace};
use layout::{cut, fields, record};

// The kind of the block that a path reaches, and the place in it.
#[derive(Clone, Copy)]
pub enum BlockKind {
    Kept(BlockNumber, BlockPlace),
    Points(BlockNumber, BlockPlace),
    // Outside the table, of a kind above 1, or pointing with a gap that is not below the block length.
    Off,
}

// The number of children of a block that end before a place in it, and the place in the next child.
#[derive(Clone, Copy)]
pub struct DivRem {
    pub blocks: u32,
    pub place: BlockPlace,
}

// x / b, by a shift where b is a power of two.
pub fn quotient(x: u32, b: u32) -> u32
    requires { 0 < b }
    ensures { result ≡ x / b }
{
    let shift = u32::trailing_zeros(b);
    let power: u64 = 1 << shift;
    if power == b as u64 {
        return (x as u64 >> shift) as u32;
    }
    x / b
}

// The child of b bytes that contains a place of the block.
pub fn div_rem(place: BlockPlace, b: u32) -> DivRem
    requires { 0 < b }
    ensures { result ≡ record { blocks = place.0 / b; place = record { 0 = place.0 % b } } }
{
    let blocks = quotient(place.0, b);
    DivRem {
        blocks,
        place: BlockPlace(place.0 - blocks * b),
    }
}

// The block of level 0 that contains a place of the text, and the place in it; b is the block length of level 0.
pub fn top_position(place: TextPlace, b: u32) -> BlockPosition
    requires { 0 < b }
    ensures { result ≡ record { block = record { 0 = place.0 / b }; place = record { 0 = place.0 % b } } }
{
    let blocks = quotient(place.0, b);
    BlockPosition {
        block: BlockNumber(blocks),
        place: BlockPlace(place.0 - blocks * b),
    }
}

// The kind of a block.
pub fn classify_block(
    t: &[u8],
    size: u32,
    level: u32,
    b: u32,
    block: BlockNumber,
    place: BlockPlace,
) -> BlockKind
    requires { InTable t.now size level b block.0 }
    ensures { result ≡ block_kind_at t.now level block.0 place.0 }
{
    let kind = record::kind(t, size, level, block);
    if kind == 0 {
        return BlockKind::Kept(block, place);
    }
    if kind != 1 {
        return BlockKind::Off;
    }
    let gap = record::gap(t, size, level, block);
    if gap.0 < b {
        return BlockKind::Points(block, place);
    }
    BlockKind::Off
}

// The kind of the block some steps after another.
pub fn classify_next(
    t: &[u8],
    size: u32,
    on: LevelAt,
    ahead: BlockOffset,
    place: BlockPlace,
) -> BlockKind
    requires { OnLevel t.now size on.level on.b }
    ensures { result ≡ block_kind_at t.now on.level (ahead.first.0 + ahead.steps) place.0 }
{
    let count = record::level_count(t, on.level) as u64;
    let number = ahead.first.0 as u64 + ahead.steps as u64;
    if count <= number {
        return BlockKind::Off;
    }
    classify_block(t, size, on.level, on.b, BlockNumber(number as u32), place)
}

// The child of a kept block that contains a place, none if it is outside the table; b is the block length of the children.
pub fn child(
    t: &[u8],
    size: u32,
    level: u32,
    b: u32,
    block: BlockNumber,
    place: BlockPlace,
) -> Option<BlockPosition>
    requires { (OnLevel t.now size (level + 1) b) × (block.0 < at.level_count t.now level) }
    ensures { result ≡ child_at t.now (level + 1) (at.link t.now level block.0 + place.0 / b) (place.0 % b) }
{
    let link = record::link(t, size, level, block);
    let count = record::level_count(t, level + 1) as u64;
    let part = div_rem(place, b);
    let number = link.0 as u64 + part.blocks as u64;
    if count <= number {
        return None;
    }
    Some(BlockPosition {
        block: BlockNumber(number as u32),
        place: part.place,
    })
}

// 1 if a place, from the start of a block, is past its b bytes, else 0.
fn past(place: BlockPlace, b: u32) -> u32
    ensures { (result ≡ cond (ltb place.0 b) 0 1) × (result ≤ 1) × (result * b ≤ place.0) }
{
    if place.0 < b {
        return 0;
    }
    1
}

// The target of a place in a pointing block: block link at gap + place; if that is not below b, block link + 1 at gap + place - b.
pub fn target(
    t: &[u8],
    size: u32,
    level: u32,
    b: u32,
    block: BlockNumber,
    place: BlockPlace,
) -> BlockKind
    requires { Pointing t.now size level b block.0 place.0 }
    ensures { result ≡ block_kind_at t.now
        level (target_block t.now level block.0 place.0) (target_place t.now level block.0 place.0) }
{
    let link = record::link(t, size, level, block);
    let gap = record::gap(t, size, level, block);
    let sum = BlockPlace(gap.0 + place.0);
    let over = past(sum, b);
    classify_next(
        t,
        size,
        LevelAt { level, b },
        BlockOffset {
            first: BlockNumber(link.0),
            steps: over,
        },
        BlockPlace(sum.0 - over * b),
    )
}

// The kept block that a place of a pointing block above the last level refers to, none if that block is outside the table or not kept.
pub fn resolve_target(
    t: &[u8],
    size: u32,
    level: u32,
    b: u32,
    block: BlockNumber,
    place: BlockPlace,
) -> Option<BlockPosition>
    requires { Pointing t.now size level b block.0 place.0 }
    ensures { result ≡ resolved_target t.now level block.0 place.0 }
{
    let shape = fields::shape_of(t);
    if level + 1 == shape.levels {
        return None;
    }
    match target(t, size, level, b, block, place) {
        BlockKind::Kept(i, p) => Some(BlockPosition { block: i, place: p }),
        BlockKind::Points(_, _) => None,
        BlockKind::Off => None,
    }
}

// The length of a block: the smaller of b and n - start.
pub fn block_length(t: &[u8], size: u32, level: u32, b: u32, block: BlockNumber) -> u32
    requires { InTable t.now size level b block.0 }
    ensures { (result ≡ at.block_length_at t.now level block.0) × (result ≤ b) }
{
    let start = record::start(t, size, level, block);
    let shape = fields::shape_of(t);
    cut::length_from(shape.length, start, b)
}
