// The bytes of some places of the text, whose paths are walked together: level by level, each path one step. The steps of different paths do not depend on
// each other, so that the processor overlaps them.
#![tactic(auto)]

ghost use Rattle.std.specs.Prelude.{◌+◌, ◌-◌, ◌≤◌, ◌<◌, length};
ghost use Rattle.format.specs.Layout as at;
ghost use Rattle.layout.specs.HeaderFields.{HeaderOf};
ghost use Rattle.walk_steps.specs.Steps.{OnLevel};
ghost use Rattle.walk_ranges.specs.Segments.{Copied};
ghost use Rattle.walk_group.specs.Groups.{InBlock, GroupAt, group_leaf, place_leaf, PlacesBelow, AtTop, StepAnswer, WalkedTo, LeafByteAnswer};

use layout::header::Header;
use layout::place::{BlockNumber, BlockPlace};
use layout::record;
use walk_steps::BlockKind;
use walk_steps::position::BlockPosition;

// The most paths that are walked together.
pub const MOST: u32 = 16;

const ROOM: usize = MOST as usize;

// The places `first`, `first` + `stride` and so on, `count` of them.
#[derive(Clone, Copy)]
pub struct Places {
    pub first: u32,
    pub stride: u32,
    pub count: u32,
}

// A level above the last one: the number of bytes of a record, the length b of its full blocks, and that of the level below.
#[derive(Clone, Copy)]
struct UpperLevel {
    size: u32,
    level: u32,
    b: u32,
    below: u32,
}

// A part of the buffer.
#[derive(Clone, Copy)]
struct GroupPart {
    to: usize,
    count: u32,
}

// The position of each place on level 0, where b is the block length.
fn top_positions(p: Places, b: u32, blocks: &mut [u32], places: &mut [u32])
    requires { (0 < b) × (p.count ≤ length blocks.old) × (p.count ≤ length places.old) × (PlacesBelow p.first p.stride p.count 4294967296) }
    ensures { AtTop p.first p.stride p.count b blocks.new places.new }
{
    for k in 0..p.count {
        let place = p.first + k * p.stride;
        blocks[k as usize] = place / b;
        places[k as usize] = place % b;
    }
}

// One step of one path, from a block above the last level to a block of the next level.
fn step(t: &[u8], on: UpperLevel, block: BlockNumber, place: BlockPlace) -> Option<BlockPosition>
    requires { (OnLevel t.now on.size on.level on.b) × (OnLevel t.now on.size (on.level + 1) on.below)
        × (InBlock t.now on.level block.0 place.0) }
    ensures { StepAnswer t.now on.level block.0 place.0 result }
{
    let here = walk_steps::classify_block(t, on.size, on.level, on.b, block, place);
    match here {
        BlockKind::Kept(_, _) => walk_steps::child(t, on.size, on.level, on.below, block, place),
        BlockKind::Points(_, _) => {
            let there = walk_steps::resolve_target(t, on.size, on.level, on.b, block, place);
            let Some(target) = there else {
                return None;
            };
            walk_steps::child(t, on.size, on.level, on.below, target.block, target.place)
        }
        BlockKind::Off => None,
    }
}

// One step of the first n paths; whether none of them breaks.
fn step_all(t: &[u8], on: UpperLevel, n: u32, blocks: &mut [u32], places: &mut [u32]) -> bool
    requires { (OnLevel t.now on.size on.level on.b) × (OnLevel t.now on.size (on.level + 1) on.below)
        × (n ≤ length blocks.old) × (n ≤ length places.old) × (GroupAt t.now on.level n blocks.old places.old) }
    ensures { WalkedTo t.now on.level (on.level + 1) n
        blocks.old places.old blocks.new places.new result }
{
    for k in 0..n as usize {
        let block = BlockNumber(blocks[k]);
        let place = BlockPlace(places[k]);
        let next = step(t, on, block, place);
        let Some(below) = next else {
            return false;
        };
        blocks[k] = below.block.0;
        places[k] = below.place.0;
    }
    true
}

// Walks the first n paths from level 0 to the last level; whether none of them breaks.
fn walk_all(t: &[u8], h: Header, n: u32, blocks: &mut [u32], places: &mut [u32]) -> bool
    requires { (HeaderOf t.now h) × (n ≤ length blocks.old) × (n ≤ length places.old) × (GroupAt t.now 0 n blocks.old places.old) }
    ensures { WalkedTo t.now 0 ((at.settings t.now).levels - 1) n
        blocks.old places.old blocks.new places.new result }
{
    let size = h.record_size;
    let mut b: u32 = h.top_length;
    for level in 0..h.settings.levels - 1 {
        let below = b / h.settings.arity;
        let on = UpperLevel {
            size,
            level,
            b,
            below,
        };
        if !step_all(t, on, n, blocks, places) {
            return false;
        }
        b = below;
    }
    true
}

// The leaf byte of a place of a block of the last level; none if the path breaks there.
fn leaf_byte(t: &[u8], h: Header, block: BlockNumber, place: BlockPlace) -> Option<u8>
    requires { (HeaderOf t.now h) × (InBlock t.now ((at.settings t.now).levels - 1) block.0 place.0) }
    ensures { LeafByteAnswer t.now block.0 place.0 result }
{
    let last = h.settings.levels - 1;
    let kind = record::kind(t, h.record_size, last, block);
    if kind != 0 {
        return None;
    }
    let link = record::link(t, h.record_size, last, block);
    let leaf = link.0 as u64 + place.0 as u64;
    if h.leaf_count as u64 <= leaf {
        return None;
    }
    Some(t[h.leaf_offset as usize + leaf as usize])
}

// Copies the leaf bytes of the first paths, which have reached the last level: 0, or the refusal.
fn copy_bytes(
    t: &[u8],
    h: Header,
    part: GroupPart,
    blocks: &[u32],
    places: &[u32],
    buffer: &mut [u8],
) -> u32
    requires { (HeaderOf t.now h) × (part.count ≤ length blocks.now) × (part.count ≤ length places.now)
        × (GroupAt t.now ((at.settings t.now).levels - 1) part.count blocks.now places.now) × (part.to + part.count ≤ length buffer.old) }
    ensures { Copied t.now (group_leaf t.now ((at.settings t.now).levels - 1) blocks.now places.now)
        part.count part.to buffer.old buffer.new result }
{
    for k in 0..part.count as usize {
        let block = BlockNumber(blocks[k]);
        let place = BlockPlace(places[k]);
        let found = leaf_byte(t, h, block, place);
        let Some(value) = found else {
            return 14;
        };
        buffer[part.to + k] = value;
    }
    0
}

// Copies the bytes of at most 16 places of the text to a place in the buffer: 0, or the refusal, 14 if a path breaks.
pub fn copy_places(t: &[u8], h: Header, p: Places, buffer: &mut [u8], to: usize) -> u32
    requires { (HeaderOf t.now h) × (p.count ≤ 16) × (PlacesBelow p.first p.stride p.count h.text_length)
        × (to + p.count ≤ length buffer.old) }
    ensures { Copied t.now (place_leaf t.now p.first p.stride)
        p.count to buffer.old buffer.new result }
{
    let mut blocks = [0u32; ROOM];
    let mut places = [0u32; ROOM];
    top_positions(p, h.top_length, &mut blocks, &mut places);
    if !walk_all(t, h, p.count, &mut blocks, &mut places) {
        return 14;
    }
    let part = GroupPart { to, count: p.count };
    copy_bytes(t, h, part, &blocks, &places, buffer)
}
