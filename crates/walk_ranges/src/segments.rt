// Segments: consecutive blocks of a level. Kept blocks that follow each other with links that follow each other have one segment of children; a pointing block
// has a segment of its targets; below the last level the segment is a range of leaf bytes.
ghost use Rattle.std.specs.Prelude.{true, ◌&&◌, ◌≡◌, ◌+◌, ◌*◌, ◌/◌, ◌≤◌, ◌<◌, eqb};
ghost use Rattle.format.specs.Layout as at;
ghost use Rattle.format.specs.Layout.{max_text};
ghost use Rattle.format.specs.LayoutLaws.{Readable};
ghost use Rattle.format.specs.TreeReading.{is_kept_block};
ghost use Rattle.walk_steps.specs.Steps.{OnLevel, Pointing};
ghost use Rattle.walk_ranges.specs.Segments.{full_width, KeptOn, SegmentAt, IsNext};

use layout::place::{BlockNumber, BlockPlace};
use layout::{fields, record};
use walk_steps::BlockKind;
use walk_steps::position::{BlockOffset, BlockPosition, LevelAt};

// The size of a record, and 1 if a pointer may still be followed on this level, else 0.
#[derive(Clone, Copy)]
pub struct Rules {
    pub record_size: u32,
    pub pointers: u32,
}

// Consecutive blocks of a level, or leaf bytes, from a place on that is counted from the start of the first one.
#[derive(Clone, Copy)]
pub struct Segment {
    pub rules: Rules,
    pub on: LevelAt,
    pub from: BlockPosition,
}

// The segment that has the next bytes, and the number of these bytes.
#[derive(Clone, Copy)]
pub struct Piece {
    pub segment: Segment,
    pub size: u32,
}

// The number of children of a kept block, or of its leaf bytes on the last level, if it is full.
fn width(t: &[u8], on: LevelAt) -> u32
    requires { (Readable t.now) × (on.b ≡ at.full_length t.now on.level) × (on.level < (at.settings t.now).levels) }
    ensures { result ≡ full_width t.now on.level }
{
    let shape = fields::shape_of(t);
    if on.level + 1 == shape.levels {
        return on.b;
    }
    shape.arity
}

// Whether a block is in the table, is kept, and has this link.
fn continues(t: &[u8], size: u32, on: LevelAt, number: u64, link: u64) -> bool
    requires { OnLevel t.now size on.level on.b }
    ensures { result ≡ (is_kept_block t.now on.level number && eqb (at.link t.now on.level number) link) }
{
    let count = record::level_count(t, on.level) as u64;
    if count <= number {
        return false;
    }
    let block = BlockNumber(number as u32);
    let kind = record::kind(t, size, on.level, block);
    if kind != 0 {
        return false;
    }
    let first = record::link(t, size, on.level, block);
    first.0 as u64 == link
}

// The number of bytes from a place of a kept block on that are in kept blocks with consecutive links: `most`, rounded up to the end of a block, or fewer.
fn kept_size(t: &[u8], size: u32, on: LevelAt, from: BlockPosition, most: u32) -> u32
    requires { (OnLevel t.now size on.level on.b) × (is_kept_block t.now on.level from.block.0 ≡ true) × (from.place.0 < on.b)
        × (most ≤ 2 * max_text) }
    ensures { KeptOn t.now on.level from.block.0 from.place.0 result }
{
    let step = width(t, on) as u64;
    let first = record::link(t, size, on.level, from.block);
    let count = record::level_count(t, on.level) as u64;
    let mut n: u32 = on.b - from.place.0;
    let mut link: u64 = first.0 as u64 + step;
    for next in from.block.0 as u64 + 1..count {
        if most <= n || !continues(t, size, on, next, link) {
            return n;
        }
        n += on.b;
        link += step;
    }
    n
}

// The children of a kept block and of those after it, or their leaf bytes.
fn children(t: &[u8], size: u32, on: LevelAt, from: BlockPosition) -> Segment
    requires { (OnLevel t.now size on.level on.b) × (is_kept_block t.now on.level from.block.0 ≡ true) }
    ensures { result ≡ record {
      rules = record { record_size = size; pointers = 1 };
      on = record { level = on.level + 1; b = on.b / full_width t.now on.level };
      from = record { block = record { 0 = at.link t.now on.level from.block.0 }; place = from.place };
    } }
{
    let place = from.place;
    let link = record::link(t, size, on.level, from.block);
    let step = width(t, on);
    Segment {
        rules: Rules {
            record_size: size,
            pointers: 1,
        },
        on: LevelAt {
            level: on.level + 1,
            b: walk_steps::quotient(on.b, step),
        },
        from: BlockPosition {
            block: BlockNumber(link.0),
            place,
        },
    }
}

// The targets of a pointing block.
fn targets(t: &[u8], size: u32, on: LevelAt, from: BlockPosition) -> Segment
    requires { Pointing t.now size on.level on.b from.block.0 from.place.0 }
    ensures { result ≡ record {
      rules = record { record_size = size; pointers = 0 };
      on = on;
      from = record {
        block = record { 0 = at.link t.now on.level from.block.0 };
        place = record { 0 = at.gap t.now on.level from.block.0 + from.place.0 };
      };
    } }
{
    let link = record::link(t, size, on.level, from.block);
    let gap = record::gap(t, size, on.level, from.block);
    Segment {
        rules: Rules {
            record_size: size,
            pointers: 0,
        },
        on,
        from: BlockPosition {
            block: BlockNumber(link.0),
            place: BlockPlace(gap.0 + from.place.0),
        },
    }
}

// From a kept block.
fn below(t: &[u8], rules: Rules, on: LevelAt, from: BlockPosition, most: u32) -> Option<Piece>
    requires { (OnLevel t.now rules.record_size on.level on.b) × (is_kept_block t.now on.level from.block.0 ≡ true)
        × (from.place.0 < on.b) × (1 ≤ most) × (from.place.0 + most ≤ 2 * max_text) }
    ensures { IsNext t.now rules.pointers on.level from.block.0 from.place.0 most result }
{
    let n = kept_size(t, rules.record_size, on, from, most);
    let under = children(t, rules.record_size, on, from);
    Some(Piece {
        segment: under,
        size: n.min(most),
    })
}

// From a pointing block. On the last level no block points.
fn across(t: &[u8], rules: Rules, on: LevelAt, from: BlockPosition, most: u32) -> Option<Piece>
    requires { (Pointing t.now rules.record_size on.level on.b from.block.0 from.place.0)
        × (1 ≤ most) }
    ensures { IsNext t.now rules.pointers on.level from.block.0 from.place.0 most result }
{
    if rules.pointers == 0 {
        return None;
    }
    let shape = fields::shape_of(t);
    if on.level + 1 == shape.levels {
        return None;
    }
    let beside = targets(t, rules.record_size, on, from);
    Some(Piece {
        segment: beside,
        size: (on.b - from.place.0).min(most),
    })
}

// The segment that has the next bytes of a segment of blocks.
pub fn next_segment(
    t: &[u8],
    rules: Rules,
    on: LevelAt,
    from: BlockPosition,
    most: u32,
) -> Option<Piece>
    requires { (SegmentAt t.now rules.pointers rules.record_size on.level on.b from.place.0 most)
        × (on.level < (at.settings t.now).levels) × (1 ≤ most) }
    ensures { IsNext t.now rules.pointers on.level from.block.0 from.place.0 most result }
{
    let first = from.block;
    let at = walk_steps::div_rem(from.place, on.b);
    let ahead = BlockOffset {
        first,
        steps: at.blocks,
    };
    let next = walk_steps::classify_next(t, rules.record_size, on, ahead, at.place);
    match next {
        BlockKind::Kept(block, place) => below(t, rules, on, BlockPosition { block, place }, most),
        BlockKind::Points(block, place) => across(
            t,
            rules,
            on,
            BlockPosition { block, place },
            most,
        ),
        BlockKind::Off => None,
    }
}
