// The walk of a short span: it descends while one block contains the span, and takes the bytes at a border from two edges.
ghost use Rattle.std.specs.Prelude.{true, ◌&&◌, ◌≡◌, ◌+◌, ◌-◌, ◌*◌, ◌≤◌, ◌<◌, ltb};
ghost use Rattle.format.specs.Layout.{max_text, max_leaf, max_levels};
ghost use Rattle.format.specs.Layout as at;
ghost use Rattle.format.specs.TreeReading.{is_kept_block, by_edges, in_one_leaf, short_from, short_of};
ghost use Rattle.layout.specs.HeaderFields.{HeaderOf};
ghost use Rattle.format.specs.LayoutLaws.{Readable};
ghost use Rattle.walk_steps.specs.Steps.{OnLevel, Pointing};
ghost use Rattle.walk_short.specs.Gathered.{gathered, unpacked, down_to, pointed_to, span_step, Crossing, Walking, InRange};

use crate::packed;
use layout::header::Header;
use layout::place::{BlockNumber, BlockPlace, TextPlace};
use layout::{fields, header, record, word};
use walk_steps::BlockKind;
use walk_steps::position::{BlockOffset, BlockPosition, LevelAt};

// Where the bytes of a span are in the tree: `size` of them from `from` on, the others from `next` on; and the number of blocks entered.
#[derive(Clone, Copy)]
pub struct Parts {
    pub entered: u32,
    pub from: usize,
    pub size: u32,
    pub next: usize,
}

// The next step of a span on a level: a kept block contains it, and the span continues in the block some steps after its first child, with a number of blocks
// entered; or the span crosses the end of a block.
#[derive(Clone, Copy)]
pub enum SpanStep {
    Down(BlockNumber, u32, BlockPlace, u32),
    Over(BlockNumber, BlockPlace),
    Off,
}

// A span: the place of its first byte in a block, and its length.
#[derive(Clone, Copy)]
pub struct BlockSpan {
    pub place: BlockPlace,
    pub len: u32,
}

// A span that crosses the end of a block: the end of the block's last edge, and the beginning of the next block's first edge. The block counts as full, and
// no kind is read.
fn over(
    t: &[u8],
    size: u32,
    on: LevelAt,
    ahead: BlockOffset,
    place: BlockPlace,
    entered: u32,
) -> u64
    requires { Crossing t.now size on.level on.b place.0 entered }
    ensures { unpacked t.now result ≡ gathered entered (by_edges t.now on.level (ahead.first.0 + ahead.steps) place.0) }
{
    let count = record::level_count(t, on.level) as u64;
    let number = ahead.first.0 as u64 + ahead.steps as u64;
    if count <= number + 1 {
        return 0;
    }
    let m = word::read(t, header::LEAF_AT);
    let counted = word::read(t, header::COUNTED_COUNT_AT);
    let left = on.b - place.0;
    let edges = record::edges(t, size, counted, on.level, BlockNumber(number as u32));
    packed::pack(1, entered + 2, left, edges + (m + m - left) as usize)
}

// A span in a kept block of the last level: its leaf bytes.
fn leaf_part(
    t: &[u8],
    size: u32,
    level: u32,
    block: BlockNumber,
    span: BlockSpan,
    entered: u32,
) -> u64
    requires { (Readable t.now) × (size ≡ at.record_size t.now) × (level < (at.settings t.now).levels)
        × (is_kept_block t.now level block.0 ≡ true) × (entered ≤ 2 * max_levels) × (span.len ≤ max_leaf) }
    ensures { unpacked t.now result ≡ gathered entered (in_one_leaf t.now level block.0 span.place.0 span.len) }
{
    let shape = fields::shape_of(t);
    let link = record::link(t, size, level, block);
    let end = link.0 as u64 + span.place.0 as u64 + span.len as u64;
    if (shape.leaf_count as u64) < end {
        return 0;
    }
    let from = shape.leaf_offset as usize + (link.0 as usize + span.place.0 as usize);
    packed::pack(0, entered + 1, span.len, from)
}

// A span in a block of the last level, where no block points.
fn last(t: &[u8], size: u32, on: LevelAt, ahead: BlockOffset, span: BlockSpan, entered: u32) -> u64
    requires { (OnLevel t.now size on.level on.b) × (entered ≤ 2 * max_levels) × (span.len ≤ max_leaf) }
    ensures { unpacked t.now result
        ≡ gathered entered (in_one_leaf t.now on.level (ahead.first.0 + ahead.steps) span.place.0 span.len) }
{
    let next = walk_steps::classify_next(t, size, on, ahead, span.place);
    match next {
        BlockKind::Kept(i, p) => {
            let there = BlockSpan {
                place: p,
                len: span.len,
            };
            leaf_part(t, size, on.level, i, there, entered)
        }
        BlockKind::Points(_, _) => 0,
        BlockKind::Off => 0,
    }
}

// From a kept block that contains a span to its children, of c bytes each.
fn into(t: &[u8], size: u32, level: u32, c: u32, position: BlockPosition, entered: u32) -> SpanStep
    requires { (Readable t.now) × (size ≡ at.record_size t.now) × (level < (at.settings t.now).levels)
        × (position.block.0 < at.level_count t.now level) × (0 < c) }
    ensures { result ≡ down_to t.now level c position.block.0 position.place.0 entered }
{
    let link = record::link(t, size, level, position.block);
    let part = walk_steps::div_rem(position.place, c);
    let rest = part.place;
    SpanStep::Down(BlockNumber(link.0), part.blocks, rest, entered)
}

// Whether the end of a block of b bytes is between the first and the last byte of a span.
fn splits(b: u32, place: BlockPlace, len: u32) -> bool
    requires { (b ≤ max_text) × (len ≤ max_text) }
    ensures { result ≡ (ltb place.0 b && ltb b (place.0 + len)) }
{
    if b <= place.0 {
        return false;
    }
    b < place.0 + len
}

// The next step from a pointing block: to a kept block that contains the span, or across the border of its two targets.
fn pointed(
    t: &[u8],
    size: u32,
    on: LevelAt,
    c: u32,
    block: BlockNumber,
    span: BlockSpan,
) -> SpanStep
    requires { (Pointing t.now size on.level on.b block.0 span.place.0) × (span.place.0 + span.len ≤ on.b)
        × (c ≡ at.full_length t.now (on.level + 1)) }
    ensures { result ≡ pointed_to t.now on.level block.0 span.place.0 span.len }
{
    let link = record::link(t, size, on.level, block);
    let gap = record::gap(t, size, on.level, block);
    let sum = BlockPlace(gap.0 + span.place.0);
    if splits(on.b, sum, span.len) {
        return SpanStep::Over(BlockNumber(link.0), sum);
    }
    let next = walk_steps::target(t, size, on.level, on.b, block, span.place);
    match next {
        BlockKind::Kept(i, p) => into(
            t,
            size,
            on.level,
            c,
            BlockPosition { block: i, place: p },
            2,
        ),
        BlockKind::Points(_, _) => SpanStep::Off,
        BlockKind::Off => SpanStep::Off,
    }
}

// The next step of a span inside a block above the last level; c is the block length of the children.
fn settle(t: &[u8], size: u32, on: LevelAt, c: u32, ahead: BlockOffset, span: BlockSpan) -> SpanStep
    requires { (OnLevel t.now size on.level on.b) × (span.place.0 < on.b) × (span.place.0 + span.len ≤ on.b)
        × (c ≡ at.full_length t.now (on.level + 1)) }
    ensures { result ≡ span_step t.now on.level (ahead.first.0 + ahead.steps) span.place.0 span.len }
{
    let next = walk_steps::classify_next(t, size, on, ahead, span.place);
    match next {
        BlockKind::Kept(i, p) => into(
            t,
            size,
            on.level,
            c,
            BlockPosition { block: i, place: p },
            1,
        ),
        BlockKind::Points(i, p) => {
            let there = BlockSpan {
                place: p,
                len: span.len,
            };
            pointed(t, size, on, c, i, there)
        }
        BlockKind::Off => SpanStep::Off,
    }
}

// The walk from the block some steps after another, as one number; the levels left fall.
// The arguments are single words: a struct of two words would be packed and unpacked at each level.
fn gather_packed(
    t: &&[u8],
    size: u32,
    level: u32,
    b: u32,
    first: BlockNumber,
    steps: u32,
    place: BlockPlace,
    len: u32,
    entered: u32,
) -> u64
    requires { Walking t.now.now size level b place.0 len entered }
    ensures { unpacked t.now.now result ≡ gathered entered (short_from t.now.now
        ((at.settings t.now.now).levels - 1 - level) level (first.0 + steps) place.0 len) }
{
    let tree = *t;
    let on = LevelAt { level, b };
    let ahead = BlockOffset { first, steps };
    if b < place.0 + len {
        return over(tree, size, on, ahead, place, entered);
    }
    let span = BlockSpan { place, len };
    let shape = fields::shape_of(tree);
    let down = level + 1;
    if down == shape.levels {
        return last(tree, size, on, ahead, span, entered);
    }
    let c = walk_steps::quotient(b, shape.arity);
    let step = settle(tree, size, on, c, ahead, span);
    match step {
        SpanStep::Down(i, k, p, n) => gather_packed(t, size, down, c, i, k, p, len, entered + n),
        SpanStep::Over(i, p) => over(
            tree,
            size,
            on,
            BlockOffset { first: i, steps: 0 },
            p,
            entered + 1,
        ),
        SpanStep::Off => 0,
    }
}

// The walk from the block some steps after another.
pub fn gather(
    t: &[u8],
    size: u32,
    on: LevelAt,
    ahead: BlockOffset,
    span: BlockSpan,
    entered: u32,
) -> Option<Parts>
    requires { (Walking t.now size on.level on.b span.place.0 span.len entered) × (at.layout t.now ≡ 2) }
    ensures { result ≡ gathered entered (short_from t.now ((at.settings t.now).levels - 1 - on.level) on.level
        (ahead.first.0 + ahead.steps) span.place.0 span.len) }
{
    let code = gather_packed(
        &t,
        size,
        on.level,
        on.b,
        ahead.first,
        ahead.steps,
        span.place,
        span.len,
        entered,
    );
    let m = word::read(t, header::LEAF_AT);
    packed::unpack(t, size, m, code)
}

// The walk from a place of the text.
pub fn from_text(t: &[u8], h: Header, p: TextPlace, len: u32) -> Option<Parts>
    requires { (HeaderOf t.now h) × (at.layout t.now ≡ 2) × (1 ≤ len) × (len ≤ h.settings.leaf) × (p.0 + len ≤ h.text_length) }
    ensures { (result ≡ gathered 0 (short_of t.now p.0 len)) × InRange t.now len result }
{
    let b = h.top_length;
    let position = walk_steps::top_position(p, b);
    let first = position.block;
    let place = position.place;
    let code = gather_packed(&t, h.record_size, 0, b, first, 0, place, len, 0);
    packed::unpack(t, h.record_size, h.settings.leaf, code)
}
