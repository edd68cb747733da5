// The walk to the j-th occurrence: on each level it chooses the last block whose `before` is below j, and subtracts what it passes from j. The steps of kept
// and pointing blocks are mutually recursive. Their measure is 2 × (levels left), plus 1 while a pointer can be followed. A step carries no header and
// returns one word.
ghost use Rattle.std.specs.Prelude.{cond, ◌≡◌, ◌+◌, ◌-◌, ◌*◌, ◌/◌, ◌≤◌, ◌<◌, ltb};
ghost use Rattle.format.specs.Answers.{NeverZero, replied, total};
ghost use Rattle.format.specs.Layout.{pieces, max_text};
ghost use Rattle.format.specs.Layout as at;
ghost use Rattle.layout.specs.HeaderFields.{HeaderOf};
ghost use Rattle.walk_steps.specs.Steps.{OnLevel, InTable};
ghost use Rattle.theory_counts.specs.CountsLocal.{byte_of};
ghost use Rattle.query_select.specs.Found.{find_reply};
ghost use Rattle.query_select.specs.SoughtPlaces.{placed_in, Sought, Stopped, SoughtIn};
ghost use Rattle.query_select.specs.Seeks.{entering, Siblings, Passed, LastBefore, KeptIn, PointsIn, ChildWith, target_at, TargetWith};
ghost use Rattle.query_select.specs.Seeks.{Seeking, FoundIn, HandsOn};

use layout::header::Header;
use layout::place::{BlockNumber, BlockPlace, TextPlace};
use layout::{fields, header, record, settings};
use query_counted::CountedByte;
use refusals::Refusal;
use walk_steps::BlockKind;
use walk_steps::position::LevelAt;

// The size of a record, and the number of the counted byte whose words are read in it.
#[derive(Clone, Copy)]
pub struct CountField {
    pub size: u32,
    pub number: u32,
}

// A block of a list, and the number of steps to it.
#[derive(Clone, Copy)]
pub struct StepResult {
    pub block: BlockNumber,
    pub steps: u32,
}

// The blocks of a list from `first` up to `end`, excluded.
#[derive(Clone, Copy)]
pub struct Blocks {
    pub first: BlockNumber,
    pub end: BlockNumber,
}

// A kept block, and the block length of its children.
#[derive(Clone, Copy)]
struct Parent {
    block: BlockNumber,
    below: u32,
}

// A block, its start in its parent, and the remaining j.
#[derive(Clone, Copy)]
pub struct Child {
    pub block: BlockNumber,
    pub start: BlockPlace,
    pub rest: u64,
}

// A kept block, its start relative to that of the first target, and the remaining j.
#[derive(Clone, Copy)]
pub struct Target {
    pub block: BlockNumber,
    pub forward: BlockPlace,
    pub rest: u64,
}

// A kept block, what is left of j in it, and the way to it.
#[derive(Clone, Copy)]
pub struct Landing {
    pub block: BlockNumber,
    pub rest: u64,
    pub way: u64,
}

// The word of a step that finds no place: no text has so many bytes.
const BROKEN: u64 = 18446744073709551615;

// One block entered, in the word of a step: 2^48, added to the place of the text.
const ENTERED: u64 = 281474976710656;

// The larger of two numbers.
fn max(a: u32, b: u32) -> u32
    ensures { (a ≤ result) × (b ≤ result) }
{
    if a < b {
        return b;
    }
    a
}

// The largest `before` of the four blocks after a block.
fn largest_before(t: &[u8], field: CountField, level: u32, block: BlockNumber) -> u32
    requires { (Siblings t.now field level block.0 (block.0 + 5)) × (block.0 + 4 < 4294967296) }
    ensures { (at.before t.now level (block.0 + 1) field.number ≤ result)
        × (at.before t.now level (block.0 + 2) field.number ≤ result)
        × (at.before t.now level (block.0 + 3) field.number ≤ result)
        × (at.before t.now level (block.0 + 4) field.number ≤ result) }
{
    let size = field.size;
    let number = field.number;
    let a = record::before(t, size, level, BlockNumber(block.0 + 1), number);
    let b = record::before(t, size, level, BlockNumber(block.0 + 2), number);
    let c = record::before(t, size, level, BlockNumber(block.0 + 3), number);
    let d = record::before(t, size, level, BlockNumber(block.0 + 4), number);
    max(max(a, b), max(c, d))
}

// Steps by fours as long as the `before` of all four is below j, and counts the steps.
fn by_fours(t: &[u8], field: CountField, level: u32, blocks: Blocks, j: u64) -> StepResult
    requires { Siblings t.now field level blocks.first.0 blocks.end.0 }
    ensures { (Passed t.now field.number level blocks.first.0 blocks.end.0 j result.block.0)
        × (blocks.first.0 + result.steps ≡ result.block.0) }
{
    let first = blocks.first.0;
    let fours = (blocks.end.0 - first - 1) / 4;
    for k in 0..fours {
        let block = BlockNumber(first + 4 * k);
        let most = largest_before(t, field, level, block) as u64;
        if j <= most {
            return StepResult {
                block,
                steps: 4 * k,
            };
        }
    }
    StepResult {
        block: BlockNumber(first + 4 * fours),
        steps: 4 * fours,
    }
}

// From block first on: goes on while the next block's `before` is below j, and counts its steps.
pub fn step_along(t: &[u8], field: CountField, level: u32, blocks: Blocks, j: u64) -> StepResult
    requires { Siblings t.now field level blocks.first.0 blocks.end.0 }
    ensures { (LastBefore t.now field.number level blocks.first.0 blocks.end.0 j result.block.0)
        × (blocks.first.0 + result.steps ≡ result.block.0) }
{
    let near = by_fours(t, field, level, blocks, j);
    let from = near.block.0;
    let last = blocks.end.0 - 1;
    for i in from..last {
        let next = record::before(t, field.size, level, BlockNumber(i + 1), field.number) as u64;
        if j <= next {
            return StepResult {
                block: BlockNumber(i),
                steps: near.steps + (i - from),
            };
        }
    }
    StepResult {
        block: BlockNumber(last),
        steps: near.steps + (last - from),
    }
}

// 1 if a `before` is below j, else 0.
fn is_below(before: u64, j: u64) -> u32
    ensures { (result ≡ cond (ltb before j) 1 0) × (result ≤ 1) }
{
    if before < j {
        return 1;
    }
    0
}

// The same for the few children of a block, without counting steps. Each child is looked at, and no branch depends on its `before`: which child it is
// cannot be predicted. `going` is 1 as long as all `before` are below j.
fn last_child(t: &[u8], field: CountField, level: u32, blocks: Blocks, j: u64) -> BlockNumber
    requires { Siblings t.now field level blocks.first.0 blocks.end.0 }
    ensures { LastBefore t.now field.number level blocks.first.0 blocks.end.0 j result.0 }
{
    let mut i: u32 = blocks.first.0;
    let mut going: u32 = 1;
    for k in blocks.first.0 + 1..blocks.end.0 {
        let next = record::before(t, field.size, level, BlockNumber(k), field.number) as u64;
        going *= is_below(next, j);
        i += going;
    }
    BlockNumber(i)
}

// What is left of j past the bytes before a block: 0 where its before is j or more.
fn rest_in(t: &[u8], field: CountField, level: u32, block: BlockNumber, j: u64) -> u64
    requires { Siblings t.now field level block.0 (block.0 + 1) }
    ensures { result ≡ j - at.before t.now level block.0 field.number }
{
    let before = record::before(t, field.size, level, block, field.number) as u64;
    if j <= before {
        return 0;
    }
    j - before
}

// The number of children of a block of `bytes` bytes; `arity` for a full block of b bytes.
fn children(bytes: u32, b: u32, below: u32, arity: u32) -> u32
    requires { (bytes ≤ max_text) × (0 < below) × (below ≤ max_text) × (b ≡ below * arity) }
    ensures { result ≡ pieces bytes below }
{
    if bytes == b {
        return arity;
    }
    settings::pieces(bytes, below)
}

// The child of a kept block that contains the j-th occurrence.
fn child_with(t: &[u8], field: CountField, on: LevelAt, parent: Parent, j: u64) -> Option<Child>
    requires { (KeptIn t.now field.size on.level on.b parent.block.0)
        × (OnLevel t.now field.size (on.level + 1) parent.below) × (field.number < at.counted_count t.now) × (1 ≤ j) }
    ensures { ChildWith t.now field.number on.level parent.block.0 parent.below j result }
{
    let shape = fields::shape_of(t);
    let link = record::link(t, field.size, on.level, parent.block);
    let bytes = walk_steps::block_length(t, field.size, on.level, on.b, parent.block);
    let count = children(bytes, on.b, parent.below, shape.arity);
    let table = record::level_count(t, on.level + 1) as u64;
    if table < link.0 as u64 + count as u64 {
        return None;
    }
    if count == 0 {
        return None;
    }
    let all = Blocks {
        first: BlockNumber(link.0),
        end: BlockNumber(link.0 + count),
    };
    let i = last_child(t, field, on.level + 1, all, j);
    let rest = rest_in(t, field, on.level + 1, i, j);
    if rest == 0 {
        return None;
    }
    Some(Child {
        block: i,
        start: BlockPlace((i.0 - link.0) * parent.below),
        rest,
    })
}

// A linked block, which must be kept.
fn kept_target(
    t: &[u8],
    size: u32,
    level: u32,
    block: BlockNumber,
    forward: BlockPlace,
    rest: u64,
) -> Option<Target>
    requires { InTable t.now size level (at.full_length t.now level) block.0 }
    ensures { result ≡ target_at t.now level block.0 forward.0 rest }
{
    let kind = record::kind(t, size, level, block);
    if kind == 0 {
        return Some(Target {
            block,
            forward,
            rest,
        });
    }
    None
}

// The target of a pointing block that contains its j-th occurrence: the (j + skip)-th of the first target, or, if that is above its count inside, one of the
// second.
fn target_with(
    t: &[u8],
    field: CountField,
    on: LevelAt,
    block: BlockNumber,
    j: u64,
) -> Option<Target>
    requires { (PointsIn t.now field.size on.level on.b block.0)
        × (field.number < at.counted_count t.now) × (1 ≤ j) × (j ≤ 1099511627776) }
    ensures { TargetWith t.now field.number on.level block.0 on.b j result }
{
    let size = field.size;
    let number = field.number;
    let link = record::link(t, size, on.level, block);
    let count = record::level_count(t, on.level);
    if count <= link.0 {
        return None;
    }
    let rank = j + record::skip(t, size, on.level, block, number) as u64;
    let inside = record::inside(t, size, on.level, BlockNumber(link.0), number) as u64;
    if rank <= inside {
        return kept_target(t, size, on.level, BlockNumber(link.0), BlockPlace(0), rank);
    }
    if count - link.0 == 1 {
        return None;
    }
    kept_target(
        t,
        size,
        on.level,
        BlockNumber(link.0 + 1),
        BlockPlace(on.b),
        rank - inside,
    )
}

// The place after entering a block: forward by the bytes before it, back by a gap, with one more block entered.
fn enter(way: u64, forward: BlockPlace, back: BlockPlace) -> u64
    requires { (way ≤ 72057594037927936) × (back.0 ≤ max_text) }
    ensures { result ≡ entering way forward.0 back.0 }
{
    way + ENTERED + forward.0 as u64 - back.0 as u64
}

// The j-th occurrence among the leaf bytes of a block of the last level.
fn leaf_place(t: &[u8], field: CountField, on: LevelAt, block: BlockNumber, j: u64, way: u64) -> u64
    requires { (KeptIn t.now field.size on.level on.b block.0) × (Seeking t.now field on.level on.b j way (2 * on.level + 1))
        × (on.level + 1 ≡ (at.settings t.now).levels) }
    ensures { FoundIn t.now field.number on.level block.0 j way result }
{
    let shape = fields::shape_of(t);
    let link = record::link(t, field.size, on.level, block);
    let len = walk_steps::block_length(t, field.size, on.level, on.b, block);
    if (shape.leaf_count as u64) < link.0 as u64 + len as u64 {
        return BROKEN;
    }
    let from = shape.leaf_offset as usize + link.0 as usize;
    let byte = t[header::COUNTED_AT + field.number as usize];
    let place = byte_slices::find_nth(t, from, len, byte, j);
    if place < len {
        return enter(way, BlockPlace(place), BlockPlace(0));
    }
    BROKEN
}

// Where a pointing block hands its j-th byte; on the last level no block points.
fn from_pointer(
    t: &[u8],
    field: CountField,
    on: LevelAt,
    block: BlockNumber,
    j: u64,
    way: u64,
) -> Option<Landing>
    requires { (PointsIn t.now field.size on.level on.b block.0) × (Seeking t.now field on.level on.b j way (2 * on.level)) }
    ensures { HandsOn t.now field on.level on.b block.0 j way result }
{
    let shape = fields::shape_of(t);
    if on.level + 1 == shape.levels {
        return None;
    }
    let gap = record::gap(t, field.size, on.level, block);
    let target = target_with(t, field, on, block, j)?;
    Some(Landing {
        block: target.block,
        rest: target.rest,
        way: enter(way, target.forward, gap),
    })
}

// Where a block hands its j-th byte: itself if it is kept, else a kept block that it points to.
fn to_kept(
    t: &[u8],
    field: CountField,
    on: LevelAt,
    block: BlockNumber,
    j: u64,
    way: u64,
) -> Option<Landing>
    requires { (InTable t.now field.size on.level on.b block.0) × (Seeking t.now field on.level on.b j way (2 * on.level)) }
    ensures { HandsOn t.now field on.level on.b block.0 j way result }
{
    match walk_steps::classify_block(t, field.size, on.level, on.b, block, BlockPlace(0)) {
        BlockKind::Kept(_, _) => Some(Landing {
            block,
            rest: j,
            way,
        }),
        BlockKind::Points(_, _) => from_pointer(t, field, on, block, j, way),
        BlockKind::Off => None,
    }
}

// From a kept block to the child that holds its j-th byte.
#[cycle(kept_step_pointing_step)]
fn kept_step(t: &&[u8], field: CountField, on: LevelAt, block: BlockNumber, j: u64, way: u64) -> u64
    requires { (KeptIn t.now.now field.size on.level on.b block.0)
        × (Seeking t.now.now field on.level on.b j way (2 * on.level + 1)) }
    ensures { FoundIn t.now.now field.number on.level block.0 j way result }
{
    let tree = *t;
    let shape = fields::shape_of(tree);
    let down = on.level + 1;
    if down == shape.levels {
        return leaf_place(tree, field, on, block, j, way);
    }
    let below = walk_steps::quotient(on.b, shape.arity);
    let next = child_with(tree, field, on, Parent { block, below }, j);
    let Some(child) = next else {
        return BROKEN;
    };
    let further = enter(way, child.start, BlockPlace(0));
    let under = LevelAt {
        level: down,
        b: below,
    };
    pointing_step(t, field, under, child.block, child.rest, further)
}

// From a pointing block to the target that contains its j-th occurrence; on the last level no block points.
#[cycle(kept_step_pointing_step)]
fn pointing_step(
    t: &&[u8],
    field: CountField,
    on: LevelAt,
    block: BlockNumber,
    j: u64,
    way: u64,
) -> u64
    requires { (InTable t.now.now field.size on.level on.b block.0)
        × (Seeking t.now.now field on.level on.b j way (2 * on.level)) }
    ensures { FoundIn t.now.now field.number on.level block.0 j way result }
{
    let tree = *t;
    let there = to_kept(tree, field, on, block, j, way);
    let Some(landing) = there else {
        return BROKEN;
    };
    kept_step(t, field, on, landing.block, landing.rest, landing.way)
}

// The block of level 0 that contains the j-th occurrence in the text.
fn first_block(t: &[u8], field: CountField, j: u64) -> BlockNumber
    requires { (OnLevel t.now field.size 0 (at.full_length t.now 0)) × (field.number < at.counted_count t.now)
        × (1 ≤ total t.now field.number) }
    ensures { LastBefore t.now field.number 0 0 (at.level_count t.now 0) j result.0 }
{
    let all = Blocks {
        first: BlockNumber(0),
        end: BlockNumber(record::level_count(t, 0)),
    };
    step_along(t, field, 0, all, j).block
}

// The place that the word of a step represents, if it is one of a text of n bytes.
pub fn text_place(n: u32, word: u64) -> Result<(TextPlace, u32), Refusal>
    ensures { (replied (find_reply result) ≡ placed_in n word) × (NeverZero (find_reply result)) }
{
    let place = word % ENTERED;
    if place < n as u64 {
        return Ok((TextPlace(place as u32), (word / ENTERED) as u32));
    }
    Err(Refusal::PathBroken)
}

// The word for the j-th occurrence in the text, from its block of level 0 on.
pub fn word_in(t: &&[u8], field: CountField, b: u32, block: BlockNumber, j: u32) -> u64
    requires { (OnLevel t.now.now field.size 0 b) × (field.number < at.counted_count t.now.now) × (1 ≤ j)
        × (j ≤ total t.now.now field.number)
        × (Stopped t.now.now field.number j block.0) }
    ensures { SoughtIn t.now.now (byte_of t.now.now field.number) field.number j block.0
        (placed_in (at.text_length t.now.now) result) }
{
    let rest = rest_in(*t, field, 0, block, j as u64);
    if rest == 0 {
        return BROKEN;
    }
    let way = block.0 as u64 * b as u64;
    pointing_step(t, field, LevelAt { level: 0, b }, block, rest, way)
}

// The place of the j-th occurrence in the text.
pub fn seek(t: &[u8], h: Header, wanted: CountedByte, j: u32) -> Result<(TextPlace, u32), Refusal>
    requires { (HeaderOf t.now h) × (wanted.number < at.counted_count t.now)
        × (wanted.byte ≡ byte_of t.now wanted.number) × (1 ≤ j) × (j ≤ total t.now wanted.number) }
    ensures { (Sought t.now wanted.byte j (replied (find_reply result))) × (NeverZero (find_reply result)) }
{
    let field = CountField {
        size: h.record_size,
        number: wanted.number,
    };
    let block = first_block(t, field, j as u64);
    text_place(h.text_length, word_in(&t, field, h.top_length, block, j))
}
