// The sums along the path of a place, with the added and the subtracted parts apart. The steps of kept and pointing blocks are mutually
// recursive. Their measure is 2 × (levels left), plus 1 while a pointer can be followed. A step carries no header and returns one word.
ghost use Rattle.std.specs.Prelude.{Some, ◌≡◌, cond, ◌+◌, ◌-◌, ◌*◌, ◌≤◌, ◌<◌, eqb};
ghost use Rattle.format.specs.Layout as at;
ghost use Rattle.format.specs.Layout.{max_levels};
ghost use Rattle.format.specs.TreeReading.{path_from, path_of};
ghost use Rattle.layout.specs.HeaderFields.{HeaderOf};
ghost use Rattle.walk_steps.specs.Steps.{OnLevel};
ghost use Rattle.walk_path.specs.Walk.{KeptAt, MayPoint};
ghost use Rattle.query_rank.specs.Sums.{Carried, Across, LandedSum, sum_of, rank_onward, summed, start_sum, whole_sum, settled, settled_from, answer_in};

use layout::header::Header;
use layout::place::{BlockNumber, BlockPlace, TextPlace};
use layout::{fields, record};
use query_counted::CountedByte;
use walk_steps::BlockKind;
use walk_steps::position::{BlockPosition, LevelAt};

// What is carried down a path: the number of blocks entered, the sum of what is added, and the sum of what is subtracted.
#[derive(Clone, Copy)]
pub struct Sum {
    pub entered: u32,
    pub plus: u64,
    pub minus: u64,
}

impl Sum {
    // After one more block, with more added and subtracted.
    fn enter(self, plus: u32, minus: u32) -> Sum
        requires { (self.entered ≤ 2 * max_levels) × (self.plus ≤ 1099511627776) × (self.minus ≤ 1099511627776) }
        ensures { result ≡ rank_onward self plus minus }
    {
        Sum {
            entered: self.entered + 1,
            plus: self.plus + plus as u64,
            minus: self.minus + minus as u64,
        }
    }

    // The result in one word: the count + 2^48 × the blocks entered. A count is never negative.
    fn packed(self) -> u64
        requires { (self.entered ≤ 2 * max_levels + 1) × (self.plus ≤ 1099511627776) }
        ensures { answer_in result ≡ settled (Some self) }
    {
        if self.plus < self.minus {
            return BROKEN;
        }
        (self.plus - self.minus) + 281474976710656 * self.entered as u64
    }
}

// The word of a path that breaks, or of a negative count.
pub const BROKEN: u64 = 18446744073709551615;

// Adds the leaf bytes of a kept block of the last level, up to a place.
fn leaf(
    t: &[u8],
    size: u32,
    wanted: CountedByte,
    on: LevelAt,
    position: BlockPosition,
    sum: Sum,
) -> u64
    requires { (KeptAt t.now size on.level on.b position.block.0 position.place.0 sum.entered) × (Carried t.now wanted.number sum) }
    ensures { answer_in result ≡ settled (summed t.now wanted.byte wanted.number sum
        (path_from t.now 0 on.level position.block.0 position.place.0)) }
{
    let link = record::link(t, size, on.level, position.block);
    let number = link.0 as u64 + position.place.0 as u64;
    let shape = fields::shape_of(t);
    if number < shape.leaf_count as u64 {
        let from = shape.leaf_offset as usize + link.0 as usize;
        let here = byte_slices::count_in(t, from, position.place.0 + 1, wanted.byte);
        let all = sum.enter(here, 0);
        return all.packed();
    }
    BROKEN
}

// A pointing block, and the target that a place of it refers to.
#[derive(Clone, Copy)]
struct Pointer {
    block: BlockNumber,
    target: BlockNumber,
}

// From a pointing block to its target: subtracts the block's skip, and adds the count inside of the first target if the second is entered.
fn across(t: &[u8], size: u32, wanted: CountedByte, level: u32, pointer: Pointer, sum: Sum) -> Sum
    requires { (Across t.now size level pointer.block.0 pointer.target.0) × (sum.entered ≤ 2 * max_levels)
        × (Carried t.now wanted.number sum) }
    ensures value { result ≡ rank_onward sum
        (cond (eqb pointer.target.0 (at.link t.now level pointer.block.0)) 0
        (at.inside t.now level (at.link t.now level pointer.block.0) wanted.number))
        (at.skip t.now level pointer.block.0 wanted.number) }
    ensures carried { Carried t.now wanted.number result }
{
    let link = record::link(t, size, level, pointer.block);
    let skip = record::skip(t, size, level, pointer.block, wanted.number);
    if pointer.target.0 == link.0 {
        return sum.enter(0, skip);
    }
    let inside = record::inside(t, size, level, BlockNumber(link.0), wanted.number);
    sum.enter(inside, skip)
}

// To a child: adds its count before.
fn down(t: &[u8], size: u32, wanted: CountedByte, level: u32, block: BlockNumber, sum: Sum) -> Sum
    requires { (OnLevel t.now size level (at.full_length t.now level))
        × (block.0 < at.level_count t.now level) × (sum.entered ≤ 2 * max_levels) × (Carried t.now wanted.number sum) }
    ensures value { result ≡ rank_onward sum (at.before t.now level block.0 wanted.number) 0 }
    ensures carried { Carried t.now wanted.number result }
{
    let before = record::before(t, size, level, block, wanted.number);
    sum.enter(before, 0)
}

// The kept block that contains a place, the place in it, and what is carried there.
#[derive(Clone, Copy)]
pub struct Landing {
    pub block: BlockNumber,
    pub place: BlockPlace,
    pub sum: Sum,
}

// The kept block for a place of a block: the block itself if it is kept, else the one that it points to. On the last level no block points.
fn to_kept(
    t: &[u8],
    size: u32,
    wanted: CountedByte,
    on: LevelAt,
    position: BlockPosition,
    sum: Sum,
) -> Option<Landing>
    requires { (MayPoint t.now size on.level on.b position.block.0 position.place.0 sum.entered)
        × (Carried t.now wanted.number sum) }
    ensures { LandedSum t.now size on.level on.b wanted.byte wanted.number position.block.0 position.place.0 sum result }
{
    let block = position.block;
    let place = position.place;
    let here = walk_steps::classify_block(t, size, on.level, on.b, block, place);
    match here {
        BlockKind::Kept(_, _) => Some(Landing { block, place, sum }),
        BlockKind::Points(_, _) => {
            let there = walk_steps::resolve_target(t, size, on.level, on.b, block, place);
            let Some(target) = there else {
                return None;
            };
            let pointer = Pointer {
                block,
                target: target.block,
            };
            Some(Landing {
                block: target.block,
                place: target.place,
                sum: across(t, size, wanted, on.level, pointer, sum),
            })
        }
        BlockKind::Off => None,
    }
}

// From a kept block to the child that contains the place. Both steps take single words as arguments: a struct would be packed, or go
// through memory, at each level.
#[cycle(kept_step_pointing_step)]
fn kept_step(
    t: &&[u8],
    size: u32,
    wanted: CountedByte,
    level: u32,
    b: u32,
    block: BlockNumber,
    place: BlockPlace,
    entered: u32,
    plus: u64,
    minus: u64,
) -> u64
    requires { (KeptAt t.now.now size level b block.0 place.0 entered) × (Carried t.now.now wanted.number (sum_of entered plus minus)) }
    ensures { answer_in result ≡ settled_from t.now.now level wanted.byte wanted.number block.0 place.0 (sum_of entered plus minus) }
{
    let tree = *t;
    let sum = Sum {
        entered,
        plus,
        minus,
    };
    let shape = fields::shape_of(tree);
    let under = level + 1;
    if under == shape.levels {
        let on = LevelAt { level, b };
        let position = BlockPosition { block, place };
        return leaf(tree, size, wanted, on, position, sum);
    }
    let below = walk_steps::quotient(b, shape.arity);
    let child = walk_steps::child(tree, size, level, below, block, place);
    let Some(next) = child else {
        return BROKEN;
    };
    let further = down(tree, size, wanted, under, next.block, sum);
    pointing_step(
        t,
        size,
        wanted,
        under,
        below,
        next.block,
        next.place,
        further.entered,
        further.plus,
        further.minus,
    )
}

// From a block at which a pointer may still be followed. The one call of the step for a kept block lets the compiler join the two steps.
#[cycle(kept_step_pointing_step)]
fn pointing_step(
    t: &&[u8],
    size: u32,
    wanted: CountedByte,
    level: u32,
    b: u32,
    block: BlockNumber,
    place: BlockPlace,
    entered: u32,
    plus: u64,
    minus: u64,
) -> u64
    requires { (MayPoint t.now.now size level b block.0 place.0 entered) × (Carried t.now.now wanted.number (sum_of entered plus minus)) }
    ensures { answer_in result ≡ settled_from t.now.now level wanted.byte wanted.number block.0 place.0 (sum_of entered plus minus) }
{
    let tree = *t;
    let sum = Sum {
        entered,
        plus,
        minus,
    };
    let on = LevelAt { level, b };
    let position = BlockPosition { block, place };
    let landing = to_kept(tree, size, wanted, on, position, sum);
    let Some(there) = landing else {
        return BROKEN;
    };
    kept_step(
        t,
        size,
        wanted,
        level,
        b,
        there.block,
        there.place,
        there.sum.entered,
        there.sum.plus,
        there.sum.minus,
    )
}

// The sum at the first block of a path: its count before.
fn start(t: &[u8], h: Header, wanted: CountedByte, block: BlockNumber) -> Sum
    requires { (HeaderOf t.now h) × (block.0 < at.level_count t.now 0) × (wanted.number < at.counted_count t.now) }
    ensures value { result ≡ start_sum t.now wanted.number block.0 }
    ensures carried { Carried t.now wanted.number result }
{
    Sum {
        entered: 0,
        plus: record::before(t, h.record_size, 0, block, wanted.number) as u64,
        minus: 0,
    }
}

// The result along the whole path of a place of the text, in one word.
pub fn walk(t: &[u8], h: Header, wanted: CountedByte, place: TextPlace) -> u64
    requires { (HeaderOf t.now h) × (place.0 < h.text_length) × (wanted.number < at.counted_count t.now) }
    ensures { answer_in result ≡ settled (whole_sum t.now wanted.byte wanted.number (path_of t.now place.0)) }
{
    let position = walk_steps::top_position(place, h.top_length);
    let sum = start(t, h, wanted, position.block);
    pointing_step(
        &t,
        h.record_size,
        wanted,
        0,
        h.top_length,
        position.block,
        position.place,
        sum.entered,
        sum.plus,
        sum.minus,
    )
}
