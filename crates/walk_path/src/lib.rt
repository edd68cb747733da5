// The walk along the path of a place. The steps of kept and pointing blocks are mutually recursive. Their measure is 2 × (levels left), plus 1
// while a pointer can be followed. A step carries no header and returns one word.
#![tactic(auto)]

ghost use Rattle.std.specs.Prelude.{Some, ◌≡◌, ◌+◌, ◌-◌, ◌*◌, ◌/◌, ◌≤◌, ◌<◌};
ghost use Rattle.format.specs.Layout as at;
ghost use Rattle.walk_steps.specs.Steps.{OnLevel};
ghost use Rattle.format.specs.Layout.{max_text, max_levels};
ghost use Rattle.walk_path.specs.Above.{above_from, above_of};
ghost use Rattle.walk_path.specs.Walk.{KeptAt, MayPoint, walked, walked_in, onward, landing_at};

use layout::fields;
use layout::place::{BlockNumber, BlockPlace, TextPlace};
use walk_steps::BlockKind;

// What is carried down a path: the number of blocks entered, and the bytes left after the place in each of them, at the least.
#[derive(Clone, Copy)]
pub struct WalkState {
    pub entered: u32,
    pub left: u32,
}

// Where a path ends on the last level, with what was carried there. The record of this block has not been read.
#[derive(Clone, Copy)]
pub struct PathEnd {
    pub block: BlockNumber,
    pub place: BlockPlace,
    pub state: WalkState,
}

// The kept block that contains a place, the place in it, and what is carried there.
#[derive(Clone, Copy)]
pub struct Landing {
    pub block: BlockNumber,
    pub place: BlockPlace,
    pub state: WalkState,
}

impl WalkState {
    // After one more block is entered at a place; b is the block length of its level.
    pub fn enter(self, b: u32, place: BlockPlace) -> WalkState
        requires { (self.entered ≤ 2 * max_levels) × (place.0 < b) }
        ensures { result ≡ onward self (b - place.0) }
    {
        WalkState {
            entered: self.entered + 1,
            left: byte_slices::min(self.left, b - place.0),
        }
    }
}

// The word of a path that breaks.
const BROKEN: u64 = 18446744073709551615;

// The result of a walk in one word: the block + 2^28 × the place + 2^36 × the blocks entered + 2^40 × the bytes left.
fn packed(block: BlockNumber, place: BlockPlace, state: WalkState) -> u64
    requires { (block.0 < 268435456) × (place.0 < 256) × (state.entered < 16) × (state.left ≤ max_text) }
    ensures { walked_in result ≡ Some (record { block = block; place = place; state = state }) }
{
    let carried = state.entered as u64 + 16 * state.left as u64;
    block.0 as u64 + 268435456 * (place.0 as u64 + 256 * carried)
}

// The walk that such a word represents.
pub fn unpacked(word: u64) -> Option<PathEnd>
    ensures { result ≡ walked_in word }
{
    if word == BROKEN {
        return None;
    }
    Some(PathEnd {
        block: BlockNumber((word % 268435456) as u32),
        place: BlockPlace((word / 268435456 % 256) as u32),
        state: WalkState {
            entered: (word / 68719476736 % 16) as u32,
            left: (word / 1099511627776) as u32,
        },
    })
}

// The kept block for a place of a block above the last level: the block itself if it is kept, else the one that it points to.
fn to_kept(
    t: &[u8],
    size: u32,
    level: u32,
    b: u32,
    block: BlockNumber,
    place: BlockPlace,
    entered: u32,
    left: u32,
) -> Option<Landing>
    requires { (MayPoint t.now size level b block.0 place.0 entered) × (level + 1 < (at.settings t.now).levels) }
    ensures { result ≡ landing_at t.now (record { entered = entered; left = left }) level block.0 place.0 }
{
    let state = WalkState { entered, left };
    let here = walk_steps::classify_block(t, size, level, b, block, place);
    match here {
        BlockKind::Kept(_, _) => Some(Landing {
            block,
            place,
            state,
        }),
        BlockKind::Points(_, _) => {
            let further = state.enter(b, place);
            let there = walk_steps::resolve_target(t, size, level, b, block, place);
            let Some(target) = there else {
                return None;
            };
            Some(Landing {
                block: target.block,
                place: target.place,
                state: further,
            })
        }
        BlockKind::Off => None,
    }
}

// From a kept block above the last level to the child that contains the place; `below` is the block length of the children. The walk ends on the last level,
// where no block points.
// Both steps take single words as arguments: a struct of two words would be packed and unpacked at each level.
#[cycle(kept_step_pointing_step)]
fn kept_step(
    t: &&[u8],
    size: u32,
    level: u32,
    b: u32,
    below: u32,
    block: BlockNumber,
    place: BlockPlace,
    entered: u32,
    left: u32,
) -> u64
    requires { (KeptAt t.now.now size level b block.0 place.0 entered) × (level + 1 < (at.settings t.now.now).levels)
        × (below ≡ b / (at.settings t.now.now).arity) }
    ensures { walked_in result ≡ walked t.now.now (record { entered = entered; left = left })
        (above_from t.now.now ((at.settings t.now.now).levels - 1 - level) level block.0 place.0) }
{
    let tree = *t;
    let shape = fields::shape_of(tree);
    let state = WalkState { entered, left };
    let further = state.enter(b, place);
    let child = walk_steps::child(tree, size, level, below, block, place);
    let Some(next) = child else {
        return BROKEN;
    };
    let down = level + 1;
    if down + 1 == shape.levels {
        return packed(next.block, next.place, further);
    }
    pointing_step(
        t,
        size,
        down,
        below,
        next.block,
        next.place,
        further.entered,
        further.left,
    )
}

// From a block above the last level, at which a pointer may still be followed. The one call of the step for a kept block lets the compiler join
// the two steps; since the arity is read before any branch, it is read and tested once for all levels.
#[cycle(kept_step_pointing_step)]
fn pointing_step(
    t: &&[u8],
    size: u32,
    level: u32,
    b: u32,
    block: BlockNumber,
    place: BlockPlace,
    entered: u32,
    left: u32,
) -> u64
    requires { (MayPoint t.now.now size level b block.0 place.0 entered) × (level + 1 < (at.settings t.now.now).levels) }
    ensures { walked_in result ≡ walked t.now.now (record { entered = entered; left = left })
        (above_from t.now.now ((at.settings t.now.now).levels - 1 - level) level block.0 place.0) }
{
    let tree = *t;
    let shape = fields::shape_of(tree);
    let below = walk_steps::quotient(b, shape.arity);
    let landing = to_kept(tree, size, level, b, block, place, entered, left);
    let Some(there) = landing else {
        return BROKEN;
    };
    kept_step(
        t,
        size,
        level,
        b,
        below,
        there.block,
        there.place,
        there.state.entered,
        there.state.left,
    )
}

// The size of a record, and the block length of level 0.
#[derive(Clone, Copy)]
pub struct TopLevel {
    pub size: u32,
    pub b: u32,
}

// The path of a place of the text down to the last level, as a word; `left` bytes are left at its start.
pub fn walk(t: &&[u8], top: TopLevel, p: TextPlace, left: u32) -> u64
    requires { (OnLevel t.now.now top.size 0 top.b) × (p.0 < at.text_length t.now.now) × (left ≤ max_text) }
    ensures { walked_in result ≡ walked t.now.now (record { entered = 0; left = left }) (above_of t.now.now p.0) }
{
    let position = walk_steps::top_position(p, top.b);
    let block = position.block;
    let place = position.place;
    let shape = fields::shape_of(*t);
    if shape.levels == 1 {
        return packed(block, place, WalkState { entered: 0, left });
    }
    pointing_step(t, top.size, 0, top.b, block, place, 0, left)
}
